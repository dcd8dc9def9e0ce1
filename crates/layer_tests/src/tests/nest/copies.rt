//! The walk over a borrowed set: its copies, and its text. The order of sequences.

use crate::tests::{holds, same};
use der_nest::laws::sequences_by_contents;
use der_nest::{SequenceRef, SetOfRef};
use std::cmp::Ordering;
use std::test::Fail;

#[test]
fn a_copied_walk_goes_on_from_the_same_place(rt: HostRuntime) -> Result<(), Fail> {
    let rising: [u16; 3] = [1, 2, 3];
    let set = match SetOfRef::try_from(rising.as_slice()) {
        Ok(set) => set,
        Err(_) => return Err("refused".into()),
    };
    let mut items = set.iter();
    holds(&rt, items.next().is_some());
    let mut others = items.clone()?;
    same(&rt, others.len(), 2);
    holds(&rt, others.next().is_some());
    same(&rt, items.len(), 2);
    let text = format!(in rt.alloc(); "{set:?} {items:?}")?;
    same(
        &rt,
        text.as_str(),
        "SetOfRef { len: 3, .. } SetOfRefIter { len: 2, .. }",
    );
    Ok(())
}

#[test]
fn sequences_are_ordered_by_their_octets(rt: HostRuntime) -> Result<(), Fail> {
    let (one, other) = match (SequenceRef::new(&[0x05, 0x00]), SequenceRef::new(&[0x06])) {
        (Ok(one), Ok(other)) => (one, other),
        _ => return Err("refused".into()),
    };
    same(&rt, sequences_by_contents(one, other), Ordering::Less);
    Ok(())
}
