//! Fields by their names, and values of fields.

use crate::tests::{holds, numbered, same};
use der_elem::FromDer;
use der_shapes::shapes::{Pair, Subtree};
use std::alloc::Global;
use std::process::Abort;
use std::test::Fail;

// Returns the minimum, whether a maximum is present, `only`, and the number of statuses.
fn bounds_of(alloc: Global, octets: &[u8]) -> Result<(u8, bool, bool, usize), u8> {
    match Subtree::from_der(alloc, octets) {
        Ok(subtree) => {
            let statuses = match subtree.statuses() {
                Some(statuses) => numbered(statuses.count(alloc))?,
                None => 0,
            };
            let is_bounded = subtree.maximum().is_some();
            Ok((subtree.minimum(), is_bounded, subtree.only(), statuses))
        }
        Err(e) => Err(e.kind().number()),
    }
}

// Returns whether the identifier of a pair has these contents octets.
fn is_of_type(alloc: Global, octets: &[u8], identifier: &[u8]) -> bool {
    match Pair::from_der(alloc, octets) {
        Ok(pair) => pair.type_().as_bytes() == identifier,
        Err(_) => false,
    }
}

#[test]
fn fields_after_tags_are_values(rt: HostRuntime) -> Result<(), Fail> {
    let alloc = rt.alloc();
    let none = hex::decode(alloc, "6307a5058b03614062")?;
    let all = hex::decode(alloc, "6317a5058b03614062800105810200ffc201ffa30480008200")?;
    same(
        &rt,
        bounds_of(alloc, none.as_slice()),
        Ok((0, false, false, 0)),
    );
    same(
        &rt,
        bounds_of(alloc, all.as_slice()),
        Ok((5, true, true, 2)),
    );
    Ok(())
}

#[test]
fn an_identifier_owns_its_octets(rt: HostRuntime) -> Result<(), Fail> {
    let alloc = rt.alloc();
    let octets = hex::decode(alloc, "300806035504030c0161")?;
    holds(&rt, is_of_type(alloc, octets.as_slice(), &[0x55, 4, 3]));
    Ok(())
}
