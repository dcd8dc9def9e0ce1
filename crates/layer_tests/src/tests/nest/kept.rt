//! Contents octets that were read and are kept as they came.

use crate::tests::nest::reads_as;
use crate::tests::{holds, numbered, same, same_in};
use der_elem::{Choice, DecodeValue, DerOrd, Encode, FromDer, OneTag, Tagged, TakesMemory};
use der_nest::{Kept, SequenceRef, SetOfVec};
use der_tlv::{Error, Length, SliceReader, Tag};
use std::alloc::Global;
use std::cmp::Ordering;
use std::test::Fail;

type KeptNumbers<'a> = Kept<'a, Vec<u16>>;

type KeptSet<'a> = Kept<'a, SetOfVec<u16>>;

/// Returns the octets that are kept.
fn shown<'a, T>(kept: Kept<'a, T>) -> &'a [u8] {
    kept.as_bytes()
}

/// Returns the value that is kept.
fn value_of<'a, T: OneTag + Choice + DecodeValue<'a, SliceReader<'a>>>(
    alloc: Global,
    kept: Kept<'a, T>,
) -> Result<T, u8> {
    numbered(kept.value(alloc))
}

fn kept_numbers<'a>(alloc: Global, octets: &'a [u8]) -> Result<KeptNumbers<'a>, Error> {
    KeptNumbers::from_der(alloc, octets)
}

#[test]
fn octets_are_kept_as_they_came(rt: HostRuntime) -> Result<(), Fail> {
    let alloc = rt.alloc();
    let octets = [0x30, 0x06, 0x02, 0x01, 0x08, 0x02, 0x01, 0x07];
    reads_as::<KeptNumbers>(&rt, alloc, &octets, &octets)?;
    // a set is written in order, and kept as it came
    let set = [0x31, 0x06, 0x02, 0x01, 0x08, 0x02, 0x01, 0x07];
    reads_as::<KeptSet>(&rt, alloc, &set, &set)?;
    holds(&rt, <KeptSet as TakesMemory>::TAKES_MEMORY);
    holds(&rt, !<Kept<'_, u16> as TakesMemory>::TAKES_MEMORY);
    Ok(())
}

#[test]
fn kept_octets_are_shown(rt: HostRuntime) -> Result<(), Fail> {
    let set = [0x31, 0x06, 0x02, 0x01, 0x08, 0x02, 0x01, 0x07];
    let kept = numbered(KeptSet::from_der(rt.alloc(), &set))?;
    same(&rt, shown(kept), &set[2..]);
    Ok(())
}

#[test]
fn kept_octets_have_a_tag(rt: HostRuntime) -> Result<(), Fail> {
    let set = [0x31, 0x06, 0x02, 0x01, 0x08, 0x02, 0x01, 0x07];
    let kept = numbered(KeptSet::from_der(rt.alloc(), &set))?;
    same(&rt, kept.tag(), Tag::Set);
    Ok(())
}

#[test]
fn kept_octets_are_read_again(rt: HostRuntime) -> Result<(), Fail> {
    let set = [0x31, 0x06, 0x02, 0x01, 0x08, 0x02, 0x01, 0x07];
    let kept = numbered(KeptSet::from_der(rt.alloc(), &set))?;
    let value = value_of(rt.alloc(), kept)?;
    same(&rt, value.as_slice(), [7, 8].as_slice());
    Ok(())
}

#[test]
fn kept_octets_are_printed(rt: HostRuntime) -> Result<(), Fail> {
    let set = [0x31, 0x06, 0x02, 0x01, 0x08, 0x02, 0x01, 0x07];
    let kept = numbered(KeptSet::from_der(rt.alloc(), &set))?;
    let text = format!(in rt.alloc(); "{kept:?}")?;
    holds(&rt, !text.as_str().is_empty());
    Ok(())
}

#[test]
fn kept_octets_are_copied(rt: HostRuntime) -> Result<(), Fail> {
    let set = [0x31, 0x06, 0x02, 0x01, 0x08, 0x02, 0x01, 0x07];
    let kept = numbered(KeptSet::from_der(rt.alloc(), &set))?;
    let copy = kept.clone()?;
    holds(&rt, copy == kept);
    Ok(())
}

#[test]
fn what_is_no_value_is_not_kept(rt: HostRuntime) {
    let rows: [(&[u8], u8); 6] = [
        // an INTEGER that is not written as it must be
        (&[0x30, 0x04, 0x02, 0x02, 0x00, 0x07], 8),
        // an INTEGER past the end, and of more octets than a number of 16 bits has
        (&[0x30, 0x03, 0x02, 0x02, 0x07], 2),
        (&[0x30, 0x05, 0x02, 0x03, 0x01, 0x00, 0x00], 7),
        // another tag: of the whole, and of an item
        (&[0x31, 0x03, 0x02, 0x01, 0x07], 4),
        (&[0x30, 0x03, 0x04, 0x01, 0x07], 4),
        (&[0x30, 0x03, 0x02, 0x01], 2),
    ];
    for (octets, number) in rows {
        let answer = numbered(kept_numbers(rt.alloc(), octets));
        same_in(&rt, &octets, answer.err(), Some(number));
    }
}

#[test]
fn a_fault_of_kept_octets_has_its_position(rt: HostRuntime) {
    let octets = [0x30, 0x07, 0x02, 0x01, 0x07, 0x02, 0x02, 0x00, 0x07];
    // behind the INTEGER that is not in the fewest octets, as without the keeping
    match kept_numbers(rt.alloc(), &octets) {
        Ok(_) => holds(&rt, false),
        Err(e) => same(&rt, e.position(), Some(Length::new(9))),
    }
}

#[test]
fn kept_octets_are_compared(rt: HostRuntime) -> Result<(), Fail> {
    let alloc = rt.alloc();
    let one = numbered(kept_numbers(alloc, &[0x30, 0x03, 0x02, 0x01, 0x07]))?;
    let other = numbered(kept_numbers(alloc, &[0x30, 0x03, 0x02, 0x01, 0x08]))?;
    holds(&rt, one != other);
    same(&rt, numbered(one.der_cmp(&other)), Ok(Ordering::Less));
    let sequences = (SequenceRef::new(&[0x05, 0x00]), SequenceRef::new(&[0x06]));
    let (Ok(one), Ok(other)) = sequences else {
        return Err("refused".into());
    };
    // by their encodings, of which the length comes before the contents
    same(&rt, numbered(one.der_cmp(&other)), Ok(Ordering::Greater));
    same(
        &rt,
        numbered(one.to_der(alloc))?.as_slice(),
        [0x30, 0x02, 0x05, 0x00].as_slice(),
    );
    Ok(())
}
