//! Sequences that keep the octets of their items: what is read and refused, and their calls.

use crate::tests::nest::reads_as;
use crate::tests::{holds, numbered, same};
use der_elem::{Choice, Decode, DerOrd, Encode, FromDer, Tagged, TakesMemory};
use der_nest::{SequenceOfRef, SetOfVec};
use der_opaque::OctetStringRef;
use der_tlv::{Error, ErrorKind, SliceReader, Tag};
use std::alloc::Global;
use std::cmp::Ordering;
use std::process::Abort;
use std::test::Fail;

type Numbers<'a> = SequenceOfRef<'a, u16>;

type Strings<'a> = SequenceOfRef<'a, OctetStringRef<'a>>;

type Sets<'a> = SequenceOfRef<'a, SetOfVec<u16>>;

// The INTEGERs 8, 7 and 300.
const NUMBERS: [u8; 12] = [
    0x30, 0x0a, 0x02, 0x01, 0x08, 0x02, 0x01, 0x07, 0x02, 0x02, 0x01, 0x2c,
];

// Two sets; the first one is not in order.
const SETS: [u8; 15] = [
    0x30, 0x0d, 0x31, 0x06, 0x02, 0x01, 0x08, 0x02, 0x01, 0x07, 0x31, 0x03, 0x02, 0x01, 0x09,
];

fn numbers_of<'a>(alloc: Global, octets: &'a [u8]) -> Result<Numbers<'a>, u8> {
    numbered(Numbers::from_der(alloc, octets))
}

fn sets_of<'a>(alloc: Global, octets: &'a [u8]) -> Result<Sets<'a>, u8> {
    numbered(Sets::from_der(alloc, octets))
}

#[test]
fn items_are_read_in_any_order(rt: HostRuntime) -> Result<(), Fail> {
    let alloc = rt.alloc();
    reads_as::<Numbers>(&rt, alloc, &NUMBERS, &NUMBERS)?;
    let strings = [0x30, 0x04, 0x04, 0x00, 0x04, 0x00];
    reads_as::<Strings>(&rt, alloc, &strings, &strings)?;
    Ok(())
}

#[test]
fn what_was_read_is_written_as_it_came(rt: HostRuntime) -> Result<(), Fail> {
    reads_as::<Sets>(&rt, rt.alloc(), &SETS, &SETS)?;
    Ok(())
}

#[test]
fn the_first_fault_is_told_from_the_contents(rt: HostRuntime) {
    let answer: Result<Strings, Error> = SequenceOfRef::from_der(
        rt.alloc(),
        &[0x30, 0x05, 0x04, 0x00, 0x04, 0x02, 0x00],
    );
    match answer {
        Err(e) => match e.kind() {
            ErrorKind::Incomplete {
                expected_len,
                actual_len,
            } => {
                same(&rt, expected_len.value(), 6);
                same(&rt, actual_len.value(), 5);
            }
            _ => assert!(rt; false),
        },
        Ok(_) => assert!(rt; false),
    }
}

// Asserts that the items are these numbers, in order, and that an iterator knows how many are
// left.
fn gives(rt: &impl Abort, sequence: &Numbers<'_>, numbers: &[u16]) {
    let mut items = sequence.iter();
    let mut left = numbers.len();
    for number in numbers {
        same(rt, items.len(), left);
        same(rt, items.size_hint(), (left, Some(left)));
        left = left.saturating_sub(1);
        let item = items.next();
        holds(rt, matches!(item, Some(Ok(found)) if found == *number));
    }
    same(rt, items.len(), 0);
    holds(rt, items.next().is_none());
}

#[test]
fn items_are_read_again(rt: HostRuntime) -> Result<(), Fail> {
    let alloc = rt.alloc();
    let sequence = numbers_of(alloc, &NUMBERS)?;
    same(&rt, sequence.len(), 3);
    holds(&rt, !sequence.is_empty());
    same(&rt, sequence.as_bytes(), &NUMBERS[2..]);
    gives(&rt, &sequence, &[8, 7, 300]);
    same(
        &rt,
        numbered(sequence.ref_to_owned(alloc))?.as_slice(),
        [8, 7, 300].as_slice(),
    );
    Ok(())
}

#[test]
fn an_item_is_read_at_its_place(rt: HostRuntime) -> Result<(), Fail> {
    let sequence = numbers_of(rt.alloc(), &NUMBERS)?;
    holds(&rt, matches!(sequence.get(0), Some(Ok(8))));
    holds(&rt, matches!(sequence.get(2), Some(Ok(300))));
    holds(&rt, sequence.get(3).is_none());
    let mut items = sequence.iter();
    holds(&rt, items.next().is_some());
    // a copy of a walk goes on where the walk stands
    let mut copy = items.clone()?;
    holds(&rt, matches!(copy.next(), Some(Ok(7))));
    holds(&rt, matches!(items.next(), Some(Ok(7))));
    Ok(())
}

#[test]
fn no_items_are_none(rt: HostRuntime) -> Result<(), Fail> {
    let sequence = numbers_of(rt.alloc(), &[0x30, 0x00])?;
    holds(&rt, sequence.is_empty());
    holds(&rt, sequence.iter().next().is_none());
    holds(&rt, sequence.get(0).is_none());
    Ok(())
}

#[test]
fn sequences_are_compared_by_their_octets(rt: HostRuntime) -> Result<(), Fail> {
    let alloc = rt.alloc();
    let one = numbers_of(alloc, &[0x30, 0x03, 0x02, 0x01, 0x07])?;
    let other = numbers_of(alloc, &[0x30, 0x03, 0x02, 0x01, 0x08])?;
    holds(&rt, one != other);
    same(&rt, numbered(one.der_cmp(&other)), Ok(Ordering::Less));
    let copy = one.clone()?;
    holds(&rt, copy == one);
    holds(&rt, SequenceOfRef::from(&other) == other);
    same(&rt, one.tag(), Tag::Sequence);
    Ok(())
}

#[test]
fn sequences_are_printed(rt: HostRuntime) -> Result<(), Fail> {
    let octets = [0x30, 0x03, 0x02, 0x01, 0x07];
    let sequence = numbers_of(rt.alloc(), &octets)?;
    let text = format!(in rt.alloc(); "{sequence:?}")?;
    same(&rt, text.as_str(), "SequenceOfRef { octets: [2, 1, 7] }");
    let items = sequence.iter();
    let text = format!(in rt.alloc(); "{items:?}")?;
    same(&rt, text.as_str(), "SequenceOfRefIter { len: 1, .. }");
    Ok(())
}

// Returns whether reading a sequence of these items takes memory.
fn takes_memory<'a, T: 'a + Decode<'a, SliceReader<'a>> + Choice>() -> bool {
    <SequenceOfRef<'a, T> as TakesMemory<'a>>::TAKES_MEMORY
}

#[test]
fn a_sequence_takes_memory_as_its_items_do(rt: HostRuntime) {
    holds(&rt, !takes_memory::<u16>());
    holds(&rt, takes_memory::<SetOfVec<u16>>());
}

// Iterates over a sequence of sets. Returns the number of items, or the refusal, which is then
// the last item.
fn walked(rt: &impl Abort, sequence: &Sets<'_>) -> Result<usize, u8> {
    let mut items = sequence.iter();
    while let Some(item) = items.next() {
        if let Err(e) = item {
            same(rt, items.len(), 0);
            holds(rt, items.next().is_none());
            return Err(e.kind().number());
        }
    }
    Ok(sequence.len())
}

#[test]
fn a_sequence_of_sets_is_walked(rt: HostRuntime) -> Result<(), Fail> {
    let alloc = rt.alloc();
    let sequence = sets_of(alloc, &SETS)?;
    same(&rt, walked(&rt, &sequence), Ok(2));
    // an item that is read again is written in order
    let first = numbered(sequence.get(0).ok_or("none")?)?;
    same(
        &rt,
        numbered(first.to_der(alloc))?.as_slice(),
        [0x31, 0x06, 0x02, 0x01, 0x07, 0x02, 0x01, 0x08].as_slice(),
    );
    Ok(())
}
