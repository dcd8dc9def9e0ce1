//! Borrowed sets: the octets that they are read from and written as, and their calls.

use crate::tests::{holds, numbered, same};
use der_elem::{Decode, DerOrd, Duplicate, Encode, EncodeValue, FromDer, Tagged, TakesMemory};
use der_nest::{SetOfRef, SetOfVec};
use der_opaque::OctetStringRef;
use der_tlv::{Error, ErrorKind, SliceReader, Tag};
use std::alloc::Global;
use std::cmp::Ordering;
use std::process::Abort;
use std::test::Fail;

// Returns the octets that a set is written as after it is read from these octets, or the number
// of the refusal.
fn canonical<'a, T: 'a + Decode<'a, SliceReader<'a>> + Encode + DerOrd + Tagged>(
    alloc: Global,
    octets: &'a [u8],
) -> Result<Vec<u8>, u8> {
    let set: SetOfRef<'a, T> = numbered(SetOfRef::from_der(alloc, octets))?;
    numbered(set.to_der(alloc))
}

// Asserts that the octets are read as a set that is written as the canonical octets.
fn reads_as<'a, T: 'a + Decode<'a, SliceReader<'a>> + Encode + DerOrd + Tagged>(
    rt: &impl Abort,
    alloc: Global,
    octets: &'a [u8],
    encoding: &[u8],
) -> Result<(), u8> {
    let written = canonical::<T>(alloc, octets)?;
    same(rt, written.as_slice(), encoding);
    Ok(())
}

const ORDERED: [u8; 8] = [0x31, 0x06, 0x02, 0x01, 0x07, 0x02, 0x01, 0x08];

#[test]
fn reads_items_in_order(rt: HostRuntime) -> Result<(), Fail> {
    let alloc = rt.alloc();
    reads_as::<u16>(&rt, alloc, &ORDERED, &ORDERED)?;
    let strings = [0x31, 0x04, 0x04, 0x00, 0x04, 0x00];
    reads_as::<OctetStringRef>(&rt, alloc, &strings, &strings)?;
    reads_as::<SetOfVec<u16>>(
        &rt,
        alloc,
        &[0x31, 0x08, 0x31, 0x06, 0x02, 0x01, 0x08, 0x02, 0x01, 0x07],
        &[0x31, 0x08, 0x31, 0x06, 0x02, 0x01, 0x07, 0x02, 0x01, 0x08],
    )?;
    Ok(())
}

#[test]
fn counts_positions_from_the_contents(rt: HostRuntime) {
    let answer: Result<SetOfRef<OctetStringRef>, Error> = SetOfRef::from_der(
        rt.alloc(),
        &[0x31, 0x03, 0x04, 0x02, 0x00],
    );
    match answer {
        Err(e) => match e.kind() {
            ErrorKind::Incomplete {
                expected_len,
                actual_len,
            } => {
                same(&rt, expected_len.value(), 4);
                same(&rt, actual_len.value(), 3);
            }
            _ => assert!(rt; false),
        },
        Ok(_) => assert!(rt; false),
    }
    let other: Result<SetOfRef<OctetStringRef>, Error> = SetOfRef::from_der(
        rt.alloc(),
        &[0x31, 0x04, 0x04, 0x00, 0x05, 0x00],
    );
    match other {
        Err(e) => same(
            &rt,
            e.kind(),
            ErrorKind::TagUnexpected {
                expected: Some(Tag::OctetString),
                actual: Tag::Null,
            },
        ),
        Ok(_) => assert!(rt; false),
    }
}

#[test]
fn borrows_slices_in_order(rt: HostRuntime) -> Result<(), Fail> {
    let alloc = rt.alloc();
    let rising: [u16; 5] = [0, 1, 2, 3, 65535];
    let set = numbered(SetOfRef::try_from(rising.as_slice()))?;
    same(&rt, set.len(), 5);
    holds(&rt, !set.is_empty());
    let written = numbered(set.to_der(alloc))?;
    same(
        &rt,
        written.as_slice(),
        [
            0x31, 0x11, 0x02, 0x01, 0x00, 0x02, 0x01, 0x01, 0x02, 0x01, 0x02, 0x02, 0x01, 0x03,
            0x02, 0x03, 0x00, 0xff, 0xff,
        ]
        .as_slice(),
    );
    let equal: [u16; 2] = [1, 1];
    same(
        &rt,
        numbered(SetOfRef::try_from(equal.as_slice()))?.len(),
        2,
    );
    let falling: [u16; 5] = [3, 2, 1, 65535, 0];
    same(
        &rt,
        numbered(SetOfRef::try_from(falling.as_slice())).err(),
        Some(11),
    );
    Ok(())
}

// Asserts that the items of a set are these numbers, in order, and that an iterator knows how
// many are left.
fn gives(rt: &impl Abort, set: &SetOfRef<'_, u16>, numbers: &[u16]) {
    let mut items = set.iter();
    let mut left = numbers.len();
    for number in numbers {
        same(rt, items.len(), left);
        left = left.saturating_sub(1);
        let item = items.next();
        holds(rt, matches!(item, Some(Ok(found)) if found == *number));
    }
    same(rt, items.len(), 0);
    holds(rt, items.next().is_none());
}

#[test]
fn gives_the_items_of_octets(rt: HostRuntime) -> Result<(), Fail> {
    let alloc = rt.alloc();
    let set: SetOfRef<u16> = numbered(SetOfRef::from_der(alloc, &ORDERED))?;
    gives(&rt, &set, &[7, 8]);
    holds(&rt, matches!(set.get(0), Some(Ok(7))));
    holds(&rt, matches!(set.get(1), Some(Ok(8))));
    holds(&rt, set.get(2).is_none());
    let owned = numbered(set.ref_to_owned(alloc))?;
    same(&rt, owned.as_slice(), [7, 8].as_slice());
    Ok(())
}

#[test]
fn gives_the_items_of_a_slice(rt: HostRuntime) -> Result<(), Fail> {
    let alloc = rt.alloc();
    let owned = numbered(SetOfVec::from_array(alloc, [8u16, 7, 300]))?;
    let set = owned.owned_to_ref();
    gives(&rt, &set, &[7, 8, 300]);
    holds(&rt, matches!(set.get(2), Some(Ok(300))));
    holds(&rt, set.get(3).is_none());
    let again = SetOfRef::from(&set);
    let copy = numbered(again.duplicate())?;
    same(
        &rt,
        numbered(copy.ref_to_owned(alloc))?.as_slice(),
        owned.as_slice(),
    );
    let cloned = copy.clone()?;
    same(&rt, numbered(cloned.der_cmp(&set)), Ok(Ordering::Equal));
    Ok(())
}

// Returns the order of two sets of borrowed numbers.
fn order<'a>(items: &'a [u16], others: &'a [u16]) -> Result<Ordering, u8> {
    let set = numbered(SetOfRef::try_from(items))?;
    let other = numbered(SetOfRef::try_from(others))?;
    numbered(set.der_cmp(&other))
}

#[test]
fn orders_slices_by_encodings(rt: HostRuntime) {
    same(
        &rt,
        order(&[0, 1, 2, 3, 5], &[0, 1, 2, 3, 4]),
        Ok(Ordering::Greater),
    );
    same(
        &rt,
        order(&[0, 1, 2, 3, 4], &[0, 1, 2, 3, 5]),
        Ok(Ordering::Less),
    );
    same(&rt, order(&[1, 2], &[1, 2]), Ok(Ordering::Equal));
}

// Returns the order of a set that is read and a set of borrowed numbers, and the reverse.
fn orders<'a>(
    alloc: Global,
    octets: &'a [u8],
    items: &'a [u16],
) -> Result<(Ordering, Ordering), u8> {
    let read: SetOfRef<'a, u16> = numbered(SetOfRef::from_der(alloc, octets))?;
    let lent = numbered(SetOfRef::try_from(items))?;
    let order = numbered(read.der_cmp(&lent))?;
    Ok((order, numbered(lent.der_cmp(&read))?))
}

#[test]
fn orders_octets_by_encodings(rt: HostRuntime) {
    let alloc = rt.alloc();
    same(
        &rt,
        orders(alloc, &ORDERED, &[7, 8]),
        Ok((Ordering::Equal, Ordering::Equal)),
    );
    same(
        &rt,
        orders(alloc, &ORDERED, &[7, 9]),
        Ok((Ordering::Less, Ordering::Greater)),
    );
    same(
        &rt,
        orders(alloc, &ORDERED, &[7]),
        Ok((Ordering::Greater, Ordering::Less)),
    );
}

// Returns whether reading a set of these items takes memory.
fn takes_memory<'a, T: 'a + Decode<'a, SliceReader<'a>> + DerOrd + Tagged>() -> bool {
    <SetOfRef<'a, T> as TakesMemory<'a>>::TAKES_MEMORY
}

#[test]
fn takes_memory_as_the_items_do(rt: HostRuntime) {
    holds(&rt, !takes_memory::<u16>());
    holds(&rt, takes_memory::<SetOfVec<u16>>());
}

// Iterates over a set of sets. Returns the number of items, or the refusal, which is then the
// last item.
fn walked(rt: &impl Abort, set: &SetOfRef<'_, SetOfVec<u16>>) -> Result<usize, u8> {
    let mut items = set.iter();
    while let Some(item) = items.next() {
        if let Err(e) = item {
            same(rt, items.len(), 0);
            holds(rt, items.next().is_none());
            return Err(e.kind().number());
        }
    }
    Ok(set.len())
}

// Measures a set of sets and returns the result of its comparison with itself.
fn measured(set: &SetOfRef<'_, SetOfVec<u16>>) -> Result<Ordering, u8> {
    numbered(set.value_len())?;
    numbered(set.der_cmp(set))
}

#[test]
fn a_set_of_sets_is_walked(rt: HostRuntime) -> Result<(), Fail> {
    let octets = [
        0x31, 0x0a, 0x31, 0x03, 0x02, 0x01, 0x07, 0x31, 0x03, 0x02, 0x01, 0x08,
    ];
    let set: SetOfRef<SetOfVec<u16>> = numbered(SetOfRef::from_der(rt.alloc(), &octets))?;
    same(&rt, walked(&rt, &set), Ok(2));
    same(&rt, measured(&set), Ok(Ordering::Equal));
    Ok(())
}
