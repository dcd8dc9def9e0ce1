//! Sets whose order is named by a type, and sets of values of any type.

use crate::tests::nest::reads_as;
use crate::tests::{hashed, holds, numbered, same, same_in};
use der_elem::{DerOrd, Encode, FromDer};
use der_nest::{ItemSet, SetOfVec, Values};
use der_opaque::{Any, AnyRef};
use der_tlv::Error;
use std::alloc::Global;
use std::cmp::Ordering;
use std::process::Abort;
use std::test::Fail;

/// `SET OF ANY`, borrowed.
type AnyRefs<'a> = ItemSet<AnyRef<'a>, Values>;

/// `SET OF ANY`, owned.
type Anys = ItemSet<Any, Values>;

// BOOLEAN TRUE, INTEGER 5, INTEGER 6, OCTET STRING of one octet 00, in order.
const RISING: [u8; 14] = [
    0x31, 0x0c, 0x01, 0x01, 0xff, 0x02, 0x01, 0x05, 0x02, 0x01, 0x06, 0x04, 0x01, 0x00,
];

// Reads the octets as a set of values of any type, borrowed and owned, that is written as
// `canonical`. Returns the numbers of the refusals.
fn read_as(
    rt: &impl Abort,
    alloc: Global,
    octets: &[u8],
    canonical: &[u8],
) -> (Result<(), u8>, Result<(), u8>) {
    (
        reads_as::<AnyRefs>(rt, alloc, octets, canonical),
        reads_as::<Anys>(rt, alloc, octets, canonical),
    )
}

#[test]
fn values_of_any_type_stand_by_their_tags_first(rt: HostRuntime) {
    let rows: [(&[u8], &[u8]); 4] = [
        (
            &[
                0x31, 0x0c, 0x04, 0x01, 0x00, 0x02, 0x01, 0x06, 0x01, 0x01, 0xff, 0x02, 0x01, 0x05,
            ],
            &RISING,
        ),
        (&RISING, &RISING),
        (&[0x31, 0x00], &[0x31, 0x00]),
        // The INTEGER 128 is 02 02 00 80, so it stands after 6, and a SEQUENCE after an OCTET STRING.
        (
            &[
                0x31, 0x0d, 0x30, 0x02, 0x05, 0x00, 0x02, 0x02, 0x00, 0x80, 0x04, 0x00, 0x02, 0x01,
                0x06,
            ],
            &[
                0x31, 0x0d, 0x02, 0x01, 0x06, 0x02, 0x02, 0x00, 0x80, 0x04, 0x00, 0x30, 0x02, 0x05,
                0x00,
            ],
        ),
    ];
    for (octets, canonical) in rows {
        let answers = read_as(&rt, rt.alloc(), octets, canonical);
        same_in(&rt, &octets, answers, (Ok(()), Ok(())));
    }
}

#[test]
fn sets_of_any_values_refuse_other_octets(rt: HostRuntime) {
    let rows: [(&[u8], u8); 6] = [
        (&[0x30, 0x00], 4),
        (&[0x31, 0x02, 0x02, 0x05], 2),
        (&[0x31, 0x02, 0x22, 0x00], 8),
        (&[0x31, 0x02, 0x07, 0x00], 5),
        (&[0x31, 0x02, 0x04, 0x80], 16),
        (&[0x31, 0x00, 0x00], 3),
    ];
    for (octets, number) in rows {
        let answers = read_as(&rt, rt.alloc(), octets, &[]);
        same_in(&rt, &octets, answers, (Err(number), Err(number)));
    }
}

// Returns a set after insertions, with the greater item inserted twice.
fn inserted(rt: &impl Abort, alloc: Global, b: i32, c: i32) -> Result<ItemSet<i32>, Error> {
    let mut set = ItemSet::new(alloc);
    holds(rt, set.is_empty());
    set.insert(c)?;
    set.insert(b)?;
    set.insert(c)?;
    Ok(set)
}

// Asserts the items of a set of three items.
fn is_shown(rt: &impl Abort, set: &ItemSet<i32>, b: i32, c: i32) {
    holds(rt, set.as_slice() == [b, c, c].as_slice());
    same(rt, set.len(), 3);
    holds(rt, set.get(0) == Some(&b));
    holds(rt, set.get(3).is_none());
    same(rt, set.iter().len(), 3);
}

// Returns the set after an item was added at its end and other items at their positions.
fn extended(
    rt: &impl Abort,
    mut set: ItemSet<i32>,
    items: Vec<i32>,
    b: i32,
    c: i32,
) -> Result<ItemSet<i32>, Error> {
    same(rt, numbered(set.insert_ordered(b)), Err(11));
    is_shown(rt, &set, b, c);
    set.insert_ordered(c)?;
    set.extend(items)?;
    Ok(set)
}

// Asserts that sets made from all items at once equal the set with the same items.
fn are_made(
    rt: &impl Abort,
    alloc: Global,
    set: &ItemSet<i32>,
    a: i32,
    b: i32,
    c: i32,
) -> Result<(), Fail> {
    let items = Vec::from_array(alloc, [c, b, c, a, c, c])?;
    let collected: ItemSet<i32> = numbered(ItemSet::from_iter(alloc, items))?;
    holds(rt, collected == *set);
    let of_array: ItemSet<i32> = numbered(ItemSet::from_array(alloc, [c, c, a, b, c, c]))?;
    holds(rt, of_array == *set);
    let of_set: ItemSet<i32> = ItemSet::of_set(numbered(SetOfVec::from_array(alloc, [c, a]))?);
    holds(rt, of_set.into_vec().as_slice() == [a, c].as_slice());
    Ok(())
}

// Returns the items of a vector in order.
fn sorted(items: Vec<i32>) -> Result<Vec<i32>, Error> {
    let set: ItemSet<i32> = ItemSet::try_from(items)?;
    Ok(set.into())
}

// Tests the calls of a set. Each item is greater than the ones before it.
fn calls(rt: &impl Abort, alloc: Global, a: i32, b: i32, c: i32) -> Result<(), Fail> {
    let set = numbered(inserted(rt, alloc, b, c))?;
    let items = Vec::from_array(alloc, [c, a])?;
    let set = numbered(extended(rt, set, items, b, c))?;
    holds(rt, set.as_slice() == [a, b, c, c, c, c].as_slice());
    are_made(rt, alloc, &set, a, b, c)?;
    let items = Vec::from_array(alloc, [c, a, c, a, b, a, c])?;
    let items = numbered(sorted(items))?;
    holds(rt, items.as_slice() == [a, a, a, b, c, c, c].as_slice());
    Ok(())
}

#[test]
fn named_sets_keep_their_items_in_order(rt: HostRuntime) -> Result<(), Fail> {
    calls(&rt, rt.alloc(), 1, 3, 5)?;
    // Encodings decide, not numbers: 02 01 7F, 02 02 03 E8, 02 02 FC 18.
    calls(&rt, rt.alloc(), 127, 1000, -1000)?;
    Ok(())
}

#[test]
fn named_sets_are_compared_as_values(rt: HostRuntime) -> Result<(), Fail> {
    let small: ItemSet<i32> = numbered(ItemSet::from_array(rt.alloc(), [127, -1000]))?;
    let great: ItemSet<i32> = numbered(ItemSet::from_array(rt.alloc(), [1000, 127]))?;
    same(&rt, small.cmp(&great), Ordering::Less);
    same(&rt, small.partial_cmp(&great), Some(Ordering::Less));
    same(&rt, numbered(small.der_cmp(&great)), Ok(Ordering::Greater));
    holds(&rt, small != great);
    same(&rt, hashed(&small), hashed(&small));
    for item in &small {
        holds(&rt, *item == 127 || *item == -1000);
    }
    let text = format!(in rt.alloc(); "{small:?}")?;
    same(&rt, text.as_str(), "[127, -1000]");
    Ok(())
}

#[test]
fn a_value_of_another_type_goes_to_its_place(rt: HostRuntime) -> Result<(), Fail> {
    let alloc = rt.alloc();
    let mut set = numbered(AnyRefs::from_der(alloc, &RISING))?;
    match AnyRef::from_der(alloc, &[0x03, 0x01, 0x00]) {
        Ok(bits) => numbered(set.insert(bits))?,
        Err(_) => return Err("refused".into()),
    }
    let written = numbered(set.to_der(alloc))?;
    let octets = [
        0x31, 0x0f, 0x01, 0x01, 0xff, 0x02, 0x01, 0x05, 0x02, 0x01, 0x06, 0x03, 0x01, 0x00, 0x04,
        0x01, 0x00,
    ];
    same(&rt, written.as_slice(), octets.as_slice());
    Ok(())
}
