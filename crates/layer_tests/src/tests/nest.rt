//! Sequences and sets, through the traits' bounds.

use crate::tests::{hashed, holds, numbered, same};
use der_elem::{DerOrd, Duplicate, Encode, EncodingEq, FromDer, TakesMemory, ValueOrd};
use der_nest::{SequenceOf, SequenceRef, SetOf, SetOfVec};
use der_tlv::Error;
use std::alloc::Global;
use std::cmp::Ordering;
use std::process::Abort;
use std::test::Fail;

mod borrowed;
mod borrowed_sequences;
mod copies;
mod counting;
mod counting_fixed;
mod kept;
mod lists;
mod many;
mod named_order;
mod non_empty;
mod probes;

// Asserts that the octets are read as a value that is written as `canonical`, measured as that
// number of octets, and copied.
fn reads_as<'a, T: FromDer<'a> + Encode + Duplicate + DerOrd + EncodingEq>(
    rt: &impl Abort,
    alloc: Global,
    octets: &'a [u8],
    canonical: &[u8],
) -> Result<(), u8> {
    let value = numbered(T::from_der(alloc, octets))?;
    let written = numbered(value.to_der(alloc))?;
    same(rt, written.as_slice(), canonical);
    same(
        rt,
        numbered(value.encoded_len())?.value() as usize,
        canonical.len(),
    );
    let copy = numbered(value.duplicate())?;
    holds(rt, copy == value);
    same(rt, numbered(copy.der_cmp(&value)), Ok(Ordering::Equal));
    Ok(())
}

// Asserts what `reads_as` does, for a set of either kind.
fn set_reads_as(rt: &impl Abort, alloc: Global, octets: &[u8], canonical: &[u8]) -> Result<(), u8> {
    reads_as::<SetOfVec<u16>>(rt, alloc, octets, canonical)?;
    reads_as::<SetOf<u16, 2>>(rt, alloc, octets, canonical)
}

#[test]
fn sets_are_read_in_any_order(rt: HostRuntime) -> Result<(), Fail> {
    let falling = [0x31, 0x06, 0x02, 0x01, 0x08, 0x02, 0x01, 0x07];
    let rising = [0x31, 0x06, 0x02, 0x01, 0x07, 0x02, 0x01, 0x08];
    set_reads_as(&rt, rt.alloc(), &falling, &rising)?;
    Ok(())
}

// Returns a set on the heap after insertions, with the greater item inserted twice.
fn inserted(rt: &impl Abort, alloc: Global, b: i32, c: i32) -> Result<SetOfVec<i32>, Error> {
    let mut set = SetOfVec::new(alloc);
    holds(rt, set.is_empty());
    set.insert(c)?;
    set.insert(b)?;
    set.insert(c)?;
    Ok(set)
}

// Asserts the items of a set of three items.
fn is_shown(rt: &impl Abort, set: &SetOfVec<i32>, b: i32, c: i32) {
    holds(rt, set.as_slice() == [b, c, c].as_slice());
    same(rt, set.len(), 3);
    holds(rt, set.get(0) == Some(&b));
    holds(rt, set.get(3).is_none());
    same(rt, set.iter().len(), 3);
}

// Returns the set after an item was added at its end and other items at their positions.
fn extended(
    rt: &impl Abort,
    mut set: SetOfVec<i32>,
    items: Vec<i32>,
    b: i32,
    c: i32,
) -> Result<SetOfVec<i32>, Error> {
    same(rt, numbered(set.insert_ordered(b)), Err(11));
    is_shown(rt, &set, b, c);
    set.insert_ordered(c)?;
    set.extend(items)?;
    Ok(set)
}

// Asserts that sets made from an iterator and from an array equal the set with the same items.
fn are_made(
    rt: &impl Abort,
    alloc: Global,
    set: &SetOfVec<i32>,
    a: i32,
    b: i32,
    c: i32,
) -> Result<(), Fail> {
    let items = Vec::from_array(alloc, [c, b, c, a, c, c])?;
    let collected: SetOfVec<i32> = numbered(SetOfVec::from_iter(alloc, items))?;
    holds(rt, collected == *set);
    let of_array: SetOfVec<i32> = numbered(SetOfVec::from_array(alloc, [c, c, a, b, c, c]))?;
    holds(rt, of_array == *set);
    holds(rt, of_array.into_vec().as_slice() == set.as_slice());
    Ok(())
}

// Returns the items of a vector in order.
fn sorted(items: Vec<i32>) -> Result<Vec<i32>, Error> {
    let set: SetOfVec<i32> = SetOfVec::try_from(items)?;
    Ok(set.into())
}

// Tests the calls of a set on the heap. Each item is greater than the ones before it.
fn heap_calls(rt: &impl Abort, alloc: Global, a: i32, b: i32, c: i32) -> Result<(), Fail> {
    let set = numbered(inserted(rt, alloc, b, c))?;
    let items = Vec::from_array(alloc, [c, a])?;
    let set = numbered(extended(rt, set, items, b, c))?;
    holds(rt, set.as_slice() == [a, b, c, c, c, c].as_slice());
    are_made(rt, alloc, &set, a, b, c)?;
    let items = Vec::from_array(alloc, [c, a, c, a, b, a, c])?;
    let items = numbered(sorted(items))?;
    holds(rt, items.as_slice() == [a, a, a, b, c, c, c].as_slice());
    Ok(())
}

// Returns a full set of two items.
fn full(rt: &impl Abort, a: u16, b: u16, c: u16, d: u16) -> Result<SetOf<u16, 2>, Error> {
    let mut set: SetOf<u16, 2> = SetOf::new();
    holds(rt, set.is_empty());
    set.insert(c)?;
    set.insert(b)?;
    same(rt, numbered(set.insert(a)), Err(10));
    same(rt, numbered(set.insert_ordered(a)), Err(11));
    same(rt, numbered(set.insert_ordered(d)), Err(10));
    Ok(set)
}

// Returns a set with one item inserted twice and another added at the end.
fn twice(b: u16, c: u16) -> Result<SetOf<u16, 10>, Error> {
    let mut set: SetOf<u16, 10> = SetOf::default();
    set.insert(b)?;
    set.insert(b)?;
    set.insert_ordered(c)?;
    Ok(set)
}

// Tests the calls of a set of two items. Each item is greater than the ones before it.
fn array_calls(rt: &impl Abort, a: u16, b: u16, c: u16, d: u16) -> Result<(), u8> {
    let set = numbered(full(rt, a, b, c, d))?;
    holds(rt, set.as_slice() == [b, c].as_slice());
    holds(rt, set.get(0) == Some(&b));
    same(rt, set.iter().len(), set.len());
    holds(rt, set.into_inner().as_slice() == [b, c].as_slice());
    let set = numbered(twice(b, c))?;
    holds(rt, set.as_slice() == [b, b, c].as_slice());
    let set: SetOf<u16, 5> = numbered(SetOf::try_from([c, b, b, d, a]))?;
    holds(rt, set.as_slice() == [a, b, b, c, d].as_slice());
    Ok(())
}

#[test]
fn sets_keep_their_items_in_order(rt: HostRuntime) -> Result<(), Fail> {
    heap_calls(&rt, rt.alloc(), 1, 3, 5)?;
    array_calls(&rt, 6, 7, 8, 9)?;
    // Encodings decide, not numbers: 02 01 7F, 02 02 03 E8, 02 02 FC 18.
    heap_calls(&rt, rt.alloc(), 127, 1000, -1000)?;
    Ok(())
}

// Returns the order of a set of one item and a set of two.
fn set_order(alloc: Global, small: u16, great: u16) -> Result<(Ordering, Ordering), u8> {
    let one: SetOfVec<u16> = numbered(SetOfVec::from_array(alloc, [great]))?;
    let two: SetOfVec<u16> = numbered(SetOfVec::from_array(alloc, [great, small]))?;
    Ok((numbered(one.value_cmp(&two))?, numbered(one.der_cmp(&two))?))
}

#[test]
fn items_decide_the_order_before_their_number(rt: HostRuntime) -> Result<(), Fail> {
    let order = set_order(rt.alloc(), 7, 8)?;
    holds(&rt, order == (Ordering::Greater, Ordering::Less));
    let mut one: SequenceOf<u16, 2> = SequenceOf::new();
    numbered(one.add(8))?;
    let mut two: SequenceOf<u16, 2> = SequenceOf::new();
    numbered(two.add(8))?;
    numbered(two.add(7))?;
    same(&rt, numbered(one.value_cmp(&two)), Ok(Ordering::Less));
    Ok(())
}

// Returns a sequence of two numbers.
fn pair(first: u16, second: u16) -> Result<SequenceOf<u16, 2>, u8> {
    let mut sequence: SequenceOf<u16, 2> = SequenceOf::new();
    numbered(sequence.add(first))?;
    numbered(sequence.add(second))?;
    Ok(sequence)
}

#[test]
fn the_first_items_that_differ_decide(rt: HostRuntime) -> Result<(), Fail> {
    let (great, small) = (pair(0, 2)?, pair(0, 1)?);
    same(&rt, numbered(great.der_cmp(&small)), Ok(Ordering::Greater));
    same(
        &rt,
        numbered(great.value_cmp(&small)),
        Ok(Ordering::Greater),
    );
    let alloc = rt.alloc();
    let great: SetOfVec<u16> = numbered(SetOfVec::from_array(alloc, [0, 1, 2, 3, 5]))?;
    let small: SetOfVec<u16> = numbered(SetOfVec::from_array(alloc, [0, 1, 2, 3, 4]))?;
    same(&rt, numbered(great.der_cmp(&small)), Ok(Ordering::Greater));
    Ok(())
}

#[test]
fn equal_items_are_kept(rt: HostRuntime) -> Result<(), Fail> {
    let alloc = rt.alloc();
    let items = Vec::from_array(alloc, [5u16, 1, 5, 1, 3, 1, 5])?;
    let set = numbered(SetOfVec::try_from(items))?;
    holds(&rt, set.as_slice() == [1, 1, 1, 3, 5, 5, 5].as_slice());
    let written = numbered(set.to_der(alloc))?;
    same(&rt, written.get(0..2), Some([0x31u8, 0x15].as_slice()));
    Ok(())
}

#[test]
fn sets_are_compared_as_values(rt: HostRuntime) -> Result<(), Fail> {
    let small: SetOfVec<i32> = numbered(SetOfVec::from_array(rt.alloc(), [127, -1000]))?;
    let great: SetOfVec<i32> = numbered(SetOfVec::from_array(rt.alloc(), [1000, 127]))?;
    // By numbers 127, -1000 is before 127, 1000; by encodings, 02 02 03 E8 is before 02 02 FC 18.
    same(&rt, small.cmp(&great), Ordering::Less);
    same(&rt, numbered(small.der_cmp(&great)), Ok(Ordering::Greater));
    holds(&rt, small != great);
    same(&rt, small.partial_cmp(&small), Some(Ordering::Equal));
    same(&rt, hashed(&small), hashed(&small));
    let two: SetOf<u16, 2> = numbered(SetOf::try_from([8, 7]))?;
    let of_array: SetOf<u16, 2> = numbered(SetOf::try_from([7, 8]))?;
    holds(&rt, two == of_array);
    same(&rt, two.cmp(&of_array), Ordering::Equal);
    same(&rt, two.partial_cmp(&of_array), Some(Ordering::Equal));
    same(&rt, hashed(&two), hashed(&of_array));
    let mut sequence: SequenceOf<u16, 2> = SequenceOf::new();
    numbered(sequence.add(8))?;
    let text = format!(in rt.alloc(); "{small:?} {two:?} {sequence:?}")?;
    same(&rt, text.as_str(), "[127, -1000] [7, 8] [8]");
    Ok(())
}

#[test]
fn sequences_of_fixed_capacity(rt: HostRuntime) -> Result<(), Fail> {
    let alloc = rt.alloc();
    let mut sequence: SequenceOf<u16, 2> = SequenceOf::default();
    holds(&rt, sequence.is_empty());
    numbered(sequence.add(8))?;
    numbered(sequence.add(7))?;
    same(&rt, numbered(sequence.add(6)), Err(10));
    same(&rt, sequence.as_slice(), [8, 7].as_slice());
    same(&rt, sequence.get(1), Some(&7));
    same(&rt, sequence.iter().len(), sequence.len());
    let written = numbered(sequence.to_der(alloc))?;
    let octets = [0x30, 0x06, 0x02, 0x01, 0x08, 0x02, 0x01, 0x07];
    same(&rt, written.as_slice(), octets.as_slice());
    let items = sequence.as_mut_slice();
    if items.len() == 2 {
        items[1] = 9;
    }
    same(&rt, sequence.into_inner().as_slice(), [8, 9].as_slice());
    reads_as::<SequenceOf<u16, 2>>(&rt, alloc, &octets, &octets)?;
    holds(&rt, !SequenceOf::<u16, 2>::TAKES_MEMORY);
    Ok(())
}

#[test]
fn sequences_that_are_not_looked_at(rt: HostRuntime) {
    let Ok(shorter) = SequenceRef::new(&[0xff, 0xff]) else {
        return;
    };
    same(&rt, shorter.as_bytes(), [0xff, 0xff].as_slice());
    let Ok(longer) = SequenceRef::new(&[0xff, 0xff, 0x00]) else {
        return;
    };
    same(&rt, shorter.cmp(&longer), Ordering::Less);
}
