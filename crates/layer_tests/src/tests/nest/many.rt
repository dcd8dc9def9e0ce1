//! Sets of many items.

use crate::tests::{holds, numbered, same};
use der_elem::{Encode, FromDer};
use der_nest::{SetOfRef, SetOfVec};
use std::alloc::{AllocError, Global};
use std::process::Abort;
use std::test::Fail;

// Returns the numbers below 4000, falling.
fn falling(alloc: Global) -> Result<Vec<u16>, AllocError> {
    let mut numbers = Vec::new(alloc);
    for i in 0..4000u16 {
        numbers.push(3999 - i)?;
    }
    Ok(numbers)
}

// Returns the number with which a borrowed set refuses the octets.
fn refusal(alloc: Global, octets: &[u8]) -> Option<u8> {
    match SetOfRef::<u16>::from_der(alloc, octets) {
        Ok(_) => None,
        Err(e) => Some(e.kind().number()),
    }
}

// Asserts that the item at each index is the index.
fn counts_up(rt: &impl Abort, items: &[u16]) {
    assert_eq!(rt; items.len(), 4000);
    for i in 0..items.len() {
        same(rt, usize::from(items[i]), i);
    }
}

// Returns the octets of a set whose items are the numbers in the given order.
fn set_octets(alloc: Global, numbers: &Vec<u16>) -> Result<Vec<u8>, u8> {
    let mut octets = numbered(numbers.to_der(alloc))?;
    if octets.is_empty() {
        return Err(0);
    }
    octets[0] = 0x31;
    Ok(octets)
}

fn read_set(alloc: Global, octets: &[u8]) -> Result<SetOfVec<u16>, u8> {
    numbered(SetOfVec::from_der(alloc, octets))
}

// Asserts that the numbers are sorted to the set and written in order.
fn sorts_to(
    rt: &impl Abort,
    alloc: Global,
    numbers: Vec<u16>,
    set: &SetOfVec<u16>,
) -> Result<(), u8> {
    let sorted: SetOfVec<u16> = numbered(SetOfVec::try_from(numbers))?;
    holds(rt, sorted == *set);
    let written = numbered(sorted.to_der(alloc))?;
    same(rt, refusal(alloc, written.as_slice()), None);
    Ok(())
}

#[test]
fn falling_numbers_are_put_in_order(rt: HostRuntime) -> Result<(), Fail> {
    let numbers = falling(rt.alloc())?;
    let octets = set_octets(rt.alloc(), &numbers)?;
    same(&rt, octets.len(), 15876);
    same(&rt, refusal(rt.alloc(), octets.as_slice()), Some(11));
    let read = read_set(rt.alloc(), octets.as_slice())?;
    counts_up(&rt, read.as_slice());
    sorts_to(&rt, rt.alloc(), numbers, &read)?;
    Ok(())
}

// Asserts that a set read from the numbers' octets equals the sorted numbers.
fn is_read_as_a_list(
    rt: &impl Abort,
    alloc: Global,
    numbers: &Vec<u16>,
    list: &[u16],
) -> Result<(), u8> {
    let octets = set_octets(alloc, numbers)?;
    let read = read_set(alloc, octets.as_slice())?;
    holds(rt, read.as_slice() == list);
    Ok(())
}

// Asserts that a set of the numbers equals the sorted numbers, and that a set that is read does
// too.
fn is_sorted_as_a_list(rt: &impl Abort, alloc: Global, numbers: Vec<u16>) -> Result<(), Fail> {
    let mut list = numbers.clone()?;
    list.sort()?;
    is_read_as_a_list(rt, alloc, &numbers, list.as_slice())?;
    let set: SetOfVec<u16> = numbered(SetOfVec::try_from(numbers))?;
    holds(rt, set.as_slice() == list.as_slice());
    Ok(())
}

// Returns 1000 numbers below 1000. Each is the previous number plus `step`, modulo 1000.
fn stepping(alloc: Global, step: u16) -> Result<Vec<u16>, AllocError> {
    let mut numbers = Vec::new(alloc);
    let mut number = 0;
    for _i in 0..1000u16 {
        numbers.push(number)?;
        number = (number % 1000 + step % 1000) % 1000;
    }
    Ok(numbers)
}

// Returns 1000 falling numbers, each repeated `times` times.
fn falling_in_steps(alloc: Global, times: u16) -> Result<Vec<u16>, AllocError> {
    let mut numbers = Vec::new(alloc);
    for i in 0..1000u16 {
        numbers.push(1000 - i / times.max(1))?;
    }
    Ok(numbers)
}

// Returns `count` numbers below 50, in no order.
fn scattered(alloc: Global, count: u16) -> Result<Vec<u16>, AllocError> {
    let mut numbers = Vec::new(alloc);
    let mut state: u64 = 0x2319;
    for _i in 0..count {
        numbers.push(((state >> 33 & 0xffff) % 50) as u16)?;
        state = state
            .wrapping_mul(6_364_136_223_846_793_005)
            .wrapping_add(1_442_695_040_888_963_407);
    }
    Ok(numbers)
}

#[test]
fn sets_are_sorted_as_lists_are(rt: HostRuntime) -> Result<(), Fail> {
    let mut numbers = Vec::new(rt.alloc());
    for i in 0..2000u16 {
        numbers.push(1999 - i)?;
    }
    is_sorted_as_a_list(&rt, rt.alloc(), numbers)?;
    for count in [0, 1, 2, 5, 17, 64, 257, 1000] {
        is_sorted_as_a_list(&rt, rt.alloc(), scattered(rt.alloc(), count)?)?;
    }
    Ok(())
}

#[test]
fn runs_that_fall_and_rise_are_sorted_as_lists_are(rt: HostRuntime) -> Result<(), Fail> {
    for step in [1, 2, 5, 200, 333, 500, 800, 995, 998, 999] {
        is_sorted_as_a_list(&rt, rt.alloc(), stepping(rt.alloc(), step)?)?;
    }
    for times in [1, 2, 3, 140, 1000] {
        is_sorted_as_a_list(&rt, rt.alloc(), falling_in_steps(rt.alloc(), times)?)?;
    }
    Ok(())
}
