//! How many comparisons insertions make.

use crate::tests::{holds, numbered, same};
use der_elem::{DerOrd, Form};
use der_nest::{Runs, SetOfVec};
use der_tlv::Error;
use std::alloc::{AllocError, Global};
use std::cell::Cell;
use std::cmp::Ordering;
use std::process::Abort;
use std::test::Fail;

// An item that counts its comparisons.
#[derive(Clone, Copy)]
pub struct Counted<'a, T> {
    value: T,
    comparisons: &'a Cell<u32>,
}

impl<'a, T: Form + Copy> Form for Counted<'a, T> {
    ghost encoding = { λ v. T.encoding v.value };

    ghost comparable = { λ v w. T.comparable v.value w.value };

    ghost re_reads = { λ v. T.re_reads v.value };

    ghost accepts = { λ rules v. T.accepts rules v.value };

    ghost parse = { T.parse };

    ghost tags = { T.tags };

    ghost first_tag_of = { λ v. T.first_tag_of v.value };

    ghost readable = { λ v. T.readable v.value };

    ghost TAKES_MEMORY = { T.Form.TAKES_MEMORY };

    ghost parse_of_accepted = { λ rules v. T.parse_of_accepted rules v.value };

    ghost begins = { λ rules v. T.begins rules v.value };

    ghost begins_first = { λ rules v. T.begins_first rules v.value };

    ghost same_length = { λ rules v. T.same_length rules v.value };

    ghost accepts_encoding = { λ rules v. T.accepts_encoding rules v.value };

    ghost only_readable = { λ rules v. T.only_readable rules v.value };

    ghost accepts_comparable = { λ rules v w. T.accepts_comparable rules v.value w.value };

    ghost re_reads_memory = { λ v. T.re_reads_memory v.value };

    ghost FAULTS_FIRST = { T.FAULTS_FIRST };

    ghost faults_of_octets = { T.faults_of_octets };
}

impl<'a, T: DerOrd + Copy> DerOrd for Counted<'a, T> {
    fn der_cmp(&self, other: &Counted<'a, T>) -> Result<Ordering, Error> {
        self.comparisons.set(self.comparisons.get().wrapping_add(1));
        self.value.der_cmp(&other.value)
    }
}

pub fn with_count<T>(value: T, comparisons: &Cell<u32>) -> Counted<'_, T> {
    Counted { value, comparisons }
}

// Asserts that an item is compared at most as many times as the number of items has binary
// digits.
pub fn few(rt: &impl Abort, items: usize, comparisons: &Cell<u32>) {
    let digits = usize::BITS - items.leading_zeros();
    holds(rt, comparisons.get() <= digits);
}

// Inserts the items and checks the number of comparisons of each.
fn inserts<T: DerOrd>(
    rt: &impl Abort,
    alloc: Global,
    items: Vec<T>,
    comparisons: &Cell<u32>,
) -> Result<(), u8> {
    let mut set = SetOfVec::new(alloc);
    for item in items {
        let before = set.len();
        comparisons.set(0);
        numbered(set.insert(item))?;
        few(rt, before, comparisons);
    }
    Ok(())
}

// Adds the items at the end. Each is compared with the last one only.
fn appends<T: DerOrd>(
    rt: &impl Abort,
    alloc: Global,
    items: Vec<T>,
    comparisons: &Cell<u32>,
) -> Result<(), u8> {
    let mut set = SetOfVec::new(alloc);
    for item in items {
        let wanted = if set.is_empty() { 0 } else { 1 };
        comparisons.set(0);
        numbered(set.insert_ordered(item))?;
        same(rt, comparisons.get(), wanted);
    }
    Ok(())
}

// Returns the numbers from 1 to 4000. Each is the previous one, times `factor`, plus `step`,
// modulo 4001, which is prime.
fn series<'a>(
    alloc: Global,
    comparisons: &'a Cell<u32>,
    factor: u32,
    step: u32,
) -> Result<Vec<Counted<'a, u32>>, AllocError> {
    let mut items = Vec::new(alloc);
    let mut value = if step == 0 { 1 } else { 0 };
    for _i in 0..4000u16 {
        value = (value % 4001 * (factor % 4001) + step % 4001) % 4001;
        items.push(with_count(value, comparisons))?;
    }
    Ok(items)
}

// Returns the number of comparisons of a reading.
fn read<T: DerOrd>(alloc: Global, items: Vec<T>, comparisons: &Cell<u32>) -> Result<u32, u8> {
    comparisons.set(0);
    let mut runs = Runs::new(alloc);
    for item in items {
        numbered(runs.add(item))?;
    }
    numbered(runs.merge())?;
    Ok(comparisons.get())
}

// Returns the number of comparisons to make a set from an iterator's items.
fn collected<T: DerOrd>(alloc: Global, items: Vec<T>, comparisons: &Cell<u32>) -> Result<u32, u8> {
    comparisons.set(0);
    numbered(SetOfVec::from_iter(alloc, items))?;
    Ok(comparisons.get())
}

// Returns the number of comparisons to extend a set by items.
fn extended<T: DerOrd>(alloc: Global, items: Vec<T>, comparisons: &Cell<u32>) -> Result<u32, u8> {
    comparisons.set(0);
    let mut set = SetOfVec::new(alloc);
    numbered(set.extend(items))?;
    Ok(comparisons.get())
}

// Returns the number of comparisons to make a set from a vector.
fn sorted<T: DerOrd>(items: Vec<T>, comparisons: &Cell<u32>) -> Result<u32, u8> {
    comparisons.set(0);
    numbered(SetOfVec::try_from(items))?;
    Ok(comparisons.get())
}

#[test]
fn an_insertion_compares_as_often_as_the_number_of_items_has_digits(
    rt: HostRuntime,
) -> Result<(), Fail> {
    let comparisons = Cell::new(0);
    let mut items = Vec::new(rt.alloc());
    for _i in 0..4001u16 {
        items.push(with_count(5u16, &comparisons))?;
    }
    inserts(&rt, rt.alloc(), items, &comparisons)?;
    Ok(())
}

#[test]
fn an_item_at_the_end_is_compared_once(rt: HostRuntime) -> Result<(), Fail> {
    let comparisons = Cell::new(0);
    let items = series(rt.alloc(), &comparisons, 1, 1)?;
    appends(&rt, rt.alloc(), items, &comparisons)?;
    Ok(())
}

// The number of comparisons to put items into a set, in four ways.
#[derive(Drop)]
struct Counts {
    read: u32,
    collected: u32,
    extended: u32,
    sorted: u32,
}

// Returns the number of comparisons to put 4000 numbers into a set, in four ways.
fn four_ways(alloc: Global, factor: u32, step: u32) -> Result<Counts, Fail> {
    let comparisons = Cell::new(0);
    let items = series(alloc, &comparisons, factor, step)?;
    let read = read(alloc, items, &comparisons)?;
    let items = series(alloc, &comparisons, factor, step)?;
    let collected = collected(alloc, items, &comparisons)?;
    let items = series(alloc, &comparisons, factor, step)?;
    let extended = extended(alloc, items, &comparisons)?;
    let items = series(alloc, &comparisons, factor, step)?;
    let sorted = sorted(items, &comparisons)?;
    Ok(Counts {
        read,
        collected,
        extended,
        sorted,
    })
}

// A reading compares the second item of a run twice, because the run might fall.
#[test]
fn rising_items_are_compared_once_each(rt: HostRuntime) -> Result<(), Fail> {
    let counts = four_ways(rt.alloc(), 1, 1)?;
    same(&rt, counts.read, 4000);
    same(&rt, counts.collected, 3999);
    same(&rt, counts.extended, 3999);
    same(&rt, counts.sorted, 3999);
    Ok(())
}

// 43905 is the sum of the numbers of binary digits of 0 to 3999.
#[test]
fn falling_items_are_compared_as_often_as_their_numbers_have_digits(
    rt: HostRuntime,
) -> Result<(), Fail> {
    let counts = four_ways(rt.alloc(), 1, 4000)?;
    same(&rt, counts.read, 3999);
    holds(&rt, counts.collected <= 43905);
    holds(&rt, counts.extended <= 43905);
    holds(&rt, counts.sorted <= 43905);
    Ok(())
}

#[test]
fn other_items_are_compared_about_as_often(rt: HostRuntime) -> Result<(), Fail> {
    let counts = four_ways(rt.alloc(), 3, 0)?;
    same(&rt, counts.read, 49553);
    same(&rt, counts.collected, 42322);
    same(&rt, counts.extended, 42322);
    same(&rt, counts.sorted, 42322);
    Ok(())
}

// Returns 4000 falling numbers, each repeated `times` times.
fn falling_in_steps<'a>(
    alloc: Global,
    comparisons: &'a Cell<u32>,
    times: u32,
) -> Result<Vec<Counted<'a, u32>>, AllocError> {
    let mut items = Vec::new(alloc);
    for i in 0..4000u32 {
        items.push(with_count(4000 - i / times.max(1), comparisons))?;
    }
    Ok(items)
}

#[test]
fn falling_items_with_ties_are_compared_once_each(rt: HostRuntime) -> Result<(), Fail> {
    let comparisons = Cell::new(0);
    for times in [2, 3, 129] {
        let items = falling_in_steps(rt.alloc(), &comparisons, times)?;
        same(&rt, read(rt.alloc(), items, &comparisons)?, 3999);
    }
    Ok(())
}
