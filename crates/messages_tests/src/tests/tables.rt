//! What is tried of each row of a table, of messages that OpenSSL wrote and of octets that are refused.
//!
//! A file of a topic has its tables; these functions go over them, and are proved once, for all.

use crate::tests::messages::{Message, tried_as};
use crate::tests::{put, same_in};
use std::alloc::Global;
use std::cmp::Ordering;
use std::process::Abort;
use std::test::Fail;

/// Asserts that each row is read and written back, that its copy is equal to it, and that it is
/// equal to itself.
pub(super) fn are_written_back(
    rt: &impl Abort,
    alloc: Global,
    rows: &[(Message, &str)],
) -> Result<(), Fail> {
    for row in rows {
        let (message, digits) = *row;
        let octets = hex::decode(alloc, digits)?;
        let found = tried_as(message, alloc, octets.as_slice(), octets.as_slice());
        let wanted = hex::decode(alloc, digits)?;
        same_in(rt, &row, found, Ok((wanted, true, Ordering::Equal, true)));
    }
    Ok(())
}

/// Asserts that each proper prefix of the row is refused, since octets are missing.
fn cuts_are_refused(rt: &impl Abort, alloc: Global, row: &(Message, &str)) -> Result<(), Fail> {
    let (message, digits) = *row;
    let octets = hex::decode(alloc, digits)?;
    for i in 0..octets.len() {
        let found = tried_as(message, alloc, &octets[..i], &octets[..i]);
        same_in(rt, &(row, i), found.err(), Some(2));
    }
    Ok(())
}

/// Asserts that each proper prefix of each row is refused.
pub(super) fn all_cuts_are_refused(
    rt: &impl Abort,
    alloc: Global,
    rows: &[(Message, &str)],
) -> Result<(), Fail> {
    for row in rows {
        cuts_are_refused(rt, alloc, row)?;
    }
    Ok(())
}

/// Asserts that each row is refused with its number.
pub(super) fn are_refused(
    rt: &impl Abort,
    alloc: Global,
    rows: &[(Message, &str, u8)],
) -> Result<(), Fail> {
    for row in rows {
        let (message, digits, number) = *row;
        let octets = hex::decode(alloc, digits)?;
        let found = tried_as(message, alloc, octets.as_slice(), octets.as_slice());
        same_in(rt, row, found.err(), Some(number));
    }
    Ok(())
}

/// Asserts that each row with another octet at an offset is refused with its number.
pub(super) fn changes_are_refused(
    rt: &impl Abort,
    alloc: Global,
    rows: &[(Message, &str, usize, u8, u8)],
) -> Result<(), Fail> {
    for row in rows {
        let (message, digits, place, octet, number) = *row;
        let mut octets = hex::decode(alloc, digits)?;
        put(rt, &mut octets, place, octet);
        let found = tried_as(message, alloc, octets.as_slice(), octets.as_slice());
        same_in(rt, row, found.err(), Some(number));
    }
    Ok(())
}

/// Asserts that the two values of each row are in its order and not equal.
pub(super) fn are_in_order(
    rt: &impl Abort,
    alloc: Global,
    rows: &[(Message, &str, &str, Ordering)],
) -> Result<(), Fail> {
    for row in rows {
        let (message, first, second, order) = *row;
        let first = hex::decode(alloc, first)?;
        let second = hex::decode(alloc, second)?;
        match tried_as(message, alloc, first.as_slice(), second.as_slice()) {
            Ok((_, _, found, equal)) => same_in(rt, row, (found, equal), (order, false)),
            Err(number) => same_in(rt, row, number, 0),
        }
    }
    Ok(())
}
