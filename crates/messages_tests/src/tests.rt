//! The tests of each topic, and the functions that they share.

mod build;
mod callers;
mod enveloped;
mod examples;
mod messages;
mod path;
mod pkcs;
mod pkix;
mod places;
mod shapes;
mod signed;
mod tables;
mod verify;

use der_asn1_types::{DerOrd, Duplicate, Encode, Error, FromDer};
use std::alloc::Global;
use std::cmp::Ordering;
use std::fmt::Debug;
use std::process::Abort;

/// Asserts that the value found is the value wanted.
///
/// The proof of a test processes an assertion in its own body together with all statements before
/// it. Assertions therefore have functions of their own, and each is proved once.
fn same<T: PartialEq + Debug + Drop>(rt: &impl Abort, found: T, wanted: T) {
    assert_eq!(rt; found, wanted);
}

/// Asserts that the value found is the value wanted, and names the case if it is not.
fn same_in<C: Debug, T: PartialEq + Debug + Drop>(rt: &impl Abort, case: &C, found: T, wanted: T) {
    assert_eq!(rt; found, wanted, "{case:?}");
}

/// Asserts that the condition holds.
fn holds(rt: &impl Abort, condition: bool) {
    assert!(rt; condition);
}

/// Writes another octet at an offset.
fn put(rt: &impl Abort, octets: &mut Vec<u8>, place: usize, octet: u8) {
    assert!(rt; place < octets.len());
    octets[place] = octet;
}

/// Returns the value, or the number of the error.
fn numbered<T>(found: Result<T, Error>) -> Result<T, u8> {
    match found {
        Ok(value) => Ok(value),
        Err(e) => Err(e.kind().number()),
    }
}

/// Returns the encoding of the value that the octets are read as, or the number of the refusal.
fn again<'a, T: FromDer<'a> + Encode>(alloc: Global, octets: &'a [u8]) -> Result<Vec<u8>, u8> {
    match T::from_der(alloc, octets) {
        Ok(value) => numbered(value.to_der(alloc)),
        Err(e) => Err(e.kind().number()),
    }
}

/// Returns a copy of the octets, or the number of the error if memory runs out.
fn copied(alloc: Global, octets: &[u8]) -> Result<Vec<u8>, u8> {
    match Vec::from_slice(alloc, octets) {
        Ok(octets) => Ok(octets),
        Err(_) => Err(1),
    }
}

/// Returns the order of two values, and whether they are equal.
fn compared<T: DerOrd + PartialEq>(first: &T, second: &T) -> Result<(Ordering, bool), u8> {
    match first.der_cmp(second) {
        Ok(order) => Ok((order, first == second)),
        Err(e) => Err(e.kind().number()),
    }
}

/// Returns the order of the values of two encodings, and whether they are equal.
fn read_and_compared<'a, T: FromDer<'a> + DerOrd + PartialEq>(
    alloc: Global,
    first: &'a [u8],
    second: &'a [u8],
) -> Result<(Ordering, bool), u8> {
    match (T::from_der(alloc, first), T::from_der(alloc, second)) {
        (Ok(first), Ok(second)) => compared(&first, &second),
        (Err(e), _) => Err(e.kind().number()),
        (Ok(_), Err(e)) => Err(e.kind().number()),
    }
}

/// Returns whether a copy is equal to its source.
fn is_copied<T: Duplicate + PartialEq>(value: &T) -> bool {
    match value.duplicate() {
        Ok(copy) => copy == *value,
        Err(_) => false,
    }
}
