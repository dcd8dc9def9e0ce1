//! Numbers, bits, characters, text, times and tagged values, and the functions that their tests share.

mod ascii;
mod bits;
mod enumerated;
mod named_bits;
mod numbers;
mod text;
mod time;
mod wrap;

use crate::tests::{holds, numbered, same};
use der_elem::{DerOrd, Duplicate, Encode, EncodingEq, FromDer};
use der_tlv::Error;
use std::alloc::Global;
use std::cmp::Ordering;
use std::process::Abort;

/// Reads octets as a value of the type, and writes the value again.
fn round_trip<'a, T: FromDer<'a> + Encode>(
    alloc: Global,
    octets: &'a [u8],
) -> Result<Vec<u8>, Error> {
    let value = T::from_der(alloc, octets)?;
    value.to_der(alloc)
}

/// Returns whether octets are read as a value of the type, and written again unchanged.
fn stays<'a, T: FromDer<'a> + Encode>(alloc: Global, octets: &'a [u8]) -> bool {
    match round_trip::<T>(alloc, octets) {
        Ok(written) => written.as_slice() == octets,
        Err(_) => false,
    }
}

/// Asserts that the octets are read as a value that is written as these octets, measured as their
/// number, and copied.
fn reads_back<'a, T: FromDer<'a> + Encode + Duplicate + EncodingEq>(
    rt: &impl Abort,
    alloc: Global,
    octets: &'a [u8],
) -> Result<(), u8> {
    let value = numbered(T::from_der(alloc, octets))?;
    let written = numbered(value.to_der(alloc))?;
    same(rt, written.as_slice(), octets);
    let len = numbered(value.encoded_len())?;
    same(rt, len.value() as usize, octets.len());
    let copy = numbered(value.duplicate())?;
    holds(rt, copy == value);
    Ok(())
}

/// Asserts what `reads_back` does, and that the copy compares as equal to the value.
fn reads_back_in_order<'a, T: FromDer<'a> + Encode + Duplicate + DerOrd + EncodingEq>(
    rt: &impl Abort,
    alloc: Global,
    octets: &'a [u8],
) -> Result<(), u8> {
    reads_back::<T>(rt, alloc, octets)?;
    let value = numbered(T::from_der(alloc, octets))?;
    let copy = numbered(value.duplicate())?;
    same(rt, numbered(copy.der_cmp(&value)), Ok(Ordering::Equal));
    Ok(())
}
