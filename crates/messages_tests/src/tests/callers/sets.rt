//! Sets of a CHOICE and of values of any type, and lists that have an item.

use crate::tests::{holds, numbered, same};
use der_asn1_types::asn1::AnyRef;
use der_asn1_types::{DerOrd, Duplicate, Encode, EncodingEq, FromDer};
use der_examples::{
    count_of_numbers, read_key_names, read_some_numbers, read_values, with_value, write_key_names,
};
use std::alloc::Global;
use std::cmp::Ordering;
use std::process::Abort;
use std::test::Fail;

// Asserts that a copy of the value is equal to it, and compares as equal.
fn is_copied<T: Duplicate + EncodingEq + DerOrd>(rt: &impl Abort, value: &T) -> Result<(), u8> {
    let copy = numbered(value.duplicate())?;
    holds(rt, copy == *value);
    same(rt, numbered(copy.der_cmp(value)), Ok(Ordering::Equal));
    Ok(())
}

// Asserts that the octets are read as three names of keys, which are written as `ordered`, and
// copied.
fn names_read_as(rt: &impl Abort, alloc: Global, octets: &[u8], ordered: &[u8]) -> Result<(), u8> {
    let names = numbered(read_key_names(alloc, octets))?;
    same(rt, names.len(), 3);
    let written = numbered(write_key_names(alloc, &names))?;
    same(rt, written.as_slice(), ordered);
    is_copied(rt, &names)
}

// Returns the number with which octets are refused as names of keys.
fn refused(alloc: Global, octets: &[u8]) -> Option<u8> {
    numbered(read_key_names(alloc, octets)).err()
}

#[test]
fn a_set_of_a_choice_is_put_in_order(rt: HostRuntime) -> Result<(), Fail> {
    // a number, 81 01 05, before two strings, 04 01 07 and 04 01 06
    let octets = [
        0x31, 0x09, 0x81, 0x01, 0x05, 0x04, 0x01, 0x07, 0x04, 0x01, 0x06,
    ];
    let ordered = [
        0x31, 0x09, 0x04, 0x01, 0x06, 0x04, 0x01, 0x07, 0x81, 0x01, 0x05,
    ];
    names_read_as(&rt, rt.alloc(), &octets, &ordered)?;
    same(
        &rt,
        refused(rt.alloc(), &[0x31, 0x03, 0x02, 0x01, 0x05]),
        Some(4),
    );
    Ok(())
}

#[test]
fn a_value_of_any_type_is_put_into_a_set(rt: HostRuntime) -> Result<(), Fail> {
    let alloc = rt.alloc();
    let octets = [0x31, 0x06, 0x13, 0x01, 0x41, 0x0c, 0x01, 0x41];
    let mut values = numbered(read_values(alloc, &octets))?;
    match AnyRef::from_der(alloc, &[0x05, 0x00]) {
        Ok(null) => numbered(with_value(&mut values, null))?,
        Err(_) => return Err("refused".into()),
    }
    let written = numbered(values.to_der(alloc))?;
    let ordered = [0x31, 0x08, 0x05, 0x00, 0x0c, 0x01, 0x41, 0x13, 0x01, 0x41];
    same(&rt, written.as_slice(), ordered.as_slice());
    is_copied(&rt, &values)?;
    Ok(())
}

#[test]
fn one_number_or_more_is_read(rt: HostRuntime) -> Result<(), Fail> {
    let alloc = rt.alloc();
    let numbers = numbered(read_some_numbers(alloc, &[0x30, 0x03, 0x02, 0x01, 0x05]))?;
    same(&rt, count_of_numbers(&numbers), 1);
    is_copied(&rt, &numbers)?;
    same(
        &rt,
        numbered(read_some_numbers(alloc, &[0x30, 0x00])).err(),
        Some(13),
    );
    Ok(())
}
