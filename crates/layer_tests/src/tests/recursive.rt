//! Values that are checked to a depth.

use crate::filter::Filter;
use crate::tree::Tree;
use der_recursive::{Recursive, check_depth};
use der_tlv::Error;
use std::alloc::Global;
use std::process::Abort;
use std::test::Fail;

/// `present` of the octet 61.
const PRESENT: [u8; 3] = [0x87, 0x01, 0x61];

/// `not` with that value.
const NOT: [u8; 5] = [0xa2, 0x03, 0x87, 0x01, 0x61];

/// `and` with both.
const AND: [u8; 10] = [0xa0, 0x08, 0x87, 0x01, 0x61, 0xa2, 0x03, 0x87, 0x01, 0x61];

// Returns the number of the refusal, or 0 if there is none.
fn number(answer: Result<(), Error>) -> u8 {
    match answer {
        Ok(()) => 0,
        Err(e) => e.kind().number(),
    }
}

// Asserts the refusals of octets at the depths 0, 1, 2 and 3.
fn refused<T: Recursive>(rt: &impl Abort, alloc: Global, octets: &[u8], wanted: [u8; 4]) {
    for depth in 0..4 {
        let found = number(check_depth::<T>(alloc, octets, depth));
        assert_eq!(rt; found, wanted[depth as usize]);
    }
}

#[test]
fn values_reach_a_depth(rt: HostRuntime) -> Result<(), Fail> {
    let alloc = rt.alloc();
    refused::<Filter>(&rt, alloc, &[], [0, 0, 0, 0]);
    refused::<Filter>(&rt, alloc, &PRESENT, [10, 0, 0, 0]);
    refused::<Filter>(&rt, alloc, &NOT, [10, 10, 0, 0]);
    refused::<Filter>(&rt, alloc, &AND, [10, 10, 10, 0]);
    Ok(())
}

#[test]
fn values_stand_one_after_another(rt: HostRuntime) -> Result<(), Fail> {
    let two = [0x87, 0x01, 0x61, 0x87, 0x00];
    refused::<Filter>(&rt, rt.alloc(), &two, [10, 0, 0, 0]);
    let other = [0x87, 0x01, 0x61, 0x88, 0x00];
    refused::<Filter>(&rt, rt.alloc(), &other, [10, 4, 4, 4]);
    Ok(())
}

#[test]
fn faults_stand_within_values(rt: HostRuntime) -> Result<(), Fail> {
    let alloc = rt.alloc();
    let other_tag = [0xa2, 0x03, 0x88, 0x01, 0x61];
    refused::<Filter>(&rt, alloc, &other_tag, [10, 10, 4, 4]);
    let cut_off = [0xa0, 0x02, 0x87, 0x01];
    refused::<Filter>(&rt, alloc, &cut_off, [10, 10, 2, 2]);
    Ok(())
}

#[test]
fn one_value_stands_in_not(rt: HostRuntime) -> Result<(), Fail> {
    let alloc = rt.alloc();
    let two = [0xa2, 0x06, 0x87, 0x01, 0x61, 0x87, 0x01, 0x61];
    refused::<Filter>(&rt, alloc, &two, [10, 3, 3, 3]);
    refused::<Filter>(&rt, alloc, &[0xa2, 0x00], [10, 2, 2, 2]);
    Ok(())
}

#[test]
fn the_first_fault_is_told(rt: HostRuntime) -> Result<(), Fail> {
    let deep_then_other = [
        0xa0, 0x07, 0xa2, 0x03, 0x87, 0x01, 0x61, 0x88, 0x00, 0x02, 0x01,
    ];
    refused::<Filter>(&rt, rt.alloc(), &deep_then_other, [10, 10, 10, 4]);
    Ok(())
}

#[test]
fn an_error_stands_behind_the_outermost_value(rt: HostRuntime) -> Result<(), Fail> {
    let octets = [0x87, 0x00, 0xa2, 0x02, 0x88, 0x00, 0x87, 0x00];
    match check_depth::<Filter>(rt.alloc(), &octets, 2) {
        Ok(()) => return Err("not refused".into()),
        Err(e) => match e.position() {
            Some(position) => assert_eq!(rt; position.value(), 6),
            None => return Err("no position".into()),
        },
    }
    Ok(())
}

#[test]
fn both_components_of_a_tree(rt: HostRuntime) -> Result<(), Fail> {
    let alloc = rt.alloc();
    let leaf = [0x30, 0x04, 0xa0, 0x00, 0xa1, 0x00];
    refused::<Tree>(&rt, alloc, &leaf, [10, 0, 0, 0]);
    let left = [
        0x30, 0x0a, 0xa0, 0x06, 0x30, 0x04, 0xa0, 0x00, 0xa1, 0x00, 0xa1, 0x00,
    ];
    refused::<Tree>(&rt, alloc, &left, [10, 10, 0, 0]);
    let right = [
        0x30, 0x0a, 0xa0, 0x00, 0xa1, 0x06, 0x30, 0x04, 0xa0, 0x00, 0xa1, 0x00,
    ];
    refused::<Tree>(&rt, alloc, &right, [10, 10, 0, 0]);
    let null = [0x30, 0x06, 0xa0, 0x00, 0xa1, 0x02, 0x05, 0x00];
    refused::<Tree>(&rt, alloc, &null, [10, 10, 4, 4]);
    Ok(())
}

// Returns 60 nested `not` values with a `present` in the innermost one.
fn many() -> [u8; 123] {
    let mut octets = [0x61; 123];
    for level in 0..60 {
        octets[2 * level] = 0xa2;
        octets[2 * level + 1] = 121 - 2 * level as u8;
    }
    octets[120] = 0x87;
    octets[121] = 0x01;
    octets
}

#[test]
fn many_levels(rt: HostRuntime) -> Result<(), Fail> {
    let octets = many();
    assert_eq!(rt; number(check_depth::<Filter>(rt.alloc(), &octets, 60)), 10);
    assert_eq!(rt; number(check_depth::<Filter>(rt.alloc(), &octets, 61)), 0);
    Ok(())
}
