//! A CHOICE of eight alternatives.

use crate::tests::{numbered, same, same_in};
use der_asn1_types::Encode;
use der_examples::read_setting;
use std::alloc::Global;
use std::test::Fail;

fn setting_again(alloc: Global, octets: &[u8]) -> Result<Vec<u8>, u8> {
    match read_setting(alloc, octets) {
        Ok(value) => numbered(value.to_der(alloc)),
        Err(e) => Err(e.kind().number()),
    }
}

#[test]
fn eight_alternatives_are_distinguished(rt: HostRuntime) -> Result<(), Fail> {
    let alloc = rt.alloc();
    let rows = [
        "0101ff", "02020100", "0402abcd", "0500", "80020100", "810105", "820100", "9f1f01ff",
    ];
    for digits in rows {
        let octets = hex::decode(alloc, digits)?;
        let written = setting_again(alloc, octets.as_slice())?;
        same(&rt, written.as_slice(), octets.as_slice());
    }
    // a tag of none, the other form, a cut, octets left over, a fault of the alternative
    let refused = [
        ("0c00", 4),
        ("a003020105", 4),
        ("8002", 2),
        ("050000", 3),
        ("820155", 8),
    ];
    for (digits, number) in refused {
        let octets = hex::decode(alloc, digits)?;
        let answer = setting_again(alloc, octets.as_slice());
        same_in(&rt, &digits, answer.err(), Some(number));
    }
    Ok(())
}
