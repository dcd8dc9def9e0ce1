//! Tests of numbers that have names: CRLReason and Version of RFC 5280 (5.3.1, 4.1.2.1).

use crate::enumerations::{CrlReason, Version};
use crate::tests::types::round_trip;
use crate::tests::{numbered, same, same_in};
use der_elem::{DerOrd, Duplicate, FixedTag, FromDer, ValueOrd};
use der_numbers::Enumerated;
use der_tlv::Tag;
use std::alloc::Global;
use std::cmp::Ordering;

type Reason = Enumerated<CrlReason>;

type NamedVersion = Enumerated<Version>;

/// Reads octets as a reason and writes it again. Returns the octets, or the number of the
/// refusal.
fn reason_again(alloc: Global, octets: &[u8]) -> Result<Vec<u8>, u8> {
    numbered(round_trip::<Reason>(alloc, octets))
}

/// Reads octets as a version and writes it again. Returns the octets, or the number of the
/// refusal.
fn version_again(alloc: Global, octets: &[u8]) -> Result<Vec<u8>, u8> {
    numbered(round_trip::<NamedVersion>(alloc, octets))
}

#[test]
fn named_numbers_are_read_and_written(rt: HostRuntime) -> Result<(), u8> {
    for number in [0, 1, 2, 3, 4, 5, 6, 8, 9, 10] {
        let octets = [0x0a, 0x01, number];
        let written = reason_again(rt.alloc(), &octets)?;
        same_in(&rt, &number, written.as_slice(), octets.as_slice());
    }
    for number in [0, 1, 2] {
        let octets = [0x02, 0x01, number];
        let written = version_again(rt.alloc(), &octets)?;
        same_in(&rt, &number, written.as_slice(), octets.as_slice());
    }
    Ok(())
}

#[test]
fn other_octets_are_refused(rt: HostRuntime) {
    let rows: [(&[u8], u8); 13] = [
        // numbers without a name
        (&[0x0a, 0x01, 0x07], 13),
        (&[0x0a, 0x01, 0x0b], 13),
        (&[0x0a, 0x01, 0x7f], 13),
        (&[0x0a, 0x01, 0x80], 13),
        (&[0x0a, 0x01, 0xff], 13),
        (&[0x0a, 0x02, 0x01, 0x00], 13),
        // what is refused of integers
        (&[0x0a, 0x00], 7),
        (&[0x0a, 0x02, 0x00, 0x01], 8),
        (&[0x0a, 0x02, 0xff, 0xff], 8),
        (&[0x0a, 0x09, 1, 0, 0, 0, 0, 0, 0, 0, 0], 8),
        (&[0x02, 0x01, 0x01], 4),
        (&[0x0a, 0x01], 2),
        (&[0x0a, 0x01, 0x01, 0x00], 3),
    ];
    for (octets, number) in rows {
        let refusal = reason_again(rt.alloc(), octets).err();
        same_in(&rt, &octets, refusal, Some(number));
    }
    let unnamed = version_again(rt.alloc(), &[0x02, 0x01, 0x03]);
    same(&rt, unnamed.err(), Some(13));
    let enumerated = version_again(rt.alloc(), &[0x0a, 0x01, 0x01]);
    same(&rt, enumerated.err(), Some(4));
}

#[test]
fn named_numbers_are_compared_and_copied(rt: HostRuntime) {
    let hold = Enumerated {
        value: CrlReason::CertificateHold,
    };
    let removed = Enumerated {
        value: CrlReason::RemoveFromCrl,
    };
    same(&rt, hold == removed, false);
    same(&rt, hold == hold, true);
    same(&rt, numbered(hold.der_cmp(&removed)), Ok(Ordering::Less));
    same(
        &rt,
        numbered(removed.value_cmp(&hold)),
        Ok(Ordering::Greater),
    );
    same(&rt, numbered(removed.duplicate()), Ok(removed));
    same(&rt, <Reason as FixedTag>::TAG, Tag::Enumerated);
    same(&rt, <NamedVersion as FixedTag>::TAG, Tag::Integer);
    let read = numbered(NamedVersion::from_der(rt.alloc(), &[0x02, 0x01, 0x02]));
    same(&rt, read, Ok(Enumerated { value: Version::V3 }));
}
