//! Dates, and when a certificate is valid.

use super::data::CERTIFICATE;
use crate::tests::{numbered, same_in};
use der_asn1_types::{DateTime, Encode, FromDer};
use der_pkix::certificate::Certificate;
use der_verify::{date_time, holds_at, seconds, time_at};
use std::alloc::Global;
use std::process::Abort;
use std::test::Fail;

// Returns the encoding of a time, its seconds, and whether its date and time is the given one.
fn time_told(
    alloc: Global,
    year: u16,
    date: (u8, u8),
    clock: (u8, u8, u8),
) -> Result<(Vec<u8>, u64, bool), u8> {
    match DateTime::new(year, date.0, date.1, clock.0, clock.1, clock.2) {
        Ok(wanted) => {
            let time = time_at(wanted);
            let written = numbered(time.to_der(alloc))?;
            Ok((written, seconds(time), date_time(time) == wanted))
        }
        Err(e) => Err(e.kind().number()),
    }
}

// Returns whether the certificate is valid at a moment.
fn validity_told(alloc: Global, octets: &[u8], moment: u64) -> Result<bool, u8> {
    match Certificate::from_der(alloc, octets) {
        Ok(certificate) => Ok(holds_at(certificate.tbs_certificate().validity(), moment)),
        Err(e) => Err(e.kind().number()),
    }
}

#[test]
fn times_have_the_form_of_their_year(rt: HostRuntime) -> Result<(), Fail> {
    let alloc = rt.alloc();
    let rows = [
        (1970, (1, 1), (0, 0, 0), "170d3730303130313030303030305a", 0),
        (
            2000,
            (2, 29),
            (12, 0, 0),
            "170d3030303232393132303030305a",
            951_825_600,
        ),
        (
            2049,
            (12, 31),
            (23, 59, 59),
            "170d3439313233313233353935395a",
            2_524_607_999,
        ),
        (
            2050,
            (1, 1),
            (0, 0, 0),
            "180f32303530303130313030303030305a",
            2_524_608_000,
        ),
        (
            9999,
            (12, 31),
            (23, 59, 59),
            "180f39393939313233313233353935395a",
            253_402_300_799,
        ),
    ];
    for (year, date, clock, digits, moment) in rows {
        let written = hex::decode(alloc, digits)?;
        let found = time_told(alloc, year, date, clock);
        same_in(&rt, &year, found, Ok((written, moment, true)));
    }
    Ok(())
}

#[test]
fn certificates_are_valid_at_both_ends(rt: HostRuntime) -> Result<(), Fail> {
    let alloc = rt.alloc();
    let octets = hex::decode(alloc, CERTIFICATE)?;
    let rows = [
        (0, false),
        (2_524_607_998, false),
        (2_524_607_999, true),
        (2_524_608_000, true),
        (2_524_608_001, false),
        (18_446_744_073_709_551_615, false),
    ];
    for (moment, valid) in rows {
        let found = validity_told(alloc, octets.as_slice(), moment);
        same_in(&rt, &moment, found, Ok(valid));
    }
    Ok(())
}
