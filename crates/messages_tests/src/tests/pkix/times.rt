//! Times, and the validity of a certificate.

use crate::tests::{again, holds, same};
use der_asn1_types::{DerOrd, Duplicate, FromDer};
use der_pkix::certificate::{Time, Validity};
use std::alloc::Global;
use std::cmp::Ordering;
use std::process::Abort;
use std::test::Fail;

fn time_again(alloc: Global, octets: &[u8]) -> Result<Vec<u8>, u8> {
    again::<Time>(alloc, octets)
}

fn validity_again(alloc: Global, octets: &[u8]) -> Result<Vec<u8>, u8> {
    again::<Validity>(alloc, octets)
}

// Returns the years of the two times, and whether each is a GeneralizedTime.
fn validity_told(alloc: Global, octets: &[u8]) -> Result<((u16, bool), (u16, bool)), u8> {
    match Validity::from_der(alloc, octets) {
        Ok(validity) => Ok((
            year_of(validity.not_before()),
            year_of(validity.not_after()),
        )),
        Err(e) => Err(e.kind().number()),
    }
}

fn year_of(time: Time) -> (u16, bool) {
    match time {
        Time::UtcTime(utc) => (utc.to_date_time().year(), false),
        Time::GeneralTime(general) => (general.to_date_time().year(), true),
    }
}

#[test]
fn validities_are_written_back(rt: HostRuntime) -> Result<(), Fail> {
    let alloc = rt.alloc();
    let octets = hex::decode(
        alloc,
        "3020170d3236313132333034313033355a180f32303539313030313034313033355a",
    )?;
    let written = validity_again(alloc, octets.as_slice())?;
    same(&rt, written.as_slice(), octets.as_slice());
    Ok(())
}

#[test]
fn validities_have_two_times(rt: HostRuntime) -> Result<(), Fail> {
    let alloc = rt.alloc();
    let octets = hex::decode(
        alloc,
        "3020170d3236313132333034313033355a180f32303539313030313034313033355a",
    )?;
    let found = validity_told(alloc, octets.as_slice());
    same(&rt, found, Ok(((2026, false), (2059, true))));
    Ok(())
}

#[test]
fn times_are_distinguished_by_their_tags(rt: HostRuntime) -> Result<(), Fail> {
    let alloc = rt.alloc();
    let rows = [
        // no tag
        ("", 2),
        // a tag of neither
        ("020105", 4),
        // a GeneralizedTime in the form of a UTCTime, and the other way round
        ("180d3236313132333034313033355a", 13),
        ("170f32303539313030313034313033355a", 13),
    ];
    for (digits, number) in rows {
        let octets = hex::decode(alloc, digits)?;
        same(
            &rt,
            time_again(alloc, octets.as_slice()).err(),
            Some(number),
        );
    }
    Ok(())
}

fn validity_of(alloc: Global, digits: &str) -> Result<Validity, u8> {
    let Ok(octets) = hex::decode(alloc, digits) else {
        return Err(0);
    };
    match Validity::from_der(alloc, octets.as_slice()) {
        Ok(value) => Ok(value),
        Err(e) => Err(e.kind().number()),
    }
}

fn order_of(first: &Validity, second: &Validity) -> Result<Ordering, u8> {
    match first.der_cmp(second) {
        Ok(order) => Ok(order),
        Err(e) => Err(e.kind().number()),
    }
}

#[test]
fn validities_are_compared(rt: HostRuntime) -> Result<(), Fail> {
    let alloc = rt.alloc();
    let first = validity_of(
        alloc,
        "3020170d3236313132333034313033355a180f32303539313030313034313033355a",
    )?;
    // one second longer
    let longer = validity_of(
        alloc,
        "3020170d3236313132333034313033355a180f32303539313030313034313033365a",
    )?;
    let copy = match first.duplicate() {
        Ok(copy) => copy == first,
        Err(_) => false,
    };
    holds(&rt, copy);
    holds(&rt, longer != first);
    same(&rt, order_of(&first, &longer)?, Ordering::Less);
    same(&rt, order_of(&longer, &first)?, Ordering::Greater);
    same(&rt, order_of(&first, &first)?, Ordering::Equal);
    Ok(())
}
