//! Types of which a constraint allows some values: as fields, items, alternatives and by themselves.

use crate::tests::{again, compared, holds, is_copied, numbered, same, same_in};
use der_constrained::{AllExcept, Constrained, InRange, IntersectionOf};
use der_elem::{Encode, FromDer};
use der_shapes::shapes::{Bounded, Code, Limited, Small};
use std::alloc::Global;
use std::cmp::Ordering;
use std::process::Abort;
use std::test::Fail;

/// The octets of a refused row, and the number of the refusal.
type Row = (&'static str, u8);

/// An even digit, defined by the values that it excludes.
type Even = Constrained<i64, IntersectionOf<InRange<0, 2>, AllExcept<InRange<1, 1>>>>;

fn small_again(alloc: Global, octets: &[u8]) -> Result<Vec<u8>, u8> {
    again::<Small>(alloc, octets)
}

fn code_again(alloc: Global, octets: &[u8]) -> Result<Vec<u8>, u8> {
    again::<Code>(alloc, octets)
}

fn even_again(alloc: Global, octets: &[u8]) -> Result<Vec<u8>, u8> {
    again::<Even>(alloc, octets)
}

fn bounded_again(alloc: Global, octets: &[u8]) -> Result<Vec<u8>, u8> {
    again::<Bounded>(alloc, octets)
}

fn limited_again(alloc: Global, octets: &[u8]) -> Result<Vec<u8>, u8> {
    again::<Limited>(alloc, octets)
}

#[test]
fn numbers_of_a_range_are_read(rt: HostRuntime) -> Result<(), Fail> {
    let alloc = rt.alloc();
    for digits in ["0201fb", "020100", "02010a"] {
        let octets = hex::decode(alloc, digits)?;
        same_in(&rt, &digits, small_again(alloc, octets.as_slice())?, octets);
    }
    // one below and one above; the type's own faults come first: no octets, too many, another tag
    let rows: [Row; 5] = [
        ("0201fa", 13),
        ("02010b", 13),
        ("0200", 7),
        ("02020100", 8),
        ("0a0100", 4),
    ];
    for (digits, number) in rows {
        let octets = hex::decode(alloc, digits)?;
        same_in(
            &rt,
            &digits,
            small_again(alloc, octets.as_slice()),
            Err(number),
        );
    }
    for (digits, number) in [("020101", 13), ("020103", 13), ("0201ff", 13)] {
        let octets = hex::decode(alloc, digits)?;
        same_in(
            &rt,
            &digits,
            even_again(alloc, octets.as_slice()),
            Err(number),
        );
    }
    let octets = hex::decode(alloc, "020102")?;
    same(&rt, even_again(alloc, octets.as_slice())?, octets);
    Ok(())
}

#[test]
fn strings_of_a_size_and_an_alphabet_are_read(rt: HostRuntime) -> Result<(), Fail> {
    let alloc = rt.alloc();
    for digits in ["13024130", "1303415a39"] {
        let octets = hex::decode(alloc, digits)?;
        same_in(&rt, &digits, code_again(alloc, octets.as_slice())?, octets);
    }
    // too short, too long, characters that are none of the alphabet, one that is none of the type
    let rows: [Row; 5] = [
        ("130141", 13),
        ("130441414141", 13),
        ("13024161", 13),
        ("13024120", 13),
        ("1302412a", 13),
    ];
    for (digits, number) in rows {
        let octets = hex::decode(alloc, digits)?;
        same_in(
            &rt,
            &digits,
            code_again(alloc, octets.as_slice()),
            Err(number),
        );
    }
    Ok(())
}

#[test]
fn constrained_values_are_made(rt: HostRuntime) -> Result<(), Fail> {
    let alloc = rt.alloc();
    let five = numbered(Small::new(5))?;
    let six = numbered(Small::new(6))?;
    same(&rt, *five, 5);
    same(&rt, numbered(Small::new(11)), Err(13));
    same(&rt, numbered(Small::new(-6)), Err(13));
    same(&rt, compared(&five, &six), Ok((Ordering::Less, false)));
    holds(&rt, is_copied(&five));
    let shown = format!(in alloc; "{five:?}")?;
    same(&rt, shown.as_str(), "5");
    let octets = numbered(five.to_der(alloc))?;
    same(&rt, octets.as_slice(), [2, 1, 5].as_slice());
    Ok(())
}

#[test]
fn constrained_fields_and_items_are_read(rt: HostRuntime) -> Result<(), Fail> {
    let alloc = rt.alloc();
    let rows = [
        "302102010580010313024142a10404021122030205e00c03c3a9613006020109020100",
        "301202010513024142030205e00c03c3a9613000",
        "302902010580010113024142a106040431323334030307ff800c08c3a9c3a9c3a9c3a93006020109020100",
    ];
    for digits in rows {
        let octets = hex::decode(alloc, digits)?;
        same_in(
            &rt,
            &digits,
            bounded_again(alloc, octets.as_slice())?,
            octets,
        );
    }
    Ok(())
}

#[test]
fn constrained_fields_and_items_of_other_values_are_refused(rt: HostRuntime) -> Result<(), Fail> {
    let alloc = rt.alloc();
    // the number, the two fields that may be absent, the code, bits too few and too many, characters too
    // few and too many, an item
    let rows = [
        "302102010b80010313024142a10404021122030205e00c03c3a9613006020109020100",
        "302102010580010213024142a10404021122030205e00c03c3a9613006020109020100",
        "302102010580010613024142a10404021122030205e00c03c3a9613006020109020100",
        "3020020105800103130141a10404021122030205e00c03c3a9613006020109020100",
        "302202010580010313024142a1050403313233030205e00c03c3a9613006020109020100",
        "302102010580010313024142a10404021122030206c00c03c3a9613006020109020100",
        "302202010580010313024142a10404021122030306ffc00c03c3a9613006020109020100",
        "301e02010580010313024142a10404021122030205e00c003006020109020100",
        "302302010580010313024142a10404021122030205e00c0561616161613006020109020100",
        "302102010580010313024142a10404021122030205e00c03c3a961300602010902010a",
    ];
    for digits in rows {
        let octets = hex::decode(alloc, digits)?;
        same_in(
            &rt,
            &digits,
            bounded_again(alloc, octets.as_slice()),
            Err(13),
        );
    }
    Ok(())
}

#[test]
fn constrained_alternatives_are_read(rt: HostRuntime) -> Result<(), Fail> {
    let alloc = rt.alloc();
    for digits in ["020100", "020131", "020133", "020163", "800161", "80026166"] {
        let octets = hex::decode(alloc, digits)?;
        same_in(
            &rt,
            &digits,
            limited_again(alloc, octets.as_slice())?,
            octets,
        );
    }
    for digits in ["020132", "020164", "8000", "8003616161", "80026167"] {
        let octets = hex::decode(alloc, digits)?;
        same_in(
            &rt,
            &digits,
            limited_again(alloc, octets.as_slice()),
            Err(13),
        );
    }
    Ok(())
}

// Returns fields of a value that is read: the numbers, and the length of the code.
fn seen(alloc: Global, octets: &[u8]) -> Result<(i8, Option<u8>, u32), u8> {
    let bounded = numbered(Bounded::from_der(alloc, octets))?;
    let few = match bounded.few() {
        Some(few) => Some(*few),
        None => None,
    };
    Ok((*bounded.small(), few, bounded.code().len().value()))
}

#[test]
fn constrained_fields_are_seen(rt: HostRuntime) -> Result<(), Fail> {
    let alloc = rt.alloc();
    let octets = hex::decode(
        alloc,
        "302102010580010313024142a10404021122030205e00c03c3a9613006020109020100",
    )?;
    same(&rt, seen(alloc, octets.as_slice()), Ok((5, Some(3), 2)));
    Ok(())
}
