//! Values that own memory: octets, in a CHOICE and in a list of fields.

use crate::tests::{again, compared, is_copied, numbered, same, same_in};
use der_elem::{Encode, FromDer};
use der_shapes::shapes::{Label, Labels};
use std::alloc::Global;
use std::cmp::Ordering;
use std::process::Abort;
use std::test::Fail;

/// The octets of a refused row, and the number of the refusal.
type Row = (&'static str, u8);

/// Every field: the texts `a`, `b` and `c`, and TRUE for their visibility.
const EVERY: &str = "300e040161040162a1030401630101ff";

/// The number 5 as label, and no other field.
const FEWEST: &str = "3003800105";

fn labels_again(alloc: Global, octets: &[u8]) -> Result<Vec<u8>, u8> {
    again::<Labels>(alloc, octets)
}

fn label_again(alloc: Global, octets: &[u8]) -> Result<Vec<u8>, u8> {
    again::<Label>(alloc, octets)
}

// Returns whether a copy of the value that the octets are read as is equal to it.
fn are_copied(alloc: Global, octets: &[u8]) -> Result<bool, u8> {
    match Labels::from_der(alloc, octets) {
        Ok(labels) => Ok(is_copied(&labels)),
        Err(e) => Err(e.kind().number()),
    }
}

fn is_label_copied(alloc: Global, octets: &[u8]) -> Result<bool, u8> {
    match Label::from_der(alloc, octets) {
        Ok(label) => Ok(is_copied(&label)),
        Err(e) => Err(e.kind().number()),
    }
}

// Returns the order of two values, and whether they are equal.
fn order(alloc: Global, first: &[u8], second: &[u8]) -> Result<(Ordering, bool), u8> {
    let first = numbered(Labels::from_der(alloc, first))?;
    let second = numbered(Labels::from_der(alloc, second))?;
    compared(&first, &second)
}

// Returns the numbers of octets of the title and of the other text, and whether they are visible.
fn seen(alloc: Global, octets: &[u8]) -> Result<(usize, usize, bool), u8> {
    let labels = numbered(Labels::from_der(alloc, octets))?;
    let title = match labels.title() {
        Some(title) => title.as_bytes().len(),
        None => 0,
    };
    let other = match labels.other() {
        Some(other) => other.as_bytes().len(),
        None => 0,
    };
    Ok((title, other, labels.visible()))
}

// Takes the value of the octets apart, and returns the encoding of the value made from its parts.
fn put_together(alloc: Global, octets: &[u8]) -> Result<Vec<u8>, u8> {
    let labels = numbered(Labels::from_der(alloc, octets))?;
    let (label, title, other, visible) = labels.into_parts();
    numbered(Labels::new(label, title, other, visible).to_der(alloc))
}

#[test]
fn owned_texts_are_read_and_written_back(rt: HostRuntime) -> Result<(), Fail> {
    let alloc = rt.alloc();
    for digits in [EVERY, FEWEST, "3003040161", "3006040161040162"] {
        let octets = hex::decode(alloc, digits)?;
        let written = labels_again(alloc, octets.as_slice())?;
        same_in(&rt, &digits, written.as_slice(), octets.as_slice());
    }
    for digits in ["0400", "04026162", "80020080"] {
        let octets = hex::decode(alloc, digits)?;
        let written = label_again(alloc, octets.as_slice())?;
        same_in(&rt, &digits, written.as_slice(), octets.as_slice());
    }
    Ok(())
}

#[test]
fn owned_texts_are_copied(rt: HostRuntime) -> Result<(), Fail> {
    let alloc = rt.alloc();
    for digits in [EVERY, FEWEST] {
        let octets = hex::decode(alloc, digits)?;
        same_in(&rt, &digits, are_copied(alloc, octets.as_slice()), Ok(true));
    }
    for digits in ["040161", "800105"] {
        let octets = hex::decode(alloc, digits)?;
        same_in(
            &rt,
            &digits,
            is_label_copied(alloc, octets.as_slice()),
            Ok(true),
        );
    }
    Ok(())
}

#[test]
fn owned_texts_are_ordered_as_their_encodings(rt: HostRuntime) -> Result<(), Fail> {
    let alloc = rt.alloc();
    let every = hex::decode(alloc, EVERY)?;
    let other = hex::decode(alloc, "300e040161040162a1030401640101ff")?;
    let fewest = hex::decode(alloc, FEWEST)?;
    same(
        &rt,
        order(alloc, every.as_slice(), every.as_slice()),
        Ok((Ordering::Equal, true)),
    );
    same(
        &rt,
        order(alloc, every.as_slice(), other.as_slice()),
        Ok((Ordering::Less, false)),
    );
    same(
        &rt,
        order(alloc, every.as_slice(), fewest.as_slice()),
        Ok((Ordering::Greater, false)),
    );
    Ok(())
}

#[test]
fn owned_texts_are_fields_by_their_names(rt: HostRuntime) -> Result<(), Fail> {
    let alloc = rt.alloc();
    let every = hex::decode(alloc, EVERY)?;
    let fewest = hex::decode(alloc, FEWEST)?;
    same(&rt, seen(alloc, every.as_slice()), Ok((1, 1, true)));
    same(&rt, seen(alloc, fewest.as_slice()), Ok((0, 0, false)));
    let written = put_together(alloc, every.as_slice())?;
    same(&rt, written.as_slice(), every.as_slice());
    Ok(())
}

#[test]
fn owned_texts_are_refused(rt: HostRuntime) -> Result<(), Fail> {
    let alloc = rt.alloc();
    // the title after the other text, an encoded default, and no label
    let rows: [Row; 3] = [
        ("300b040161a103040163040162", 3),
        ("3006800105010100", 8),
        ("3000", 2),
    ];
    for (digits, number) in rows {
        let octets = hex::decode(alloc, digits)?;
        same_in(
            &rt,
            &digits,
            labels_again(alloc, octets.as_slice()),
            Err(number),
        );
    }
    Ok(())
}
