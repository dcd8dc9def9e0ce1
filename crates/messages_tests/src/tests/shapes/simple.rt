//! NumericString, VisibleString and RELATIVE-OID: alone, as fields, as items and as alternatives.

use crate::tests::{again, compared, numbered, same, same_in};
use der_elem::{Encode, FromDer};
use der_shapes::shapes::{Note, Notes};
use der_simple::{NumericStringRef, RelativeOidRef, VisibleStringRef};
use std::alloc::{AllocError, Global};
use std::cmp::Ordering;
use std::process::Abort;
use std::test::Fail;

/// The octets of a refused row, and the number of the refusal.
type Row = (&'static str, u8);

fn digits_again(alloc: Global, octets: &[u8]) -> Result<Vec<u8>, u8> {
    again::<NumericStringRef>(alloc, octets)
}

fn visible_again(alloc: Global, octets: &[u8]) -> Result<Vec<u8>, u8> {
    again::<VisibleStringRef>(alloc, octets)
}

fn arcs_again(alloc: Global, octets: &[u8]) -> Result<Vec<u8>, u8> {
    again::<RelativeOidRef>(alloc, octets)
}

fn notes_again(alloc: Global, octets: &[u8]) -> Result<Vec<u8>, u8> {
    again::<Notes>(alloc, octets)
}

fn note_again(alloc: Global, octets: &[u8]) -> Result<Vec<u8>, u8> {
    again::<Note>(alloc, octets)
}

#[test]
fn numeric_strings_have_digits_and_spaces(rt: HostRuntime) -> Result<(), Fail> {
    let alloc = rt.alloc();
    for digits in ["1200", "120b3031323334353637383920", "120120"] {
        let octets = hex::decode(alloc, digits)?;
        same_in(
            &rt,
            &digits,
            digits_again(alloc, octets.as_slice())?,
            octets,
        );
    }
    // the characters beside digits and space, a letter, an octet past ASCII; another tag; a length
    let rows: [Row; 8] = [
        ("12012f", 13),
        ("12013a", 13),
        ("120121", 13),
        ("12011f", 13),
        ("12023141", 13),
        ("1201b1", 13),
        ("130131", 4),
        ("120231", 2),
    ];
    for (digits, number) in rows {
        let octets = hex::decode(alloc, digits)?;
        same_in(
            &rt,
            &digits,
            digits_again(alloc, octets.as_slice()),
            Err(number),
        );
    }
    Ok(())
}

#[test]
fn visible_strings_have_the_octets_20_to_7e(rt: HostRuntime) -> Result<(), Fail> {
    let alloc = rt.alloc();
    for digits in ["1a00", "1a0468692021", "1a02207e"] {
        let octets = hex::decode(alloc, digits)?;
        same_in(
            &rt,
            &digits,
            visible_again(alloc, octets.as_slice())?,
            octets,
        );
    }
    let rows: [Row; 5] = [
        ("1a011f", 13),
        ("1a017f", 13),
        ("1a0180", 13),
        ("1a0100", 13),
        ("120131", 4),
    ];
    for (digits, number) in rows {
        let octets = hex::decode(alloc, digits)?;
        same_in(
            &rt,
            &digits,
            visible_again(alloc, octets.as_slice()),
            Err(number),
        );
    }
    Ok(())
}

#[test]
fn relative_identifiers_are_arcs(rt: HostRuntime) -> Result<(), Fail> {
    let alloc = rt.alloc();
    // X.690 8.20.5 has 8571 3 2
    for digits in [
        "0d04c27b0302",
        "0d0100",
        "0d017f",
        "0d028100",
        "0d06ffffffffff7f",
    ] {
        let octets = hex::decode(alloc, digits)?;
        same_in(&rt, &digits, arcs_again(alloc, octets.as_slice())?, octets);
    }
    // no arc, one without an end, a leading 80 in the first and in the second arc, another tag
    let rows: [Row; 6] = [
        ("0d00", 13),
        ("0d0181", 13),
        ("0d020381", 13),
        ("0d028001", 13),
        ("0d03038001", 13),
        ("060103", 4),
    ];
    for (digits, number) in rows {
        let octets = hex::decode(alloc, digits)?;
        same_in(
            &rt,
            &digits,
            arcs_again(alloc, octets.as_slice()),
            Err(number),
        );
    }
    Ok(())
}

// Returns the number of characters of a NumericString with these octets, and whether it is empty.
fn digits(octets: &[u8]) -> Result<(u32, bool), u8> {
    match NumericStringRef::new(octets) {
        Ok(number) => Ok((number.len().value(), number.is_empty())),
        Err(e) => Err(e.kind().number()),
    }
}

// Returns a NumericString with these octets as it is shown, and as a text.
fn shown_digits(alloc: Global, octets: &[u8]) -> Result<String, AllocError> {
    match NumericStringRef::new(octets) {
        Ok(number) => format!(in alloc; "{number} {number:?} {}", number.as_str()),
        Err(_) => String::from_str(alloc, "refused"),
    }
}

// Returns the order of two VisibleStrings with these octets, and whether they are equal.
fn compared_texts(first: &[u8], second: &[u8]) -> Result<(Ordering, bool), u8> {
    match (VisibleStringRef::new(first), VisibleStringRef::new(second)) {
        (Ok(first), Ok(second)) => compared(&first, &second),
        (Err(e), _) => Err(e.kind().number()),
        (_, Err(e)) => Err(e.kind().number()),
    }
}

// Returns the encoding of a RELATIVE-OID with these octets.
fn encoded_arcs(alloc: Global, octets: &[u8]) -> Result<Vec<u8>, u8> {
    match RelativeOidRef::from_bytes(octets) {
        Ok(arcs) => numbered(arcs.to_der(alloc)),
        Err(e) => Err(e.kind().number()),
    }
}

#[test]
fn numeric_strings_are_made(rt: HostRuntime) -> Result<(), Fail> {
    same(&rt, digits("12 3".as_bytes()), Ok((4, false)));
    same(&rt, digits("".as_bytes()), Ok((0, true)));
    same(&rt, digits("a".as_bytes()), Err(13));
    let shown = shown_digits(rt.alloc(), "12".as_bytes())?;
    same(&rt, shown.as_str(), "12 NumericString(\"12\") 12");
    Ok(())
}

#[test]
fn visible_strings_are_made(rt: HostRuntime) -> Result<(), Fail> {
    let found = compared_texts("~ a".as_bytes(), "~ b".as_bytes());
    same(&rt, found, Ok((Ordering::Less, false)));
    let found = compared_texts("a".as_bytes(), "a".as_bytes());
    same(&rt, found, Ok((Ordering::Equal, true)));
    let found = compared_texts("a".as_bytes(), "\t".as_bytes());
    same(&rt, found, Err(13));
    Ok(())
}

#[test]
fn relative_identifiers_are_made(rt: HostRuntime) -> Result<(), Fail> {
    let alloc = rt.alloc();
    let octets = encoded_arcs(alloc, &[0xc2, 0x7b, 3])?;
    same(&rt, octets.as_slice(), [0x0d, 3, 0xc2, 0x7b, 3].as_slice());
    same(&rt, encoded_arcs(alloc, &[]), Err(13));
    same(&rt, encoded_arcs(alloc, &[0x80]), Err(13));
    Ok(())
}

#[test]
fn they_are_fields_items_and_alternatives(rt: HostRuntime) -> Result<(), Fail> {
    let alloc = rt.alloc();
    for digits in [
        "301412023132800168a1030d010530061a01611a0162",
        "30051201303000",
    ] {
        let octets = hex::decode(alloc, digits)?;
        same_in(&rt, &digits, notes_again(alloc, octets.as_slice())?, octets);
    }
    let octets = hex::decode(alloc, "301412023132800168a1030d010530061a01611a0162")?;
    same(&rt, shown(alloc, octets.as_slice()), Ok((true, 2)));
    for digits in ["120131", "1a0161", "0d0105"] {
        let octets = hex::decode(alloc, digits)?;
        same_in(&rt, &digits, note_again(alloc, octets.as_slice())?, octets);
    }
    // an item, a field behind a tag, an alternative, and a tag that is none of the three
    let rows: [Row; 4] = [
        ("300812013030031a017f", 13),
        ("300812013080017f3000", 13),
        ("120161", 13),
        ("0c0161", 4),
    ];
    for (digits, number) in rows {
        let octets = hex::decode(alloc, digits)?;
        let found = if digits.starts_with("30") {
            notes_again(alloc, octets.as_slice())
        } else {
            note_again(alloc, octets.as_slice())
        };
        same_in(&rt, &digits, found, Err(number));
    }
    Ok(())
}

// Returns whether the optional text is present, and the number of lines.
fn shown(alloc: Global, octets: &[u8]) -> Result<(bool, usize), u8> {
    let notes = numbered(Notes::from_der(alloc, octets))?;
    let lines = numbered(notes.lines().count(alloc))?;
    Ok((notes.text().is_some(), lines))
}
