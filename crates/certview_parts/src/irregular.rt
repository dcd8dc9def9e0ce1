//! Values that are shown although their contents octets are invalid for their type. The page
//! notes the error.

use crate::page::Page;
use der_asn1_types::asn1::AnyRef;
use der_asn1_types::{ErrorKind, Tag};
use std::alloc::AllocError;

/// Notes the error if the contents octets of a value are invalid for its type.
pub fn note_value(page: &mut Page, value: &AnyRef<'_>) -> Result<(), AllocError> {
    match fault_of(value.header().tag, value.value()) {
        Some(kind) => page.note(kind),
        None => Ok(()),
    }
}

/// Notes the error if contents octets are no OBJECT IDENTIFIER.
pub fn note_identifier(page: &mut Page, octets: &[u8]) -> Result<(), AllocError> {
    if is_identifier(octets) {
        return Ok(());
    }
    page.note(ErrorKind::OidMalformed)
}

/// Returns the error in contents octets of these types, if there is one: BOOLEAN, INTEGER, BIT
/// STRING, NULL, OBJECT IDENTIFIER, and the strings whose characters X.680 names. Other types are
/// not checked.
fn fault_of(tag: Tag, octets: &[u8]) -> Option<ErrorKind> {
    match tag {
        Tag::Boolean => boolean_fault(octets),
        Tag::Integer => integer_fault(octets),
        Tag::BitString => bits_fault(octets),
        Tag::Null if !octets.is_empty() => Some(tag.length_error()),
        Tag::ObjectIdentifier if !is_identifier(octets) => Some(ErrorKind::OidMalformed),
        Tag::Utf8String if str::from_utf8(octets).is_err() => Some(ErrorKind::Utf8),
        Tag::BmpString => units_fault(octets),
        Tag::NumericString | Tag::PrintableString | Tag::Ia5String | Tag::VisibleString => {
            characters_fault(tag, octets)
        }
        _ => None,
    }
}

/// Returns the error in a BOOLEAN (X.690 8.2.1, 11.1).
fn boolean_fault(octets: &[u8]) -> Option<ErrorKind> {
    match octets {
        [0 | 0xff] => None,
        [_] => Some(Tag::Boolean.non_canonical_error()),
        _ => Some(Tag::Boolean.length_error()),
    }
}

/// Returns the error in an INTEGER, which must have the fewest octets (X.690 8.3).
fn integer_fault(octets: &[u8]) -> Option<ErrorKind> {
    match octets {
        [] => Some(Tag::Integer.non_canonical_error()),
        [0, second, ..] if *second < 0x80 => Some(Tag::Integer.non_canonical_error()),
        [0xff, second, ..] if *second >= 0x80 => Some(Tag::Integer.non_canonical_error()),
        _ => None,
    }
}

/// Returns the error in a BIT STRING, whose unused bits must be zero (X.690 8.6.2, 11.2.1).
fn bits_fault(octets: &[u8]) -> Option<ErrorKind> {
    match octets {
        [] => Some(ErrorKind::Overflow),
        [0, ..] => None,
        [unused, .., last] if *unused < 8 && last.trailing_zeros() >= u32::from(*unused) => None,
        [unused, _, ..] if *unused < 8 => Some(Tag::BitString.non_canonical_error()),
        _ => Some(Tag::BitString.value_error()),
    }
}

/// Returns whether each number of an identifier ends, and is in the fewest octets (X.690 8.19.2).
fn is_identifier(octets: &[u8]) -> bool {
    let mut is_whole = true;
    for octet in octets {
        if is_whole && *octet == 0x80 {
            return false;
        }
        is_whole = *octet < 0x80;
    }
    is_whole && !octets.is_empty()
}

/// Returns the error in a BMPString, in which each two octets are a character (X.680 41.15).
fn units_fault(octets: &[u8]) -> Option<ErrorKind> {
    if octets.len() % 2 != 0 {
        return Some(Tag::BmpString.length_error());
    }
    for index in 0..octets.len() / 2 {
        if octets[2 * index] & 0xf8 == 0xd8 {
            return Some(Tag::BmpString.value_error());
        }
    }
    None
}

/// Returns the error in a string in which each octet is a character.
fn characters_fault(tag: Tag, octets: &[u8]) -> Option<ErrorKind> {
    for octet in octets {
        if !may_stand_in(tag, *octet) {
            return Some(tag.value_error());
        }
    }
    None
}

/// Returns whether an octet is a character of these strings (X.680 41).
fn may_stand_in(tag: Tag, octet: u8) -> bool {
    match tag {
        Tag::NumericString => match octet {
            b'0'..=b'9' | b' ' => true,
            _ => false,
        },
        Tag::PrintableString => is_printable(octet),
        Tag::VisibleString => octet >= 0x20 && octet < 0x7f,
        Tag::Ia5String => octet < 0x80,
        _ => true,
    }
}

/// Returns whether an octet is a character of a PrintableString (X.680 table 10).
fn is_printable(octet: u8) -> bool {
    match octet {
        b'A'..=b'Z' | b'a'..=b'z' | b'0'..=b'9' | b' ' => true,
        b'\'' | b'(' | b')' | b'+' | b',' | b'-' | b'.' | b'/' | b':' | b'=' | b'?' => true,
        _ => false,
    }
}
