//! Values as text, when only their tag gives their type.

use crate::characters::Behind;
use crate::hexadecimal::{push_digits, push_number_of, push_serial};
use crate::identifiers::push_identifier;
use crate::irregular::note_value;
use crate::names::push_value;
use crate::page::{Page, push_malformed};
use crate::printer::Printer;
use crate::times::push_date_time;
use der_asn1_types::asn1::{AnyRef, GeneralizedTime, UtcTime};
use der_asn1_types::{Encode, Error, FromDer, Length, Tag};
use std::alloc::AllocError;

/// Adds a value: an identifier, a number, octets, a time or text, by its tag; for another type
/// `#` and its encoding. The value ends at offset `end` of the message, if that is known.
pub fn push_any(
    printer: &mut Printer<'_>,
    end: Option<usize>,
    value: &AnyRef<'_>,
) -> Result<(), AllocError> {
    let octets = value.value();
    match value.header().tag {
        Tag::ObjectIdentifier => push_identifier(printer, octets),
        Tag::OctetString => push_digits(printer.page, octets),
        Tag::Integer => {
            note_value(printer.page, value)?;
            push_integer(printer.page, octets)
        }
        Tag::Null if octets.is_empty() => printer.push_str("NULL"),
        Tag::Null => push_full_null(printer.page, end, octets),
        Tag::UtcTime | Tag::GeneralizedTime => push_any_time(printer, value),
        _ => push_value(printer, value, Behind::Mark),
    }
}

/// Adds that a NULL has contents octets (X.690 8.8.2). It ends at offset `end` of the message, if
/// that is known.
pub fn push_full_null(
    page: &mut Page,
    end: Option<usize>,
    octets: &[u8],
) -> Result<(), AllocError> {
    let kind = Tag::Null.length_error();
    match end {
        Some(end) => {
            let position = Some(Length::ZERO);
            let begin = end.saturating_sub(octets.len());
            push_malformed(page, begin, Error { kind, position })
        }
        None => push_malformed(page, 0, Error::from_kind(kind)),
    }
}

/// Adds a number in decimal, or a negative number in the form of a serial number.
fn push_integer(page: &mut Page, octets: &[u8]) -> Result<(), AllocError> {
    match octets {
        [first, ..] if *first >= 0x80 => push_serial(page, octets),
        [0, rest @ ..] if !rest.is_empty() => push_number_of(page, rest),
        _ => push_number_of(page, octets),
    }
}

/// Adds a time. If the octets are no time, adds them as they are encoded.
fn push_any_time(printer: &mut Printer<'_>, value: &AnyRef<'_>) -> Result<(), AllocError> {
    let Ok(octets) = value.to_der(printer.alloc) else {
        return Err(AllocError);
    };
    if let Ok(time) = UtcTime::from_der(printer.alloc, octets.as_slice()) {
        return push_date_time(printer.page, &time.to_date_time());
    }
    match GeneralizedTime::from_der(printer.alloc, octets.as_slice()) {
        Ok(time) => push_date_time(printer.page, &time.to_date_time()),
        Err(_) => push_value(printer, value, Behind::Mark),
    }
}
