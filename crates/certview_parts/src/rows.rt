//! Lines with one value each.

use crate::algorithms::bits_of;
use crate::characters::{Behind, push_escaped};
use crate::field_name::FieldName;
use crate::hexadecimal::{push_digits, push_number_of, push_serial};
use crate::identifiers::push_identifier;
use crate::page::{Inner, push_malformed, push_malformed_inner};
use crate::place::Place;
use crate::printer::Printer;
use crate::times::push_date_time;
use der_asn1_types::{DateTime, Error};
use std::alloc::AllocError;
use std::fmt::Write;

/// Adds a line with an identifier.
pub fn push_identifier_row(
    printer: &mut Printer<'_>,
    place: &Place,
    field: FieldName,
    identifier: &[u8],
) -> Result<(), AllocError> {
    printer.begin(place, field)?;
    push_identifier(printer, identifier)?;
    printer.push('\n')
}

/// Adds a line with octets and their number.
pub fn push_octets_row(
    printer: &mut Printer<'_>,
    place: &Place,
    field: FieldName,
    octets: &[u8],
) -> Result<(), AllocError> {
    printer.begin(place, field)?;
    let count = octets.len();
    write!(printer.page.text, "{count} octets, ")?;
    push_digits(printer.page, octets)?;
    printer.push('\n')
}

/// Adds a line with the number of octets, which are not shown.
pub fn push_length_row(
    printer: &mut Printer<'_>,
    place: &Place,
    field: FieldName,
    octets: &[u8],
) -> Result<(), AllocError> {
    printer.begin(place, field)?;
    let count = octets.len();
    writeln!(printer.page.text, "{count} octets")
}

/// Adds a line with characters.
pub fn push_text_row(
    printer: &mut Printer<'_>,
    place: &Place,
    field: FieldName,
    text: &str,
) -> Result<(), AllocError> {
    printer.begin(place, field)?;
    push_escaped(printer.page, text, Behind::Mark)?;
    printer.push('\n')
}

/// Adds a line with the non-negative number in these octets: in decimal, or, if it has more than
/// 16 octets, with its number of bits and its digits.
pub fn push_number_row(
    printer: &mut Printer<'_>,
    place: &Place,
    field: FieldName,
    octets: &[u8],
) -> Result<(), AllocError> {
    printer.begin(place, field)?;
    if octets.len() > 16 {
        let bits = bits_of(octets);
        write!(printer.page.text, "{bits} bits, ")?;
        push_digits(printer.page, octets)?;
    } else {
        push_number_of(printer.page, octets)?;
    }
    printer.push('\n')
}

/// Adds a line with the number in the contents octets of an INTEGER. A negative number has the
/// form of a serial number.
pub fn push_signed_row(
    printer: &mut Printer<'_>,
    place: &Place,
    field: FieldName,
    octets: &[u8],
) -> Result<(), AllocError> {
    match octets {
        [first, ..] if *first >= 0x80 => push_serial_row(printer, place, field, octets),
        [0, rest @ ..] if !rest.is_empty() => push_number_row(printer, place, field, rest),
        _ => push_number_row(printer, place, field, octets),
    }
}

/// Adds a line with a number.
pub fn push_integer_row(
    printer: &mut Printer<'_>,
    place: &Place,
    field: FieldName,
    number: u32,
) -> Result<(), AllocError> {
    printer.begin(place, field)?;
    writeln!(printer.page.text, "{number}")
}

/// Adds a line with the octets of a number, in the form of a serial number.
pub fn push_serial_row(
    printer: &mut Printer<'_>,
    place: &Place,
    field: FieldName,
    octets: &[u8],
) -> Result<(), AllocError> {
    printer.begin(place, field)?;
    push_serial(printer.page, octets)?;
    printer.push('\n')
}

/// Adds a line with a date and time.
pub fn push_time_row(
    printer: &mut Printer<'_>,
    place: &Place,
    field: FieldName,
    time: &DateTime,
) -> Result<(), AllocError> {
    printer.begin(place, field)?;
    push_date_time(printer.page, time)?;
    printer.push('\n')
}

/// Adds a line with the error in octets that are read on their own, at offset `begin` of the
/// message.
pub fn push_malformed_row(
    printer: &mut Printer<'_>,
    place: &Place,
    field: FieldName,
    begin: usize,
    error: Error,
) -> Result<(), AllocError> {
    printer.begin(place, field)?;
    push_malformed(printer.page, begin, error)?;
    printer.push('\n')
}

/// Adds a line with the error in octets that may contain a time. A time before 1970 has words of
/// its own.
pub fn push_malformed_inner_row(
    printer: &mut Printer<'_>,
    place: &Place,
    field: FieldName,
    inner: Inner<'_>,
    error: Error,
) -> Result<(), AllocError> {
    printer.begin(place, field)?;
    push_malformed_inner(printer.page, inner, error)?;
    printer.push('\n')
}

/// Adds a line with the number of things that the field lists.
pub fn push_count_row(
    printer: &mut Printer<'_>,
    place: &Place,
    field: FieldName,
    count: usize,
) -> Result<(), AllocError> {
    printer.begin(place, field)?;
    writeln!(printer.page.text, "{count}")
}
