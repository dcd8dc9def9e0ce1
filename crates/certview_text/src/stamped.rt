//! The contents of a time stamp as text (RFC 3161 section 2.4.2).

use crate::keys::push_version;
use certview_parts::algorithms::push_algorithm;
use certview_parts::extension_rows::push_extension_rows;
use certview_parts::field_name::FieldName;
use certview_parts::other_names::push_other_name;
use certview_parts::page::Page;
use certview_parts::place::Place;
use certview_parts::printer::Printer;
use certview_parts::rows::{
    push_identifier_row, push_malformed_inner_row, push_octets_row, push_serial_row,
};
use certview_parts::times::push_fractional_time;
use der_asn1_types::FromDer;
use der_asn1_types::asn1::IntRef;
use der_pkix::certificate::Extensions;
use der_time_stamp::time_stamp::{Accuracy, MessageImprint, TstInfo};
use std::alloc::AllocError;
use std::fmt::Write;

/// Adds the fields of the TSTInfo in the OCTET STRING in this byte range, one line each.
pub fn push_stamped(printer: &mut Printer<'_>, string: &Place) -> Result<(), AllocError> {
    let inner = printer.contents_at(string);
    let place = printer.contents_of(*string);
    match TstInfo::from_der(printer.alloc, inner.octets) {
        Ok(stamp) => push_fields(printer, &place, &stamp),
        Err(error) => push_malformed_inner_row(printer, &place, FieldName::TimeStamp, inner, error),
    }
}

fn push_fields(
    printer: &mut Printer<'_>,
    place: &Place,
    stamp: &TstInfo<'_>,
) -> Result<(), AllocError> {
    let at = printer.places_of(stamp, place);
    push_version(printer, &at.version, stamp.version())?;
    push_identifier_row(
        printer,
        &at.policy,
        FieldName::Policy,
        stamp.policy().as_bytes(),
    )?;
    let imprint = stamp.message_imprint();
    push_imprint(printer, &at.message_imprint, imprint)?;
    let number = stamp.serial_number().as_bytes();
    push_serial_row(printer, &at.serial_number, FieldName::SerialNumber, number)?;
    printer.begin(&at.gen_time, FieldName::Time)?;
    push_fractional_time(printer.page, *stamp.gen_time())?;
    printer.push('\n')?;
    if let Some(accuracy) = stamp.accuracy() {
        printer.begin(&at.accuracy, FieldName::Accuracy)?;
        push_accuracy(printer.page, &accuracy)?;
    }
    push_flag(printer, &at.ordering, FieldName::InOrder, stamp.ordering())?;
    push_nonce(printer, &at.nonce, stamp.nonce())?;
    if let Some(authority) = stamp.tsa() {
        printer.begin(&at.tsa, FieldName::Authority)?;
        push_other_name(printer, authority)?;
        printer.push('\n')?;
    }
    push_extensions(printer, &at.extensions, stamp.extensions())
}

/// Adds the lines of a digest and its algorithm.
pub fn push_imprint(
    printer: &mut Printer<'_>,
    place: &Place,
    imprint: &MessageImprint<'_>,
) -> Result<(), AllocError> {
    let at = printer.places_of(imprint, place);
    let algorithm = imprint.hash_algorithm();
    let field = FieldName::DigestAlgorithm;
    push_algorithm(printer, &at.hash_algorithm, field, algorithm)?;
    let digest = imprint.hashed_message().as_bytes();
    push_octets_row(printer, &at.hashed_message, FieldName::Digest, digest)
}

/// Adds the parts of an accuracy that are present, and ends the line.
fn push_accuracy(page: &mut Page, accuracy: &Accuracy) -> Result<(), AllocError> {
    let seconds = accuracy.seconds().unwrap_or(0);
    let millis = accuracy.millis().unwrap_or(0);
    let micros = accuracy.micros().unwrap_or(0);
    writeln!(page.text, "{seconds} s, {millis} ms, {micros} us")
}

/// Adds the line of a field with the value `yes` or `no`.
pub fn push_flag(
    printer: &mut Printer<'_>,
    place: &Place,
    field: FieldName,
    is_set: bool,
) -> Result<(), AllocError> {
    printer.begin(place, field)?;
    let word = if is_set { "yes\n" } else { "no\n" };
    printer.push_str(word)
}

/// Adds the line of a nonce, if it is present.
pub fn push_nonce(
    printer: &mut Printer<'_>,
    place: &Place,
    nonce: Option<&IntRef<'_>>,
) -> Result<(), AllocError> {
    match nonce {
        Some(nonce) => push_serial_row(printer, place, FieldName::Nonce, nonce.as_bytes()),
        None => Ok(()),
    }
}

/// Adds a line for each extension, if there are any.
pub fn push_extensions(
    printer: &mut Printer<'_>,
    list: &Place,
    extensions: Option<&Extensions<'_>>,
) -> Result<(), AllocError> {
    match extensions {
        Some(extensions) => { push_extension_rows(printer, list, FieldName::Extension, extensions) }
        None => Ok(()),
    }
}
