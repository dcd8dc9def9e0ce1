//! A time stamp reply as text.

ghost use Rattle.std.specs.Prelude.{◌≡◌, None, OnOk};
ghost use Rattle.der_modules.specs.Asn1.{parse_of};
ghost use Rattle.der_time_stamp.specs.TimeStamp.Grammar.{time_stamp_resp};
ghost use Rattle.certview_text.specs.Faults.{first_fault};

use crate::contents::push_content;
use crate::fault::{Fault, refusal};
use crate::kind::Kind;
use crate::whole::push_title;
use certview_parts::field_name::FieldName;
use certview_parts::page::Page;
use certview_parts::place::{Place, nowhere, place_of_all};
use certview_parts::printer::Printer;
use certview_parts::rows::{push_identifier_row, push_text_row};
use der_asn1_types::FromDer;
use der_asn1_types::asn1::NamedBitsRef;
use der_time_stamp::time_stamp::laws::grammar_of_time_stamp_resp;
use der_time_stamp::time_stamp::{PkiFreeText, PkiStatusInfo, TimeStampResp, TimeStampToken};
use std::alloc::{AllocError, Global};
use std::fmt::Write;

/// The names of the numbers of a PKIStatus, from 0 on.
const STATUSES: [&str; 6] = [
    "granted",
    "grantedWithMods",
    "rejection",
    "waiting",
    "revocationWarning",
    "revocationNotification",
];

/// The names of the bits of a PKIFailureInfo (RFC 3161 section 2.4.2), from bit 0 on. The bits
/// that this RFC lacks have the names of RFC 4210 section 5.2.3.
const FAILURES: [&str; 26] = [
    "badAlg",
    "badMessageCheck",
    "badRequest",
    "badTime",
    "badCertId",
    "badDataFormat",
    "wrongAuthority",
    "incorrectData",
    "missingTimeStamp",
    "badPOP",
    "certRevoked",
    "certConfirmed",
    "wrongIntegrity",
    "badRecipientNonce",
    "timeNotAvailable",
    "unacceptedPolicy",
    "unacceptedExtension",
    "addInfoNotAvailable",
    "badSenderNonce",
    "badCertTemplate",
    "signerNotTrusted",
    "transactionIdInUse",
    "unsupportedVersion",
    "notAuthorized",
    "systemUnavail",
    "systemFailure",
];

/// Adds the fields of the TimeStampResp in these octets, one line each.
///
/// # Errors
/// `Refused` with the first error in the octets, in the order of the fields; with
/// `ErrorKind::TrailingData` (3) if octets are left over; with `ErrorKind::Overflow` (9) if there
/// are more than 4294967295 octets. `Memory` if memory runs out.
pub fn push_reply(alloc: Global, page: &mut Page, octets: &[u8]) -> Result<(), Fault>
    ensures { OnOk result (first_fault (parse_of time_stamp_resp) octets.now ≡ None) }
{
    grammar_of_time_stamp_resp();
    match TimeStampResp::from_der(alloc, octets) {
        Ok(reply) => Ok(push_fields(&mut Printer::new(alloc, page, octets), &reply)?),
        Err(error) => Err(refusal(Kind::TimeStampReply, octets, error)),
    }
}

fn push_fields(printer: &mut Printer<'_>, reply: &TimeStampResp<'_>) -> Result<(), AllocError> {
    let whole = place_of_all(printer.octets);
    let at = printer.places_of(reply, &whole);
    push_title(printer, &whole, Kind::TimeStampReply)?;
    push_status(printer, &at.status, reply.status())?;
    match reply.time_stamp_token() {
        Some(token) => push_token(printer, &at.time_stamp_token, token),
        None => Ok(()),
    }
}

/// Adds the status, its texts and its failure bits, if they are present.
fn push_status(
    printer: &mut Printer<'_>,
    place: &Place,
    status: &PkiStatusInfo<'_>,
) -> Result<(), AllocError> {
    let at = printer.places_of(status, place);
    printer.begin(&at.status, FieldName::Status)?;
    push_status_name(printer.page, status.status())?;
    printer.push('\n')?;
    if let Some(texts) = status.status_string() {
        push_texts(printer, &at.status_string, texts)?;
    }
    match status.fail_info() {
        Some(bits) => {
            printer.begin(&at.fail_info, FieldName::Failure)?;
            push_failures(printer.page, *bits)
        }
        None => Ok(()),
    }
}

fn push_status_name(page: &mut Page, status: u8) -> Result<(), AllocError> {
    match STATUSES.get(status as usize) {
        Some(name) => page.text.push_str(name),
        None => write!(page.text, "{status}"),
    }
}

fn push_texts(
    printer: &mut Printer<'_>,
    list: &Place,
    texts: &PkiFreeText<'_>,
) -> Result<(), AllocError> {
    let mut places = printer.items(list);
    for item in texts.items().iter(printer.alloc) {
        let place = places.next_item().unwrap_or(nowhere());
        let Ok(text) = item else {
            // The item was decoded before, so only memory can run out.
            return Err(AllocError);
        };
        push_text_row(printer, &place, FieldName::StatusText, text.as_str())?;
    }
    Ok(())
}

/// Adds the names of the set bits, and ends the line. A bit without a name is shown by its
/// number.
fn push_failures(page: &mut Page, bits: NamedBitsRef<'_>) -> Result<(), AllocError> {
    let mut is_first = true;
    for index in 0..bits.as_bit_string().bit_len() {
        if bits.has(index) {
            if !is_first {
                page.text.push_str(", ")?;
            }
            is_first = false;
            push_failure(page, index)?;
        }
    }
    page.text.push('\n')
}

fn push_failure(page: &mut Page, index: usize) -> Result<(), AllocError> {
    match FAILURES.get(index) {
        Some(name) => page.text.push_str(name),
        None => write!(page.text, "bit {index}"),
    }
}

/// Adds the lines of a time stamp, which is a CMS message.
fn push_token(
    printer: &mut Printer<'_>,
    place: &Place,
    token: &TimeStampToken<'_>,
) -> Result<(), AllocError> {
    let at = printer.places_of(token, place);
    let identifier = token.content_type().as_bytes();
    push_identifier_row(
        printer,
        &at.content_type,
        FieldName::ContentType,
        identifier,
    )?;
    let content = printer.contents_of(at.content);
    push_content(printer, &content, identifier)
}
