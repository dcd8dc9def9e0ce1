//! A time stamp query as text.

ghost use Rattle.std.specs.Prelude.{◌≡◌, None, OnOk};
ghost use Rattle.der_modules.specs.Asn1.{parse_of};
ghost use Rattle.der_time_stamp.specs.TimeStamp.Grammar.{time_stamp_req};
ghost use Rattle.certview_text.specs.Faults.{first_fault};

use crate::fault::{Fault, refusal};
use crate::keys::push_version;
use crate::kind::Kind;
use crate::stamped::{push_extensions, push_flag, push_imprint, push_nonce};
use crate::whole::push_title;
use certview_parts::field_name::FieldName;
use certview_parts::page::Page;
use certview_parts::place::place_of_all;
use certview_parts::printer::Printer;
use certview_parts::rows::push_identifier_row;
use der_asn1_types::FromDer;
use der_time_stamp::time_stamp::TimeStampReq;
use der_time_stamp::time_stamp::laws::grammar_of_time_stamp_req;
use std::alloc::{AllocError, Global};

/// Adds the fields of the TimeStampReq in these octets, one line each.
///
/// # Errors
/// `Refused` with the first error in the octets, in the order of the fields; with
/// `ErrorKind::TrailingData` (3) if octets are left over; with `ErrorKind::Overflow` (9) if there
/// are more than 4294967295 octets. `Memory` if memory runs out.
pub fn push_query(alloc: Global, page: &mut Page, octets: &[u8]) -> Result<(), Fault>
    ensures { OnOk result (first_fault (parse_of time_stamp_req) octets.now ≡ None) }
{
    grammar_of_time_stamp_req();
    match TimeStampReq::from_der(alloc, octets) {
        Ok(query) => Ok(push_fields(&mut Printer::new(alloc, page, octets), &query)?),
        Err(error) => Err(refusal(Kind::TimeStampQuery, octets, error)),
    }
}

fn push_fields(printer: &mut Printer<'_>, query: &TimeStampReq<'_>) -> Result<(), AllocError> {
    let whole = place_of_all(printer.octets);
    let at = printer.places_of(query, &whole);
    push_title(printer, &whole, Kind::TimeStampQuery)?;
    push_version(printer, &at.version, query.version())?;
    let imprint = query.message_imprint();
    push_imprint(printer, &at.message_imprint, imprint)?;
    if let Some(policy) = query.req_policy() {
        push_identifier_row(
            printer,
            &at.req_policy,
            FieldName::Policy,
            policy.as_bytes(),
        )?;
    }
    push_nonce(printer, &at.nonce, query.nonce())?;
    push_flag(
        printer,
        &at.cert_req,
        FieldName::WithCertificate,
        query.cert_req(),
    )?;
    push_extensions(printer, &at.extensions, query.extensions())
}
