//! An OCSP response as text.

ghost use Rattle.std.specs.Prelude.{◌≡◌, None, OnOk};
ghost use Rattle.der_modules.specs.Asn1.{parse_of};
ghost use Rattle.der_ocsp.specs.Ocsp.Grammar.{ocsp_response};
ghost use Rattle.certview_text.specs.Faults.{first_fault};

use crate::certificate::push_version;
use crate::fault::{Fault, refusal};
use crate::kind::Kind;
use crate::ocsp_statuses::push_single_responses;
use crate::whole::push_title;
use certview_parts::extension_rows::push_explicit_extensions;
use certview_parts::field_name::FieldName;
use certview_parts::names::push_name;
use certview_parts::page::Page;
use certview_parts::place::{Place, place_of_all};
use certview_parts::printer::Printer;
use certview_parts::rows::{
    push_identifier_row, push_malformed_inner_row, push_octets_row, push_time_row,
};
use certview_parts::signatures::{push_certificate_rows, push_signature_rows};
use der_asn1_types::FromDer;
use der_ocsp::ocsp::constants::ID_PKIX_OCSP_BASIC;
use der_ocsp::ocsp::laws::grammar_of_ocsp_response;
use der_ocsp::ocsp::{
    BasicOcspResponse, OcspResponse, OcspResponseStatus, ResponderId, ResponseBytes, ResponseData,
};
use std::alloc::{AllocError, Global};

/// Adds the fields of the OCSPResponse in these octets, one line each.
///
/// # Errors
/// `Refused` with the first error in the octets, in the order of the fields; with
/// `ErrorKind::TrailingData` (3) if octets are left over; with `ErrorKind::Overflow` (9) if there
/// are more than 4294967295 octets. `Memory` if memory runs out.
pub fn push_ocsp_response(alloc: Global, page: &mut Page, octets: &[u8]) -> Result<(), Fault>
    ensures { OnOk result (first_fault (parse_of ocsp_response) octets.now ≡ None) }
{
    grammar_of_ocsp_response();
    match OcspResponse::from_der(alloc, octets) {
        Ok(response) => Ok(push_fields(&mut Printer::new(alloc, page, octets), &response)?),
        Err(error) => Err(refusal(Kind::OcspResponse, octets, error)),
    }
}

fn push_fields(printer: &mut Printer<'_>, response: &OcspResponse<'_>) -> Result<(), AllocError> {
    let whole = place_of_all(printer.octets);
    let at = printer.places_of(response, &whole);
    push_title(printer, &whole, Kind::OcspResponse)?;
    printer.begin(&at.response_status, FieldName::Status)?;
    printer.push_str(name_of(response.response_status()))?;
    printer.push('\n')?;
    match response.response_bytes() {
        Some(bytes) => {
            let place = printer.contents_of(at.response_bytes);
            push_response(printer, &place, bytes)
        }
        None => Ok(()),
    }
}

fn name_of(status: OcspResponseStatus) -> &'static str {
    match status {
        OcspResponseStatus::Successful => "successful",
        OcspResponseStatus::MalformedRequest => "malformedRequest",
        OcspResponseStatus::InternalError => "internalError",
        OcspResponseStatus::TryLater => "tryLater",
        OcspResponseStatus::SigRequired => "sigRequired",
        OcspResponseStatus::Unauthorized => "unauthorized",
    }
}

/// Adds the type of a response, and the fields of a basic response or the octets of another one.
fn push_response(
    printer: &mut Printer<'_>,
    place: &Place,
    bytes: &ResponseBytes<'_>,
) -> Result<(), AllocError> {
    let at = printer.places_of(bytes, place);
    let identifier = bytes.response_type().as_bytes();
    push_identifier_row(
        printer,
        &at.response_type,
        FieldName::ResponseType,
        identifier,
    )?;
    let held = bytes.response().as_bytes();
    if identifier != ID_PKIX_OCSP_BASIC.as_slice() {
        return push_octets_row(printer, &at.response, FieldName::Response, held);
    }
    let basic = printer.contents_of(at.response);
    let inner = printer.inner_at(&basic);
    match BasicOcspResponse::from_der(printer.alloc, inner.octets) {
        Ok(response) => push_basic(printer, &basic, &response),
        Err(error) => push_malformed_inner_row(
            printer,
            &at.response,
            FieldName::Response,
            inner,
            error,
        ),
    }
}

fn push_basic(
    printer: &mut Printer<'_>,
    place: &Place,
    response: &BasicOcspResponse<'_>,
) -> Result<(), AllocError> {
    let at = printer.places_of(response, place);
    let signed = response.tbs_response_data();
    push_signed(printer, &at.tbs_response_data, signed)?;
    push_signature_rows(
        printer,
        &at.signature_algorithm,
        response.signature_algorithm(),
        &at.signature,
        response.signature(),
    )?;
    match response.certs() {
        Some(certificates) => {
            let list = printer.contents_of(at.certs);
            push_certificate_rows(printer, &list, certificates.items())
        }
        None => Ok(()),
    }
}

fn push_signed(
    printer: &mut Printer<'_>,
    place: &Place,
    signed: &ResponseData<'_>,
) -> Result<(), AllocError> {
    let at = printer.places_of(signed, place);
    push_version(printer, &at.version, signed.version())?;
    push_responder(printer, &at.responder_id, signed.responder_id())?;
    let time = signed.produced_at().to_date_time();
    push_time_row(printer, &at.produced_at, FieldName::ProducedAt, &time)?;
    let responses = signed.responses();
    push_single_responses(printer, &at.responses, responses)?;
    push_explicit_extensions(
        printer,
        &at.response_extensions,
        FieldName::Extension,
        signed.response_extensions(),
    )
}

/// Adds the responder: a name, or the hash of a key.
fn push_responder(
    printer: &mut Printer<'_>,
    place: &Place,
    responder: &ResponderId<'_>,
) -> Result<(), AllocError> {
    match responder {
        ResponderId::ByName(name) => {
            let named = printer.contents_of(*place);
            push_name(printer, &named, FieldName::Responder, &name.fields.first)
        }
        ResponderId::ByKey(hash) => {
            let field = FieldName::HashOfRespondersKey;
            push_octets_row(printer, place, field, hash.fields.first.as_bytes())
        }
    }
}
