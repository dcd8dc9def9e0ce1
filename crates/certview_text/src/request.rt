//! A certification request as text.

ghost use Rattle.std.specs.Prelude.{◌≡◌, None, OnOk};
ghost use Rattle.der_modules.specs.Asn1.{parse_of};
ghost use Rattle.der_pkcs.specs.Request.Grammar.{certification_request};
ghost use Rattle.certview_text.specs.Faults.{first_fault};

use crate::certificate::push_version;
use crate::fault::{Fault, refusal};
use crate::kind::Kind;
use crate::whole::push_title;
use certview_parts::algorithms::push_key;
use certview_parts::attribute_rows::push_attribute_rows;
use certview_parts::field_name::FieldName;
use certview_parts::names::push_name;
use certview_parts::page::Page;
use certview_parts::place::{Place, place_of_all};
use certview_parts::printer::Printer;
use certview_parts::signatures::push_signature_rows;
use der_asn1_types::FromDer;
use der_pkcs::request::laws::grammar_of_certification_request;
use der_pkcs::request::{CertificationRequest, CertificationRequestInfo};
use std::alloc::{AllocError, Global};

/// Adds the fields of the CertificationRequest in these octets, one line each.
///
/// # Errors
/// `Refused` with the first error in the octets, in the order of the fields; with
/// `ErrorKind::TrailingData` (3) if octets are left over; with `ErrorKind::Overflow` (9) if there
/// are more than 4294967295 octets. `Memory` if memory runs out.
pub fn push_request(alloc: Global, page: &mut Page, octets: &[u8]) -> Result<(), Fault>
    ensures { OnOk result (first_fault (parse_of certification_request) octets.now ≡ None) }
{
    grammar_of_certification_request();
    match CertificationRequest::from_der(alloc, octets) {
        Ok(request) => Ok(push_fields(&mut Printer::new(alloc, page, octets), &request)?),
        Err(error) => Err(refusal(Kind::CertificationRequest, octets, error)),
    }
}

fn push_fields(
    printer: &mut Printer<'_>,
    request: &CertificationRequest<'_>,
) -> Result<(), AllocError> {
    let whole = place_of_all(printer.octets);
    push_title(printer, &whole, Kind::CertificationRequest)?;
    let at = printer.places_of(request, &whole);
    push_signed(
        printer,
        &at.certification_request_info,
        request.certification_request_info(),
    )?;
    push_signature_rows(
        printer,
        &at.signature_algorithm,
        request.signature_algorithm(),
        &at.signature,
        request.signature(),
    )
}

/// Adds the signed part: the version, the subject, the key and the attributes. The encoded
/// version is one less.
fn push_signed(
    printer: &mut Printer<'_>,
    place: &Place,
    signed: &CertificationRequestInfo<'_>,
) -> Result<(), AllocError> {
    let at = printer.places_of(signed, place);
    push_version(printer, &at.version, signed.version())?;
    push_name(printer, &at.subject, FieldName::Subject, signed.subject())?;
    let key = signed.subject_pk_info();
    push_key(printer, &at.subject_pk_info, key)?;
    push_attribute_rows(printer, &at.attributes, FieldName::Attribute)
}
