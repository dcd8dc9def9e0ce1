//! An OCSP request as text.

ghost use Rattle.std.specs.Prelude.{◌≡◌, None, OnOk};
ghost use Rattle.der_modules.specs.Asn1.{parse_of};
ghost use Rattle.der_ocsp.specs.Ocsp.Grammar.{ocsp_request};
ghost use Rattle.certview_text.specs.Faults.{first_fault};

use crate::certificate::push_version;
use crate::fault::{Fault, refusal};
use crate::kind::Kind;
use crate::ocsp_certificates::push_certificate_id;
use crate::whole::push_title;
use certview_parts::extension_rows::push_explicit_extensions;
use certview_parts::field_name::FieldName;
use certview_parts::other_names::push_other_name;
use certview_parts::page::Page;
use certview_parts::place::{Place, nowhere, place_of_all};
use certview_parts::printer::Printer;
use certview_parts::signatures::{push_certificate_rows, push_signature_rows};
use der_asn1_types::FromDer;
use der_extensions::extension::GeneralName;
use der_ocsp::ocsp::laws::grammar_of_ocsp_request;
use der_ocsp::ocsp::{OcspRequest, Request, Requests, Signature, TbsRequest};
use std::alloc::{AllocError, Global};

/// Adds the fields of the OCSPRequest in these octets, one line each.
///
/// # Errors
/// `Refused` with the first error in the octets, in the order of the fields; with
/// `ErrorKind::TrailingData` (3) if octets are left over; with `ErrorKind::Overflow` (9) if there
/// are more than 4294967295 octets. `Memory` if memory runs out.
pub fn push_ocsp_request(alloc: Global, page: &mut Page, octets: &[u8]) -> Result<(), Fault>
    ensures { OnOk result (first_fault (parse_of ocsp_request) octets.now ≡ None) }
{
    grammar_of_ocsp_request();
    match OcspRequest::from_der(alloc, octets) {
        Ok(request) => Ok(push_fields(&mut Printer::new(alloc, page, octets), &request)?),
        Err(error) => Err(refusal(Kind::OcspRequest, octets, error)),
    }
}

fn push_fields(printer: &mut Printer<'_>, request: &OcspRequest<'_>) -> Result<(), AllocError> {
    let whole = place_of_all(printer.octets);
    let at = printer.places_of(request, &whole);
    push_title(printer, &whole, Kind::OcspRequest)?;
    push_signed(printer, &at.tbs_request, request.tbs_request())?;
    match request.optional_signature() {
        Some(signature) => {
            let place = printer.contents_of(at.optional_signature);
            push_signature(printer, &place, signature)
        }
        None => Ok(()),
    }
}

fn push_signed(
    printer: &mut Printer<'_>,
    place: &Place,
    signed: &TbsRequest<'_>,
) -> Result<(), AllocError> {
    let at = printer.places_of(signed, place);
    push_version(printer, &at.version, signed.version())?;
    push_requestor(printer, &at.requestor_name, signed.requestor_name())?;
    let requests = signed.request_list();
    push_requests(printer, &at.request_list, requests)?;
    push_explicit_extensions(
        printer,
        &at.request_extensions,
        FieldName::Extension,
        signed.request_extensions(),
    )
}

fn push_requestor(
    printer: &mut Printer<'_>,
    place: &Place,
    name: Option<&GeneralName<'_>>,
) -> Result<(), AllocError> {
    match name {
        Some(name) => {
            printer.begin(place, FieldName::Requestor)?;
            push_other_name(printer, name)?;
            printer.push('\n')
        }
        None => Ok(()),
    }
}

/// Adds the lines of each certificate that the request asks about.
fn push_requests(
    printer: &mut Printer<'_>,
    list: &Place,
    requests: &Requests<'_>,
) -> Result<(), AllocError> {
    let mut places = printer.items(list);
    for item in requests.items().iter(printer.alloc) {
        let place = places.next_item().unwrap_or(nowhere());
        let Ok(request) = item else {
            // The item was decoded before, so only memory can run out.
            return Err(AllocError);
        };
        push_one_request(printer, &place, &request)?;
    }
    Ok(())
}

fn push_one_request(
    printer: &mut Printer<'_>,
    place: &Place,
    request: &Request<'_>,
) -> Result<(), AllocError> {
    let at = printer.places_of(request, place);
    push_certificate_id(printer, &at.req_cert, request.req_cert())?;
    push_explicit_extensions(
        printer,
        &at.single_request_extensions,
        FieldName::ExtensionOfThisCertificate,
        request.single_request_extensions(),
    )
}

fn push_signature(
    printer: &mut Printer<'_>,
    place: &Place,
    signature: &Signature<'_>,
) -> Result<(), AllocError> {
    let at = printer.places_of(signature, place);
    push_signature_rows(
        printer,
        &at.signature_algorithm,
        signature.signature_algorithm(),
        &at.signature,
        signature.signature(),
    )?;
    match signature.certs() {
        Some(certificates) => {
            let list = printer.contents_of(at.certs);
            push_certificate_rows(printer, &list, certificates.items())
        }
        None => Ok(()),
    }
}
