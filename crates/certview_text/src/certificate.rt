//! A certificate as text.

ghost use Rattle.std.specs.Prelude.{◌≡◌, None, OnOk};
ghost use Rattle.der_modules.specs.Asn1.{parse_of};
ghost use Rattle.der_pkix.specs.Certificate.Grammar.{certificate};
ghost use Rattle.certview_text.specs.Faults.{first_fault};

use crate::fault::{Fault, refusal};
use crate::findings::push_certificate_findings;
use crate::kind::Kind;
use crate::moments::push_validity_at;
use crate::whole::push_title;
use certview_parts::algorithms::{push_algorithm, push_key};
use certview_parts::bit_strings::push_bits;
use certview_parts::extension_rows::push_explicit_extensions;
use certview_parts::field_name::FieldName;
use certview_parts::hexadecimal::push_serial;
use certview_parts::names::push_name;
use certview_parts::page::Page;
use certview_parts::place::{Place, place_of_all};
use certview_parts::printer::Printer;
use certview_parts::signatures::push_signature_rows;
use certview_parts::times::push_validity;
use der_asn1_types::FromDer;
use der_asn1_types::asn1::{BitStringRef, IntRef};
use der_pkix::certificate::laws::grammar_of_certificate;
use der_pkix::certificate::{Certificate, TbsCertificate};
use der_places::certificate::TbsCertificatePlaces;
use std::alloc::{AllocError, Global};
use std::fmt::Write;

/// Adds the fields of the certificate in these octets, one line each.
///
/// # Errors
/// `Refused` with the first error in the octets, in the order of the fields; with
/// `ErrorKind::TrailingData` (3) if octets are left over; with `ErrorKind::Overflow` (9) if there
/// are more than 4294967295 octets. `Memory` if memory runs out.
pub fn push_certificate(alloc: Global, page: &mut Page, octets: &[u8]) -> Result<(), Fault>
    ensures { OnOk result (first_fault (parse_of certificate) octets.now ≡ None) }
{
    grammar_of_certificate();
    match Certificate::from_der(alloc, octets) {
        Ok(certificate) => Ok(push_fields(&mut Printer::new(alloc, page, octets), &certificate)?),
        Err(error) => Err(refusal(Kind::Certificate, octets, error)),
    }
}

fn push_fields(printer: &mut Printer<'_>, certificate: &Certificate<'_>) -> Result<(), AllocError> {
    let whole = place_of_all(printer.octets);
    push_title(printer, &whole, Kind::Certificate)?;
    let at = printer.places_of(certificate, &whole);
    let signed = certificate.tbs_certificate();
    let within = printer.places_of(signed, &at.tbs_certificate);
    push_signed(printer, &within, signed)?;
    push_explicit_extensions(
        printer,
        &within.extensions,
        FieldName::Extension,
        signed.extensions(),
    )?;
    push_signature_rows(
        printer,
        &at.signature_algorithm,
        certificate.signature_algorithm(),
        &at.signature_value,
        certificate.signature_value(),
    )?;
    push_certificate_findings(printer, certificate, &whole)?;
    push_validity_at(printer, &within.validity, signed.validity())
}

/// Adds the signed fields before the extensions.
fn push_signed(
    printer: &mut Printer<'_>,
    at: &TbsCertificatePlaces,
    signed: &TbsCertificate<'_>,
) -> Result<(), AllocError> {
    push_version(printer, &at.version, signed.version())?;
    push_serial_number(printer, &at.serial_number, signed.serial_number())?;
    push_algorithm(
        printer,
        &at.signature,
        FieldName::SignatureAlgorithm,
        signed.signature(),
    )?;
    push_name(printer, &at.issuer, FieldName::Issuer, signed.issuer())?;
    push_validity(printer, &at.validity, &signed.validity())?;
    push_name(printer, &at.subject, FieldName::Subject, signed.subject())?;
    push_rest(printer, at, signed)
}

fn push_rest(
    printer: &mut Printer<'_>,
    at: &TbsCertificatePlaces,
    signed: &TbsCertificate<'_>,
) -> Result<(), AllocError> {
    let key = signed.subject_public_key_info();
    push_key(printer, &at.subject_public_key_info, key)?;
    push_unique(
        printer,
        &at.issuer_unique_id,
        FieldName::IssuersNumber,
        signed.issuer_unique_id(),
    )?;
    push_unique(
        printer,
        &at.subject_unique_id,
        FieldName::SubjectsNumber,
        signed.subject_unique_id(),
    )
}

/// Adds a line with the unique identifier of an issuer or of a subject, if it is present.
fn push_unique(
    printer: &mut Printer<'_>,
    place: &Place,
    field: FieldName,
    number: Option<&BitStringRef<'_>>,
) -> Result<(), AllocError> {
    match number {
        Some(bits) => {
            printer.begin(place, field)?;
            push_bits(printer.page, bits)?;
            printer.push('\n')
        }
        None => Ok(()),
    }
}

/// Adds a line with the version. The encoded number is one less (RFC 5280 section 4.1.2.1).
pub fn push_version(
    printer: &mut Printer<'_>,
    place: &Place,
    number: u8,
) -> Result<(), AllocError> {
    printer.begin(place, FieldName::Version)?;
    let version = u16::from(number) + 1;
    writeln!(printer.page.text, "{version}")
}

fn push_serial_number(
    printer: &mut Printer<'_>,
    place: &Place,
    number: &IntRef<'_>,
) -> Result<(), AllocError> {
    printer.begin(place, FieldName::SerialNumber)?;
    push_serial(printer.page, number.as_bytes())?;
    printer.push('\n')
}
