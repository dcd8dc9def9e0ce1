//! The certificate that an OCSP message is about, as text (RFC 6960 section 4.1.1).

use certview_parts::algorithms::push_algorithm;
use certview_parts::field_name::FieldName;
use certview_parts::place::Place;
use certview_parts::printer::Printer;
use certview_parts::rows::{push_octets_row, push_serial_row};
use der_ocsp::ocsp::CertId;
use std::alloc::AllocError;

/// Adds the lines of a CertID: the serial number, and the hashes of the issuer's name and key.
pub fn push_certificate_id(
    printer: &mut Printer<'_>,
    place: &Place,
    certificate: &CertId<'_>,
) -> Result<(), AllocError> {
    let at = printer.places_of(certificate, place);
    let number = certificate.serial_number().as_bytes();
    push_serial_row(printer, &at.serial_number, FieldName::SerialNumber, number)?;
    push_algorithm(
        printer,
        &at.hash_algorithm,
        FieldName::HashAlgorithm,
        certificate.hash_algorithm(),
    )?;
    let hash = certificate.issuer_name_hash().as_bytes();
    push_octets_row(
        printer,
        &at.issuer_name_hash,
        FieldName::HashOfIssuersName,
        hash,
    )?;
    let hash = certificate.issuer_key_hash().as_bytes();
    push_octets_row(
        printer,
        &at.issuer_key_hash,
        FieldName::HashOfIssuersKey,
        hash,
    )
}
