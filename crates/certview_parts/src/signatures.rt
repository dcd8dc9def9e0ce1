//! Signatures of messages, and the certificates beside them, as text.

use crate::algorithms::push_algorithm;
use crate::bit_strings::push_bits;
use crate::characters::Behind;
use crate::field_name::FieldName;
use crate::hexadecimal::push_serial;
use crate::names::push_places;
use crate::place::{Place, nowhere};
use crate::printer::Printer;
use der_asn1_types::asn1::BitStringRef;
use der_lists::ListRef;
use der_pkix::AlgorithmIdentifier;
use der_pkix::certificate::Certificate;
use std::alloc::AllocError;

/// Adds the line of a signature's algorithm and the line of the signature, which is a BIT STRING.
pub fn push_signature_rows(
    printer: &mut Printer<'_>,
    algorithm_place: &Place,
    algorithm: &AlgorithmIdentifier<'_>,
    place: &Place,
    signature: &BitStringRef<'_>,
) -> Result<(), AllocError> {
    push_algorithm(
        printer,
        algorithm_place,
        FieldName::SignatureAlgorithm,
        algorithm,
    )?;
    printer.begin(place, FieldName::Signature)?;
    push_bits(printer.page, signature)?;
    printer.push('\n')
}

/// Adds a line for each certificate of a list.
pub fn push_certificate_rows<'a>(
    printer: &mut Printer<'_>,
    list: &Place,
    certificates: &ListRef<'a, Certificate<'a>>,
) -> Result<(), AllocError> {
    let mut places = printer.items(list);
    for item in certificates.iter(printer.alloc) {
        let place = places.next_item().unwrap_or(nowhere());
        let Ok(certificate) = item else {
            // The item was decoded before, so only memory can run out.
            return Err(AllocError);
        };
        push_certificate_row(printer, &place, &certificate)?;
    }
    Ok(())
}

/// Adds a line with the serial number and the subject of a certificate.
pub fn push_certificate_row(
    printer: &mut Printer<'_>,
    place: &Place,
    certificate: &Certificate<'_>,
) -> Result<(), AllocError> {
    let signed = certificate.tbs_certificate();
    printer.begin(place, FieldName::Certificate)?;
    push_serial(printer.page, signed.serial_number().as_bytes())?;
    printer.push_str(", ")?;
    push_places(printer, signed.subject(), Behind::Mark)?;
    printer.push('\n')
}
