//! Signers as text (RFC 5652 section 5.3).

use crate::keys::push_version;
use certview_parts::algorithms::push_algorithm;
use certview_parts::attribute_rows::push_attribute_rows;
use certview_parts::characters::Behind;
use certview_parts::field_name::FieldName;
use certview_parts::hexadecimal::{push_serial, push_with_colons};
use certview_parts::names::push_places;
use certview_parts::place::Place;
use certview_parts::printer::Printer;
use certview_parts::rows::{push_malformed_row, push_octets_row};
use der_asn1_types::FromDer;
use der_cms::cms::{IssuerAndSerialNumber, SignerIdentifier, SignerInfo};
use std::alloc::AllocError;

/// Adds the lines of each signer of a set, in the order of the octets.
pub fn push_signers(printer: &mut Printer<'_>, set: &Place) -> Result<(), AllocError> {
    let mut items = printer.items(set);
    for _ in 0..set.length {
        let Some(place) = items.next_item() else {
            break;
        };
        let inner = printer.inner_at(&place);
        match SignerInfo::from_der(printer.alloc, inner.octets) {
            Ok(signer) => push_signer(printer, &place, &signer)?,
            Err(error) => push_malformed_row(
                printer,
                &place,
                FieldName::Signer,
                inner.begin,
                error,
            )?,
        }
    }
    Ok(())
}

fn push_signer(
    printer: &mut Printer<'_>,
    place: &Place,
    signer: &SignerInfo<'_>,
) -> Result<(), AllocError> {
    let at = printer.places_of(signer, place);
    printer.begin(&at.sid, FieldName::Signer)?;
    push_signer_identifier(printer, signer.sid())?;
    printer.push('\n')?;
    push_version(printer, &at.version, signer.version())?;
    push_algorithm(
        printer,
        &at.digest_algorithm,
        FieldName::DigestAlgorithm,
        signer.digest_algorithm(),
    )?;
    let set = &at.signed_attrs;
    push_attribute_rows(printer, set, FieldName::SignedAttribute)?;
    let algorithm = signer.signature_algorithm();
    let field = FieldName::SignatureAlgorithm;
    push_algorithm(printer, &at.signature_algorithm, field, algorithm)?;
    let signature = signer.signature().as_bytes();
    push_octets_row(printer, &at.signature, FieldName::Signature, signature)?;
    let set = &at.unsigned_attrs;
    push_attribute_rows(printer, set, FieldName::UnsignedAttribute)
}

/// Adds the identification of a certificate: its serial number and its issuer, or its key.
pub fn push_signer_identifier(
    printer: &mut Printer<'_>,
    identifier: &SignerIdentifier<'_>,
) -> Result<(), AllocError> {
    match identifier {
        SignerIdentifier::IssuerAndSerialNumber(issued) => push_issued(printer, issued),
        SignerIdentifier::SubjectKeyIdentifier(key) => {
            printer.push_str("key ")?;
            push_with_colons(printer.page, key.value.as_bytes())
        }
    }
}

/// Adds the serial number and the issuer of a certificate.
pub fn push_issued(
    printer: &mut Printer<'_>,
    issued: &IssuerAndSerialNumber<'_>,
) -> Result<(), AllocError> {
    push_serial(printer.page, issued.serial_number().as_bytes())?;
    printer.push_str(", ")?;
    push_places(printer, issued.issuer(), Behind::Mark)
}
