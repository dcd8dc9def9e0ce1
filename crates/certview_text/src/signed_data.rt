//! Signed data as text (RFC 5652 section 5).

use crate::cms_certificates::{push_certificate_choices, push_revocations};
use crate::keys::push_version;
use crate::signed_content::push_signed_content;
use crate::signers::push_signers;
use crate::stamped::push_stamped;
use certview_parts::algorithms::push_algorithm;
use certview_parts::field_name::FieldName;
use certview_parts::place::Place;
use certview_parts::printer::Printer;
use certview_parts::rows::{push_identifier_row, push_length_row, push_malformed_row};
use der_asn1_types::{ErrorKind, FromDer};
use der_cms::cms::{EncapsulatedContentInfo, SignedData};
use der_pkix::AlgorithmIdentifier;
use der_time_stamp::time_stamp::constants::ID_CT_TST_INFO;
use std::alloc::AllocError;

/// Adds the fields of the SignedData in this byte range, one line each. If its content is no
/// OCTET STRING, it is read as that of PKCS #7.
pub fn push_signed_data(printer: &mut Printer<'_>, place: &Place) -> Result<(), AllocError> {
    let inner = printer.inner_at(place);
    match SignedData::from_der(printer.alloc, inner.octets) {
        Ok(signed) => push_fields(printer, place, &signed),
        Err(error) if error.kind == ErrorKind::Memory => Err(AllocError),
        Err(_) => push_signed_content(printer, place),
    }
}

fn push_fields(
    printer: &mut Printer<'_>,
    place: &Place,
    signed: &SignedData<'_>,
) -> Result<(), AllocError> {
    let at = printer.places_of(signed, place);
    push_version(printer, &at.version, signed.version())?;
    push_digests(printer, &at.digest_algorithms)?;
    let content = signed.encap_content_info();
    push_encapsulated(printer, &at.encap_content_info, content)?;
    push_certificate_choices(printer, &at.certificates)?;
    push_revocations(printer, &at.crls)?;
    push_signers(printer, &at.signer_infos)
}

/// Adds a line for each digest algorithm of a set, in the order of the octets.
pub fn push_digests(printer: &mut Printer<'_>, set: &Place) -> Result<(), AllocError> {
    let field = FieldName::DigestAlgorithm;
    let mut items = printer.items(set);
    for _ in 0..set.length {
        let Some(place) = items.next_item() else {
            break;
        };
        let inner = printer.inner_at(&place);
        match AlgorithmIdentifier::from_der(printer.alloc, inner.octets) {
            Ok(algorithm) => push_algorithm(printer, &place, field, &algorithm)?,
            Err(error) => push_malformed_row(printer, &place, field, inner.begin, error)?,
        }
    }
    Ok(())
}

/// Adds the type of the encapsulated content, the number of its octets if it is present, and the
/// fields of a TSTInfo.
pub fn push_encapsulated(
    printer: &mut Printer<'_>,
    place: &Place,
    content: &EncapsulatedContentInfo<'_>,
) -> Result<(), AllocError> {
    let at = printer.places_of(content, place);
    let identifier = content.e_content_type().as_bytes();
    push_identifier_row(
        printer,
        &at.e_content_type,
        FieldName::ContentType,
        identifier,
    )?;
    let Some(held) = content.e_content() else {
        return Ok(());
    };
    let string = printer.contents_of(at.e_content);
    if identifier == ID_CT_TST_INFO.as_slice() {
        return push_stamped(printer, &string);
    }
    push_length_row(printer, &string, FieldName::Content, held.as_bytes())
}
