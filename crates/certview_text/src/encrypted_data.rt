//! Encrypted data as text (RFC 5652 section 8).

use crate::keys::push_version;
use certview_parts::attribute_rows::push_attribute_rows;
use certview_parts::encryption::push_encryption;
use certview_parts::field_name::FieldName;
use certview_parts::place::Place;
use certview_parts::printer::Printer;
use certview_parts::rows::{push_identifier_row, push_length_row, push_malformed_row};
use der_asn1_types::FromDer;
use der_cms::cms::{EncryptedContentInfo, EncryptedData};
use std::alloc::AllocError;

/// Adds the fields of the EncryptedData in this byte range, one line each.
pub fn push_encrypted_data(printer: &mut Printer<'_>, place: &Place) -> Result<(), AllocError> {
    let inner = printer.inner_at(place);
    match EncryptedData::from_der(printer.alloc, inner.octets) {
        Ok(encrypted) => push_fields(printer, place, &encrypted),
        Err(error) => push_malformed_row(
            printer,
            place,
            FieldName::EncryptedData,
            inner.begin,
            error,
        ),
    }
}

fn push_fields(
    printer: &mut Printer<'_>,
    place: &Place,
    encrypted: &EncryptedData<'_>,
) -> Result<(), AllocError> {
    let at = printer.places_of(encrypted, place);
    push_version(printer, &at.version, encrypted.version())?;
    let content = encrypted.encrypted_content_info();
    push_encrypted_content(printer, &at.encrypted_content_info, content)?;
    let field = FieldName::UnprotectedAttribute;
    push_attribute_rows(printer, &at.unprotected_attrs, field)
}

/// Adds the type of the encrypted content, its encryption algorithm and, if it is present, the
/// number of its octets.
pub fn push_encrypted_content(
    printer: &mut Printer<'_>,
    place: &Place,
    content: &EncryptedContentInfo<'_>,
) -> Result<(), AllocError> {
    let at = printer.places_of(content, place);
    let identifier = content.content_type().as_bytes();
    push_identifier_row(
        printer,
        &at.content_type,
        FieldName::ContentType,
        identifier,
    )?;
    let cipher = content.content_encryption_algorithm();
    push_encryption(printer, &at.content_encryption_algorithm, cipher)?;
    match content.encrypted_content() {
        Some(encrypted) => {
            let field = FieldName::EncryptedContent;
            push_length_row(printer, &at.encrypted_content, field, encrypted.as_bytes())
        }
        None => Ok(()),
    }
}
