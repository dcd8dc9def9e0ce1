//! Enveloped data as text (RFC 5652 section 6).

use crate::cms_certificates::{push_certificate_choices, push_revocations};
use crate::encrypted_data::push_encrypted_content;
use crate::keys::push_version;
use crate::recipients::push_recipients;
use certview_parts::attribute_rows::push_attribute_rows;
use certview_parts::field_name::FieldName;
use certview_parts::place::Place;
use certview_parts::printer::Printer;
use certview_parts::rows::push_malformed_row;
use der_asn1_types::FromDer;
use der_enveloped::enveloped::{EnvelopedData, OriginatorInfo};
use std::alloc::AllocError;

/// Adds the fields of the EnvelopedData in this byte range, one line each.
pub fn push_enveloped_data(printer: &mut Printer<'_>, place: &Place) -> Result<(), AllocError> {
    let inner = printer.inner_at(place);
    match EnvelopedData::from_der(printer.alloc, inner.octets) {
        Ok(enveloped) => push_fields(printer, place, &enveloped),
        Err(error) => push_malformed_row(
            printer,
            place,
            FieldName::EnvelopedData,
            inner.begin,
            error,
        ),
    }
}

fn push_fields(
    printer: &mut Printer<'_>,
    place: &Place,
    enveloped: &EnvelopedData<'_>,
) -> Result<(), AllocError> {
    let at = printer.places_of(enveloped, place);
    push_version(printer, &at.version, enveloped.version())?;
    let originator = enveloped.originator_info();
    push_originator(printer, &at.originator_info, originator)?;
    push_recipients(printer, &at.recipient_infos)?;
    let content = enveloped.encrypted_content_info();
    push_encrypted_content(printer, &at.encrypted_content_info, content)?;
    let field = FieldName::UnprotectedAttribute;
    push_attribute_rows(printer, &at.unprotected_attrs, field)
}

/// Adds a line for each certificate and each list that the sender includes, if there are any.
pub fn push_originator(
    printer: &mut Printer<'_>,
    place: &Place,
    originator: Option<&OriginatorInfo<'_>>,
) -> Result<(), AllocError> {
    match originator {
        Some(originator) => {
            let at = printer.places_of(originator, place);
            push_certificate_choices(printer, &at.certs)?;
            push_revocations(printer, &at.crls)
        }
        None => Ok(()),
    }
}
