//! Authenticated data as text (RFC 5652 section 9).

use crate::enveloped_data::push_originator;
use crate::keys::push_version;
use crate::recipients::push_recipients;
use crate::signed_data::push_encapsulated;
use certview_parts::algorithms::push_algorithm;
use certview_parts::attribute_rows::push_attribute_rows;
use certview_parts::field_name::FieldName;
use certview_parts::place::Place;
use certview_parts::printer::Printer;
use certview_parts::rows::{push_malformed_row, push_octets_row};
use der_asn1_types::FromDer;
use der_enveloped::authenticated::AuthenticatedData;
use std::alloc::AllocError;

/// Adds the fields of the AuthenticatedData in this byte range, one line each.
pub fn push_authenticated_data(printer: &mut Printer<'_>, place: &Place) -> Result<(), AllocError> {
    let inner = printer.inner_at(place);
    match AuthenticatedData::from_der(printer.alloc, inner.octets) {
        Ok(data) => push_fields(printer, place, &data),
        Err(error) => push_malformed_row(
            printer,
            place,
            FieldName::AuthenticatedData,
            inner.begin,
            error,
        ),
    }
}

fn push_fields(
    printer: &mut Printer<'_>,
    place: &Place,
    data: &AuthenticatedData<'_>,
) -> Result<(), AllocError> {
    let at = printer.places_of(data, place);
    push_version(printer, &at.version, data.version())?;
    let originator = data.originator_info();
    push_originator(printer, &at.originator_info, originator)?;
    push_recipients(printer, &at.recipient_infos)?;
    let algorithm = data.mac_algorithm();
    push_algorithm(
        printer,
        &at.mac_algorithm,
        FieldName::MacAlgorithm,
        algorithm,
    )?;
    if let Some(algorithm) = data.digest_algorithm() {
        let field = FieldName::DigestAlgorithm;
        push_algorithm(printer, &at.digest_algorithm, field, algorithm)?;
    }
    let content = data.encap_content_info();
    push_encapsulated(printer, &at.encap_content_info, content)?;
    let set = &at.auth_attrs;
    push_attribute_rows(printer, set, FieldName::AuthenticatedAttribute)?;
    push_octets_row(printer, &at.mac, FieldName::Mac, data.mac().as_bytes())?;
    let set = &at.unauth_attrs;
    push_attribute_rows(printer, set, FieldName::UnauthenticatedAttribute)
}
