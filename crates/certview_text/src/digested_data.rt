//! Digested data as text (RFC 5652 section 7).

use crate::keys::push_version;
use crate::signed_data::push_encapsulated;
use certview_parts::algorithms::push_algorithm;
use certview_parts::field_name::FieldName;
use certview_parts::place::Place;
use certview_parts::printer::Printer;
use certview_parts::rows::{push_malformed_row, push_octets_row};
use der_asn1_types::FromDer;
use der_cms::cms::DigestedData;
use std::alloc::AllocError;

/// Adds the fields of the DigestedData in this byte range, one line each.
pub fn push_digested_data(printer: &mut Printer<'_>, place: &Place) -> Result<(), AllocError> {
    let inner = printer.inner_at(place);
    match DigestedData::from_der(printer.alloc, inner.octets) {
        Ok(digested) => push_fields(printer, place, &digested),
        Err(error) => push_malformed_row(
            printer,
            place,
            FieldName::DigestedData,
            inner.begin,
            error,
        ),
    }
}

fn push_fields(
    printer: &mut Printer<'_>,
    place: &Place,
    digested: &DigestedData<'_>,
) -> Result<(), AllocError> {
    let at = printer.places_of(digested, place);
    push_version(printer, &at.version, digested.version())?;
    let algorithm = digested.digest_algorithm();
    let field = FieldName::DigestAlgorithm;
    push_algorithm(printer, &at.digest_algorithm, field, algorithm)?;
    let content = digested.encap_content_info();
    push_encapsulated(printer, &at.encap_content_info, content)?;
    push_octets_row(
        printer,
        &at.digest,
        FieldName::Digest,
        digested.digest().as_bytes(),
    )
}
