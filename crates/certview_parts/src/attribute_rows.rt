//! Attributes of requests, keys, signers and bags, one line each.

use crate::any_values::push_any;
use crate::extension_rows::push_read_extensions;
use crate::field_name::FieldName;
use crate::identifiers::push_identifier;
use crate::place::Place;
use crate::printer::Printer;
use crate::rows::push_malformed_row;
use der_asn1_types::FromDer;
use der_asn1_types::asn1::AnyRef;
use der_pkcs::request::constants::PKCS_9_AT_EXTENSION_REQUEST;
use der_pkix::name::Attribute;
use std::alloc::AllocError;

/// Adds a line for each attribute of a set, in the order of the octets: its type and its values.
pub fn push_attribute_rows(
    printer: &mut Printer<'_>,
    set: &Place,
    field: FieldName,
) -> Result<(), AllocError> {
    let mut items = printer.items(set);
    for _ in 0..set.length {
        let Some(place) = items.next_item() else {
            break;
        };
        let inner = printer.inner_at(&place);
        match Attribute::from_der(printer.alloc, inner.octets) {
            Ok(attribute) => push_attribute(printer, &place, field, &attribute)?,
            Err(error) => push_malformed_row(printer, &place, field, inner.begin, error)?,
        }
    }
    Ok(())
}

/// Adds the line of an attribute. If it requests extensions (RFC 2985 section 5.4.2), their lines
/// follow it.
fn push_attribute(
    printer: &mut Printer<'_>,
    place: &Place,
    field: FieldName,
    attribute: &Attribute<'_>,
) -> Result<(), AllocError> {
    let identifier = attribute.type_().as_bytes();
    printer.begin(place, field)?;
    push_identifier(printer, identifier)?;
    if identifier == PKCS_9_AT_EXTENSION_REQUEST.as_slice() {
        printer.push('\n')?;
        let at = printer.places_of(attribute, place);
        return push_requests(printer, &at.values);
    }
    push_values(printer, place, attribute)
}

/// Adds the values of an attribute, each after a comma, and ends the line. A single value ends
/// where the attribute does; the ends of several values are not known.
fn push_values(
    printer: &mut Printer<'_>,
    place: &Place,
    attribute: &Attribute<'_>,
) -> Result<(), AllocError> {
    let values = attribute.values();
    let end = match values.count(printer.alloc) {
        Ok(1) => Some(place.behind() as usize),
        _ => None,
    };
    for item in values.iter(printer.alloc) {
        let Ok(value) = item else {
            // The item was decoded before, so only memory can run out.
            return Err(AllocError);
        };
        push_value(printer, end, &value)?;
    }
    printer.push('\n')
}

/// Adds a value after a comma.
fn push_value(
    printer: &mut Printer<'_>,
    end: Option<usize>,
    value: &AnyRef<'_>,
) -> Result<(), AllocError> {
    printer.push_str(", ")?;
    push_any(printer, end, value)
}

/// Adds the lines of the requested extensions, for each value of the set.
fn push_requests(printer: &mut Printer<'_>, values: &Place) -> Result<(), AllocError> {
    let mut items = printer.items(values);
    for _ in 0..values.length {
        let Some(list) = items.next_item() else {
            break;
        };
        push_read_extensions(printer, &list)?;
    }
    Ok(())
}
