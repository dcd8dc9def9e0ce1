//! The bags of a PKCS #12 file as text (RFC 7292 section 4.2).

use crate::bag_values::push_bag_value;
use certview_parts::attribute_rows::push_attribute_rows;
use certview_parts::field_name::FieldName;
use certview_parts::place::{Place, nowhere};
use certview_parts::printer::Printer;
use certview_parts::rows::{push_identifier_row, push_malformed_row};
use der_asn1_types::FromDer;
use der_pkcs::pkcs12::{SafeBag, SafeContents};
use std::alloc::AllocError;

/// Adds the lines of each bag in the OCTET STRING in this byte range.
pub fn push_bags(printer: &mut Printer<'_>, string: &Place) -> Result<(), AllocError> {
    let inner = printer.contents_at(string);
    match SafeContents::from_der(printer.alloc, inner.octets) {
        Ok(bags) => {
            let list = printer.contents_of(*string);
            push_each(printer, &list, &bags)
        }
        Err(error) => push_malformed_row(printer, string, FieldName::Bags, inner.begin, error),
    }
}

fn push_each(
    printer: &mut Printer<'_>,
    list: &Place,
    bags: &SafeContents<'_>,
) -> Result<(), AllocError> {
    let mut places = printer.items(list);
    for item in bags.items().iter(printer.alloc) {
        let place = places.next_item().unwrap_or(nowhere());
        let Ok(bag) = item else {
            // The item was decoded before, so only memory can run out.
            return Err(AllocError);
        };
        push_bag(printer, &place, &bag)?;
    }
    Ok(())
}

/// Adds the type of a bag, its value and its attributes.
fn push_bag(printer: &mut Printer<'_>, place: &Place, bag: &SafeBag<'_>) -> Result<(), AllocError> {
    let at = printer.places_of(bag, place);
    let identifier = bag.bag_id().as_bytes();
    push_identifier_row(printer, place, FieldName::Bag, identifier)?;
    let value = printer.contents_of(at.bag_value);
    push_bag_value(printer, &value, identifier)?;
    push_attribute_rows(printer, &at.bag_attributes, FieldName::Attribute)
}
