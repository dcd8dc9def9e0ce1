//! Names as text (RFC 4514, with the attributes in the order of the octets).

use crate::characters::{Behind, push_escaped};
use crate::field_name::FieldName;
use crate::hexadecimal::push_digits;
use crate::identifiers::push_attribute_type;
use crate::irregular::note_value;
use crate::place::Place;
use crate::printer::Printer;
use der_asn1_types::asn1::AnyRef;
use der_asn1_types::{Encode, Tag};
use der_pkix::name::{AttributeTypeAndValue, Name, RelativeDistinguishedName};
use std::alloc::AllocError;

/// Adds a line with a name.
pub fn push_name(
    printer: &mut Printer<'_>,
    place: &Place,
    field: FieldName,
    name: &Name<'_>,
) -> Result<(), AllocError> {
    printer.begin(place, field)?;
    push_places(printer, name, Behind::Mark)?;
    printer.push('\n')
}

/// Adds the relative names of a name.
pub fn push_places(
    printer: &mut Printer<'_>,
    name: &Name<'_>,
    behind: Behind,
) -> Result<(), AllocError> {
    let mut is_first = true;
    for item in name.items().iter(printer.alloc) {
        let Ok(place) = item else {
            // The item was decoded before, so only memory can run out.
            return Err(AllocError);
        };
        push_next_place(printer, is_first, &place, behind)?;
        is_first = false;
    }
    Ok(())
}

/// Adds a relative name, after a comma if it is not the first.
fn push_next_place(
    printer: &mut Printer<'_>,
    is_first: bool,
    place: &RelativeDistinguishedName<'_>,
    behind: Behind,
) -> Result<(), AllocError> {
    if !is_first {
        printer.push_str(", ")?;
    }
    push_attributes(printer, place, behind)
}

/// Adds the attributes of a relative name.
pub fn push_attributes(
    printer: &mut Printer<'_>,
    place: &RelativeDistinguishedName<'_>,
    behind: Behind,
) -> Result<(), AllocError> {
    let mut is_first = true;
    for item in place.items().iter(printer.alloc) {
        let Ok(attribute) = item else {
            // The item was decoded before, so only memory can run out.
            return Err(AllocError);
        };
        push_next_attribute(printer, is_first, &attribute, behind)?;
        is_first = false;
    }
    Ok(())
}

/// Adds an attribute, after a `+` if it is not the first of its relative name.
fn push_next_attribute(
    printer: &mut Printer<'_>,
    is_first: bool,
    attribute: &AttributeTypeAndValue<'_>,
    behind: Behind,
) -> Result<(), AllocError> {
    if !is_first {
        printer.push('+')?;
    }
    push_attribute(printer, attribute, behind)
}

/// Adds an attribute.
pub fn push_attribute(
    printer: &mut Printer<'_>,
    attribute: &AttributeTypeAndValue<'_>,
    behind: Behind,
) -> Result<(), AllocError> {
    let identifier = attribute.type_();
    push_attribute_type(printer, identifier.as_bytes())?;
    printer.push('=')?;
    push_value(printer, attribute.value(), behind)
}

/// Adds a value: the characters of a string type, or else `#` and its encoding. Notes contents
/// octets that are invalid for the type.
pub fn push_value(
    printer: &mut Printer<'_>,
    value: &AnyRef<'_>,
    behind: Behind,
) -> Result<(), AllocError> {
    note_value(printer.page, value)?;
    let octets = value.value();
    match value.header().tag {
        Tag::BmpString => push_units(printer, value, behind),
        tag if is_text(tag, octets) => match str::from_utf8(octets) {
            Ok(characters) => push_escaped(printer.page, characters, behind),
            Err(_) => push_encoding(printer, value),
        },
        _ => push_encoding(printer, value),
    }
}

/// Returns whether contents octets are characters of UTF-8, or of a part of it. Those of a
/// TeletexString and of a GeneralString are if they are ASCII only.
fn is_text(tag: Tag, octets: &[u8]) -> bool {
    match tag {
        Tag::Utf8String
        | Tag::PrintableString
        | Tag::Ia5String
        | Tag::NumericString
        | Tag::VisibleString => true,
        Tag::TeletexString | Tag::GeneralString => octets.is_ascii(),
        _ => false,
    }
}

/// Adds the characters of a BMPString, or its encoding if some of its units are no characters.
fn push_units(
    printer: &mut Printer<'_>,
    value: &AnyRef<'_>,
    behind: Behind,
) -> Result<(), AllocError> {
    let mut characters = String::new(printer.alloc);
    if push_characters(&mut characters, value.value())? {
        return push_escaped(printer.page, characters.as_str(), behind);
    }
    push_encoding(printer, value)
}

/// Adds the character of each two octets and returns whether these are all.
fn push_characters(characters: &mut String, octets: &[u8]) -> Result<bool, AllocError> {
    for index in 0..octets.len() / 2 {
        let unit = u16::from_be_bytes([octets[2 * index], octets[2 * index + 1]]);
        let Some(character) = char::from_u32(u32::from(unit)) else {
            return Ok(false);
        };
        characters.push(character)?;
    }
    Ok(octets.len() % 2 == 0)
}

/// Adds `#` and the digits of an encoding.
pub fn push_encoding(printer: &mut Printer<'_>, value: &AnyRef<'_>) -> Result<(), AllocError> {
    printer.push('#')?;
    match value.to_der(printer.alloc) {
        Ok(octets) => push_digits(printer.page, octets.as_slice()),
        Err(_) => Err(AllocError),
    }
}
