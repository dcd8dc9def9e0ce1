//! Attributes of names, from their types and texts (RFC 5280 section 4.1.2.4).

ghost use Rattle.std.specs.Prelude.{◌≡◌, true, IfOk, IfErr, OnOk};
ghost use Rattle.der_build.specs.Attributes.{attribute_octets, fits, string_tag, RefusesText};
ghost use Rattle.der_opaque.specs.AnyRef.{contents_of, tag_of};
ghost use Rattle.der_opaque.specs.ObjectIdentifierRef.{octets_of};
ghost use Rattle.der_pkix.specs.Name.AttributeTypeAndValue as attribute_fields;

use crate::text_rules::{fits, string_tag};
use der_elem::Form;
use der_opaque::{AnyRef, ObjectIdentifierRef};
use der_pkix::name::AttributeTypeAndValue;
use der_tlv::Error;

/// The type of an attribute, as the contents octets of its identifier, and its text.
///
/// 55 04 03 with `mill` is a commonName.
#[derive(Clone, Copy, Debug)]
pub struct TextAttribute<'a> {
    /// The contents octets of the identifier, such as 55 04 03 for commonName;
    /// `der_pkix::name::constants` has more.
    pub type_: &'a [u8],
    /// The text.
    pub text: &'a str,
}

/// Makes an attribute with its text in the string that RFC 5280 requires: a PrintableString for
/// countryName, serialNumber and dnQualifier, an IA5String for domainComponent and emailAddress,
/// and a UTF8String for any other.
///
/// 55 04 03 with `mill` is encoded as 30 0B 06 03 55 04 03 0C 04 6D 69 6C 6C.
///
/// # Errors
/// `ErrorKind::OidMalformed` (15) for a type of no octets; `ErrorKind::Length` (7) for a type of
/// more than 39, and for a text of more than 4294967295; `ErrorKind::Value` (13) with the tag of
/// the string for a text that this string cannot hold, or that has fewer or more characters than
/// RFC 5280 appendix A.1 allows.
pub fn attribute<'a>(attribute: TextAttribute<'a>) -> Result<AttributeTypeAndValue<'a>, Error>
    ensures type_ { IfOk result (λ a. octets_of (attribute_fields.type_ a) ≡ attribute.entry.type_.now) }
    ensures tag { IfOk result (λ a. tag_of (attribute_fields.value a) ≡ string_tag attribute.entry.type_.now) }
    ensures text { IfOk result (λ a. contents_of (attribute_fields.value a) ≡ attribute.entry.text.now) }
    ensures fits { OnOk result (fits attribute.entry.type_.now attribute.entry.text.now ≡ true) }
    ensures octets { IfOk result (λ a. ⟦<AttributeTypeAndValue<'a> as Form>⟧.encoding a
        ≡ attribute_octets attribute.entry.type_.now attribute.entry.text.now) }
    ensures refused { IfErr result (λ e. RefusesText attribute.entry.type_.now attribute.entry.text.now e.kind) }
{
    let TextAttribute { type_, text } = attribute;
    let identifier = match ObjectIdentifierRef::from_bytes(type_) {
        Ok(identifier) => identifier,
        Err(e) => return Err(e),
    };
    let tag = string_tag(type_);
    let value = match AnyRef::new(tag, text.as_bytes()) {
        Ok(value) => value,
        Err(e) => return Err(e),
    };
    if !fits(type_, text.as_bytes()) {
        return Err(Error::from_kind(tag.value_error()));
    }
    Ok(AttributeTypeAndValue::new(identifier, value))
}
