//! The number of characters in the texts of a name: the bounds of RFC 5280 appendix A.1 (SIZE),
//! which are beyond the grammar of a name.

ghost use Rattle.std.specs.Prelude.{◌≡◌, List};
ghost use Rattle.der_opaque.specs.AnyRef.{contents_of, tag_of};
ghost use Rattle.der_pkix.specs.declared.name.attribute_type_and_value.AttributeTypeAndValue.{AttributeTypeAndValue};
ghost use Rattle.der_verify.specs.Names.{AreParts};
ghost use Rattle.der_verify.specs.Sizes.{characters, size_holds, sizes_hold};

use crate::bounds::{character_count, may_have};
use crate::shown::{ShownTest, all_pass};
use der_elem::Form;
use der_opaque::AnyRef;
use der_pkix::name::{AttributeTypeAndValue, Name, RelativeDistinguishedName};
use der_tlv::Tag;
use std::alloc::Global;

/// Returns whether each text of a name has a number of characters that RFC 5280 appendix A.1
/// allows for the type of its attribute: commonName 1 to 64, countryName 2, localityName 1 to
/// 128, emailAddress 1 to 255, and so on. A text whose type has no bound there has at least 1,
/// except for dnQualifier and domainComponent. A value that is neither one of the strings of
/// DirectoryString nor an IA5String has no bound.
///
/// A name with a commonName of 65 characters is read, but the result is false.
pub fn sizes_hold<'a>(alloc: Global, name: &Name<'a>) -> bool
    ensures { (parts : List (List AttributeTypeAndValue))
        → AreParts ⟦<RelativeDistinguishedName<'a> as Form>⟧ ⟦<AttributeTypeAndValue<'a> as Form>⟧ name.now parts
        → result ≡ sizes_hold parts }
{
    all_pass(name.items().iter(alloc), &PartSizesHold { alloc })
}

/// Returns whether the text of an attribute has a number of characters that its type allows.
pub fn size_holds(attribute: &AttributeTypeAndValue<'_>) -> bool
    ensures { result ≡ size_holds attribute.now }
{
    match characters(attribute.value()) {
        Some(count) => may_have(attribute.type_().as_bytes(), count),
        None => true,
    }
}

/// The test that the sizes of a part are allowed.
#[derive(Drop)]
struct PartSizesHold {
    alloc: Global,
}

impl<'a> ShownTest<RelativeDistinguishedName<'a>> for PartSizesHold {
    ghost use Rattle.std.specs.Prelude.{List};
    ghost use Rattle.der_pkix.specs.declared.name.attribute_type_and_value.AttributeTypeAndValue.{AttributeTypeAndValue};
    ghost use Rattle.der_verify.specs.EqualEncodings.{same_attributes};
    ghost use Rattle.der_verify.specs.Names.{AreAttributes};
    ghost use Rattle.der_verify.specs.Sizes.{sizes_hold_of};

    ghost Shown = { List AttributeTypeAndValue };

    ghost shows = { λ p. AreAttributes ⟦<AttributeTypeAndValue<'a> as Form>⟧ };

    ghost passes = { λ p. sizes_hold_of };

    fn passes(&self, item: &RelativeDistinguishedName<'a>) -> bool {
        all_pass(item.items().iter(self.alloc), &SizeHolds)
    }

    ghost respects = { λ p. same_attributes ⟦<AttributeTypeAndValue<'a> as Form>⟧ };
}

/// The test that the size of an attribute is allowed.
struct SizeHolds;

impl<'a> ShownTest<AttributeTypeAndValue<'a>> for SizeHolds {
    ghost use Rattle.der_pkix.specs.declared.name.attribute_type_and_value.AttributeTypeAndValue.{AttributeTypeAndValue};
    ghost use Rattle.der_verify.specs.Shown.{Encodes, encodes_too};
    ghost use Rattle.der_verify.specs.Sizes.{size_holds};

    ghost Shown = { AttributeTypeAndValue };

    ghost shows = { λ p v x. Encodes ⟦<AttributeTypeAndValue<'a> as Form>⟧ v x };

    ghost passes = { λ p. size_holds };

    fn passes(&self, item: &AttributeTypeAndValue<'a>) -> bool {
        size_holds(item)
    }

    ghost respects = { λ p v w x. encodes_too ⟦<AttributeTypeAndValue<'a> as Form>⟧ v w x };
}

/// Returns the number of characters in a value that is one of these strings.
fn characters(value: &AnyRef<'_>) -> Option<usize>
    ensures { result ≡ characters (tag_of value.now) (contents_of value.now) }
{
    let octets = value.value();
    match value.header().tag {
        Tag::PrintableString => Some(octets.len()),
        Tag::Ia5String => Some(octets.len()),
        Tag::TeletexString => Some(octets.len()),
        Tag::Utf8String => Some(character_count(octets)),
        Tag::BmpString => Some(octets.len() / 2),
        _ => None,
    }
}
