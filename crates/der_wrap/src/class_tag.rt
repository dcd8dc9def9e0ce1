//! The tags of the application, the context-specific and the private class (X.690 8.1.2.2).

ghost use Rattle.std.specs.Prelude.{◌≡◌, ◌<◌, ◌^◌};
ghost use Rattle.der_tlv.specs.TagParts.{IsTag};
ghost use Rattle.der_wrap.specs.ClassTags.{class_of_bits, class_tag, in_class};
ghost use Rattle.der_wrap.specs.TaggedValues.{TagsExplicitly, TagsImplicitly};

use der_tlv::{Class, EncodingRules, ErrorKind, Tag, TagNumber};

/// Returns the class of bits 8 and 7 of an identifier: 1 is application, 2 context-specific, and
/// 3 private. No type has any other number.
pub fn class_of_bits(bits: u8) -> Class
    ensures { result ≡ class_of_bits bits }
{
    match bits {
        1 => Class::Application,
        2 => Class::ContextSpecific,
        _ => Class::Private,
    }
}

/// Returns the tag of the class with this form and number.
#[tactic(auto, unfolding(crate::specs::ClassTags::class_tag))]
pub fn class_tag(bits: u8, constructed: bool, number: TagNumber) -> Tag
    ensures tag { result ≡ class_tag bits constructed number.0 }
    ensures bounded { IsTag (class_tag bits constructed number.0) }
{
    match bits {
        1 => Tag::Application {
            constructed,
            number,
        },
        2 => Tag::ContextSpecific {
            constructed,
            number,
        },
        _ => Tag::Private {
            constructed,
            number,
        },
    }
}

/// Returns whether a tag is of the class.
pub fn in_class(bits: u8, tag: Tag) -> bool
    ensures { result ≡ in_class bits tag }
{
    tag.class() == class_of_bits(bits)
}

/// Returns the number of a tag of explicit tagging of the class.
///
/// # Errors
/// `ErrorKind::Noncanonical` (8) for a primitive tag; `ErrorKind::TagUnexpected` (4) with no
/// expected tag for another class.
pub fn explicit_number(bits: u8, tag: Tag) -> Result<TagNumber, ErrorKind>
    ensures { TagsExplicitly bits tag result }
{
    if !tag.is_constructed() {
        return Err(tag.non_canonical_error());
    }
    if !in_class(bits, tag) {
        return Err(tag.unexpected_error(None));
    }
    Ok(tag.number())
}

/// Checks that a tag has the form of implicit tagging of a type whose own encodings are
/// constructed or not.
///
/// # Errors
/// `ErrorKind::Noncanonical` (8) for the other form, under DER.
pub fn check_form(rules: EncodingRules, constructed: bool, tag: Tag) -> Result<(), ErrorKind>
    ensures { TagsImplicitly rules constructed tag result }
{
    match rules {
        EncodingRules::Der if tag.is_constructed() != constructed => {
            Err(tag.non_canonical_error())
        }
        _ => Ok(()),
    }
}
