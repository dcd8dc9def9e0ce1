//! The universal tags (X.690 8.1.2.2, X.680 8.6), each as a type.

ghost use Rattle.std.proofs.Common.{lit<};
ghost use Rattle.der_tlv.specs.declared.tag.Tag.TheVariants as tags;

use crate::fixed_tag::TagMarker;
use der_tlv::Tag;

/// The tag of BOOLEAN, 01.
pub struct BooleanTag;

impl TagMarker for BooleanTag {
    ghost TAG = { tags.Boolean };

    const TAG: Tag = Tag::Boolean;

    ghost tag_in_range = { lit< tt };
}

/// The tag of INTEGER, 02.
pub struct IntegerTag;

impl TagMarker for IntegerTag {
    ghost TAG = { tags.Integer };

    const TAG: Tag = Tag::Integer;

    ghost tag_in_range = { lit< tt };
}

/// The tag of BIT STRING, 03.
pub struct BitStringTag;

impl TagMarker for BitStringTag {
    ghost TAG = { tags.BitString };

    const TAG: Tag = Tag::BitString;

    ghost tag_in_range = { lit< tt };
}

/// The tag of OCTET STRING, 04.
pub struct OctetStringTag;

impl TagMarker for OctetStringTag {
    ghost TAG = { tags.OctetString };

    const TAG: Tag = Tag::OctetString;

    ghost tag_in_range = { lit< tt };
}

/// The tag of NULL, 05.
pub struct NullTag;

impl TagMarker for NullTag {
    ghost TAG = { tags.Null };

    const TAG: Tag = Tag::Null;

    ghost tag_in_range = { lit< tt };
}

/// The tag of OBJECT IDENTIFIER, 06.
pub struct ObjectIdentifierTag;

impl TagMarker for ObjectIdentifierTag {
    ghost TAG = { tags.ObjectIdentifier };

    const TAG: Tag = Tag::ObjectIdentifier;

    ghost tag_in_range = { lit< tt };
}

/// The tag of UTF8String, 0C.
pub struct Utf8StringTag;

impl TagMarker for Utf8StringTag {
    ghost TAG = { tags.Utf8String };

    const TAG: Tag = Tag::Utf8String;

    ghost tag_in_range = { lit< tt };
}

/// The tag of SEQUENCE and SEQUENCE OF, 30.
pub struct SequenceTag;

impl TagMarker for SequenceTag {
    ghost TAG = { tags.Sequence };

    const TAG: Tag = Tag::Sequence;

    ghost tag_in_range = { lit< tt };
}

/// The tag of SET and SET OF, 31.
pub struct SetTag;

impl TagMarker for SetTag {
    ghost TAG = { tags.Set };

    const TAG: Tag = Tag::Set;

    ghost tag_in_range = { lit< tt };
}

/// The tag of UTCTime, 17.
pub struct UtcTimeTag;

impl TagMarker for UtcTimeTag {
    ghost TAG = { tags.UtcTime };

    const TAG: Tag = Tag::UtcTime;

    ghost tag_in_range = { lit< tt };
}

/// The tag of GeneralizedTime, 18.
pub struct GeneralizedTimeTag;

impl TagMarker for GeneralizedTimeTag {
    ghost TAG = { tags.GeneralizedTime };

    const TAG: Tag = Tag::GeneralizedTime;

    ghost tag_in_range = { lit< tt };
}

/// The tag of GeneralString, 1B.
pub struct GeneralStringTag;

impl TagMarker for GeneralStringTag {
    ghost TAG = { tags.GeneralString };

    const TAG: Tag = Tag::GeneralString;

    ghost tag_in_range = { lit< tt };
}

/// The tag of BMPString, 1E.
pub struct BmpStringTag;

impl TagMarker for BmpStringTag {
    ghost TAG = { tags.BmpString };

    const TAG: Tag = Tag::BmpString;

    ghost tag_in_range = { lit< tt };
}
