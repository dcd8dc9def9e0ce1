//! The tags of the types (X.680 8.4).

ghost use Rattle.std.proofs.Common.{lit<};
ghost use Rattle.der_tlv.specs.declared.tag.Tag.TheVariants as tags;
ghost use Rattle.der_simple.specs.Characters.{string_tag};
ghost use Rattle.der_simple.specs.CharacterLaws.{string_tag-in_range};

use der_elem::TagMarker;
use der_tlv::Tag;

/// The tag with this universal number, which is 18 (NumericString) or 26 (VisibleString).
pub struct SimpleStringTag<const NUMBER: u8>;

impl<const NUMBER: u8> TagMarker for SimpleStringTag<NUMBER> {
    ghost TAG = { string_tag NUMBER };

    const TAG: Tag = match NUMBER {
        18 => Tag::NumericString,
        _ => Tag::VisibleString,
    };

    ghost tag_in_range = { string_tag-in_range NUMBER };
}

/// The tag of RELATIVE-OID, 0D.
pub struct RelativeOidTag;

impl TagMarker for RelativeOidTag {
    ghost TAG = { tags.RelativeOid };

    const TAG: Tag = Tag::RelativeOid;

    ghost tag_in_range = { lit< tt };
}
