//! The tags of the strings whose characters have one octet each.

ghost use Rattle.der_ascii.specs.Characters.{string_tag};
ghost use Rattle.der_ascii.specs.StringLaws.{string_tag-in_range};

use der_elem::TagMarker;
use der_tlv::Tag;

/// The tag with this universal number, which is 19, 20, 21 or 22.
pub struct CharacterStringTag<const NUMBER: u8>;

impl<const NUMBER: u8> TagMarker for CharacterStringTag<NUMBER> {
    ghost TAG = { string_tag NUMBER };

    const TAG: Tag = match NUMBER {
        19 => Tag::PrintableString,
        20 => Tag::TeletexString,
        21 => Tag::VideotexString,
        _ => Tag::Ia5String,
    };

    ghost tag_in_range = { string_tag-in_range NUMBER };
}
