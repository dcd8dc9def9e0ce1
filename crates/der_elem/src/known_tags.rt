//! The tags of a type, if they are known before any value.

ghost use Rattle.std.specs.Prelude.{◌≡◌, List, ◌∷◌, [], Bool, true, false, Option, Some, refl};
ghost use Rattle.der_tlv.specs.declared.tag.Tag.{Tag};
ghost use Rattle.der_elem.specs.FirstTags.{HasFirstTag};
ghost use Rattle.der_elem.specs.KnownTags.{may_be};
ghost use Rattle.der_elem.specs.KnownTagLaws.{own_is_known};

use crate::fixed_tag::OneTag;
use crate::form::{Form, FormValue};

/// The tags that the encodings of a type begin with, and whether a value may have no octets, as
/// data. So a computation shows that the tags of two types are distinct (X.680 25.6).
pub trait KnownTags: Form {
    // the tags that its encodings may begin with; none if any tag may
    ghost known_tags: { Option (List Tag) };

    // whether a value may have no octets
    ghost MAY_BE_ABSENT: { Bool };

    ghost are_known: { (t : Tag) → Self.tags t ≡ true → may_be known_tags t ≡ true };

    ghost is_there: { MAY_BE_ABSENT ≡ false → (v : Self) → HasFirstTag (Self.first_tag_of v) };
}

impl<T: FormValue + OneTag> KnownTags for T {
    ghost known_tags = { Some (T.Marker.TAG ∷ []) };

    ghost MAY_BE_ABSENT = { false };

    ghost are_known = { own_is_known T.Marker.TAG };

    ghost is_there = { λ e v. record { tag = T.Marker.TAG; is_tag = refl } };
}

impl<T: KnownTags> KnownTags for Option<T> {
    ghost known_tags = { T.known_tags };

    ghost MAY_BE_ABSENT = { true };

    ghost are_known = { T.are_known };

    ghost is_there = { λ e v. absurd (cc) };
}
