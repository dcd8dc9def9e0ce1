//! The tags of values.

ghost use Rattle.std.specs.Prelude.{◌≡◌, List, ℕ, Bool, true, Some, refl};
ghost use Rattle.der_tlv.specs.declared.tag.Tag.{Tag};
ghost use Rattle.der_tlv.specs.declared.encoding_rules.EncodingRules.{EncodingRules};
ghost use Rattle.der_tlv.specs.TagParts.{IsTag, is_constructed};
ghost use Rattle.der_tlv.specs.HeaderLaws.{same_identifier-same};
ghost use Rattle.der_tlv.specs.HeaderOctets.{tlv};
ghost use Rattle.der_elem.specs.Accepting.{IsTlv};
ghost use Rattle.der_elem.specs.FirstTags.{HasFirstTag};
ghost use Rattle.der_elem.specs.TaggedLaws.{tlv_tagged};

use crate::fixed_tag::{OneTag, TagMarker};
use crate::form::{Form, FormValue};
use der_tlv::Tag;

/// A value with a tag.
pub trait Tagged: FormValue + Form {
    ghost tag_of: { Self → Tag };

    /// Returns the tag of the value's encoding.
    fn tag(&self) -> Tag
        ensures value { result ≡ tag_of self.now }
        ensures bounded { IsTag (tag_of self.now) };

    ghost encoding_is: { (v : Self) → Self.encoding v ≡ tlv (tag_of v) (Self.value.contents v) };

    ghost accepted_is_tlv: { (rules : EncodingRules) (v : Self) (b : List ℕ)
        → Self.accepts rules v b → IsTlv b };

    ghost own_tag: { (v : Self) → Self.tags (tag_of v) ≡ true };

    ghost first_tag_is: { (v : Self) → Self.first_tag_of v ≡ Some (tag_of v) };

    ghost re_reads_alike: { (v : Self) → Self.value.re_reads v ≡ true → Self.re_reads v ≡ true };

    ghost comparable_alike: { (v w : Self) → Self.comparable v w → Self.value.comparable v w };
}

impl<T: FormValue + OneTag> Tagged for T {
    ghost tag_of = { λ _. T.Marker.TAG };

    fn tag(&self) -> Tag {
        <T::Marker as TagMarker>::TAG
    }

    ghost encoding_is = { λ v. refl };

    ghost accepted_is_tlv = { tlv_tagged T.Marker.TAG T.value.accepts };

    ghost own_tag = { λ v. same_identifier-same T.Marker.TAG };

    ghost first_tag_is = { λ v. refl };

    ghost re_reads_alike = { λ v h. h };

    ghost comparable_alike = { λ v w h. h };
}

/// A type whose values are distinguished from others by their tags: each encoding begins with a
/// tag.
pub trait Choice: Form {
    /// Returns whether an encoding of a value of the type may begin with this tag.
    fn can_decode(tag: Tag) -> bool
        ensures { result ≡ Self.tags tag };

    ghost has_first_tag: { (v : Self) → HasFirstTag (Self.first_tag_of v) };
}

impl<T: FormValue + OneTag> Choice for T {
    fn can_decode(tag: Tag) -> bool {
        tag.equals(<T::Marker as TagMarker>::TAG)
    }

    ghost has_first_tag = { λ v. record { tag = T.Marker.TAG; is_tag = refl } };
}

/// A type whose encodings are all constructed, or all primitive.
pub trait IsConstructed {
    ghost CONSTRUCTED: { Bool };

    /// Whether the encodings are constructed.
    const CONSTRUCTED: bool;
}

impl<T: OneTag> IsConstructed for T {
    ghost CONSTRUCTED = { is_constructed T.Marker.TAG };

    const CONSTRUCTED: bool = match <T::Marker as TagMarker>::TAG {
        Tag::Sequence | Tag::Set => true,
        Tag::Application { constructed, .. } => constructed,
        Tag::ContextSpecific { constructed, .. } => constructed,
        Tag::Private { constructed, .. } => constructed,
        _ => false,
    };
}
