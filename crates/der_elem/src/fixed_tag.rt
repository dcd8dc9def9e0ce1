//! Types whose encodings have one tag.
//!
//! Such a type names a marker, a type that stands for its tag ([`OneTag`]). The marker and the
//! contents octets give its form, its reading and its writing. [`FixedTag`] has the tag as a
//! constant.

ghost use Rattle.der_tlv.specs.declared.tag.Tag.{Tag};
ghost use Rattle.der_tlv.specs.TagParts.{IsTag};

use der_tlv::Tag;

/// A tag, as a type.
pub trait TagMarker {
    ghost TAG: { Tag };

    /// The tag.
    const TAG: Tag;

    ghost tag_in_range: { IsTag TAG };
}

/// A type whose encodings have one tag, which it names.
pub trait OneTag {
    /// The tag.
    type Marker: TagMarker;
}

/// A type whose encodings have one tag.
pub trait FixedTag {
    ghost TAG: { Tag };

    /// The tag.
    const TAG: Tag;

    ghost tag_in_range: { IsTag TAG };
}

impl<T: OneTag> FixedTag for T {
    ghost TAG = { T.Marker.TAG };

    const TAG: Tag = <T::Marker as TagMarker>::TAG;

    ghost tag_in_range = { T.Marker.tag_in_range };
}
