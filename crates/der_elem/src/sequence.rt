//! Types that are encoded as a SEQUENCE.

ghost use Rattle.std.specs.Prelude.{◌≡◌};
ghost use Rattle.der_tlv.specs.declared.tag.Tag.TheVariants as tags;

use crate::fixed_tag::FixedTag;

/// A type that is encoded as a SEQUENCE: its tag is 30 (X.690 8.9, 8.10).
pub trait Sequence<'a>: FixedTag {
    ghost is_sequence: { Self.TAG ≡ tags.Sequence };
}
