//! Laws of bit strings.

ghost use Rattle.std.specs.Prelude.{◌≡◌, ◌↔◌, IsTrue, ◌∷◌, []};
ghost use Rattle.der_tlv.specs.declared.tag.Tag.TheVariants as tags;
ghost use Rattle.der_bits.specs.BitString.{bits};
ghost use Rattle.der_bits.specs.BitStringRef.{contents_of};

use crate::bit_string::BitString;
use crate::bit_string_ref::BitStringRef;
use der_elem::{FixedTag, FormValue};
use der_tlv::Tag;

/// Returns whether two bit strings are equal. Since unused bits are zero, this is whether they
/// have the same bits.
pub fn equal_bits<'a>(one: BitStringRef<'a>, other: BitStringRef<'a>) -> bool
    ensures same_bits { IsTrue result
        ↔ (bits (contents_of one.entry) ≡ bits (contents_of other.entry)) }
    ensures same_contents { IsTrue result ↔ (contents_of one.entry ≡ contents_of other.entry) }
{
    one == other
}

/// Returns the tags of the types (X.680 8.6): of `BitString` and `BitStringRef`.
pub fn universal_tags() -> [Tag; 2]
    ensures { result ≡ tags.BitString ∷ tags.BitString ∷ [] }
{
    [BitString::TAG, BitStringRef::TAG]
}

/// Returns the maximum number of unused bits of a bit string, which is seven.
pub fn max_unused_bits() -> u8
    ensures { result ≡ 7 }
{
    BitString::MAX_UNUSED_BITS
}
