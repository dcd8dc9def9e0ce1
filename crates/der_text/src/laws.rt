//! Laws of strings whose characters have several octets.

ghost use Rattle.std.specs.Prelude.{◌≡◌, ◌∷◌, []};
ghost use Rattle.der_tlv.specs.declared.tag.Tag.TheVariants as tags;

use crate::bmp_string::BmpString;
use crate::general_string::GeneralStringRef;
use crate::utf8_string::Utf8StringRef;
use der_elem::FixedTag;
use der_tlv::Tag;

/// Returns the tags of the types (X.680 8.6): of `Utf8StringRef`, `GeneralStringRef` and
/// `BmpString`.
pub fn universal_tags() -> [Tag; 3]
    ensures { result ≡ tags.Utf8String ∷ tags.GeneralString ∷ tags.BmpString ∷ [] }
{
    [Utf8StringRef::TAG, GeneralStringRef::TAG, BmpString::TAG]
}
