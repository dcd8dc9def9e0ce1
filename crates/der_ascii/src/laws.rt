//! Laws of strings whose characters have one octet each.

ghost use Rattle.std.specs.Prelude.{◌≡◌, ◌∷◌, []};
ghost use Rattle.der_tlv.specs.declared.tag.Tag.TheVariants as tags;

use crate::{
    Ia5String, Ia5StringRef, PrintableString, PrintableStringRef, TeletexString, TeletexStringRef,
    VideotexStringRef,
};
use der_elem::FixedTag;
use der_tlv::Tag;

/// Returns the tags of the types (X.680 8.6), of owned strings and of borrowed ones, in the order
/// of their names below.
pub fn universal_tags() -> [Tag; 7]
    ensures { result ≡ tags.PrintableString ∷ tags.PrintableString ∷ tags.TeletexString
        ∷ tags.TeletexString ∷ tags.VideotexString ∷ tags.Ia5String ∷ tags.Ia5String ∷ [] }
{
    [
        PrintableString::TAG,
        PrintableStringRef::TAG,
        TeletexString::TAG,
        TeletexStringRef::TAG,
        VideotexStringRef::TAG,
        Ia5String::TAG,
        Ia5StringRef::TAG,
    ]
}
