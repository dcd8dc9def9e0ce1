//! Laws of NumericString, VisibleString, RELATIVE-OID, and GeneralizedTime with a fraction of a second.

ghost use Rattle.std.specs.Prelude.{◌≡◌, ◌↔◌, ◌∷◌, [], IsTrue};
ghost use Rattle.der_tlv.specs.declared.tag.Tag.TheVariants as tags;
ghost use Rattle.der_simple.specs.Arcs.{IsArcs, are_arcs};
ghost use Rattle.der_simple.specs.FractionalTimes.{IsFractionalTime, is_fractional_time};

use crate::fractional_time::is_fractional_time;
use crate::{NumericStringRef, RelativeOidRef, VisibleStringRef};
use der_elem::FixedTag;
use der_tlv::Tag;

/// Returns the tags of the types (X.680 8.4), in the order of their names below.
pub fn universal_tags() -> [Tag; 3]
    ensures { result ≡ tags.NumericString ∷ tags.VisibleString ∷ tags.RelativeOid ∷ [] }
{
    [
        NumericStringRef::TAG,
        VisibleStringRef::TAG,
        RelativeOidRef::TAG,
    ]
}

/// Proves that the octets that are read as a RELATIVE-OID are those of one or more numbers, one
/// after another, each in base 128 with the fewest octets (X.690 8.20.2).
pub fn octets_of_arcs(octets: &[u8])
    ensures { IsTrue (are_arcs octets.now) ↔ IsArcs octets.now }
{}

/// Proves that the octets that are read as a time with a fraction are those of X.690 11.7: a
/// second, optionally a full stop and a fraction, and Z.
pub fn octets_of_times(octets: &[u8])
    ensures { IsTrue (is_fractional_time octets.now) ↔ IsFractionalTime octets.now }
{
    let _found = is_fractional_time(octets);
}
