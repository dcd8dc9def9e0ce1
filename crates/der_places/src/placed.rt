//! Messages with the byte ranges of all their fields.

ghost use Rattle.std.specs.Prelude.{List, ℕ};
ghost use Rattle.der_elem.specs.Accepting.{accepts_tagged};
ghost use Rattle.der_tlv.specs.TagParts.{IsTag};
ghost use Rattle.der_tlv.specs.declared.encoding_rules.EncodingRules.TheVariants.{Der};
ghost use Rattle.der_tlv.specs.declared.tag.Tag.{Tag};
ghost use Rattle.der_places.specs.declared.place.Place.{Place};
ghost use Rattle.der_places.specs.Layout.{AreFields, LaidOut, Layout, presence};
ghost use Rattle.der_places.specs.Walking.{StandAt, Walked};

use crate::place::Place;
use crate::walk::start_of_contents;
use der_elem::FormValue;

/// A message with the byte ranges of all its fields: its contents octets are its fields, one
/// after another (X.690 8.9).
pub trait Placed: FormValue {
    /// The byte ranges of the fields, by their names.
    type Places;

    // the byte ranges in the order of the fields
    ghost listed: { Self.Places → List Place };

    // the fields: whether each is present, and the octets from which it is read
    ghost layout: { Self → Layout };

    /// Returns the byte ranges of the fields; the first field begins where `start` ends.
    fn walk(&self, octets: &[u8], start: Place) -> Self::Places
        ensures { Walked octets.now start (presence (layout self.now)) (listed result) };

    // contents octets that are read as a value are its fields
    ghost are_fields: { (v : Self) (c : List ℕ) → Self.FormValue.value.accepts Der v c
        → AreFields (layout v) c };
}

/// Returns the byte ranges of all fields of a value that was read from the octets at an offset,
/// with any tag.
pub fn places_of<T: Placed>(value: &T, octets: &[u8], offset: u32) -> <T as Placed>::Places
    ensures { (tag : Tag) (own : List ℕ) → IsTag tag
        → accepts_tagged tag T.value.accepts Der value.now own → StandAt octets.now offset own
        → LaidOut (T.layout value.now) offset (T.listed result) own }
{
    let start = start_of_contents(octets, offset);
    value.walk(octets, start)
}
