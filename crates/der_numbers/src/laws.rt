//! Laws of INTEGER of any length: functions that do nothing and state what holds for all of them.

ghost use Rattle.std.specs.Prelude.{◌≡◌, ◌∷◌, []};
ghost use Rattle.der_tlv.specs.declared.tag.Tag.TheVariants as tags;
ghost use Rattle.der_numbers.specs.ReadingLaws.{IntegersAreRead, NaturalsAreRead};

use crate::int::Int;
use crate::int_ref::IntRef;
use crate::uint::Uint;
use crate::uint_ref::UintRef;
use der_elem::FixedTag;
use der_tlv::Tag;

/// Octets are read as an integer exactly if they are the contents octets of one.
pub fn integers_are_read()
    ensures { IntegersAreRead }
{}

/// Octets are read as a number that is not negative exactly if they are the contents octets of
/// one.
pub fn naturals_are_read()
    ensures { NaturalsAreRead }
{}

/// Returns the tags of the types (X.680 8.6): of `Int`, `IntRef`, `Uint` and `UintRef`.
pub fn universal_tags() -> [Tag; 4]
    ensures { result ≡ tags.Integer ∷ tags.Integer ∷ tags.Integer ∷ tags.Integer ∷ [] }
{
    [Int::TAG, IntRef::TAG, Uint::TAG, UintRef::TAG]
}
