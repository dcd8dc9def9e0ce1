//! Sets, whose items are in the order of their encodings.

ghost use Rattle.std.specs.Prelude.{◌≡◌, [], OnOk, OnErr, IfOk};
ghost use Rattle.der_asn1_types.specs.HeaderOctets.{tlv};
ghost use Rattle.der_asn1_types.specs.Integer.{natural_contents};
ghost use Rattle.der_asn1_types.specs.Tag.TheVariants.{Integer};
ghost use Rattle.der_asn1_types.specs.Places.{insert_in_order, insert_each};

use der_asn1_types::Error;
use der_asn1_types::asn1::SetOfVec;
use std::alloc::Global;

/// Makes a set of four numbers, in order.
pub fn attribute_set(alloc: Global, numbers: [u16; 4]) -> Result<SetOfVec<u16>, Error>
    ensures { IfOk result (λ set. set ≡ insert_each (λ n. tlv Integer (natural_contents n)) [] numbers) }
{
    SetOfVec::from_array(alloc, numbers)
}

/// Inserts a number into a set in order. If this fails, the set is unchanged.
pub fn with_attribute(set: &mut SetOfVec<u16>, number: u16) -> Result<(), Error>
    ensures placed { OnOk result
        (set.new ≡ insert_in_order (λ n. tlv Integer (natural_contents n)) set.old number) }
    ensures unchanged { OnErr result (set.new ≡ set.old) }
{
    set.insert(number)
}
