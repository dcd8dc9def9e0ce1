//! Writing values as octets.

ghost use Rattle.std.specs.Prelude.{◌≡◌, IfOk, flat_map};
ghost use Rattle.der_asn1_types.specs.HeaderOctets.{tlv};
ghost use Rattle.der_asn1_types.specs.Tag.TheVariants as tags;
ghost use Rattle.der_asn1_types.specs.Integer.{integer_contents, natural_contents};

use der_asn1_types::{Encode, Error};
use std::alloc::Global;

/// Returns the canonical encoding of a list of numbers, in memory.
pub fn write_numbers(alloc: Global, numbers: &Vec<i64>) -> Result<Vec<u8>, Error>
    ensures { IfOk result (λ octets. octets.items ≡ tlv tags.Sequence
        (flat_map (λ n. tlv tags.Integer (integer_contents n)) numbers.now.items)) }
{
    numbers.to_der(alloc)
}

/// Writes the encoding of a number to a buffer, and takes no memory.
pub fn number_in(number: u32, buffer: &mut [u8]) -> Result<&[u8], Error>
    ensures { IfOk result (λ octets. octets.now ≡ tlv tags.Integer (natural_contents number)) }
{
    number.encode_to_slice(buffer)
}
