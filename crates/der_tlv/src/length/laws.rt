//! Laws of lengths and length octets, stated as the contracts of functions that do little.

ghost use Rattle.std.specs.Prelude.{◌≡◌, ◌^◌, ◌-◌};
ghost use Rattle.der_tlv.specs.HeadLaws.{LengthsAreUnique, LengthsReadBack, LengthsAreShort};

use crate::length::Length;

/// States that no length octets are a prefix of those of another length.
pub fn lengths_are_unique()
    ensures { LengthsAreUnique }
{}

/// States that reading the length octets of a length gives that length, whatever follows them.
pub fn lengths_read_back()
    ensures { LengthsReadBack }
{}

/// Returns the greatest length, 4294967295.
pub fn greatest_length() -> Length
    ensures { result ≡ 2 ^ 32 - 1 }
{
    Length::MAX
}

/// States that a length has one to five length octets.
pub fn lengths_are_short()
    ensures { LengthsAreShort }
{}
