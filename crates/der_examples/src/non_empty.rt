//! Lists that have at least one item.

ghost use Rattle.std.specs.Prelude.{◌≡◌, ◌<◌, length};
ghost use Rattle.der_asn1_types.specs.Decoding.{ReadsAll};

use der_asn1_types::asn1::NonEmpty;
use der_asn1_types::{Error, Form, FromDer};
use std::alloc::Global;

/// `SEQUENCE SIZE (1..MAX) OF INTEGER`, of numbers from 0 to 4294967295.
pub type SomeNumbers = NonEmpty<Vec<u32>>;

/// Reads one or more numbers.
pub fn read_some_numbers(alloc: Global, octets: &[u8]) -> Result<SomeNumbers, Error>
    ensures { ReadsAll ⟦<SomeNumbers as Form>⟧ octets.now result }
{
    SomeNumbers::from_der(alloc, octets)
}

/// Returns the number of numbers, which is at least one.
pub fn count_of_numbers(numbers: &SomeNumbers) -> usize
    ensures count { result ≡ length numbers.now.items }
    ensures some { 0 < result }
{
    numbers.list().len()
}
