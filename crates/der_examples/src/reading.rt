//! Reading values from octets.

ghost use Rattle.der_asn1_types.specs.Decoding.{ReadsAll};

use der_asn1_types::asn1::{OctetStringRef, UintRef};
use der_asn1_types::{Error, Form, FromDer};
use std::alloc::Global;

/// Reads the numbers of a SEQUENCE OF INTEGER. It accepts exactly the octets that the grammar
/// reads as such a list, and returns the value that the grammar reads; for any other octets it
/// returns the first error.
pub fn read_numbers(alloc: Global, octets: &[u8]) -> Result<Vec<i64>, Error>
    ensures { ReadsAll ⟦<Vec<i64> as Form>⟧ octets.now result }
{
    Vec::<i64>::from_der(alloc, octets)
}

/// Reads a serial number that borrows its octets, and takes no memory.
pub fn serial_number<'a>(alloc: Global, octets: &'a [u8]) -> Result<UintRef<'a>, Error>
    ensures { ReadsAll ⟦<UintRef<'a> as Form>⟧ octets.now result }
{
    UintRef::from_der(alloc, octets)
}

/// Returns the contents octets of an OCTET STRING, borrowed from its encoding.
pub fn contents_of_string<'a>(alloc: Global, octets: &'a [u8]) -> Result<&'a [u8], Error> {
    match OctetStringRef::from_der(alloc, octets) {
        Ok(string) => Ok(string.as_bytes()),
        Err(e) => Err(e),
    }
}
