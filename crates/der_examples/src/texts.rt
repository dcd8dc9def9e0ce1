//! Texts of names, which are strings of several types.

ghost use Rattle.std.specs.Prelude.{◌≡◌, ◌↔◌, IsOk, IfOk, ◌^◌, ◌<◌, length, true};
ghost use Rattle.der_asn1_types.specs.Characters.{are_characters};
ghost use Rattle.der_asn1_types.specs.Decoding.{ReadsAll};
ghost use Rattle.der_asn1_types.specs.CharacterStringRef.{octets_of};

use der_asn1_types::asn1::{PrintableStringRef, Utf8StringRef};
use der_asn1_types::{Error, Form, FormValue, FromDer};
use std::alloc::Global;

/// Makes a country as a PrintableString that borrows these contents octets.
pub fn country<'a>(octets: &'a [u8]) -> Result<PrintableStringRef<'a>, Error>
    ensures { IfOk result (λ country.
        (octets_of country ≡ octets.now) × (are_characters 19 octets.now ≡ true)) }
{
    PrintableStringRef::new(octets)
}

/// Reads a common name that borrows its encoding as a UTF8String. Octets that are not UTF-8 are
/// refused.
pub fn common_name<'a>(alloc: Global, octets: &'a [u8]) -> Result<Utf8StringRef<'a>, Error>
    ensures { ReadsAll ⟦<Utf8StringRef<'a> as Form>⟧ octets.now result }
{
    Utf8StringRef::from_der(alloc, octets)
}
