//! The characters of each type, which have one octet each (X.680 41).

ghost use Rattle.std.specs.Prelude.{◌≡◌, true, false, IfOk, IfErr};
ghost use Rattle.der_tlv.specs.declared.error.ErrorKind.TheVariants.{Value};
ghost use Rattle.der_simple.specs.Characters.{has_character, are_simple_characters, string_tag};

use der_tlv::{ErrorKind, Tag};
use std::str;

/// Returns whether an octet is a character of the type with this universal number.
#[inline(always)]
fn has_character(number: u8, octet: u8) -> bool
    ensures { result ≡ has_character number octet }
{
    if number == 18 {
        (octet >= 0x30 && octet <= 0x39) || octet == 0x20
    } else {
        octet >= 0x20 && octet <= 0x7e
    }
}

/// Returns whether all octets are characters of the type with this universal number.
pub fn are_characters(number: u8, octets: &[u8]) -> bool
    ensures { result ≡ are_simple_characters number octets.now }
{
    octets.iter().all(|octet| has_character(number, *octet))
}

/// Returns the octets as text.
///
/// # Errors
/// `ErrorKind::Value` (13) for an octet that is no character of the type with this universal
/// number.
pub fn text_of(number: u8, octets: &[u8]) -> Result<&str, ErrorKind>
    ensures text { IfOk result (λ text.
        (text.now ≡ octets.now) × (are_simple_characters number octets.now ≡ true)) }
    ensures refused { IfErr result (λ kind.
        (kind ≡ Value (string_tag number)) × (are_simple_characters number octets.now ≡ false)) }
{
    if !are_characters(number, octets) {
        return Err(string_tag(number).value_error());
    }
    // It is proved that the octets are UTF-8, because the characters are ASCII.
    Ok(unsafe { str::from_utf8_unchecked(octets) })
}

/// Returns the tag with this universal number.
pub fn string_tag(number: u8) -> Tag
    ensures { result ≡ string_tag number }
{
    match number {
        18 => Tag::NumericString,
        _ => Tag::VisibleString,
    }
}
