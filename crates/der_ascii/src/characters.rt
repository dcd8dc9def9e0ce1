//! The characters of each type, which have one octet each (X.680 41).

ghost use Rattle.std.specs.Prelude.{◌≡◌, true, false, IfOk, IfErr};
ghost use Rattle.der_tlv.specs.declared.error.ErrorKind.TheVariants.{Value};
ghost use Rattle.der_ascii.specs.Characters.{is_printable, are_characters, string_tag};

use der_tlv::{ErrorKind, Tag};
use std::str;

/// 1 for each character of PrintableString, letters, digits, space and ' ( ) + , - . / : = ?, and 0
/// for every other octet (X.680 41.4, table 10).
#[rattlefmt::skip]
static PRINTABLE: [u8; 256] = [
    0, 0, 0, 0, 0, 0, 0, 0, 0, 0, 0, 0, 0, 0, 0, 0,
    0, 0, 0, 0, 0, 0, 0, 0, 0, 0, 0, 0, 0, 0, 0, 0,
    1, 0, 0, 0, 0, 0, 0, 1, 1, 1, 0, 1, 1, 1, 1, 1,
    1, 1, 1, 1, 1, 1, 1, 1, 1, 1, 1, 0, 0, 1, 0, 1,
    0, 1, 1, 1, 1, 1, 1, 1, 1, 1, 1, 1, 1, 1, 1, 1,
    1, 1, 1, 1, 1, 1, 1, 1, 1, 1, 1, 0, 0, 0, 0, 0,
    0, 1, 1, 1, 1, 1, 1, 1, 1, 1, 1, 1, 1, 1, 1, 1,
    1, 1, 1, 1, 1, 1, 1, 1, 1, 1, 1, 0, 0, 0, 0, 0,
    0, 0, 0, 0, 0, 0, 0, 0, 0, 0, 0, 0, 0, 0, 0, 0,
    0, 0, 0, 0, 0, 0, 0, 0, 0, 0, 0, 0, 0, 0, 0, 0,
    0, 0, 0, 0, 0, 0, 0, 0, 0, 0, 0, 0, 0, 0, 0, 0,
    0, 0, 0, 0, 0, 0, 0, 0, 0, 0, 0, 0, 0, 0, 0, 0,
    0, 0, 0, 0, 0, 0, 0, 0, 0, 0, 0, 0, 0, 0, 0, 0,
    0, 0, 0, 0, 0, 0, 0, 0, 0, 0, 0, 0, 0, 0, 0, 0,
    0, 0, 0, 0, 0, 0, 0, 0, 0, 0, 0, 0, 0, 0, 0, 0,
    0, 0, 0, 0, 0, 0, 0, 0, 0, 0, 0, 0, 0, 0, 0, 0,
];

/// Returns whether an octet is a character of PrintableString.
#[inline(always)]
fn is_printable(octet: u8) -> bool
    ensures { result ≡ is_printable octet }
{
    PRINTABLE[usize::from(octet)] == 1
}

/// Returns whether all octets are characters of the type with this universal number.
pub fn are_characters(number: u8, octets: &[u8]) -> bool
    ensures { result ≡ are_characters number octets.now }
{
    if number == 19 {
        octets.iter().all(|octet| is_printable(*octet))
    } else {
        octets.iter().all(|octet| *octet < 0x80)
    }
}

/// Returns the octets as text.
///
/// # Errors
/// `ErrorKind::Value` (13) for an octet that is no character of the type with this universal
/// number.
pub fn text_of(number: u8, octets: &[u8]) -> Result<&str, ErrorKind>
    ensures text { IfOk result (λ text.
        (text.now ≡ octets.now) × (are_characters number octets.now ≡ true)) }
    ensures refused { IfErr result (λ kind.
        (kind ≡ Value (string_tag number)) × (are_characters number octets.now ≡ false)) }
{
    if !are_characters(number, octets) {
        return Err(string_tag(number).value_error());
    }
    // It is proved that the octets are UTF-8, because the characters are ASCII.
    Ok(unsafe { str::from_utf8_unchecked(octets) })
}

/// Returns the tag with this universal number.
pub fn string_tag(number: u8) -> Tag
    ensures { result ≡ string_tag number }
{
    match number {
        19 => Tag::PrintableString,
        20 => Tag::TeletexString,
        21 => Tag::VideotexString,
        _ => Tag::Ia5String,
    }
}
