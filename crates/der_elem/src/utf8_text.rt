//! Octets that are UTF-8.

ghost use Rattle.std.specs.Prelude.{◌≡◌, true, false, IfOk, IfErr};
ghost use Rattle.std.specs.Str.{is_utf8};
ghost use Rattle.der_tlv.specs.declared.error.ErrorKind.TheVariants.{Utf8};

use der_tlv::ErrorKind;
use std::str;

/// Returns the text of the octets.
///
/// # Errors
/// `ErrorKind::Utf8` (12) for octets that are not UTF-8.
#[tactic(auto, using(crate::proofs::Utf8::utf8_tested, crate::proofs::Utf8::not_utf8_tested))]
pub fn text_of(octets: &[u8]) -> Result<&str, ErrorKind>
    ensures text { IfOk result (λ text. (text.now ≡ octets.now) × (is_utf8 octets.now ≡ true)) }
    ensures refused { IfErr result (λ kind. (kind ≡ Utf8) × (is_utf8 octets.now ≡ false)) }
{
    match str::from_utf8(octets) {
        Ok(text) => Ok(text),
        Err(_) => Err(ErrorKind::Utf8),
    }
}
