//! The order of the contents octets of machine integers (X.690 8.3), computed from the numbers.

ghost use Rattle.std.specs.Prelude.{◌≡◌};
ghost use Rattle.der_tlv.specs.Octets.{lex};
ghost use Rattle.der_elem.specs.Integer.{left_aligned, natural_contents, integer_contents};

use super::writing::signed_len;
use std::cmp::Ordering;

/// Returns the big-endian number of the contents octets with zeros after them, up to 16 octets.
fn aligned_contents(number: i128) -> u128
    ensures { result ≡ left_aligned 16 (integer_contents number) }
{
    number.cast_unsigned() << (8 * (16 - signed_len(number)))
}

/// Compares the contents octets of two integers lexicographically: first the octets with zeros
/// after them, and then their count.
pub fn compare_signed(a: i128, b: i128) -> Ordering
    ensures { result ≡ lex (integer_contents a) (integer_contents b) }
{
    match aligned_contents(a).cmp(&aligned_contents(b)) {
        Ordering::Equal => signed_len(a).cmp(&signed_len(b)),
        order => order,
    }
}

/// The least number of 128 bits that has 17 contents octets.
pub const LEAST_LONG: u128 = 1 << 127;

/// Compares the contents octets of two numbers that are not negative, lexicographically.
///
/// A number of 2 to the power 127 or more has 17 contents octets, and the first 16 are those of
/// its quotient by 256.
pub fn compare_unsigned(a: u128, b: u128) -> Ordering
    ensures { result ≡ lex (natural_contents a) (natural_contents b) }
{
    match (a < LEAST_LONG, b < LEAST_LONG) {
        (true, true) => compare_signed(a as i128, b as i128),
        (false, true) => compare_signed((a >> 8) as i128, b as i128).then(Ordering::Greater),
        (true, false) => compare_signed(a as i128, (b >> 8) as i128).then(Ordering::Less),
        (false, false) => a.cmp(&b),
    }
}
