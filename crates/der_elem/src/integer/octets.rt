//! The contents octets of INTEGER (X.690 8.3), for integers of up to 128 bits.
//!
//! An integer z is handled as a sign and a magnitude: z itself if it is not negative, else
//! -1 - z.

ghost use Rattle.std.specs.Prelude.{◌≡◌, ◌↔◌, IsTrue, ◌+◌, ◌*◌, ◌^◌, ◌-◌, ◌<◌, ◌≤◌, false, cond, nat_le, length, slice_index};
ghost use Rattle.std.specs.Int.{complement_if};
ghost use Rattle.der_elem.specs.Integer.{big_endian_number, natural_contents, complement_octets_if, integer_contents, twos_complement, is_redundant, FitsSignedWidth, FitsUnsignedOctets, fits_unsigned};

use std::cmp::Ordering;
use std::marker::Model;

/// Returns whether the first nine bits of contents octets are the same, so that the first octet
/// is redundant (X.690 8.3.2).
pub fn is_redundant(bytes: &[u8]) -> bool
    ensures { result ≡ is_redundant bytes.now }
{
    match bytes {
        [0x00, second, ..] => *second < 0x80,
        [0xff, second, ..] => *second >= 0x80,
        _ => false,
    }
}

/// Returns whether bit 8 of the first contents octet, the sign, is set.
pub fn is_negative(bytes: &[u8]) -> bool
    requires { 0 < length bytes.now }
    ensures { result ≡ nat_le 128 (slice_index bytes.now 0) }
{
    bytes[0] >= 0x80
}

// Returns the octet, with each bit inverted if the flag is set.
fn inverted_if(negative: bool, octet: u8) -> u8
    ensures { result ≡ cond negative (255 - octet) octet }
{
    if negative { !octet } else { octet }
}

/// Returns the big-endian number of the octets, each inverted if the flag is set.
pub fn magnitude(bytes: &[u8], negative: bool) -> u128
    requires { big_endian_number (complement_octets_if negative bytes.now) < 2 ^ 128 }
    ensures { result ≡ big_endian_number (complement_octets_if negative bytes.now) }
{
    if bytes.len() <= 8 {
        return u128::from(short_magnitude(bytes, negative));
    }
    let mut number: u128 = 0;
    for octet in bytes {
        number = number * 256 + inverted_if(negative, *octet) as u128;
    }
    number
}

/// Returns the big-endian number of octets whose number fits 64 bits, each inverted if the flag
/// is set. This takes less time.
#[inline(always)]
fn short_magnitude(bytes: &[u8], negative: bool) -> u64
    requires { big_endian_number (complement_octets_if negative bytes.now) < 2 ^ 64 }
    ensures { result ≡ big_endian_number (complement_octets_if negative bytes.now) }
{
    let mut number: u64 = 0;
    for octet in bytes {
        number = number * 256 + inverted_if(negative, *octet) as u64;
    }
    number
}

/// Returns the integer with this magnitude and this sign.
pub fn signed_value(magnitude: u128, negative: bool) -> i128
    requires { magnitude < 2 ^ 127 }
    ensures { result ≡ complement_if negative magnitude }
{
    let number = magnitude as i128;
    if negative { !number } else { number }
}

/// Returns the integer whose two's complement the contents octets are, at a width of up to
/// 16 octets.
pub fn decode_signed(bytes: &[u8], width: usize) -> i128
    requires some { 0 < length bytes.now }
    requires within { length bytes.now ≤ width }
    requires width { width ≤ 16 }

    ensures value { result ≡ twos_complement bytes.now }
    ensures contents { is_redundant bytes.now ≡ false → integer_contents result ≡ bytes.now }
    ensures fits { FitsSignedWidth width result }
{
    let negative = is_negative(bytes);
    signed_value(magnitude(bytes, negative), negative)
}

/// Returns the number that contents octets represent, at a width of up to 16 octets.
pub fn decode_unsigned(bytes: &[u8], width: usize) -> u128
    requires some { 0 < length bytes.now }
    requires positive { slice_index bytes.now 0 < 128 }
    requires within { FitsUnsignedOctets width bytes.now }
    requires width { width ≤ 16 }

    ensures value { result ≡ big_endian_number bytes.now }
    ensures contents { is_redundant bytes.now ≡ false → natural_contents result ≡ bytes.now }
    ensures fits { result < 256 ^ width }
{
    magnitude(bytes, false)
}

/// Returns whether contents octets that are not negative are a number of at most `width` octets.
pub fn fits_unsigned(bytes: &[u8], width: usize) -> bool
    ensures value { result ≡ fits_unsigned width bytes.now }
    ensures decides { IsTrue result ↔ FitsUnsignedOctets width bytes.now }
{
    bytes.len() <= width || (bytes[0] == 0 && bytes.len() - 1 == width)
}
