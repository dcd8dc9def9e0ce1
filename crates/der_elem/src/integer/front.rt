//! The contents octets of INTEGER (X.690 8.3) at the front of a block of eight octets. The other
//! octets of the block have no meaning.

ghost use Rattle.std.specs.Prelude.{◌≡◌, false, cond, ◌-◌, ◌^◌, ◌<◌, ◌≤◌, slice_index, take};
ghost use Rattle.der_elem.specs.IntegerReading.{ReadsSigned, ReadsUnsigned};
ghost use Rattle.der_elem.specs.Integer.{big_endian_number, complement_octets_if, integer_contents, twos_complement, is_redundant, natural_contents, FitsSignedWidth, FitsUnsignedOctets, FitsUnsignedWidth};

use super::octets::{fits_unsigned, is_negative, is_redundant, signed_value};
use super::reading::has_needless_zero;
use der_tlv::{ErrorKind, Tag};

// Returns the number, with each bit inverted if the flag is set.
#[inline(always)]
fn inverted_if(negative: bool, number: u64) -> u64
    ensures { result ≡ cond negative (2 ^ 64 - 1 - number) number }
{
    if negative { !number } else { number }
}

/// Returns the big-endian number of the first octets of a block, each inverted if the flag is
/// set.
#[inline(always)]
fn front_magnitude(block: [u8; 8], len: usize, negative: bool) -> u64
    requires some { 0 < len }
    requires few { len ≤ 8 }
    ensures { result ≡ big_endian_number (complement_octets_if negative (take len block)) }
{
    inverted_if(negative, u64::from_be_bytes(block)) >> (8 * (8 - len))
}

/// Returns the integer whose two's complement the first octets of a block are.
#[inline(always)]
fn decode_front(block: [u8; 8], len: usize, width: usize) -> i128
    requires some { 0 < len }
    requires few { len ≤ 8 }
    requires within { len ≤ width }
    ensures value { result ≡ twos_complement (take len block) }
    ensures contents { is_redundant (take len block) ≡ false
        → integer_contents result ≡ take len block }
    ensures fits { FitsSignedWidth width result }
{
    let negative = is_negative(&block[..len]);
    signed_value(u128::from(front_magnitude(block, len, negative)), negative)
}

/// Returns the number that the first octets of a block represent.
#[inline(always)]
fn decode_front_unsigned(block: [u8; 8], len: usize, width: usize) -> u128
    requires some { 0 < len }
    requires few { len ≤ 8 }
    requires positive { slice_index (take len block) 0 < 128 }
    requires within { FitsUnsignedOctets width (take len block) }
    ensures contents { is_redundant (take len block) ≡ false
        → natural_contents result ≡ take len block }
    ensures fits { FitsUnsignedWidth width result }
{
    u128::from(front_magnitude(block, len, false))
}

/// Returns the integer that the first octets of a block represent, at a width of up to 16 octets.
///
/// # Errors
/// As `signed_of`.
#[inline(always)]
pub fn signed_front(block: [u8; 8], len: usize, width: usize) -> Result<i128, ErrorKind>
    requires some { 0 < width }
    requires most { width ≤ 16 }
    requires few { len ≤ 8 }
    ensures { ReadsSigned width (take len block) result }
{
    if len == 0 {
        return Err(Tag::Integer.length_error());
    }
    if len > width || is_redundant(&block[..len]) {
        return Err(Tag::Integer.non_canonical_error());
    }
    Ok(decode_front(block, len, width))
}

/// Returns the number that the first octets of a block represent, at a width of up to 16 octets.
///
/// # Errors
/// As `unsigned_of`.
#[inline(always)]
pub fn unsigned_front(block: [u8; 8], len: usize, width: usize) -> Result<u128, ErrorKind>
    requires some { 0 < width }
    requires most { width ≤ 16 }
    requires few { len ≤ 8 }
    ensures { ReadsUnsigned width (take len block) result }
{
    let bytes = &block[..len];
    if bytes.is_empty() {
        return Err(Tag::Integer.length_error());
    }
    if len > width + 1 || has_needless_zero(bytes) {
        return Err(Tag::Integer.non_canonical_error());
    }
    if is_negative(bytes) {
        return Err(Tag::Integer.value_error());
    }
    if !fits_unsigned(bytes, width) {
        return Err(Tag::Integer.length_error());
    }
    Ok(decode_front_unsigned(block, len, width))
}
