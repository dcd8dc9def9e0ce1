//! Contents octets of INTEGER at any length (X.690 8.3), highest octet first.

ghost use Rattle.std.specs.Prelude.{◌≡◌, ◌<◌, nat_le, length, slice_index, false, Ok, Err, IfOk, IfErr};
ghost use Rattle.der_tlv.specs.Octets.{lex};
ghost use Rattle.der_tlv.specs.Fitting.{FitsLength};
ghost use Rattle.der_elem.specs.Encoding.{Encodes};
ghost use Rattle.der_elem.specs.Integer.{big_endian_number, with_sign_octet, natural_contents, twos_complement, integer_contents, is_redundant};
ghost use Rattle.der_elem.specs.IntegerReading.{has_needless_zero};
ghost use Rattle.der_numbers.specs.AnyLength.{integer_or_fault, natural_or_fault, has_leading_zero};

use der_tlv::{Error, ErrorKind, Length, Tag, Writer};
use std::cmp::Ordering;

/// Returns whether the first nine bits are the same, so that the first octet is redundant (X.690
/// 8.3.2).
fn is_redundant(octets: &[u8]) -> bool
    ensures { result ≡ is_redundant octets.now }
{
    match octets {
        [0x00, second, ..] => *second < 0x80,
        [0xff, second, ..] => *second >= 0x80,
        _ => false,
    }
}

/// Returns the fewest octets of the same integer, without the redundant ones before them.
pub fn strip_redundant(octets: &[u8]) -> &[u8]
    requires { 0 < length octets.now }
    ensures contents { result.now ≡ integer_contents (twos_complement octets.now) }
    ensures some { 0 < length result.now }
    ensures fewest { result.now ≡ integer_contents (twos_complement result.now) }
{
    let mut start = 0;
    while is_redundant(&octets[start..]) {
        start += 1;
    }
    &octets[start..]
}

/// Checks that the octets are contents octets of an integer.
///
/// # Errors
/// `ErrorKind::Noncanonical` (8) for no octets, or a redundant first octet.
pub fn check_integer(octets: &[u8]) -> Result<(), ErrorKind>
    ensures ok { IfOk result (λ _.
        (0 < length octets.now) × (octets.now ≡ integer_contents (twos_complement octets.now))
        × (integer_or_fault octets.now ≡ Ok octets.now)) }
    ensures err { IfErr result (λ kind. integer_or_fault octets.now ≡ Err kind) }
{
    if octets.is_empty() || is_redundant(octets) {
        return Err(Tag::Integer.non_canonical_error());
    }
    Ok(())
}

/// Returns whether a 00 is before another octet, where it adds nothing to a number.
fn has_leading_zero(octets: &[u8]) -> bool
    ensures { result ≡ has_leading_zero octets.now }
{
    matches!(octets, [0x00, _, ..])
}

/// Returns the octets of the same non-negative number, without leading zeros. Zero is one 00.
pub fn strip_zeros(octets: &[u8]) -> &[u8]
    requires { 0 < length octets.now }
    ensures contents { with_sign_octet result.now
        ≡ natural_contents (big_endian_number octets.now) }
    ensures some { 0 < length result.now }
    ensures stripped { has_leading_zero result.now ≡ false }
    ensures fewest { with_sign_octet result.now ≡ natural_contents (big_endian_number result.now) }
{
    let mut start = 0;
    while has_leading_zero(&octets[start..]) {
        start += 1;
    }
    &octets[start..]
}

/// Returns whether a first octet 00 is before an octet below 80 (X.690 8.3.2).
fn has_needless_zero(octets: &[u8]) -> bool
    ensures { result ≡ has_needless_zero octets.now }
{
    match octets {
        [0x00, second, ..] => *second < 0x80,
        _ => false,
    }
}

/// Returns whether bit 8 of the first octet is set, so that a number has a 00 before it.
pub fn is_high(octets: &[u8]) -> bool
    requires { 0 < length octets.now }
    ensures { result ≡ nat_le 128 (slice_index octets.now 0) }
{
    octets[0] >= 0x80
}

/// Checks that the octets are contents octets of a number that is not negative.
///
/// # Errors
/// In this order: no octets, or a 00 before an octet below 80 (`ErrorKind::Noncanonical`, 8); a
/// first octet of 80 or more (`ErrorKind::Value`, 13).
pub fn check_natural(octets: &[u8]) -> Result<(), ErrorKind>
    ensures ok { IfOk result (λ _.
        (0 < length octets.now) × (octets.now ≡ natural_contents (big_endian_number octets.now))
        × (natural_or_fault octets.now ≡ Ok octets.now)) }
    ensures err { IfErr result (λ kind. natural_or_fault octets.now ≡ Err kind) }
{
    if octets.is_empty() || has_needless_zero(octets) {
        return Err(Tag::Integer.non_canonical_error());
    }
    if is_high(octets) {
        return Err(Tag::Integer.value_error());
    }
    Ok(())
}

/// Returns the number of contents octets of a number. `octets` are its octets without leading
/// zeros.
///
/// # Errors
/// `ErrorKind::Overflow` (9) for more than 4294967295.
pub fn contents_len(octets: &[u8]) -> Result<Length, Error>
    requires { 0 < length octets.now }
    ensures { FitsLength (length (with_sign_octet octets.now)) result }
{
    match Length::of(octets.len()) {
        Ok(len) if is_high(octets) => len.add(Length::ONE),
        len => len,
    }
}

/// Writes the contents octets of a number. `octets` are its octets without leading zeros.
///
/// # Errors
/// The error of the writer.
pub fn write_contents<W: Writer>(octets: &[u8], writer: &mut W) -> Result<(), Error>
    requires { 0 < length octets.now }
    ensures { Encodes (with_sign_octet octets.now) false (W.state writer.old)
        (W.state writer.new) result }
{
    if !is_high(octets) {
        return writer.write(octets);
    }
    writer.write_byte(0x00)?;
    writer.write(octets)
}

/// Compares the contents octets of two numbers lexicographically. `a` and `b` are their octets
/// without leading zeros.
pub fn compare_contents(a: &[u8], b: &[u8]) -> Ordering
    requires some_a { 0 < length a.now }
    requires some_b { 0 < length b.now }
    requires stripped_a { has_leading_zero a.now ≡ false }
    requires stripped_b { has_leading_zero b.now ≡ false }
    ensures { result ≡ lex (with_sign_octet a.now) (with_sign_octet b.now) }
{
    match (is_high(a), is_high(b)) {
        (true, false) if b[0] == 0 => Ordering::Greater,
        (true, false) => Ordering::Less,
        (false, true) if a[0] == 0 => Ordering::Less,
        (false, true) => Ordering::Greater,
        _ => a.cmp(b),
    }
}
