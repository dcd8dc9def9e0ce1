//! Writing the contents octets of machine integers (X.690 8.3): the last octets of the big-endian
//! form.

ghost use Rattle.std.specs.Prelude.{◌≡◌, ◌≤◌, ◌<◌, ◌^◌, false, length};
ghost use Rattle.std.specs.Int.{bytes_high_first, complement_if};
ghost use Rattle.der_tlv.specs.WritingBack.{Put};
ghost use Rattle.der_elem.specs.Encoding.{Encodes};
ghost use Rattle.der_elem.specs.Integer.{natural_contents, integer_contents};

use super::ordering::LEAST_LONG;
use der_tlv::{BackWriter, Error, Writer};

/// Returns the magnitude and the sign of an integer: `(n, false)` for n, and `(n, true)` for
/// -1 - n.
fn signed_parts(number: i128) -> (u128, bool)
    ensures value { complement_if result.1 result.0 ≡ number }
    ensures bound { result.0 < 2 ^ 127 }
{
    if number < 0 {
        (!number as u128, true)
    } else {
        (number as u128, false)
    }
}

/// Returns the number of contents octets of a number that is not negative.
pub fn unsigned_len(number: u128) -> u32
    ensures len { result ≡ length (natural_contents number) }
    ensures some { 0 < result }
    ensures bound { result ≤ 17 }
{
    (u128::BITS - number.leading_zeros()) / 8 + 1
}

/// Returns the number of contents octets of an integer.
pub fn signed_len(number: i128) -> u32
    ensures len { result ≡ length (integer_contents number) }
    ensures some { 0 < result }
    ensures bound { result ≤ 16 }
{
    let (magnitude, _) = signed_parts(number);
    unsigned_len(magnitude)
}

/// Writes the contents octets of an integer: in one block of eight octets if 64 bits are enough.
///
/// # Errors
/// The errors of the writer.
#[inline(always)]
pub fn write_signed<W: Writer>(writer: &mut W, number: i128) -> Result<(), Error>
    ensures { Encodes (integer_contents number) false (W.state writer.old)
        (W.state writer.new) result }
{
    let Ok(short) = i64::try_from(number) else {
        return write_wide(writer, number);
    };
    let len = signed_len(number) as usize;
    let front = short.cast_unsigned() << (8 * (8 - len));
    writer.write_front(front.to_be_bytes(), len)
}

/// Writes the contents octets of an integer, which are the last of its 16 octets.
///
/// # Errors
/// The errors of the writer.
#[inline(never)]
fn write_wide<W: Writer>(writer: &mut W, number: i128) -> Result<(), Error>
    ensures { Encodes (integer_contents number) false (W.state writer.old)
        (W.state writer.new) result }
{
    let len = signed_len(number) as usize;
    let octets = number.cast_unsigned().to_be_bytes();
    writer.write(&octets[16 - len..])
}

/// Returns the big-endian form of a number that is not negative, with an octet 00 in front.
pub fn unsigned_octets(number: u128) -> [u8; 17]
    ensures { result ≡ bytes_high_first 17 number }
{
    let mut octets = [0; 17];
    octets[1..].copy_from_slice(&number.to_be_bytes());
    octets
}

/// Writes the contents octets of a number that is not negative.
///
/// # Errors
/// The errors of the writer.
pub fn write_unsigned<W: Writer>(writer: &mut W, number: u128) -> Result<(), Error>
    ensures { Encodes (natural_contents number) false (W.state writer.old)
        (W.state writer.new) result }
{
    if number < LEAST_LONG {
        return write_signed(writer, number as i128);
    }
    let octets = unsigned_octets(number);
    writer.write(&octets[17 - unsigned_len(number) as usize..])
}

/// Puts the contents octets of an integer: in one block of eight octets if 64 bits are enough.
#[inline(always)]
pub fn put_signed<W: BackWriter>(writer: &mut W, number: i128)
    requires { length (integer_contents number) ≤ (W.state writer.old).back.room }
    ensures { Put (integer_contents number) (W.state writer.old) (W.state writer.new) }
{
    let Ok(short) = i64::try_from(number) else {
        return put_wide(writer, number);
    };
    let len = signed_len(number) as usize;
    writer.put_end(short.cast_unsigned().to_be_bytes(), len);
}

/// Puts the contents octets of an integer, which are the last of its 16 octets.
#[inline(never)]
fn put_wide<W: BackWriter>(writer: &mut W, number: i128)
    requires { length (integer_contents number) ≤ (W.state writer.old).back.room }
    ensures { Put (integer_contents number) (W.state writer.old) (W.state writer.new) }
{
    let len = signed_len(number) as usize;
    let whole = number.cast_unsigned().to_be_bytes();
    writer.put(&whole[16 - len..]);
}

/// Puts the contents octets of a number that is not negative.
pub fn put_unsigned<W: BackWriter>(writer: &mut W, number: u128)
    requires { length (natural_contents number) ≤ (W.state writer.old).back.room }
    ensures { Put (natural_contents number) (W.state writer.old) (W.state writer.new) }
{
    if number < LEAST_LONG {
        return put_signed(writer, number as i128);
    }
    let octets = unsigned_octets(number);
    writer.put(&octets[17 - unsigned_len(number) as usize..]);
}
