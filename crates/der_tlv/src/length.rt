//! Lengths, and their octets.

mod laws;

ghost use Rattle.std.specs.Prelude.{◌≡◌, ℕ, ◌+◌, ◌-◌, ◌∷◌, ◌^◌, ◌<◌, ◌≤◌, ◌↔◌, IsTrue, IfOk, IfErr, IsOk};
ghost use Rattle.std.specs.Int.Digits.{digits_of};
ghost use Rattle.der_tlv.specs.LengthOctets.{length_octets};
ghost use Rattle.der_tlv.specs.HeaderReading.{read_length, read_long_length};
ghost use Rattle.der_tlv.specs.Reading.{ReadsHead};
ghost use Rattle.der_tlv.specs.Fitting.{FitsLength};
ghost use Rattle.der_tlv.specs.declared.error.ErrorKind.TheVariants.{Overflow};

use crate::error::{Error, ErrorKind};
use crate::reader::{Reader, Source};
pub use laws::{greatest_length, lengths_are_short, lengths_are_unique, lengths_read_back};
use std::marker::Model;

/// A number of octets, 0 to 4294967295.
///
/// The length octets of a length below 128 are the number itself, as 05 for 5. Those of a greater
/// length are 80 plus the count of the octets that follow, and then the number in these, high
/// octet first, as 81 80 for 128 (X.690 8.1.3, 10.1).
#[derive(Clone, Copy, Debug, PartialEq, Eq, PartialOrd, Ord, Hash)]
pub struct Length(u32);

impl Model for Length {
    ghost use Rattle.std.specs.Prelude.{ℕ, ◌<◌, ◌^◌};

    ghost Value = { ℕ };

    ghost view = { λ l. l.0 };

    ghost invariant = { λ l. l.0 < 2 ^ 32 };

    ghost inverse = { λ n. record { 0 = n } };
}

impl Length {
    /// No octets.
    pub const ZERO: Length = Length(0);

    /// One octet.
    pub const ONE: Length = Length(1);

    /// The greatest length, 4294967295.
    pub const MAX: Length = Length(u32::MAX);

    /// Makes the length of this number of octets.
    pub const fn new(value: u32) -> Length
        ensures { result ≡ value }
    {
        Length(value)
    }

    /// Returns whether there are no octets.
    pub const fn is_zero(self) -> bool
        ensures { IsTrue result ↔ (self ≡ 0) }
    {
        self.0 == 0
    }

    /// Returns the number of octets.
    pub const fn value(self) -> u32
        ensures value { result ≡ self }
        ensures bounded { self < 2 ^ 32 }
    {
        self.0
    }

    /// Makes the length of this number of octets.
    ///
    /// # Errors
    /// `ErrorKind::Overflow` (9) above 4294967295.
    pub fn of(len: usize) -> Result<Length, Error>
        ensures { FitsLength len result }
    {
        match u32::try_from(len) {
            Ok(len) => Ok(Length(len)),
            Err(_) => Err(Error::from_kind(ErrorKind::Overflow)),
        }
    }

    /// Returns the sum of two lengths.
    ///
    /// # Errors
    /// `ErrorKind::Overflow` (9) for a sum above 4294967295.
    pub fn add(self, other: Length) -> Result<Length, Error>
        ensures { FitsLength (self + other) result }
    {
        match self.0.checked_add(other.0) {
            Some(sum) => Ok(Length(sum)),
            None => Err(Error::from_kind(ErrorKind::Overflow)),
        }
    }

    /// Returns the difference of two lengths.
    ///
    /// # Errors
    /// `ErrorKind::Overflow` (9) for a difference below 0.
    pub fn sub(self, other: Length) -> Result<Length, Error>
        ensures ok { IsOk result ↔ (other ≤ self) }
        ensures value { IfOk result (λ l. l ≡ self - other) }
        ensures err { IfErr result (λ e. e.kind ≡ Overflow) }
    {
        match self.0.checked_sub(other.0) {
            Some(difference) => Ok(Length(difference)),
            None => Err(Error::from_kind(ErrorKind::Overflow)),
        }
    }

    /// Reads length octets.
    ///
    /// # Errors
    /// `ErrorKind::Failed` (17) on a failed reader. Else, in this order: no octet
    /// (`ErrorKind::Incomplete`, 2); 80, an indefinite length (`ErrorKind::IndefiniteLength`,
    /// 16); 85 to FF, more than four octets (`ErrorKind::Overlength`, 10); a missing octet of the
    /// length (`ErrorKind::Incomplete`, 2); a length that fits in fewer octets
    /// (`ErrorKind::Overlength`, 10).
    pub fn decode<'a, R: Source<'a>>(reader: &mut R) -> Result<Length, Error>
        ensures { ReadsHead read_length length_octets (R.state reader.old)
            (R.state reader.new) result }
    {
        let first = reader.read_byte()?;
        match first {
            0..=0x7f => Ok(Length(u32::from(first))),
            0x80 => Err(reader.error(ErrorKind::IndefiniteLength)),
            0x81..=0x84 => decode_long(reader, first - 0x80),
            _ => Err(reader.error(ErrorKind::Overlength)),
        }
    }
}

/// Reads the `count` octets of a length of at least 128.
fn decode_long<'a, R: Source<'a>>(reader: &mut R, count: u8) -> Result<Length, Error>
    requires some { 1 ≤ count }
    requires few { count ≤ 4 }
    ensures head { ReadsHead (read_long_length count) (digits_of 256) (R.state reader.old)
        (R.state reader.new) result }
    ensures whole { IfOk result (λ n. length_octets n ≡ (128 + count) ∷ digits_of 256 n) }
{
    let first = reader.read_byte()?;
    let mut length = u32::from(first);
    'octets: for read in 1..count {
        length = length * 256 + u32::from(reader.read_byte()?);
    }
    if first == 0 || length < 128 {
        return Err(reader.error(ErrorKind::Overlength));
    }
    Ok(Length(length))
}

impl TryFrom<usize> for Length {
    type Error = Error;

    ghost try_from_gives = { FitsLength };

    /// # Errors
    /// (9) above 4294967295.
    fn try_from(len: usize) -> Result<Length, Error> {
        Length::of(len)
    }
}

impl From<Length> for usize {
    ghost from_gives = { λ l n. n ≡ l };

    fn from(len: Length) -> usize {
        len.0 as usize
    }
}

impl From<Length> for u32 {
    ghost from_gives = { λ l n. n ≡ l };

    fn from(len: Length) -> u32 {
        len.0
    }
}

impl From<u32> for Length {
    ghost from_gives = { λ n l. l ≡ n };

    fn from(len: u32) -> Length {
        Length(len)
    }
}
