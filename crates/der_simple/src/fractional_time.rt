//! GeneralizedTime with a fraction of a second, borrowed (X.680 46, X.690 11.7).
//!
//! The contents octets are those of a GeneralizedTime, `YYYYMMDDHHMMSSZ`; before the Z there may
//! be a full stop and digits, the last of which is not 0. A quarter of a second after
//! 1991-05-06T23:45:40Z is encoded as 18 12 and the octets of `19910506234540.25Z`. Reading
//! refuses other octets, and years before 1970 (`ErrorKind::Value`, 13).

ghost use Rattle.std.specs.Prelude.{◌≡◌, ◌==◌, ◌-◌, ◌^◌, ◌<◌, ◌∷◌, ◌++◌, [], MatchOption, IsTrue, length, slice_index, true, refl, false};
ghost use Rattle.std.specs.Cmp.Lexicographic.{bytes_decides};
ghost use Rattle.std.specs.List.{list_all};
ghost use Rattle.der_elem.specs.FormatMakers.{format_of_contents};
ghost use Rattle.der_modules.specs.Members.{value_member};
ghost use Rattle.der_time.specs.Digits as decimal;
ghost use Rattle.der_time.specs.GeneralizedTime.{generalized_time_contents};
ghost use Rattle.der_simple.specs.FractionalTimes as spec;
ghost use Rattle.der_simple.specs.FractionalTimes.{HasSecond, KeepsTime, fraction_of, time_octets};
ghost use Rattle.der_simple.specs.FractionalTimeLaws.{parse_of_fractional_time, fractional_time_of_octets};

use der_elem::{
    ContentsEq, CopyIsDuplicate, DecodeValue, EncodeValue, FormValue, GeneralizedTimeTag, OneTag,
    OrdIsValueOrd, TagMarker,
};
use der_modules::Member;
use der_opaque::AnyRef;
use der_time::GeneralizedTime;
use der_tlv::{BackWriter, Error, Header, Length, Reader, Source, Tag, Writer};
use std::alloc::Global;

/// The octets of a GeneralizedTime that may have a fraction of a second, borrowed: at most
/// 4294967295 octets.
///
/// The order is the lexicographic order of the contents octets. For different lengths it is not
/// the order of time: `19910506234540.5Z` is before `19910506234540Z`, because the full stop is
/// before Z.
#[derive(Clone, Copy, Debug, PartialEq, Eq, PartialOrd, Ord, Hash)]
pub struct FractionalTimeRef<'a> {
    octets: &'a [u8],
    ghost short: { length octets.now < 2 ^ 32 },
    ghost time: { spec.is_fractional_time octets.now ≡ true },
}

/// Returns whether an octet is a digit.
fn is_digit(octet: u8) -> bool
    ensures { result ≡ decimal.is_digit octet }
{
    octet >= b'0' && octet <= b'9'
}

/// Returns whether the last digit is 0.
fn ends_with_zero(digits: &[u8]) -> bool
    ensures { result ≡ (slice_index digits.now (length digits.now - 1) == 48) }
{
    match digits {
        [.., last] => *last == b'0',
        [] => false,
    }
}

/// Returns whether all octets are digits.
fn are_digits(octets: &[u8]) -> bool
    ensures { result ≡ list_all decimal.is_digit octets.now }
{
    octets.iter().all(|octet| is_digit(*octet))
}

/// Returns whether octets are digits of a fraction: none, or some, the last of which is not 0.
fn is_fraction(digits: &[u8]) -> bool
    ensures { result ≡ spec.is_fraction digits.now }
{
    are_digits(digits) && !ends_with_zero(digits)
}

/// Returns whether octets are a full stop and a fraction, or no octets.
fn is_after_stop(octets: &[u8]) -> bool
    ensures { result ≡ spec.is_after_stop octets.now }
{
    match octets {
        [] => true,
        [b'.', digits @ ..] => !digits.is_empty() && is_fraction(digits),
        _ => false,
    }
}

/// Returns the second of 14 digits.
fn second_of(digits: &[u8]) -> Option<GeneralizedTime>
    requires { length digits.now ≡ 14 }
    ensures { MatchOption result (spec.is_second digits.now ≡ false) (λ t.
        generalized_time_contents t ≡ digits.now ++ 90 ∷ []) }
{
    let mut contents = [b'Z'; 15];
    contents[..14].copy_from_slice(digits);
    let Ok(any) = AnyRef::new(Tag::GeneralizedTime, &contents) else {
        unreachable!()
    };
    match GeneralizedTime::try_from(any) {
        Ok(time) => Some(time),
        Err(_) => None,
    }
}

/// Returns whether octets are a second with a fraction.
pub(crate) fn is_fractional_time(octets: &[u8]) -> bool
    ensures value { result ≡ spec.is_fractional_time octets.now }
    ensures second { IsTrue result → HasSecond octets.now }
{
    if octets.len() < 15 {
        return false;
    }
    if octets[octets.len() - 1] != b'Z' {
        return false;
    }
    match second_of(&octets[..14]) {
        Some(_) => is_after_stop(&octets[14..octets.len() - 1]),
        None => false,
    }
}

impl<'a> FractionalTimeRef<'a> {
    ghost use Rattle.der_simple.specs.FractionalTimeRef.{octets_of};

    /// Makes a time with these contents octets.
    ///
    /// # Errors
    /// `ErrorKind::Value` (13) for octets that are no such time, and for more than 4294967295
    /// octets.
    pub fn from_bytes(octets: &'a [u8]) -> Result<FractionalTimeRef<'a>, Error>
        ensures { KeepsTime octets_of octets.now result }
    {
        if !is_fractional_time(octets) {
            return Err(Error::from_kind(Tag::GeneralizedTime.value_error()));
        }
        match Length::of(octets.len()) {
            Ok(_) => Ok(FractionalTimeRef { octets }),
            Err(_) => Err(Error::from_kind(Tag::GeneralizedTime.value_error())),
        }
    }

    /// Returns the contents octets.
    pub fn as_bytes(self) -> &'a [u8]
        ensures { result.now ≡ octets_of self.entry }
    {
        self.octets
    }

    /// Returns the time without its fraction.
    pub fn seconds(self) -> GeneralizedTime
        ensures { octets_of self.entry ≡ time_octets result (fraction_of (octets_of self.entry)) }
    {
        match second_of(&self.octets[..14]) {
            Some(second) => second,
            None => unreachable!(),
        }
    }

    /// Returns the digits of the fraction: `25` for a quarter of a second, none for a whole
    /// second.
    pub fn fraction(self) -> &'a [u8]
        ensures digits { result.now ≡ fraction_of (octets_of self.entry) }
        ensures fraction { spec.is_fraction result.now ≡ true }
    {
        let end = self.octets.len() - 1;
        let rest = &self.octets[14..end];
        match rest {
            [_, digits @ ..] => digits,
            [] => &[],
        }
    }
}

impl<'a> FormValue for FractionalTimeRef<'a> {
    ghost use Rattle.der_simple.specs.FractionalTimeRef.{octets_of};
    ghost use Rattle.der_simple.specs.FractionalTimes.{parse_fractional_time};

    ghost value = { format_of_contents octets_of parse_fractional_time (λ rules v p. parse_of_fractional_time rules p v.octets.now v.octets.now v.time refl) fractional_time_of_octets };
}

impl<'a> OneTag for FractionalTimeRef<'a> {
    type Marker = GeneralizedTimeTag;
}

impl<'a, R: Source<'a>> DecodeValue<'a, R> for FractionalTimeRef<'a> {
    ghost TAKES_MEMORY = { false };

    const TAKES_MEMORY: bool = false;

    fn decode_value(
        _alloc: Global,
        reader: &mut R,
        header: Header,
    ) -> Result<FractionalTimeRef<'a>, Error> {
        let octets = reader.read_slice(header.length)?;
        if !is_fractional_time(octets) {
            return Err(reader.error(Tag::GeneralizedTime.value_error()));
        }
        Ok(FractionalTimeRef { octets })
    }

    ghost takes_memory_is = { refl };
}

impl<'a> EncodeValue for FractionalTimeRef<'a> {
    fn value_len(&self) -> Result<Length, Error> {
        Ok(Length::new(self.octets.len() as u32))
    }

    fn encode_value<W: Writer>(&self, writer: &mut W) -> Result<(), Error> {
        writer.write(self.octets)
    }

    fn encode_value_back<W: BackWriter>(&self, writer: &mut W) -> Result<(), Error> {
        writer.put(self.octets);
        Ok(())
    }
}

impl<'a> OrdIsValueOrd for FractionalTimeRef<'a> {
    ghost ord_is_value_ord = { λ v w. refl };
}

impl<'a> ContentsEq for FractionalTimeRef<'a> {
    ghost contents_eq = { λ v w one. bytes_decides v.octets.now w.octets.now };
}

impl<'a> Member for FractionalTimeRef<'a> {
    ghost member = { value_member ⟦<GeneralizedTimeTag as TagMarker>⟧.TAG ⟦<FractionalTimeRef<'a> as FormValue>⟧.value ⟦<FractionalTimeRef<'a> as PartialEq>⟧.eq (λ v w one. bytes_decides v.octets.now w.octets.now) };
}

impl<'a> CopyIsDuplicate for FractionalTimeRef<'a> {}
