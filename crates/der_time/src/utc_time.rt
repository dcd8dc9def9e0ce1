//! UTCTime (X.680 47, X.690 11.8, RFC 5280 4.1.2.5.1).
//!
//! The tag is 17 (hexadecimal). There are 13 contents octets: the last two digits of the year,
//! then month, day, hour, minutes and seconds in two digits each, then `Z`. The year is 19YY for
//! 50 and more, and 20YY for less.

ghost use Rattle.std.specs.Prelude.{◌≡◌, ◌≤◌, ◌<◌, refl, false};
ghost use Rattle.der_elem.specs.FormatMakers.{format_of_contents};
ghost use Rattle.der_opaque.specs.Any as owned_any;
ghost use Rattle.der_opaque.specs.AnyRef as borrowed_any;

use crate::date_time::DateTime;
use crate::digits::two_digits;
use crate::reading::read_utc;
use der_elem::{
    ContentsEq, CopyIsDuplicate, DecodeValue, EncodeValue, Form, FormValue, OneTag, Tagged,
    UtcTimeTag, ValueOrd,
};
use der_opaque::{Any, AnyRef};
use der_tlv::{BackWriter, Error, ErrorKind, Header, Length, Reader, Source, Tag, Writer};
use std::alloc::Global;
use std::cmp::Ordering;
use std::time::Duration;

/// A UTCTime: a second from 1970 to 2049.
///
/// 1991-05-06T23:45:40Z is encoded as 17 0D and the octets of `910506234540Z`. Times are in
/// chronological order, which is not the order of their contents octets: 2000 is after 1999.
///
/// # Errors
/// Decoding fails on octets that are not those of a valid time, and on the years 1950 to 1969
/// (`ErrorKind::Value`, 13).
#[derive(Clone, Copy, Debug, PartialEq, Eq, PartialOrd, Ord)]
pub struct UtcTime {
    /// The time.
    pub date_time: DateTime,
    pub ghost to_2049: { date_time.year ≤ 2049 },
}

impl UtcTime {
    ghost use Rattle.der_time.specs.TimeReading.{ReadAs, utc_or_fault};
    ghost use Rattle.der_time.specs.UtcTime.{utc_time_contents, TakesTime};
    ghost use Rattle.der_time.specs.UnixTime.{unix_seconds, LastsSeconds, IsUtcTimeAfter};

    /// The number of contents octets.
    pub const LENGTH: usize = 13;

    /// The last year.
    pub const MAX_YEAR: u16 = 2049;

    /// Creates a `UtcTime` from a time.
    ///
    /// # Errors
    /// `ErrorKind::Value` (13) for a year after 2049.
    pub fn from_date_time(date_time: DateTime) -> Result<UtcTime, Error>
        ensures { TakesTime date_time result }
    {
        if date_time.year > UtcTime::MAX_YEAR {
            return Err(Error::from_kind(Tag::UtcTime.value_error()));
        }
        Ok(UtcTime { date_time })
    }

    /// Returns this time as a `DateTime`.
    pub fn to_date_time(&self) -> DateTime
        ensures { result ≡ self.now.date_time }
    {
        self.date_time
    }

    /// Returns the time after the whole seconds of this duration since 1970-01-01T00:00:00Z. A
    /// fraction of a second is dropped.
    ///
    /// # Errors
    /// `ErrorKind::DateTime` (14) for more than 253402300799 seconds, even by less than a second;
    /// then `ErrorKind::Value` (13) for 2524608000 seconds, which end with the year 2049, and
    /// more.
    pub fn from_unix_duration(unix_duration: Duration) -> Result<UtcTime, Error>
        ensures { IsUtcTimeAfter unix_duration result }
    {
        match DateTime::from_unix_duration(unix_duration) {
            Ok(date_time) => match UtcTime::from_date_time(date_time) {
                Ok(time) => Ok(time),
                Err(e) => Err(e),
            },
            Err(e) => Err(e),
        }
    }

    /// Returns the duration since 1970-01-01T00:00:00Z.
    pub fn to_unix_duration(&self) -> Duration
        ensures { LastsSeconds (unix_seconds self.now.date_time) result }
    {
        self.date_time.unix_duration()
    }

    /// Creates the time with these contents octets, or returns their error.
    #[tactic(auto, unfolding(crate::specs::TimeReading::utc_or_fault))]
    fn of_contents(octets: &[u8]) -> Result<UtcTime, ErrorKind>
        ensures { ReadAs utc_time_contents utc_or_fault octets.now result }
    {
        let Some(fields) = read_utc(octets) else {
            return Err(Tag::UtcTime.value_error());
        };
        match fields.to_date_time() {
            Some(date_time) => Ok(UtcTime { date_time }),
            None => Err(Tag::UtcTime.value_error()),
        }
    }

    /// Returns the contents octets.
    #[tactic(auto, unfolding(crate::specs::Times::utc_contents, crate::specs::Times::after_year, crate::specs::Times::clock_contents, crate::specs::Digits::two_digits))]
    fn contents(&self) -> [u8; 13]
        ensures { result ≡ utc_time_contents self.now }
    {
        let time = self.date_time;
        let [y0, y1] = two_digits((time.year % 100) as u8);
        let [m0, m1] = two_digits(time.month);
        let [d0, d1] = two_digits(time.day);
        let [h0, h1] = two_digits(time.hour);
        let [i0, i1] = two_digits(time.minutes);
        let [s0, s1] = two_digits(time.seconds);
        [y0, y1, m0, m1, d0, d1, h0, h1, i0, i1, s0, s1, b'Z']
    }
}

impl FormValue for UtcTime {
    ghost use Rattle.der_time.specs.TimeReading.{parse_utc};
    ghost use Rattle.der_time.specs.UtcTime.{utc_time_contents};
    ghost use Rattle.der_time.specs.UtcTimeLaws.{utc_time_of};
    ghost use Rattle.der_time.specs.TimeLaws.{utc_of_octets};

    ghost value = { format_of_contents utc_time_contents parse_utc (λ rules v p. utc_time_of v) utc_of_octets };
}

impl OneTag for UtcTime {
    type Marker = UtcTimeTag;
}

impl<'a, R: Source<'a>> DecodeValue<'a, R> for UtcTime {
    ghost TAKES_MEMORY = { false };

    const TAKES_MEMORY: bool = false;

    fn decode_value(_alloc: Global, reader: &mut R, header: Header) -> Result<UtcTime, Error> {
        let octets = reader.read_slice(header.length)?;
        match UtcTime::of_contents(octets) {
            Ok(time) => Ok(time),
            Err(kind) => Err(reader.error(kind)),
        }
    }

    ghost takes_memory_is = { refl };
}

impl EncodeValue for UtcTime {
    #[tactic(auto, using(crate::specs::TimeLaws::length_utc))]
    fn value_len(&self) -> Result<Length, Error> {
        Ok(Length::new(13))
    }

    fn encode_value<W: Writer>(&self, writer: &mut W) -> Result<(), Error> {
        writer.write(&self.contents())
    }

    fn encode_value_back<W: BackWriter>(&self, writer: &mut W) -> Result<(), Error> {
        writer.put(&self.contents());
        Ok(())
    }
}

impl ValueOrd for UtcTime {
    /// Compares the contents octets, in which the last two digits of the year decide first.
    #[tactic(auto, using(crate::specs::UtcTimeLaws::utc_contents_cmp))]
    fn value_cmp(&self, other: &UtcTime) -> Result<Ordering, Error> {
        let year = self.date_time.year % 100;
        let other_year = other.date_time.year % 100;
        Ok(
            year.cmp(&other_year)
                .then(self.date_time.cmp(&other.date_time)),
        )
    }
}

impl ContentsEq for UtcTime {
    ghost use Rattle.der_time.specs.UtcTimeLaws.{utc_eq_is_contents_eq};

    ghost contents_eq = { utc_eq_is_contents_eq };
}

impl CopyIsDuplicate for UtcTime {}

impl TryFrom<DateTime> for UtcTime {
    ghost use Rattle.der_time.specs.UtcTime.{TakesTime};

    type Error = Error;

    ghost try_from_gives = { λ t r. TakesTime t r };

    /// # Errors
    /// (13) for a year after 2049.
    fn try_from(date_time: DateTime) -> Result<UtcTime, Error> {
        UtcTime::from_date_time(date_time)
    }
}

impl TryFrom<&DateTime> for UtcTime {
    ghost use Rattle.der_time.specs.UtcTime.{TakesTime};

    type Error = Error;

    ghost try_from_gives = { λ t r. TakesTime t.now r };

    /// # Errors
    /// (13) for a year after 2049.
    fn try_from(date_time: &DateTime) -> Result<UtcTime, Error> {
        UtcTime::from_date_time(*date_time)
    }
}

impl From<&UtcTime> for UtcTime {
    ghost from_gives = { λ t r. r ≡ t.now };

    fn from(time: &UtcTime) -> UtcTime {
        *time
    }
}

impl From<UtcTime> for DateTime {
    ghost from_gives = { λ t r. r ≡ t.date_time };

    fn from(time: UtcTime) -> DateTime {
        time.date_time
    }
}

impl From<&UtcTime> for DateTime {
    ghost from_gives = { λ t r. r ≡ t.now.date_time };

    fn from(time: &UtcTime) -> DateTime {
        time.date_time
    }
}

impl<'a> TryFrom<AnyRef<'a>> for UtcTime {
    ghost use Rattle.der_time.specs.UtcTime.{DecodesUtcTime};

    type Error = Error;

    ghost try_from_gives = { λ a r. DecodesUtcTime (borrowed_any.tag_of a)
        (borrowed_any.contents_of a) r };

    /// # Errors
    /// (4) with no expected tag for another tag; (13) for octets that are not a time.
    fn try_from(any: AnyRef<'a>) -> Result<UtcTime, Error> {
        if !any.tag().equals(Tag::UtcTime) {
            return Err(Error::from_kind(any.tag().unexpected_error(None)));
        }
        match UtcTime::of_contents(any.value()) {
            Ok(time) => Ok(time),
            Err(kind) => Err(Error::from_kind(kind)),
        }
    }
}

impl<'a> TryFrom<&'a Any> for UtcTime {
    ghost use Rattle.der_time.specs.UtcTime.{DecodesUtcTime};

    type Error = Error;

    ghost try_from_gives = { λ a r. DecodesUtcTime (owned_any.tag_of a.now)
        (owned_any.contents_of a.now) r };

    /// # Errors
    /// (4) with no expected tag for another tag; (13) for octets that are not a time.
    fn try_from(any: &'a Any) -> Result<UtcTime, Error> {
        UtcTime::try_from(any.to_ref())
    }
}
