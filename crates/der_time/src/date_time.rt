//! A date and a time of day in UTC.

ghost use Rattle.std.specs.Prelude.{◌≡◌, ◌+◌, ◌*◌, ◌≤◌, ◌≤ℤ◌, pos, Some, refl, false};
ghost use Rattle.std.specs.Int.{IsInRange};
ghost use Rattle.jiff_core.specs.Calendar.{days_in_month};
ghost use Rattle.jiff_core.specs.Date.{epoch_day};
ghost use Rattle.der_tlv.specs.declared.error.ErrorKind.TheVariants as kinds;
ghost use Rattle.der_elem.specs.FormatMakers.{format_of_contents};

use crate::digits::two_digits;
use crate::fields::Fields;
use crate::reading::{generalized_fault, read_generalized};
use crate::text::read_text;
use der_elem::{
    ContentsEq, CopyIsDuplicate, DecodeValue, EncodeValue, FormValue, GeneralizedTimeTag, OneTag,
    OrdIsValueOrd,
};
use der_tlv::{BackWriter, Error, ErrorKind, Header, Length, Reader, Source, Writer};
use jiff_core::civil;
use std::alloc::Global;
use std::str::FromStr;
use std::time::Duration;
use std::{fmt, str};

/// The seconds from 1970-01-01T00:00:00Z to 9999-12-31T23:59:59Z.
const LAST_SECOND: u64 = 253_402_300_799;

/// A second from 1970-01-01T00:00:00Z to 9999-12-31T23:59:59Z: a valid date and a time of day.
///
/// It is encoded as a GeneralizedTime: 1991-05-06T23:45:40Z as 18 0F and the octets of
/// `19910506234540Z`. Decoding, encoding and the order are those of a `GeneralizedTime`.
///
/// # Errors
/// Decoding fails on 15 octets that end with `Z` and begin with two digits, if the third and
/// fourth octets are not both digits (`ErrorKind::DateTime`, 14). It fails on all other octets
/// that are not those of a valid time (`ErrorKind::Value`, 13).
#[derive(Clone, Copy, Debug, PartialEq, Eq, PartialOrd, Ord)]
pub struct DateTime {
    /// The year, from 1970 to 9999.
    pub year: u16,
    /// The month, from 1 to 12.
    pub month: u8,
    /// The day of the month, from 1.
    pub day: u8,
    /// The hour, from 0 to 23.
    pub hour: u8,
    /// The minutes, from 0 to 59.
    pub minutes: u8,
    /// The seconds, from 0 to 59.
    pub seconds: u8,
    pub ghost year_in: { IsInRange 1970 9999 year },
    pub ghost month_in: { IsInRange 1 12 month },
    pub ghost day_in: { IsInRange 1 (days_in_month (pos year) month) day },
    pub ghost hour_in: { hour ≤ 23 },
    pub ghost minutes_in: { minutes ≤ 59 },
    pub ghost seconds_in: { seconds ≤ 59 },
}

impl DateTime {
    ghost use Rattle.der_time.specs.TimeReading.{ReadAs, generalized_or_fault};
    ghost use Rattle.der_time.specs.DateTime.{time_contents, date_time_text, TakesFields};
    ghost use Rattle.der_time.specs.UnixTime.{unix_seconds, second_of_day, last_second, LastsSeconds, IsTimeAfter, IsOnDate};

    /// The last second: 9999-12-31T23:59:59Z.
    pub const INFINITY: DateTime = DateTime {
        year: 9999,
        month: 12,
        day: 31,
        hour: 23,
        minutes: 59,
        seconds: 59,
    };

    /// Creates the time with these fields.
    ///
    /// # Errors
    /// `ErrorKind::DateTime` (14) for a year before 1970 or after 9999, and if the calendar has
    /// no such date or the day has no such second. There is no leap second.
    pub fn new(
        year: u16,
        month: u8,
        day: u8,
        hour: u8,
        minutes: u8,
        seconds: u8,
    ) -> Result<DateTime, Error>
        ensures { TakesFields (record {
          year = year;
          month = month;
          day = day;
          hour = hour;
          minutes = minutes;
          seconds = seconds;
        }) result }
    {
        let fields = Fields {
            year,
            month,
            day,
            hour,
            minutes,
            seconds,
        };
        match fields.to_date_time() {
            Some(time) => Ok(time),
            None => Err(Error::from_kind(ErrorKind::DateTime)),
        }
    }

    /// Returns the year, from 1970 to 9999.
    pub fn year(&self) -> u16
        ensures { result ≡ self.now.year }
    {
        self.year
    }

    /// Returns the month, from 1 to 12.
    pub fn month(&self) -> u8
        ensures { result ≡ self.now.month }
    {
        self.month
    }

    /// Returns the day of the month, from 1.
    pub fn day(&self) -> u8
        ensures { result ≡ self.now.day }
    {
        self.day
    }

    /// Returns the hour, from 0 to 23.
    pub fn hour(&self) -> u8
        ensures { result ≡ self.now.hour }
    {
        self.hour
    }

    /// Returns the minutes, from 0 to 59.
    pub fn minutes(&self) -> u8
        ensures { result ≡ self.now.minutes }
    {
        self.minutes
    }

    /// Returns the seconds, from 0 to 59.
    pub fn seconds(&self) -> u8
        ensures { result ≡ self.now.seconds }
    {
        self.seconds
    }

    /// Returns the time after the whole seconds of this duration since 1970-01-01T00:00:00Z. A
    /// fraction of a second is dropped.
    ///
    /// # Errors
    /// `ErrorKind::DateTime` (14) for more than 253402300799 seconds, even by less than a second.
    pub fn from_unix_duration(unix_duration: Duration) -> Result<DateTime, Error>
        ensures { IsTimeAfter (λ t. t) kinds.DateTime unix_duration result }
    {
        let seconds = unix_duration.as_secs();
        let fraction = unix_duration.subsec_nanos();
        if seconds > LAST_SECOND || (seconds == LAST_SECOND && fraction > 0) {
            return Err(Error::from_kind(ErrorKind::DateTime));
        }
        Ok(DateTime::of_unix_seconds(seconds))
    }

    /// Returns the time after this number of seconds since 1970-01-01T00:00:00Z.
    fn of_unix_seconds(seconds: u64) -> DateTime
        requires { seconds ≤ last_second }
        ensures { unix_seconds result ≡ seconds }
    {
        let day = (seconds / 86400) as i64;
        let second = seconds % 86400;
        match civil::Date::from_unix_epoch_day(day) {
            Ok(date) => DateTime::at(
                date,
                (second / 3600) as u8,
                (second / 60 % 60) as u8,
                (second % 60) as u8,
            ),
            Err(_) => unreachable!(),
        }
    }

    /// Returns the time on this date, which is in 1970 or later.
    fn at(date: civil::Date, hour: u8, minutes: u8, seconds: u8) -> DateTime
        requires from_1970 { pos 0 ≤ℤ epoch_day date }
        requires hour { hour ≤ 23 }
        requires minutes { minutes ≤ 59 }
        requires seconds { seconds ≤ 59 }
        ensures date { IsOnDate date result }
        ensures second { second_of_day result ≡ hour * 3600 + minutes * 60 + seconds }
    {
        DateTime {
            year: date.year.unsigned_abs(),
            month: date.month,
            day: date.day,
            hour,
            minutes,
            seconds,
        }
    }

    /// Returns the date.
    fn date(&self) -> civil::Date
        ensures year { result.year ≡ pos self.now.year }
        ensures month { result.month ≡ self.now.month }
        ensures day { result.day ≡ self.now.day }
    {
        civil::Date {
            year: self.year as i16,
            month: self.month,
            day: self.day,
        }
    }

    /// Returns the duration since 1970-01-01T00:00:00Z: 86400 seconds for each day, and the
    /// seconds of the time of day.
    #[tactic(auto, using(crate::specs::UnixTimeLaws::most_seconds), unfolding(crate::specs::UnixTime::day_number))]
    pub fn unix_duration(&self) -> Duration
        ensures seconds { LastsSeconds (unix_seconds self.now) result }
        ensures bounded { unix_seconds self.now ≤ last_second }
    {
        let day = self.date().to_unix_epoch_day().unsigned_abs();
        let second = self.hour as u64 * 3600 + self.minutes as u64 * 60 + self.seconds as u64;
        Duration::from_secs(day as u64 * 86400 + second)
    }

    /// Creates the time with these contents octets of a GeneralizedTime, or returns their error.
    #[tactic(auto, unfolding(crate::specs::TimeReading::generalized_or_fault))]
    pub(crate) fn of_contents(octets: &[u8]) -> Result<DateTime, ErrorKind>
        ensures { ReadAs time_contents generalized_or_fault octets.now result }
    {
        let Some(fields) = read_generalized(octets) else {
            return Err(generalized_fault(octets));
        };
        match fields.to_date_time() {
            Some(time) => Ok(time),
            None => Err(generalized_fault(octets)),
        }
    }

    /// Returns the contents octets of a GeneralizedTime.
    #[tactic(auto, unfolding(crate::specs::Times::generalized_contents, crate::specs::Times::after_year, crate::specs::Times::clock_contents, crate::specs::Digits::two_digits))]
    pub(crate) fn contents(&self) -> [u8; 15]
        ensures { result ≡ time_contents self.now }
    {
        let [c0, c1] = two_digits((self.year / 100) as u8);
        let [y0, y1] = two_digits((self.year % 100) as u8);
        let [m0, m1] = two_digits(self.month);
        let [d0, d1] = two_digits(self.day);
        let [h0, h1] = two_digits(self.hour);
        let [i0, i1] = two_digits(self.minutes);
        let [s0, s1] = two_digits(self.seconds);
        [c0, c1, y0, y1, m0, m1, d0, d1, h0, h1, i0, i1, s0, s1, b'Z']
    }

    /// Returns the text: `2001-01-02T12:13:14Z`.
    #[tactic(auto, unfolding(crate::specs::Times::time_text, crate::specs::Times::clock_text, crate::specs::Digits::two_digits))]
    fn text(&self) -> [u8; 20]
        ensures { result ≡ date_time_text self.now }
    {
        let [c0, c1] = two_digits((self.year / 100) as u8);
        let [y0, y1] = two_digits((self.year % 100) as u8);
        let [m0, m1] = two_digits(self.month);
        let [d0, d1] = two_digits(self.day);
        let [h0, h1] = two_digits(self.hour);
        let [i0, i1] = two_digits(self.minutes);
        let [s0, s1] = two_digits(self.seconds);
        [
            c0, c1, y0, y1, b'-', m0, m1, b'-', d0, d1, b'T', h0, h1, b':', i0, i1, b':', s0, s1,
            b'Z',
        ]
    }
}

impl FromStr for DateTime {
    ghost use Rattle.der_time.specs.DateTime.{ParsesText, ParsesBack};

    type Err = Error;

    ghost from_str_gives = { λ s r. ParsesText s r × ParsesBack s r };

    /// # Errors
    /// (14) for any text that `Display` does not write.
    fn from_str(text: &str) -> Result<DateTime, Error> {
        let Some(fields) = read_text(text.as_bytes()) else {
            return Err(Error::from_kind(ErrorKind::DateTime));
        };
        match fields.to_date_time() {
            Some(time) => Ok(time),
            None => Err(Error::from_kind(ErrorKind::DateTime)),
        }
    }
}

impl fmt::Display for DateTime {
    ghost use Rattle.der_time.specs.DateTime.{date_time_text};

    ghost output = { λ t. Some (date_time_text t) };

    fn fmt<W: fmt::Write>(&self, f: &mut fmt::Formatter<W>) -> fmt::Result {
        let text = self.text();
        match str::from_utf8(&text) {
            Ok(text) => f.write_str(text),
            Err(_) => unreachable!(),
        }
    }
}

impl FormValue for DateTime {
    ghost use Rattle.der_time.specs.TimeReading.{parse_generalized};
    ghost use Rattle.der_time.specs.DateTime.{time_contents};
    ghost use Rattle.der_time.specs.TimeLaws.{generalized_of_octets, generalized_of};

    ghost value = { format_of_contents time_contents parse_generalized (λ rules v p. generalized_of v) generalized_of_octets };
}

impl OneTag for DateTime {
    type Marker = GeneralizedTimeTag;
}

impl<'a, R: Source<'a>> DecodeValue<'a, R> for DateTime {
    ghost TAKES_MEMORY = { false };

    const TAKES_MEMORY: bool = false;

    fn decode_value(_alloc: Global, reader: &mut R, header: Header) -> Result<DateTime, Error> {
        let octets = reader.read_slice(header.length)?;
        match DateTime::of_contents(octets) {
            Ok(time) => Ok(time),
            Err(kind) => Err(reader.error(kind)),
        }
    }

    ghost takes_memory_is = { refl };
}

impl EncodeValue for DateTime {
    #[tactic(auto, using(crate::specs::TimeLaws::length_generalized))]
    fn value_len(&self) -> Result<Length, Error> {
        Ok(Length::new(15))
    }

    fn encode_value<W: Writer>(&self, writer: &mut W) -> Result<(), Error> {
        writer.write(&self.contents())
    }

    fn encode_value_back<W: BackWriter>(&self, writer: &mut W) -> Result<(), Error> {
        writer.put(&self.contents());
        Ok(())
    }
}

impl OrdIsValueOrd for DateTime {
    ghost use Rattle.der_time.specs.TimeOrder.{ord_is_contents_ord};

    ghost ord_is_value_ord = { ord_is_contents_ord };
}

impl ContentsEq for DateTime {
    ghost use Rattle.der_time.specs.TimeOrder.{eq_is_contents_eq};

    ghost contents_eq = { eq_is_contents_eq };
}

impl CopyIsDuplicate for DateTime {}
