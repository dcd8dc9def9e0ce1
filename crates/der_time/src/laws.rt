//! Laws of times.

ghost use Rattle.std.specs.Prelude.{◌≡◌, ◌↔◌, IsTrue, IsOkAnd, pos, ◌∷◌, []};
ghost use Rattle.std.specs.Ordering.{nat_cmp};
ghost use Rattle.der_tlv.specs.declared.tag.Tag.TheVariants as tags;
ghost use Rattle.jiff_core.specs.Calendar.{days_from_civil};
ghost use Rattle.der_time.specs.DateTime.{date_time_text, fields_of};
ghost use Rattle.der_time.specs.UnixTime.{day_number, unix_seconds, last_second};

use crate::date_time::DateTime;
use crate::generalized_time::GeneralizedTime;
use crate::utc_time::UtcTime;
use der_elem::FixedTag;
use der_tlv::{Error, Tag};
use std::cmp::Ordering;

/// Compares two times; the order is that of their seconds.
pub fn chronological(one: &DateTime, other: &DateTime) -> Ordering
    ensures { result ≡ nat_cmp (unix_seconds one.now) (unix_seconds other.now) }
{
    one.cmp(other)
}

/// Compares two times; the order is that of their seconds.
pub fn utc_chronological(one: &UtcTime, other: &UtcTime) -> Ordering
    ensures { result ≡ nat_cmp (unix_seconds one.now.date_time) (unix_seconds other.now.date_time) }
{
    one.cmp(other)
}

/// Returns whether two times are equal. Equal times are the same second and have the same text.
pub fn equal_times(one: &DateTime, other: &DateTime) -> bool
    ensures seconds { IsTrue result ↔ (unix_seconds one.now ≡ unix_seconds other.now) }
    ensures text { IsTrue result ↔ (date_time_text one.now ≡ date_time_text other.now) }
{
    one == other
}

/// Returns the last time, whose seconds are the most that a duration may have.
pub fn last_time() -> DateTime
    ensures { unix_seconds result ≡ last_second }
{
    DateTime::INFINITY
}

/// Returns the time that the duration of a time gives, which is that time.
pub fn from_own_duration(time: &DateTime) -> Result<DateTime, Error>
    ensures { IsOkAnd result (λ t. fields_of t ≡ fields_of time.now) }
{
    match DateTime::from_unix_duration(time.unix_duration()) {
        Ok(same) => Ok(same),
        Err(e) => Err(e),
    }
}

/// Returns the number of days from 1970-01-01 to the date of a time. It equals the calendar's day
/// number, which has a sign.
pub fn days_since_1970(time: &DateTime) -> u64
    ensures number { result ≡ day_number time.now }
    ensures calendar { pos result
        ≡ days_from_civil (pos time.now.year) time.now.month time.now.day }
{
    time.unix_duration().as_secs() / 86400
}

/// Returns the tags of the types (X.680 8.6): of `DateTime`, which is encoded and decoded as a
/// GeneralizedTime, `GeneralizedTime` and `UtcTime`.
pub fn universal_tags() -> [Tag; 3]
    ensures { result ≡ tags.GeneralizedTime ∷ tags.GeneralizedTime ∷ tags.UtcTime ∷ [] }
{
    [DateTime::TAG, GeneralizedTime::TAG, UtcTime::TAG]
}

/// Returns the number of contents octets of a UTCTime, which is thirteen (RFC 5280 4.1.2.5.1).
pub fn utc_length() -> usize
    ensures { result ≡ 13 }
{
    UtcTime::LENGTH
}

/// Returns the last year of a UTCTime (RFC 5280 4.1.2.5.1).
pub fn last_utc_year() -> u16
    ensures { result ≡ 2049 }
{
    UtcTime::MAX_YEAR
}
