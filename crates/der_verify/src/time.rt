//! Dates of certificates (RFC 5280 4.1.2.5).

ghost use Rattle.std.specs.Prelude.{◌≡◌};
ghost use Rattle.der_verify.specs.Time.{date_time_of, is_early, HasForm, seconds_of, is_valid_at};

use der_pkix::certificate::{Time, Validity};
use der_time::{DateTime, GeneralizedTime, UtcTime};

/// Returns a date in the form that RFC 5280 requires: a UTCTime up to the year 2049, and a
/// GeneralizedTime after it.
pub fn time_at(date_time: DateTime) -> Time
    ensures { HasForm date_time result }
{
    match UtcTime::from_date_time(date_time) {
        Ok(time) => Time::UtcTime(time),
        Err(_) => Time::GeneralTime(GeneralizedTime::from_date_time(date_time)),
    }
}

/// Returns the date and time of either form.
pub fn date_time(time: Time) -> DateTime
    ensures { result ≡ date_time_of time }
{
    match time {
        Time::UtcTime(time) => time.to_date_time(),
        Time::GeneralTime(time) => time.to_date_time(),
    }
}

/// Returns the seconds from 1970-01-01T00:00:00Z, with no leap seconds.
pub fn seconds(time: Time) -> u64
    ensures { result ≡ seconds_of time }
{
    date_time(time).unix_duration().as_secs()
}

/// Returns whether a moment, in seconds from 1970-01-01T00:00:00Z, is within a validity, both
/// ends included.
pub fn holds_at(validity: Validity, moment: u64) -> bool
    ensures { result ≡ is_valid_at validity moment }
{
    seconds(validity.not_before()) <= moment && moment <= seconds(validity.not_after())
}

/// Returns whether a date through 2049 is a GeneralizedTime.
pub(crate) fn is_early(time: Time) -> bool
    ensures { result ≡ is_early time }
{
    match time {
        Time::UtcTime(_) => false,
        Time::GeneralTime(time) => time.to_date_time().year() <= 2049,
    }
}
