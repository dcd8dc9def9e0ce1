//! Dates as seconds, and versions as numbers.

ghost use Rattle.std.specs.Prelude.{◌≡◌};
ghost use Rattle.der_c.specs.Times.{seconds_if_given, seconds_if_there, seconds_of, seconds_of_general, version_if_there};

use der_pkix::certificate::{Time, Version};
use der_time::GeneralizedTime;

/// Returns the seconds from 1970-01-01T00:00:00Z, with no leap seconds. No date is earlier.
pub(crate) fn seconds(time: Time) -> u64
    ensures { result ≡ seconds_of time }
{
    match time {
        Time::UtcTime(time) => time.to_date_time().unix_duration().as_secs(),
        Time::GeneralTime(time) => time.to_date_time().unix_duration().as_secs(),
    }
}

/// Returns the seconds of a date, or 0 if it is absent.
pub(crate) fn seconds_or_none(time: Option<Time>) -> u64
    ensures { result ≡ seconds_if_there time }
{
    match time {
        Some(time) => seconds(time),
        None => 0,
    }
}

/// Returns the number of a version, or 0 for v1 if it is absent.
pub(crate) fn number_of(version: Option<Version>) -> u64
    ensures { result ≡ version_if_there version }
{
    match version {
        Some(version) => u64::from(version),
        None => 0,
    }
}

/// Returns the seconds of a GeneralizedTime.
pub(crate) fn general_seconds(time: GeneralizedTime) -> u64
    ensures { result ≡ seconds_of_general time }
{
    time.to_date_time().unix_duration().as_secs()
}

/// Returns the seconds of a GeneralizedTime, or 0 if it is absent.
pub(crate) fn general_seconds_or_none(time: Option<GeneralizedTime>) -> u64
    ensures { result ≡ seconds_if_given time }
{
    match time {
        Some(time) => general_seconds(time),
        None => 0,
    }
}
