//! Reading of the six numbers of a time from digits in contents octets.

ghost use Rattle.std.specs.Prelude.{◌≡◌, ◌<◌, ◌/◌, ◌%◌, ◌*◌, ◌+◌, ◌++◌, IfSome, ◌^◌};
ghost use Rattle.der_time.specs.Times.{after_year, clock_contents, generalized_contents, utc_contents};
ghost use Rattle.der_time.specs.TimeReading as spec;

use crate::digits::read_two_digits;
use crate::fields::Fields;
use der_tlv::{ErrorKind, Tag};

/// Reads hour, minutes and seconds in two digits each, and Z at the end.
#[tactic(auto, unfolding(crate::specs::TimeReading::read_clock, crate::specs::Times::clock_contents))]
fn read_clock(year: u16, month: u8, day: u8, octets: &[u8]) -> Option<Fields>
    ensures value { result ≡ spec.read_clock year month day octets.now }
    ensures digits { IfSome result (λ f. octets.now ≡ clock_contents f) }
    ensures date { IfSome result (λ f. (f.year ≡ year) × (f.month ≡ month) × (f.day ≡ day)) }
{
    let (hour, octets) = read_two_digits(octets)?;
    let (minutes, octets) = read_two_digits(octets)?;
    let (seconds, octets) = read_two_digits(octets)?;
    if octets != [b'Z'].as_slice() {
        return None;
    }
    Some(Fields {
        year,
        month,
        day,
        hour,
        minutes,
        seconds,
    })
}

/// Reads month and day, and then the clock.
#[tactic(auto, unfolding(crate::specs::TimeReading::read_after_year, crate::specs::Times::after_year))]
fn read_after_year(year: u16, octets: &[u8]) -> Option<Fields>
    ensures value { result ≡ spec.read_after_year year octets.now }
    ensures digits { IfSome result (λ f. octets.now ≡ after_year f) }
    ensures year { IfSome result (λ f. f.year ≡ year) }
{
    let (month, octets) = read_two_digits(octets)?;
    let (day, octets) = read_two_digits(octets)?;
    read_clock(year, month, day, octets)
}

/// Reads the numbers of a GeneralizedTime: a year of four digits, and then the rest.
#[tactic(auto, unfolding(crate::specs::TimeReading::read_generalized, crate::specs::Times::generalized_contents))]
pub fn read_generalized(octets: &[u8]) -> Option<Fields>
    ensures value { result ≡ spec.read_generalized octets.now }
    ensures digits { IfSome result (λ f. octets.now ≡ generalized_contents f) }
{
    let (century, octets) = read_two_digits(octets)?;
    let (year, octets) = read_two_digits(octets)?;
    read_after_year(century as u16 * 100 + year as u16, octets)
}

/// Reads the numbers of a UTCTime: a year of two digits, and then the rest. 50 and more is 19YY,
/// and less is 20YY.
#[tactic(auto, unfolding(crate::specs::TimeReading::read_utc, crate::specs::Times::utc_contents))]
pub fn read_utc(octets: &[u8]) -> Option<Fields>
    ensures value { result ≡ spec.read_utc octets.now }
    ensures digits { IfSome result (λ f. octets.now ≡ utc_contents f) }
    ensures year { IfSome result (λ f. f.year < 2050) }
{
    let (year, octets) = read_two_digits(octets)?;
    let century = if year < 50 { 2000 } else { 1900 };
    read_after_year(century + year as u16, octets)
}

/// Returns whether these are 15 octets that end with Z and begin with two digits, and whose third
/// and fourth octets are not both digits.
#[tactic(auto, unfolding(crate::specs::TimeReading::lacks_year))]
fn lacks_year(octets: &[u8]) -> bool
    ensures { result ≡ spec.lacks_year octets.now }
{
    octets.len() == 15
        && octets[14] == b'Z'
        && read_two_digits(octets).is_some()
        && read_two_digits(&octets[2..]).is_none()
}

/// Returns the error for octets that are not a GeneralizedTime: `ErrorKind::DateTime` (14) if the
/// year lacks its last two digits, else `ErrorKind::Value` (13).
pub fn generalized_fault(octets: &[u8]) -> ErrorKind
    ensures { result ≡ spec.generalized_fault octets.now }
{
    if lacks_year(octets) {
        ErrorKind::DateTime
    } else {
        Tag::GeneralizedTime.value_error()
    }
}
