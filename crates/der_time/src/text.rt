//! Reading of the six numbers of a time from a text in the form of RFC 3339 5.6:
//! `2001-01-02T12:13:14Z`.

ghost use Rattle.std.specs.Prelude.{◌≡◌, IfSome};
ghost use Rattle.der_time.specs.Times.{clock_text, time_text};
ghost use Rattle.der_time.specs.TimeReading as spec;

use crate::digits::{read_octet, read_two_digits};
use crate::fields::Fields;

/// Reads hour, minutes and seconds with colons between them, and Z at the end.
#[tactic(auto, unfolding(crate::specs::TimeReading::read_clock_text, crate::specs::Times::clock_text))]
fn read_clock_text(year: u16, month: u8, day: u8, text: &[u8]) -> Option<Fields>
    ensures value { result ≡ spec.read_clock_text year month day text.now }
    ensures digits { IfSome result (λ f. text.now ≡ clock_text f) }
    ensures date { IfSome result (λ f. (f.year ≡ year) × (f.month ≡ month) × (f.day ≡ day)) }
{
    let (hour, text) = read_two_digits(text)?;
    let (minutes, text) = read_two_digits(read_octet(b':', text)?)?;
    let (seconds, text) = read_two_digits(read_octet(b':', text)?)?;
    if text != [b'Z'].as_slice() {
        return None;
    }
    Some(Fields {
        year,
        month,
        day,
        hour,
        minutes,
        seconds,
    })
}

/// Reads year, month and day with hyphens between them, and T and the clock after them.
#[tactic(auto, unfolding(crate::specs::TimeReading::read_text, crate::specs::Times::time_text))]
pub fn read_text(text: &[u8]) -> Option<Fields>
    ensures value { result ≡ spec.read_text text.now }
    ensures digits { IfSome result (λ f. text.now ≡ time_text f) }
{
    let (century, text) = read_two_digits(text)?;
    let (year, text) = read_two_digits(text)?;
    let (month, text) = read_two_digits(read_octet(b'-', text)?)?;
    let (day, text) = read_two_digits(read_octet(b'-', text)?)?;
    let clock = read_octet(b'T', text)?;
    read_clock_text(century as u16 * 100 + year as u16, month, day, clock)
}
