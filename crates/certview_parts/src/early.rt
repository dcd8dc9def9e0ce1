//! Times before 1970, which the standards allow and the decoder refuses.

use der_asn1_types::{DateTime, Error, ErrorKind, Tag};

/// The words for such a time, in place of the words of its error.
pub const EARLY: &str = "a time before 1970, which is not read";

/// Returns whether an error is at the end of a UTCTime from 1950 to 1969, or of a GeneralizedTime
/// before 1970. The time must be a second of the calendar, in the form of DER (X.690 11.7, 11.8).
pub fn is_early(octets: &[u8], error: &Error) -> bool {
    let Some(position) = error.position else {
        return false;
    };
    let front = octets.get(..position.value() as usize).unwrap_or(&[]);
    match error.kind {
        ErrorKind::Value { tag: Tag::UtcTime } => is_early_second(last_of(front, 13), 1900, 1950),
        ErrorKind::Value {
            tag: Tag::GeneralizedTime,
        } => is_early_second(last_of(front, 15), 0, 0),
        _ => false,
    }
}

/// Returns the last `count` octets, or none if there are fewer.
fn last_of(octets: &[u8], count: usize) -> &[u8] {
    let begin = octets.len().saturating_sub(count);
    match octets.get(begin..) {
        Some(last) if last.len() == count => last,
        _ => &[],
    }
}

/// Returns whether these are the contents octets of a second between the start of the year
/// `first` and the end of 1969. The octets leave out `left_out` of the year.
fn is_early_second(contents: &[u8], left_out: u64, first: u64) -> bool {
    let [digits @ .., b'Z'] = contents else {
        return false;
    };
    let Some(number) = number_of(digits) else {
        return false;
    };
    let year = (number / 10_000_000_000).saturating_add(left_out);
    first <= year && year < 1970 && is_second(year, number)
}

/// Returns whether the last ten digits of a number are a second of a year. A year has the
/// calendar of the year 2000 years later.
fn is_second(year: u64, number: u64) -> bool {
    let Ok(later) = u16::try_from(year.saturating_add(2000)) else {
        return false;
    };
    DateTime::new(
        later,
        (number / 100_000_000 % 100) as u8,
        (number / 1_000_000 % 100) as u8,
        (number / 10_000 % 100) as u8,
        (number / 100 % 100) as u8,
        (number % 100) as u8,
    )
    .is_ok()
}

/// Returns the number that the digits express; none for another octet, or for no octet.
fn number_of(digits: &[u8]) -> Option<u64> {
    let mut number: u64 = 0;
    for digit in digits {
        let value = match *digit {
            b'0'..=b'9' => *digit - b'0',
            _ => return None,
        };
        number = number.saturating_mul(10).saturating_add(u64::from(value));
    }
    if digits.is_empty() {
        None
    } else {
        Some(number)
    }
}
