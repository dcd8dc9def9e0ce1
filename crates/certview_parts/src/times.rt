//! Times as text.

use crate::field_name::FieldName;
use crate::page::Page;
use crate::part_name::PartName;
use crate::place::Place;
use crate::printer::Printer;
use der_asn1_types::DateTime;
use der_pkix::certificate::{Time, Validity};
use der_simple::FractionalTimeRef;
use std::alloc::AllocError;
use std::fmt::Write;

/// Adds a line for the first second of the validity, and one for the last.
pub fn push_validity(
    printer: &mut Printer<'_>,
    place: &Place,
    validity: &Validity,
) -> Result<(), AllocError> {
    let (begin, end) = (validity.not_before(), validity.not_after());
    let at = printer.places_of(validity, place);
    push_moment(printer, &at.not_before, FieldName::NotBefore, &begin)?;
    push_moment(printer, &at.not_after, FieldName::NotAfter, &end)
}

/// Adds a line with a time.
pub fn push_moment(
    printer: &mut Printer<'_>,
    place: &Place,
    field: FieldName,
    time: &Time,
) -> Result<(), AllocError> {
    printer.begin(place, field)?;
    push_time(printer.page, time)?;
    printer.push('\n')
}

/// Adds a time, as `2026-11-23 04:38:17 UTC`.
pub fn push_time(page: &mut Page, time: &Time) -> Result<(), AllocError> {
    push_date_time(page, &date_time_of(time))
}

/// Adds a date and time, as `push_time` does.
pub fn push_date_time(page: &mut Page, time: &DateTime) -> Result<(), AllocError> {
    push_seconds(page, time)?;
    page.text.push_str(" UTC")
}

/// Adds a date and time, and a part that is this text.
pub fn push_time_part(page: &mut Page, part: PartName, time: &DateTime) -> Result<(), AllocError> {
    let begin = page.text.len();
    push_date_time(page, time)?;
    page.mark(part, begin)
}

/// Adds a date and time to the second, without its zone.
fn push_seconds(page: &mut Page, time: &DateTime) -> Result<(), AllocError> {
    let (year, month, day) = (time.year(), time.month(), time.day());
    let (hour, minutes, seconds) = (time.hour(), time.minutes(), time.seconds());
    write!(
        page.text,
        "{year:04}-{month:02}-{day:02} {hour:02}:{minutes:02}:{seconds:02}"
    )
}

/// Adds a time that may have a fraction of a second, as `2026-11-23 04:38:17.25 UTC`.
pub fn push_fractional_time(
    page: &mut Page,
    time: FractionalTimeRef<'_>,
) -> Result<(), AllocError> {
    push_seconds(page, &time.seconds().to_date_time())?;
    let digits = time.fraction();
    if !digits.is_empty() {
        page.text.push('.')?;
    }
    for digit in digits {
        page.text.push(char::from(*digit))?;
    }
    page.text.push_str(" UTC")
}

/// Returns the date and time of either form.
fn date_time_of(time: &Time) -> DateTime {
    match time {
        Time::UtcTime(time) => time.to_date_time(),
        Time::GeneralTime(time) => time.to_date_time(),
    }
}
