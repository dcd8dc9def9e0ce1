//! Whether a certificate is valid, or a list of revoked certificates is current, at a moment, as
//! text.

ghost use Rattle.std.specs.Prelude.{◌≡◌, ◌↔◌, IsTrue};
ghost use Rattle.der_verify.specs.Time.{is_valid_at, seconds_of};
ghost use Rattle.certview_text.specs.declared.moments.Standing.TheVariants.{Within};
ghost use Rattle.certview_text.specs.Moments.{is_current_at};

use certview_parts::field_name::FieldName;
use certview_parts::place::Place;
use certview_parts::printer::Printer;
use certview_parts::times::push_date_time;
use der_asn1_types::DateTime;
use der_pkix::certificate::{Time, Validity};
use der_verify::{holds_at, seconds};
use std::alloc::AllocError;

/// The position of a moment in a period.
#[derive(Clone, Copy, Debug, PartialEq, Eq)]
enum Standing {
    /// Before the first second.
    Before,
    /// From the first second to the last.
    Within,
    /// After the last second.
    After,
}

/// Adds a field that says whether a certificate is valid at the moment in question.
pub fn push_validity_at(
    printer: &mut Printer<'_>,
    place: &Place,
    validity: Validity,
) -> Result<(), AllocError> {
    let Some(moment) = printer.page.asked.moment else {
        return Ok(());
    };
    let words = match certificate_standing(validity, seconds_at(&moment)) {
        Standing::Before => "not valid yet",
        Standing::Within => "valid",
        Standing::After => "no longer valid",
    };
    push_at(printer, place, &moment, words, words == "valid")
}

/// Adds a field that says whether a list is current at the moment in question.
pub fn push_currency_at(
    printer: &mut Printer<'_>,
    place: &Place,
    first: Time,
    last: Option<Time>,
) -> Result<(), AllocError> {
    let Some(moment) = printer.page.asked.moment else {
        return Ok(());
    };
    let words = match list_standing(first, last, seconds_at(&moment)) {
        Standing::Before => "not current yet",
        Standing::Within => "current",
        Standing::After => "no longer current",
    };
    push_at(printer, place, &moment, words, words == "current")
}

/// Returns the seconds since 1970-01-01T00:00:00Z.
fn seconds_at(moment: &DateTime) -> u64 {
    moment.unix_duration().as_secs()
}

fn push_at(
    printer: &mut Printer<'_>,
    place: &Place,
    moment: &DateTime,
    words: &str,
    holds: bool,
) -> Result<(), AllocError> {
    printer.begin(place, FieldName::At)?;
    push_date_time(printer.page, moment)?;
    printer.push_str(", ")?;
    printer.push_str(words)?;
    if !holds {
        printer.page.has_findings = true;
    }
    printer.push('\n')
}

/// Compares a moment, in seconds since 1970-01-01T00:00:00Z, with a validity.
fn certificate_standing(validity: Validity, moment: u64) -> Standing
    ensures { (result ≡ Within) ↔ IsTrue (is_valid_at validity moment) }
{
    if holds_at(validity, moment) {
        Standing::Within
    } else if moment < seconds(validity.not_before()) {
        Standing::Before
    } else {
        Standing::After
    }
}

/// Compares a moment with the times of a list. A list without the time of the next one stays
/// current.
fn list_standing(first: Time, last: Option<Time>, moment: u64) -> Standing
    ensures { (result ≡ Within) ↔ IsTrue (is_current_at first last moment) }
{
    if moment < seconds(first) {
        return Standing::Before;
    }
    match last {
        Some(last) if seconds(last) < moment => Standing::After,
        _ => Standing::Within,
    }
}
