//! Six numbers that may be a time.

ghost use Rattle.std.specs.Prelude.{◌≡◌, MatchOption, false};
ghost use Rattle.der_time.specs.Times.{is_time};

use crate::const_range::const_contains_u8;
use crate::date_time::DateTime;
use jiff_core::civil;

/// A year, a month, a day of the month, and a time of day. The numbers may be no valid time.
#[derive(Clone, Copy)]
pub struct Fields {
    pub year: u16,
    pub month: u8,
    pub day: u8,
    pub hour: u8,
    pub minutes: u8,
    pub seconds: u8,
}

impl Fields {
    ghost use Rattle.der_time.specs.DateTime.{fields_of};

    /// Returns the time with these numbers if it is valid, from 1970 to 9999 and with no leap
    /// second.
    #[tactic(auto, unfolding(crate::specs::Times::is_time))]
    pub fn to_date_time(self) -> Option<DateTime>
        ensures { MatchOption result (is_time self ≡ false) (λ t. fields_of t ≡ self) }
    {
        if self.year < 1970 || self.year > 9999 || !const_contains_u8(1..=12, self.month) {
            return None;
        }
        let last = civil::days_in_month(self.year as i16, self.month);
        if !const_contains_u8(1..=last, self.day) {
            return None;
        }
        if !const_contains_u8(0..=23, self.hour)
            || !const_contains_u8(0..=59, self.minutes)
            || !const_contains_u8(0..=59, self.seconds)
        {
            return None;
        }
        Some(DateTime {
            year: self.year,
            month: self.month,
            day: self.day,
            hour: self.hour,
            minutes: self.minutes,
            seconds: self.seconds,
        })
    }
}
