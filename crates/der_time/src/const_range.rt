//! Ranges of octets.

ghost use Rattle.std.specs.Prelude.{◌↔◌, ◌≤◌, IsTrue};
ghost use Rattle.std.specs.Range.{range_inclusive_start, range_inclusive_end};

use std::ops::RangeInclusive;

/// Returns whether the item is in the range, including both ends.
pub fn const_contains_u8(range: RangeInclusive<u8>, item: u8) -> bool
    ensures { IsTrue result
        ↔ ((range_inclusive_start range ≤ item) × (item ≤ range_inclusive_end range)) }
{
    *range.start() <= item && item <= *range.end()
}
