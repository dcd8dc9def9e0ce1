//! Times.

ghost use Rattle.std.specs.Prelude.{◌≡◌, ◌↔◌, ◌≤◌, IsTrue};
ghost use Rattle.der_asn1_types.specs.UnixTime.{unix_seconds};

use der_asn1_types::DateTime;
use der_asn1_types::laws::chronological;

/// Returns whether a time is not before the first second of a validity, and not after its last
/// (RFC 5280 4.1.2.5).
pub fn is_within(time: &DateTime, first: &DateTime, last: &DateTime) -> bool
    ensures { IsTrue result ↔ ((unix_seconds first.now ≤ unix_seconds time.now)
        × (unix_seconds time.now ≤ unix_seconds last.now)) }
{
    chronological(first, time).is_le() && chronological(time, last).is_le()
}
