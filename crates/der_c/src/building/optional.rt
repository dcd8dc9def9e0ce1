//! Fields that may be absent.

ghost use Rattle.std.specs.Prelude.{◌≡◌, option_copied, option_map};
ghost use Rattle.der_places.specs.Layout.{explicit, implicit};

use der_fields::{Explicit, Implicit};

/// Returns the value after an explicit tag, if it is present.
pub(super) fn behind_explicit<T, const NUMBER: u32>(
    tagged: &Option<Explicit<T, NUMBER>>,
) -> Option<&T>
    ensures { option_map explicit (option_copied result) ≡ tagged.now }
{
    match tagged {
        Some(tagged) => Some(&tagged.fields.first),
        None => None,
    }
}

/// Returns the value after an implicit tag, if it is present.
pub(super) fn behind_implicit<T: Copy, const NUMBER: u32>(
    tagged: &Option<Implicit<T, NUMBER>>,
) -> Option<T>
    ensures { option_map implicit result ≡ tagged.now }
{
    match tagged {
        Some(tagged) => Some(tagged.value),
        None => None,
    }
}

/// Returns the value, if it is present.
pub(super) fn present<T>(value: &Option<T>) -> Option<&T>
    ensures { option_copied result ≡ value.now }
{
    match value {
        Some(value) => Some(value),
        None => None,
    }
}
