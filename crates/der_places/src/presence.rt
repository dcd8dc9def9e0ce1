//! Whether a field that may be absent is present.

ghost use Rattle.std.specs.Prelude.{◌≡◌, option_copied};
ghost use Rattle.der_places.specs.Layout.{is_there};

/// Returns whether a field that is borrowed is present.
pub fn is_there<T>(field: Option<&T>) -> bool
    ensures { result ≡ is_there (option_copied field.entry) }
{
    match field {
        Some(_) => true,
        None => false,
    }
}

/// Returns whether a field that is copied is present.
pub fn is_some<T: Copy>(field: Option<T>) -> bool
    ensures { result ≡ is_there field }
{
    match field {
        Some(_) => true,
        None => false,
    }
}
