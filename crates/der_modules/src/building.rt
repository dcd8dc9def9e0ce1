//! Macros that build the list of the fields of a SEQUENCE, and values in it.

/// Builds the list of these fields: `field_list![a, b]`, or `field_list![a, b; rest]` in front of
/// the fields of a longer list.
#[macro_export]
macro_rules! field_list {
    ($first:expr $(,)?) => {
        $crate::field_list![$first; $crate::End]
    };
    ($first:expr; $after:expr) => {{
        let rest = $after;
        let first = $first;
        $crate::Field { first, rest }
    }};
    ($first:expr, $($others:expr),+ $(; $after:expr)? $(,)?) => {
        $crate::field_list![$first; $crate::field_list![$($others),+ $(; $after)?]]
    };
}

/// Builds a value after an explicit tag: `tagged!(Explicit, value)`.
#[macro_export]
macro_rules! tagged {
    ($tagging:ident, $value:expr) => {
        $tagging { fields: $crate::Field { first: $value, rest: $crate::End } }
    };
}

/// Maps a value if it is present: `if_present!(value in field => value.fields.first)`.
#[macro_export]
macro_rules! if_present {
    ($value:ident in $given:expr => $made:expr) => {
        match $given {
            Some($value) => Some($made),
            None => None,
        }
    };
}
