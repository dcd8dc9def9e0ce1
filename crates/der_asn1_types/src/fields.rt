//! The traits of lists of fields, for functions over every list and for parts of a long one, and the
//! macros of a struct with names for its fields.
//!
//! A crate that calls a macro has to name the crate that defines it, so the macros of
//! `der_fields` are repeated here.

pub use der_fields::{
    DecodeFields, DuplicateFields, DuplicateFieldsAreEqual, EncodeFields, ExplicitApplicationTag,
    ExplicitPrivateTag, ExplicitTag, FieldsEq, FieldsFirstTag, FieldsOrd, ImplicitApplicationTag,
    ImplicitPrivateTag, ImplicitTag, cmp_headers,
};

/// Makes the struct of the fields of a list, as the body of `of_list`: `from_list!(list => Name {
/// a, default b })` names them in their order, with `default` before a field with a DEFAULT.
#[macro_export]
macro_rules! from_list {
    (@ $name:ident, $at:expr, { $($done:tt)* };) => {
        $name { $($done)* }
    };
    (@ $name:ident, $at:expr, { $($done:tt)* }; default $field:ident $(, $($rest:tt)*)?) => {
        $crate::from_list!(@ $name, $at.rest, { $($done)* $field: $at.first.value, }; $($($rest)*)?)
    };
    (@ $name:ident, $at:expr, { $($done:tt)* }; $field:ident $(, $($rest:tt)*)?) => {
        $crate::from_list!(@ $name, $at.rest, { $($done)* $field: $at.first, }; $($($rest)*)?)
    };
    ($list:expr => $name:ident { $($fields:tt)* }) => {
        $crate::from_list!(@ $name, $list, {}; $($fields)*)
    };
}

/// Makes the list of the fields of a struct, as the body of `to_list`: `to_list!(self => a,
/// default b)`.
#[macro_export]
macro_rules! to_list {
    ($value:expr =>) => {
        $crate::End
    };
    ($value:expr => default $field:ident $(, $($rest:tt)*)?) => {
        $crate::Field::new(
            $crate::WithDefault::new($value.$field),
            $crate::to_list!($value => $($($rest)*)?),
        )
    };
    ($value:expr => $field:ident $(, $($rest:tt)*)?) => {
        $crate::Field::new($value.$field, $crate::to_list!($value => $($($rest)*)?))
    };
}
