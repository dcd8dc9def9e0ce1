//! Equality of values, which is that of their encodings.

ghost use Rattle.std.specs.Prelude.{◌≡◌, ◌↔◌, IsTrue};
ghost use Rattle.der_elem.specs.TaggedLaws.{encoding_eq_tagged};

use crate::fixed_tag::OneTag;
use crate::form::{Form, FormValue};

/// A type whose comparable values are equal exactly if their encodings are.
pub trait EncodingEq: Form + PartialEq {
    ghost encoding_eq: { (v w : Self) → Self.comparable v w
        → (IsTrue (Self.eq v w) ↔ (Self.encoding v ≡ Self.encoding w)) };
}

/// A type whose comparable values are equal exactly if their contents octets are.
pub trait ContentsEq: FormValue + PartialEq {
    ghost contents_eq: { (v w : Self) → Self.value.comparable v w
        → (IsTrue (Self.eq v w) ↔ (Self.value.contents v ≡ Self.value.contents w)) };
}

impl<T: ContentsEq + OneTag> EncodingEq for T {
    ghost encoding_eq = { encoding_eq_tagged T.Marker.TAG T.value.contents T.value.comparable T.eq
        T.contents_eq };
}
