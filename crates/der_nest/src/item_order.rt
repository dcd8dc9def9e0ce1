//! The order of the items of a set, as a type (X.690 11.6).
//!
//! The items of a SET OF are in the order of their encodings. A set that names its order,
//! `ItemSet<T, M>`, requires only that `M` defines the order of its items. So the type of the
//! items may have its own `Form`: it may be values of any type, a CHOICE, or a list of fields
//! with such a field. A user's own marker takes seven lines:
//!
//! ```rust
//! pub struct ByName;
//!
//! impl<'a> ItemOrder<GeneralName<'a>> for ByName {
//!     ghost item_encoding = { ⟦<GeneralName<'a> as Form>⟧.encoding };
//! }
//!
//! impl<'a> OrdersByEncoding<GeneralName<'a>> for ByName {
//!     ghost is_encoding = { refl };
//! }
//! ```

ghost use Rattle.std.specs.Prelude.{◌≡◌, ℕ, List, refl};

use der_elem::Form;
use der_opaque::{Any, AnyRef};

/// The encoding that orders the items of a set, named by a type.
pub trait ItemOrder<T> {
    ghost item_encoding: { T → List ℕ };
}

/// An order that is the order of the items' encodings (X.690 11.6).
pub trait OrdersByEncoding<T: Form>: ItemOrder<T> {
    ghost is_encoding: { Self.item_encoding ≡ T.encoding };
}

/// The order of the encodings, for items whose only `Form` is known, such as `u16`.
pub struct ByEncoding;

impl<T: Form> ItemOrder<T> for ByEncoding {
    ghost item_encoding = { T.encoding };
}

impl<T: Form> OrdersByEncoding<T> for ByEncoding {
    ghost is_encoding = { refl };
}

/// The order of values of any type, in `ItemSet<AnyRef, Values>` and `ItemSet<Any, Values>`. It
/// compares whole encodings, so the tag counts first.
pub struct Values;

impl<'a> ItemOrder<AnyRef<'a>> for Values {
    ghost item_encoding = { ⟦<AnyRef<'a> as Form>⟧.encoding };
}

impl<'a> OrdersByEncoding<AnyRef<'a>> for Values {
    ghost is_encoding = { refl };
}

impl ItemOrder<Any> for Values {
    ghost item_encoding = { ⟦<Any as Form>⟧.encoding };
}

impl OrdersByEncoding<Any> for Values {
    ghost is_encoding = { refl };
}
