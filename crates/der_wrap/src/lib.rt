//! Values with a tag of the application, context-specific or private class (X.690 8.14).
//!
//! ```rust
//! match ContextSpecific::<u8>::from_der(rt.alloc(), &[0xa0, 0x03, 0x02, 0x01, 0x02]) {
//!     Ok(version) => {
//!         assert_eq!(rt; version.tag_number.0, 0);
//!         assert_eq!(rt; version.value, 2);
//!     }
//!     Err(_) => return Err("refused".into()),
//! }
//! ```
#![tactic(auto)]

mod class_tag;
mod field;
pub mod laws;
mod tagged_value;
mod tagged_value_ref;

use tagged_value::TaggedValue;
use tagged_value_ref::TaggedValueRef;

/// A value with a context-specific tag.
pub type ContextSpecific<T> = TaggedValue<T, 2>;

/// A value with an application tag.
pub type Application<T> = TaggedValue<T, 1>;

/// A value with a private tag.
pub type Private<T> = TaggedValue<T, 3>;

/// A borrowed value with a context-specific tag, to be written.
pub type ContextSpecificRef<'a, T> = TaggedValueRef<'a, T, 2>;

/// A borrowed value with an application tag, to be written.
pub type ApplicationRef<'a, T> = TaggedValueRef<'a, T, 1>;

/// A borrowed value with a private tag, to be written.
pub type PrivateRef<'a, T> = TaggedValueRef<'a, T, 3>;
