//! A user's own SEQUENCE, from the list of its fields (X.690 8.9, X.680 25).
//!
//! A list of fields is written `Field<A, Field<B, End>>`, and its SEQUENCE is
//! `FieldSequence<Field<A, Field<B, End>>>`. A field is any value of the layer: `Option<T>` is
//! OPTIONAL, `WithDefault<T, D>` has a DEFAULT, `Explicit<T, 0>` and `Implicit<T, 0>` have a
//! context-specific tag. The laws of all lists are proved once, here: a user's type is an alias
//! and needs no law of its own.
//!
//! ```rust
//! type Limit = FieldSequence<Field<bool, Field<Option<u8>, End>>>;
//! match Limit::from_der(
//!     rt.alloc(),
//!     &[0x30, 0x06, 0x01, 0x01, 0xff, 0x02, 0x01, 0x03],
//! ) {
//!     Ok(limit) => {
//!         assert!(rt; limit.fields.first);
//!         assert_eq!(rt; limit.fields.rest.first, Some(3));
//!     }
//!     Err(_) => return Err("refused".into()),
//! }
//! ```
#![tactic(auto)]

mod coded;
mod copied;
mod default;
mod distinct;
mod end;
mod equal;
mod explicit;
mod field;
mod field_list;
mod field_sequence;
mod fields;
mod implicit;
pub mod laws;
mod marker_tag;
mod named;
mod one_of;
mod ordered;
mod soundness;
mod with_default;

pub use coded::{DecodeFields, EncodeFields};
pub use copied::{DuplicateFields, DuplicateFieldsAreEqual};
pub use default::{DefaultFalse, DefaultNumber, DefaultOf};
pub use distinct::DistinctTags;
pub use end::End;
pub use equal::FieldsEq;
pub use explicit::{Explicit, ExplicitApplication, ExplicitPrivate};
pub use field::Field;
pub use field_list::FieldList;
pub use field_sequence::{FieldSequence, read_sequence, write_sequence};
pub use fields::{Fields1, Fields2, Fields3, Fields4, Fields5, Fields6, Fields7, Fields8};
pub use implicit::{Implicit, ImplicitApplication, ImplicitPrivate};
pub use marker_tag::{
    ExplicitApplicationTag, ExplicitPrivateTag, ExplicitTag, ImplicitApplicationTag,
    ImplicitPrivateTag, ImplicitTag,
};
pub use named::{NamedFields, NamedSequence, read_named_sequence, write_named_sequence};
pub use one_of::{OneOf, cmp_headers};
pub use ordered::{FieldsFirstTag, FieldsOrd};
pub use with_default::WithDefault;
