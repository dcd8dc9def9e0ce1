//! Lists of one to eight fields (X.680 25).
//!
//! `Fields3<A, B, C>` is the list of three fields, and can be used in place of any list: a SEQUENCE of
//! them is `FieldSequence<Fields3<A, B, C>>`. Its octets are those of `Field<A, Field<B, Field<C,
//! End>>>`. It has the bounds of all its fields in one step, and that list a step a field, so a long
//! list is checked faster. A ninth field comes after the eighth: `Fields8<.., Fields2<I, J>>`.
//!
//! `tools/asn1` writes the files of the lists.

mod eight;
mod five;
mod four;
mod one;
mod seven;
mod six;
mod three;
mod two;

pub use eight::Fields8;
pub use five::Fields5;
pub use four::Fields4;
pub use one::Fields1;
pub use seven::Fields7;
pub use six::Fields6;
pub use three::Fields3;
pub use two::Fields2;
