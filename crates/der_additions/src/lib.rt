//! Elements after the fields of a SEQUENCE that a module does not have: extension additions
//! (X.680 7, 25), kept as they came.
//!
//! ```rust
//! type Limit<'a> = FieldSequence<Fields1<u8, Additions<'a>>>;
//! match Limit::from_der(
//!     rt.alloc(),
//!     &[0x30, 0x06, 0x02, 0x01, 0x05, 0x81, 0x01, 0xff],
//! ) {
//!     Ok(limit) => {
//!         assert_eq!(rt; *limit.fields.first(), 5);
//!         assert_eq!(rt; limit.fields.rest().as_bytes(), [0x81, 0x01, 0xff].as_slice());
//!     }
//!     Err(_) => return Err("refused".into()),
//! }
//! ```
#![tactic(auto)]

mod additions;
mod fields;
mod first_tag;

pub use additions::Additions;
