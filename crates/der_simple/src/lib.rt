//! Simple types of X.680 that the crate `der` does not have: NumericString and VisibleString
//! (X.680 41), RELATIVE-OID (X.680 32), and GeneralizedTime with a fraction of a second (X.680
//! 46).
//!
//! ```rust
//! match NumericStringRef::new("12 34".as_bytes()) {
//!     Ok(number) => assert_eq!(rt;
//!         number.to_der(rt.alloc())?.as_slice(),
//!         [0x12, 0x05, 0x31, 0x32, 0x20, 0x33, 0x34].as_slice()
//!     ),
//!     Err(_) => return Err("refused".into()),
//! }
//! ```
#![tactic(auto)]

mod characters;
mod fractional_time;
pub mod laws;
mod relative_oid;
mod string_ref;
mod tags;

pub use fractional_time::FractionalTimeRef;
pub use relative_oid::RelativeOidRef;
pub use string_ref::SimpleStringRef;
pub use tags::{RelativeOidTag, SimpleStringTag};

/// NumericString, borrowed: digits and spaces (X.680 41.2).
pub type NumericStringRef<'a> = SimpleStringRef<'a, 18>;

/// VisibleString (ISO646String), borrowed: the octets 20 to 7E, which are the graphic characters of
/// ISO 646 and space (X.680 41.1).
pub type VisibleStringRef<'a> = SimpleStringRef<'a, 26>;
