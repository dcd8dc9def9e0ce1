//! Values whose contents octets are kept as they are: any value, NULL, OCTET STRING and OBJECT
//! IDENTIFIER.
//!
//! ```rust
//! match OctetStringRef::from_der(rt.alloc(), &[0x04, 0x02, 0x01, 0x02]) {
//!     Ok(string) => assert_eq!(rt; string.as_bytes(), [0x01, 0x02].as_slice()),
//!     Err(_) => return Err("refused".into()),
//! }
//! ```
#![tactic(auto)]

mod any;
mod any_ref;
mod builtin;
pub mod laws;
mod null;
mod object_identifier;
mod object_identifier_ref;
mod octet_string;
mod octet_string_ref;

pub use any::Any;
pub use any_ref::AnyRef;
pub use null::Null;
pub use object_identifier::ObjectIdentifier;
pub use object_identifier_ref::ObjectIdentifierRef;
pub use octet_string::OctetString;
pub use octet_string_ref::OctetStringRef;
