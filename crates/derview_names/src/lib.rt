//! The names of the types of `der_asn1_types`, and of an AlgorithmIdentifier of `der_pkix`, in
//! lines.
//!
//! ```rust
//! let octets = [0x30, 0x05, 0x06, 0x03, 0x2b, 0x65, 0x70];
//! match AlgorithmIdentifier::from_der(rt.alloc(), &octets) {
//!     Ok(algorithm) => assert!(rt; algorithm.parameters.is_none()),
//!     Err(_) => return Err("refused".into()),
//! }
//! ```
#![tactic(auto)]

mod names;

pub use der_pkix::AlgorithmIdentifier;
pub use names::TypeNames;
