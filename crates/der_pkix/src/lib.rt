//! Certificates, lists of revoked certificates and the values of their extensions (RFC 5280), and
//! keys (RFC 5958, RFC 8017, RFC 5915), each as a type of its own: `tools/asn1` writes them from the
//! modules in `asn1/`.
//!
//! `from_der` reads octets as a whole, `to_der` writes the one encoding, and a field is a call by its
//! name:
//!
//! ```rust
//! let octets = [
//!     0x30, 0x0a, 0x30, 0x05, 0x06, 0x03, 0x2b, 0x65, 0x70, 0x03, 0x01, 0x00,
//! ];
//! match SubjectPublicKeyInfo::from_der(rt.alloc(), &octets) {
//!     Ok(key) => {
//!         assert!(rt; key.algorithm().parameters.is_none());
//!         match key.to_der(rt.alloc()) {
//!             Ok(written) => assert_eq!(rt; written.as_slice(), octets.as_slice()),
//!             Err(_) => return Err("no memory".into()),
//!         }
//!     }
//!     Err(_) => return Err("refused".into()),
//! }
//! ```
#![tactic(auto)]

mod algorithm_identifier;
pub mod certificate;
pub mod crl;
pub mod key;
pub mod name;

pub use algorithm_identifier::AlgorithmIdentifier;
