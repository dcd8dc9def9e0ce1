//! The values of the extensions of certificates and of lists of revoked ones (RFC 5280 sections 4.2,
//! 5.2 and 5.3), each as a type of its own: `tools/asn1` writes them from `asn1/extension.asn1`.
//!
//! `from_der` reads octets as a whole, `to_der` writes the one encoding, and a field is a call by its
//! name:
//!
//! ```rust
//! let octets = [0x30, 0x06, 0x01, 0x01, 0xff, 0x02, 0x01, 0x03];
//! match BasicConstraints::from_der(rt.alloc(), &octets) {
//!     Ok(constraints) => {
//!         assert!(rt; constraints.ca());
//!         match constraints.to_der(rt.alloc()) {
//!             Ok(written) => assert_eq!(rt; written.as_slice(), octets.as_slice()),
//!             Err(_) => return Err("no memory".into()),
//!         }
//!     }
//!     Err(_) => return Err("refused".into()),
//! }
//! ```
#![tactic(auto)]

pub mod extension;
