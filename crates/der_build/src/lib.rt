//! Parts of certificates and requests: names from texts, extensions from their values, and public
//! keys from their octets.
//!
//! A value that is built borrows the octets that it is built from, as all values of `der_pkix`
//! do: the caller keeps them as long as the value. A name is a list of parts that are written
//! first, so it is returned as a `Vec<u8>` that the caller owns, and the caller reads the name
//! from it.
//!
//! ```rust
//! let octets = name(alloc, attributes)?;
//! let subject = Name::from_der(alloc, octets.as_slice())?;
//! ```
#![tactic(auto)]

mod attributes;
mod extensions;
mod keys;
mod names;
mod text_rules;

pub use attributes::{TextAttribute, attribute};
pub use der_verify::{character_count, may_have};
pub use extensions::extension;
pub use keys::{ed25519_key, p256_key, rsa_key, rsa_public_key};
pub use names::name;
