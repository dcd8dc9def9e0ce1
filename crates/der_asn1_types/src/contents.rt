//! The values of the contents octets of the built-in types, or the errors.

pub use der_elem::{boolean_of, null_of, signed_of, text_of, unsigned_of};
