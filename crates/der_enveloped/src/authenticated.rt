//! CmsAuthenticated.
//!
//! Made by tools/asn1 from authenticated.asn1.

mod aliases;
mod authenticated_data;
pub mod constants;
pub mod laws;

pub use aliases::{AuthAttributes, UnauthAttributes};
pub use authenticated_data::AuthenticatedData;
