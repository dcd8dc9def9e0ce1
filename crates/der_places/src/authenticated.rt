//! Byte ranges of the fields of the types of CmsAuthenticated.
//!
//! Made by tools/asn1 from authenticated.asn1.

mod authenticated_data;

pub use authenticated_data::AuthenticatedDataPlaces;
