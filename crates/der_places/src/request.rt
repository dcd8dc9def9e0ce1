//! Byte ranges of the fields of the types of PKCS-10.
//!
//! Made by tools/asn1 from request.asn1.

mod certification_request;
mod certification_request_info;

pub use certification_request::CertificationRequestPlaces;
pub use certification_request_info::CertificationRequestInfoPlaces;
