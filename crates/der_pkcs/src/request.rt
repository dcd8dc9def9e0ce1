//! PKCS-10.
//!
//! Made by tools/asn1 from request.asn1.

mod aliases;
mod certification_request;
mod certification_request_info;
pub mod constants;
pub mod laws;

pub use aliases::{
    CERTIFICATION_REQUEST_INFO_VERSION_V1, CertificationRequestInfoVersion, ChallengePassword,
    ExtensionRequest,
};
pub use certification_request::CertificationRequest;
pub use certification_request_info::CertificationRequestInfo;
