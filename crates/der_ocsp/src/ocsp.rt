//! OCSP-2013-88.
//!
//! Made by tools/asn1 from ocsp.asn1.

mod acceptable_responses;
mod aliases;
mod basic_ocsp_response;
mod cert_id;
mod cert_status;
mod certificates;
pub mod constants;
mod crl_id;
pub mod laws;
mod ocsp_request;
mod ocsp_response;
mod ocsp_response_status;
mod preferred_signature_algorithm;
mod preferred_signature_algorithms;
mod request;
mod requests;
mod responder_id;
mod response_bytes;
mod response_data;
mod revoked_info;
mod service_locator;
mod signature;
mod single_response;
mod single_responses;
mod tbs_request;

pub use acceptable_responses::AcceptableResponses;
pub use aliases::{
    ArchiveCutoff, ExtendedRevoke, KeyHash, Nonce, UnknownInfo, VERSION_V1, Version,
};
pub use basic_ocsp_response::BasicOcspResponse;
pub use cert_id::CertId;
pub use cert_status::CertStatus;
pub use certificates::Certificates;
pub use crl_id::CrlId;
pub use ocsp_request::OcspRequest;
pub use ocsp_response::OcspResponse;
pub use ocsp_response_status::OcspResponseStatus;
pub use preferred_signature_algorithm::PreferredSignatureAlgorithm;
pub use preferred_signature_algorithms::PreferredSignatureAlgorithms;
pub use request::Request;
pub use requests::Requests;
pub use responder_id::ResponderId;
pub use response_bytes::ResponseBytes;
pub use response_data::ResponseData;
pub use revoked_info::RevokedInfo;
pub use service_locator::ServiceLocator;
pub use signature::Signature;
pub use single_response::SingleResponse;
pub use single_responses::SingleResponses;
pub use tbs_request::TbsRequest;
