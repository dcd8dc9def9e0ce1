//! Byte ranges of the fields of the types of OCSP-2013-88.
//!
//! Made by tools/asn1 from ocsp.asn1.

mod basic_ocsp_response;
mod cert_id;
mod crl_id;
mod ocsp_request;
mod ocsp_response;
mod preferred_signature_algorithm;
mod request;
mod response_bytes;
mod response_data;
mod revoked_info;
mod service_locator;
mod signature;
mod single_response;
mod tbs_request;

pub use basic_ocsp_response::BasicOcspResponsePlaces;
pub use cert_id::CertIdPlaces;
pub use crl_id::CrlIdPlaces;
pub use ocsp_request::OcspRequestPlaces;
pub use ocsp_response::OcspResponsePlaces;
pub use preferred_signature_algorithm::PreferredSignatureAlgorithmPlaces;
pub use request::RequestPlaces;
pub use response_bytes::ResponseBytesPlaces;
pub use response_data::ResponseDataPlaces;
pub use revoked_info::RevokedInfoPlaces;
pub use service_locator::ServiceLocatorPlaces;
pub use signature::SignaturePlaces;
pub use single_response::SingleResponsePlaces;
pub use tbs_request::TbsRequestPlaces;
