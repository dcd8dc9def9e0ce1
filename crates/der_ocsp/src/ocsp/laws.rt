//! The laws of OCSP-2013-88: functions with empty bodies, whose contracts state what holds of its types.
//!
//! Made by tools/asn1 from ocsp.asn1.

pub use crate::ocsp::acceptable_responses::grammar_of_acceptable_responses;
pub use crate::ocsp::aliases::{
    grammar_of_archive_cutoff, grammar_of_extended_revoke, grammar_of_key_hash, grammar_of_nonce,
    grammar_of_unknown_info, grammar_of_version,
};
pub use crate::ocsp::basic_ocsp_response::{
    grammar_of_basic_ocsp_response, octets_of_basic_ocsp_response,
};
pub use crate::ocsp::cert_id::{grammar_of_cert_id, octets_of_cert_id};
pub use crate::ocsp::cert_status::grammar_of_cert_status;
pub use crate::ocsp::certificates::grammar_of_certificates;
pub use crate::ocsp::crl_id::{grammar_of_crl_id, octets_of_crl_id};
pub use crate::ocsp::ocsp_request::{grammar_of_ocsp_request, octets_of_ocsp_request};
pub use crate::ocsp::ocsp_response::{grammar_of_ocsp_response, octets_of_ocsp_response};
pub use crate::ocsp::ocsp_response_status::grammar_of_ocsp_response_status;
pub use crate::ocsp::preferred_signature_algorithm::{
    grammar_of_preferred_signature_algorithm, octets_of_preferred_signature_algorithm,
};
pub use crate::ocsp::preferred_signature_algorithms::grammar_of_preferred_signature_algorithms;
pub use crate::ocsp::request::{grammar_of_request, octets_of_request};
pub use crate::ocsp::requests::grammar_of_requests;
pub use crate::ocsp::responder_id::grammar_of_responder_id;
pub use crate::ocsp::response_bytes::{grammar_of_response_bytes, octets_of_response_bytes};
pub use crate::ocsp::response_data::{grammar_of_response_data, octets_of_response_data};
pub use crate::ocsp::revoked_info::{grammar_of_revoked_info, octets_of_revoked_info};
pub use crate::ocsp::service_locator::{grammar_of_service_locator, octets_of_service_locator};
pub use crate::ocsp::signature::{grammar_of_signature, octets_of_signature};
pub use crate::ocsp::single_response::{grammar_of_single_response, octets_of_single_response};
pub use crate::ocsp::single_responses::grammar_of_single_responses;
pub use crate::ocsp::tbs_request::{grammar_of_tbs_request, octets_of_tbs_request};
