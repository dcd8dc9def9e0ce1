//! The laws of PKCS-10: functions with empty bodies, whose contracts state what holds of its types.
//!
//! Made by tools/asn1 from request.asn1.

pub use crate::request::aliases::{
    grammar_of_certification_request_info_version, grammar_of_challenge_password,
    grammar_of_extension_request,
};
pub use crate::request::certification_request::{
    grammar_of_certification_request, octets_of_certification_request,
};
pub use crate::request::certification_request_info::{
    grammar_of_certification_request_info, octets_of_certification_request_info,
};
