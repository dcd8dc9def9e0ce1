//! The laws of PkixAlgorithms: functions with empty bodies, whose contracts state what holds of its types.
//!
//! Made by tools/asn1 from algorithm.asn1.

pub use crate::algorithm::aliases::{
    grammar_of_dh_public_key, grammar_of_dsa_public_key, grammar_of_dss_sig_value,
    grammar_of_signed_certificate_timestamp_list,
};
pub use crate::algorithm::dh_parameter::{grammar_of_dh_parameter, octets_of_dh_parameter};
pub use crate::algorithm::domain_parameters::{
    grammar_of_domain_parameters, octets_of_domain_parameters,
};
pub use crate::algorithm::dss_parms::{grammar_of_dss_parms, octets_of_dss_parms};
pub use crate::algorithm::ecdsa_sig_value::{
    grammar_of_ecdsa_sig_value, octets_of_ecdsa_sig_value,
};
pub use crate::algorithm::rsaes_oaep_params::{
    grammar_of_rsaes_oaep_params, octets_of_rsaes_oaep_params,
};
pub use crate::algorithm::rsassa_pss_params::{
    grammar_of_rsassa_pss_params, octets_of_rsassa_pss_params,
};
pub use crate::algorithm::validation_parms::{
    grammar_of_validation_parms, octets_of_validation_parms,
};
