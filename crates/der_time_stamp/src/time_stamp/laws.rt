//! The laws of PKIXTSP: functions with empty bodies, whose contracts state what holds of its types.
//!
//! Made by tools/asn1 from time_stamp.asn1.

pub use crate::time_stamp::accuracy::{grammar_of_accuracy, octets_of_accuracy};
pub use crate::time_stamp::aliases::{
    grammar_of_pki_failure_info, grammar_of_pki_status, grammar_of_time_stamp_req_version,
    grammar_of_tsa_policy_id, grammar_of_tst_info_version,
};
pub use crate::time_stamp::message_imprint::{
    grammar_of_message_imprint, octets_of_message_imprint,
};
pub use crate::time_stamp::pki_free_text::grammar_of_pki_free_text;
pub use crate::time_stamp::pki_status_info::{
    grammar_of_pki_status_info, octets_of_pki_status_info,
};
pub use crate::time_stamp::time_stamp_req::{grammar_of_time_stamp_req, octets_of_time_stamp_req};
pub use crate::time_stamp::time_stamp_resp::{
    grammar_of_time_stamp_resp, octets_of_time_stamp_resp,
};
pub use crate::time_stamp::time_stamp_token::{
    grammar_of_time_stamp_token, octets_of_time_stamp_token,
};
pub use crate::time_stamp::tst_info::{grammar_of_tst_info, octets_of_tst_info};
