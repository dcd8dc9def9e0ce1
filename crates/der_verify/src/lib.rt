//! Helpers for verifying certificates: the octets that a signature covers, an extension by its
//! identifier, and the rules of RFC 5280 beyond the grammar.
#![tactic(auto)]

mod bounds;
mod elements;
mod extensions;
mod names;
mod rfc5280;
mod shown;
mod signed;
mod sizes;
mod time;

pub use bounds::{character_count, may_have};
pub use extensions::find_extension;
pub use names::{names_match, values_match};
pub use rfc5280::{
    CERTIFICATE_RULES, CertificateRule, LIST_RULES, ListRule, algorithms_agree, check_certificate,
    check_list, list_algorithms_agree,
};
pub use signed::{
    first_field, octets_of_certification_request_info, octets_of_tbs_cert_list,
    octets_of_tbs_certificate, octets_of_tbs_response_data,
};
pub use sizes::{size_holds, sizes_hold};
pub use time::{date_time, holds_at, seconds, time_at};
