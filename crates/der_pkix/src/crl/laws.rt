//! The laws of PkixRevocation: functions with empty bodies, whose contracts state what holds of its types.
//!
//! Made by tools/asn1 from crl.asn1.

pub use crate::crl::certificate_list::{grammar_of_certificate_list, octets_of_certificate_list};
pub use crate::crl::revoked_certificate::{
    grammar_of_revoked_certificate, octets_of_revoked_certificate,
};
pub use crate::crl::tbs_cert_list::{grammar_of_tbs_cert_list, octets_of_tbs_cert_list};
