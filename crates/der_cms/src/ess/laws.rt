//! The laws of ExtendedSecurityServices-2006: functions with empty bodies, whose contracts state what holds of its types.
//!
//! Made by tools/asn1 from ess.asn1.

pub use crate::ess::aliases::grammar_of_hash;
pub use crate::ess::ess_cert_id::{grammar_of_ess_cert_id, octets_of_ess_cert_id};
pub use crate::ess::ess_cert_idv2::{grammar_of_ess_cert_idv2, octets_of_ess_cert_idv2};
pub use crate::ess::issuer_serial::{grammar_of_issuer_serial, octets_of_issuer_serial};
pub use crate::ess::signing_certificate::{
    grammar_of_signing_certificate, octets_of_signing_certificate,
};
pub use crate::ess::signing_certificate_v2::{
    grammar_of_signing_certificate_v2, octets_of_signing_certificate_v2,
};
