//! The laws of PkixCertificates: functions with empty bodies, whose contracts state what holds of its types.
//!
//! Made by tools/asn1 from certificate.asn1.

pub use crate::certificate::aliases::{
    grammar_of_algorithm_identifier, grammar_of_certificate_serial_number,
    grammar_of_unique_identifier, grammar_of_version,
};
pub use crate::certificate::certificate::{grammar_of_certificate, octets_of_certificate};
pub use crate::certificate::extension::{grammar_of_extension, octets_of_extension};
pub use crate::certificate::extensions::grammar_of_extensions;
pub use crate::certificate::subject_public_key_info::{
    grammar_of_subject_public_key_info, octets_of_subject_public_key_info,
};
pub use crate::certificate::tbs_certificate::{
    grammar_of_tbs_certificate, octets_of_tbs_certificate,
};
pub use crate::certificate::time::grammar_of_time;
pub use crate::certificate::validity::{grammar_of_validity, octets_of_validity};
