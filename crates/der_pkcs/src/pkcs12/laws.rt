//! The laws of PKCS-12: functions with empty bodies, whose contracts state what holds of its types.
//!
//! Made by tools/asn1 from pkcs12.asn1.

pub use crate::pkcs12::aliases::{
    grammar_of_key_bag, grammar_of_pfx_version, grammar_of_pkcs8_shrouded_key_bag,
    grammar_of_pkcs12_pbe_params,
};
pub use crate::pkcs12::authenticated_safe::grammar_of_authenticated_safe;
pub use crate::pkcs12::cert_bag::{grammar_of_cert_bag, octets_of_cert_bag};
pub use crate::pkcs12::content_info::{grammar_of_content_info, octets_of_content_info};
pub use crate::pkcs12::crl_bag::{grammar_of_crl_bag, octets_of_crl_bag};
pub use crate::pkcs12::digest_info::{grammar_of_digest_info, octets_of_digest_info};
pub use crate::pkcs12::mac_data::{grammar_of_mac_data, octets_of_mac_data};
pub use crate::pkcs12::pfx::{grammar_of_pfx, octets_of_pfx};
pub use crate::pkcs12::safe_bag::{grammar_of_safe_bag, octets_of_safe_bag};
pub use crate::pkcs12::safe_contents::grammar_of_safe_contents;
pub use crate::pkcs12::secret_bag::{grammar_of_secret_bag, octets_of_secret_bag};
