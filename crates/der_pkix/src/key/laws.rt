//! The laws of PkixKeys: functions with empty bodies, whose contracts state what holds of its types.
//!
//! Made by tools/asn1 from key.asn1.

pub use crate::key::aliases::{
    grammar_of_ec_private_key_version, grammar_of_one_asymmetric_key_version,
    grammar_of_private_key_info, grammar_of_rsa_private_key_version,
    grammar_of_specified_ec_domain_version,
};
pub use crate::key::attributes::grammar_of_attributes;
pub use crate::key::curve::{grammar_of_curve, octets_of_curve};
pub use crate::key::ec_parameters::grammar_of_ec_parameters;
pub use crate::key::ec_private_key::{grammar_of_ec_private_key, octets_of_ec_private_key};
pub use crate::key::field_id::{grammar_of_field_id, octets_of_field_id};
pub use crate::key::one_asymmetric_key::{
    grammar_of_one_asymmetric_key, octets_of_one_asymmetric_key,
};
pub use crate::key::other_prime_info::{grammar_of_other_prime_info, octets_of_other_prime_info};
pub use crate::key::other_prime_infos::grammar_of_other_prime_infos;
pub use crate::key::rsa_private_key::{grammar_of_rsa_private_key, octets_of_rsa_private_key};
pub use crate::key::rsa_public_key::{grammar_of_rsa_public_key, octets_of_rsa_public_key};
pub use crate::key::specified_ec_domain::{
    grammar_of_specified_ec_domain, octets_of_specified_ec_domain,
};
