//! The laws of PkixExtensions: functions with empty bodies, whose contracts state what holds of its types.
//!
//! Made by tools/asn1 from extension.asn1.

pub use crate::extension::access_description::{
    grammar_of_access_description, octets_of_access_description,
};
pub use crate::extension::aliases::{
    grammar_of_base_crl_number, grammar_of_base_distance, grammar_of_cert_policy_id,
    grammar_of_certificate_issuer, grammar_of_cp_suri, grammar_of_crl_number,
    grammar_of_freshest_crl, grammar_of_hold_instruction_code, grammar_of_inhibit_any_policy,
    grammar_of_invalidity_date, grammar_of_issuer_alt_name, grammar_of_key_identifier,
    grammar_of_key_purpose_id, grammar_of_key_usage, grammar_of_policy_qualifier_id,
    grammar_of_reason_flags, grammar_of_skip_certs, grammar_of_subject_alt_name,
    grammar_of_subject_key_identifier,
};
pub use crate::extension::another_name::{grammar_of_another_name, octets_of_another_name};
pub use crate::extension::authority_info_access_syntax::grammar_of_authority_info_access_syntax;
pub use crate::extension::authority_key_identifier::{
    grammar_of_authority_key_identifier, octets_of_authority_key_identifier,
};
pub use crate::extension::basic_constraints::{
    grammar_of_basic_constraints, octets_of_basic_constraints,
};
pub use crate::extension::certificate_policies::grammar_of_certificate_policies;
pub use crate::extension::crl_distribution_points::grammar_of_crl_distribution_points;
pub use crate::extension::crl_reason::grammar_of_crl_reason;
pub use crate::extension::distribution_point::{
    grammar_of_distribution_point, octets_of_distribution_point,
};
pub use crate::extension::distribution_point_name::grammar_of_distribution_point_name;
pub use crate::extension::ext_key_usage_syntax::grammar_of_ext_key_usage_syntax;
pub use crate::extension::general_name::grammar_of_general_name;
pub use crate::extension::general_names::grammar_of_general_names;
pub use crate::extension::general_subtree::{
    grammar_of_general_subtree, octets_of_general_subtree,
};
pub use crate::extension::general_subtrees::grammar_of_general_subtrees;
pub use crate::extension::issuing_distribution_point::{
    grammar_of_issuing_distribution_point, octets_of_issuing_distribution_point,
};
pub use crate::extension::name_constraints::{
    grammar_of_name_constraints, octets_of_name_constraints,
};
pub use crate::extension::policy_constraints::{
    grammar_of_policy_constraints, octets_of_policy_constraints,
};
pub use crate::extension::policy_information::{
    grammar_of_policy_information, octets_of_policy_information,
};
pub use crate::extension::policy_mapping::{grammar_of_policy_mapping, octets_of_policy_mapping};
pub use crate::extension::policy_mappings::grammar_of_policy_mappings;
pub use crate::extension::policy_qualifier_info::{
    grammar_of_policy_qualifier_info, octets_of_policy_qualifier_info,
};
pub use crate::extension::private_key_usage_period::{
    grammar_of_private_key_usage_period, octets_of_private_key_usage_period,
};
pub use crate::extension::subject_directory_attributes::grammar_of_subject_directory_attributes;
pub use crate::extension::subject_info_access_syntax::grammar_of_subject_info_access_syntax;
