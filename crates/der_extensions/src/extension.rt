//! PkixExtensions.
//!
//! Made by tools/asn1 from extension.asn1.

mod access_description;
mod aliases;
mod another_name;
mod authority_info_access_syntax;
mod authority_key_identifier;
mod basic_constraints;
mod certificate_policies;
pub mod constants;
mod crl_distribution_points;
mod crl_reason;
mod distribution_point;
mod distribution_point_name;
mod ext_key_usage_syntax;
mod general_name;
mod general_names;
mod general_subtree;
mod general_subtrees;
mod issuing_distribution_point;
pub mod laws;
mod name_constraints;
mod policy_constraints;
mod policy_information;
mod policy_mapping;
mod policy_mappings;
mod policy_qualifier_info;
mod private_key_usage_period;
mod subject_directory_attributes;
mod subject_info_access_syntax;

pub use access_description::AccessDescription;
pub use aliases::{
    BaseCrlNumber, BaseDistance, CertPolicyId, CertificateIssuer, CpSuri, CrlNumber, FreshestCrl,
    HoldInstructionCode, InhibitAnyPolicy, InvalidityDate, IssuerAltName, KEY_USAGE_CRL_SIGN,
    KEY_USAGE_DATA_ENCIPHERMENT, KEY_USAGE_DECIPHER_ONLY, KEY_USAGE_DIGITAL_SIGNATURE,
    KEY_USAGE_ENCIPHER_ONLY, KEY_USAGE_KEY_AGREEMENT, KEY_USAGE_KEY_CERT_SIGN,
    KEY_USAGE_KEY_ENCIPHERMENT, KEY_USAGE_NON_REPUDIATION, KeyIdentifier, KeyPurposeId, KeyUsage,
    PolicyQualifierId, REASON_FLAGS_AA_COMPROMISE, REASON_FLAGS_AFFILIATION_CHANGED,
    REASON_FLAGS_CA_COMPROMISE, REASON_FLAGS_CERTIFICATE_HOLD, REASON_FLAGS_CESSATION_OF_OPERATION,
    REASON_FLAGS_KEY_COMPROMISE, REASON_FLAGS_PRIVILEGE_WITHDRAWN, REASON_FLAGS_SUPERSEDED,
    REASON_FLAGS_UNUSED, ReasonFlags, SkipCerts, SubjectAltName, SubjectKeyIdentifier,
};
pub use another_name::AnotherName;
pub use authority_info_access_syntax::AuthorityInfoAccessSyntax;
pub use authority_key_identifier::AuthorityKeyIdentifier;
pub use basic_constraints::BasicConstraints;
pub use certificate_policies::CertificatePolicies;
pub use crl_distribution_points::CrlDistributionPoints;
pub use crl_reason::CrlReason;
pub use distribution_point::DistributionPoint;
pub use distribution_point_name::DistributionPointName;
pub use ext_key_usage_syntax::ExtKeyUsageSyntax;
pub use general_name::GeneralName;
pub use general_names::GeneralNames;
pub use general_subtree::GeneralSubtree;
pub use general_subtrees::GeneralSubtrees;
pub use issuing_distribution_point::IssuingDistributionPoint;
pub use name_constraints::NameConstraints;
pub use policy_constraints::PolicyConstraints;
pub use policy_information::PolicyInformation;
pub use policy_mapping::PolicyMapping;
pub use policy_mappings::PolicyMappings;
pub use policy_qualifier_info::PolicyQualifierInfo;
pub use private_key_usage_period::PrivateKeyUsagePeriod;
pub use subject_directory_attributes::SubjectDirectoryAttributes;
pub use subject_info_access_syntax::SubjectInfoAccessSyntax;
