//! Byte ranges of the fields of the types of PkixExtensions.
//!
//! Made by tools/asn1 from extension.asn1.

mod access_description;
mod another_name;
mod authority_key_identifier;
mod basic_constraints;
mod distribution_point;
mod general_subtree;
mod issuing_distribution_point;
mod name_constraints;
mod policy_constraints;
mod policy_information;
mod policy_mapping;
mod policy_qualifier_info;
mod private_key_usage_period;

pub use access_description::AccessDescriptionPlaces;
pub use another_name::AnotherNamePlaces;
pub use authority_key_identifier::AuthorityKeyIdentifierPlaces;
pub use basic_constraints::BasicConstraintsPlaces;
pub use distribution_point::DistributionPointPlaces;
pub use general_subtree::GeneralSubtreePlaces;
pub use issuing_distribution_point::IssuingDistributionPointPlaces;
pub use name_constraints::NameConstraintsPlaces;
pub use policy_constraints::PolicyConstraintsPlaces;
pub use policy_information::PolicyInformationPlaces;
pub use policy_mapping::PolicyMappingPlaces;
pub use policy_qualifier_info::PolicyQualifierInfoPlaces;
pub use private_key_usage_period::PrivateKeyUsagePeriodPlaces;
