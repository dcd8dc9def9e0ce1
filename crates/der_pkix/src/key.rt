//! PkixKeys.
//!
//! Made by tools/asn1 from key.asn1.

mod aliases;
mod attributes;
mod curve;
mod ec_parameters;
mod ec_private_key;
mod field_id;
pub mod laws;
mod one_asymmetric_key;
mod other_prime_info;
mod other_prime_infos;
mod rsa_private_key;
mod rsa_public_key;
mod specified_ec_domain;

pub use aliases::{
    EC_PRIVATE_KEY_VERSION_EC_PRIVKEY_VER1, EcPrivateKeyVersion, ONE_ASYMMETRIC_KEY_VERSION_V1,
    ONE_ASYMMETRIC_KEY_VERSION_V2, OneAsymmetricKeyVersion, PrivateKeyInfo,
    RSA_PRIVATE_KEY_VERSION_MULTI, RSA_PRIVATE_KEY_VERSION_TWO_PRIME, RsaPrivateKeyVersion,
    SPECIFIED_EC_DOMAIN_VERSION_ECDP_VER1, SPECIFIED_EC_DOMAIN_VERSION_ECDP_VER2,
    SPECIFIED_EC_DOMAIN_VERSION_ECDP_VER3, SpecifiedEcDomainVersion,
};
pub use attributes::Attributes;
pub use curve::Curve;
pub use ec_parameters::EcParameters;
pub use ec_private_key::EcPrivateKey;
pub use field_id::FieldId;
pub use one_asymmetric_key::OneAsymmetricKey;
pub use other_prime_info::OtherPrimeInfo;
pub use other_prime_infos::OtherPrimeInfos;
pub use rsa_private_key::RsaPrivateKey;
pub use rsa_public_key::RsaPublicKey;
pub use specified_ec_domain::SpecifiedEcDomain;
