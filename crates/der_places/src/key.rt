//! Byte ranges of the fields of the types of PkixKeys.
//!
//! Made by tools/asn1 from key.asn1.

mod curve;
mod ec_private_key;
mod field_id;
mod one_asymmetric_key;
mod other_prime_info;
mod rsa_private_key;
mod rsa_public_key;
mod specified_ec_domain;

pub use curve::CurvePlaces;
pub use ec_private_key::EcPrivateKeyPlaces;
pub use field_id::FieldIdPlaces;
pub use one_asymmetric_key::OneAsymmetricKeyPlaces;
pub use other_prime_info::OtherPrimeInfoPlaces;
pub use rsa_private_key::RsaPrivateKeyPlaces;
pub use rsa_public_key::RsaPublicKeyPlaces;
pub use specified_ec_domain::SpecifiedEcDomainPlaces;
