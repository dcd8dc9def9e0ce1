//! Byte ranges of the fields of the types of PkixCertificates.
//!
//! Made by tools/asn1 from certificate.asn1.

mod certificate;
mod extension;
mod subject_public_key_info;
mod tbs_certificate;
mod validity;

pub use certificate::CertificatePlaces;
pub use extension::ExtensionPlaces;
pub use subject_public_key_info::SubjectPublicKeyInfoPlaces;
pub use tbs_certificate::TbsCertificatePlaces;
pub use validity::ValidityPlaces;
