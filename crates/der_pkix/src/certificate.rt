//! PkixCertificates.
//!
//! Made by tools/asn1 from certificate.asn1.

mod aliases;
mod certificate;
mod extension;
mod extensions;
pub mod laws;
mod subject_public_key_info;
mod tbs_certificate;
mod time;
mod validity;

pub use aliases::{
    AlgorithmIdentifier, CertificateSerialNumber, UniqueIdentifier, VERSION_V1, VERSION_V2,
    VERSION_V3, Version,
};
pub use certificate::Certificate;
pub use extension::Extension;
pub use extensions::Extensions;
pub use subject_public_key_info::SubjectPublicKeyInfo;
pub use tbs_certificate::TbsCertificate;
pub use time::Time;
pub use validity::Validity;
