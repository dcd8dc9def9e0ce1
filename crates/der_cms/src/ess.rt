//! ExtendedSecurityServices-2006.
//!
//! Made by tools/asn1 from ess.asn1.

mod aliases;
pub mod constants;
mod ess_cert_id;
mod ess_cert_idv2;
mod issuer_serial;
pub mod laws;
mod signing_certificate;
mod signing_certificate_v2;

pub use aliases::Hash;
pub use ess_cert_id::EssCertId;
pub use ess_cert_idv2::EssCertIdv2;
pub use issuer_serial::IssuerSerial;
pub use signing_certificate::SigningCertificate;
pub use signing_certificate_v2::SigningCertificateV2;
