//! Byte ranges of the fields of the types of ExtendedSecurityServices-2006.
//!
//! Made by tools/asn1 from ess.asn1.

mod ess_cert_id;
mod ess_cert_idv2;
mod issuer_serial;
mod signing_certificate;
mod signing_certificate_v2;

pub use ess_cert_id::EssCertIdPlaces;
pub use ess_cert_idv2::EssCertIdv2Places;
pub use issuer_serial::IssuerSerialPlaces;
pub use signing_certificate::SigningCertificatePlaces;
pub use signing_certificate_v2::SigningCertificateV2Places;
