//! PkixRevocation.
//!
//! Made by tools/asn1 from crl.asn1.

mod certificate_list;
pub mod laws;
mod revoked_certificate;
mod tbs_cert_list;

pub use certificate_list::CertificateList;
pub use revoked_certificate::RevokedCertificate;
pub use tbs_cert_list::TbsCertList;
