//! Byte ranges of the fields of the types of PkixRevocation.
//!
//! Made by tools/asn1 from crl.asn1.

mod certificate_list;
mod revoked_certificate;
mod tbs_cert_list;

pub use certificate_list::CertificateListPlaces;
pub use revoked_certificate::RevokedCertificatePlaces;
pub use tbs_cert_list::TbsCertListPlaces;
