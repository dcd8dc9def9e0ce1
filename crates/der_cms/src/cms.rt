//! CmsSigned.
//!
//! Made by tools/asn1 from cms.asn1.

mod aliases;
mod certificate_choices;
mod certificate_set;
pub mod constants;
mod content_info;
mod digested_data;
mod encapsulated_content_info;
mod encrypted_content_info;
mod encrypted_data;
mod issuer_and_serial_number;
pub mod laws;
mod revocation_info_choice;
mod revocation_info_choices;
mod signed_attributes;
mod signed_data;
mod signer_identifier;
mod signer_info;
mod unsigned_attributes;

pub use aliases::{
    CMS_VERSION_V0, CMS_VERSION_V1, CMS_VERSION_V2, CMS_VERSION_V3, CMS_VERSION_V4, CMS_VERSION_V5,
    CmsVersion, ContentType, Countersignature, MessageDigest, OtherCertificateFormat,
    OtherRevocationInfoFormat, SigningTime, UnprotectedAttributes,
};
pub use certificate_choices::CertificateChoices;
pub use certificate_set::CertificateSet;
pub use content_info::ContentInfo;
pub use digested_data::DigestedData;
pub use encapsulated_content_info::EncapsulatedContentInfo;
pub use encrypted_content_info::EncryptedContentInfo;
pub use encrypted_data::EncryptedData;
pub use issuer_and_serial_number::IssuerAndSerialNumber;
pub use revocation_info_choice::RevocationInfoChoice;
pub use revocation_info_choices::RevocationInfoChoices;
pub use signed_attributes::SignedAttributes;
pub use signed_data::SignedData;
pub use signer_identifier::SignerIdentifier;
pub use signer_info::SignerInfo;
pub use unsigned_attributes::UnsignedAttributes;
