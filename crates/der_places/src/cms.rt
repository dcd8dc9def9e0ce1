//! Byte ranges of the fields of the types of CmsSigned.
//!
//! Made by tools/asn1 from cms.asn1.

mod content_info;
mod digested_data;
mod encapsulated_content_info;
mod encrypted_content_info;
mod encrypted_data;
mod issuer_and_serial_number;
mod signed_data;
mod signer_info;

pub use content_info::ContentInfoPlaces;
pub use digested_data::DigestedDataPlaces;
pub use encapsulated_content_info::EncapsulatedContentInfoPlaces;
pub use encrypted_content_info::EncryptedContentInfoPlaces;
pub use encrypted_data::EncryptedDataPlaces;
pub use issuer_and_serial_number::IssuerAndSerialNumberPlaces;
pub use signed_data::SignedDataPlaces;
pub use signer_info::SignerInfoPlaces;
