//! The laws of CmsSigned: functions with empty bodies, whose contracts state what holds of its types.
//!
//! Made by tools/asn1 from cms.asn1.

pub use crate::cms::aliases::{
    grammar_of_cms_version, grammar_of_content_type, grammar_of_countersignature,
    grammar_of_message_digest, grammar_of_other_certificate_format,
    grammar_of_other_revocation_info_format, grammar_of_signing_time,
    grammar_of_unprotected_attributes,
};
pub use crate::cms::certificate_choices::grammar_of_certificate_choices;
pub use crate::cms::certificate_set::grammar_of_certificate_set;
pub use crate::cms::content_info::{grammar_of_content_info, octets_of_content_info};
pub use crate::cms::digested_data::{grammar_of_digested_data, octets_of_digested_data};
pub use crate::cms::encapsulated_content_info::{
    grammar_of_encapsulated_content_info, octets_of_encapsulated_content_info,
};
pub use crate::cms::encrypted_content_info::{
    grammar_of_encrypted_content_info, octets_of_encrypted_content_info,
};
pub use crate::cms::encrypted_data::{grammar_of_encrypted_data, octets_of_encrypted_data};
pub use crate::cms::issuer_and_serial_number::{
    grammar_of_issuer_and_serial_number, octets_of_issuer_and_serial_number,
};
pub use crate::cms::revocation_info_choice::grammar_of_revocation_info_choice;
pub use crate::cms::revocation_info_choices::grammar_of_revocation_info_choices;
pub use crate::cms::signed_attributes::grammar_of_signed_attributes;
pub use crate::cms::signed_data::{grammar_of_signed_data, octets_of_signed_data};
pub use crate::cms::signer_identifier::grammar_of_signer_identifier;
pub use crate::cms::signer_info::{grammar_of_signer_info, octets_of_signer_info};
pub use crate::cms::unsigned_attributes::grammar_of_unsigned_attributes;
