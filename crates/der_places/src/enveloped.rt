//! Byte ranges of the fields of the types of CmsEnveloped.
//!
//! Made by tools/asn1 from enveloped.asn1.

mod enveloped_data;
mod kek_recipient_info;
mod key_agree_recipient_info;
mod key_trans_recipient_info;
mod originator_info;
mod password_recipient_info;
mod recipient_encrypted_key;
mod recipient_key_identifier;

pub use enveloped_data::EnvelopedDataPlaces;
pub use kek_recipient_info::KekRecipientInfoPlaces;
pub use key_agree_recipient_info::KeyAgreeRecipientInfoPlaces;
pub use key_trans_recipient_info::KeyTransRecipientInfoPlaces;
pub use originator_info::OriginatorInfoPlaces;
pub use password_recipient_info::PasswordRecipientInfoPlaces;
pub use recipient_encrypted_key::RecipientEncryptedKeyPlaces;
pub use recipient_key_identifier::RecipientKeyIdentifierPlaces;
