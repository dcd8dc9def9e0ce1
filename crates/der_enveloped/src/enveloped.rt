//! CmsEnveloped.
//!
//! Made by tools/asn1 from enveloped.asn1.

mod aliases;
pub mod constants;
mod enveloped_data;
mod kek_recipient_info;
mod key_agree_recipient_identifier;
mod key_agree_recipient_info;
mod key_trans_recipient_info;
pub mod laws;
mod originator_identifier_or_key;
mod originator_info;
mod password_recipient_info;
mod recipient_encrypted_key;
mod recipient_encrypted_keys;
mod recipient_info;
mod recipient_info_first;
mod recipient_info_other;
mod recipient_infos;
mod recipient_key_identifier;

pub use aliases::{
    KekIdentifier, OriginatorPublicKey, OtherKeyAttribute, OtherRecipientInfo, RecipientIdentifier,
    UserKeyingMaterial,
};
pub use enveloped_data::EnvelopedData;
pub use kek_recipient_info::KekRecipientInfo;
pub use key_agree_recipient_identifier::KeyAgreeRecipientIdentifier;
pub use key_agree_recipient_info::KeyAgreeRecipientInfo;
pub use key_trans_recipient_info::KeyTransRecipientInfo;
pub use originator_identifier_or_key::OriginatorIdentifierOrKey;
pub use originator_info::OriginatorInfo;
pub use password_recipient_info::PasswordRecipientInfo;
pub use recipient_encrypted_key::RecipientEncryptedKey;
pub use recipient_encrypted_keys::RecipientEncryptedKeys;
pub use recipient_info::RecipientInfo;
pub use recipient_info_first::RecipientInfoFirst;
pub use recipient_info_other::RecipientInfoOther;
pub use recipient_infos::RecipientInfos;
pub use recipient_key_identifier::RecipientKeyIdentifier;
