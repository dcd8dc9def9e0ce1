//! The laws of CmsEnveloped: functions with empty bodies, whose contracts state what holds of its types.
//!
//! Made by tools/asn1 from enveloped.asn1.

pub use crate::enveloped::aliases::{
    grammar_of_kek_identifier, grammar_of_originator_public_key, grammar_of_other_key_attribute,
    grammar_of_other_recipient_info, grammar_of_recipient_identifier,
    grammar_of_user_keying_material,
};
pub use crate::enveloped::enveloped_data::{grammar_of_enveloped_data, octets_of_enveloped_data};
pub use crate::enveloped::kek_recipient_info::{
    grammar_of_kek_recipient_info, octets_of_kek_recipient_info,
};
pub use crate::enveloped::key_agree_recipient_identifier::grammar_of_key_agree_recipient_identifier;
pub use crate::enveloped::key_agree_recipient_info::{
    grammar_of_key_agree_recipient_info, octets_of_key_agree_recipient_info,
};
pub use crate::enveloped::key_trans_recipient_info::{
    grammar_of_key_trans_recipient_info, octets_of_key_trans_recipient_info,
};
pub use crate::enveloped::originator_identifier_or_key::grammar_of_originator_identifier_or_key;
pub use crate::enveloped::originator_info::{
    grammar_of_originator_info, octets_of_originator_info,
};
pub use crate::enveloped::password_recipient_info::{
    grammar_of_password_recipient_info, octets_of_password_recipient_info,
};
pub use crate::enveloped::recipient_encrypted_key::{
    grammar_of_recipient_encrypted_key, octets_of_recipient_encrypted_key,
};
pub use crate::enveloped::recipient_encrypted_keys::grammar_of_recipient_encrypted_keys;
pub use crate::enveloped::recipient_info::grammar_of_recipient_info;
pub use crate::enveloped::recipient_infos::grammar_of_recipient_infos;
pub use crate::enveloped::recipient_key_identifier::{
    grammar_of_recipient_key_identifier, octets_of_recipient_key_identifier,
};
