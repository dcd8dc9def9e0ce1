//! The laws of PkcsEncryption: functions with empty bodies, whose contracts state what holds of its types.
//!
//! Made by tools/asn1 from encryption.asn1.

pub use crate::encryption::aliases::{grammar_of_iv, grammar_of_pbmac1_params};
pub use crate::encryption::encrypted_private_key_info::{
    grammar_of_encrypted_private_key_info, octets_of_encrypted_private_key_info,
};
pub use crate::encryption::pbe_parameter::{grammar_of_pbe_parameter, octets_of_pbe_parameter};
pub use crate::encryption::pbes2_params::{grammar_of_pbes2_params, octets_of_pbes2_params};
pub use crate::encryption::pbkdf2_params::{grammar_of_pbkdf2_params, octets_of_pbkdf2_params};
pub use crate::encryption::pbkdf2_salt::grammar_of_pbkdf2_salt;
