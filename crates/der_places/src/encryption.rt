//! Byte ranges of the fields of the types of PkcsEncryption.
//!
//! Made by tools/asn1 from encryption.asn1.

mod encrypted_private_key_info;
mod pbe_parameter;
mod pbes2_params;
mod pbkdf2_params;

pub use encrypted_private_key_info::EncryptedPrivateKeyInfoPlaces;
pub use pbe_parameter::PbeParameterPlaces;
pub use pbes2_params::Pbes2ParamsPlaces;
pub use pbkdf2_params::Pbkdf2ParamsPlaces;
