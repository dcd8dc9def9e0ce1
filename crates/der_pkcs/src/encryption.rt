//! PkcsEncryption.
//!
//! Made by tools/asn1 from encryption.asn1.

mod aliases;
pub mod constants;
mod encrypted_private_key_info;
pub mod laws;
mod pbe_parameter;
mod pbes2_params;
mod pbkdf2_params;
mod pbkdf2_salt;

pub use aliases::{Iv, Pbmac1Params};
pub use encrypted_private_key_info::EncryptedPrivateKeyInfo;
pub use pbe_parameter::PbeParameter;
pub use pbes2_params::Pbes2Params;
pub use pbkdf2_params::Pbkdf2Params;
pub use pbkdf2_salt::Pbkdf2Salt;
