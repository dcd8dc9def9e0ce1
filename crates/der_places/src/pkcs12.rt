//! Byte ranges of the fields of the types of PKCS-12.
//!
//! Made by tools/asn1 from pkcs12.asn1.

mod cert_bag;
mod content_info;
mod crl_bag;
mod digest_info;
mod mac_data;
mod pfx;
mod safe_bag;
mod secret_bag;

pub use cert_bag::CertBagPlaces;
pub use content_info::ContentInfoPlaces;
pub use crl_bag::CrlBagPlaces;
pub use digest_info::DigestInfoPlaces;
pub use mac_data::MacDataPlaces;
pub use pfx::PfxPlaces;
pub use safe_bag::SafeBagPlaces;
pub use secret_bag::SecretBagPlaces;
