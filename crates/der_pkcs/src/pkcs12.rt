//! PKCS-12.
//!
//! Made by tools/asn1 from pkcs12.asn1.

mod aliases;
mod authenticated_safe;
mod cert_bag;
pub mod constants;
mod content_info;
mod crl_bag;
mod digest_info;
pub mod laws;
mod mac_data;
mod pfx;
mod safe_bag;
mod safe_contents;
mod secret_bag;

pub use aliases::{KeyBag, PFX_VERSION_V3, PfxVersion, Pkcs8ShroudedKeyBag, Pkcs12PbeParams};
pub use authenticated_safe::AuthenticatedSafe;
pub use cert_bag::CertBag;
pub use content_info::ContentInfo;
pub use crl_bag::CrlBag;
pub use digest_info::DigestInfo;
pub use mac_data::MacData;
pub use pfx::Pfx;
pub use safe_bag::SafeBag;
pub use safe_contents::SafeContents;
pub use secret_bag::SecretBag;
