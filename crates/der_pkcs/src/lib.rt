//! The types of PKCS-10, PkcsEncryption, PkixAlgorithms, PKCS-12.
//!
//! Made by tools/asn1.
#![tactic(auto)]

pub mod algorithm;
pub mod encryption;
pub mod pkcs12;
pub mod request;
