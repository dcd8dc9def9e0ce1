//! The types of OCSP-2013-88.
//!
//! Made by tools/asn1.
#![tactic(auto)]

pub mod ocsp;
