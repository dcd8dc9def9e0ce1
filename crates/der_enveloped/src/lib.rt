//! The types of CmsEnveloped, CmsAuthenticated.
//!
//! Made by tools/asn1.
#![tactic(auto)]

pub mod authenticated;
pub mod enveloped;
