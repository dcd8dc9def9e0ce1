//! The types of CmsSigned, ExtendedSecurityServices-2006.
//!
//! Made by tools/asn1.
#![tactic(auto)]

pub mod cms;
pub mod ess;
