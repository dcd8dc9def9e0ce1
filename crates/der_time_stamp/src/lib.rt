//! The types of PKIXTSP.
//!
//! Made by tools/asn1.
#![tactic(auto)]

pub mod time_stamp;
