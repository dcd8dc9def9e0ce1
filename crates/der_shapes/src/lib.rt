//! The types of Shapes.
//!
//! Made by tools/asn1.
#![tactic(auto)]

pub mod shapes;
