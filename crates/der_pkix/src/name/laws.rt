//! The laws of PkixNames: functions with empty bodies, whose contracts state what holds of its types.
//!
//! Made by tools/asn1 from name.asn1.

pub use crate::name::aliases::{
    grammar_of_attribute_type, grammar_of_attribute_value, grammar_of_distinguished_name,
    grammar_of_name,
};
pub use crate::name::attribute::{grammar_of_attribute, octets_of_attribute};
pub use crate::name::attribute_type_and_value::{
    grammar_of_attribute_type_and_value, octets_of_attribute_type_and_value,
};
pub use crate::name::rdn_sequence::grammar_of_rdn_sequence;
pub use crate::name::relative_distinguished_name::grammar_of_relative_distinguished_name;
