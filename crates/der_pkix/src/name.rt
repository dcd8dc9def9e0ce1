//! PkixNames.
//!
//! Made by tools/asn1 from name.asn1.

mod aliases;
mod attribute;
mod attribute_type_and_value;
pub mod constants;
pub mod laws;
mod rdn_sequence;
mod relative_distinguished_name;

pub use aliases::{AttributeType, AttributeValue, DistinguishedName, Name};
pub use attribute::Attribute;
pub use attribute_type_and_value::AttributeTypeAndValue;
pub use rdn_sequence::RdnSequence;
pub use relative_distinguished_name::RelativeDistinguishedName;
