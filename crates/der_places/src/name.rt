//! Byte ranges of the fields of the types of PkixNames.
//!
//! Made by tools/asn1 from name.asn1.

mod attribute;
mod attribute_type_and_value;

pub use attribute::AttributePlaces;
pub use attribute_type_and_value::AttributeTypeAndValuePlaces;
