//! The components of a message or of one of its fields: a part of the table that `tools/asn1`
//! writes, or a DSA private key.

use crate::dsa::DSA_FIELDS;
use crate::parts::Part;

/// The structure of octets.
#[derive(Clone, Copy)]
pub enum Shape {
    /// A part of the table.
    Part(Part),
    /// A DSA private key, whose fields are all numbers.
    DsaPrivateKey,
}

/// A component of a shape.
#[derive(Clone, Copy)]
pub struct Field {
    /// Its name in the module; empty for an item of a list and for the value after an explicit
    /// tag.
    pub name: &'static str,
    /// The identifier octet that it begins with, if it may be absent or is one of several
    /// alternatives.
    pub octet: Option<u8>,
    /// Its own structure.
    pub shape: Shape,
}

impl Shape {
    /// Returns the shape of a value without named components.
    pub fn value() -> Shape {
        Shape::Part(Part::Value)
    }

    /// Returns the number of its components.
    pub fn count(self) -> usize {
        match self {
            Shape::Part(part) => part.components().len(),
            Shape::DsaPrivateKey => DSA_FIELDS.len(),
        }
    }

    /// Returns the component with this index, if there is one.
    pub fn field(self, step: usize) -> Option<Field> {
        match self {
            Shape::Part(part) => {
                let found = part.components().get(step)?;
                Some(field_of(found.0, found.1, Shape::Part(found.2)))
            }
            Shape::DsaPrivateKey => {
                let name = DSA_FIELDS.get(step)?;
                Some(field_of(*name, None, Shape::value()))
            }
        }
    }

    /// Returns whether it is a list, whose items are all alike.
    pub fn is_list(self) -> bool {
        match self {
            Shape::Part(part) => part.is_list(),
            Shape::DsaPrivateKey => false,
        }
    }
}

fn field_of(name: &'static str, octet: Option<u8>, shape: Shape) -> Field {
    Field { name, octet, shape }
}
