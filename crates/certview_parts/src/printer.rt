//! The printer of the fields of a message.

use crate::field_name::FieldName;
use crate::items::Items;
use crate::page::{Inner, Page, push_malformed};
use crate::place::{Place, contents_at, inner_at, octets_at};
use der_asn1_types::Error;
use der_places::{Placed, contents_of, places_of};
use std::alloc::{AllocError, Global};

/// A printer of the fields of a message on a page.
#[derive(Drop)]
pub struct Printer<'a> {
    /// The allocator for values.
    pub alloc: Global,
    /// The page.
    pub page: &'a mut Page,
    /// The octets of the message.
    pub octets: &'a [u8],
}

impl<'a> Printer<'a> {
    /// Returns a printer of the fields of the message in these octets.
    pub fn new(alloc: Global, page: &'a mut Page, octets: &'a [u8]) -> Printer<'a> {
        Printer {
            alloc,
            page,
            octets,
        }
    }

    /// Begins a field with this byte range. The caller adds its value and a line feed to the
    /// text. A field that is absent has no octets.
    pub fn begin(&mut self, place: &Place, field: FieldName) -> Result<(), AllocError> {
        self.page.begin_field(field, place)
    }

    /// Adds a character to the value of the field.
    pub fn push(&mut self, character: char) -> Result<(), AllocError> {
        self.page.text.push(character)
    }

    /// Adds characters to the value of the field.
    pub fn push_str(&mut self, characters: &str) -> Result<(), AllocError> {
        self.page.text.push_str(characters)
    }

    /// Adds a comma, and the error in a value whose octets are read on their own.
    pub fn push_malformed_value(
        &mut self,
        inner: Inner<'_>,
        error: Error,
    ) -> Result<(), AllocError> {
        self.push_str(", ")?;
        push_malformed(self.page, inner.begin, error)
    }

    /// Returns the octets in a byte range.
    pub fn octets_at(&self, place: &Place) -> &'a [u8] {
        octets_at(self.octets, place)
    }

    /// Returns the octets in a byte range with their offset, to be read on their own.
    pub fn inner_at(&self, place: &Place) -> Inner<'a> {
        inner_at(self.octets, place)
    }

    /// Returns the contents octets of the encoding in a byte range with their offset, to be read
    /// on their own.
    pub fn contents_at(&self, place: &Place) -> Inner<'a> {
        contents_at(self.octets, place)
    }

    /// Returns the byte range of the contents octets of the encoding in a byte range.
    pub fn contents_of(&self, place: Place) -> Place {
        contents_of(self.octets, place)
    }

    /// Returns the byte ranges of the fields of a value that is in a byte range.
    pub fn places_of<T: Placed>(&self, value: &T, place: &Place) -> <T as Placed>::Places {
        places_of(value, self.octets, place.offset)
    }

    /// Returns the items of the list in a byte range.
    pub fn items(&self, list: &Place) -> Items<'a> {
        Items::within(self.octets, list)
    }
}
