//! The items of a list and their byte ranges.

use crate::place::Place;
use der_places::{next_place, start_of_contents};

/// An iterator over the successive encodings in the contents octets of a list.
#[derive(Drop)]
pub struct Items<'a> {
    octets: &'a [u8],
    last: Place,
    end: u32,
}

impl<'a> Items<'a> {
    /// Returns an iterator over the items of the list in a byte range.
    pub fn within(octets: &'a [u8], list: &Place) -> Items<'a> {
        Items {
            octets,
            last: start_of_contents(octets, list.offset),
            end: list.behind(),
        }
    }

    /// Returns the byte range of the next item, if there is one.
    pub fn next_item(&mut self) -> Option<Place> {
        if self.last.behind() >= self.end {
            return None;
        }
        let place = next_place(self.octets, self.last, true);
        self.last = place;
        Some(place)
    }
}
