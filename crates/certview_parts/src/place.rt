//! The byte ranges of values, and the octets in them.

use crate::page::Inner;
pub use der_places::Place;
use der_places::contents_of;

/// Returns the byte range of a message: all of the octets.
pub fn place_of_all(octets: &[u8]) -> Place {
    Place {
        offset: 0,
        length: u32::try_from(octets.len()).unwrap_or(u32::MAX),
    }
}

/// Returns the empty byte range, for a value that has none.
pub fn nowhere() -> Place {
    Place {
        offset: 0,
        length: 0,
    }
}

/// Returns the octets in a byte range, or none if the range exceeds the octets.
pub fn octets_at<'a>(octets: &'a [u8], place: &Place) -> &'a [u8] {
    let begin = place.offset as usize;
    let end = place.behind() as usize;
    octets.get(begin..end).unwrap_or(&[])
}

/// Returns the octets in a byte range with their offset, to be read on their own.
pub fn inner_at<'a>(octets: &'a [u8], place: &Place) -> Inner<'a> {
    Inner {
        octets: octets_at(octets, place),
        begin: place.offset as usize,
    }
}

/// Returns the contents octets of the encoding in a byte range with their offset, to be read on
/// their own.
pub fn contents_at<'a>(octets: &'a [u8], place: &Place) -> Inner<'a> {
    inner_at(octets, &contents_of(octets, *place))
}
