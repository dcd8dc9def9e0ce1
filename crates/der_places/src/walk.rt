//! From one field to the next, by the headers of their encodings.

ghost use Rattle.std.specs.Prelude.{◌≡◌, length};
ghost use Rattle.der_tlv.specs.HeaderReading.{octets_of};
ghost use Rattle.der_places.specs.Walking.{EntersContents, FindsHeader, Follows, HasSizes, HoldsContents, Measures};

use crate::place::Place;
use der_tlv::{Header, Length, Reader, SliceReader};

/// Returns the byte range of the field after another. If the field is present, it is an encoding,
/// and its header is read; if it is absent, its byte range is empty.
pub fn next_place(octets: &[u8], last: Place, is_there: bool) -> Place
    ensures { Follows octets.now last is_there result }
{
    let offset = last.behind();
    if is_there {
        let length = encoding_len(octets, offset);
        Place { offset, length }
    } else {
        Place { offset, length: 0 }
    }
}

/// Returns the empty byte range at the start of the contents octets of the encoding at an offset.
pub fn start_of_contents(octets: &[u8], offset: u32) -> Place
    ensures { EntersContents octets.now offset result }
{
    let sizes = sizes_at(octets, offset);
    Place {
        offset: offset.saturating_add(sizes.header),
        length: 0,
    }
}

/// Returns the byte range of the contents octets of the encoding at a byte range.
///
/// In 02 01 05 it is the one octet at offset 2.
pub fn contents_of(octets: &[u8], place: Place) -> Place
    ensures { HoldsContents octets.now place result }
{
    let sizes = sizes_at(octets, place.offset);
    Place {
        offset: place.offset.saturating_add(sizes.header),
        length: sizes.contents,
    }
}

/// Returns the number of octets in the encoding at an offset.
fn encoding_len(octets: &[u8], offset: u32) -> u32
    ensures { Measures octets.now offset result }
{
    let sizes = sizes_at(octets, offset);
    sizes.header.saturating_add(sizes.contents)
}

/// The number of octets in a header, and of the contents octets after it.
#[derive(Clone, Copy, Debug, PartialEq, Eq)]
struct Sizes {
    header: u32,
    contents: u32,
}

/// Returns the sizes of the encoding at an offset.
///
/// They are seen at once behind one identifier octet and at most three length octets, as in 30 05,
/// 30 81 80 and 30 82 01 00. The tag is not looked up.
#[inline]
fn sizes_at(octets: &[u8], offset: u32) -> Sizes
    ensures { HasSizes octets.now offset result }
{
    let start = offset as usize;
    let left = octets.len().saturating_sub(start);
    if left < 2 || octets[start] % 32 == 31 {
        return read_sizes(octets, offset);
    }
    let count = octets[start + 1];
    if count < 0x80 {
        return Sizes {
            header: 2,
            contents: u32::from(count),
        };
    }
    if left < 4 {
        return read_sizes(octets, offset);
    }
    let (first, last) = (u32::from(octets[start + 2]), u32::from(octets[start + 3]));
    match count {
        0x81 => Sizes {
            header: 3,
            contents: first,
        },
        0x82 => Sizes {
            header: 4,
            contents: first * 256 + last,
        },
        _ => read_sizes(octets, offset),
    }
}

/// Returns the sizes of the encoding at an offset, whatever its header.
#[inline(never)]
fn read_sizes(octets: &[u8], offset: u32) -> Sizes
    ensures { HasSizes octets.now offset result }
{
    match header_at(octets, offset) {
        Some(header) => sizes_of(header),
        None => Sizes {
            header: 0,
            contents: 0,
        },
    }
}

/// Returns the number of octets in a header, and that of the contents octets that it counts.
fn sizes_of(header: Header) -> Sizes
    ensures header { result.header ≡ length (octets_of header) }
    ensures contents { result.contents ≡ header.length }
{
    let Header { tag, length } = header;
    let contents = length.value();
    Sizes {
        header: Header::new(tag, length).encoded_len().value(),
        contents,
    }
}

/// Returns the header at an offset.
fn header_at(octets: &[u8], offset: u32) -> Option<Header>
    ensures { FindsHeader octets.now offset result }
{
    let Ok(mut reader) = SliceReader::new(octets) else {
        return None;
    };
    let Ok(_before) = reader.read_slice(Length::new(offset)) else {
        return None;
    };
    match Header::decode(&mut reader) {
        Ok(header) => Some(header),
        Err(_) => None,
    }
}
