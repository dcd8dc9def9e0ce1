//! Byte ranges within an encoding at a byte range.

ghost use Rattle.std.specs.Prelude.{◌≡◌, ◌+◌, ◌-◌, ◌<◌, ◌≤◌, ◌^◌, if◌then◌else◌, length, true};
ghost use Rattle.der_places.specs.Walking.{Follows, HoldsContents};
ghost use Rattle.der_c.specs.Contents.{HoldsBits, HoldsInner};
ghost use Rattle.der_c.specs.Signed.{HoldsFirst};

use der_places::{Place, contents_of, next_place, start_of_contents};

/// Returns the byte range of the contents octets of the encoding at a byte range, such as those
/// of an OCTET STRING or of an explicit tag.
///
/// The byte range is one that a call of this library wrote for these octets. For any other, the
/// result is some byte range within the octets.
#[unsafe(no_mangle)]
pub extern "C" fn der_contents(octets: &[u8], place: &Place) -> Place
    ensures contents { HoldsContents octets.now place.now result }
    ensures within { result.offset + result.length ≤ length octets.now }
{
    within(octets, contents_of(octets, *place))
}

/// Returns the byte range of the items of a field, such as the entries of a list: the contents
/// octets of its one encoding. Of a field that is absent, it is the same byte range of no octets.
#[unsafe(no_mangle)]
pub extern "C" fn der_items(octets: &[u8], field: &Place) -> Place
    ensures absent { field.now.length ≡ 0 → result ≡ field.now }
    ensures items { 0 < field.now.length → HoldsContents octets.now field.now result }
    ensures within { 0 < field.now.length → result.offset + result.length ≤ length octets.now }
{
    if field.length == 0 {
        *field
    } else {
        der_contents(octets, field)
    }
}

/// Returns the byte range of the extensions of a certificate, a list or a response: the contents
/// octets of the encoding within an explicit tag. Of a field that is absent, it is the same byte
/// range of no octets.
#[unsafe(no_mangle)]
pub extern "C" fn der_extensions(octets: &[u8], field: &Place) -> Place
    ensures absent { field.now.length ≡ 0 → result ≡ field.now }
    ensures extensions { 0 < field.now.length → HoldsInner octets.now field.now result }
    ensures within { 0 < field.now.length → result.offset + result.length ≤ length octets.now }
{
    let list = der_items(octets, field);
    der_items(octets, &list)
}

/// Returns the byte range of the octets of the bits of a BIT STRING (X.690 8.6.2), such as a key
/// or a signature; a byte range of no octets if bits of the last one are unused.
#[unsafe(no_mangle)]
pub extern "C" fn der_bit_string_octets(octets: &[u8], place: &Place) -> Place
    ensures absent { place.now.length ≡ 0 → result ≡ place.now }
    ensures bits { 0 < place.now.length → HoldsBits octets.now place.now result }
    ensures within { 0 < place.now.length → result.offset + result.length ≤ length octets.now }
{
    if place.length == 0 {
        return *place;
    }
    let contents = der_contents(octets, place);
    if contents.length == 0 {
        return contents;
    }
    behind_first(contents, octets[contents.offset as usize] == 0)
}

/// Returns the byte range of the octets that a signature covers (RFC 5280 4.1.1.3): the first
/// field of a certificate, of a list of revoked certificates, of a request (RFC 2986 4.2) or of
/// an OCSP response (RFC 6960 4.2.1).
///
/// Only three headers are read. For octets that are no such message, the result is some byte
/// range within them.
#[unsafe(no_mangle)]
pub extern "C" fn der_signed_octets(octets: &[u8]) -> Place
    ensures first { HoldsFirst octets.now result }
    ensures within { result.offset + result.length ≤ length octets.now }
{
    let start = start_of_contents(octets, 0);
    within(octets, next_place(octets, start, true))
}

/// Returns the byte range of the encoding that begins where a byte range ends. After an empty
/// byte range at the front of contents octets, this is the first value in them; after the byte
/// range of a value, it is the next value.
///
/// If the octets have no encoding there, the result is some byte range within them.
#[unsafe(no_mangle)]
pub extern "C" fn der_next_encoding(octets: &[u8], last: &Place) -> Place
    ensures follows { Follows octets.now last.now true result }
    ensures within { result.offset + result.length ≤ length octets.now }
{
    within(octets, next_place(octets, *last, true))
}

/// Returns the byte range after the first octet of one, or an empty one there if it is not whole.
fn behind_first(place: Place, is_whole: bool) -> Place
    ensures offset { place.offset + 1 < 2 ^ 32 → result.offset ≡ place.offset + 1 }
    ensures length { result.length ≡ (if is_whole then place.length - 1 else 0) }
{
    let length = if is_whole {
        place.length.saturating_sub(1)
    } else {
        0
    };
    Place {
        offset: place.offset.saturating_add(1),
        length,
    }
}

/// Returns a byte range that ends within the octets unchanged, and an empty one at the front for
/// any other.
fn within(octets: &[u8], place: Place) -> Place
    ensures same { place.offset + place.length ≤ length octets.now → result ≡ place }
    ensures within { result.offset + result.length ≤ length octets.now }
{
    let end = u64::from(place.offset) + u64::from(place.length);
    if end <= octets.len() as u64 {
        place
    } else {
        Place {
            offset: 0,
            length: 0,
        }
    }
}
