//! Attributes of names as text (RFC 4514 2.3, 2.4).

ghost use Rattle.std.specs.Prelude.{◌≡◌, ◌<◌, ℕ, length, List, nat_eq, nat_lt, true};
ghost use Rattle.std.specs.List.{flat_map, list_all};
ghost use Rattle.std.specs.Cmp.Lexicographic.{pointwise};
ghost use Rattle.der_tlv.specs.HeaderOctets.{header_octets, tlv};
ghost use Rattle.der_opaque.specs.AnyRef.{contents_of, tag_of};
ghost use Rattle.der_c.specs.AttributeText.{IsAttributeText, IsTypeText, NamesType, escaped, escaped_octets, has_backslash, hex_digit, hex_pair, hexadecimal, is_control, is_special, is_string, short_names, value_text, x520_names};
ghost use Rattle.der_c.specs.RoomText.{Puts};

use crate::building::room_writer::fill_with_header;
use crate::identifiers::put_dotted;
use crate::room_text::put;
use der_opaque::AnyRef;
use der_tlv::Tag;

/// Writes an attribute to a buffer at a position, as far as it fits, and returns the position
/// after it.
pub(crate) fn put_attribute(
    identifier: &[u8],
    value: &AnyRef<'_>,
    room: &mut [u8],
    position: usize,
) -> usize
    ensures { (text : List ℕ) → IsAttributeText identifier.now (tag_of value.now) (contents_of value.now) text
        → Puts text room.old position room.new result }
{
    match short_name(identifier) {
        Some(name) => {
            let next = put(name, room, position);
            let next = put(b"=", room, next);
            put_value(value, room, next)
        }
        None => {
            let next = put_type(identifier, room, position);
            let next = put(b"=", room, next);
            put_hexadecimal(value, room, next)
        }
    }
}

/// Returns the short name of a type (RFC 4514 section 3).
fn short_name(identifier: &[u8]) -> Option<&'static [u8]>
    ensures { NamesType short_names identifier.now result }
{
    if are_octets(identifier, b"\x09\x92\x26\x89\x93\xf2\x2c\x64\x01\x19") {
        return Some(b"DC");
    }
    if are_octets(identifier, b"\x09\x92\x26\x89\x93\xf2\x2c\x64\x01\x01") {
        return Some(b"UID");
    }
    name_of_x520(identifier)
}

/// Returns the short name of a type that X.520 defines.
fn name_of_x520(identifier: &[u8]) -> Option<&'static [u8]>
    ensures { NamesType x520_names identifier.now result }
{
    match identifier {
        b"\x55\x04\x03" => Some(b"CN"),
        b"\x55\x04\x06" => Some(b"C"),
        b"\x55\x04\x07" => Some(b"L"),
        b"\x55\x04\x08" => Some(b"ST"),
        b"\x55\x04\x09" => Some(b"STREET"),
        b"\x55\x04\x0a" => Some(b"O"),
        b"\x55\x04\x0b" => Some(b"OU"),
        _ => None,
    }
}

/// Returns whether two lists of octets are the same.
fn are_octets(octets: &[u8], others: &[u8]) -> bool
    ensures { result ≡ pointwise nat_eq octets.now others.now }
{
    octets == others
}

/// Writes a type that has no short name: its object identifier, or nothing if that has no text.
fn put_type(identifier: &[u8], room: &mut [u8], position: usize) -> usize
    ensures { (text : List ℕ) → IsTypeText identifier.now text
        → Puts text room.old position room.new result }
{
    let Some(_) = put_dotted(identifier, &mut [], 0) else {
        return position;
    };
    match put_dotted(identifier, room, position) {
        Some(next) => next,
        None => unreachable!(),
    }
}

/// Writes a value: the characters of a string, and any other value in hexadecimal.
fn put_value(value: &AnyRef<'_>, room: &mut [u8], position: usize) -> usize
    ensures { Puts (value_text (tag_of value.now) (contents_of value.now)) room.old position room.new result }
{
    if is_string(value) {
        put_characters(value.value(), room, position)
    } else {
        put_hexadecimal(value, room, position)
    }
}

/// Returns whether a value is a string whose octets are UTF-8.
fn is_string(value: &AnyRef<'_>) -> bool
    ensures { result ≡ is_string (tag_of value.now) (contents_of value.now) }
{
    match value.header().tag {
        Tag::Utf8String => true,
        Tag::NumericString | Tag::PrintableString | Tag::Ia5String | Tag::VisibleString => {
            are_ascii(value.value())
        }
        _ => false,
    }
}

/// Returns whether all octets are characters of ASCII.
fn are_ascii(octets: &[u8]) -> bool
    ensures { result ≡ list_all (λ x. nat_lt x 128) octets.now }
{
    octets.iter().all(|octet| *octet < 128)
}

/// Writes the characters of a string.
fn put_characters(characters: &[u8], room: &mut [u8], position: usize) -> usize
    ensures { Puts (escaped_octets true characters.now) room.old position room.new result }
{
    let mut next = position;
    for (index, octet) in characters.iter().enumerate() {
        let is_last = index + 1 == characters.len();
        next = put_character(*octet, index == 0, is_last, room, next);
    }
    next
}

/// Writes an octet of a string, which is the first or the last one or stands between others.
fn put_character(
    octet: u8,
    is_first: bool,
    is_last: bool,
    room: &mut [u8],
    position: usize,
) -> usize
    ensures { Puts (escaped is_first is_last octet) room.old position room.new result }
{
    if is_control(octet) {
        let next = put(b"\\", room, position);
        return put_pair(octet, room, next);
    }
    if has_backslash(octet, is_first, is_last) {
        return put(&[b'\\', octet], room, position);
    }
    put(&[octet], room, position)
}

/// Returns whether an octet is a control character of ASCII.
fn is_control(octet: u8) -> bool
    ensures { result ≡ is_control octet }
{
    octet < 0x20 || octet == 0x7f
}

/// Returns whether an octet of a string has a backslash before it.
fn has_backslash(octet: u8, is_first: bool, is_last: bool) -> bool
    ensures { result ≡ has_backslash is_first is_last octet }
{
    is_special(octet) || is_first && octet == b'#' || (is_first || is_last) && octet == b' '
}

/// Returns whether a character has a backslash before it everywhere.
fn is_special(octet: u8) -> bool
    ensures { result ≡ is_special octet }
{
    matches!(octet, b'"' | b'+' | b',' | b';' | b'<' | b'>' | b'\\')
}

/// Writes the encoding of a value in hexadecimal.
fn put_hexadecimal(value: &AnyRef<'_>, room: &mut [u8], position: usize) -> usize
    ensures { Puts (hexadecimal (tlv (tag_of value.now) (contents_of value.now))) room.old position room.new result }
{
    let next = put(b"#", room, position);
    let next = put_header(value, room, next);
    put_pairs(value.value(), room, next)
}

/// Writes the header of a value in hexadecimal.
fn put_header(value: &AnyRef<'_>, room: &mut [u8], position: usize) -> usize
    ensures { Puts (flat_map hex_pair (header_octets (tag_of value.now) (length (contents_of value.now)))) room.old position room.new result }
{
    let mut buffer = [0; 11];
    let count = usize::from(value.header().encoded_len());
    fill_with_header(value.header(), &mut buffer[..count]);
    put_pairs(&buffer[..count], room, position)
}

/// Writes octets in hexadecimal.
fn put_pairs(octets: &[u8], room: &mut [u8], position: usize) -> usize
    ensures { Puts (flat_map hex_pair octets.now) room.old position room.new result }
{
    let mut next = position;
    for octet in octets {
        next = put_pair(*octet, room, next);
    }
    next
}

/// Writes an octet as two digits.
fn put_pair(octet: u8, room: &mut [u8], position: usize) -> usize
    ensures { Puts (hex_pair octet) room.old position room.new result }
{
    put(
        &[hex_digit(octet / 16), hex_digit(octet % 16)],
        room,
        position,
    )
}

/// Returns a digit of hexadecimal, with capital letters.
fn hex_digit(digit: u8) -> u8
    requires { digit < 16 }
    ensures { result ≡ hex_digit digit }
{
    if digit < 10 {
        b'0' + digit
    } else {
        b'A' - 10 + digit
    }
}
