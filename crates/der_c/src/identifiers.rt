//! Object identifiers as text (X.690 8.19), such as 2.5.29.17.

ghost use Rattle.std.specs.Prelude.{decimal};
ghost use Rattle.der_c.specs.Dotted.{AnswersIs, AnswersText, Matches, PutsText, Strips, arcs_text, dot_arc};
ghost use Rattle.der_c.specs.RoomText.{Puts};

use crate::bits::number_of_flag;
use crate::room_text::{end_text, put};
use crate::subidentifiers::first_number;
use itoa::Buffer;

/// Writes the contents octets of an object identifier as text to a buffer, as far as it fits
/// before a zero octet (X.690 8.19).
///
/// 55 1D 11 is written as 2.5.29.17.
///
/// Returns the length of the whole text; or 0 if the octets are no object identifier, or have a
/// subidentifier of more than 64 bits, and the text in the buffer is then empty.
#[unsafe(no_mangle)]
pub extern "C" fn der_object_identifier_text(contents: &[u8], room: &mut [u8]) -> usize
    ensures { AnswersText contents.now room.old room.new result }
{
    let Some(_) = put_dotted(contents, &mut [], 0) else {
        end_text(room, 0);
        return 0;
    };
    let Some(length) = put_dotted(contents, room, 0) else {
        unreachable!()
    };
    end_text(room, length);
    length
}

/// Returns 1 if a text is that of the contents octets of an object identifier, else 0.
#[unsafe(no_mangle)]
pub extern "C" fn der_object_identifier_is(contents: &[u8], text: &[u8]) -> u32
    ensures { AnswersIs contents.now text.now result }
{
    number_of_flag(has_text(contents, text))
}

/// Writes the text of contents octets to a buffer at a position, as far as it fits, and returns
/// the position after it; none if they have no text.
pub(crate) fn put_dotted(contents: &[u8], room: &mut [u8], position: usize) -> Option<usize>
    ensures { PutsText contents.now room.old position room.new result }
{
    let mut left = contents;
    let mut next = position;
    let mut is_first = true;
    while !left.is_empty() {
        let Some((number, others)) = first_number(left) else {
            return None;
        };
        next = put_arcs(number, is_first, room, next);
        left = others;
        is_first = false;
    }
    if is_first { None } else { Some(next) }
}

/// Writes the arcs of the first subidentifier, or the arc of another one.
fn put_arcs(number: u64, is_first: bool, room: &mut [u8], position: usize) -> usize
    ensures { Puts (arcs_text is_first number) room.old position room.new result }
{
    if is_first {
        let first = (number / 40).min(2);
        let next = put_number(first, room, position);
        put_arc(number - 40 * first, room, next)
    } else {
        put_arc(number, room, position)
    }
}

/// Writes an arc with the dot before it.
fn put_arc(arc: u64, room: &mut [u8], position: usize) -> usize
    ensures { Puts (dot_arc arc) room.old position room.new result }
{
    let next = put(b".", room, position);
    put_number(arc, room, next)
}

/// Writes a number in decimal.
fn put_number(number: u64, room: &mut [u8], position: usize) -> usize
    ensures { Puts (decimal number) room.old position room.new result }
{
    put(Buffer::new().format(number).as_bytes(), room, position)
}

/// Returns whether a text is that of contents octets.
fn has_text(contents: &[u8], text: &[u8]) -> bool
    ensures { Matches contents.now text.now result }
{
    let mut left = contents;
    let mut rest = text;
    let mut is_first = true;
    while !left.is_empty() {
        let Some((number, others)) = first_number(left) else {
            return false;
        };
        let Some(behind) = behind_arcs(rest, number, is_first) else {
            return false;
        };
        left = others;
        rest = behind;
        is_first = false;
    }
    if is_first {
        return false;
    }
    rest.is_empty()
}

/// Returns the text after the arcs of the first subidentifier, or after the arc of another one;
/// none if it does not begin with them.
fn behind_arcs(text: &[u8], number: u64, is_first: bool) -> Option<&[u8]>
    ensures { Strips text.now (arcs_text is_first number) result }
{
    if is_first {
        let first = (number / 40).min(2);
        match behind_number(text, first) {
            Some(rest) => behind_arc(rest, number - 40 * first),
            None => None,
        }
    } else {
        behind_arc(text, number)
    }
}

/// Returns the text after an arc with the dot before it; none if it does not begin with them.
fn behind_arc(text: &[u8], arc: u64) -> Option<&[u8]>
    ensures { Strips text.now (dot_arc arc) result }
{
    match behind(text, b".") {
        Some(rest) => behind_number(rest, arc),
        None => None,
    }
}

/// Returns the text after a number in decimal; none if it does not begin with it.
fn behind_number(text: &[u8], number: u64) -> Option<&[u8]>
    ensures { Strips text.now (decimal number) result }
{
    behind(text, Buffer::new().format(number).as_bytes())
}

/// Returns the text after its beginning; none if it does not begin so.
fn behind<'a>(text: &'a [u8], beginning: &[u8]) -> Option<&'a [u8]>
    ensures { Strips text.now beginning.now result }
{
    text.strip_prefix(beginning)
}
