//! The octets of signed attributes that are hashed (RFC 5652 5.4).

ghost use Rattle.std.specs.Prelude.{◌≡◌, ◌<◌, length};
ghost use Rattle.der_c.specs.Rooms.{Written};
ghost use Rattle.der_c.specs.SignedAttributes.{AnswersSigned, FindsOctets, with_set_tag};

use crate::fault::{BAD_PLACE, Fault, refuse_call};
use crate::room::fill;
use der_places::Place;

/// The identifier octet of a SET OF.
const SET_OF: u8 = 0x31;

/// Writes the octets of signed attributes that are hashed (RFC 5652 5.4) to the front of a buffer,
/// and their number to `count`: those at a byte range, with the tag of a SET OF.
///
/// Returns 0; 103 if the buffer is too short, and it is then unchanged; or 100 if the byte range is
/// empty or not within the octets, and the buffer and `count` are then unchanged.
#[unsafe(no_mangle)]
pub extern "C" fn der_signed_attributes(
    octets: &[u8],
    signed_attrs: &Place,
    room: &mut [u8],
    count: &mut usize,
    fault: &mut Fault,
) -> u32
    ensures { AnswersSigned octets.now signed_attrs.now
        room.old room.new count.old count.new fault.old fault.new result }
{
    match octets_there(octets, *signed_attrs) {
        Some(own) => fill_set(own, room, count, fault),
        None => refuse_call(BAD_PLACE, fault),
    }
}

/// Writes an encoding to the front of a buffer, with the tag of a SET OF, and its length to
/// `count`. If the buffer is too short, it is unchanged, and the result is 103.
fn fill_set(own: &[u8], room: &mut [u8], count: &mut usize, fault: &mut Fault) -> u32
    ensures { 0 < length own.now
        → Written (with_set_tag own.now) room.old room.new count.new fault.old fault.new result }
{
    let answer = fill(own, room, count, fault);
    if answer == 0 {
        tag_as_set(room);
    }
    answer
}

/// Writes the tag of a SET OF over the first octet.
fn tag_as_set(octets: &mut [u8])
    ensures { octets.new ≡ with_set_tag octets.old }
{
    if let [identifier, ..] = octets {
        *identifier = SET_OF;
    }
}

/// Returns the octets at a byte range; none if it is empty, or not within the octets.
fn octets_there(octets: &[u8], place: Place) -> Option<&[u8]>
    ensures { FindsOctets octets.now place result }
{
    let (offset, length) = (place.offset as usize, place.length as usize);
    if length == 0 || octets.len() < offset || octets.len() - offset < length {
        return None;
    }
    Some(&octets[offset..offset + length])
}
