//! Items of a list that are read one after another. All byte ranges count from the start of the
//! octets of the message.

ghost use Rattle.std.specs.Prelude.{◌≡◌, ◌⊎◌, ◌+◌, ◌≤◌, ◌<◌, ◌^◌, length, IfErr, IfOk};
ghost use Rattle.der_elem.specs.Accepting.{Fits};
ghost use Rattle.der_places.specs.Layout.{LaidOut};
ghost use Rattle.der_c.specs.Building.{octets_at};
ghost use Rattle.der_c.specs.Items.{AnswersNextPlaces, EndsWithin, FrontIs, IsBehind, IsFrom, LeftOutside, LeftRefused, TooManyOctets};

use crate::fault::{BAD_PLACE, Fault, fault_of, fault_of_call};
use crate::front::read_front;
use der_elem::{Decode, DecodeValue, Form, OneTag};
use der_places::{Place, Placed, places_of};
use der_tlv::{Error, Length, SliceReader};
use std::alloc::Global;

/// Reads the message at the front of what is left, writes the byte ranges of its fields, and moves
/// `left` past it.
///
/// Returns 0, or the number of the first error; `out` and `left` are then unchanged.
pub(crate) fn read_next_message<
    'a,
    P: Copy,
    T: Copy + DecodeValue<'a, SliceReader<'a>> + OneTag + Placed<Places = P>,
>(alloc: Global, octets: &'a [u8], left: &mut Place, out: &mut P, fault: &mut Fault) -> u32
    ensures { AnswersNextPlaces ⟦<T as Form>⟧ T.Placed.layout T.Placed.listed
        octets.now left.old left.new out.old out.new fault.old fault.new result }
{
    match read_left::<T>(alloc, octets, *left) {
        Ok(item) => {
            *out = places_of(&item.0, octets, left.offset);
            *left = behind(*left, item.1.length);
            0
        }
        Err(reason) => refuse_with(reason, fault),
    }
}

/// Reads a value from the front of what is left, and returns it with its byte range.
pub(crate) fn read_left<'a, T: Decode<'a, SliceReader<'a>>>(
    alloc: Global,
    octets: &'a [u8],
    left: Place,
) -> Result<(T, Place), Fault>
    ensures ok { IfOk result (λ r. FrontIs T.Form octets.now left r.0 r.1) }
    ensures err { IfErr result (λ f. LeftRefused T.Form octets.now left f) }
{
    let own = match octets_left(octets, left) {
        Ok(own) => own,
        Err(fault) => return Err(fault),
    };
    match read_front::<T>(alloc, own) {
        Ok((value, length)) => {
            let offset = left.offset;
            Ok((value, Place { offset, length }))
        }
        Err(error) => Err(fault_of(moved(error, left.offset))),
    }
}

/// Returns what is left behind the octets that were taken.
pub(crate) fn behind(left: Place, taken: u32) -> Place
    ensures { taken ≤ left.length → left.offset + left.length < 2 ^ 32 → IsBehind left result taken }
{
    Place {
        offset: left.offset.saturating_add(taken),
        length: left.length.saturating_sub(taken),
    }
}

/// Writes an error to `fault`, and returns its number.
pub(crate) fn refuse_with(reason: Fault, fault: &mut Fault) -> u32
    ensures number { result ≡ reason.number }
    ensures written { fault.new ≡ reason }
{
    *fault = reason;
    reason.number
}

/// Returns the octets that are left.
fn octets_left<'a>(octets: &'a [u8], left: Place) -> Result<&'a [u8], Fault>
    ensures fits { IfOk result (λ own. Fits octets.now) }
    ensures within { IfOk result (λ own. EndsWithin octets.now left) }
    ensures ok { IfOk result (λ own. own.now ≡ octets_at octets.now left) }
    ensures err { IfErr result (λ f. TooManyOctets octets.now f ⊎ LeftOutside octets.now left f) }
{
    if let Err(error) = SliceReader::new(octets) {
        return Err(fault_of(error));
    }
    let (offset, length) = (left.offset as usize, left.length as usize);
    if octets.len() < offset || octets.len() - offset < length {
        return Err(fault_of_call(BAD_PLACE));
    }
    Ok(&octets[offset..offset + length])
}

/// Returns an error with a position that counts from the start of all octets, of which `offset`
/// are before those that were read.
fn moved(error: Error, offset: u32) -> Error
    ensures kind { result.kind ≡ error.kind }
    ensures position { IsFrom offset result.position }
{
    Error {
        kind: error.kind,
        position: position_from(error.position, offset),
    }
}

/// Returns a position with as many octets before it.
fn position_from(position: Option<Length>, offset: u32) -> Option<Length>
    ensures { IsFrom offset result }
{
    match position {
        Some(position) => Some(Length::new(offset.saturating_add(position.value()))),
        None => None,
    }
}
