//! Messages that are read from all octets, with the byte ranges of their fields.

ghost use Rattle.std.specs.Prelude.{IfErr, IfOk};
ghost use Rattle.der_places.specs.Layout.{LaidOut};
ghost use Rattle.der_c.specs.Answers.{AnswersPlaces, Given, Refuses};

use crate::fault::{Fault, refuse};
use der_elem::{DecodeValue, Form, FromDer, OneTag};
use der_places::{Placed, places_of};
use der_tlv::{Error, SliceReader};
use std::alloc::Global;

/// Reads all octets as a message, and writes the byte ranges of its fields.
///
/// Returns 0 and writes the byte ranges to `out`, or returns the number of the first error and
/// leaves `out` unchanged.
pub(crate) fn read_message<
    'a,
    P: Copy,
    T: Copy + DecodeValue<'a, SliceReader<'a>> + OneTag + Placed<Places = P>,
>(alloc: Global, octets: &'a [u8], out: &mut P, fault: &mut Fault) -> u32
    ensures { AnswersPlaces ⟦<T as Form>⟧ T.Placed.layout T.Placed.listed
        octets.now out.old out.new fault.old fault.new result }
{
    match fields_of::<P, T>(alloc, octets) {
        Ok(places) => {
            *out = places;
            0
        }
        Err(error) => refuse(error, fault),
    }
}

/// Returns the byte ranges of the fields of a message that all octets encode.
fn fields_of<'a, P: Copy, T: Copy + DecodeValue<'a, SliceReader<'a>> + OneTag + Placed<Places = P>>(
    alloc: Global,
    octets: &'a [u8],
) -> Result<P, Error>
    ensures ok { IfOk result (λ at. Given ⟦<T as Form>⟧ octets.now
        (λ v p. LaidOut (T.Placed.layout v) 0 (T.Placed.listed p) octets.now) at) }
    ensures err { IfErr result (λ e. Refuses ⟦<T as Form>⟧ octets.now e.kind) }
{
    match T::from_der(alloc, octets) {
        Ok(value) => Ok(places_of(&value, octets, 0)),
        Err(error) => Err(error),
    }
}
