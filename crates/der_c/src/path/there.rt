//! Values at byte ranges, with the positions of errors from the start of all octets.

ghost use Rattle.std.specs.Prelude.{◌≡◌, IfErr, IfOk};
ghost use Rattle.der_c.specs.Building.{IsAt};
ghost use Rattle.der_c.specs.ChainFaults.{moved, HasNoneOf, NoneThere};
ghost use Rattle.der_c.specs.ChainPlaces.{EachOf};

use crate::building::parts::value_at;
use crate::fault::Fault;
use crate::path::refusal::{PathRefusal, memory_ran_out, refusal_at};
use der_elem::{Form, FromDer};
use der_places::Place;
use std::alloc::Global;

/// Reads all octets at a byte range as a value. The position of an error counts from the start of
/// all octets.
pub(crate) fn value_there<'a, T: FromDer<'a>>(
    alloc: Global,
    octets: &'a [u8],
    place: Place,
) -> Result<T, Fault>
    ensures ok { IfOk result (λ v. IsAt T.Form octets.now place v) }
    ensures err { IfErr result (λ f. NoneThere T.Form octets.now place f) }
{
    match value_at::<T>(alloc, octets, place) {
        Ok(value) => Ok(value),
        Err(fault) => Err(moved(fault, place.offset)),
    }
}

/// Reads the values at these byte ranges.
pub(crate) fn each_there<'a, T: FromDer<'a>>(
    alloc: Global,
    octets: &'a [u8],
    places: &[Place],
) -> Result<Vec<T>, PathRefusal>
    ensures ok { IfOk result (λ found. EachOf T.Form octets.now places.now found.items) }
    ensures err { IfErr result (λ refusal. HasNoneOf T.Form octets.now places.now refusal) }
{
    let mut found = Vec::new(alloc);
    let mut left = places;
    'each: while let [place, others @ ..] = left {
        match value_there::<T>(alloc, octets, *place) {
            Ok(value) => {
                let Ok(()) = found.push(value) else {
                    return Err(memory_ran_out(places.len()));
                };
            }
            Err(fault) => return Err(refusal_at(fault, places.len() - left.len())),
        }
        left = others;
    }
    Ok(found)
}

/// Returns an error with its position counted from so many octets before; at most 4294967295.
pub(crate) fn moved(fault: Fault, offset: u32) -> Fault
    ensures { result ≡ moved fault offset }
{
    if fault.is_placed == 0 {
        return fault;
    }
    Fault {
        number: fault.number,
        is_placed: fault.is_placed,
        position: fault.position.saturating_add(offset),
    }
}
