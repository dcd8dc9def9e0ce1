//! Values that are read from byte ranges of octets.

ghost use Rattle.std.specs.Prelude.{◌≡◌, IfErr, IfOk, ℕ, List};
ghost use Rattle.der_places.specs.declared.place.Place.{Place};
ghost use Rattle.der_c.specs.Building.{IsAt, IsOutside, IsWithin, Makes, NoneAt, Parts, field, no_more, octets_at, within};

use crate::fault::{BAD_PLACE, Fault, fault_of, fault_of_call};
use der_elem::{Form, FromDer};
use der_fields::{End, Field};
use der_places::Place;
use std::alloc::Global;

/// A list of fields that are read from byte ranges of octets, one for each field. A field that may
/// be absent is absent where the length is 0.
pub(crate) trait FromPlaces<'a>: Sized + Drop {
    /// A byte range for each field.
    type Places;

    // the fields, in their order
    ghost parts: { Self.Places → Parts Self };

    /// Reads each field from its byte range.
    fn from_places(alloc: Global, octets: &'a [u8], places: &Self::Places) -> Result<Self, Fault>
        ensures { Makes octets.now (parts places.now) result };
}

impl<'a> FromPlaces<'a> for End {
    type Places = End;

    ghost parts = { λ places. no_more };

    fn from_places(_alloc: Global, _octets: &'a [u8], _places: &End) -> Result<End, Fault> {
        Ok(End)
    }
}

impl<'a, T: FromDer<'a>, Rest: FromPlaces<'a>> FromPlaces<'a> for Field<T, Rest> {
    type Places = Field<Place, Rest::Places>;

    ghost parts = { λ places. field T.Form places.first (λ v. v.first) (within (λ v. v.rest) (Rest.parts places.rest)) };

    fn from_places(
        alloc: Global,
        octets: &'a [u8],
        places: &Field<Place, Rest::Places>,
    ) -> Result<Field<T, Rest>, Fault> {
        let first = match value_at::<T>(alloc, octets, places.first) {
            Ok(first) => first,
            Err(fault) => return Err(fault),
        };
        match Rest::from_places(alloc, octets, &places.rest) {
            Ok(rest) => Ok(Field { first, rest }),
            Err(fault) => Err(fault),
        }
    }
}

/// Reads all octets at a byte range as a value.
pub(crate) fn value_at<'a, T: FromDer<'a>>(
    alloc: Global,
    octets: &'a [u8],
    place: Place,
) -> Result<T, Fault>
    ensures ok { IfOk result (λ v. IsAt T.Form octets.now place v) }
    ensures err { IfErr result (λ f. NoneAt T.Form octets.now place f) }
{
    let own = match octets_at(octets, place) {
        Ok(own) => own,
        Err(fault) => return Err(fault),
    };
    match T::from_der(alloc, own) {
        Ok(value) => Ok(value),
        Err(error) => Err(fault_of(error)),
    }
}

/// Returns the octets at a byte range.
pub(crate) fn octets_at<'a>(octets: &'a [u8], place: Place) -> Result<&'a [u8], Fault>
    ensures within { IfOk result (λ own. IsWithin octets.now place) }
    ensures ok { IfOk result (λ own. own.now ≡ octets_at octets.now place) }
    ensures err { IfErr result (λ f. IsOutside octets.now place f) }
{
    if place.length == 0 {
        return Ok(&[]);
    }
    let (offset, length) = (place.offset as usize, place.length as usize);
    if octets.len() < offset || octets.len() - offset < length {
        return Err(fault_of_call(BAD_PLACE));
    }
    Ok(&octets[offset..offset + length])
}
