//! Errors as numbers.

ghost use Rattle.std.specs.Prelude.{◌≡◌};
ghost use Rattle.der_tlv.specs.ErrorNumber.{error_number};
ghost use Rattle.der_c.specs.Answers.{fault_of, fault_of_call, placing};

use der_tlv::{Error, Length};

/// The reason why octets are refused, and the position.
#[repr(C)]
#[derive(Clone, Copy, Debug, PartialEq, Eq)]
pub struct Fault {
    /// The number of the kind, 1 to 17; or 100, 102 or 103 for an error of the call itself.
    pub number: u32,
    /// Whether the position is known: 1 or 0.
    pub is_placed: u32,
    /// The number of octets that had been read, or 0 if it is unknown.
    pub position: u32,
}

/// Writes an error to `fault`, and returns its number.
pub(crate) fn refuse(error: Error, fault: &mut Fault) -> u32
    ensures number { result ≡ error_number error.kind }
    ensures written { fault.new ≡ fault_of error }
{
    *fault = fault_of(error);
    fault.number
}

/// Returns an error as it is written.
pub(crate) fn fault_of(error: Error) -> Fault
    ensures { result ≡ fault_of error }
{
    let (is_placed, position) = place_of(error.position);
    Fault {
        number: u32::from(error.kind.number()),
        is_placed,
        position,
    }
}

/// A place is not within the octets.
pub(crate) const BAD_PLACE: u32 = 100;

/// No type has the name.
pub(crate) const UNKNOWN_NAME: u32 = 102;

/// The buffer is too short.
pub(crate) const SHORT_ROOM: u32 = 103;

/// Writes an error of the call itself to `fault`, and returns its number.
pub(crate) fn refuse_call(answer: u32, fault: &mut Fault) -> u32
    ensures number { result ≡ answer }
    ensures written { fault.new ≡ fault_of_call answer }
{
    *fault = fault_of_call(answer);
    answer
}

/// Returns an error of the call itself as it is written.
pub(crate) fn fault_of_call(answer: u32) -> Fault
    ensures { result ≡ fault_of_call answer }
{
    Fault {
        number: answer,
        is_placed: 0,
        position: 0,
    }
}

/// Returns whether a position is known, and the position, or 0.
fn place_of(position: Option<Length>) -> (u32, u32)
    ensures { result ≡ placing position }
{
    match position {
        Some(position) => (1, position.value()),
        None => (0, 0),
    }
}
