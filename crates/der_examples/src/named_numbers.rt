//! An ENUMERATED that a user defines: the numbers of an `enum`.

ghost use Rattle.der_asn1_types.specs.Decoding.{ReadsAll};
ghost use Rattle.der_asn1_types.specs.SequenceWriting.{WritesAll};
ghost use Rattle.der_examples.specs.ResponseStatuses.{response_statuses};

use der_asn1_types::asn1::{Enumerated, Enumeration};
use der_asn1_types::{Encode, EnumeratedTag, Error, Form, FromDer};
use std::alloc::Global;

/// The status of a response: OCSPResponseStatus (RFC 6960, 4.2.1), an ENUMERATED without 4.
#[derive(Clone, Copy, Debug, PartialEq, Eq)]
pub enum ResponseStatus {
    /// The response is present (0).
    Successful,
    /// The request could not be read (1).
    MalformedRequest,
    /// An error in the responder (2).
    InternalError,
    /// Try again (3).
    TryLater,
    /// The request must be signed (5).
    SigRequired,
    /// The requester is not authorized (6).
    Unauthorized,
}

impl Enumeration for ResponseStatus {
    type Marker = EnumeratedTag;

    ghost names = { response_statuses };

    fn number(self) -> i64 {
        match self {
            ResponseStatus::Successful => 0,
            ResponseStatus::MalformedRequest => 1,
            ResponseStatus::InternalError => 2,
            ResponseStatus::TryLater => 3,
            ResponseStatus::SigRequired => 5,
            ResponseStatus::Unauthorized => 6,
        }
    }

    fn of_number(number: i64) -> Option<ResponseStatus> {
        match number {
            0 => Some(ResponseStatus::Successful),
            1 => Some(ResponseStatus::MalformedRequest),
            2 => Some(ResponseStatus::InternalError),
            3 => Some(ResponseStatus::TryLater),
            5 => Some(ResponseStatus::SigRequired),
            6 => Some(ResponseStatus::Unauthorized),
            _ => None,
        }
    }
}

/// Reads a status from all of the octets, under DER; a number without a name is refused.
pub fn read_status(alloc: Global, octets: &[u8]) -> Result<Enumerated<ResponseStatus>, Error>
    ensures { ReadsAll ⟦<Enumerated<ResponseStatus> as Form>⟧ octets.now result }
{
    Enumerated::<ResponseStatus>::from_der(alloc, octets)
}

/// Returns the canonical encoding of a status.
pub fn write_status(alloc: Global, status: &Enumerated<ResponseStatus>) -> Result<Vec<u8>, Error>
    ensures { WritesAll ⟦<Enumerated<ResponseStatus> as Form>⟧ status.now result }
{
    status.to_der(alloc)
}
