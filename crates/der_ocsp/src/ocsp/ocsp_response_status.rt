//! OCSPResponseStatus, an ENUMERATED of 6 names.
//!
//! Made by tools/asn1 from ocsp.asn1.

ghost use Rattle.std.specs.Prelude.{◌≡◌};
ghost use Rattle.der_modules.specs.Asn1.{parse_of};
ghost use Rattle.der_ocsp.specs.Ocsp.Grammar.{ocsp_response_status};
ghost use Rattle.der_ocsp.specs.Ocsp.OcspResponseStatus.{names_of_ocsp_response_status};

use der_elem::Form;
use der_numbers::{Enumerated, EnumeratedTag, Enumeration};

/// ```text
/// OCSPResponseStatus ::= ENUMERATED {
///      successful        (0), -- response has valid confirmations
///      malformedRequest  (1), -- illegal confirmation request
///      internalError     (2), -- internal error in issuer
///      tryLater          (3), -- try again later
///                             -- (4) is not used
///      sigRequired       (5), -- must sign the request
///      unauthorized      (6) }
/// ```
///
/// In a message it stands as `Enumerated<OcspResponseStatus>`. A number without a name is refused
/// (`ErrorKind::Value`, 13).
#[derive(Clone, Copy, Debug, PartialEq, Eq)]
pub enum OcspResponseStatus {
    /// `successful` (0).
    Successful,
    /// `malformedRequest` (1).
    MalformedRequest,
    /// `internalError` (2).
    InternalError,
    /// `tryLater` (3).
    TryLater,
    /// `sigRequired` (5).
    SigRequired,
    /// `unauthorized` (6).
    Unauthorized,
}

impl Enumeration for OcspResponseStatus {
    type Marker = EnumeratedTag;

    ghost names = { names_of_ocsp_response_status };

    fn number(self) -> i64 {
        match self {
            OcspResponseStatus::Successful => 0,
            OcspResponseStatus::MalformedRequest => 1,
            OcspResponseStatus::InternalError => 2,
            OcspResponseStatus::TryLater => 3,
            OcspResponseStatus::SigRequired => 5,
            OcspResponseStatus::Unauthorized => 6,
        }
    }

    fn of_number(number: i64) -> Option<OcspResponseStatus> {
        match number {
            0 => Some(OcspResponseStatus::Successful),
            1 => Some(OcspResponseStatus::MalformedRequest),
            2 => Some(OcspResponseStatus::InternalError),
            3 => Some(OcspResponseStatus::TryLater),
            5 => Some(OcspResponseStatus::SigRequired),
            6 => Some(OcspResponseStatus::Unauthorized),
            _ => None,
        }
    }
}

/// What is read as `OCSPResponseStatus` is what the grammar page says.
pub fn grammar_of_ocsp_response_status()
    ensures { ⟦<Enumerated<OcspResponseStatus> as Form>⟧.parse ≡ parse_of ocsp_response_status }
{}
