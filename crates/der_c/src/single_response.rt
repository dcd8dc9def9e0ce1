//! The byte ranges of the fields of responses about single certificates, which are read one after
//! another.

ghost use Rattle.std.specs.Prelude.{◌≡◌, take, List, ℕ};
ghost use Rattle.der_ocsp.specs.Ocsp.SingleResponse as single;
ghost use Rattle.der_places.specs.Layout.{LaidOut};
ghost use Rattle.der_c.specs.Answers.{AnswersFront};
ghost use Rattle.der_c.specs.Items.{ReadAt};
ghost use Rattle.der_c.specs.Status.{number_of_status, revoked_at};
ghost use Rattle.der_c.specs.Times.{seconds_if_given, seconds_of_general};

use crate::fault::{Fault, refuse};
use crate::front::read_front;
use crate::times::{general_seconds, general_seconds_or_none};
use der_elem::Form;
use der_ocsp::ocsp::{CertStatus, SingleResponse};
use der_places::ocsp::SingleResponsePlaces;
use der_places::{Place, Placed, places_of};
use std::alloc::Global;

/// The byte ranges of the fields of the response about one certificate, and the values of some
/// fields.
#[repr(C)]
#[derive(Clone, Copy, Debug, PartialEq, Eq)]
pub struct SingleResponseAt {
    /// The whole response; the next one begins after it.
    pub whole: Place,
    /// Its fields.
    pub fields: SingleResponsePlaces,
    /// `thisUpdate`, in seconds from 1970-01-01T00:00:00Z.
    pub this_update: u64,
    /// `nextUpdate`, or 0 if it is absent.
    pub next_update: u64,
    /// `revocationTime` if the certificate is revoked, else 0.
    pub revocation_time: u64,
    /// `certStatus`: 0 for good, 1 for revoked, 2 for unknown.
    pub status: u64,
}

/// Reads the response about one certificate at the front of the octets (RFC 6960 4.2.1), and
/// writes the byte ranges of its fields. The next response begins after it.
///
/// Returns 0 and writes the byte ranges to `out`, or returns the number of the first error and
/// leaves `out` unchanged.
#[unsafe(no_mangle)]
pub extern "C" fn der_single_response<'a>(
    alloc: Global,
    octets: &'a [u8],
    out: &mut SingleResponseAt,
    fault: &mut Fault,
) -> u32
    ensures { AnswersFront ⟦<SingleResponse<'a> as Form>⟧ octets.now (λ v taken at.
        (at.whole.offset ≡ 0) × (at.whole.length ≡ taken)
        × LaidOut (⟦<SingleResponse<'a> as Placed>⟧.layout v) 0 (⟦<SingleResponse<'a> as Placed>⟧.listed at.fields) (take taken octets.now)
        × (at.this_update ≡ seconds_of_general (single.this_update v))
        × (at.next_update ≡ seconds_if_given (single.next_update v))
        × (at.revocation_time ≡ revoked_at (single.cert_status v))
        × (at.status ≡ number_of_status (single.cert_status v)))
        out.old out.new fault.old fault.new result }
{
    match read_front::<SingleResponse<'a>>(alloc, octets) {
        Ok((value, length)) => {
            *out = single_response_at(&value, octets, Place { offset: 0, length });
            0
        }
        Err(error) => refuse(error, fault),
    }
}

/// Returns the byte ranges of a response that was read from a byte range.
pub(crate) fn single_response_at<'a>(
    value: &SingleResponse<'a>,
    octets: &[u8],
    whole: Place,
) -> SingleResponseAt
    ensures fields { (own : List ℕ) → ReadAt ⟦<SingleResponse<'a> as Form>⟧ octets.now whole.offset value.now own
        → LaidOut (⟦<SingleResponse<'a> as Placed>⟧.layout value.now) whole.offset (⟦<SingleResponse<'a> as Placed>⟧.listed result.fields) own }
    ensures offset { result.whole.offset ≡ whole.offset }
    ensures length { result.whole.length ≡ whole.length }
    ensures this_update { result.this_update ≡ seconds_of_general (single.this_update value.now) }
    ensures next_update { result.next_update ≡ seconds_if_given (single.next_update value.now) }
    ensures revocation_time { result.revocation_time ≡ revoked_at (single.cert_status value.now) }
    ensures status { result.status ≡ number_of_status (single.cert_status value.now) }
{
    SingleResponseAt {
        whole,
        fields: places_of(value, octets, whole.offset),
        this_update: general_seconds(value.this_update()),
        next_update: general_seconds_or_none(value.next_update()),
        revocation_time: revocation_seconds(value.cert_status()),
        status: status_number(value.cert_status()),
    }
}

/// Returns 0 for good, 1 for revoked, 2 for unknown.
fn status_number(status: CertStatus) -> u64
    ensures { result ≡ number_of_status status }
{
    match status {
        CertStatus::Good(_) => 0,
        CertStatus::Revoked(_) => 1,
        CertStatus::Unknown(_) => 2,
    }
}

/// Returns when a certificate was revoked, or 0 if it was not revoked.
fn revocation_seconds(status: CertStatus) -> u64
    ensures { result ≡ revoked_at status }
{
    match status {
        CertStatus::Revoked(tagged) => general_seconds(tagged.value.revocation_time()),
        CertStatus::Good(_) => 0,
        CertStatus::Unknown(_) => 0,
    }
}
