//! The byte ranges of the fields of a request for a certificate.

ghost use Rattle.std.specs.Prelude.{◌≡◌};
ghost use Rattle.der_elem.specs.Decoding.{AllRead};
ghost use Rattle.der_pkcs.specs.Request.CertificationRequest as request;
ghost use Rattle.der_places.specs.Layout.{LaidAt, LaidOut};
ghost use Rattle.der_c.specs.Answers.{Answers};

use crate::fault::{Fault, refuse};
use der_elem::{Form, FromDer};
use der_pkcs::request::{CertificationRequest, CertificationRequestInfo};
use der_places::request::{CertificationRequestInfoPlaces, CertificationRequestPlaces};
use der_places::{Placed, places_of};
use std::alloc::Global;

/// The byte ranges of the fields of a request for a certificate.
#[repr(C)]
#[derive(Clone, Copy, Debug, PartialEq, Eq)]
pub struct CertificationRequestAt {
    /// The three fields of the request.
    pub parts: CertificationRequestPlaces,
    /// The four fields of the signed part.
    pub info: CertificationRequestInfoPlaces,
}

/// Reads all octets as a request for a certificate (RFC 2986 4.2), and writes the byte ranges of
/// its fields.
///
/// Returns 0 and writes the byte ranges to `out`, or returns the number of the first error and
/// leaves `out` unchanged.
#[unsafe(no_mangle)]
pub extern "C" fn der_certification_request<'a>(
    alloc: Global,
    octets: &'a [u8],
    out: &mut CertificationRequestAt,
    fault: &mut Fault,
) -> u32
    ensures { Answers ⟦<CertificationRequest<'a> as Form>⟧ octets.now (λ v at.
        LaidOut (⟦<CertificationRequest<'a> as Placed>⟧.layout v) 0 (⟦<CertificationRequest<'a> as Placed>⟧.listed at.parts) octets.now
        × LaidAt (⟦<CertificationRequestInfo<'a> as Placed>⟧.layout (request.certification_request_info v)) octets.now at.parts.certification_request_info (⟦<CertificationRequestInfo<'a> as Placed>⟧.listed at.info))
        out.old out.new fault.old fault.new result }
{
    match CertificationRequest::from_der(alloc, octets) {
        Ok(value) => {
            *out = certification_request_at(&value, octets);
            0
        }
        Err(error) => refuse(error, fault),
    }
}

/// Returns the byte ranges of a request that was read from these octets.
fn certification_request_at<'a>(
    value: &CertificationRequest<'a>,
    octets: &[u8],
) -> CertificationRequestAt
    ensures parts { AllRead ⟦<CertificationRequest<'a> as Form>⟧ octets.now value.now
        → LaidOut (⟦<CertificationRequest<'a> as Placed>⟧.layout value.now) 0 (⟦<CertificationRequest<'a> as Placed>⟧.listed result.parts) octets.now }
    ensures info { AllRead ⟦<CertificationRequest<'a> as Form>⟧ octets.now value.now
        → LaidAt (⟦<CertificationRequestInfo<'a> as Placed>⟧.layout (request.certification_request_info value.now)) octets.now result.parts.certification_request_info (⟦<CertificationRequestInfo<'a> as Placed>⟧.listed result.info) }
{
    let parts = places_of(value, octets, 0);
    let signed = value.certification_request_info();
    let info = places_of(signed, octets, parts.certification_request_info.offset);
    CertificationRequestAt { parts, info }
}
