//! The byte ranges of the fields of a signed OCSP response.

ghost use Rattle.std.specs.Prelude.{◌≡◌};
ghost use Rattle.der_elem.specs.Decoding.{AllRead};
ghost use Rattle.der_ocsp.specs.Ocsp.BasicOcspResponse as basic;
ghost use Rattle.der_ocsp.specs.Ocsp.ResponseData as response;
ghost use Rattle.der_places.specs.Layout.{LaidAt, LaidOut};
ghost use Rattle.der_c.specs.Answers.{Answers};
ghost use Rattle.der_c.specs.Times.{seconds_of_general};

use crate::fault::{Fault, refuse};
use crate::times::general_seconds;
use der_elem::{Form, FromDer};
use der_ocsp::ocsp::{BasicOcspResponse, ResponseData};
use der_places::ocsp::{BasicOcspResponsePlaces, ResponseDataPlaces};
use der_places::{Placed, places_of};
use std::alloc::Global;

/// The byte ranges of the fields of a BasicOCSPResponse, and the values of some fields.
#[repr(C)]
#[derive(Clone, Copy, Debug, PartialEq, Eq)]
pub struct BasicOcspResponseAt {
    /// The four fields of the response.
    pub parts: BasicOcspResponsePlaces,
    /// The five fields of the signed part.
    pub tbs: ResponseDataPlaces,
    /// `producedAt`, in seconds from 1970-01-01T00:00:00Z.
    pub produced_at: u64,
}

/// Reads all octets as a BasicOCSPResponse (RFC 6960 4.2.1), and writes the byte ranges of its
/// fields. These octets are the contents octets of `response` where `responseType` is
/// id-pkix-ocsp-basic.
///
/// Returns 0 and writes the byte ranges to `out`, or returns the number of the first error and
/// leaves `out` unchanged.
#[unsafe(no_mangle)]
pub extern "C" fn der_basic_ocsp_response<'a>(
    alloc: Global,
    octets: &'a [u8],
    out: &mut BasicOcspResponseAt,
    fault: &mut Fault,
) -> u32
    ensures { Answers ⟦<BasicOcspResponse<'a> as Form>⟧ octets.now (λ v at.
        LaidOut (⟦<BasicOcspResponse<'a> as Placed>⟧.layout v) 0 (⟦<BasicOcspResponse<'a> as Placed>⟧.listed at.parts) octets.now
        × LaidAt (⟦<ResponseData<'a> as Placed>⟧.layout (basic.tbs_response_data v)) octets.now at.parts.tbs_response_data (⟦<ResponseData<'a> as Placed>⟧.listed at.tbs)
        × (at.produced_at ≡ seconds_of_general (response.produced_at (basic.tbs_response_data v))))
        out.old out.new fault.old fault.new result }
{
    match BasicOcspResponse::from_der(alloc, octets) {
        Ok(value) => {
            *out = basic_ocsp_response_at(&value, octets);
            0
        }
        Err(error) => refuse(error, fault),
    }
}

/// Returns the byte ranges of a signed response that was read from these octets.
fn basic_ocsp_response_at<'a>(value: &BasicOcspResponse<'a>, octets: &[u8]) -> BasicOcspResponseAt
    ensures parts { AllRead ⟦<BasicOcspResponse<'a> as Form>⟧ octets.now value.now
        → LaidOut (⟦<BasicOcspResponse<'a> as Placed>⟧.layout value.now) 0 (⟦<BasicOcspResponse<'a> as Placed>⟧.listed result.parts) octets.now }
    ensures tbs { AllRead ⟦<BasicOcspResponse<'a> as Form>⟧ octets.now value.now
        → LaidAt (⟦<ResponseData<'a> as Placed>⟧.layout (basic.tbs_response_data value.now)) octets.now result.parts.tbs_response_data (⟦<ResponseData<'a> as Placed>⟧.listed result.tbs) }
    ensures produced_at { result.produced_at ≡ seconds_of_general (response.produced_at (basic.tbs_response_data value.now)) }
{
    let parts = places_of(value, octets, 0);
    let signed = value.tbs_response_data();
    let tbs = places_of(signed, octets, parts.tbs_response_data.offset);
    BasicOcspResponseAt {
        parts,
        tbs,
        produced_at: general_seconds(signed.produced_at()),
    }
}
