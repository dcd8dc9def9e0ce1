//! The byte ranges of the fields of an OCSP response.

ghost use Rattle.std.specs.Prelude.{◌≡◌, List, Some, length, option_copied, ℕ};
ghost use Rattle.der_elem.specs.Decoding.{AllRead};
ghost use Rattle.der_ocsp.specs.Ocsp.OcspResponse as answer;
ghost use Rattle.der_ocsp.specs.Ocsp.OcspResponseStatus.{number_of_ocsp_response_status};
ghost use Rattle.der_places.specs.Layout.{LaidInsideIfThere, LaidOut, explicit, reads_optional};
ghost use Rattle.der_places.specs.Walking.{StandAt};
ghost use Rattle.der_tlv.specs.declared.encoding_rules.EncodingRules.TheVariants.{Der};
ghost use Rattle.der_c.specs.Answers.{Answers};

use crate::fault::{Fault, refuse};
use der_elem::{Form, FromDer};
use der_fields::Explicit;
use der_numbers::Enumeration;
use der_ocsp::ocsp::{OcspResponse, ResponseBytes};
use der_places::ocsp::{OcspResponsePlaces, ResponseBytesPlaces};
use der_places::{Place, Placed, contents_of, places_of};
use std::alloc::Global;

/// The byte ranges of the fields of an OCSPResponse and of its `responseBytes`, and its status.
#[repr(C)]
#[derive(Clone, Copy, Debug, PartialEq, Eq)]
pub struct OcspResponseAt {
    /// Its fields.
    pub fields: OcspResponsePlaces,
    /// The two fields of `responseBytes`; no octets if it is absent.
    pub bytes: ResponseBytesPlaces,
    /// 0 for successful; any other number is the reason why there is no response.
    pub response_status: i64,
}

/// Reads all octets as an OCSPResponse (RFC 6960 4.2.1), and writes the byte ranges of its fields
/// and of those of its `responseBytes`.
///
/// Returns 0 and writes the byte ranges to `out`, or returns the number of the first error and
/// leaves `out` unchanged.
#[unsafe(no_mangle)]
pub extern "C" fn der_ocsp_response<'a>(
    alloc: Global,
    octets: &'a [u8],
    out: &mut OcspResponseAt,
    fault: &mut Fault,
) -> u32
    ensures { Answers ⟦<OcspResponse<'a> as Form>⟧ octets.now (λ v at.
        LaidOut (⟦<OcspResponse<'a> as Placed>⟧.layout v) 0 (⟦<OcspResponse<'a> as Placed>⟧.listed at.fields) octets.now
        × LaidInsideIfThere ⟦<ResponseBytes<'a> as Placed>⟧.layout octets.now at.fields.response_bytes (⟦<ResponseBytes<'a> as Placed>⟧.listed at.bytes) (answer.response_bytes v)
        × (at.response_status ≡ number_of_ocsp_response_status (answer.response_status v)))
        out.old out.new fault.old fault.new result }
{
    match OcspResponse::from_der(alloc, octets) {
        Ok(value) => {
            *out = ocsp_response_at(&value, octets);
            0
        }
        Err(error) => refuse(error, fault),
    }
}

/// Returns the byte ranges of an OCSPResponse that was read from these octets.
fn ocsp_response_at<'a>(value: &OcspResponse<'a>, octets: &[u8]) -> OcspResponseAt
    ensures fields { AllRead ⟦<OcspResponse<'a> as Form>⟧ octets.now value.now
        → LaidOut (⟦<OcspResponse<'a> as Placed>⟧.layout value.now) 0 (⟦<OcspResponse<'a> as Placed>⟧.listed result.fields) octets.now }
    ensures bytes { AllRead ⟦<OcspResponse<'a> as Form>⟧ octets.now value.now
        → LaidInsideIfThere ⟦<ResponseBytes<'a> as Placed>⟧.layout octets.now result.fields.response_bytes (⟦<ResponseBytes<'a> as Placed>⟧.listed result.bytes) (answer.response_bytes value.now) }
    ensures response_status { result.response_status ≡ number_of_ocsp_response_status (answer.response_status value.now) }
{
    let fields = places_of(value, octets, 0);
    let held = value.response_bytes();
    let bytes = response_bytes_at(held, octets, fields.response_bytes);
    OcspResponseAt {
        fields,
        bytes,
        response_status: value.response_status().number(),
    }
}

/// Returns the byte ranges of the fields of `responseBytes`, which are after a tag at a byte
/// range.
fn response_bytes_at<'a>(
    value: Option<&ResponseBytes<'a>>,
    octets: &[u8],
    field: Place,
) -> ResponseBytesPlaces
    ensures { (own : List ℕ) → reads_optional (λ x. ⟦<Explicit<ResponseBytes<'a>, 0> as Form>⟧.accepts Der (explicit x)) (option_copied value.entry) own
        → StandAt octets.now field.offset own → field.length ≡ length own
        → LaidInsideIfThere ⟦<ResponseBytes<'a> as Placed>⟧.layout octets.now field (⟦<ResponseBytes<'a> as Placed>⟧.listed result) (option_copied value.entry) }
{
    match value {
        Some(bytes) => inner_bytes_at(bytes, octets, field),
        None => absent_bytes(),
    }
}

/// Returns the byte ranges of the fields of a `responseBytes` that is present.
fn inner_bytes_at<'a>(bytes: &ResponseBytes<'a>, octets: &[u8], field: Place) -> ResponseBytesPlaces
    ensures { (own : List ℕ) → ⟦<Explicit<ResponseBytes<'a>, 0> as Form>⟧.accepts Der (explicit bytes.now) own
        → StandAt octets.now field.offset own → field.length ≡ length own
        → LaidInsideIfThere ⟦<ResponseBytes<'a> as Placed>⟧.layout octets.now field (⟦<ResponseBytes<'a> as Placed>⟧.listed result) (Some bytes.now) }
{
    let inner = contents_of(octets, field);
    places_of(bytes, octets, inner.offset)
}

/// Returns the byte ranges of fields that are absent.
fn absent_bytes() -> ResponseBytesPlaces
    ensures response_type { result.response_type.length ≡ 0 }
    ensures response { result.response.length ≡ 0 }
{
    let nowhere = Place {
        offset: 0,
        length: 0,
    };
    ResponseBytesPlaces {
        response_type: nowhere,
        response: nowhere,
    }
}
