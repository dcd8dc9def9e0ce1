//! OCSP responses that are built (RFC 6960 4.2.1).

ghost use Rattle.std.specs.Prelude.{option_map, refl};
ghost use Rattle.der_ocsp.specs.Ocsp.BasicOcspResponse as basic;
ghost use Rattle.der_ocsp.specs.Ocsp.OcspResponse as answer;
ghost use Rattle.der_ocsp.specs.Ocsp.OcspResponseStatus.{names_of_ocsp_response_status};
ghost use Rattle.der_ocsp.specs.Ocsp.ResponseData as response;
ghost use Rattle.der_ocsp.specs.Ocsp.SingleResponse as single;
ghost use Rattle.der_places.specs.Layout.{explicit};
ghost use Rattle.der_c.specs.Building.{BuildsFrom, field, no_more};
ghost use Rattle.der_c.specs.Numbers.{first_version, general, general_if_given, named_number};

use super::numbers::{general_if_given, general_of, status_of};
use super::optional::behind_explicit;
use super::parts::FromPlaces;
use super::{FromParts, write_from_parts};
use crate::basic_ocsp_response::BasicOcspResponseAt;
use crate::fault::Fault;
use crate::ocsp_response::OcspResponseAt;
use crate::single_response::SingleResponseAt;
use der_bits::BitStringRef;
use der_elem::Form;
use der_fields::{End, Explicit, Field};
use der_modules::field_list;
use der_ocsp::ocsp::{
    BasicOcspResponse, CertId, CertStatus, Certificates, OcspResponse, ResponderId, ResponseBytes,
    ResponseData, SingleResponse, SingleResponses,
};
use der_pkix::AlgorithmIdentifier;
use der_pkix::certificate::Extensions;
use std::alloc::Global;

/// The fields of a SingleResponse that are read from byte ranges.
type SingleFields<'a> = Field<
    CertId<'a>,
    Field<CertStatus, Field<Option<Explicit<Extensions<'a>, 1>>, End>>,
>;

impl<'a> FromParts<'a> for SingleResponse<'a> {
    type At = SingleResponseAt;

    ghost parts = { λ at.
        general single.this_update at.this_update
        (general_if_given single.next_update at.next_update
        (field ⟦<CertId<'a> as Form>⟧ at.fields.cert_id single.cert_id
        (field ⟦<CertStatus as Form>⟧ at.fields.cert_status single.cert_status
        (field ⟦<Option<Explicit<Extensions<'a>, 1>> as Form>⟧ at.fields.single_extensions (λ v. option_map explicit (single.single_extensions v))
        no_more)))) };

    fn from_parts(
        alloc: Global,
        octets: &'a [u8],
        at: &SingleResponseAt,
    ) -> Result<SingleResponse<'a>, Fault> {
        let this_update = general_of(at.this_update)?;
        let next_update = general_if_given(at.next_update)?;
        let fields = &at.fields;
        let places = field_list![fields.cert_id, fields.cert_status, fields.single_extensions];
        match SingleFields::<'a>::from_places(alloc, octets, &places) {
            Ok(fields) => Ok(SingleResponse::new(
                &fields.first,
                fields.rest.first,
                this_update,
                next_update,
                behind_explicit(&fields.rest.rest.first),
            )),
            Err(fault) => Err(fault),
        }
    }

    ghost takes_no_memory = { refl };
}

/// The fields of a ResponseData that are read from byte ranges.
type DataFields<'a> = Field<
    ResponderId<'a>,
    Field<SingleResponses<'a>, Field<Option<Explicit<Extensions<'a>, 1>>, End>>,
>;

impl<'a> FromParts<'a> for ResponseData<'a> {
    type At = BasicOcspResponseAt;

    ghost parts = { λ at.
        first_version response.version
        (general response.produced_at at.produced_at
        (field ⟦<ResponderId<'a> as Form>⟧ at.tbs.responder_id response.responder_id
        (field ⟦<SingleResponses<'a> as Form>⟧ at.tbs.responses response.responses
        (field ⟦<Option<Explicit<Extensions<'a>, 1>> as Form>⟧ at.tbs.response_extensions (λ v. option_map explicit (response.response_extensions v))
        no_more)))) };

    fn from_parts(
        alloc: Global,
        octets: &'a [u8],
        at: &BasicOcspResponseAt,
    ) -> Result<ResponseData<'a>, Fault> {
        let produced_at = general_of(at.produced_at)?;
        let tbs = &at.tbs;
        let places = field_list![tbs.responder_id, tbs.responses, tbs.response_extensions];
        match DataFields::<'a>::from_places(alloc, octets, &places) {
            Ok(fields) => Ok(ResponseData::new(
                0,
                &fields.first,
                produced_at,
                &fields.rest.first,
                behind_explicit(&fields.rest.rest.first),
            )),
            Err(fault) => Err(fault),
        }
    }

    ghost takes_no_memory = { refl };
}

/// The fields of a BasicOCSPResponse.
type BasicFields<'a> = Field<
    ResponseData<'a>,
    Field<
        AlgorithmIdentifier<'a>,
        Field<BitStringRef<'a>, Field<Option<Explicit<Certificates<'a>, 0>>, End>>,
    >,
>;

impl<'a> FromParts<'a> for BasicOcspResponse<'a> {
    type At = BasicOcspResponseAt;

    ghost parts = { λ at.
        field ⟦<ResponseData<'a> as Form>⟧ at.parts.tbs_response_data basic.tbs_response_data
        (field ⟦<AlgorithmIdentifier<'a> as Form>⟧ at.parts.signature_algorithm basic.signature_algorithm
        (field ⟦<BitStringRef<'a> as Form>⟧ at.parts.signature basic.signature
        (field ⟦<Option<Explicit<Certificates<'a>, 0>> as Form>⟧ at.parts.certs (λ v. option_map explicit (basic.certs v))
        no_more))) };

    fn from_parts(
        alloc: Global,
        octets: &'a [u8],
        at: &BasicOcspResponseAt,
    ) -> Result<BasicOcspResponse<'a>, Fault> {
        let parts = &at.parts;
        let places = field_list![
            parts.tbs_response_data,
            parts.signature_algorithm,
            parts.signature,
            parts.certs
        ];
        match BasicFields::<'a>::from_places(alloc, octets, &places) {
            Ok(fields) => Ok(BasicOcspResponse::new(
                &fields.first,
                &fields.rest.first,
                fields.rest.rest.first,
                behind_explicit(&fields.rest.rest.rest.first),
            )),
            Err(fault) => Err(fault),
        }
    }

    ghost takes_no_memory = { refl };
}

/// The field of an OCSPResponse that is read from a byte range.
type Fields<'a> = Field<Option<Explicit<ResponseBytes<'a>, 0>>, End>;

impl<'a> FromParts<'a> for OcspResponse<'a> {
    type At = OcspResponseAt;

    ghost parts = { λ at.
        named_number names_of_ocsp_response_status answer.response_status at.response_status
        (field ⟦<Option<Explicit<ResponseBytes<'a>, 0>> as Form>⟧ at.fields.response_bytes (λ v. option_map explicit (answer.response_bytes v))
        no_more) };

    fn from_parts(
        alloc: Global,
        octets: &'a [u8],
        at: &OcspResponseAt,
    ) -> Result<OcspResponse<'a>, Fault> {
        let status = status_of(at.response_status)?;
        let places = field_list![at.fields.response_bytes];
        match Fields::<'a>::from_places(alloc, octets, &places) {
            Ok(fields) => Ok(OcspResponse::new(status, behind_explicit(&fields.first))),
            Err(fault) => Err(fault),
        }
    }

    ghost takes_no_memory = { refl };
}

/// Writes a SingleResponse (RFC 6960 4.2.1) of both dates, and of the other fields of `at.fields`.
///
/// Returns 0, 100, 103 or the number of the first error, as the module says.
#[unsafe(no_mangle)]
pub extern "C" fn der_write_single_response<'a>(
    alloc: Global,
    octets: &'a [u8],
    at: &SingleResponseAt,
    room: &mut [u8],
    count: &mut usize,
    fault: &mut Fault,
) -> u32
    ensures { BuildsFrom ⟦<SingleResponse<'a> as Form>⟧ octets.now (⟦<SingleResponse<'a> as FromParts<'a>>⟧.parts at.now)
        room.old room.new count.old count.new fault.old fault.new result }
{
    write_from_parts::<SingleResponse<'a>>(alloc, octets, at, room, count, fault)
}

/// Writes a ResponseData (RFC 6960 4.2.1) of version 0 and `produced_at`, and of the other fields
/// of `at.tbs`.
///
/// Returns 0, 100, 103 or the number of the first error, as the module says.
#[unsafe(no_mangle)]
pub extern "C" fn der_write_response_data<'a>(
    alloc: Global,
    octets: &'a [u8],
    at: &BasicOcspResponseAt,
    room: &mut [u8],
    count: &mut usize,
    fault: &mut Fault,
) -> u32
    ensures { BuildsFrom ⟦<ResponseData<'a> as Form>⟧ octets.now (⟦<ResponseData<'a> as FromParts<'a>>⟧.parts at.now)
        room.old room.new count.old count.new fault.old fault.new result }
{
    write_from_parts::<ResponseData<'a>>(alloc, octets, at, room, count, fault)
}

/// Writes a BasicOCSPResponse (RFC 6960 4.2.1) of the four fields of `at.parts`.
///
/// Returns 0, 100, 103 or the number of the first error, as the module says.
#[unsafe(no_mangle)]
pub extern "C" fn der_write_basic_ocsp_response<'a>(
    alloc: Global,
    octets: &'a [u8],
    at: &BasicOcspResponseAt,
    room: &mut [u8],
    count: &mut usize,
    fault: &mut Fault,
) -> u32
    ensures { BuildsFrom ⟦<BasicOcspResponse<'a> as Form>⟧ octets.now (⟦<BasicOcspResponse<'a> as FromParts<'a>>⟧.parts at.now)
        room.old room.new count.old count.new fault.old fault.new result }
{
    write_from_parts::<BasicOcspResponse<'a>>(alloc, octets, at, room, count, fault)
}

/// Writes an OCSPResponse (RFC 6960 4.2.1) of its status, and of `response_bytes`.
///
/// Returns 0, 100, 103 or the number of the first error, as the module says.
#[unsafe(no_mangle)]
pub extern "C" fn der_write_ocsp_response<'a>(
    alloc: Global,
    octets: &'a [u8],
    at: &OcspResponseAt,
    room: &mut [u8],
    count: &mut usize,
    fault: &mut Fault,
) -> u32
    ensures { BuildsFrom ⟦<OcspResponse<'a> as Form>⟧ octets.now (⟦<OcspResponse<'a> as FromParts<'a>>⟧.parts at.now)
        room.old room.new count.old count.new fault.old fault.new result }
{
    write_from_parts::<OcspResponse<'a>>(alloc, octets, at, room, count, fault)
}
