//! OCSP requests that are built (RFC 6960 4.1.1).

ghost use Rattle.std.specs.Prelude.{option_map, refl};
ghost use Rattle.der_ocsp.specs.Ocsp.CertId as cert_id;
ghost use Rattle.der_ocsp.specs.Ocsp.OcspRequest as ocsp;
ghost use Rattle.der_ocsp.specs.Ocsp.Request as request;
ghost use Rattle.der_ocsp.specs.Ocsp.TbsRequest as tbs;
ghost use Rattle.der_places.specs.Layout.{explicit};
ghost use Rattle.der_c.specs.Building.{BuildsFrom, field, no_more};
ghost use Rattle.der_c.specs.Numbers.{first_version};

use super::optional::behind_explicit;
use super::parts::FromPlaces;
use super::{FromParts, write_from_parts};
use crate::fault::Fault;
use der_elem::Form;
use der_extensions::extension::GeneralName;
use der_fields::{End, Explicit, Field};
use der_modules::field_list;
use der_ocsp::ocsp::{CertId, OcspRequest, Request, Requests, Signature, TbsRequest};
use der_opaque::OctetStringRef;
use der_pkix::AlgorithmIdentifier;
use der_pkix::certificate::{CertificateSerialNumber, Extensions};
use der_places::ocsp::{CertIdPlaces, OcspRequestPlaces, RequestPlaces, TbsRequestPlaces};
use std::alloc::Global;

/// The fields of a CertID.
type CertIdFields<'a> = Field<
    AlgorithmIdentifier<'a>,
    Field<OctetStringRef<'a>, Field<OctetStringRef<'a>, Field<CertificateSerialNumber<'a>, End>>>,
>;

impl<'a> FromParts<'a> for CertId<'a> {
    type At = CertIdPlaces;

    ghost parts = { λ at.
        field ⟦<AlgorithmIdentifier<'a> as Form>⟧ at.hash_algorithm cert_id.hash_algorithm
        (field ⟦<OctetStringRef<'a> as Form>⟧ at.issuer_name_hash cert_id.issuer_name_hash
        (field ⟦<OctetStringRef<'a> as Form>⟧ at.issuer_key_hash cert_id.issuer_key_hash
        (field ⟦<CertificateSerialNumber<'a> as Form>⟧ at.serial_number cert_id.serial_number
        no_more))) };

    fn from_parts(alloc: Global, octets: &'a [u8], at: &CertIdPlaces) -> Result<CertId<'a>, Fault> {
        let places = field_list![
            at.hash_algorithm,
            at.issuer_name_hash,
            at.issuer_key_hash,
            at.serial_number
        ];
        match CertIdFields::<'a>::from_places(alloc, octets, &places) {
            Ok(fields) => Ok(CertId::new(
                &fields.first,
                fields.rest.first,
                fields.rest.rest.first,
                fields.rest.rest.rest.first,
            )),
            Err(fault) => Err(fault),
        }
    }

    ghost takes_no_memory = { refl };
}

/// The fields of a Request.
type RequestFields<'a> = Field<CertId<'a>, Field<Option<Explicit<Extensions<'a>, 0>>, End>>;

impl<'a> FromParts<'a> for Request<'a> {
    type At = RequestPlaces;

    ghost parts = { λ at.
        field ⟦<CertId<'a> as Form>⟧ at.req_cert request.req_cert
        (field ⟦<Option<Explicit<Extensions<'a>, 0>> as Form>⟧ at.single_request_extensions (λ v. option_map explicit (request.single_request_extensions v))
        no_more) };

    fn from_parts(
        alloc: Global,
        octets: &'a [u8],
        at: &RequestPlaces,
    ) -> Result<Request<'a>, Fault> {
        let places = field_list![at.req_cert, at.single_request_extensions];
        match RequestFields::<'a>::from_places(alloc, octets, &places) {
            Ok(fields) => Ok(Request::new(&fields.first, behind_explicit(&fields.rest.first))),
            Err(fault) => Err(fault),
        }
    }

    ghost takes_no_memory = { refl };
}

/// The fields of a TBSRequest that are read from byte ranges.
type TbsFields<'a> = Field<
    Option<Explicit<GeneralName<'a>, 1>>,
    Field<Requests<'a>, Field<Option<Explicit<Extensions<'a>, 2>>, End>>,
>;

impl<'a> FromParts<'a> for TbsRequest<'a> {
    type At = TbsRequestPlaces;

    ghost parts = { λ at.
        first_version tbs.version
        (field ⟦<Option<Explicit<GeneralName<'a>, 1>> as Form>⟧ at.requestor_name (λ v. option_map explicit (tbs.requestor_name v))
        (field ⟦<Requests<'a> as Form>⟧ at.request_list tbs.request_list
        (field ⟦<Option<Explicit<Extensions<'a>, 2>> as Form>⟧ at.request_extensions (λ v. option_map explicit (tbs.request_extensions v))
        no_more))) };

    fn from_parts(
        alloc: Global,
        octets: &'a [u8],
        at: &TbsRequestPlaces,
    ) -> Result<TbsRequest<'a>, Fault> {
        let places = field_list![at.requestor_name, at.request_list, at.request_extensions];
        match TbsFields::<'a>::from_places(alloc, octets, &places) {
            Ok(fields) => Ok(TbsRequest::new(
                0,
                behind_explicit(&fields.first),
                &fields.rest.first,
                behind_explicit(&fields.rest.rest.first),
            )),
            Err(fault) => Err(fault),
        }
    }

    ghost takes_no_memory = { refl };
}

/// The fields of an OCSPRequest.
type Fields<'a> = Field<TbsRequest<'a>, Field<Option<Explicit<Signature<'a>, 0>>, End>>;

impl<'a> FromParts<'a> for OcspRequest<'a> {
    type At = OcspRequestPlaces;

    ghost parts = { λ at.
        field ⟦<TbsRequest<'a> as Form>⟧ at.tbs_request ocsp.tbs_request
        (field ⟦<Option<Explicit<Signature<'a>, 0>> as Form>⟧ at.optional_signature (λ v. option_map explicit (ocsp.optional_signature v))
        no_more) };

    fn from_parts(
        alloc: Global,
        octets: &'a [u8],
        at: &OcspRequestPlaces,
    ) -> Result<OcspRequest<'a>, Fault> {
        let places = field_list![at.tbs_request, at.optional_signature];
        match Fields::<'a>::from_places(alloc, octets, &places) {
            Ok(fields) => Ok(OcspRequest::new(&fields.first, behind_explicit(&fields.rest.first))),
            Err(fault) => Err(fault),
        }
    }

    ghost takes_no_memory = { refl };
}

/// Writes a CertID (RFC 6960 4.1.1) of its four fields.
///
/// Returns 0, 100, 103 or the number of the first error, as the module says.
#[unsafe(no_mangle)]
pub extern "C" fn der_write_cert_id<'a>(
    alloc: Global,
    octets: &'a [u8],
    at: &CertIdPlaces,
    room: &mut [u8],
    count: &mut usize,
    fault: &mut Fault,
) -> u32
    ensures { BuildsFrom ⟦<CertId<'a> as Form>⟧ octets.now (⟦<CertId<'a> as FromParts<'a>>⟧.parts at.now)
        room.old room.new count.old count.new fault.old fault.new result }
{
    write_from_parts::<CertId<'a>>(alloc, octets, at, room, count, fault)
}

/// Writes a Request (RFC 6960 4.1.1) of its two fields.
///
/// Returns 0, 100, 103 or the number of the first error, as the module says.
#[unsafe(no_mangle)]
pub extern "C" fn der_write_request<'a>(
    alloc: Global,
    octets: &'a [u8],
    at: &RequestPlaces,
    room: &mut [u8],
    count: &mut usize,
    fault: &mut Fault,
) -> u32
    ensures { BuildsFrom ⟦<Request<'a> as Form>⟧ octets.now (⟦<Request<'a> as FromParts<'a>>⟧.parts at.now)
        room.old room.new count.old count.new fault.old fault.new result }
{
    write_from_parts::<Request<'a>>(alloc, octets, at, room, count, fault)
}

/// Writes a TBSRequest (RFC 6960 4.1.1) of version 0, and of the other fields.
///
/// Returns 0, 100, 103 or the number of the first error, as the module says.
#[unsafe(no_mangle)]
pub extern "C" fn der_write_tbs_request<'a>(
    alloc: Global,
    octets: &'a [u8],
    at: &TbsRequestPlaces,
    room: &mut [u8],
    count: &mut usize,
    fault: &mut Fault,
) -> u32
    ensures { BuildsFrom ⟦<TbsRequest<'a> as Form>⟧ octets.now (⟦<TbsRequest<'a> as FromParts<'a>>⟧.parts at.now)
        room.old room.new count.old count.new fault.old fault.new result }
{
    write_from_parts::<TbsRequest<'a>>(alloc, octets, at, room, count, fault)
}

/// Writes an OCSPRequest (RFC 6960 4.1.1) of its two fields.
///
/// Returns 0, 100, 103 or the number of the first error, as the module says.
#[unsafe(no_mangle)]
pub extern "C" fn der_write_ocsp_request<'a>(
    alloc: Global,
    octets: &'a [u8],
    at: &OcspRequestPlaces,
    room: &mut [u8],
    count: &mut usize,
    fault: &mut Fault,
) -> u32
    ensures { BuildsFrom ⟦<OcspRequest<'a> as Form>⟧ octets.now (⟦<OcspRequest<'a> as FromParts<'a>>⟧.parts at.now)
        room.old room.new count.old count.new fault.old fault.new result }
{
    write_from_parts::<OcspRequest<'a>>(alloc, octets, at, room, count, fault)
}
