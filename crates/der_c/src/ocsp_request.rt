//! OCSP requests.

ghost use Rattle.der_c.specs.Answers.{AnswersPlaces};

use crate::fault::Fault;
use crate::message::read_message;
use der_elem::Form;
use der_ocsp::ocsp::{CertId, OcspRequest, Request, TbsRequest};
use der_places::Placed;
use der_places::ocsp::{CertIdPlaces, OcspRequestPlaces, RequestPlaces, TbsRequestPlaces};
use std::alloc::Global;

/// Reads all octets as an OCSPRequest (RFC 6960 4.1.1), and writes the byte ranges of its fields.
///
/// Returns 0, or the number of the first error; `out` is then unchanged.
#[unsafe(no_mangle)]
pub extern "C" fn der_ocsp_request<'a>(
    alloc: Global,
    octets: &'a [u8],
    out: &mut OcspRequestPlaces,
    fault: &mut Fault,
) -> u32
    ensures { AnswersPlaces ⟦<OcspRequest<'a> as Form>⟧ ⟦<OcspRequest<'a> as Placed>⟧.layout ⟦<OcspRequest<'a> as Placed>⟧.listed
        octets.now out.old out.new fault.old fault.new result }
{
    read_message::<OcspRequestPlaces, OcspRequest<'a>>(alloc, octets, out, fault)
}

/// Reads all octets as a TBSRequest (RFC 6960 4.1.1), and writes the byte ranges of its fields.
///
/// Returns 0, or the number of the first error; `out` is then unchanged.
#[unsafe(no_mangle)]
pub extern "C" fn der_tbs_request<'a>(
    alloc: Global,
    octets: &'a [u8],
    out: &mut TbsRequestPlaces,
    fault: &mut Fault,
) -> u32
    ensures { AnswersPlaces ⟦<TbsRequest<'a> as Form>⟧ ⟦<TbsRequest<'a> as Placed>⟧.layout ⟦<TbsRequest<'a> as Placed>⟧.listed
        octets.now out.old out.new fault.old fault.new result }
{
    read_message::<TbsRequestPlaces, TbsRequest<'a>>(alloc, octets, out, fault)
}

/// Reads all octets as a Request (RFC 6960 4.1.1), and writes the byte ranges of its fields.
///
/// Returns 0, or the number of the first error; `out` is then unchanged.
#[unsafe(no_mangle)]
pub extern "C" fn der_request<'a>(
    alloc: Global,
    octets: &'a [u8],
    out: &mut RequestPlaces,
    fault: &mut Fault,
) -> u32
    ensures { AnswersPlaces ⟦<Request<'a> as Form>⟧ ⟦<Request<'a> as Placed>⟧.layout ⟦<Request<'a> as Placed>⟧.listed
        octets.now out.old out.new fault.old fault.new result }
{
    read_message::<RequestPlaces, Request<'a>>(alloc, octets, out, fault)
}

/// Reads all octets as a CertID (RFC 6960 4.1.1), and writes the byte ranges of its fields.
///
/// Returns 0, or the number of the first error; `out` is then unchanged.
#[unsafe(no_mangle)]
pub extern "C" fn der_cert_id<'a>(
    alloc: Global,
    octets: &'a [u8],
    out: &mut CertIdPlaces,
    fault: &mut Fault,
) -> u32
    ensures { AnswersPlaces ⟦<CertId<'a> as Form>⟧ ⟦<CertId<'a> as Placed>⟧.layout ⟦<CertId<'a> as Placed>⟧.listed
        octets.now out.old out.new fault.old fault.new result }
{
    read_message::<CertIdPlaces, CertId<'a>>(alloc, octets, out, fault)
}
