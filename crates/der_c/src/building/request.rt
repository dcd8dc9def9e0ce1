//! Requests for certificates that are built (RFC 2986 4).

ghost use Rattle.std.specs.Prelude.{refl};
ghost use Rattle.der_pkcs.specs.Request.CertificationRequest as request;
ghost use Rattle.der_pkcs.specs.Request.CertificationRequestInfo as info;
ghost use Rattle.der_places.specs.Layout.{implicit};
ghost use Rattle.der_c.specs.Building.{BuildsFrom, field, no_more};
ghost use Rattle.der_c.specs.Numbers.{first_version};

use super::parts::FromPlaces;
use super::{FromParts, write_from_parts};
use crate::certification_request::CertificationRequestAt;
use crate::fault::Fault;
use der_bits::BitStringRef;
use der_elem::Form;
use der_fields::{End, Field, Implicit};
use der_modules::field_list;
use der_pkcs::request::{CertificationRequest, CertificationRequestInfo};
use der_pkix::AlgorithmIdentifier;
use der_pkix::certificate::SubjectPublicKeyInfo;
use der_pkix::key::Attributes;
use der_pkix::name::Name;
use std::alloc::Global;

/// The fields of a CertificationRequestInfo that are read from byte ranges.
type InfoFields<'a> = Field<
    Name<'a>,
    Field<SubjectPublicKeyInfo<'a>, Field<Implicit<Attributes<'a>, 0>, End>>,
>;

impl<'a> FromParts<'a> for CertificationRequestInfo<'a> {
    type At = CertificationRequestAt;

    ghost parts = { λ at.
        first_version info.version
        (field ⟦<Name<'a> as Form>⟧ at.info.subject info.subject
        (field ⟦<SubjectPublicKeyInfo<'a> as Form>⟧ at.info.subject_pk_info info.subject_pk_info
        (field ⟦<Implicit<Attributes<'a>, 0> as Form>⟧ at.info.attributes (λ v. implicit (info.attributes v))
        no_more))) };

    fn from_parts(
        alloc: Global,
        octets: &'a [u8],
        at: &CertificationRequestAt,
    ) -> Result<CertificationRequestInfo<'a>, Fault> {
        let info = &at.info;
        let places = field_list![info.subject, info.subject_pk_info, info.attributes];
        match InfoFields::<'a>::from_places(alloc, octets, &places) {
            Ok(fields) => Ok(CertificationRequestInfo::new(
                0,
                &fields.first,
                &fields.rest.first,
                &fields.rest.rest.first.value,
            )),
            Err(fault) => Err(fault),
        }
    }

    ghost takes_no_memory = { refl };
}

/// The fields of a CertificationRequest.
type Fields<'a> = Field<
    CertificationRequestInfo<'a>,
    Field<AlgorithmIdentifier<'a>, Field<BitStringRef<'a>, End>>,
>;

impl<'a> FromParts<'a> for CertificationRequest<'a> {
    type At = CertificationRequestAt;

    ghost parts = { λ at.
        field ⟦<CertificationRequestInfo<'a> as Form>⟧ at.parts.certification_request_info request.certification_request_info
        (field ⟦<AlgorithmIdentifier<'a> as Form>⟧ at.parts.signature_algorithm request.signature_algorithm
        (field ⟦<BitStringRef<'a> as Form>⟧ at.parts.signature request.signature
        no_more)) };

    fn from_parts(
        alloc: Global,
        octets: &'a [u8],
        at: &CertificationRequestAt,
    ) -> Result<CertificationRequest<'a>, Fault> {
        let parts = &at.parts;
        let places = field_list![
            parts.certification_request_info,
            parts.signature_algorithm,
            parts.signature
        ];
        match Fields::<'a>::from_places(alloc, octets, &places) {
            Ok(fields) => Ok(CertificationRequest::new(
                &fields.first,
                &fields.rest.first,
                fields.rest.rest.first,
            )),
            Err(fault) => Err(fault),
        }
    }

    ghost takes_no_memory = { refl };
}

/// Writes a CertificationRequestInfo (RFC 2986 4.1) of version 0, and of the fields of `at.info`.
///
/// Returns 0, 100, 103 or the number of the first error, as the module says.
#[unsafe(no_mangle)]
pub extern "C" fn der_write_certification_request_info<'a>(
    alloc: Global,
    octets: &'a [u8],
    at: &CertificationRequestAt,
    room: &mut [u8],
    count: &mut usize,
    fault: &mut Fault,
) -> u32
    ensures { BuildsFrom ⟦<CertificationRequestInfo<'a> as Form>⟧ octets.now (⟦<CertificationRequestInfo<'a> as FromParts<'a>>⟧.parts at.now)
        room.old room.new count.old count.new fault.old fault.new result }
{
    write_from_parts::<CertificationRequestInfo<'a>>(alloc, octets, at, room, count, fault)
}

/// Writes a CertificationRequest (RFC 2986 4.2) of the three fields of `at.parts`.
///
/// Returns 0, 100, 103 or the number of the first error, as the module says.
#[unsafe(no_mangle)]
pub extern "C" fn der_write_certification_request<'a>(
    alloc: Global,
    octets: &'a [u8],
    at: &CertificationRequestAt,
    room: &mut [u8],
    count: &mut usize,
    fault: &mut Fault,
) -> u32
    ensures { BuildsFrom ⟦<CertificationRequest<'a> as Form>⟧ octets.now (⟦<CertificationRequest<'a> as FromParts<'a>>⟧.parts at.now)
        room.old room.new count.old count.new fault.old fault.new result }
{
    write_from_parts::<CertificationRequest<'a>>(alloc, octets, at, room, count, fault)
}
