//! Certificates that are built.

ghost use Rattle.std.specs.Prelude.{◌≡◌, option_map, refl};
ghost use Rattle.der_pkix.specs.Certificate.Certificate as certificate;
ghost use Rattle.der_pkix.specs.Certificate.TbsCertificate as tbs;
ghost use Rattle.der_pkix.specs.Certificate.Validity as validity;
ghost use Rattle.der_places.specs.Layout.{explicit, implicit};
ghost use Rattle.der_c.specs.Building.{BuildsFrom, field, no_more};
ghost use Rattle.der_c.specs.Numbers.{date, version};

use super::numbers::{date_of, version_of};
use super::optional::{behind_explicit, behind_implicit};
use super::parts::FromPlaces;
use super::{FromParts, write_from_parts};
use crate::certificate::CertificateAt;
use crate::fault::Fault;
use der_bits::BitStringRef;
use der_elem::Form;
use der_fields::{End, Explicit, Field, Implicit};
use der_modules::field_list;
use der_pkix::AlgorithmIdentifier;
use der_pkix::certificate::{
    Certificate, CertificateSerialNumber, Extensions, SubjectPublicKeyInfo, TbsCertificate,
    UniqueIdentifier, Validity,
};
use der_pkix::name::Name;
use std::alloc::Global;

/// The fields of a TBSCertificate that are read from byte ranges.
type TbsFields<'a> = Field<
    CertificateSerialNumber<'a>,
    Field<
        AlgorithmIdentifier<'a>,
        Field<
            Name<'a>,
            Field<
                Name<'a>,
                Field<
                    SubjectPublicKeyInfo<'a>,
                    Field<
                        Option<Implicit<UniqueIdentifier<'a>, 1>>,
                        Field<
                            Option<Implicit<UniqueIdentifier<'a>, 2>>,
                            Field<Option<Explicit<Extensions<'a>, 3>>, End>,
                        >,
                    >,
                >,
            >,
        >,
    >,
>;

impl<'a> FromParts<'a> for TbsCertificate<'a> {
    type At = CertificateAt;

    ghost parts = { λ at.
        version tbs.version at.version
        (date (λ v. validity.not_before (tbs.validity v)) at.not_before
        (date (λ v. validity.not_after (tbs.validity v)) at.not_after
        (field ⟦<CertificateSerialNumber<'a> as Form>⟧ at.tbs.serial_number tbs.serial_number
        (field ⟦<AlgorithmIdentifier<'a> as Form>⟧ at.tbs.signature tbs.signature
        (field ⟦<Name<'a> as Form>⟧ at.tbs.issuer tbs.issuer
        (field ⟦<Name<'a> as Form>⟧ at.tbs.subject tbs.subject
        (field ⟦<SubjectPublicKeyInfo<'a> as Form>⟧ at.tbs.subject_public_key_info tbs.subject_public_key_info
        (field ⟦<Option<Implicit<UniqueIdentifier<'a>, 1>> as Form>⟧ at.tbs.issuer_unique_id (λ v. option_map implicit (tbs.issuer_unique_id v))
        (field ⟦<Option<Implicit<UniqueIdentifier<'a>, 2>> as Form>⟧ at.tbs.subject_unique_id (λ v. option_map implicit (tbs.subject_unique_id v))
        (field ⟦<Option<Explicit<Extensions<'a>, 3>> as Form>⟧ at.tbs.extensions (λ v. option_map explicit (tbs.extensions v))
        no_more)))))))))) };

    fn from_parts(
        alloc: Global,
        octets: &'a [u8],
        at: &CertificateAt,
    ) -> Result<TbsCertificate<'a>, Fault> {
        let version = version_of(at.version)?;
        let not_before = date_of(at.not_before)?;
        let not_after = date_of(at.not_after)?;
        let tbs = &at.tbs;
        let places = field_list![
            tbs.serial_number,
            tbs.signature,
            tbs.issuer,
            tbs.subject,
            tbs.subject_public_key_info,
            tbs.issuer_unique_id,
            tbs.subject_unique_id,
            tbs.extensions
        ];
        let fields = match TbsFields::<'a>::from_places(alloc, octets, &places) {
            Ok(fields) => fields,
            Err(fault) => return Err(fault),
        };
        let names = &fields.rest.rest;
        let others = &names.rest.rest.rest;
        Ok(TbsCertificate::new(
            version,
            fields.first,
            &fields.rest.first,
            &names.first,
            Validity::new(not_before, not_after),
            &names.rest.first,
            &names.rest.rest.first,
            behind_implicit(&others.first),
            behind_implicit(&others.rest.first),
            behind_explicit(&others.rest.rest.first),
        ))
    }

    ghost takes_no_memory = { refl };
}

/// The fields of a Certificate.
type Fields<'a> = Field<
    TbsCertificate<'a>,
    Field<AlgorithmIdentifier<'a>, Field<BitStringRef<'a>, End>>,
>;

impl<'a> FromParts<'a> for Certificate<'a> {
    type At = CertificateAt;

    ghost parts = { λ at.
        field ⟦<TbsCertificate<'a> as Form>⟧ at.parts.tbs_certificate certificate.tbs_certificate
        (field ⟦<AlgorithmIdentifier<'a> as Form>⟧ at.parts.signature_algorithm certificate.signature_algorithm
        (field ⟦<BitStringRef<'a> as Form>⟧ at.parts.signature_value certificate.signature_value
        no_more)) };

    fn from_parts(
        alloc: Global,
        octets: &'a [u8],
        at: &CertificateAt,
    ) -> Result<Certificate<'a>, Fault> {
        let parts = &at.parts;
        let places = field_list![
            parts.tbs_certificate,
            parts.signature_algorithm,
            parts.signature_value
        ];
        match Fields::<'a>::from_places(alloc, octets, &places) {
            Ok(fields) => Ok(Certificate::new(
                &fields.first,
                &fields.rest.first,
                fields.rest.rest.first,
            )),
            Err(fault) => Err(fault),
        }
    }

    ghost takes_no_memory = { refl };
}

/// Writes a TBSCertificate (RFC 5280 4.1.1.1) of a version and both dates, and of the fields of
/// `at.tbs`.
///
/// Returns 0, 100, 103 or the number of the first error, as the module says.
#[unsafe(no_mangle)]
pub extern "C" fn der_write_tbs_certificate<'a>(
    alloc: Global,
    octets: &'a [u8],
    at: &CertificateAt,
    room: &mut [u8],
    count: &mut usize,
    fault: &mut Fault,
) -> u32
    ensures { BuildsFrom ⟦<TbsCertificate<'a> as Form>⟧ octets.now (⟦<TbsCertificate<'a> as FromParts<'a>>⟧.parts at.now)
        room.old room.new count.old count.new fault.old fault.new result }
{
    write_from_parts::<TbsCertificate<'a>>(alloc, octets, at, room, count, fault)
}

/// Writes a Certificate (RFC 5280 4.1) of the three fields of `at.parts`.
///
/// Returns 0, 100, 103 or the number of the first error, as the module says.
#[unsafe(no_mangle)]
pub extern "C" fn der_write_certificate<'a>(
    alloc: Global,
    octets: &'a [u8],
    at: &CertificateAt,
    room: &mut [u8],
    count: &mut usize,
    fault: &mut Fault,
) -> u32
    ensures { BuildsFrom ⟦<Certificate<'a> as Form>⟧ octets.now (⟦<Certificate<'a> as FromParts<'a>>⟧.parts at.now)
        room.old room.new count.old count.new fault.old fault.new result }
{
    write_from_parts::<Certificate<'a>>(alloc, octets, at, room, count, fault)
}
