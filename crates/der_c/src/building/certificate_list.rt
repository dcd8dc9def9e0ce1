//! Lists of revoked certificates that are built (RFC 5280 5.1).

ghost use Rattle.std.specs.Prelude.{option_map, refl};
ghost use Rattle.der_pkix.specs.Crl.CertificateList as list;
ghost use Rattle.der_pkix.specs.Crl.RevokedCertificate as revoked;
ghost use Rattle.der_pkix.specs.Crl.TbsCertList as tbs;
ghost use Rattle.der_places.specs.Layout.{explicit};
ghost use Rattle.der_c.specs.Building.{BuildsFrom, field, no_more};
ghost use Rattle.der_c.specs.Numbers.{date, date_if_given, version_if_given};

use super::numbers::{date_if_given, date_of, version_if_given};
use super::optional::{behind_explicit, present};
use super::parts::FromPlaces;
use super::{FromParts, write_from_parts};
use crate::certificate_list::CertificateListAt;
use crate::fault::Fault;
use crate::revoked_certificate::RevokedCertificateAt;
use der_bits::BitStringRef;
use der_elem::Form;
use der_fields::{End, Explicit, Field};
use der_lists::ListRef;
use der_modules::field_list;
use der_pkix::AlgorithmIdentifier;
use der_pkix::certificate::{CertificateSerialNumber, Extensions};
use der_pkix::crl::{CertificateList, RevokedCertificate, TbsCertList};
use der_pkix::name::Name;
use std::alloc::Global;

/// The fields of an entry that are read from byte ranges.
type EntryFields<'a> = Field<CertificateSerialNumber<'a>, Field<Option<Extensions<'a>>, End>>;

impl<'a> FromParts<'a> for RevokedCertificate<'a> {
    type At = RevokedCertificateAt;

    ghost parts = { λ at.
        date revoked.revocation_date at.revocation_date
        (field ⟦<CertificateSerialNumber<'a> as Form>⟧ at.fields.user_certificate revoked.user_certificate
        (field ⟦<Option<Extensions<'a>> as Form>⟧ at.fields.crl_entry_extensions revoked.crl_entry_extensions
        no_more)) };

    fn from_parts(
        alloc: Global,
        octets: &'a [u8],
        at: &RevokedCertificateAt,
    ) -> Result<RevokedCertificate<'a>, Fault> {
        let revocation_date = date_of(at.revocation_date)?;
        let places = field_list![at.fields.user_certificate, at.fields.crl_entry_extensions];
        match EntryFields::<'a>::from_places(alloc, octets, &places) {
            Ok(fields) => Ok(RevokedCertificate::new(
                fields.first,
                revocation_date,
                present(&fields.rest.first),
            )),
            Err(fault) => Err(fault),
        }
    }

    ghost takes_no_memory = { refl };
}

/// The fields of a TBSCertList that are read from byte ranges.
type TbsFields<'a> = Field<
    AlgorithmIdentifier<'a>,
    Field<
        Name<'a>,
        Field<
            Option<ListRef<'a, RevokedCertificate<'a>>>,
            Field<Option<Explicit<Extensions<'a>, 0>>, End>,
        >,
    >,
>;

impl<'a> FromParts<'a> for TbsCertList<'a> {
    type At = CertificateListAt;

    ghost parts = { λ at.
        version_if_given tbs.version at.version
        (date tbs.this_update at.this_update
        (date_if_given tbs.next_update at.next_update
        (field ⟦<AlgorithmIdentifier<'a> as Form>⟧ at.tbs.signature tbs.signature
        (field ⟦<Name<'a> as Form>⟧ at.tbs.issuer tbs.issuer
        (field ⟦<Option<ListRef<'a, RevokedCertificate<'a>>> as Form>⟧ at.tbs.revoked_certificates tbs.revoked_certificates
        (field ⟦<Option<Explicit<Extensions<'a>, 0>> as Form>⟧ at.tbs.crl_extensions (λ v. option_map explicit (tbs.crl_extensions v))
        no_more)))))) };

    fn from_parts(
        alloc: Global,
        octets: &'a [u8],
        at: &CertificateListAt,
    ) -> Result<TbsCertList<'a>, Fault> {
        let version = version_if_given(at.version)?;
        let this_update = date_of(at.this_update)?;
        let next_update = date_if_given(at.next_update)?;
        let tbs = &at.tbs;
        let places = field_list![
            tbs.signature,
            tbs.issuer,
            tbs.revoked_certificates,
            tbs.crl_extensions
        ];
        match TbsFields::<'a>::from_places(alloc, octets, &places) {
            Ok(fields) => Ok(TbsCertList::new(
                version,
                &fields.first,
                &fields.rest.first,
                this_update,
                next_update,
                present(&fields.rest.rest.first),
                behind_explicit(&fields.rest.rest.rest.first),
            )),
            Err(fault) => Err(fault),
        }
    }

    ghost takes_no_memory = { refl };
}

/// The fields of a CertificateList.
type Fields<'a> = Field<
    TbsCertList<'a>,
    Field<AlgorithmIdentifier<'a>, Field<BitStringRef<'a>, End>>,
>;

impl<'a> FromParts<'a> for CertificateList<'a> {
    type At = CertificateListAt;

    ghost parts = { λ at.
        field ⟦<TbsCertList<'a> as Form>⟧ at.parts.tbs_cert_list list.tbs_cert_list
        (field ⟦<AlgorithmIdentifier<'a> as Form>⟧ at.parts.signature_algorithm list.signature_algorithm
        (field ⟦<BitStringRef<'a> as Form>⟧ at.parts.signature_value list.signature_value
        no_more)) };

    fn from_parts(
        alloc: Global,
        octets: &'a [u8],
        at: &CertificateListAt,
    ) -> Result<CertificateList<'a>, Fault> {
        let parts = &at.parts;
        let places = field_list![
            parts.tbs_cert_list,
            parts.signature_algorithm,
            parts.signature_value
        ];
        match Fields::<'a>::from_places(alloc, octets, &places) {
            Ok(fields) => Ok(CertificateList::new(
                &fields.first,
                &fields.rest.first,
                fields.rest.rest.first,
            )),
            Err(fault) => Err(fault),
        }
    }

    ghost takes_no_memory = { refl };
}

/// Writes an entry of a list of revoked certificates (RFC 5280 5.1.2.6) of a date, and of the
/// fields of `at.fields`.
///
/// Returns 0, 100, 103 or the number of the first error, as the module says.
#[unsafe(no_mangle)]
pub extern "C" fn der_write_revoked_certificate<'a>(
    alloc: Global,
    octets: &'a [u8],
    at: &RevokedCertificateAt,
    room: &mut [u8],
    count: &mut usize,
    fault: &mut Fault,
) -> u32
    ensures { BuildsFrom ⟦<RevokedCertificate<'a> as Form>⟧ octets.now (⟦<RevokedCertificate<'a> as FromParts<'a>>⟧.parts at.now)
        room.old room.new count.old count.new fault.old fault.new result }
{
    write_from_parts::<RevokedCertificate<'a>>(alloc, octets, at, room, count, fault)
}

/// Writes a TBSCertList (RFC 5280 5.1.2) of a version and both dates, and of the fields of
/// `at.tbs`.
///
/// Returns 0, 100, 103 or the number of the first error, as the module says.
#[unsafe(no_mangle)]
pub extern "C" fn der_write_tbs_cert_list<'a>(
    alloc: Global,
    octets: &'a [u8],
    at: &CertificateListAt,
    room: &mut [u8],
    count: &mut usize,
    fault: &mut Fault,
) -> u32
    ensures { BuildsFrom ⟦<TbsCertList<'a> as Form>⟧ octets.now (⟦<TbsCertList<'a> as FromParts<'a>>⟧.parts at.now)
        room.old room.new count.old count.new fault.old fault.new result }
{
    write_from_parts::<TbsCertList<'a>>(alloc, octets, at, room, count, fault)
}

/// Writes a CertificateList (RFC 5280 5.1) of the three fields of `at.parts`.
///
/// Returns 0, 100, 103 or the number of the first error, as the module says.
#[unsafe(no_mangle)]
pub extern "C" fn der_write_certificate_list<'a>(
    alloc: Global,
    octets: &'a [u8],
    at: &CertificateListAt,
    room: &mut [u8],
    count: &mut usize,
    fault: &mut Fault,
) -> u32
    ensures { BuildsFrom ⟦<CertificateList<'a> as Form>⟧ octets.now (⟦<CertificateList<'a> as FromParts<'a>>⟧.parts at.now)
        room.old room.new count.old count.new fault.old fault.new result }
{
    write_from_parts::<CertificateList<'a>>(alloc, octets, at, room, count, fault)
}
