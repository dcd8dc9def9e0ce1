//! The byte ranges of the fields of a list of revoked certificates.

ghost use Rattle.std.specs.Prelude.{◌≡◌};
ghost use Rattle.der_elem.specs.Decoding.{AllRead};
ghost use Rattle.der_pkix.specs.Crl.CertificateList as list;
ghost use Rattle.der_pkix.specs.Crl.TbsCertList as tbs;
ghost use Rattle.der_places.specs.Layout.{LaidAt, LaidOut};
ghost use Rattle.der_c.specs.Answers.{Answers};
ghost use Rattle.der_c.specs.Times.{seconds_if_there, seconds_of, version_if_there};

use crate::fault::{Fault, refuse};
use crate::times::{number_of, seconds, seconds_or_none};
use der_elem::{Form, FromDer};
use der_pkix::crl::{CertificateList, TbsCertList};
use der_places::crl::{CertificateListPlaces, TbsCertListPlaces};
use der_places::{Placed, places_of};
use std::alloc::Global;

/// The byte ranges of the fields of a list of revoked certificates, and the values of some
/// fields.
#[repr(C)]
#[derive(Clone, Copy, Debug, PartialEq, Eq)]
pub struct CertificateListAt {
    /// The three fields of the list.
    pub parts: CertificateListPlaces,
    /// The seven fields of the signed part.
    pub tbs: TbsCertListPlaces,
    /// `thisUpdate`, in seconds from 1970-01-01T00:00:00Z.
    pub this_update: u64,
    /// `nextUpdate`, or 0 if it is absent.
    pub next_update: u64,
    /// 0 for v1, if the field is absent; 1 for v2.
    pub version: u64,
}

/// Reads all octets as a list of revoked certificates (RFC 5280 5.1), and writes the byte ranges
/// of its fields.
///
/// Returns 0 and writes the byte ranges to `out`, or returns the number of the first error and
/// leaves `out` unchanged.
#[unsafe(no_mangle)]
pub extern "C" fn der_certificate_list<'a>(
    alloc: Global,
    octets: &'a [u8],
    out: &mut CertificateListAt,
    fault: &mut Fault,
) -> u32
    ensures { Answers ⟦<CertificateList<'a> as Form>⟧ octets.now (λ v at.
        LaidOut (⟦<CertificateList<'a> as Placed>⟧.layout v) 0 (⟦<CertificateList<'a> as Placed>⟧.listed at.parts) octets.now
        × LaidAt (⟦<TbsCertList<'a> as Placed>⟧.layout (list.tbs_cert_list v)) octets.now at.parts.tbs_cert_list (⟦<TbsCertList<'a> as Placed>⟧.listed at.tbs)
        × (at.version ≡ version_if_there (tbs.version (list.tbs_cert_list v)))
        × (at.this_update ≡ seconds_of (tbs.this_update (list.tbs_cert_list v)))
        × (at.next_update ≡ seconds_if_there (tbs.next_update (list.tbs_cert_list v))))
        out.old out.new fault.old fault.new result }
{
    match CertificateList::from_der(alloc, octets) {
        Ok(value) => {
            *out = certificate_list_at(&value, octets);
            0
        }
        Err(error) => refuse(error, fault),
    }
}

/// Returns the byte ranges of a list that was read from these octets.
pub(crate) fn certificate_list_at<'a>(
    value: &CertificateList<'a>,
    octets: &[u8],
) -> CertificateListAt
    ensures parts { AllRead ⟦<CertificateList<'a> as Form>⟧ octets.now value.now
        → LaidOut (⟦<CertificateList<'a> as Placed>⟧.layout value.now) 0 (⟦<CertificateList<'a> as Placed>⟧.listed result.parts) octets.now }
    ensures tbs { AllRead ⟦<CertificateList<'a> as Form>⟧ octets.now value.now
        → LaidAt (⟦<TbsCertList<'a> as Placed>⟧.layout (list.tbs_cert_list value.now)) octets.now result.parts.tbs_cert_list (⟦<TbsCertList<'a> as Placed>⟧.listed result.tbs) }
    ensures version { result.version ≡ version_if_there (tbs.version (list.tbs_cert_list value.now)) }
    ensures this_update { result.this_update ≡ seconds_of (tbs.this_update (list.tbs_cert_list value.now)) }
    ensures next_update { result.next_update ≡ seconds_if_there (tbs.next_update (list.tbs_cert_list value.now)) }
{
    let parts = places_of(value, octets, 0);
    let signed = value.tbs_cert_list();
    let tbs = places_of(signed, octets, parts.tbs_cert_list.offset);
    CertificateListAt {
        parts,
        tbs,
        this_update: seconds(signed.this_update()),
        next_update: seconds_or_none(signed.next_update()),
        version: number_of(signed.version()),
    }
}
