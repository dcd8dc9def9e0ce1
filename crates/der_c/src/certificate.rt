//! The byte ranges of the fields of a certificate.

ghost use Rattle.std.specs.Prelude.{◌≡◌};
ghost use Rattle.der_elem.specs.Decoding.{AllRead};
ghost use Rattle.der_pkix.specs.Certificate.Certificate as certificate;
ghost use Rattle.der_pkix.specs.Certificate.TbsCertificate as tbs;
ghost use Rattle.der_pkix.specs.Certificate.Validity as validity;
ghost use Rattle.der_places.specs.Layout.{LaidAt, LaidOut};
ghost use Rattle.der_c.specs.Answers.{Answers};
ghost use Rattle.der_c.specs.Times.{seconds_of};

use crate::fault::{Fault, refuse};
use crate::times::seconds;
use der_elem::{Form, FromDer};
use der_pkix::certificate::{Certificate, TbsCertificate};
use der_places::certificate::{CertificatePlaces, TbsCertificatePlaces};
use der_places::{Placed, places_of};
use std::alloc::Global;

/// The byte ranges of the fields of a certificate, and the values of some fields.
#[repr(C)]
#[derive(Clone, Copy, Debug, PartialEq, Eq)]
pub struct CertificateAt {
    /// The three fields of the certificate.
    pub parts: CertificatePlaces,
    /// The ten fields of the signed part.
    pub tbs: TbsCertificatePlaces,
    /// `notBefore`, in seconds from 1970-01-01T00:00:00Z.
    pub not_before: u64,
    /// `notAfter`, in seconds from 1970-01-01T00:00:00Z.
    pub not_after: u64,
    /// 0 for v1, 1 for v2, 2 for v3.
    pub version: u64,
}

/// Reads all octets as a certificate (RFC 5280 4.1), and writes the byte ranges of its fields.
///
/// Returns 0 and writes the byte ranges to `out`, or returns the number of the first error and
/// leaves `out` unchanged.
#[unsafe(no_mangle)]
pub extern "C" fn der_certificate<'a>(
    alloc: Global,
    octets: &'a [u8],
    out: &mut CertificateAt,
    fault: &mut Fault,
) -> u32
    ensures { Answers ⟦<Certificate<'a> as Form>⟧ octets.now (λ v at.
        LaidOut (⟦<Certificate<'a> as Placed>⟧.layout v) 0 (⟦<Certificate<'a> as Placed>⟧.listed at.parts) octets.now
        × LaidAt (⟦<TbsCertificate<'a> as Placed>⟧.layout (certificate.tbs_certificate v)) octets.now at.parts.tbs_certificate (⟦<TbsCertificate<'a> as Placed>⟧.listed at.tbs)
        × (at.version ≡ tbs.version (certificate.tbs_certificate v))
        × (at.not_before ≡ seconds_of (validity.not_before (tbs.validity (certificate.tbs_certificate v))))
        × (at.not_after ≡ seconds_of (validity.not_after (tbs.validity (certificate.tbs_certificate v)))))
        out.old out.new fault.old fault.new result }
{
    match Certificate::from_der(alloc, octets) {
        Ok(value) => {
            *out = certificate_at(&value, octets);
            0
        }
        Err(error) => refuse(error, fault),
    }
}

/// Returns the byte ranges of a certificate that was read from these octets.
fn certificate_at<'a>(value: &Certificate<'a>, octets: &[u8]) -> CertificateAt
    ensures parts { AllRead ⟦<Certificate<'a> as Form>⟧ octets.now value.now
        → LaidOut (⟦<Certificate<'a> as Placed>⟧.layout value.now) 0 (⟦<Certificate<'a> as Placed>⟧.listed result.parts) octets.now }
    ensures tbs { AllRead ⟦<Certificate<'a> as Form>⟧ octets.now value.now
        → LaidAt (⟦<TbsCertificate<'a> as Placed>⟧.layout (certificate.tbs_certificate value.now)) octets.now result.parts.tbs_certificate (⟦<TbsCertificate<'a> as Placed>⟧.listed result.tbs) }
    ensures version { result.version ≡ tbs.version (certificate.tbs_certificate value.now) }
    ensures not_before { result.not_before ≡ seconds_of (validity.not_before (tbs.validity (certificate.tbs_certificate value.now))) }
    ensures not_after { result.not_after ≡ seconds_of (validity.not_after (tbs.validity (certificate.tbs_certificate value.now))) }
{
    let parts = places_of(value, octets, 0);
    let signed = value.tbs_certificate();
    let tbs = places_of(signed, octets, parts.tbs_certificate.offset);
    let validity = signed.validity();
    CertificateAt {
        parts,
        tbs,
        not_before: seconds(validity.not_before()),
        not_after: seconds(validity.not_after()),
        version: u64::from(signed.version()),
    }
}
