//! The byte ranges of the fields of the entries of a list of revoked certificates, which are read
//! one after another.

ghost use Rattle.std.specs.Prelude.{◌≡◌, take, List, ℕ};
ghost use Rattle.der_pkix.specs.Crl.RevokedCertificate as revoked;
ghost use Rattle.der_places.specs.Layout.{LaidOut};
ghost use Rattle.der_c.specs.Answers.{AnswersFront};
ghost use Rattle.der_c.specs.Items.{ReadAt};
ghost use Rattle.der_c.specs.Times.{seconds_of};

use crate::fault::{Fault, refuse};
use crate::front::read_front;
use crate::times::seconds;
use der_elem::Form;
use der_pkix::crl::RevokedCertificate;
use der_places::crl::RevokedCertificatePlaces;
use der_places::{Place, Placed, places_of};
use std::alloc::Global;

/// The byte ranges of the fields of an entry, and when the certificate was revoked.
#[repr(C)]
#[derive(Clone, Copy, Debug, PartialEq, Eq)]
pub struct RevokedCertificateAt {
    /// The whole entry; the next one begins after it.
    pub whole: Place,
    /// Its fields.
    pub fields: RevokedCertificatePlaces,
    /// `revocationDate`, in seconds from 1970-01-01T00:00:00Z.
    pub revocation_date: u64,
}

/// Reads the entry at the front of the octets (RFC 5280 5.1.2.6), and writes the byte ranges of
/// its fields. The next entry of a list begins after it.
///
/// Returns 0 and writes the byte ranges to `out`, or returns the number of the first error and
/// leaves `out` unchanged.
#[unsafe(no_mangle)]
pub extern "C" fn der_revoked_certificate<'a>(
    alloc: Global,
    octets: &'a [u8],
    out: &mut RevokedCertificateAt,
    fault: &mut Fault,
) -> u32
    ensures { AnswersFront ⟦<RevokedCertificate<'a> as Form>⟧ octets.now (λ v taken at.
        (at.whole.offset ≡ 0) × (at.whole.length ≡ taken)
        × LaidOut (⟦<RevokedCertificate<'a> as Placed>⟧.layout v) 0 (⟦<RevokedCertificate<'a> as Placed>⟧.listed at.fields) (take taken octets.now)
        × (at.revocation_date ≡ seconds_of (revoked.revocation_date v)))
        out.old out.new fault.old fault.new result }
{
    match read_front::<RevokedCertificate<'a>>(alloc, octets) {
        Ok((value, length)) => {
            *out = revoked_certificate_at(&value, octets, Place { offset: 0, length });
            0
        }
        Err(error) => refuse(error, fault),
    }
}

/// Returns the byte ranges of an entry that was read from a byte range.
pub(crate) fn revoked_certificate_at<'a>(
    value: &RevokedCertificate<'a>,
    octets: &[u8],
    whole: Place,
) -> RevokedCertificateAt
    ensures fields { (own : List ℕ) → ReadAt ⟦<RevokedCertificate<'a> as Form>⟧ octets.now whole.offset value.now own
        → LaidOut (⟦<RevokedCertificate<'a> as Placed>⟧.layout value.now) whole.offset (⟦<RevokedCertificate<'a> as Placed>⟧.listed result.fields) own }
    ensures offset { result.whole.offset ≡ whole.offset }
    ensures length { result.whole.length ≡ whole.length }
    ensures revocation_date { result.revocation_date ≡ seconds_of (revoked.revocation_date value.now) }
{
    RevokedCertificateAt {
        whole,
        fields: places_of(value, octets, whole.offset),
        revocation_date: seconds(value.revocation_date()),
    }
}
