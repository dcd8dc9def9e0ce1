//! The entry of a list of revoked certificates with a serial number.

ghost use Rattle.std.specs.Prelude.{◌≡◌, false, length, List, ℕ};
ghost use Rattle.der_lists.specs.Items.{AreItems};
ghost use Rattle.der_pkix.specs.Crl.CertificateList as list;
ghost use Rattle.der_pkix.specs.Crl.TbsCertList as tbs;
ghost use Rattle.der_pkix.specs.declared.crl.revoked_certificate.RevokedCertificate.{RevokedCertificate};
ghost use Rattle.der_places.specs.Walking.{IsEncoding, StandAt};
ghost use Rattle.der_c.specs.Answers.{Answers};
ghost use Rattle.der_c.specs.Revoked.{FindsRevoked, IsAmong, no_entry};

use crate::certificate_list::certificate_list_at;
use crate::contents::der_items;
use crate::fault::{Fault, refuse};
use crate::finding::{Wanted, find_item};
use crate::revoked_certificate::{RevokedCertificateAt, revoked_certificate_at};
use der_elem::{Form, FromDer};
use der_pkix::crl::{CertificateList, RevokedCertificate};
use der_places::crl::RevokedCertificatePlaces;
use der_places::{Place, Placed};
use std::alloc::Global;

/// Reads all octets as a list of revoked certificates (RFC 5280 5.1), and writes the byte ranges of
/// the fields of the first entry whose serial number has these contents octets. If there is none,
/// each byte range is empty, and each number is 0.
///
/// Returns 0, or the number of the first error; `out` is then unchanged.
#[unsafe(no_mangle)]
pub extern "C" fn der_find_revoked<'a>(
    alloc: Global,
    octets: &'a [u8],
    serial: &[u8],
    out: &mut RevokedCertificateAt,
    fault: &mut Fault,
) -> u32
    ensures { Answers ⟦<CertificateList<'a> as Form>⟧ octets.now (λ v at.
        FindsRevoked ⟦<RevokedCertificate<'a> as Form>⟧ ⟦<RevokedCertificate<'a> as Placed>⟧.layout ⟦<RevokedCertificate<'a> as Placed>⟧.listed
        serial.now octets.now (tbs.revoked_certificates (list.tbs_cert_list v)) at)
        out.old out.new fault.old fault.new result }
{
    match CertificateList::from_der(alloc, octets) {
        Ok(value) => {
            let at = certificate_list_at(&value, octets);
            *out = entry_with(alloc, octets, at.tbs.revoked_certificates, serial);
            0
        }
        Err(error) => refuse(error, fault),
    }
}

/// Returns the byte ranges of the first entry of a field with a serial number.
fn entry_with<'a>(
    alloc: Global,
    octets: &'a [u8],
    field: Place,
    serial: &[u8],
) -> RevokedCertificateAt
    ensures absent { field.length ≡ 0 → result ≡ no_entry }
    ensures present { (own : List ℕ) (e : IsEncoding own) → StandAt octets.now field.offset own → field.length ≡ length own
        → (given : List RevokedCertificate) → AreItems ⟦<RevokedCertificate<'a> as Form>⟧ e.contents given
        → IsAmong ⟦<RevokedCertificate<'a> as Form>⟧ ⟦<RevokedCertificate<'a> as Placed>⟧.layout ⟦<RevokedCertificate<'a> as Placed>⟧.listed
        serial.now octets.now e.contents result }
{
    if field.length == 0 {
        return NO_ENTRY;
    }
    let entries = der_items(octets, &field);
    let wanted = HasSerial { serial };
    match find_item::<RevokedCertificate<'a>, HasSerial<'_>>(alloc, octets, entries, &wanted) {
        Some(item) => revoked_certificate_at(&item.0, octets, item.1),
        None => NO_ENTRY,
    }
}

/// No byte range.
const NOWHERE: Place = Place {
    offset: 0,
    length: 0,
};

/// No entry.
const NO_ENTRY: RevokedCertificateAt = RevokedCertificateAt {
    whole: NOWHERE,
    fields: RevokedCertificatePlaces {
        user_certificate: NOWHERE,
        revocation_date: NOWHERE,
        crl_entry_extensions: NOWHERE,
    },
    revocation_date: 0,
};

/// The test that the serial number of an entry has these contents octets.
#[derive(Drop)]
struct HasSerial<'s> {
    serial: &'s [u8],
}

impl<'a, 's> Wanted<RevokedCertificate<'a>> for HasSerial<'s> {
    ghost use Rattle.der_c.specs.Revoked.{has_serial};

    ghost is_wanted = { λ p. has_serial p.serial.now };

    fn is_wanted(&self, entry: &RevokedCertificate<'a>) -> bool {
        entry.user_certificate().as_bytes() == self.serial
    }
}
