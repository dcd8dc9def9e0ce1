//! What lists of revoked certificates that stand in octets say of a certificate: RFC 5280 section
//! 6.3.3 with distribution points, indirect lists and deltas.

ghost use Rattle.std.specs.Prelude.{◌≡◌, IfErr, IfOk, Ok};
ghost use Rattle.der_c.specs.RevocationStatuses.{number_of_revocation, reasons_of_revocation, refusal_of_status, revocation_status_at, revoked_of, AnswersRevocation, RefusesStatus, TellsStatus, WritesNoStatus};

use crate::fault::{Fault, fault_of_call};
use crate::path::refusal::{PathRefusal, memory_ran_out, refusal_at};
use crate::path::there::{each_there, value_there};
use crate::revocation::list::{date_of_revoked, reason_of_revoked};
use crate::revocation::numbers::reason_bits;
use der_path::{RevocationError, RevocationStatus, Revoked, revocation_status};
use der_pkix::certificate::Certificate;
use der_pkix::crl::CertificateList;
use der_places::Place;
use std::alloc::Global;

/// An extension of the certificate stands twice, or its value cannot be read.
const UNREAD: u32 = 105;

/// What lists say of a certificate.
#[repr(C)]
#[derive(Clone, Copy, Debug, PartialEq, Eq)]
pub struct RevocationStatusAt {
    /// `revocationDate` in seconds from 1970-01-01T00:00:00Z if the certificate is revoked, else 0.
    pub revocation_date: u64,
    /// The index of the list that is not read; the number of lists if each is.
    pub refused_index: u64,
    /// 0 if the certificate is not revoked, 1 if it is, 2 if the lists do not tell.
    pub status: u32,
    /// The number of the reason if the certificate is revoked; 0, unspecified, if the entry has
    /// none (RFC 5280 section 5.3.1).
    pub reason: u32,
    /// The reasons that are known if the lists do not tell, as the bits of ReasonFlags; else 0.
    pub reasons: u32,
    /// 0.
    pub reserved: u32,
}

/// Says what lists of revoked certificates tell of a certificate by RFC 5280 section 6.3.3: complete
/// lists and deltas, in any order. The certificate and the lists are at these byte ranges; the
/// moment is in seconds from 1970-01-01T00:00:00Z. A number other than 0 for `use_deltas` is true
/// (6.3.1 (b)).
///
/// Returns 0 with the status, provided that of each list the path of its issuer is valid ((f)), and
/// its signature verifies with the issuer's key ((g), (h)).
///
/// Else returns 105 if an extension of the certificate that section 6.3.3 processes stands twice, or
/// its value cannot be read; 100 for a byte range that is not within the octets; the number of the
/// first error of what is read at one, whose position counts from the start of all octets; or 1 if
/// memory runs out. `told` is always written.
#[unsafe(no_mangle)]
pub extern "C" fn der_revocation_status<'a>(
    alloc: Global,
    octets: &'a [u8],
    certificate: &Place,
    lists: &[Place],
    moment: u64,
    use_deltas: u32,
    told: &mut RevocationStatusAt,
    fault: &mut Fault,
) -> u32
    ensures { AnswersRevocation octets.now certificate.now lists.now moment use_deltas told.new fault.old fault.new result }
{
    match status_by_lists(alloc, octets, *certificate, lists, moment, use_deltas > 0) {
        Ok(status) => {
            *told = revocation_status_at(status, lists.len());
            0
        }
        Err(refusal) => refuse_lists(refusal, told, fault),
    }
}

/// Returns what the lists at byte ranges say of the certificate at another.
fn status_by_lists<'a>(
    alloc: Global,
    octets: &'a [u8],
    certificate: Place,
    lists: &[Place],
    moment: u64,
    use_deltas: bool,
) -> Result<RevocationStatus, PathRefusal>
    ensures ok { IfOk result (λ status. TellsStatus octets.now certificate lists.now moment use_deltas (Ok status)) }
    ensures err { IfErr result (λ refusal. RefusesStatus octets.now certificate lists.now moment use_deltas refusal) }
{
    let certificate = match value_there::<Certificate<'a>>(alloc, octets, certificate) {
        Ok(certificate) => certificate,
        Err(fault) => return Err(refusal_at(fault, lists.len())),
    };
    let found = match each_there::<CertificateList<'a>>(alloc, octets, lists) {
        Ok(found) => found,
        Err(refusal) => return Err(refusal),
    };
    match revocation_status(alloc, &certificate, &found, moment, use_deltas) {
        Ok(status) => Ok(status),
        Err(error) => Err(refusal_of_status(error, lists.len())),
    }
}

/// Returns the refusal for an error of section 6.3.3, of so many lists.
fn refusal_of_status(error: RevocationError, count: usize) -> PathRefusal
    ensures { result ≡ refusal_of_status error count }
{
    match error {
        RevocationError::Memory => memory_ran_out(count),
        RevocationError::UnreadCertificate => refusal_at(fault_of_call(UNREAD), count),
    }
}

/// Returns what so many lists say of a certificate, as it is written.
fn revocation_status_at(status: RevocationStatus, count: usize) -> RevocationStatusAt
    ensures { result ≡ revocation_status_at status count }
{
    RevocationStatusAt {
        revocation_date: date_of_revoked(revoked_of(status)),
        refused_index: count as u64,
        status: number_of_revocation(status),
        reason: reason_of_revoked(revoked_of(status)),
        reasons: reasons_of_revocation(status),
        reserved: 0,
    }
}

/// Returns 0 for a certificate that is not revoked, 1 for one that is, 2 for one of which the lists
/// do not tell.
fn number_of_revocation(status: RevocationStatus) -> u32
    ensures { result ≡ number_of_revocation status }
{
    match status {
        RevocationStatus::Unrevoked => 0,
        RevocationStatus::Revoked(_revoked) => 1,
        RevocationStatus::Undetermined(_reasons) => 2,
    }
}

/// Returns why and since when a certificate is revoked, if it is.
fn revoked_of(status: RevocationStatus) -> Option<Revoked>
    ensures { result ≡ revoked_of status }
{
    match status {
        RevocationStatus::Revoked(revoked) => Some(revoked),
        RevocationStatus::Unrevoked => None,
        RevocationStatus::Undetermined(_reasons) => None,
    }
}

/// Returns the reasons that are known if the lists do not tell, as bits, or 0.
fn reasons_of_revocation(status: RevocationStatus) -> u32
    ensures { result ≡ reasons_of_revocation status }
{
    match status {
        RevocationStatus::Undetermined(reasons) => reason_bits(reasons),
        RevocationStatus::Unrevoked => 0,
        RevocationStatus::Revoked(_revoked) => 0,
    }
}

/// Writes why lists say nothing, and returns the number of the error.
fn refuse_lists(refusal: PathRefusal, told: &mut RevocationStatusAt, fault: &mut Fault) -> u32
    ensures { WritesNoStatus refusal told.new fault.new result }
{
    *told = RevocationStatusAt {
        revocation_date: 0,
        refused_index: refusal.index,
        status: 0,
        reason: 0,
        reasons: 0,
        reserved: 0,
    };
    *fault = refusal.fault;
    refusal.fault.number
}
