//! What a list of revoked certificates that stands in octets says of a certificate (RFC 5280
//! section 6.3.3).

ghost use Rattle.std.specs.Prelude.{◌≡◌, IfErr, IfOk, Ok};
ghost use Rattle.der_c.specs.Answers.{NoFault};
ghost use Rattle.der_c.specs.Bits.{bit};
ghost use Rattle.der_c.specs.ListStatuses.{date_of_revoked, list_status_at, reason_of_revoked, AnswersListAt, RefusesList, TellsList, WritesNoList};

use crate::bits::number_of_flag;
use crate::fault::Fault;
use crate::path::there::value_there;
use crate::revocation::numbers::{number_of_reason, reason_bits};
use crate::revocation::refusal::{StatusRefusal, no_status, refusal_of_list};
use crate::times::seconds;
use der_path::{ListStatus, Revoked, list_status};
use der_pkix::certificate::Certificate;
use der_pkix::crl::CertificateList;
use der_places::Place;
use std::alloc::Global;

/// What a list says of a certificate.
#[repr(C)]
#[derive(Clone, Copy, Debug, PartialEq, Eq)]
pub struct ListStatusAt {
    /// `revocationDate` in seconds from 1970-01-01T00:00:00Z if the certificate is revoked, else 0.
    pub revocation_date: u64,
    /// Whether the certificate is revoked: 1 or 0.
    pub is_revoked: u32,
    /// The number of the reason if the certificate is revoked; 0, unspecified, if the entry has
    /// none (RFC 5280 section 5.3.1).
    pub reason: u32,
    /// The reasons for which certificates stand in the list, as the bits of ReasonFlags.
    pub reasons: u32,
    /// The number of the step that refuses the list, or 0.
    pub step: u32,
}

/// Says what a list of revoked certificates tells of a certificate by RFC 5280 section 6.3.3, where
/// the list is the own one of the certificate's issuer. The certificate and the list are at these
/// byte ranges; the moment is in seconds from 1970-01-01T00:00:00Z.
///
/// Returns 0 if the list tells whether the certificate is revoked, provided that the path of the
/// list's issuer is valid ((f)) and the signature of the list verifies with its key ((g)).
///
/// Else returns 107 if a step refuses the list; 105 if an extension of the certificate that section
/// 6.1 processes stands twice, or its value cannot be read, and 109 for an extension of the list
/// that section 6.3.3 processes; 100 for a byte range that is not within the octets; the number of
/// the first error of what is read at one, whose position counts from the start of all octets; or 1
/// if memory runs out. `told` is always written.
#[unsafe(no_mangle)]
pub extern "C" fn der_list_status<'a>(
    alloc: Global,
    octets: &'a [u8],
    certificate: &Place,
    list: &Place,
    moment: u64,
    told: &mut ListStatusAt,
    fault: &mut Fault,
) -> u32
    ensures { AnswersListAt octets.now certificate.now list.now moment told.new fault.old fault.new result }
{
    match status_by_list(alloc, octets, *certificate, *list, moment) {
        Ok(status) => {
            *told = list_status_at(status);
            0
        }
        Err(refusal) => refuse_list(refusal, told, fault),
    }
}

/// Returns what the list at a byte range says of the certificate at another.
fn status_by_list<'a>(
    alloc: Global,
    octets: &'a [u8],
    certificate: Place,
    list: Place,
    moment: u64,
) -> Result<ListStatus, StatusRefusal>
    ensures ok { IfOk result (λ status. TellsList octets.now certificate list moment (Ok status)) }
    ensures err { IfErr result (λ refusal. RefusesList octets.now certificate list moment refusal) }
{
    let certificate = match value_there::<Certificate<'a>>(alloc, octets, certificate) {
        Ok(certificate) => certificate,
        Err(fault) => return Err(no_status(fault)),
    };
    let list = match value_there::<CertificateList<'a>>(alloc, octets, list) {
        Ok(list) => list,
        Err(fault) => return Err(no_status(fault)),
    };
    match list_status(alloc, &certificate, &list, moment) {
        Ok(status) => Ok(status),
        Err(error) => Err(refusal_of_list(error)),
    }
}

/// Returns what a list says of a certificate, as it is written.
fn list_status_at(status: ListStatus) -> ListStatusAt
    ensures { result ≡ list_status_at status }
{
    ListStatusAt {
        revocation_date: date_of_revoked(status.revoked),
        is_revoked: number_of_flag(status.revoked.is_some()),
        reason: reason_of_revoked(status.revoked),
        reasons: reason_bits(status.reasons),
        step: 0,
    }
}

/// Returns since when a certificate is revoked, or 0 if it is not.
pub(crate) fn date_of_revoked(revoked: Option<Revoked>) -> u64
    ensures { result ≡ date_of_revoked revoked }
{
    match revoked {
        Some(revoked) => seconds(revoked.date),
        None => 0,
    }
}

/// Returns the number of the reason why a certificate is revoked, or 0 if it is not.
pub(crate) fn reason_of_revoked(revoked: Option<Revoked>) -> u32
    ensures { result ≡ reason_of_revoked revoked }
{
    match revoked {
        Some(revoked) => number_of_reason(revoked.reason),
        None => 0,
    }
}

/// Writes why a list says nothing, and returns the number of the error.
fn refuse_list(refusal: StatusRefusal, told: &mut ListStatusAt, fault: &mut Fault) -> u32
    ensures { WritesNoList refusal told.new fault.new result }
{
    *told = ListStatusAt {
        revocation_date: 0,
        is_revoked: 0,
        reason: 0,
        reasons: 0,
        step: refusal.step,
    };
    *fault = refusal.fault;
    refusal.fault.number
}
