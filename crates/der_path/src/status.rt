//! What lists of revoked certificates say of a certificate: RFC 5280 section 6.3.3 with
//! distribution points, indirect lists and deltas.

ghost use Rattle.std.specs.Prelude.{◌≡◌, false, List, option_copied};
ghost use Rattle.der_pkix.specs.declared.certificate.extension.Extension.{Extension};
ghost use Rattle.der_pkix.specs.Certificate.Certificate as certificate_fields;
ghost use Rattle.der_pkix.specs.Certificate.TbsCertificate as tbs_fields;
ghost use Rattle.der_verify.specs.Rfc5280.{AreListed};
ghost use Rattle.der_path.specs.Reasons.{all_reasons};
ghost use Rattle.der_path.specs.Status.{after_list, currency_fault, delta_in, point_answer, revoked_in_lists, status_at, status_by, status_of, AnswersStatus};

use crate::deltas::{Trusted, TrustedList, delta_for, trusted_lists};
use crate::facts::NoFacts;
use crate::list_step::ListStep;
use crate::points::{Point, interim_reasons, point_fault, points_of};
use crate::reasons::{Reasons, all_reasons};
use crate::revocation::{ListStatus, Revoked, entry_in, time_fault, unless_removed, use_fault};
use crate::revocation_facts::{Target, target_of};
use der_elem::Form;
use der_pkix::certificate::{Certificate, Extension};
use der_pkix::crl::CertificateList;
use std::alloc::Global;

/// What lists say of a certificate.
#[derive(Clone, Copy, Debug, PartialEq, Eq)]
pub enum RevocationStatus {
    /// The certificate is in none of the lists, and these have all reasons.
    Unrevoked,
    /// The certificate is revoked.
    Revoked(Revoked),
    /// The certificate is in none of the lists that are used, and these have no other reasons than
    /// these (6.3.3 (l)).
    Undetermined(Reasons),
}

/// Why lists do not tell the status of a certificate.
#[derive(Clone, Copy, Debug, PartialEq, Eq)]
pub enum RevocationError {
    /// Memory ran out.
    Memory,
    /// An extension of the certificate that section 6.3.3 processes stands twice, or its value
    /// cannot be read.
    UnreadCertificate,
}

/// What section 6.3.3 is asked (6.3.1).
#[derive(Drop)]
pub struct Asked<'a> {
    /// The certificate (6.3.1 (a)).
    pub target: Target<'a>,
    /// The lists that the caller trusts.
    pub lists: Vec<TrustedList<'a>>,
    /// The moment, in seconds from 1970-01-01T00:00:00Z.
    pub moment: u64,
    /// use-deltas (6.3.1 (b)).
    pub use_deltas: bool,
}

/// Returns what lists say of a certificate by RFC 5280 section 6.3.3: for each distribution point
/// of cRLDistributionPoints in turn, and then for "a distribution point name of the certificate
/// issuer", each complete list in turn, with the first of the deltas that updates it. The moment
/// is in seconds from 1970-01-01T00:00:00Z.
///
/// The lists are complete lists and deltas that the caller trusts. Of each list the caller has
/// verified: that the path of its issuer is valid, and that the issuer's keyUsage, if it is there,
/// has cRLSign (6.3.3 (f)); and that the signature of `octets_of_tbs_cert_list` verifies with the
/// issuer's key ((g), (h)). A list that section 6.3.3 does not use says nothing.
///
/// # Errors
/// `RevocationError::UnreadCertificate` if extensions of the certificate cannot be read;
/// `RevocationError::Memory` if memory runs out.
pub fn revocation_status<'a>(
    alloc: Global,
    certificate: &Certificate<'a>,
    lists: &[CertificateList<'a>],
    moment: u64,
    use_deltas: bool,
) -> Result<RevocationStatus, RevocationError>
    ensures { (listed : List Extension)
        → AreListed ⟦<Extension<'a> as Form>⟧ (tbs_fields.extensions (certificate_fields.tbs_certificate certificate.now)) listed
        → AnswersStatus certificate.now listed lists.now moment use_deltas result }
{
    let target = match target_of(alloc, certificate.tbs_certificate()) {
        Ok(target) => target,
        Err(NoFacts::Memory) => return Err(RevocationError::Memory),
        Err(NoFacts::Unread) => return Err(RevocationError::UnreadCertificate),
    };
    let points = match points_of(alloc, certificate.tbs_certificate()) {
        Ok(points) => points,
        Err(NoFacts::Memory) => return Err(RevocationError::Memory),
        Err(NoFacts::Unread) => return Err(RevocationError::UnreadCertificate),
    };
    let Ok(lists) = trusted_lists(alloc, lists) else {
        return Err(RevocationError::Memory);
    };
    let asked = Asked {
        target,
        lists,
        moment,
        use_deltas,
    };
    Ok(status_of(&asked, &points))
}

/// Returns what the lists say of a certificate with these distribution points.
fn status_of(asked: &Asked<'_>, points: &[Point<'_>]) -> RevocationStatus
    ensures { result ≡ status_of asked.now (all_reasons false) points.now }
{
    let mut known = all_reasons(false);
    let mut left = points;
    'each: while let [point, others @ ..] = left {
        match status_at(asked, point, &asked.lists, known) {
            RevocationStatus::Undetermined(more) => known = more,
            status => return status,
        }
        left = others;
    }
    RevocationStatus::Undetermined(known)
}

/// Returns what these lists say for a distribution point, after the reasons that are known.
fn status_at(
    asked: &Asked<'_>,
    point: &Point<'_>,
    lists: &[TrustedList<'_>],
    known: Reasons,
) -> RevocationStatus
    ensures { result ≡ status_at asked.now point.now known lists.now }
{
    let mut known = known;
    let mut left = lists;
    'each: while let [list, others @ ..] = left {
        match status_by(asked, point, list, known) {
            RevocationStatus::Undetermined(more) => known = more,
            status => return status,
        }
        left = others;
    }
    RevocationStatus::Undetermined(known)
}

/// Returns what a list says for a distribution point, after the reasons that are known.
fn status_by(
    asked: &Asked<'_>,
    point: &Point<'_>,
    list: &TrustedList<'_>,
    known: Reasons,
) -> RevocationStatus
    ensures { result ≡ status_by asked.now point.now known list.now }
{
    match list {
        TrustedList::Read(list) => match point_answer(asked, point, list, known) {
            Ok(status) => after_list(known, status),
            Err(_step) => RevocationStatus::Undetermined(known),
        },
        TrustedList::Unread => RevocationStatus::Undetermined(known),
    }
}

/// Returns the status after a list (6.3.3 (l)).
fn after_list(known: Reasons, status: ListStatus) -> RevocationStatus
    ensures { result ≡ after_list known status }
{
    if let Some(revoked) = status.revoked {
        return RevocationStatus::Revoked(revoked);
    }
    let known = known.joined(status.reasons);
    if known.is_all() {
        RevocationStatus::Unrevoked
    } else {
        RevocationStatus::Undetermined(known)
    }
}

/// Returns what a complete list, with a delta if one updates it, says for a distribution point.
fn point_answer(
    asked: &Asked<'_>,
    point: &Point<'_>,
    list: &Trusted<'_>,
    known: Reasons,
) -> Result<ListStatus, ListStep>
    ensures { result ≡ point_answer asked.now point.now known list.now }
{
    if let Some(step) = use_fault(&list.facts) {
        return Err(step);
    }
    if let Some(step) = point_fault(&asked.target, point, &list.facts) {
        return Err(step);
    }
    let delta = delta_in(asked, list);
    if let Some(step) = currency_fault(list, delta, asked.moment) {
        return Err(step);
    }
    let reasons = interim_reasons(point, &list.facts);
    if !reasons.has_new(known) {
        return Err(ListStep::NoNewReasons);
    }
    Ok(ListStatus {
        reasons,
        revoked: revoked_in_lists(&asked.target, list, delta),
    })
}

/// Returns the delta that updates a list, if deltas are used.
fn delta_in<'a>(asked: &'a Asked<'a>, list: &Trusted<'a>) -> Option<&'a Trusted<'a>>
    ensures { option_copied result ≡ delta_in asked.now list.now }
{
    if asked.use_deltas {
        delta_for(&asked.lists, list, asked.moment)
    } else {
        None
    }
}

/// Returns the first of the sections 5.1.2.4 and 6.3.3 (a)(1) for which a list with this delta is
/// not current.
fn currency_fault(list: &Trusted<'_>, delta: Option<&Trusted<'_>>, moment: u64) -> Option<ListStep>
    ensures { result ≡ currency_fault list.now (option_copied delta.entry) moment }
{
    match time_fault(&list.facts, moment) {
        Some(ListStep::NextUpdate) => if delta.is_some() {
            None
        } else {
            Some(ListStep::NextUpdate)
        },
        fault => fault,
    }
}

/// Returns why and since when a certificate is revoked: by the delta, else by the complete list
/// (6.3.3 (i) to (k)).
fn revoked_in_lists(
    target: &Target<'_>,
    list: &Trusted<'_>,
    delta: Option<&Trusted<'_>>,
) -> Option<Revoked>
    ensures { result ≡ revoked_in_lists target.now list.now (option_copied delta.entry) }
{
    let newest = match delta {
        Some(delta) => entry_in(target, &delta.facts),
        None => None,
    };
    match newest {
        Some(found) => unless_removed(Some(found)),
        None => unless_removed(entry_in(target, &list.facts)),
    }
}
