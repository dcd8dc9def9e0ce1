//! What a list of revoked certificates says of a certificate (RFC 5280 section 6.3.3).

ghost use Rattle.std.specs.Prelude.{◌≡◌, List};
ghost use Rattle.std.specs.List.{list_any};
ghost use Rattle.der_pkix.specs.declared.certificate.extension.Extension.{Extension};
ghost use Rattle.der_pkix.specs.Certificate.Certificate as certificate_fields;
ghost use Rattle.der_pkix.specs.Certificate.TbsCertificate as tbs_fields;
ghost use Rattle.der_pkix.specs.Crl.CertificateList as list_fields;
ghost use Rattle.der_pkix.specs.Crl.TbsCertList as tbs_list_fields;
ghost use Rattle.der_verify.specs.Rfc5280.{AreListed};
ghost use Rattle.der_path.specs.Revocation.{entry_in, entry_of, entry_has_unknown, has_own_name, is_after, is_directory_of, is_of_target, is_removed, is_unread, list_answer, own_scope_fault, reason_or_unspecified, revoked_by, revoked_in, scope_kind_fault, time_fault, unless_removed, use_fault, AnswersList};

use crate::facts::NoFacts;
use crate::list_step::ListStep;
use crate::names::{Part, PathName, same_names};
use crate::reasons::{Reasons, all_reasons, reasons_of};
use crate::revocation_facts::{
    Entry, EntryFacts, ListFacts, PointName, Scope, Target, list_facts_of, target_of,
};
use der_elem::Form;
use der_extensions::extension::CrlReason;
use der_pkix::certificate::{Certificate, Extension, Time};
use der_pkix::crl::CertificateList;
use der_verify::seconds;
use std::alloc::Global;

/// What a list says of a certificate.
#[derive(Clone, Copy, Debug, PartialEq, Eq)]
pub struct ListStatus {
    /// The reasons for which certificates stand in the list (6.3.3 (d)).
    pub reasons: Reasons,
    /// Why and since when the certificate is revoked, if it is.
    pub revoked: Option<Revoked>,
}

/// Why and since when a certificate is revoked.
#[derive(Clone, Copy, Debug, PartialEq, Eq)]
pub struct Revoked {
    /// The reason: unspecified if the entry has none (5.3.1).
    pub reason: CrlReason,
    /// revocationDate.
    pub date: Time,
}

/// Why a list does not tell the status of a certificate.
#[derive(Clone, Copy, Debug, PartialEq, Eq)]
pub enum ListError {
    /// Memory ran out.
    Memory,
    /// An extension of the certificate that section 6.1 processes stands twice, or its value
    /// cannot be read.
    UnreadCertificate,
    /// An extension of the list that section 6.3.3 processes stands twice, or its value cannot be
    /// read.
    UnreadList,
    /// This step refuses the list.
    Refused(ListStep),
}

/// Returns what a list says of a certificate by RFC 5280 section 6.3.3, for "a distribution point
/// name of the certificate issuer": the list is the own one of the certificate's issuer. The
/// moment is in seconds from 1970-01-01T00:00:00Z.
///
/// Two steps are left to the caller: 6.3.3 (f), that the path of the list's issuer is valid, and
/// that its keyUsage, if it is there, has cRLSign; and (g), that the signature of
/// `octets_of_tbs_cert_list` verifies with its key.
///
/// # Errors
/// `ListError::UnreadCertificate`, then `ListError::UnreadList`, if extensions cannot be read;
/// `ListError::Refused` for the first step that refuses the list; `ListError::Memory` if memory
/// runs out.
pub fn list_status<'a>(
    alloc: Global,
    certificate: &Certificate<'a>,
    list: &CertificateList<'a>,
    moment: u64,
) -> Result<ListStatus, ListError>
    ensures { (listed own : List Extension)
        → AreListed ⟦<Extension<'a> as Form>⟧ (tbs_fields.extensions (certificate_fields.tbs_certificate certificate.now)) listed
        → AreListed ⟦<Extension<'a> as Form>⟧ (tbs_list_fields.crl_extensions (list_fields.tbs_cert_list list.now)) own
        → AnswersList certificate.now listed list.now own moment result }
{
    let target = match target_of(alloc, certificate.tbs_certificate()) {
        Ok(target) => target,
        Err(NoFacts::Memory) => return Err(ListError::Memory),
        Err(NoFacts::Unread) => return Err(ListError::UnreadCertificate),
    };
    let facts = match list_facts_of(alloc, list.tbs_cert_list()) {
        Ok(facts) => facts,
        Err(NoFacts::Memory) => return Err(ListError::Memory),
        Err(NoFacts::Unread) => return Err(ListError::UnreadList),
    };
    match list_answer(&target, &facts, moment) {
        Ok(status) => Ok(status),
        Err(step) => Err(ListError::Refused(step)),
    }
}

/// Returns what a list says of a certificate, by the facts of both.
fn list_answer(
    target: &Target<'_>,
    list: &ListFacts<'_>,
    moment: u64,
) -> Result<ListStatus, ListStep>
    ensures { result ≡ list_answer target.now list.now moment }
{
    if let Some(step) = use_fault(list) {
        return Err(step);
    }
    if let Some(step) = own_scope_fault(target, list) {
        return Err(step);
    }
    if let Some(step) = time_fault(list, moment) {
        return Err(step);
    }
    let reasons = reasons_of(list.scope.reasons);
    if !reasons.has_new(all_reasons(false)) {
        return Err(ListStep::NoNewReasons);
    }
    Ok(ListStatus {
        reasons,
        revoked: revoked_by(target, list),
    })
}

/// Returns the first of the sections 5.2.4, 5.2 and 5.3 for which a list is not used.
pub(crate) fn use_fault(list: &ListFacts<'_>) -> Option<ListStep>
    ensures { result ≡ use_fault list.now }
{
    if list.base.is_some() {
        Some(ListStep::Delta)
    } else if list.has_unknown_critical {
        Some(ListStep::UnknownExtension)
    } else if one_is_unread(&list.entries) {
        Some(ListStep::UnreadEntry)
    } else if one_has_unknown(&list.entries) {
        Some(ListStep::UnknownEntryExtension)
    } else {
        None
    }
}

/// Returns whether one of some entries shows no facts.
pub(crate) fn one_is_unread(entries: &[Entry<'_>]) -> bool
    ensures { result ≡ list_any is_unread entries.now }
{
    entries.iter().any(|entry| is_unread(entry))
}

/// Returns whether one of some entries has a critical extension that section 6.3.3 does not
/// process.
pub(crate) fn one_has_unknown(entries: &[Entry<'_>]) -> bool
    ensures { result ≡ list_any entry_has_unknown entries.now }
{
    entries.iter().any(|entry| entry_has_unknown(entry))
}

/// Returns whether an entry shows no facts.
fn is_unread(entry: &Entry<'_>) -> bool
    ensures { result ≡ is_unread entry.now }
{
    match entry {
        Entry::Read(_facts) => false,
        Entry::Unread => true,
    }
}

/// Returns whether an extension of an entry is critical that section 6.3.3 does not process.
fn entry_has_unknown(entry: &Entry<'_>) -> bool
    ensures { result ≡ entry_has_unknown entry.now }
{
    match entry {
        Entry::Read(facts) => facts.has_unknown_critical,
        Entry::Unread => false,
    }
}

/// Returns the first of the steps 6.3.3 (b) that refuses a list, for the issuer's own list.
fn own_scope_fault(target: &Target<'_>, list: &ListFacts<'_>) -> Option<ListStep>
    ensures { result ≡ own_scope_fault target.now list.now }
{
    if !same_names(&list.issuer, &target.issuer) {
        Some(ListStep::Issuer)
    } else if !has_own_name(&list.scope.name, &target.issuer) {
        Some(ListStep::PointName)
    } else {
        scope_kind_fault(&list.scope, target.is_ca)
    }
}

/// Returns whether the names of a distribution point, if there are any, have that of an issuer.
fn has_own_name(name: &Option<PointName<'_>>, issuer: &[Part<'_>]) -> bool
    ensures { result ≡ has_own_name name.now issuer.now }
{
    match name {
        Some(PointName::Full(names)) => one_is_directory_of(names, issuer),
        Some(PointName::Relative(_part)) => false,
        None => true,
    }
}

/// Returns whether one of some names is this directoryName.
pub(crate) fn one_is_directory_of(names: &[PathName<'_>], directory: &[Part<'_>]) -> bool
    ensures { result ≡ list_any (is_directory_of directory.now) names.now }
{
    names.iter().any(|name| is_directory_of(name, directory))
}

/// Returns whether a name is this directoryName.
pub(crate) fn is_directory_of(name: &PathName<'_>, directory: &[Part<'_>]) -> bool
    ensures { result ≡ is_directory_of directory.now name.now }
{
    match name {
        PathName::Directory(parts) => same_names(parts, directory),
        PathName::Octets(_kind, _octets) => false,
    }
}

/// Returns the first of the steps 6.3.3 (b)(2)(ii) to (iv) that refuses a list.
pub(crate) fn scope_kind_fault(scope: &Scope<'_>, is_ca: bool) -> Option<ListStep>
    ensures { result ≡ scope_kind_fault scope.now is_ca }
{
    if scope.has_user_alone && is_ca {
        Some(ListStep::UserCertificates)
    } else if scope.has_ca_alone && !is_ca {
        Some(ListStep::CaCertificates)
    } else if scope.has_attribute_alone {
        Some(ListStep::AttributeCertificates)
    } else {
        None
    }
}

/// Returns the first of the sections 5.1.2.4 and 6.3.3 (a)(1) for which a list is not current.
pub(crate) fn time_fault(list: &ListFacts<'_>, moment: u64) -> Option<ListStep>
    ensures { result ≡ time_fault list.now moment }
{
    if moment < seconds(list.this_update) {
        Some(ListStep::ThisUpdate)
    } else if is_after(moment, list.next_update) {
        Some(ListStep::NextUpdate)
    } else {
        None
    }
}

/// Returns whether a moment is after a time, if it is there.
fn is_after(moment: u64, time: Option<Time>) -> bool
    ensures { result ≡ is_after moment time }
{
    match time {
        Some(time) => seconds(time) < moment,
        None => false,
    }
}

/// Returns why and since when a certificate is revoked, if it is (6.3.3 (j) and (k)).
pub(crate) fn revoked_by(target: &Target<'_>, list: &ListFacts<'_>) -> Option<Revoked>
    ensures { result ≡ revoked_by target.now list.now }
{
    unless_removed(entry_in(target, list))
}

/// Returns the reason and the date of the first entry of a list that is of a certificate.
pub(crate) fn entry_in(target: &Target<'_>, list: &ListFacts<'_>) -> Option<Revoked>
    ensures { result ≡ entry_in target.now list.now }
{
    let is_of_target = same_names(&list.issuer, &target.issuer);
    entry_of(target, is_of_target, &list.entries)
}

/// Returns why and since when a certificate is revoked, unless it is removed (6.3.3 (k)).
pub(crate) fn unless_removed(revoked: Option<Revoked>) -> Option<Revoked>
    ensures { result ≡ unless_removed revoked }
{
    match revoked {
        Some(revoked) => if is_removed(revoked.reason) {
            None
        } else {
            Some(revoked)
        },
        None => None,
    }
}

/// Returns whether a reason is removeFromCRL.
fn is_removed(reason: CrlReason) -> bool
    ensures { result ≡ is_removed reason }
{
    match reason {
        CrlReason::RemoveFromCrl => true,
        _ => false,
    }
}

/// Returns the reason and the date of the first entry that is of a certificate. Whether the entry
/// before is of the certificate's issuer is told.
fn entry_of<'a>(target: &Target<'a>, before: bool, entries: &[Entry<'a>]) -> Option<Revoked>
    ensures { result ≡ entry_of target.now before entries.now }
{
    let mut is_of = before;
    let mut left = entries;
    'each: while let [entry, others @ ..] = left {
        if let Entry::Read(facts) = entry {
            is_of = is_of_target(target, is_of, &facts.issuers);
            if is_of && facts.serial == target.serial {
                return Some(revoked_in(facts));
            }
        }
        left = others;
    }
    None
}

/// Returns whether the issuer of an entry is that of the certificate (5.3.3).
fn is_of_target(target: &Target<'_>, before: bool, issuers: &Option<Vec<PathName<'_>>>) -> bool
    ensures { result ≡ is_of_target target.now before issuers.now }
{
    match issuers {
        Some(names) => one_is_directory_of(names, &target.issuer),
        None => before,
    }
}

/// Returns the reason and the date of an entry.
fn revoked_in(entry: &EntryFacts<'_>) -> Revoked
    ensures { result ≡ revoked_in entry.now }
{
    Revoked {
        reason: reason_or_unspecified(entry.reason),
        date: entry.date,
    }
}

/// Returns a reason, or unspecified if there is none (5.3.1).
fn reason_or_unspecified(reason: Option<CrlReason>) -> CrlReason
    ensures { result ≡ reason_or_unspecified reason }
{
    match reason {
        Some(reason) => reason,
        None => CrlReason::Unspecified,
    }
}
