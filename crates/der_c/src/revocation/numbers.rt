//! Reasons of revocation, the status of certificates, and the steps that refuse lists and answers,
//! as numbers.

ghost use Rattle.std.specs.Prelude.{◌≡◌};
ghost use Rattle.der_c.specs.Status.{number_of_status, revoked_at};
ghost use Rattle.der_c.specs.StatusNumbers.{number_of_list_step, number_of_ocsp_step, number_if_given, number_of_reason, reason_bits, reason_of_status};

use crate::bits::number_of_flags;
use crate::times::general_seconds;
use der_extensions::extension::CrlReason;
use der_ocsp::ocsp::CertStatus;
use der_path::{ListStep, OcspStep, Reasons};

/// Returns the number of a reason (RFC 5280 section 5.3.1).
pub(crate) fn number_of_reason(reason: CrlReason) -> u32
    ensures { result ≡ number_of_reason reason }
{
    match reason {
        CrlReason::Unspecified => 0,
        CrlReason::KeyCompromise => 1,
        CrlReason::CaCompromise => 2,
        CrlReason::AffiliationChanged => 3,
        CrlReason::Superseded => 4,
        CrlReason::CessationOfOperation => 5,
        CrlReason::CertificateHold => 6,
        CrlReason::RemoveFromCrl => 8,
        CrlReason::PrivilegeWithdrawn => 9,
        CrlReason::AaCompromise => 10,
    }
}

/// Returns a set of reasons as the bits of ReasonFlags (RFC 5280 section 4.2.1.13): bit 1 as 2 for
/// keyCompromise, to bit 8 as 256 for aACompromise.
pub(crate) fn reason_bits(reasons: Reasons) -> u32
    ensures { result ≡ reason_bits reasons }
{
    number_of_flags(&[
        reasons.aa_compromise,
        reasons.privilege_withdrawn,
        reasons.certificate_hold,
        reasons.cessation_of_operation,
        reasons.superseded,
        reasons.affiliation_changed,
        reasons.ca_compromise,
        reasons.key_compromise,
        false,
    ]) as u32
}

/// Returns 0 for good, 1 for revoked, 2 for unknown.
pub(crate) fn number_of_status(status: CertStatus) -> u32
    ensures { result ≡ number_of_status status }
{
    match status {
        CertStatus::Good(_) => 0,
        CertStatus::Revoked(_) => 1,
        CertStatus::Unknown(_) => 2,
    }
}

/// Returns when a certificate was revoked, or 0 if it was not revoked.
pub(crate) fn revoked_at(status: CertStatus) -> u64
    ensures { result ≡ revoked_at status }
{
    match status {
        CertStatus::Revoked(tagged) => general_seconds(tagged.value.revocation_time()),
        CertStatus::Good(_) => 0,
        CertStatus::Unknown(_) => 0,
    }
}

/// Returns the number of the reason why a certificate was revoked, or 0.
pub(crate) fn reason_of_status(status: CertStatus) -> u32
    ensures { result ≡ reason_of_status status }
{
    match status {
        CertStatus::Revoked(tagged) => number_if_given(tagged.value.revocation_reason()),
        CertStatus::Good(_) => 0,
        CertStatus::Unknown(_) => 0,
    }
}

/// Returns the number of a reason, or 0 if there is none.
fn number_if_given(reason: Option<CrlReason>) -> u32
    ensures { result ≡ number_if_given reason }
{
    match reason {
        Some(reason) => number_of_reason(reason),
        None => 0,
    }
}

/// Returns the number of a step that refuses a list.
pub(crate) fn number_of_list_step(step: ListStep) -> u32
    ensures { result ≡ number_of_list_step step }
{
    match step {
        ListStep::Delta => 1,
        ListStep::UnknownExtension => 2,
        ListStep::UnreadEntry => 3,
        ListStep::UnknownEntryExtension => 4,
        ListStep::Issuer => 5,
        ListStep::PointName => 6,
        ListStep::UserCertificates => 7,
        ListStep::CaCertificates => 8,
        ListStep::AttributeCertificates => 9,
        ListStep::ThisUpdate => 10,
        ListStep::NextUpdate => 11,
        ListStep::NoNewReasons => 12,
    }
}

/// Returns the number of a step that refuses an answer.
pub(crate) fn number_of_ocsp_step(step: OcspStep) -> u32
    ensures { result ≡ number_of_ocsp_step step }
{
    match step {
        OcspStep::CriticalExtension => 1,
        OcspStep::NotAnswered => 2,
        OcspStep::ThisUpdate => 3,
        OcspStep::NextUpdate => 4,
        OcspStep::NoResponder => 5,
    }
}
