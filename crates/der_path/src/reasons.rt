//! Reasons for which certificates are revoked (ReasonFlags of RFC 5280 section 4.2.1.13).

ghost use Rattle.std.specs.Prelude.{◌≡◌};
ghost use Rattle.der_path.specs.Reasons.{all_reasons, flagged, reasons_of};

use der_extensions::extension::{
    REASON_FLAGS_AA_COMPROMISE, REASON_FLAGS_AFFILIATION_CHANGED, REASON_FLAGS_CA_COMPROMISE,
    REASON_FLAGS_CERTIFICATE_HOLD, REASON_FLAGS_CESSATION_OF_OPERATION,
    REASON_FLAGS_KEY_COMPROMISE, REASON_FLAGS_PRIVILEGE_WITHDRAWN, REASON_FLAGS_SUPERSEDED,
    ReasonFlags,
};

/// A set of the eight reasons: "the set of revocation reasons supported by the CRLs and delta
/// CRLs processed so far" (6.3.2 (a)).
#[derive(Clone, Copy, Debug, PartialEq, Eq)]
pub struct Reasons {
    /// `keyCompromise`.
    pub key_compromise: bool,
    /// `cACompromise`.
    pub ca_compromise: bool,
    /// `affiliationChanged`.
    pub affiliation_changed: bool,
    /// `superseded`.
    pub superseded: bool,
    /// `cessationOfOperation`.
    pub cessation_of_operation: bool,
    /// `certificateHold`.
    pub certificate_hold: bool,
    /// `privilegeWithdrawn`.
    pub privilege_withdrawn: bool,
    /// `aACompromise`.
    pub aa_compromise: bool,
}

impl Reasons {
    ghost use Rattle.std.specs.Prelude.{◌≡◌};
    ghost use Rattle.der_path.specs.Reasons.{has_new, is_all, joined_reasons, met_reasons};

    /// Returns whether the set has all reasons.
    pub fn is_all(self) -> bool
        ensures { result ≡ is_all self }
    {
        self.key_compromise
            && self.ca_compromise
            && self.affiliation_changed
            && self.superseded
            && self.cessation_of_operation
            && self.certificate_hold
            && self.privilege_withdrawn
            && self.aa_compromise
    }

    /// Returns whether the set has a reason that another does not have.
    pub fn has_new(self, known: Reasons) -> bool
        ensures { result ≡ has_new self known }
    {
        self.key_compromise && !known.key_compromise
            || self.ca_compromise && !known.ca_compromise
            || self.affiliation_changed && !known.affiliation_changed
            || self.superseded && !known.superseded
            || self.cessation_of_operation && !known.cessation_of_operation
            || self.certificate_hold && !known.certificate_hold
            || self.privilege_withdrawn && !known.privilege_withdrawn
            || self.aa_compromise && !known.aa_compromise
    }

    /// Returns the reasons of one set or the other.
    pub fn joined(self, other: Reasons) -> Reasons
        ensures { result ≡ joined_reasons self other }
    {
        Reasons {
            key_compromise: self.key_compromise || other.key_compromise,
            ca_compromise: self.ca_compromise || other.ca_compromise,
            affiliation_changed: self.affiliation_changed || other.affiliation_changed,
            superseded: self.superseded || other.superseded,
            cessation_of_operation: self.cessation_of_operation || other.cessation_of_operation,
            certificate_hold: self.certificate_hold || other.certificate_hold,
            privilege_withdrawn: self.privilege_withdrawn || other.privilege_withdrawn,
            aa_compromise: self.aa_compromise || other.aa_compromise,
        }
    }

    /// Returns the reasons of both sets.
    pub fn met(self, other: Reasons) -> Reasons
        ensures { result ≡ met_reasons self other }
    {
        Reasons {
            key_compromise: self.key_compromise && other.key_compromise,
            ca_compromise: self.ca_compromise && other.ca_compromise,
            affiliation_changed: self.affiliation_changed && other.affiliation_changed,
            superseded: self.superseded && other.superseded,
            cessation_of_operation: self.cessation_of_operation && other.cessation_of_operation,
            certificate_hold: self.certificate_hold && other.certificate_hold,
            privilege_withdrawn: self.privilege_withdrawn && other.privilege_withdrawn,
            aa_compromise: self.aa_compromise && other.aa_compromise,
        }
    }
}

/// Returns the set of some reasons, or of all if there are no flags.
pub(crate) fn reasons_of(flags: Option<ReasonFlags<'_>>) -> Reasons
    ensures { result ≡ reasons_of flags.entry }
{
    match flags {
        Some(flags) => flagged(flags),
        None => all_reasons(true),
    }
}

/// Returns the set of all reasons, or of none.
pub(crate) fn all_reasons(are_there: bool) -> Reasons
    ensures { result ≡ all_reasons are_there }
{
    Reasons {
        key_compromise: are_there,
        ca_compromise: are_there,
        affiliation_changed: are_there,
        superseded: are_there,
        cessation_of_operation: are_there,
        certificate_hold: are_there,
        privilege_withdrawn: are_there,
        aa_compromise: are_there,
    }
}

/// Returns the reasons whose flags are set.
fn flagged(flags: ReasonFlags<'_>) -> Reasons
    ensures { result ≡ flagged flags.entry }
{
    Reasons {
        key_compromise: flags.has(REASON_FLAGS_KEY_COMPROMISE),
        ca_compromise: flags.has(REASON_FLAGS_CA_COMPROMISE),
        affiliation_changed: flags.has(REASON_FLAGS_AFFILIATION_CHANGED),
        superseded: flags.has(REASON_FLAGS_SUPERSEDED),
        cessation_of_operation: flags.has(REASON_FLAGS_CESSATION_OF_OPERATION),
        certificate_hold: flags.has(REASON_FLAGS_CERTIFICATE_HOLD),
        privilege_withdrawn: flags.has(REASON_FLAGS_PRIVILEGE_WITHDRAWN),
        aa_compromise: flags.has(REASON_FLAGS_AA_COMPROMISE),
    }
}
