//! Numbers that have names: CRLReason and Version of RFC 5280 (5.3.1, 4.1.2.1).

ghost use Rattle.layer_tests.specs.Enumerations.{crl_reasons, versions};

use der_elem::IntegerTag;
use der_numbers::{EnumeratedTag, Enumeration};

/// `CRLReason ::= ENUMERATED`, which does not use 7.
#[derive(Clone, Copy, Debug, PartialEq, Eq)]
pub enum CrlReason {
    /// `unspecified` (0).
    Unspecified,
    /// `keyCompromise` (1).
    KeyCompromise,
    /// `cACompromise` (2).
    CaCompromise,
    /// `affiliationChanged` (3).
    AffiliationChanged,
    /// `superseded` (4).
    Superseded,
    /// `cessationOfOperation` (5).
    CessationOfOperation,
    /// `certificateHold` (6).
    CertificateHold,
    /// `removeFromCRL` (8).
    RemoveFromCrl,
    /// `privilegeWithdrawn` (9).
    PrivilegeWithdrawn,
    /// `aACompromise` (10).
    AaCompromise,
}

impl Enumeration for CrlReason {
    type Marker = EnumeratedTag;

    ghost names = { crl_reasons };

    fn number(self) -> i64 {
        match self {
            CrlReason::Unspecified => 0,
            CrlReason::KeyCompromise => 1,
            CrlReason::CaCompromise => 2,
            CrlReason::AffiliationChanged => 3,
            CrlReason::Superseded => 4,
            CrlReason::CessationOfOperation => 5,
            CrlReason::CertificateHold => 6,
            CrlReason::RemoveFromCrl => 8,
            CrlReason::PrivilegeWithdrawn => 9,
            CrlReason::AaCompromise => 10,
        }
    }

    fn of_number(number: i64) -> Option<CrlReason> {
        match number {
            0 => Some(CrlReason::Unspecified),
            1 => Some(CrlReason::KeyCompromise),
            2 => Some(CrlReason::CaCompromise),
            3 => Some(CrlReason::AffiliationChanged),
            4 => Some(CrlReason::Superseded),
            5 => Some(CrlReason::CessationOfOperation),
            6 => Some(CrlReason::CertificateHold),
            8 => Some(CrlReason::RemoveFromCrl),
            9 => Some(CrlReason::PrivilegeWithdrawn),
            10 => Some(CrlReason::AaCompromise),
            _ => None,
        }
    }
}

/// `Version ::= INTEGER { v1(0), v2(1), v3(2) }`.
#[derive(Clone, Copy, Debug, PartialEq, Eq)]
pub enum Version {
    /// `v1` (0).
    V1,
    /// `v2` (1).
    V2,
    /// `v3` (2).
    V3,
}

impl Enumeration for Version {
    type Marker = IntegerTag;

    ghost names = { versions };

    fn number(self) -> i64 {
        match self {
            Version::V1 => 0,
            Version::V2 => 1,
            Version::V3 => 2,
        }
    }

    fn of_number(number: i64) -> Option<Version> {
        match number {
            0 => Some(Version::V1),
            1 => Some(Version::V2),
            2 => Some(Version::V3),
            _ => None,
        }
    }
}
