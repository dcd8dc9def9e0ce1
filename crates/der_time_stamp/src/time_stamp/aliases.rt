//! Type aliases of PKIXTSP.
//!
//! Made by tools/asn1 from time_stamp.asn1.

ghost use Rattle.std.specs.Prelude.{◌≡◌};
ghost use Rattle.der_modules.specs.Asn1.{parse_of};
ghost use Rattle.der_time_stamp.specs.TimeStamp.Grammar.{pki_failure_info, pki_status, time_stamp_req_version, tsa_policy_id, tst_info_version};

use der_bits::NamedBitsRef;
use der_elem::Form;
use der_opaque::ObjectIdentifierRef;

/// A type that is written out within another, as `TimeStampReqVersion`.
///
/// A number outside 0..255 is refused: the names alone say how wide the type is.
pub type TimeStampReqVersion = u8;

/// What is read as `TimeStampReqVersion` is what the grammar page says.
pub fn grammar_of_time_stamp_req_version()
    ensures { ⟦<TimeStampReqVersion as Form>⟧.parse ≡ parse_of time_stamp_req_version }
{}

/// `v1` of `TimeStampReqVersion`.
pub const TIME_STAMP_REQ_VERSION_V1: u8 = 1;

/// ```text
/// TSAPolicyId ::= OBJECT IDENTIFIER
/// ```
pub type TsaPolicyId<'a> = ObjectIdentifierRef<'a, 39>;

/// What is read as `TSAPolicyId` is what the grammar page says.
pub fn grammar_of_tsa_policy_id<'a>()
    ensures { ⟦<TsaPolicyId<'a> as Form>⟧.parse ≡ parse_of tsa_policy_id }
{}

/// ```text
/// PKIStatus ::= INTEGER {
///      granted                 (0),
///      grantedWithMods         (1),
///      rejection               (2),
///      waiting                 (3),
///      revocationWarning       (4),
///      revocationNotification  (5) }
/// ```
///
/// A number outside 0..255 is refused: the names alone say how wide the type is.
pub type PkiStatus = u8;

/// What is read as `PKIStatus` is what the grammar page says.
pub fn grammar_of_pki_status()
    ensures { ⟦<PkiStatus as Form>⟧.parse ≡ parse_of pki_status }
{}

/// `granted` of `PKIStatus`.
pub const PKI_STATUS_GRANTED: u8 = 0;

/// `grantedWithMods` of `PKIStatus`.
pub const PKI_STATUS_GRANTED_WITH_MODS: u8 = 1;

/// `rejection` of `PKIStatus`.
pub const PKI_STATUS_REJECTION: u8 = 2;

/// `waiting` of `PKIStatus`.
pub const PKI_STATUS_WAITING: u8 = 3;

/// `revocationWarning` of `PKIStatus`.
pub const PKI_STATUS_REVOCATION_WARNING: u8 = 4;

/// `revocationNotification` of `PKIStatus`.
pub const PKI_STATUS_REVOCATION_NOTIFICATION: u8 = 5;

/// ```text
/// PKIFailureInfo ::= BIT STRING {
///      badAlg                (0),
///      badRequest            (2),
///      badDataFormat         (5),
///      timeNotAvailable     (14),
///      unacceptedPolicy     (15),
///      unacceptedExtension  (16),
///      addInfoNotAvailable  (17),
///      systemFailure        (25) }
/// ```
pub type PkiFailureInfo<'a> = NamedBitsRef<'a>;

/// What is read as `PKIFailureInfo` is what the grammar page says.
pub fn grammar_of_pki_failure_info<'a>()
    ensures { ⟦<PkiFailureInfo<'a> as Form>⟧.parse ≡ parse_of pki_failure_info }
{}

/// The position of the bit `badAlg` of `PKIFailureInfo`.
pub const PKI_FAILURE_INFO_BAD_ALG: usize = 0;

/// The position of the bit `badRequest` of `PKIFailureInfo`.
pub const PKI_FAILURE_INFO_BAD_REQUEST: usize = 2;

/// The position of the bit `badDataFormat` of `PKIFailureInfo`.
pub const PKI_FAILURE_INFO_BAD_DATA_FORMAT: usize = 5;

/// The position of the bit `timeNotAvailable` of `PKIFailureInfo`.
pub const PKI_FAILURE_INFO_TIME_NOT_AVAILABLE: usize = 14;

/// The position of the bit `unacceptedPolicy` of `PKIFailureInfo`.
pub const PKI_FAILURE_INFO_UNACCEPTED_POLICY: usize = 15;

/// The position of the bit `unacceptedExtension` of `PKIFailureInfo`.
pub const PKI_FAILURE_INFO_UNACCEPTED_EXTENSION: usize = 16;

/// The position of the bit `addInfoNotAvailable` of `PKIFailureInfo`.
pub const PKI_FAILURE_INFO_ADD_INFO_NOT_AVAILABLE: usize = 17;

/// The position of the bit `systemFailure` of `PKIFailureInfo`.
pub const PKI_FAILURE_INFO_SYSTEM_FAILURE: usize = 25;

/// A type that is written out within another, as `TstInfoVersion`.
///
/// A number outside 0..255 is refused: the names alone say how wide the type is.
pub type TstInfoVersion = u8;

/// What is read as `TstInfoVersion` is what the grammar page says.
pub fn grammar_of_tst_info_version()
    ensures { ⟦<TstInfoVersion as Form>⟧.parse ≡ parse_of tst_info_version }
{}

/// `v1` of `TstInfoVersion`.
pub const TST_INFO_VERSION_V1: u8 = 1;
