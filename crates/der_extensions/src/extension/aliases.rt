//! Type aliases of PkixExtensions.
//!
//! Made by tools/asn1 from extension.asn1.

ghost use Rattle.std.specs.Prelude.{◌≡◌};
ghost use Rattle.der_extensions.specs.Extension.Grammar.{base_crl_number, base_distance, cert_policy_id, certificate_issuer, cp_suri, crl_number, freshest_crl, hold_instruction_code, inhibit_any_policy, invalidity_date, issuer_alt_name, key_identifier, key_purpose_id, key_usage, policy_qualifier_id, reason_flags, skip_certs, subject_alt_name, subject_key_identifier};
ghost use Rattle.der_modules.specs.Asn1.{parse_of};

use crate::extension::crl_distribution_points::CrlDistributionPoints;
use crate::extension::general_names::GeneralNames;
use der_ascii::Ia5StringRef;
use der_bits::NamedBitsRef;
use der_elem::Form;
use der_numbers::UintRef;
use der_opaque::{ObjectIdentifierRef, OctetStringRef};
use der_time::GeneralizedTime;

/// ```text
/// KeyIdentifier ::= OCTET STRING
/// ```
pub type KeyIdentifier<'a> = OctetStringRef<'a>;

/// What is read as `KeyIdentifier` is what the grammar page says.
pub fn grammar_of_key_identifier<'a>()
    ensures { ⟦<KeyIdentifier<'a> as Form>⟧.parse ≡ parse_of key_identifier }
{}

/// ```text
/// SubjectKeyIdentifier ::= KeyIdentifier
/// ```
pub type SubjectKeyIdentifier<'a> = KeyIdentifier<'a>;

/// What is read as `SubjectKeyIdentifier` is what the grammar page says.
pub fn grammar_of_subject_key_identifier<'a>()
    ensures { ⟦<SubjectKeyIdentifier<'a> as Form>⟧.parse ≡ parse_of subject_key_identifier }
{}

/// ```text
/// KeyUsage ::= BIT STRING {
///      digitalSignature        (0),
///      nonRepudiation          (1),  -- recent editions of X.509 have
///                                 -- renamed this bit to contentCommitment
///      keyEncipherment         (2),
///      dataEncipherment        (3),
///      keyAgreement            (4),
///      keyCertSign             (5),
///      cRLSign                 (6),
///      encipherOnly            (7),
///      decipherOnly            (8) }
/// ```
pub type KeyUsage<'a> = NamedBitsRef<'a>;

/// What is read as `KeyUsage` is what the grammar page says.
pub fn grammar_of_key_usage<'a>()
    ensures { ⟦<KeyUsage<'a> as Form>⟧.parse ≡ parse_of key_usage }
{}

/// The position of the bit `digitalSignature` of `KeyUsage`.
pub const KEY_USAGE_DIGITAL_SIGNATURE: usize = 0;

/// The position of the bit `nonRepudiation` of `KeyUsage`.
pub const KEY_USAGE_NON_REPUDIATION: usize = 1;

/// The position of the bit `keyEncipherment` of `KeyUsage`.
pub const KEY_USAGE_KEY_ENCIPHERMENT: usize = 2;

/// The position of the bit `dataEncipherment` of `KeyUsage`.
pub const KEY_USAGE_DATA_ENCIPHERMENT: usize = 3;

/// The position of the bit `keyAgreement` of `KeyUsage`.
pub const KEY_USAGE_KEY_AGREEMENT: usize = 4;

/// The position of the bit `keyCertSign` of `KeyUsage`.
pub const KEY_USAGE_KEY_CERT_SIGN: usize = 5;

/// The position of the bit `cRLSign` of `KeyUsage`.
pub const KEY_USAGE_CRL_SIGN: usize = 6;

/// The position of the bit `encipherOnly` of `KeyUsage`.
pub const KEY_USAGE_ENCIPHER_ONLY: usize = 7;

/// The position of the bit `decipherOnly` of `KeyUsage`.
pub const KEY_USAGE_DECIPHER_ONLY: usize = 8;

/// ```text
/// CertPolicyId ::= OBJECT IDENTIFIER
/// ```
pub type CertPolicyId<'a> = ObjectIdentifierRef<'a, 39>;

/// What is read as `CertPolicyId` is what the grammar page says.
pub fn grammar_of_cert_policy_id<'a>()
    ensures { ⟦<CertPolicyId<'a> as Form>⟧.parse ≡ parse_of cert_policy_id }
{}

/// ```text
/// PolicyQualifierId ::= OBJECT IDENTIFIER ( id-qt-cps | id-qt-unotice )
/// ```
///
/// Not checked: which values are allowed is not checked.
pub type PolicyQualifierId<'a> = ObjectIdentifierRef<'a, 39>;

/// What is read as `PolicyQualifierId` is what the grammar page says.
pub fn grammar_of_policy_qualifier_id<'a>()
    ensures { ⟦<PolicyQualifierId<'a> as Form>⟧.parse ≡ parse_of policy_qualifier_id }
{}

/// ```text
/// CPSuri ::= IA5String
/// ```
pub type CpSuri<'a> = Ia5StringRef<'a>;

/// What is read as `CPSuri` is what the grammar page says.
pub fn grammar_of_cp_suri<'a>()
    ensures { ⟦<CpSuri<'a> as Form>⟧.parse ≡ parse_of cp_suri }
{}

/// ```text
/// SubjectAltName ::= GeneralNames
/// ```
pub type SubjectAltName<'a> = GeneralNames<'a>;

/// What is read as `SubjectAltName` is what the grammar page says.
pub fn grammar_of_subject_alt_name<'a>()
    ensures { ⟦<SubjectAltName<'a> as Form>⟧.parse ≡ parse_of subject_alt_name }
{}

/// ```text
/// IssuerAltName ::= GeneralNames
/// ```
pub type IssuerAltName<'a> = GeneralNames<'a>;

/// What is read as `IssuerAltName` is what the grammar page says.
pub fn grammar_of_issuer_alt_name<'a>()
    ensures { ⟦<IssuerAltName<'a> as Form>⟧.parse ≡ parse_of issuer_alt_name }
{}

/// ```text
/// BaseDistance ::= INTEGER (0..MAX)
/// ```
///
/// Not checked: INTEGER as u8: other numbers are refused.
pub type BaseDistance = u8;

/// What is read as `BaseDistance` is what the grammar page says.
pub fn grammar_of_base_distance()
    ensures { ⟦<BaseDistance as Form>⟧.parse ≡ parse_of base_distance }
{}

/// ```text
/// SkipCerts ::= INTEGER (0..MAX)
/// ```
pub type SkipCerts<'a> = UintRef<'a>;

/// What is read as `SkipCerts` is what the grammar page says.
pub fn grammar_of_skip_certs<'a>()
    ensures { ⟦<SkipCerts<'a> as Form>⟧.parse ≡ parse_of skip_certs }
{}

/// ```text
/// ReasonFlags ::= BIT STRING {
///      unused                  (0),
///      keyCompromise           (1),
///      cACompromise            (2),
///      affiliationChanged      (3),
///      superseded              (4),
///      cessationOfOperation    (5),
///      certificateHold         (6),
///      privilegeWithdrawn      (7),
///      aACompromise            (8) }
/// ```
pub type ReasonFlags<'a> = NamedBitsRef<'a>;

/// What is read as `ReasonFlags` is what the grammar page says.
pub fn grammar_of_reason_flags<'a>()
    ensures { ⟦<ReasonFlags<'a> as Form>⟧.parse ≡ parse_of reason_flags }
{}

/// The position of the bit `unused` of `ReasonFlags`.
pub const REASON_FLAGS_UNUSED: usize = 0;

/// The position of the bit `keyCompromise` of `ReasonFlags`.
pub const REASON_FLAGS_KEY_COMPROMISE: usize = 1;

/// The position of the bit `cACompromise` of `ReasonFlags`.
pub const REASON_FLAGS_CA_COMPROMISE: usize = 2;

/// The position of the bit `affiliationChanged` of `ReasonFlags`.
pub const REASON_FLAGS_AFFILIATION_CHANGED: usize = 3;

/// The position of the bit `superseded` of `ReasonFlags`.
pub const REASON_FLAGS_SUPERSEDED: usize = 4;

/// The position of the bit `cessationOfOperation` of `ReasonFlags`.
pub const REASON_FLAGS_CESSATION_OF_OPERATION: usize = 5;

/// The position of the bit `certificateHold` of `ReasonFlags`.
pub const REASON_FLAGS_CERTIFICATE_HOLD: usize = 6;

/// The position of the bit `privilegeWithdrawn` of `ReasonFlags`.
pub const REASON_FLAGS_PRIVILEGE_WITHDRAWN: usize = 7;

/// The position of the bit `aACompromise` of `ReasonFlags`.
pub const REASON_FLAGS_AA_COMPROMISE: usize = 8;

/// ```text
/// KeyPurposeId ::= OBJECT IDENTIFIER
/// ```
pub type KeyPurposeId<'a> = ObjectIdentifierRef<'a, 39>;

/// What is read as `KeyPurposeId` is what the grammar page says.
pub fn grammar_of_key_purpose_id<'a>()
    ensures { ⟦<KeyPurposeId<'a> as Form>⟧.parse ≡ parse_of key_purpose_id }
{}

/// ```text
/// InhibitAnyPolicy ::= SkipCerts
/// ```
pub type InhibitAnyPolicy<'a> = SkipCerts<'a>;

/// What is read as `InhibitAnyPolicy` is what the grammar page says.
pub fn grammar_of_inhibit_any_policy<'a>()
    ensures { ⟦<InhibitAnyPolicy<'a> as Form>⟧.parse ≡ parse_of inhibit_any_policy }
{}

/// ```text
/// FreshestCRL ::= CRLDistributionPoints
/// ```
pub type FreshestCrl<'a> = CrlDistributionPoints<'a>;

/// What is read as `FreshestCRL` is what the grammar page says.
pub fn grammar_of_freshest_crl<'a>()
    ensures { ⟦<FreshestCrl<'a> as Form>⟧.parse ≡ parse_of freshest_crl }
{}

/// ```text
/// CRLNumber ::= INTEGER (0..MAX)
/// ```
pub type CrlNumber<'a> = UintRef<'a>;

/// What is read as `CRLNumber` is what the grammar page says.
pub fn grammar_of_crl_number<'a>()
    ensures { ⟦<CrlNumber<'a> as Form>⟧.parse ≡ parse_of crl_number }
{}

/// ```text
/// BaseCRLNumber ::= CRLNumber
/// ```
pub type BaseCrlNumber<'a> = CrlNumber<'a>;

/// What is read as `BaseCRLNumber` is what the grammar page says.
pub fn grammar_of_base_crl_number<'a>()
    ensures { ⟦<BaseCrlNumber<'a> as Form>⟧.parse ≡ parse_of base_crl_number }
{}

/// ```text
/// CertificateIssuer ::= GeneralNames
/// ```
pub type CertificateIssuer<'a> = GeneralNames<'a>;

/// What is read as `CertificateIssuer` is what the grammar page says.
pub fn grammar_of_certificate_issuer<'a>()
    ensures { ⟦<CertificateIssuer<'a> as Form>⟧.parse ≡ parse_of certificate_issuer }
{}

/// ```text
/// HoldInstructionCode ::= OBJECT IDENTIFIER
/// ```
pub type HoldInstructionCode<'a> = ObjectIdentifierRef<'a, 39>;

/// What is read as `HoldInstructionCode` is what the grammar page says.
pub fn grammar_of_hold_instruction_code<'a>()
    ensures { ⟦<HoldInstructionCode<'a> as Form>⟧.parse ≡ parse_of hold_instruction_code }
{}

/// ```text
/// InvalidityDate ::=  GeneralizedTime
/// ```
pub type InvalidityDate = GeneralizedTime;

/// What is read as `InvalidityDate` is what the grammar page says.
pub fn grammar_of_invalidity_date()
    ensures { ⟦<InvalidityDate as Form>⟧.parse ≡ parse_of invalidity_date }
{}
