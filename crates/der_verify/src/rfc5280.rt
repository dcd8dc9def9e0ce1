//! The rules of RFC 5280 for certificates beyond the grammar (sections 4.1 and 4.2). A
//! certificate that is read may break them; a verifier checks them here.

mod alternatives;
mod fields;
mod inside;
mod lists;
mod repeated;
mod texts;
mod usage;
mod values;

ghost use Rattle.std.specs.Prelude.{◌≡◌, ◌||◌, ◌↔◌, List, filter, is_some, IfOk, IsTrue};
ghost use Rattle.std.specs.List.{list_any};
ghost use Rattle.der_lists.specs.Items.{AreItems};
ghost use Rattle.der_lists.specs.ListRef as list_ref;
ghost use Rattle.der_pkix.specs.declared.certificate.extension.Extension.{Extension};
ghost use Rattle.der_pkix.specs.Certificate.Certificate as certificate_fields;
ghost use Rattle.der_pkix.specs.Certificate.TbsCertificate as tbs_fields;
ghost use Rattle.der_verify.specs.Sections.{section};
ghost use Rattle.der_verify.specs.Rfc5280.{breaks, breaks_otherwise, breaks_within, certificate_rules, same_algorithms, forbidden, has_criticality, has_repeated, is_empty_name, is_positive, is_so_critical, is_uncritical_ca, says_true, seen_forbidden, AreListed};

use crate::extensions::{has_identifier, one_has};
use crate::shown::{ShownTest, one_passes};
use der_elem::Form;
use der_extensions::extension::constants::{
    ID_CE_AUTHORITY_KEY_IDENTIFIER, ID_CE_BASIC_CONSTRAINTS, ID_CE_FRESHEST_CRL,
    ID_CE_INHIBIT_ANY_POLICY, ID_CE_NAME_CONSTRAINTS, ID_CE_POLICY_CONSTRAINTS,
    ID_CE_SUBJECT_ALT_NAME, ID_CE_SUBJECT_DIRECTORY_ATTRIBUTES, ID_CE_SUBJECT_KEY_IDENTIFIER,
    ID_PE_AUTHORITY_INFO_ACCESS, ID_PE_SUBJECT_INFO_ACCESS,
};
use der_lists::ListRef;
use der_pkix::AlgorithmIdentifier;
use der_pkix::certificate::{Certificate, Extension, TbsCertificate};
use der_pkix::name::Name;
pub use lists::{LIST_RULES, ListRule, check_list, list_algorithms_agree};
use repeated::certificate_repeats;
use std::alloc::{AllocError, Global};

/// A rule of RFC 5280 for certificates.
#[derive(Clone, Copy, Debug, PartialEq, Eq)]
pub enum CertificateRule {
    /// The algorithm within is the one outside (4.1.1.2, 4.1.2.3).
    AlgorithmsAgree,
    /// Extensions stand in version 3 alone (4.1.2.1).
    ExtensionsInVersion3,
    /// The serial number is positive (4.1.2.2).
    SerialNumberIsPositive,
    /// The serial number has at most 20 octets (4.1.2.2).
    SerialNumberHasAtMost20Octets,
    /// The issuer is not empty (4.1.2.4).
    IssuerIsNotEmpty,
    /// Beside an empty subject stands a subjectAltName that is critical (4.1.2.6).
    EmptySubjectHasCriticalAltName,
    /// Unique identifiers stand in version 2 and 3 alone (4.1.2.8).
    UniqueIdentifiersInVersion2,
    /// Each extension stands once (4.2).
    ExtensionsStandOnce,
    /// authorityKeyIdentifier is not critical (4.2.1.1).
    AuthorityKeyIdentifierIsNotCritical,
    /// subjectKeyIdentifier is not critical (4.2.1.2).
    SubjectKeyIdentifierIsNotCritical,
    /// subjectDirectoryAttributes is not critical (4.2.1.8).
    SubjectDirectoryAttributesIsNotCritical,
    /// freshestCRL is not critical (4.2.1.15).
    FreshestCrlIsNotCritical,
    /// authorityInfoAccess is not critical (4.2.2.1).
    AuthorityInfoAccessIsNotCritical,
    /// subjectInfoAccess is not critical (4.2.2.2).
    SubjectInfoAccessIsNotCritical,
    /// basicConstraints of a CA is critical (4.2.1.9).
    BasicConstraintsOfCaIsCritical,
    /// nameConstraints is critical (4.2.1.10).
    NameConstraintsIsCritical,
    /// policyConstraints is critical (4.2.1.11).
    PolicyConstraintsIsCritical,
    /// inhibitAnyPolicy is critical (4.2.1.14).
    InhibitAnyPolicyIsCritical,
    /// The version is 1, 2 or 3 (4.1.2.1).
    VersionIsKnown,
    /// notAfter is not before notBefore (4.1.2.5).
    ValidityIsNotEmpty,
    /// Dates through 2049 are UTCTimes (4.1.2.5).
    DatesThrough2049AreUtcTimes,
    /// The subject of a CA is not empty (4.1.2.6).
    SubjectOfCaIsNotEmpty,
    /// The texts of issuer and subject have the sizes of A.1 (A.1).
    TextsHaveSizes,
    /// The texts of issuer and subject have the string types of A.1 (A.1).
    TextsHaveStringTypes,
    /// PrintableStrings in issuer and subject have only their characters (B).
    PrintableStringsHaveTheirCharacters,
    /// Ed25519, Ed448, X25519 and X448 have no parameters (RFC 8410 section 3) (4.1.1.2, 4.1.2.7).
    CurvesHaveNoParameters,
    /// A CA has a subjectKeyIdentifier (4.2.1.2).
    CaHasSubjectKeyIdentifier,
    /// authorityKeyIdentifier has a keyIdentifier, unless the issuer is the subject (4.2.1.1).
    AuthorityHasKeyIdentifier,
    /// authorityCertIssuer and authorityCertSerialNumber stand together (A.2).
    AuthorityIssuerHasSerialNumber,
    /// A CA has a keyUsage (4.2.1.3).
    CaHasKeyUsage,
    /// keyUsage has a bit that is set (4.2.1.3).
    KeyUsageHasABit,
    /// keyCertSign is set for a CA alone (4.2.1.3, 4.2.1.9).
    KeyCertSignOnlyInCa,
    /// pathLenConstraint stands beside cA and keyCertSign alone (4.2.1.9).
    PathLengthOnlyInCa,
    /// nameConstraints stands in the certificate of a CA alone (4.2.1.10).
    NameConstraintsOnlyInCa,
    /// nameConstraints is not empty (4.2.1.10).
    NameConstraintsIsNotEmpty,
    /// The subtrees of nameConstraints have the minimum 0 and no maximum (4.2.1.10).
    NameConstraintsHasNoDistances,
    /// The iPAddresses of nameConstraints have 8 or 32 octets (4.2.1.10).
    ConstrainedAddressesHave8Or32Octets,
    /// policyConstraints is not empty (4.2.1.11).
    PolicyConstraintsIsNotEmpty,
    /// Each policy stands once (4.2.1.4).
    PoliciesStandOnce,
    /// anyPolicy is not mapped (4.2.1.5).
    AnyPolicyIsNotMapped,
    /// A dNSName of an alternative name has the preferred name syntax (4.2.1.6, 4.2.1.7).
    DnsNamesHaveSyntax,
    /// An rfc822Name of an alternative name is a mailbox (4.2.1.6, 4.2.1.7).
    MailboxesHaveSyntax,
    /// A URI of an alternative name has a scheme and a part after it (4.2.1.6, 4.2.1.7).
    UrisHaveSchemes,
    /// An iPAddress of an alternative name has 4 or 16 octets (4.2.1.6, 4.2.1.7).
    AddressesHave4Or16Octets,
    /// Each point of cRLDistributionPoints has a distributionPoint or a cRLIssuer (4.2.1.13).
    PointsHaveNames,
}

/// All rules, in the order in which `check_certificate` returns them.
pub const CERTIFICATE_RULES: [CertificateRule; 45] = [
    CertificateRule::AlgorithmsAgree,
    CertificateRule::ExtensionsInVersion3,
    CertificateRule::SerialNumberIsPositive,
    CertificateRule::SerialNumberHasAtMost20Octets,
    CertificateRule::IssuerIsNotEmpty,
    CertificateRule::EmptySubjectHasCriticalAltName,
    CertificateRule::UniqueIdentifiersInVersion2,
    CertificateRule::ExtensionsStandOnce,
    CertificateRule::AuthorityKeyIdentifierIsNotCritical,
    CertificateRule::SubjectKeyIdentifierIsNotCritical,
    CertificateRule::SubjectDirectoryAttributesIsNotCritical,
    CertificateRule::FreshestCrlIsNotCritical,
    CertificateRule::AuthorityInfoAccessIsNotCritical,
    CertificateRule::SubjectInfoAccessIsNotCritical,
    CertificateRule::BasicConstraintsOfCaIsCritical,
    CertificateRule::NameConstraintsIsCritical,
    CertificateRule::PolicyConstraintsIsCritical,
    CertificateRule::InhibitAnyPolicyIsCritical,
    CertificateRule::VersionIsKnown,
    CertificateRule::ValidityIsNotEmpty,
    CertificateRule::DatesThrough2049AreUtcTimes,
    CertificateRule::SubjectOfCaIsNotEmpty,
    CertificateRule::TextsHaveSizes,
    CertificateRule::TextsHaveStringTypes,
    CertificateRule::PrintableStringsHaveTheirCharacters,
    CertificateRule::CurvesHaveNoParameters,
    CertificateRule::CaHasSubjectKeyIdentifier,
    CertificateRule::AuthorityHasKeyIdentifier,
    CertificateRule::AuthorityIssuerHasSerialNumber,
    CertificateRule::CaHasKeyUsage,
    CertificateRule::KeyUsageHasABit,
    CertificateRule::KeyCertSignOnlyInCa,
    CertificateRule::PathLengthOnlyInCa,
    CertificateRule::NameConstraintsOnlyInCa,
    CertificateRule::NameConstraintsIsNotEmpty,
    CertificateRule::NameConstraintsHasNoDistances,
    CertificateRule::ConstrainedAddressesHave8Or32Octets,
    CertificateRule::PolicyConstraintsIsNotEmpty,
    CertificateRule::PoliciesStandOnce,
    CertificateRule::AnyPolicyIsNotMapped,
    CertificateRule::DnsNamesHaveSyntax,
    CertificateRule::MailboxesHaveSyntax,
    CertificateRule::UrisHaveSchemes,
    CertificateRule::AddressesHave4Or16Octets,
    CertificateRule::PointsHaveNames,
];

/// Returns the rules that a certificate breaks, in the order of `CERTIFICATE_RULES`.
///
/// # Errors
/// If memory runs out.
pub fn check_certificate<'a>(
    alloc: Global,
    certificate: &Certificate<'a>,
) -> Result<Vec<CertificateRule>, AllocError>
    ensures { (listed : List Extension)
        → AreListed ⟦<Extension<'a> as Form>⟧ (tbs_fields.extensions (certificate_fields.tbs_certificate certificate.now)) listed
        → IfOk result (λ found. found.items ≡ filter (λ r. breaks r certificate.now listed) certificate_rules) }
{
    let mut found = Vec::new(alloc);
    let mut left = CERTIFICATE_RULES.as_slice();
    'each: while let [rule, others @ ..] = left {
        if rule.is_broken_in(alloc, certificate)? {
            found.push(*rule)?;
        }
        left = others;
    }
    Ok(found)
}

/// Returns whether the signed algorithm of a certificate is the one outside (4.1.1.2, 4.1.2.3):
/// the encodings are equal.
pub fn algorithms_agree<'a>(certificate: &Certificate<'a>) -> bool
    ensures equal { result ≡ same_algorithms certificate.now }
    ensures encodings { IsTrue result ↔ (⟦<AlgorithmIdentifier<'a> as Form>⟧.encoding (tbs_fields.signature (certificate_fields.tbs_certificate certificate.now)) ≡ ⟦<AlgorithmIdentifier<'a> as Form>⟧.encoding (certificate_fields.signature_algorithm certificate.now)) }
{
    certificate.tbs_certificate().signature() == certificate.signature_algorithm()
}

impl CertificateRule {
    /// Returns the section of RFC 5280 with the rule.
    pub fn section(self) -> &'static str
        ensures { result.now ≡ section self }
    {
        match self {
            CertificateRule::AlgorithmsAgree => "4.1.1.2",
            CertificateRule::ExtensionsInVersion3 => "4.1.2.1",
            CertificateRule::SerialNumberIsPositive => "4.1.2.2",
            CertificateRule::SerialNumberHasAtMost20Octets => "4.1.2.2",
            CertificateRule::IssuerIsNotEmpty => "4.1.2.4",
            CertificateRule::EmptySubjectHasCriticalAltName => "4.1.2.6",
            CertificateRule::UniqueIdentifiersInVersion2 => "4.1.2.8",
            CertificateRule::ExtensionsStandOnce => "4.2",
            CertificateRule::AuthorityKeyIdentifierIsNotCritical => "4.2.1.1",
            CertificateRule::SubjectKeyIdentifierIsNotCritical => "4.2.1.2",
            CertificateRule::SubjectDirectoryAttributesIsNotCritical => "4.2.1.8",
            CertificateRule::FreshestCrlIsNotCritical => "4.2.1.15",
            CertificateRule::AuthorityInfoAccessIsNotCritical => "4.2.2.1",
            CertificateRule::SubjectInfoAccessIsNotCritical => "4.2.2.2",
            CertificateRule::BasicConstraintsOfCaIsCritical => "4.2.1.9",
            CertificateRule::NameConstraintsIsCritical => "4.2.1.10",
            CertificateRule::PolicyConstraintsIsCritical => "4.2.1.11",
            CertificateRule::InhibitAnyPolicyIsCritical => "4.2.1.14",
            CertificateRule::VersionIsKnown => "4.1.2.1",
            CertificateRule::ValidityIsNotEmpty => "4.1.2.5",
            CertificateRule::DatesThrough2049AreUtcTimes => "4.1.2.5",
            CertificateRule::SubjectOfCaIsNotEmpty => "4.1.2.6",
            CertificateRule::TextsHaveSizes => "A.1",
            CertificateRule::TextsHaveStringTypes => "A.1",
            CertificateRule::PrintableStringsHaveTheirCharacters => "B",
            CertificateRule::CurvesHaveNoParameters => "4.1.1.2",
            CertificateRule::CaHasSubjectKeyIdentifier => "4.2.1.2",
            CertificateRule::AuthorityHasKeyIdentifier => "4.2.1.1",
            CertificateRule::AuthorityIssuerHasSerialNumber => "A.2",
            CertificateRule::CaHasKeyUsage => "4.2.1.3",
            CertificateRule::KeyUsageHasABit => "4.2.1.3",
            CertificateRule::KeyCertSignOnlyInCa => "4.2.1.3",
            CertificateRule::PathLengthOnlyInCa => "4.2.1.9",
            CertificateRule::NameConstraintsOnlyInCa => "4.2.1.10",
            CertificateRule::NameConstraintsIsNotEmpty => "4.2.1.10",
            CertificateRule::NameConstraintsHasNoDistances => "4.2.1.10",
            CertificateRule::ConstrainedAddressesHave8Or32Octets => "4.2.1.10",
            CertificateRule::PolicyConstraintsIsNotEmpty => "4.2.1.11",
            CertificateRule::PoliciesStandOnce => "4.2.1.4",
            CertificateRule::AnyPolicyIsNotMapped => "4.2.1.5",
            CertificateRule::DnsNamesHaveSyntax => "4.2.1.6",
            CertificateRule::MailboxesHaveSyntax => "4.2.1.6",
            CertificateRule::UrisHaveSchemes => "4.2.1.6",
            CertificateRule::AddressesHave4Or16Octets => "4.2.1.6",
            CertificateRule::PointsHaveNames => "4.2.1.13",
        }
    }

    /// Returns the result of `is_broken`, but takes memory and is faster: with n extensions, the
    /// rule that no extension is repeated takes about n log n comparisons.
    ///
    /// # Errors
    /// If memory runs out.
    pub fn is_broken_in<'a>(
        self,
        alloc: Global,
        certificate: &Certificate<'a>,
    ) -> Result<bool, AllocError>
        ensures { (listed : List Extension)
            → AreListed ⟦<Extension<'a> as Form>⟧ (tbs_fields.extensions (certificate_fields.tbs_certificate certificate.now)) listed
            → IfOk result (λ broken. broken ≡ breaks self certificate.now listed) }
    {
        match self {
            CertificateRule::ExtensionsStandOnce => {
                certificate_repeats(alloc, certificate.tbs_certificate())
            }
            _ => Ok(self.is_broken(alloc, certificate)),
        }
    }

    /// Returns whether a certificate breaks the rule, and takes no memory. The rule that no
    /// extension is repeated compares each extension with all after it.
    pub fn is_broken<'a>(self, alloc: Global, certificate: &Certificate<'a>) -> bool
        ensures { (listed : List Extension)
            → AreListed ⟦<Extension<'a> as Form>⟧ (tbs_fields.extensions (certificate_fields.tbs_certificate certificate.now)) listed
            → result ≡ breaks self certificate.now listed }
    {
        match self {
            CertificateRule::AlgorithmsAgree => !algorithms_agree(certificate),
            _ => self.is_broken_within(alloc, certificate.tbs_certificate()),
        }
    }

    /// Returns whether the signed part of a certificate breaks the rule.
    fn is_broken_within<'a>(self, alloc: Global, certificate: &TbsCertificate<'a>) -> bool
        ensures { (listed : List Extension) → AreListed ⟦<Extension<'a> as Form>⟧ (tbs_fields.extensions certificate.now) listed
            → result ≡ breaks_within self certificate.now listed }
    {
        match self.forbidden() {
            Some((identifier, critical)) => {
                has_criticality_in(alloc, certificate, identifier, critical)
            }
            None => self.is_broken_otherwise(alloc, certificate),
        }
    }

    /// Returns the identifier of the extension that the rule is about, and the criticality that
    /// it must not have.
    fn forbidden(self) -> Option<(&'static [u8], bool)>
        ensures { seen_forbidden result ≡ forbidden self }
    {
        match self {
            CertificateRule::AuthorityKeyIdentifierIsNotCritical => Some((
                &ID_CE_AUTHORITY_KEY_IDENTIFIER,
                true,
            )),
            CertificateRule::SubjectKeyIdentifierIsNotCritical => Some((
                &ID_CE_SUBJECT_KEY_IDENTIFIER,
                true,
            )),
            CertificateRule::SubjectDirectoryAttributesIsNotCritical => {
                Some((&ID_CE_SUBJECT_DIRECTORY_ATTRIBUTES, true))
            }
            CertificateRule::FreshestCrlIsNotCritical => Some((&ID_CE_FRESHEST_CRL, true)),
            CertificateRule::AuthorityInfoAccessIsNotCritical => {
                Some((&ID_PE_AUTHORITY_INFO_ACCESS, true))
            }
            CertificateRule::SubjectInfoAccessIsNotCritical => {
                Some((&ID_PE_SUBJECT_INFO_ACCESS, true))
            }
            CertificateRule::NameConstraintsIsCritical => Some((&ID_CE_NAME_CONSTRAINTS, false)),
            CertificateRule::PolicyConstraintsIsCritical => Some((
                &ID_CE_POLICY_CONSTRAINTS,
                false,
            )),
            CertificateRule::InhibitAnyPolicyIsCritical => Some((&ID_CE_INHIBIT_ANY_POLICY, false)),
            _ => None,
        }
    }

    /// Returns whether a certificate breaks a rule that is about more than criticality.
    fn is_broken_otherwise<'a>(self, alloc: Global, certificate: &TbsCertificate<'a>) -> bool
        ensures { (listed : List Extension) → AreListed ⟦<Extension<'a> as Form>⟧ (tbs_fields.extensions certificate.now) listed
            → result ≡ breaks_otherwise self certificate.now listed }
    {
        match self {
            CertificateRule::ExtensionsInVersion3 => {
                certificate.extensions().is_some() && certificate.version() != 2
            }
            CertificateRule::SerialNumberIsPositive => {
                !is_positive_integer(certificate.serial_number().as_bytes())
            }
            CertificateRule::SerialNumberHasAtMost20Octets => {
                certificate.serial_number().as_bytes().len() > 20
            }
            CertificateRule::IssuerIsNotEmpty => is_empty_name(certificate.issuer()),
            CertificateRule::EmptySubjectHasCriticalAltName => {
                is_empty_name(certificate.subject())
                    && !has_criticality_in(alloc, certificate, &ID_CE_SUBJECT_ALT_NAME, true)
            }
            CertificateRule::UniqueIdentifiersInVersion2 => {
                has_unique_identifier(certificate) && certificate.version() == 0
            }
            CertificateRule::ExtensionsStandOnce => match certificate.extensions() {
                Some(extensions) => has_repeated_one(alloc, extensions.items()),
                None => false,
            },
            CertificateRule::BasicConstraintsOfCaIsCritical => match certificate.extensions() {
                Some(extensions) => has_uncritical_ca(alloc, extensions.items()),
                None => false,
            },
            _ => self.is_broken_by_fields(alloc, certificate),
        }
    }
}

/// Returns whether contents octets are those of a positive INTEGER.
fn is_positive_integer(octets: &[u8]) -> bool
    ensures { result ≡ is_positive octets.now }
{
    match octets {
        [] => false,
        [first, rest @ ..] => *first < 0x80 && !(*first == 0 && rest.is_empty()),
    }
}

/// Returns whether a name has no attributes.
fn is_empty_name(name: &Name<'_>) -> bool
    ensures { result ≡ is_empty_name name.now }
{
    name.items().is_empty()
}

/// Returns whether a certificate has one of the two unique identifiers.
fn has_unique_identifier(certificate: &TbsCertificate<'_>) -> bool
    ensures { result ≡ (is_some (tbs_fields.issuer_unique_id certificate.now) || is_some (tbs_fields.subject_unique_id certificate.now)) }
{
    certificate.issuer_unique_id().is_some() || certificate.subject_unique_id().is_some()
}

/// Returns whether an extension of a certificate has this identifier and this criticality.
fn has_criticality_in<'a>(
    alloc: Global,
    certificate: &TbsCertificate<'a>,
    identifier: &[u8],
    critical: bool,
) -> bool
    ensures { (listed : List Extension) → AreListed ⟦<Extension<'a> as Form>⟧ (tbs_fields.extensions certificate.now) listed
        → result ≡ has_criticality identifier.now critical listed }
{
    match certificate.extensions() {
        Some(extensions) => has_criticality_of(alloc, extensions.items(), identifier, critical),
        None => false,
    }
}

/// Returns whether one of the extensions has this identifier and this criticality.
fn has_criticality_of<'a>(
    alloc: Global,
    extensions: &ListRef<'a, Extension<'a>>,
    identifier: &[u8],
    critical: bool,
) -> bool
    ensures { (items : List Extension) → AreItems ⟦<Extension<'a> as Form>⟧ (list_ref.octets_of extensions.now) items
        → result ≡ has_criticality identifier.now critical items }
{
    let test = HasCriticality {
        identifier,
        critical,
    };
    one_passes(extensions.iter(alloc), &test)
}

/// Returns whether an extension has this identifier and this criticality.
fn is_so_critical(extension: &Extension<'_>, identifier: &[u8], critical: bool) -> bool
    ensures { result ≡ is_so_critical identifier.now critical extension.now }
{
    has_identifier(extension, identifier) && extension.critical() == critical
}

/// The test that an extension has this identifier and this criticality.
#[derive(Drop)]
struct HasCriticality<'b> {
    identifier: &'b [u8],
    critical: bool,
}

impl<'a, 'b> ShownTest<Extension<'a>> for HasCriticality<'b> {
    ghost use Rattle.der_pkix.specs.declared.certificate.extension.Extension.{Extension};
    ghost use Rattle.der_verify.specs.Rfc5280.{is_so_critical};
    ghost use Rattle.der_verify.specs.Shown.{Encodes, encodes_too};

    ghost Shown = { Extension };

    ghost shows = { λ p v x. Encodes ⟦<Extension<'a> as Form>⟧ v x };

    ghost passes = { λ p. is_so_critical p.identifier.now p.critical };

    fn passes(&self, item: &Extension<'a>) -> bool {
        is_so_critical(item, self.identifier, self.critical)
    }

    ghost respects = { λ p v w x. encodes_too ⟦<Extension<'a> as Form>⟧ v w x };
}

/// Returns whether two extensions have the same identifier.
fn has_repeated_one<'a>(alloc: Global, extensions: &ListRef<'a, Extension<'a>>) -> bool
    ensures { (items : List Extension) → AreItems ⟦<Extension<'a> as Form>⟧ (list_ref.octets_of extensions.now) items
        → result ≡ has_repeated items }
{
    let mut left = extensions.iter(alloc);
    'each: while let Some(item) = left.next() {
        let Ok(extension) = item else {
            return false;
        };
        let Ok(others) = left.clone() else {
            return false;
        };
        if one_has(others, extension.extn_id().as_bytes()) {
            return true;
        }
    }
    false
}

/// Returns whether there is a basicConstraints of a CA that is not critical.
fn has_uncritical_ca<'a>(alloc: Global, extensions: &ListRef<'a, Extension<'a>>) -> bool
    ensures { (items : List Extension) → AreItems ⟦<Extension<'a> as Form>⟧ (list_ref.octets_of extensions.now) items
        → result ≡ list_any is_uncritical_ca items }
{
    one_passes(extensions.iter(alloc), &IsUncriticalCa)
}

/// The test that an extension is basicConstraints of a CA and is not critical.
struct IsUncriticalCa;

impl<'a> ShownTest<Extension<'a>> for IsUncriticalCa {
    ghost use Rattle.der_pkix.specs.declared.certificate.extension.Extension.{Extension};
    ghost use Rattle.der_verify.specs.Rfc5280.{is_uncritical_ca};
    ghost use Rattle.der_verify.specs.Shown.{Encodes, encodes_too};

    ghost Shown = { Extension };

    ghost shows = { λ p v x. Encodes ⟦<Extension<'a> as Form>⟧ v x };

    ghost passes = { λ p. is_uncritical_ca };

    fn passes(&self, item: &Extension<'a>) -> bool {
        is_uncritical(item)
    }

    ghost respects = { λ p v w x. encodes_too ⟦<Extension<'a> as Form>⟧ v w x };
}

/// Returns whether an extension is basicConstraints of a CA and is not critical.
fn is_uncritical(extension: &Extension<'_>) -> bool
    ensures { result ≡ is_uncritical_ca extension.now }
{
    extension.extn_id().as_bytes() == ID_CE_BASIC_CONSTRAINTS.as_slice()
        && !extension.critical()
        && says_true(extension.extn_value().as_bytes())
}

/// Returns whether the octets of BasicConstraints say that cA is TRUE: 30, a length, 01 01 FF.
fn says_true(octets: &[u8]) -> bool
    ensures { result ≡ says_true octets.now }
{
    octets.len() >= 5 && octets[2..5] == [0x01, 0x01, 0xff]
}
