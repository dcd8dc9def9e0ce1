//! The rules of RFC 5280 for lists of revoked certificates beyond the grammar (sections 5.1 to
//! 5.3).

ghost use Rattle.std.specs.Prelude.{◌≡◌, ◌↔◌, List, Option, filter, IfOk, IsTrue};
ghost use Rattle.std.specs.List.{list_any};
ghost use Rattle.der_lists.specs.ListRef as list_ref;
ghost use Rattle.der_pkix.specs.declared.certificate.extension.Extension.{Extension};
ghost use Rattle.der_pkix.specs.Crl.CertificateList as list_fields;
ghost use Rattle.der_pkix.specs.Crl.TbsCertList as tbs_fields;
ghost use Rattle.der_verify.specs.Rfc5280.{seen_forbidden, AreListed};
ghost use Rattle.der_verify.specs.Sections.{list_section};
ghost use Rattle.der_verify.specs.Shown.{AreShown};
ghost use Rattle.der_verify.specs.Rfc5280Lists.{entry_has_criticality, entry_has_extensions, forbidden_of_entry, forbidden_of_list, has_repeated_within, is_early_if_there, is_other_version, is_removed_within, is_version_2, list_breaks, list_breaks_inside, list_breaks_otherwise, list_breaks_within, list_rules, list_same_algorithms, revokes_early, AreEntries, EntryShows};

use super::inside::{
    has_early_date, has_key_identifier, has_two_kinds, is_empty_sequence, is_odd_number, is_removed,
};
use super::repeated::list_repeats;
use super::values::{value_in, value_of_list};
use super::{has_criticality_of, has_repeated_one, is_empty_name};
use crate::shown::{ShownTest, one_passes};
use crate::time::is_early;
use der_elem::Form;
use der_extensions::extension::constants::{
    ID_CE_AUTHORITY_KEY_IDENTIFIER, ID_CE_CERTIFICATE_ISSUER, ID_CE_CRL_NUMBER, ID_CE_CRL_REASONS,
    ID_CE_DELTA_CRL_INDICATOR, ID_CE_FRESHEST_CRL, ID_CE_INVALIDITY_DATE,
    ID_CE_ISSUING_DISTRIBUTION_POINT, ID_PE_AUTHORITY_INFO_ACCESS,
};
use der_lists::ListRef;
use der_pkix::AlgorithmIdentifier;
use der_pkix::certificate::{Extension, Time};
use der_pkix::crl::{CertificateList, RevokedCertificate, TbsCertList};
use std::alloc::{AllocError, Global};

/// A rule of RFC 5280 for lists of revoked certificates.
#[derive(Clone, Copy, Debug, PartialEq, Eq)]
pub enum ListRule {
    /// The algorithm within is the one outside (5.1.1.2, 5.1.2.2).
    AlgorithmsAgree,
    /// Extensions, of the list or of an entry, stand in version 2 alone (5.1.2.1).
    ExtensionsInVersion2,
    /// The issuer is not empty (5.1.2.3).
    IssuerIsNotEmpty,
    /// nextUpdate is there (5.1.2.5).
    NextUpdateIsThere,
    /// A list of no revoked certificates is absent (5.1.2.6).
    EmptyListIsAbsent,
    /// Each extension of the list stands once (5.2, 4.2).
    ExtensionsStandOnce,
    /// cRLNumber is not critical (5.2.3).
    CrlNumberIsNotCritical,
    /// deltaCRLIndicator is critical (5.2.4).
    DeltaCrlIndicatorIsCritical,
    /// issuingDistributionPoint is critical (5.2.5).
    IssuingDistributionPointIsCritical,
    /// freshestCRL is not critical (5.2.6).
    FreshestCrlIsNotCritical,
    /// authorityInfoAccess is not critical (5.2.7).
    AuthorityInfoAccessIsNotCritical,
    /// reasonCode of an entry is not critical (5.3.1).
    ReasonCodeIsNotCritical,
    /// invalidityDate of an entry is not critical (5.3.2).
    InvalidityDateIsNotCritical,
    /// certificateIssuer of an entry is critical (5.3.3).
    CertificateIssuerIsCritical,
    /// The version is 2 or absent (5.1.2.1).
    VersionIs2,
    /// Dates through 2049 are UTCTimes (5.1.2.4, 5.1.2.5, 5.1.2.6).
    DatesThrough2049AreUtcTimes,
    /// authorityKeyIdentifier has a keyIdentifier (5.2.1).
    AuthorityHasKeyIdentifier,
    /// cRLNumber is there (5.2.3).
    CrlNumberIsThere,
    /// cRLNumber is not negative, and has at most 20 octets (5.2.3).
    CrlNumberHasAtMost20Octets,
    /// issuingDistributionPoint is not empty (5.2.5).
    IssuingDistributionPointIsNotEmpty,
    /// issuingDistributionPoint has at most one kind of certificates (5.2.5).
    IssuingDistributionPointHasOneKind,
    /// Each extension of an entry stands once (5.3, 4.2).
    EntryExtensionsStandOnce,
    /// removeFromCRL stands in a delta list alone (5.3.1).
    RemoveFromCrlOnlyInDelta,
}

/// All rules, in the order in which `check_list` returns them.
pub const LIST_RULES: [ListRule; 23] = [
    ListRule::AlgorithmsAgree,
    ListRule::ExtensionsInVersion2,
    ListRule::IssuerIsNotEmpty,
    ListRule::NextUpdateIsThere,
    ListRule::EmptyListIsAbsent,
    ListRule::ExtensionsStandOnce,
    ListRule::CrlNumberIsNotCritical,
    ListRule::DeltaCrlIndicatorIsCritical,
    ListRule::IssuingDistributionPointIsCritical,
    ListRule::FreshestCrlIsNotCritical,
    ListRule::AuthorityInfoAccessIsNotCritical,
    ListRule::ReasonCodeIsNotCritical,
    ListRule::InvalidityDateIsNotCritical,
    ListRule::CertificateIssuerIsCritical,
    ListRule::VersionIs2,
    ListRule::DatesThrough2049AreUtcTimes,
    ListRule::AuthorityHasKeyIdentifier,
    ListRule::CrlNumberIsThere,
    ListRule::CrlNumberHasAtMost20Octets,
    ListRule::IssuingDistributionPointIsNotEmpty,
    ListRule::IssuingDistributionPointHasOneKind,
    ListRule::EntryExtensionsStandOnce,
    ListRule::RemoveFromCrlOnlyInDelta,
];

/// Returns the rules that a list breaks, in the order of `LIST_RULES`.
///
/// # Errors
/// If memory runs out.
pub fn check_list<'a>(
    alloc: Global,
    list: &CertificateList<'a>,
) -> Result<Vec<ListRule>, AllocError>
    ensures { (listed : List Extension) (entries : List (Option (List Extension)))
        → AreListed ⟦<Extension<'a> as Form>⟧ (tbs_fields.crl_extensions (list_fields.tbs_cert_list list.now)) listed
        → AreEntries ⟦<RevokedCertificate<'a> as Form>⟧ ⟦<Extension<'a> as Form>⟧ (tbs_fields.revoked_certificates (list_fields.tbs_cert_list list.now)) entries
        → IfOk result (λ found. found.items ≡ filter (λ r. list_breaks r list.now listed entries) list_rules) }
{
    let mut found = Vec::new(alloc);
    let mut left = LIST_RULES.as_slice();
    'each: while let [rule, others @ ..] = left {
        if rule.is_broken_in(alloc, list)? {
            found.push(*rule)?;
        }
        left = others;
    }
    Ok(found)
}

/// Returns whether the signed algorithm of a list is the one outside (5.1.1.2, 5.1.2.2): the
/// encodings are equal.
pub fn list_algorithms_agree<'a>(list: &CertificateList<'a>) -> bool
    ensures equal { result ≡ list_same_algorithms list.now }
    ensures encodings { IsTrue result ↔ (⟦<AlgorithmIdentifier<'a> as Form>⟧.encoding (tbs_fields.signature (list_fields.tbs_cert_list list.now)) ≡ ⟦<AlgorithmIdentifier<'a> as Form>⟧.encoding (list_fields.signature_algorithm list.now)) }
{
    list.tbs_cert_list().signature() == list.signature_algorithm()
}

impl ListRule {
    /// Returns the section of RFC 5280 with the rule.
    pub fn section(self) -> &'static str
        ensures { result.now ≡ list_section self }
    {
        match self {
            ListRule::AlgorithmsAgree => "5.1.1.2",
            ListRule::ExtensionsInVersion2 => "5.1.2.1",
            ListRule::IssuerIsNotEmpty => "5.1.2.3",
            ListRule::NextUpdateIsThere => "5.1.2.5",
            ListRule::EmptyListIsAbsent => "5.1.2.6",
            ListRule::ExtensionsStandOnce => "5.2",
            ListRule::CrlNumberIsNotCritical => "5.2.3",
            ListRule::DeltaCrlIndicatorIsCritical => "5.2.4",
            ListRule::IssuingDistributionPointIsCritical => "5.2.5",
            ListRule::FreshestCrlIsNotCritical => "5.2.6",
            ListRule::AuthorityInfoAccessIsNotCritical => "5.2.7",
            ListRule::ReasonCodeIsNotCritical => "5.3.1",
            ListRule::InvalidityDateIsNotCritical => "5.3.2",
            ListRule::CertificateIssuerIsCritical => "5.3.3",
            ListRule::VersionIs2 => "5.1.2.1",
            ListRule::DatesThrough2049AreUtcTimes => "5.1.2.4",
            ListRule::AuthorityHasKeyIdentifier => "5.2.1",
            ListRule::CrlNumberIsThere => "5.2.3",
            ListRule::CrlNumberHasAtMost20Octets => "5.2.3",
            ListRule::IssuingDistributionPointIsNotEmpty => "5.2.5",
            ListRule::IssuingDistributionPointHasOneKind => "5.2.5",
            ListRule::EntryExtensionsStandOnce => "5.3",
            ListRule::RemoveFromCrlOnlyInDelta => "5.3.1",
        }
    }

    /// Returns the result of `is_broken`, but takes memory and is faster: with n extensions, the
    /// rule that no extension is repeated takes about n log n comparisons.
    ///
    /// # Errors
    /// If memory runs out.
    pub fn is_broken_in<'a>(
        self,
        alloc: Global,
        list: &CertificateList<'a>,
    ) -> Result<bool, AllocError>
        ensures { (listed : List Extension) (entries : List (Option (List Extension)))
            → AreListed ⟦<Extension<'a> as Form>⟧ (tbs_fields.crl_extensions (list_fields.tbs_cert_list list.now)) listed
            → AreEntries ⟦<RevokedCertificate<'a> as Form>⟧ ⟦<Extension<'a> as Form>⟧ (tbs_fields.revoked_certificates (list_fields.tbs_cert_list list.now)) entries
            → IfOk result (λ broken. broken ≡ list_breaks self list.now listed entries) }
    {
        match self {
            ListRule::ExtensionsStandOnce => list_repeats(alloc, list.tbs_cert_list()),
            _ => Ok(self.is_broken(alloc, list)),
        }
    }

    /// Returns whether a list breaks the rule, and takes no memory. The rule that no extension is
    /// repeated compares each extension with all after it.
    pub fn is_broken<'a>(self, alloc: Global, list: &CertificateList<'a>) -> bool
        ensures { (listed : List Extension) (entries : List (Option (List Extension)))
            → AreListed ⟦<Extension<'a> as Form>⟧ (tbs_fields.crl_extensions (list_fields.tbs_cert_list list.now)) listed
            → AreEntries ⟦<RevokedCertificate<'a> as Form>⟧ ⟦<Extension<'a> as Form>⟧ (tbs_fields.revoked_certificates (list_fields.tbs_cert_list list.now)) entries
            → result ≡ list_breaks self list.now listed entries }
    {
        match self {
            ListRule::AlgorithmsAgree => !list_algorithms_agree(list),
            _ => self.is_broken_within(alloc, list.tbs_cert_list()),
        }
    }

    /// Returns whether the signed part of a list breaks the rule.
    fn is_broken_within<'a>(self, alloc: Global, list: &TbsCertList<'a>) -> bool
        ensures { (listed : List Extension) (entries : List (Option (List Extension)))
            → AreListed ⟦<Extension<'a> as Form>⟧ (tbs_fields.crl_extensions list.now) listed
            → AreEntries ⟦<RevokedCertificate<'a> as Form>⟧ ⟦<Extension<'a> as Form>⟧ (tbs_fields.revoked_certificates list.now) entries
            → result ≡ list_breaks_within self list.now listed entries }
    {
        match (self.forbidden(), self.forbidden_of_entry()) {
            (Some((identifier, critical)), _) => match list.crl_extensions() {
                Some(extensions) => {
                    has_criticality_of(alloc, extensions.items(), identifier, critical)
                }
                None => false,
            },
            (None, Some((identifier, critical))) => match list.revoked_certificates() {
                Some(entries) => entry_has_criticality_of(alloc, entries, identifier, critical),
                None => false,
            },
            (None, None) => self.is_broken_otherwise(alloc, list),
        }
    }

    /// Returns the identifier of the extension of a list that the rule is about, and the
    /// criticality that it must not have.
    fn forbidden(self) -> Option<(&'static [u8], bool)>
        ensures { seen_forbidden result ≡ forbidden_of_list self }
    {
        match self {
            ListRule::CrlNumberIsNotCritical => Some((&ID_CE_CRL_NUMBER, true)),
            ListRule::DeltaCrlIndicatorIsCritical => Some((&ID_CE_DELTA_CRL_INDICATOR, false)),
            ListRule::IssuingDistributionPointIsCritical => Some((
                &ID_CE_ISSUING_DISTRIBUTION_POINT,
                false,
            )),
            ListRule::FreshestCrlIsNotCritical => Some((&ID_CE_FRESHEST_CRL, true)),
            ListRule::AuthorityInfoAccessIsNotCritical => {
                Some((&ID_PE_AUTHORITY_INFO_ACCESS, true))
            }
            _ => None,
        }
    }

    /// Returns the identifier and the forbidden criticality of an extension of an entry.
    fn forbidden_of_entry(self) -> Option<(&'static [u8], bool)>
        ensures { seen_forbidden result ≡ forbidden_of_entry self }
    {
        match self {
            ListRule::ReasonCodeIsNotCritical => Some((&ID_CE_CRL_REASONS, true)),
            ListRule::InvalidityDateIsNotCritical => Some((&ID_CE_INVALIDITY_DATE, true)),
            ListRule::CertificateIssuerIsCritical => Some((&ID_CE_CERTIFICATE_ISSUER, false)),
            _ => None,
        }
    }

    /// Returns whether a list breaks a rule that is about more than criticality.
    fn is_broken_otherwise<'a>(self, alloc: Global, list: &TbsCertList<'a>) -> bool
        ensures { (listed : List Extension) (entries : List (Option (List Extension)))
            → AreListed ⟦<Extension<'a> as Form>⟧ (tbs_fields.crl_extensions list.now) listed
            → AreEntries ⟦<RevokedCertificate<'a> as Form>⟧ ⟦<Extension<'a> as Form>⟧ (tbs_fields.revoked_certificates list.now) entries
            → result ≡ list_breaks_otherwise self list.now listed entries }
    {
        match self {
            ListRule::ExtensionsInVersion2 => {
                !is_of_version_2(list.version())
                    && (list.crl_extensions().is_some() || has_entry_extensions(alloc, list))
            }
            ListRule::IssuerIsNotEmpty => is_empty_name(list.issuer()),
            ListRule::NextUpdateIsThere => list.next_update().is_none(),
            ListRule::EmptyListIsAbsent => match list.revoked_certificates() {
                Some(entries) => entries.is_empty(),
                None => false,
            },
            ListRule::ExtensionsStandOnce => match list.crl_extensions() {
                Some(extensions) => has_repeated_one(alloc, extensions.items()),
                None => false,
            },
            _ => self.is_broken_inside(alloc, list),
        }
    }

    /// Returns whether a list breaks a rule about its version, its dates, or the values of its
    /// extensions.
    fn is_broken_inside<'a>(self, alloc: Global, list: &TbsCertList<'a>) -> bool
        ensures { (listed : List Extension) (entries : List (Option (List Extension)))
            → AreListed ⟦<Extension<'a> as Form>⟧ (tbs_fields.crl_extensions list.now) listed
            → AreEntries ⟦<RevokedCertificate<'a> as Form>⟧ ⟦<Extension<'a> as Form>⟧ (tbs_fields.revoked_certificates list.now) entries
            → result ≡ list_breaks_inside self list.now listed entries }
    {
        match self {
            ListRule::VersionIs2 => is_other_version(list.version()),
            ListRule::DatesThrough2049AreUtcTimes => {
                is_early(list.this_update())
                    || is_early_if_there(list.next_update())
                    || revokes_early(list)
            }
            ListRule::AuthorityHasKeyIdentifier => {
                !has_key_identifier(value_of_list(alloc, list, &ID_CE_AUTHORITY_KEY_IDENTIFIER))
            }
            ListRule::CrlNumberIsThere => {
                value_of_list(alloc, list, &ID_CE_CRL_NUMBER).is_empty()
            }
            ListRule::CrlNumberHasAtMost20Octets => {
                is_odd_number(value_of_list(alloc, list, &ID_CE_CRL_NUMBER))
            }
            ListRule::IssuingDistributionPointIsNotEmpty => {
                is_empty_sequence(value_of_list(alloc, list, &ID_CE_ISSUING_DISTRIBUTION_POINT))
            }
            ListRule::IssuingDistributionPointHasOneKind => {
                has_two_kinds(value_of_list(alloc, list, &ID_CE_ISSUING_DISTRIBUTION_POINT))
            }
            ListRule::EntryExtensionsStandOnce => match list.revoked_certificates() {
                Some(entries) => one_repeats_extension(alloc, entries),
                None => false,
            },
            ListRule::RemoveFromCrlOnlyInDelta => {
                value_of_list(alloc, list, &ID_CE_DELTA_CRL_INDICATOR).is_empty()
                    && removes_one(alloc, list)
            }
            _ => false,
        }
    }
}

/// Returns whether the version is another than 2.
fn is_other_version(version: Option<u8>) -> bool
    ensures { result ≡ is_other_version version }
{
    match version {
        Some(version) => version != 1,
        None => false,
    }
}

/// Returns whether a date, if there is one, is through 2049 and a GeneralizedTime.
fn is_early_if_there(time: Option<Time>) -> bool
    ensures { result ≡ is_early_if_there time }
{
    match time {
        Some(time) => is_early(time),
        None => false,
    }
}

/// Returns whether the revocationDate of an entry is through 2049 and a GeneralizedTime.
fn revokes_early(list: &TbsCertList<'_>) -> bool
    ensures { result ≡ revokes_early (tbs_fields.revoked_certificates list.now) }
{
    match list.revoked_certificates() {
        Some(entries) => has_early_date(entries.as_bytes()),
        None => false,
    }
}

/// Returns whether the version is 2.
fn is_of_version_2(version: Option<u8>) -> bool
    ensures { result ≡ is_version_2 version }
{
    match version {
        Some(version) => version == 1,
        None => false,
    }
}

/// Returns whether an entry of a list has extensions.
fn has_entry_extensions<'a>(alloc: Global, list: &TbsCertList<'a>) -> bool
    ensures { (entries : List (Option (List Extension)))
        → AreEntries ⟦<RevokedCertificate<'a> as Form>⟧ ⟦<Extension<'a> as Form>⟧ (tbs_fields.revoked_certificates list.now) entries
        → result ≡ entry_has_extensions entries }
{
    match list.revoked_certificates() {
        Some(entries) => one_has_extensions(alloc, entries),
        None => false,
    }
}

/// Returns whether one of these entries has extensions.
fn one_has_extensions<'a>(alloc: Global, entries: &ListRef<'a, RevokedCertificate<'a>>) -> bool
    ensures { (shown : List (Option (List Extension)))
        → AreShown ⟦<RevokedCertificate<'a> as Form>⟧ (EntryShows ⟦<Extension<'a> as Form>⟧) (list_ref.octets_of entries.now) shown
        → result ≡ entry_has_extensions shown }
{
    one_passes(entries.iter(alloc), &HasExtensions)
}

/// The test that an entry has extensions.
struct HasExtensions;

impl<'a> ShownTest<RevokedCertificate<'a>> for HasExtensions {
    ghost use Rattle.std.specs.Prelude.{List, Option, is_some};
    ghost use Rattle.der_pkix.specs.declared.certificate.extension.Extension.{Extension};
    ghost use Rattle.der_verify.specs.EqualEncodings.{same_extensions};
    ghost use Rattle.der_verify.specs.Rfc5280Lists.{EntryShows};

    ghost Shown = { Option (List Extension) };

    ghost shows = { λ p. EntryShows ⟦<Extension<'a> as Form>⟧ };

    ghost passes = { λ p x. is_some x };

    fn passes(&self, item: &RevokedCertificate<'a>) -> bool {
        item.crl_entry_extensions().is_some()
    }

    ghost respects = { λ p. same_extensions ⟦<Extension<'a> as Form>⟧ };
}

/// Returns whether an extension of an entry has this identifier and this criticality.
fn entry_has_criticality_of<'a>(
    alloc: Global,
    entries: &ListRef<'a, RevokedCertificate<'a>>,
    identifier: &[u8],
    critical: bool,
) -> bool
    ensures { (shown : List (Option (List Extension)))
        → AreShown ⟦<RevokedCertificate<'a> as Form>⟧ (EntryShows ⟦<Extension<'a> as Form>⟧) (list_ref.octets_of entries.now) shown
        → result ≡ entry_has_criticality identifier.now critical shown }
{
    let test = HasCriticalityWithin {
        alloc,
        identifier,
        critical,
    };
    one_passes(entries.iter(alloc), &test)
}

/// The test that an extension of an entry has this identifier and this criticality.
#[derive(Drop)]
struct HasCriticalityWithin<'b> {
    alloc: Global,
    identifier: &'b [u8],
    critical: bool,
}

impl<'a, 'b> ShownTest<RevokedCertificate<'a>> for HasCriticalityWithin<'b> {
    ghost use Rattle.std.specs.Prelude.{List, Option};
    ghost use Rattle.der_pkix.specs.declared.certificate.extension.Extension.{Extension};
    ghost use Rattle.der_verify.specs.EqualEncodings.{same_extensions};
    ghost use Rattle.der_verify.specs.Rfc5280Lists.{has_criticality_within, EntryShows};

    ghost Shown = { Option (List Extension) };

    ghost shows = { λ p. EntryShows ⟦<Extension<'a> as Form>⟧ };

    ghost passes = { λ p. has_criticality_within p.identifier.now p.critical };

    fn passes(&self, item: &RevokedCertificate<'a>) -> bool {
        match item.crl_entry_extensions() {
            Some(extensions) => {
                has_criticality_of(
                    self.alloc,
                    extensions.items(),
                    self.identifier,
                    self.critical,
                )
            }
            None => false,
        }
    }

    ghost respects = { λ p. same_extensions ⟦<Extension<'a> as Form>⟧ };
}

/// Returns whether an entry repeats an extension.
fn one_repeats_extension<'a>(alloc: Global, entries: &ListRef<'a, RevokedCertificate<'a>>) -> bool
    ensures { (shown : List (Option (List Extension)))
        → AreShown ⟦<RevokedCertificate<'a> as Form>⟧ (EntryShows ⟦<Extension<'a> as Form>⟧) (list_ref.octets_of entries.now) shown
        → result ≡ list_any has_repeated_within shown }
{
    one_passes(entries.iter(alloc), &RepeatsExtension { alloc })
}

/// The test that an entry repeats an extension.
#[derive(Drop)]
struct RepeatsExtension {
    alloc: Global,
}

impl<'a> ShownTest<RevokedCertificate<'a>> for RepeatsExtension {
    ghost use Rattle.std.specs.Prelude.{List, Option};
    ghost use Rattle.der_pkix.specs.declared.certificate.extension.Extension.{Extension};
    ghost use Rattle.der_verify.specs.EqualEncodings.{same_extensions};
    ghost use Rattle.der_verify.specs.Rfc5280Lists.{has_repeated_within, EntryShows};

    ghost Shown = { Option (List Extension) };

    ghost shows = { λ p. EntryShows ⟦<Extension<'a> as Form>⟧ };

    ghost passes = { λ p. has_repeated_within };

    fn passes(&self, item: &RevokedCertificate<'a>) -> bool {
        match item.crl_entry_extensions() {
            Some(extensions) => has_repeated_one(self.alloc, extensions.items()),
            None => false,
        }
    }

    ghost respects = { λ p. same_extensions ⟦<Extension<'a> as Form>⟧ };
}

/// Returns whether an entry of a list has the reason removeFromCRL.
fn removes_one<'a>(alloc: Global, list: &TbsCertList<'a>) -> bool
    ensures { (entries : List (Option (List Extension)))
        → AreEntries ⟦<RevokedCertificate<'a> as Form>⟧ ⟦<Extension<'a> as Form>⟧ (tbs_fields.revoked_certificates list.now) entries
        → result ≡ list_any is_removed_within entries }
{
    match list.revoked_certificates() {
        Some(entries) => one_is_removed(alloc, entries),
        None => false,
    }
}

/// Returns whether one of these entries has the reason removeFromCRL.
fn one_is_removed<'a>(alloc: Global, entries: &ListRef<'a, RevokedCertificate<'a>>) -> bool
    ensures { (shown : List (Option (List Extension)))
        → AreShown ⟦<RevokedCertificate<'a> as Form>⟧ (EntryShows ⟦<Extension<'a> as Form>⟧) (list_ref.octets_of entries.now) shown
        → result ≡ list_any is_removed_within shown }
{
    one_passes(entries.iter(alloc), &IsRemoved { alloc })
}

/// The test that the reason of an entry is removeFromCRL.
#[derive(Drop)]
struct IsRemoved {
    alloc: Global,
}

impl<'a> ShownTest<RevokedCertificate<'a>> for IsRemoved {
    ghost use Rattle.std.specs.Prelude.{List, Option};
    ghost use Rattle.der_pkix.specs.declared.certificate.extension.Extension.{Extension};
    ghost use Rattle.der_verify.specs.EqualEncodings.{same_extensions};
    ghost use Rattle.der_verify.specs.Rfc5280Lists.{is_removed_within, EntryShows};

    ghost Shown = { Option (List Extension) };

    ghost shows = { λ p. EntryShows ⟦<Extension<'a> as Form>⟧ };

    ghost passes = { λ p. is_removed_within };

    fn passes(&self, item: &RevokedCertificate<'a>) -> bool {
        match item.crl_entry_extensions() {
            Some(extensions) => {
                is_removed(value_in(self.alloc, extensions.items(), &ID_CE_CRL_REASONS))
            }
            None => false,
        }
    }

    ghost respects = { λ p. same_extensions ⟦<Extension<'a> as Form>⟧ };
}
