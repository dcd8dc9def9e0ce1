//! What section 6.3.3 of RFC 5280 takes from a certificate and from a list of revoked
//! certificates, read into memory.

ghost use Rattle.std.specs.Prelude.{◌≡◌, IfOk, List, option_copied};
ghost use Rattle.der_pkix.specs.declared.certificate.extension.Extension.{Extension};
ghost use Rattle.der_pkix.specs.Certificate.TbsCertificate as tbs_fields;
ghost use Rattle.der_pkix.specs.Crl.RevokedCertificate as entry_fields;
ghost use Rattle.der_pkix.specs.Crl.TbsCertList as list_fields;
ghost use Rattle.der_verify.specs.Rfc5280.{AreListed};
ghost use Rattle.der_path.specs.Facts.{Reads};
ghost use Rattle.der_path.specs.RevocationFacts.{has_unknown_in_entry, has_unknown_in_list, is_processed_in_entry, is_processed_in_list, reason_in, KeepsList, ShowsEachEntry, ShowsEntryFacts, ShowsList, ShowsPoint, ShowsPointName, ShowsScope, ShowsTarget};

use crate::extension_values::value_in;
use crate::facts::{NoFacts, names_in, read_parts, uses_in};
use crate::keep::{Keeper, keep_items};
use crate::names::{Part, PathName};
use crate::read_names::{KeepName, KeepPart, parts_of};
use der_elem::Form;
use der_extensions::extension::constants::{
    ID_CE_AUTHORITY_KEY_IDENTIFIER, ID_CE_CERTIFICATE_ISSUER, ID_CE_CRL_NUMBER, ID_CE_CRL_REASONS,
    ID_CE_DELTA_CRL_INDICATOR, ID_CE_INVALIDITY_DATE, ID_CE_ISSUING_DISTRIBUTION_POINT,
};
use der_extensions::extension::{
    CrlReason, DistributionPointName, GeneralName, GeneralNames, IssuingDistributionPoint,
    ReasonFlags,
};
use der_lists::{ItemTest, ListRef};
use der_numbers::{Enumerated, UintRef};
use der_pkix::certificate::{Extension, Extensions, TbsCertificate, Time};
use der_pkix::crl::{RevokedCertificate, TbsCertList};
use std::alloc::{AllocError, Global};

/// What section 6.3.3 takes from a certificate.
#[derive(Drop)]
pub struct Target<'a> {
    /// The issuer.
    pub issuer: Vec<Part<'a>>,
    /// The contents octets of the serial number.
    pub serial: &'a [u8],
    /// Whether basicConstraints is there with cA TRUE (4.2.1.9).
    pub is_ca: bool,
}

/// What section 6.3.3 takes from a list.
#[derive(Drop)]
pub struct ListFacts<'a> {
    /// The issuer.
    pub issuer: Vec<Part<'a>>,
    /// thisUpdate.
    pub this_update: Time,
    /// nextUpdate.
    pub next_update: Option<Time>,
    /// cRLNumber (5.2.3).
    pub number: Option<UintRef<'a>>,
    /// BaseCRLNumber of deltaCRLIndicator (5.2.4).
    pub base: Option<UintRef<'a>>,
    /// issuingDistributionPoint (5.2.5).
    pub scope: Scope<'a>,
    /// revokedCertificates.
    pub entries: Vec<Entry<'a>>,
    /// Whether an extension of the list is critical that section 6.3.3 does not process.
    pub has_unknown_critical: bool,
}

/// The scope of a list (5.2.5): without an issuingDistributionPoint it is all certificates.
#[derive(Drop)]
pub struct Scope<'a> {
    /// distributionPoint.
    pub name: Option<PointName<'a>>,
    /// onlyContainsUserCerts.
    pub has_user_alone: bool,
    /// onlyContainsCACerts.
    pub has_ca_alone: bool,
    /// onlySomeReasons.
    pub reasons: Option<ReasonFlags<'a>>,
    /// indirectCRL.
    pub is_indirect: bool,
    /// onlyContainsAttributeCerts.
    pub has_attribute_alone: bool,
}

/// A DistributionPointName, in memory.
#[derive(Drop)]
pub enum PointName<'a> {
    /// fullName.
    Full(Vec<PathName<'a>>),
    /// nameRelativeToCRLIssuer.
    Relative(Part<'a>),
}

/// An entry of a list.
#[derive(Drop)]
pub enum Entry<'a> {
    /// The entry was read.
    Read(EntryFacts<'a>),
    /// An extension that section 6.3.3 processes stands twice, or its value cannot be read.
    Unread,
}

/// What section 6.3.3 takes from an entry of a list.
#[derive(Drop)]
pub struct EntryFacts<'a> {
    /// The contents octets of the serial number.
    pub serial: &'a [u8],
    /// revocationDate.
    pub date: Time,
    /// reasonCode (5.3.1).
    pub reason: Option<CrlReason>,
    /// certificateIssuer (5.3.3).
    pub issuers: Option<Vec<PathName<'a>>>,
    /// Whether an extension of the entry is critical that section 6.3.3 does not process.
    pub has_unknown_critical: bool,
}

/// Reads what section 6.3.3 takes from a certificate.
pub(crate) fn target_of<'a>(
    alloc: Global,
    certificate: &TbsCertificate<'a>,
) -> Result<Target<'a>, NoFacts>
    ensures { (listed : List Extension) → AreListed ⟦<Extension<'a> as Form>⟧ (tbs_fields.extensions certificate.now) listed
        → Reads (ShowsTarget certificate.now listed) result }
{
    let uses = uses_in(alloc, certificate)?;
    let issuer = read_parts(alloc, certificate.issuer())?;
    Ok(Target {
        issuer,
        serial: certificate.serial_number().as_bytes(),
        is_ca: uses.is_ca,
    })
}

/// Reads what section 6.3.3 takes from a list.
pub(crate) fn list_facts_of<'a>(
    alloc: Global,
    list: &TbsCertList<'a>,
) -> Result<ListFacts<'a>, NoFacts>
    ensures { (listed : List Extension) → AreListed ⟦<Extension<'a> as Form>⟧ (list_fields.crl_extensions list.now) listed
        → Reads (ShowsList list.now listed) result }
{
    let number = value_in::<UintRef<'a>>(alloc, list.crl_extensions(), &ID_CE_CRL_NUMBER)?;
    let base = value_in::<UintRef<'a>>(alloc, list.crl_extensions(), &ID_CE_DELTA_CRL_INDICATOR)?;
    let point = value_in::<IssuingDistributionPoint<'a>>(
        alloc,
        list.crl_extensions(),
        &ID_CE_ISSUING_DISTRIBUTION_POINT,
    )?;
    let has_unknown_critical = has_unknown_in_list(alloc, list.crl_extensions());
    match kept_list(alloc, list, number, base, point, has_unknown_critical) {
        Ok(facts) => Ok(facts),
        Err(_error) => Err(NoFacts::Memory),
    }
}

/// Reads the issuer, the scope and the entries of a list.
fn kept_list<'a>(
    alloc: Global,
    list: &TbsCertList<'a>,
    number: Option<UintRef<'a>>,
    base: Option<UintRef<'a>>,
    point: Option<IssuingDistributionPoint<'a>>,
    has_unknown_critical: bool,
) -> Result<ListFacts<'a>, AllocError>
    ensures { IfOk result (KeepsList list.now number.entry base.entry point.entry has_unknown_critical) }
{
    let issuer = parts_of(alloc, list.issuer())?;
    let scope = scope_of(alloc, point)?;
    let entries = entries_in(alloc, list.revoked_certificates())?;
    Ok(ListFacts {
        issuer,
        this_update: list.this_update(),
        next_update: list.next_update(),
        number,
        base,
        scope,
        entries,
        has_unknown_critical,
    })
}

/// Reads the scope of a list.
fn scope_of<'a>(
    alloc: Global,
    point: Option<IssuingDistributionPoint<'a>>,
) -> Result<Scope<'a>, AllocError>
    ensures { IfOk result (ShowsScope point.entry) }
{
    let Some(point) = point else {
        return Ok(Scope {
            name: None,
            has_user_alone: false,
            has_ca_alone: false,
            reasons: None,
            is_indirect: false,
            has_attribute_alone: false,
        });
    };
    let name = point_name_in(alloc, point.distribution_point())?;
    Ok(Scope {
        name,
        has_user_alone: point.only_contains_user_certs(),
        has_ca_alone: point.only_contains_ca_certs(),
        reasons: point.only_some_reasons().copied(),
        is_indirect: point.indirect_crl(),
        has_attribute_alone: point.only_contains_attribute_certs(),
    })
}

/// Reads the name of a distribution point, if it is there.
pub(crate) fn point_name_in<'a>(
    alloc: Global,
    name: Option<&DistributionPointName<'a>>,
) -> Result<Option<PointName<'a>>, AllocError>
    ensures { IfOk result (ShowsPointName (option_copied name.entry)) }
{
    match name {
        Some(name) => Ok(Some(point_name_of(alloc, name)?)),
        None => Ok(None),
    }
}

/// Reads the name of a distribution point.
fn point_name_of<'a>(
    alloc: Global,
    name: &DistributionPointName<'a>,
) -> Result<PointName<'a>, AllocError>
    ensures { IfOk result (ShowsPoint name.now) }
{
    match name {
        DistributionPointName::FullName(names) => Ok(PointName::Full(keep_items::<
            GeneralName<'a>,
            KeepName,
        >(alloc, names.value.items().as_bytes())?)),
        DistributionPointName::NameRelativeToCrlIssuer(part) => Ok(PointName::Relative(
            KeepPart::keep(alloc, &part.value)?,
        )),
    }
}

/// Reads the entries of a list, if there are any.
fn entries_in<'a>(
    alloc: Global,
    entries: Option<&ListRef<'a, RevokedCertificate<'a>>>,
) -> Result<Vec<Entry<'a>>, AllocError>
    ensures { IfOk result (λ kept. ShowsEachEntry (option_copied entries.entry) kept.items) }
{
    match entries {
        Some(entries) => keep_items::<RevokedCertificate<'a>, KeepEntry>(alloc, entries.as_bytes()),
        None => Ok(Vec::new(alloc)),
    }
}

/// Keeps an entry of a list.
struct KeepEntry;

impl<'a> Keeper<RevokedCertificate<'a>> for KeepEntry {
    ghost use Rattle.der_path.specs.RevocationFacts.{ShowsEntry};

    type Kept = Entry<'a>;

    ghost shows = { ShowsEntry };

    fn keep(alloc: Global, item: &RevokedCertificate<'a>) -> Result<Entry<'a>, AllocError> {
        match entry_facts_of(alloc, item) {
            Ok(facts) => Ok(Entry::Read(facts)),
            Err(NoFacts::Unread) => Ok(Entry::Unread),
            Err(NoFacts::Memory) => Err(AllocError),
        }
    }
}

/// Reads what section 6.3.3 takes from an entry.
fn entry_facts_of<'a>(
    alloc: Global,
    entry: &RevokedCertificate<'a>,
) -> Result<EntryFacts<'a>, NoFacts>
    ensures { (listed : List Extension) → AreListed ⟦<Extension<'a> as Form>⟧ (entry_fields.crl_entry_extensions entry.now) listed
        → Reads (ShowsEntryFacts entry.now listed) result }
{
    let reason = value_in::<Enumerated<CrlReason>>(
        alloc,
        entry.crl_entry_extensions(),
        &ID_CE_CRL_REASONS,
    )?;
    let issuers = value_in::<GeneralNames<'a>>(
        alloc,
        entry.crl_entry_extensions(),
        &ID_CE_CERTIFICATE_ISSUER,
    )?;
    let has_unknown_critical = has_unknown_in_entry(alloc, entry.crl_entry_extensions());
    match names_in(alloc, issuers) {
        Ok(issuers) => Ok(EntryFacts {
            serial: entry.user_certificate().as_bytes(),
            date: entry.revocation_date(),
            reason: reason_in(reason),
            issuers,
            has_unknown_critical,
        }),
        Err(_error) => Err(NoFacts::Memory),
    }
}

/// Returns the reason of an entry, if it is there.
fn reason_in(reason: Option<Enumerated<CrlReason>>) -> Option<CrlReason>
    ensures { result ≡ reason_in reason }
{
    match reason {
        Some(reason) => Some(reason.value),
        None => None,
    }
}

/// Returns whether an extension of a list is critical that section 6.3.3 does not process.
fn has_unknown_in_list<'a>(alloc: Global, extensions: Option<&Extensions<'a>>) -> bool
    ensures { (listed : List Extension) → AreListed ⟦<Extension<'a> as Form>⟧ (option_copied extensions.entry) listed
        → result ≡ has_unknown_in_list listed }
{
    match extensions {
        Some(extensions) => extensions.items().any(alloc, &IsUnknownInList),
        None => false,
    }
}

/// Returns whether an extension of an entry is critical that section 6.3.3 does not process.
fn has_unknown_in_entry<'a>(alloc: Global, extensions: Option<&Extensions<'a>>) -> bool
    ensures { (listed : List Extension) → AreListed ⟦<Extension<'a> as Form>⟧ (option_copied extensions.entry) listed
        → result ≡ has_unknown_in_entry listed }
{
    match extensions {
        Some(extensions) => extensions.items().any(alloc, &IsUnknownInEntry),
        None => false,
    }
}

/// The test that an extension of a list is critical, and not one that section 6.3.3 processes.
struct IsUnknownInList;

impl<'a> ItemTest<Extension<'a>> for IsUnknownInList {
    ghost use Rattle.der_path.specs.RevocationFacts.{is_unknown_in_list};
    ghost use Rattle.der_path.specs.RevocationFactsLaws.{alike_in_list};

    ghost passes = { λ p. is_unknown_in_list };

    fn passes(&self, item: &Extension<'a>) -> bool {
        item.critical() && !is_processed_in_list(item.extn_id().as_bytes())
    }

    ghost respects = { λ p. alike_in_list };
}

/// The test that an extension of an entry is critical, and not one that section 6.3.3 processes.
struct IsUnknownInEntry;

impl<'a> ItemTest<Extension<'a>> for IsUnknownInEntry {
    ghost use Rattle.der_path.specs.RevocationFacts.{is_unknown_in_entry};
    ghost use Rattle.der_path.specs.RevocationFactsLaws.{alike_in_entry};

    ghost passes = { λ p. is_unknown_in_entry };

    fn passes(&self, item: &Extension<'a>) -> bool {
        item.critical() && !is_processed_in_entry(item.extn_id().as_bytes())
    }

    ghost respects = { λ p. alike_in_entry };
}

/// Returns whether section 6.3.3 processes an extension of a list, or it tells keys apart:
/// cRLNumber, deltaCRLIndicator, issuingDistributionPoint and authorityKeyIdentifier.
fn is_processed_in_list(identifier: &[u8]) -> bool
    ensures { result ≡ is_processed_in_list identifier.now }
{
    identifier == ID_CE_CRL_NUMBER.as_slice()
        || identifier == ID_CE_DELTA_CRL_INDICATOR.as_slice()
        || identifier == ID_CE_ISSUING_DISTRIBUTION_POINT.as_slice()
        || identifier == ID_CE_AUTHORITY_KEY_IDENTIFIER.as_slice()
}

/// Returns whether section 6.3.3 processes an extension of an entry, or it changes no status:
/// reasonCode, certificateIssuer and invalidityDate.
fn is_processed_in_entry(identifier: &[u8]) -> bool
    ensures { result ≡ is_processed_in_entry identifier.now }
{
    identifier == ID_CE_CRL_REASONS.as_slice()
        || identifier == ID_CE_CERTIFICATE_ISSUER.as_slice()
        || identifier == ID_CE_INVALIDITY_DATE.as_slice()
}
