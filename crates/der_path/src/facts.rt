//! What section 6.1 of RFC 5280 takes from a certificate, read into memory.

ghost use Rattle.std.specs.Prelude.{◌≡◌, false, IfOk, None, List, option_copied};
ghost use Rattle.std.specs.List.{list_any};
ghost use Rattle.der_pkix.specs.declared.certificate.extension.Extension.{Extension};
ghost use Rattle.der_pkix.specs.Certificate.Certificate as certificate_fields;
ghost use Rattle.der_pkix.specs.Certificate.TbsCertificate as tbs_fields;
ghost use Rattle.der_verify.specs.Extensions.{has_identifier, with_identifier};
ghost use Rattle.der_verify.specs.Rfc5280.{AreListed};
ghost use Rattle.der_path.specs.Extensions.{only, only_extension, Alike};
ghost use Rattle.der_path.specs.Facts.{excluded_in, explicit_in, has_unknown_critical, is_ca, is_processed, is_unknown_critical, key_cert_sign, mapping_in, path_length, permitted_in, KeepsNames, KeepsPolicies, Reads, ShowsEachMapping, ShowsEachName, ShowsEachPolicy, ShowsEachSubtree, ShowsFacts, ShowsNames, ShowsOne, ShowsParts, ShowsPolicies, ShowsUses};

use crate::keep::{Keeper, both, keep_items};
use crate::names::{Part, PathName, Subtree};
use crate::policy::{Mapping, Policy};
use crate::read_names::{KeepName, KeepSubtree, parts_of};
use der_elem::{Decode, Form, FromDer};
use der_extensions::extension::constants::{
    ID_CE_BASIC_CONSTRAINTS, ID_CE_CERTIFICATE_POLICIES, ID_CE_EXT_KEY_USAGE,
    ID_CE_INHIBIT_ANY_POLICY, ID_CE_KEY_USAGE, ID_CE_NAME_CONSTRAINTS, ID_CE_POLICY_CONSTRAINTS,
    ID_CE_POLICY_MAPPINGS, ID_CE_SUBJECT_ALT_NAME,
};
use der_extensions::extension::{
    BasicConstraints, CertificatePolicies, GeneralName, GeneralNames, GeneralSubtree,
    GeneralSubtrees, KEY_USAGE_KEY_CERT_SIGN, KeyUsage, NameConstraints, PolicyConstraints,
    PolicyInformation, PolicyMapping, PolicyMappings,
};
use der_numbers::UintRef;
use der_pkix::certificate::{Certificate, Extension, Extensions, TbsCertificate, Validity};
use der_pkix::name::Name;
use der_tlv::SliceReader;
use std::alloc::{AllocError, Global};

/// What section 6.1 takes from a certificate.
#[derive(Drop)]
pub struct Facts<'a> {
    /// The issuer.
    pub issuer: Vec<Part<'a>>,
    /// The subject.
    pub subject: Vec<Part<'a>>,
    /// The validity.
    pub validity: Validity,
    /// The version: 2 is version 3.
    pub version: u8,
    /// What the key may be used for.
    pub uses: Uses<'a>,
    /// Names, and constraints of names.
    pub names: NameFacts<'a>,
    /// Policies, and constraints of policies.
    pub policies: PolicyFacts<'a>,
    /// Whether an extension is critical that section 6.1 does not process.
    pub has_unknown_critical: bool,
}

/// What the key of a certificate may be used for.
#[derive(Clone, Copy)]
pub struct Uses<'a> {
    /// Whether basicConstraints is there with cA TRUE (4.2.1.9).
    pub is_ca: bool,
    /// pathLenConstraint.
    pub path_length: Option<UintRef<'a>>,
    /// Whether keyUsage has keyCertSign, if it is there (4.2.1.3).
    pub key_cert_sign: Option<bool>,
}

/// The names of a certificate beside its subject, and the names that it allows below it.
#[derive(Drop)]
pub struct NameFacts<'a> {
    /// subjectAltName (4.2.1.6).
    pub alternative_names: Option<Vec<PathName<'a>>>,
    /// permittedSubtrees of nameConstraints (4.2.1.10).
    pub permitted: Option<Vec<Subtree<'a>>>,
    /// excludedSubtrees.
    pub excluded: Option<Vec<Subtree<'a>>>,
}

/// The policies of a certificate, and what it says of policies below it.
#[derive(Drop)]
pub struct PolicyFacts<'a> {
    /// certificatePolicies (4.2.1.4).
    pub policies: Option<Vec<Policy<'a>>>,
    /// policyMappings (4.2.1.5).
    pub mappings: Option<Vec<Mapping<'a>>>,
    /// requireExplicitPolicy of policyConstraints (4.2.1.11).
    pub explicit_policy: Option<UintRef<'a>>,
    /// inhibitPolicyMapping.
    pub policy_mapping: Option<UintRef<'a>>,
    /// inhibitAnyPolicy (4.2.1.14).
    pub inhibit_any_policy: Option<UintRef<'a>>,
}

/// Why there are no facts of a certificate.
#[derive(Clone, Copy, Debug, PartialEq, Eq)]
pub enum NoFacts {
    /// Memory ran out.
    Memory,
    /// An extension that section 6.1 processes stands twice, or its value cannot be read.
    Unread,
}

/// Reads the facts of a certificate.
pub(crate) fn facts_of<'a>(
    alloc: Global,
    certificate: &Certificate<'a>,
) -> Result<Facts<'a>, NoFacts>
    ensures { (listed : List Extension) → AreListed ⟦<Extension<'a> as Form>⟧ (tbs_fields.extensions (certificate_fields.tbs_certificate certificate.now)) listed
        → Reads (ShowsFacts certificate.now listed) result }
{
    match extensions_of(alloc, certificate.tbs_certificate()) {
        Ok(extensions) => facts_with(alloc, certificate, &extensions),
        Err(_error) => Err(NoFacts::Memory),
    }
}

/// Reads the facts of a certificate with these extensions.
fn facts_with<'a>(
    alloc: Global,
    certificate: &Certificate<'a>,
    extensions: &[Extension<'a>],
) -> Result<Facts<'a>, NoFacts>
    ensures { (listed : List Extension) → Alike listed extensions.now → Reads (ShowsFacts certificate.now listed) result }
{
    let signed = certificate.tbs_certificate();
    let uses = uses_of(alloc, extensions)?;
    let constraints = both(
        name_facts_of(alloc, extensions),
        policy_facts_of(alloc, extensions),
    );
    let names = both(
        read_parts(alloc, signed.issuer()),
        read_parts(alloc, signed.subject()),
    );
    match both(constraints, names) {
        Ok(((names, policies), (issuer, subject))) => Ok(Facts {
            issuer,
            subject,
            validity: signed.validity(),
            version: signed.version(),
            uses,
            names,
            policies,
            has_unknown_critical: has_unknown_critical(extensions),
        }),
        Err(error) => Err(error),
    }
}

/// Reads the parts of a name.
pub(crate) fn read_parts<'a>(alloc: Global, name: &Name<'a>) -> Result<Vec<Part<'a>>, NoFacts>
    ensures { Reads (λ parts. ShowsParts name.now parts.items) result }
{
    match parts_of(alloc, name) {
        Ok(parts) => Ok(parts),
        Err(_error) => Err(NoFacts::Memory),
    }
}

/// Reads what the key of a certificate may be used for.
pub(crate) fn uses_in<'a>(
    alloc: Global,
    certificate: &TbsCertificate<'a>,
) -> Result<Uses<'a>, NoFacts>
    ensures { (listed : List Extension) → AreListed ⟦<Extension<'a> as Form>⟧ (tbs_fields.extensions certificate.now) listed
        → Reads (ShowsUses listed) result }
{
    match extensions_of(alloc, certificate) {
        Ok(extensions) => uses_of(alloc, &extensions),
        Err(_error) => Err(NoFacts::Memory),
    }
}

/// Reads what the key of a certificate with these extensions may be used for.
fn uses_of<'a>(alloc: Global, extensions: &[Extension<'a>]) -> Result<Uses<'a>, NoFacts>
    ensures { (listed : List Extension) → Alike listed extensions.now → Reads (ShowsUses listed) result }
{
    let constraints = value_of::<BasicConstraints<'a>>(
        alloc,
        extensions,
        &ID_CE_BASIC_CONSTRAINTS,
    )?;
    let usage = value_of::<KeyUsage<'a>>(alloc, extensions, &ID_CE_KEY_USAGE)?;
    Ok(Uses {
        is_ca: is_ca(constraints),
        path_length: path_length(constraints),
        key_cert_sign: key_cert_sign(usage),
    })
}

/// Returns whether basicConstraints is there with cA TRUE.
fn is_ca(constraints: Option<BasicConstraints<'_>>) -> bool
    ensures { result ≡ is_ca constraints.entry }
{
    match constraints {
        Some(constraints) => constraints.ca(),
        None => false,
    }
}

/// Returns pathLenConstraint, if it is there.
fn path_length<'a>(constraints: Option<BasicConstraints<'a>>) -> Option<UintRef<'a>>
    ensures { result ≡ path_length constraints.entry }
{
    match constraints {
        Some(constraints) => constraints.path_len_constraint().copied(),
        None => None,
    }
}

/// Returns whether keyUsage has keyCertSign, if it is there.
fn key_cert_sign(usage: Option<KeyUsage<'_>>) -> Option<bool>
    ensures { result ≡ key_cert_sign usage.entry }
{
    match usage {
        Some(usage) => Some(usage.has(KEY_USAGE_KEY_CERT_SIGN)),
        None => None,
    }
}

/// Reads the alternative names and the name constraints of a certificate.
fn name_facts_of<'a>(alloc: Global, extensions: &[Extension<'a>]) -> Result<NameFacts<'a>, NoFacts>
    ensures { (listed : List Extension) → Alike listed extensions.now → Reads (ShowsNames listed) result }
{
    let names = value_of::<GeneralNames<'a>>(alloc, extensions, &ID_CE_SUBJECT_ALT_NAME)?;
    let constraints = value_of::<NameConstraints<'a>>(alloc, extensions, &ID_CE_NAME_CONSTRAINTS)?;
    match kept_names(alloc, names, constraints) {
        Ok(facts) => Ok(facts),
        Err(_error) => Err(NoFacts::Memory),
    }
}

/// Reads names and subtrees.
fn kept_names<'a>(
    alloc: Global,
    names: Option<GeneralNames<'a>>,
    constraints: Option<NameConstraints<'a>>,
) -> Result<NameFacts<'a>, AllocError>
    ensures { IfOk result (KeepsNames names.entry constraints.entry) }
{
    let names = names_in(alloc, names);
    let permitted = permitted_in(alloc, &constraints);
    let excluded = excluded_in(alloc, &constraints);
    match both(names, both(permitted, excluded)) {
        Ok((alternative_names, (permitted, excluded))) => Ok(NameFacts {
            alternative_names,
            permitted,
            excluded,
        }),
        Err(error) => Err(error),
    }
}

/// Reads the initial constraints of names, as a certificate without alternative names would have
/// them.
pub(crate) fn initial_names<'a>(
    alloc: Global,
    constraints: &Option<NameConstraints<'a>>,
) -> Result<NameFacts<'a>, AllocError>
    ensures { IfOk result (KeepsNames None constraints.now) }
{
    match both(
        permitted_in(alloc, constraints),
        excluded_in(alloc, constraints),
    ) {
        Ok((permitted, excluded)) => Ok(NameFacts {
            alternative_names: None,
            permitted,
            excluded,
        }),
        Err(error) => Err(error),
    }
}

/// Reads permittedSubtrees, if they are there.
fn permitted_in<'a>(
    alloc: Global,
    constraints: &Option<NameConstraints<'a>>,
) -> Result<Option<Vec<Subtree<'a>>>, AllocError>
    ensures { IfOk result (ShowsEachSubtree (permitted_in constraints.now)) }
{
    match constraints {
        Some(constraints) => subtrees_in(alloc, constraints.permitted_subtrees()),
        None => Ok(None),
    }
}

/// Reads excludedSubtrees, if they are there.
fn excluded_in<'a>(
    alloc: Global,
    constraints: &Option<NameConstraints<'a>>,
) -> Result<Option<Vec<Subtree<'a>>>, AllocError>
    ensures { IfOk result (ShowsEachSubtree (excluded_in constraints.now)) }
{
    match constraints {
        Some(constraints) => subtrees_in(alloc, constraints.excluded_subtrees()),
        None => Ok(None),
    }
}

/// Reads names, if they are there.
pub(crate) fn names_in<'a>(
    alloc: Global,
    names: Option<GeneralNames<'a>>,
) -> Result<Option<Vec<PathName<'a>>>, AllocError>
    ensures { IfOk result (ShowsEachName names.entry) }
{
    match names {
        Some(names) => Ok(Some(keep_items::<GeneralName<'a>, KeepName>(
            alloc,
            names.items().as_bytes(),
        )?)),
        None => Ok(None),
    }
}

/// Reads subtrees, if they are there.
fn subtrees_in<'a>(
    alloc: Global,
    subtrees: Option<&GeneralSubtrees<'a>>,
) -> Result<Option<Vec<Subtree<'a>>>, AllocError>
    ensures { IfOk result (ShowsEachSubtree (option_copied subtrees.entry)) }
{
    match subtrees {
        Some(subtrees) => Ok(Some(keep_items::<GeneralSubtree<'a>, KeepSubtree>(
            alloc,
            subtrees.items().as_bytes(),
        )?)),
        None => Ok(None),
    }
}

/// Reads the policies of a certificate, and the constraints of policies.
fn policy_facts_of<'a>(
    alloc: Global,
    extensions: &[Extension<'a>],
) -> Result<PolicyFacts<'a>, NoFacts>
    ensures { (listed : List Extension) → Alike listed extensions.now → Reads (ShowsPolicies listed) result }
{
    let policies = value_of::<CertificatePolicies<'a>>(
        alloc,
        extensions,
        &ID_CE_CERTIFICATE_POLICIES,
    )?;
    let mappings = value_of::<PolicyMappings<'a>>(alloc, extensions, &ID_CE_POLICY_MAPPINGS)?;
    let constraints = value_of::<PolicyConstraints<'a>>(
        alloc,
        extensions,
        &ID_CE_POLICY_CONSTRAINTS,
    )?;
    let inhibit_any_policy = value_of::<UintRef<'a>>(alloc, extensions, &ID_CE_INHIBIT_ANY_POLICY)?;
    match kept_policies(alloc, policies, mappings, constraints, inhibit_any_policy) {
        Ok(facts) => Ok(facts),
        Err(_error) => Err(NoFacts::Memory),
    }
}

/// Reads policies and mappings.
fn kept_policies<'a>(
    alloc: Global,
    policies: Option<CertificatePolicies<'a>>,
    mappings: Option<PolicyMappings<'a>>,
    constraints: Option<PolicyConstraints<'a>>,
    inhibit_any_policy: Option<UintRef<'a>>,
) -> Result<PolicyFacts<'a>, AllocError>
    ensures { IfOk result (KeepsPolicies policies.entry mappings.entry constraints.entry inhibit_any_policy.entry) }
{
    let policies = policies_in(alloc, policies)?;
    let mappings = mappings_in(alloc, mappings)?;
    Ok(PolicyFacts {
        policies,
        mappings,
        explicit_policy: explicit_policy(constraints),
        policy_mapping: policy_mapping(constraints),
        inhibit_any_policy,
    })
}

/// Returns requireExplicitPolicy, if it is there.
fn explicit_policy<'a>(constraints: Option<PolicyConstraints<'a>>) -> Option<UintRef<'a>>
    ensures { result ≡ explicit_in constraints.entry }
{
    match constraints {
        Some(constraints) => constraints.require_explicit_policy().copied(),
        None => None,
    }
}

/// Returns inhibitPolicyMapping, if it is there.
fn policy_mapping<'a>(constraints: Option<PolicyConstraints<'a>>) -> Option<UintRef<'a>>
    ensures { result ≡ mapping_in constraints.entry }
{
    match constraints {
        Some(constraints) => constraints.inhibit_policy_mapping().copied(),
        None => None,
    }
}

/// Reads policies, if they are there.
fn policies_in<'a>(
    alloc: Global,
    policies: Option<CertificatePolicies<'a>>,
) -> Result<Option<Vec<Policy<'a>>>, AllocError>
    ensures { IfOk result (ShowsEachPolicy policies.entry) }
{
    match policies {
        Some(policies) => Ok(Some(keep_items::<PolicyInformation<'a>, KeepPolicy>(
            alloc,
            policies.items().as_bytes(),
        )?)),
        None => Ok(None),
    }
}

/// Reads mappings, if they are there.
fn mappings_in<'a>(
    alloc: Global,
    mappings: Option<PolicyMappings<'a>>,
) -> Result<Option<Vec<Mapping<'a>>>, AllocError>
    ensures { IfOk result (ShowsEachMapping mappings.entry) }
{
    match mappings {
        Some(mappings) => Ok(Some(keep_items::<PolicyMapping<'a>, KeepMapping>(
            alloc,
            mappings.items().as_bytes(),
        )?)),
        None => Ok(None),
    }
}

/// Keeps the identifier of a policy.
struct KeepPolicy;

impl<'a> Keeper<PolicyInformation<'a>> for KeepPolicy {
    ghost use Rattle.der_path.specs.Facts.{ShowsPolicy};

    type Kept = Policy<'a>;

    ghost shows = { ShowsPolicy };

    fn keep(_alloc: Global, item: &PolicyInformation<'a>) -> Result<Policy<'a>, AllocError> {
        Ok(Policy {
            octets: item.policy_identifier().as_bytes(),
        })
    }
}

/// Keeps the two policies of a mapping.
struct KeepMapping;

impl<'a> Keeper<PolicyMapping<'a>> for KeepMapping {
    ghost use Rattle.der_path.specs.Facts.{ShowsMapping};

    type Kept = Mapping<'a>;

    ghost shows = { ShowsMapping };

    fn keep(_alloc: Global, item: &PolicyMapping<'a>) -> Result<Mapping<'a>, AllocError> {
        Ok(Mapping {
            issuer: Policy {
                octets: item.issuer_domain_policy().as_bytes(),
            },
            subject: Policy {
                octets: item.subject_domain_policy().as_bytes(),
            },
        })
    }
}

/// Reads the extensions of a certificate.
fn extensions_of<'a>(
    alloc: Global,
    certificate: &TbsCertificate<'a>,
) -> Result<Vec<Extension<'a>>, AllocError>
    ensures { (listed : List Extension) → AreListed ⟦<Extension<'a> as Form>⟧ (tbs_fields.extensions certificate.now) listed
        → IfOk result (λ kept. Alike listed kept.items) }
{
    extensions_in(alloc, certificate.extensions())
}

/// Reads extensions, if they are there.
pub(crate) fn extensions_in<'a>(
    alloc: Global,
    extensions: Option<&Extensions<'a>>,
) -> Result<Vec<Extension<'a>>, AllocError>
    ensures { (listed : List Extension) → AreListed ⟦<Extension<'a> as Form>⟧ (option_copied extensions.entry) listed
        → IfOk result (λ kept. Alike listed kept.items) }
{
    match extensions {
        Some(extensions) => keep_items::<Extension<'a>, KeepExtension>(
            alloc,
            extensions.items().as_bytes(),
        ),
        None => Ok(Vec::new(alloc)),
    }
}

/// Keeps an extension.
struct KeepExtension;

impl<'a> Keeper<Extension<'a>> for KeepExtension {
    ghost use Rattle.std.specs.Prelude.{◌≡◌};

    type Kept = Extension<'a>;

    ghost shows = { λ v x. x ≡ v };

    fn keep(_alloc: Global, item: &Extension<'a>) -> Result<Extension<'a>, AllocError> {
        Ok(*item)
    }
}

/// Reads the value of the extension with this identifier, if there is one.
pub(crate) fn value_of<'a, T: Decode<'a, SliceReader<'a>>>(
    alloc: Global,
    extensions: &[Extension<'a>],
    identifier: &[u8],
) -> Result<Option<T>, NoFacts>
    ensures { T.Form.TAKES_MEMORY ≡ false → (listed : List Extension) → Alike listed extensions.now
        → Reads (ShowsOne T.Form (with_identifier identifier.now listed)) result }
{
    let Ok(found) = only_extension(extensions, identifier) else {
        return Err(NoFacts::Unread);
    };
    let Some(extension) = found else {
        return Ok(None);
    };
    match T::from_der(alloc, extension.extn_value().as_bytes()) {
        Ok(value) => Ok(Some(value)),
        Err(_error) => Err(NoFacts::Unread),
    }
}

/// Returns the extension with this identifier, if there is one.
///
/// # Errors
/// If two or more have it.
fn only_extension<'a>(
    extensions: &[Extension<'a>],
    identifier: &[u8],
) -> Result<Option<Extension<'a>>, NoFacts>
    ensures { result ≡ only_extension identifier.now extensions.now }
{
    let mut left = extensions;
    'each: while let [extension, others @ ..] = left {
        if has_identifier(extension, identifier) {
            return only(*extension, one_has_identifier(others, identifier));
        }
        left = others;
    }
    Ok(None)
}

/// Returns an extension, unless its identifier is repeated.
fn only<'a>(extension: Extension<'a>, is_repeated: bool) -> Result<Option<Extension<'a>>, NoFacts>
    ensures { result ≡ only extension.entry is_repeated }
{
    if is_repeated {
        Err(NoFacts::Unread)
    } else {
        Ok(Some(extension))
    }
}

/// Returns whether an extension of a list has this identifier.
fn one_has_identifier(extensions: &[Extension<'_>], identifier: &[u8]) -> bool
    ensures { result ≡ list_any (has_identifier identifier.now) extensions.now }
{
    extensions
        .iter()
        .any(|extension| has_identifier(extension, identifier))
}

/// Returns whether an extension has this identifier.
fn has_identifier(extension: &Extension<'_>, identifier: &[u8]) -> bool
    ensures { result ≡ has_identifier identifier.now extension.now }
{
    extension.extn_id().as_bytes() == identifier
}

/// Returns whether a certificate has an extension that is critical, and that section 6.1 does not
/// process.
pub(crate) fn has_unknown_critical_in<'a>(
    alloc: Global,
    certificate: &TbsCertificate<'a>,
) -> Result<bool, AllocError>
    ensures { (listed : List Extension) → AreListed ⟦<Extension<'a> as Form>⟧ (tbs_fields.extensions certificate.now) listed
        → IfOk result (λ unknown. unknown ≡ has_unknown_critical listed) }
{
    match extensions_of(alloc, certificate) {
        Ok(extensions) => Ok(has_unknown_critical(&extensions)),
        Err(error) => Err(error),
    }
}

/// Returns whether an extension is critical that section 6.1 does not process.
fn has_unknown_critical(extensions: &[Extension<'_>]) -> bool
    ensures { (listed : List Extension) → Alike listed extensions.now → result ≡ has_unknown_critical listed }
{
    one_is_unknown_critical(extensions)
}

/// Returns whether one of these extensions is critical, and not one that section 6.1 processes.
fn one_is_unknown_critical(extensions: &[Extension<'_>]) -> bool
    ensures { result ≡ has_unknown_critical extensions.now }
{
    extensions
        .iter()
        .any(|extension| is_unknown_critical(extension))
}

/// Returns whether an extension is critical, and not one that section 6.1 processes.
fn is_unknown_critical(extension: &Extension<'_>) -> bool
    ensures { result ≡ is_unknown_critical extension.now }
{
    extension.critical() && !is_processed(extension.extn_id().as_bytes())
}

/// Returns whether section 6.1 processes an extension: one that section 4.2 requires to be
/// recognized, or policyMappings.
fn is_processed(identifier: &[u8]) -> bool
    ensures { result ≡ is_processed identifier.now }
{
    identifier == ID_CE_KEY_USAGE.as_slice()
        || identifier == ID_CE_SUBJECT_ALT_NAME.as_slice()
        || identifier == ID_CE_BASIC_CONSTRAINTS.as_slice()
        || identifier == ID_CE_NAME_CONSTRAINTS.as_slice()
        || identifier == ID_CE_CERTIFICATE_POLICIES.as_slice()
        || identifier == ID_CE_POLICY_MAPPINGS.as_slice()
        || identifier == ID_CE_POLICY_CONSTRAINTS.as_slice()
        || identifier == ID_CE_EXT_KEY_USAGE.as_slice()
        || identifier == ID_CE_INHIBIT_ANY_POLICY.as_slice()
}
