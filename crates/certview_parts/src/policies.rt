//! The values of the extensions certificatePolicies and policyMappings as text (RFC 5280 sections
//! 4.2.1.4 and 4.2.1.5).

use crate::characters::Behind;
use crate::identifiers::push_identifier_part;
use crate::names::push_value;
use crate::page::Inner;
use crate::part_name::PartName;
use crate::printer::Printer;
use der_asn1_types::asn1::AnyRef;
use der_asn1_types::{Encode, ErrorKind, FromDer, Tag};
use der_extensions::extension::{
    CertificatePolicies, PolicyInformation, PolicyMapping, PolicyMappings, PolicyQualifierInfo,
};
use der_lists::ListRef;
use std::alloc::AllocError;

/// Adds the policies, each with its qualifiers.
pub fn push_policies(printer: &mut Printer<'_>, inner: Inner<'_>) -> Result<(), AllocError> {
    let policies = match CertificatePolicies::from_der(printer.alloc, inner.octets) {
        Ok(policies) => policies,
        Err(error) => return printer.push_malformed_value(inner, error),
    };
    printer.page.open_list(PartName::Policies)?;
    for item in policies.items().iter(printer.alloc) {
        let Ok(policy) = item else {
            // The item was decoded before, so only memory can run out.
            return Err(AllocError);
        };
        push_policy(printer, &policy)?;
    }
    printer.page.close_list()
}

fn push_policy(
    printer: &mut Printer<'_>,
    policy: &PolicyInformation<'_>,
) -> Result<(), AllocError> {
    printer.push_str(", ")?;
    printer.page.open(PartName::Item)?;
    let identifier = policy.policy_identifier();
    push_identifier_part(printer, PartName::PolicyIdentifier, identifier.as_bytes())?;
    if let Some(qualifiers) = policy.policy_qualifiers() {
        push_qualifiers(printer, qualifiers.list())?;
    }
    printer.page.close()
}

fn push_qualifiers<'a>(
    printer: &mut Printer<'_>,
    qualifiers: &ListRef<'a, PolicyQualifierInfo<'a>>,
) -> Result<(), AllocError> {
    printer.page.open_list(PartName::PolicyQualifiers)?;
    for item in qualifiers.iter(printer.alloc) {
        let Ok(qualifier) = item else {
            // The item was decoded before, so only memory can run out.
            return Err(AllocError);
        };
        push_qualifier_info(printer, &qualifier)?;
    }
    printer.page.close_list()
}

/// Adds the identifier of a qualifier, and its characters or its encoding.
fn push_qualifier_info(
    printer: &mut Printer<'_>,
    qualifier: &PolicyQualifierInfo<'_>,
) -> Result<(), AllocError> {
    printer.push_str(" with ")?;
    printer.page.open(PartName::Item)?;
    let identifier = qualifier.policy_qualifier_id();
    push_identifier_part(printer, PartName::PolicyQualifierId, identifier.as_bytes())?;
    printer.push(' ')?;
    printer.page.open_list(PartName::Qualifier)?;
    push_qualifier(printer, qualifier.qualifier())?;
    printer.page.close_list()?;
    printer.page.close()
}

/// Adds a qualifier: its characters, or the characters of its parts if it is a user notice, which
/// is a SEQUENCE.
fn push_qualifier(printer: &mut Printer<'_>, qualifier: &AnyRef<'_>) -> Result<(), AllocError> {
    if qualifier.header().tag != Tag::Sequence {
        return push_text(printer, qualifier);
    }
    let Ok(octets) = qualifier.to_der(printer.alloc) else {
        return Err(AllocError);
    };
    match Vec::<AnyRef<'_>>::from_der(printer.alloc, octets.as_slice()) {
        Ok(parts) => push_parts(printer, parts.as_slice()),
        Err(error) if error.kind() == ErrorKind::Memory => Err(AllocError),
        Err(_) => push_text(printer, qualifier),
    }
}

/// Adds the parts of a notice, with `and` between two: a text as its characters, others as they
/// are encoded.
fn push_parts(printer: &mut Printer<'_>, parts: &[AnyRef<'_>]) -> Result<(), AllocError> {
    let mut is_first = true;
    for part in parts {
        if !is_first {
            printer.push_str(" and ")?;
        }
        is_first = false;
        push_text(printer, part)?;
    }
    Ok(())
}

/// Adds the characters or the encoding of a value, and a part that is an item of a list.
fn push_text(printer: &mut Printer<'_>, value: &AnyRef<'_>) -> Result<(), AllocError> {
    let begin = printer.page.text.len();
    push_value(printer, value, Behind::Word)?;
    printer.page.mark(PartName::Item, begin)
}

/// Adds the policies of the issuer and the policies of the subject that they are equivalent to.
pub fn push_mappings(printer: &mut Printer<'_>, inner: Inner<'_>) -> Result<(), AllocError> {
    let mappings = match PolicyMappings::from_der(printer.alloc, inner.octets) {
        Ok(mappings) => mappings,
        Err(error) => return printer.push_malformed_value(inner, error),
    };
    printer.page.open_list(PartName::Mappings)?;
    for item in mappings.items().iter(printer.alloc) {
        let Ok(mapping) = item else {
            // The item was decoded before, so only memory can run out.
            return Err(AllocError);
        };
        push_mapping(printer, &mapping)?;
    }
    printer.page.close_list()
}

fn push_mapping(printer: &mut Printer<'_>, mapping: &PolicyMapping<'_>) -> Result<(), AllocError> {
    let (issuer, subject) = (
        mapping.issuer_domain_policy(),
        mapping.subject_domain_policy(),
    );
    printer.page.open(PartName::Item)?;
    printer.push_str(", issuer's ")?;
    push_identifier_part(printer, PartName::IssuerDomainPolicy, issuer.as_bytes())?;
    printer.push_str(" is subject's ")?;
    push_identifier_part(printer, PartName::SubjectDomainPolicy, subject.as_bytes())?;
    printer.page.close()
}
