//! The rules of RFC 5280 that a certificate breaks.

use super::data::{
    ALGORITHMS, ALL, ANY_POLICY, AUTHORITY_ACCESS, AUTHORITY_KEY, CERTIFICATE, CONSTRAINTS,
    DIRECTORY, FRESHEST, FULL, ISSUER_UNIQUE, LONG_SERIAL, NAMES, NEGATIVE, NO_CA, NO_ISSUER,
    NO_NAME, NO_SUBJECT, PATH, POLICIES, SUBJECT_ACCESS, SUBJECT_KEY, SUBJECT_UNIQUE, TWICE, TWO,
    UNIQUE_2, VERSION_2, ZERO,
};
use crate::tests::{same, same_in};
use der_asn1_types::FromDer;
use der_pkix::certificate::Certificate;
use der_verify::{CERTIFICATE_RULES, CertificateRule, algorithms_agree, check_certificate};
use std::alloc::Global;
use std::process::Abort;
use std::test::Fail;

// Returns the rules that the certificate breaks.
pub(super) fn rules_told(alloc: Global, octets: &[u8]) -> Result<Vec<CertificateRule>, u8> {
    match Certificate::from_der(alloc, octets) {
        Ok(certificate) => match check_certificate(alloc, &certificate) {
            Ok(found) => Ok(found),
            Err(_) => Err(1),
        },
        Err(e) => Err(e.kind().number()),
    }
}

// Returns whether the certificate breaks the rule, and no other.
pub(super) fn is_alone(alloc: Global, octets: &[u8], rule: CertificateRule) -> Result<bool, u8> {
    match Certificate::from_der(alloc, octets) {
        Ok(certificate) => {
            for other in CERTIFICATE_RULES {
                if other.is_broken(alloc, &certificate) != (other == rule) {
                    return Ok(false);
                }
            }
            Ok(true)
        }
        Err(e) => Err(e.kind().number()),
    }
}

// Returns whether the algorithm in the signed part is the one outside.
fn agreement_told(alloc: Global, octets: &[u8]) -> Result<bool, u8> {
    match Certificate::from_der(alloc, octets) {
        Ok(certificate) => Ok(algorithms_agree(&certificate)),
        Err(e) => Err(e.kind().number()),
    }
}

#[test]
fn each_rule_is_broken_alone(rt: HostRuntime) -> Result<(), Fail> {
    let alloc = rt.alloc();
    let rows = [
        (ALGORITHMS, CertificateRule::AlgorithmsAgree),
        (VERSION_2, CertificateRule::ExtensionsInVersion3),
        (ZERO, CertificateRule::SerialNumberIsPositive),
        (NEGATIVE, CertificateRule::SerialNumberIsPositive),
        (LONG_SERIAL, CertificateRule::SerialNumberHasAtMost20Octets),
        (NO_ISSUER, CertificateRule::IssuerIsNotEmpty),
        (NO_SUBJECT, CertificateRule::EmptySubjectHasCriticalAltName),
        (NO_NAME, CertificateRule::EmptySubjectHasCriticalAltName),
        (ISSUER_UNIQUE, CertificateRule::UniqueIdentifiersInVersion2),
        (SUBJECT_UNIQUE, CertificateRule::UniqueIdentifiersInVersion2),
        (TWICE, CertificateRule::ExtensionsStandOnce),
        (
            AUTHORITY_KEY,
            CertificateRule::AuthorityKeyIdentifierIsNotCritical,
        ),
        (
            SUBJECT_KEY,
            CertificateRule::SubjectKeyIdentifierIsNotCritical,
        ),
        (
            DIRECTORY,
            CertificateRule::SubjectDirectoryAttributesIsNotCritical,
        ),
        (FRESHEST, CertificateRule::FreshestCrlIsNotCritical),
        (
            AUTHORITY_ACCESS,
            CertificateRule::AuthorityInfoAccessIsNotCritical,
        ),
        (
            SUBJECT_ACCESS,
            CertificateRule::SubjectInfoAccessIsNotCritical,
        ),
        (CONSTRAINTS, CertificateRule::BasicConstraintsOfCaIsCritical),
        (PATH, CertificateRule::BasicConstraintsOfCaIsCritical),
        (NAMES, CertificateRule::NameConstraintsIsCritical),
        (POLICIES, CertificateRule::PolicyConstraintsIsCritical),
        (ANY_POLICY, CertificateRule::InhibitAnyPolicyIsCritical),
    ];
    for (digits, rule) in rows {
        let octets = hex::decode(alloc, digits)?;
        let found = rules_told(alloc, octets.as_slice())?;
        same_in(&rt, &rule, found.as_slice(), [rule].as_slice());
        same_in(
            &rt,
            &rule,
            is_alone(alloc, octets.as_slice(), rule),
            Ok(true),
        );
    }
    Ok(())
}

#[test]
fn no_rules_two_and_all_are_told(rt: HostRuntime) -> Result<(), Fail> {
    let alloc = rt.alloc();
    for digits in [CERTIFICATE, FULL, UNIQUE_2, NO_CA] {
        let octets = hex::decode(alloc, digits)?;
        let found = rules_told(alloc, octets.as_slice())?;
        same_in(&rt, &digits, found.as_slice(), [].as_slice());
    }
    let octets = hex::decode(alloc, TWO)?;
    let found = rules_told(alloc, octets.as_slice())?;
    let wanted = [
        CertificateRule::SerialNumberIsPositive,
        CertificateRule::IssuerIsNotEmpty,
    ];
    same(&rt, found.as_slice(), wanted.as_slice());
    let octets = hex::decode(alloc, ALL)?;
    let found = rules_told(alloc, octets.as_slice())?;
    let mut wanted = Vec::new(alloc);
    wanted.extend_from_slice(CERTIFICATE_RULES.get(..18).ok_or("fewer rules")?)?;
    wanted.push(CertificateRule::SubjectOfCaIsNotEmpty)?;
    same(&rt, found.as_slice(), wanted.as_slice());
    Ok(())
}

#[test]
fn each_rule_has_a_section(rt: HostRuntime) -> Result<(), Fail> {
    let rows = [
        (CertificateRule::AlgorithmsAgree, "4.1.1.2"),
        (CertificateRule::ExtensionsInVersion3, "4.1.2.1"),
        (CertificateRule::SerialNumberIsPositive, "4.1.2.2"),
        (CertificateRule::SerialNumberHasAtMost20Octets, "4.1.2.2"),
        (CertificateRule::IssuerIsNotEmpty, "4.1.2.4"),
        (CertificateRule::EmptySubjectHasCriticalAltName, "4.1.2.6"),
        (CertificateRule::UniqueIdentifiersInVersion2, "4.1.2.8"),
        (CertificateRule::ExtensionsStandOnce, "4.2"),
        (
            CertificateRule::AuthorityKeyIdentifierIsNotCritical,
            "4.2.1.1",
        ),
        (
            CertificateRule::SubjectKeyIdentifierIsNotCritical,
            "4.2.1.2",
        ),
        (
            CertificateRule::SubjectDirectoryAttributesIsNotCritical,
            "4.2.1.8",
        ),
        (CertificateRule::FreshestCrlIsNotCritical, "4.2.1.15"),
        (CertificateRule::AuthorityInfoAccessIsNotCritical, "4.2.2.1"),
        (CertificateRule::SubjectInfoAccessIsNotCritical, "4.2.2.2"),
        (CertificateRule::BasicConstraintsOfCaIsCritical, "4.2.1.9"),
        (CertificateRule::NameConstraintsIsCritical, "4.2.1.10"),
        (CertificateRule::PolicyConstraintsIsCritical, "4.2.1.11"),
        (CertificateRule::InhibitAnyPolicyIsCritical, "4.2.1.14"),
        (CertificateRule::VersionIsKnown, "4.1.2.1"),
        (CertificateRule::ValidityIsNotEmpty, "4.1.2.5"),
        (CertificateRule::DatesThrough2049AreUtcTimes, "4.1.2.5"),
        (CertificateRule::SubjectOfCaIsNotEmpty, "4.1.2.6"),
        (CertificateRule::TextsHaveSizes, "A.1"),
        (CertificateRule::TextsHaveStringTypes, "A.1"),
        (CertificateRule::PrintableStringsHaveTheirCharacters, "B"),
        (CertificateRule::CurvesHaveNoParameters, "4.1.1.2"),
        (CertificateRule::CaHasSubjectKeyIdentifier, "4.2.1.2"),
        (CertificateRule::AuthorityHasKeyIdentifier, "4.2.1.1"),
        (CertificateRule::AuthorityIssuerHasSerialNumber, "A.2"),
        (CertificateRule::CaHasKeyUsage, "4.2.1.3"),
        (CertificateRule::KeyUsageHasABit, "4.2.1.3"),
        (CertificateRule::KeyCertSignOnlyInCa, "4.2.1.3"),
        (CertificateRule::PathLengthOnlyInCa, "4.2.1.9"),
        (CertificateRule::NameConstraintsOnlyInCa, "4.2.1.10"),
        (CertificateRule::NameConstraintsIsNotEmpty, "4.2.1.10"),
        (CertificateRule::NameConstraintsHasNoDistances, "4.2.1.10"),
        (
            CertificateRule::ConstrainedAddressesHave8Or32Octets,
            "4.2.1.10",
        ),
        (CertificateRule::PolicyConstraintsIsNotEmpty, "4.2.1.11"),
        (CertificateRule::PoliciesStandOnce, "4.2.1.4"),
        (CertificateRule::AnyPolicyIsNotMapped, "4.2.1.5"),
        (CertificateRule::DnsNamesHaveSyntax, "4.2.1.6"),
        (CertificateRule::MailboxesHaveSyntax, "4.2.1.6"),
        (CertificateRule::UrisHaveSchemes, "4.2.1.6"),
        (CertificateRule::AddressesHave4Or16Octets, "4.2.1.6"),
        (CertificateRule::PointsHaveNames, "4.2.1.13"),
    ];
    for (rule, section) in rows {
        same_in(&rt, &rule, rule.section(), section);
    }
    Ok(())
}

#[test]
fn algorithms_agree_or_not(rt: HostRuntime) -> Result<(), Fail> {
    let alloc = rt.alloc();
    for (digits, agree) in [(CERTIFICATE, true), (ALGORITHMS, false), (ALL, false)] {
        let octets = hex::decode(alloc, digits)?;
        same_in(
            &rt,
            &digits,
            agreement_told(alloc, octets.as_slice()),
            Ok(agree),
        );
    }
    Ok(())
}
