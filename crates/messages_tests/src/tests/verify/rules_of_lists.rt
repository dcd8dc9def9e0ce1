//! The rules of RFC 5280 that a list of revoked certificates breaks.

use super::list_data::{
    LIST_ACCESS, LIST_ALGORITHMS, LIST_DELTA, LIST_ENTRY_ISSUER, LIST_ENTRY_VERSION_1,
    LIST_FRESHEST, LIST_FULL, LIST_INVALIDITY, LIST_NO_ENTRIES, LIST_NO_ISSUER, LIST_NO_NEXT,
    LIST_NUMBER, LIST_POINT, LIST_REASON, LIST_TWICE, LIST_TWO, LIST_V1, LIST_VERSION_1,
    LIST_VERSION_3,
};
use crate::tests::{same, same_in};
use der_asn1_types::FromDer;
use der_pkix::crl::CertificateList;
use der_verify::{LIST_RULES, ListRule, check_list, list_algorithms_agree};
use std::alloc::Global;
use std::process::Abort;
use std::test::Fail;

// Returns the rules that the list breaks.
pub(super) fn rules_told(alloc: Global, octets: &[u8]) -> Result<Vec<ListRule>, u8> {
    match CertificateList::from_der(alloc, octets) {
        Ok(list) => match check_list(alloc, &list) {
            Ok(found) => Ok(found),
            Err(_) => Err(1),
        },
        Err(e) => Err(e.kind().number()),
    }
}

// Returns whether the list breaks the rule, and no other.
pub(super) fn is_alone(alloc: Global, octets: &[u8], rule: ListRule) -> Result<bool, u8> {
    match CertificateList::from_der(alloc, octets) {
        Ok(list) => {
            for other in LIST_RULES {
                if other.is_broken(alloc, &list) != (other == rule) {
                    return Ok(false);
                }
            }
            Ok(true)
        }
        Err(e) => Err(e.kind().number()),
    }
}

// Returns whether the algorithm in the signed part is the one outside.
fn agreement_told(alloc: Global, octets: &[u8]) -> Result<bool, u8> {
    match CertificateList::from_der(alloc, octets) {
        Ok(list) => Ok(list_algorithms_agree(&list)),
        Err(e) => Err(e.kind().number()),
    }
}

#[test]
fn each_rule_of_lists_is_broken_alone(rt: HostRuntime) -> Result<(), Fail> {
    let alloc = rt.alloc();
    let rows = [
        (LIST_ALGORITHMS, ListRule::AlgorithmsAgree),
        (LIST_VERSION_1, ListRule::ExtensionsInVersion2),
        (LIST_NO_ISSUER, ListRule::IssuerIsNotEmpty),
        (LIST_NO_NEXT, ListRule::NextUpdateIsThere),
        (LIST_NO_ENTRIES, ListRule::EmptyListIsAbsent),
        (LIST_TWICE, ListRule::ExtensionsStandOnce),
        (LIST_NUMBER, ListRule::CrlNumberIsNotCritical),
        (LIST_DELTA, ListRule::DeltaCrlIndicatorIsCritical),
        (LIST_POINT, ListRule::IssuingDistributionPointIsCritical),
        (LIST_FRESHEST, ListRule::FreshestCrlIsNotCritical),
        (LIST_ACCESS, ListRule::AuthorityInfoAccessIsNotCritical),
        (LIST_REASON, ListRule::ReasonCodeIsNotCritical),
        (LIST_INVALIDITY, ListRule::InvalidityDateIsNotCritical),
        (LIST_ENTRY_ISSUER, ListRule::CertificateIssuerIsCritical),
    ];
    for (digits, rule) in rows {
        let octets = hex::decode(alloc, digits)?;
        let found = rules_told(alloc, octets.as_slice())?;
        same_in(&rt, &rule, found.as_slice(), [rule].as_slice());
        same_in(
            &rt,
            &rule,
            is_alone(alloc, octets.as_slice(), rule),
            Ok(true),
        );
    }
    Ok(())
}

#[test]
fn no_rules_of_lists_and_two_are_told(rt: HostRuntime) -> Result<(), Fail> {
    let alloc = rt.alloc();
    let absent = [
        ListRule::AuthorityHasKeyIdentifier,
        ListRule::CrlNumberIsThere,
    ];
    let rows = [(LIST_FULL, [].as_slice()), (LIST_V1, absent.as_slice())];
    for (digits, wanted) in rows {
        let octets = hex::decode(alloc, digits)?;
        let found = rules_told(alloc, octets.as_slice())?;
        same_in(&rt, &digits, found.as_slice(), wanted);
        same(&rt, agreement_told(alloc, octets.as_slice()), Ok(true));
    }
    let octets = hex::decode(alloc, LIST_TWO)?;
    let found = rules_told(alloc, octets.as_slice())?;
    let wanted = [ListRule::IssuerIsNotEmpty, ListRule::NextUpdateIsThere];
    same(&rt, found.as_slice(), wanted.as_slice());
    let octets = hex::decode(alloc, LIST_VERSION_3)?;
    let found = rules_told(alloc, octets.as_slice())?;
    let wanted = [ListRule::ExtensionsInVersion2, ListRule::VersionIs2];
    same(&rt, found.as_slice(), wanted.as_slice());
    let octets = hex::decode(alloc, LIST_ENTRY_VERSION_1)?;
    let found = rules_told(alloc, octets.as_slice())?;
    let [key, number] = absent;
    let wanted = [ListRule::ExtensionsInVersion2, key, number];
    same(&rt, found.as_slice(), wanted.as_slice());
    let octets = hex::decode(alloc, LIST_ALGORITHMS)?;
    same(&rt, agreement_told(alloc, octets.as_slice()), Ok(false));
    Ok(())
}

#[test]
fn each_rule_of_lists_has_a_section(rt: HostRuntime) -> Result<(), Fail> {
    let rows = [
        (ListRule::AlgorithmsAgree, "5.1.1.2"),
        (ListRule::ExtensionsInVersion2, "5.1.2.1"),
        (ListRule::IssuerIsNotEmpty, "5.1.2.3"),
        (ListRule::NextUpdateIsThere, "5.1.2.5"),
        (ListRule::EmptyListIsAbsent, "5.1.2.6"),
        (ListRule::ExtensionsStandOnce, "5.2"),
        (ListRule::CrlNumberIsNotCritical, "5.2.3"),
        (ListRule::DeltaCrlIndicatorIsCritical, "5.2.4"),
        (ListRule::IssuingDistributionPointIsCritical, "5.2.5"),
        (ListRule::FreshestCrlIsNotCritical, "5.2.6"),
        (ListRule::AuthorityInfoAccessIsNotCritical, "5.2.7"),
        (ListRule::ReasonCodeIsNotCritical, "5.3.1"),
        (ListRule::InvalidityDateIsNotCritical, "5.3.2"),
        (ListRule::CertificateIssuerIsCritical, "5.3.3"),
        (ListRule::VersionIs2, "5.1.2.1"),
        (ListRule::DatesThrough2049AreUtcTimes, "5.1.2.4"),
        (ListRule::AuthorityHasKeyIdentifier, "5.2.1"),
        (ListRule::CrlNumberIsThere, "5.2.3"),
        (ListRule::CrlNumberHasAtMost20Octets, "5.2.3"),
        (ListRule::IssuingDistributionPointIsNotEmpty, "5.2.5"),
        (ListRule::IssuingDistributionPointHasOneKind, "5.2.5"),
        (ListRule::EntryExtensionsStandOnce, "5.3"),
        (ListRule::RemoveFromCrlOnlyInDelta, "5.3.1"),
    ];
    for (rule, section) in rows {
        same_in(&rt, &rule, rule.section(), section);
    }
    Ok(())
}
