//! Values of extensions that are about policies.

use crate::tests::{copied, numbered, same};
use der_asn1_types::FromDer;
use der_extensions::extension::constants::ID_QT_CPS;
use der_extensions::extension::{
    CertificatePolicies, InhibitAnyPolicy, PolicyConstraints, PolicyInformation, PolicyMapping,
    PolicyMappings, SkipCerts,
};
use std::alloc::Global;
use std::process::Abort;
use std::test::Fail;

/// The contents octets of a policy's identifier, the number of its qualifiers, and whether the
/// first qualifier is the location of a statement.
type Told = (Vec<u8>, usize, bool);

// Returns the number of qualifiers of a policy, and whether the first one is the location of a
// statement.
fn qualifiers_told(alloc: Global, policy: &PolicyInformation) -> Result<(usize, bool), u8> {
    let Some(qualifiers) = policy.policy_qualifiers() else {
        return Ok((0, false));
    };
    let count = numbered(qualifiers.list().count(alloc))?;
    match qualifiers.list().get(alloc, 0) {
        Some(Ok(first)) => {
            let kind = first.policy_qualifier_id();
            Ok((count, kind.as_bytes() == ID_QT_CPS.as_slice()))
        }
        Some(Err(e)) => Err(e.kind().number()),
        None => Ok((0, false)),
    }
}

fn policy_told(alloc: Global, policy: &PolicyInformation) -> Result<Told, u8> {
    let identifier = copied(alloc, policy.policy_identifier().as_bytes())?;
    let (count, is_place) = qualifiers_told(alloc, policy)?;
    Ok((identifier, count, is_place))
}

// Returns the number of policies, and the fields of the last one.
fn policies_told(alloc: Global, octets: &[u8]) -> Result<(usize, Told), u8> {
    match CertificatePolicies::from_der(alloc, octets) {
        Ok(policies) => {
            let count = numbered(policies.items().count(alloc))?;
            match policies.items().get(alloc, count.saturating_sub(1)) {
                Some(Ok(last)) => Ok((count, policy_told(alloc, &last)?)),
                Some(Err(e)) => Err(e.kind().number()),
                None => Err(0),
            }
        }
        Err(e) => Err(e.kind().number()),
    }
}

// Returns the contents octets of a mapping's two identifiers.
fn mapping_told(alloc: Global, mapping: &PolicyMapping) -> Result<(Vec<u8>, Vec<u8>), u8> {
    let issuer = copied(alloc, mapping.issuer_domain_policy().as_bytes())?;
    let subject = copied(alloc, mapping.subject_domain_policy().as_bytes())?;
    Ok((issuer, subject))
}

// Returns the number of mappings, and the identifiers of the last one.
fn mappings_told(alloc: Global, octets: &[u8]) -> Result<(usize, (Vec<u8>, Vec<u8>)), u8> {
    match PolicyMappings::from_der(alloc, octets) {
        Ok(mappings) => {
            let count = numbered(mappings.items().count(alloc))?;
            match mappings.items().get(alloc, count.saturating_sub(1)) {
                Some(Ok(last)) => Ok((count, mapping_told(alloc, &last)?)),
                Some(Err(e)) => Err(e.kind().number()),
                None => Err(0),
            }
        }
        Err(e) => Err(e.kind().number()),
    }
}

// Returns the octets of the two numbers.
fn policy_constraints_told(
    alloc: Global,
    octets: &[u8],
) -> Result<(Option<Vec<u8>>, Option<Vec<u8>>), u8> {
    match PolicyConstraints::from_der(alloc, octets) {
        Ok(constraints) => {
            let explicit = number_of(alloc, constraints.require_explicit_policy())?;
            let inhibited = number_of(alloc, constraints.inhibit_policy_mapping())?;
            Ok((explicit, inhibited))
        }
        Err(e) => Err(e.kind().number()),
    }
}

fn number_of(alloc: Global, number: Option<&SkipCerts>) -> Result<Option<Vec<u8>>, u8> {
    match number {
        Some(number) => match copied(alloc, number.as_bytes()) {
            Ok(octets) => Ok(Some(octets)),
            Err(fault) => Err(fault),
        },
        None => Ok(None),
    }
}

fn inhibited_told(alloc: Global, octets: &[u8]) -> Result<Vec<u8>, u8> {
    match InhibitAnyPolicy::from_der(alloc, octets) {
        Ok(number) => copied(alloc, number.as_bytes()),
        Err(e) => Err(e.kind().number()),
    }
}

#[test]
fn policies_have_qualifiers(rt: HostRuntime) -> Result<(), Fail> {
    let alloc = rt.alloc();
    let octets = hex::decode(
        alloc,
        "3065300506032a0304305c06032a03053055302606082b06010505070201161a68747470733a2f2f6261726c65792e6578616d706c652f637073302b06082b06010505070202301f30101a064261726c657930060201010201021a0b4d696c6c65642068657265",
    )?;
    let found = policies_told(alloc, octets.as_slice());
    let identifier = hex::decode(alloc, "2a0305")?;
    same(&rt, found, Ok((2, (identifier, 2, true))));
    let octets = hex::decode(alloc, "3007300506032a0304")?;
    let found = policies_told(alloc, octets.as_slice());
    let identifier = hex::decode(alloc, "2a0304")?;
    same(&rt, found, Ok((1, (identifier, 0, false))));
    Ok(())
}

#[test]
fn mappings_have_two_policies(rt: HostRuntime) -> Result<(), Fail> {
    let alloc = rt.alloc();
    let octets = hex::decode(
        alloc,
        "3018300a06032a030406032a0305300a06032a030606032a0307",
    )?;
    let found = mappings_told(alloc, octets.as_slice());
    let issuer = hex::decode(alloc, "2a0306")?;
    let subject = hex::decode(alloc, "2a0307")?;
    same(&rt, found, Ok((2, (issuer, subject))));
    Ok(())
}

#[test]
fn constraints_of_policies_have_numbers(rt: HostRuntime) -> Result<(), Fail> {
    let alloc = rt.alloc();
    let octets = hex::decode(alloc, "3006800103810101")?;
    let found = policy_constraints_told(alloc, octets.as_slice());
    let explicit = hex::decode(alloc, "03")?;
    let inhibited = hex::decode(alloc, "01")?;
    same(&rt, found, Ok((Some(explicit), Some(inhibited))));
    Ok(())
}

#[test]
fn inhibitions_are_numbers(rt: HostRuntime) -> Result<(), Fail> {
    let alloc = rt.alloc();
    let octets = hex::decode(alloc, "020102")?;
    let found = inhibited_told(alloc, octets.as_slice())?;
    same(&rt, found.as_slice(), [2].as_slice());
    Ok(())
}
