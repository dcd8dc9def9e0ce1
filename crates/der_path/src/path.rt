//! Certification path validation (RFC 5280 section 6.1), with the policies of RFC 9618.

ghost use Rattle.std.specs.Prelude.{◌≡◌, List, Result};
ghost use Rattle.der_pkix.specs.declared.certificate.extension.Extension.{Extension};
ghost use Rattle.der_path.specs.declared.policy.Policy.{Policy};
ghost use Rattle.der_path.specs.declared.step.Step.{Step};
ghost use Rattle.der_path.specs.Chains.{ChecksPath};
ghost use Rattle.der_path.specs.Paths.{answer, at_index, fault_at, no_facts_at, Answers, AnswersChain, Decides, EachListed, ReadsEach};

use crate::facts::{Facts, NameFacts, NoFacts, facts_of, initial_names};
use crate::keys::{Anchor, Verification, verifications_of};
use crate::names::Part;
use crate::policy::{Policy, any_policy};
use crate::read_chain::read_each;
use crate::read_names::parts_of;
use crate::state::{Stop, first_state, last_answer, next_state};
use crate::step::Step;
use der_extensions::extension::NameConstraints;
use der_pkix::certificate::Certificate;
use der_pkix::name::Name;
use der_tlv::Error;
use std::alloc::Global;

/// The inputs (b), (c) and (e) to (i) of RFC 5280 section 6.1.1.
#[derive(Clone, Copy)]
pub struct Inputs<'b, 'a> {
    /// The moment, in seconds from 1970-01-01T00:00:00Z (b).
    pub moment: u64,
    /// user-initial-policy-set (c): anyPolicy alone if the user is not concerned about policies.
    pub policies: &'b [Policy<'a>],
    /// initial-policy-mapping-inhibit (e).
    pub mapping_inhibit: bool,
    /// initial-explicit-policy (f).
    pub explicit_policy: bool,
    /// initial-any-policy-inhibit (g).
    pub any_policy_inhibit: bool,
    /// initial-permitted-subtrees (h) and initial-excluded-subtrees (i), as a certificate before
    /// the first would have them (RFC 5937 section 3.2): `None` permits all names, and excludes
    /// none.
    pub constraints: Option<NameConstraints<'a>>,
}

/// The outputs (RFC 5280 section 6.1.6) for a chain that is valid if each signature verifies and
/// no certificate is revoked.
#[derive(Drop)]
pub struct ValidPath<'a> {
    /// user_constrained_policy_set.
    pub policies: Vec<Policy<'a>>,
    /// What has to verify of each certificate, in their order. The last key is that of the last
    /// certificate but one, or of the anchor.
    pub verifications: Vec<Verification<'a>>,
}

/// Why a chain is not accepted.
#[derive(Clone, Copy, Debug, PartialEq, Eq)]
pub enum PathError {
    /// Memory ran out.
    Memory,
    /// The chain has no certificate.
    Empty,
    /// The octets at this index are no certificate, with the error of reading them.
    NotRead(usize, Error),
    /// The certificate at this index has an extension that section 6.1 processes twice, or one
    /// whose value cannot be read.
    Unread(usize),
    /// This step refuses the certificate at this index.
    Refused(usize, Step),
}

/// Validates a chain by RFC 5280 section 6.1, from the encoding of the certificate that the trust
/// anchor issued to that of the end certificate. The policies are processed as in RFC 9618.
///
/// Two steps are left to the caller, for each certificate: 6.1.3 (a)(1), that its signature
/// verifies, as `ValidPath::verifications` says; and (a)(3), that it is not revoked.
///
/// # Errors
/// `PathError::NotRead` for the first octets that are no certificate; `PathError::Unread` for the
/// first certificate whose extensions cannot be read; `PathError::Empty` for no certificates;
/// `PathError::Refused` for the first certificate that a step refuses, and the first such step;
/// `PathError::Memory` if memory runs out.
pub fn check_path<'a>(
    alloc: Global,
    anchor: &Anchor<'a>,
    chain: &[&'a [u8]],
    inputs: Inputs<'_, 'a>,
) -> Result<ValidPath<'a>, PathError>
    ensures { ChecksPath anchor.now chain.now inputs.entry result }
{
    let certificates = match read_each(alloc, chain) {
        Ok(certificates) => certificates,
        Err(error) => return Err(error),
    };
    let policies = match policies_of(alloc, &anchor.name, &certificates, &inputs) {
        Ok(policies) => policies,
        Err(error) => return Err(error),
    };
    match verifications_of(alloc, anchor, chain, &certificates) {
        Ok(verifications) => Ok(ValidPath {
            policies,
            verifications,
        }),
        Err(_error) => Err(PathError::Memory),
    }
}

/// Validates a chain of certificates that were read, and returns user_constrained_policy_set.
pub fn policies_of<'a>(
    alloc: Global,
    anchor: &Name<'a>,
    chain: &[Certificate<'a>],
    inputs: &Inputs<'_, 'a>,
) -> Result<Vec<Policy<'a>>, PathError>
    ensures { (lists : List (List Extension)) → EachListed chain.now lists
        → AnswersChain anchor.now chain.now lists inputs.now result }
{
    let Ok(parts) = parts_of(alloc, anchor) else {
        return Err(PathError::Memory);
    };
    let Ok(initial) = initial_names(alloc, &inputs.constraints) else {
        return Err(PathError::Memory);
    };
    let facts = facts_of_each(alloc, chain)?;
    check_facts(alloc, any_policy(), &parts, &initial, &facts, inputs)
}

/// Reads the facts of each certificate.
fn facts_of_each<'a>(alloc: Global, chain: &[Certificate<'a>]) -> Result<Vec<Facts<'a>>, PathError>
    ensures { (lists : List (List Extension)) → EachListed chain.now lists → ReadsEach chain.now lists result }
{
    let mut found = Vec::new(alloc);
    let mut at = 0;
    let mut left = chain;
    'each: while let [certificate, others @ ..] = left {
        match facts_of(alloc, certificate) {
            Ok(facts) => {
                let Ok(()) = found.push(facts) else {
                    return Err(PathError::Memory);
                };
            }
            Err(why) => return Err(no_facts_at(at, why)),
        }
        at += 1;
        left = others;
    }
    Ok(found)
}

/// Returns the error for the certificate at an index that has no facts.
fn no_facts_at(at: usize, why: NoFacts) -> PathError
    ensures { result ≡ no_facts_at at why }
{
    match why {
        NoFacts::Memory => PathError::Memory,
        NoFacts::Unread => PathError::Unread(at),
    }
}

/// Validates a chain by the facts of its certificates.
fn check_facts<'a>(
    alloc: Global,
    any: Policy<'a>,
    anchor: &[Part<'a>],
    constraints: &NameFacts<'a>,
    chain: &[Facts<'a>],
    inputs: &Inputs<'_, 'a>,
) -> Result<Vec<Policy<'a>>, PathError>
    ensures { Answers (answer any.entry anchor.now constraints.now chain.now inputs.now) result }
{
    let Ok(first) = first_state(alloc, any, chain.len(), inputs) else {
        return Err(PathError::Memory);
    };
    let mut state = first;
    let mut issuer = anchor;
    let mut at = 0;
    let mut left = chain;
    'each: while let [facts, others @ ..] = left {
        let before = &chain[..at];
        if others.len() == 0 {
            return at_index(
                at,
                last_answer(alloc, constraints, before, issuer, facts, inputs, state),
            );
        }
        match next_state(
            alloc,
            constraints,
            before,
            issuer,
            facts,
            inputs.moment,
            state,
        ) {
            Ok(next) => state = next,
            Err(stop) => return Err(fault_at(at, stop)),
        }
        issuer = &facts.subject;
        at += 1;
        left = others;
    }
    Err(PathError::Empty)
}

/// Returns the answer for the certificate at an index.
fn at_index<'a>(
    at: usize,
    decided: Result<Vec<Policy<'a>>, Stop>,
) -> Result<Vec<Policy<'a>>, PathError>
    ensures { (wanted : Result (List Policy) Step) → Decides wanted decided.entry → Answers (at_index at wanted) result }
{
    match decided {
        Ok(policies) => Ok(policies),
        Err(stop) => Err(fault_at(at, stop)),
    }
}

/// Returns the error for the certificate at an index.
fn fault_at(at: usize, stop: Stop) -> PathError
    ensures { result ≡ fault_at at stop }
{
    match stop {
        Stop::Memory => PathError::Memory,
        Stop::At(step) => PathError::Refused(at, step),
    }
}
