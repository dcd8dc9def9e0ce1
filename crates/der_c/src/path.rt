//! A chain of certificates that stand in octets, validated (RFC 5280 section 6.1).

mod inputs;
mod meanings;
mod places;
pub(crate) mod refusal;
pub(crate) mod there;
mod written;

ghost use Rattle.std.specs.Prelude.{IfErr, IfOk};
ghost use Rattle.der_c.specs.Chains.{AnswersPath, Finds, HasPath, RefusesPath, Validates};

use crate::fault::Fault;
use der_path::{Inputs, PathError, Policy, octets_of_policies, policies_of};
use der_pkix::certificate::Certificate;
use der_places::Place;
pub use inputs::PathInputs;
use inputs::{PathParts, path_parts};
pub use places::VerificationAt;
use places::{first_key, verifications_at};
use refusal::{PathRefusal, memory_ran_out, refusal_at, refusal_of, too_many_octets};
use std::alloc::{AllocError, Global};
use there::each_there;
pub use written::PathAt;
use written::{FoundPath, refuse_path, write_path};

/// Validates a chain of certificates by RFC 5280 section 6.1, with the policies of RFC 9618. The
/// byte ranges in `chain` are those of the certificates, from the one that the trust anchor issued
/// to the end certificate.
///
/// Returns 0 if the chain is valid, provided that for each certificate what `verifications` says
/// verifies (6.1.3 (a)(1)), and that it is not revoked ((a)(3)). `policies` has the encodings of
/// the identifiers of user_constrained_policy_set (6.1.6).
///
/// Else returns 104 if a step refuses a certificate; 105 if an extension that section 6.1 processes
/// stands twice, or its value cannot be read; 106 for no certificates; 100 for a byte range that is
/// not within the octets; the number of the first error of what is read at one, whose position
/// counts from the start of all octets; 1 if memory runs out; or 103 if one of the buffers is too
/// short. The buffers are then unchanged. `told` is always written.
#[unsafe(no_mangle)]
pub extern "C" fn der_check_path<'a>(
    alloc: Global,
    octets: &'a [u8],
    inputs: &PathInputs,
    chain: &[Place],
    verifications: &mut [VerificationAt],
    policies: &mut [u8],
    told: &mut PathAt,
    fault: &mut Fault,
) -> u32
    ensures { AnswersPath octets.now inputs.now chain.now verifications.old verifications.new
        policies.old policies.new told.new fault.old fault.new result }
{
    match path_of(alloc, octets, inputs, chain) {
        Ok(found) => write_path(
            &found,
            chain.len() as u64,
            verifications,
            policies,
            told,
            fault,
        ),
        Err(refusal) => refuse_path(refusal, told, fault),
    }
}

/// The most octets that a length can count.
const MOST: usize = 4294967295;

/// Validates a chain, if a length can count all octets.
fn path_of<'a>(
    alloc: Global,
    octets: &'a [u8],
    at: &PathInputs,
    chain: &[Place],
) -> Result<FoundPath, PathRefusal>
    ensures ok { IfOk result (λ found. HasPath octets.now at.now chain.now found) }
    ensures err { IfErr result (λ refusal. RefusesPath octets.now at.now chain.now refusal) }
{
    if octets.len() > MOST {
        return Err(too_many_octets(chain.len()));
    }
    let parts = match path_parts(alloc, octets, at) {
        Ok(parts) => parts,
        Err(fault) => return Err(refusal_at(fault, chain.len())),
    };
    let certificates = match each_there::<Certificate<'a>>(alloc, octets, chain) {
        Ok(certificates) => certificates,
        Err(refusal) => return Err(refusal),
    };
    match policies_at(alloc, at, &parts, &certificates) {
        Ok(policies) => {
            match found_path(alloc, octets, at, &parts, chain, &certificates, &policies) {
                Ok(found) => Ok(found),
                Err(_error) => Err(memory_ran_out(chain.len())),
            }
        }
        Err(error) => Err(refusal_of(error, chain.len())),
    }
}

/// Validates certificates by these inputs, and returns user_constrained_policy_set.
fn policies_at<'a>(
    alloc: Global,
    at: &PathInputs,
    parts: &PathParts<'a>,
    certificates: &[Certificate<'a>],
) -> Result<Vec<Policy<'a>>, PathError>
    ensures { Validates at.now parts.now certificates.now result }
{
    let inputs = Inputs {
        moment: at.moment,
        policies: &parts.policies,
        mapping_inhibit: at.mapping_inhibit > 0,
        explicit_policy: at.explicit_policy > 0,
        any_policy_inhibit: at.any_policy_inhibit > 0,
        constraints: parts.initial_constraints(),
    };
    policies_of(alloc, &parts.anchor.name, certificates, &inputs)
}

/// Returns what is said of a valid chain.
fn found_path<'a>(
    alloc: Global,
    octets: &'a [u8],
    at: &PathInputs,
    parts: &PathParts<'a>,
    chain: &[Place],
    certificates: &[Certificate<'a>],
    policies: &[Policy<'a>],
) -> Result<FoundPath, AllocError>
    ensures { IfOk result (λ found. Finds octets.now at.now parts.now chain.now certificates.now policies.now found) }
{
    let key = first_key(&parts.anchor.key, octets, at.anchor_key);
    let verifications = verifications_at(alloc, octets, key, chain, certificates)?;
    let encodings = octets_of_policies(alloc, policies)?;
    Ok(FoundPath {
        verifications,
        policies: encodings,
        policy_count: policies.len() as u64,
    })
}
