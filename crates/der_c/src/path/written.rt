//! What is said of a chain, in memory of the caller.

ghost use Rattle.der_c.specs.ChainWriting.{WritesPath, WritesRefusal};

use crate::fault::{Fault, SHORT_ROOM, refuse_call};
use crate::path::places::VerificationAt;
use crate::path::refusal::PathRefusal;

/// What is said of a chain.
#[repr(C)]
#[derive(Clone, Copy, Debug, PartialEq, Eq)]
pub struct PathAt {
    /// The index of the certificate that is refused; the number of certificates if none of them is.
    pub refused_index: u64,
    /// The number of policies of user_constrained_policy_set (6.1.6).
    pub policy_count: u64,
    /// The number of octets of their encodings.
    pub policies_len: u64,
    /// The number of the step that refuses the certificate, or 0.
    pub step: u32,
    /// 0.
    pub reserved: u32,
}

/// A chain that is valid if all of this verifies.
#[derive(Drop)]
pub struct FoundPath {
    /// What has to verify of each certificate.
    pub verifications: Vec<VerificationAt>,
    /// The encodings of the identifiers of the policies.
    pub policies: Vec<u8>,
    /// The number of policies.
    pub policy_count: u64,
}

/// Writes what has to verify of each of so many certificates, and the policies.
pub(crate) fn write_path(
    found: &FoundPath,
    count: u64,
    verifications: &mut [VerificationAt],
    policies: &mut [u8],
    out: &mut PathAt,
    fault: &mut Fault,
) -> u32
    ensures { WritesPath found.now count verifications.old verifications.new policies.old policies.new out.new fault.old fault.new result }
{
    *out = PathAt {
        refused_index: count,
        policy_count: found.policy_count,
        policies_len: found.policies.len() as u64,
        step: 0,
        reserved: 0,
    };
    let (places, octets) = (found.verifications.len(), found.policies.len());
    if verifications.len() < places || policies.len() < octets {
        return refuse_call(SHORT_ROOM, fault);
    }
    verifications[..places].copy_from_slice(&found.verifications);
    policies[..octets].copy_from_slice(&found.policies);
    0
}

/// Writes why no path is valid, and returns the number of the error.
pub(crate) fn refuse_path(refusal: PathRefusal, out: &mut PathAt, fault: &mut Fault) -> u32
    ensures { WritesRefusal refusal out.new fault.new result }
{
    *out = PathAt {
        refused_index: refusal.index,
        policy_count: 0,
        policies_len: 0,
        step: refusal.step,
        reserved: 0,
    };
    *fault = refusal.fault;
    refusal.fault.number
}
