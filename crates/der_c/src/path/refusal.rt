//! Why no path is valid, as numbers.

ghost use Rattle.std.specs.Prelude.{◌≡◌};
ghost use Rattle.der_c.specs.Answers.{fault_of_call};
ghost use Rattle.der_c.specs.ChainFaults.{number_of_step, refusal_at, refusal_of, IsOverflow};

use crate::fault::{Fault, fault_of, fault_of_call};
use der_path::{PathError, Step};
use der_tlv::{Error, ErrorKind};

/// Memory ran out.
const MEMORY: u32 = 1;

/// A step refuses a certificate.
const STEP_REFUSES: u32 = 104;

/// An extension stands twice, or its value cannot be read.
const UNREAD: u32 = 105;

/// The chain has no certificate.
const EMPTY: u32 = 106;

/// Why no path is valid.
#[derive(Clone, Copy, Debug, PartialEq, Eq)]
pub struct PathRefusal {
    /// The error.
    pub fault: Fault,
    /// The index of the certificate that is refused; the number of certificates if none of them is.
    pub index: u64,
    /// The number of the step that refuses it, or 0.
    pub step: u32,
}

/// Returns the refusal of the certificate at an index; or, with their number for the index, of
/// none of the certificates.
pub(crate) fn refusal_at(fault: Fault, at: usize) -> PathRefusal
    ensures { result ≡ refusal_at fault at }
{
    PathRefusal {
        fault,
        index: at as u64,
        step: 0,
    }
}

/// Returns the refusal for want of memory, of so many certificates.
pub(crate) fn memory_ran_out(count: usize) -> PathRefusal
    ensures { result ≡ refusal_at (fault_of_call 1) count }
{
    refusal_at(fault_of_call(MEMORY), count)
}

/// Returns the refusal of more octets than a length can count.
pub(crate) fn too_many_octets(count: usize) -> PathRefusal
    ensures { IsOverflow count result }
{
    refusal_at(fault_of(Error::from_kind(ErrorKind::Overflow)), count)
}

/// Returns the refusal for an error of validation, of so many certificates.
pub(crate) fn refusal_of(error: PathError, count: usize) -> PathRefusal
    ensures { result ≡ refusal_of error count }
{
    match error {
        PathError::Memory => memory_ran_out(count),
        PathError::Empty => refusal_at(fault_of_call(EMPTY), count),
        PathError::NotRead(at, error) => refusal_at(fault_of(error), at),
        PathError::Unread(at) => refusal_at(fault_of_call(UNREAD), at),
        PathError::Refused(at, step) => PathRefusal {
            fault: fault_of_call(STEP_REFUSES),
            index: at as u64,
            step: number_of_step(step),
        },
    }
}

/// Returns the number of a step.
fn number_of_step(step: Step) -> u32
    ensures { result ≡ number_of_step step }
{
    match step {
        Step::Validity => 1,
        Step::Issuer => 2,
        Step::Permitted => 3,
        Step::Excluded => 4,
        Step::Policies => 5,
        Step::AnyPolicyIsMapped => 6,
        Step::Ca => 7,
        Step::PathLength => 8,
        Step::KeyUsage => 9,
        Step::UnknownExtension => 10,
        Step::UnknownExtensionAtEnd => 11,
        Step::UserPolicies => 12,
    }
}
