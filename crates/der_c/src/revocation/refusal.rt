//! Why a list or an answer does not tell the status of a certificate, as numbers.

ghost use Rattle.std.specs.Prelude.{◌≡◌};
ghost use Rattle.der_c.specs.Answers.{fault_of_call};
ghost use Rattle.der_c.specs.StatusRefusals.{no_status, refusal_of_answer, refusal_of_list};

use crate::fault::{Fault, fault_of_call};
use crate::revocation::numbers::{number_of_list_step, number_of_ocsp_step};
use der_path::{ListError, OcspError};

/// Memory ran out.
const MEMORY: u32 = 1;

/// An extension of the certificate stands twice, or its value cannot be read.
const UNREAD: u32 = 105;

/// A step refuses the list.
const LIST_REFUSED: u32 = 107;

/// A step refuses the answer.
const ANSWER_REFUSED: u32 = 108;

/// An extension of the list stands twice, or its value cannot be read.
const LIST_UNREAD: u32 = 109;

/// Why there is no status.
#[derive(Clone, Copy, Debug, PartialEq, Eq)]
pub struct StatusRefusal {
    /// The error.
    pub fault: Fault,
    /// The number of the step that refuses the list or the answer, or 0.
    pub step: u32,
}

/// Returns the refusal for an error that is of no step.
pub(crate) fn no_status(fault: Fault) -> StatusRefusal
    ensures { result ≡ no_status fault }
{
    StatusRefusal { fault, step: 0 }
}

/// Returns the refusal for want of memory.
pub(crate) fn memory_ran_out() -> StatusRefusal
    ensures { result ≡ no_status (fault_of_call 1) }
{
    no_status(fault_of_call(MEMORY))
}

/// Returns the refusal for an error of a list.
pub(crate) fn refusal_of_list(error: ListError) -> StatusRefusal
    ensures { result ≡ refusal_of_list error }
{
    match error {
        ListError::Memory => memory_ran_out(),
        ListError::UnreadCertificate => no_status(fault_of_call(UNREAD)),
        ListError::UnreadList => no_status(fault_of_call(LIST_UNREAD)),
        ListError::Refused(step) => StatusRefusal {
            fault: fault_of_call(LIST_REFUSED),
            step: number_of_list_step(step),
        },
    }
}

/// Returns the refusal for an error of an answer.
pub(crate) fn refusal_of_answer(error: OcspError) -> StatusRefusal
    ensures { result ≡ refusal_of_answer error }
{
    match error {
        OcspError::Memory => memory_ran_out(),
        OcspError::Refused(step) => StatusRefusal {
            fault: fault_of_call(ANSWER_REFUSED),
            step: number_of_ocsp_step(step),
        },
    }
}
