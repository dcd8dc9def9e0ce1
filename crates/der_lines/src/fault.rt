//! The reason why a run stops.
ghost use Rattle.std.specs.Prelude.{◌≡◌, Some};
ghost use Rattle.der_lines.specs.declared.fault.Fault.TheVariants.{Memory};

use std::alloc::AllocError;
use std::fmt;

/// The reason why a run stops before the end of its input.
#[derive(Clone, Copy, Debug, PartialEq, Eq)]
pub enum Fault {
    /// A read failed, or there are more lines than may be read.
    Input,
    /// A write failed, or took no octet.
    Output,
    /// Memory ran out.
    Memory,
}

impl From<AllocError> for Fault {
    ghost from_gives = { λ _ fault. fault ≡ Memory };

    fn from(_: AllocError) -> Fault {
        Fault::Memory
    }
}

impl fmt::Display for Fault {
    ghost use Rattle.der_lines.specs.Fault.{text_of};

    ghost output = { λ fault. Some (text_of fault) };

    fn fmt<W: fmt::Write>(&self, f: &mut fmt::Formatter<W>) -> fmt::Result {
        match self {
            Fault::Input => write!(f, "input failed"),
            Fault::Output => write!(f, "output failed"),
            Fault::Memory => write!(f, "out of memory"),
        }
    }
}
