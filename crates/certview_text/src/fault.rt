//! The reasons why nothing is printed.

ghost use Rattle.std.specs.Prelude.{◌≡◌};
ghost use Rattle.certview_text.specs.declared.fault.Fault.TheVariants.{Memory};
ghost use Rattle.der_asn1_types.specs.ErrorNumber.{error_number};

use crate::kind::Kind;
use crate::label::Label;
use crate::path::{Path, path_of};
use certview_parts::early::EARLY;
use certview_parts::encoding_rules::words_of_ber;
use der_asn1_types::{Error, ErrorKind};
use std::alloc::AllocError;
use std::fmt;

/// The text before the words of a refusal.
const REFUSED: &str = "refused: ";

/// The reason why a message is not printed, or not printed to its end.
#[derive(Clone, Copy, Debug, PartialEq, Eq)]
pub enum Fault {
    /// The octets are no message of their kind: the first error in them, and the field that
    /// contains it.
    Refused(Error, Path),
    /// The input is empty.
    Empty,
    /// The octets are no PEM text, and do not begin as a message in DER does.
    NoMessage,
    /// A block of PEM text has an unknown label.
    UnknownLabel(Label),
    /// A block of PEM text is encrypted (RFC 1421 section 4.6.1.1).
    Encrypted,
    /// A block of PEM text is not ended by a line with its label.
    NoEnd,
    /// The body of a block of PEM text is no Base64.
    NoBase64,
    /// The name of the file is no UTF-8, so the file cannot be opened.
    Name,
    /// A read failed.
    Input,
    /// A write failed.
    Output,
    /// An allocation failed.
    Memory,
}

impl Fault {
    /// Returns the exit status: 1 for refused octets, 2 for a failure of the machine.
    pub fn status(self) -> u8 {
        match self {
            Fault::Name | Fault::Input | Fault::Output | Fault::Memory => 2,
            _ => 1,
        }
    }

    /// Returns the text before the words of a fault without a number.
    pub fn prefix(self) -> &'static str {
        match self {
            Fault::Name | Fault::Input | Fault::Output | Fault::Memory => "",
            _ => REFUSED,
        }
    }
}

/// Returns the fault for an error in octets: `Memory` if memory ran out, otherwise `Refused`.
pub fn refusal(kind: Kind, octets: &[u8], error: Error) -> Fault {
    match error.kind {
        ErrorKind::Memory => Fault::Memory,
        _ => Fault::Refused(error, path_of(octets, kind, &error)),
    }
}

impl From<AllocError> for Fault {
    ghost from_gives = { λ _ fault. fault ≡ Memory };

    fn from(_: AllocError) -> Fault {
        Fault::Memory
    }
}

/// Writes the words of an error. A time before 1970 has words of its own.
fn write_words<W: fmt::Write>(
    f: &mut fmt::Formatter<W>,
    error: &Error,
    is_early: bool,
) -> fmt::Result {
    if is_early {
        return f.write_str(EARLY);
    }
    let kind = error.kind();
    write!(f, "{kind}")?;
    f.write_str(words_of_ber(&error.kind))
}

/// Writes the position of an error, if it has one.
fn write_position<W: fmt::Write>(f: &mut fmt::Formatter<W>, error: &Error) -> fmt::Result {
    match error.position {
        Some(position) => write!(f, ", at position {position}"),
        None => Ok(()),
    }
}

impl fmt::Display for Fault {
    fn fmt<W: fmt::Write>(&self, f: &mut fmt::Formatter<W>) -> fmt::Result {
        match *self {
            Fault::Refused(error, path) => {
                let number = error.kind().number();
                write!(f, "refused ({number}): ")?;
                write_words(f, &error, path.is_early)?;
                write_position(f, &error)?;
                write!(f, "{path}")
            }
            Fault::Empty => write!(f, "{REFUSED}the input is empty"),
            Fault::NoMessage => write!(f, "{REFUSED}it is neither DER nor PEM text"),
            Fault::UnknownLabel(label) => write!(f, "{REFUSED}{label} is not known"),
            Fault::Encrypted => write!(f, "{REFUSED}it is encrypted"),
            Fault::NoEnd => write!(f, "{REFUSED}no line ends the block of PEM text"),
            Fault::NoBase64 => write!(f, "{REFUSED}what stands in the block is no Base64"),
            Fault::Name => write!(f, "its name is no UTF-8, and such a file is not opened"),
            Fault::Input => write!(f, "input failed"),
            Fault::Output => write!(f, "output failed"),
            Fault::Memory => write!(f, "out of memory"),
        }
    }
}
