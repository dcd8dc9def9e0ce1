//! Errors, their numbers and their texts.

mod texts;

ghost use Rattle.std.specs.Prelude.{◌≡◌, None};
ghost use Rattle.der_tlv.specs.ErrorNumber.{error_number};

use crate::length::Length;
use crate::tag::Tag;
use std::alloc::AllocError;

/// The kind of an error.
///
/// Each kind has a number from 1 to 17, in the order of the variants.
#[derive(Clone, Copy, Debug, PartialEq, Eq)]
pub enum ErrorKind {
    /// 1: memory ran out.
    Memory,
    /// 2: the octets end too soon. A read of n octets at position p needs p + n of them.
    Incomplete {
        /// The number of octets that are needed, from the beginning of the input.
        expected_len: Length,
        /// The number of octets that may be read now, from the beginning of the input.
        actual_len: Length,
    },
    /// 3: octets are left over after a value.
    TrailingData {
        /// The number of octets that were read.
        decoded: Length,
        /// The number of octets that are left.
        remaining: Length,
    },
    /// 4: another tag than expected.
    TagUnexpected {
        /// The expected tag, if only one tag may be here.
        expected: Option<Tag>,
        /// The tag in the input.
        actual: Tag,
    },
    /// 5: a tag that this layer does not know.
    TagUnknown {
        /// The first identifier octet.
        byte: u8,
    },
    /// 6: a tag number in base 128 that begins with a zero digit, is below 31 or exceeds
    /// 4294967295.
    TagNumberInvalid,
    /// 7: contents of a length that the type does not allow.
    Length {
        /// The type's tag.
        tag: Tag,
    },
    /// 8: an encoding of the value that is not the one that DER requires.
    Noncanonical {
        /// The type's tag.
        tag: Tag,
    },
    /// 9: a number of octets above 4294967295, or below 0.
    Overflow,
    /// 10: length octets that are not the fewest, or encode more than four octets can; more items
    /// or octets than fit.
    Overlength,
    /// 11: items of a set that are not in order.
    SetOrdering,
    /// 12: octets that are not UTF-8.
    Utf8,
    /// 13: contents that encode no value of the type.
    Value {
        /// The type's tag.
        tag: Tag,
    },
    /// 14: an invalid date or time.
    DateTime,
    /// 15: an invalid object identifier.
    OidMalformed,
    /// 16: an indefinite length.
    IndefiniteLength,
    /// 17: a reader or a writer that has refused before.
    Failed,
}

impl ErrorKind {
    /// Returns the number of the kind, 1 to 17.
    pub fn number(self) -> u8
        ensures { result ≡ error_number self }
    {
        match self {
            ErrorKind::Memory => 1,
            ErrorKind::Incomplete { .. } => 2,
            ErrorKind::TrailingData { .. } => 3,
            ErrorKind::TagUnexpected { .. } => 4,
            ErrorKind::TagUnknown { .. } => 5,
            ErrorKind::TagNumberInvalid => 6,
            ErrorKind::Length { .. } => 7,
            ErrorKind::Noncanonical { .. } => 8,
            ErrorKind::Overflow => 9,
            ErrorKind::Overlength => 10,
            ErrorKind::SetOrdering => 11,
            ErrorKind::Utf8 => 12,
            ErrorKind::Value { .. } => 13,
            ErrorKind::DateTime => 14,
            ErrorKind::OidMalformed => 15,
            ErrorKind::IndefiniteLength => 16,
            ErrorKind::Failed => 17,
        }
    }
}

/// An error, with its position in the input if that is known.
#[derive(Clone, Copy, Debug, PartialEq, Eq)]
pub struct Error {
    /// The kind of the error.
    pub kind: ErrorKind,
    /// The reader's position at the refusal, in octets from the beginning of the input.
    pub position: Option<Length>,
}

impl Error {
    /// Makes an error of this kind, with no position.
    pub fn from_kind(kind: ErrorKind) -> Error
        ensures kind { result.kind ≡ kind }
        ensures position { result.position ≡ None }
    {
        Error {
            kind,
            position: None,
        }
    }

    /// Returns the kind of the error.
    pub fn kind(self) -> ErrorKind
        ensures { result ≡ self.kind }
    {
        self.kind
    }

    /// Returns the reader's position at the refusal, if that is known.
    pub fn position(self) -> Option<Length>
        ensures { result ≡ self.position }
    {
        self.position
    }
}

impl From<AllocError> for Error {
    ghost use Rattle.std.specs.Prelude.{◌≡◌};
    ghost use Rattle.der_tlv.specs.ErrorNumber.{out_of_memory};

    ghost from_gives = { λ _ e. e ≡ out_of_memory };

    /// Makes `ErrorKind::Memory` (1), with no position.
    fn from(_refused: AllocError) -> Error {
        Error::from_kind(ErrorKind::Memory)
    }
}
