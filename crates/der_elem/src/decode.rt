//! Reading values.

ghost use Rattle.std.specs.Prelude.{◌≡◌, length, Bool};
ghost use Rattle.der_tlv.specs.ReaderState.{rest};
ghost use Rattle.der_tlv.specs.Reading.{Stands};
ghost use Rattle.der_elem.specs.Decoding.{Decodes, DecodesValue, ReadsAll};

use crate::form::{Form, FormValue};
use der_tlv::{Error, Header, SliceReader, Source};
use std::alloc::Global;

/// Reading a value from its contents octets.
pub trait DecodeValue<'a, R: Source<'a>>: FormValue {
    ghost TAKES_MEMORY: { Bool };

    /// Whether reading the contents octets takes memory.
    const TAKES_MEMORY: bool;

    /// Reads the value from all the octets that the reader shows; the header gives their number.
    ///
    /// # Errors
    /// `ErrorKind::Failed` (17) on a failed reader; the first error of the contents octets, in
    /// the order of the type; `ErrorKind::Memory` (1) only if the type takes memory, and for a
    /// type that finds every error first only if the octets have none. If the header gives
    /// another length than the reader shows, the value may be any, and a refusal leaves the
    /// reader as every other refusal does.
    fn decode_value(alloc: Global, reader: &mut R, header: Header) -> Result<Self, Error>
        ensures exact { length (rest (R.state reader.old)) ≡ header.length
            → DecodesValue Self.value header (R.state reader.old) (R.state reader.new) result }
        ensures reader { Stands (R.state reader.old) (R.state reader.new) result };

    ghost takes_memory_is: { Self.DecodeValue.TAKES_MEMORY ≡ Self.value.TAKES_MEMORY };
}

/// Reading a value from its encoding.
pub trait Decode<'a, R: Source<'a>>: Form {
    ghost TAKES_MEMORY: { Bool };

    /// Whether reading the encoding takes memory.
    const TAKES_MEMORY: bool;

    /// Reads the value whose encoding is at the reader's position.
    ///
    /// # Errors
    /// `ErrorKind::Failed` (17) on a failed reader; the first error of the octets, in reading
    /// order; `ErrorKind::Memory` (1) only if the type takes memory, and for a type that finds
    /// every error first only if the octets have none.
    fn decode(alloc: Global, reader: &mut R) -> Result<Self, Error>
        ensures { Decodes Self.Form (R.state reader.old) (R.state reader.new) result };

    ghost takes_memory_is: { Self.Decode.TAKES_MEMORY ≡ Self.Form.TAKES_MEMORY };
}

/// Reading a value from octets that are its encoding and nothing else, under DER.
pub trait FromDer<'a>: Form {
    /// Returns the value that these octets encode.
    ///
    /// # Errors
    /// `ErrorKind::Overflow` (9) for more than 4294967295 octets; the first error of the octets,
    /// in reading order; `ErrorKind::TrailingData` (3) if octets are left over;
    /// `ErrorKind::Memory` (1) only if the type takes memory, and for a type that finds every
    /// error first only if the octets have no error of the value.
    fn from_der(alloc: Global, bytes: &'a [u8]) -> Result<Self, Error>
        ensures { ReadsAll Self.Form bytes.now result };
}
