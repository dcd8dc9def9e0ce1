//! Whether reading takes memory: the constant `TAKES_MEMORY`.
//!
//! If it is false, reading never refuses with (1). A type sets it in its
//! [`DecodeValue`](crate::DecodeValue) or [`Decode`].

ghost use Rattle.std.specs.Prelude.{Bool};

use crate::decode::Decode;
use der_tlv::SliceReader;

/// The constant that says whether reading takes memory, for every type that is read.
pub trait TakesMemory<'a> {
    ghost TAKES_MEMORY: { Bool };

    /// Whether reading takes memory: if it is false, no reading refuses with
    /// `ErrorKind::Memory` (1).
    const TAKES_MEMORY: bool;
}

impl<'a, T: Decode<'a, SliceReader<'a>>> TakesMemory<'a> for T {
    ghost TAKES_MEMORY = { T.Form.TAKES_MEMORY };

    const TAKES_MEMORY: bool = <T as Decode<'a, SliceReader<'a>>>::TAKES_MEMORY;
}
