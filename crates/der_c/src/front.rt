//! Values at the front of octets.

ghost use Rattle.std.specs.Prelude.{IfErr, IfOk, ◌≤◌, length};
ghost use Rattle.der_c.specs.Answers.{FrontRead, FrontRefused};

use der_elem::{Decode, Form};
use der_tlv::{Error, Reader, SliceReader};
use std::alloc::Global;

/// Reads a value from the front of the octets, and returns it with its length.
pub(crate) fn read_front<'a, T: Decode<'a, SliceReader<'a>>>(
    alloc: Global,
    octets: &'a [u8],
) -> Result<(T, u32), Error>
    ensures ok { IfOk result (λ r. FrontRead T.Form octets.now r.0 r.1) }
    ensures within { IfOk result (λ r. r.1 ≤ length octets.now) }
    ensures err { IfErr result (λ e. FrontRefused T.Form octets.now e.kind) }
{
    let mut reader = match SliceReader::new(octets) {
        Ok(reader) => reader,
        Err(error) => return Err(error),
    };
    match T::decode(alloc, &mut reader) {
        Ok(value) => Ok((value, reader.position().value())),
        Err(error) => Err(error),
    }
}
