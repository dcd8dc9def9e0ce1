//! The canonical encoding of a value by the name of its type.

ghost use Rattle.der_c.specs.Names.{type_named};
ghost use Rattle.der_c.specs.Rooms.{AnswersNamed};

use crate::fault::{Fault, UNKNOWN_NAME, refuse, refuse_call};
use crate::room::fill;
use certview_names::MessageNames;
use der_lines::{KeptWriter, Names};
use der_tlv::Error;
use derview_names::TypeNames;
use std::alloc::Global;

/// Reads all octets as a value of the type with a name, and writes the canonical encoding to the
/// front of a buffer, and its length. The names are those of `derview` and of `certview lines`
/// (`docs/FORMAT.md`).
///
/// The encoding is the octets that were read, except for the types of sets that are read in any
/// order and written in order.
///
/// Returns 0; the number of the first error, 1 if memory runs out, or 102 if no type has the
/// name, with the buffer and the count unchanged; or 103 if the buffer is too short, with the
/// length that it should have in the count.
///
/// For a type that takes no memory to be read, the result is 1 only if the octets encode a value.
#[unsafe(no_mangle)]
pub extern "C" fn der_canonical(
    alloc: Global,
    name: &[u8],
    octets: &[u8],
    room: &mut [u8],
    count: &mut usize,
    fault: &mut Fault,
) -> u32
    ensures { AnswersNamed (type_named name.now) octets.now room.old room.new count.old count.new fault.old fault.new result }
{
    write_named::<AllNames>(alloc, name, octets, room, count, fault)
}

/// Writes the canonical encoding by the types of a table.
fn write_named<N: Names>(
    alloc: Global,
    name: &[u8],
    octets: &[u8],
    room: &mut [u8],
    count: &mut usize,
    fault: &mut Fault,
) -> u32
    ensures { AnswersNamed (N.table name.now) octets.now room.old room.new count.old count.new fault.old fault.new result }
{
    let mut encoding = KeptWriter::new(alloc);
    match N::put_canonical_of_name(alloc, name, octets, &mut encoding) {
        None => refuse_call(UNKNOWN_NAME, fault),
        Some(Ok(())) => fill(&encoding.octets, room, count, fault),
        Some(Err(error)) => refuse(error, fault),
    }
}

/// The names of messages and of the types of `der_asn1_types`.
struct AllNames;

impl Names for AllNames {
    ghost table = { type_named };

    #[tactic(auto, unfolding(crate::specs::Names::type_named))]
    fn put_canonical_of_name(
        alloc: Global,
        name: &[u8],
        octets: &[u8],
        encoding: &mut KeptWriter,
    ) -> Option<Result<(), Error>> {
        match MessageNames::put_canonical_of_name(alloc, name, octets, encoding) {
            Some(result) => Some(result),
            None => TypeNames::put_canonical_of_name(alloc, name, octets, encoding),
        }
    }
}
