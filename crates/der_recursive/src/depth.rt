//! Checking values to a depth.

ghost use Rattle.std.specs.Prelude.{◌≡◌, ◌↔◌, [], false, IsOk, IfErr};
ghost use Rattle.der_tlv.specs.ReaderState.{rest};
ghost use Rattle.der_tlv.specs.Views.{slice_reader_state};
ghost use Rattle.der_tlv.specs.declared.error.ErrorKind.TheVariants.{Overlength};
ghost use Rattle.der_tlv.specs.declared.encoding_rules.EncodingRules.TheVariants.{Der};
ghost use Rattle.der_recursive.specs.Checking.{ChecksDepth};
ghost use Rattle.der_recursive.specs.CheckingNext.{ChecksNext};

use crate::recursive::Recursive;
use der_tlv::{Error, ErrorKind, Reader, SliceReader};
use std::alloc::Global;

/// Checks that octets are values of a recursive type, one after another, to a depth: a value in
/// the octets is at depth 1, and a value in the octets that it holds is at depth 2.
///
/// It takes no memory, and two frames of the stack for each level that the octets reach. So the
/// depth must be a number of levels for which the stack is large enough, such as 64.
///
/// # Errors
/// The first error in reading order: a value, then the octets that it holds, then the next value.
/// Its position is in these octets; for an error in the octets that a value holds, it is after
/// that value. `ErrorKind::Overflow` (9) for more than 4294967295 octets; `ErrorKind::Overlength`
/// (10) for octets below the depth, which are not read; the errors of a value, where the numbers
/// in `ErrorKind::Incomplete` (2) count from the beginning of its component.
#[cycle(depth)]
pub fn check_depth<T: Recursive>(alloc: Global, octets: &[u8], depth: u32) -> Result<(), Error>
    ensures { ChecksDepth T.Form T.held depth octets.now result }
{
    let mut reader = match SliceReader::new(octets) {
        Ok(reader) => reader,
        Err(e) => return Err(e),
    };
    if depth == 0 {
        return none_left(&mut reader);
    }
    'values: while !reader.is_finished() {
        check_next::<T>(alloc, &mut reader, depth - 1)?;
    }
    Ok(())
}

/// Checks that a value is at the position of the reader, and that the octets that it holds are
/// values to a depth. The value is read once more for each recursive component.
#[cycle(depth)]
fn check_next<T: Recursive>(
    alloc: Global,
    reader: &mut SliceReader<'_>,
    depth: u32,
) -> Result<(), Error>
    requires ready { (slice_reader_state reader.old).failed ≡ false }
    requires rules { (slice_reader_state reader.old).rules ≡ Der }
    ensures { ChecksNext T.Form T.held depth
        (slice_reader_state reader.old) (slice_reader_state reader.new) result }
{
    let start = reader.position();
    let mut index = 0;
    'held: loop {
        let octets = match T::read_held(alloc, reader, index)? {
            Some(octets) => octets,
            None => return Ok(()),
        };
        match check_depth::<T>(alloc, octets, depth) {
            Ok(()) => reader.rewind(start),
            Err(e) => return Err(reader.error(e.kind())),
        }
        index += 1;
    }
}

/// Checks that a reader has no octets left where no value is allowed.
fn none_left(reader: &mut SliceReader<'_>) -> Result<(), Error>
    ensures ok { IsOk result ↔ (rest (slice_reader_state reader.old) ≡ []) }
    ensures err { IfErr result (λ e. e.kind ≡ Overlength) }
{
    if reader.is_finished() {
        return Ok(());
    }
    Err(reader.error(ErrorKind::Overlength))
}
