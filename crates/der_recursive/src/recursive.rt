//! Recursive types.

ghost use Rattle.std.specs.Prelude.{◌≡◌, ℕ, List, false};
ghost use Rattle.der_tlv.specs.Views.{slice_reader_state};
ghost use Rattle.der_recursive.specs.Held.{ReadsHeld};

use der_elem::Choice;
use der_tlv::{Error, SliceReader};
use std::alloc::Global;

/// A recursive type: its values hold octets of further values of the type, which are not read
/// with them.
pub trait Recursive: Choice {
    // the octets of each recursive component, in the order of the components
    ghost held: { Self → List (List ℕ) };

    /// Reads the value at the position of the reader, and returns the octets at this index among
    /// those that it holds, or none after the last.
    ///
    /// # Errors
    /// `ErrorKind::Failed` (17) on a failed reader; the first error in the octets, in reading
    /// order.
    fn read_held<'b>(
        alloc: Global,
        reader: &mut SliceReader<'b>,
        index: usize,
    ) -> Result<Option<&'b [u8]>, Error>
        ensures { ReadsHeld Self.Form held index
            (slice_reader_state reader.old) (slice_reader_state reader.new) result };

    ghost held_by_encoding: { (v w : Self) → Self.Form.encoding v ≡ Self.Form.encoding w
        → held v ≡ held w };

    ghost takes_no_memory: { Self.Form.TAKES_MEMORY ≡ false };
}
