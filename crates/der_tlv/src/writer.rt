//! Writers of octets.

mod back;
mod slice;
mod vec;

ghost use Rattle.std.specs.Prelude.{◌≤◌, [], ◌∷◌, take};
ghost use Rattle.der_tlv.specs.Writing.{WriterState, Writes};

use crate::error::Error;
pub use back::{BackSlice, BackVec, BackWriter};
pub use slice::SliceWriter;
pub use vec::VecWriter;

/// A sink of octets.
///
/// After a refusal a writer holds what it held before, followed by a prefix of the octets that it
/// refused.
pub trait Writer {
    ghost state: { Self → WriterState };

    /// Writes these octets after those that it holds.
    ///
    /// # Errors
    /// The writer's own, if there is not enough space.
    fn write(&mut self, octets: &[u8]) -> Result<(), Error>
        ensures { Writes octets.now (state self.old) (state self.new) result };

    /// Writes one octet.
    ///
    /// # Errors
    /// As `write`.
    fn write_byte(&mut self, octet: u8) -> Result<(), Error>
        ensures { Writes (octet ∷ []) (state self.old) (state self.new) result }
    {
        self.write(&[octet])
    }

    /// Writes the first `len` octets of a block of eight. A writer may copy the whole block,
    /// which takes less time than copying a number of octets that is not known in advance.
    ///
    /// # Errors
    /// As `write`.
    fn write_front(&mut self, block: [u8; 8], len: usize) -> Result<(), Error>
        requires { len ≤ 8 }
        ensures { Writes (take len block) (state self.old) (state self.new) result }
    {
        self.write(&block[..len])
    }
}
