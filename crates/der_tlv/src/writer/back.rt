//! Writers that are filled from their end.

mod place;
mod slice;
mod vec;

ghost use Rattle.std.specs.Prelude.{◌≡◌, ◌-◌, ◌≤◌, length, drop};
ghost use Rattle.der_tlv.specs.WritingBack.{Put, Opened, Closed};

use crate::length::Length;
use crate::writer::Writer;
pub use slice::BackSlice;
pub use vec::BackVec;

/// A sink of octets that is filled from its end: octets that are put later are before those that
/// it holds.
///
/// This writes a value in one pass although its length octets are before its contents octets: the
/// contents octets are put first, and then the header, whose length is the difference of `room`.
/// The caller makes sure that `room` is large enough, so no call of this trait refuses for lack
/// of space.
///
/// Octets that are written in their order go into a gap: `open_gap` leaves it, the calls of
/// `Writer` fill it, and `close_gap` adds it to what is held.
pub trait BackWriter: Writer {
    /// Returns the number of octets that it still takes.
    fn room(&self) -> Length
        ensures { result ≡ (Self.state self.now).back.room };

    /// Puts these octets before those that it holds.
    fn put(&mut self, octets: &[u8])
        requires { length octets.now ≤ (Self.state self.old).back.room }
        ensures { Put octets.now (Self.state self.old) (Self.state self.new) };

    /// Puts the last `len` octets of a block of eight before those that it holds. A writer may
    /// copy the whole block, which takes less time than copying a number of octets that is not
    /// known in advance.
    fn put_end(&mut self, block: [u8; 8], len: usize)
        requires few { len ≤ 8 }
        requires fits { len ≤ (Self.state self.old).back.room }
        ensures { Put (drop (8 - len) block) (Self.state self.old) (Self.state self.new) }
    {
        self.put(&block[8 - len..]);
    }

    /// Leaves a gap of `len` octets before those that it holds, for the calls that write in
    /// order.
    fn open_gap(&mut self, len: Length)
        requires closed { (Self.state self.old).back.gap ≡ 0 }
        requires fits { len ≤ (Self.state self.old).back.room }
        ensures { Opened len (Self.state self.old) (Self.state self.new) };

    /// Adds the octets of the gap, which is full, to those that it holds.
    fn close_gap(&mut self)
        requires { length (Self.state self.old).taken ≡ (Self.state self.old).back.gap }
        ensures { Closed (Self.state self.old) (Self.state self.new) };
}
