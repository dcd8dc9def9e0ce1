//! Readers of octets.

mod calls;
mod slice;
mod source;

ghost use Rattle.std.specs.Prelude.{◌≡◌, ◌-◌, ◌≤◌, ◌↔◌, [], length, take, false, IfOk, IfErr, IsTrue};
ghost use Rattle.der_tlv.specs.ReaderState.{rest, after_fault, after_rewind};
ghost use Rattle.der_tlv.specs.Reading.{ReadsOctet, OctetsRead, OctetsRefused, Nests, Unnests};

use crate::encoding_rules::EncodingRules;
use crate::error::{Error, ErrorKind};
use crate::length::Length;
pub use slice::SliceReader;
pub use source::{Cursor, Source};

/// The calls that read octets from a source, which every source has. A source has a position, and
/// shows the octets up to an end.
///
/// A reader fails when a call refuses. After that every call that reads, nests or unnests refuses
/// (`ErrorKind::Failed`, 17), and `position`, `remaining_len` and `is_finished` keep their
/// results.
pub trait Reader<'a>: Source<'a> {
    /// Reads one octet.
    ///
    /// # Errors
    /// `ErrorKind::Failed` (17) on a failed reader. If no octet is left:
    /// `ErrorKind::Incomplete` (2), or `ErrorKind::Overflow` (9) if the position is the greatest
    /// length.
    fn read_byte(&mut self) -> Result<u8, Error>
        ensures { ReadsOctet (Self.state self.old) (Self.state self.new) result };

    /// Reads `len` octets, and returns them as they are in the input.
    ///
    /// # Errors
    /// `ErrorKind::Failed` (17) on a failed reader. If fewer octets are left:
    /// `ErrorKind::Incomplete` (2), or `ErrorKind::Overflow` (9) if the position plus `len`
    /// exceeds the greatest length.
    fn read_slice(&mut self, len: Length) -> Result<&'a [u8], Error>
        ensures ok { IfOk result (λ octets.
            OctetsRead (Self.state self.old) (Self.state self.new) len octets.now) }
        ensures err { IfErr result
            (λ e. OctetsRefused (Self.state self.old) (Self.state self.new) len e.kind) };

    /// Reads `len` octets, at most eight, and returns them at the front of a block. A reader may
    /// copy eight octets of the input, which takes less time than copying a number of octets that
    /// is not known in advance.
    ///
    /// # Errors
    /// As `read_slice`.
    fn read_front(&mut self, len: Length) -> Result<[u8; 8], Error>
        requires { len ≤ 8 }
        ensures ok { IfOk result (λ block.
            OctetsRead (Self.state self.old) (Self.state self.new) len (take len block)) }
        ensures err { IfErr result
            (λ e. OctetsRefused (Self.state self.old) (Self.state self.new) len e.kind) };

    /// Fills the buffer with the next octets, and returns the buffer.
    ///
    /// # Errors
    /// As `read_slice`.
    fn read_into<'b>(&mut self, buffer: &'b mut [u8]) -> Result<&'b [u8], Error>
        ensures start { IfOk result (λ octets. octets.ref_ptr ≡ buffer.entry.ref_ptr) }
        ensures ok { IfOk result (λ octets.
            OctetsRead (Self.state self.old) (Self.state self.new) (length buffer.entry.now) octets.now) }
        ensures err { IfErr result (λ e.
            OctetsRefused (Self.state self.old) (Self.state self.new) (length buffer.entry.now) e.kind) };

    /// Limits reading to the next `len` octets, and returns the former end, for `unnest`.
    ///
    /// # Errors
    /// As `read_slice`.
    fn nest(&mut self, len: Length) -> Result<Length, Error>
        ensures { Nests (Self.state self.old) (Self.state self.new) len result };

    /// Restores the end that `nest` returned.
    ///
    /// # Errors
    /// `ErrorKind::Failed` (17) on a failed reader; `ErrorKind::TrailingData` (3) if octets are
    /// left before the current end; `ErrorKind::Overflow` (9) if the end to be restored is before
    /// the current end, or after the input.
    fn unnest(&mut self, end: Length) -> Result<(), Error>
        ensures { Unnests (Self.state self.old) (Self.state self.new) end result };

    /// Goes back to an earlier position.
    fn rewind(&mut self, position: Length)
        requires ready { (Self.state self.old).failed ≡ false }
        requires behind { position ≤ (Self.state self.old).position }
        ensures { Self.state self.new ≡ after_rewind (Self.state self.old) position };

    /// Returns whether no octet is left before the end.
    fn is_finished(&self) -> bool
        ensures { IsTrue result ↔ (rest (Self.state self.now) ≡ []) };

    /// Returns the number of octets before the position.
    fn position(&self) -> Length
        ensures { result ≡ (Self.state self.now).position };

    /// Returns the number of octets that are left before the end.
    fn remaining_len(&self) -> Length
        ensures { result ≡ (Self.state self.now).end - (Self.state self.now).position };

    /// Returns the rules that the reader follows.
    fn encoding_rules(&self) -> EncodingRules
        ensures { result ≡ (Self.state self.now).rules };

    /// Marks the reader as failed, and returns an error of this kind at its position.
    fn error(&mut self, kind: ErrorKind) -> Error
        ensures kind { result.kind ≡ kind }
        ensures position { result.position ≡ Some (Self.state self.old).position }
        ensures failed { Self.state self.new ≡ after_fault (Self.state self.old) };
}
