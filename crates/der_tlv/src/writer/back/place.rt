//! The offset down to which a buffer is filled from its end, and the gap before it.

ghost use Rattle.std.specs.Prelude.{◌≡◌, ◌+◌, ◌-◌, ◌≤◌, ◌<◌, ◌^◌, ◌++◌, ℕ, length, drop, false};
ghost use Rattle.der_tlv.specs.Writing.{Writes};

use crate::error::{Error, ErrorKind};

/// The state of a buffer that is filled from its end: the octets from `start` on are held. The
/// `gap` octets before them are open for writing in order, and `filled` of these were written;
/// `failed` says whether a write was refused.
#[derive(Debug, Drop)]
pub struct Place {
    pub start: usize,
    pub gap: usize,
    pub filled: usize,
    pub failed: bool,
    ghost filled_within: { filled ≤ gap },
    ghost gap_within: { gap ≤ start },
    ghost few: { start < 2 ^ 32 },
}

impl Place {
    ghost use Rattle.der_tlv.specs.Views.{place_state};

    /// Makes the `Place` at the end of a buffer of `len` octets.
    pub fn at_end(len: usize) -> Place
        requires { len < 2 ^ 32 }
        ensures start { result.start ≡ len }
        ensures gap { result.gap ≡ 0 }
    {
        Place {
            start: len,
            gap: 0,
            filled: 0,
            failed: false,
        }
    }

    /// Puts these octets before those that are held.
    #[inline]
    pub fn put(&mut self, buffer: &mut [u8], octets: &[u8])
        requires inside { self.old.start ≤ length buffer.old }
        requires fits { length octets.now ≤ self.old.start - self.old.gap }
        ensures held { drop self.new.start buffer.new ≡ octets.now ++ drop self.old.start buffer.old }
        ensures start { self.new.start + length octets.now ≡ self.old.start }
        ensures gap { self.new.gap ≡ self.old.gap }
    {
        let end = self.start;
        let start = end - octets.len();
        buffer[start..end].copy_from_slice(octets);
        self.start = start;
    }

    /// Puts the last `len` octets of a block before those that are held: the whole block is
    /// copied if it fits, and the octets at its front are then given up.
    #[inline(always)]
    pub fn put_end(&mut self, buffer: &mut [u8], block: [u8; 8], len: usize)
        requires few { len ≤ 8 }
        requires inside { self.old.start ≤ length buffer.old }
        requires fits { len ≤ self.old.start - self.old.gap }
        ensures held { drop self.new.start buffer.new
            ≡ drop (8 - len) block ++ drop self.old.start buffer.old }
        ensures start { self.new.start + len ≡ self.old.start }
        ensures gap { self.new.gap ≡ self.old.gap }
    {
        let end = self.start;
        if end < 8 {
            self.put(buffer, &block[8 - len..]);
            return;
        }
        buffer[end - 8..end].copy_from_slice(&block);
        self.start = end - len;
    }

    /// Opens a gap of `len` octets before those that are held.
    pub fn open_gap(&mut self, len: usize)
        requires closed { self.old.gap ≡ 0 }
        requires fits { len ≤ self.old.start }
        ensures start { self.new.start ≡ self.old.start }
        ensures gap { self.new.gap ≡ len }
        ensures filled { self.new.filled ≡ 0 }
        ensures ready { self.new.failed ≡ false }
    {
        self.gap = len;
        self.filled = 0;
        self.failed = false;
    }

    /// Adds the octets of the gap to those that are held.
    pub fn close_gap(&mut self)
        ensures start { self.new.start ≡ self.old.start - self.old.gap }
        ensures gap { self.new.gap ≡ 0 }
    {
        let start = self.start - self.gap;
        self.filled = 0;
        self.gap = 0;
        self.start = start;
    }

    /// Writes these octets into the gap, after those that were written there.
    ///
    /// # Errors
    /// `ErrorKind::Overlength` (10) if the gap has fewer octets left; `ErrorKind::Failed` (17)
    /// after that.
    pub fn write(&mut self, buffer: &mut [u8], octets: &[u8]) -> Result<(), Error>
        requires { self.old.start ≤ length buffer.old }
        ensures written { (origin : ℕ × ℕ) → Writes octets.now (place_state origin buffer.old self.old)
            (place_state origin buffer.new self.new) result }
        ensures start { self.new.start ≡ self.old.start }
    {
        if self.failed {
            return Err(Error::from_kind(ErrorKind::Failed));
        }
        if octets.len() > self.gap - self.filled {
            self.failed = true;
            return Err(Error::from_kind(ErrorKind::Overlength));
        }
        let from = self.start - self.gap + self.filled;
        let end = from + octets.len();
        buffer[from..end].copy_from_slice(octets);
        self.filled += octets.len();
        Ok(())
    }
}
