//! The source of a reader: the octets of an input, and a cursor in them.

ghost use Rattle.std.specs.Prelude.{◌≡◌, ◌≤◌, length, true};
ghost use Rattle.der_tlv.specs.ReaderState.{ReaderState, IsReaderState, with_cursor};

use crate::encoding_rules::EncodingRules;

/// The position and the state of a reader in its input.
#[derive(Clone, Copy, Debug, PartialEq, Eq)]
pub struct Cursor {
    /// The number of octets before the position.
    pub position: u32,
    /// The number of octets of the input before the end of what is shown.
    pub end: u32,
    /// Whether a call has refused.
    pub failed: bool,
    /// The rules that the reader follows.
    pub rules: EncodingRules,
}

/// A source of octets: an input in memory, of at most 4294967295 octets, and a cursor in it.
///
/// Every source is a `Reader`. A function that reads a value requires only a source.
pub trait Source<'a> {
    ghost state: { Self → ReaderState };

    /// Returns the whole input.
    fn octets(&self) -> &'a [u8]
        ensures { result.now ≡ (state self.now).input };

    /// Returns the cursor.
    fn cursor(&self) -> Cursor
        ensures position { result.position ≡ (state self.now).position }
        ensures end { result.end ≡ (state self.now).end }
        ensures failed { result.failed ≡ (state self.now).failed }
        ensures rules { result.rules ≡ (state self.now).rules };

    /// Moves the source to this cursor. A source that has failed stays failed, and the rules
    /// stay.
    fn set_cursor(&mut self, cursor: Cursor)
        requires ordered { cursor.position ≤ cursor.end }
        requires inside { cursor.end ≤ length (state self.old).input }
        requires stays { (state self.old).failed ≡ true → cursor.failed ≡ true }
        requires rules { cursor.rules ≡ (state self.old).rules }
        ensures { state self.new ≡ with_cursor (state self.old) cursor };

    ghost sound: { (s : Self) → IsReaderState (state s) };
}
