//! A reader of octets in memory.

ghost use Rattle.std.specs.Prelude.{⊤, ◌≡◌, ◌↔◌, ◌^◌, ◌<◌, ◌≤◌, length, IsOk, IfOk, IfErr, true};
ghost use Rattle.der_tlv.specs.ReaderState.{new_reader, finish_fault, can_finish};
ghost use Rattle.der_tlv.specs.declared.error.ErrorKind.TheVariants.{Overflow};
ghost use Rattle.der_tlv.specs.declared.encoding_rules.EncodingRules.{EncodingRules};
ghost use Rattle.der_tlv.specs.declared.encoding_rules.EncodingRules.TheVariants.{Der};

use crate::encoding_rules::EncodingRules;
use crate::error::{Error, ErrorKind};
use crate::length::Length;
use crate::reader::source::{Cursor, Source};
use std::alloc::AllocError;

/// A reader of octets in memory, which it returns unchanged.
#[derive(Debug, Drop)]
pub struct SliceReader<'a> {
    bytes: &'a [u8],
    cursor: Cursor,
    ghost short: { length bytes.now < 2 ^ 32 },
    ghost ordered: { cursor.position ≤ cursor.end },
    ghost inside: { cursor.end ≤ length bytes.now },
}

impl<'a> SliceReader<'a> {
    ghost use Rattle.der_tlv.specs.Views.{slice_reader_state};

    /// Makes a reader of all the octets, under DER.
    ///
    /// # Errors
    /// `ErrorKind::Overflow` (9) for more than 4294967295 octets.
    pub fn new(bytes: &'a [u8]) -> Result<SliceReader<'a>, Error>
        ensures ok { IsOk result ↔ (length bytes.now < 2 ^ 32) }
        ensures state { IfOk result (λ r. slice_reader_state r ≡ new_reader bytes.now Der) }
        ensures err { IfErr result (λ e. e.kind ≡ Overflow) }
    {
        SliceReader::new_with_encoding_rules(bytes, EncodingRules::Der)
    }

    /// Makes a reader of all the octets, under these rules.
    ///
    /// # Errors
    /// `ErrorKind::Overflow` (9) for more than 4294967295 octets.
    pub fn new_with_encoding_rules(
        bytes: &'a [u8],
        rules: EncodingRules,
    ) -> Result<SliceReader<'a>, Error>
        ensures ok { IsOk result ↔ (length bytes.now < 2 ^ 32) }
        ensures state { IfOk result (λ r. slice_reader_state r ≡ new_reader bytes.now rules) }
        ensures err { IfErr result (λ e. e.kind ≡ Overflow) }
    {
        if bytes.len() > 0xffff_ffff {
            return Err(Error::from_kind(ErrorKind::Overflow));
        }
        Ok(SliceReader {
            bytes,
            cursor: Cursor {
                position: 0,
                end: bytes.len() as u32,
                failed: false,
                rules,
            },
        })
    }

    /// Ends the reading, and checks that the whole input was read.
    ///
    /// # Errors
    /// `ErrorKind::Failed` (17) on a failed reader; `ErrorKind::TrailingData` (3) if the position
    /// is not the end of the whole input, whatever is nested.
    pub fn finish(self) -> Result<(), Error>
        ensures ok { IsOk result ↔ (can_finish (slice_reader_state self.entry) ≡ true) }
        ensures err { IfErr result (λ e. e.kind ≡ finish_fault (slice_reader_state self.entry)) }
    {
        if self.cursor.failed {
            return Err(Error {
                kind: ErrorKind::Failed,
                position: Some(Length::new(self.cursor.position)),
            });
        }
        let remaining = self.bytes.len() - self.cursor.position as usize;
        if remaining != 0 {
            let decoded = Length::new(self.cursor.position);
            return Err(Error {
                kind: ErrorKind::TrailingData {
                    decoded,
                    remaining: Length::of(remaining)?,
                },
                position: Some(decoded),
            });
        }
        Ok(())
    }
}

impl<'a> Clone for SliceReader<'a> {
    ghost use Rattle.der_tlv.specs.Views.{slice_reader_state};

    ghost is_clone = { λ s r. slice_reader_state r ≡ slice_reader_state s };

    ghost is_infallible = { λ _. ⊤ };

    fn clone(&self) -> Result<SliceReader<'a>, AllocError> {
        Ok(SliceReader {
            bytes: self.bytes,
            cursor: self.cursor,
        })
    }
}

impl<'a> Source<'a> for SliceReader<'a> {
    ghost use Rattle.der_tlv.specs.ReaderState.{ReaderState};
    ghost use Rattle.der_tlv.specs.Views.{slice_reader_state};

    ghost state = { slice_reader_state };

    ghost sound = { λ r. record { ordered = r.ordered; inside = r.inside; short = r.short } };

    #[inline(always)]
    fn octets(&self) -> &'a [u8] {
        self.bytes
    }

    #[inline(always)]
    fn cursor(&self) -> Cursor {
        self.cursor
    }

    #[inline(always)]
    fn set_cursor(&mut self, cursor: Cursor) {
        self.cursor = cursor;
    }
}
