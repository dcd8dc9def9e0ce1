//! The calls of a reader, for every source.

ghost use Rattle.std.specs.Prelude.{◌≡◌, ◌≤◌, ◌+◌, length, take, drop, IfErr, OnOk, OnErr, false};
ghost use Rattle.der_tlv.specs.Reading.{OctetsRead, OctetsRefused};
ghost use Rattle.der_tlv.specs.ReaderState.{can_read, read_fault, unnest_fault, after_fault};

use crate::encoding_rules::EncodingRules;
use crate::error::{Error, ErrorKind};
use crate::length::Length;
use crate::reader::Reader;
use crate::reader::source::{Cursor, Source};

/// Marks the source as failed, and returns an error of this kind at its position.
#[cold]
#[inline(never)]
fn refuse<'a, S: Source<'a>>(source: &mut S, kind: ErrorKind) -> Error
    ensures kind { result.kind ≡ kind }
    ensures position { result.position ≡ Some (S.state source.old).position }
    ensures failed { S.state source.new ≡ after_fault (S.state source.old) }
{
    let cursor = source.cursor();
    source.set_cursor(Cursor {
        failed: true,
        ..cursor
    });
    Error {
        kind,
        position: Some(Length::new(cursor.position)),
    }
}

/// Refuses to read `len` octets.
#[cold]
#[inline(never)]
fn refuse_octets<'a, S: Source<'a>>(source: &mut S, len: usize) -> Error
    requires { can_read (S.state source.old) len ≡ false }
    ensures kind { result.kind ≡ read_fault (S.state source.old) len }
    ensures failed { S.state source.new ≡ after_fault (S.state source.old) }
{
    let cursor = source.cursor();
    let kind = if cursor.failed {
        ErrorKind::Failed
    } else {
        match Length::of(len.saturating_add(cursor.position as usize)) {
            Ok(expected_len) => ErrorKind::Incomplete {
                expected_len,
                actual_len: Length::new(cursor.end),
            },
            Err(_) => ErrorKind::Overflow,
        }
    };
    refuse(source, kind)
}

/// Refuses to restore an end.
#[cold]
#[inline(never)]
fn refuse_unnest<'a, S: Source<'a>>(source: &mut S) -> Error
    ensures kind { result.kind ≡ unnest_fault (S.state source.old) }
    ensures failed { S.state source.new ≡ after_fault (S.state source.old) }
{
    let cursor = source.cursor();
    if cursor.failed {
        return refuse(source, ErrorKind::Failed);
    }
    if cursor.position == cursor.end {
        return refuse(source, ErrorKind::Overflow);
    }
    let decoded = Length::new(cursor.position);
    let remaining = Length::new(cursor.end - cursor.position);
    refuse(source, ErrorKind::TrailingData { decoded, remaining })
}

/// Fills the buffer with the next octets; a refusal leaves the buffer unchanged.
///
/// # Errors
/// As `read_slice`.
#[inline]
fn fill<'a, S: Source<'a>>(source: &mut S, buffer: &mut [u8]) -> Result<(), Error>
    ensures ok { OnOk result (OctetsRead (S.state source.old) (S.state source.new) (length buffer.old) buffer.new) }
    ensures err { IfErr result (λ e. OctetsRefused (S.state source.old) (S.state source.new) (length buffer.old) e.kind) }
    ensures kept { OnErr result (buffer.new ≡ buffer.old) }
{
    let cursor = source.cursor();
    if cursor.failed || buffer.len() > (cursor.end - cursor.position) as usize {
        return Err(refuse_octets(source, buffer.len()));
    }
    let position = cursor.position + buffer.len() as u32;
    let octets = source.octets();
    source.set_cursor(Cursor { position, ..cursor });
    buffer.copy_from_slice(&octets[cursor.position as usize..position as usize]);
    Ok(())
}

/// Returns a block whose first `len` octets are those at offset `start`.
#[inline(always)]
fn block_at(bytes: &[u8], start: usize, len: usize) -> [u8; 8]
    requires few { len ≤ 8 }
    requires within { start + len ≤ length bytes.now }
    ensures { take len result ≡ take len (drop start bytes.now) }
{
    let mut block = [0; 8];
    if bytes.len() - start >= 8 {
        block.copy_from_slice(&bytes[start..start + 8]);
    } else {
        block[..len].copy_from_slice(&bytes[start..start + len]);
    }
    block
}

impl<'a, S: Source<'a>> Reader<'a> for S {
    #[inline]
    fn read_byte(&mut self) -> Result<u8, Error> {
        let cursor = self.cursor();
        if cursor.failed || cursor.position == cursor.end {
            return Err(refuse_octets(self, 1));
        }
        let octet = self.octets()[cursor.position as usize];
        let position = cursor.position + 1;
        self.set_cursor(Cursor { position, ..cursor });
        Ok(octet)
    }

    #[inline]
    fn read_slice(&mut self, len: Length) -> Result<&'a [u8], Error> {
        let len = len.value();
        let cursor = self.cursor();
        if cursor.failed || len > cursor.end - cursor.position {
            return Err(refuse_octets(self, len as usize));
        }
        let position = cursor.position + len;
        let octets = self.octets();
        self.set_cursor(Cursor { position, ..cursor });
        Ok(&octets[cursor.position as usize..position as usize])
    }

    // Copies eight octets if the input has them, even octets after those that are read.
    #[inline(always)]
    fn read_front(&mut self, len: Length) -> Result<[u8; 8], Error> {
        let len = len.value();
        let cursor = self.cursor();
        if cursor.failed || len > cursor.end - cursor.position {
            return Err(refuse_octets(self, len as usize));
        }
        let octets = self.octets();
        self.set_cursor(Cursor {
            position: cursor.position + len,
            ..cursor
        });
        Ok(block_at(octets, cursor.position as usize, len as usize))
    }

    // A refusal leaves the buffer unchanged.
    fn read_into<'b>(&mut self, buffer: &'b mut [u8]) -> Result<&'b [u8], Error> {
        match fill(self, buffer) {
            Ok(()) => Ok(buffer),
            Err(e) => Err(e),
        }
    }

    #[inline]
    fn nest(&mut self, len: Length) -> Result<Length, Error> {
        let len = len.value();
        let cursor = self.cursor();
        if cursor.failed || len > cursor.end - cursor.position {
            return Err(refuse_octets(self, len as usize));
        }
        let end = cursor.position + len;
        self.set_cursor(Cursor { end, ..cursor });
        Ok(Length::new(cursor.end))
    }

    #[inline(always)]
    fn unnest(&mut self, end: Length) -> Result<(), Error> {
        let end = end.value();
        let cursor = self.cursor();
        let is_inside = cursor.end <= end && end as usize <= self.octets().len();
        if cursor.failed || cursor.position != cursor.end || !is_inside {
            return Err(refuse_unnest(self));
        }
        self.set_cursor(Cursor { end, ..cursor });
        Ok(())
    }

    #[inline]
    fn rewind(&mut self, position: Length) {
        let cursor = self.cursor();
        self.set_cursor(Cursor {
            position: position.value(),
            ..cursor
        });
    }

    #[inline]
    fn is_finished(&self) -> bool {
        let cursor = self.cursor();
        cursor.position == cursor.end
    }

    #[inline]
    fn position(&self) -> Length {
        Length::new(self.cursor().position)
    }

    #[inline]
    fn remaining_len(&self) -> Length {
        let cursor = self.cursor();
        Length::new(cursor.end - cursor.position)
    }

    fn encoding_rules(&self) -> EncodingRules {
        self.cursor().rules
    }

    fn error(&mut self, kind: ErrorKind) -> Error {
        refuse(self, kind)
    }
}
