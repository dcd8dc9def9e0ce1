//! Reading a line from a buffered reader.
ghost use Rattle.std.specs.Prelude.{◌≡◌, ◌≢◌, ◌<◌, ◌≤◌, [], true, false, All, OnErr, IfSome, length, slice_index, take};
ghost use Rattle.std.specs.Io.KnownBytes.{IsAtEnd, Keeps};
ghost use Rattle.der_lines.specs.Piece.{TakesPiece};
ghost use Rattle.der_lines.specs.Source.{TakesLine, TakesPart};

use std::io::{self, BufRead, ErrorKind};

/// Returns whether there are octets to read.
pub fn has_more<R: BufRead>(reader: &mut R) -> io::Result<bool>
    ensures kept { Keeps (R.remaining reader.old) (R.remaining reader.new) }
    ensures none { result ≡ Ok false → IsAtEnd (R.remaining reader.old) }
    ensures some { result ≡ Ok true → IfSome (R.remaining reader.old) (λ rest. rest ≢ []) }
{
    for _ in 0..u64::MAX {
        match reader.fill_buf() {
            Ok(octets) => return Ok(!octets.is_empty()),
            Err(error) if error.kind() == ErrorKind::Interrupted => {}
            Err(error) => return Err(error),
        }
    }
    Err(io::Error::from(ErrorKind::TimedOut))
}

/// Replaces the octets of `line` by the next line, without its LF. Returns whether there was one.
/// A read that a signal interrupts is repeated.
pub fn read_line<R: BufRead>(reader: &mut R, line: &mut Vec<u8>) -> io::Result<bool>
    ensures line { result ≡ Ok true →
        TakesLine (R.remaining reader.old) line.new.items (R.remaining reader.new) }
    ensures end { result ≡ Ok false → IsAtEnd (R.remaining reader.old) }
    ensures ended { result ≡ Ok false → Keeps (R.remaining reader.old) (R.remaining reader.new) }
    ensures err { OnErr result (TakesPart (R.remaining reader.old) (R.remaining reader.new)) }
{
    line.clear();
    for _ in 0..u64::MAX {
        match append_piece(reader, line) {
            Ok(Piece::Open) => {}
            Ok(Piece::Closed) => return Ok(true),
            Ok(Piece::End) => return Ok(!line.is_empty()),
            Err(error) if error.kind() == ErrorKind::Interrupted => {}
            Err(error) => return Err(error),
        }
    }
    Err(io::Error::from(ErrorKind::TimedOut))
}

/// The result of a step of reading a line.
#[derive(Clone, Copy, Debug, PartialEq, Eq)]
enum Piece {
    /// The end of the input.
    End,
    /// Octets of the line, and no LF yet.
    Open,
    /// The last octets of the line, and its LF.
    Closed,
}

/// Adds octets of a line that the reader has buffered, up to an LF, which is taken too.
fn append_piece<R: BufRead>(reader: &mut R, line: &mut Vec<u8>) -> io::Result<Piece>
    ensures piece { TakesPiece (R.remaining reader.old) (R.remaining reader.new)
        line.old.items line.new.items result }
{
    let available = reader.fill_buf()?;
    if available.is_empty() {
        return Ok(Piece::End);
    }
    let end = line_end(available);
    let is_open = end == available.len();
    line.extend_from_slice(&available[..end])?;
    if is_open {
        reader.consume(end);
        return Ok(Piece::Open);
    }
    reader.consume(end + 1);
    Ok(Piece::Closed)
}

/// Returns the offset of the first LF, or the length if there is none.
fn line_end(octets: &[u8]) -> usize
    ensures bound { result ≤ length octets.now }
    ensures before { All (λ octet. octet ≢ 10) (take result octets.now) }
    ensures found { result < length octets.now → slice_index octets.now result ≡ 10 }
{
    let start = open_blocks(octets);
    for i in start..octets.len() {
        if octets[i] == b'\n' {
            return i;
        }
    }
    octets.len()
}

/// Returns the number of octets in the blocks before the first LF. It checks whole blocks because
/// that takes less time than to check each octet.
fn open_blocks(octets: &[u8]) -> usize
    ensures bound { result ≤ length octets.now }
    ensures before { All (λ octet. octet ≢ 10) (take result octets.now) }
{
    let mut end = 0;
    while octets.len() - end >= BLOCK && is_open(&octets[end..end + BLOCK]) {
        end += BLOCK;
    }
    end
}

/// The number of octets in a block.
const BLOCK: usize = 16;

/// Returns whether no octet of a block is an LF.
#[inline(always)]
fn is_open(block: &[u8]) -> bool
    requires { length block.now ≡ 16 }
    ensures { result ≡ true → All (λ octet. octet ≢ 10) block.now }
{
    let mut is_open = true;
    for i in 0..BLOCK {
        is_open &= block[i] != b'\n';
    }
    is_open
}
