//! The blocks of PEM text (RFC 7468).

ghost use Rattle.std.specs.Prelude.{◌≡◌, ◌≤◌, true, IfSome, length};
ghost use Rattle.certview_text.specs.Shown.{IsText};

use crate::fault::Fault;
use crate::kind::has_tag;
use base64::DecodeAllocError;
use base64::engine::general_purpose::STANDARD;
use memchr::memmem;
use std::alloc::{AllocError, Global};

/// The start of the first line of a block.
const BEGIN: &[u8] = b"-----BEGIN ";

/// The end of both lines of a block, and the start of the second.
const DASHES: &[u8] = b"-----";

/// A block of PEM text.
#[derive(Clone, Copy, Debug, PartialEq, Eq)]
pub struct Block<'a> {
    /// The label in its first line.
    pub label: &'a [u8],
    /// The text between its two lines.
    pub body: &'a [u8],
    /// Whether a line with the same label ends it.
    pub is_closed: bool,
}

/// An iterator over the blocks of a text. It skips the text before, between and after them.
#[derive(Drop)]
pub struct Blocks<'a> {
    rest: &'a [u8],
}

/// Returns whether an input is PEM text: it contains the start of a block, and does not begin
/// with a SEQUENCE.
pub fn is_text(input: &[u8]) -> bool
    ensures { result ≡ true → IsText input.now }
{
    if has_tag(input, 0x30) {
        return false;
    }
    match memmem::find(input, BEGIN) {
        Some(_) => true,
        None => false,
    }
}

impl<'a> Blocks<'a> {
    /// Returns an iterator over the blocks of a text.
    pub fn of(text: &'a [u8]) -> Blocks<'a> {
        Blocks { rest: text }
    }

    /// Counts the blocks of a text.
    pub fn count(text: &[u8]) -> usize {
        let mut blocks = Blocks::of(text);
        let mut count: usize = 0;
        for _ in 0..text.len() {
            if blocks.next_block().is_none() {
                return count;
            }
            count = count.saturating_add(1);
        }
        count
    }

    /// Returns the next block.
    pub fn next_block(&mut self) -> Option<Block<'a>> {
        for _ in 0..self.rest.len() {
            let (_, line) = split_once(self.rest, BEGIN)?;
            let (label, after) = split_once(line, DASHES)?;
            if !label.contains(&b'\n') {
                return Some(self.block(label, after));
            }
            self.rest = line;
        }
        None
    }

    /// Returns the block with this label, where `after` is the text after its first line.
    fn block(&mut self, label: &'a [u8], after: &'a [u8]) -> Block<'a> {
        let (body, tail) = match split_once(after, DASHES) {
            Some((body, tail)) => (body, after_end(tail, label)),
            None => (after, None),
        };
        self.rest = match tail {
            Some(rest) => rest,
            None => &after[body.len()..],
        };
        Block {
            label,
            body,
            is_closed: tail.is_some(),
        }
    }
}

/// Returns the text before the first of these marks, and the text after it.
fn split_once<'a>(text: &'a [u8], mark: &[u8]) -> Option<(&'a [u8], &'a [u8])>
    ensures { IfSome result (λ parts. length parts.0.now ≤ length text.now) }
{
    let place = memmem::find(text, mark)?;
    Some((&text[..place], &text[place + mark.len()..]))
}

/// Returns the text after the rest of a line that ends a block with this label.
fn after_end<'a>(line: &'a [u8], label: &[u8]) -> Option<&'a [u8]> {
    line.strip_prefix(b"END ")?
        .strip_prefix(label)?
        .strip_prefix(DASHES)
}

/// Decodes the digits of a block.
///
/// # Errors
/// `NoEnd` if no line ends the block; `Encrypted` if its headers say so; `NoBase64` if its digits
/// are no Base64 (RFC 4648 section 4); `Memory` if memory runs out.
pub fn octets_of(alloc: Global, block: &Block<'_>) -> Result<Vec<u8>, Fault> {
    if !block.is_closed {
        return Err(Fault::NoEnd);
    }
    let (headers, body) = after_headers(block.body);
    if memmem::find(headers, b"ENCRYPTED").is_some() {
        return Err(Fault::Encrypted);
    }
    let digits = without_white_space(alloc, body)?;
    match STANDARD.decode(alloc, digits.as_slice()) {
        Ok(octets) => Ok(octets),
        Err(DecodeAllocError::OutOfMemory) => Err(Fault::Memory),
        Err(_) => Err(Fault::NoBase64),
    }
}

/// Returns the headers of a block (RFC 1421 section 4.4), if it has any, and the text after them.
/// Headers contain a colon, which no digits do, and an empty line ends them.
fn after_headers(body: &[u8]) -> (&[u8], &[u8]) {
    if !body.contains(&b':') {
        return (b"", body);
    }
    if let Some(parts) = split_once(body, b"\r\n\r\n") {
        return parts;
    }
    match split_once(body, b"\n\n") {
        Some(parts) => parts,
        None => (body, body),
    }
}

fn without_white_space(alloc: Global, body: &[u8]) -> Result<Vec<u8>, AllocError> {
    let mut digits = Vec::new(alloc);
    for octet in body {
        if !octet.is_ascii_whitespace() {
            digits.push(*octet)?;
        }
    }
    Ok(digits)
}
