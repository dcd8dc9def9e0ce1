//! The message or messages of an input, as text.

ghost use Rattle.std.specs.Prelude.{◌≡◌, None, OnOk};
ghost use Rattle.certview_text.specs.Faults.{first_fault};
ghost use Rattle.certview_text.specs.Grammars.{grammar_of};

use crate::fault::Fault;
use crate::kind::Kind;
use crate::label::{Label, kind_with};
use crate::path::{IN_FIELD, Path};
use crate::pem::{Block, Blocks, octets_of};
use crate::readable::push_parts;
use crate::text::push_message;
use crate::trust_settings::{count_of_message, push_trust_settings};
use certview_parts::field_name::FieldName;
use certview_parts::hexadecimal::push_with_colons;
use certview_parts::page::{ItemKind, Page, Span, push_words};
use certview_parts::place::nowhere;
use certview_parts::printer::Printer;
use der_asn1_types::Error;
use sha2::{Digest, Sha256};
use std::alloc::{AllocError, Global};
use std::fmt::Write;

/// Adds the fields of a message, and its fingerprint if the caller asked for it.
///
/// # Errors
/// `Refused` if the octets are no message of the kind; `Memory` if memory runs out.
pub fn push_octets(alloc: Global, page: &mut Page, kind: Kind, octets: &[u8]) -> Result<(), Fault>
    ensures { OnOk result (first_fault (grammar_of kind) octets.now ≡ None) }
{
    match push_message(alloc, page, kind, octets) {
        Ok(()) if page.asked.has_fingerprint => {
            Ok(push_fingerprint(&mut Printer::new(alloc, page, octets), kind)?)
        }
        Ok(()) => Ok(()),
        Err(fault) => Err(fault),
    }
}

/// Adds a line with the SHA-256 of a message's octets, unless the message contains a secret.
fn push_fingerprint(printer: &mut Printer<'_>, kind: Kind) -> Result<(), AllocError> {
    if kind.is_secret() {
        return Ok(());
    }
    printer.begin(&nowhere(), FieldName::Fingerprint)?;
    printer.push_str("SHA-256 ")?;
    let digest = Sha256::digest(printer.octets);
    push_with_colons(printer.page, digest.as_slice())?;
    printer.push('\n')
}

/// Adds the messages of PEM text, block by block. If there are several blocks, a line that names
/// the block precedes each message. If one of several blocks is refused, its line shows the
/// error.
///
/// # Errors
/// The error of the first block if no block is shown; `Memory` if memory runs out.
pub fn push_blocks(alloc: Global, page: &mut Page, text: &[u8]) -> Result<(), Fault> {
    let count = Blocks::count(text);
    if count < 2 {
        return push_first(alloc, page, text);
    }
    match push_each(alloc, page, text, count) {
        Ok(0) => push_first(alloc, page, text),
        Ok(_) => Ok(()),
        Err(error) => Err(Fault::from(error)),
    }
}

/// Adds `count` blocks and returns the number of blocks whose message is shown.
fn push_each(
    alloc: Global,
    page: &mut Page,
    text: &[u8],
    count: usize,
) -> Result<usize, AllocError> {
    let mut blocks = Blocks::of(text);
    let mut shown: usize = 0;
    for number in 0..count {
        let Some(block) = blocks.next_block() else {
            break;
        };
        push_heading(page, number, count, &block)?;
        if push_or_tell(alloc, page, &block)? {
            shown = shown.saturating_add(1);
        }
    }
    Ok(shown)
}

/// Adds the message of the first block.
fn push_first(alloc: Global, page: &mut Page, text: &[u8]) -> Result<(), Fault> {
    let mut blocks = Blocks::of(text);
    match blocks.next_block() {
        Some(block) => push_block(alloc, page, &block),
        None => Err(Fault::NoEnd),
    }
}

/// Adds the message of one of several blocks, or a line that says why the block is refused.
/// Returns whether the message is shown.
fn push_or_tell(alloc: Global, page: &mut Page, block: &Block<'_>) -> Result<bool, AllocError> {
    match push_block(alloc, page, block) {
        Ok(()) => Ok(true),
        Err(Fault::Memory) => Err(AllocError),
        Err(fault) => {
            push_refused(page, fault)?;
            push_block_parts(alloc, page, block)?;
            Ok(false)
        }
    }
}

/// Adds the readable fields of the message in the first block.
pub fn push_first_parts(alloc: Global, page: &mut Page, text: &[u8]) -> Result<(), AllocError> {
    let mut blocks = Blocks::of(text);
    match blocks.next_block() {
        Some(block) => push_block_parts(alloc, page, &block),
        None => Ok(()),
    }
}

/// Adds the readable fields of the message in a refused block.
fn push_block_parts(alloc: Global, page: &mut Page, block: &Block<'_>) -> Result<(), AllocError> {
    let Some(kind) = kind_with(block.label) else {
        return Ok(());
    };
    match octets_of(alloc, block) {
        Ok(octets) => push_parts(alloc, page, kind, octets.as_slice()),
        Err(Fault::Memory) => Err(AllocError),
        Err(_) => Ok(()),
    }
}

/// Adds the line that names one of several blocks.
fn push_heading(
    page: &mut Page,
    number: usize,
    count: usize,
    block: &Block<'_>,
) -> Result<(), AllocError> {
    page.begin(ItemKind::Block(number, count), "")?;
    let label = Label::of(block.label);
    writeln!(page.text, "{label}")
}

/// Adds a line that says that a block or an input is refused, and why.
pub fn push_refused(page: &mut Page, fault: Fault) -> Result<(), AllocError> {
    page.is_partial = true;
    page.begin(ItemKind::Refused, "")?;
    match fault {
        Fault::Refused(error, path) => push_refusal(page, &error, path)?,
        _ => {
            let begin = page.text.len();
            write!(page.text, "{fault}")?;
            let end = page.text.len();
            let words = Span {
                begin: begin.saturating_add(fault.prefix().len()),
                end,
            };
            page.say(None, words, None, Span::nothing())?;
        }
    }
    page.text.push('\n')
}

/// Adds the number, the words and the position of an error in octets, and the field that contains
/// it.
fn push_refusal(page: &mut Page, error: &Error, path: Path) -> Result<(), AllocError> {
    let number = error.kind().number();
    write!(page.text, "refused ({number}): ")?;
    let words = push_words(page, error, path.is_early)?;
    let position = match error.position {
        Some(position) => {
            write!(page.text, ", at position {position}")?;
            Some(position.value() as usize)
        }
        None => None,
    };
    let begin = page.text.len();
    write!(page.text, "{path}")?;
    let end = page.text.len();
    let field = match end.saturating_sub(begin) {
        0 => Span::nothing(),
        _ => Span {
            begin: begin.saturating_add(IN_FIELD.len()),
            end,
        },
    };
    page.say(Some(number), words, position, field)
}

/// Adds the message of a block and the trust settings that may follow it.
fn push_block(alloc: Global, page: &mut Page, block: &Block<'_>) -> Result<(), Fault> {
    let Some(kind) = kind_with(block.label) else {
        return Err(Fault::UnknownLabel(Label::of(block.label)));
    };
    let message = octets_of(alloc, block)?;
    let octets = message.as_slice();
    let count = count_of_message(block.label, octets);
    push_octets(alloc, page, kind, &octets[..count])?;
    Ok(push_trust_settings(&mut Printer::new(alloc, page, octets), count)?)
}
