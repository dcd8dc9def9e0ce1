//! The fields of messages, collected before they are written.

use crate::asked::Asked;
use crate::early::{EARLY, is_early};
use crate::encoding_rules::words_of_ber;
use crate::field_name::FieldName;
use crate::parts::Part;
use crate::place::Place;
use der_asn1_types::{Error, ErrorKind, Tag};
use std::alloc::{AllocError, Global};
use std::fmt::Write;

/// The fields of messages in the order of the octets, and the headings around them: each is an
/// item. The texts of all items are in one `String`, one after another.
#[derive(Drop)]
pub struct Page {
    /// The names of the items and their values, each followed by a line feed.
    pub text: String,
    /// The items.
    pub items: Vec<Item>,
    /// The named parts of the items' values, in the order of the items, if they are asked for.
    pub parts: Vec<Part>,
    /// Whether parts are asked for.
    pub has_parts: bool,
    /// The errors, in the order of their items.
    pub faults: Vec<Said>,
    /// The words of the errors that the items do not show, one after another.
    pub notes: String,
    /// The requests about a message besides its fields.
    pub asked: Asked,
    /// Whether a part could not be read, which its line says, or is shown although it is invalid
    /// for its type.
    pub is_partial: bool,
    /// Whether a message breaks a rule, or is not valid at the moment in question.
    pub has_findings: bool,
}

/// An item of a page.
#[derive(Clone, Copy, Debug, PartialEq, Eq)]
pub struct Item {
    /// Its kind.
    pub kind: ItemKind,
    /// The offset of its name in the text.
    pub begin: usize,
    /// The offset of its value in the text.
    pub value: usize,
    /// The number of parts of the items before it.
    pub parts: usize,
}

/// The kind of an item.
#[derive(Clone, Copy, Debug, PartialEq, Eq)]
pub enum ItemKind {
    /// An input, with its name.
    Input,
    /// One of several blocks of PEM text: its number from 0 on, the number of blocks, and its
    /// label.
    Block(usize, usize),
    /// A message: its name for people and its byte range.
    Message(Place),
    /// A field of a message: its label, its value and its byte range.
    Field(FieldName, Place),
    /// The refusal of a message or of an input, and its reason.
    Refused,
}

/// An error of an item, whose words are in the item's text or in the notes.
#[derive(Clone, Copy, Debug, PartialEq, Eq)]
pub struct Said {
    /// The index of its item.
    pub item: usize,
    /// The number of the error.
    pub number: Option<u8>,
    /// The range of the words.
    pub words: Span,
    /// Whether the words are in the notes rather than in the text.
    pub is_noted: bool,
    /// The number of octets of the message that had been read.
    pub position: Option<usize>,
    /// The range of the name of the field, if the error has one.
    pub field: Span,
}

/// A part of the text of a page.
#[derive(Clone, Copy, Debug, PartialEq, Eq)]
pub struct Span {
    /// The offset of its first octet.
    pub begin: usize,
    /// The offset of the octet after it.
    pub end: usize,
}

impl Page {
    /// Returns a page without fields, for a message without further requests.
    pub fn new(alloc: Global) -> Page {
        Page::asking(alloc, Asked::nothing())
    }

    /// Returns a page without fields.
    pub fn asking(alloc: Global, asked: Asked) -> Page {
        Page {
            text: String::new(alloc),
            items: Vec::new(alloc),
            parts: Vec::new(alloc),
            has_parts: false,
            faults: Vec::new(alloc),
            notes: String::new(alloc),
            asked,
            is_partial: false,
            has_findings: false,
        }
    }

    /// Returns whether a message has begun.
    pub fn has_message(&self) -> bool {
        for item in &self.items {
            if let ItemKind::Message(_) = item.kind {
                return true;
            }
        }
        false
    }

    /// Begins an item with this name. The caller adds its value and a line feed to the text.
    pub fn begin(&mut self, kind: ItemKind, name: &str) -> Result<(), AllocError> {
        let begin = self.text.len();
        self.text.push_str(name)?;
        self.add_item(kind, begin)
    }

    /// Begins a field with this byte range. The caller adds its value and a line feed to the
    /// text.
    pub fn begin_field(&mut self, field: FieldName, place: &Place) -> Result<(), AllocError> {
        let begin = self.text.len();
        field.push_label(&mut self.text)?;
        self.add_item(ItemKind::Field(field, *place), begin)
    }

    /// Adds an item whose name begins at this offset, and whose value begins at the end of the
    /// text.
    fn add_item(&mut self, kind: ItemKind, begin: usize) -> Result<(), AllocError> {
        self.items.push(Item {
            kind,
            begin,
            value: self.text.len(),
            parts: self.parts.len(),
        })?;
        Ok(())
    }

    /// Records an error of the last item.
    pub fn say(
        &mut self,
        number: Option<u8>,
        words: Span,
        position: Option<usize>,
        field: Span,
    ) -> Result<(), AllocError> {
        let item = self.items.len().saturating_sub(1);
        self.faults.push(Said {
            item,
            number,
            words,
            is_noted: false,
            position,
            field,
        })?;
        Ok(())
    }

    /// Records that a value of the last item is shown although its contents octets have this
    /// error.
    pub fn note(&mut self, kind: ErrorKind) -> Result<(), AllocError> {
        let begin = self.notes.len();
        write!(self.notes, "{kind}")?;
        let words = Span {
            begin,
            end: self.notes.len(),
        };
        let item = self.items.len().saturating_sub(1);
        self.is_partial = true;
        self.faults.push(Said {
            item,
            number: Some(kind.number()),
            words,
            is_noted: true,
            position: None,
            field: Span::nothing(),
        })?;
        Ok(())
    }

    /// Returns the text in a range.
    pub fn part(&self, span: Span) -> &str {
        part_of(self.text.as_str(), span)
    }

    /// Returns the words of an error.
    pub fn words_of(&self, fault: &Said) -> &str {
        if fault.is_noted {
            part_of(self.notes.as_str(), fault.words)
        } else {
            self.part(fault.words)
        }
    }
}

/// An item of a page, with its name and its value.
#[derive(Clone, Copy)]
pub struct Entry<'a> {
    /// The page.
    pub page: &'a Page,
    /// The index of the item.
    pub index: usize,
    /// The item.
    pub item: Item,
}

impl<'a> Entry<'a> {
    /// Returns the name of the item.
    pub fn name(&self) -> &'a str {
        self.page.part(Span {
            begin: self.item.begin,
            end: self.item.value,
        })
    }

    /// Returns the value of the item, without the line feed.
    pub fn value(&self) -> &'a str {
        let end = match self.page.items.get(self.index.saturating_add(1)) {
            Some(next) => next.begin,
            None => self.page.text.len(),
        };
        let value = self.page.part(Span {
            begin: self.item.value,
            end,
        });
        value.strip_suffix("\n").unwrap_or(value)
    }

    /// Returns the named parts of the value.
    pub fn parts(&self) -> &'a [Part] {
        let end = match self.page.items.get(self.index.saturating_add(1)) {
            Some(next) => next.parts,
            None => self.page.parts.len(),
        };
        let parts = self.page.parts.as_slice();
        parts.get(self.item.parts..end).unwrap_or(&[])
    }
}

/// Returns the text in a range, or nothing if the range exceeds the text.
fn part_of(text: &str, span: Span) -> &str {
    let Some((front, _)) = text.split_at_checked(span.end) else {
        return "";
    };
    match front.split_at_checked(span.begin) {
        Some((_, part)) => part,
        None => "",
    }
}

impl Span {
    /// Returns the empty range.
    pub fn nothing() -> Span {
        Span { begin: 0, end: 0 }
    }
}

/// Octets within a message that are read on their own: the value of an extension, or a key.
#[derive(Clone, Copy, Debug, PartialEq, Eq)]
pub struct Inner<'a> {
    /// The octets.
    pub octets: &'a [u8],
    /// Their offset in the message.
    pub begin: usize,
}

/// Adds `malformed` and the error in octets that are read on their own, unless memory ran out:
/// its number, its words, and the number of octets of the message that had been read. The octets
/// are at offset `begin` of the message.
pub fn push_malformed(page: &mut Page, begin: usize, error: Error) -> Result<(), AllocError> {
    push_fault(page, begin, &error, false)
}

/// Adds `malformed` and the error in octets that may contain a time. A time before 1970 has words
/// of its own.
pub fn push_malformed_inner(
    page: &mut Page,
    inner: Inner<'_>,
    error: Error,
) -> Result<(), AllocError> {
    let is_early = is_early(inner.octets, &error);
    push_fault(page, inner.begin, &error, is_early)
}

fn push_fault(
    page: &mut Page,
    begin: usize,
    error: &Error,
    is_early: bool,
) -> Result<(), AllocError> {
    let place = place_of(error, begin);
    let kind = error.kind;
    if kind == ErrorKind::Memory {
        return Err(AllocError);
    }
    page.is_partial = true;
    let number = kind.number();
    write!(page.text, "malformed ({number}: ")?;
    let words = push_words(page, error, is_early)?;
    end_fault(page, number, words, place)
}

/// Adds `malformed`, and that the `count` contents octets of a BIT STRING are invalid for its
/// purpose. It ends at offset `end` of the message.
pub fn push_malformed_bits(
    page: &mut Page,
    count: usize,
    words: &str,
    end: usize,
) -> Result<(), AllocError> {
    page.is_partial = true;
    let number = Tag::BitString.value_error().number();
    write!(page.text, "malformed ({number}: ")?;
    let begin = page.text.len();
    write!(page.text, "{count} octets, which are {words}")?;
    let words = Span {
        begin,
        end: page.text.len(),
    };
    end_fault(page, number, words, Some(end))
}

/// Ends the text of an error and records it.
fn end_fault(
    page: &mut Page,
    number: u8,
    words: Span,
    place: Option<usize>,
) -> Result<(), AllocError> {
    page.text.push(')')?;
    page.say(Some(number), words, place, Span::nothing())?;
    match place {
        Some(place) => write!(page.text, " at position {place}"),
        None => Ok(()),
    }
}

/// Adds the words of an error and returns their range. A time before 1970 has words of its own.
pub fn push_words(page: &mut Page, error: &Error, is_early: bool) -> Result<Span, AllocError> {
    let begin = page.text.len();
    let kind = error.kind;
    if is_early {
        page.text.push_str(EARLY)?;
    } else {
        write!(page.text, "{kind}")?;
        page.text.push_str(words_of_ber(&kind))?;
    }
    Ok(Span {
        begin,
        end: page.text.len(),
    })
}

/// Returns the number of octets of the message that had been read at an error in octets at offset
/// `begin`.
fn place_of(error: &Error, begin: usize) -> Option<usize> {
    let read = error.position?.value() as usize;
    Some(begin.saturating_add(read))
}
