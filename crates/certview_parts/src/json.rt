//! The items of a page as part of a JSON document, whose schema is `docs/certview.schema.json`.

use crate::page::{Entry, ItemKind, Page, Said, Span};
use crate::part_name::PartName;
use crate::parts::{Part, PartKind};
use crate::place::Place;
use crate::quoted::quoted;
use std::alloc::{AllocError, Global};
use std::fmt::Write;

/// The part of an input that is written.
#[derive(Clone, Copy, Debug, PartialEq, Eq)]
enum State {
    /// Nothing.
    Begin,
    /// Up to its name.
    Named,
    /// Up to the label of a block.
    Headed,
    /// Up to the reason why a block is refused.
    Refused,
    /// Up to the end of a message.
    Between,
    /// Up to the start of a message's first field.
    Titled,
    /// Up to the end of a field.
    Within,
    /// All of it.
    End,
}

/// A writer of successive items in JSON.
#[derive(Clone, Copy, Debug)]
pub struct Json {
    is_first: bool,
    state: State,
}

impl Json {
    /// Returns a writer for an input, the first of a document or another one.
    pub fn new(is_first: bool) -> Json {
        Json {
            is_first,
            state: State::Begin,
        }
    }

    /// Adds an item. `said` is the number of errors that earlier items have. Returns the number
    /// of errors before those of the next item.
    pub fn add(
        &mut self,
        alloc: Global,
        out: &mut String,
        entry: &Entry<'_>,
        said: usize,
    ) -> Result<usize, AllocError> {
        let said = first_of(entry, said);
        match entry.item.kind {
            ItemKind::Input => self.push_input(alloc, out, entry.value())?,
            ItemKind::Block(number, count) => {
                let label = quoted(alloc, entry.value())?;
                self.push_block(out, number, count, label.as_str())?
            }
            ItemKind::Message(place) => {
                let kind = quoted(alloc, entry.name())?;
                self.push_message(out, &place, kind.as_str())?
            }
            ItemKind::Field(_, place) => {
                let name = quoted(alloc, entry.name())?;
                let value = quoted(alloc, entry.value())?;
                self.push_field(out, &place, name.as_str(), value.as_str())?;
                push_extensions(alloc, out, entry)?;
                let after = push_malformed(alloc, out, entry, said)?;
                out.push('}')?;
                return Ok(after);
            }
            ItemKind::Refused => return self.push_refused(alloc, out, entry, said),
        }
        Ok(said)
    }

    /// Adds the text after the last item.
    pub fn end(&mut self, out: &mut String) -> Result<(), AllocError> {
        self.end_message(out)?;
        match self.state {
            State::Between => out.push_str("\n]}")?,
            State::Named => out.push_str(", \"messages\": []}")?,
            _ => {}
        }
        self.state = State::End;
        Ok(())
    }

    fn push_input(
        &mut self,
        alloc: Global,
        out: &mut String,
        name: &str,
    ) -> Result<(), AllocError> {
        let before = if self.is_first {
            "{\"inputs\": [\n"
        } else {
            ",\n"
        };
        let name = quoted(alloc, name)?;
        write!(out, "{before}{{\"name\": {name}")?;
        self.state = State::Named;
        Ok(())
    }

    /// Ends the object of a message, if one is begun.
    fn end_message(&mut self, out: &mut String) -> Result<(), AllocError> {
        let end = match self.state {
            State::Titled | State::Within => "\n]}",
            State::Headed | State::Refused => "}",
            _ => return Ok(()),
        };
        self.state = State::Between;
        out.push_str(end)
    }

    /// Begins the object of a message.
    fn begin_message(&mut self, out: &mut String) -> Result<(), AllocError> {
        self.end_message(out)?;
        out.push_str(match self.state {
            State::Named => ", \"messages\": [\n{",
            _ => ",\n{",
        })
    }

    fn push_block(
        &mut self,
        out: &mut String,
        number: usize,
        count: usize,
        label: &str,
    ) -> Result<(), AllocError> {
        self.begin_message(out)?;
        let number = number.saturating_add(1);
        write!(
            out,
            "\"block\": {{\"number\": {number}, \"count\": {count}, \"label\": {label}}}"
        )?;
        self.state = State::Headed;
        Ok(())
    }

    fn push_message(
        &mut self,
        out: &mut String,
        place: &Place,
        kind: &str,
    ) -> Result<(), AllocError> {
        match self.state {
            State::Headed | State::Refused => out.push_str(", ")?,
            _ => self.begin_message(out)?,
        }
        write!(out, "\"kind\": {kind}, ")?;
        push_place(out, place)?;
        out.push_str(", \"fields\": [")?;
        self.state = State::Titled;
        Ok(())
    }

    /// Adds a field without its end.
    fn push_field(
        &mut self,
        out: &mut String,
        place: &Place,
        name: &str,
        value: &str,
    ) -> Result<(), AllocError> {
        out.push_str(match self.state {
            State::Titled => "\n{",
            _ => ",\n{",
        })?;
        push_place(out, place)?;
        write!(out, ", \"name\": {name}, \"value\": {value}")?;
        self.state = State::Within;
        Ok(())
    }

    /// Adds why the message of a block, or an input, is refused. Its readable parts may follow.
    fn push_refused(
        &mut self,
        alloc: Global,
        out: &mut String,
        entry: &Entry<'_>,
        said: usize,
    ) -> Result<usize, AllocError> {
        let Some(fault) = fault_of(entry, said) else {
            return Ok(said);
        };
        out.push_str(", \"refused\": ")?;
        push_fault(alloc, out, entry.page, &fault)?;
        if self.state == State::Headed {
            self.state = State::Refused;
        }
        Ok(said.saturating_add(1))
    }
}

/// Returns the number of errors before those of an item, counted from `said` on.
fn first_of(entry: &Entry<'_>, said: usize) -> usize {
    let page = entry.page;
    let mut first = said;
    for number in said..page.faults.len() {
        if page.faults[number].item >= entry.index {
            return first;
        }
        first = number.saturating_add(1);
    }
    first
}

/// Returns error number `said` if it belongs to the item.
fn fault_of(entry: &Entry<'_>, said: usize) -> Option<Said> {
    match entry.page.faults.as_slice().get(said) {
        Some(fault) if fault.item == entry.index => Some(*fault),
        _ => None,
    }
}

/// Adds the extensions whose values a field has, each an object.
fn push_extensions(alloc: Global, out: &mut String, entry: &Entry<'_>) -> Result<(), AllocError> {
    let parts = entry.parts();
    if parts.is_empty() {
        return Ok(());
    }
    out.push_str(", \"extensions\": [")?;
    let mut is_first = true;
    for part in parts {
        is_first = push_part(alloc, out, entry.page, part, is_first)?;
    }
    out.push(']')
}

/// Adds a part, after a comma if another one is before it in its object or list. Returns whether
/// the next part is the first one of an object or a list.
fn push_part(
    alloc: Global,
    out: &mut String,
    page: &Page,
    part: &Part,
    is_first: bool,
) -> Result<bool, AllocError> {
    push_front(out, part, is_first)?;
    match part.kind {
        PartKind::Text(span) => {
            let text = quoted(alloc, page.part(span))?;
            out.push_str(text.as_str())?;
        }
        PartKind::Word(word) => push_quoted(out, word)?,
        PartKind::Flag(true) => out.push_str("true")?,
        PartKind::Flag(false) => out.push_str("false")?,
        PartKind::Object => out.push('{')?,
        PartKind::ObjectEnd => out.push('}')?,
        PartKind::List => out.push('[')?,
        PartKind::ListEnd => out.push(']')?,
    }
    Ok(part.kind == PartKind::Object || part.kind == PartKind::List)
}

/// Adds the comma before a part, and its name.
fn push_front(out: &mut String, part: &Part, is_first: bool) -> Result<(), AllocError> {
    if part.kind == PartKind::ObjectEnd || part.kind == PartKind::ListEnd {
        return Ok(());
    }
    if !is_first {
        out.push_str(", ")?;
    }
    if part.name == PartName::Item {
        return Ok(());
    }
    push_quoted(out, part.name)?;
    out.push_str(": ")
}

/// Adds the text of a name in quotes. It has letters and digits alone.
fn push_quoted(out: &mut String, name: PartName) -> Result<(), AllocError> {
    out.push('"')?;
    out.push_str(name.text())?;
    out.push('"')
}

/// Adds the errors of a field. `said` is the number of errors that earlier items have. Returns
/// the number of errors before those of the next item.
fn push_malformed(
    alloc: Global,
    out: &mut String,
    entry: &Entry<'_>,
    said: usize,
) -> Result<usize, AllocError> {
    let mut after = said;
    for number in said..entry.page.faults.len() {
        let Some(fault) = fault_of(entry, number) else {
            break;
        };
        out.push_str(if number == said {
            ", \"malformed\": ["
        } else {
            ", "
        })?;
        push_fault(alloc, out, entry.page, &fault)?;
        after = number.saturating_add(1);
    }
    if after > said {
        out.push(']')?;
    }
    Ok(after)
}

/// Adds an error: its number, its words, its position and its field, each `null` if there is
/// none.
fn push_fault(
    alloc: Global,
    out: &mut String,
    page: &Page,
    fault: &Said,
) -> Result<(), AllocError> {
    out.push_str("{\"number\": ")?;
    match fault.number {
        Some(number) => write!(out, "{number}")?,
        None => out.push_str("null")?,
    }
    let words = quoted(alloc, page.words_of(fault))?;
    write!(out, ", \"words\": {words}, \"position\": ")?;
    match fault.position {
        Some(position) => write!(out, "{position}")?,
        None => out.push_str("null")?,
    }
    out.push_str(", \"field\": ")?;
    if fault.field == Span::nothing() {
        return out.push_str("null}");
    }
    let field = quoted(alloc, page.part(fault.field))?;
    write!(out, "{field}}}")
}

/// Adds the offset and the length of a field, each `null` if the field is absent.
fn push_place(out: &mut String, place: &Place) -> Result<(), AllocError> {
    let (begin, count) = (place.offset, place.length);
    if count == 0 {
        return out.push_str("\"offset\": null, \"length\": null");
    }
    write!(out, "\"offset\": {begin}, \"length\": {count}")
}
