//! The named parts of a field's value, for JSON.

ghost use Rattle.std.specs.Prelude.{◌≡◌};

use crate::page::{Page, Span};
use crate::part_name::PartName;
use std::alloc::AllocError;

/// A part of the value of an item. Parts stand in the order of JSON: those of an object or a list
/// are between its beginning and its end.
#[derive(Clone, Copy, Debug, PartialEq, Eq)]
pub struct Part {
    /// Its name.
    pub name: PartName,
    /// What it is.
    pub kind: PartKind,
}

/// What a part is.
#[derive(Clone, Copy, Debug, PartialEq, Eq)]
pub enum PartKind {
    /// A text, as the item shows it.
    Text(Span),
    /// The name of an alternative.
    Word(PartName),
    /// Whether something is so.
    Flag(bool),
    /// The beginning of an object.
    Object,
    /// The end of an object.
    ObjectEnd,
    /// The beginning of a list.
    List,
    /// The end of a list.
    ListEnd,
}

impl Page {
    /// Begins a part that is an object.
    pub fn open(&mut self, name: PartName) -> Result<(), AllocError>
        ensures text { self.new.text ≡ self.old.text }
    {
        self.add_part(name, PartKind::Object)
    }

    /// Ends the last object that was begun.
    pub fn close(&mut self) -> Result<(), AllocError>
        ensures text { self.new.text ≡ self.old.text }
    {
        self.add_part(PartName::Item, PartKind::ObjectEnd)
    }

    /// Begins a part that is a list.
    pub fn open_list(&mut self, name: PartName) -> Result<(), AllocError>
        ensures text { self.new.text ≡ self.old.text }
    {
        self.add_part(name, PartKind::List)
    }

    /// Ends the last list that was begun.
    pub fn close_list(&mut self) -> Result<(), AllocError>
        ensures text { self.new.text ≡ self.old.text }
    {
        self.add_part(PartName::Item, PartKind::ListEnd)
    }

    /// Adds a part that is a text: what was added to the page from this offset on.
    pub fn mark(&mut self, name: PartName, begin: usize) -> Result<(), AllocError>
        ensures text { self.new.text ≡ self.old.text }
    {
        let end = self.text.len();
        self.add_part(name, PartKind::Text(Span { begin, end }))
    }

    /// Adds a text to the page, and a part that is this text.
    pub fn push_part(&mut self, name: PartName, text: &str) -> Result<(), AllocError> {
        let begin = self.text.len();
        self.text.push_str(text)?;
        self.mark(name, begin)
    }

    /// Adds a part that is the name of an alternative.
    pub fn push_word(&mut self, name: PartName, word: PartName) -> Result<(), AllocError>
        ensures text { self.new.text ≡ self.old.text }
    {
        self.add_part(name, PartKind::Word(word))
    }

    /// Adds a part that says whether something is so.
    pub fn push_flag(&mut self, name: PartName, is_so: bool) -> Result<(), AllocError>
        ensures text { self.new.text ≡ self.old.text }
    {
        self.add_part(name, PartKind::Flag(is_so))
    }

    /// Adds a part, if parts are asked for.
    fn add_part(&mut self, name: PartName, kind: PartKind) -> Result<(), AllocError>
        ensures text { self.new.text ≡ self.old.text }
    {
        if self.has_parts {
            self.parts.push(Part { name, kind })?;
        }
        Ok(())
    }
}
