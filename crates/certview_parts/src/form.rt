//! The two forms in which the items of a page are written.

use crate::field_name::FieldName;
use crate::json::Json;
use crate::page::{Entry, Item, ItemKind, Page};
use crate::place::Place;
use std::alloc::{AllocError, Global};
use std::fmt::Write;

/// The form in which fields are written.
#[derive(Clone, Copy, Debug, PartialEq, Eq)]
pub enum Form {
    /// For people, one line each.
    Text,
    /// As part of a JSON document; true if the input is its first one.
    Json(bool),
}

/// A writer of the items of successive pages.
#[derive(Clone, Copy, Debug)]
pub struct Writer<'a> {
    fields: Option<&'a [FieldName]>,
    json: Option<Json>,
}

impl<'a> Writer<'a> {
    /// Returns a writer of these fields, or of all fields, in this form.
    pub fn new(form: Form, fields: Option<&'a [FieldName]>) -> Writer<'a> {
        Writer {
            fields,
            json: match form {
                Form::Text => None,
                Form::Json(is_first) => Some(Json::new(is_first)),
            },
        }
    }

    /// Adds the items of a page.
    pub fn add(&mut self, alloc: Global, out: &mut String, page: &Page) -> Result<(), AllocError> {
        let mut said: usize = 0;
        for (index, item) in page.items.as_slice().iter().enumerate() {
            if self.is_left_out(item) {
                continue;
            }
            let entry = Entry {
                page,
                index,
                item: *item,
            };
            match &mut self.json {
                Some(json) => said = json.add(alloc, out, &entry, said)?,
                None => push_item(out, &entry, self.fields.is_none())?,
            }
        }
        Ok(())
    }

    /// Adds the text after the last item.
    pub fn end(&mut self, out: &mut String) -> Result<(), AllocError> {
        match &mut self.json {
            Some(json) => json.end(out),
            None => Ok(()),
        }
    }

    /// Returns whether an item is a field that was not asked for.
    fn is_left_out(&self, item: &Item) -> bool {
        match (self.fields, item.kind) {
            (Some(fields), ItemKind::Field(field, _)) => !fields.contains(&field),
            _ => false,
        }
    }
}

/// Adds the line of an item. If only some fields were asked for, the line of a message is left
/// out.
fn push_item(out: &mut String, entry: &Entry<'_>, has_titles: bool) -> Result<(), AllocError> {
    let (name, value) = (entry.name(), entry.value());
    match entry.item.kind {
        ItemKind::Input => writeln!(out, "{value}:"),
        ItemKind::Block(number, count) => push_heading(out, number, count, value),
        ItemKind::Message(place) if has_titles => {
            push_place(out, &place)?;
            writeln!(out, "{name}")
        }
        ItemKind::Message(_) => Ok(()),
        ItemKind::Field(_, place) => {
            push_place(out, &place)?;
            writeln!(out, "{name}: {value}")
        }
        ItemKind::Refused => writeln!(out, "{value}"),
    }
}

/// Adds the line that names one of several blocks.
fn push_heading(
    out: &mut String,
    number: usize,
    count: usize,
    label: &str,
) -> Result<(), AllocError> {
    if number > 0 {
        out.push('\n')?;
    }
    let number = number.saturating_add(1);
    writeln!(out, "block {number} of {count}: {label}")
}

/// Adds the offset and the length of a field; no numbers if it is absent.
fn push_place(out: &mut String, place: &Place) -> Result<(), AllocError> {
    let (begin, count) = (place.offset, place.length);
    if count == 0 {
        return out.push_str("             ");
    }
    write!(out, "{begin:>5} {count:>5}  ")
}
