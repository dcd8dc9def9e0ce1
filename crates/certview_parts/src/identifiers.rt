//! Object identifiers as text.

use crate::content_names::CONTENTS;
use crate::hexadecimal::push_digits;
use crate::identifier_names::{ALGORITHMS, ATTRIBUTES, CURVES, EXTENSIONS, Named, PURPOSES};
use crate::irregular::note_identifier;
use crate::page::Page;
use crate::part_name::PartName;
use crate::printer::Printer;
use std::alloc::{AllocError, Global};
use std::fmt::Write;

/// Adds the identifier in these contents octets, and in brackets its name if a table has one.
/// Notes octets that are no identifier.
pub fn push_identifier(printer: &mut Printer<'_>, identifier: &[u8]) -> Result<(), AllocError> {
    note_identifier(printer.page, identifier)?;
    let dotted = dotted(printer.alloc, identifier)?;
    printer.push_str(dotted.as_str())?;
    match name_of(dotted.as_str()) {
        Some(name) => write!(printer.page.text, " ({name})"),
        None => Ok(()),
    }
}

/// Adds the identifier in these contents octets as `push_identifier` does, and a part that is an
/// object with the identifier and its name.
pub fn push_identifier_part(
    printer: &mut Printer<'_>,
    part: PartName,
    identifier: &[u8],
) -> Result<(), AllocError> {
    printer.page.open(part)?;
    push_identifier_fields(printer, PartName::Id, identifier)?;
    printer.page.close()
}

/// Adds the identifier in these contents octets as `push_identifier` does, and parts that are the
/// identifier and its name.
pub fn push_identifier_fields(
    printer: &mut Printer<'_>,
    part: PartName,
    identifier: &[u8],
) -> Result<(), AllocError> {
    note_identifier(printer.page, identifier)?;
    let dotted = dotted(printer.alloc, identifier)?;
    printer.page.push_part(part, dotted.as_str())?;
    match name_of(dotted.as_str()) {
        Some(name) => push_name_field(printer.page, name),
        None => Ok(()),
    }
}

/// Adds the name of an identifier in brackets, and a part that is the name.
fn push_name_field(page: &mut Page, name: &str) -> Result<(), AllocError> {
    page.text.push_str(" (")?;
    page.push_part(PartName::Name, name)?;
    page.text.push(')')
}

/// Adds the name of an attribute's identifier, or else the identifier (RFC 4514 section 2.3).
pub fn push_attribute_type(printer: &mut Printer<'_>, identifier: &[u8]) -> Result<(), AllocError> {
    note_identifier(printer.page, identifier)?;
    let dotted = dotted(printer.alloc, identifier)?;
    match name_in(&ATTRIBUTES, dotted.as_str()) {
        Some(name) => printer.push_str(name),
        None => printer.push_str(dotted.as_str()),
    }
}

/// Returns the name of an identifier of any kind.
fn name_of(dotted: &str) -> Option<&'static str> {
    if let Some(name) = name_in(&EXTENSIONS, dotted) {
        return Some(name);
    }
    if let Some(name) = name_in(&ALGORITHMS, dotted) {
        return Some(name);
    }
    if let Some(name) = name_in(&PURPOSES, dotted) {
        return Some(name);
    }
    if let Some(name) = name_in(&CONTENTS, dotted) {
        return Some(name);
    }
    match curve_of(dotted) {
        Some((name, _bits)) => Some(name),
        None => name_in(&ATTRIBUTES, dotted),
    }
}

/// Returns the name of an identifier in a table.
fn name_in(table: &[Named], dotted: &str) -> Option<&'static str> {
    for (identifier, name) in table {
        if *identifier == dotted {
            return Some(*name);
        }
    }
    None
}

/// Returns the name of a curve, and the number of bits of an element of its field.
fn curve_of(dotted: &str) -> Option<(&'static str, usize)> {
    for (identifier, name, bits) in &CURVES {
        if *identifier == dotted {
            return Some((*name, *bits));
        }
    }
    None
}

/// Returns the number of bits of an element of a curve's field, if the curve with these contents
/// octets is known.
pub fn curve_bits(alloc: Global, identifier: &[u8]) -> Result<Option<usize>, AllocError> {
    let dotted = dotted(alloc, identifier)?;
    match curve_of(dotted.as_str()) {
        Some((_name, bits)) => Ok(Some(bits)),
        None => Ok(None),
    }
}

/// Returns the arcs with dots between them. Returns `#` and the octets as digits if an arc
/// exceeds 64 bits, is not in the fewest octets (X.690 8.19.2), or if the last one is cut short, and `#`
/// alone for no octets.
fn dotted(alloc: Global, octets: &[u8]) -> Result<String, AllocError> {
    let mut page = Page::new(alloc);
    if push_arcs(&mut page, octets)? {
        return Ok(page.text);
    }
    page.text.clear();
    page.text.push('#')?;
    push_digits(&mut page, octets)?;
    Ok(page.text)
}

/// Adds the arcs and returns whether these are all.
fn push_arcs(page: &mut Page, octets: &[u8]) -> Result<bool, AllocError> {
    let mut arc: u64 = 0;
    let mut is_whole = true;
    for octet in octets {
        if is_whole && *octet == 0x80 {
            return Ok(false);
        }
        let Some(shifted) = arc.checked_mul(128) else {
            return Ok(false);
        };
        arc = shifted | u64::from(*octet & 0x7f);
        is_whole = *octet < 0x80;
        if is_whole {
            push_arc(page, arc)?;
            arc = 0;
        }
    }
    Ok(is_whole && !octets.is_empty())
}

/// Adds an arc. The first number encodes two arcs (X.690 8.19.4).
fn push_arc(page: &mut Page, arc: u64) -> Result<(), AllocError> {
    if !page.text.is_empty() {
        return write!(page.text, ".{arc}");
    }
    let root = (arc / 40).min(2);
    let second = arc - 40 * root;
    write!(page.text, "{root}.{second}")
}
