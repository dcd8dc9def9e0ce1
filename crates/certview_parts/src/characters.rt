//! Characters of a message in a form that is safe to display.

ghost use Rattle.std.specs.Prelude.{◌≡◌};
ghost use Rattle.certview_parts.specs.Characters.{is_hidden, is_plain};

use crate::hexadecimal::push_octet;
use crate::page::Page;
use std::alloc::{AllocError, Global};
use unicode::properties::{GeneralCategory, is_default_ignorable_code_point};

/// What may follow the characters in a line.
#[derive(Clone, Copy, Debug, PartialEq, Eq)]
pub enum Behind {
    /// A comma, a `+`, or the end of the line.
    Mark,
    /// A mark, or a space and one of `WORDS`.
    Word,
}

/// The words between values, with a space before and after them.
const WORDS: [&str; 4] = ["and", "from", "to", "with"];

/// Adds characters as RFC 4514 section 2.4 writes them: with a `\` before those that it escapes,
/// before a `#` or a space at the start of the text, and before a space at its end. If a word may
/// follow the characters, a `\` also precedes each space before such a word. Characters that a
/// terminal does not show, or that act on it, are written as `\` and two digits for each octet of
/// UTF-8.
pub fn push_escaped(page: &mut Page, characters: &str, behind: Behind) -> Result<(), AllocError> {
    match characters.strip_suffix(" ") {
        Some(front) => {
            push_front(page, front, behind)?;
            page.text.push_str("\\ ")
        }
        None => push_front(page, characters, behind),
    }
}

fn push_front(page: &mut Page, characters: &str, behind: Behind) -> Result<(), AllocError> {
    for (index, character) in characters.char_indices() {
        if is_escaped(character, index == 0)
            || character == ' ' && behind == Behind::Word && is_before_word(characters, index)
        {
            page.text.push('\\')?;
        }
        push_character(page, character)?;
    }
    Ok(())
}

fn is_escaped(character: char, is_first: bool) -> bool {
    match character {
        '"' | '+' | ',' | ';' | '<' | '>' | '\\' => true,
        '#' | ' ' => is_first,
        _ => false,
    }
}

/// Returns whether the space at this offset precedes one of the words, as a whole.
fn is_before_word(characters: &str, index: usize) -> bool {
    let rest = match characters.split_at_checked(index.saturating_add(1)) {
        Some((_, rest)) => rest,
        None => "",
    };
    for word in &WORDS {
        if is_word(rest, word) {
            return true;
        }
    }
    false
}

/// Returns whether the characters are a word, or begin with it and a space.
fn is_word(characters: &str, word: &str) -> bool {
    match characters.strip_prefix(word) {
        Some(after) => after.is_empty() || after.starts_with(" "),
        None => false,
    }
}

/// Adds characters outside of names. Those that are not safe to display are escaped as in a name;
/// others are unchanged.
pub fn push_plain(page: &mut Page, characters: &str) -> Result<(), AllocError> {
    for character in characters.chars() {
        push_character(page, character)?;
    }
    Ok(())
}

/// Returns a text in a form that is safe to display, as `push_plain` adds it.
pub fn plain(alloc: Global, characters: &str) -> Result<String, AllocError> {
    let mut page = Page::new(alloc);
    push_plain(&mut page, characters)?;
    Ok(page.text)
}

fn push_character(page: &mut Page, character: char) -> Result<(), AllocError> {
    if is_plain(character) {
        return page.text.push(character);
    }
    let mut buffer = [0; 4];
    for octet in character.encode_utf8(&mut buffer).as_bytes() {
        page.text.push('\\')?;
        push_octet(page, *octet)?;
    }
    Ok(())
}

/// Returns whether a character is shown unchanged. It is not if it is in one of the Unicode
/// categories Cc, Cf, Cs, Co, Cn, Zl and Zp, which include those that change the direction of
/// text, or if a terminal shows nothing for it.
pub fn is_plain(character: char) -> bool
    ensures { result ≡ is_plain character }
{
    !is_hidden(GeneralCategory::for_char(character)) && !is_default_ignorable_code_point(character)
}

fn is_hidden(category: GeneralCategory) -> bool
    ensures { result ≡ is_hidden category }
{
    match category {
        GeneralCategory::Control
        | GeneralCategory::Format
        | GeneralCategory::Surrogate
        | GeneralCategory::PrivateUse
        | GeneralCategory::Unassigned
        | GeneralCategory::LineSeparator
        | GeneralCategory::ParagraphSeparator => true,
        _ => false,
    }
}
