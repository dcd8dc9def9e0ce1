//! The words of the command line. They are octets, and the name of a file may consist of any
//! octets, but the library that parses them takes text. A word therefore represents each octet
//! that is no part of UTF-8 text as a mark and two digits.

use std::alloc::{AllocError, Global};
use std::env::FillError;
use std::fmt::Write;
use std::rt::Env;

/// The character before the two digits of an octet. No argument contains it, because it ends one.
const MARK: char = '\0';

/// Returns the words of the command line. The first one is the name by which the program was
/// called.
///
/// # Errors
/// `AllocError` if memory runs out.
pub fn words_of(rt: &HostRuntime) -> Result<Vec<String>, AllocError> {
    let mut words = Vec::new(rt.alloc());
    for number in 0..usize::MAX {
        match argument(rt, number)? {
            Some(octets) => words.push(word_of(rt.alloc(), octets.as_slice())?)?,
            None => break,
        }
    }
    Ok(words)
}

/// Returns the octets of the argument with this number, if there is one. It doubles the buffer
/// until the argument fits.
fn argument(rt: &HostRuntime, number: usize) -> Result<Option<Vec<u8>>, AllocError> {
    let mut count: usize = 256;
    for _ in 0..usize::BITS {
        match argument_within(rt, number, count)? {
            Ok(octets) => return Ok(Some(octets)),
            Err(FillError::TooLong) => count = count.saturating_mul(2),
            Err(FillError::NotPresent) => return Ok(None),
        }
    }
    Err(AllocError)
}

/// Returns the octets of the argument with this number, if there are at most `count`.
fn argument_within(
    rt: &HostRuntime,
    number: usize,
    count: usize,
) -> Result<Result<Vec<u8>, FillError>, AllocError> {
    let mut room = Vec::new(rt.alloc());
    room.resize(count, 0u8)?;
    match rt.arg(number, room.as_mut_slice()) {
        Ok(length) => {
            room.truncate(length);
            Ok(Ok(room))
        }
        Err(error) => Ok(Err(error)),
    }
}

/// Returns the word for these octets.
fn word_of(alloc: Global, octets: &[u8]) -> Result<String, AllocError> {
    let mut word = String::new(alloc);
    for chunk in octets.utf8_chunks() {
        word.push_str(chunk.valid())?;
        push_marked(&mut word, chunk.invalid())?;
    }
    Ok(word)
}

fn push_marked(word: &mut String, octets: &[u8]) -> Result<(), AllocError> {
    for octet in octets {
        word.push(MARK)?;
        write!(word, "{octet:02x}")?;
    }
    Ok(())
}

/// Returns whether a word is the unchanged argument.
pub fn is_text(word: &str) -> bool {
    !word.contains(MARK)
}

/// Returns a word in the form that is shown: with a `\` in place of each mark.
///
/// # Errors
/// `AllocError` if memory runs out.
pub fn name_of_word(alloc: Global, word: &str) -> Result<String, AllocError> {
    let mut name = String::new(alloc);
    for character in word.chars() {
        let shown = if character == MARK { '\\' } else { character };
        name.push(shown)?;
    }
    Ok(name)
}
