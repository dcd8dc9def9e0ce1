//! What is asserted of a message and its whole text.

use crate::tests::certview::blocks::block;
use crate::tests::certview::{number_of, written};
use certview_text::{Kind, Outcome, kind_of, shown};
use std::alloc::Global;
use std::process::Abort;
use std::test::Fail;

/// A message and its text.
#[derive(Clone, Copy, Debug, PartialEq, Eq)]
pub struct Message {
    /// Its kind.
    pub kind: Kind,
    /// Its octets, as hex digits.
    pub octets: &'static str,
    /// Its whole text.
    pub text: &'static str,
}

/// Asserts that this text is shown, and that the tags of the message's fields give its kind. The
/// kind of Diffie-Hellman parameters is not checked, since their tags are those of DSA parameters
/// or of an RSA key.
pub fn assert_text(rt: &impl Abort, alloc: Global, message: &Message) -> Result<(), Fail> {
    let octets = hex::decode(alloc, message.octets)?;
    let text = shown(alloc, message.kind, octets.as_slice())?;
    assert_eq!(rt; text.as_str(), message.text);
    if message.kind != Kind::DhParameters {
        assert_eq!(rt; kind_of(octets.as_slice()), message.kind);
    }
    Ok(())
}

/// Asserts that each proper prefix of the message, and the message with an octet after it, are
/// refused.
pub fn assert_cut_is_refused(
    rt: &impl Abort,
    alloc: Global,
    message: &Message,
) -> Result<(), Fail> {
    let mut octets = hex::decode(alloc, message.octets)?;
    for count in 1..octets.len() {
        let number = number_of(alloc, &octets[..count]);
        assert_eq!(rt; number, Some(2), "of {count} octets");
    }
    octets.push(0)?;
    assert_eq!(rt; number_of(alloc, octets.as_slice()), Some(3));
    Ok(())
}

/// Asserts that a block of PEM text with this label is shown as the message.
pub fn assert_label(
    rt: &impl Abort,
    alloc: Global,
    message: &Message,
    label: &str,
) -> Result<(), Fail> {
    let text = block(alloc, label, message.octets)?;
    let (result, written) = written(alloc, text.as_bytes());
    assert_eq!(rt; result, Ok(Outcome::Whole));
    assert_eq!(rt; str::from_utf8(written.as_slice())?, message.text);
    Ok(())
}
