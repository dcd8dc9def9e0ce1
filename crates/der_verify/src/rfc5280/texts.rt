//! The texts of the attributes of a name (RFC 5280 appendices A.1 and B).

ghost use Rattle.std.specs.Prelude.{◌≡◌};
ghost use Rattle.std.specs.List.{list_all};
ghost use Rattle.der_lists.specs.ListRef as list_ref;
ghost use Rattle.der_pkix.specs.Name.RdnSequence as name_items;
ghost use Rattle.der_verify.specs.Sizes.{may_be};
ghost use Rattle.der_verify.specs.Texts.{breaks_name, breaks_text, count_of, is_directory_string, is_known, is_printable, may_be_string};

use super::alternatives::is_letter_or_digit;
use crate::bounds::{character_count, is_id_at, may_have};
use crate::elements::{ContentsTest, front, one_within};
use der_pkix::name::Name;
use der_pkix::name::constants::{ID_DOMAIN_COMPONENT, ID_EMAIL_ADDRESS};

/// A rule about the text of an attribute.
#[derive(Clone, Copy)]
pub(crate) enum TextRule {
    Size,
    StringType,
    Characters,
}

/// Returns whether an attribute of a name breaks a rule.
pub(crate) fn breaks_name(name: &Name<'_>, rule: TextRule) -> bool
    ensures { result ≡ breaks_name rule (list_ref.octets_of (name_items.items_of name.now)) }
{
    one_within(name.items().as_bytes(), &BreaksText { rule })
}

/// The test that an attribute breaks a rule.
#[derive(Drop)]
struct BreaksText {
    rule: TextRule,
}

impl ContentsTest for BreaksText {
    ghost use Rattle.der_verify.specs.Texts.{breaks_attribute};

    ghost holds = { λ p. breaks_attribute p.rule };

    fn holds(&self, contents: &[u8]) -> bool {
        match front(contents) {
            Some((_, type_, value)) => match front(value) {
                Some((string, text, _)) => breaks_text(self.rule, type_, string, text),
                None => false,
            },
            None => false,
        }
    }
}

/// Returns whether the text of an attribute of this type breaks a rule.
fn breaks_text(rule: TextRule, type_: &[u8], string: u8, text: &[u8]) -> bool
    ensures { result ≡ breaks_text rule type_.now string text.now }
{
    match rule {
        TextRule::Size => is_known(type_) && !has_size(type_, string, text),
        TextRule::StringType => !may_be_string(type_, string),
        TextRule::Characters => string == 0x13 && !are_printable(text),
    }
}

/// Returns whether A.1 has this type.
fn is_known(type_: &[u8]) -> bool
    ensures { result ≡ is_known type_.now }
{
    is_id_at(
        &[3, 4, 5, 6, 7, 8, 10, 11, 12, 41, 42, 43, 44, 46, 65],
        type_,
    ) || type_ == ID_DOMAIN_COMPONENT.as_slice()
        || type_ == ID_EMAIL_ADDRESS.as_slice()
}

/// Returns whether the text of an attribute has a number of characters that its type allows.
fn has_size(type_: &[u8], string: u8, text: &[u8]) -> bool
    ensures { result ≡ may_be type_.now (count_of string text.now) }
{
    match count_of(string, text) {
        Some(count) => may_have(type_, count),
        None => true,
    }
}

/// Returns the number of characters in a text of this string.
fn count_of(string: u8, text: &[u8]) -> Option<usize>
    ensures { result ≡ count_of string text.now }
{
    if string == 0x0c {
        Some(character_count(text))
    } else if string == 0x1e {
        Some(text.len() / 2)
    } else if string == 0x13 || string == 0x14 || string == 0x16 {
        Some(text.len())
    } else {
        None
    }
}

/// Returns whether an attribute of this type may have a value that is this string.
fn may_be_string(type_: &[u8], string: u8) -> bool
    ensures { result ≡ may_be_string type_.now string }
{
    if is_id_at(&[5, 6, 46], type_) {
        string == 0x13
    } else if type_ == ID_DOMAIN_COMPONENT.as_slice() || type_ == ID_EMAIL_ADDRESS.as_slice() {
        string == 0x16
    } else if is_id_at(&[3, 4, 7, 8, 10, 11, 12, 41, 42, 43, 44, 65], type_) {
        is_directory_string(string)
    } else {
        true
    }
}

/// Returns whether a string is one of DirectoryString.
fn is_directory_string(string: u8) -> bool
    ensures { result ≡ is_directory_string string }
{
    string == 0x0c || string == 0x13 || string == 0x14 || string == 0x1c || string == 0x1e
}

/// Returns whether all octets are characters of PrintableString.
fn are_printable(text: &[u8]) -> bool
    ensures { result ≡ list_all is_printable text.now }
{
    let mut left = text;
    'each: while let [x, others @ ..] = left {
        if !is_printable(*x) {
            return false;
        }
        left = others;
    }
    true
}

/// Returns whether an octet is a character of PrintableString.
fn is_printable(x: u8) -> bool
    ensures { result ≡ is_printable x }
{
    is_letter_or_digit(x)
        || x == 0x20
        || 0x27 <= x && x <= 0x29
        || 0x2b <= x && x <= 0x2f
        || x == 0x3a
        || x == 0x3d
        || x == 0x3f
}
