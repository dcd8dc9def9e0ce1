//! BOOLEAN, NULL, INTEGER and UTF8String as built-in types, from kept contents octets.
//!
//! Each conversion fails on another tag (4, with no expected tag), and then with the errors of
//! decoding the type. It takes no memory.

ghost use Rattle.std.specs.Prelude.{◌≡◌, ◌≤◌, ◌<◌, true};
ghost use Rattle.std.specs.Str.{is_utf8};
ghost use Rattle.der_tlv.specs.declared.tag.Tag.TheVariants.{Integer, Utf8String};
ghost use Rattle.der_elem.specs.Utf8String.{parse_utf8};
ghost use Rattle.der_opaque.specs.DecodingAs.{DecodesOwnAs};
ghost use Rattle.der_opaque.specs.AnyRef.{tag_of, contents_of};
ghost use Rattle.der_opaque.specs.BuiltinTypes.{DecodesBoolean, DecodesNull, DecodesSigned, DecodesUnsigned};

use crate::any_ref::AnyRef;
use der_elem::{boolean_of, null_of, signed_of, text_of, unsigned_of};
use der_tlv::{Error, Tag};

/// Decodes contents octets as an integer of at most `width` octets, which is up to 16.
///
/// # Errors
/// `ErrorKind::TagUnexpected` (4) with no expected tag for another tag than INTEGER. Else, in
/// this order: no octets (`ErrorKind::Length`, 7); more than the width
/// (`ErrorKind::Noncanonical`, 8); a redundant first octet (`ErrorKind::Noncanonical`, 8).
fn signed_as(any: AnyRef<'_>, width: usize) -> Result<i128, Error>
    requires some { 0 < width }
    requires most { width ≤ 16 }
    ensures { DecodesSigned width (tag_of any.entry) (contents_of any.entry) result }
{
    if !any.tag.equals(Tag::Integer) {
        return Err(Error::from_kind(any.tag.unexpected_error(None)));
    }
    match signed_of(any.value, width) {
        Ok(integer) => Ok(integer),
        Err(kind) => Err(Error::from_kind(kind)),
    }
}

/// Decodes contents octets as a number of at most `width` octets, which is up to 16.
///
/// # Errors
/// `ErrorKind::TagUnexpected` (4) with no expected tag for another tag than INTEGER. Else, in
/// this order: no octets (`ErrorKind::Length`, 7); more than the width plus one
/// (`ErrorKind::Noncanonical`, 8); a 00 before an octet below 80 (`ErrorKind::Noncanonical`, 8);
/// a negative number (`ErrorKind::Value`, 13); the width plus one octets whose first octet is not
/// 00 (`ErrorKind::Length`, 7).
fn unsigned_as(any: AnyRef<'_>, width: usize) -> Result<u128, Error>
    requires some { 0 < width }
    requires most { width ≤ 16 }
    ensures { DecodesUnsigned width (tag_of any.entry) (contents_of any.entry) result }
{
    if !any.tag.equals(Tag::Integer) {
        return Err(Error::from_kind(any.tag.unexpected_error(None)));
    }
    match unsigned_of(any.value, width) {
        Ok(number) => Ok(number),
        Err(kind) => Err(Error::from_kind(kind)),
    }
}

impl<'a> TryFrom<AnyRef<'a>> for bool {
    type Error = Error;

    ghost try_from_gives = { λ a r. DecodesBoolean (tag_of a) (contents_of a) r };

    /// Decodes one contents octet as a truth value, under DER: 00 is false, FF is true.
    ///
    /// # Errors
    /// `ErrorKind::TagUnexpected` (4) with no expected tag for another tag; `ErrorKind::Length` (7)
    /// unless there is one contents octet; `ErrorKind::Noncanonical` (8) for any octet but 00 and
    /// FF.
    fn try_from(any: AnyRef<'a>) -> Result<bool, Error> {
        if !any.tag.equals(Tag::Boolean) {
            return Err(Error::from_kind(any.tag.unexpected_error(None)));
        }
        match boolean_of(any.value) {
            Ok(truth) => Ok(truth),
            Err(kind) => Err(Error::from_kind(kind)),
        }
    }
}

impl<'a> TryFrom<AnyRef<'a>> for () {
    type Error = Error;

    ghost try_from_gives = { λ a r. DecodesNull (tag_of a) (contents_of a) r };

    /// Decodes NULL, which has no contents octets.
    ///
    /// # Errors
    /// `ErrorKind::TagUnexpected` (4) with no expected tag for another tag; `ErrorKind::Length` (7)
    /// for any contents octets.
    fn try_from(any: AnyRef<'a>) -> Result<(), Error> {
        if !any.tag.equals(Tag::Null) {
            return Err(Error::from_kind(any.tag.unexpected_error(None)));
        }
        match null_of(any.value) {
            Ok(()) => Ok(()),
            Err(kind) => Err(Error::from_kind(kind)),
        }
    }
}

impl<'a> TryFrom<AnyRef<'a>> for &'a str {
    type Error = Error;

    ghost try_from_gives = { λ a r. DecodesOwnAs Utf8String (λ text. text.now) (λ text.
        is_utf8 text.now ≡ true) parse_utf8 (tag_of a) (contents_of a) r };

    /// Decodes the contents octets of a UTF8String, which are UTF-8, as a text.
    ///
    /// # Errors
    /// `ErrorKind::TagUnexpected` (4) with no expected tag for another tag; `ErrorKind::Utf8` (12)
    /// for octets that are not UTF-8.
    fn try_from(any: AnyRef<'a>) -> Result<&'a str, Error> {
        if !any.tag.equals(Tag::Utf8String) {
            return Err(Error::from_kind(any.tag.unexpected_error(None)));
        }
        match text_of(any.value) {
            Ok(text) => Ok(text),
            Err(kind) => Err(Error::from_kind(kind)),
        }
    }
}

impl<'a> TryFrom<AnyRef<'a>> for i8 {
    type Error = Error;

    ghost try_from_gives = { λ a r. DecodesSigned 1 (tag_of a) (contents_of a) r };

    /// Decodes the contents octets as an integer in two's complement, under DER.
    ///
    /// # Errors
    /// `ErrorKind::TagUnexpected` (4) with no expected tag for another tag; `ErrorKind::Length` (7)
    /// for no octets; `ErrorKind::Noncanonical` (8) for more than 1, or a redundant first octet.
    fn try_from(any: AnyRef<'a>) -> Result<i8, Error> {
        match signed_as(any, 1) {
            Ok(integer) => Ok(integer as i8),
            Err(e) => Err(e),
        }
    }
}

impl<'a> TryFrom<AnyRef<'a>> for i16 {
    type Error = Error;

    ghost try_from_gives = { λ a r. DecodesSigned 2 (tag_of a) (contents_of a) r };

    /// Decodes the contents octets as an integer in two's complement, under DER.
    ///
    /// # Errors
    /// `ErrorKind::TagUnexpected` (4) with no expected tag for another tag; `ErrorKind::Length` (7)
    /// for no octets; `ErrorKind::Noncanonical` (8) for more than 2, or a redundant first octet.
    fn try_from(any: AnyRef<'a>) -> Result<i16, Error> {
        match signed_as(any, 2) {
            Ok(integer) => Ok(integer as i16),
            Err(e) => Err(e),
        }
    }
}

impl<'a> TryFrom<AnyRef<'a>> for i32 {
    type Error = Error;

    ghost try_from_gives = { λ a r. DecodesSigned 4 (tag_of a) (contents_of a) r };

    /// Decodes the contents octets as an integer in two's complement, under DER.
    ///
    /// # Errors
    /// `ErrorKind::TagUnexpected` (4) with no expected tag for another tag; `ErrorKind::Length` (7)
    /// for no octets; `ErrorKind::Noncanonical` (8) for more than 4, or a redundant first octet.
    fn try_from(any: AnyRef<'a>) -> Result<i32, Error> {
        match signed_as(any, 4) {
            Ok(integer) => Ok(integer as i32),
            Err(e) => Err(e),
        }
    }
}

impl<'a> TryFrom<AnyRef<'a>> for i64 {
    type Error = Error;

    ghost try_from_gives = { λ a r. DecodesSigned 8 (tag_of a) (contents_of a) r };

    /// Decodes the contents octets as an integer in two's complement, under DER.
    ///
    /// # Errors
    /// `ErrorKind::TagUnexpected` (4) with no expected tag for another tag; `ErrorKind::Length` (7)
    /// for no octets; `ErrorKind::Noncanonical` (8) for more than 8, or a redundant first octet.
    fn try_from(any: AnyRef<'a>) -> Result<i64, Error> {
        match signed_as(any, 8) {
            Ok(integer) => Ok(integer as i64),
            Err(e) => Err(e),
        }
    }
}

impl<'a> TryFrom<AnyRef<'a>> for i128 {
    type Error = Error;

    ghost try_from_gives = { λ a r. DecodesSigned 16 (tag_of a) (contents_of a) r };

    /// Decodes the contents octets as an integer in two's complement, under DER.
    ///
    /// # Errors
    /// `ErrorKind::TagUnexpected` (4) with no expected tag for another tag; `ErrorKind::Length` (7)
    /// for no octets; `ErrorKind::Noncanonical` (8) for more than 16, or a redundant first octet.
    fn try_from(any: AnyRef<'a>) -> Result<i128, Error> {
        signed_as(any, 16)
    }
}

impl<'a> TryFrom<AnyRef<'a>> for u8 {
    type Error = Error;

    ghost try_from_gives = { λ a r. DecodesUnsigned 1 (tag_of a) (contents_of a) r };

    /// Decodes the contents octets as a number, under DER. A first octet of 80 or more has a 00
    /// before it.
    ///
    /// # Errors
    /// `ErrorKind::TagUnexpected` (4) with no expected tag for another tag; `ErrorKind::Length`
    /// (7) for no octets; `ErrorKind::Noncanonical` (8) for more than 2, or a 00 before an octet
    /// below 80; `ErrorKind::Value` (13) for a negative number; `ErrorKind::Length` (7) for 2
    /// octets whose first octet is not 00.
    fn try_from(any: AnyRef<'a>) -> Result<u8, Error> {
        match unsigned_as(any, 1) {
            Ok(number) => Ok(number as u8),
            Err(e) => Err(e),
        }
    }
}

impl<'a> TryFrom<AnyRef<'a>> for u16 {
    type Error = Error;

    ghost try_from_gives = { λ a r. DecodesUnsigned 2 (tag_of a) (contents_of a) r };

    /// Decodes the contents octets as a number, under DER. A first octet of 80 or more has a 00
    /// before it.
    ///
    /// # Errors
    /// `ErrorKind::TagUnexpected` (4) with no expected tag for another tag; `ErrorKind::Length`
    /// (7) for no octets; `ErrorKind::Noncanonical` (8) for more than 3, or a 00 before an octet
    /// below 80; `ErrorKind::Value` (13) for a negative number; `ErrorKind::Length` (7) for 3
    /// octets whose first octet is not 00.
    fn try_from(any: AnyRef<'a>) -> Result<u16, Error> {
        match unsigned_as(any, 2) {
            Ok(number) => Ok(number as u16),
            Err(e) => Err(e),
        }
    }
}

impl<'a> TryFrom<AnyRef<'a>> for u32 {
    type Error = Error;

    ghost try_from_gives = { λ a r. DecodesUnsigned 4 (tag_of a) (contents_of a) r };

    /// Decodes the contents octets as a number, under DER. A first octet of 80 or more has a 00
    /// before it.
    ///
    /// # Errors
    /// `ErrorKind::TagUnexpected` (4) with no expected tag for another tag; `ErrorKind::Length`
    /// (7) for no octets; `ErrorKind::Noncanonical` (8) for more than 5, or a 00 before an octet
    /// below 80; `ErrorKind::Value` (13) for a negative number; `ErrorKind::Length` (7) for 5
    /// octets whose first octet is not 00.
    fn try_from(any: AnyRef<'a>) -> Result<u32, Error> {
        match unsigned_as(any, 4) {
            Ok(number) => Ok(number as u32),
            Err(e) => Err(e),
        }
    }
}

impl<'a> TryFrom<AnyRef<'a>> for u64 {
    type Error = Error;

    ghost try_from_gives = { λ a r. DecodesUnsigned 8 (tag_of a) (contents_of a) r };

    /// Decodes the contents octets as a number, under DER. A first octet of 80 or more has a 00
    /// before it.
    ///
    /// # Errors
    /// `ErrorKind::TagUnexpected` (4) with no expected tag for another tag; `ErrorKind::Length`
    /// (7) for no octets; `ErrorKind::Noncanonical` (8) for more than 9, or a 00 before an octet
    /// below 80; `ErrorKind::Value` (13) for a negative number; `ErrorKind::Length` (7) for 9
    /// octets whose first octet is not 00.
    fn try_from(any: AnyRef<'a>) -> Result<u64, Error> {
        match unsigned_as(any, 8) {
            Ok(number) => Ok(number as u64),
            Err(e) => Err(e),
        }
    }
}

impl<'a> TryFrom<AnyRef<'a>> for u128 {
    type Error = Error;

    ghost try_from_gives = { λ a r. DecodesUnsigned 16 (tag_of a) (contents_of a) r };

    /// Decodes the contents octets as a number, under DER. A first octet of 80 or more has a 00
    /// before it.
    ///
    /// # Errors
    /// `ErrorKind::TagUnexpected` (4) with no expected tag for another tag; `ErrorKind::Length`
    /// (7) for no octets; `ErrorKind::Noncanonical` (8) for more than 17, or a 00 before an octet
    /// below 80; `ErrorKind::Value` (13) for a negative number; `ErrorKind::Length` (7) for 17
    /// octets whose first octet is not 00.
    fn try_from(any: AnyRef<'a>) -> Result<u128, Error> {
        unsigned_as(any, 16)
    }
}
