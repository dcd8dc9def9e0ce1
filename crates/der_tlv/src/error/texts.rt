//! The texts of errors, and of the lengths and tags in them.

ghost use Rattle.std.specs.Prelude.{◌≡◌};
ghost use Rattle.der_tlv.specs.Texts.{form_text, universal_text, fixed_text};

use crate::error::{Error, ErrorKind};
use crate::length::Length;
use crate::tag::{Tag, TagNumber};
use std::fmt;

/// Writes the number of octets in decimal.
impl fmt::Display for Length {
    ghost use Rattle.std.specs.Prelude.{Some};
    ghost use Rattle.std.specs.Fmt.{decimal};

    ghost output = { λ l. Some (decimal l) };

    fn fmt<W: fmt::Write>(&self, f: &mut fmt::Formatter<W>) -> fmt::Result {
        let octets = self.value();
        write!(f, "{octets}")
    }
}

/// Writes the number in decimal.
impl fmt::Display for TagNumber {
    ghost use Rattle.std.specs.Prelude.{Some};
    ghost use Rattle.std.specs.Fmt.{decimal};

    ghost output = { λ n. Some (decimal n.0) };

    fn fmt<W: fmt::Write>(&self, f: &mut fmt::Formatter<W>) -> fmt::Result {
        let number = self.0;
        write!(f, "{number}")
    }
}

/// Writes the X.680 name of a universal type, as `INTEGER`. For another tag it writes the form,
/// and the X.680 notation of the class and the number, as `constructed [0]` or
/// `primitive [APPLICATION 3]`.
impl fmt::Display for Tag {
    ghost use Rattle.std.specs.Prelude.{Some};
    ghost use Rattle.der_tlv.specs.Texts.{tag_text};

    ghost output = { λ t. Some (tag_text t) };

    fn fmt<W: fmt::Write>(&self, f: &mut fmt::Formatter<W>) -> fmt::Result {
        match *self {
            Tag::Application {
                constructed,
                number,
            } => {
                let form = form_name(constructed);
                write!(f, "{form} [APPLICATION {number}]")
            }
            Tag::ContextSpecific {
                constructed,
                number,
            } => {
                let form = form_name(constructed);
                write!(f, "{form} [{number}]")
            }
            Tag::Private {
                constructed,
                number,
            } => {
                let form = form_name(constructed);
                write!(f, "{form} [PRIVATE {number}]")
            }
            tag => f.write_str(universal_name(tag)),
        }
    }
}

/// Returns the form of an encoding, as a word.
fn form_name(constructed: bool) -> &'static str
    ensures { result.now ≡ form_text constructed }
{
    if constructed {
        "constructed"
    } else {
        "primitive"
    }
}

/// Returns the name of a universal type (X.680 8.4, table 1), or an empty text for another tag.
fn universal_name(tag: Tag) -> &'static str
    ensures { result.now ≡ universal_text tag }
{
    match tag {
        Tag::Boolean => "BOOLEAN",
        Tag::Integer => "INTEGER",
        Tag::BitString => "BIT STRING",
        Tag::OctetString => "OCTET STRING",
        Tag::Null => "NULL",
        Tag::ObjectIdentifier => "OBJECT IDENTIFIER",
        Tag::Real => "REAL",
        Tag::Enumerated => "ENUMERATED",
        Tag::Utf8String => "UTF8String",
        Tag::RelativeOid => "RELATIVE-OID",
        Tag::Sequence => "SEQUENCE",
        Tag::Set => "SET",
        Tag::NumericString => "NumericString",
        Tag::PrintableString => "PrintableString",
        Tag::TeletexString => "TeletexString",
        Tag::VideotexString => "VideotexString",
        Tag::Ia5String => "IA5String",
        Tag::UtcTime => "UTCTime",
        Tag::GeneralizedTime => "GeneralizedTime",
        Tag::VisibleString => "VisibleString",
        Tag::GeneralString => "GeneralString",
        Tag::BmpString => "BMPString",
        _ => "",
    }
}

/// Writes the error, as in `the octets end too soon: 5 are needed, and 3 are there`.
impl fmt::Display for ErrorKind {
    ghost use Rattle.std.specs.Prelude.{Some};
    ghost use Rattle.der_tlv.specs.Texts.{kind_text};

    ghost output = { λ k. Some (kind_text k) };

    fn fmt<W: fmt::Write>(&self, f: &mut fmt::Formatter<W>) -> fmt::Result {
        match *self {
            ErrorKind::Incomplete {
                expected_len,
                actual_len,
            } => write!(
                f,
                "the octets end too soon: {expected_len} are needed, and {actual_len} are there"
            ),
            ErrorKind::TrailingData { decoded, remaining } => {
                write!(f, "octets are left over: {remaining}, behind {decoded}")
            }
            ErrorKind::TagUnexpected {
                expected: Some(expected),
                actual,
            } => write!(f, "{actual} stands where {expected} is expected"),
            ErrorKind::TagUnexpected {
                expected: None,
                actual,
            } => write!(f, "{actual} may not stand there"),
            ErrorKind::TagUnknown { byte } => {
                write!(f, "no known tag begins with the octet 0x{byte:x}")
            }
            ErrorKind::Length { tag } => write!(f, "contents of a length that {tag} does not have"),
            ErrorKind::Noncanonical { tag } => write!(f, "{tag} in a form that DER forbids"),
            ErrorKind::Value { tag } => write!(f, "contents that are no value of {tag}"),
            kind => f.write_str(fixed_text(kind)),
        }
    }
}

/// Returns the text of a kind that has no fields, or an empty text for another kind.
fn fixed_text(kind: ErrorKind) -> &'static str
    ensures { result.now ≡ fixed_text kind }
{
    match kind {
        ErrorKind::Memory => "memory ran out",
        ErrorKind::TagNumberInvalid =>
            "a tag number that is out of range or not in its shortest form",
        ErrorKind::Overflow => "a number of octets that is out of range",
        ErrorKind::Overlength => "a length that is too great or not in its shortest form",
        ErrorKind::SetOrdering => "items of a set that are not in order",
        ErrorKind::Utf8 => "octets that are no UTF-8",
        ErrorKind::DateTime => "no date or time",
        ErrorKind::OidMalformed => "no object identifier",
        ErrorKind::IndefiniteLength => "an indefinite length",
        ErrorKind::Failed => "refused before",
        _ => "",
    }
}

/// Writes the error, and the position if it is known, as in
/// `octets that are no UTF-8, at position 12`.
impl fmt::Display for Error {
    ghost use Rattle.std.specs.Prelude.{Some};
    ghost use Rattle.der_tlv.specs.Texts.{error_text};

    ghost output = { λ e. Some (error_text e) };

    fn fmt<W: fmt::Write>(&self, f: &mut fmt::Formatter<W>) -> fmt::Result {
        let kind = self.kind;
        match self.position {
            Some(position) => write!(f, "{kind}, at position {position}"),
            None => write!(f, "{kind}"),
        }
    }
}

impl std::error::Error for ErrorKind {}

impl std::error::Error for Error {}
