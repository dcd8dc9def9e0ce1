//! Tags, and their identifier octets.

mod class;
mod decoding;
mod laws;
mod mode;
mod number;
mod ordering;
pub(crate) mod short;

ghost use Rattle.std.specs.Prelude.{◌≡◌, ◌<◌, ◌↔◌, IfOk, IfErr, IsOk, Option, Some};
ghost use Rattle.std.specs.Ordering.{on};
ghost use Rattle.der_tlv.specs.declared.error.ErrorKind.TheVariants.{TagUnexpected};
ghost use Rattle.der_tlv.specs.TagParts.{IsTag, class_of, is_constructed, number_of};
ghost use Rattle.der_tlv.specs.Identifier.{identifier, same_identifier};

use crate::error::{Error, ErrorKind};
pub use class::Class;
pub use laws::{
    default_mode, explicit_before_implicit, identifiers_are_short, identifiers_are_unique,
    identifiers_decide_order, identifiers_distinguish_tags, identifiers_read_back,
};
pub use mode::TagMode;
pub use number::TagNumber;

/// A tag: a class, whether the encoding is constructed, and a number.
///
/// A tag with a number of at most 30 has one identifier octet: the class in bits 8 and 7, the
/// constructed bit in bit 6, and the number in the other bits, as 30 for SEQUENCE. For a greater
/// number the other bits are ones, and the number follows in base 128, highest digit first, with
/// bit 8 set in all octets but the last, as BF 1F for the constructed context-specific tag 31
/// (X.690 8.1.2).
#[derive(Clone, Copy, Debug, PartialEq, Eq, Hash)]
pub enum Tag {
    /// BOOLEAN, 01.
    Boolean,
    /// INTEGER, 02.
    Integer,
    /// BIT STRING, 03.
    BitString,
    /// OCTET STRING, 04.
    OctetString,
    /// NULL, 05.
    Null,
    /// OBJECT IDENTIFIER, 06.
    ObjectIdentifier,
    /// REAL, 09.
    Real,
    /// ENUMERATED, 0A.
    Enumerated,
    /// UTF8String, 0C.
    Utf8String,
    /// RELATIVE-OID, 0D.
    RelativeOid,
    /// SEQUENCE and SEQUENCE OF, 30.
    Sequence,
    /// SET and SET OF, 31.
    Set,
    /// NumericString, 12.
    NumericString,
    /// PrintableString, 13.
    PrintableString,
    /// TeletexString, 14.
    TeletexString,
    /// VideotexString, 15.
    VideotexString,
    /// IA5String, 16.
    Ia5String,
    /// UTCTime, 17.
    UtcTime,
    /// GeneralizedTime, 18.
    GeneralizedTime,
    /// VisibleString, 1A.
    VisibleString,
    /// GeneralString, 1B.
    GeneralString,
    /// BMPString, 1E.
    BmpString,
    /// An application tag.
    Application {
        /// Whether the encoding is constructed.
        constructed: bool,
        /// The number.
        number: TagNumber,
    },
    /// A context-specific tag.
    ContextSpecific {
        /// Whether the encoding is constructed.
        constructed: bool,
        /// The number.
        number: TagNumber,
    },
    /// A private tag.
    Private {
        /// Whether the encoding is constructed.
        constructed: bool,
        /// The number.
        number: TagNumber,
    },
}

impl Tag {
    /// Returns the class.
    pub fn class(self) -> Class
        ensures { result ≡ class_of self }
    {
        match self {
            Tag::Application { .. } => Class::Application,
            Tag::ContextSpecific { .. } => Class::ContextSpecific,
            Tag::Private { .. } => Class::Private,
            _ => Class::Universal,
        }
    }

    /// Returns whether the encoding is constructed, so that its contents are encodings.
    pub fn is_constructed(self) -> bool
        ensures { result ≡ is_constructed self }
    {
        match self {
            Tag::Sequence | Tag::Set => true,
            Tag::Application { constructed, .. }
            | Tag::ContextSpecific { constructed, .. }
            | Tag::Private { constructed, .. } => constructed,
            _ => false,
        }
    }

    /// Returns the number within the class.
    pub fn number(self) -> TagNumber
        ensures value { result.0 ≡ number_of self }
        ensures bounded { IsTag self }
    {
        match self {
            Tag::Boolean => TagNumber(1),
            Tag::Integer => TagNumber(2),
            Tag::BitString => TagNumber(3),
            Tag::OctetString => TagNumber(4),
            Tag::Null => TagNumber(5),
            Tag::ObjectIdentifier => TagNumber(6),
            Tag::Real => TagNumber(9),
            Tag::Enumerated => TagNumber(10),
            Tag::Utf8String => TagNumber(12),
            Tag::RelativeOid => TagNumber(13),
            Tag::Sequence => TagNumber(16),
            Tag::Set => TagNumber(17),
            Tag::NumericString => TagNumber(18),
            Tag::PrintableString => TagNumber(19),
            Tag::TeletexString => TagNumber(20),
            Tag::VideotexString => TagNumber(21),
            Tag::Ia5String => TagNumber(22),
            Tag::UtcTime => TagNumber(23),
            Tag::GeneralizedTime => TagNumber(24),
            Tag::VisibleString => TagNumber(26),
            Tag::GeneralString => TagNumber(27),
            Tag::BmpString => TagNumber(30),
            Tag::Application { number, .. }
            | Tag::ContextSpecific { number, .. }
            | Tag::Private { number, .. } => number,
        }
    }

    /// Returns whether the two tags are equal in class, constructed bit and number.
    pub fn equals(self, other: Tag) -> bool
        ensures { result ≡ same_identifier self other }
    {
        self.assert_eq(other).is_ok()
    }

    /// Checks that the tag is the expected one.
    ///
    /// # Errors
    /// `ErrorKind::TagUnexpected` (4), with the expected tag, for another tag.
    pub fn assert_eq(self, expected: Tag) -> Result<Tag, Error>
        ensures ok { IsOk result ↔ (self ≡ expected) }
        ensures value { IfOk result (λ t. t ≡ self) }
        ensures err { IfErr result (λ e. e.kind ≡ TagUnexpected (Some expected) self) }
    {
        if self == expected {
            Ok(self)
        } else {
            Err(Error::from_kind(self.unexpected_error(Some(expected))))
        }
    }

    /// Makes `ErrorKind::TagUnexpected` (4): another tag, or one of several others, is expected
    /// instead of this tag.
    pub fn unexpected_error(self, expected: Option<Tag>) -> ErrorKind
        ensures { result ≡ TagUnexpected expected self }
    {
        ErrorKind::TagUnexpected {
            expected,
            actual: self,
        }
    }

    /// Makes `ErrorKind::Value` (13) with this tag: the contents octets encode no value of its
    /// type.
    pub fn value_error(self) -> ErrorKind
        ensures { result ≡ ErrorKind.Value self }
    {
        ErrorKind::Value { tag: self }
    }

    /// Makes `ErrorKind::Length` (7) with this tag: its type does not allow this number of
    /// contents octets.
    pub fn length_error(self) -> ErrorKind
        ensures { result ≡ ErrorKind.Length self }
    {
        ErrorKind::Length { tag: self }
    }

    /// Makes `ErrorKind::Noncanonical` (8) with this tag: the contents octets are not the
    /// canonical ones.
    pub fn non_canonical_error(self) -> ErrorKind
        ensures { result ≡ ErrorKind.Noncanonical self }
    {
        ErrorKind::Noncanonical { tag: self }
    }
}
