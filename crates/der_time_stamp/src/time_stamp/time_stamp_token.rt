//! TimeStampToken, a SEQUENCE of 2 fields.
//!
//! Made by tools/asn1 from time_stamp.asn1.

ghost use Rattle.std.specs.Prelude.{◌∷◌, ◌≡◌, [], false, refl};
ghost use Rattle.der_elem.specs.FormatMakers.{mapped_format};
ghost use Rattle.der_modules.specs.Asn1.{context, explicit_encoding, joined, parse_of};
ghost use Rattle.der_modules.specs.Members.{field, no_fields, struct_member};
ghost use Rattle.der_time_stamp.specs.TimeStamp.Grammar.{time_stamp_token};
ghost use Rattle.der_time_stamp.specs.TimeStamp.TimeStampToken as time_stamp_token_fields;
ghost use Rattle.der_time_stamp.specs.declared.time_stamp.time_stamp_token.TimeStampToken.{TimeStampToken};

use der_elem::{
    ContentsEq, CopyIsDuplicate, DecodeValue, EncodeValue, Form, FormValue, OneTag, Sequence,
    SequenceTag, TagMarker, ValueOrd,
};
use der_fields::{DecodeFields, EncodeFields, Explicit, FieldList, Fields2, FieldsOrd};
use der_modules::{Member, field_list, tagged};
use der_opaque::{AnyRef, ObjectIdentifierRef};
use der_tlv::{BackWriter, Error, Header, Length, Source, Writer};
use std::alloc::Global;
use std::cmp::Ordering;
use std::fmt;

/// The list of the fields.
type Fields<'a> = Fields2<ObjectIdentifierRef<'a, 39>, Explicit<AnyRef<'a>, 0>>;

/// ```text
/// TimeStampToken ::= SEQUENCE {
///      contentType  OBJECT IDENTIFIER,
///      content      [0] EXPLICIT ANY DEFINED BY contentType }
/// ```
///
/// Reading refuses the first fault of the octets, in their order.
#[derive(Clone, Copy, PartialEq, Eq)]
pub struct TimeStampToken<'a> {
    fields: Fields<'a>,
}

impl<'a> TimeStampToken<'a> {
    ghost use Rattle.der_time_stamp.specs.TimeStamp.TimeStampToken as time_stamp_token_fields;

    /// A value of these fields.
    pub fn new(content_type: ObjectIdentifierRef<'a, 39>, content: AnyRef<'a>) -> TimeStampToken<'a>
        ensures content_type { time_stamp_token_fields.content_type result ≡ content_type.entry }
        ensures content { time_stamp_token_fields.content result ≡ content.entry }
    {
        let list = field_list![content_type, tagged!(Explicit, content)];
        let fields = Fields2 { list };
        TimeStampToken { fields }
    }

    /// `contentType`, `OBJECT IDENTIFIER`.
    pub fn content_type(&self) -> &ObjectIdentifierRef<'a, 39>
        ensures { result.now ≡ time_stamp_token_fields.content_type self.now }
    {
        &self.fields.list.first
    }

    /// `content`, `[0] EXPLICIT ANY DEFINED BY contentType`.
    pub fn content(&self) -> &AnyRef<'a>
        ensures { result.now ≡ time_stamp_token_fields.content self.now }
    {
        &self.fields.list.rest.first.fields.first
    }
}

impl<'a> fmt::Debug for TimeStampToken<'a> {
    fn fmt<W: fmt::Write>(&self, f: &mut fmt::Formatter<W>) -> fmt::Result {
        f.debug_struct("TimeStampToken")
            .field("content_type", self.content_type())
            .field("content", self.content())
            .finish()
    }
}

impl<'a> OneTag for TimeStampToken<'a> {
    type Marker = SequenceTag;
}

impl<'a> Sequence<'a> for TimeStampToken<'a> {
    ghost is_sequence = { refl };
}

impl<'a> FormValue for TimeStampToken<'a> {
    ghost value = { mapped_format (λ v. v.fields) ⟦<Fields<'a> as FieldList>⟧.list.octets };
}

impl<'a, R: Source<'a>> DecodeValue<'a, R> for TimeStampToken<'a> {
    ghost TAKES_MEMORY = { false };

    const TAKES_MEMORY: bool = false;

    fn decode_value(
        alloc: Global,
        reader: &mut R,
        _header: Header,
    ) -> Result<TimeStampToken<'a>, Error> {
        match Fields::<'a>::decode_fields(alloc, reader) {
            Ok(fields) => Ok(TimeStampToken { fields }),
            Err(e) => Err(e),
        }
    }

    ghost takes_memory_is = { refl };
}

impl<'a> EncodeValue for TimeStampToken<'a> {
    fn value_len(&self) -> Result<Length, Error> {
        self.fields.fields_len()
    }

    fn encode_value<W: Writer>(&self, writer: &mut W) -> Result<(), Error> {
        self.fields.encode_fields(writer)
    }

    fn encode_value_back<W: BackWriter>(&self, writer: &mut W) -> Result<(), Error> {
        self.fields.encode_fields_back(writer)
    }
}

impl<'a> ValueOrd for TimeStampToken<'a> {
    fn value_cmp(&self, other: &TimeStampToken<'a>) -> Result<Ordering, Error> {
        self.fields.cmp_fields(&other.fields)
    }
}

impl<'a> Member for TimeStampToken<'a> {
    ghost member = { struct_member ⟦<SequenceTag as TagMarker>⟧.TAG (λ v. v.fields.list)
        (field ⟦<ObjectIdentifierRef<'a, 39> as Member>⟧.member
        (field ⟦<Explicit<AnyRef<'a>, 0> as Member>⟧.member
        no_fields)) };
}

impl<'a> ContentsEq for TimeStampToken<'a> {
    ghost contents_eq = { ⟦<TimeStampToken<'a> as Member>⟧.member.equal };
}

impl<'a> CopyIsDuplicate for TimeStampToken<'a> {}

/// What is read as `TimeStampToken` is what the grammar page says.
pub fn grammar_of_time_stamp_token<'a>()
    ensures { ⟦<TimeStampToken<'a> as Form>⟧.parse ≡ parse_of time_stamp_token }
{}

/// The contents octets of `TimeStampToken` are the encodings of its fields, one after another.
pub fn octets_of_time_stamp_token<'a>()
    ensures { (v : TimeStampToken) → ⟦<TimeStampToken<'a> as FormValue>⟧.value.contents v ≡ joined (
        (⟦<ObjectIdentifierRef<'a, 39> as Form>⟧.encoding (time_stamp_token_fields.content_type v))
        ∷ (explicit_encoding context 0 (⟦<AnyRef<'a> as Form>⟧.encoding (time_stamp_token_fields.content v)))
        ∷ []) }
{}
