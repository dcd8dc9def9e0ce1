//! ContentInfo, a SEQUENCE of 2 fields.
//!
//! Made by tools/asn1 from pkcs12.asn1.

ghost use Rattle.std.specs.Prelude.{◌∷◌, ◌≡◌, [], false, refl};
ghost use Rattle.der_elem.specs.FormatMakers.{mapped_format};
ghost use Rattle.der_modules.specs.Asn1.{context, explicit_encoding, joined, optional, parse_of};
ghost use Rattle.der_modules.specs.Members.{field, no_fields, optional_field, struct_member};
ghost use Rattle.der_pkcs.specs.Pkcs12.ContentInfo as content_info_fields;
ghost use Rattle.der_pkcs.specs.Pkcs12.Grammar.{content_info};
ghost use Rattle.der_pkcs.specs.declared.pkcs12.content_info.ContentInfo.{ContentInfo};

use der_elem::{
    ContentsEq, CopyIsDuplicate, DecodeValue, EncodeValue, Form, FormValue, OneTag, Sequence,
    SequenceTag, TagMarker, ValueOrd,
};
use der_fields::{DecodeFields, EncodeFields, Explicit, FieldList, Fields2, FieldsOrd};
use der_modules::{Member, field_list, if_present, tagged};
use der_opaque::{AnyRef, ObjectIdentifierRef};
use der_tlv::{BackWriter, Error, Header, Length, Source, Writer};
use std::alloc::Global;
use std::cmp::Ordering;
use std::fmt;

/// The list of the fields.
type Fields<'a> = Fields2<ObjectIdentifierRef<'a, 39>, Option<Explicit<AnyRef<'a>, 0>>>;

/// ```text
/// ContentInfo ::= SEQUENCE {
///      contentType  OBJECT IDENTIFIER,
///      content      [0] EXPLICIT ANY DEFINED BY contentType OPTIONAL }
/// ```
///
/// Reading refuses the first fault of the octets, in their order.
#[derive(Clone, Copy, PartialEq, Eq)]
pub struct ContentInfo<'a> {
    fields: Fields<'a>,
}

impl<'a> ContentInfo<'a> {
    ghost use Rattle.der_pkcs.specs.Pkcs12.ContentInfo as content_info_fields;
    ghost use Rattle.std.specs.Prelude.{option_copied};

    /// A value of these fields.
    pub fn new(
        content_type: ObjectIdentifierRef<'a, 39>,
        content: Option<AnyRef<'a>>,
    ) -> ContentInfo<'a>
        ensures content_type { content_info_fields.content_type result ≡ content_type.entry }
        ensures content { content_info_fields.content result ≡ content.entry }
    {
        let list = field_list![
            content_type,
            if_present!(value in content => tagged!(Explicit, value))
        ];
        let fields = Fields2 { list };
        ContentInfo { fields }
    }

    /// `contentType`, `OBJECT IDENTIFIER`.
    pub fn content_type(&self) -> &ObjectIdentifierRef<'a, 39>
        ensures { result.now ≡ content_info_fields.content_type self.now }
    {
        &self.fields.list.first
    }

    /// `content`, `[0] EXPLICIT ANY DEFINED BY contentType OPTIONAL`.
    pub fn content(&self) -> Option<&AnyRef<'a>>
        ensures { option_copied result ≡ content_info_fields.content self.now }
    {
        if_present!(value in &self.fields.list.rest.first => &value.fields.first)
    }
}

impl<'a> fmt::Debug for ContentInfo<'a> {
    fn fmt<W: fmt::Write>(&self, f: &mut fmt::Formatter<W>) -> fmt::Result {
        f.debug_struct("ContentInfo")
            .field("content_type", self.content_type())
            .field("content", &self.content())
            .finish()
    }
}

impl<'a> OneTag for ContentInfo<'a> {
    type Marker = SequenceTag;
}

impl<'a> Sequence<'a> for ContentInfo<'a> {
    ghost is_sequence = { refl };
}

impl<'a> FormValue for ContentInfo<'a> {
    ghost value = { mapped_format (λ v. v.fields) ⟦<Fields<'a> as FieldList>⟧.list.octets };
}

impl<'a, R: Source<'a>> DecodeValue<'a, R> for ContentInfo<'a> {
    ghost TAKES_MEMORY = { false };

    const TAKES_MEMORY: bool = false;

    fn decode_value(
        alloc: Global,
        reader: &mut R,
        _header: Header,
    ) -> Result<ContentInfo<'a>, Error> {
        match Fields::<'a>::decode_fields(alloc, reader) {
            Ok(fields) => Ok(ContentInfo { fields }),
            Err(e) => Err(e),
        }
    }

    ghost takes_memory_is = { refl };
}

impl<'a> EncodeValue for ContentInfo<'a> {
    fn value_len(&self) -> Result<Length, Error> {
        self.fields.fields_len()
    }

    fn encode_value<W: Writer>(&self, writer: &mut W) -> Result<(), Error> {
        self.fields.encode_fields(writer)
    }

    fn encode_value_back<W: BackWriter>(&self, writer: &mut W) -> Result<(), Error> {
        self.fields.encode_fields_back(writer)
    }
}

impl<'a> ValueOrd for ContentInfo<'a> {
    fn value_cmp(&self, other: &ContentInfo<'a>) -> Result<Ordering, Error> {
        self.fields.cmp_fields(&other.fields)
    }
}

impl<'a> Member for ContentInfo<'a> {
    ghost member = { struct_member ⟦<SequenceTag as TagMarker>⟧.TAG (λ v. v.fields.list)
        (field ⟦<ObjectIdentifierRef<'a, 39> as Member>⟧.member
        (optional_field ⟦<Explicit<AnyRef<'a>, 0> as Member>⟧.member
        no_fields)) };
}

impl<'a> ContentsEq for ContentInfo<'a> {
    ghost contents_eq = { ⟦<ContentInfo<'a> as Member>⟧.member.equal };
}

impl<'a> CopyIsDuplicate for ContentInfo<'a> {}

/// What is read as `ContentInfo` is what the grammar page says.
pub fn grammar_of_content_info<'a>()
    ensures { ⟦<ContentInfo<'a> as Form>⟧.parse ≡ parse_of content_info }
{}

/// The contents octets of `ContentInfo` are the encodings of its fields, one after another.
#[tactic(auto, using(der_modules::specs::Asn1::optional_of))]
pub fn octets_of_content_info<'a>()
    ensures { (v : ContentInfo) → ⟦<ContentInfo<'a> as FormValue>⟧.value.contents v ≡ joined (
        (⟦<ObjectIdentifierRef<'a, 39> as Form>⟧.encoding (content_info_fields.content_type v))
        ∷ optional (λ x. (explicit_encoding context 0 (⟦<AnyRef<'a> as Form>⟧.encoding x))) (content_info_fields.content v)
        ∷ []) }
{}
