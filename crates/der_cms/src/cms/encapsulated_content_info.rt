//! EncapsulatedContentInfo, a SEQUENCE of 2 fields.
//!
//! Made by tools/asn1 from cms.asn1.

ghost use Rattle.std.specs.Prelude.{◌∷◌, ◌≡◌, [], false, refl};
ghost use Rattle.der_cms.specs.Cms.EncapsulatedContentInfo as encapsulated_content_info_fields;
ghost use Rattle.der_cms.specs.Cms.Grammar.{encapsulated_content_info};
ghost use Rattle.der_cms.specs.declared.cms.encapsulated_content_info.EncapsulatedContentInfo.{EncapsulatedContentInfo};
ghost use Rattle.der_elem.specs.FormatMakers.{mapped_format};
ghost use Rattle.der_modules.specs.Asn1.{context, explicit_encoding, joined, optional, parse_of};
ghost use Rattle.der_modules.specs.Members.{field, no_fields, optional_field, struct_member};

use crate::cms::aliases::ContentType;
use der_elem::{
    ContentsEq, CopyIsDuplicate, DecodeValue, EncodeValue, Form, FormValue, OneTag, Sequence,
    SequenceTag, TagMarker, ValueOrd,
};
use der_fields::{DecodeFields, EncodeFields, Explicit, FieldList, Fields2, FieldsOrd};
use der_modules::{Member, field_list, if_present, tagged};
use der_opaque::OctetStringRef;
use der_tlv::{BackWriter, Error, Header, Length, Source, Writer};
use std::alloc::Global;
use std::cmp::Ordering;
use std::fmt;

/// The list of the fields.
type Fields<'a> = Fields2<ContentType<'a>, Option<Explicit<OctetStringRef<'a>, 0>>>;

/// ```text
/// EncapsulatedContentInfo ::= SEQUENCE {
///      eContentType  ContentType,
///      eContent      [0] EXPLICIT OCTET STRING OPTIONAL }
/// ```
///
/// Reading refuses the first fault of the octets, in their order.
#[derive(Clone, Copy, PartialEq, Eq)]
pub struct EncapsulatedContentInfo<'a> {
    fields: Fields<'a>,
}

impl<'a> EncapsulatedContentInfo<'a> {
    ghost use Rattle.der_cms.specs.Cms.EncapsulatedContentInfo as encapsulated_content_info_fields;
    ghost use Rattle.std.specs.Prelude.{option_copied};

    /// A value of these fields.
    pub fn new(
        e_content_type: ContentType<'a>,
        e_content: Option<OctetStringRef<'a>>,
    ) -> EncapsulatedContentInfo<'a>
        ensures e_content_type { encapsulated_content_info_fields.e_content_type result ≡ e_content_type.entry }
        ensures e_content { encapsulated_content_info_fields.e_content result ≡ e_content.entry }
    {
        let list = field_list![
            e_content_type,
            if_present!(value in e_content => tagged!(Explicit, value))
        ];
        let fields = Fields2 { list };
        EncapsulatedContentInfo { fields }
    }

    /// `eContentType`, `ContentType`.
    pub fn e_content_type(&self) -> &ContentType<'a>
        ensures { result.now ≡ encapsulated_content_info_fields.e_content_type self.now }
    {
        &self.fields.list.first
    }

    /// `eContent`, `[0] EXPLICIT OCTET STRING OPTIONAL`.
    pub fn e_content(&self) -> Option<&OctetStringRef<'a>>
        ensures { option_copied result ≡ encapsulated_content_info_fields.e_content self.now }
    {
        if_present!(value in &self.fields.list.rest.first => &value.fields.first)
    }
}

impl<'a> fmt::Debug for EncapsulatedContentInfo<'a> {
    fn fmt<W: fmt::Write>(&self, f: &mut fmt::Formatter<W>) -> fmt::Result {
        f.debug_struct("EncapsulatedContentInfo")
            .field("e_content_type", self.e_content_type())
            .field("e_content", &self.e_content())
            .finish()
    }
}

impl<'a> OneTag for EncapsulatedContentInfo<'a> {
    type Marker = SequenceTag;
}

impl<'a> Sequence<'a> for EncapsulatedContentInfo<'a> {
    ghost is_sequence = { refl };
}

impl<'a> FormValue for EncapsulatedContentInfo<'a> {
    ghost value = { mapped_format (λ v. v.fields) ⟦<Fields<'a> as FieldList>⟧.list.octets };
}

impl<'a, R: Source<'a>> DecodeValue<'a, R> for EncapsulatedContentInfo<'a> {
    ghost TAKES_MEMORY = { false };

    const TAKES_MEMORY: bool = false;

    fn decode_value(
        alloc: Global,
        reader: &mut R,
        _header: Header,
    ) -> Result<EncapsulatedContentInfo<'a>, Error> {
        match Fields::<'a>::decode_fields(alloc, reader) {
            Ok(fields) => Ok(EncapsulatedContentInfo { fields }),
            Err(e) => Err(e),
        }
    }

    ghost takes_memory_is = { refl };
}

impl<'a> EncodeValue for EncapsulatedContentInfo<'a> {
    fn value_len(&self) -> Result<Length, Error> {
        self.fields.fields_len()
    }

    fn encode_value<W: Writer>(&self, writer: &mut W) -> Result<(), Error> {
        self.fields.encode_fields(writer)
    }

    fn encode_value_back<W: BackWriter>(&self, writer: &mut W) -> Result<(), Error> {
        self.fields.encode_fields_back(writer)
    }
}

impl<'a> ValueOrd for EncapsulatedContentInfo<'a> {
    fn value_cmp(&self, other: &EncapsulatedContentInfo<'a>) -> Result<Ordering, Error> {
        self.fields.cmp_fields(&other.fields)
    }
}

impl<'a> Member for EncapsulatedContentInfo<'a> {
    ghost member = { struct_member ⟦<SequenceTag as TagMarker>⟧.TAG (λ v. v.fields.list)
        (field ⟦<ContentType<'a> as Member>⟧.member
        (optional_field ⟦<Explicit<OctetStringRef<'a>, 0> as Member>⟧.member
        no_fields)) };
}

impl<'a> ContentsEq for EncapsulatedContentInfo<'a> {
    ghost contents_eq = { ⟦<EncapsulatedContentInfo<'a> as Member>⟧.member.equal };
}

impl<'a> CopyIsDuplicate for EncapsulatedContentInfo<'a> {}

/// What is read as `EncapsulatedContentInfo` is what the grammar page says.
pub fn grammar_of_encapsulated_content_info<'a>()
    ensures { ⟦<EncapsulatedContentInfo<'a> as Form>⟧.parse ≡ parse_of encapsulated_content_info }
{}

/// The contents octets of `EncapsulatedContentInfo` are the encodings of its fields, one after
/// another.
#[tactic(auto, using(der_modules::specs::Asn1::optional_of))]
pub fn octets_of_encapsulated_content_info<'a>()
    ensures { (v : EncapsulatedContentInfo) → ⟦<EncapsulatedContentInfo<'a> as FormValue>⟧.value.contents v ≡ joined (
        (⟦<ContentType<'a> as Form>⟧.encoding (encapsulated_content_info_fields.e_content_type v))
        ∷ optional (λ x. (explicit_encoding context 0 (⟦<OctetStringRef<'a> as Form>⟧.encoding x))) (encapsulated_content_info_fields.e_content v)
        ∷ []) }
{}
