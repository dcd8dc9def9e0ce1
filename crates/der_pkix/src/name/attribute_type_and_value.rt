//! AttributeTypeAndValue, a SEQUENCE of 2 fields.
//!
//! Made by tools/asn1 from name.asn1.

ghost use Rattle.std.specs.Prelude.{◌∷◌, ◌≡◌, [], false, refl};
ghost use Rattle.der_elem.specs.FormatMakers.{mapped_format};
ghost use Rattle.der_modules.specs.Asn1.{joined, parse_of};
ghost use Rattle.der_modules.specs.Members.{choice_field, field, no_fields, struct_member};
ghost use Rattle.der_pkix.specs.Name.AttributeTypeAndValue as attribute_type_and_value_fields;
ghost use Rattle.der_pkix.specs.Name.Grammar.{attribute_type_and_value};
ghost use Rattle.der_pkix.specs.declared.name.attribute_type_and_value.AttributeTypeAndValue.{AttributeTypeAndValue};

use crate::name::aliases::{AttributeType, AttributeValue};
use der_elem::{
    ContentsEq, CopyIsDuplicate, DecodeValue, EncodeValue, Form, FormValue, OneTag, Sequence,
    SequenceTag, TagMarker, ValueOrd,
};
use der_fields::{DecodeFields, EncodeFields, FieldList, Fields2, FieldsOrd};
use der_modules::{Choosing, Member, field_list};
use der_tlv::{BackWriter, Error, Header, Length, Source, Writer};
use std::alloc::Global;
use std::cmp::Ordering;
use std::fmt;

/// The list of the fields.
type Fields<'a> = Fields2<AttributeType<'a>, AttributeValue<'a>>;

/// ```text
/// AttributeTypeAndValue ::= SEQUENCE {
///      type   AttributeType,
///      value  AttributeValue }
/// ```
///
/// Reading refuses the first fault of the octets, in their order.
#[derive(Clone, Copy, PartialEq, Eq)]
pub struct AttributeTypeAndValue<'a> {
    fields: Fields<'a>,
}

impl<'a> AttributeTypeAndValue<'a> {
    ghost use Rattle.der_pkix.specs.Name.AttributeTypeAndValue as attribute_type_and_value_fields;

    /// A value of these fields.
    pub fn new(type_: AttributeType<'a>, value: AttributeValue<'a>) -> AttributeTypeAndValue<'a>
        ensures type_ { attribute_type_and_value_fields.type_ result ≡ type_.entry }
        ensures value { attribute_type_and_value_fields.value result ≡ value.entry }
    {
        let list = field_list![type_, value];
        let fields = Fields2 { list };
        AttributeTypeAndValue { fields }
    }

    /// `type`, `AttributeType`.
    pub fn type_(&self) -> &AttributeType<'a>
        ensures { result.now ≡ attribute_type_and_value_fields.type_ self.now }
    {
        &self.fields.list.first
    }

    /// `value`, `AttributeValue`.
    pub fn value(&self) -> &AttributeValue<'a>
        ensures { result.now ≡ attribute_type_and_value_fields.value self.now }
    {
        &self.fields.list.rest.first
    }
}

impl<'a> fmt::Debug for AttributeTypeAndValue<'a> {
    fn fmt<W: fmt::Write>(&self, f: &mut fmt::Formatter<W>) -> fmt::Result {
        f.debug_struct("AttributeTypeAndValue")
            .field("type_", self.type_())
            .field("value", self.value())
            .finish()
    }
}

impl<'a> OneTag for AttributeTypeAndValue<'a> {
    type Marker = SequenceTag;
}

impl<'a> Sequence<'a> for AttributeTypeAndValue<'a> {
    ghost is_sequence = { refl };
}

impl<'a> FormValue for AttributeTypeAndValue<'a> {
    ghost value = { mapped_format (λ v. v.fields) ⟦<Fields<'a> as FieldList>⟧.list.octets };
}

impl<'a, R: Source<'a>> DecodeValue<'a, R> for AttributeTypeAndValue<'a> {
    ghost TAKES_MEMORY = { false };

    const TAKES_MEMORY: bool = false;

    fn decode_value(
        alloc: Global,
        reader: &mut R,
        _header: Header,
    ) -> Result<AttributeTypeAndValue<'a>, Error> {
        match Fields::<'a>::decode_fields(alloc, reader) {
            Ok(fields) => Ok(AttributeTypeAndValue { fields }),
            Err(e) => Err(e),
        }
    }

    ghost takes_memory_is = { refl };
}

impl<'a> EncodeValue for AttributeTypeAndValue<'a> {
    fn value_len(&self) -> Result<Length, Error> {
        self.fields.fields_len()
    }

    fn encode_value<W: Writer>(&self, writer: &mut W) -> Result<(), Error> {
        self.fields.encode_fields(writer)
    }

    fn encode_value_back<W: BackWriter>(&self, writer: &mut W) -> Result<(), Error> {
        self.fields.encode_fields_back(writer)
    }
}

impl<'a> ValueOrd for AttributeTypeAndValue<'a> {
    fn value_cmp(&self, other: &AttributeTypeAndValue<'a>) -> Result<Ordering, Error> {
        self.fields.cmp_fields(&other.fields)
    }
}

impl<'a> Member for AttributeTypeAndValue<'a> {
    ghost member = { struct_member ⟦<SequenceTag as TagMarker>⟧.TAG (λ v. v.fields.list)
        (field ⟦<AttributeType<'a> as Member>⟧.member
        (choice_field ⟦<AttributeValue<'a> as Choosing>⟧.choice
        no_fields)) };
}

impl<'a> ContentsEq for AttributeTypeAndValue<'a> {
    ghost contents_eq = { ⟦<AttributeTypeAndValue<'a> as Member>⟧.member.equal };
}

impl<'a> CopyIsDuplicate for AttributeTypeAndValue<'a> {}

/// What is read as `AttributeTypeAndValue` is what the grammar page says.
pub fn grammar_of_attribute_type_and_value<'a>()
    ensures { ⟦<AttributeTypeAndValue<'a> as Form>⟧.parse ≡ parse_of attribute_type_and_value }
{}

/// The contents octets of `AttributeTypeAndValue` are the encodings of its fields, one after
/// another.
pub fn octets_of_attribute_type_and_value<'a>()
    ensures { (v : AttributeTypeAndValue) → ⟦<AttributeTypeAndValue<'a> as FormValue>⟧.value.contents v ≡ joined (
        (⟦<AttributeType<'a> as Form>⟧.encoding (attribute_type_and_value_fields.type_ v))
        ∷ (⟦<AttributeValue<'a> as Form>⟧.encoding (attribute_type_and_value_fields.value v))
        ∷ []) }
{}
