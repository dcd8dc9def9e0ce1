//! Attribute, a SEQUENCE of 2 fields.
//!
//! Made by tools/asn1 from name.asn1.

ghost use Rattle.std.specs.Prelude.{◌∷◌, ◌≡◌, [], false, refl};
ghost use Rattle.der_elem.specs.FormatMakers.{mapped_format};
ghost use Rattle.der_modules.specs.Asn1.{joined, parse_of};
ghost use Rattle.der_modules.specs.Members.{field, no_fields, struct_member};
ghost use Rattle.der_pkix.specs.Name.Attribute as attribute_fields;
ghost use Rattle.der_pkix.specs.Name.Grammar.{attribute};
ghost use Rattle.der_pkix.specs.declared.name.attribute.Attribute.{Attribute};

use crate::name::aliases::{AttributeType, AttributeValue};
use der_elem::{
    ContentsEq, CopyIsDuplicate, DecodeValue, EncodeValue, Form, FormValue, OneTag, Sequence,
    SequenceTag, TagMarker, ValueOrd,
};
use der_fields::{DecodeFields, EncodeFields, FieldList, Fields2, FieldsOrd};
use der_lists::UnorderedSetRef;
use der_modules::{Member, copy_of, field_list};
use der_tlv::{BackWriter, Error, Header, Length, Source, Writer};
use std::alloc::Global;
use std::cmp::Ordering;
use std::fmt;

/// The list of the fields.
type Fields<'a> = Fields2<AttributeType<'a>, UnorderedSetRef<'a, AttributeValue<'a>>>;

/// ```text
/// Attribute ::= SEQUENCE {
///      type    AttributeType,
///      values  SET OF AttributeValue
/// }
/// ```
///
/// Reading refuses the first fault of the octets, in their order.
#[derive(Clone, Copy, PartialEq, Eq)]
pub struct Attribute<'a> {
    fields: Fields<'a>,
}

impl<'a> Attribute<'a> {
    ghost use Rattle.der_pkix.specs.Name.Attribute as attribute_fields;

    /// A value of these fields.
    pub fn new(
        type_: AttributeType<'a>,
        values: &UnorderedSetRef<'a, AttributeValue<'a>>,
    ) -> Attribute<'a>
        ensures type_ { attribute_fields.type_ result ≡ type_.entry }
        ensures values { attribute_fields.values result ≡ values.now }
    {
        let list = field_list![type_, copy_of(values)];
        let fields = Fields2 { list };
        Attribute { fields }
    }

    /// `type`, `AttributeType`.
    pub fn type_(&self) -> &AttributeType<'a>
        ensures { result.now ≡ attribute_fields.type_ self.now }
    {
        &self.fields.list.first
    }

    /// `values`, `SET OF AttributeValue`.
    pub fn values(&self) -> &UnorderedSetRef<'a, AttributeValue<'a>>
        ensures { result.now ≡ attribute_fields.values self.now }
    {
        &self.fields.list.rest.first
    }
}

impl<'a> fmt::Debug for Attribute<'a> {
    fn fmt<W: fmt::Write>(&self, f: &mut fmt::Formatter<W>) -> fmt::Result {
        f.debug_struct("Attribute")
            .field("type_", self.type_())
            .field("values", self.values())
            .finish()
    }
}

impl<'a> OneTag for Attribute<'a> {
    type Marker = SequenceTag;
}

impl<'a> Sequence<'a> for Attribute<'a> {
    ghost is_sequence = { refl };
}

impl<'a> FormValue for Attribute<'a> {
    ghost value = { mapped_format (λ v. v.fields) ⟦<Fields<'a> as FieldList>⟧.list.octets };
}

impl<'a, R: Source<'a>> DecodeValue<'a, R> for Attribute<'a> {
    ghost TAKES_MEMORY = { false };

    const TAKES_MEMORY: bool = false;

    fn decode_value(
        alloc: Global,
        reader: &mut R,
        _header: Header,
    ) -> Result<Attribute<'a>, Error> {
        match Fields::<'a>::decode_fields(alloc, reader) {
            Ok(fields) => Ok(Attribute { fields }),
            Err(e) => Err(e),
        }
    }

    ghost takes_memory_is = { refl };
}

impl<'a> EncodeValue for Attribute<'a> {
    fn value_len(&self) -> Result<Length, Error> {
        self.fields.fields_len()
    }

    fn encode_value<W: Writer>(&self, writer: &mut W) -> Result<(), Error> {
        self.fields.encode_fields(writer)
    }

    fn encode_value_back<W: BackWriter>(&self, writer: &mut W) -> Result<(), Error> {
        self.fields.encode_fields_back(writer)
    }
}

impl<'a> ValueOrd for Attribute<'a> {
    fn value_cmp(&self, other: &Attribute<'a>) -> Result<Ordering, Error> {
        self.fields.cmp_fields(&other.fields)
    }
}

impl<'a> Member for Attribute<'a> {
    ghost member = { struct_member ⟦<SequenceTag as TagMarker>⟧.TAG (λ v. v.fields.list)
        (field ⟦<AttributeType<'a> as Member>⟧.member
        (field ⟦<UnorderedSetRef<'a, AttributeValue<'a>> as Member>⟧.member
        no_fields)) };
}

impl<'a> ContentsEq for Attribute<'a> {
    ghost contents_eq = { ⟦<Attribute<'a> as Member>⟧.member.equal };
}

impl<'a> CopyIsDuplicate for Attribute<'a> {}

/// What is read as `Attribute` is what the grammar page says.
pub fn grammar_of_attribute<'a>()
    ensures { ⟦<Attribute<'a> as Form>⟧.parse ≡ parse_of attribute }
{}

/// The contents octets of `Attribute` are the encodings of its fields, one after another.
pub fn octets_of_attribute<'a>()
    ensures { (v : Attribute) → ⟦<Attribute<'a> as FormValue>⟧.value.contents v ≡ joined (
        (⟦<AttributeType<'a> as Form>⟧.encoding (attribute_fields.type_ v))
        ∷ (⟦<UnorderedSetRef<'a, AttributeValue<'a>> as Form>⟧.encoding (attribute_fields.values v))
        ∷ []) }
{}
