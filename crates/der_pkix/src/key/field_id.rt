//! FieldID, a SEQUENCE of 2 fields.
//!
//! Made by tools/asn1 from key.asn1.

ghost use Rattle.std.specs.Prelude.{◌∷◌, ◌≡◌, [], false, refl};
ghost use Rattle.der_elem.specs.FormatMakers.{mapped_format};
ghost use Rattle.der_modules.specs.Asn1.{joined, parse_of};
ghost use Rattle.der_modules.specs.Members.{choice_field, field, no_fields, struct_member};
ghost use Rattle.der_pkix.specs.Key.FieldId as field_id_fields;
ghost use Rattle.der_pkix.specs.Key.Grammar.{field_id};
ghost use Rattle.der_pkix.specs.declared.key.field_id.FieldId.{FieldId};

use der_elem::{
    ContentsEq, CopyIsDuplicate, DecodeValue, EncodeValue, Form, FormValue, OneTag, Sequence,
    SequenceTag, TagMarker, ValueOrd,
};
use der_fields::{DecodeFields, EncodeFields, FieldList, Fields2, FieldsOrd};
use der_modules::{Choosing, Member, field_list};
use der_opaque::{AnyRef, ObjectIdentifierRef};
use der_tlv::{BackWriter, Error, Header, Length, Source, Writer};
use std::alloc::Global;
use std::cmp::Ordering;
use std::fmt;

/// The list of the fields.
type Fields<'a> = Fields2<ObjectIdentifierRef<'a, 39>, AnyRef<'a>>;

/// ```text
/// FieldID ::= SEQUENCE {
///      fieldType   OBJECT IDENTIFIER,
///      parameters  ANY DEFINED BY fieldType }
/// ```
///
/// Reading refuses the first fault of the octets, in their order.
#[derive(Clone, Copy, PartialEq, Eq)]
pub struct FieldId<'a> {
    fields: Fields<'a>,
}

impl<'a> FieldId<'a> {
    ghost use Rattle.der_pkix.specs.Key.FieldId as field_id_fields;

    /// A value of these fields.
    pub fn new(field_type: ObjectIdentifierRef<'a, 39>, parameters: AnyRef<'a>) -> FieldId<'a>
        ensures field_type { field_id_fields.field_type result ≡ field_type.entry }
        ensures parameters { field_id_fields.parameters result ≡ parameters.entry }
    {
        let list = field_list![field_type, parameters];
        let fields = Fields2 { list };
        FieldId { fields }
    }

    /// `fieldType`, `OBJECT IDENTIFIER`.
    pub fn field_type(&self) -> &ObjectIdentifierRef<'a, 39>
        ensures { result.now ≡ field_id_fields.field_type self.now }
    {
        &self.fields.list.first
    }

    /// `parameters`, `ANY DEFINED BY fieldType`.
    pub fn parameters(&self) -> &AnyRef<'a>
        ensures { result.now ≡ field_id_fields.parameters self.now }
    {
        &self.fields.list.rest.first
    }
}

impl<'a> fmt::Debug for FieldId<'a> {
    fn fmt<W: fmt::Write>(&self, f: &mut fmt::Formatter<W>) -> fmt::Result {
        f.debug_struct("FieldId")
            .field("field_type", self.field_type())
            .field("parameters", self.parameters())
            .finish()
    }
}

impl<'a> OneTag for FieldId<'a> {
    type Marker = SequenceTag;
}

impl<'a> Sequence<'a> for FieldId<'a> {
    ghost is_sequence = { refl };
}

impl<'a> FormValue for FieldId<'a> {
    ghost value = { mapped_format (λ v. v.fields) ⟦<Fields<'a> as FieldList>⟧.list.octets };
}

impl<'a, R: Source<'a>> DecodeValue<'a, R> for FieldId<'a> {
    ghost TAKES_MEMORY = { false };

    const TAKES_MEMORY: bool = false;

    fn decode_value(alloc: Global, reader: &mut R, _header: Header) -> Result<FieldId<'a>, Error> {
        match Fields::<'a>::decode_fields(alloc, reader) {
            Ok(fields) => Ok(FieldId { fields }),
            Err(e) => Err(e),
        }
    }

    ghost takes_memory_is = { refl };
}

impl<'a> EncodeValue for FieldId<'a> {
    fn value_len(&self) -> Result<Length, Error> {
        self.fields.fields_len()
    }

    fn encode_value<W: Writer>(&self, writer: &mut W) -> Result<(), Error> {
        self.fields.encode_fields(writer)
    }

    fn encode_value_back<W: BackWriter>(&self, writer: &mut W) -> Result<(), Error> {
        self.fields.encode_fields_back(writer)
    }
}

impl<'a> ValueOrd for FieldId<'a> {
    fn value_cmp(&self, other: &FieldId<'a>) -> Result<Ordering, Error> {
        self.fields.cmp_fields(&other.fields)
    }
}

impl<'a> Member for FieldId<'a> {
    ghost member = { struct_member ⟦<SequenceTag as TagMarker>⟧.TAG (λ v. v.fields.list)
        (field ⟦<ObjectIdentifierRef<'a, 39> as Member>⟧.member
        (choice_field ⟦<AnyRef<'a> as Choosing>⟧.choice
        no_fields)) };
}

impl<'a> ContentsEq for FieldId<'a> {
    ghost contents_eq = { ⟦<FieldId<'a> as Member>⟧.member.equal };
}

impl<'a> CopyIsDuplicate for FieldId<'a> {}

/// What is read as `FieldID` is what the grammar page says.
pub fn grammar_of_field_id<'a>()
    ensures { ⟦<FieldId<'a> as Form>⟧.parse ≡ parse_of field_id }
{}

/// The contents octets of `FieldID` are the encodings of its fields, one after another.
pub fn octets_of_field_id<'a>()
    ensures { (v : FieldId) → ⟦<FieldId<'a> as FormValue>⟧.value.contents v ≡ joined (
        (⟦<ObjectIdentifierRef<'a, 39> as Form>⟧.encoding (field_id_fields.field_type v))
        ∷ (⟦<AnyRef<'a> as Form>⟧.encoding (field_id_fields.parameters v))
        ∷ []) }
{}
