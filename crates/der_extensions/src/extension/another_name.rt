//! AnotherName, a SEQUENCE of 2 fields.
//!
//! Made by tools/asn1 from extension.asn1.

ghost use Rattle.std.specs.Prelude.{◌∷◌, ◌≡◌, [], false, refl};
ghost use Rattle.der_elem.specs.FormatMakers.{mapped_format};
ghost use Rattle.der_extensions.specs.Extension.AnotherName as another_name_fields;
ghost use Rattle.der_extensions.specs.Extension.Grammar.{another_name};
ghost use Rattle.der_extensions.specs.declared.extension.another_name.AnotherName.{AnotherName};
ghost use Rattle.der_modules.specs.Asn1.{context, explicit_encoding, joined, parse_of};
ghost use Rattle.der_modules.specs.Members.{field, no_fields, struct_member};

use der_elem::{
    ContentsEq, CopyIsDuplicate, DecodeValue, EncodeValue, Form, FormValue, OneTag, Sequence,
    SequenceTag, TagMarker, ValueOrd,
};
use der_fields::{DecodeFields, EncodeFields, Explicit, FieldList, Fields2, FieldsOrd};
use der_modules::{Member, field_list, tagged};
use der_opaque::{AnyRef, ObjectIdentifierRef};
use der_tlv::{BackWriter, Error, Header, Length, Source, Writer};
use std::alloc::Global;
use std::cmp::Ordering;
use std::fmt;

/// The list of the fields.
type Fields<'a> = Fields2<ObjectIdentifierRef<'a, 39>, Explicit<AnyRef<'a>, 0>>;

/// ```text
/// AnotherName ::= SEQUENCE {
///      type-id    OBJECT IDENTIFIER,
///      value      [0] EXPLICIT ANY DEFINED BY type-id }
/// ```
///
/// Reading refuses the first fault of the octets, in their order.
#[derive(Clone, Copy, PartialEq, Eq)]
pub struct AnotherName<'a> {
    fields: Fields<'a>,
}

impl<'a> AnotherName<'a> {
    ghost use Rattle.der_extensions.specs.Extension.AnotherName as another_name_fields;

    /// A value of these fields.
    pub fn new(type_id: ObjectIdentifierRef<'a, 39>, value: AnyRef<'a>) -> AnotherName<'a>
        ensures type_id { another_name_fields.type_id result ≡ type_id.entry }
        ensures value { another_name_fields.value result ≡ value.entry }
    {
        let list = field_list![type_id, tagged!(Explicit, value)];
        let fields = Fields2 { list };
        AnotherName { fields }
    }

    /// `type-id`, `OBJECT IDENTIFIER`.
    pub fn type_id(&self) -> &ObjectIdentifierRef<'a, 39>
        ensures { result.now ≡ another_name_fields.type_id self.now }
    {
        &self.fields.list.first
    }

    /// `value`, `[0] EXPLICIT ANY DEFINED BY type-id`.
    pub fn value(&self) -> &AnyRef<'a>
        ensures { result.now ≡ another_name_fields.value self.now }
    {
        &self.fields.list.rest.first.fields.first
    }
}

impl<'a> fmt::Debug for AnotherName<'a> {
    fn fmt<W: fmt::Write>(&self, f: &mut fmt::Formatter<W>) -> fmt::Result {
        f.debug_struct("AnotherName")
            .field("type_id", self.type_id())
            .field("value", self.value())
            .finish()
    }
}

impl<'a> OneTag for AnotherName<'a> {
    type Marker = SequenceTag;
}

impl<'a> Sequence<'a> for AnotherName<'a> {
    ghost is_sequence = { refl };
}

impl<'a> FormValue for AnotherName<'a> {
    ghost value = { mapped_format (λ v. v.fields) ⟦<Fields<'a> as FieldList>⟧.list.octets };
}

impl<'a, R: Source<'a>> DecodeValue<'a, R> for AnotherName<'a> {
    ghost TAKES_MEMORY = { false };

    const TAKES_MEMORY: bool = false;

    fn decode_value(
        alloc: Global,
        reader: &mut R,
        _header: Header,
    ) -> Result<AnotherName<'a>, Error> {
        match Fields::<'a>::decode_fields(alloc, reader) {
            Ok(fields) => Ok(AnotherName { fields }),
            Err(e) => Err(e),
        }
    }

    ghost takes_memory_is = { refl };
}

impl<'a> EncodeValue for AnotherName<'a> {
    fn value_len(&self) -> Result<Length, Error> {
        self.fields.fields_len()
    }

    fn encode_value<W: Writer>(&self, writer: &mut W) -> Result<(), Error> {
        self.fields.encode_fields(writer)
    }

    fn encode_value_back<W: BackWriter>(&self, writer: &mut W) -> Result<(), Error> {
        self.fields.encode_fields_back(writer)
    }
}

impl<'a> ValueOrd for AnotherName<'a> {
    fn value_cmp(&self, other: &AnotherName<'a>) -> Result<Ordering, Error> {
        self.fields.cmp_fields(&other.fields)
    }
}

impl<'a> Member for AnotherName<'a> {
    ghost member = { struct_member ⟦<SequenceTag as TagMarker>⟧.TAG (λ v. v.fields.list)
        (field ⟦<ObjectIdentifierRef<'a, 39> as Member>⟧.member
        (field ⟦<Explicit<AnyRef<'a>, 0> as Member>⟧.member
        no_fields)) };
}

impl<'a> ContentsEq for AnotherName<'a> {
    ghost contents_eq = { ⟦<AnotherName<'a> as Member>⟧.member.equal };
}

impl<'a> CopyIsDuplicate for AnotherName<'a> {}

/// What is read as `AnotherName` is what the grammar page says.
pub fn grammar_of_another_name<'a>()
    ensures { ⟦<AnotherName<'a> as Form>⟧.parse ≡ parse_of another_name }
{}

/// The contents octets of `AnotherName` are the encodings of its fields, one after another.
pub fn octets_of_another_name<'a>()
    ensures { (v : AnotherName) → ⟦<AnotherName<'a> as FormValue>⟧.value.contents v ≡ joined (
        (⟦<ObjectIdentifierRef<'a, 39> as Form>⟧.encoding (another_name_fields.type_id v))
        ∷ (explicit_encoding context 0 (⟦<AnyRef<'a> as Form>⟧.encoding (another_name_fields.value v)))
        ∷ []) }
{}
