//! Pair, a SEQUENCE of 2 fields.
//!
//! Made by tools/asn1 from shapes.asn1.

ghost use Rattle.std.specs.Prelude.{◌∷◌, ◌≡◌, [], false, refl};
ghost use Rattle.der_elem.specs.FormatMakers.{mapped_format};
ghost use Rattle.der_modules.specs.Asn1.{joined, parse_of};
ghost use Rattle.der_modules.specs.Members.{choice_field, field, no_fields, struct_member};
ghost use Rattle.der_shapes.specs.Shapes.Grammar.{pair};
ghost use Rattle.der_shapes.specs.Shapes.Pair as pair_fields;
ghost use Rattle.der_shapes.specs.declared.shapes.pair.Pair.{Pair};

use der_elem::{
    ContentsEq, CopyIsDuplicate, DecodeValue, EncodeValue, Form, FormValue, OneTag, Sequence,
    SequenceTag, TagMarker, ValueOrd,
};
use der_fields::{DecodeFields, EncodeFields, FieldList, Fields2, FieldsOrd};
use der_modules::{Choosing, Member, field_list};
use der_opaque::{AnyRef, ObjectIdentifier};
use der_tlv::{BackWriter, Error, Header, Length, Source, Writer};
use std::alloc::Global;
use std::cmp::Ordering;
use std::fmt;

/// The list of the fields.
type Fields<'a> = Fields2<ObjectIdentifier<39>, AnyRef<'a>>;

/// ```text
/// Pair ::= SEQUENCE {
///     type   OBJECT IDENTIFIER,
///     value  ANY }
/// ```
///
/// Reading refuses the first fault of the octets, in their order.
#[derive(Clone, Copy, PartialEq, Eq)]
pub struct Pair<'a> {
    fields: Fields<'a>,
}

impl<'a> Pair<'a> {
    ghost use Rattle.der_shapes.specs.Shapes.Pair as pair_fields;

    /// A value of these fields.
    pub fn new(type_: ObjectIdentifier<39>, value: AnyRef<'a>) -> Pair<'a>
        ensures type_ { pair_fields.type_ result ≡ type_ }
        ensures value { pair_fields.value result ≡ value.entry }
    {
        let list = field_list![type_, value];
        let fields = Fields2 { list };
        Pair { fields }
    }

    /// `type`, `OBJECT IDENTIFIER`.
    pub fn type_(&self) -> ObjectIdentifier<39>
        ensures { result ≡ pair_fields.type_ self.now }
    {
        self.fields.list.first
    }

    /// `value`, `ANY`.
    pub fn value(&self) -> &AnyRef<'a>
        ensures { result.now ≡ pair_fields.value self.now }
    {
        &self.fields.list.rest.first
    }
}

impl<'a> fmt::Debug for Pair<'a> {
    fn fmt<W: fmt::Write>(&self, f: &mut fmt::Formatter<W>) -> fmt::Result {
        f.debug_struct("Pair")
            .field("type_", &self.type_())
            .field("value", self.value())
            .finish()
    }
}

impl<'a> OneTag for Pair<'a> {
    type Marker = SequenceTag;
}

impl<'a> Sequence<'a> for Pair<'a> {
    ghost is_sequence = { refl };
}

impl<'a> FormValue for Pair<'a> {
    ghost value = { mapped_format (λ v. v.fields) ⟦<Fields<'a> as FieldList>⟧.list.octets };
}

impl<'a, R: Source<'a>> DecodeValue<'a, R> for Pair<'a> {
    ghost TAKES_MEMORY = { false };

    const TAKES_MEMORY: bool = false;

    fn decode_value(alloc: Global, reader: &mut R, _header: Header) -> Result<Pair<'a>, Error> {
        match Fields::<'a>::decode_fields(alloc, reader) {
            Ok(fields) => Ok(Pair { fields }),
            Err(e) => Err(e),
        }
    }

    ghost takes_memory_is = { refl };
}

impl<'a> EncodeValue for Pair<'a> {
    fn value_len(&self) -> Result<Length, Error> {
        self.fields.fields_len()
    }

    fn encode_value<W: Writer>(&self, writer: &mut W) -> Result<(), Error> {
        self.fields.encode_fields(writer)
    }

    fn encode_value_back<W: BackWriter>(&self, writer: &mut W) -> Result<(), Error> {
        self.fields.encode_fields_back(writer)
    }
}

impl<'a> ValueOrd for Pair<'a> {
    fn value_cmp(&self, other: &Pair<'a>) -> Result<Ordering, Error> {
        self.fields.cmp_fields(&other.fields)
    }
}

impl<'a> Member for Pair<'a> {
    ghost member = { struct_member ⟦<SequenceTag as TagMarker>⟧.TAG (λ v. v.fields.list)
        (field ⟦<ObjectIdentifier<39> as Member>⟧.member
        (choice_field ⟦<AnyRef<'a> as Choosing>⟧.choice
        no_fields)) };
}

impl<'a> ContentsEq for Pair<'a> {
    ghost contents_eq = { ⟦<Pair<'a> as Member>⟧.member.equal };
}

impl<'a> CopyIsDuplicate for Pair<'a> {}

/// What is read as `Pair` is what the grammar page says.
pub fn grammar_of_pair<'a>()
    ensures { ⟦<Pair<'a> as Form>⟧.parse ≡ parse_of pair }
{}

/// The contents octets of `Pair` are the encodings of its fields, one after another.
pub fn octets_of_pair<'a>()
    ensures { (v : Pair) → ⟦<Pair<'a> as FormValue>⟧.value.contents v ≡ joined (
        (⟦<ObjectIdentifier<39> as Form>⟧.encoding (pair_fields.type_ v))
        ∷ (⟦<AnyRef<'a> as Form>⟧.encoding (pair_fields.value v))
        ∷ []) }
{}
