//! Marks, a SEQUENCE of 4 fields.
//!
//! Made by tools/asn1 from shapes.asn1.

ghost use Rattle.std.specs.Prelude.{◌∷◌, ◌≡◌, [], false, refl, true};
ghost use Rattle.der_elem.specs.FormatMakers.{mapped_format};
ghost use Rattle.der_modules.specs.Asn1.{context, explicit_encoding, implicit_encoding, joined, optional, parse_of};
ghost use Rattle.der_modules.specs.Members.{field, no_fields, optional_field, struct_member};
ghost use Rattle.der_shapes.specs.Shapes.Grammar.{marks};
ghost use Rattle.der_shapes.specs.Shapes.Marks as marks_fields;
ghost use Rattle.der_shapes.specs.declared.shapes.marks.Marks.{Marks};

use crate::shapes::empty::Empty;
use crate::shapes::marks_fourth::MarksFourth;
use crate::shapes::nothing::Nothing;
use der_elem::{
    ContentsEq, CopyIsDuplicate, DecodeValue, EncodeValue, Form, FormValue, OneTag, Sequence,
    SequenceTag, TagMarker, ValueOrd,
};
use der_fields::{DecodeFields, EncodeFields, Explicit, FieldList, Fields4, FieldsOrd, Implicit};
use der_modules::{Member, field_list, if_present, tagged};
use der_tlv::{BackWriter, Error, Header, Length, Source, Writer};
use std::alloc::Global;
use std::cmp::Ordering;
use std::fmt;

/// The list of the fields.
type Fields = Fields4<
    Nothing,
    Option<Implicit<Nothing, 0>>,
    Option<Explicit<Empty, 1>>,
    MarksFourth,
>;

/// ```text
/// Marks ::= SEQUENCE {
///     first   Nothing,
///     second  [0] Nothing OPTIONAL,
///     third   [1] EXPLICIT Empty OPTIONAL,
///     fourth  SET { ... } }
/// ```
///
/// Reading refuses the first fault of the octets, in their order.
#[derive(Clone, Copy, PartialEq, Eq)]
pub struct Marks {
    fields: Fields,
}

impl Marks {
    ghost use Rattle.der_shapes.specs.Shapes.Marks as marks_fields;

    /// A value of these fields.
    pub fn new(
        first_: Nothing,
        second: Option<Nothing>,
        third: Option<Empty>,
        fourth: MarksFourth,
    ) -> Marks
        ensures first { marks_fields.first result ≡ first_ }
        ensures second { marks_fields.second result ≡ second }
        ensures third { marks_fields.third result ≡ third }
        ensures fourth { marks_fields.fourth result ≡ fourth }
    {
        let list = field_list![
            first_,
            if_present!(value in second => Implicit { value }),
            if_present!(value in third => tagged!(Explicit, value)),
            fourth
        ];
        let fields = Fields4 { list };
        Marks { fields }
    }

    /// `first`, `Nothing`.
    pub fn first(&self) -> Nothing
        ensures { result ≡ marks_fields.first self.now }
    {
        self.fields.list.first
    }

    /// `second`, `[0] Nothing OPTIONAL`.
    pub fn second(&self) -> Option<Nothing>
        ensures { result ≡ marks_fields.second self.now }
    {
        if_present!(value in self.fields.list.rest.first => value.value)
    }

    /// `third`, `[1] EXPLICIT Empty OPTIONAL`.
    pub fn third(&self) -> Option<Empty>
        ensures { result ≡ marks_fields.third self.now }
    {
        if_present!(value in self.fields.list.rest.rest.first => value.fields.first)
    }

    /// `fourth`, `SET { ...}`.
    pub fn fourth(&self) -> MarksFourth
        ensures { result ≡ marks_fields.fourth self.now }
    {
        self.fields.list.rest.rest.rest.first
    }
}

impl fmt::Debug for Marks {
    fn fmt<W: fmt::Write>(&self, f: &mut fmt::Formatter<W>) -> fmt::Result {
        f.debug_struct("Marks")
            .field("first", &self.first())
            .field("second", &self.second())
            .field("third", &self.third())
            .field("fourth", &self.fourth())
            .finish()
    }
}

impl OneTag for Marks {
    type Marker = SequenceTag;
}

impl<'a> Sequence<'a> for Marks {
    ghost is_sequence = { refl };
}

impl FormValue for Marks {
    ghost value = { mapped_format (λ v. v.fields) ⟦<Fields as FieldList>⟧.list.octets };
}

impl<'a, R: Source<'a>> DecodeValue<'a, R> for Marks {
    ghost TAKES_MEMORY = { false };

    const TAKES_MEMORY: bool = false;

    fn decode_value(alloc: Global, reader: &mut R, _header: Header) -> Result<Marks, Error> {
        match Fields::decode_fields(alloc, reader) {
            Ok(fields) => Ok(Marks { fields }),
            Err(e) => Err(e),
        }
    }

    ghost takes_memory_is = { refl };
}

impl EncodeValue for Marks {
    fn value_len(&self) -> Result<Length, Error> {
        self.fields.fields_len()
    }

    fn encode_value<W: Writer>(&self, writer: &mut W) -> Result<(), Error> {
        self.fields.encode_fields(writer)
    }

    fn encode_value_back<W: BackWriter>(&self, writer: &mut W) -> Result<(), Error> {
        self.fields.encode_fields_back(writer)
    }
}

impl ValueOrd for Marks {
    fn value_cmp(&self, other: &Marks) -> Result<Ordering, Error> {
        self.fields.cmp_fields(&other.fields)
    }
}

impl Member for Marks {
    ghost member = { struct_member ⟦<SequenceTag as TagMarker>⟧.TAG (λ v. v.fields.list)
        (field ⟦<Nothing as Member>⟧.member
        (optional_field ⟦<Implicit<Nothing, 0> as Member>⟧.member
        (optional_field ⟦<Explicit<Empty, 1> as Member>⟧.member
        (field ⟦<MarksFourth as Member>⟧.member
        no_fields)))) };
}

impl ContentsEq for Marks {
    ghost contents_eq = { ⟦<Marks as Member>⟧.member.equal };
}

impl CopyIsDuplicate for Marks {}

/// What is read as `Marks` is what the grammar page says.
pub fn grammar_of_marks()
    ensures { ⟦<Marks as Form>⟧.parse ≡ parse_of marks }
{}

/// The contents octets of `Marks` are the encodings of its fields, one after another.
#[tactic(auto, using(der_modules::specs::Asn1::optional_of))]
pub fn octets_of_marks()
    ensures { (v : Marks) → ⟦<Marks as FormValue>⟧.value.contents v ≡ joined (
        (⟦<Nothing as Form>⟧.encoding (marks_fields.first v))
        ∷ optional (λ x. (implicit_encoding context true 0 (⟦<Nothing as FormValue>⟧.value.contents x))) (marks_fields.second v)
        ∷ optional (λ x. (explicit_encoding context 1 (⟦<Empty as Form>⟧.encoding x))) (marks_fields.third v)
        ∷ (⟦<MarksFourth as Form>⟧.encoding (marks_fields.fourth v))
        ∷ []) }
{}
