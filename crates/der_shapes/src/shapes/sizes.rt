//! Sizes, a SEQUENCE of 5 fields.
//!
//! Made by tools/asn1 from shapes.asn1.

ghost use Rattle.std.specs.Prelude.{◌∷◌, ◌≡◌, [], refl, true};
ghost use Rattle.der_elem.specs.FormatMakers.{mapped_format};
ghost use Rattle.der_modules.specs.Asn1.{context, explicit_encoding, implicit_encoding, joined, optional, parse_of};
ghost use Rattle.der_modules.specs.Members.{field, no_fields, optional_field, struct_member};
ghost use Rattle.der_shapes.specs.Shapes.Grammar.{sizes};
ghost use Rattle.der_shapes.specs.Shapes.Sizes as sizes_fields;
ghost use Rattle.der_shapes.specs.declared.shapes.sizes.Sizes.{Sizes};

use crate::shapes::few::Few;
use crate::shapes::label::Label;
use crate::shapes::status::Status;
use der_constrained::{Constrained, HasSize, UnionOf};
use der_elem::{
    ContentsEq, CopyIsDuplicate, DecodeValue, EncodeValue, Form, FormValue, OneTag, Sequence,
    SequenceTag, TagMarker, ValueOrd,
};
use der_fields::{DecodeFields, EncodeFields, Explicit, FieldList, Fields5, FieldsOrd, Implicit};
use der_lists::{ListRef, SetRef, UnorderedSetRef};
use der_modules::{Member, copy_of, field_list, if_present, tagged};
use der_opaque::AnyRef;
use der_tlv::{BackWriter, Error, Header, Length, Source, Writer};
use std::alloc::Global;
use std::cmp::Ordering;
use std::fmt;

/// The list of the fields.
type Fields<'a> = Fields5<
    Few<'a>,
    Option<Implicit<Constrained<ListRef<'a, AnyRef<'a>>, HasSize<2, 2>>, 0>>,
    Constrained<SetRef<'a, bool>, HasSize<0, 2>>,
    Option<
        Explicit<
            Constrained<
                UnorderedSetRef<'a, Status>,
                UnionOf<HasSize<2, 2>, HasSize<4, 4294967295>>,
            >,
            1,
        >,
    >,
    Option<Constrained<ListRef<'a, Label<'a>>, HasSize<2, 4294967295>>>,
>;

/// ```text
/// Sizes ::= SEQUENCE {
///     few        Few,
///     pair       [0] SEQUENCE SIZE (2) OF ANY OPTIONAL,
///     ordered    SET SIZE (0..2) OF BOOLEAN,
///     unordered  [1] EXPLICIT SET SIZE (2 | 4..MAX) OF Status OPTIONAL,
///     labels     SEQUENCE SIZE (2..MAX) OF Label OPTIONAL }
/// ```
///
/// Reading refuses the first fault of the octets, in their order; `ErrorKind::Memory` (1) where
/// memory runs out.
#[derive(Clone, Copy, PartialEq, Eq)]
pub struct Sizes<'a> {
    fields: Fields<'a>,
}

impl<'a> Sizes<'a> {
    ghost use Rattle.der_shapes.specs.Shapes.Sizes as sizes_fields;
    ghost use Rattle.std.specs.Prelude.{option_copied};

    /// A value of these fields.
    pub fn new(
        few: &Few<'a>,
        pair: Option<&Constrained<ListRef<'a, AnyRef<'a>>, HasSize<2, 2>>>,
        ordered: &Constrained<SetRef<'a, bool>, HasSize<0, 2>>,
        unordered: Option<
            &Constrained<
                UnorderedSetRef<'a, Status>,
                UnionOf<HasSize<2, 2>, HasSize<4, 4294967295>>,
            >,
        >,
        labels: Option<&Constrained<ListRef<'a, Label<'a>>, HasSize<2, 4294967295>>>,
    ) -> Sizes<'a>
        ensures few { sizes_fields.few result ≡ few.now }
        ensures pair { sizes_fields.pair result ≡ option_copied pair.entry }
        ensures ordered { sizes_fields.ordered result ≡ ordered.now }
        ensures unordered { sizes_fields.unordered result ≡ option_copied unordered.entry }
        ensures labels { sizes_fields.labels result ≡ option_copied labels.entry }
    {
        let list = field_list![
            copy_of(few),
            if_present!(value in pair => Implicit { value: copy_of(value) }),
            copy_of(ordered),
            if_present!(value in unordered => tagged!(Explicit, copy_of(value))),
            if_present!(value in labels => copy_of(value))
        ];
        let fields = Fields5 { list };
        Sizes { fields }
    }

    /// `few`, `Few`.
    pub fn few(&self) -> &Few<'a>
        ensures { result.now ≡ sizes_fields.few self.now }
    {
        &self.fields.list.first
    }

    /// `pair`, `[0] SEQUENCE SIZE (2) OF ANY OPTIONAL`.
    pub fn pair(&self) -> Option<&Constrained<ListRef<'a, AnyRef<'a>>, HasSize<2, 2>>>
        ensures { option_copied result ≡ sizes_fields.pair self.now }
    {
        if_present!(value in &self.fields.list.rest.first => &value.value)
    }

    /// `ordered`, `SET SIZE (0..2) OF BOOLEAN`.
    pub fn ordered(&self) -> &Constrained<SetRef<'a, bool>, HasSize<0, 2>>
        ensures { result.now ≡ sizes_fields.ordered self.now }
    {
        &self.fields.list.rest.rest.first
    }

    /// `unordered`, `[1] EXPLICIT SET SIZE (2 | 4..MAX) OF Status OPTIONAL`.
    pub fn unordered(
        &self,
    ) -> Option<
        &Constrained<UnorderedSetRef<'a, Status>, UnionOf<HasSize<2, 2>, HasSize<4, 4294967295>>>,
    >
        ensures { option_copied result ≡ sizes_fields.unordered self.now }
    {
        if_present!(value in &self.fields.list.rest.rest.rest.first => &value.fields.first)
    }

    /// `labels`, `SEQUENCE SIZE (2..MAX) OF Label OPTIONAL`.
    pub fn labels(&self) -> Option<&Constrained<ListRef<'a, Label<'a>>, HasSize<2, 4294967295>>>
        ensures { option_copied result ≡ sizes_fields.labels self.now }
    {
        if_present!(value in &self.fields.list.rest.rest.rest.rest.first => value)
    }
}

impl<'a> fmt::Debug for Sizes<'a> {
    fn fmt<W: fmt::Write>(&self, f: &mut fmt::Formatter<W>) -> fmt::Result {
        f.debug_struct("Sizes")
            .field("few", self.few())
            .field("pair", &self.pair())
            .field("ordered", self.ordered())
            .field("unordered", &self.unordered())
            .field("labels", &self.labels())
            .finish()
    }
}

impl<'a> OneTag for Sizes<'a> {
    type Marker = SequenceTag;
}

impl<'a> Sequence<'a> for Sizes<'a> {
    ghost is_sequence = { refl };
}

impl<'a> FormValue for Sizes<'a> {
    ghost value = { mapped_format (λ v. v.fields) ⟦<Fields<'a> as FieldList>⟧.list.octets };
}

impl<'a, R: Source<'a>> DecodeValue<'a, R> for Sizes<'a> {
    ghost TAKES_MEMORY = { true };

    const TAKES_MEMORY: bool = true;

    fn decode_value(alloc: Global, reader: &mut R, _header: Header) -> Result<Sizes<'a>, Error> {
        match Fields::<'a>::decode_fields(alloc, reader) {
            Ok(fields) => Ok(Sizes { fields }),
            Err(e) => Err(e),
        }
    }

    ghost takes_memory_is = { refl };
}

impl<'a> EncodeValue for Sizes<'a> {
    fn value_len(&self) -> Result<Length, Error> {
        self.fields.fields_len()
    }

    fn encode_value<W: Writer>(&self, writer: &mut W) -> Result<(), Error> {
        self.fields.encode_fields(writer)
    }

    fn encode_value_back<W: BackWriter>(&self, writer: &mut W) -> Result<(), Error> {
        self.fields.encode_fields_back(writer)
    }
}

impl<'a> ValueOrd for Sizes<'a> {
    fn value_cmp(&self, other: &Sizes<'a>) -> Result<Ordering, Error> {
        self.fields.cmp_fields(&other.fields)
    }
}

impl<'a> Member for Sizes<'a> {
    ghost member = { struct_member ⟦<SequenceTag as TagMarker>⟧.TAG (λ v. v.fields.list)
        (field ⟦<Few<'a> as Member>⟧.member
        (optional_field ⟦<Implicit<Constrained<ListRef<'a, AnyRef<'a>>, HasSize<2, 2>>, 0> as Member>⟧.member
        (field ⟦<Constrained<SetRef<'a, bool>, HasSize<0, 2>> as Member>⟧.member
        (optional_field ⟦<Explicit<Constrained<UnorderedSetRef<'a, Status>, UnionOf<HasSize<2, 2>, HasSize<4, 4294967295>>>, 1> as Member>⟧.member
        (optional_field ⟦<Constrained<ListRef<'a, Label<'a>>, HasSize<2, 4294967295>> as Member>⟧.member
        no_fields))))) };
}

impl<'a> ContentsEq for Sizes<'a> {
    ghost contents_eq = { ⟦<Sizes<'a> as Member>⟧.member.equal };
}

impl<'a> CopyIsDuplicate for Sizes<'a> {}

/// What is read as `Sizes` is what the grammar page says.
pub fn grammar_of_sizes<'a>()
    ensures { ⟦<Sizes<'a> as Form>⟧.parse ≡ parse_of sizes }
{}

/// The contents octets of `Sizes` are the encodings of its fields, one after another.
#[tactic(auto, using(der_modules::specs::Asn1::optional_of))]
pub fn octets_of_sizes<'a>()
    ensures { (v : Sizes) → ⟦<Sizes<'a> as FormValue>⟧.value.contents v ≡ joined (
        (⟦<Few<'a> as Form>⟧.encoding (sizes_fields.few v))
        ∷ optional (λ x. (implicit_encoding context true 0 (⟦<Constrained<ListRef<'a, AnyRef<'a>>, HasSize<2, 2>> as FormValue>⟧.value.contents x))) (sizes_fields.pair v)
        ∷ (⟦<Constrained<SetRef<'a, bool>, HasSize<0, 2>> as Form>⟧.encoding (sizes_fields.ordered v))
        ∷ optional (λ x. (explicit_encoding context 1 (⟦<Constrained<UnorderedSetRef<'a, Status>, UnionOf<HasSize<2, 2>, HasSize<4, 4294967295>>> as Form>⟧.encoding x))) (sizes_fields.unordered v)
        ∷ optional (λ x. (⟦<Constrained<ListRef<'a, Label<'a>>, HasSize<2, 4294967295>> as Form>⟧.encoding x)) (sizes_fields.labels v)
        ∷ []) }
{}
