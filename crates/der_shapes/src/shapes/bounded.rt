//! Bounded, a SEQUENCE of 7 fields.
//!
//! Made by tools/asn1 from shapes.asn1.

ghost use Rattle.std.specs.Prelude.{◌∷◌, ◌≡◌, [], false, refl};
ghost use Rattle.der_elem.specs.FormatMakers.{mapped_format};
ghost use Rattle.der_modules.specs.Asn1.{context, explicit_encoding, implicit_encoding, joined, optional, parse_of};
ghost use Rattle.der_modules.specs.Members.{field, no_fields, optional_field, struct_member};
ghost use Rattle.der_shapes.specs.Shapes.Bounded as bounded_fields;
ghost use Rattle.der_shapes.specs.Shapes.Grammar.{bounded};
ghost use Rattle.der_shapes.specs.declared.shapes.bounded.Bounded.{Bounded};

use crate::shapes::aliases::{Code, Small};
use der_bits::BitStringRef;
use der_constrained::{Constrained, HasSize, InRange, UnionOf};
use der_elem::{
    ContentsEq, CopyIsDuplicate, DecodeValue, EncodeValue, Form, FormValue, OneTag, Sequence,
    SequenceTag, TagMarker, ValueOrd,
};
use der_fields::{DecodeFields, EncodeFields, Explicit, FieldList, Fields7, FieldsOrd, Implicit};
use der_lists::ListRef;
use der_modules::{Member, copy_of, field_list, if_present, tagged};
use der_opaque::OctetStringRef;
use der_text::Utf8StringRef;
use der_tlv::{BackWriter, Error, Header, Length, Source, Writer};
use std::alloc::Global;
use std::cmp::Ordering;
use std::fmt;

/// The list of the fields.
type Fields<'a> = Fields7<
    Small,
    Option<Implicit<Constrained<u8, UnionOf<InRange<1, 1>, InRange<3, 5>>>, 0>>,
    Code<'a>,
    Option<Explicit<Constrained<OctetStringRef<'a>, UnionOf<HasSize<2, 2>, HasSize<4, 4>>>, 1>>,
    Constrained<BitStringRef<'a>, HasSize<3, 9>>,
    Constrained<Utf8StringRef<'a>, HasSize<1, 4>>,
    ListRef<'a, Constrained<u8, InRange<0, 9>>>,
>;

/// ```text
/// Bounded ::= SEQUENCE {
///     small   Small,
///     few     [0] INTEGER (1 | 3..5) OPTIONAL,
///     code    Code,
///     octets  [1] EXPLICIT OCTET STRING (SIZE (2 | 4)) OPTIONAL,
///     bits    BIT STRING (SIZE (3..9)),
///     text    UTF8String (SIZE (1..4)),
///     list    SEQUENCE OF INTEGER (0..9) }
/// ```
///
/// Reading refuses the first fault of the octets, in their order.
#[derive(Clone, Copy, PartialEq, Eq)]
pub struct Bounded<'a> {
    fields: Fields<'a>,
}

impl<'a> Bounded<'a> {
    ghost use Rattle.der_shapes.specs.Shapes.Bounded as bounded_fields;
    ghost use Rattle.std.specs.Prelude.{option_copied};

    /// A value of these fields.
    pub fn new(
        small: Small,
        few: Option<Constrained<u8, UnionOf<InRange<1, 1>, InRange<3, 5>>>>,
        code: Code<'a>,
        octets: Option<Constrained<OctetStringRef<'a>, UnionOf<HasSize<2, 2>, HasSize<4, 4>>>>,
        bits: Constrained<BitStringRef<'a>, HasSize<3, 9>>,
        text: Constrained<Utf8StringRef<'a>, HasSize<1, 4>>,
        list_: &ListRef<'a, Constrained<u8, InRange<0, 9>>>,
    ) -> Bounded<'a>
        ensures small { bounded_fields.small result ≡ small }
        ensures few { bounded_fields.few result ≡ few }
        ensures code { bounded_fields.code result ≡ code.entry }
        ensures octets { bounded_fields.octets result ≡ octets.entry }
        ensures bits { bounded_fields.bits result ≡ bits.entry }
        ensures text { bounded_fields.text result ≡ text.entry }
        ensures list { bounded_fields.list result ≡ list_.now }
    {
        let list = field_list![
            small,
            if_present!(value in few => Implicit { value }),
            code,
            if_present!(value in octets => tagged!(Explicit, value)),
            bits,
            text,
            copy_of(list_)
        ];
        let fields = Fields7 { list };
        Bounded { fields }
    }

    /// `small`, `Small`.
    pub fn small(&self) -> Small
        ensures { result ≡ bounded_fields.small self.now }
    {
        self.fields.list.first
    }

    /// `few`, `[0] INTEGER (1 | 3..5) OPTIONAL`.
    pub fn few(&self) -> Option<Constrained<u8, UnionOf<InRange<1, 1>, InRange<3, 5>>>>
        ensures { result ≡ bounded_fields.few self.now }
    {
        if_present!(value in self.fields.list.rest.first => value.value)
    }

    /// `code`, `Code`.
    pub fn code(&self) -> &Code<'a>
        ensures { result.now ≡ bounded_fields.code self.now }
    {
        &self.fields.list.rest.rest.first
    }

    /// `octets`, `[1] EXPLICIT OCTET STRING (SIZE (2 | 4)) OPTIONAL`.
    pub fn octets(
        &self,
    ) -> Option<&Constrained<OctetStringRef<'a>, UnionOf<HasSize<2, 2>, HasSize<4, 4>>>>
        ensures { option_copied result ≡ bounded_fields.octets self.now }
    {
        if_present!(value in &self.fields.list.rest.rest.rest.first => &value.fields.first)
    }

    /// `bits`, `BIT STRING (SIZE (3..9))`.
    pub fn bits(&self) -> &Constrained<BitStringRef<'a>, HasSize<3, 9>>
        ensures { result.now ≡ bounded_fields.bits self.now }
    {
        &self.fields.list.rest.rest.rest.rest.first
    }

    /// `text`, `UTF8String (SIZE (1..4))`.
    pub fn text(&self) -> &Constrained<Utf8StringRef<'a>, HasSize<1, 4>>
        ensures { result.now ≡ bounded_fields.text self.now }
    {
        &self.fields.list.rest.rest.rest.rest.rest.first
    }

    /// `list`, `SEQUENCE OF INTEGER (0..9)`.
    pub fn list(&self) -> &ListRef<'a, Constrained<u8, InRange<0, 9>>>
        ensures { result.now ≡ bounded_fields.list self.now }
    {
        &self.fields.list.rest.rest.rest.rest.rest.rest.first
    }
}

impl<'a> fmt::Debug for Bounded<'a> {
    fn fmt<W: fmt::Write>(&self, f: &mut fmt::Formatter<W>) -> fmt::Result {
        f.debug_struct("Bounded")
            .field("small", &self.small())
            .field("few", &self.few())
            .field("code", self.code())
            .field("octets", &self.octets())
            .field("bits", self.bits())
            .field("text", self.text())
            .field("list", self.list())
            .finish()
    }
}

impl<'a> OneTag for Bounded<'a> {
    type Marker = SequenceTag;
}

impl<'a> Sequence<'a> for Bounded<'a> {
    ghost is_sequence = { refl };
}

impl<'a> FormValue for Bounded<'a> {
    ghost value = { mapped_format (λ v. v.fields) ⟦<Fields<'a> as FieldList>⟧.list.octets };
}

impl<'a, R: Source<'a>> DecodeValue<'a, R> for Bounded<'a> {
    ghost TAKES_MEMORY = { false };

    const TAKES_MEMORY: bool = false;

    fn decode_value(alloc: Global, reader: &mut R, _header: Header) -> Result<Bounded<'a>, Error> {
        match Fields::<'a>::decode_fields(alloc, reader) {
            Ok(fields) => Ok(Bounded { fields }),
            Err(e) => Err(e),
        }
    }

    ghost takes_memory_is = { refl };
}

impl<'a> EncodeValue for Bounded<'a> {
    fn value_len(&self) -> Result<Length, Error> {
        self.fields.fields_len()
    }

    fn encode_value<W: Writer>(&self, writer: &mut W) -> Result<(), Error> {
        self.fields.encode_fields(writer)
    }

    fn encode_value_back<W: BackWriter>(&self, writer: &mut W) -> Result<(), Error> {
        self.fields.encode_fields_back(writer)
    }
}

impl<'a> ValueOrd for Bounded<'a> {
    fn value_cmp(&self, other: &Bounded<'a>) -> Result<Ordering, Error> {
        self.fields.cmp_fields(&other.fields)
    }
}

impl<'a> Member for Bounded<'a> {
    ghost member = { struct_member ⟦<SequenceTag as TagMarker>⟧.TAG (λ v. v.fields.list)
        (field ⟦<Small as Member>⟧.member
        (optional_field ⟦<Implicit<Constrained<u8, UnionOf<InRange<1, 1>, InRange<3, 5>>>, 0> as Member>⟧.member
        (field ⟦<Code<'a> as Member>⟧.member
        (optional_field ⟦<Explicit<Constrained<OctetStringRef<'a>, UnionOf<HasSize<2, 2>, HasSize<4, 4>>>, 1> as Member>⟧.member
        (field ⟦<Constrained<BitStringRef<'a>, HasSize<3, 9>> as Member>⟧.member
        (field ⟦<Constrained<Utf8StringRef<'a>, HasSize<1, 4>> as Member>⟧.member
        (field ⟦<ListRef<'a, Constrained<u8, InRange<0, 9>>> as Member>⟧.member
        no_fields))))))) };
}

impl<'a> ContentsEq for Bounded<'a> {
    ghost contents_eq = { ⟦<Bounded<'a> as Member>⟧.member.equal };
}

impl<'a> CopyIsDuplicate for Bounded<'a> {}

/// What is read as `Bounded` is what the grammar page says.
pub fn grammar_of_bounded<'a>()
    ensures { ⟦<Bounded<'a> as Form>⟧.parse ≡ parse_of bounded }
{}

/// The contents octets of `Bounded` are the encodings of its fields, one after another.
#[tactic(auto, using(der_modules::specs::Asn1::optional_of))]
pub fn octets_of_bounded<'a>()
    ensures { (v : Bounded) → ⟦<Bounded<'a> as FormValue>⟧.value.contents v ≡ joined (
        (⟦<Small as Form>⟧.encoding (bounded_fields.small v))
        ∷ optional (λ x. (implicit_encoding context false 0 (⟦<Constrained<u8, UnionOf<InRange<1, 1>, InRange<3, 5>>> as FormValue>⟧.value.contents x))) (bounded_fields.few v)
        ∷ (⟦<Code<'a> as Form>⟧.encoding (bounded_fields.code v))
        ∷ optional (λ x. (explicit_encoding context 1 (⟦<Constrained<OctetStringRef<'a>, UnionOf<HasSize<2, 2>, HasSize<4, 4>>> as Form>⟧.encoding x))) (bounded_fields.octets v)
        ∷ (⟦<Constrained<BitStringRef<'a>, HasSize<3, 9>> as Form>⟧.encoding (bounded_fields.bits v))
        ∷ (⟦<Constrained<Utf8StringRef<'a>, HasSize<1, 4>> as Form>⟧.encoding (bounded_fields.text v))
        ∷ (⟦<ListRef<'a, Constrained<u8, InRange<0, 9>>> as Form>⟧.encoding (bounded_fields.list v))
        ∷ []) }
{}
