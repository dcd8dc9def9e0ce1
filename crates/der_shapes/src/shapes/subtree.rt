//! Subtree, a SEQUENCE of 5 fields.
//!
//! Made by tools/asn1 from shapes.asn1.

ghost use Rattle.std.specs.Prelude.{◌∷◌, ◌≡◌, [], false, refl, true};
ghost use Rattle.der_elem.specs.FormatMakers.{mapped_format};
ghost use Rattle.der_modules.specs.Asn1.{context, explicit_encoding, implicit_encoding, joined, optional, parse_of, private, unless_default};
ghost use Rattle.der_modules.specs.Members.{default_field, field, no_fields, optional_field, struct_member};
ghost use Rattle.der_shapes.specs.Shapes.Grammar.{subtree};
ghost use Rattle.der_shapes.specs.Shapes.Subtree as subtree_fields;
ghost use Rattle.der_shapes.specs.declared.shapes.subtree.Subtree.{Subtree};

use crate::shapes::general::General;
use crate::shapes::status::Status;
use der_elem::{
    ContentsEq, CopyIsDuplicate, DecodeValue, EncodeValue, Form, FormValue, OneTag, SequenceTag,
    TagMarker, ValueOrd,
};
use der_fields::{
    DecodeFields, DefaultFalse, DefaultNumber, DefaultOf, EncodeFields, Explicit, FieldList,
    Fields5, FieldsOrd, Implicit, ImplicitApplicationTag, ImplicitPrivate, WithDefault,
};
use der_lists::ListRef;
use der_modules::{Member, copy_of, field_list, if_present, tagged};
use der_numbers::UintRef;
use der_tlv::{BackWriter, Error, Header, Length, Source, Writer};
use std::alloc::Global;
use std::cmp::Ordering;
use std::fmt;

/// The list of the fields.
type Fields<'a> = Fields5<
    Explicit<General<'a>, 5>,
    WithDefault<Implicit<u8, 0>, DefaultNumber<0>>,
    Option<Implicit<UintRef<'a>, 1>>,
    WithDefault<ImplicitPrivate<bool, 2>, DefaultFalse>,
    Option<Implicit<ListRef<'a, Status>, 3>>,
>;

/// ```text
/// Subtree ::= [APPLICATION 3] SEQUENCE {
///     base      [5] EXPLICIT General,
///     minimum   [0] INTEGER (0..255) DEFAULT 0,
///     maximum   [1] INTEGER (0..MAX) OPTIONAL,
///     only      [PRIVATE 2] BOOLEAN DEFAULT FALSE,
///     statuses  [3] SEQUENCE OF Status OPTIONAL }
/// ```
///
/// Reading refuses the first fault of the octets, in their order.
#[derive(Clone, Copy, PartialEq, Eq)]
pub struct Subtree<'a> {
    fields: Fields<'a>,
}

impl<'a> Subtree<'a> {
    ghost use Rattle.der_shapes.specs.Shapes.Subtree as subtree_fields;
    ghost use Rattle.std.specs.Prelude.{option_copied};

    /// A value of these fields.
    pub fn new(
        base: &General<'a>,
        minimum: u8,
        maximum: Option<UintRef<'a>>,
        only: bool,
        statuses: Option<&ListRef<'a, Status>>,
    ) -> Subtree<'a>
        ensures base { subtree_fields.base result ≡ base.now }
        ensures minimum { subtree_fields.minimum result ≡ minimum }
        ensures maximum { subtree_fields.maximum result ≡ maximum.entry }
        ensures only { subtree_fields.only result ≡ only }
        ensures statuses { subtree_fields.statuses result ≡ option_copied statuses.entry }
    {
        let list = field_list![
            tagged!(Explicit, copy_of(base)),
            WithDefault::new(Implicit { value: minimum }),
            if_present!(value in maximum => Implicit { value }),
            WithDefault::new(ImplicitPrivate { value: only }),
            if_present!(value in statuses => Implicit { value: copy_of(value) })
        ];
        let fields = Fields5 { list };
        Subtree { fields }
    }

    /// `base`, `[5] EXPLICIT General`.
    pub fn base(&self) -> &General<'a>
        ensures { result.now ≡ subtree_fields.base self.now }
    {
        &self.fields.list.first.fields.first
    }

    /// `minimum`, `[0] INTEGER (0..255) DEFAULT 0`.
    pub fn minimum(&self) -> u8
        ensures { result ≡ subtree_fields.minimum self.now }
    {
        self.fields.list.rest.first.value.value
    }

    /// `maximum`, `[1] INTEGER (0..MAX) OPTIONAL`.
    pub fn maximum(&self) -> Option<&UintRef<'a>>
        ensures { option_copied result ≡ subtree_fields.maximum self.now }
    {
        if_present!(value in &self.fields.list.rest.rest.first => &value.value)
    }

    /// `only`, `[PRIVATE 2] BOOLEAN DEFAULT FALSE`.
    pub fn only(&self) -> bool
        ensures { result ≡ subtree_fields.only self.now }
    {
        self.fields.list.rest.rest.rest.first.value.value
    }

    /// `statuses`, `[3] SEQUENCE OF Status OPTIONAL`.
    pub fn statuses(&self) -> Option<&ListRef<'a, Status>>
        ensures { option_copied result ≡ subtree_fields.statuses self.now }
    {
        if_present!(value in &self.fields.list.rest.rest.rest.rest.first => &value.value)
    }
}

impl<'a> fmt::Debug for Subtree<'a> {
    fn fmt<W: fmt::Write>(&self, f: &mut fmt::Formatter<W>) -> fmt::Result {
        f.debug_struct("Subtree")
            .field("base", self.base())
            .field("minimum", &self.minimum())
            .field("maximum", &self.maximum())
            .field("only", &self.only())
            .field("statuses", &self.statuses())
            .finish()
    }
}

impl<'a> OneTag for Subtree<'a> {
    type Marker = ImplicitApplicationTag<SequenceTag, 3>;
}

impl<'a> FormValue for Subtree<'a> {
    ghost value = { mapped_format (λ v. v.fields) ⟦<Fields<'a> as FieldList>⟧.list.octets };
}

impl<'a, R: Source<'a>> DecodeValue<'a, R> for Subtree<'a> {
    ghost TAKES_MEMORY = { false };

    const TAKES_MEMORY: bool = false;

    fn decode_value(alloc: Global, reader: &mut R, _header: Header) -> Result<Subtree<'a>, Error> {
        match Fields::<'a>::decode_fields(alloc, reader) {
            Ok(fields) => Ok(Subtree { fields }),
            Err(e) => Err(e),
        }
    }

    ghost takes_memory_is = { refl };
}

impl<'a> EncodeValue for Subtree<'a> {
    fn value_len(&self) -> Result<Length, Error> {
        self.fields.fields_len()
    }

    fn encode_value<W: Writer>(&self, writer: &mut W) -> Result<(), Error> {
        self.fields.encode_fields(writer)
    }

    fn encode_value_back<W: BackWriter>(&self, writer: &mut W) -> Result<(), Error> {
        self.fields.encode_fields_back(writer)
    }
}

impl<'a> ValueOrd for Subtree<'a> {
    fn value_cmp(&self, other: &Subtree<'a>) -> Result<Ordering, Error> {
        self.fields.cmp_fields(&other.fields)
    }
}

impl<'a> Member for Subtree<'a> {
    ghost member = { struct_member ⟦<ImplicitApplicationTag<SequenceTag, 3> as TagMarker>⟧.TAG (λ v. v.fields.list)
        (field ⟦<Explicit<General<'a>, 5> as Member>⟧.member
        (default_field ⟦<DefaultNumber<0> as DefaultOf<Implicit<u8, 0>>>⟧.octets ⟦<Implicit<u8, 0> as Member>⟧.member
        (optional_field ⟦<Implicit<UintRef<'a>, 1> as Member>⟧.member
        (default_field ⟦<DefaultFalse as DefaultOf<ImplicitPrivate<bool, 2>>>⟧.octets ⟦<ImplicitPrivate<bool, 2> as Member>⟧.member
        (optional_field ⟦<Implicit<ListRef<'a, Status>, 3> as Member>⟧.member
        no_fields))))) };
}

impl<'a> ContentsEq for Subtree<'a> {
    ghost contents_eq = { ⟦<Subtree<'a> as Member>⟧.member.equal };
}

impl<'a> CopyIsDuplicate for Subtree<'a> {}

/// What is read as `Subtree` is what the grammar page says.
pub fn grammar_of_subtree<'a>()
    ensures { ⟦<Subtree<'a> as Form>⟧.parse ≡ parse_of subtree }
{}

/// The contents octets of `Subtree` are the encodings of its fields, one after another.
#[tactic(auto, using(der_modules::specs::Asn1::optional_of))]
pub fn octets_of_subtree<'a>()
    ensures { (v : Subtree) → ⟦<Subtree<'a> as FormValue>⟧.value.contents v ≡ joined (
        (explicit_encoding context 5 (⟦<General<'a> as Form>⟧.encoding (subtree_fields.base v)))
        ∷ unless_default ⟦<DefaultNumber<0> as DefaultOf<Implicit<u8, 0>>>⟧.octets (implicit_encoding context false 0 (⟦<u8 as FormValue>⟧.value.contents (subtree_fields.minimum v)))
        ∷ optional (λ x. (implicit_encoding context false 1 (⟦<UintRef<'a> as FormValue>⟧.value.contents x))) (subtree_fields.maximum v)
        ∷ unless_default ⟦<DefaultFalse as DefaultOf<ImplicitPrivate<bool, 2>>>⟧.octets (implicit_encoding private false 2 (⟦<bool as FormValue>⟧.value.contents (subtree_fields.only v)))
        ∷ optional (λ x. (implicit_encoding context true 3 (⟦<ListRef<'a, Status> as FormValue>⟧.value.contents x))) (subtree_fields.statuses v)
        ∷ []) }
{}
