//! Notes, a SEQUENCE of 4 fields.
//!
//! Made by tools/asn1 from shapes.asn1.

ghost use Rattle.std.specs.Prelude.{◌∷◌, ◌≡◌, [], false, refl};
ghost use Rattle.der_elem.specs.FormatMakers.{mapped_format};
ghost use Rattle.der_modules.specs.Asn1.{context, explicit_encoding, implicit_encoding, joined, optional, parse_of};
ghost use Rattle.der_modules.specs.Members.{field, no_fields, optional_field, struct_member};
ghost use Rattle.der_shapes.specs.Shapes.Grammar.{notes};
ghost use Rattle.der_shapes.specs.Shapes.Notes as notes_fields;
ghost use Rattle.der_shapes.specs.declared.shapes.notes.Notes.{Notes};

use der_elem::{
    ContentsEq, CopyIsDuplicate, DecodeValue, EncodeValue, Form, FormValue, OneTag, Sequence,
    SequenceTag, TagMarker, ValueOrd,
};
use der_fields::{DecodeFields, EncodeFields, Explicit, FieldList, Fields4, FieldsOrd, Implicit};
use der_lists::ListRef;
use der_modules::{Member, copy_of, field_list, if_present, tagged};
use der_simple::{NumericStringRef, RelativeOidRef, VisibleStringRef};
use der_tlv::{BackWriter, Error, Header, Length, Source, Writer};
use std::alloc::Global;
use std::cmp::Ordering;
use std::fmt;

/// The list of the fields.
type Fields<'a> = Fields4<
    NumericStringRef<'a>,
    Option<Implicit<VisibleStringRef<'a>, 0>>,
    Option<Explicit<RelativeOidRef<'a>, 1>>,
    ListRef<'a, VisibleStringRef<'a>>,
>;

/// ```text
/// Notes ::= SEQUENCE {
///     digits  NumericString,
///     text    [0] VisibleString OPTIONAL,
///     arcs    [1] EXPLICIT RELATIVE-OID OPTIONAL,
///     lines   SEQUENCE OF VisibleString }
/// ```
///
/// Reading refuses the first fault of the octets, in their order.
#[derive(Clone, Copy, PartialEq, Eq)]
pub struct Notes<'a> {
    fields: Fields<'a>,
}

impl<'a> Notes<'a> {
    ghost use Rattle.der_shapes.specs.Shapes.Notes as notes_fields;
    ghost use Rattle.std.specs.Prelude.{option_copied};

    /// A value of these fields.
    pub fn new(
        digits: NumericStringRef<'a>,
        text: Option<VisibleStringRef<'a>>,
        arcs: Option<RelativeOidRef<'a>>,
        lines: &ListRef<'a, VisibleStringRef<'a>>,
    ) -> Notes<'a>
        ensures digits { notes_fields.digits result ≡ digits.entry }
        ensures text { notes_fields.text result ≡ text.entry }
        ensures arcs { notes_fields.arcs result ≡ arcs.entry }
        ensures lines { notes_fields.lines result ≡ lines.now }
    {
        let list = field_list![
            digits,
            if_present!(value in text => Implicit { value }),
            if_present!(value in arcs => tagged!(Explicit, value)),
            copy_of(lines)
        ];
        let fields = Fields4 { list };
        Notes { fields }
    }

    /// `digits`, `NumericString`.
    pub fn digits(&self) -> &NumericStringRef<'a>
        ensures { result.now ≡ notes_fields.digits self.now }
    {
        &self.fields.list.first
    }

    /// `text`, `[0] VisibleString OPTIONAL`.
    pub fn text(&self) -> Option<&VisibleStringRef<'a>>
        ensures { option_copied result ≡ notes_fields.text self.now }
    {
        if_present!(value in &self.fields.list.rest.first => &value.value)
    }

    /// `arcs`, `[1] EXPLICIT RELATIVE-OID OPTIONAL`.
    pub fn arcs(&self) -> Option<&RelativeOidRef<'a>>
        ensures { option_copied result ≡ notes_fields.arcs self.now }
    {
        if_present!(value in &self.fields.list.rest.rest.first => &value.fields.first)
    }

    /// `lines`, `SEQUENCE OF VisibleString`.
    pub fn lines(&self) -> &ListRef<'a, VisibleStringRef<'a>>
        ensures { result.now ≡ notes_fields.lines self.now }
    {
        &self.fields.list.rest.rest.rest.first
    }
}

impl<'a> fmt::Debug for Notes<'a> {
    fn fmt<W: fmt::Write>(&self, f: &mut fmt::Formatter<W>) -> fmt::Result {
        f.debug_struct("Notes")
            .field("digits", self.digits())
            .field("text", &self.text())
            .field("arcs", &self.arcs())
            .field("lines", self.lines())
            .finish()
    }
}

impl<'a> OneTag for Notes<'a> {
    type Marker = SequenceTag;
}

impl<'a> Sequence<'a> for Notes<'a> {
    ghost is_sequence = { refl };
}

impl<'a> FormValue for Notes<'a> {
    ghost value = { mapped_format (λ v. v.fields) ⟦<Fields<'a> as FieldList>⟧.list.octets };
}

impl<'a, R: Source<'a>> DecodeValue<'a, R> for Notes<'a> {
    ghost TAKES_MEMORY = { false };

    const TAKES_MEMORY: bool = false;

    fn decode_value(alloc: Global, reader: &mut R, _header: Header) -> Result<Notes<'a>, Error> {
        match Fields::<'a>::decode_fields(alloc, reader) {
            Ok(fields) => Ok(Notes { fields }),
            Err(e) => Err(e),
        }
    }

    ghost takes_memory_is = { refl };
}

impl<'a> EncodeValue for Notes<'a> {
    fn value_len(&self) -> Result<Length, Error> {
        self.fields.fields_len()
    }

    fn encode_value<W: Writer>(&self, writer: &mut W) -> Result<(), Error> {
        self.fields.encode_fields(writer)
    }

    fn encode_value_back<W: BackWriter>(&self, writer: &mut W) -> Result<(), Error> {
        self.fields.encode_fields_back(writer)
    }
}

impl<'a> ValueOrd for Notes<'a> {
    fn value_cmp(&self, other: &Notes<'a>) -> Result<Ordering, Error> {
        self.fields.cmp_fields(&other.fields)
    }
}

impl<'a> Member for Notes<'a> {
    ghost member = { struct_member ⟦<SequenceTag as TagMarker>⟧.TAG (λ v. v.fields.list)
        (field ⟦<NumericStringRef<'a> as Member>⟧.member
        (optional_field ⟦<Implicit<VisibleStringRef<'a>, 0> as Member>⟧.member
        (optional_field ⟦<Explicit<RelativeOidRef<'a>, 1> as Member>⟧.member
        (field ⟦<ListRef<'a, VisibleStringRef<'a>> as Member>⟧.member
        no_fields)))) };
}

impl<'a> ContentsEq for Notes<'a> {
    ghost contents_eq = { ⟦<Notes<'a> as Member>⟧.member.equal };
}

impl<'a> CopyIsDuplicate for Notes<'a> {}

/// What is read as `Notes` is what the grammar page says.
pub fn grammar_of_notes<'a>()
    ensures { ⟦<Notes<'a> as Form>⟧.parse ≡ parse_of notes }
{}

/// The contents octets of `Notes` are the encodings of its fields, one after another.
#[tactic(auto, using(der_modules::specs::Asn1::optional_of))]
pub fn octets_of_notes<'a>()
    ensures { (v : Notes) → ⟦<Notes<'a> as FormValue>⟧.value.contents v ≡ joined (
        (⟦<NumericStringRef<'a> as Form>⟧.encoding (notes_fields.digits v))
        ∷ optional (λ x. (implicit_encoding context false 0 (⟦<VisibleStringRef<'a> as FormValue>⟧.value.contents x))) (notes_fields.text v)
        ∷ optional (λ x. (explicit_encoding context 1 (⟦<RelativeOidRef<'a> as Form>⟧.encoding x))) (notes_fields.arcs v)
        ∷ (⟦<ListRef<'a, VisibleStringRef<'a>> as Form>⟧.encoding (notes_fields.lines v))
        ∷ []) }
{}
