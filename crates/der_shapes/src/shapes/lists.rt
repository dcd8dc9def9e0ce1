//! Lists, a SEQUENCE of 5 fields.
//!
//! Made by tools/asn1 from shapes.asn1.

ghost use Rattle.std.specs.Prelude.{◌∷◌, ◌≡◌, [], false, refl, true};
ghost use Rattle.der_elem.specs.FormatMakers.{mapped_format};
ghost use Rattle.der_modules.specs.Asn1.{context, explicit_encoding, implicit_encoding, joined, optional, parse_of};
ghost use Rattle.der_modules.specs.Members.{field, no_fields, optional_field, struct_member};
ghost use Rattle.der_shapes.specs.Shapes.Grammar.{lists};
ghost use Rattle.der_shapes.specs.Shapes.Lists as lists_fields;
ghost use Rattle.der_shapes.specs.declared.shapes.lists.Lists.{Lists};

use crate::shapes::numbers::Numbers;
use crate::shapes::ordered::Ordered;
use crate::shapes::unordered::Unordered;
use der_bits::BitStringRef;
use der_elem::{
    ContentsEq, CopyIsDuplicate, DecodeValue, EncodeValue, Form, FormValue, OneTag, Sequence,
    SequenceTag, TagMarker, ValueOrd,
};
use der_fields::{DecodeFields, EncodeFields, Explicit, FieldList, Fields5, FieldsOrd, Implicit};
use der_lists::{ListRef, NonEmptyRef, SetRef};
use der_modules::{Member, copy_of, field_list, if_present, tagged};
use der_tlv::{BackWriter, Error, Header, Length, Source, Writer};
use std::alloc::Global;
use std::cmp::Ordering;
use std::fmt;

/// The list of the fields.
type Fields<'a> = Fields5<
    Numbers<'a>,
    NonEmptyRef<ListRef<'a, Numbers<'a>>>,
    Option<Explicit<Ordered<'a>, 0>>,
    Option<Implicit<Unordered<'a>, 1>>,
    SetRef<'a, BitStringRef<'a>>,
>;

/// ```text
/// Lists ::= SEQUENCE {
///     numbers    Numbers,
///     some       SEQUENCE SIZE (1..MAX) OF Numbers,
///     ordered    [0] EXPLICIT Ordered OPTIONAL,
///     unordered  [1] Unordered OPTIONAL,
///     bits       SET OF BIT STRING }
/// ```
///
/// Reading refuses the first fault of the octets, in their order.
#[derive(Clone, Copy, PartialEq, Eq)]
pub struct Lists<'a> {
    fields: Fields<'a>,
}

impl<'a> Lists<'a> {
    ghost use Rattle.der_shapes.specs.Shapes.Lists as lists_fields;
    ghost use Rattle.std.specs.Prelude.{option_copied};

    /// A value of these fields.
    pub fn new(
        numbers: &Numbers<'a>,
        some: &NonEmptyRef<ListRef<'a, Numbers<'a>>>,
        ordered: Option<&Ordered<'a>>,
        unordered: Option<&Unordered<'a>>,
        bits: &SetRef<'a, BitStringRef<'a>>,
    ) -> Lists<'a>
        ensures numbers { lists_fields.numbers result ≡ numbers.now }
        ensures some { lists_fields.some result ≡ some.now }
        ensures ordered { lists_fields.ordered result ≡ option_copied ordered.entry }
        ensures unordered { lists_fields.unordered result ≡ option_copied unordered.entry }
        ensures bits { lists_fields.bits result ≡ bits.now }
    {
        let list = field_list![
            copy_of(numbers),
            copy_of(some),
            if_present!(value in ordered => tagged!(Explicit, copy_of(value))),
            if_present!(value in unordered => Implicit { value: copy_of(value) }),
            copy_of(bits)
        ];
        let fields = Fields5 { list };
        Lists { fields }
    }

    /// `numbers`, `Numbers`.
    pub fn numbers(&self) -> &Numbers<'a>
        ensures { result.now ≡ lists_fields.numbers self.now }
    {
        &self.fields.list.first
    }

    /// `some`, `SEQUENCE SIZE (1..MAX) OF Numbers`.
    pub fn some(&self) -> &NonEmptyRef<ListRef<'a, Numbers<'a>>>
        ensures { result.now ≡ lists_fields.some self.now }
    {
        &self.fields.list.rest.first
    }

    /// `ordered`, `[0] EXPLICIT Ordered OPTIONAL`.
    pub fn ordered(&self) -> Option<&Ordered<'a>>
        ensures { option_copied result ≡ lists_fields.ordered self.now }
    {
        if_present!(value in &self.fields.list.rest.rest.first => &value.fields.first)
    }

    /// `unordered`, `[1] Unordered OPTIONAL`.
    pub fn unordered(&self) -> Option<&Unordered<'a>>
        ensures { option_copied result ≡ lists_fields.unordered self.now }
    {
        if_present!(value in &self.fields.list.rest.rest.rest.first => &value.value)
    }

    /// `bits`, `SET OF BIT STRING`.
    pub fn bits(&self) -> &SetRef<'a, BitStringRef<'a>>
        ensures { result.now ≡ lists_fields.bits self.now }
    {
        &self.fields.list.rest.rest.rest.rest.first
    }
}

impl<'a> fmt::Debug for Lists<'a> {
    fn fmt<W: fmt::Write>(&self, f: &mut fmt::Formatter<W>) -> fmt::Result {
        f.debug_struct("Lists")
            .field("numbers", self.numbers())
            .field("some", self.some())
            .field("ordered", &self.ordered())
            .field("unordered", &self.unordered())
            .field("bits", self.bits())
            .finish()
    }
}

impl<'a> OneTag for Lists<'a> {
    type Marker = SequenceTag;
}

impl<'a> Sequence<'a> for Lists<'a> {
    ghost is_sequence = { refl };
}

impl<'a> FormValue for Lists<'a> {
    ghost value = { mapped_format (λ v. v.fields) ⟦<Fields<'a> as FieldList>⟧.list.octets };
}

impl<'a, R: Source<'a>> DecodeValue<'a, R> for Lists<'a> {
    ghost TAKES_MEMORY = { false };

    const TAKES_MEMORY: bool = false;

    fn decode_value(alloc: Global, reader: &mut R, _header: Header) -> Result<Lists<'a>, Error> {
        match Fields::<'a>::decode_fields(alloc, reader) {
            Ok(fields) => Ok(Lists { fields }),
            Err(e) => Err(e),
        }
    }

    ghost takes_memory_is = { refl };
}

impl<'a> EncodeValue for Lists<'a> {
    fn value_len(&self) -> Result<Length, Error> {
        self.fields.fields_len()
    }

    fn encode_value<W: Writer>(&self, writer: &mut W) -> Result<(), Error> {
        self.fields.encode_fields(writer)
    }

    fn encode_value_back<W: BackWriter>(&self, writer: &mut W) -> Result<(), Error> {
        self.fields.encode_fields_back(writer)
    }
}

impl<'a> ValueOrd for Lists<'a> {
    fn value_cmp(&self, other: &Lists<'a>) -> Result<Ordering, Error> {
        self.fields.cmp_fields(&other.fields)
    }
}

impl<'a> Member for Lists<'a> {
    ghost member = { struct_member ⟦<SequenceTag as TagMarker>⟧.TAG (λ v. v.fields.list)
        (field ⟦<Numbers<'a> as Member>⟧.member
        (field ⟦<NonEmptyRef<ListRef<'a, Numbers<'a>>> as Member>⟧.member
        (optional_field ⟦<Explicit<Ordered<'a>, 0> as Member>⟧.member
        (optional_field ⟦<Implicit<Unordered<'a>, 1> as Member>⟧.member
        (field ⟦<SetRef<'a, BitStringRef<'a>> as Member>⟧.member
        no_fields))))) };
}

impl<'a> ContentsEq for Lists<'a> {
    ghost contents_eq = { ⟦<Lists<'a> as Member>⟧.member.equal };
}

impl<'a> CopyIsDuplicate for Lists<'a> {}

/// What is read as `Lists` is what the grammar page says.
pub fn grammar_of_lists<'a>()
    ensures { ⟦<Lists<'a> as Form>⟧.parse ≡ parse_of lists }
{}

/// The contents octets of `Lists` are the encodings of its fields, one after another.
#[tactic(auto, using(der_modules::specs::Asn1::optional_of))]
pub fn octets_of_lists<'a>()
    ensures { (v : Lists) → ⟦<Lists<'a> as FormValue>⟧.value.contents v ≡ joined (
        (⟦<Numbers<'a> as Form>⟧.encoding (lists_fields.numbers v))
        ∷ (⟦<NonEmptyRef<ListRef<'a, Numbers<'a>>> as Form>⟧.encoding (lists_fields.some v))
        ∷ optional (λ x. (explicit_encoding context 0 (⟦<Ordered<'a> as Form>⟧.encoding x))) (lists_fields.ordered v)
        ∷ optional (λ x. (implicit_encoding context true 1 (⟦<Unordered<'a> as FormValue>⟧.value.contents x))) (lists_fields.unordered v)
        ∷ (⟦<SetRef<'a, BitStringRef<'a>> as Form>⟧.encoding (lists_fields.bits v))
        ∷ []) }
{}
