//! Unordered, a SET OF.
//!
//! Made by tools/asn1 from shapes.asn1.

ghost use Rattle.std.specs.Prelude.{◌≡◌, false, refl};
ghost use Rattle.der_elem.specs.FormatMakers.{mapped_format};
ghost use Rattle.der_lists.specs.NonEmptyRef.{list_of};
ghost use Rattle.der_modules.specs.Asn1.{parse_of};
ghost use Rattle.der_modules.specs.Members.{seen_member};
ghost use Rattle.der_shapes.specs.Shapes.Grammar.{unordered};

use crate::shapes::status::Status;
use der_elem::{
    ContentsEq, CopyIsDuplicate, DecodeValue, EncodeValue, Form, FormValue, OneTag, SetTag,
    TagMarker, ValueOrd,
};
use der_lists::{NonEmptyRef, UnorderedSetRef};
use der_modules::Member;
use der_tlv::{BackWriter, Error, Header, Length, Source, Writer};
use std::alloc::Global;
use std::cmp::Ordering;

/// ```text
/// Unordered ::= SET SIZE (1..MAX) OF Status
/// ```
///
/// The items stand in the order in which they came: BER asks for none.
///
/// Reading refuses the first fault of the octets, in their order.
#[derive(Clone, Copy, Debug, PartialEq, Eq)]
pub struct Unordered<'a> {
    items: NonEmptyRef<UnorderedSetRef<'a, Status>>,
}

impl<'a> Unordered<'a> {
    ghost use Rattle.der_shapes.specs.Shapes.Unordered as unordered;

    /// These items.
    pub fn new(items: NonEmptyRef<UnorderedSetRef<'a, Status>>) -> Unordered<'a>
        ensures { unordered.items_of result ≡ list_of items.entry }
    {
        Unordered { items }
    }

    /// The items, in their order.
    pub fn items(&self) -> &UnorderedSetRef<'a, Status>
        ensures { result.now ≡ unordered.items_of self.now }
    {
        self.items.list()
    }
}

impl<'a> OneTag for Unordered<'a> {
    type Marker = SetTag;
}

impl<'a> FormValue for Unordered<'a> {
    ghost value = { mapped_format (λ v. v.items) ⟦<NonEmptyRef<UnorderedSetRef<'a, Status>> as FormValue>⟧.value };
}

impl<'a, R: Source<'a>> DecodeValue<'a, R> for Unordered<'a> {
    ghost TAKES_MEMORY = { false };

    const TAKES_MEMORY: bool = false;

    fn decode_value(alloc: Global, reader: &mut R, header: Header) -> Result<Unordered<'a>, Error> {
        let items = NonEmptyRef::<UnorderedSetRef<'a, Status>>::decode_value(
            alloc, reader, header,
        )?;
        Ok(Unordered { items })
    }

    ghost takes_memory_is = { refl };
}

impl<'a> EncodeValue for Unordered<'a> {
    fn value_len(&self) -> Result<Length, Error> {
        self.items.value_len()
    }

    fn encode_value<W: Writer>(&self, writer: &mut W) -> Result<(), Error> {
        self.items.encode_value(writer)
    }

    fn encode_value_back<W: BackWriter>(&self, writer: &mut W) -> Result<(), Error> {
        self.items.encode_value_back(writer)
    }
}

impl<'a> ValueOrd for Unordered<'a> {
    fn value_cmp(&self, other: &Unordered<'a>) -> Result<Ordering, Error> {
        self.items.value_cmp(&other.items)
    }
}

impl<'a> Member for Unordered<'a> {
    ghost member = { seen_member ⟦<SetTag as TagMarker>⟧.TAG (λ v. v.items) ⟦<NonEmptyRef<UnorderedSetRef<'a, Status>> as Member>⟧.member };
}

impl<'a> ContentsEq for Unordered<'a> {
    ghost contents_eq = { ⟦<Unordered<'a> as Member>⟧.member.equal };
}

impl<'a> CopyIsDuplicate for Unordered<'a> {}

/// What is read as `Unordered` is what the grammar page says.
pub fn grammar_of_unordered<'a>()
    ensures { ⟦<Unordered<'a> as Form>⟧.parse ≡ parse_of unordered }
{}
