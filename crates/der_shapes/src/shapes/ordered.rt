//! Ordered, a SET OF.
//!
//! Made by tools/asn1 from shapes.asn1.

ghost use Rattle.std.specs.Prelude.{◌≡◌, false, refl};
ghost use Rattle.der_elem.specs.FormatMakers.{mapped_format};
ghost use Rattle.der_modules.specs.Asn1.{parse_of};
ghost use Rattle.der_modules.specs.Members.{seen_member};
ghost use Rattle.der_shapes.specs.Shapes.Grammar.{ordered};

use crate::shapes::pair::Pair;
use der_elem::{
    ContentsEq, CopyIsDuplicate, DecodeValue, EncodeValue, Form, FormValue, OneTag, SetTag,
    TagMarker, ValueOrd,
};
use der_lists::SetRef;
use der_modules::Member;
use der_tlv::{BackWriter, Error, Header, Length, Source, Writer};
use std::alloc::Global;
use std::cmp::Ordering;

/// ```text
/// Ordered ::= SET OF Pair
/// ```
///
/// The items stand in the order of their octets (X.690 11.6): others are refused
/// (`ErrorKind::SetOrdering`, 11).
///
/// Reading refuses the first fault of the octets, in their order.
#[derive(Clone, Copy, Debug, PartialEq, Eq)]
pub struct Ordered<'a> {
    items: SetRef<'a, Pair<'a>>,
}

impl<'a> Ordered<'a> {
    ghost use Rattle.der_shapes.specs.Shapes.Ordered as ordered;

    /// These items.
    pub fn new(items: SetRef<'a, Pair<'a>>) -> Ordered<'a>
        ensures { ordered.items_of result ≡ items.entry }
    {
        Ordered { items }
    }

    /// The items, in their order.
    pub fn items(&self) -> &SetRef<'a, Pair<'a>>
        ensures { result.now ≡ ordered.items_of self.now }
    {
        &self.items
    }
}

impl<'a> OneTag for Ordered<'a> {
    type Marker = SetTag;
}

impl<'a> FormValue for Ordered<'a> {
    ghost value = { mapped_format (λ v. v.items) ⟦<SetRef<'a, Pair<'a>> as FormValue>⟧.value };
}

impl<'a, R: Source<'a>> DecodeValue<'a, R> for Ordered<'a> {
    ghost TAKES_MEMORY = { false };

    const TAKES_MEMORY: bool = false;

    fn decode_value(alloc: Global, reader: &mut R, header: Header) -> Result<Ordered<'a>, Error> {
        let items = SetRef::<'a, Pair<'a>>::decode_value(alloc, reader, header)?;
        Ok(Ordered { items })
    }

    ghost takes_memory_is = { refl };
}

impl<'a> EncodeValue for Ordered<'a> {
    fn value_len(&self) -> Result<Length, Error> {
        self.items.value_len()
    }

    fn encode_value<W: Writer>(&self, writer: &mut W) -> Result<(), Error> {
        self.items.encode_value(writer)
    }

    fn encode_value_back<W: BackWriter>(&self, writer: &mut W) -> Result<(), Error> {
        self.items.encode_value_back(writer)
    }
}

impl<'a> ValueOrd for Ordered<'a> {
    fn value_cmp(&self, other: &Ordered<'a>) -> Result<Ordering, Error> {
        self.items.value_cmp(&other.items)
    }
}

impl<'a> Member for Ordered<'a> {
    ghost member = { seen_member ⟦<SetTag as TagMarker>⟧.TAG (λ v. v.items) ⟦<SetRef<'a, Pair<'a>> as Member>⟧.member };
}

impl<'a> ContentsEq for Ordered<'a> {
    ghost contents_eq = { ⟦<Ordered<'a> as Member>⟧.member.equal };
}

impl<'a> CopyIsDuplicate for Ordered<'a> {}

/// What is read as `Ordered` is what the grammar page says.
pub fn grammar_of_ordered<'a>()
    ensures { ⟦<Ordered<'a> as Form>⟧.parse ≡ parse_of ordered }
{}
