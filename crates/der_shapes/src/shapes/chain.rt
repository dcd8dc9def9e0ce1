//! Chain, a SEQUENCE OF.
//!
//! Made by tools/asn1 from shapes.asn1.

ghost use Rattle.std.specs.Prelude.{◌≡◌, false, refl};
ghost use Rattle.der_elem.specs.FormatMakers.{mapped_format};
ghost use Rattle.der_modules.specs.Asn1.{parse_of};
ghost use Rattle.der_modules.specs.Members.{seen_member};
ghost use Rattle.der_shapes.specs.Shapes.Grammar.{chain};

use crate::shapes::link::Link;
use der_elem::{
    ContentsEq, CopyIsDuplicate, DecodeValue, EncodeValue, Form, FormValue, OneTag, Sequence,
    SequenceTag, TagMarker, ValueOrd,
};
use der_lists::ListRef;
use der_modules::Member;
use der_tlv::{BackWriter, Error, Header, Length, Source, Writer};
use std::alloc::Global;
use std::cmp::Ordering;

/// ```text
/// Chain ::= SEQUENCE OF Link
/// ```
///
/// Reading refuses the first fault of the octets, in their order.
#[derive(Clone, Copy, Debug, PartialEq, Eq)]
pub struct Chain<'a> {
    items: ListRef<'a, Link<'a>>,
}

impl<'a> Chain<'a> {
    ghost use Rattle.der_shapes.specs.Shapes.Chain as chain;

    /// These items.
    pub fn new(items: ListRef<'a, Link<'a>>) -> Chain<'a>
        ensures { chain.items_of result ≡ items.entry }
    {
        Chain { items }
    }

    /// The items, in their order.
    pub fn items(&self) -> &ListRef<'a, Link<'a>>
        ensures { result.now ≡ chain.items_of self.now }
    {
        &self.items
    }
}

impl<'a> OneTag for Chain<'a> {
    type Marker = SequenceTag;
}

impl<'a> Sequence<'a> for Chain<'a> {
    ghost is_sequence = { refl };
}

impl<'a> FormValue for Chain<'a> {
    ghost value = { mapped_format (λ v. v.items) ⟦<ListRef<'a, Link<'a>> as FormValue>⟧.value };
}

impl<'a, R: Source<'a>> DecodeValue<'a, R> for Chain<'a> {
    ghost TAKES_MEMORY = { false };

    const TAKES_MEMORY: bool = false;

    fn decode_value(alloc: Global, reader: &mut R, header: Header) -> Result<Chain<'a>, Error> {
        let items = ListRef::<'a, Link<'a>>::decode_value(alloc, reader, header)?;
        Ok(Chain { items })
    }

    ghost takes_memory_is = { refl };
}

impl<'a> EncodeValue for Chain<'a> {
    fn value_len(&self) -> Result<Length, Error> {
        self.items.value_len()
    }

    fn encode_value<W: Writer>(&self, writer: &mut W) -> Result<(), Error> {
        self.items.encode_value(writer)
    }

    fn encode_value_back<W: BackWriter>(&self, writer: &mut W) -> Result<(), Error> {
        self.items.encode_value_back(writer)
    }
}

impl<'a> ValueOrd for Chain<'a> {
    fn value_cmp(&self, other: &Chain<'a>) -> Result<Ordering, Error> {
        self.items.value_cmp(&other.items)
    }
}

impl<'a> Member for Chain<'a> {
    ghost member = { seen_member ⟦<SequenceTag as TagMarker>⟧.TAG (λ v. v.items) ⟦<ListRef<'a, Link<'a>> as Member>⟧.member };
}

impl<'a> ContentsEq for Chain<'a> {
    ghost contents_eq = { ⟦<Chain<'a> as Member>⟧.member.equal };
}

impl<'a> CopyIsDuplicate for Chain<'a> {}

/// What is read as `Chain` is what the grammar page says.
pub fn grammar_of_chain<'a>()
    ensures { ⟦<Chain<'a> as Form>⟧.parse ≡ parse_of chain }
{}
