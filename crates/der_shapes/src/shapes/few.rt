//! Few, a SEQUENCE OF.
//!
//! Made by tools/asn1 from shapes.asn1.

ghost use Rattle.std.specs.Prelude.{◌≡◌, false, refl};
ghost use Rattle.der_constrained.specs.Constrained.{value_of};
ghost use Rattle.der_elem.specs.FormatMakers.{mapped_format};
ghost use Rattle.der_modules.specs.Asn1.{parse_of};
ghost use Rattle.der_modules.specs.Members.{seen_member};
ghost use Rattle.der_shapes.specs.Shapes.Grammar.{few};

use der_constrained::{Constrained, HasSize, InRange};
use der_elem::{
    ContentsEq, CopyIsDuplicate, DecodeValue, EncodeValue, Form, FormValue, OneTag, Sequence,
    SequenceTag, TagMarker, ValueOrd,
};
use der_lists::ListRef;
use der_modules::Member;
use der_tlv::{BackWriter, Error, Header, Length, Source, Writer};
use std::alloc::Global;
use std::cmp::Ordering;

/// ```text
/// Few ::= SEQUENCE SIZE (1..3) OF INTEGER (0..9)
/// ```
///
/// Reading refuses the first fault of the octets, in their order.
#[derive(Clone, Copy, Debug, PartialEq, Eq)]
pub struct Few<'a> {
    items: Constrained<ListRef<'a, Constrained<u8, InRange<0, 9>>>, HasSize<1, 3>>,
}

impl<'a> Few<'a> {
    ghost use Rattle.der_shapes.specs.Shapes.Few as few;

    /// These items.
    pub fn new(
        items: Constrained<ListRef<'a, Constrained<u8, InRange<0, 9>>>, HasSize<1, 3>>,
    ) -> Few<'a>
        ensures { few.items_of result ≡ value_of items.entry }
    {
        Few { items }
    }

    /// The items, in their order.
    pub fn items(&self) -> &ListRef<'a, Constrained<u8, InRange<0, 9>>>
        ensures { result.now ≡ few.items_of self.now }
    {
        &self.items
    }
}

impl<'a> OneTag for Few<'a> {
    type Marker = SequenceTag;
}

impl<'a> Sequence<'a> for Few<'a> {
    ghost is_sequence = { refl };
}

impl<'a> FormValue for Few<'a> {
    ghost value = { mapped_format (λ v. v.items) ⟦<Constrained<ListRef<'a, Constrained<u8, InRange<0, 9>>>, HasSize<1, 3>> as FormValue>⟧.value };
}

impl<'a, R: Source<'a>> DecodeValue<'a, R> for Few<'a> {
    ghost TAKES_MEMORY = { false };

    const TAKES_MEMORY: bool = false;

    fn decode_value(alloc: Global, reader: &mut R, header: Header) -> Result<Few<'a>, Error> {
        let items = Constrained::<
            ListRef<'a, Constrained<u8, InRange<0, 9>>>,
            HasSize<1, 3>,
        >::decode_value(alloc, reader, header)?;
        Ok(Few { items })
    }

    ghost takes_memory_is = { refl };
}

impl<'a> EncodeValue for Few<'a> {
    fn value_len(&self) -> Result<Length, Error> {
        self.items.value_len()
    }

    fn encode_value<W: Writer>(&self, writer: &mut W) -> Result<(), Error> {
        self.items.encode_value(writer)
    }

    fn encode_value_back<W: BackWriter>(&self, writer: &mut W) -> Result<(), Error> {
        self.items.encode_value_back(writer)
    }
}

impl<'a> ValueOrd for Few<'a> {
    fn value_cmp(&self, other: &Few<'a>) -> Result<Ordering, Error> {
        self.items.value_cmp(&other.items)
    }
}

impl<'a> Member for Few<'a> {
    ghost member = { seen_member ⟦<SequenceTag as TagMarker>⟧.TAG (λ v. v.items) ⟦<Constrained<ListRef<'a, Constrained<u8, InRange<0, 9>>>, HasSize<1, 3>> as Member>⟧.member };
}

impl<'a> ContentsEq for Few<'a> {
    ghost contents_eq = { ⟦<Few<'a> as Member>⟧.member.equal };
}

impl<'a> CopyIsDuplicate for Few<'a> {}

/// What is read as `Few` is what the grammar page says.
pub fn grammar_of_few<'a>()
    ensures { ⟦<Few<'a> as Form>⟧.parse ≡ parse_of few }
{}
