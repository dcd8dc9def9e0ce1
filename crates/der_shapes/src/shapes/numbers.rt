//! Numbers, a SEQUENCE OF.
//!
//! Made by tools/asn1 from shapes.asn1.

ghost use Rattle.std.specs.Prelude.{◌≡◌, false, refl};
ghost use Rattle.der_elem.specs.FormatMakers.{mapped_format};
ghost use Rattle.der_modules.specs.Asn1.{parse_of};
ghost use Rattle.der_modules.specs.Members.{seen_member};
ghost use Rattle.der_shapes.specs.Shapes.Grammar.{numbers};

use der_elem::{
    ContentsEq, CopyIsDuplicate, DecodeValue, EncodeValue, Form, FormValue, OneTag, Sequence,
    SequenceTag, TagMarker, ValueOrd,
};
use der_lists::ListRef;
use der_modules::Member;
use der_tlv::{BackWriter, Error, Header, Length, Source, Writer};
use std::alloc::Global;
use std::cmp::Ordering;

/// ```text
/// Numbers ::= SEQUENCE OF INTEGER (0..255)
/// ```
///
/// Reading refuses the first fault of the octets, in their order.
#[derive(Clone, Copy, Debug, PartialEq, Eq)]
pub struct Numbers<'a> {
    items: ListRef<'a, u8>,
}

impl<'a> Numbers<'a> {
    ghost use Rattle.der_shapes.specs.Shapes.Numbers as numbers;

    /// These items.
    pub fn new(items: ListRef<'a, u8>) -> Numbers<'a>
        ensures { numbers.items_of result ≡ items.entry }
    {
        Numbers { items }
    }

    /// The items, in their order.
    pub fn items(&self) -> &ListRef<'a, u8>
        ensures { result.now ≡ numbers.items_of self.now }
    {
        &self.items
    }
}

impl<'a> OneTag for Numbers<'a> {
    type Marker = SequenceTag;
}

impl<'a> Sequence<'a> for Numbers<'a> {
    ghost is_sequence = { refl };
}

impl<'a> FormValue for Numbers<'a> {
    ghost value = { mapped_format (λ v. v.items) ⟦<ListRef<'a, u8> as FormValue>⟧.value };
}

impl<'a, R: Source<'a>> DecodeValue<'a, R> for Numbers<'a> {
    ghost TAKES_MEMORY = { false };

    const TAKES_MEMORY: bool = false;

    fn decode_value(alloc: Global, reader: &mut R, header: Header) -> Result<Numbers<'a>, Error> {
        let items = ListRef::<'a, u8>::decode_value(alloc, reader, header)?;
        Ok(Numbers { items })
    }

    ghost takes_memory_is = { refl };
}

impl<'a> EncodeValue for Numbers<'a> {
    fn value_len(&self) -> Result<Length, Error> {
        self.items.value_len()
    }

    fn encode_value<W: Writer>(&self, writer: &mut W) -> Result<(), Error> {
        self.items.encode_value(writer)
    }

    fn encode_value_back<W: BackWriter>(&self, writer: &mut W) -> Result<(), Error> {
        self.items.encode_value_back(writer)
    }
}

impl<'a> ValueOrd for Numbers<'a> {
    fn value_cmp(&self, other: &Numbers<'a>) -> Result<Ordering, Error> {
        self.items.value_cmp(&other.items)
    }
}

impl<'a> Member for Numbers<'a> {
    ghost member = { seen_member ⟦<SequenceTag as TagMarker>⟧.TAG (λ v. v.items) ⟦<ListRef<'a, u8> as Member>⟧.member };
}

impl<'a> ContentsEq for Numbers<'a> {
    ghost contents_eq = { ⟦<Numbers<'a> as Member>⟧.member.equal };
}

impl<'a> CopyIsDuplicate for Numbers<'a> {}

/// What is read as `Numbers` is what the grammar page says.
pub fn grammar_of_numbers<'a>()
    ensures { ⟦<Numbers<'a> as Form>⟧.parse ≡ parse_of numbers }
{}
