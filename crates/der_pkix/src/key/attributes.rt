//! Attributes, a SET OF.
//!
//! Made by tools/asn1 from key.asn1.

ghost use Rattle.std.specs.Prelude.{◌≡◌, false, refl};
ghost use Rattle.der_elem.specs.FormatMakers.{mapped_format};
ghost use Rattle.der_modules.specs.Asn1.{parse_of};
ghost use Rattle.der_modules.specs.Members.{seen_member};
ghost use Rattle.der_pkix.specs.Key.Grammar.{attributes};

use crate::name::Attribute;
use der_elem::{
    ContentsEq, CopyIsDuplicate, DecodeValue, EncodeValue, Form, FormValue, OneTag, SetTag,
    TagMarker, ValueOrd,
};
use der_lists::UnorderedSetRef;
use der_modules::Member;
use der_tlv::{BackWriter, Error, Header, Length, Source, Writer};
use std::alloc::Global;
use std::cmp::Ordering;

/// ```text
/// Attributes ::= SET OF Attribute
/// ```
///
/// The items stand in the order in which they came: BER asks for none.
///
/// Reading refuses the first fault of the octets, in their order.
#[derive(Clone, Copy, Debug, PartialEq, Eq)]
pub struct Attributes<'a> {
    items: UnorderedSetRef<'a, Attribute<'a>>,
}

impl<'a> Attributes<'a> {
    ghost use Rattle.der_pkix.specs.Key.Attributes as attributes;

    /// These items.
    pub fn new(items: UnorderedSetRef<'a, Attribute<'a>>) -> Attributes<'a>
        ensures { attributes.items_of result ≡ items.entry }
    {
        Attributes { items }
    }

    /// The items, in their order.
    pub fn items(&self) -> &UnorderedSetRef<'a, Attribute<'a>>
        ensures { result.now ≡ attributes.items_of self.now }
    {
        &self.items
    }
}

impl<'a> OneTag for Attributes<'a> {
    type Marker = SetTag;
}

impl<'a> FormValue for Attributes<'a> {
    ghost value = { mapped_format (λ v. v.items) ⟦<UnorderedSetRef<'a, Attribute<'a>> as FormValue>⟧.value };
}

impl<'a, R: Source<'a>> DecodeValue<'a, R> for Attributes<'a> {
    ghost TAKES_MEMORY = { false };

    const TAKES_MEMORY: bool = false;

    fn decode_value(
        alloc: Global,
        reader: &mut R,
        header: Header,
    ) -> Result<Attributes<'a>, Error> {
        let items = UnorderedSetRef::<'a, Attribute<'a>>::decode_value(alloc, reader, header)?;
        Ok(Attributes { items })
    }

    ghost takes_memory_is = { refl };
}

impl<'a> EncodeValue for Attributes<'a> {
    fn value_len(&self) -> Result<Length, Error> {
        self.items.value_len()
    }

    fn encode_value<W: Writer>(&self, writer: &mut W) -> Result<(), Error> {
        self.items.encode_value(writer)
    }

    fn encode_value_back<W: BackWriter>(&self, writer: &mut W) -> Result<(), Error> {
        self.items.encode_value_back(writer)
    }
}

impl<'a> ValueOrd for Attributes<'a> {
    fn value_cmp(&self, other: &Attributes<'a>) -> Result<Ordering, Error> {
        self.items.value_cmp(&other.items)
    }
}

impl<'a> Member for Attributes<'a> {
    ghost member = { seen_member ⟦<SetTag as TagMarker>⟧.TAG (λ v. v.items) ⟦<UnorderedSetRef<'a, Attribute<'a>> as Member>⟧.member };
}

impl<'a> ContentsEq for Attributes<'a> {
    ghost contents_eq = { ⟦<Attributes<'a> as Member>⟧.member.equal };
}

impl<'a> CopyIsDuplicate for Attributes<'a> {}

/// What is read as `Attributes` is what the grammar page says.
pub fn grammar_of_attributes<'a>()
    ensures { ⟦<Attributes<'a> as Form>⟧.parse ≡ parse_of attributes }
{}
