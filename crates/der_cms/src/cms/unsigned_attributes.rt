//! UnsignedAttributes, a SET OF.
//!
//! Made by tools/asn1 from cms.asn1.

ghost use Rattle.std.specs.Prelude.{◌≡◌, false, refl};
ghost use Rattle.der_cms.specs.Cms.Grammar.{unsigned_attributes};
ghost use Rattle.der_elem.specs.FormatMakers.{mapped_format};
ghost use Rattle.der_lists.specs.NonEmptyRef.{list_of};
ghost use Rattle.der_modules.specs.Asn1.{parse_of};
ghost use Rattle.der_modules.specs.Members.{seen_member};

use der_elem::{
    ContentsEq, CopyIsDuplicate, DecodeValue, EncodeValue, Form, FormValue, OneTag, SetTag,
    TagMarker, ValueOrd,
};
use der_lists::{NonEmptyRef, UnorderedSetRef};
use der_modules::Member;
use der_pkix::name::Attribute;
use der_tlv::{BackWriter, Error, Header, Length, Source, Writer};
use std::alloc::Global;
use std::cmp::Ordering;

/// ```text
/// UnsignedAttributes ::= SET SIZE (1..MAX) OF Attribute
/// ```
///
/// The items stand in the order in which they came: BER asks for none.
///
/// Reading refuses the first fault of the octets, in their order.
#[derive(Clone, Copy, Debug, PartialEq, Eq)]
pub struct UnsignedAttributes<'a> {
    items: NonEmptyRef<UnorderedSetRef<'a, Attribute<'a>>>,
}

impl<'a> UnsignedAttributes<'a> {
    ghost use Rattle.der_cms.specs.Cms.UnsignedAttributes as unsigned_attributes;

    /// These items.
    pub fn new(items: NonEmptyRef<UnorderedSetRef<'a, Attribute<'a>>>) -> UnsignedAttributes<'a>
        ensures { unsigned_attributes.items_of result ≡ list_of items.entry }
    {
        UnsignedAttributes { items }
    }

    /// The items, in their order.
    pub fn items(&self) -> &UnorderedSetRef<'a, Attribute<'a>>
        ensures { result.now ≡ unsigned_attributes.items_of self.now }
    {
        self.items.list()
    }
}

impl<'a> OneTag for UnsignedAttributes<'a> {
    type Marker = SetTag;
}

impl<'a> FormValue for UnsignedAttributes<'a> {
    ghost value = { mapped_format (λ v. v.items) ⟦<NonEmptyRef<UnorderedSetRef<'a, Attribute<'a>>> as FormValue>⟧.value };
}

impl<'a, R: Source<'a>> DecodeValue<'a, R> for UnsignedAttributes<'a> {
    ghost TAKES_MEMORY = { false };

    const TAKES_MEMORY: bool = false;

    fn decode_value(
        alloc: Global,
        reader: &mut R,
        header: Header,
    ) -> Result<UnsignedAttributes<'a>, Error> {
        let items = NonEmptyRef::<UnorderedSetRef<'a, Attribute<'a>>>::decode_value(
            alloc, reader, header,
        )?;
        Ok(UnsignedAttributes { items })
    }

    ghost takes_memory_is = { refl };
}

impl<'a> EncodeValue for UnsignedAttributes<'a> {
    fn value_len(&self) -> Result<Length, Error> {
        self.items.value_len()
    }

    fn encode_value<W: Writer>(&self, writer: &mut W) -> Result<(), Error> {
        self.items.encode_value(writer)
    }

    fn encode_value_back<W: BackWriter>(&self, writer: &mut W) -> Result<(), Error> {
        self.items.encode_value_back(writer)
    }
}

impl<'a> ValueOrd for UnsignedAttributes<'a> {
    fn value_cmp(&self, other: &UnsignedAttributes<'a>) -> Result<Ordering, Error> {
        self.items.value_cmp(&other.items)
    }
}

impl<'a> Member for UnsignedAttributes<'a> {
    ghost member = { seen_member ⟦<SetTag as TagMarker>⟧.TAG (λ v. v.items) ⟦<NonEmptyRef<UnorderedSetRef<'a, Attribute<'a>>> as Member>⟧.member };
}

impl<'a> ContentsEq for UnsignedAttributes<'a> {
    ghost contents_eq = { ⟦<UnsignedAttributes<'a> as Member>⟧.member.equal };
}

impl<'a> CopyIsDuplicate for UnsignedAttributes<'a> {}

/// What is read as `UnsignedAttributes` is what the grammar page says.
pub fn grammar_of_unsigned_attributes<'a>()
    ensures { ⟦<UnsignedAttributes<'a> as Form>⟧.parse ≡ parse_of unsigned_attributes }
{}
