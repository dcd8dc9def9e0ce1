//! RelativeDistinguishedName, a SET OF.
//!
//! Made by tools/asn1 from name.asn1.

ghost use Rattle.std.specs.Prelude.{◌≡◌, false, refl};
ghost use Rattle.der_elem.specs.FormatMakers.{mapped_format};
ghost use Rattle.der_lists.specs.NonEmptyRef.{list_of};
ghost use Rattle.der_modules.specs.Asn1.{parse_of};
ghost use Rattle.der_modules.specs.Members.{seen_member};
ghost use Rattle.der_pkix.specs.Name.Grammar.{relative_distinguished_name};

use crate::name::attribute_type_and_value::AttributeTypeAndValue;
use der_elem::{
    ContentsEq, CopyIsDuplicate, DecodeValue, EncodeValue, Form, FormValue, OneTag, SetTag,
    TagMarker, ValueOrd,
};
use der_lists::{NonEmptyRef, SetRef};
use der_modules::Member;
use der_tlv::{BackWriter, Error, Header, Length, Source, Writer};
use std::alloc::Global;
use std::cmp::Ordering;

/// ```text
/// RelativeDistinguishedName ::= SET SIZE (1..MAX) OF AttributeTypeAndValue
/// ```
///
/// The items stand in the order of their octets (X.690 11.6): others are refused
/// (`ErrorKind::SetOrdering`, 11).
///
/// Reading refuses the first fault of the octets, in their order.
#[derive(Clone, Copy, Debug, PartialEq, Eq)]
pub struct RelativeDistinguishedName<'a> {
    items: NonEmptyRef<SetRef<'a, AttributeTypeAndValue<'a>>>,
}

impl<'a> RelativeDistinguishedName<'a> {
    ghost use Rattle.der_pkix.specs.Name.RelativeDistinguishedName as relative_distinguished_name;

    /// These items.
    pub fn new(
        items: NonEmptyRef<SetRef<'a, AttributeTypeAndValue<'a>>>,
    ) -> RelativeDistinguishedName<'a>
        ensures { relative_distinguished_name.items_of result ≡ list_of items.entry }
    {
        RelativeDistinguishedName { items }
    }

    /// The items, in their order.
    pub fn items(&self) -> &SetRef<'a, AttributeTypeAndValue<'a>>
        ensures { result.now ≡ relative_distinguished_name.items_of self.now }
    {
        self.items.list()
    }
}

impl<'a> OneTag for RelativeDistinguishedName<'a> {
    type Marker = SetTag;
}

impl<'a> FormValue for RelativeDistinguishedName<'a> {
    ghost value = { mapped_format (λ v. v.items) ⟦<NonEmptyRef<SetRef<'a, AttributeTypeAndValue<'a>>> as FormValue>⟧.value };
}

impl<'a, R: Source<'a>> DecodeValue<'a, R> for RelativeDistinguishedName<'a> {
    ghost TAKES_MEMORY = { false };

    const TAKES_MEMORY: bool = false;

    fn decode_value(
        alloc: Global,
        reader: &mut R,
        header: Header,
    ) -> Result<RelativeDistinguishedName<'a>, Error> {
        let items = NonEmptyRef::<SetRef<'a, AttributeTypeAndValue<'a>>>::decode_value(
            alloc, reader, header,
        )?;
        Ok(RelativeDistinguishedName { items })
    }

    ghost takes_memory_is = { refl };
}

impl<'a> EncodeValue for RelativeDistinguishedName<'a> {
    fn value_len(&self) -> Result<Length, Error> {
        self.items.value_len()
    }

    fn encode_value<W: Writer>(&self, writer: &mut W) -> Result<(), Error> {
        self.items.encode_value(writer)
    }

    fn encode_value_back<W: BackWriter>(&self, writer: &mut W) -> Result<(), Error> {
        self.items.encode_value_back(writer)
    }
}

impl<'a> ValueOrd for RelativeDistinguishedName<'a> {
    fn value_cmp(&self, other: &RelativeDistinguishedName<'a>) -> Result<Ordering, Error> {
        self.items.value_cmp(&other.items)
    }
}

impl<'a> Member for RelativeDistinguishedName<'a> {
    ghost member = { seen_member ⟦<SetTag as TagMarker>⟧.TAG (λ v. v.items) ⟦<NonEmptyRef<SetRef<'a, AttributeTypeAndValue<'a>>> as Member>⟧.member };
}

impl<'a> ContentsEq for RelativeDistinguishedName<'a> {
    ghost contents_eq = { ⟦<RelativeDistinguishedName<'a> as Member>⟧.member.equal };
}

impl<'a> CopyIsDuplicate for RelativeDistinguishedName<'a> {}

/// What is read as `RelativeDistinguishedName` is what the grammar page says.
pub fn grammar_of_relative_distinguished_name<'a>()
    ensures { ⟦<RelativeDistinguishedName<'a> as Form>⟧.parse ≡ parse_of relative_distinguished_name }
{}
