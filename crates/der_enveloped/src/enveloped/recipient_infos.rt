//! RecipientInfos, a SET OF.
//!
//! Made by tools/asn1 from enveloped.asn1.

ghost use Rattle.std.specs.Prelude.{◌≡◌, false, refl};
ghost use Rattle.der_elem.specs.FormatMakers.{mapped_format};
ghost use Rattle.der_enveloped.specs.Enveloped.Grammar.{recipient_infos};
ghost use Rattle.der_lists.specs.NonEmptyRef.{list_of};
ghost use Rattle.der_modules.specs.Asn1.{parse_of};
ghost use Rattle.der_modules.specs.Members.{seen_member};

use crate::enveloped::recipient_info::RecipientInfo;
use der_elem::{
    ContentsEq, CopyIsDuplicate, DecodeValue, EncodeValue, Form, FormValue, OneTag, SetTag,
    TagMarker, ValueOrd,
};
use der_lists::{NonEmptyRef, UnorderedSetRef};
use der_modules::Member;
use der_tlv::{BackWriter, Error, Header, Length, Source, Writer};
use std::alloc::Global;
use std::cmp::Ordering;

/// ```text
/// RecipientInfos ::= SET SIZE (1..MAX) OF RecipientInfo
/// ```
///
/// The items stand in the order in which they came: BER asks for none.
///
/// Reading refuses the first fault of the octets, in their order.
#[derive(Clone, Copy, Debug, PartialEq, Eq)]
pub struct RecipientInfos<'a> {
    items: NonEmptyRef<UnorderedSetRef<'a, RecipientInfo<'a>>>,
}

impl<'a> RecipientInfos<'a> {
    ghost use Rattle.der_enveloped.specs.Enveloped.RecipientInfos as recipient_infos;

    /// These items.
    pub fn new(items: NonEmptyRef<UnorderedSetRef<'a, RecipientInfo<'a>>>) -> RecipientInfos<'a>
        ensures { recipient_infos.items_of result ≡ list_of items.entry }
    {
        RecipientInfos { items }
    }

    /// The items, in their order.
    pub fn items(&self) -> &UnorderedSetRef<'a, RecipientInfo<'a>>
        ensures { result.now ≡ recipient_infos.items_of self.now }
    {
        self.items.list()
    }
}

impl<'a> OneTag for RecipientInfos<'a> {
    type Marker = SetTag;
}

impl<'a> FormValue for RecipientInfos<'a> {
    ghost value = { mapped_format (λ v. v.items) ⟦<NonEmptyRef<UnorderedSetRef<'a, RecipientInfo<'a>>> as FormValue>⟧.value };
}

impl<'a, R: Source<'a>> DecodeValue<'a, R> for RecipientInfos<'a> {
    ghost TAKES_MEMORY = { false };

    const TAKES_MEMORY: bool = false;

    fn decode_value(
        alloc: Global,
        reader: &mut R,
        header: Header,
    ) -> Result<RecipientInfos<'a>, Error> {
        let items = NonEmptyRef::<UnorderedSetRef<'a, RecipientInfo<'a>>>::decode_value(
            alloc, reader, header,
        )?;
        Ok(RecipientInfos { items })
    }

    ghost takes_memory_is = { refl };
}

impl<'a> EncodeValue for RecipientInfos<'a> {
    fn value_len(&self) -> Result<Length, Error> {
        self.items.value_len()
    }

    fn encode_value<W: Writer>(&self, writer: &mut W) -> Result<(), Error> {
        self.items.encode_value(writer)
    }

    fn encode_value_back<W: BackWriter>(&self, writer: &mut W) -> Result<(), Error> {
        self.items.encode_value_back(writer)
    }
}

impl<'a> ValueOrd for RecipientInfos<'a> {
    fn value_cmp(&self, other: &RecipientInfos<'a>) -> Result<Ordering, Error> {
        self.items.value_cmp(&other.items)
    }
}

impl<'a> Member for RecipientInfos<'a> {
    ghost member = { seen_member ⟦<SetTag as TagMarker>⟧.TAG (λ v. v.items) ⟦<NonEmptyRef<UnorderedSetRef<'a, RecipientInfo<'a>>> as Member>⟧.member };
}

impl<'a> ContentsEq for RecipientInfos<'a> {
    ghost contents_eq = { ⟦<RecipientInfos<'a> as Member>⟧.member.equal };
}

impl<'a> CopyIsDuplicate for RecipientInfos<'a> {}

/// What is read as `RecipientInfos` is what the grammar page says.
pub fn grammar_of_recipient_infos<'a>()
    ensures { ⟦<RecipientInfos<'a> as Form>⟧.parse ≡ parse_of recipient_infos }
{}
