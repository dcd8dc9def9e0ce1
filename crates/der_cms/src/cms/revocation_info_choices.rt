//! RevocationInfoChoices, a SET OF.
//!
//! Made by tools/asn1 from cms.asn1.

ghost use Rattle.std.specs.Prelude.{◌≡◌, false, refl};
ghost use Rattle.der_cms.specs.Cms.Grammar.{revocation_info_choices};
ghost use Rattle.der_elem.specs.FormatMakers.{mapped_format};
ghost use Rattle.der_modules.specs.Asn1.{parse_of};
ghost use Rattle.der_modules.specs.Members.{seen_member};

use crate::cms::revocation_info_choice::RevocationInfoChoice;
use der_elem::{
    ContentsEq, CopyIsDuplicate, DecodeValue, EncodeValue, Form, FormValue, OneTag, SetTag,
    TagMarker, ValueOrd,
};
use der_lists::UnorderedSetRef;
use der_modules::Member;
use der_tlv::{BackWriter, Error, Header, Length, Source, Writer};
use std::alloc::Global;
use std::cmp::Ordering;

/// ```text
/// RevocationInfoChoices ::= SET OF RevocationInfoChoice
/// ```
///
/// The items stand in the order in which they came: BER asks for none.
///
/// Reading refuses the first fault of the octets, in their order.
#[derive(Clone, Copy, Debug, PartialEq, Eq)]
pub struct RevocationInfoChoices<'a> {
    items: UnorderedSetRef<'a, RevocationInfoChoice<'a>>,
}

impl<'a> RevocationInfoChoices<'a> {
    ghost use Rattle.der_cms.specs.Cms.RevocationInfoChoices as revocation_info_choices;

    /// These items.
    pub fn new(items: UnorderedSetRef<'a, RevocationInfoChoice<'a>>) -> RevocationInfoChoices<'a>
        ensures { revocation_info_choices.items_of result ≡ items.entry }
    {
        RevocationInfoChoices { items }
    }

    /// The items, in their order.
    pub fn items(&self) -> &UnorderedSetRef<'a, RevocationInfoChoice<'a>>
        ensures { result.now ≡ revocation_info_choices.items_of self.now }
    {
        &self.items
    }
}

impl<'a> OneTag for RevocationInfoChoices<'a> {
    type Marker = SetTag;
}

impl<'a> FormValue for RevocationInfoChoices<'a> {
    ghost value = { mapped_format (λ v. v.items) ⟦<UnorderedSetRef<'a, RevocationInfoChoice<'a>> as FormValue>⟧.value };
}

impl<'a, R: Source<'a>> DecodeValue<'a, R> for RevocationInfoChoices<'a> {
    ghost TAKES_MEMORY = { false };

    const TAKES_MEMORY: bool = false;

    fn decode_value(
        alloc: Global,
        reader: &mut R,
        header: Header,
    ) -> Result<RevocationInfoChoices<'a>, Error> {
        let items = UnorderedSetRef::<'a, RevocationInfoChoice<'a>>::decode_value(
            alloc, reader, header,
        )?;
        Ok(RevocationInfoChoices { items })
    }

    ghost takes_memory_is = { refl };
}

impl<'a> EncodeValue for RevocationInfoChoices<'a> {
    fn value_len(&self) -> Result<Length, Error> {
        self.items.value_len()
    }

    fn encode_value<W: Writer>(&self, writer: &mut W) -> Result<(), Error> {
        self.items.encode_value(writer)
    }

    fn encode_value_back<W: BackWriter>(&self, writer: &mut W) -> Result<(), Error> {
        self.items.encode_value_back(writer)
    }
}

impl<'a> ValueOrd for RevocationInfoChoices<'a> {
    fn value_cmp(&self, other: &RevocationInfoChoices<'a>) -> Result<Ordering, Error> {
        self.items.value_cmp(&other.items)
    }
}

impl<'a> Member for RevocationInfoChoices<'a> {
    ghost member = { seen_member ⟦<SetTag as TagMarker>⟧.TAG (λ v. v.items) ⟦<UnorderedSetRef<'a, RevocationInfoChoice<'a>> as Member>⟧.member };
}

impl<'a> ContentsEq for RevocationInfoChoices<'a> {
    ghost contents_eq = { ⟦<RevocationInfoChoices<'a> as Member>⟧.member.equal };
}

impl<'a> CopyIsDuplicate for RevocationInfoChoices<'a> {}

/// What is read as `RevocationInfoChoices` is what the grammar page says.
pub fn grammar_of_revocation_info_choices<'a>()
    ensures { ⟦<RevocationInfoChoices<'a> as Form>⟧.parse ≡ parse_of revocation_info_choices }
{}
