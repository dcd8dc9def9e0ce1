//! OtherPrimeInfos, a SEQUENCE OF.
//!
//! Made by tools/asn1 from key.asn1.

ghost use Rattle.std.specs.Prelude.{◌≡◌, false, refl};
ghost use Rattle.der_elem.specs.FormatMakers.{mapped_format};
ghost use Rattle.der_lists.specs.NonEmptyRef.{list_of};
ghost use Rattle.der_modules.specs.Asn1.{parse_of};
ghost use Rattle.der_modules.specs.Members.{seen_member};
ghost use Rattle.der_pkix.specs.Key.Grammar.{other_prime_infos};

use crate::key::other_prime_info::OtherPrimeInfo;
use der_elem::{
    ContentsEq, CopyIsDuplicate, DecodeValue, EncodeValue, Form, FormValue, OneTag, Sequence,
    SequenceTag, TagMarker, ValueOrd,
};
use der_lists::{ListRef, NonEmptyRef};
use der_modules::Member;
use der_tlv::{BackWriter, Error, Header, Length, Source, Writer};
use std::alloc::Global;
use std::cmp::Ordering;

/// ```text
/// OtherPrimeInfos ::= SEQUENCE SIZE (1..MAX) OF OtherPrimeInfo
/// ```
///
/// Reading refuses the first fault of the octets, in their order.
#[derive(Clone, Copy, Debug, PartialEq, Eq)]
pub struct OtherPrimeInfos<'a> {
    items: NonEmptyRef<ListRef<'a, OtherPrimeInfo<'a>>>,
}

impl<'a> OtherPrimeInfos<'a> {
    ghost use Rattle.der_pkix.specs.Key.OtherPrimeInfos as other_prime_infos;

    /// These items.
    pub fn new(items: NonEmptyRef<ListRef<'a, OtherPrimeInfo<'a>>>) -> OtherPrimeInfos<'a>
        ensures { other_prime_infos.items_of result ≡ list_of items.entry }
    {
        OtherPrimeInfos { items }
    }

    /// The items, in their order.
    pub fn items(&self) -> &ListRef<'a, OtherPrimeInfo<'a>>
        ensures { result.now ≡ other_prime_infos.items_of self.now }
    {
        self.items.list()
    }
}

impl<'a> OneTag for OtherPrimeInfos<'a> {
    type Marker = SequenceTag;
}

impl<'a> Sequence<'a> for OtherPrimeInfos<'a> {
    ghost is_sequence = { refl };
}

impl<'a> FormValue for OtherPrimeInfos<'a> {
    ghost value = { mapped_format (λ v. v.items) ⟦<NonEmptyRef<ListRef<'a, OtherPrimeInfo<'a>>> as FormValue>⟧.value };
}

impl<'a, R: Source<'a>> DecodeValue<'a, R> for OtherPrimeInfos<'a> {
    ghost TAKES_MEMORY = { false };

    const TAKES_MEMORY: bool = false;

    fn decode_value(
        alloc: Global,
        reader: &mut R,
        header: Header,
    ) -> Result<OtherPrimeInfos<'a>, Error> {
        let items = NonEmptyRef::<ListRef<'a, OtherPrimeInfo<'a>>>::decode_value(
            alloc, reader, header,
        )?;
        Ok(OtherPrimeInfos { items })
    }

    ghost takes_memory_is = { refl };
}

impl<'a> EncodeValue for OtherPrimeInfos<'a> {
    fn value_len(&self) -> Result<Length, Error> {
        self.items.value_len()
    }

    fn encode_value<W: Writer>(&self, writer: &mut W) -> Result<(), Error> {
        self.items.encode_value(writer)
    }

    fn encode_value_back<W: BackWriter>(&self, writer: &mut W) -> Result<(), Error> {
        self.items.encode_value_back(writer)
    }
}

impl<'a> ValueOrd for OtherPrimeInfos<'a> {
    fn value_cmp(&self, other: &OtherPrimeInfos<'a>) -> Result<Ordering, Error> {
        self.items.value_cmp(&other.items)
    }
}

impl<'a> Member for OtherPrimeInfos<'a> {
    ghost member = { seen_member ⟦<SequenceTag as TagMarker>⟧.TAG (λ v. v.items) ⟦<NonEmptyRef<ListRef<'a, OtherPrimeInfo<'a>>> as Member>⟧.member };
}

impl<'a> ContentsEq for OtherPrimeInfos<'a> {
    ghost contents_eq = { ⟦<OtherPrimeInfos<'a> as Member>⟧.member.equal };
}

impl<'a> CopyIsDuplicate for OtherPrimeInfos<'a> {}

/// What is read as `OtherPrimeInfos` is what the grammar page says.
pub fn grammar_of_other_prime_infos<'a>()
    ensures { ⟦<OtherPrimeInfos<'a> as Form>⟧.parse ≡ parse_of other_prime_infos }
{}
