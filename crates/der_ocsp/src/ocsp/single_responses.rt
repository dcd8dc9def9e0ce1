//! SingleResponses, a SEQUENCE OF.
//!
//! Made by tools/asn1 from ocsp.asn1.

ghost use Rattle.std.specs.Prelude.{◌≡◌, false, refl};
ghost use Rattle.der_elem.specs.FormatMakers.{mapped_format};
ghost use Rattle.der_modules.specs.Asn1.{parse_of};
ghost use Rattle.der_modules.specs.Members.{seen_member};
ghost use Rattle.der_ocsp.specs.Ocsp.Grammar.{single_responses};

use crate::ocsp::single_response::SingleResponse;
use der_elem::{
    ContentsEq, CopyIsDuplicate, DecodeValue, EncodeValue, Form, FormValue, OneTag, Sequence,
    SequenceTag, TagMarker, ValueOrd,
};
use der_lists::ListRef;
use der_modules::Member;
use der_tlv::{BackWriter, Error, Header, Length, Source, Writer};
use std::alloc::Global;
use std::cmp::Ordering;

/// ```text
/// SingleResponses ::= SEQUENCE OF SingleResponse
/// ```
///
/// Reading refuses the first fault of the octets, in their order.
#[derive(Clone, Copy, Debug, PartialEq, Eq)]
pub struct SingleResponses<'a> {
    items: ListRef<'a, SingleResponse<'a>>,
}

impl<'a> SingleResponses<'a> {
    ghost use Rattle.der_ocsp.specs.Ocsp.SingleResponses as single_responses;

    /// These items.
    pub fn new(items: ListRef<'a, SingleResponse<'a>>) -> SingleResponses<'a>
        ensures { single_responses.items_of result ≡ items.entry }
    {
        SingleResponses { items }
    }

    /// The items, in their order.
    pub fn items(&self) -> &ListRef<'a, SingleResponse<'a>>
        ensures { result.now ≡ single_responses.items_of self.now }
    {
        &self.items
    }
}

impl<'a> OneTag for SingleResponses<'a> {
    type Marker = SequenceTag;
}

impl<'a> Sequence<'a> for SingleResponses<'a> {
    ghost is_sequence = { refl };
}

impl<'a> FormValue for SingleResponses<'a> {
    ghost value = { mapped_format (λ v. v.items) ⟦<ListRef<'a, SingleResponse<'a>> as FormValue>⟧.value };
}

impl<'a, R: Source<'a>> DecodeValue<'a, R> for SingleResponses<'a> {
    ghost TAKES_MEMORY = { false };

    const TAKES_MEMORY: bool = false;

    fn decode_value(
        alloc: Global,
        reader: &mut R,
        header: Header,
    ) -> Result<SingleResponses<'a>, Error> {
        let items = ListRef::<'a, SingleResponse<'a>>::decode_value(alloc, reader, header)?;
        Ok(SingleResponses { items })
    }

    ghost takes_memory_is = { refl };
}

impl<'a> EncodeValue for SingleResponses<'a> {
    fn value_len(&self) -> Result<Length, Error> {
        self.items.value_len()
    }

    fn encode_value<W: Writer>(&self, writer: &mut W) -> Result<(), Error> {
        self.items.encode_value(writer)
    }

    fn encode_value_back<W: BackWriter>(&self, writer: &mut W) -> Result<(), Error> {
        self.items.encode_value_back(writer)
    }
}

impl<'a> ValueOrd for SingleResponses<'a> {
    fn value_cmp(&self, other: &SingleResponses<'a>) -> Result<Ordering, Error> {
        self.items.value_cmp(&other.items)
    }
}

impl<'a> Member for SingleResponses<'a> {
    ghost member = { seen_member ⟦<SequenceTag as TagMarker>⟧.TAG (λ v. v.items) ⟦<ListRef<'a, SingleResponse<'a>> as Member>⟧.member };
}

impl<'a> ContentsEq for SingleResponses<'a> {
    ghost contents_eq = { ⟦<SingleResponses<'a> as Member>⟧.member.equal };
}

impl<'a> CopyIsDuplicate for SingleResponses<'a> {}

/// What is read as `SingleResponses` is what the grammar page says.
pub fn grammar_of_single_responses<'a>()
    ensures { ⟦<SingleResponses<'a> as Form>⟧.parse ≡ parse_of single_responses }
{}
