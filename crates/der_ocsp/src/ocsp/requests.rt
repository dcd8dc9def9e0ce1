//! Requests, a SEQUENCE OF.
//!
//! Made by tools/asn1 from ocsp.asn1.

ghost use Rattle.std.specs.Prelude.{◌≡◌, false, refl};
ghost use Rattle.der_elem.specs.FormatMakers.{mapped_format};
ghost use Rattle.der_modules.specs.Asn1.{parse_of};
ghost use Rattle.der_modules.specs.Members.{seen_member};
ghost use Rattle.der_ocsp.specs.Ocsp.Grammar.{requests};

use crate::ocsp::request::Request;
use der_elem::{
    ContentsEq, CopyIsDuplicate, DecodeValue, EncodeValue, Form, FormValue, OneTag, Sequence,
    SequenceTag, TagMarker, ValueOrd,
};
use der_lists::ListRef;
use der_modules::Member;
use der_tlv::{BackWriter, Error, Header, Length, Source, Writer};
use std::alloc::Global;
use std::cmp::Ordering;

/// ```text
/// Requests ::= SEQUENCE OF Request
/// ```
///
/// Reading refuses the first fault of the octets, in their order.
#[derive(Clone, Copy, Debug, PartialEq, Eq)]
pub struct Requests<'a> {
    items: ListRef<'a, Request<'a>>,
}

impl<'a> Requests<'a> {
    ghost use Rattle.der_ocsp.specs.Ocsp.Requests as requests;

    /// These items.
    pub fn new(items: ListRef<'a, Request<'a>>) -> Requests<'a>
        ensures { requests.items_of result ≡ items.entry }
    {
        Requests { items }
    }

    /// The items, in their order.
    pub fn items(&self) -> &ListRef<'a, Request<'a>>
        ensures { result.now ≡ requests.items_of self.now }
    {
        &self.items
    }
}

impl<'a> OneTag for Requests<'a> {
    type Marker = SequenceTag;
}

impl<'a> Sequence<'a> for Requests<'a> {
    ghost is_sequence = { refl };
}

impl<'a> FormValue for Requests<'a> {
    ghost value = { mapped_format (λ v. v.items) ⟦<ListRef<'a, Request<'a>> as FormValue>⟧.value };
}

impl<'a, R: Source<'a>> DecodeValue<'a, R> for Requests<'a> {
    ghost TAKES_MEMORY = { false };

    const TAKES_MEMORY: bool = false;

    fn decode_value(alloc: Global, reader: &mut R, header: Header) -> Result<Requests<'a>, Error> {
        let items = ListRef::<'a, Request<'a>>::decode_value(alloc, reader, header)?;
        Ok(Requests { items })
    }

    ghost takes_memory_is = { refl };
}

impl<'a> EncodeValue for Requests<'a> {
    fn value_len(&self) -> Result<Length, Error> {
        self.items.value_len()
    }

    fn encode_value<W: Writer>(&self, writer: &mut W) -> Result<(), Error> {
        self.items.encode_value(writer)
    }

    fn encode_value_back<W: BackWriter>(&self, writer: &mut W) -> Result<(), Error> {
        self.items.encode_value_back(writer)
    }
}

impl<'a> ValueOrd for Requests<'a> {
    fn value_cmp(&self, other: &Requests<'a>) -> Result<Ordering, Error> {
        self.items.value_cmp(&other.items)
    }
}

impl<'a> Member for Requests<'a> {
    ghost member = { seen_member ⟦<SequenceTag as TagMarker>⟧.TAG (λ v. v.items) ⟦<ListRef<'a, Request<'a>> as Member>⟧.member };
}

impl<'a> ContentsEq for Requests<'a> {
    ghost contents_eq = { ⟦<Requests<'a> as Member>⟧.member.equal };
}

impl<'a> CopyIsDuplicate for Requests<'a> {}

/// What is read as `Requests` is what the grammar page says.
pub fn grammar_of_requests<'a>()
    ensures { ⟦<Requests<'a> as Form>⟧.parse ≡ parse_of requests }
{}
