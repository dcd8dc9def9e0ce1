//! AcceptableResponses, a SEQUENCE OF.
//!
//! Made by tools/asn1 from ocsp.asn1.

ghost use Rattle.std.specs.Prelude.{◌≡◌, false, refl};
ghost use Rattle.der_elem.specs.FormatMakers.{mapped_format};
ghost use Rattle.der_modules.specs.Asn1.{parse_of};
ghost use Rattle.der_modules.specs.Members.{seen_member};
ghost use Rattle.der_ocsp.specs.Ocsp.Grammar.{acceptable_responses};

use der_elem::{
    ContentsEq, CopyIsDuplicate, DecodeValue, EncodeValue, Form, FormValue, OneTag, Sequence,
    SequenceTag, TagMarker, ValueOrd,
};
use der_lists::ListRef;
use der_modules::Member;
use der_opaque::ObjectIdentifierRef;
use der_tlv::{BackWriter, Error, Header, Length, Source, Writer};
use std::alloc::Global;
use std::cmp::Ordering;

/// ```text
/// AcceptableResponses ::= SEQUENCE OF OBJECT IDENTIFIER
/// ```
///
/// Reading refuses the first fault of the octets, in their order.
#[derive(Clone, Copy, Debug, PartialEq, Eq)]
pub struct AcceptableResponses<'a> {
    items: ListRef<'a, ObjectIdentifierRef<'a, 39>>,
}

impl<'a> AcceptableResponses<'a> {
    ghost use Rattle.der_ocsp.specs.Ocsp.AcceptableResponses as acceptable_responses;

    /// These items.
    pub fn new(items: ListRef<'a, ObjectIdentifierRef<'a, 39>>) -> AcceptableResponses<'a>
        ensures { acceptable_responses.items_of result ≡ items.entry }
    {
        AcceptableResponses { items }
    }

    /// The items, in their order.
    pub fn items(&self) -> &ListRef<'a, ObjectIdentifierRef<'a, 39>>
        ensures { result.now ≡ acceptable_responses.items_of self.now }
    {
        &self.items
    }
}

impl<'a> OneTag for AcceptableResponses<'a> {
    type Marker = SequenceTag;
}

impl<'a> Sequence<'a> for AcceptableResponses<'a> {
    ghost is_sequence = { refl };
}

impl<'a> FormValue for AcceptableResponses<'a> {
    ghost value = { mapped_format (λ v. v.items) ⟦<ListRef<'a, ObjectIdentifierRef<'a, 39>> as FormValue>⟧.value };
}

impl<'a, R: Source<'a>> DecodeValue<'a, R> for AcceptableResponses<'a> {
    ghost TAKES_MEMORY = { false };

    const TAKES_MEMORY: bool = false;

    fn decode_value(
        alloc: Global,
        reader: &mut R,
        header: Header,
    ) -> Result<AcceptableResponses<'a>, Error> {
        let items = ListRef::<'a, ObjectIdentifierRef<'a, 39>>::decode_value(
            alloc, reader, header,
        )?;
        Ok(AcceptableResponses { items })
    }

    ghost takes_memory_is = { refl };
}

impl<'a> EncodeValue for AcceptableResponses<'a> {
    fn value_len(&self) -> Result<Length, Error> {
        self.items.value_len()
    }

    fn encode_value<W: Writer>(&self, writer: &mut W) -> Result<(), Error> {
        self.items.encode_value(writer)
    }

    fn encode_value_back<W: BackWriter>(&self, writer: &mut W) -> Result<(), Error> {
        self.items.encode_value_back(writer)
    }
}

impl<'a> ValueOrd for AcceptableResponses<'a> {
    fn value_cmp(&self, other: &AcceptableResponses<'a>) -> Result<Ordering, Error> {
        self.items.value_cmp(&other.items)
    }
}

impl<'a> Member for AcceptableResponses<'a> {
    ghost member = { seen_member ⟦<SequenceTag as TagMarker>⟧.TAG (λ v. v.items) ⟦<ListRef<'a, ObjectIdentifierRef<'a, 39>> as Member>⟧.member };
}

impl<'a> ContentsEq for AcceptableResponses<'a> {
    ghost contents_eq = { ⟦<AcceptableResponses<'a> as Member>⟧.member.equal };
}

impl<'a> CopyIsDuplicate for AcceptableResponses<'a> {}

/// What is read as `AcceptableResponses` is what the grammar page says.
pub fn grammar_of_acceptable_responses<'a>()
    ensures { ⟦<AcceptableResponses<'a> as Form>⟧.parse ≡ parse_of acceptable_responses }
{}
