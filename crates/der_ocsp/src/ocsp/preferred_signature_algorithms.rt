//! PreferredSignatureAlgorithms, a SEQUENCE OF.
//!
//! Made by tools/asn1 from ocsp.asn1.

ghost use Rattle.std.specs.Prelude.{◌≡◌, false, refl};
ghost use Rattle.der_elem.specs.FormatMakers.{mapped_format};
ghost use Rattle.der_modules.specs.Asn1.{parse_of};
ghost use Rattle.der_modules.specs.Members.{seen_member};
ghost use Rattle.der_ocsp.specs.Ocsp.Grammar.{preferred_signature_algorithms};

use crate::ocsp::preferred_signature_algorithm::PreferredSignatureAlgorithm;
use der_elem::{
    ContentsEq, CopyIsDuplicate, DecodeValue, EncodeValue, Form, FormValue, OneTag, Sequence,
    SequenceTag, TagMarker, ValueOrd,
};
use der_lists::ListRef;
use der_modules::Member;
use der_tlv::{BackWriter, Error, Header, Length, Source, Writer};
use std::alloc::Global;
use std::cmp::Ordering;

/// ```text
/// PreferredSignatureAlgorithms ::= SEQUENCE OF PreferredSignatureAlgorithm
/// ```
///
/// Reading refuses the first fault of the octets, in their order.
#[derive(Clone, Copy, Debug, PartialEq, Eq)]
pub struct PreferredSignatureAlgorithms<'a> {
    items: ListRef<'a, PreferredSignatureAlgorithm<'a>>,
}

impl<'a> PreferredSignatureAlgorithms<'a> {
    ghost use Rattle.der_ocsp.specs.Ocsp.PreferredSignatureAlgorithms as preferred_signature_algorithms;

    /// These items.
    pub fn new(
        items: ListRef<'a, PreferredSignatureAlgorithm<'a>>,
    ) -> PreferredSignatureAlgorithms<'a>
        ensures { preferred_signature_algorithms.items_of result ≡ items.entry }
    {
        PreferredSignatureAlgorithms { items }
    }

    /// The items, in their order.
    pub fn items(&self) -> &ListRef<'a, PreferredSignatureAlgorithm<'a>>
        ensures { result.now ≡ preferred_signature_algorithms.items_of self.now }
    {
        &self.items
    }
}

impl<'a> OneTag for PreferredSignatureAlgorithms<'a> {
    type Marker = SequenceTag;
}

impl<'a> Sequence<'a> for PreferredSignatureAlgorithms<'a> {
    ghost is_sequence = { refl };
}

impl<'a> FormValue for PreferredSignatureAlgorithms<'a> {
    ghost value = { mapped_format (λ v. v.items) ⟦<ListRef<'a, PreferredSignatureAlgorithm<'a>> as FormValue>⟧.value };
}

impl<'a, R: Source<'a>> DecodeValue<'a, R> for PreferredSignatureAlgorithms<'a> {
    ghost TAKES_MEMORY = { false };

    const TAKES_MEMORY: bool = false;

    fn decode_value(
        alloc: Global,
        reader: &mut R,
        header: Header,
    ) -> Result<PreferredSignatureAlgorithms<'a>, Error> {
        let items = ListRef::<'a, PreferredSignatureAlgorithm<'a>>::decode_value(
            alloc, reader, header,
        )?;
        Ok(PreferredSignatureAlgorithms { items })
    }

    ghost takes_memory_is = { refl };
}

impl<'a> EncodeValue for PreferredSignatureAlgorithms<'a> {
    fn value_len(&self) -> Result<Length, Error> {
        self.items.value_len()
    }

    fn encode_value<W: Writer>(&self, writer: &mut W) -> Result<(), Error> {
        self.items.encode_value(writer)
    }

    fn encode_value_back<W: BackWriter>(&self, writer: &mut W) -> Result<(), Error> {
        self.items.encode_value_back(writer)
    }
}

impl<'a> ValueOrd for PreferredSignatureAlgorithms<'a> {
    fn value_cmp(&self, other: &PreferredSignatureAlgorithms<'a>) -> Result<Ordering, Error> {
        self.items.value_cmp(&other.items)
    }
}

impl<'a> Member for PreferredSignatureAlgorithms<'a> {
    ghost member = { seen_member ⟦<SequenceTag as TagMarker>⟧.TAG (λ v. v.items) ⟦<ListRef<'a, PreferredSignatureAlgorithm<'a>> as Member>⟧.member };
}

impl<'a> ContentsEq for PreferredSignatureAlgorithms<'a> {
    ghost contents_eq = { ⟦<PreferredSignatureAlgorithms<'a> as Member>⟧.member.equal };
}

impl<'a> CopyIsDuplicate for PreferredSignatureAlgorithms<'a> {}

/// What is read as `PreferredSignatureAlgorithms` is what the grammar page says.
pub fn grammar_of_preferred_signature_algorithms<'a>()
    ensures { ⟦<PreferredSignatureAlgorithms<'a> as Form>⟧.parse ≡ parse_of preferred_signature_algorithms }
{}
