//! RDNSequence, a SEQUENCE OF.
//!
//! Made by tools/asn1 from name.asn1.

ghost use Rattle.std.specs.Prelude.{◌≡◌, false, refl};
ghost use Rattle.der_elem.specs.FormatMakers.{mapped_format};
ghost use Rattle.der_modules.specs.Asn1.{parse_of};
ghost use Rattle.der_modules.specs.Members.{seen_member};
ghost use Rattle.der_pkix.specs.Name.Grammar.{rdn_sequence};

use crate::name::relative_distinguished_name::RelativeDistinguishedName;
use der_elem::{
    ContentsEq, CopyIsDuplicate, DecodeValue, EncodeValue, Form, FormValue, OneTag, Sequence,
    SequenceTag, TagMarker, ValueOrd,
};
use der_lists::ListRef;
use der_modules::Member;
use der_tlv::{BackWriter, Error, Header, Length, Source, Writer};
use std::alloc::Global;
use std::cmp::Ordering;

/// ```text
/// RDNSequence ::= SEQUENCE OF RelativeDistinguishedName
/// ```
///
/// Reading refuses the first fault of the octets, in their order.
#[derive(Clone, Copy, Debug, PartialEq, Eq)]
pub struct RdnSequence<'a> {
    items: ListRef<'a, RelativeDistinguishedName<'a>>,
}

impl<'a> RdnSequence<'a> {
    ghost use Rattle.der_pkix.specs.Name.RdnSequence as rdn_sequence;

    /// These items.
    pub fn new(items: ListRef<'a, RelativeDistinguishedName<'a>>) -> RdnSequence<'a>
        ensures { rdn_sequence.items_of result ≡ items.entry }
    {
        RdnSequence { items }
    }

    /// The items, in their order.
    pub fn items(&self) -> &ListRef<'a, RelativeDistinguishedName<'a>>
        ensures { result.now ≡ rdn_sequence.items_of self.now }
    {
        &self.items
    }
}

impl<'a> OneTag for RdnSequence<'a> {
    type Marker = SequenceTag;
}

impl<'a> Sequence<'a> for RdnSequence<'a> {
    ghost is_sequence = { refl };
}

impl<'a> FormValue for RdnSequence<'a> {
    ghost value = { mapped_format (λ v. v.items) ⟦<ListRef<'a, RelativeDistinguishedName<'a>> as FormValue>⟧.value };
}

impl<'a, R: Source<'a>> DecodeValue<'a, R> for RdnSequence<'a> {
    ghost TAKES_MEMORY = { false };

    const TAKES_MEMORY: bool = false;

    fn decode_value(
        alloc: Global,
        reader: &mut R,
        header: Header,
    ) -> Result<RdnSequence<'a>, Error> {
        let items = ListRef::<'a, RelativeDistinguishedName<'a>>::decode_value(
            alloc, reader, header,
        )?;
        Ok(RdnSequence { items })
    }

    ghost takes_memory_is = { refl };
}

impl<'a> EncodeValue for RdnSequence<'a> {
    fn value_len(&self) -> Result<Length, Error> {
        self.items.value_len()
    }

    fn encode_value<W: Writer>(&self, writer: &mut W) -> Result<(), Error> {
        self.items.encode_value(writer)
    }

    fn encode_value_back<W: BackWriter>(&self, writer: &mut W) -> Result<(), Error> {
        self.items.encode_value_back(writer)
    }
}

impl<'a> ValueOrd for RdnSequence<'a> {
    fn value_cmp(&self, other: &RdnSequence<'a>) -> Result<Ordering, Error> {
        self.items.value_cmp(&other.items)
    }
}

impl<'a> Member for RdnSequence<'a> {
    ghost member = { seen_member ⟦<SequenceTag as TagMarker>⟧.TAG (λ v. v.items) ⟦<ListRef<'a, RelativeDistinguishedName<'a>> as Member>⟧.member };
}

impl<'a> ContentsEq for RdnSequence<'a> {
    ghost contents_eq = { ⟦<RdnSequence<'a> as Member>⟧.member.equal };
}

impl<'a> CopyIsDuplicate for RdnSequence<'a> {}

/// What is read as `RDNSequence` is what the grammar page says.
pub fn grammar_of_rdn_sequence<'a>()
    ensures { ⟦<RdnSequence<'a> as Form>⟧.parse ≡ parse_of rdn_sequence }
{}
