//! SafeContents, a SEQUENCE OF.
//!
//! Made by tools/asn1 from pkcs12.asn1.

ghost use Rattle.std.specs.Prelude.{◌≡◌, false, refl};
ghost use Rattle.der_elem.specs.FormatMakers.{mapped_format};
ghost use Rattle.der_modules.specs.Asn1.{parse_of};
ghost use Rattle.der_modules.specs.Members.{seen_member};
ghost use Rattle.der_pkcs.specs.Pkcs12.Grammar.{safe_contents};

use crate::pkcs12::safe_bag::SafeBag;
use der_elem::{
    ContentsEq, CopyIsDuplicate, DecodeValue, EncodeValue, Form, FormValue, OneTag, Sequence,
    SequenceTag, TagMarker, ValueOrd,
};
use der_lists::ListRef;
use der_modules::Member;
use der_tlv::{BackWriter, Error, Header, Length, Source, Writer};
use std::alloc::Global;
use std::cmp::Ordering;

/// ```text
/// SafeContents ::= SEQUENCE OF SafeBag
/// ```
///
/// Reading refuses the first fault of the octets, in their order.
#[derive(Clone, Copy, Debug, PartialEq, Eq)]
pub struct SafeContents<'a> {
    items: ListRef<'a, SafeBag<'a>>,
}

impl<'a> SafeContents<'a> {
    ghost use Rattle.der_pkcs.specs.Pkcs12.SafeContents as safe_contents;

    /// These items.
    pub fn new(items: ListRef<'a, SafeBag<'a>>) -> SafeContents<'a>
        ensures { safe_contents.items_of result ≡ items.entry }
    {
        SafeContents { items }
    }

    /// The items, in their order.
    pub fn items(&self) -> &ListRef<'a, SafeBag<'a>>
        ensures { result.now ≡ safe_contents.items_of self.now }
    {
        &self.items
    }
}

impl<'a> OneTag for SafeContents<'a> {
    type Marker = SequenceTag;
}

impl<'a> Sequence<'a> for SafeContents<'a> {
    ghost is_sequence = { refl };
}

impl<'a> FormValue for SafeContents<'a> {
    ghost value = { mapped_format (λ v. v.items) ⟦<ListRef<'a, SafeBag<'a>> as FormValue>⟧.value };
}

impl<'a, R: Source<'a>> DecodeValue<'a, R> for SafeContents<'a> {
    ghost TAKES_MEMORY = { false };

    const TAKES_MEMORY: bool = false;

    fn decode_value(
        alloc: Global,
        reader: &mut R,
        header: Header,
    ) -> Result<SafeContents<'a>, Error> {
        let items = ListRef::<'a, SafeBag<'a>>::decode_value(alloc, reader, header)?;
        Ok(SafeContents { items })
    }

    ghost takes_memory_is = { refl };
}

impl<'a> EncodeValue for SafeContents<'a> {
    fn value_len(&self) -> Result<Length, Error> {
        self.items.value_len()
    }

    fn encode_value<W: Writer>(&self, writer: &mut W) -> Result<(), Error> {
        self.items.encode_value(writer)
    }

    fn encode_value_back<W: BackWriter>(&self, writer: &mut W) -> Result<(), Error> {
        self.items.encode_value_back(writer)
    }
}

impl<'a> ValueOrd for SafeContents<'a> {
    fn value_cmp(&self, other: &SafeContents<'a>) -> Result<Ordering, Error> {
        self.items.value_cmp(&other.items)
    }
}

impl<'a> Member for SafeContents<'a> {
    ghost member = { seen_member ⟦<SequenceTag as TagMarker>⟧.TAG (λ v. v.items) ⟦<ListRef<'a, SafeBag<'a>> as Member>⟧.member };
}

impl<'a> ContentsEq for SafeContents<'a> {
    ghost contents_eq = { ⟦<SafeContents<'a> as Member>⟧.member.equal };
}

impl<'a> CopyIsDuplicate for SafeContents<'a> {}

/// What is read as `SafeContents` is what the grammar page says.
pub fn grammar_of_safe_contents<'a>()
    ensures { ⟦<SafeContents<'a> as Form>⟧.parse ≡ parse_of safe_contents }
{}
