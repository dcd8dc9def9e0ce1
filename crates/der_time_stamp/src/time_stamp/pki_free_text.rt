//! PKIFreeText, a SEQUENCE OF.
//!
//! Made by tools/asn1 from time_stamp.asn1.

ghost use Rattle.std.specs.Prelude.{◌≡◌, false, refl};
ghost use Rattle.der_elem.specs.FormatMakers.{mapped_format};
ghost use Rattle.der_lists.specs.NonEmptyRef.{list_of};
ghost use Rattle.der_modules.specs.Asn1.{parse_of};
ghost use Rattle.der_modules.specs.Members.{seen_member};
ghost use Rattle.der_time_stamp.specs.TimeStamp.Grammar.{pki_free_text};

use der_elem::{
    ContentsEq, CopyIsDuplicate, DecodeValue, EncodeValue, Form, FormValue, OneTag, Sequence,
    SequenceTag, TagMarker, ValueOrd,
};
use der_lists::{ListRef, NonEmptyRef};
use der_modules::Member;
use der_text::Utf8StringRef;
use der_tlv::{BackWriter, Error, Header, Length, Source, Writer};
use std::alloc::Global;
use std::cmp::Ordering;

/// ```text
/// PKIFreeText ::= SEQUENCE SIZE (1..MAX) OF UTF8String
/// ```
///
/// Reading refuses the first fault of the octets, in their order.
#[derive(Clone, Copy, Debug, PartialEq, Eq)]
pub struct PkiFreeText<'a> {
    items: NonEmptyRef<ListRef<'a, Utf8StringRef<'a>>>,
}

impl<'a> PkiFreeText<'a> {
    ghost use Rattle.der_time_stamp.specs.TimeStamp.PkiFreeText as pki_free_text;

    /// These items.
    pub fn new(items: NonEmptyRef<ListRef<'a, Utf8StringRef<'a>>>) -> PkiFreeText<'a>
        ensures { pki_free_text.items_of result ≡ list_of items.entry }
    {
        PkiFreeText { items }
    }

    /// The items, in their order.
    pub fn items(&self) -> &ListRef<'a, Utf8StringRef<'a>>
        ensures { result.now ≡ pki_free_text.items_of self.now }
    {
        self.items.list()
    }
}

impl<'a> OneTag for PkiFreeText<'a> {
    type Marker = SequenceTag;
}

impl<'a> Sequence<'a> for PkiFreeText<'a> {
    ghost is_sequence = { refl };
}

impl<'a> FormValue for PkiFreeText<'a> {
    ghost value = { mapped_format (λ v. v.items) ⟦<NonEmptyRef<ListRef<'a, Utf8StringRef<'a>>> as FormValue>⟧.value };
}

impl<'a, R: Source<'a>> DecodeValue<'a, R> for PkiFreeText<'a> {
    ghost TAKES_MEMORY = { false };

    const TAKES_MEMORY: bool = false;

    fn decode_value(
        alloc: Global,
        reader: &mut R,
        header: Header,
    ) -> Result<PkiFreeText<'a>, Error> {
        let items = NonEmptyRef::<ListRef<'a, Utf8StringRef<'a>>>::decode_value(
            alloc, reader, header,
        )?;
        Ok(PkiFreeText { items })
    }

    ghost takes_memory_is = { refl };
}

impl<'a> EncodeValue for PkiFreeText<'a> {
    fn value_len(&self) -> Result<Length, Error> {
        self.items.value_len()
    }

    fn encode_value<W: Writer>(&self, writer: &mut W) -> Result<(), Error> {
        self.items.encode_value(writer)
    }

    fn encode_value_back<W: BackWriter>(&self, writer: &mut W) -> Result<(), Error> {
        self.items.encode_value_back(writer)
    }
}

impl<'a> ValueOrd for PkiFreeText<'a> {
    fn value_cmp(&self, other: &PkiFreeText<'a>) -> Result<Ordering, Error> {
        self.items.value_cmp(&other.items)
    }
}

impl<'a> Member for PkiFreeText<'a> {
    ghost member = { seen_member ⟦<SequenceTag as TagMarker>⟧.TAG (λ v. v.items) ⟦<NonEmptyRef<ListRef<'a, Utf8StringRef<'a>>> as Member>⟧.member };
}

impl<'a> ContentsEq for PkiFreeText<'a> {
    ghost contents_eq = { ⟦<PkiFreeText<'a> as Member>⟧.member.equal };
}

impl<'a> CopyIsDuplicate for PkiFreeText<'a> {}

/// What is read as `PKIFreeText` is what the grammar page says.
pub fn grammar_of_pki_free_text<'a>()
    ensures { ⟦<PkiFreeText<'a> as Form>⟧.parse ≡ parse_of pki_free_text }
{}
