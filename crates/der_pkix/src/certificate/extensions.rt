//! Extensions, a SEQUENCE OF.
//!
//! Made by tools/asn1 from certificate.asn1.

ghost use Rattle.std.specs.Prelude.{◌≡◌, false, refl};
ghost use Rattle.der_elem.specs.FormatMakers.{mapped_format};
ghost use Rattle.der_lists.specs.NonEmptyRef.{list_of};
ghost use Rattle.der_modules.specs.Asn1.{parse_of};
ghost use Rattle.der_modules.specs.Members.{seen_member};
ghost use Rattle.der_pkix.specs.Certificate.Grammar.{extensions};

use crate::certificate::extension::Extension;
use der_elem::{
    ContentsEq, CopyIsDuplicate, DecodeValue, EncodeValue, Form, FormValue, OneTag, Sequence,
    SequenceTag, TagMarker, ValueOrd,
};
use der_lists::{ListRef, NonEmptyRef};
use der_modules::Member;
use der_tlv::{BackWriter, Error, Header, Length, Source, Writer};
use std::alloc::Global;
use std::cmp::Ordering;

/// ```text
/// Extensions ::= SEQUENCE SIZE (1..MAX) OF Extension
/// ```
///
/// Reading refuses the first fault of the octets, in their order.
#[derive(Clone, Copy, Debug, PartialEq, Eq)]
pub struct Extensions<'a> {
    items: NonEmptyRef<ListRef<'a, Extension<'a>>>,
}

impl<'a> Extensions<'a> {
    ghost use Rattle.der_pkix.specs.Certificate.Extensions as extensions;

    /// These items.
    pub fn new(items: NonEmptyRef<ListRef<'a, Extension<'a>>>) -> Extensions<'a>
        ensures { extensions.items_of result ≡ list_of items.entry }
    {
        Extensions { items }
    }

    /// The items, in their order.
    pub fn items(&self) -> &ListRef<'a, Extension<'a>>
        ensures { result.now ≡ extensions.items_of self.now }
    {
        self.items.list()
    }
}

impl<'a> OneTag for Extensions<'a> {
    type Marker = SequenceTag;
}

impl<'a> Sequence<'a> for Extensions<'a> {
    ghost is_sequence = { refl };
}

impl<'a> FormValue for Extensions<'a> {
    ghost value = { mapped_format (λ v. v.items) ⟦<NonEmptyRef<ListRef<'a, Extension<'a>>> as FormValue>⟧.value };
}

impl<'a, R: Source<'a>> DecodeValue<'a, R> for Extensions<'a> {
    ghost TAKES_MEMORY = { false };

    const TAKES_MEMORY: bool = false;

    fn decode_value(
        alloc: Global,
        reader: &mut R,
        header: Header,
    ) -> Result<Extensions<'a>, Error> {
        let items = NonEmptyRef::<ListRef<'a, Extension<'a>>>::decode_value(alloc, reader, header)?;
        Ok(Extensions { items })
    }

    ghost takes_memory_is = { refl };
}

impl<'a> EncodeValue for Extensions<'a> {
    fn value_len(&self) -> Result<Length, Error> {
        self.items.value_len()
    }

    fn encode_value<W: Writer>(&self, writer: &mut W) -> Result<(), Error> {
        self.items.encode_value(writer)
    }

    fn encode_value_back<W: BackWriter>(&self, writer: &mut W) -> Result<(), Error> {
        self.items.encode_value_back(writer)
    }
}

impl<'a> ValueOrd for Extensions<'a> {
    fn value_cmp(&self, other: &Extensions<'a>) -> Result<Ordering, Error> {
        self.items.value_cmp(&other.items)
    }
}

impl<'a> Member for Extensions<'a> {
    ghost member = { seen_member ⟦<SequenceTag as TagMarker>⟧.TAG (λ v. v.items) ⟦<NonEmptyRef<ListRef<'a, Extension<'a>>> as Member>⟧.member };
}

impl<'a> ContentsEq for Extensions<'a> {
    ghost contents_eq = { ⟦<Extensions<'a> as Member>⟧.member.equal };
}

impl<'a> CopyIsDuplicate for Extensions<'a> {}

/// What is read as `Extensions` is what the grammar page says.
pub fn grammar_of_extensions<'a>()
    ensures { ⟦<Extensions<'a> as Form>⟧.parse ≡ parse_of extensions }
{}
