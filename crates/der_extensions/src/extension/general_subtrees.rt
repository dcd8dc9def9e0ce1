//! GeneralSubtrees, a SEQUENCE OF.
//!
//! Made by tools/asn1 from extension.asn1.

ghost use Rattle.std.specs.Prelude.{◌≡◌, false, refl};
ghost use Rattle.der_elem.specs.FormatMakers.{mapped_format};
ghost use Rattle.der_extensions.specs.Extension.Grammar.{general_subtrees};
ghost use Rattle.der_lists.specs.NonEmptyRef.{list_of};
ghost use Rattle.der_modules.specs.Asn1.{parse_of};
ghost use Rattle.der_modules.specs.Members.{seen_member};

use crate::extension::general_subtree::GeneralSubtree;
use der_elem::{
    ContentsEq, CopyIsDuplicate, DecodeValue, EncodeValue, Form, FormValue, OneTag, Sequence,
    SequenceTag, TagMarker, ValueOrd,
};
use der_lists::{ListRef, NonEmptyRef};
use der_modules::Member;
use der_tlv::{BackWriter, Error, Header, Length, Source, Writer};
use std::alloc::Global;
use std::cmp::Ordering;

/// ```text
/// GeneralSubtrees ::= SEQUENCE SIZE (1..MAX) OF GeneralSubtree
/// ```
///
/// Reading refuses the first fault of the octets, in their order.
#[derive(Clone, Copy, Debug, PartialEq, Eq)]
pub struct GeneralSubtrees<'a> {
    items: NonEmptyRef<ListRef<'a, GeneralSubtree<'a>>>,
}

impl<'a> GeneralSubtrees<'a> {
    ghost use Rattle.der_extensions.specs.Extension.GeneralSubtrees as general_subtrees;

    /// These items.
    pub fn new(items: NonEmptyRef<ListRef<'a, GeneralSubtree<'a>>>) -> GeneralSubtrees<'a>
        ensures { general_subtrees.items_of result ≡ list_of items.entry }
    {
        GeneralSubtrees { items }
    }

    /// The items, in their order.
    pub fn items(&self) -> &ListRef<'a, GeneralSubtree<'a>>
        ensures { result.now ≡ general_subtrees.items_of self.now }
    {
        self.items.list()
    }
}

impl<'a> OneTag for GeneralSubtrees<'a> {
    type Marker = SequenceTag;
}

impl<'a> Sequence<'a> for GeneralSubtrees<'a> {
    ghost is_sequence = { refl };
}

impl<'a> FormValue for GeneralSubtrees<'a> {
    ghost value = { mapped_format (λ v. v.items) ⟦<NonEmptyRef<ListRef<'a, GeneralSubtree<'a>>> as FormValue>⟧.value };
}

impl<'a, R: Source<'a>> DecodeValue<'a, R> for GeneralSubtrees<'a> {
    ghost TAKES_MEMORY = { false };

    const TAKES_MEMORY: bool = false;

    fn decode_value(
        alloc: Global,
        reader: &mut R,
        header: Header,
    ) -> Result<GeneralSubtrees<'a>, Error> {
        let items = NonEmptyRef::<ListRef<'a, GeneralSubtree<'a>>>::decode_value(
            alloc, reader, header,
        )?;
        Ok(GeneralSubtrees { items })
    }

    ghost takes_memory_is = { refl };
}

impl<'a> EncodeValue for GeneralSubtrees<'a> {
    fn value_len(&self) -> Result<Length, Error> {
        self.items.value_len()
    }

    fn encode_value<W: Writer>(&self, writer: &mut W) -> Result<(), Error> {
        self.items.encode_value(writer)
    }

    fn encode_value_back<W: BackWriter>(&self, writer: &mut W) -> Result<(), Error> {
        self.items.encode_value_back(writer)
    }
}

impl<'a> ValueOrd for GeneralSubtrees<'a> {
    fn value_cmp(&self, other: &GeneralSubtrees<'a>) -> Result<Ordering, Error> {
        self.items.value_cmp(&other.items)
    }
}

impl<'a> Member for GeneralSubtrees<'a> {
    ghost member = { seen_member ⟦<SequenceTag as TagMarker>⟧.TAG (λ v. v.items) ⟦<NonEmptyRef<ListRef<'a, GeneralSubtree<'a>>> as Member>⟧.member };
}

impl<'a> ContentsEq for GeneralSubtrees<'a> {
    ghost contents_eq = { ⟦<GeneralSubtrees<'a> as Member>⟧.member.equal };
}

impl<'a> CopyIsDuplicate for GeneralSubtrees<'a> {}

/// What is read as `GeneralSubtrees` is what the grammar page says.
pub fn grammar_of_general_subtrees<'a>()
    ensures { ⟦<GeneralSubtrees<'a> as Form>⟧.parse ≡ parse_of general_subtrees }
{}
