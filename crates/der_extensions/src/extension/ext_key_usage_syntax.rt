//! ExtKeyUsageSyntax, a SEQUENCE OF.
//!
//! Made by tools/asn1 from extension.asn1.

ghost use Rattle.std.specs.Prelude.{◌≡◌, false, refl};
ghost use Rattle.der_elem.specs.FormatMakers.{mapped_format};
ghost use Rattle.der_extensions.specs.Extension.Grammar.{ext_key_usage_syntax};
ghost use Rattle.der_lists.specs.NonEmptyRef.{list_of};
ghost use Rattle.der_modules.specs.Asn1.{parse_of};
ghost use Rattle.der_modules.specs.Members.{seen_member};

use crate::extension::aliases::KeyPurposeId;
use der_elem::{
    ContentsEq, CopyIsDuplicate, DecodeValue, EncodeValue, Form, FormValue, OneTag, Sequence,
    SequenceTag, TagMarker, ValueOrd,
};
use der_lists::{ListRef, NonEmptyRef};
use der_modules::Member;
use der_tlv::{BackWriter, Error, Header, Length, Source, Writer};
use std::alloc::Global;
use std::cmp::Ordering;

/// ```text
/// ExtKeyUsageSyntax ::= SEQUENCE SIZE (1..MAX) OF KeyPurposeId
/// ```
///
/// Reading refuses the first fault of the octets, in their order.
#[derive(Clone, Copy, Debug, PartialEq, Eq)]
pub struct ExtKeyUsageSyntax<'a> {
    items: NonEmptyRef<ListRef<'a, KeyPurposeId<'a>>>,
}

impl<'a> ExtKeyUsageSyntax<'a> {
    ghost use Rattle.der_extensions.specs.Extension.ExtKeyUsageSyntax as ext_key_usage_syntax;

    /// These items.
    pub fn new(items: NonEmptyRef<ListRef<'a, KeyPurposeId<'a>>>) -> ExtKeyUsageSyntax<'a>
        ensures { ext_key_usage_syntax.items_of result ≡ list_of items.entry }
    {
        ExtKeyUsageSyntax { items }
    }

    /// The items, in their order.
    pub fn items(&self) -> &ListRef<'a, KeyPurposeId<'a>>
        ensures { result.now ≡ ext_key_usage_syntax.items_of self.now }
    {
        self.items.list()
    }
}

impl<'a> OneTag for ExtKeyUsageSyntax<'a> {
    type Marker = SequenceTag;
}

impl<'a> Sequence<'a> for ExtKeyUsageSyntax<'a> {
    ghost is_sequence = { refl };
}

impl<'a> FormValue for ExtKeyUsageSyntax<'a> {
    ghost value = { mapped_format (λ v. v.items) ⟦<NonEmptyRef<ListRef<'a, KeyPurposeId<'a>>> as FormValue>⟧.value };
}

impl<'a, R: Source<'a>> DecodeValue<'a, R> for ExtKeyUsageSyntax<'a> {
    ghost TAKES_MEMORY = { false };

    const TAKES_MEMORY: bool = false;

    fn decode_value(
        alloc: Global,
        reader: &mut R,
        header: Header,
    ) -> Result<ExtKeyUsageSyntax<'a>, Error> {
        let items = NonEmptyRef::<ListRef<'a, KeyPurposeId<'a>>>::decode_value(
            alloc, reader, header,
        )?;
        Ok(ExtKeyUsageSyntax { items })
    }

    ghost takes_memory_is = { refl };
}

impl<'a> EncodeValue for ExtKeyUsageSyntax<'a> {
    fn value_len(&self) -> Result<Length, Error> {
        self.items.value_len()
    }

    fn encode_value<W: Writer>(&self, writer: &mut W) -> Result<(), Error> {
        self.items.encode_value(writer)
    }

    fn encode_value_back<W: BackWriter>(&self, writer: &mut W) -> Result<(), Error> {
        self.items.encode_value_back(writer)
    }
}

impl<'a> ValueOrd for ExtKeyUsageSyntax<'a> {
    fn value_cmp(&self, other: &ExtKeyUsageSyntax<'a>) -> Result<Ordering, Error> {
        self.items.value_cmp(&other.items)
    }
}

impl<'a> Member for ExtKeyUsageSyntax<'a> {
    ghost member = { seen_member ⟦<SequenceTag as TagMarker>⟧.TAG (λ v. v.items) ⟦<NonEmptyRef<ListRef<'a, KeyPurposeId<'a>>> as Member>⟧.member };
}

impl<'a> ContentsEq for ExtKeyUsageSyntax<'a> {
    ghost contents_eq = { ⟦<ExtKeyUsageSyntax<'a> as Member>⟧.member.equal };
}

impl<'a> CopyIsDuplicate for ExtKeyUsageSyntax<'a> {}

/// What is read as `ExtKeyUsageSyntax` is what the grammar page says.
pub fn grammar_of_ext_key_usage_syntax<'a>()
    ensures { ⟦<ExtKeyUsageSyntax<'a> as Form>⟧.parse ≡ parse_of ext_key_usage_syntax }
{}
