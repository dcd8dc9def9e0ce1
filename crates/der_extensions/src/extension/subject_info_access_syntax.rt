//! SubjectInfoAccessSyntax, a SEQUENCE OF.
//!
//! Made by tools/asn1 from extension.asn1.

ghost use Rattle.std.specs.Prelude.{◌≡◌, false, refl};
ghost use Rattle.der_elem.specs.FormatMakers.{mapped_format};
ghost use Rattle.der_extensions.specs.Extension.Grammar.{subject_info_access_syntax};
ghost use Rattle.der_lists.specs.NonEmptyRef.{list_of};
ghost use Rattle.der_modules.specs.Asn1.{parse_of};
ghost use Rattle.der_modules.specs.Members.{seen_member};

use crate::extension::access_description::AccessDescription;
use der_elem::{
    ContentsEq, CopyIsDuplicate, DecodeValue, EncodeValue, Form, FormValue, OneTag, Sequence,
    SequenceTag, TagMarker, ValueOrd,
};
use der_lists::{ListRef, NonEmptyRef};
use der_modules::Member;
use der_tlv::{BackWriter, Error, Header, Length, Source, Writer};
use std::alloc::Global;
use std::cmp::Ordering;

/// ```text
/// SubjectInfoAccessSyntax  ::=
///         SEQUENCE SIZE (1..MAX) OF AccessDescription
/// ```
///
/// Reading refuses the first fault of the octets, in their order.
#[derive(Clone, Copy, Debug, PartialEq, Eq)]
pub struct SubjectInfoAccessSyntax<'a> {
    items: NonEmptyRef<ListRef<'a, AccessDescription<'a>>>,
}

impl<'a> SubjectInfoAccessSyntax<'a> {
    ghost use Rattle.der_extensions.specs.Extension.SubjectInfoAccessSyntax as subject_info_access_syntax;

    /// These items.
    pub fn new(
        items: NonEmptyRef<ListRef<'a, AccessDescription<'a>>>,
    ) -> SubjectInfoAccessSyntax<'a>
        ensures { subject_info_access_syntax.items_of result ≡ list_of items.entry }
    {
        SubjectInfoAccessSyntax { items }
    }

    /// The items, in their order.
    pub fn items(&self) -> &ListRef<'a, AccessDescription<'a>>
        ensures { result.now ≡ subject_info_access_syntax.items_of self.now }
    {
        self.items.list()
    }
}

impl<'a> OneTag for SubjectInfoAccessSyntax<'a> {
    type Marker = SequenceTag;
}

impl<'a> Sequence<'a> for SubjectInfoAccessSyntax<'a> {
    ghost is_sequence = { refl };
}

impl<'a> FormValue for SubjectInfoAccessSyntax<'a> {
    ghost value = { mapped_format (λ v. v.items) ⟦<NonEmptyRef<ListRef<'a, AccessDescription<'a>>> as FormValue>⟧.value };
}

impl<'a, R: Source<'a>> DecodeValue<'a, R> for SubjectInfoAccessSyntax<'a> {
    ghost TAKES_MEMORY = { false };

    const TAKES_MEMORY: bool = false;

    fn decode_value(
        alloc: Global,
        reader: &mut R,
        header: Header,
    ) -> Result<SubjectInfoAccessSyntax<'a>, Error> {
        let items = NonEmptyRef::<ListRef<'a, AccessDescription<'a>>>::decode_value(
            alloc, reader, header,
        )?;
        Ok(SubjectInfoAccessSyntax { items })
    }

    ghost takes_memory_is = { refl };
}

impl<'a> EncodeValue for SubjectInfoAccessSyntax<'a> {
    fn value_len(&self) -> Result<Length, Error> {
        self.items.value_len()
    }

    fn encode_value<W: Writer>(&self, writer: &mut W) -> Result<(), Error> {
        self.items.encode_value(writer)
    }

    fn encode_value_back<W: BackWriter>(&self, writer: &mut W) -> Result<(), Error> {
        self.items.encode_value_back(writer)
    }
}

impl<'a> ValueOrd for SubjectInfoAccessSyntax<'a> {
    fn value_cmp(&self, other: &SubjectInfoAccessSyntax<'a>) -> Result<Ordering, Error> {
        self.items.value_cmp(&other.items)
    }
}

impl<'a> Member for SubjectInfoAccessSyntax<'a> {
    ghost member = { seen_member ⟦<SequenceTag as TagMarker>⟧.TAG (λ v. v.items) ⟦<NonEmptyRef<ListRef<'a, AccessDescription<'a>>> as Member>⟧.member };
}

impl<'a> ContentsEq for SubjectInfoAccessSyntax<'a> {
    ghost contents_eq = { ⟦<SubjectInfoAccessSyntax<'a> as Member>⟧.member.equal };
}

impl<'a> CopyIsDuplicate for SubjectInfoAccessSyntax<'a> {}

/// What is read as `SubjectInfoAccessSyntax` is what the grammar page says.
pub fn grammar_of_subject_info_access_syntax<'a>()
    ensures { ⟦<SubjectInfoAccessSyntax<'a> as Form>⟧.parse ≡ parse_of subject_info_access_syntax }
{}
