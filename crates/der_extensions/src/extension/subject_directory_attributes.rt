//! SubjectDirectoryAttributes, a SEQUENCE OF.
//!
//! Made by tools/asn1 from extension.asn1.

ghost use Rattle.std.specs.Prelude.{◌≡◌, false, refl};
ghost use Rattle.der_elem.specs.FormatMakers.{mapped_format};
ghost use Rattle.der_extensions.specs.Extension.Grammar.{subject_directory_attributes};
ghost use Rattle.der_lists.specs.NonEmptyRef.{list_of};
ghost use Rattle.der_modules.specs.Asn1.{parse_of};
ghost use Rattle.der_modules.specs.Members.{seen_member};

use der_elem::{
    ContentsEq, CopyIsDuplicate, DecodeValue, EncodeValue, Form, FormValue, OneTag, Sequence,
    SequenceTag, TagMarker, ValueOrd,
};
use der_lists::{ListRef, NonEmptyRef};
use der_modules::Member;
use der_pkix::name::Attribute;
use der_tlv::{BackWriter, Error, Header, Length, Source, Writer};
use std::alloc::Global;
use std::cmp::Ordering;

/// ```text
/// SubjectDirectoryAttributes ::= SEQUENCE SIZE (1..MAX) OF Attribute
/// ```
///
/// Reading refuses the first fault of the octets, in their order.
#[derive(Clone, Copy, Debug, PartialEq, Eq)]
pub struct SubjectDirectoryAttributes<'a> {
    items: NonEmptyRef<ListRef<'a, Attribute<'a>>>,
}

impl<'a> SubjectDirectoryAttributes<'a> {
    ghost use Rattle.der_extensions.specs.Extension.SubjectDirectoryAttributes as subject_directory_attributes;

    /// These items.
    pub fn new(items: NonEmptyRef<ListRef<'a, Attribute<'a>>>) -> SubjectDirectoryAttributes<'a>
        ensures { subject_directory_attributes.items_of result ≡ list_of items.entry }
    {
        SubjectDirectoryAttributes { items }
    }

    /// The items, in their order.
    pub fn items(&self) -> &ListRef<'a, Attribute<'a>>
        ensures { result.now ≡ subject_directory_attributes.items_of self.now }
    {
        self.items.list()
    }
}

impl<'a> OneTag for SubjectDirectoryAttributes<'a> {
    type Marker = SequenceTag;
}

impl<'a> Sequence<'a> for SubjectDirectoryAttributes<'a> {
    ghost is_sequence = { refl };
}

impl<'a> FormValue for SubjectDirectoryAttributes<'a> {
    ghost value = { mapped_format (λ v. v.items) ⟦<NonEmptyRef<ListRef<'a, Attribute<'a>>> as FormValue>⟧.value };
}

impl<'a, R: Source<'a>> DecodeValue<'a, R> for SubjectDirectoryAttributes<'a> {
    ghost TAKES_MEMORY = { false };

    const TAKES_MEMORY: bool = false;

    fn decode_value(
        alloc: Global,
        reader: &mut R,
        header: Header,
    ) -> Result<SubjectDirectoryAttributes<'a>, Error> {
        let items = NonEmptyRef::<ListRef<'a, Attribute<'a>>>::decode_value(alloc, reader, header)?;
        Ok(SubjectDirectoryAttributes { items })
    }

    ghost takes_memory_is = { refl };
}

impl<'a> EncodeValue for SubjectDirectoryAttributes<'a> {
    fn value_len(&self) -> Result<Length, Error> {
        self.items.value_len()
    }

    fn encode_value<W: Writer>(&self, writer: &mut W) -> Result<(), Error> {
        self.items.encode_value(writer)
    }

    fn encode_value_back<W: BackWriter>(&self, writer: &mut W) -> Result<(), Error> {
        self.items.encode_value_back(writer)
    }
}

impl<'a> ValueOrd for SubjectDirectoryAttributes<'a> {
    fn value_cmp(&self, other: &SubjectDirectoryAttributes<'a>) -> Result<Ordering, Error> {
        self.items.value_cmp(&other.items)
    }
}

impl<'a> Member for SubjectDirectoryAttributes<'a> {
    ghost member = { seen_member ⟦<SequenceTag as TagMarker>⟧.TAG (λ v. v.items) ⟦<NonEmptyRef<ListRef<'a, Attribute<'a>>> as Member>⟧.member };
}

impl<'a> ContentsEq for SubjectDirectoryAttributes<'a> {
    ghost contents_eq = { ⟦<SubjectDirectoryAttributes<'a> as Member>⟧.member.equal };
}

impl<'a> CopyIsDuplicate for SubjectDirectoryAttributes<'a> {}

/// What is read as `SubjectDirectoryAttributes` is what the grammar page says.
pub fn grammar_of_subject_directory_attributes<'a>()
    ensures { ⟦<SubjectDirectoryAttributes<'a> as Form>⟧.parse ≡ parse_of subject_directory_attributes }
{}
