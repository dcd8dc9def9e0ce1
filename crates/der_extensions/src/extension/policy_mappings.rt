//! PolicyMappings, a SEQUENCE OF.
//!
//! Made by tools/asn1 from extension.asn1.

ghost use Rattle.std.specs.Prelude.{◌≡◌, false, refl};
ghost use Rattle.der_elem.specs.FormatMakers.{mapped_format};
ghost use Rattle.der_extensions.specs.Extension.Grammar.{policy_mappings};
ghost use Rattle.der_lists.specs.NonEmptyRef.{list_of};
ghost use Rattle.der_modules.specs.Asn1.{parse_of};
ghost use Rattle.der_modules.specs.Members.{seen_member};

use crate::extension::policy_mapping::PolicyMapping;
use der_elem::{
    ContentsEq, CopyIsDuplicate, DecodeValue, EncodeValue, Form, FormValue, OneTag, Sequence,
    SequenceTag, TagMarker, ValueOrd,
};
use der_lists::{ListRef, NonEmptyRef};
use der_modules::Member;
use der_tlv::{BackWriter, Error, Header, Length, Source, Writer};
use std::alloc::Global;
use std::cmp::Ordering;

/// ```text
/// PolicyMappings ::= SEQUENCE SIZE (1..MAX) OF SEQUENCE {
///      issuerDomainPolicy      CertPolicyId,
///      subjectDomainPolicy     CertPolicyId }
/// ```
///
/// Reading refuses the first fault of the octets, in their order.
#[derive(Clone, Copy, Debug, PartialEq, Eq)]
pub struct PolicyMappings<'a> {
    items: NonEmptyRef<ListRef<'a, PolicyMapping<'a>>>,
}

impl<'a> PolicyMappings<'a> {
    ghost use Rattle.der_extensions.specs.Extension.PolicyMappings as policy_mappings;

    /// These items.
    pub fn new(items: NonEmptyRef<ListRef<'a, PolicyMapping<'a>>>) -> PolicyMappings<'a>
        ensures { policy_mappings.items_of result ≡ list_of items.entry }
    {
        PolicyMappings { items }
    }

    /// The items, in their order.
    pub fn items(&self) -> &ListRef<'a, PolicyMapping<'a>>
        ensures { result.now ≡ policy_mappings.items_of self.now }
    {
        self.items.list()
    }
}

impl<'a> OneTag for PolicyMappings<'a> {
    type Marker = SequenceTag;
}

impl<'a> Sequence<'a> for PolicyMappings<'a> {
    ghost is_sequence = { refl };
}

impl<'a> FormValue for PolicyMappings<'a> {
    ghost value = { mapped_format (λ v. v.items) ⟦<NonEmptyRef<ListRef<'a, PolicyMapping<'a>>> as FormValue>⟧.value };
}

impl<'a, R: Source<'a>> DecodeValue<'a, R> for PolicyMappings<'a> {
    ghost TAKES_MEMORY = { false };

    const TAKES_MEMORY: bool = false;

    fn decode_value(
        alloc: Global,
        reader: &mut R,
        header: Header,
    ) -> Result<PolicyMappings<'a>, Error> {
        let items = NonEmptyRef::<ListRef<'a, PolicyMapping<'a>>>::decode_value(
            alloc, reader, header,
        )?;
        Ok(PolicyMappings { items })
    }

    ghost takes_memory_is = { refl };
}

impl<'a> EncodeValue for PolicyMappings<'a> {
    fn value_len(&self) -> Result<Length, Error> {
        self.items.value_len()
    }

    fn encode_value<W: Writer>(&self, writer: &mut W) -> Result<(), Error> {
        self.items.encode_value(writer)
    }

    fn encode_value_back<W: BackWriter>(&self, writer: &mut W) -> Result<(), Error> {
        self.items.encode_value_back(writer)
    }
}

impl<'a> ValueOrd for PolicyMappings<'a> {
    fn value_cmp(&self, other: &PolicyMappings<'a>) -> Result<Ordering, Error> {
        self.items.value_cmp(&other.items)
    }
}

impl<'a> Member for PolicyMappings<'a> {
    ghost member = { seen_member ⟦<SequenceTag as TagMarker>⟧.TAG (λ v. v.items) ⟦<NonEmptyRef<ListRef<'a, PolicyMapping<'a>>> as Member>⟧.member };
}

impl<'a> ContentsEq for PolicyMappings<'a> {
    ghost contents_eq = { ⟦<PolicyMappings<'a> as Member>⟧.member.equal };
}

impl<'a> CopyIsDuplicate for PolicyMappings<'a> {}

/// What is read as `PolicyMappings` is what the grammar page says.
pub fn grammar_of_policy_mappings<'a>()
    ensures { ⟦<PolicyMappings<'a> as Form>⟧.parse ≡ parse_of policy_mappings }
{}
