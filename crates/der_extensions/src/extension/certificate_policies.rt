//! CertificatePolicies, a SEQUENCE OF.
//!
//! Made by tools/asn1 from extension.asn1.

ghost use Rattle.std.specs.Prelude.{◌≡◌, false, refl};
ghost use Rattle.der_elem.specs.FormatMakers.{mapped_format};
ghost use Rattle.der_extensions.specs.Extension.Grammar.{certificate_policies};
ghost use Rattle.der_lists.specs.NonEmptyRef.{list_of};
ghost use Rattle.der_modules.specs.Asn1.{parse_of};
ghost use Rattle.der_modules.specs.Members.{seen_member};

use crate::extension::policy_information::PolicyInformation;
use der_elem::{
    ContentsEq, CopyIsDuplicate, DecodeValue, EncodeValue, Form, FormValue, OneTag, Sequence,
    SequenceTag, TagMarker, ValueOrd,
};
use der_lists::{ListRef, NonEmptyRef};
use der_modules::Member;
use der_tlv::{BackWriter, Error, Header, Length, Source, Writer};
use std::alloc::Global;
use std::cmp::Ordering;

/// ```text
/// CertificatePolicies ::= SEQUENCE SIZE (1..MAX) OF PolicyInformation
/// ```
///
/// Reading refuses the first fault of the octets, in their order.
#[derive(Clone, Copy, Debug, PartialEq, Eq)]
pub struct CertificatePolicies<'a> {
    items: NonEmptyRef<ListRef<'a, PolicyInformation<'a>>>,
}

impl<'a> CertificatePolicies<'a> {
    ghost use Rattle.der_extensions.specs.Extension.CertificatePolicies as certificate_policies;

    /// These items.
    pub fn new(items: NonEmptyRef<ListRef<'a, PolicyInformation<'a>>>) -> CertificatePolicies<'a>
        ensures { certificate_policies.items_of result ≡ list_of items.entry }
    {
        CertificatePolicies { items }
    }

    /// The items, in their order.
    pub fn items(&self) -> &ListRef<'a, PolicyInformation<'a>>
        ensures { result.now ≡ certificate_policies.items_of self.now }
    {
        self.items.list()
    }
}

impl<'a> OneTag for CertificatePolicies<'a> {
    type Marker = SequenceTag;
}

impl<'a> Sequence<'a> for CertificatePolicies<'a> {
    ghost is_sequence = { refl };
}

impl<'a> FormValue for CertificatePolicies<'a> {
    ghost value = { mapped_format (λ v. v.items) ⟦<NonEmptyRef<ListRef<'a, PolicyInformation<'a>>> as FormValue>⟧.value };
}

impl<'a, R: Source<'a>> DecodeValue<'a, R> for CertificatePolicies<'a> {
    ghost TAKES_MEMORY = { false };

    const TAKES_MEMORY: bool = false;

    fn decode_value(
        alloc: Global,
        reader: &mut R,
        header: Header,
    ) -> Result<CertificatePolicies<'a>, Error> {
        let items = NonEmptyRef::<ListRef<'a, PolicyInformation<'a>>>::decode_value(
            alloc, reader, header,
        )?;
        Ok(CertificatePolicies { items })
    }

    ghost takes_memory_is = { refl };
}

impl<'a> EncodeValue for CertificatePolicies<'a> {
    fn value_len(&self) -> Result<Length, Error> {
        self.items.value_len()
    }

    fn encode_value<W: Writer>(&self, writer: &mut W) -> Result<(), Error> {
        self.items.encode_value(writer)
    }

    fn encode_value_back<W: BackWriter>(&self, writer: &mut W) -> Result<(), Error> {
        self.items.encode_value_back(writer)
    }
}

impl<'a> ValueOrd for CertificatePolicies<'a> {
    fn value_cmp(&self, other: &CertificatePolicies<'a>) -> Result<Ordering, Error> {
        self.items.value_cmp(&other.items)
    }
}

impl<'a> Member for CertificatePolicies<'a> {
    ghost member = { seen_member ⟦<SequenceTag as TagMarker>⟧.TAG (λ v. v.items) ⟦<NonEmptyRef<ListRef<'a, PolicyInformation<'a>>> as Member>⟧.member };
}

impl<'a> ContentsEq for CertificatePolicies<'a> {
    ghost contents_eq = { ⟦<CertificatePolicies<'a> as Member>⟧.member.equal };
}

impl<'a> CopyIsDuplicate for CertificatePolicies<'a> {}

/// What is read as `CertificatePolicies` is what the grammar page says.
pub fn grammar_of_certificate_policies<'a>()
    ensures { ⟦<CertificatePolicies<'a> as Form>⟧.parse ≡ parse_of certificate_policies }
{}
