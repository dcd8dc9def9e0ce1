//! CRLDistributionPoints, a SEQUENCE OF.
//!
//! Made by tools/asn1 from extension.asn1.

ghost use Rattle.std.specs.Prelude.{◌≡◌, false, refl};
ghost use Rattle.der_elem.specs.FormatMakers.{mapped_format};
ghost use Rattle.der_extensions.specs.Extension.Grammar.{crl_distribution_points};
ghost use Rattle.der_lists.specs.NonEmptyRef.{list_of};
ghost use Rattle.der_modules.specs.Asn1.{parse_of};
ghost use Rattle.der_modules.specs.Members.{seen_member};

use crate::extension::distribution_point::DistributionPoint;
use der_elem::{
    ContentsEq, CopyIsDuplicate, DecodeValue, EncodeValue, Form, FormValue, OneTag, Sequence,
    SequenceTag, TagMarker, ValueOrd,
};
use der_lists::{ListRef, NonEmptyRef};
use der_modules::Member;
use der_tlv::{BackWriter, Error, Header, Length, Source, Writer};
use std::alloc::Global;
use std::cmp::Ordering;

/// ```text
/// CRLDistributionPoints ::= SEQUENCE SIZE (1..MAX) OF DistributionPoint
/// ```
///
/// Reading refuses the first fault of the octets, in their order.
#[derive(Clone, Copy, Debug, PartialEq, Eq)]
pub struct CrlDistributionPoints<'a> {
    items: NonEmptyRef<ListRef<'a, DistributionPoint<'a>>>,
}

impl<'a> CrlDistributionPoints<'a> {
    ghost use Rattle.der_extensions.specs.Extension.CrlDistributionPoints as crl_distribution_points;

    /// These items.
    pub fn new(items: NonEmptyRef<ListRef<'a, DistributionPoint<'a>>>) -> CrlDistributionPoints<'a>
        ensures { crl_distribution_points.items_of result ≡ list_of items.entry }
    {
        CrlDistributionPoints { items }
    }

    /// The items, in their order.
    pub fn items(&self) -> &ListRef<'a, DistributionPoint<'a>>
        ensures { result.now ≡ crl_distribution_points.items_of self.now }
    {
        self.items.list()
    }
}

impl<'a> OneTag for CrlDistributionPoints<'a> {
    type Marker = SequenceTag;
}

impl<'a> Sequence<'a> for CrlDistributionPoints<'a> {
    ghost is_sequence = { refl };
}

impl<'a> FormValue for CrlDistributionPoints<'a> {
    ghost value = { mapped_format (λ v. v.items) ⟦<NonEmptyRef<ListRef<'a, DistributionPoint<'a>>> as FormValue>⟧.value };
}

impl<'a, R: Source<'a>> DecodeValue<'a, R> for CrlDistributionPoints<'a> {
    ghost TAKES_MEMORY = { false };

    const TAKES_MEMORY: bool = false;

    fn decode_value(
        alloc: Global,
        reader: &mut R,
        header: Header,
    ) -> Result<CrlDistributionPoints<'a>, Error> {
        let items = NonEmptyRef::<ListRef<'a, DistributionPoint<'a>>>::decode_value(
            alloc, reader, header,
        )?;
        Ok(CrlDistributionPoints { items })
    }

    ghost takes_memory_is = { refl };
}

impl<'a> EncodeValue for CrlDistributionPoints<'a> {
    fn value_len(&self) -> Result<Length, Error> {
        self.items.value_len()
    }

    fn encode_value<W: Writer>(&self, writer: &mut W) -> Result<(), Error> {
        self.items.encode_value(writer)
    }

    fn encode_value_back<W: BackWriter>(&self, writer: &mut W) -> Result<(), Error> {
        self.items.encode_value_back(writer)
    }
}

impl<'a> ValueOrd for CrlDistributionPoints<'a> {
    fn value_cmp(&self, other: &CrlDistributionPoints<'a>) -> Result<Ordering, Error> {
        self.items.value_cmp(&other.items)
    }
}

impl<'a> Member for CrlDistributionPoints<'a> {
    ghost member = { seen_member ⟦<SequenceTag as TagMarker>⟧.TAG (λ v. v.items) ⟦<NonEmptyRef<ListRef<'a, DistributionPoint<'a>>> as Member>⟧.member };
}

impl<'a> ContentsEq for CrlDistributionPoints<'a> {
    ghost contents_eq = { ⟦<CrlDistributionPoints<'a> as Member>⟧.member.equal };
}

impl<'a> CopyIsDuplicate for CrlDistributionPoints<'a> {}

/// What is read as `CRLDistributionPoints` is what the grammar page says.
pub fn grammar_of_crl_distribution_points<'a>()
    ensures { ⟦<CrlDistributionPoints<'a> as Form>⟧.parse ≡ parse_of crl_distribution_points }
{}
