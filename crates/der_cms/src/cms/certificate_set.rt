//! CertificateSet, a SET OF.
//!
//! Made by tools/asn1 from cms.asn1.

ghost use Rattle.std.specs.Prelude.{◌≡◌, false, refl};
ghost use Rattle.der_cms.specs.Cms.Grammar.{certificate_set};
ghost use Rattle.der_elem.specs.FormatMakers.{mapped_format};
ghost use Rattle.der_modules.specs.Asn1.{parse_of};
ghost use Rattle.der_modules.specs.Members.{seen_member};

use crate::cms::certificate_choices::CertificateChoices;
use der_elem::{
    ContentsEq, CopyIsDuplicate, DecodeValue, EncodeValue, Form, FormValue, OneTag, SetTag,
    TagMarker, ValueOrd,
};
use der_lists::UnorderedSetRef;
use der_modules::Member;
use der_tlv::{BackWriter, Error, Header, Length, Source, Writer};
use std::alloc::Global;
use std::cmp::Ordering;

/// ```text
/// CertificateSet ::= SET OF CertificateChoices
/// ```
///
/// The items stand in the order in which they came: BER asks for none.
///
/// Reading refuses the first fault of the octets, in their order.
#[derive(Clone, Copy, Debug, PartialEq, Eq)]
pub struct CertificateSet<'a> {
    items: UnorderedSetRef<'a, CertificateChoices<'a>>,
}

impl<'a> CertificateSet<'a> {
    ghost use Rattle.der_cms.specs.Cms.CertificateSet as certificate_set;

    /// These items.
    pub fn new(items: UnorderedSetRef<'a, CertificateChoices<'a>>) -> CertificateSet<'a>
        ensures { certificate_set.items_of result ≡ items.entry }
    {
        CertificateSet { items }
    }

    /// The items, in their order.
    pub fn items(&self) -> &UnorderedSetRef<'a, CertificateChoices<'a>>
        ensures { result.now ≡ certificate_set.items_of self.now }
    {
        &self.items
    }
}

impl<'a> OneTag for CertificateSet<'a> {
    type Marker = SetTag;
}

impl<'a> FormValue for CertificateSet<'a> {
    ghost value = { mapped_format (λ v. v.items) ⟦<UnorderedSetRef<'a, CertificateChoices<'a>> as FormValue>⟧.value };
}

impl<'a, R: Source<'a>> DecodeValue<'a, R> for CertificateSet<'a> {
    ghost TAKES_MEMORY = { false };

    const TAKES_MEMORY: bool = false;

    fn decode_value(
        alloc: Global,
        reader: &mut R,
        header: Header,
    ) -> Result<CertificateSet<'a>, Error> {
        let items = UnorderedSetRef::<'a, CertificateChoices<'a>>::decode_value(
            alloc, reader, header,
        )?;
        Ok(CertificateSet { items })
    }

    ghost takes_memory_is = { refl };
}

impl<'a> EncodeValue for CertificateSet<'a> {
    fn value_len(&self) -> Result<Length, Error> {
        self.items.value_len()
    }

    fn encode_value<W: Writer>(&self, writer: &mut W) -> Result<(), Error> {
        self.items.encode_value(writer)
    }

    fn encode_value_back<W: BackWriter>(&self, writer: &mut W) -> Result<(), Error> {
        self.items.encode_value_back(writer)
    }
}

impl<'a> ValueOrd for CertificateSet<'a> {
    fn value_cmp(&self, other: &CertificateSet<'a>) -> Result<Ordering, Error> {
        self.items.value_cmp(&other.items)
    }
}

impl<'a> Member for CertificateSet<'a> {
    ghost member = { seen_member ⟦<SetTag as TagMarker>⟧.TAG (λ v. v.items) ⟦<UnorderedSetRef<'a, CertificateChoices<'a>> as Member>⟧.member };
}

impl<'a> ContentsEq for CertificateSet<'a> {
    ghost contents_eq = { ⟦<CertificateSet<'a> as Member>⟧.member.equal };
}

impl<'a> CopyIsDuplicate for CertificateSet<'a> {}

/// What is read as `CertificateSet` is what the grammar page says.
pub fn grammar_of_certificate_set<'a>()
    ensures { ⟦<CertificateSet<'a> as Form>⟧.parse ≡ parse_of certificate_set }
{}
