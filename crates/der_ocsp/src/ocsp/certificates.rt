//! Certificates, a SEQUENCE OF.
//!
//! Made by tools/asn1 from ocsp.asn1.

ghost use Rattle.std.specs.Prelude.{◌≡◌, false, refl};
ghost use Rattle.der_elem.specs.FormatMakers.{mapped_format};
ghost use Rattle.der_modules.specs.Asn1.{parse_of};
ghost use Rattle.der_modules.specs.Members.{seen_member};
ghost use Rattle.der_ocsp.specs.Ocsp.Grammar.{certificates};

use der_elem::{
    ContentsEq, CopyIsDuplicate, DecodeValue, EncodeValue, Form, FormValue, OneTag, Sequence,
    SequenceTag, TagMarker, ValueOrd,
};
use der_lists::ListRef;
use der_modules::Member;
use der_pkix::certificate::Certificate;
use der_tlv::{BackWriter, Error, Header, Length, Source, Writer};
use std::alloc::Global;
use std::cmp::Ordering;

/// ```text
/// Certificates ::= SEQUENCE OF Certificate
/// ```
///
/// Reading refuses the first fault of the octets, in their order.
#[derive(Clone, Copy, Debug, PartialEq, Eq)]
pub struct Certificates<'a> {
    items: ListRef<'a, Certificate<'a>>,
}

impl<'a> Certificates<'a> {
    ghost use Rattle.der_ocsp.specs.Ocsp.Certificates as certificates;

    /// These items.
    pub fn new(items: ListRef<'a, Certificate<'a>>) -> Certificates<'a>
        ensures { certificates.items_of result ≡ items.entry }
    {
        Certificates { items }
    }

    /// The items, in their order.
    pub fn items(&self) -> &ListRef<'a, Certificate<'a>>
        ensures { result.now ≡ certificates.items_of self.now }
    {
        &self.items
    }
}

impl<'a> OneTag for Certificates<'a> {
    type Marker = SequenceTag;
}

impl<'a> Sequence<'a> for Certificates<'a> {
    ghost is_sequence = { refl };
}

impl<'a> FormValue for Certificates<'a> {
    ghost value = { mapped_format (λ v. v.items) ⟦<ListRef<'a, Certificate<'a>> as FormValue>⟧.value };
}

impl<'a, R: Source<'a>> DecodeValue<'a, R> for Certificates<'a> {
    ghost TAKES_MEMORY = { false };

    const TAKES_MEMORY: bool = false;

    fn decode_value(
        alloc: Global,
        reader: &mut R,
        header: Header,
    ) -> Result<Certificates<'a>, Error> {
        let items = ListRef::<'a, Certificate<'a>>::decode_value(alloc, reader, header)?;
        Ok(Certificates { items })
    }

    ghost takes_memory_is = { refl };
}

impl<'a> EncodeValue for Certificates<'a> {
    fn value_len(&self) -> Result<Length, Error> {
        self.items.value_len()
    }

    fn encode_value<W: Writer>(&self, writer: &mut W) -> Result<(), Error> {
        self.items.encode_value(writer)
    }

    fn encode_value_back<W: BackWriter>(&self, writer: &mut W) -> Result<(), Error> {
        self.items.encode_value_back(writer)
    }
}

impl<'a> ValueOrd for Certificates<'a> {
    fn value_cmp(&self, other: &Certificates<'a>) -> Result<Ordering, Error> {
        self.items.value_cmp(&other.items)
    }
}

impl<'a> Member for Certificates<'a> {
    ghost member = { seen_member ⟦<SequenceTag as TagMarker>⟧.TAG (λ v. v.items) ⟦<ListRef<'a, Certificate<'a>> as Member>⟧.member };
}

impl<'a> ContentsEq for Certificates<'a> {
    ghost contents_eq = { ⟦<Certificates<'a> as Member>⟧.member.equal };
}

impl<'a> CopyIsDuplicate for Certificates<'a> {}

/// What is read as `Certificates` is what the grammar page says.
pub fn grammar_of_certificates<'a>()
    ensures { ⟦<Certificates<'a> as Form>⟧.parse ≡ parse_of certificates }
{}
