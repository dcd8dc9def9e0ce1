//! SignedAttributes, a SET OF.
//!
//! Made by tools/asn1 from cms.asn1.

ghost use Rattle.std.specs.Prelude.{◌≡◌, false, refl};
ghost use Rattle.der_cms.specs.Cms.Grammar.{signed_attributes};
ghost use Rattle.der_elem.specs.FormatMakers.{mapped_format};
ghost use Rattle.der_lists.specs.NonEmptyRef.{list_of};
ghost use Rattle.der_modules.specs.Asn1.{parse_of};
ghost use Rattle.der_modules.specs.Members.{seen_member};

use der_elem::{
    ContentsEq, CopyIsDuplicate, DecodeValue, EncodeValue, Form, FormValue, OneTag, SetTag,
    TagMarker, ValueOrd,
};
use der_lists::{NonEmptyRef, SetRef};
use der_modules::Member;
use der_pkix::name::Attribute;
use der_tlv::{BackWriter, Error, Header, Length, Source, Writer};
use std::alloc::Global;
use std::cmp::Ordering;

/// ```text
/// SignedAttributes ::= SET SIZE (1..MAX) OF Attribute
/// ```
///
/// The items stand in the order of their octets (X.690 11.6): others are refused
/// (`ErrorKind::SetOrdering`, 11).
///
/// Reading refuses the first fault of the octets, in their order.
#[derive(Clone, Copy, Debug, PartialEq, Eq)]
pub struct SignedAttributes<'a> {
    items: NonEmptyRef<SetRef<'a, Attribute<'a>>>,
}

impl<'a> SignedAttributes<'a> {
    ghost use Rattle.der_cms.specs.Cms.SignedAttributes as signed_attributes;

    /// These items.
    pub fn new(items: NonEmptyRef<SetRef<'a, Attribute<'a>>>) -> SignedAttributes<'a>
        ensures { signed_attributes.items_of result ≡ list_of items.entry }
    {
        SignedAttributes { items }
    }

    /// The items, in their order.
    pub fn items(&self) -> &SetRef<'a, Attribute<'a>>
        ensures { result.now ≡ signed_attributes.items_of self.now }
    {
        self.items.list()
    }
}

impl<'a> OneTag for SignedAttributes<'a> {
    type Marker = SetTag;
}

impl<'a> FormValue for SignedAttributes<'a> {
    ghost value = { mapped_format (λ v. v.items) ⟦<NonEmptyRef<SetRef<'a, Attribute<'a>>> as FormValue>⟧.value };
}

impl<'a, R: Source<'a>> DecodeValue<'a, R> for SignedAttributes<'a> {
    ghost TAKES_MEMORY = { false };

    const TAKES_MEMORY: bool = false;

    fn decode_value(
        alloc: Global,
        reader: &mut R,
        header: Header,
    ) -> Result<SignedAttributes<'a>, Error> {
        let items = NonEmptyRef::<SetRef<'a, Attribute<'a>>>::decode_value(alloc, reader, header)?;
        Ok(SignedAttributes { items })
    }

    ghost takes_memory_is = { refl };
}

impl<'a> EncodeValue for SignedAttributes<'a> {
    fn value_len(&self) -> Result<Length, Error> {
        self.items.value_len()
    }

    fn encode_value<W: Writer>(&self, writer: &mut W) -> Result<(), Error> {
        self.items.encode_value(writer)
    }

    fn encode_value_back<W: BackWriter>(&self, writer: &mut W) -> Result<(), Error> {
        self.items.encode_value_back(writer)
    }
}

impl<'a> ValueOrd for SignedAttributes<'a> {
    fn value_cmp(&self, other: &SignedAttributes<'a>) -> Result<Ordering, Error> {
        self.items.value_cmp(&other.items)
    }
}

impl<'a> Member for SignedAttributes<'a> {
    ghost member = { seen_member ⟦<SetTag as TagMarker>⟧.TAG (λ v. v.items) ⟦<NonEmptyRef<SetRef<'a, Attribute<'a>>> as Member>⟧.member };
}

impl<'a> ContentsEq for SignedAttributes<'a> {
    ghost contents_eq = { ⟦<SignedAttributes<'a> as Member>⟧.member.equal };
}

impl<'a> CopyIsDuplicate for SignedAttributes<'a> {}

/// What is read as `SignedAttributes` is what the grammar page says.
pub fn grammar_of_signed_attributes<'a>()
    ensures { ⟦<SignedAttributes<'a> as Form>⟧.parse ≡ parse_of signed_attributes }
{}
