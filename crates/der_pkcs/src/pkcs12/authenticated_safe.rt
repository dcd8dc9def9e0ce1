//! AuthenticatedSafe, a SEQUENCE OF.
//!
//! Made by tools/asn1 from pkcs12.asn1.

ghost use Rattle.std.specs.Prelude.{◌≡◌, false, refl};
ghost use Rattle.der_elem.specs.FormatMakers.{mapped_format};
ghost use Rattle.der_modules.specs.Asn1.{parse_of};
ghost use Rattle.der_modules.specs.Members.{seen_member};
ghost use Rattle.der_pkcs.specs.Pkcs12.Grammar.{authenticated_safe};

use crate::pkcs12::content_info::ContentInfo;
use der_elem::{
    ContentsEq, CopyIsDuplicate, DecodeValue, EncodeValue, Form, FormValue, OneTag, Sequence,
    SequenceTag, TagMarker, ValueOrd,
};
use der_lists::ListRef;
use der_modules::Member;
use der_tlv::{BackWriter, Error, Header, Length, Source, Writer};
use std::alloc::Global;
use std::cmp::Ordering;

/// ```text
/// AuthenticatedSafe ::= SEQUENCE OF ContentInfo
/// ```
///
/// Reading refuses the first fault of the octets, in their order.
#[derive(Clone, Copy, Debug, PartialEq, Eq)]
pub struct AuthenticatedSafe<'a> {
    items: ListRef<'a, ContentInfo<'a>>,
}

impl<'a> AuthenticatedSafe<'a> {
    ghost use Rattle.der_pkcs.specs.Pkcs12.AuthenticatedSafe as authenticated_safe;

    /// These items.
    pub fn new(items: ListRef<'a, ContentInfo<'a>>) -> AuthenticatedSafe<'a>
        ensures { authenticated_safe.items_of result ≡ items.entry }
    {
        AuthenticatedSafe { items }
    }

    /// The items, in their order.
    pub fn items(&self) -> &ListRef<'a, ContentInfo<'a>>
        ensures { result.now ≡ authenticated_safe.items_of self.now }
    {
        &self.items
    }
}

impl<'a> OneTag for AuthenticatedSafe<'a> {
    type Marker = SequenceTag;
}

impl<'a> Sequence<'a> for AuthenticatedSafe<'a> {
    ghost is_sequence = { refl };
}

impl<'a> FormValue for AuthenticatedSafe<'a> {
    ghost value = { mapped_format (λ v. v.items) ⟦<ListRef<'a, ContentInfo<'a>> as FormValue>⟧.value };
}

impl<'a, R: Source<'a>> DecodeValue<'a, R> for AuthenticatedSafe<'a> {
    ghost TAKES_MEMORY = { false };

    const TAKES_MEMORY: bool = false;

    fn decode_value(
        alloc: Global,
        reader: &mut R,
        header: Header,
    ) -> Result<AuthenticatedSafe<'a>, Error> {
        let items = ListRef::<'a, ContentInfo<'a>>::decode_value(alloc, reader, header)?;
        Ok(AuthenticatedSafe { items })
    }

    ghost takes_memory_is = { refl };
}

impl<'a> EncodeValue for AuthenticatedSafe<'a> {
    fn value_len(&self) -> Result<Length, Error> {
        self.items.value_len()
    }

    fn encode_value<W: Writer>(&self, writer: &mut W) -> Result<(), Error> {
        self.items.encode_value(writer)
    }

    fn encode_value_back<W: BackWriter>(&self, writer: &mut W) -> Result<(), Error> {
        self.items.encode_value_back(writer)
    }
}

impl<'a> ValueOrd for AuthenticatedSafe<'a> {
    fn value_cmp(&self, other: &AuthenticatedSafe<'a>) -> Result<Ordering, Error> {
        self.items.value_cmp(&other.items)
    }
}

impl<'a> Member for AuthenticatedSafe<'a> {
    ghost member = { seen_member ⟦<SequenceTag as TagMarker>⟧.TAG (λ v. v.items) ⟦<ListRef<'a, ContentInfo<'a>> as Member>⟧.member };
}

impl<'a> ContentsEq for AuthenticatedSafe<'a> {
    ghost contents_eq = { ⟦<AuthenticatedSafe<'a> as Member>⟧.member.equal };
}

impl<'a> CopyIsDuplicate for AuthenticatedSafe<'a> {}

/// What is read as `AuthenticatedSafe` is what the grammar page says.
pub fn grammar_of_authenticated_safe<'a>()
    ensures { ⟦<AuthenticatedSafe<'a> as Form>⟧.parse ≡ parse_of authenticated_safe }
{}
