//! RecipientEncryptedKeys, a SEQUENCE OF.
//!
//! Made by tools/asn1 from enveloped.asn1.

ghost use Rattle.std.specs.Prelude.{◌≡◌, false, refl};
ghost use Rattle.der_elem.specs.FormatMakers.{mapped_format};
ghost use Rattle.der_enveloped.specs.Enveloped.Grammar.{recipient_encrypted_keys};
ghost use Rattle.der_modules.specs.Asn1.{parse_of};
ghost use Rattle.der_modules.specs.Members.{seen_member};

use crate::enveloped::recipient_encrypted_key::RecipientEncryptedKey;
use der_elem::{
    ContentsEq, CopyIsDuplicate, DecodeValue, EncodeValue, Form, FormValue, OneTag, Sequence,
    SequenceTag, TagMarker, ValueOrd,
};
use der_lists::ListRef;
use der_modules::Member;
use der_tlv::{BackWriter, Error, Header, Length, Source, Writer};
use std::alloc::Global;
use std::cmp::Ordering;

/// ```text
/// RecipientEncryptedKeys ::= SEQUENCE OF RecipientEncryptedKey
/// ```
///
/// Reading refuses the first fault of the octets, in their order.
#[derive(Clone, Copy, Debug, PartialEq, Eq)]
pub struct RecipientEncryptedKeys<'a> {
    items: ListRef<'a, RecipientEncryptedKey<'a>>,
}

impl<'a> RecipientEncryptedKeys<'a> {
    ghost use Rattle.der_enveloped.specs.Enveloped.RecipientEncryptedKeys as recipient_encrypted_keys;

    /// These items.
    pub fn new(items: ListRef<'a, RecipientEncryptedKey<'a>>) -> RecipientEncryptedKeys<'a>
        ensures { recipient_encrypted_keys.items_of result ≡ items.entry }
    {
        RecipientEncryptedKeys { items }
    }

    /// The items, in their order.
    pub fn items(&self) -> &ListRef<'a, RecipientEncryptedKey<'a>>
        ensures { result.now ≡ recipient_encrypted_keys.items_of self.now }
    {
        &self.items
    }
}

impl<'a> OneTag for RecipientEncryptedKeys<'a> {
    type Marker = SequenceTag;
}

impl<'a> Sequence<'a> for RecipientEncryptedKeys<'a> {
    ghost is_sequence = { refl };
}

impl<'a> FormValue for RecipientEncryptedKeys<'a> {
    ghost value = { mapped_format (λ v. v.items) ⟦<ListRef<'a, RecipientEncryptedKey<'a>> as FormValue>⟧.value };
}

impl<'a, R: Source<'a>> DecodeValue<'a, R> for RecipientEncryptedKeys<'a> {
    ghost TAKES_MEMORY = { false };

    const TAKES_MEMORY: bool = false;

    fn decode_value(
        alloc: Global,
        reader: &mut R,
        header: Header,
    ) -> Result<RecipientEncryptedKeys<'a>, Error> {
        let items = ListRef::<'a, RecipientEncryptedKey<'a>>::decode_value(alloc, reader, header)?;
        Ok(RecipientEncryptedKeys { items })
    }

    ghost takes_memory_is = { refl };
}

impl<'a> EncodeValue for RecipientEncryptedKeys<'a> {
    fn value_len(&self) -> Result<Length, Error> {
        self.items.value_len()
    }

    fn encode_value<W: Writer>(&self, writer: &mut W) -> Result<(), Error> {
        self.items.encode_value(writer)
    }

    fn encode_value_back<W: BackWriter>(&self, writer: &mut W) -> Result<(), Error> {
        self.items.encode_value_back(writer)
    }
}

impl<'a> ValueOrd for RecipientEncryptedKeys<'a> {
    fn value_cmp(&self, other: &RecipientEncryptedKeys<'a>) -> Result<Ordering, Error> {
        self.items.value_cmp(&other.items)
    }
}

impl<'a> Member for RecipientEncryptedKeys<'a> {
    ghost member = { seen_member ⟦<SequenceTag as TagMarker>⟧.TAG (λ v. v.items) ⟦<ListRef<'a, RecipientEncryptedKey<'a>> as Member>⟧.member };
}

impl<'a> ContentsEq for RecipientEncryptedKeys<'a> {
    ghost contents_eq = { ⟦<RecipientEncryptedKeys<'a> as Member>⟧.member.equal };
}

impl<'a> CopyIsDuplicate for RecipientEncryptedKeys<'a> {}

/// What is read as `RecipientEncryptedKeys` is what the grammar page says.
pub fn grammar_of_recipient_encrypted_keys<'a>()
    ensures { ⟦<RecipientEncryptedKeys<'a> as Form>⟧.parse ≡ parse_of recipient_encrypted_keys }
{}
