//! RecipientEncryptedKey, a SEQUENCE of 2 fields.
//!
//! Made by tools/asn1 from enveloped.asn1.

ghost use Rattle.std.specs.Prelude.{◌∷◌, ◌≡◌, [], false, refl};
ghost use Rattle.der_elem.specs.FormatMakers.{mapped_format};
ghost use Rattle.der_enveloped.specs.Enveloped.Grammar.{recipient_encrypted_key};
ghost use Rattle.der_enveloped.specs.Enveloped.RecipientEncryptedKey as recipient_encrypted_key_fields;
ghost use Rattle.der_enveloped.specs.declared.enveloped.recipient_encrypted_key.RecipientEncryptedKey.{RecipientEncryptedKey};
ghost use Rattle.der_modules.specs.Asn1.{joined, parse_of};
ghost use Rattle.der_modules.specs.Members.{choice_field, field, no_fields, struct_member};

use crate::enveloped::key_agree_recipient_identifier::KeyAgreeRecipientIdentifier;
use der_elem::{
    ContentsEq, CopyIsDuplicate, DecodeValue, EncodeValue, Form, FormValue, OneTag, Sequence,
    SequenceTag, TagMarker, ValueOrd,
};
use der_fields::{DecodeFields, EncodeFields, FieldList, Fields2, FieldsOrd};
use der_modules::{Choosing, Member, copy_of, field_list};
use der_opaque::OctetStringRef;
use der_tlv::{BackWriter, Error, Header, Length, Source, Writer};
use std::alloc::Global;
use std::cmp::Ordering;
use std::fmt;

/// The list of the fields.
type Fields<'a> = Fields2<KeyAgreeRecipientIdentifier<'a>, OctetStringRef<'a>>;

/// ```text
/// RecipientEncryptedKey ::= SEQUENCE {
///      rid           KeyAgreeRecipientIdentifier,
///      encryptedKey  OCTET STRING }
/// ```
///
/// Reading refuses the first fault of the octets, in their order.
#[derive(Clone, Copy, PartialEq, Eq)]
pub struct RecipientEncryptedKey<'a> {
    fields: Fields<'a>,
}

impl<'a> RecipientEncryptedKey<'a> {
    ghost use Rattle.der_enveloped.specs.Enveloped.RecipientEncryptedKey as recipient_encrypted_key_fields;

    /// A value of these fields.
    pub fn new(
        rid: &KeyAgreeRecipientIdentifier<'a>,
        encrypted_key: OctetStringRef<'a>,
    ) -> RecipientEncryptedKey<'a>
        ensures rid { recipient_encrypted_key_fields.rid result ≡ rid.now }
        ensures encrypted_key { recipient_encrypted_key_fields.encrypted_key result ≡ encrypted_key.entry }
    {
        let list = field_list![copy_of(rid), encrypted_key];
        let fields = Fields2 { list };
        RecipientEncryptedKey { fields }
    }

    /// `rid`, `KeyAgreeRecipientIdentifier`.
    pub fn rid(&self) -> &KeyAgreeRecipientIdentifier<'a>
        ensures { result.now ≡ recipient_encrypted_key_fields.rid self.now }
    {
        &self.fields.list.first
    }

    /// `encryptedKey`, `OCTET STRING`.
    pub fn encrypted_key(&self) -> &OctetStringRef<'a>
        ensures { result.now ≡ recipient_encrypted_key_fields.encrypted_key self.now }
    {
        &self.fields.list.rest.first
    }
}

impl<'a> fmt::Debug for RecipientEncryptedKey<'a> {
    fn fmt<W: fmt::Write>(&self, f: &mut fmt::Formatter<W>) -> fmt::Result {
        f.debug_struct("RecipientEncryptedKey")
            .field("rid", self.rid())
            .field("encrypted_key", self.encrypted_key())
            .finish()
    }
}

impl<'a> OneTag for RecipientEncryptedKey<'a> {
    type Marker = SequenceTag;
}

impl<'a> Sequence<'a> for RecipientEncryptedKey<'a> {
    ghost is_sequence = { refl };
}

impl<'a> FormValue for RecipientEncryptedKey<'a> {
    ghost value = { mapped_format (λ v. v.fields) ⟦<Fields<'a> as FieldList>⟧.list.octets };
}

impl<'a, R: Source<'a>> DecodeValue<'a, R> for RecipientEncryptedKey<'a> {
    ghost TAKES_MEMORY = { false };

    const TAKES_MEMORY: bool = false;

    fn decode_value(
        alloc: Global,
        reader: &mut R,
        _header: Header,
    ) -> Result<RecipientEncryptedKey<'a>, Error> {
        match Fields::<'a>::decode_fields(alloc, reader) {
            Ok(fields) => Ok(RecipientEncryptedKey { fields }),
            Err(e) => Err(e),
        }
    }

    ghost takes_memory_is = { refl };
}

impl<'a> EncodeValue for RecipientEncryptedKey<'a> {
    fn value_len(&self) -> Result<Length, Error> {
        self.fields.fields_len()
    }

    fn encode_value<W: Writer>(&self, writer: &mut W) -> Result<(), Error> {
        self.fields.encode_fields(writer)
    }

    fn encode_value_back<W: BackWriter>(&self, writer: &mut W) -> Result<(), Error> {
        self.fields.encode_fields_back(writer)
    }
}

impl<'a> ValueOrd for RecipientEncryptedKey<'a> {
    fn value_cmp(&self, other: &RecipientEncryptedKey<'a>) -> Result<Ordering, Error> {
        self.fields.cmp_fields(&other.fields)
    }
}

impl<'a> Member for RecipientEncryptedKey<'a> {
    ghost member = { struct_member ⟦<SequenceTag as TagMarker>⟧.TAG (λ v. v.fields.list)
        (choice_field ⟦<KeyAgreeRecipientIdentifier<'a> as Choosing>⟧.choice
        (field ⟦<OctetStringRef<'a> as Member>⟧.member
        no_fields)) };
}

impl<'a> ContentsEq for RecipientEncryptedKey<'a> {
    ghost contents_eq = { ⟦<RecipientEncryptedKey<'a> as Member>⟧.member.equal };
}

impl<'a> CopyIsDuplicate for RecipientEncryptedKey<'a> {}

/// What is read as `RecipientEncryptedKey` is what the grammar page says.
pub fn grammar_of_recipient_encrypted_key<'a>()
    ensures { ⟦<RecipientEncryptedKey<'a> as Form>⟧.parse ≡ parse_of recipient_encrypted_key }
{}

/// The contents octets of `RecipientEncryptedKey` are the encodings of its fields, one after
/// another.
pub fn octets_of_recipient_encrypted_key<'a>()
    ensures { (v : RecipientEncryptedKey) → ⟦<RecipientEncryptedKey<'a> as FormValue>⟧.value.contents v ≡ joined (
        (⟦<KeyAgreeRecipientIdentifier<'a> as Form>⟧.encoding (recipient_encrypted_key_fields.rid v))
        ∷ (⟦<OctetStringRef<'a> as Form>⟧.encoding (recipient_encrypted_key_fields.encrypted_key v))
        ∷ []) }
{}
