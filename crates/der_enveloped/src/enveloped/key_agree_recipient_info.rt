//! KeyAgreeRecipientInfo, a SEQUENCE of 5 fields.
//!
//! Made by tools/asn1 from enveloped.asn1.

ghost use Rattle.std.specs.Prelude.{◌∷◌, ◌≡◌, [], false, refl};
ghost use Rattle.der_elem.specs.FormatMakers.{mapped_format};
ghost use Rattle.der_enveloped.specs.Enveloped.Grammar.{key_agree_recipient_info};
ghost use Rattle.der_enveloped.specs.Enveloped.KeyAgreeRecipientInfo as key_agree_recipient_info_fields;
ghost use Rattle.der_enveloped.specs.declared.enveloped.key_agree_recipient_info.KeyAgreeRecipientInfo.{KeyAgreeRecipientInfo};
ghost use Rattle.der_modules.specs.Asn1.{context, explicit_encoding, joined, optional, parse_of};
ghost use Rattle.der_modules.specs.Members.{field, no_fields, optional_field, struct_member};

use crate::enveloped::aliases::UserKeyingMaterial;
use crate::enveloped::originator_identifier_or_key::OriginatorIdentifierOrKey;
use crate::enveloped::recipient_encrypted_keys::RecipientEncryptedKeys;
use der_cms::cms::CmsVersion;
use der_elem::{
    ContentsEq, CopyIsDuplicate, DecodeValue, EncodeValue, Form, FormValue, OneTag, Sequence,
    SequenceTag, TagMarker, ValueOrd,
};
use der_fields::{DecodeFields, EncodeFields, Explicit, FieldList, Fields5, FieldsOrd};
use der_modules::{Member, copy_of, field_list, if_present, tagged};
use der_pkix::AlgorithmIdentifier;
use der_tlv::{BackWriter, Error, Header, Length, Source, Writer};
use std::alloc::Global;
use std::cmp::Ordering;
use std::fmt;

/// The list of the fields.
type Fields<'a> = Fields5<
    CmsVersion,
    Explicit<OriginatorIdentifierOrKey<'a>, 0>,
    Option<Explicit<UserKeyingMaterial<'a>, 1>>,
    AlgorithmIdentifier<'a>,
    RecipientEncryptedKeys<'a>,
>;

/// ```text
/// KeyAgreeRecipientInfo ::= SEQUENCE {
///      version                 CMSVersion, -- always set to 3
///      originator              [0] EXPLICIT OriginatorIdentifierOrKey,
///      ukm                     [1] EXPLICIT UserKeyingMaterial OPTIONAL,
///      keyEncryptionAlgorithm  AlgorithmIdentifier,
///      recipientEncryptedKeys  RecipientEncryptedKeys }
/// ```
///
/// Reading refuses the first fault of the octets, in their order.
#[derive(Clone, Copy, PartialEq, Eq)]
pub struct KeyAgreeRecipientInfo<'a> {
    fields: Fields<'a>,
}

impl<'a> KeyAgreeRecipientInfo<'a> {
    ghost use Rattle.der_enveloped.specs.Enveloped.KeyAgreeRecipientInfo as key_agree_recipient_info_fields;
    ghost use Rattle.std.specs.Prelude.{option_copied};

    /// A value of these fields.
    pub fn new(
        version: CmsVersion,
        originator: &OriginatorIdentifierOrKey<'a>,
        ukm: Option<UserKeyingMaterial<'a>>,
        key_encryption_algorithm: &AlgorithmIdentifier<'a>,
        recipient_encrypted_keys: &RecipientEncryptedKeys<'a>,
    ) -> KeyAgreeRecipientInfo<'a>
        ensures version { key_agree_recipient_info_fields.version result ≡ version }
        ensures originator { key_agree_recipient_info_fields.originator result ≡ originator.now }
        ensures ukm { key_agree_recipient_info_fields.ukm result ≡ ukm.entry }
        ensures key_encryption_algorithm { key_agree_recipient_info_fields.key_encryption_algorithm result ≡ key_encryption_algorithm.now }
        ensures recipient_encrypted_keys { key_agree_recipient_info_fields.recipient_encrypted_keys result ≡ recipient_encrypted_keys.now }
    {
        let list = field_list![
            version,
            tagged!(Explicit, copy_of(originator)),
            if_present!(value in ukm => tagged!(Explicit, value)),
            copy_of(key_encryption_algorithm),
            copy_of(recipient_encrypted_keys)
        ];
        let fields = Fields5 { list };
        KeyAgreeRecipientInfo { fields }
    }

    /// `version`, `CMSVersion`.
    pub fn version(&self) -> CmsVersion
        ensures { result ≡ key_agree_recipient_info_fields.version self.now }
    {
        self.fields.list.first
    }

    /// `originator`, `[0] EXPLICIT OriginatorIdentifierOrKey`.
    pub fn originator(&self) -> &OriginatorIdentifierOrKey<'a>
        ensures { result.now ≡ key_agree_recipient_info_fields.originator self.now }
    {
        &self.fields.list.rest.first.fields.first
    }

    /// `ukm`, `[1] EXPLICIT UserKeyingMaterial OPTIONAL`.
    pub fn ukm(&self) -> Option<&UserKeyingMaterial<'a>>
        ensures { option_copied result ≡ key_agree_recipient_info_fields.ukm self.now }
    {
        if_present!(value in &self.fields.list.rest.rest.first => &value.fields.first)
    }

    /// `keyEncryptionAlgorithm`, `AlgorithmIdentifier`.
    pub fn key_encryption_algorithm(&self) -> &AlgorithmIdentifier<'a>
        ensures { result.now ≡ key_agree_recipient_info_fields.key_encryption_algorithm self.now }
    {
        &self.fields.list.rest.rest.rest.first
    }

    /// `recipientEncryptedKeys`, `RecipientEncryptedKeys`.
    pub fn recipient_encrypted_keys(&self) -> &RecipientEncryptedKeys<'a>
        ensures { result.now ≡ key_agree_recipient_info_fields.recipient_encrypted_keys self.now }
    {
        &self.fields.list.rest.rest.rest.rest.first
    }
}

impl<'a> fmt::Debug for KeyAgreeRecipientInfo<'a> {
    fn fmt<W: fmt::Write>(&self, f: &mut fmt::Formatter<W>) -> fmt::Result {
        f.debug_struct("KeyAgreeRecipientInfo")
            .field("version", &self.version())
            .field("originator", self.originator())
            .field("ukm", &self.ukm())
            .field("key_encryption_algorithm", self.key_encryption_algorithm())
            .field("recipient_encrypted_keys", self.recipient_encrypted_keys())
            .finish()
    }
}

impl<'a> OneTag for KeyAgreeRecipientInfo<'a> {
    type Marker = SequenceTag;
}

impl<'a> Sequence<'a> for KeyAgreeRecipientInfo<'a> {
    ghost is_sequence = { refl };
}

impl<'a> FormValue for KeyAgreeRecipientInfo<'a> {
    ghost value = { mapped_format (λ v. v.fields) ⟦<Fields<'a> as FieldList>⟧.list.octets };
}

impl<'a, R: Source<'a>> DecodeValue<'a, R> for KeyAgreeRecipientInfo<'a> {
    ghost TAKES_MEMORY = { false };

    const TAKES_MEMORY: bool = false;

    fn decode_value(
        alloc: Global,
        reader: &mut R,
        _header: Header,
    ) -> Result<KeyAgreeRecipientInfo<'a>, Error> {
        match Fields::<'a>::decode_fields(alloc, reader) {
            Ok(fields) => Ok(KeyAgreeRecipientInfo { fields }),
            Err(e) => Err(e),
        }
    }

    ghost takes_memory_is = { refl };
}

impl<'a> EncodeValue for KeyAgreeRecipientInfo<'a> {
    fn value_len(&self) -> Result<Length, Error> {
        self.fields.fields_len()
    }

    fn encode_value<W: Writer>(&self, writer: &mut W) -> Result<(), Error> {
        self.fields.encode_fields(writer)
    }

    fn encode_value_back<W: BackWriter>(&self, writer: &mut W) -> Result<(), Error> {
        self.fields.encode_fields_back(writer)
    }
}

impl<'a> ValueOrd for KeyAgreeRecipientInfo<'a> {
    fn value_cmp(&self, other: &KeyAgreeRecipientInfo<'a>) -> Result<Ordering, Error> {
        self.fields.cmp_fields(&other.fields)
    }
}

impl<'a> Member for KeyAgreeRecipientInfo<'a> {
    ghost member = { struct_member ⟦<SequenceTag as TagMarker>⟧.TAG (λ v. v.fields.list)
        (field ⟦<CmsVersion as Member>⟧.member
        (field ⟦<Explicit<OriginatorIdentifierOrKey<'a>, 0> as Member>⟧.member
        (optional_field ⟦<Explicit<UserKeyingMaterial<'a>, 1> as Member>⟧.member
        (field ⟦<AlgorithmIdentifier<'a> as Member>⟧.member
        (field ⟦<RecipientEncryptedKeys<'a> as Member>⟧.member
        no_fields))))) };
}

impl<'a> ContentsEq for KeyAgreeRecipientInfo<'a> {
    ghost contents_eq = { ⟦<KeyAgreeRecipientInfo<'a> as Member>⟧.member.equal };
}

impl<'a> CopyIsDuplicate for KeyAgreeRecipientInfo<'a> {}

/// What is read as `KeyAgreeRecipientInfo` is what the grammar page says.
pub fn grammar_of_key_agree_recipient_info<'a>()
    ensures { ⟦<KeyAgreeRecipientInfo<'a> as Form>⟧.parse ≡ parse_of key_agree_recipient_info }
{}

/// The contents octets of `KeyAgreeRecipientInfo` are the encodings of its fields, one after
/// another.
#[tactic(auto, using(der_modules::specs::Asn1::optional_of))]
pub fn octets_of_key_agree_recipient_info<'a>()
    ensures { (v : KeyAgreeRecipientInfo) → ⟦<KeyAgreeRecipientInfo<'a> as FormValue>⟧.value.contents v ≡ joined (
        (⟦<CmsVersion as Form>⟧.encoding (key_agree_recipient_info_fields.version v))
        ∷ (explicit_encoding context 0 (⟦<OriginatorIdentifierOrKey<'a> as Form>⟧.encoding (key_agree_recipient_info_fields.originator v)))
        ∷ optional (λ x. (explicit_encoding context 1 (⟦<UserKeyingMaterial<'a> as Form>⟧.encoding x))) (key_agree_recipient_info_fields.ukm v)
        ∷ (⟦<AlgorithmIdentifier<'a> as Form>⟧.encoding (key_agree_recipient_info_fields.key_encryption_algorithm v))
        ∷ (⟦<RecipientEncryptedKeys<'a> as Form>⟧.encoding (key_agree_recipient_info_fields.recipient_encrypted_keys v))
        ∷ []) }
{}
