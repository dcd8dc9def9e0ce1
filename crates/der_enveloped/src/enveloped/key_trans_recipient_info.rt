//! KeyTransRecipientInfo, a SEQUENCE of 4 fields.
//!
//! Made by tools/asn1 from enveloped.asn1.

ghost use Rattle.std.specs.Prelude.{◌∷◌, ◌≡◌, [], false, refl};
ghost use Rattle.der_elem.specs.FormatMakers.{mapped_format};
ghost use Rattle.der_enveloped.specs.Enveloped.Grammar.{key_trans_recipient_info};
ghost use Rattle.der_enveloped.specs.Enveloped.KeyTransRecipientInfo as key_trans_recipient_info_fields;
ghost use Rattle.der_enveloped.specs.declared.enveloped.key_trans_recipient_info.KeyTransRecipientInfo.{KeyTransRecipientInfo};
ghost use Rattle.der_modules.specs.Asn1.{joined, parse_of};
ghost use Rattle.der_modules.specs.Members.{choice_field, field, no_fields, struct_member};

use crate::enveloped::aliases::RecipientIdentifier;
use der_cms::cms::CmsVersion;
use der_elem::{
    ContentsEq, CopyIsDuplicate, DecodeValue, EncodeValue, Form, FormValue, OneTag, Sequence,
    SequenceTag, TagMarker, ValueOrd,
};
use der_fields::{DecodeFields, EncodeFields, FieldList, Fields4, FieldsOrd};
use der_modules::{Choosing, Member, copy_of, field_list};
use der_opaque::OctetStringRef;
use der_pkix::AlgorithmIdentifier;
use der_tlv::{BackWriter, Error, Header, Length, Source, Writer};
use std::alloc::Global;
use std::cmp::Ordering;
use std::fmt;

/// The list of the fields.
type Fields<'a> = Fields4<
    CmsVersion,
    RecipientIdentifier<'a>,
    AlgorithmIdentifier<'a>,
    OctetStringRef<'a>,
>;

/// ```text
/// KeyTransRecipientInfo ::= SEQUENCE {
///      version                 CMSVersion, -- always set to 0 or 2
///      rid                     RecipientIdentifier,
///      keyEncryptionAlgorithm  AlgorithmIdentifier,
///      encryptedKey            OCTET STRING }
/// ```
///
/// Reading refuses the first fault of the octets, in their order.
#[derive(Clone, Copy, PartialEq, Eq)]
pub struct KeyTransRecipientInfo<'a> {
    fields: Fields<'a>,
}

impl<'a> KeyTransRecipientInfo<'a> {
    ghost use Rattle.der_enveloped.specs.Enveloped.KeyTransRecipientInfo as key_trans_recipient_info_fields;

    /// A value of these fields.
    pub fn new(
        version: CmsVersion,
        rid: &RecipientIdentifier<'a>,
        key_encryption_algorithm: &AlgorithmIdentifier<'a>,
        encrypted_key: OctetStringRef<'a>,
    ) -> KeyTransRecipientInfo<'a>
        ensures version { key_trans_recipient_info_fields.version result ≡ version }
        ensures rid { key_trans_recipient_info_fields.rid result ≡ rid.now }
        ensures key_encryption_algorithm { key_trans_recipient_info_fields.key_encryption_algorithm result ≡ key_encryption_algorithm.now }
        ensures encrypted_key { key_trans_recipient_info_fields.encrypted_key result ≡ encrypted_key.entry }
    {
        let list = field_list![
            version,
            copy_of(rid),
            copy_of(key_encryption_algorithm),
            encrypted_key
        ];
        let fields = Fields4 { list };
        KeyTransRecipientInfo { fields }
    }

    /// `version`, `CMSVersion`.
    pub fn version(&self) -> CmsVersion
        ensures { result ≡ key_trans_recipient_info_fields.version self.now }
    {
        self.fields.list.first
    }

    /// `rid`, `RecipientIdentifier`.
    pub fn rid(&self) -> &RecipientIdentifier<'a>
        ensures { result.now ≡ key_trans_recipient_info_fields.rid self.now }
    {
        &self.fields.list.rest.first
    }

    /// `keyEncryptionAlgorithm`, `AlgorithmIdentifier`.
    pub fn key_encryption_algorithm(&self) -> &AlgorithmIdentifier<'a>
        ensures { result.now ≡ key_trans_recipient_info_fields.key_encryption_algorithm self.now }
    {
        &self.fields.list.rest.rest.first
    }

    /// `encryptedKey`, `OCTET STRING`.
    pub fn encrypted_key(&self) -> &OctetStringRef<'a>
        ensures { result.now ≡ key_trans_recipient_info_fields.encrypted_key self.now }
    {
        &self.fields.list.rest.rest.rest.first
    }
}

impl<'a> fmt::Debug for KeyTransRecipientInfo<'a> {
    fn fmt<W: fmt::Write>(&self, f: &mut fmt::Formatter<W>) -> fmt::Result {
        f.debug_struct("KeyTransRecipientInfo")
            .field("version", &self.version())
            .field("rid", self.rid())
            .field("key_encryption_algorithm", self.key_encryption_algorithm())
            .field("encrypted_key", self.encrypted_key())
            .finish()
    }
}

impl<'a> OneTag for KeyTransRecipientInfo<'a> {
    type Marker = SequenceTag;
}

impl<'a> Sequence<'a> for KeyTransRecipientInfo<'a> {
    ghost is_sequence = { refl };
}

impl<'a> FormValue for KeyTransRecipientInfo<'a> {
    ghost value = { mapped_format (λ v. v.fields) ⟦<Fields<'a> as FieldList>⟧.list.octets };
}

impl<'a, R: Source<'a>> DecodeValue<'a, R> for KeyTransRecipientInfo<'a> {
    ghost TAKES_MEMORY = { false };

    const TAKES_MEMORY: bool = false;

    fn decode_value(
        alloc: Global,
        reader: &mut R,
        _header: Header,
    ) -> Result<KeyTransRecipientInfo<'a>, Error> {
        match Fields::<'a>::decode_fields(alloc, reader) {
            Ok(fields) => Ok(KeyTransRecipientInfo { fields }),
            Err(e) => Err(e),
        }
    }

    ghost takes_memory_is = { refl };
}

impl<'a> EncodeValue for KeyTransRecipientInfo<'a> {
    fn value_len(&self) -> Result<Length, Error> {
        self.fields.fields_len()
    }

    fn encode_value<W: Writer>(&self, writer: &mut W) -> Result<(), Error> {
        self.fields.encode_fields(writer)
    }

    fn encode_value_back<W: BackWriter>(&self, writer: &mut W) -> Result<(), Error> {
        self.fields.encode_fields_back(writer)
    }
}

impl<'a> ValueOrd for KeyTransRecipientInfo<'a> {
    fn value_cmp(&self, other: &KeyTransRecipientInfo<'a>) -> Result<Ordering, Error> {
        self.fields.cmp_fields(&other.fields)
    }
}

impl<'a> Member for KeyTransRecipientInfo<'a> {
    ghost member = { struct_member ⟦<SequenceTag as TagMarker>⟧.TAG (λ v. v.fields.list)
        (field ⟦<CmsVersion as Member>⟧.member
        (choice_field ⟦<RecipientIdentifier<'a> as Choosing>⟧.choice
        (field ⟦<AlgorithmIdentifier<'a> as Member>⟧.member
        (field ⟦<OctetStringRef<'a> as Member>⟧.member
        no_fields)))) };
}

impl<'a> ContentsEq for KeyTransRecipientInfo<'a> {
    ghost contents_eq = { ⟦<KeyTransRecipientInfo<'a> as Member>⟧.member.equal };
}

impl<'a> CopyIsDuplicate for KeyTransRecipientInfo<'a> {}

/// What is read as `KeyTransRecipientInfo` is what the grammar page says.
pub fn grammar_of_key_trans_recipient_info<'a>()
    ensures { ⟦<KeyTransRecipientInfo<'a> as Form>⟧.parse ≡ parse_of key_trans_recipient_info }
{}

/// The contents octets of `KeyTransRecipientInfo` are the encodings of its fields, one after
/// another.
pub fn octets_of_key_trans_recipient_info<'a>()
    ensures { (v : KeyTransRecipientInfo) → ⟦<KeyTransRecipientInfo<'a> as FormValue>⟧.value.contents v ≡ joined (
        (⟦<CmsVersion as Form>⟧.encoding (key_trans_recipient_info_fields.version v))
        ∷ (⟦<RecipientIdentifier<'a> as Form>⟧.encoding (key_trans_recipient_info_fields.rid v))
        ∷ (⟦<AlgorithmIdentifier<'a> as Form>⟧.encoding (key_trans_recipient_info_fields.key_encryption_algorithm v))
        ∷ (⟦<OctetStringRef<'a> as Form>⟧.encoding (key_trans_recipient_info_fields.encrypted_key v))
        ∷ []) }
{}
