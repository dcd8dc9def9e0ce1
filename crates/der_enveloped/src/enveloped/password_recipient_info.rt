//! PasswordRecipientInfo, a SEQUENCE of 4 fields.
//!
//! Made by tools/asn1 from enveloped.asn1.

ghost use Rattle.std.specs.Prelude.{◌∷◌, ◌≡◌, [], false, refl, true};
ghost use Rattle.der_elem.specs.FormatMakers.{mapped_format};
ghost use Rattle.der_enveloped.specs.Enveloped.Grammar.{password_recipient_info};
ghost use Rattle.der_enveloped.specs.Enveloped.PasswordRecipientInfo as password_recipient_info_fields;
ghost use Rattle.der_enveloped.specs.declared.enveloped.password_recipient_info.PasswordRecipientInfo.{PasswordRecipientInfo};
ghost use Rattle.der_modules.specs.Asn1.{context, implicit_encoding, joined, optional, parse_of};
ghost use Rattle.der_modules.specs.Members.{field, no_fields, optional_field, struct_member};

use der_cms::cms::CmsVersion;
use der_elem::{
    ContentsEq, CopyIsDuplicate, DecodeValue, EncodeValue, Form, FormValue, OneTag, Sequence,
    SequenceTag, TagMarker, ValueOrd,
};
use der_fields::{DecodeFields, EncodeFields, FieldList, Fields4, FieldsOrd, Implicit};
use der_modules::{Member, copy_of, field_list, if_present};
use der_opaque::OctetStringRef;
use der_pkix::AlgorithmIdentifier;
use der_tlv::{BackWriter, Error, Header, Length, Source, Writer};
use std::alloc::Global;
use std::cmp::Ordering;
use std::fmt;

/// The list of the fields.
type Fields<'a> = Fields4<
    CmsVersion,
    Option<Implicit<AlgorithmIdentifier<'a>, 0>>,
    AlgorithmIdentifier<'a>,
    OctetStringRef<'a>,
>;

/// ```text
/// PasswordRecipientInfo ::= SEQUENCE {
///      version                 CMSVersion, -- always set to 0
///      keyDerivationAlgorithm  [0] AlgorithmIdentifier OPTIONAL,
///      keyEncryptionAlgorithm  AlgorithmIdentifier,
///      encryptedKey            OCTET STRING }
/// ```
///
/// Reading refuses the first fault of the octets, in their order.
#[derive(Clone, Copy, PartialEq, Eq)]
pub struct PasswordRecipientInfo<'a> {
    fields: Fields<'a>,
}

impl<'a> PasswordRecipientInfo<'a> {
    ghost use Rattle.der_enveloped.specs.Enveloped.PasswordRecipientInfo as password_recipient_info_fields;
    ghost use Rattle.std.specs.Prelude.{option_copied};

    /// A value of these fields.
    pub fn new(
        version: CmsVersion,
        key_derivation_algorithm: Option<&AlgorithmIdentifier<'a>>,
        key_encryption_algorithm: &AlgorithmIdentifier<'a>,
        encrypted_key: OctetStringRef<'a>,
    ) -> PasswordRecipientInfo<'a>
        ensures version { password_recipient_info_fields.version result ≡ version }
        ensures key_derivation_algorithm { password_recipient_info_fields.key_derivation_algorithm result ≡ option_copied key_derivation_algorithm.entry }
        ensures key_encryption_algorithm { password_recipient_info_fields.key_encryption_algorithm result ≡ key_encryption_algorithm.now }
        ensures encrypted_key { password_recipient_info_fields.encrypted_key result ≡ encrypted_key.entry }
    {
        let list = field_list![
            version,
            if_present!(value in key_derivation_algorithm => Implicit { value: copy_of(value) }),
            copy_of(key_encryption_algorithm),
            encrypted_key
        ];
        let fields = Fields4 { list };
        PasswordRecipientInfo { fields }
    }

    /// `version`, `CMSVersion`.
    pub fn version(&self) -> CmsVersion
        ensures { result ≡ password_recipient_info_fields.version self.now }
    {
        self.fields.list.first
    }

    /// `keyDerivationAlgorithm`, `[0] AlgorithmIdentifier OPTIONAL`.
    pub fn key_derivation_algorithm(&self) -> Option<&AlgorithmIdentifier<'a>>
        ensures { option_copied result ≡ password_recipient_info_fields.key_derivation_algorithm self.now }
    {
        if_present!(value in &self.fields.list.rest.first => &value.value)
    }

    /// `keyEncryptionAlgorithm`, `AlgorithmIdentifier`.
    pub fn key_encryption_algorithm(&self) -> &AlgorithmIdentifier<'a>
        ensures { result.now ≡ password_recipient_info_fields.key_encryption_algorithm self.now }
    {
        &self.fields.list.rest.rest.first
    }

    /// `encryptedKey`, `OCTET STRING`.
    pub fn encrypted_key(&self) -> &OctetStringRef<'a>
        ensures { result.now ≡ password_recipient_info_fields.encrypted_key self.now }
    {
        &self.fields.list.rest.rest.rest.first
    }
}

impl<'a> fmt::Debug for PasswordRecipientInfo<'a> {
    fn fmt<W: fmt::Write>(&self, f: &mut fmt::Formatter<W>) -> fmt::Result {
        f.debug_struct("PasswordRecipientInfo")
            .field("version", &self.version())
            .field("key_derivation_algorithm", &self.key_derivation_algorithm())
            .field("key_encryption_algorithm", self.key_encryption_algorithm())
            .field("encrypted_key", self.encrypted_key())
            .finish()
    }
}

impl<'a> OneTag for PasswordRecipientInfo<'a> {
    type Marker = SequenceTag;
}

impl<'a> Sequence<'a> for PasswordRecipientInfo<'a> {
    ghost is_sequence = { refl };
}

impl<'a> FormValue for PasswordRecipientInfo<'a> {
    ghost value = { mapped_format (λ v. v.fields) ⟦<Fields<'a> as FieldList>⟧.list.octets };
}

impl<'a, R: Source<'a>> DecodeValue<'a, R> for PasswordRecipientInfo<'a> {
    ghost TAKES_MEMORY = { false };

    const TAKES_MEMORY: bool = false;

    fn decode_value(
        alloc: Global,
        reader: &mut R,
        _header: Header,
    ) -> Result<PasswordRecipientInfo<'a>, Error> {
        match Fields::<'a>::decode_fields(alloc, reader) {
            Ok(fields) => Ok(PasswordRecipientInfo { fields }),
            Err(e) => Err(e),
        }
    }

    ghost takes_memory_is = { refl };
}

impl<'a> EncodeValue for PasswordRecipientInfo<'a> {
    fn value_len(&self) -> Result<Length, Error> {
        self.fields.fields_len()
    }

    fn encode_value<W: Writer>(&self, writer: &mut W) -> Result<(), Error> {
        self.fields.encode_fields(writer)
    }

    fn encode_value_back<W: BackWriter>(&self, writer: &mut W) -> Result<(), Error> {
        self.fields.encode_fields_back(writer)
    }
}

impl<'a> ValueOrd for PasswordRecipientInfo<'a> {
    fn value_cmp(&self, other: &PasswordRecipientInfo<'a>) -> Result<Ordering, Error> {
        self.fields.cmp_fields(&other.fields)
    }
}

impl<'a> Member for PasswordRecipientInfo<'a> {
    ghost member = { struct_member ⟦<SequenceTag as TagMarker>⟧.TAG (λ v. v.fields.list)
        (field ⟦<CmsVersion as Member>⟧.member
        (optional_field ⟦<Implicit<AlgorithmIdentifier<'a>, 0> as Member>⟧.member
        (field ⟦<AlgorithmIdentifier<'a> as Member>⟧.member
        (field ⟦<OctetStringRef<'a> as Member>⟧.member
        no_fields)))) };
}

impl<'a> ContentsEq for PasswordRecipientInfo<'a> {
    ghost contents_eq = { ⟦<PasswordRecipientInfo<'a> as Member>⟧.member.equal };
}

impl<'a> CopyIsDuplicate for PasswordRecipientInfo<'a> {}

/// What is read as `PasswordRecipientInfo` is what the grammar page says.
pub fn grammar_of_password_recipient_info<'a>()
    ensures { ⟦<PasswordRecipientInfo<'a> as Form>⟧.parse ≡ parse_of password_recipient_info }
{}

/// The contents octets of `PasswordRecipientInfo` are the encodings of its fields, one after
/// another.
#[tactic(auto, using(der_modules::specs::Asn1::optional_of))]
pub fn octets_of_password_recipient_info<'a>()
    ensures { (v : PasswordRecipientInfo) → ⟦<PasswordRecipientInfo<'a> as FormValue>⟧.value.contents v ≡ joined (
        (⟦<CmsVersion as Form>⟧.encoding (password_recipient_info_fields.version v))
        ∷ optional (λ x. (implicit_encoding context true 0 (⟦<AlgorithmIdentifier<'a> as FormValue>⟧.value.contents x))) (password_recipient_info_fields.key_derivation_algorithm v)
        ∷ (⟦<AlgorithmIdentifier<'a> as Form>⟧.encoding (password_recipient_info_fields.key_encryption_algorithm v))
        ∷ (⟦<OctetStringRef<'a> as Form>⟧.encoding (password_recipient_info_fields.encrypted_key v))
        ∷ []) }
{}
