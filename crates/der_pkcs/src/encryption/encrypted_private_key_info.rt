//! EncryptedPrivateKeyInfo, a SEQUENCE of 2 fields.
//!
//! Made by tools/asn1 from encryption.asn1.

ghost use Rattle.std.specs.Prelude.{◌∷◌, ◌≡◌, [], false, refl};
ghost use Rattle.der_elem.specs.FormatMakers.{mapped_format};
ghost use Rattle.der_modules.specs.Asn1.{joined, parse_of};
ghost use Rattle.der_modules.specs.Members.{field, no_fields, struct_member};
ghost use Rattle.der_pkcs.specs.Encryption.EncryptedPrivateKeyInfo as encrypted_private_key_info_fields;
ghost use Rattle.der_pkcs.specs.Encryption.Grammar.{encrypted_private_key_info};
ghost use Rattle.der_pkcs.specs.declared.encryption.encrypted_private_key_info.EncryptedPrivateKeyInfo.{EncryptedPrivateKeyInfo};

use der_elem::{
    ContentsEq, CopyIsDuplicate, DecodeValue, EncodeValue, Form, FormValue, OneTag, Sequence,
    SequenceTag, TagMarker, ValueOrd,
};
use der_fields::{DecodeFields, EncodeFields, FieldList, Fields2, FieldsOrd};
use der_modules::{Member, copy_of, field_list};
use der_opaque::OctetStringRef;
use der_pkix::AlgorithmIdentifier;
use der_tlv::{BackWriter, Error, Header, Length, Source, Writer};
use std::alloc::Global;
use std::cmp::Ordering;
use std::fmt;

/// The list of the fields.
type Fields<'a> = Fields2<AlgorithmIdentifier<'a>, OctetStringRef<'a>>;

/// ```text
/// EncryptedPrivateKeyInfo ::= SEQUENCE {
///      encryptionAlgorithm  AlgorithmIdentifier,
///      encryptedData        OCTET STRING }
/// ```
///
/// Reading refuses the first fault of the octets, in their order.
#[derive(Clone, Copy, PartialEq, Eq)]
pub struct EncryptedPrivateKeyInfo<'a> {
    fields: Fields<'a>,
}

impl<'a> EncryptedPrivateKeyInfo<'a> {
    ghost use Rattle.der_pkcs.specs.Encryption.EncryptedPrivateKeyInfo as encrypted_private_key_info_fields;

    /// A value of these fields.
    pub fn new(
        encryption_algorithm: &AlgorithmIdentifier<'a>,
        encrypted_data: OctetStringRef<'a>,
    ) -> EncryptedPrivateKeyInfo<'a>
        ensures encryption_algorithm { encrypted_private_key_info_fields.encryption_algorithm result ≡ encryption_algorithm.now }
        ensures encrypted_data { encrypted_private_key_info_fields.encrypted_data result ≡ encrypted_data.entry }
    {
        let list = field_list![copy_of(encryption_algorithm), encrypted_data];
        let fields = Fields2 { list };
        EncryptedPrivateKeyInfo { fields }
    }

    /// `encryptionAlgorithm`, `AlgorithmIdentifier`.
    pub fn encryption_algorithm(&self) -> &AlgorithmIdentifier<'a>
        ensures { result.now ≡ encrypted_private_key_info_fields.encryption_algorithm self.now }
    {
        &self.fields.list.first
    }

    /// `encryptedData`, `OCTET STRING`.
    pub fn encrypted_data(&self) -> &OctetStringRef<'a>
        ensures { result.now ≡ encrypted_private_key_info_fields.encrypted_data self.now }
    {
        &self.fields.list.rest.first
    }
}

impl<'a> fmt::Debug for EncryptedPrivateKeyInfo<'a> {
    fn fmt<W: fmt::Write>(&self, f: &mut fmt::Formatter<W>) -> fmt::Result {
        f.debug_struct("EncryptedPrivateKeyInfo")
            .field("encryption_algorithm", self.encryption_algorithm())
            .field("encrypted_data", self.encrypted_data())
            .finish()
    }
}

impl<'a> OneTag for EncryptedPrivateKeyInfo<'a> {
    type Marker = SequenceTag;
}

impl<'a> Sequence<'a> for EncryptedPrivateKeyInfo<'a> {
    ghost is_sequence = { refl };
}

impl<'a> FormValue for EncryptedPrivateKeyInfo<'a> {
    ghost value = { mapped_format (λ v. v.fields) ⟦<Fields<'a> as FieldList>⟧.list.octets };
}

impl<'a, R: Source<'a>> DecodeValue<'a, R> for EncryptedPrivateKeyInfo<'a> {
    ghost TAKES_MEMORY = { false };

    const TAKES_MEMORY: bool = false;

    fn decode_value(
        alloc: Global,
        reader: &mut R,
        _header: Header,
    ) -> Result<EncryptedPrivateKeyInfo<'a>, Error> {
        match Fields::<'a>::decode_fields(alloc, reader) {
            Ok(fields) => Ok(EncryptedPrivateKeyInfo { fields }),
            Err(e) => Err(e),
        }
    }

    ghost takes_memory_is = { refl };
}

impl<'a> EncodeValue for EncryptedPrivateKeyInfo<'a> {
    fn value_len(&self) -> Result<Length, Error> {
        self.fields.fields_len()
    }

    fn encode_value<W: Writer>(&self, writer: &mut W) -> Result<(), Error> {
        self.fields.encode_fields(writer)
    }

    fn encode_value_back<W: BackWriter>(&self, writer: &mut W) -> Result<(), Error> {
        self.fields.encode_fields_back(writer)
    }
}

impl<'a> ValueOrd for EncryptedPrivateKeyInfo<'a> {
    fn value_cmp(&self, other: &EncryptedPrivateKeyInfo<'a>) -> Result<Ordering, Error> {
        self.fields.cmp_fields(&other.fields)
    }
}

impl<'a> Member for EncryptedPrivateKeyInfo<'a> {
    ghost member = { struct_member ⟦<SequenceTag as TagMarker>⟧.TAG (λ v. v.fields.list)
        (field ⟦<AlgorithmIdentifier<'a> as Member>⟧.member
        (field ⟦<OctetStringRef<'a> as Member>⟧.member
        no_fields)) };
}

impl<'a> ContentsEq for EncryptedPrivateKeyInfo<'a> {
    ghost contents_eq = { ⟦<EncryptedPrivateKeyInfo<'a> as Member>⟧.member.equal };
}

impl<'a> CopyIsDuplicate for EncryptedPrivateKeyInfo<'a> {}

/// What is read as `EncryptedPrivateKeyInfo` is what the grammar page says.
pub fn grammar_of_encrypted_private_key_info<'a>()
    ensures { ⟦<EncryptedPrivateKeyInfo<'a> as Form>⟧.parse ≡ parse_of encrypted_private_key_info }
{}

/// The contents octets of `EncryptedPrivateKeyInfo` are the encodings of its fields, one after
/// another.
pub fn octets_of_encrypted_private_key_info<'a>()
    ensures { (v : EncryptedPrivateKeyInfo) → ⟦<EncryptedPrivateKeyInfo<'a> as FormValue>⟧.value.contents v ≡ joined (
        (⟦<AlgorithmIdentifier<'a> as Form>⟧.encoding (encrypted_private_key_info_fields.encryption_algorithm v))
        ∷ (⟦<OctetStringRef<'a> as Form>⟧.encoding (encrypted_private_key_info_fields.encrypted_data v))
        ∷ []) }
{}
