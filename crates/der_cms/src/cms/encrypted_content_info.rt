//! EncryptedContentInfo, a SEQUENCE of 3 fields.
//!
//! Made by tools/asn1 from cms.asn1.

ghost use Rattle.std.specs.Prelude.{◌∷◌, ◌≡◌, [], false, refl};
ghost use Rattle.der_cms.specs.Cms.EncryptedContentInfo as encrypted_content_info_fields;
ghost use Rattle.der_cms.specs.Cms.Grammar.{encrypted_content_info};
ghost use Rattle.der_cms.specs.declared.cms.encrypted_content_info.EncryptedContentInfo.{EncryptedContentInfo};
ghost use Rattle.der_elem.specs.FormatMakers.{mapped_format};
ghost use Rattle.der_modules.specs.Asn1.{context, implicit_encoding, joined, optional, parse_of};
ghost use Rattle.der_modules.specs.Members.{field, no_fields, optional_field, struct_member};

use crate::cms::aliases::ContentType;
use der_elem::{
    ContentsEq, CopyIsDuplicate, DecodeValue, EncodeValue, Form, FormValue, OneTag, Sequence,
    SequenceTag, TagMarker, ValueOrd,
};
use der_fields::{DecodeFields, EncodeFields, FieldList, Fields3, FieldsOrd, Implicit};
use der_modules::{Member, copy_of, field_list, if_present};
use der_opaque::OctetStringRef;
use der_pkix::AlgorithmIdentifier;
use der_tlv::{BackWriter, Error, Header, Length, Source, Writer};
use std::alloc::Global;
use std::cmp::Ordering;
use std::fmt;

/// The list of the fields.
type Fields<'a> = Fields3<
    ContentType<'a>,
    AlgorithmIdentifier<'a>,
    Option<Implicit<OctetStringRef<'a>, 0>>,
>;

/// ```text
/// EncryptedContentInfo ::= SEQUENCE {
///      contentType                 ContentType,
///      contentEncryptionAlgorithm  AlgorithmIdentifier,
///      encryptedContent            [0] IMPLICIT OCTET STRING OPTIONAL }
/// ```
///
/// Reading refuses the first fault of the octets, in their order.
#[derive(Clone, Copy, PartialEq, Eq)]
pub struct EncryptedContentInfo<'a> {
    fields: Fields<'a>,
}

impl<'a> EncryptedContentInfo<'a> {
    ghost use Rattle.der_cms.specs.Cms.EncryptedContentInfo as encrypted_content_info_fields;
    ghost use Rattle.std.specs.Prelude.{option_copied};

    /// A value of these fields.
    pub fn new(
        content_type: ContentType<'a>,
        content_encryption_algorithm: &AlgorithmIdentifier<'a>,
        encrypted_content: Option<OctetStringRef<'a>>,
    ) -> EncryptedContentInfo<'a>
        ensures content_type { encrypted_content_info_fields.content_type result ≡ content_type.entry }
        ensures content_encryption_algorithm { encrypted_content_info_fields.content_encryption_algorithm result ≡ content_encryption_algorithm.now }
        ensures encrypted_content { encrypted_content_info_fields.encrypted_content result ≡ encrypted_content.entry }
    {
        let list = field_list![
            content_type,
            copy_of(content_encryption_algorithm),
            if_present!(value in encrypted_content => Implicit { value })
        ];
        let fields = Fields3 { list };
        EncryptedContentInfo { fields }
    }

    /// `contentType`, `ContentType`.
    pub fn content_type(&self) -> &ContentType<'a>
        ensures { result.now ≡ encrypted_content_info_fields.content_type self.now }
    {
        &self.fields.list.first
    }

    /// `contentEncryptionAlgorithm`, `AlgorithmIdentifier`.
    pub fn content_encryption_algorithm(&self) -> &AlgorithmIdentifier<'a>
        ensures { result.now ≡ encrypted_content_info_fields.content_encryption_algorithm self.now }
    {
        &self.fields.list.rest.first
    }

    /// `encryptedContent`, `[0] IMPLICIT OCTET STRING OPTIONAL`.
    pub fn encrypted_content(&self) -> Option<&OctetStringRef<'a>>
        ensures { option_copied result ≡ encrypted_content_info_fields.encrypted_content self.now }
    {
        if_present!(value in &self.fields.list.rest.rest.first => &value.value)
    }
}

impl<'a> fmt::Debug for EncryptedContentInfo<'a> {
    fn fmt<W: fmt::Write>(&self, f: &mut fmt::Formatter<W>) -> fmt::Result {
        f.debug_struct("EncryptedContentInfo")
            .field("content_type", self.content_type())
            .field(
                "content_encryption_algorithm",
                self.content_encryption_algorithm(),
            )
            .field("encrypted_content", &self.encrypted_content())
            .finish()
    }
}

impl<'a> OneTag for EncryptedContentInfo<'a> {
    type Marker = SequenceTag;
}

impl<'a> Sequence<'a> for EncryptedContentInfo<'a> {
    ghost is_sequence = { refl };
}

impl<'a> FormValue for EncryptedContentInfo<'a> {
    ghost value = { mapped_format (λ v. v.fields) ⟦<Fields<'a> as FieldList>⟧.list.octets };
}

impl<'a, R: Source<'a>> DecodeValue<'a, R> for EncryptedContentInfo<'a> {
    ghost TAKES_MEMORY = { false };

    const TAKES_MEMORY: bool = false;

    fn decode_value(
        alloc: Global,
        reader: &mut R,
        _header: Header,
    ) -> Result<EncryptedContentInfo<'a>, Error> {
        match Fields::<'a>::decode_fields(alloc, reader) {
            Ok(fields) => Ok(EncryptedContentInfo { fields }),
            Err(e) => Err(e),
        }
    }

    ghost takes_memory_is = { refl };
}

impl<'a> EncodeValue for EncryptedContentInfo<'a> {
    fn value_len(&self) -> Result<Length, Error> {
        self.fields.fields_len()
    }

    fn encode_value<W: Writer>(&self, writer: &mut W) -> Result<(), Error> {
        self.fields.encode_fields(writer)
    }

    fn encode_value_back<W: BackWriter>(&self, writer: &mut W) -> Result<(), Error> {
        self.fields.encode_fields_back(writer)
    }
}

impl<'a> ValueOrd for EncryptedContentInfo<'a> {
    fn value_cmp(&self, other: &EncryptedContentInfo<'a>) -> Result<Ordering, Error> {
        self.fields.cmp_fields(&other.fields)
    }
}

impl<'a> Member for EncryptedContentInfo<'a> {
    ghost member = { struct_member ⟦<SequenceTag as TagMarker>⟧.TAG (λ v. v.fields.list)
        (field ⟦<ContentType<'a> as Member>⟧.member
        (field ⟦<AlgorithmIdentifier<'a> as Member>⟧.member
        (optional_field ⟦<Implicit<OctetStringRef<'a>, 0> as Member>⟧.member
        no_fields))) };
}

impl<'a> ContentsEq for EncryptedContentInfo<'a> {
    ghost contents_eq = { ⟦<EncryptedContentInfo<'a> as Member>⟧.member.equal };
}

impl<'a> CopyIsDuplicate for EncryptedContentInfo<'a> {}

/// What is read as `EncryptedContentInfo` is what the grammar page says.
pub fn grammar_of_encrypted_content_info<'a>()
    ensures { ⟦<EncryptedContentInfo<'a> as Form>⟧.parse ≡ parse_of encrypted_content_info }
{}

/// The contents octets of `EncryptedContentInfo` are the encodings of its fields, one after
/// another.
#[tactic(auto, using(der_modules::specs::Asn1::optional_of))]
pub fn octets_of_encrypted_content_info<'a>()
    ensures { (v : EncryptedContentInfo) → ⟦<EncryptedContentInfo<'a> as FormValue>⟧.value.contents v ≡ joined (
        (⟦<ContentType<'a> as Form>⟧.encoding (encrypted_content_info_fields.content_type v))
        ∷ (⟦<AlgorithmIdentifier<'a> as Form>⟧.encoding (encrypted_content_info_fields.content_encryption_algorithm v))
        ∷ optional (λ x. (implicit_encoding context false 0 (⟦<OctetStringRef<'a> as FormValue>⟧.value.contents x))) (encrypted_content_info_fields.encrypted_content v)
        ∷ []) }
{}
