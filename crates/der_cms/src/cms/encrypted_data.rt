//! EncryptedData, a SEQUENCE of 3 fields.
//!
//! Made by tools/asn1 from cms.asn1.

ghost use Rattle.std.specs.Prelude.{◌∷◌, ◌≡◌, [], false, refl, true};
ghost use Rattle.der_cms.specs.Cms.EncryptedData as encrypted_data_fields;
ghost use Rattle.der_cms.specs.Cms.Grammar.{encrypted_data};
ghost use Rattle.der_cms.specs.declared.cms.encrypted_data.EncryptedData.{EncryptedData};
ghost use Rattle.der_elem.specs.FormatMakers.{mapped_format};
ghost use Rattle.der_modules.specs.Asn1.{context, implicit_encoding, joined, optional, parse_of};
ghost use Rattle.der_modules.specs.Members.{field, no_fields, optional_field, struct_member};

use crate::cms::aliases::{CmsVersion, UnprotectedAttributes};
use crate::cms::encrypted_content_info::EncryptedContentInfo;
use der_elem::{
    ContentsEq, CopyIsDuplicate, DecodeValue, EncodeValue, Form, FormValue, OneTag, Sequence,
    SequenceTag, TagMarker, ValueOrd,
};
use der_fields::{DecodeFields, EncodeFields, FieldList, Fields3, FieldsOrd, Implicit};
use der_modules::{Member, copy_of, field_list, if_present};
use der_tlv::{BackWriter, Error, Header, Length, Source, Writer};
use std::alloc::Global;
use std::cmp::Ordering;
use std::fmt;

/// The list of the fields.
type Fields<'a> = Fields3<
    CmsVersion,
    EncryptedContentInfo<'a>,
    Option<Implicit<UnprotectedAttributes<'a>, 1>>,
>;

/// ```text
/// EncryptedData ::= SEQUENCE {
///      version               CMSVersion,
///      encryptedContentInfo  EncryptedContentInfo,
///      unprotectedAttrs      [1] IMPLICIT UnprotectedAttributes OPTIONAL }
/// ```
///
/// Reading refuses the first fault of the octets, in their order.
#[derive(Clone, Copy, PartialEq, Eq)]
pub struct EncryptedData<'a> {
    fields: Fields<'a>,
}

impl<'a> EncryptedData<'a> {
    ghost use Rattle.der_cms.specs.Cms.EncryptedData as encrypted_data_fields;
    ghost use Rattle.std.specs.Prelude.{option_copied};

    /// A value of these fields.
    pub fn new(
        version: CmsVersion,
        encrypted_content_info: &EncryptedContentInfo<'a>,
        unprotected_attrs: Option<&UnprotectedAttributes<'a>>,
    ) -> EncryptedData<'a>
        ensures version { encrypted_data_fields.version result ≡ version }
        ensures encrypted_content_info { encrypted_data_fields.encrypted_content_info result ≡ encrypted_content_info.now }
        ensures unprotected_attrs { encrypted_data_fields.unprotected_attrs result ≡ option_copied unprotected_attrs.entry }
    {
        let list = field_list![
            version,
            copy_of(encrypted_content_info),
            if_present!(value in unprotected_attrs => Implicit { value: copy_of(value) })
        ];
        let fields = Fields3 { list };
        EncryptedData { fields }
    }

    /// `version`, `CMSVersion`.
    pub fn version(&self) -> CmsVersion
        ensures { result ≡ encrypted_data_fields.version self.now }
    {
        self.fields.list.first
    }

    /// `encryptedContentInfo`, `EncryptedContentInfo`.
    pub fn encrypted_content_info(&self) -> &EncryptedContentInfo<'a>
        ensures { result.now ≡ encrypted_data_fields.encrypted_content_info self.now }
    {
        &self.fields.list.rest.first
    }

    /// `unprotectedAttrs`, `[1] IMPLICIT UnprotectedAttributes OPTIONAL`.
    pub fn unprotected_attrs(&self) -> Option<&UnprotectedAttributes<'a>>
        ensures { option_copied result ≡ encrypted_data_fields.unprotected_attrs self.now }
    {
        if_present!(value in &self.fields.list.rest.rest.first => &value.value)
    }
}

impl<'a> fmt::Debug for EncryptedData<'a> {
    fn fmt<W: fmt::Write>(&self, f: &mut fmt::Formatter<W>) -> fmt::Result {
        f.debug_struct("EncryptedData")
            .field("version", &self.version())
            .field("encrypted_content_info", self.encrypted_content_info())
            .field("unprotected_attrs", &self.unprotected_attrs())
            .finish()
    }
}

impl<'a> OneTag for EncryptedData<'a> {
    type Marker = SequenceTag;
}

impl<'a> Sequence<'a> for EncryptedData<'a> {
    ghost is_sequence = { refl };
}

impl<'a> FormValue for EncryptedData<'a> {
    ghost value = { mapped_format (λ v. v.fields) ⟦<Fields<'a> as FieldList>⟧.list.octets };
}

impl<'a, R: Source<'a>> DecodeValue<'a, R> for EncryptedData<'a> {
    ghost TAKES_MEMORY = { false };

    const TAKES_MEMORY: bool = false;

    fn decode_value(
        alloc: Global,
        reader: &mut R,
        _header: Header,
    ) -> Result<EncryptedData<'a>, Error> {
        match Fields::<'a>::decode_fields(alloc, reader) {
            Ok(fields) => Ok(EncryptedData { fields }),
            Err(e) => Err(e),
        }
    }

    ghost takes_memory_is = { refl };
}

impl<'a> EncodeValue for EncryptedData<'a> {
    fn value_len(&self) -> Result<Length, Error> {
        self.fields.fields_len()
    }

    fn encode_value<W: Writer>(&self, writer: &mut W) -> Result<(), Error> {
        self.fields.encode_fields(writer)
    }

    fn encode_value_back<W: BackWriter>(&self, writer: &mut W) -> Result<(), Error> {
        self.fields.encode_fields_back(writer)
    }
}

impl<'a> ValueOrd for EncryptedData<'a> {
    fn value_cmp(&self, other: &EncryptedData<'a>) -> Result<Ordering, Error> {
        self.fields.cmp_fields(&other.fields)
    }
}

impl<'a> Member for EncryptedData<'a> {
    ghost member = { struct_member ⟦<SequenceTag as TagMarker>⟧.TAG (λ v. v.fields.list)
        (field ⟦<CmsVersion as Member>⟧.member
        (field ⟦<EncryptedContentInfo<'a> as Member>⟧.member
        (optional_field ⟦<Implicit<UnprotectedAttributes<'a>, 1> as Member>⟧.member
        no_fields))) };
}

impl<'a> ContentsEq for EncryptedData<'a> {
    ghost contents_eq = { ⟦<EncryptedData<'a> as Member>⟧.member.equal };
}

impl<'a> CopyIsDuplicate for EncryptedData<'a> {}

/// What is read as `EncryptedData` is what the grammar page says.
pub fn grammar_of_encrypted_data<'a>()
    ensures { ⟦<EncryptedData<'a> as Form>⟧.parse ≡ parse_of encrypted_data }
{}

/// The contents octets of `EncryptedData` are the encodings of its fields, one after another.
#[tactic(auto, using(der_modules::specs::Asn1::optional_of))]
pub fn octets_of_encrypted_data<'a>()
    ensures { (v : EncryptedData) → ⟦<EncryptedData<'a> as FormValue>⟧.value.contents v ≡ joined (
        (⟦<CmsVersion as Form>⟧.encoding (encrypted_data_fields.version v))
        ∷ (⟦<EncryptedContentInfo<'a> as Form>⟧.encoding (encrypted_data_fields.encrypted_content_info v))
        ∷ optional (λ x. (implicit_encoding context true 1 (⟦<UnprotectedAttributes<'a> as FormValue>⟧.value.contents x))) (encrypted_data_fields.unprotected_attrs v)
        ∷ []) }
{}
