//! EnvelopedData, a SEQUENCE of 5 fields.
//!
//! Made by tools/asn1 from enveloped.asn1.

ghost use Rattle.std.specs.Prelude.{◌∷◌, ◌≡◌, [], false, refl, true};
ghost use Rattle.der_elem.specs.FormatMakers.{mapped_format};
ghost use Rattle.der_enveloped.specs.Enveloped.EnvelopedData as enveloped_data_fields;
ghost use Rattle.der_enveloped.specs.Enveloped.Grammar.{enveloped_data};
ghost use Rattle.der_enveloped.specs.declared.enveloped.enveloped_data.EnvelopedData.{EnvelopedData};
ghost use Rattle.der_modules.specs.Asn1.{context, implicit_encoding, joined, optional, parse_of};
ghost use Rattle.der_modules.specs.Members.{field, no_fields, optional_field, struct_member};

use crate::enveloped::originator_info::OriginatorInfo;
use crate::enveloped::recipient_infos::RecipientInfos;
use der_cms::cms::{CmsVersion, EncryptedContentInfo, UnprotectedAttributes};
use der_elem::{
    ContentsEq, CopyIsDuplicate, DecodeValue, EncodeValue, Form, FormValue, OneTag, Sequence,
    SequenceTag, TagMarker, ValueOrd,
};
use der_fields::{DecodeFields, EncodeFields, FieldList, Fields5, FieldsOrd, Implicit};
use der_modules::{Member, copy_of, field_list, if_present};
use der_tlv::{BackWriter, Error, Header, Length, Source, Writer};
use std::alloc::Global;
use std::cmp::Ordering;
use std::fmt;

/// The list of the fields.
type Fields<'a> = Fields5<
    CmsVersion,
    Option<Implicit<OriginatorInfo<'a>, 0>>,
    RecipientInfos<'a>,
    EncryptedContentInfo<'a>,
    Option<Implicit<UnprotectedAttributes<'a>, 1>>,
>;

/// ```text
/// EnvelopedData ::= SEQUENCE {
///      version               CMSVersion,
///      originatorInfo        [0] IMPLICIT OriginatorInfo OPTIONAL,
///      recipientInfos        RecipientInfos,
///      encryptedContentInfo  EncryptedContentInfo,
///      unprotectedAttrs      [1] IMPLICIT UnprotectedAttributes OPTIONAL }
/// ```
///
/// Reading refuses the first fault of the octets, in their order.
#[derive(Clone, Copy, PartialEq, Eq)]
pub struct EnvelopedData<'a> {
    fields: Fields<'a>,
}

impl<'a> EnvelopedData<'a> {
    ghost use Rattle.der_enveloped.specs.Enveloped.EnvelopedData as enveloped_data_fields;
    ghost use Rattle.std.specs.Prelude.{option_copied};

    /// A value of these fields.
    pub fn new(
        version: CmsVersion,
        originator_info: Option<&OriginatorInfo<'a>>,
        recipient_infos: &RecipientInfos<'a>,
        encrypted_content_info: &EncryptedContentInfo<'a>,
        unprotected_attrs: Option<&UnprotectedAttributes<'a>>,
    ) -> EnvelopedData<'a>
        ensures version { enveloped_data_fields.version result ≡ version }
        ensures originator_info { enveloped_data_fields.originator_info result ≡ option_copied originator_info.entry }
        ensures recipient_infos { enveloped_data_fields.recipient_infos result ≡ recipient_infos.now }
        ensures encrypted_content_info { enveloped_data_fields.encrypted_content_info result ≡ encrypted_content_info.now }
        ensures unprotected_attrs { enveloped_data_fields.unprotected_attrs result ≡ option_copied unprotected_attrs.entry }
    {
        let list = field_list![
            version,
            if_present!(value in originator_info => Implicit { value: copy_of(value) }),
            copy_of(recipient_infos),
            copy_of(encrypted_content_info),
            if_present!(value in unprotected_attrs => Implicit { value: copy_of(value) })
        ];
        let fields = Fields5 { list };
        EnvelopedData { fields }
    }

    /// `version`, `CMSVersion`.
    pub fn version(&self) -> CmsVersion
        ensures { result ≡ enveloped_data_fields.version self.now }
    {
        self.fields.list.first
    }

    /// `originatorInfo`, `[0] IMPLICIT OriginatorInfo OPTIONAL`.
    pub fn originator_info(&self) -> Option<&OriginatorInfo<'a>>
        ensures { option_copied result ≡ enveloped_data_fields.originator_info self.now }
    {
        if_present!(value in &self.fields.list.rest.first => &value.value)
    }

    /// `recipientInfos`, `RecipientInfos`.
    pub fn recipient_infos(&self) -> &RecipientInfos<'a>
        ensures { result.now ≡ enveloped_data_fields.recipient_infos self.now }
    {
        &self.fields.list.rest.rest.first
    }

    /// `encryptedContentInfo`, `EncryptedContentInfo`.
    pub fn encrypted_content_info(&self) -> &EncryptedContentInfo<'a>
        ensures { result.now ≡ enveloped_data_fields.encrypted_content_info self.now }
    {
        &self.fields.list.rest.rest.rest.first
    }

    /// `unprotectedAttrs`, `[1] IMPLICIT UnprotectedAttributes OPTIONAL`.
    pub fn unprotected_attrs(&self) -> Option<&UnprotectedAttributes<'a>>
        ensures { option_copied result ≡ enveloped_data_fields.unprotected_attrs self.now }
    {
        if_present!(value in &self.fields.list.rest.rest.rest.rest.first => &value.value)
    }
}

impl<'a> fmt::Debug for EnvelopedData<'a> {
    fn fmt<W: fmt::Write>(&self, f: &mut fmt::Formatter<W>) -> fmt::Result {
        f.debug_struct("EnvelopedData")
            .field("version", &self.version())
            .field("originator_info", &self.originator_info())
            .field("recipient_infos", self.recipient_infos())
            .field("encrypted_content_info", self.encrypted_content_info())
            .field("unprotected_attrs", &self.unprotected_attrs())
            .finish()
    }
}

impl<'a> OneTag for EnvelopedData<'a> {
    type Marker = SequenceTag;
}

impl<'a> Sequence<'a> for EnvelopedData<'a> {
    ghost is_sequence = { refl };
}

impl<'a> FormValue for EnvelopedData<'a> {
    ghost value = { mapped_format (λ v. v.fields) ⟦<Fields<'a> as FieldList>⟧.list.octets };
}

impl<'a, R: Source<'a>> DecodeValue<'a, R> for EnvelopedData<'a> {
    ghost TAKES_MEMORY = { false };

    const TAKES_MEMORY: bool = false;

    fn decode_value(
        alloc: Global,
        reader: &mut R,
        _header: Header,
    ) -> Result<EnvelopedData<'a>, Error> {
        match Fields::<'a>::decode_fields(alloc, reader) {
            Ok(fields) => Ok(EnvelopedData { fields }),
            Err(e) => Err(e),
        }
    }

    ghost takes_memory_is = { refl };
}

impl<'a> EncodeValue for EnvelopedData<'a> {
    fn value_len(&self) -> Result<Length, Error> {
        self.fields.fields_len()
    }

    fn encode_value<W: Writer>(&self, writer: &mut W) -> Result<(), Error> {
        self.fields.encode_fields(writer)
    }

    fn encode_value_back<W: BackWriter>(&self, writer: &mut W) -> Result<(), Error> {
        self.fields.encode_fields_back(writer)
    }
}

impl<'a> ValueOrd for EnvelopedData<'a> {
    fn value_cmp(&self, other: &EnvelopedData<'a>) -> Result<Ordering, Error> {
        self.fields.cmp_fields(&other.fields)
    }
}

impl<'a> Member for EnvelopedData<'a> {
    ghost member = { struct_member ⟦<SequenceTag as TagMarker>⟧.TAG (λ v. v.fields.list)
        (field ⟦<CmsVersion as Member>⟧.member
        (optional_field ⟦<Implicit<OriginatorInfo<'a>, 0> as Member>⟧.member
        (field ⟦<RecipientInfos<'a> as Member>⟧.member
        (field ⟦<EncryptedContentInfo<'a> as Member>⟧.member
        (optional_field ⟦<Implicit<UnprotectedAttributes<'a>, 1> as Member>⟧.member
        no_fields))))) };
}

impl<'a> ContentsEq for EnvelopedData<'a> {
    ghost contents_eq = { ⟦<EnvelopedData<'a> as Member>⟧.member.equal };
}

impl<'a> CopyIsDuplicate for EnvelopedData<'a> {}

/// What is read as `EnvelopedData` is what the grammar page says.
pub fn grammar_of_enveloped_data<'a>()
    ensures { ⟦<EnvelopedData<'a> as Form>⟧.parse ≡ parse_of enveloped_data }
{}

/// The contents octets of `EnvelopedData` are the encodings of its fields, one after another.
#[tactic(auto, using(der_modules::specs::Asn1::optional_of))]
pub fn octets_of_enveloped_data<'a>()
    ensures { (v : EnvelopedData) → ⟦<EnvelopedData<'a> as FormValue>⟧.value.contents v ≡ joined (
        (⟦<CmsVersion as Form>⟧.encoding (enveloped_data_fields.version v))
        ∷ optional (λ x. (implicit_encoding context true 0 (⟦<OriginatorInfo<'a> as FormValue>⟧.value.contents x))) (enveloped_data_fields.originator_info v)
        ∷ (⟦<RecipientInfos<'a> as Form>⟧.encoding (enveloped_data_fields.recipient_infos v))
        ∷ (⟦<EncryptedContentInfo<'a> as Form>⟧.encoding (enveloped_data_fields.encrypted_content_info v))
        ∷ optional (λ x. (implicit_encoding context true 1 (⟦<UnprotectedAttributes<'a> as FormValue>⟧.value.contents x))) (enveloped_data_fields.unprotected_attrs v)
        ∷ []) }
{}
