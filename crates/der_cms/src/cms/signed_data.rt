//! SignedData, a SEQUENCE of 6 fields.
//!
//! Made by tools/asn1 from cms.asn1.

ghost use Rattle.std.specs.Prelude.{◌∷◌, ◌≡◌, [], false, refl, true};
ghost use Rattle.der_cms.specs.Cms.Grammar.{signed_data};
ghost use Rattle.der_cms.specs.Cms.SignedData as signed_data_fields;
ghost use Rattle.der_cms.specs.declared.cms.signed_data.SignedData.{SignedData};
ghost use Rattle.der_elem.specs.FormatMakers.{mapped_format};
ghost use Rattle.der_modules.specs.Asn1.{context, implicit_encoding, joined, optional, parse_of};
ghost use Rattle.der_modules.specs.Members.{field, no_fields, optional_field, struct_member};

use crate::cms::aliases::CmsVersion;
use crate::cms::certificate_set::CertificateSet;
use crate::cms::encapsulated_content_info::EncapsulatedContentInfo;
use crate::cms::revocation_info_choices::RevocationInfoChoices;
use crate::cms::signer_info::SignerInfo;
use der_elem::{
    ContentsEq, CopyIsDuplicate, DecodeValue, EncodeValue, Form, FormValue, OneTag, Sequence,
    SequenceTag, TagMarker, ValueOrd,
};
use der_fields::{DecodeFields, EncodeFields, FieldList, Fields6, FieldsOrd, Implicit};
use der_lists::UnorderedSetRef;
use der_modules::{Member, copy_of, field_list, if_present};
use der_pkix::AlgorithmIdentifier;
use der_tlv::{BackWriter, Error, Header, Length, Source, Writer};
use std::alloc::Global;
use std::cmp::Ordering;
use std::fmt;

/// The list of the fields.
type Fields<'a> = Fields6<
    CmsVersion,
    UnorderedSetRef<'a, AlgorithmIdentifier<'a>>,
    EncapsulatedContentInfo<'a>,
    Option<Implicit<CertificateSet<'a>, 0>>,
    Option<Implicit<RevocationInfoChoices<'a>, 1>>,
    UnorderedSetRef<'a, SignerInfo<'a>>,
>;

/// ```text
/// SignedData ::= SEQUENCE {
///      version           CMSVersion,
///      digestAlgorithms  SET OF AlgorithmIdentifier,
///      encapContentInfo  EncapsulatedContentInfo,
///      certificates      [0] IMPLICIT CertificateSet OPTIONAL,
///      crls              [1] IMPLICIT RevocationInfoChoices OPTIONAL,
///      signerInfos       SET OF SignerInfo
/// }
/// ```
///
/// Reading refuses the first fault of the octets, in their order.
#[derive(Clone, Copy, PartialEq, Eq)]
pub struct SignedData<'a> {
    fields: Fields<'a>,
}

impl<'a> SignedData<'a> {
    ghost use Rattle.der_cms.specs.Cms.SignedData as signed_data_fields;
    ghost use Rattle.std.specs.Prelude.{option_copied};

    /// A value of these fields.
    pub fn new(
        version: CmsVersion,
        digest_algorithms: &UnorderedSetRef<'a, AlgorithmIdentifier<'a>>,
        encap_content_info: &EncapsulatedContentInfo<'a>,
        certificates: Option<&CertificateSet<'a>>,
        crls: Option<&RevocationInfoChoices<'a>>,
        signer_infos: &UnorderedSetRef<'a, SignerInfo<'a>>,
    ) -> SignedData<'a>
        ensures version { signed_data_fields.version result ≡ version }
        ensures digest_algorithms { signed_data_fields.digest_algorithms result ≡ digest_algorithms.now }
        ensures encap_content_info { signed_data_fields.encap_content_info result ≡ encap_content_info.now }
        ensures certificates { signed_data_fields.certificates result ≡ option_copied certificates.entry }
        ensures crls { signed_data_fields.crls result ≡ option_copied crls.entry }
        ensures signer_infos { signed_data_fields.signer_infos result ≡ signer_infos.now }
    {
        let list = field_list![
            version,
            copy_of(digest_algorithms),
            copy_of(encap_content_info),
            if_present!(value in certificates => Implicit { value: copy_of(value) }),
            if_present!(value in crls => Implicit { value: copy_of(value) }),
            copy_of(signer_infos)
        ];
        let fields = Fields6 { list };
        SignedData { fields }
    }

    /// `version`, `CMSVersion`.
    pub fn version(&self) -> CmsVersion
        ensures { result ≡ signed_data_fields.version self.now }
    {
        self.fields.list.first
    }

    /// `digestAlgorithms`, `SET OF AlgorithmIdentifier`.
    pub fn digest_algorithms(&self) -> &UnorderedSetRef<'a, AlgorithmIdentifier<'a>>
        ensures { result.now ≡ signed_data_fields.digest_algorithms self.now }
    {
        &self.fields.list.rest.first
    }

    /// `encapContentInfo`, `EncapsulatedContentInfo`.
    pub fn encap_content_info(&self) -> &EncapsulatedContentInfo<'a>
        ensures { result.now ≡ signed_data_fields.encap_content_info self.now }
    {
        &self.fields.list.rest.rest.first
    }

    /// `certificates`, `[0] IMPLICIT CertificateSet OPTIONAL`.
    pub fn certificates(&self) -> Option<&CertificateSet<'a>>
        ensures { option_copied result ≡ signed_data_fields.certificates self.now }
    {
        if_present!(value in &self.fields.list.rest.rest.rest.first => &value.value)
    }

    /// `crls`, `[1] IMPLICIT RevocationInfoChoices OPTIONAL`.
    pub fn crls(&self) -> Option<&RevocationInfoChoices<'a>>
        ensures { option_copied result ≡ signed_data_fields.crls self.now }
    {
        if_present!(value in &self.fields.list.rest.rest.rest.rest.first => &value.value)
    }

    /// `signerInfos`, `SET OF SignerInfo`.
    pub fn signer_infos(&self) -> &UnorderedSetRef<'a, SignerInfo<'a>>
        ensures { result.now ≡ signed_data_fields.signer_infos self.now }
    {
        &self.fields.list.rest.rest.rest.rest.rest.first
    }
}

impl<'a> fmt::Debug for SignedData<'a> {
    fn fmt<W: fmt::Write>(&self, f: &mut fmt::Formatter<W>) -> fmt::Result {
        f.debug_struct("SignedData")
            .field("version", &self.version())
            .field("digest_algorithms", self.digest_algorithms())
            .field("encap_content_info", self.encap_content_info())
            .field("certificates", &self.certificates())
            .field("crls", &self.crls())
            .field("signer_infos", self.signer_infos())
            .finish()
    }
}

impl<'a> OneTag for SignedData<'a> {
    type Marker = SequenceTag;
}

impl<'a> Sequence<'a> for SignedData<'a> {
    ghost is_sequence = { refl };
}

impl<'a> FormValue for SignedData<'a> {
    ghost value = { mapped_format (λ v. v.fields) ⟦<Fields<'a> as FieldList>⟧.list.octets };
}

impl<'a, R: Source<'a>> DecodeValue<'a, R> for SignedData<'a> {
    ghost TAKES_MEMORY = { false };

    const TAKES_MEMORY: bool = false;

    fn decode_value(
        alloc: Global,
        reader: &mut R,
        _header: Header,
    ) -> Result<SignedData<'a>, Error> {
        match Fields::<'a>::decode_fields(alloc, reader) {
            Ok(fields) => Ok(SignedData { fields }),
            Err(e) => Err(e),
        }
    }

    ghost takes_memory_is = { refl };
}

impl<'a> EncodeValue for SignedData<'a> {
    fn value_len(&self) -> Result<Length, Error> {
        self.fields.fields_len()
    }

    fn encode_value<W: Writer>(&self, writer: &mut W) -> Result<(), Error> {
        self.fields.encode_fields(writer)
    }

    fn encode_value_back<W: BackWriter>(&self, writer: &mut W) -> Result<(), Error> {
        self.fields.encode_fields_back(writer)
    }
}

impl<'a> ValueOrd for SignedData<'a> {
    fn value_cmp(&self, other: &SignedData<'a>) -> Result<Ordering, Error> {
        self.fields.cmp_fields(&other.fields)
    }
}

impl<'a> Member for SignedData<'a> {
    ghost member = { struct_member ⟦<SequenceTag as TagMarker>⟧.TAG (λ v. v.fields.list)
        (field ⟦<CmsVersion as Member>⟧.member
        (field ⟦<UnorderedSetRef<'a, AlgorithmIdentifier<'a>> as Member>⟧.member
        (field ⟦<EncapsulatedContentInfo<'a> as Member>⟧.member
        (optional_field ⟦<Implicit<CertificateSet<'a>, 0> as Member>⟧.member
        (optional_field ⟦<Implicit<RevocationInfoChoices<'a>, 1> as Member>⟧.member
        (field ⟦<UnorderedSetRef<'a, SignerInfo<'a>> as Member>⟧.member
        no_fields)))))) };
}

impl<'a> ContentsEq for SignedData<'a> {
    ghost contents_eq = { ⟦<SignedData<'a> as Member>⟧.member.equal };
}

impl<'a> CopyIsDuplicate for SignedData<'a> {}

/// What is read as `SignedData` is what the grammar page says.
pub fn grammar_of_signed_data<'a>()
    ensures { ⟦<SignedData<'a> as Form>⟧.parse ≡ parse_of signed_data }
{}

/// The contents octets of `SignedData` are the encodings of its fields, one after another.
#[tactic(auto, using(der_modules::specs::Asn1::optional_of))]
pub fn octets_of_signed_data<'a>()
    ensures { (v : SignedData) → ⟦<SignedData<'a> as FormValue>⟧.value.contents v ≡ joined (
        (⟦<CmsVersion as Form>⟧.encoding (signed_data_fields.version v))
        ∷ (⟦<UnorderedSetRef<'a, AlgorithmIdentifier<'a>> as Form>⟧.encoding (signed_data_fields.digest_algorithms v))
        ∷ (⟦<EncapsulatedContentInfo<'a> as Form>⟧.encoding (signed_data_fields.encap_content_info v))
        ∷ optional (λ x. (implicit_encoding context true 0 (⟦<CertificateSet<'a> as FormValue>⟧.value.contents x))) (signed_data_fields.certificates v)
        ∷ optional (λ x. (implicit_encoding context true 1 (⟦<RevocationInfoChoices<'a> as FormValue>⟧.value.contents x))) (signed_data_fields.crls v)
        ∷ (⟦<UnorderedSetRef<'a, SignerInfo<'a>> as Form>⟧.encoding (signed_data_fields.signer_infos v))
        ∷ []) }
{}
