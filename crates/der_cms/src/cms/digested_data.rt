//! DigestedData, a SEQUENCE of 4 fields.
//!
//! Made by tools/asn1 from cms.asn1.

ghost use Rattle.std.specs.Prelude.{◌∷◌, ◌≡◌, [], false, refl};
ghost use Rattle.der_cms.specs.Cms.DigestedData as digested_data_fields;
ghost use Rattle.der_cms.specs.Cms.Grammar.{digested_data};
ghost use Rattle.der_cms.specs.declared.cms.digested_data.DigestedData.{DigestedData};
ghost use Rattle.der_elem.specs.FormatMakers.{mapped_format};
ghost use Rattle.der_modules.specs.Asn1.{joined, parse_of};
ghost use Rattle.der_modules.specs.Members.{field, no_fields, struct_member};

use crate::cms::aliases::CmsVersion;
use crate::cms::encapsulated_content_info::EncapsulatedContentInfo;
use der_elem::{
    ContentsEq, CopyIsDuplicate, DecodeValue, EncodeValue, Form, FormValue, OneTag, Sequence,
    SequenceTag, TagMarker, ValueOrd,
};
use der_fields::{DecodeFields, EncodeFields, FieldList, Fields4, FieldsOrd};
use der_modules::{Member, copy_of, field_list};
use der_opaque::OctetStringRef;
use der_pkix::AlgorithmIdentifier;
use der_tlv::{BackWriter, Error, Header, Length, Source, Writer};
use std::alloc::Global;
use std::cmp::Ordering;
use std::fmt;

/// The list of the fields.
type Fields<'a> = Fields4<
    CmsVersion,
    AlgorithmIdentifier<'a>,
    EncapsulatedContentInfo<'a>,
    OctetStringRef<'a>,
>;

/// ```text
/// DigestedData ::= SEQUENCE {
///      version           CMSVersion,
///      digestAlgorithm   AlgorithmIdentifier,
///      encapContentInfo  EncapsulatedContentInfo,
///      digest            OCTET STRING }
/// ```
///
/// Reading refuses the first fault of the octets, in their order.
#[derive(Clone, Copy, PartialEq, Eq)]
pub struct DigestedData<'a> {
    fields: Fields<'a>,
}

impl<'a> DigestedData<'a> {
    ghost use Rattle.der_cms.specs.Cms.DigestedData as digested_data_fields;

    /// A value of these fields.
    pub fn new(
        version: CmsVersion,
        digest_algorithm: &AlgorithmIdentifier<'a>,
        encap_content_info: &EncapsulatedContentInfo<'a>,
        digest: OctetStringRef<'a>,
    ) -> DigestedData<'a>
        ensures version { digested_data_fields.version result ≡ version }
        ensures digest_algorithm { digested_data_fields.digest_algorithm result ≡ digest_algorithm.now }
        ensures encap_content_info { digested_data_fields.encap_content_info result ≡ encap_content_info.now }
        ensures digest { digested_data_fields.digest result ≡ digest.entry }
    {
        let list = field_list![
            version,
            copy_of(digest_algorithm),
            copy_of(encap_content_info),
            digest
        ];
        let fields = Fields4 { list };
        DigestedData { fields }
    }

    /// `version`, `CMSVersion`.
    pub fn version(&self) -> CmsVersion
        ensures { result ≡ digested_data_fields.version self.now }
    {
        self.fields.list.first
    }

    /// `digestAlgorithm`, `AlgorithmIdentifier`.
    pub fn digest_algorithm(&self) -> &AlgorithmIdentifier<'a>
        ensures { result.now ≡ digested_data_fields.digest_algorithm self.now }
    {
        &self.fields.list.rest.first
    }

    /// `encapContentInfo`, `EncapsulatedContentInfo`.
    pub fn encap_content_info(&self) -> &EncapsulatedContentInfo<'a>
        ensures { result.now ≡ digested_data_fields.encap_content_info self.now }
    {
        &self.fields.list.rest.rest.first
    }

    /// `digest`, `OCTET STRING`.
    pub fn digest(&self) -> &OctetStringRef<'a>
        ensures { result.now ≡ digested_data_fields.digest self.now }
    {
        &self.fields.list.rest.rest.rest.first
    }
}

impl<'a> fmt::Debug for DigestedData<'a> {
    fn fmt<W: fmt::Write>(&self, f: &mut fmt::Formatter<W>) -> fmt::Result {
        f.debug_struct("DigestedData")
            .field("version", &self.version())
            .field("digest_algorithm", self.digest_algorithm())
            .field("encap_content_info", self.encap_content_info())
            .field("digest", self.digest())
            .finish()
    }
}

impl<'a> OneTag for DigestedData<'a> {
    type Marker = SequenceTag;
}

impl<'a> Sequence<'a> for DigestedData<'a> {
    ghost is_sequence = { refl };
}

impl<'a> FormValue for DigestedData<'a> {
    ghost value = { mapped_format (λ v. v.fields) ⟦<Fields<'a> as FieldList>⟧.list.octets };
}

impl<'a, R: Source<'a>> DecodeValue<'a, R> for DigestedData<'a> {
    ghost TAKES_MEMORY = { false };

    const TAKES_MEMORY: bool = false;

    fn decode_value(
        alloc: Global,
        reader: &mut R,
        _header: Header,
    ) -> Result<DigestedData<'a>, Error> {
        match Fields::<'a>::decode_fields(alloc, reader) {
            Ok(fields) => Ok(DigestedData { fields }),
            Err(e) => Err(e),
        }
    }

    ghost takes_memory_is = { refl };
}

impl<'a> EncodeValue for DigestedData<'a> {
    fn value_len(&self) -> Result<Length, Error> {
        self.fields.fields_len()
    }

    fn encode_value<W: Writer>(&self, writer: &mut W) -> Result<(), Error> {
        self.fields.encode_fields(writer)
    }

    fn encode_value_back<W: BackWriter>(&self, writer: &mut W) -> Result<(), Error> {
        self.fields.encode_fields_back(writer)
    }
}

impl<'a> ValueOrd for DigestedData<'a> {
    fn value_cmp(&self, other: &DigestedData<'a>) -> Result<Ordering, Error> {
        self.fields.cmp_fields(&other.fields)
    }
}

impl<'a> Member for DigestedData<'a> {
    ghost member = { struct_member ⟦<SequenceTag as TagMarker>⟧.TAG (λ v. v.fields.list)
        (field ⟦<CmsVersion as Member>⟧.member
        (field ⟦<AlgorithmIdentifier<'a> as Member>⟧.member
        (field ⟦<EncapsulatedContentInfo<'a> as Member>⟧.member
        (field ⟦<OctetStringRef<'a> as Member>⟧.member
        no_fields)))) };
}

impl<'a> ContentsEq for DigestedData<'a> {
    ghost contents_eq = { ⟦<DigestedData<'a> as Member>⟧.member.equal };
}

impl<'a> CopyIsDuplicate for DigestedData<'a> {}

/// What is read as `DigestedData` is what the grammar page says.
pub fn grammar_of_digested_data<'a>()
    ensures { ⟦<DigestedData<'a> as Form>⟧.parse ≡ parse_of digested_data }
{}

/// The contents octets of `DigestedData` are the encodings of its fields, one after another.
pub fn octets_of_digested_data<'a>()
    ensures { (v : DigestedData) → ⟦<DigestedData<'a> as FormValue>⟧.value.contents v ≡ joined (
        (⟦<CmsVersion as Form>⟧.encoding (digested_data_fields.version v))
        ∷ (⟦<AlgorithmIdentifier<'a> as Form>⟧.encoding (digested_data_fields.digest_algorithm v))
        ∷ (⟦<EncapsulatedContentInfo<'a> as Form>⟧.encoding (digested_data_fields.encap_content_info v))
        ∷ (⟦<OctetStringRef<'a> as Form>⟧.encoding (digested_data_fields.digest v))
        ∷ []) }
{}
