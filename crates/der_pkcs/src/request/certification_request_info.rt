//! CertificationRequestInfo, a SEQUENCE of 4 fields.
//!
//! Made by tools/asn1 from request.asn1.

ghost use Rattle.std.specs.Prelude.{◌∷◌, ◌≡◌, [], false, refl, true};
ghost use Rattle.der_elem.specs.FormatMakers.{mapped_format};
ghost use Rattle.der_modules.specs.Asn1.{context, implicit_encoding, joined, parse_of};
ghost use Rattle.der_modules.specs.Members.{field, no_fields, struct_member};
ghost use Rattle.der_pkcs.specs.Request.CertificationRequestInfo as certification_request_info_fields;
ghost use Rattle.der_pkcs.specs.Request.Grammar.{certification_request_info};
ghost use Rattle.der_pkcs.specs.declared.request.certification_request_info.CertificationRequestInfo.{CertificationRequestInfo};

use crate::request::aliases::CertificationRequestInfoVersion;
use der_elem::{
    ContentsEq, CopyIsDuplicate, DecodeValue, EncodeValue, Form, FormValue, OneTag, Sequence,
    SequenceTag, TagMarker, ValueOrd,
};
use der_fields::{DecodeFields, EncodeFields, FieldList, Fields4, FieldsOrd, Implicit};
use der_modules::{Member, copy_of, field_list};
use der_pkix::certificate::SubjectPublicKeyInfo;
use der_pkix::key::Attributes;
use der_pkix::name::Name;
use der_tlv::{BackWriter, Error, Header, Length, Source, Writer};
use std::alloc::Global;
use std::cmp::Ordering;
use std::fmt;

/// The list of the fields.
type Fields<'a> = Fields4<
    CertificationRequestInfoVersion,
    Name<'a>,
    SubjectPublicKeyInfo<'a>,
    Implicit<Attributes<'a>, 0>,
>;

/// ```text
/// CertificationRequestInfo ::= SEQUENCE {
///      version        INTEGER { v1(0) },
///      subject        Name,
///      subjectPKInfo  SubjectPublicKeyInfo,
///      attributes     [0] Attributes }
/// ```
///
/// Reading refuses the first fault of the octets, in their order.
#[derive(Clone, Copy, PartialEq, Eq)]
pub struct CertificationRequestInfo<'a> {
    fields: Fields<'a>,
}

impl<'a> CertificationRequestInfo<'a> {
    ghost use Rattle.der_pkcs.specs.Request.CertificationRequestInfo as certification_request_info_fields;

    /// A value of these fields.
    pub fn new(
        version: CertificationRequestInfoVersion,
        subject: &Name<'a>,
        subject_pk_info: &SubjectPublicKeyInfo<'a>,
        attributes: &Attributes<'a>,
    ) -> CertificationRequestInfo<'a>
        ensures version { certification_request_info_fields.version result ≡ version }
        ensures subject { certification_request_info_fields.subject result ≡ subject.now }
        ensures subject_pk_info { certification_request_info_fields.subject_pk_info result ≡ subject_pk_info.now }
        ensures attributes { certification_request_info_fields.attributes result ≡ attributes.now }
    {
        let list = field_list![
            version,
            copy_of(subject),
            copy_of(subject_pk_info),
            Implicit {
                value: copy_of(attributes)
            }
        ];
        let fields = Fields4 { list };
        CertificationRequestInfo { fields }
    }

    /// `version`, `INTEGER { v1 (0) }`.
    pub fn version(&self) -> CertificationRequestInfoVersion
        ensures { result ≡ certification_request_info_fields.version self.now }
    {
        self.fields.list.first
    }

    /// `subject`, `Name`.
    pub fn subject(&self) -> &Name<'a>
        ensures { result.now ≡ certification_request_info_fields.subject self.now }
    {
        &self.fields.list.rest.first
    }

    /// `subjectPKInfo`, `SubjectPublicKeyInfo`.
    pub fn subject_pk_info(&self) -> &SubjectPublicKeyInfo<'a>
        ensures { result.now ≡ certification_request_info_fields.subject_pk_info self.now }
    {
        &self.fields.list.rest.rest.first
    }

    /// `attributes`, `[0] Attributes`.
    pub fn attributes(&self) -> &Attributes<'a>
        ensures { result.now ≡ certification_request_info_fields.attributes self.now }
    {
        &self.fields.list.rest.rest.rest.first.value
    }
}

impl<'a> fmt::Debug for CertificationRequestInfo<'a> {
    fn fmt<W: fmt::Write>(&self, f: &mut fmt::Formatter<W>) -> fmt::Result {
        f.debug_struct("CertificationRequestInfo")
            .field("version", &self.version())
            .field("subject", self.subject())
            .field("subject_pk_info", self.subject_pk_info())
            .field("attributes", self.attributes())
            .finish()
    }
}

impl<'a> OneTag for CertificationRequestInfo<'a> {
    type Marker = SequenceTag;
}

impl<'a> Sequence<'a> for CertificationRequestInfo<'a> {
    ghost is_sequence = { refl };
}

impl<'a> FormValue for CertificationRequestInfo<'a> {
    ghost value = { mapped_format (λ v. v.fields) ⟦<Fields<'a> as FieldList>⟧.list.octets };
}

impl<'a, R: Source<'a>> DecodeValue<'a, R> for CertificationRequestInfo<'a> {
    ghost TAKES_MEMORY = { false };

    const TAKES_MEMORY: bool = false;

    fn decode_value(
        alloc: Global,
        reader: &mut R,
        _header: Header,
    ) -> Result<CertificationRequestInfo<'a>, Error> {
        match Fields::<'a>::decode_fields(alloc, reader) {
            Ok(fields) => Ok(CertificationRequestInfo { fields }),
            Err(e) => Err(e),
        }
    }

    ghost takes_memory_is = { refl };
}

impl<'a> EncodeValue for CertificationRequestInfo<'a> {
    fn value_len(&self) -> Result<Length, Error> {
        self.fields.fields_len()
    }

    fn encode_value<W: Writer>(&self, writer: &mut W) -> Result<(), Error> {
        self.fields.encode_fields(writer)
    }

    fn encode_value_back<W: BackWriter>(&self, writer: &mut W) -> Result<(), Error> {
        self.fields.encode_fields_back(writer)
    }
}

impl<'a> ValueOrd for CertificationRequestInfo<'a> {
    fn value_cmp(&self, other: &CertificationRequestInfo<'a>) -> Result<Ordering, Error> {
        self.fields.cmp_fields(&other.fields)
    }
}

impl<'a> Member for CertificationRequestInfo<'a> {
    ghost member = { struct_member ⟦<SequenceTag as TagMarker>⟧.TAG (λ v. v.fields.list)
        (field ⟦<CertificationRequestInfoVersion as Member>⟧.member
        (field ⟦<Name<'a> as Member>⟧.member
        (field ⟦<SubjectPublicKeyInfo<'a> as Member>⟧.member
        (field ⟦<Implicit<Attributes<'a>, 0> as Member>⟧.member
        no_fields)))) };
}

impl<'a> ContentsEq for CertificationRequestInfo<'a> {
    ghost contents_eq = { ⟦<CertificationRequestInfo<'a> as Member>⟧.member.equal };
}

impl<'a> CopyIsDuplicate for CertificationRequestInfo<'a> {}

/// What is read as `CertificationRequestInfo` is what the grammar page says.
pub fn grammar_of_certification_request_info<'a>()
    ensures { ⟦<CertificationRequestInfo<'a> as Form>⟧.parse ≡ parse_of certification_request_info }
{}

/// The contents octets of `CertificationRequestInfo` are the encodings of its fields, one after
/// another.
pub fn octets_of_certification_request_info<'a>()
    ensures { (v : CertificationRequestInfo) → ⟦<CertificationRequestInfo<'a> as FormValue>⟧.value.contents v ≡ joined (
        (⟦<CertificationRequestInfoVersion as Form>⟧.encoding (certification_request_info_fields.version v))
        ∷ (⟦<Name<'a> as Form>⟧.encoding (certification_request_info_fields.subject v))
        ∷ (⟦<SubjectPublicKeyInfo<'a> as Form>⟧.encoding (certification_request_info_fields.subject_pk_info v))
        ∷ (implicit_encoding context true 0 (⟦<Attributes<'a> as FormValue>⟧.value.contents (certification_request_info_fields.attributes v)))
        ∷ []) }
{}
