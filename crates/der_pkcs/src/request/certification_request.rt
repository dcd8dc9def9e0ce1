//! CertificationRequest, a SEQUENCE of 3 fields.
//!
//! Made by tools/asn1 from request.asn1.

ghost use Rattle.std.specs.Prelude.{◌∷◌, ◌≡◌, [], false, refl};
ghost use Rattle.der_elem.specs.FormatMakers.{mapped_format};
ghost use Rattle.der_modules.specs.Asn1.{joined, parse_of};
ghost use Rattle.der_modules.specs.Members.{field, no_fields, struct_member};
ghost use Rattle.der_pkcs.specs.Request.CertificationRequest as certification_request_fields;
ghost use Rattle.der_pkcs.specs.Request.Grammar.{certification_request};
ghost use Rattle.der_pkcs.specs.declared.request.certification_request.CertificationRequest.{CertificationRequest};

use crate::request::certification_request_info::CertificationRequestInfo;
use der_bits::BitStringRef;
use der_elem::{
    ContentsEq, CopyIsDuplicate, DecodeValue, EncodeValue, Form, FormValue, OneTag, Sequence,
    SequenceTag, TagMarker, ValueOrd,
};
use der_fields::{DecodeFields, EncodeFields, FieldList, Fields3, FieldsOrd};
use der_modules::{Member, copy_of, field_list};
use der_pkix::AlgorithmIdentifier;
use der_tlv::{BackWriter, Error, Header, Length, Source, Writer};
use std::alloc::Global;
use std::cmp::Ordering;
use std::fmt;

/// The list of the fields.
type Fields<'a> = Fields3<CertificationRequestInfo<'a>, AlgorithmIdentifier<'a>, BitStringRef<'a>>;

/// ```text
/// CertificationRequest ::= SEQUENCE {
///      certificationRequestInfo  CertificationRequestInfo,
///      signatureAlgorithm        AlgorithmIdentifier,
///      signature                 BIT STRING }
/// ```
///
/// Reading refuses the first fault of the octets, in their order.
#[derive(Clone, Copy, PartialEq, Eq)]
pub struct CertificationRequest<'a> {
    fields: Fields<'a>,
}

impl<'a> CertificationRequest<'a> {
    ghost use Rattle.der_pkcs.specs.Request.CertificationRequest as certification_request_fields;

    /// A value of these fields.
    pub fn new(
        certification_request_info: &CertificationRequestInfo<'a>,
        signature_algorithm: &AlgorithmIdentifier<'a>,
        signature: BitStringRef<'a>,
    ) -> CertificationRequest<'a>
        ensures certification_request_info { certification_request_fields.certification_request_info result ≡ certification_request_info.now }
        ensures signature_algorithm { certification_request_fields.signature_algorithm result ≡ signature_algorithm.now }
        ensures signature { certification_request_fields.signature result ≡ signature.entry }
    {
        let list = field_list![
            copy_of(certification_request_info),
            copy_of(signature_algorithm),
            signature
        ];
        let fields = Fields3 { list };
        CertificationRequest { fields }
    }

    /// `certificationRequestInfo`, `CertificationRequestInfo`.
    pub fn certification_request_info(&self) -> &CertificationRequestInfo<'a>
        ensures { result.now ≡ certification_request_fields.certification_request_info self.now }
    {
        &self.fields.list.first
    }

    /// `signatureAlgorithm`, `AlgorithmIdentifier`.
    pub fn signature_algorithm(&self) -> &AlgorithmIdentifier<'a>
        ensures { result.now ≡ certification_request_fields.signature_algorithm self.now }
    {
        &self.fields.list.rest.first
    }

    /// `signature`, `BIT STRING`.
    pub fn signature(&self) -> &BitStringRef<'a>
        ensures { result.now ≡ certification_request_fields.signature self.now }
    {
        &self.fields.list.rest.rest.first
    }
}

impl<'a> fmt::Debug for CertificationRequest<'a> {
    fn fmt<W: fmt::Write>(&self, f: &mut fmt::Formatter<W>) -> fmt::Result {
        f.debug_struct("CertificationRequest")
            .field(
                "certification_request_info",
                self.certification_request_info(),
            )
            .field("signature_algorithm", self.signature_algorithm())
            .field("signature", self.signature())
            .finish()
    }
}

impl<'a> OneTag for CertificationRequest<'a> {
    type Marker = SequenceTag;
}

impl<'a> Sequence<'a> for CertificationRequest<'a> {
    ghost is_sequence = { refl };
}

impl<'a> FormValue for CertificationRequest<'a> {
    ghost value = { mapped_format (λ v. v.fields) ⟦<Fields<'a> as FieldList>⟧.list.octets };
}

impl<'a, R: Source<'a>> DecodeValue<'a, R> for CertificationRequest<'a> {
    ghost TAKES_MEMORY = { false };

    const TAKES_MEMORY: bool = false;

    fn decode_value(
        alloc: Global,
        reader: &mut R,
        _header: Header,
    ) -> Result<CertificationRequest<'a>, Error> {
        match Fields::<'a>::decode_fields(alloc, reader) {
            Ok(fields) => Ok(CertificationRequest { fields }),
            Err(e) => Err(e),
        }
    }

    ghost takes_memory_is = { refl };
}

impl<'a> EncodeValue for CertificationRequest<'a> {
    fn value_len(&self) -> Result<Length, Error> {
        self.fields.fields_len()
    }

    fn encode_value<W: Writer>(&self, writer: &mut W) -> Result<(), Error> {
        self.fields.encode_fields(writer)
    }

    fn encode_value_back<W: BackWriter>(&self, writer: &mut W) -> Result<(), Error> {
        self.fields.encode_fields_back(writer)
    }
}

impl<'a> ValueOrd for CertificationRequest<'a> {
    fn value_cmp(&self, other: &CertificationRequest<'a>) -> Result<Ordering, Error> {
        self.fields.cmp_fields(&other.fields)
    }
}

impl<'a> Member for CertificationRequest<'a> {
    ghost member = { struct_member ⟦<SequenceTag as TagMarker>⟧.TAG (λ v. v.fields.list)
        (field ⟦<CertificationRequestInfo<'a> as Member>⟧.member
        (field ⟦<AlgorithmIdentifier<'a> as Member>⟧.member
        (field ⟦<BitStringRef<'a> as Member>⟧.member
        no_fields))) };
}

impl<'a> ContentsEq for CertificationRequest<'a> {
    ghost contents_eq = { ⟦<CertificationRequest<'a> as Member>⟧.member.equal };
}

impl<'a> CopyIsDuplicate for CertificationRequest<'a> {}

/// What is read as `CertificationRequest` is what the grammar page says.
pub fn grammar_of_certification_request<'a>()
    ensures { ⟦<CertificationRequest<'a> as Form>⟧.parse ≡ parse_of certification_request }
{}

/// The contents octets of `CertificationRequest` are the encodings of its fields, one after
/// another.
pub fn octets_of_certification_request<'a>()
    ensures { (v : CertificationRequest) → ⟦<CertificationRequest<'a> as FormValue>⟧.value.contents v ≡ joined (
        (⟦<CertificationRequestInfo<'a> as Form>⟧.encoding (certification_request_fields.certification_request_info v))
        ∷ (⟦<AlgorithmIdentifier<'a> as Form>⟧.encoding (certification_request_fields.signature_algorithm v))
        ∷ (⟦<BitStringRef<'a> as Form>⟧.encoding (certification_request_fields.signature v))
        ∷ []) }
{}
