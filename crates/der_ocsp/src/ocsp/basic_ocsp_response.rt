//! BasicOCSPResponse, a SEQUENCE of 4 fields.
//!
//! Made by tools/asn1 from ocsp.asn1.

ghost use Rattle.std.specs.Prelude.{◌∷◌, ◌≡◌, [], false, refl};
ghost use Rattle.der_elem.specs.FormatMakers.{mapped_format};
ghost use Rattle.der_modules.specs.Asn1.{context, explicit_encoding, joined, optional, parse_of};
ghost use Rattle.der_modules.specs.Members.{field, no_fields, optional_field, struct_member};
ghost use Rattle.der_ocsp.specs.Ocsp.BasicOcspResponse as basic_ocsp_response_fields;
ghost use Rattle.der_ocsp.specs.Ocsp.Grammar.{basic_ocsp_response};
ghost use Rattle.der_ocsp.specs.declared.ocsp.basic_ocsp_response.BasicOcspResponse.{BasicOcspResponse};

use crate::ocsp::certificates::Certificates;
use crate::ocsp::response_data::ResponseData;
use der_bits::BitStringRef;
use der_elem::{
    ContentsEq, CopyIsDuplicate, DecodeValue, EncodeValue, Form, FormValue, OneTag, Sequence,
    SequenceTag, TagMarker, ValueOrd,
};
use der_fields::{DecodeFields, EncodeFields, Explicit, FieldList, Fields4, FieldsOrd};
use der_modules::{Member, copy_of, field_list, if_present, tagged};
use der_pkix::AlgorithmIdentifier;
use der_tlv::{BackWriter, Error, Header, Length, Source, Writer};
use std::alloc::Global;
use std::cmp::Ordering;
use std::fmt;

/// The list of the fields.
type Fields<'a> = Fields4<
    ResponseData<'a>,
    AlgorithmIdentifier<'a>,
    BitStringRef<'a>,
    Option<Explicit<Certificates<'a>, 0>>,
>;

/// ```text
/// BasicOCSPResponse ::= SEQUENCE {
///      tbsResponseData     ResponseData,
///      signatureAlgorithm  AlgorithmIdentifier,
///      signature           BIT STRING,
///      certs           [0] EXPLICIT Certificates OPTIONAL }
/// ```
///
/// Reading refuses the first fault of the octets, in their order.
#[derive(Clone, Copy, PartialEq, Eq)]
pub struct BasicOcspResponse<'a> {
    fields: Fields<'a>,
}

impl<'a> BasicOcspResponse<'a> {
    ghost use Rattle.der_ocsp.specs.Ocsp.BasicOcspResponse as basic_ocsp_response_fields;
    ghost use Rattle.std.specs.Prelude.{option_copied};

    /// A value of these fields.
    pub fn new(
        tbs_response_data: &ResponseData<'a>,
        signature_algorithm: &AlgorithmIdentifier<'a>,
        signature: BitStringRef<'a>,
        certs: Option<&Certificates<'a>>,
    ) -> BasicOcspResponse<'a>
        ensures tbs_response_data { basic_ocsp_response_fields.tbs_response_data result ≡ tbs_response_data.now }
        ensures signature_algorithm { basic_ocsp_response_fields.signature_algorithm result ≡ signature_algorithm.now }
        ensures signature { basic_ocsp_response_fields.signature result ≡ signature.entry }
        ensures certs { basic_ocsp_response_fields.certs result ≡ option_copied certs.entry }
    {
        let list = field_list![
            copy_of(tbs_response_data),
            copy_of(signature_algorithm),
            signature,
            if_present!(value in certs => tagged!(Explicit, copy_of(value)))
        ];
        let fields = Fields4 { list };
        BasicOcspResponse { fields }
    }

    /// `tbsResponseData`, `ResponseData`.
    pub fn tbs_response_data(&self) -> &ResponseData<'a>
        ensures { result.now ≡ basic_ocsp_response_fields.tbs_response_data self.now }
    {
        &self.fields.list.first
    }

    /// `signatureAlgorithm`, `AlgorithmIdentifier`.
    pub fn signature_algorithm(&self) -> &AlgorithmIdentifier<'a>
        ensures { result.now ≡ basic_ocsp_response_fields.signature_algorithm self.now }
    {
        &self.fields.list.rest.first
    }

    /// `signature`, `BIT STRING`.
    pub fn signature(&self) -> &BitStringRef<'a>
        ensures { result.now ≡ basic_ocsp_response_fields.signature self.now }
    {
        &self.fields.list.rest.rest.first
    }

    /// `certs`, `[0] EXPLICIT Certificates OPTIONAL`.
    pub fn certs(&self) -> Option<&Certificates<'a>>
        ensures { option_copied result ≡ basic_ocsp_response_fields.certs self.now }
    {
        if_present!(value in &self.fields.list.rest.rest.rest.first => &value.fields.first)
    }
}

impl<'a> fmt::Debug for BasicOcspResponse<'a> {
    fn fmt<W: fmt::Write>(&self, f: &mut fmt::Formatter<W>) -> fmt::Result {
        f.debug_struct("BasicOcspResponse")
            .field("tbs_response_data", self.tbs_response_data())
            .field("signature_algorithm", self.signature_algorithm())
            .field("signature", self.signature())
            .field("certs", &self.certs())
            .finish()
    }
}

impl<'a> OneTag for BasicOcspResponse<'a> {
    type Marker = SequenceTag;
}

impl<'a> Sequence<'a> for BasicOcspResponse<'a> {
    ghost is_sequence = { refl };
}

impl<'a> FormValue for BasicOcspResponse<'a> {
    ghost value = { mapped_format (λ v. v.fields) ⟦<Fields<'a> as FieldList>⟧.list.octets };
}

impl<'a, R: Source<'a>> DecodeValue<'a, R> for BasicOcspResponse<'a> {
    ghost TAKES_MEMORY = { false };

    const TAKES_MEMORY: bool = false;

    fn decode_value(
        alloc: Global,
        reader: &mut R,
        _header: Header,
    ) -> Result<BasicOcspResponse<'a>, Error> {
        match Fields::<'a>::decode_fields(alloc, reader) {
            Ok(fields) => Ok(BasicOcspResponse { fields }),
            Err(e) => Err(e),
        }
    }

    ghost takes_memory_is = { refl };
}

impl<'a> EncodeValue for BasicOcspResponse<'a> {
    fn value_len(&self) -> Result<Length, Error> {
        self.fields.fields_len()
    }

    fn encode_value<W: Writer>(&self, writer: &mut W) -> Result<(), Error> {
        self.fields.encode_fields(writer)
    }

    fn encode_value_back<W: BackWriter>(&self, writer: &mut W) -> Result<(), Error> {
        self.fields.encode_fields_back(writer)
    }
}

impl<'a> ValueOrd for BasicOcspResponse<'a> {
    fn value_cmp(&self, other: &BasicOcspResponse<'a>) -> Result<Ordering, Error> {
        self.fields.cmp_fields(&other.fields)
    }
}

impl<'a> Member for BasicOcspResponse<'a> {
    ghost member = { struct_member ⟦<SequenceTag as TagMarker>⟧.TAG (λ v. v.fields.list)
        (field ⟦<ResponseData<'a> as Member>⟧.member
        (field ⟦<AlgorithmIdentifier<'a> as Member>⟧.member
        (field ⟦<BitStringRef<'a> as Member>⟧.member
        (optional_field ⟦<Explicit<Certificates<'a>, 0> as Member>⟧.member
        no_fields)))) };
}

impl<'a> ContentsEq for BasicOcspResponse<'a> {
    ghost contents_eq = { ⟦<BasicOcspResponse<'a> as Member>⟧.member.equal };
}

impl<'a> CopyIsDuplicate for BasicOcspResponse<'a> {}

/// What is read as `BasicOCSPResponse` is what the grammar page says.
pub fn grammar_of_basic_ocsp_response<'a>()
    ensures { ⟦<BasicOcspResponse<'a> as Form>⟧.parse ≡ parse_of basic_ocsp_response }
{}

/// The contents octets of `BasicOCSPResponse` are the encodings of its fields, one after another.
#[tactic(auto, using(der_modules::specs::Asn1::optional_of))]
pub fn octets_of_basic_ocsp_response<'a>()
    ensures { (v : BasicOcspResponse) → ⟦<BasicOcspResponse<'a> as FormValue>⟧.value.contents v ≡ joined (
        (⟦<ResponseData<'a> as Form>⟧.encoding (basic_ocsp_response_fields.tbs_response_data v))
        ∷ (⟦<AlgorithmIdentifier<'a> as Form>⟧.encoding (basic_ocsp_response_fields.signature_algorithm v))
        ∷ (⟦<BitStringRef<'a> as Form>⟧.encoding (basic_ocsp_response_fields.signature v))
        ∷ optional (λ x. (explicit_encoding context 0 (⟦<Certificates<'a> as Form>⟧.encoding x))) (basic_ocsp_response_fields.certs v)
        ∷ []) }
{}
