//! OCSPRequest, a SEQUENCE of 2 fields.
//!
//! Made by tools/asn1 from ocsp.asn1.

ghost use Rattle.std.specs.Prelude.{◌∷◌, ◌≡◌, [], false, refl};
ghost use Rattle.der_elem.specs.FormatMakers.{mapped_format};
ghost use Rattle.der_modules.specs.Asn1.{context, explicit_encoding, joined, optional, parse_of};
ghost use Rattle.der_modules.specs.Members.{field, no_fields, optional_field, struct_member};
ghost use Rattle.der_ocsp.specs.Ocsp.Grammar.{ocsp_request};
ghost use Rattle.der_ocsp.specs.Ocsp.OcspRequest as ocsp_request_fields;
ghost use Rattle.der_ocsp.specs.declared.ocsp.ocsp_request.OcspRequest.{OcspRequest};

use crate::ocsp::signature::Signature;
use crate::ocsp::tbs_request::TbsRequest;
use der_elem::{
    ContentsEq, CopyIsDuplicate, DecodeValue, EncodeValue, Form, FormValue, OneTag, Sequence,
    SequenceTag, TagMarker, ValueOrd,
};
use der_fields::{DecodeFields, EncodeFields, Explicit, FieldList, Fields2, FieldsOrd};
use der_modules::{Member, copy_of, field_list, if_present, tagged};
use der_tlv::{BackWriter, Error, Header, Length, Source, Writer};
use std::alloc::Global;
use std::cmp::Ordering;
use std::fmt;

/// The list of the fields.
type Fields<'a> = Fields2<TbsRequest<'a>, Option<Explicit<Signature<'a>, 0>>>;

/// ```text
/// OCSPRequest ::= SEQUENCE {
///      tbsRequest             TBSRequest,
///      optionalSignature  [0] EXPLICIT Signature OPTIONAL }
/// ```
///
/// Reading refuses the first fault of the octets, in their order.
#[derive(Clone, Copy, PartialEq, Eq)]
pub struct OcspRequest<'a> {
    fields: Fields<'a>,
}

impl<'a> OcspRequest<'a> {
    ghost use Rattle.der_ocsp.specs.Ocsp.OcspRequest as ocsp_request_fields;
    ghost use Rattle.std.specs.Prelude.{option_copied};

    /// A value of these fields.
    pub fn new(
        tbs_request: &TbsRequest<'a>,
        optional_signature: Option<&Signature<'a>>,
    ) -> OcspRequest<'a>
        ensures tbs_request { ocsp_request_fields.tbs_request result ≡ tbs_request.now }
        ensures optional_signature { ocsp_request_fields.optional_signature result ≡ option_copied optional_signature.entry }
    {
        let list = field_list![
            copy_of(tbs_request),
            if_present!(value in optional_signature => tagged!(Explicit, copy_of(value)))
        ];
        let fields = Fields2 { list };
        OcspRequest { fields }
    }

    /// `tbsRequest`, `TBSRequest`.
    pub fn tbs_request(&self) -> &TbsRequest<'a>
        ensures { result.now ≡ ocsp_request_fields.tbs_request self.now }
    {
        &self.fields.list.first
    }

    /// `optionalSignature`, `[0] EXPLICIT Signature OPTIONAL`.
    pub fn optional_signature(&self) -> Option<&Signature<'a>>
        ensures { option_copied result ≡ ocsp_request_fields.optional_signature self.now }
    {
        if_present!(value in &self.fields.list.rest.first => &value.fields.first)
    }
}

impl<'a> fmt::Debug for OcspRequest<'a> {
    fn fmt<W: fmt::Write>(&self, f: &mut fmt::Formatter<W>) -> fmt::Result {
        f.debug_struct("OcspRequest")
            .field("tbs_request", self.tbs_request())
            .field("optional_signature", &self.optional_signature())
            .finish()
    }
}

impl<'a> OneTag for OcspRequest<'a> {
    type Marker = SequenceTag;
}

impl<'a> Sequence<'a> for OcspRequest<'a> {
    ghost is_sequence = { refl };
}

impl<'a> FormValue for OcspRequest<'a> {
    ghost value = { mapped_format (λ v. v.fields) ⟦<Fields<'a> as FieldList>⟧.list.octets };
}

impl<'a, R: Source<'a>> DecodeValue<'a, R> for OcspRequest<'a> {
    ghost TAKES_MEMORY = { false };

    const TAKES_MEMORY: bool = false;

    fn decode_value(
        alloc: Global,
        reader: &mut R,
        _header: Header,
    ) -> Result<OcspRequest<'a>, Error> {
        match Fields::<'a>::decode_fields(alloc, reader) {
            Ok(fields) => Ok(OcspRequest { fields }),
            Err(e) => Err(e),
        }
    }

    ghost takes_memory_is = { refl };
}

impl<'a> EncodeValue for OcspRequest<'a> {
    fn value_len(&self) -> Result<Length, Error> {
        self.fields.fields_len()
    }

    fn encode_value<W: Writer>(&self, writer: &mut W) -> Result<(), Error> {
        self.fields.encode_fields(writer)
    }

    fn encode_value_back<W: BackWriter>(&self, writer: &mut W) -> Result<(), Error> {
        self.fields.encode_fields_back(writer)
    }
}

impl<'a> ValueOrd for OcspRequest<'a> {
    fn value_cmp(&self, other: &OcspRequest<'a>) -> Result<Ordering, Error> {
        self.fields.cmp_fields(&other.fields)
    }
}

impl<'a> Member for OcspRequest<'a> {
    ghost member = { struct_member ⟦<SequenceTag as TagMarker>⟧.TAG (λ v. v.fields.list)
        (field ⟦<TbsRequest<'a> as Member>⟧.member
        (optional_field ⟦<Explicit<Signature<'a>, 0> as Member>⟧.member
        no_fields)) };
}

impl<'a> ContentsEq for OcspRequest<'a> {
    ghost contents_eq = { ⟦<OcspRequest<'a> as Member>⟧.member.equal };
}

impl<'a> CopyIsDuplicate for OcspRequest<'a> {}

/// What is read as `OCSPRequest` is what the grammar page says.
pub fn grammar_of_ocsp_request<'a>()
    ensures { ⟦<OcspRequest<'a> as Form>⟧.parse ≡ parse_of ocsp_request }
{}

/// The contents octets of `OCSPRequest` are the encodings of its fields, one after another.
#[tactic(auto, using(der_modules::specs::Asn1::optional_of))]
pub fn octets_of_ocsp_request<'a>()
    ensures { (v : OcspRequest) → ⟦<OcspRequest<'a> as FormValue>⟧.value.contents v ≡ joined (
        (⟦<TbsRequest<'a> as Form>⟧.encoding (ocsp_request_fields.tbs_request v))
        ∷ optional (λ x. (explicit_encoding context 0 (⟦<Signature<'a> as Form>⟧.encoding x))) (ocsp_request_fields.optional_signature v)
        ∷ []) }
{}
