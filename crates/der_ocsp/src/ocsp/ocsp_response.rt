//! OCSPResponse, a SEQUENCE of 2 fields.
//!
//! Made by tools/asn1 from ocsp.asn1.

ghost use Rattle.std.specs.Prelude.{◌∷◌, ◌≡◌, [], false, refl};
ghost use Rattle.der_elem.specs.FormatMakers.{mapped_format};
ghost use Rattle.der_modules.specs.Asn1.{context, explicit_encoding, joined, optional, parse_of};
ghost use Rattle.der_modules.specs.Members.{field, no_fields, optional_field, struct_member};
ghost use Rattle.der_ocsp.specs.Ocsp.Grammar.{ocsp_response};
ghost use Rattle.der_ocsp.specs.Ocsp.OcspResponse as ocsp_response_fields;
ghost use Rattle.der_ocsp.specs.declared.ocsp.ocsp_response.OcspResponse.{OcspResponse};

use crate::ocsp::ocsp_response_status::OcspResponseStatus;
use crate::ocsp::response_bytes::ResponseBytes;
use der_elem::{
    ContentsEq, CopyIsDuplicate, DecodeValue, EncodeValue, Form, FormValue, OneTag, Sequence,
    SequenceTag, TagMarker, ValueOrd,
};
use der_fields::{DecodeFields, EncodeFields, Explicit, FieldList, Fields2, FieldsOrd};
use der_modules::{Member, copy_of, field_list, if_present, tagged};
use der_numbers::Enumerated;
use der_tlv::{BackWriter, Error, Header, Length, Source, Writer};
use std::alloc::Global;
use std::cmp::Ordering;
use std::fmt;

/// The list of the fields.
type Fields<'a> = Fields2<Enumerated<OcspResponseStatus>, Option<Explicit<ResponseBytes<'a>, 0>>>;

/// ```text
/// OCSPResponse ::= SEQUENCE {
///      responseStatus     OCSPResponseStatus,
///      responseBytes  [0] EXPLICIT ResponseBytes OPTIONAL }
/// ```
///
/// Reading refuses the first fault of the octets, in their order.
#[derive(Clone, Copy, PartialEq, Eq)]
pub struct OcspResponse<'a> {
    fields: Fields<'a>,
}

impl<'a> OcspResponse<'a> {
    ghost use Rattle.der_ocsp.specs.Ocsp.OcspResponse as ocsp_response_fields;
    ghost use Rattle.std.specs.Prelude.{option_copied};

    /// A value of these fields.
    pub fn new(
        response_status: OcspResponseStatus,
        response_bytes: Option<&ResponseBytes<'a>>,
    ) -> OcspResponse<'a>
        ensures response_status { ocsp_response_fields.response_status result ≡ response_status }
        ensures response_bytes { ocsp_response_fields.response_bytes result ≡ option_copied response_bytes.entry }
    {
        let list = field_list![
            Enumerated {
                value: response_status
            },
            if_present!(value in response_bytes => tagged!(Explicit, copy_of(value)))
        ];
        let fields = Fields2 { list };
        OcspResponse { fields }
    }

    /// `responseStatus`, `OCSPResponseStatus`.
    pub fn response_status(&self) -> OcspResponseStatus
        ensures { result ≡ ocsp_response_fields.response_status self.now }
    {
        self.fields.list.first.value
    }

    /// `responseBytes`, `[0] EXPLICIT ResponseBytes OPTIONAL`.
    pub fn response_bytes(&self) -> Option<&ResponseBytes<'a>>
        ensures { option_copied result ≡ ocsp_response_fields.response_bytes self.now }
    {
        if_present!(value in &self.fields.list.rest.first => &value.fields.first)
    }
}

impl<'a> fmt::Debug for OcspResponse<'a> {
    fn fmt<W: fmt::Write>(&self, f: &mut fmt::Formatter<W>) -> fmt::Result {
        f.debug_struct("OcspResponse")
            .field("response_status", &self.response_status())
            .field("response_bytes", &self.response_bytes())
            .finish()
    }
}

impl<'a> OneTag for OcspResponse<'a> {
    type Marker = SequenceTag;
}

impl<'a> Sequence<'a> for OcspResponse<'a> {
    ghost is_sequence = { refl };
}

impl<'a> FormValue for OcspResponse<'a> {
    ghost value = { mapped_format (λ v. v.fields) ⟦<Fields<'a> as FieldList>⟧.list.octets };
}

impl<'a, R: Source<'a>> DecodeValue<'a, R> for OcspResponse<'a> {
    ghost TAKES_MEMORY = { false };

    const TAKES_MEMORY: bool = false;

    fn decode_value(
        alloc: Global,
        reader: &mut R,
        _header: Header,
    ) -> Result<OcspResponse<'a>, Error> {
        match Fields::<'a>::decode_fields(alloc, reader) {
            Ok(fields) => Ok(OcspResponse { fields }),
            Err(e) => Err(e),
        }
    }

    ghost takes_memory_is = { refl };
}

impl<'a> EncodeValue for OcspResponse<'a> {
    fn value_len(&self) -> Result<Length, Error> {
        self.fields.fields_len()
    }

    fn encode_value<W: Writer>(&self, writer: &mut W) -> Result<(), Error> {
        self.fields.encode_fields(writer)
    }

    fn encode_value_back<W: BackWriter>(&self, writer: &mut W) -> Result<(), Error> {
        self.fields.encode_fields_back(writer)
    }
}

impl<'a> ValueOrd for OcspResponse<'a> {
    fn value_cmp(&self, other: &OcspResponse<'a>) -> Result<Ordering, Error> {
        self.fields.cmp_fields(&other.fields)
    }
}

impl<'a> Member for OcspResponse<'a> {
    ghost member = { struct_member ⟦<SequenceTag as TagMarker>⟧.TAG (λ v. v.fields.list)
        (field ⟦<Enumerated<OcspResponseStatus> as Member>⟧.member
        (optional_field ⟦<Explicit<ResponseBytes<'a>, 0> as Member>⟧.member
        no_fields)) };
}

impl<'a> ContentsEq for OcspResponse<'a> {
    ghost contents_eq = { ⟦<OcspResponse<'a> as Member>⟧.member.equal };
}

impl<'a> CopyIsDuplicate for OcspResponse<'a> {}

/// What is read as `OCSPResponse` is what the grammar page says.
pub fn grammar_of_ocsp_response<'a>()
    ensures { ⟦<OcspResponse<'a> as Form>⟧.parse ≡ parse_of ocsp_response }
{}

/// The contents octets of `OCSPResponse` are the encodings of its fields, one after another.
#[tactic(auto, using(der_modules::specs::Asn1::optional_of))]
pub fn octets_of_ocsp_response<'a>()
    ensures { (v : OcspResponse) → ⟦<OcspResponse<'a> as FormValue>⟧.value.contents v ≡ joined (
        (⟦<Enumerated<OcspResponseStatus> as Form>⟧.encoding (record { value = (ocsp_response_fields.response_status v) }))
        ∷ optional (λ x. (explicit_encoding context 0 (⟦<ResponseBytes<'a> as Form>⟧.encoding x))) (ocsp_response_fields.response_bytes v)
        ∷ []) }
{}
