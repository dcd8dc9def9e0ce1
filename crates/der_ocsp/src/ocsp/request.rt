//! Request, a SEQUENCE of 2 fields.
//!
//! Made by tools/asn1 from ocsp.asn1.

ghost use Rattle.std.specs.Prelude.{◌∷◌, ◌≡◌, [], false, refl};
ghost use Rattle.der_elem.specs.FormatMakers.{mapped_format};
ghost use Rattle.der_modules.specs.Asn1.{context, explicit_encoding, joined, optional, parse_of};
ghost use Rattle.der_modules.specs.Members.{field, no_fields, optional_field, struct_member};
ghost use Rattle.der_ocsp.specs.Ocsp.Grammar.{request};
ghost use Rattle.der_ocsp.specs.Ocsp.Request as request_fields;
ghost use Rattle.der_ocsp.specs.declared.ocsp.request.Request.{Request};

use crate::ocsp::cert_id::CertId;
use der_elem::{
    ContentsEq, CopyIsDuplicate, DecodeValue, EncodeValue, Form, FormValue, OneTag, Sequence,
    SequenceTag, TagMarker, ValueOrd,
};
use der_fields::{DecodeFields, EncodeFields, Explicit, FieldList, Fields2, FieldsOrd};
use der_modules::{Member, copy_of, field_list, if_present, tagged};
use der_pkix::certificate::Extensions;
use der_tlv::{BackWriter, Error, Header, Length, Source, Writer};
use std::alloc::Global;
use std::cmp::Ordering;
use std::fmt;

/// The list of the fields.
type Fields<'a> = Fields2<CertId<'a>, Option<Explicit<Extensions<'a>, 0>>>;

/// ```text
/// Request ::= SEQUENCE {
///      reqCert                      CertID,
///      singleRequestExtensions  [0] EXPLICIT Extensions OPTIONAL }
/// ```
///
/// Reading refuses the first fault of the octets, in their order.
#[derive(Clone, Copy, PartialEq, Eq)]
pub struct Request<'a> {
    fields: Fields<'a>,
}

impl<'a> Request<'a> {
    ghost use Rattle.der_ocsp.specs.Ocsp.Request as request_fields;
    ghost use Rattle.std.specs.Prelude.{option_copied};

    /// A value of these fields.
    pub fn new(
        req_cert: &CertId<'a>,
        single_request_extensions: Option<&Extensions<'a>>,
    ) -> Request<'a>
        ensures req_cert { request_fields.req_cert result ≡ req_cert.now }
        ensures single_request_extensions { request_fields.single_request_extensions result ≡ option_copied single_request_extensions.entry }
    {
        let list = field_list![
            copy_of(req_cert),
            if_present!(value in single_request_extensions => tagged!(Explicit, copy_of(value)))
        ];
        let fields = Fields2 { list };
        Request { fields }
    }

    /// `reqCert`, `CertID`.
    pub fn req_cert(&self) -> &CertId<'a>
        ensures { result.now ≡ request_fields.req_cert self.now }
    {
        &self.fields.list.first
    }

    /// `singleRequestExtensions`, `[0] EXPLICIT Extensions OPTIONAL`.
    pub fn single_request_extensions(&self) -> Option<&Extensions<'a>>
        ensures { option_copied result ≡ request_fields.single_request_extensions self.now }
    {
        if_present!(value in &self.fields.list.rest.first => &value.fields.first)
    }
}

impl<'a> fmt::Debug for Request<'a> {
    fn fmt<W: fmt::Write>(&self, f: &mut fmt::Formatter<W>) -> fmt::Result {
        f.debug_struct("Request")
            .field("req_cert", self.req_cert())
            .field(
                "single_request_extensions",
                &self.single_request_extensions(),
            )
            .finish()
    }
}

impl<'a> OneTag for Request<'a> {
    type Marker = SequenceTag;
}

impl<'a> Sequence<'a> for Request<'a> {
    ghost is_sequence = { refl };
}

impl<'a> FormValue for Request<'a> {
    ghost value = { mapped_format (λ v. v.fields) ⟦<Fields<'a> as FieldList>⟧.list.octets };
}

impl<'a, R: Source<'a>> DecodeValue<'a, R> for Request<'a> {
    ghost TAKES_MEMORY = { false };

    const TAKES_MEMORY: bool = false;

    fn decode_value(alloc: Global, reader: &mut R, _header: Header) -> Result<Request<'a>, Error> {
        match Fields::<'a>::decode_fields(alloc, reader) {
            Ok(fields) => Ok(Request { fields }),
            Err(e) => Err(e),
        }
    }

    ghost takes_memory_is = { refl };
}

impl<'a> EncodeValue for Request<'a> {
    fn value_len(&self) -> Result<Length, Error> {
        self.fields.fields_len()
    }

    fn encode_value<W: Writer>(&self, writer: &mut W) -> Result<(), Error> {
        self.fields.encode_fields(writer)
    }

    fn encode_value_back<W: BackWriter>(&self, writer: &mut W) -> Result<(), Error> {
        self.fields.encode_fields_back(writer)
    }
}

impl<'a> ValueOrd for Request<'a> {
    fn value_cmp(&self, other: &Request<'a>) -> Result<Ordering, Error> {
        self.fields.cmp_fields(&other.fields)
    }
}

impl<'a> Member for Request<'a> {
    ghost member = { struct_member ⟦<SequenceTag as TagMarker>⟧.TAG (λ v. v.fields.list)
        (field ⟦<CertId<'a> as Member>⟧.member
        (optional_field ⟦<Explicit<Extensions<'a>, 0> as Member>⟧.member
        no_fields)) };
}

impl<'a> ContentsEq for Request<'a> {
    ghost contents_eq = { ⟦<Request<'a> as Member>⟧.member.equal };
}

impl<'a> CopyIsDuplicate for Request<'a> {}

/// What is read as `Request` is what the grammar page says.
pub fn grammar_of_request<'a>()
    ensures { ⟦<Request<'a> as Form>⟧.parse ≡ parse_of request }
{}

/// The contents octets of `Request` are the encodings of its fields, one after another.
#[tactic(auto, using(der_modules::specs::Asn1::optional_of))]
pub fn octets_of_request<'a>()
    ensures { (v : Request) → ⟦<Request<'a> as FormValue>⟧.value.contents v ≡ joined (
        (⟦<CertId<'a> as Form>⟧.encoding (request_fields.req_cert v))
        ∷ optional (λ x. (explicit_encoding context 0 (⟦<Extensions<'a> as Form>⟧.encoding x))) (request_fields.single_request_extensions v)
        ∷ []) }
{}
