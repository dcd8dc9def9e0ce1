//! ResponseData, a SEQUENCE of 5 fields.
//!
//! Made by tools/asn1 from ocsp.asn1.

ghost use Rattle.std.specs.Prelude.{◌∷◌, ◌≡◌, [], false, refl};
ghost use Rattle.der_elem.specs.FormatMakers.{mapped_format};
ghost use Rattle.der_modules.specs.Asn1.{context, explicit_encoding, joined, optional, parse_of, unless_default};
ghost use Rattle.der_modules.specs.Members.{choice_field, default_field, field, no_fields, optional_field, struct_member};
ghost use Rattle.der_ocsp.specs.Ocsp.Grammar.{response_data};
ghost use Rattle.der_ocsp.specs.Ocsp.ResponseData as response_data_fields;
ghost use Rattle.der_ocsp.specs.declared.ocsp.response_data.ResponseData.{ResponseData};

use crate::ocsp::aliases::Version;
use crate::ocsp::responder_id::ResponderId;
use crate::ocsp::single_responses::SingleResponses;
use der_elem::{
    ContentsEq, CopyIsDuplicate, DecodeValue, EncodeValue, Form, FormValue, OneTag, Sequence,
    SequenceTag, TagMarker, ValueOrd,
};
use der_fields::{
    DecodeFields, DefaultNumber, DefaultOf, EncodeFields, Explicit, FieldList, Fields5, FieldsOrd,
    WithDefault,
};
use der_modules::{Choosing, Member, copy_of, field_list, if_present, tagged};
use der_pkix::certificate::Extensions;
use der_time::GeneralizedTime;
use der_tlv::{BackWriter, Error, Header, Length, Source, Writer};
use std::alloc::Global;
use std::cmp::Ordering;
use std::fmt;

/// The list of the fields.
type Fields<'a> = Fields5<
    WithDefault<Explicit<Version, 0>, DefaultNumber<0>>,
    ResponderId<'a>,
    GeneralizedTime,
    SingleResponses<'a>,
    Option<Explicit<Extensions<'a>, 1>>,
>;

/// ```text
/// ResponseData ::= SEQUENCE {
///      version             [0] EXPLICIT Version DEFAULT v1,
///      responderID             ResponderID,
///      producedAt              GeneralizedTime,
///      responses               SingleResponses,
///      responseExtensions  [1] EXPLICIT Extensions OPTIONAL }
/// ```
///
/// Reading refuses the first fault of the octets, in their order.
#[derive(Clone, Copy, PartialEq, Eq)]
pub struct ResponseData<'a> {
    fields: Fields<'a>,
}

impl<'a> ResponseData<'a> {
    ghost use Rattle.der_ocsp.specs.Ocsp.ResponseData as response_data_fields;
    ghost use Rattle.std.specs.Prelude.{option_copied};

    /// A value of these fields.
    pub fn new(
        version: Version,
        responder_id: &ResponderId<'a>,
        produced_at: GeneralizedTime,
        responses: &SingleResponses<'a>,
        response_extensions: Option<&Extensions<'a>>,
    ) -> ResponseData<'a>
        ensures version { response_data_fields.version result ≡ version }
        ensures responder_id { response_data_fields.responder_id result ≡ responder_id.now }
        ensures produced_at { response_data_fields.produced_at result ≡ produced_at }
        ensures responses { response_data_fields.responses result ≡ responses.now }
        ensures response_extensions { response_data_fields.response_extensions result ≡ option_copied response_extensions.entry }
    {
        let list = field_list![
            WithDefault::new(tagged!(Explicit, version)),
            copy_of(responder_id),
            produced_at,
            copy_of(responses),
            if_present!(value in response_extensions => tagged!(Explicit, copy_of(value)))
        ];
        let fields = Fields5 { list };
        ResponseData { fields }
    }

    /// `version`, `[0] EXPLICIT Version DEFAULT v1`.
    pub fn version(&self) -> Version
        ensures { result ≡ response_data_fields.version self.now }
    {
        self.fields.list.first.value.fields.first
    }

    /// `responderID`, `ResponderID`.
    pub fn responder_id(&self) -> &ResponderId<'a>
        ensures { result.now ≡ response_data_fields.responder_id self.now }
    {
        &self.fields.list.rest.first
    }

    /// `producedAt`, `GeneralizedTime`.
    pub fn produced_at(&self) -> GeneralizedTime
        ensures { result ≡ response_data_fields.produced_at self.now }
    {
        self.fields.list.rest.rest.first
    }

    /// `responses`, `SingleResponses`.
    pub fn responses(&self) -> &SingleResponses<'a>
        ensures { result.now ≡ response_data_fields.responses self.now }
    {
        &self.fields.list.rest.rest.rest.first
    }

    /// `responseExtensions`, `[1] EXPLICIT Extensions OPTIONAL`.
    pub fn response_extensions(&self) -> Option<&Extensions<'a>>
        ensures { option_copied result ≡ response_data_fields.response_extensions self.now }
    {
        if_present!(value in &self.fields.list.rest.rest.rest.rest.first => &value.fields.first)
    }
}

impl<'a> fmt::Debug for ResponseData<'a> {
    fn fmt<W: fmt::Write>(&self, f: &mut fmt::Formatter<W>) -> fmt::Result {
        f.debug_struct("ResponseData")
            .field("version", &self.version())
            .field("responder_id", self.responder_id())
            .field("produced_at", &self.produced_at())
            .field("responses", self.responses())
            .field("response_extensions", &self.response_extensions())
            .finish()
    }
}

impl<'a> OneTag for ResponseData<'a> {
    type Marker = SequenceTag;
}

impl<'a> Sequence<'a> for ResponseData<'a> {
    ghost is_sequence = { refl };
}

impl<'a> FormValue for ResponseData<'a> {
    ghost value = { mapped_format (λ v. v.fields) ⟦<Fields<'a> as FieldList>⟧.list.octets };
}

impl<'a, R: Source<'a>> DecodeValue<'a, R> for ResponseData<'a> {
    ghost TAKES_MEMORY = { false };

    const TAKES_MEMORY: bool = false;

    fn decode_value(
        alloc: Global,
        reader: &mut R,
        _header: Header,
    ) -> Result<ResponseData<'a>, Error> {
        match Fields::<'a>::decode_fields(alloc, reader) {
            Ok(fields) => Ok(ResponseData { fields }),
            Err(e) => Err(e),
        }
    }

    ghost takes_memory_is = { refl };
}

impl<'a> EncodeValue for ResponseData<'a> {
    fn value_len(&self) -> Result<Length, Error> {
        self.fields.fields_len()
    }

    fn encode_value<W: Writer>(&self, writer: &mut W) -> Result<(), Error> {
        self.fields.encode_fields(writer)
    }

    fn encode_value_back<W: BackWriter>(&self, writer: &mut W) -> Result<(), Error> {
        self.fields.encode_fields_back(writer)
    }
}

impl<'a> ValueOrd for ResponseData<'a> {
    fn value_cmp(&self, other: &ResponseData<'a>) -> Result<Ordering, Error> {
        self.fields.cmp_fields(&other.fields)
    }
}

impl<'a> Member for ResponseData<'a> {
    ghost member = { struct_member ⟦<SequenceTag as TagMarker>⟧.TAG (λ v. v.fields.list)
        (default_field ⟦<DefaultNumber<0> as DefaultOf<Explicit<Version, 0>>>⟧.octets ⟦<Explicit<Version, 0> as Member>⟧.member
        (choice_field ⟦<ResponderId<'a> as Choosing>⟧.choice
        (field ⟦<GeneralizedTime as Member>⟧.member
        (field ⟦<SingleResponses<'a> as Member>⟧.member
        (optional_field ⟦<Explicit<Extensions<'a>, 1> as Member>⟧.member
        no_fields))))) };
}

impl<'a> ContentsEq for ResponseData<'a> {
    ghost contents_eq = { ⟦<ResponseData<'a> as Member>⟧.member.equal };
}

impl<'a> CopyIsDuplicate for ResponseData<'a> {}

/// What is read as `ResponseData` is what the grammar page says.
pub fn grammar_of_response_data<'a>()
    ensures { ⟦<ResponseData<'a> as Form>⟧.parse ≡ parse_of response_data }
{}

/// The contents octets of `ResponseData` are the encodings of its fields, one after another.
#[tactic(auto, using(der_modules::specs::Asn1::optional_of))]
pub fn octets_of_response_data<'a>()
    ensures { (v : ResponseData) → ⟦<ResponseData<'a> as FormValue>⟧.value.contents v ≡ joined (
        unless_default ⟦<DefaultNumber<0> as DefaultOf<Explicit<Version, 0>>>⟧.octets (explicit_encoding context 0 (⟦<Version as Form>⟧.encoding (response_data_fields.version v)))
        ∷ (⟦<ResponderId<'a> as Form>⟧.encoding (response_data_fields.responder_id v))
        ∷ (⟦<GeneralizedTime as Form>⟧.encoding (response_data_fields.produced_at v))
        ∷ (⟦<SingleResponses<'a> as Form>⟧.encoding (response_data_fields.responses v))
        ∷ optional (λ x. (explicit_encoding context 1 (⟦<Extensions<'a> as Form>⟧.encoding x))) (response_data_fields.response_extensions v)
        ∷ []) }
{}
