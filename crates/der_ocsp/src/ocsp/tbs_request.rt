//! TBSRequest, a SEQUENCE of 4 fields.
//!
//! Made by tools/asn1 from ocsp.asn1.

ghost use Rattle.std.specs.Prelude.{◌∷◌, ◌≡◌, [], false, refl};
ghost use Rattle.der_elem.specs.FormatMakers.{mapped_format};
ghost use Rattle.der_modules.specs.Asn1.{context, explicit_encoding, joined, optional, parse_of, unless_default};
ghost use Rattle.der_modules.specs.Members.{default_field, field, no_fields, optional_field, struct_member};
ghost use Rattle.der_ocsp.specs.Ocsp.Grammar.{tbs_request};
ghost use Rattle.der_ocsp.specs.Ocsp.TbsRequest as tbs_request_fields;
ghost use Rattle.der_ocsp.specs.declared.ocsp.tbs_request.TbsRequest.{TbsRequest};

use crate::ocsp::aliases::Version;
use crate::ocsp::requests::Requests;
use der_elem::{
    ContentsEq, CopyIsDuplicate, DecodeValue, EncodeValue, Form, FormValue, OneTag, Sequence,
    SequenceTag, TagMarker, ValueOrd,
};
use der_extensions::extension::GeneralName;
use der_fields::{
    DecodeFields, DefaultNumber, DefaultOf, EncodeFields, Explicit, FieldList, Fields4, FieldsOrd,
    WithDefault,
};
use der_modules::{Member, copy_of, field_list, if_present, tagged};
use der_pkix::certificate::Extensions;
use der_tlv::{BackWriter, Error, Header, Length, Source, Writer};
use std::alloc::Global;
use std::cmp::Ordering;
use std::fmt;

/// The list of the fields.
type Fields<'a> = Fields4<
    WithDefault<Explicit<Version, 0>, DefaultNumber<0>>,
    Option<Explicit<GeneralName<'a>, 1>>,
    Requests<'a>,
    Option<Explicit<Extensions<'a>, 2>>,
>;

/// ```text
/// TBSRequest ::= SEQUENCE {
///      version            [0] EXPLICIT Version DEFAULT v1,
///      requestorName      [1] EXPLICIT GeneralName OPTIONAL,
///      requestList            Requests,
///      requestExtensions  [2] EXPLICIT Extensions OPTIONAL }
/// ```
///
/// Reading refuses the first fault of the octets, in their order.
#[derive(Clone, Copy, PartialEq, Eq)]
pub struct TbsRequest<'a> {
    fields: Fields<'a>,
}

impl<'a> TbsRequest<'a> {
    ghost use Rattle.der_ocsp.specs.Ocsp.TbsRequest as tbs_request_fields;
    ghost use Rattle.std.specs.Prelude.{option_copied};

    /// A value of these fields.
    pub fn new(
        version: Version,
        requestor_name: Option<&GeneralName<'a>>,
        request_list: &Requests<'a>,
        request_extensions: Option<&Extensions<'a>>,
    ) -> TbsRequest<'a>
        ensures version { tbs_request_fields.version result ≡ version }
        ensures requestor_name { tbs_request_fields.requestor_name result ≡ option_copied requestor_name.entry }
        ensures request_list { tbs_request_fields.request_list result ≡ request_list.now }
        ensures request_extensions { tbs_request_fields.request_extensions result ≡ option_copied request_extensions.entry }
    {
        let list = field_list![
            WithDefault::new(tagged!(Explicit, version)),
            if_present!(value in requestor_name => tagged!(Explicit, copy_of(value))),
            copy_of(request_list),
            if_present!(value in request_extensions => tagged!(Explicit, copy_of(value)))
        ];
        let fields = Fields4 { list };
        TbsRequest { fields }
    }

    /// `version`, `[0] EXPLICIT Version DEFAULT v1`.
    pub fn version(&self) -> Version
        ensures { result ≡ tbs_request_fields.version self.now }
    {
        self.fields.list.first.value.fields.first
    }

    /// `requestorName`, `[1] EXPLICIT GeneralName OPTIONAL`.
    pub fn requestor_name(&self) -> Option<&GeneralName<'a>>
        ensures { option_copied result ≡ tbs_request_fields.requestor_name self.now }
    {
        if_present!(value in &self.fields.list.rest.first => &value.fields.first)
    }

    /// `requestList`, `Requests`.
    pub fn request_list(&self) -> &Requests<'a>
        ensures { result.now ≡ tbs_request_fields.request_list self.now }
    {
        &self.fields.list.rest.rest.first
    }

    /// `requestExtensions`, `[2] EXPLICIT Extensions OPTIONAL`.
    pub fn request_extensions(&self) -> Option<&Extensions<'a>>
        ensures { option_copied result ≡ tbs_request_fields.request_extensions self.now }
    {
        if_present!(value in &self.fields.list.rest.rest.rest.first => &value.fields.first)
    }
}

impl<'a> fmt::Debug for TbsRequest<'a> {
    fn fmt<W: fmt::Write>(&self, f: &mut fmt::Formatter<W>) -> fmt::Result {
        f.debug_struct("TbsRequest")
            .field("version", &self.version())
            .field("requestor_name", &self.requestor_name())
            .field("request_list", self.request_list())
            .field("request_extensions", &self.request_extensions())
            .finish()
    }
}

impl<'a> OneTag for TbsRequest<'a> {
    type Marker = SequenceTag;
}

impl<'a> Sequence<'a> for TbsRequest<'a> {
    ghost is_sequence = { refl };
}

impl<'a> FormValue for TbsRequest<'a> {
    ghost value = { mapped_format (λ v. v.fields) ⟦<Fields<'a> as FieldList>⟧.list.octets };
}

impl<'a, R: Source<'a>> DecodeValue<'a, R> for TbsRequest<'a> {
    ghost TAKES_MEMORY = { false };

    const TAKES_MEMORY: bool = false;

    fn decode_value(
        alloc: Global,
        reader: &mut R,
        _header: Header,
    ) -> Result<TbsRequest<'a>, Error> {
        match Fields::<'a>::decode_fields(alloc, reader) {
            Ok(fields) => Ok(TbsRequest { fields }),
            Err(e) => Err(e),
        }
    }

    ghost takes_memory_is = { refl };
}

impl<'a> EncodeValue for TbsRequest<'a> {
    fn value_len(&self) -> Result<Length, Error> {
        self.fields.fields_len()
    }

    fn encode_value<W: Writer>(&self, writer: &mut W) -> Result<(), Error> {
        self.fields.encode_fields(writer)
    }

    fn encode_value_back<W: BackWriter>(&self, writer: &mut W) -> Result<(), Error> {
        self.fields.encode_fields_back(writer)
    }
}

impl<'a> ValueOrd for TbsRequest<'a> {
    fn value_cmp(&self, other: &TbsRequest<'a>) -> Result<Ordering, Error> {
        self.fields.cmp_fields(&other.fields)
    }
}

impl<'a> Member for TbsRequest<'a> {
    ghost member = { struct_member ⟦<SequenceTag as TagMarker>⟧.TAG (λ v. v.fields.list)
        (default_field ⟦<DefaultNumber<0> as DefaultOf<Explicit<Version, 0>>>⟧.octets ⟦<Explicit<Version, 0> as Member>⟧.member
        (optional_field ⟦<Explicit<GeneralName<'a>, 1> as Member>⟧.member
        (field ⟦<Requests<'a> as Member>⟧.member
        (optional_field ⟦<Explicit<Extensions<'a>, 2> as Member>⟧.member
        no_fields)))) };
}

impl<'a> ContentsEq for TbsRequest<'a> {
    ghost contents_eq = { ⟦<TbsRequest<'a> as Member>⟧.member.equal };
}

impl<'a> CopyIsDuplicate for TbsRequest<'a> {}

/// What is read as `TBSRequest` is what the grammar page says.
pub fn grammar_of_tbs_request<'a>()
    ensures { ⟦<TbsRequest<'a> as Form>⟧.parse ≡ parse_of tbs_request }
{}

/// The contents octets of `TBSRequest` are the encodings of its fields, one after another.
#[tactic(auto, using(der_modules::specs::Asn1::optional_of))]
pub fn octets_of_tbs_request<'a>()
    ensures { (v : TbsRequest) → ⟦<TbsRequest<'a> as FormValue>⟧.value.contents v ≡ joined (
        unless_default ⟦<DefaultNumber<0> as DefaultOf<Explicit<Version, 0>>>⟧.octets (explicit_encoding context 0 (⟦<Version as Form>⟧.encoding (tbs_request_fields.version v)))
        ∷ optional (λ x. (explicit_encoding context 1 (⟦<GeneralName<'a> as Form>⟧.encoding x))) (tbs_request_fields.requestor_name v)
        ∷ (⟦<Requests<'a> as Form>⟧.encoding (tbs_request_fields.request_list v))
        ∷ optional (λ x. (explicit_encoding context 2 (⟦<Extensions<'a> as Form>⟧.encoding x))) (tbs_request_fields.request_extensions v)
        ∷ []) }
{}
