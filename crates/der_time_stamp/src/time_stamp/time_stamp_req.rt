//! TimeStampReq, a SEQUENCE of 6 fields.
//!
//! Made by tools/asn1 from time_stamp.asn1.

ghost use Rattle.std.specs.Prelude.{◌∷◌, ◌≡◌, [], false, refl, true};
ghost use Rattle.der_elem.specs.FormatMakers.{mapped_format};
ghost use Rattle.der_modules.specs.Asn1.{context, implicit_encoding, joined, optional, parse_of, unless_default};
ghost use Rattle.der_modules.specs.Members.{default_field, field, no_fields, optional_field, struct_member};
ghost use Rattle.der_time_stamp.specs.TimeStamp.Grammar.{time_stamp_req};
ghost use Rattle.der_time_stamp.specs.TimeStamp.TimeStampReq as time_stamp_req_fields;
ghost use Rattle.der_time_stamp.specs.declared.time_stamp.time_stamp_req.TimeStampReq.{TimeStampReq};

use crate::time_stamp::aliases::{TimeStampReqVersion, TsaPolicyId};
use crate::time_stamp::message_imprint::MessageImprint;
use der_elem::{
    ContentsEq, CopyIsDuplicate, DecodeValue, EncodeValue, Form, FormValue, OneTag, Sequence,
    SequenceTag, TagMarker, ValueOrd,
};
use der_fields::{
    DecodeFields, DefaultFalse, DefaultOf, EncodeFields, FieldList, Fields6, FieldsOrd, Implicit,
    WithDefault,
};
use der_modules::{Member, copy_of, field_list, if_present};
use der_numbers::IntRef;
use der_pkix::certificate::Extensions;
use der_tlv::{BackWriter, Error, Header, Length, Source, Writer};
use std::alloc::Global;
use std::cmp::Ordering;
use std::fmt;

/// The list of the fields.
type Fields<'a> = Fields6<
    TimeStampReqVersion,
    MessageImprint<'a>,
    Option<TsaPolicyId<'a>>,
    Option<IntRef<'a>>,
    WithDefault<bool, DefaultFalse>,
    Option<Implicit<Extensions<'a>, 0>>,
>;

/// ```text
/// TimeStampReq ::= SEQUENCE {
///      version         INTEGER { v1(1) },
///      messageImprint  MessageImprint,
///      reqPolicy       TSAPolicyId OPTIONAL,
///      nonce           INTEGER OPTIONAL,
///      certReq         BOOLEAN DEFAULT FALSE,
///      extensions      [0] IMPLICIT Extensions OPTIONAL }
/// ```
///
/// Reading refuses the first fault of the octets, in their order.
#[derive(Clone, Copy, PartialEq, Eq)]
pub struct TimeStampReq<'a> {
    fields: Fields<'a>,
}

impl<'a> TimeStampReq<'a> {
    ghost use Rattle.der_time_stamp.specs.TimeStamp.TimeStampReq as time_stamp_req_fields;
    ghost use Rattle.std.specs.Prelude.{option_copied};

    /// A value of these fields.
    pub fn new(
        version: TimeStampReqVersion,
        message_imprint: &MessageImprint<'a>,
        req_policy: Option<TsaPolicyId<'a>>,
        nonce: Option<IntRef<'a>>,
        cert_req: bool,
        extensions: Option<&Extensions<'a>>,
    ) -> TimeStampReq<'a>
        ensures version { time_stamp_req_fields.version result ≡ version }
        ensures message_imprint { time_stamp_req_fields.message_imprint result ≡ message_imprint.now }
        ensures req_policy { time_stamp_req_fields.req_policy result ≡ req_policy.entry }
        ensures nonce { time_stamp_req_fields.nonce result ≡ nonce.entry }
        ensures cert_req { time_stamp_req_fields.cert_req result ≡ cert_req }
        ensures extensions { time_stamp_req_fields.extensions result ≡ option_copied extensions.entry }
    {
        let list = field_list![
            version,
            copy_of(message_imprint),
            req_policy,
            nonce,
            WithDefault::new(cert_req),
            if_present!(value in extensions => Implicit { value: copy_of(value) })
        ];
        let fields = Fields6 { list };
        TimeStampReq { fields }
    }

    /// `version`, `INTEGER { v1 (1) }`.
    pub fn version(&self) -> TimeStampReqVersion
        ensures { result ≡ time_stamp_req_fields.version self.now }
    {
        self.fields.list.first
    }

    /// `messageImprint`, `MessageImprint`.
    pub fn message_imprint(&self) -> &MessageImprint<'a>
        ensures { result.now ≡ time_stamp_req_fields.message_imprint self.now }
    {
        &self.fields.list.rest.first
    }

    /// `reqPolicy`, `TSAPolicyId OPTIONAL`.
    pub fn req_policy(&self) -> Option<&TsaPolicyId<'a>>
        ensures { option_copied result ≡ time_stamp_req_fields.req_policy self.now }
    {
        if_present!(value in &self.fields.list.rest.rest.first => value)
    }

    /// `nonce`, `INTEGER OPTIONAL`.
    pub fn nonce(&self) -> Option<&IntRef<'a>>
        ensures { option_copied result ≡ time_stamp_req_fields.nonce self.now }
    {
        if_present!(value in &self.fields.list.rest.rest.rest.first => value)
    }

    /// `certReq`, `BOOLEAN DEFAULT FALSE`.
    pub fn cert_req(&self) -> bool
        ensures { result ≡ time_stamp_req_fields.cert_req self.now }
    {
        self.fields.list.rest.rest.rest.rest.first.value
    }

    /// `extensions`, `[0] IMPLICIT Extensions OPTIONAL`.
    pub fn extensions(&self) -> Option<&Extensions<'a>>
        ensures { option_copied result ≡ time_stamp_req_fields.extensions self.now }
    {
        if_present!(value in &self.fields.list.rest.rest.rest.rest.rest.first => &value.value)
    }
}

impl<'a> fmt::Debug for TimeStampReq<'a> {
    fn fmt<W: fmt::Write>(&self, f: &mut fmt::Formatter<W>) -> fmt::Result {
        f.debug_struct("TimeStampReq")
            .field("version", &self.version())
            .field("message_imprint", self.message_imprint())
            .field("req_policy", &self.req_policy())
            .field("nonce", &self.nonce())
            .field("cert_req", &self.cert_req())
            .field("extensions", &self.extensions())
            .finish()
    }
}

impl<'a> OneTag for TimeStampReq<'a> {
    type Marker = SequenceTag;
}

impl<'a> Sequence<'a> for TimeStampReq<'a> {
    ghost is_sequence = { refl };
}

impl<'a> FormValue for TimeStampReq<'a> {
    ghost value = { mapped_format (λ v. v.fields) ⟦<Fields<'a> as FieldList>⟧.list.octets };
}

impl<'a, R: Source<'a>> DecodeValue<'a, R> for TimeStampReq<'a> {
    ghost TAKES_MEMORY = { false };

    const TAKES_MEMORY: bool = false;

    fn decode_value(
        alloc: Global,
        reader: &mut R,
        _header: Header,
    ) -> Result<TimeStampReq<'a>, Error> {
        match Fields::<'a>::decode_fields(alloc, reader) {
            Ok(fields) => Ok(TimeStampReq { fields }),
            Err(e) => Err(e),
        }
    }

    ghost takes_memory_is = { refl };
}

impl<'a> EncodeValue for TimeStampReq<'a> {
    fn value_len(&self) -> Result<Length, Error> {
        self.fields.fields_len()
    }

    fn encode_value<W: Writer>(&self, writer: &mut W) -> Result<(), Error> {
        self.fields.encode_fields(writer)
    }

    fn encode_value_back<W: BackWriter>(&self, writer: &mut W) -> Result<(), Error> {
        self.fields.encode_fields_back(writer)
    }
}

impl<'a> ValueOrd for TimeStampReq<'a> {
    fn value_cmp(&self, other: &TimeStampReq<'a>) -> Result<Ordering, Error> {
        self.fields.cmp_fields(&other.fields)
    }
}

impl<'a> Member for TimeStampReq<'a> {
    ghost member = { struct_member ⟦<SequenceTag as TagMarker>⟧.TAG (λ v. v.fields.list)
        (field ⟦<TimeStampReqVersion as Member>⟧.member
        (field ⟦<MessageImprint<'a> as Member>⟧.member
        (optional_field ⟦<TsaPolicyId<'a> as Member>⟧.member
        (optional_field ⟦<IntRef<'a> as Member>⟧.member
        (default_field ⟦<DefaultFalse as DefaultOf<bool>>⟧.octets ⟦<bool as Member>⟧.member
        (optional_field ⟦<Implicit<Extensions<'a>, 0> as Member>⟧.member
        no_fields)))))) };
}

impl<'a> ContentsEq for TimeStampReq<'a> {
    ghost contents_eq = { ⟦<TimeStampReq<'a> as Member>⟧.member.equal };
}

impl<'a> CopyIsDuplicate for TimeStampReq<'a> {}

/// What is read as `TimeStampReq` is what the grammar page says.
pub fn grammar_of_time_stamp_req<'a>()
    ensures { ⟦<TimeStampReq<'a> as Form>⟧.parse ≡ parse_of time_stamp_req }
{}

/// The contents octets of `TimeStampReq` are the encodings of its fields, one after another.
#[tactic(auto, using(der_modules::specs::Asn1::optional_of))]
pub fn octets_of_time_stamp_req<'a>()
    ensures { (v : TimeStampReq) → ⟦<TimeStampReq<'a> as FormValue>⟧.value.contents v ≡ joined (
        (⟦<TimeStampReqVersion as Form>⟧.encoding (time_stamp_req_fields.version v))
        ∷ (⟦<MessageImprint<'a> as Form>⟧.encoding (time_stamp_req_fields.message_imprint v))
        ∷ optional (λ x. (⟦<TsaPolicyId<'a> as Form>⟧.encoding x)) (time_stamp_req_fields.req_policy v)
        ∷ optional (λ x. (⟦<IntRef<'a> as Form>⟧.encoding x)) (time_stamp_req_fields.nonce v)
        ∷ unless_default ⟦<DefaultFalse as DefaultOf<bool>>⟧.octets (⟦<bool as Form>⟧.encoding (time_stamp_req_fields.cert_req v))
        ∷ optional (λ x. (implicit_encoding context true 0 (⟦<Extensions<'a> as FormValue>⟧.value.contents x))) (time_stamp_req_fields.extensions v)
        ∷ []) }
{}
