//! TimeStampResp, a SEQUENCE of 2 fields.
//!
//! Made by tools/asn1 from time_stamp.asn1.

ghost use Rattle.std.specs.Prelude.{◌∷◌, ◌≡◌, [], false, refl};
ghost use Rattle.der_elem.specs.FormatMakers.{mapped_format};
ghost use Rattle.der_modules.specs.Asn1.{joined, optional, parse_of};
ghost use Rattle.der_modules.specs.Members.{field, no_fields, optional_field, struct_member};
ghost use Rattle.der_time_stamp.specs.TimeStamp.Grammar.{time_stamp_resp};
ghost use Rattle.der_time_stamp.specs.TimeStamp.TimeStampResp as time_stamp_resp_fields;
ghost use Rattle.der_time_stamp.specs.declared.time_stamp.time_stamp_resp.TimeStampResp.{TimeStampResp};

use crate::time_stamp::pki_status_info::PkiStatusInfo;
use crate::time_stamp::time_stamp_token::TimeStampToken;
use der_elem::{
    ContentsEq, CopyIsDuplicate, DecodeValue, EncodeValue, Form, FormValue, OneTag, Sequence,
    SequenceTag, TagMarker, ValueOrd,
};
use der_fields::{DecodeFields, EncodeFields, FieldList, Fields2, FieldsOrd};
use der_modules::{Member, copy_of, field_list, if_present};
use der_tlv::{BackWriter, Error, Header, Length, Source, Writer};
use std::alloc::Global;
use std::cmp::Ordering;
use std::fmt;

/// The list of the fields.
type Fields<'a> = Fields2<PkiStatusInfo<'a>, Option<TimeStampToken<'a>>>;

/// ```text
/// TimeStampResp ::= SEQUENCE {
///      status          PKIStatusInfo,
///      timeStampToken  TimeStampToken OPTIONAL }
/// ```
///
/// Reading refuses the first fault of the octets, in their order.
#[derive(Clone, Copy, PartialEq, Eq)]
pub struct TimeStampResp<'a> {
    fields: Fields<'a>,
}

impl<'a> TimeStampResp<'a> {
    ghost use Rattle.der_time_stamp.specs.TimeStamp.TimeStampResp as time_stamp_resp_fields;
    ghost use Rattle.std.specs.Prelude.{option_copied};

    /// A value of these fields.
    pub fn new(
        status: &PkiStatusInfo<'a>,
        time_stamp_token: Option<&TimeStampToken<'a>>,
    ) -> TimeStampResp<'a>
        ensures status { time_stamp_resp_fields.status result ≡ status.now }
        ensures time_stamp_token { time_stamp_resp_fields.time_stamp_token result ≡ option_copied time_stamp_token.entry }
    {
        let list = field_list![
            copy_of(status),
            if_present!(value in time_stamp_token => copy_of(value))
        ];
        let fields = Fields2 { list };
        TimeStampResp { fields }
    }

    /// `status`, `PKIStatusInfo`.
    pub fn status(&self) -> &PkiStatusInfo<'a>
        ensures { result.now ≡ time_stamp_resp_fields.status self.now }
    {
        &self.fields.list.first
    }

    /// `timeStampToken`, `TimeStampToken OPTIONAL`.
    pub fn time_stamp_token(&self) -> Option<&TimeStampToken<'a>>
        ensures { option_copied result ≡ time_stamp_resp_fields.time_stamp_token self.now }
    {
        if_present!(value in &self.fields.list.rest.first => value)
    }
}

impl<'a> fmt::Debug for TimeStampResp<'a> {
    fn fmt<W: fmt::Write>(&self, f: &mut fmt::Formatter<W>) -> fmt::Result {
        f.debug_struct("TimeStampResp")
            .field("status", self.status())
            .field("time_stamp_token", &self.time_stamp_token())
            .finish()
    }
}

impl<'a> OneTag for TimeStampResp<'a> {
    type Marker = SequenceTag;
}

impl<'a> Sequence<'a> for TimeStampResp<'a> {
    ghost is_sequence = { refl };
}

impl<'a> FormValue for TimeStampResp<'a> {
    ghost value = { mapped_format (λ v. v.fields) ⟦<Fields<'a> as FieldList>⟧.list.octets };
}

impl<'a, R: Source<'a>> DecodeValue<'a, R> for TimeStampResp<'a> {
    ghost TAKES_MEMORY = { false };

    const TAKES_MEMORY: bool = false;

    fn decode_value(
        alloc: Global,
        reader: &mut R,
        _header: Header,
    ) -> Result<TimeStampResp<'a>, Error> {
        match Fields::<'a>::decode_fields(alloc, reader) {
            Ok(fields) => Ok(TimeStampResp { fields }),
            Err(e) => Err(e),
        }
    }

    ghost takes_memory_is = { refl };
}

impl<'a> EncodeValue for TimeStampResp<'a> {
    fn value_len(&self) -> Result<Length, Error> {
        self.fields.fields_len()
    }

    fn encode_value<W: Writer>(&self, writer: &mut W) -> Result<(), Error> {
        self.fields.encode_fields(writer)
    }

    fn encode_value_back<W: BackWriter>(&self, writer: &mut W) -> Result<(), Error> {
        self.fields.encode_fields_back(writer)
    }
}

impl<'a> ValueOrd for TimeStampResp<'a> {
    fn value_cmp(&self, other: &TimeStampResp<'a>) -> Result<Ordering, Error> {
        self.fields.cmp_fields(&other.fields)
    }
}

impl<'a> Member for TimeStampResp<'a> {
    ghost member = { struct_member ⟦<SequenceTag as TagMarker>⟧.TAG (λ v. v.fields.list)
        (field ⟦<PkiStatusInfo<'a> as Member>⟧.member
        (optional_field ⟦<TimeStampToken<'a> as Member>⟧.member
        no_fields)) };
}

impl<'a> ContentsEq for TimeStampResp<'a> {
    ghost contents_eq = { ⟦<TimeStampResp<'a> as Member>⟧.member.equal };
}

impl<'a> CopyIsDuplicate for TimeStampResp<'a> {}

/// What is read as `TimeStampResp` is what the grammar page says.
pub fn grammar_of_time_stamp_resp<'a>()
    ensures { ⟦<TimeStampResp<'a> as Form>⟧.parse ≡ parse_of time_stamp_resp }
{}

/// The contents octets of `TimeStampResp` are the encodings of its fields, one after another.
pub fn octets_of_time_stamp_resp<'a>()
    ensures { (v : TimeStampResp) → ⟦<TimeStampResp<'a> as FormValue>⟧.value.contents v ≡ joined (
        (⟦<PkiStatusInfo<'a> as Form>⟧.encoding (time_stamp_resp_fields.status v))
        ∷ optional (λ x. (⟦<TimeStampToken<'a> as Form>⟧.encoding x)) (time_stamp_resp_fields.time_stamp_token v)
        ∷ []) }
{}
