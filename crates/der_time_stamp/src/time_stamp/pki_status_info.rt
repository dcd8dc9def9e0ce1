//! PKIStatusInfo, a SEQUENCE of 3 fields.
//!
//! Made by tools/asn1 from time_stamp.asn1.

ghost use Rattle.std.specs.Prelude.{◌∷◌, ◌≡◌, [], false, refl};
ghost use Rattle.der_elem.specs.FormatMakers.{mapped_format};
ghost use Rattle.der_modules.specs.Asn1.{joined, optional, parse_of};
ghost use Rattle.der_modules.specs.Members.{field, no_fields, optional_field, struct_member};
ghost use Rattle.der_time_stamp.specs.TimeStamp.Grammar.{pki_status_info};
ghost use Rattle.der_time_stamp.specs.TimeStamp.PkiStatusInfo as pki_status_info_fields;
ghost use Rattle.der_time_stamp.specs.declared.time_stamp.pki_status_info.PkiStatusInfo.{PkiStatusInfo};

use crate::time_stamp::aliases::{PkiFailureInfo, PkiStatus};
use crate::time_stamp::pki_free_text::PkiFreeText;
use der_elem::{
    ContentsEq, CopyIsDuplicate, DecodeValue, EncodeValue, Form, FormValue, OneTag, Sequence,
    SequenceTag, TagMarker, ValueOrd,
};
use der_fields::{DecodeFields, EncodeFields, FieldList, Fields3, FieldsOrd};
use der_modules::{Member, copy_of, field_list, if_present};
use der_tlv::{BackWriter, Error, Header, Length, Source, Writer};
use std::alloc::Global;
use std::cmp::Ordering;
use std::fmt;

/// The list of the fields.
type Fields<'a> = Fields3<PkiStatus, Option<PkiFreeText<'a>>, Option<PkiFailureInfo<'a>>>;

/// ```text
/// PKIStatusInfo ::= SEQUENCE {
///      status        PKIStatus,
///      statusString  PKIFreeText OPTIONAL,
///      failInfo      PKIFailureInfo OPTIONAL }
/// ```
///
/// Reading refuses the first fault of the octets, in their order.
#[derive(Clone, Copy, PartialEq, Eq)]
pub struct PkiStatusInfo<'a> {
    fields: Fields<'a>,
}

impl<'a> PkiStatusInfo<'a> {
    ghost use Rattle.der_time_stamp.specs.TimeStamp.PkiStatusInfo as pki_status_info_fields;
    ghost use Rattle.std.specs.Prelude.{option_copied};

    /// A value of these fields.
    pub fn new(
        status: PkiStatus,
        status_string: Option<&PkiFreeText<'a>>,
        fail_info: Option<PkiFailureInfo<'a>>,
    ) -> PkiStatusInfo<'a>
        ensures status { pki_status_info_fields.status result ≡ status }
        ensures status_string { pki_status_info_fields.status_string result ≡ option_copied status_string.entry }
        ensures fail_info { pki_status_info_fields.fail_info result ≡ fail_info.entry }
    {
        let list = field_list![
            status,
            if_present!(value in status_string => copy_of(value)),
            fail_info
        ];
        let fields = Fields3 { list };
        PkiStatusInfo { fields }
    }

    /// `status`, `PKIStatus`.
    pub fn status(&self) -> PkiStatus
        ensures { result ≡ pki_status_info_fields.status self.now }
    {
        self.fields.list.first
    }

    /// `statusString`, `PKIFreeText OPTIONAL`.
    pub fn status_string(&self) -> Option<&PkiFreeText<'a>>
        ensures { option_copied result ≡ pki_status_info_fields.status_string self.now }
    {
        if_present!(value in &self.fields.list.rest.first => value)
    }

    /// `failInfo`, `PKIFailureInfo OPTIONAL`.
    pub fn fail_info(&self) -> Option<&PkiFailureInfo<'a>>
        ensures { option_copied result ≡ pki_status_info_fields.fail_info self.now }
    {
        if_present!(value in &self.fields.list.rest.rest.first => value)
    }
}

impl<'a> fmt::Debug for PkiStatusInfo<'a> {
    fn fmt<W: fmt::Write>(&self, f: &mut fmt::Formatter<W>) -> fmt::Result {
        f.debug_struct("PkiStatusInfo")
            .field("status", &self.status())
            .field("status_string", &self.status_string())
            .field("fail_info", &self.fail_info())
            .finish()
    }
}

impl<'a> OneTag for PkiStatusInfo<'a> {
    type Marker = SequenceTag;
}

impl<'a> Sequence<'a> for PkiStatusInfo<'a> {
    ghost is_sequence = { refl };
}

impl<'a> FormValue for PkiStatusInfo<'a> {
    ghost value = { mapped_format (λ v. v.fields) ⟦<Fields<'a> as FieldList>⟧.list.octets };
}

impl<'a, R: Source<'a>> DecodeValue<'a, R> for PkiStatusInfo<'a> {
    ghost TAKES_MEMORY = { false };

    const TAKES_MEMORY: bool = false;

    fn decode_value(
        alloc: Global,
        reader: &mut R,
        _header: Header,
    ) -> Result<PkiStatusInfo<'a>, Error> {
        match Fields::<'a>::decode_fields(alloc, reader) {
            Ok(fields) => Ok(PkiStatusInfo { fields }),
            Err(e) => Err(e),
        }
    }

    ghost takes_memory_is = { refl };
}

impl<'a> EncodeValue for PkiStatusInfo<'a> {
    fn value_len(&self) -> Result<Length, Error> {
        self.fields.fields_len()
    }

    fn encode_value<W: Writer>(&self, writer: &mut W) -> Result<(), Error> {
        self.fields.encode_fields(writer)
    }

    fn encode_value_back<W: BackWriter>(&self, writer: &mut W) -> Result<(), Error> {
        self.fields.encode_fields_back(writer)
    }
}

impl<'a> ValueOrd for PkiStatusInfo<'a> {
    fn value_cmp(&self, other: &PkiStatusInfo<'a>) -> Result<Ordering, Error> {
        self.fields.cmp_fields(&other.fields)
    }
}

impl<'a> Member for PkiStatusInfo<'a> {
    ghost member = { struct_member ⟦<SequenceTag as TagMarker>⟧.TAG (λ v. v.fields.list)
        (field ⟦<PkiStatus as Member>⟧.member
        (optional_field ⟦<PkiFreeText<'a> as Member>⟧.member
        (optional_field ⟦<PkiFailureInfo<'a> as Member>⟧.member
        no_fields))) };
}

impl<'a> ContentsEq for PkiStatusInfo<'a> {
    ghost contents_eq = { ⟦<PkiStatusInfo<'a> as Member>⟧.member.equal };
}

impl<'a> CopyIsDuplicate for PkiStatusInfo<'a> {}

/// What is read as `PKIStatusInfo` is what the grammar page says.
pub fn grammar_of_pki_status_info<'a>()
    ensures { ⟦<PkiStatusInfo<'a> as Form>⟧.parse ≡ parse_of pki_status_info }
{}

/// The contents octets of `PKIStatusInfo` are the encodings of its fields, one after another.
pub fn octets_of_pki_status_info<'a>()
    ensures { (v : PkiStatusInfo) → ⟦<PkiStatusInfo<'a> as FormValue>⟧.value.contents v ≡ joined (
        (⟦<PkiStatus as Form>⟧.encoding (pki_status_info_fields.status v))
        ∷ optional (λ x. (⟦<PkiFreeText<'a> as Form>⟧.encoding x)) (pki_status_info_fields.status_string v)
        ∷ optional (λ x. (⟦<PkiFailureInfo<'a> as Form>⟧.encoding x)) (pki_status_info_fields.fail_info v)
        ∷ []) }
{}
