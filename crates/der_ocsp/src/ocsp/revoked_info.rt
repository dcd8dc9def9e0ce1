//! RevokedInfo, a SEQUENCE of 2 fields.
//!
//! Made by tools/asn1 from ocsp.asn1.

ghost use Rattle.std.specs.Prelude.{◌∷◌, ◌≡◌, [], false, refl};
ghost use Rattle.der_elem.specs.FormatMakers.{mapped_format};
ghost use Rattle.der_modules.specs.Asn1.{context, explicit_encoding, joined, optional, parse_of};
ghost use Rattle.der_modules.specs.Members.{field, no_fields, optional_field, struct_member};
ghost use Rattle.der_ocsp.specs.Ocsp.Grammar.{revoked_info};
ghost use Rattle.der_ocsp.specs.Ocsp.RevokedInfo as revoked_info_fields;
ghost use Rattle.der_ocsp.specs.declared.ocsp.revoked_info.RevokedInfo.{RevokedInfo};

use der_elem::{
    ContentsEq, CopyIsDuplicate, DecodeValue, EncodeValue, Form, FormValue, OneTag, Sequence,
    SequenceTag, TagMarker, ValueOrd,
};
use der_extensions::extension::CrlReason;
use der_fields::{DecodeFields, EncodeFields, Explicit, FieldList, Fields2, FieldsOrd};
use der_modules::{Member, field_list, if_present, tagged};
use der_numbers::Enumerated;
use der_time::GeneralizedTime;
use der_tlv::{BackWriter, Error, Header, Length, Source, Writer};
use std::alloc::Global;
use std::cmp::Ordering;
use std::fmt;

/// The list of the fields.
type Fields = Fields2<GeneralizedTime, Option<Explicit<Enumerated<CrlReason>, 0>>>;

/// ```text
/// RevokedInfo ::= SEQUENCE {
///      revocationTime        GeneralizedTime,
///      revocationReason  [0] EXPLICIT CRLReason OPTIONAL }
/// ```
///
/// Reading refuses the first fault of the octets, in their order.
#[derive(Clone, Copy, PartialEq, Eq)]
pub struct RevokedInfo {
    fields: Fields,
}

impl RevokedInfo {
    ghost use Rattle.der_ocsp.specs.Ocsp.RevokedInfo as revoked_info_fields;

    /// A value of these fields.
    pub fn new(
        revocation_time: GeneralizedTime,
        revocation_reason: Option<CrlReason>,
    ) -> RevokedInfo
        ensures revocation_time { revoked_info_fields.revocation_time result ≡ revocation_time }
        ensures revocation_reason { revoked_info_fields.revocation_reason result ≡ revocation_reason }
    {
        let list = field_list![
            revocation_time,
            if_present!(value in revocation_reason => tagged!(Explicit, Enumerated { value }))
        ];
        let fields = Fields2 { list };
        RevokedInfo { fields }
    }

    /// `revocationTime`, `GeneralizedTime`.
    pub fn revocation_time(&self) -> GeneralizedTime
        ensures { result ≡ revoked_info_fields.revocation_time self.now }
    {
        self.fields.list.first
    }

    /// `revocationReason`, `[0] EXPLICIT CRLReason OPTIONAL`.
    pub fn revocation_reason(&self) -> Option<CrlReason>
        ensures { result ≡ revoked_info_fields.revocation_reason self.now }
    {
        if_present!(value in self.fields.list.rest.first => value.fields.first.value)
    }
}

impl fmt::Debug for RevokedInfo {
    fn fmt<W: fmt::Write>(&self, f: &mut fmt::Formatter<W>) -> fmt::Result {
        f.debug_struct("RevokedInfo")
            .field("revocation_time", &self.revocation_time())
            .field("revocation_reason", &self.revocation_reason())
            .finish()
    }
}

impl OneTag for RevokedInfo {
    type Marker = SequenceTag;
}

impl<'a> Sequence<'a> for RevokedInfo {
    ghost is_sequence = { refl };
}

impl FormValue for RevokedInfo {
    ghost value = { mapped_format (λ v. v.fields) ⟦<Fields as FieldList>⟧.list.octets };
}

impl<'a, R: Source<'a>> DecodeValue<'a, R> for RevokedInfo {
    ghost TAKES_MEMORY = { false };

    const TAKES_MEMORY: bool = false;

    fn decode_value(alloc: Global, reader: &mut R, _header: Header) -> Result<RevokedInfo, Error> {
        match Fields::decode_fields(alloc, reader) {
            Ok(fields) => Ok(RevokedInfo { fields }),
            Err(e) => Err(e),
        }
    }

    ghost takes_memory_is = { refl };
}

impl EncodeValue for RevokedInfo {
    fn value_len(&self) -> Result<Length, Error> {
        self.fields.fields_len()
    }

    fn encode_value<W: Writer>(&self, writer: &mut W) -> Result<(), Error> {
        self.fields.encode_fields(writer)
    }

    fn encode_value_back<W: BackWriter>(&self, writer: &mut W) -> Result<(), Error> {
        self.fields.encode_fields_back(writer)
    }
}

impl ValueOrd for RevokedInfo {
    fn value_cmp(&self, other: &RevokedInfo) -> Result<Ordering, Error> {
        self.fields.cmp_fields(&other.fields)
    }
}

impl Member for RevokedInfo {
    ghost member = { struct_member ⟦<SequenceTag as TagMarker>⟧.TAG (λ v. v.fields.list)
        (field ⟦<GeneralizedTime as Member>⟧.member
        (optional_field ⟦<Explicit<Enumerated<CrlReason>, 0> as Member>⟧.member
        no_fields)) };
}

impl ContentsEq for RevokedInfo {
    ghost contents_eq = { ⟦<RevokedInfo as Member>⟧.member.equal };
}

impl CopyIsDuplicate for RevokedInfo {}

/// What is read as `RevokedInfo` is what the grammar page says.
pub fn grammar_of_revoked_info()
    ensures { ⟦<RevokedInfo as Form>⟧.parse ≡ parse_of revoked_info }
{}

/// The contents octets of `RevokedInfo` are the encodings of its fields, one after another.
#[tactic(auto, using(der_modules::specs::Asn1::optional_of))]
pub fn octets_of_revoked_info()
    ensures { (v : RevokedInfo) → ⟦<RevokedInfo as FormValue>⟧.value.contents v ≡ joined (
        (⟦<GeneralizedTime as Form>⟧.encoding (revoked_info_fields.revocation_time v))
        ∷ optional (λ x. (explicit_encoding context 0 (⟦<Enumerated<CrlReason> as Form>⟧.encoding (record { value = x })))) (revoked_info_fields.revocation_reason v)
        ∷ []) }
{}
