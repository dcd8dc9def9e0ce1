//! CrlID, a SEQUENCE of 3 fields.
//!
//! Made by tools/asn1 from ocsp.asn1.

ghost use Rattle.std.specs.Prelude.{◌∷◌, ◌≡◌, [], false, refl};
ghost use Rattle.der_elem.specs.FormatMakers.{mapped_format};
ghost use Rattle.der_modules.specs.Asn1.{context, explicit_encoding, joined, optional, parse_of};
ghost use Rattle.der_modules.specs.Members.{no_fields, optional_field, struct_member};
ghost use Rattle.der_ocsp.specs.Ocsp.CrlId as crl_id_fields;
ghost use Rattle.der_ocsp.specs.Ocsp.Grammar.{crl_id};
ghost use Rattle.der_ocsp.specs.declared.ocsp.crl_id.CrlId.{CrlId};

use der_ascii::Ia5StringRef;
use der_elem::{
    ContentsEq, CopyIsDuplicate, DecodeValue, EncodeValue, Form, FormValue, OneTag, Sequence,
    SequenceTag, TagMarker, ValueOrd,
};
use der_fields::{DecodeFields, EncodeFields, Explicit, FieldList, Fields3, FieldsOrd};
use der_modules::{Member, field_list, if_present, tagged};
use der_numbers::IntRef;
use der_time::GeneralizedTime;
use der_tlv::{BackWriter, Error, Header, Length, Source, Writer};
use std::alloc::Global;
use std::cmp::Ordering;
use std::fmt;

/// The list of the fields.
type Fields<'a> = Fields3<
    Option<Explicit<Ia5StringRef<'a>, 0>>,
    Option<Explicit<IntRef<'a>, 1>>,
    Option<Explicit<GeneralizedTime, 2>>,
>;

/// ```text
/// CrlID ::= SEQUENCE {
///      crlUrl   [0] EXPLICIT IA5String OPTIONAL,
///      crlNum   [1] EXPLICIT INTEGER OPTIONAL,
///      crlTime  [2] EXPLICIT GeneralizedTime OPTIONAL }
/// ```
///
/// Reading refuses the first fault of the octets, in their order.
#[derive(Clone, Copy, PartialEq, Eq)]
pub struct CrlId<'a> {
    fields: Fields<'a>,
}

impl<'a> CrlId<'a> {
    ghost use Rattle.der_ocsp.specs.Ocsp.CrlId as crl_id_fields;
    ghost use Rattle.std.specs.Prelude.{option_copied};

    /// A value of these fields.
    pub fn new(
        crl_url: Option<Ia5StringRef<'a>>,
        crl_num: Option<IntRef<'a>>,
        crl_time: Option<GeneralizedTime>,
    ) -> CrlId<'a>
        ensures crl_url { crl_id_fields.crl_url result ≡ crl_url.entry }
        ensures crl_num { crl_id_fields.crl_num result ≡ crl_num.entry }
        ensures crl_time { crl_id_fields.crl_time result ≡ crl_time }
    {
        let list = field_list![
            if_present!(value in crl_url => tagged!(Explicit, value)),
            if_present!(value in crl_num => tagged!(Explicit, value)),
            if_present!(value in crl_time => tagged!(Explicit, value))
        ];
        let fields = Fields3 { list };
        CrlId { fields }
    }

    /// `crlUrl`, `[0] EXPLICIT IA5String OPTIONAL`.
    pub fn crl_url(&self) -> Option<&Ia5StringRef<'a>>
        ensures { option_copied result ≡ crl_id_fields.crl_url self.now }
    {
        if_present!(value in &self.fields.list.first => &value.fields.first)
    }

    /// `crlNum`, `[1] EXPLICIT INTEGER OPTIONAL`.
    pub fn crl_num(&self) -> Option<&IntRef<'a>>
        ensures { option_copied result ≡ crl_id_fields.crl_num self.now }
    {
        if_present!(value in &self.fields.list.rest.first => &value.fields.first)
    }

    /// `crlTime`, `[2] EXPLICIT GeneralizedTime OPTIONAL`.
    pub fn crl_time(&self) -> Option<GeneralizedTime>
        ensures { result ≡ crl_id_fields.crl_time self.now }
    {
        if_present!(value in self.fields.list.rest.rest.first => value.fields.first)
    }
}

impl<'a> fmt::Debug for CrlId<'a> {
    fn fmt<W: fmt::Write>(&self, f: &mut fmt::Formatter<W>) -> fmt::Result {
        f.debug_struct("CrlId")
            .field("crl_url", &self.crl_url())
            .field("crl_num", &self.crl_num())
            .field("crl_time", &self.crl_time())
            .finish()
    }
}

impl<'a> OneTag for CrlId<'a> {
    type Marker = SequenceTag;
}

impl<'a> Sequence<'a> for CrlId<'a> {
    ghost is_sequence = { refl };
}

impl<'a> FormValue for CrlId<'a> {
    ghost value = { mapped_format (λ v. v.fields) ⟦<Fields<'a> as FieldList>⟧.list.octets };
}

impl<'a, R: Source<'a>> DecodeValue<'a, R> for CrlId<'a> {
    ghost TAKES_MEMORY = { false };

    const TAKES_MEMORY: bool = false;

    fn decode_value(alloc: Global, reader: &mut R, _header: Header) -> Result<CrlId<'a>, Error> {
        match Fields::<'a>::decode_fields(alloc, reader) {
            Ok(fields) => Ok(CrlId { fields }),
            Err(e) => Err(e),
        }
    }

    ghost takes_memory_is = { refl };
}

impl<'a> EncodeValue for CrlId<'a> {
    fn value_len(&self) -> Result<Length, Error> {
        self.fields.fields_len()
    }

    fn encode_value<W: Writer>(&self, writer: &mut W) -> Result<(), Error> {
        self.fields.encode_fields(writer)
    }

    fn encode_value_back<W: BackWriter>(&self, writer: &mut W) -> Result<(), Error> {
        self.fields.encode_fields_back(writer)
    }
}

impl<'a> ValueOrd for CrlId<'a> {
    fn value_cmp(&self, other: &CrlId<'a>) -> Result<Ordering, Error> {
        self.fields.cmp_fields(&other.fields)
    }
}

impl<'a> Member for CrlId<'a> {
    ghost member = { struct_member ⟦<SequenceTag as TagMarker>⟧.TAG (λ v. v.fields.list)
        (optional_field ⟦<Explicit<Ia5StringRef<'a>, 0> as Member>⟧.member
        (optional_field ⟦<Explicit<IntRef<'a>, 1> as Member>⟧.member
        (optional_field ⟦<Explicit<GeneralizedTime, 2> as Member>⟧.member
        no_fields))) };
}

impl<'a> ContentsEq for CrlId<'a> {
    ghost contents_eq = { ⟦<CrlId<'a> as Member>⟧.member.equal };
}

impl<'a> CopyIsDuplicate for CrlId<'a> {}

/// What is read as `CrlID` is what the grammar page says.
pub fn grammar_of_crl_id<'a>()
    ensures { ⟦<CrlId<'a> as Form>⟧.parse ≡ parse_of crl_id }
{}

/// The contents octets of `CrlID` are the encodings of its fields, one after another.
#[tactic(auto, using(der_modules::specs::Asn1::optional_of))]
pub fn octets_of_crl_id<'a>()
    ensures { (v : CrlId) → ⟦<CrlId<'a> as FormValue>⟧.value.contents v ≡ joined (
        optional (λ x. (explicit_encoding context 0 (⟦<Ia5StringRef<'a> as Form>⟧.encoding x))) (crl_id_fields.crl_url v)
        ∷ optional (λ x. (explicit_encoding context 1 (⟦<IntRef<'a> as Form>⟧.encoding x))) (crl_id_fields.crl_num v)
        ∷ optional (λ x. (explicit_encoding context 2 (⟦<GeneralizedTime as Form>⟧.encoding x))) (crl_id_fields.crl_time v)
        ∷ []) }
{}
