//! TSTInfo, a SEQUENCE of 10 fields.
//!
//! Made by tools/asn1 from time_stamp.asn1.

ghost use Rattle.std.specs.Prelude.{◌∷◌, ◌≡◌, [], false, refl, true};
ghost use Rattle.der_elem.specs.FormatMakers.{mapped_format};
ghost use Rattle.der_modules.specs.Asn1.{context, explicit_encoding, implicit_encoding, joined, optional, parse_of, unless_default};
ghost use Rattle.der_modules.specs.Members.{default_field, field, no_fields, optional_field, part, struct_member};
ghost use Rattle.der_time_stamp.specs.TimeStamp.Grammar.{tst_info};
ghost use Rattle.der_time_stamp.specs.TimeStamp.TstInfo as tst_info_fields;
ghost use Rattle.der_time_stamp.specs.declared.time_stamp.tst_info.TstInfo.{TstInfo};

use crate::time_stamp::accuracy::Accuracy;
use crate::time_stamp::aliases::{TsaPolicyId, TstInfoVersion};
use crate::time_stamp::message_imprint::MessageImprint;
use der_elem::{
    ContentsEq, CopyIsDuplicate, DecodeValue, EncodeValue, Form, FormValue, OneTag, Sequence,
    SequenceTag, TagMarker, ValueOrd,
};
use der_extensions::extension::GeneralName;
use der_fields::{
    DecodeFields, DefaultFalse, DefaultOf, EncodeFields, Explicit, FieldList, Fields2, Fields8,
    FieldsOrd, Implicit, WithDefault,
};
use der_modules::{Member, copy_of, field_list, if_present, tagged};
use der_numbers::IntRef;
use der_pkix::certificate::Extensions;
use der_simple::FractionalTimeRef;
use der_tlv::{BackWriter, Error, Header, Length, Source, Writer};
use std::alloc::Global;
use std::cmp::Ordering;
use std::fmt;

/// The list of the fields.
type Fields<'a> = Fields8<
    TstInfoVersion,
    TsaPolicyId<'a>,
    MessageImprint<'a>,
    IntRef<'a>,
    FractionalTimeRef<'a>,
    Option<Accuracy>,
    WithDefault<bool, DefaultFalse>,
    Option<IntRef<'a>>,
    Fields2<Option<Explicit<GeneralName<'a>, 0>>, Option<Implicit<Extensions<'a>, 1>>>,
>;

/// ```text
/// TSTInfo ::= SEQUENCE {
///      version         INTEGER { v1(1) },
///      policy          TSAPolicyId,
///      messageImprint  MessageImprint,
///      serialNumber    INTEGER,
///      genTime         GeneralizedTime,
///      accuracy        Accuracy OPTIONAL,
///      ordering        BOOLEAN DEFAULT FALSE,
///      nonce           INTEGER OPTIONAL,
///      tsa             [0] GeneralName OPTIONAL,
///      extensions      [1] IMPLICIT Extensions OPTIONAL }
/// ```
///
/// Reading refuses the first fault of the octets, in their order.
#[derive(Clone, Copy, PartialEq, Eq)]
pub struct TstInfo<'a> {
    fields: Fields<'a>,
}

impl<'a> TstInfo<'a> {
    ghost use Rattle.der_time_stamp.specs.TimeStamp.TstInfo as tst_info_fields;
    ghost use Rattle.std.specs.Prelude.{option_copied};

    /// A value of these fields.
    pub fn new(
        version: TstInfoVersion,
        policy: TsaPolicyId<'a>,
        message_imprint: &MessageImprint<'a>,
        serial_number: IntRef<'a>,
        gen_time: FractionalTimeRef<'a>,
        accuracy: Option<Accuracy>,
        ordering: bool,
        nonce: Option<IntRef<'a>>,
        tsa: Option<&GeneralName<'a>>,
        extensions: Option<&Extensions<'a>>,
    ) -> TstInfo<'a>
        ensures version { tst_info_fields.version result ≡ version }
        ensures policy { tst_info_fields.policy result ≡ policy.entry }
        ensures message_imprint { tst_info_fields.message_imprint result ≡ message_imprint.now }
        ensures serial_number { tst_info_fields.serial_number result ≡ serial_number.entry }
        ensures gen_time { tst_info_fields.gen_time result ≡ gen_time.entry }
        ensures accuracy { tst_info_fields.accuracy result ≡ accuracy }
        ensures ordering { tst_info_fields.ordering result ≡ ordering }
        ensures nonce { tst_info_fields.nonce result ≡ nonce.entry }
        ensures tsa { tst_info_fields.tsa result ≡ option_copied tsa.entry }
        ensures extensions { tst_info_fields.extensions result ≡ option_copied extensions.entry }
    {
        let list = field_list![
            if_present!(value in tsa => tagged!(Explicit, copy_of(value))),
            if_present!(value in extensions => Implicit { value: copy_of(value) })
        ];
        let rest = Fields2 { list };
        let list =
            field_list![version, policy, copy_of(message_imprint), serial_number, gen_time, accuracy, WithDefault::new(ordering), nonce; rest];
        let fields = Fields8 { list };
        TstInfo { fields }
    }

    /// `version`, `INTEGER { v1 (1) }`.
    pub fn version(&self) -> TstInfoVersion
        ensures { result ≡ tst_info_fields.version self.now }
    {
        self.fields.list.first
    }

    /// `policy`, `TSAPolicyId`.
    pub fn policy(&self) -> &TsaPolicyId<'a>
        ensures { result.now ≡ tst_info_fields.policy self.now }
    {
        &self.fields.list.rest.first
    }

    /// `messageImprint`, `MessageImprint`.
    pub fn message_imprint(&self) -> &MessageImprint<'a>
        ensures { result.now ≡ tst_info_fields.message_imprint self.now }
    {
        &self.fields.list.rest.rest.first
    }

    /// `serialNumber`, `INTEGER`.
    pub fn serial_number(&self) -> &IntRef<'a>
        ensures { result.now ≡ tst_info_fields.serial_number self.now }
    {
        &self.fields.list.rest.rest.rest.first
    }

    /// `genTime`, `GeneralizedTime`.
    pub fn gen_time(&self) -> &FractionalTimeRef<'a>
        ensures { result.now ≡ tst_info_fields.gen_time self.now }
    {
        &self.fields.list.rest.rest.rest.rest.first
    }

    /// `accuracy`, `Accuracy OPTIONAL`.
    pub fn accuracy(&self) -> Option<Accuracy>
        ensures { result ≡ tst_info_fields.accuracy self.now }
    {
        self.fields.list.rest.rest.rest.rest.rest.first
    }

    /// `ordering`, `BOOLEAN DEFAULT FALSE`.
    pub fn ordering(&self) -> bool
        ensures { result ≡ tst_info_fields.ordering self.now }
    {
        self.fields.list.rest.rest.rest.rest.rest.rest.first.value
    }

    /// `nonce`, `INTEGER OPTIONAL`.
    pub fn nonce(&self) -> Option<&IntRef<'a>>
        ensures { option_copied result ≡ tst_info_fields.nonce self.now }
    {
        if_present!(value in &self.fields.list.rest.rest.rest.rest.rest.rest.rest.first => value)
    }

    /// `tsa`, `[0] GeneralName OPTIONAL`.
    pub fn tsa(&self) -> Option<&GeneralName<'a>>
        ensures { option_copied result ≡ tst_info_fields.tsa self.now }
    {
        let tail = &self.fields.list.rest.rest.rest.rest.rest.rest.rest.rest;
        if_present!(value in &tail.list.first => &value.fields.first)
    }

    /// `extensions`, `[1] IMPLICIT Extensions OPTIONAL`.
    pub fn extensions(&self) -> Option<&Extensions<'a>>
        ensures { option_copied result ≡ tst_info_fields.extensions self.now }
    {
        let tail = &self.fields.list.rest.rest.rest.rest.rest.rest.rest.rest;
        if_present!(value in &tail.list.rest.first => &value.value)
    }
}

impl<'a> fmt::Debug for TstInfo<'a> {
    fn fmt<W: fmt::Write>(&self, f: &mut fmt::Formatter<W>) -> fmt::Result {
        f.debug_struct("TstInfo")
            .field("version", &self.version())
            .field("policy", self.policy())
            .field("message_imprint", self.message_imprint())
            .field("serial_number", self.serial_number())
            .field("gen_time", self.gen_time())
            .field("accuracy", &self.accuracy())
            .field("ordering", &self.ordering())
            .field("nonce", &self.nonce())
            .field("tsa", &self.tsa())
            .field("extensions", &self.extensions())
            .finish()
    }
}

impl<'a> OneTag for TstInfo<'a> {
    type Marker = SequenceTag;
}

impl<'a> Sequence<'a> for TstInfo<'a> {
    ghost is_sequence = { refl };
}

impl<'a> FormValue for TstInfo<'a> {
    ghost value = { mapped_format (λ v. v.fields) ⟦<Fields<'a> as FieldList>⟧.list.octets };
}

impl<'a, R: Source<'a>> DecodeValue<'a, R> for TstInfo<'a> {
    ghost TAKES_MEMORY = { false };

    const TAKES_MEMORY: bool = false;

    fn decode_value(alloc: Global, reader: &mut R, _header: Header) -> Result<TstInfo<'a>, Error> {
        match Fields::<'a>::decode_fields(alloc, reader) {
            Ok(fields) => Ok(TstInfo { fields }),
            Err(e) => Err(e),
        }
    }

    ghost takes_memory_is = { refl };
}

impl<'a> EncodeValue for TstInfo<'a> {
    fn value_len(&self) -> Result<Length, Error> {
        self.fields.fields_len()
    }

    fn encode_value<W: Writer>(&self, writer: &mut W) -> Result<(), Error> {
        self.fields.encode_fields(writer)
    }

    fn encode_value_back<W: BackWriter>(&self, writer: &mut W) -> Result<(), Error> {
        self.fields.encode_fields_back(writer)
    }
}

impl<'a> ValueOrd for TstInfo<'a> {
    fn value_cmp(&self, other: &TstInfo<'a>) -> Result<Ordering, Error> {
        self.fields.cmp_fields(&other.fields)
    }
}

impl<'a> Member for TstInfo<'a> {
    ghost member = { struct_member ⟦<SequenceTag as TagMarker>⟧.TAG (λ v. v.fields.list)
        (field ⟦<TstInfoVersion as Member>⟧.member
        (field ⟦<TsaPolicyId<'a> as Member>⟧.member
        (field ⟦<MessageImprint<'a> as Member>⟧.member
        (field ⟦<IntRef<'a> as Member>⟧.member
        (field ⟦<FractionalTimeRef<'a> as Member>⟧.member
        (optional_field ⟦<Accuracy as Member>⟧.member
        (default_field ⟦<DefaultFalse as DefaultOf<bool>>⟧.octets ⟦<bool as Member>⟧.member
        (optional_field ⟦<IntRef<'a> as Member>⟧.member
        (part (λ v. v.list)
        (optional_field ⟦<Explicit<GeneralName<'a>, 0> as Member>⟧.member
        (optional_field ⟦<Implicit<Extensions<'a>, 1> as Member>⟧.member
        no_fields))))))))))) };
}

impl<'a> ContentsEq for TstInfo<'a> {
    ghost contents_eq = { ⟦<TstInfo<'a> as Member>⟧.member.equal };
}

impl<'a> CopyIsDuplicate for TstInfo<'a> {}

/// What is read as `TSTInfo` is what the grammar page says.
pub fn grammar_of_tst_info<'a>()
    ensures { ⟦<TstInfo<'a> as Form>⟧.parse ≡ parse_of tst_info }
{}

/// The contents octets of `TSTInfo` are the encodings of its fields, one after another.
#[tactic(auto, using(der_modules::specs::Asn1::optional_of))]
pub fn octets_of_tst_info<'a>()
    ensures { (v : TstInfo) → ⟦<TstInfo<'a> as FormValue>⟧.value.contents v ≡ joined (
        (⟦<TstInfoVersion as Form>⟧.encoding (tst_info_fields.version v))
        ∷ (⟦<TsaPolicyId<'a> as Form>⟧.encoding (tst_info_fields.policy v))
        ∷ (⟦<MessageImprint<'a> as Form>⟧.encoding (tst_info_fields.message_imprint v))
        ∷ (⟦<IntRef<'a> as Form>⟧.encoding (tst_info_fields.serial_number v))
        ∷ (⟦<FractionalTimeRef<'a> as Form>⟧.encoding (tst_info_fields.gen_time v))
        ∷ optional (λ x. (⟦<Accuracy as Form>⟧.encoding x)) (tst_info_fields.accuracy v)
        ∷ unless_default ⟦<DefaultFalse as DefaultOf<bool>>⟧.octets (⟦<bool as Form>⟧.encoding (tst_info_fields.ordering v))
        ∷ optional (λ x. (⟦<IntRef<'a> as Form>⟧.encoding x)) (tst_info_fields.nonce v)
        ∷ optional (λ x. (explicit_encoding context 0 (⟦<GeneralName<'a> as Form>⟧.encoding x))) (tst_info_fields.tsa v)
        ∷ optional (λ x. (implicit_encoding context true 1 (⟦<Extensions<'a> as FormValue>⟧.value.contents x))) (tst_info_fields.extensions v)
        ∷ []) }
{}
