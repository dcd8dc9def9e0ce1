//! RSASSA-PSS-params, a SEQUENCE of 4 fields.
//!
//! Made by tools/asn1 from algorithm.asn1.

ghost use Rattle.std.specs.Prelude.{◌∷◌, ◌≡◌, [], false, refl};
ghost use Rattle.der_elem.specs.FormatMakers.{mapped_format};
ghost use Rattle.der_modules.specs.Asn1.{context, explicit_encoding, joined, optional, parse_of, unless_default};
ghost use Rattle.der_modules.specs.Members.{default_field, no_fields, optional_field, struct_member};
ghost use Rattle.der_pkcs.specs.Algorithm.Grammar.{rsassa_pss_params};
ghost use Rattle.der_pkcs.specs.Algorithm.RsassaPssParams as rsassa_pss_params_fields;
ghost use Rattle.der_pkcs.specs.declared.algorithm.rsassa_pss_params.RsassaPssParams.{RsassaPssParams};

use der_elem::{
    ContentsEq, CopyIsDuplicate, DecodeValue, EncodeValue, Form, FormValue, OneTag, Sequence,
    SequenceTag, TagMarker, ValueOrd,
};
use der_fields::{
    DecodeFields, DefaultNumber, DefaultOf, EncodeFields, Explicit, FieldList, Fields4, FieldsOrd,
    WithDefault,
};
use der_modules::{Member, copy_of, field_list, if_present, tagged};
use der_pkix::AlgorithmIdentifier;
use der_tlv::{BackWriter, Error, Header, Length, Source, Writer};
use std::alloc::Global;
use std::cmp::Ordering;
use std::fmt;

/// The list of the fields.
type Fields<'a> = Fields4<
    Option<Explicit<AlgorithmIdentifier<'a>, 0>>,
    Option<Explicit<AlgorithmIdentifier<'a>, 1>>,
    Option<Explicit<u32, 2>>,
    WithDefault<Explicit<u8, 3>, DefaultNumber<1>>,
>;

/// ```text
/// RSASSA-PSS-params ::= SEQUENCE {
///      hashAlgorithm     [0] AlgorithmIdentifier OPTIONAL,
///                            -- RFC 4055 has DEFAULT sha1Identifier
///      maskGenAlgorithm  [1] AlgorithmIdentifier OPTIONAL,
///                            -- RFC 4055 has DEFAULT mgf1SHA1Identifier
///      saltLength        [2] INTEGER OPTIONAL,
///                            -- RFC 4055 has DEFAULT 20
///      trailerField      [3] INTEGER DEFAULT 1
///      }
/// ```
///
/// Reading refuses the first fault of the octets, in their order.
///
/// Not checked: INTEGER as u32: other numbers are refused.
///
/// Not checked: INTEGER as u8: other numbers are refused.
#[derive(Clone, Copy, PartialEq, Eq)]
pub struct RsassaPssParams<'a> {
    fields: Fields<'a>,
}

impl<'a> RsassaPssParams<'a> {
    ghost use Rattle.der_pkcs.specs.Algorithm.RsassaPssParams as rsassa_pss_params_fields;
    ghost use Rattle.std.specs.Prelude.{option_copied};

    /// A value of these fields.
    pub fn new(
        hash_algorithm: Option<&AlgorithmIdentifier<'a>>,
        mask_gen_algorithm: Option<&AlgorithmIdentifier<'a>>,
        salt_length: Option<u32>,
        trailer_field: u8,
    ) -> RsassaPssParams<'a>
        ensures hash_algorithm { rsassa_pss_params_fields.hash_algorithm result ≡ option_copied hash_algorithm.entry }
        ensures mask_gen_algorithm { rsassa_pss_params_fields.mask_gen_algorithm result ≡ option_copied mask_gen_algorithm.entry }
        ensures salt_length { rsassa_pss_params_fields.salt_length result ≡ salt_length }
        ensures trailer_field { rsassa_pss_params_fields.trailer_field result ≡ trailer_field }
    {
        let list = field_list![
            if_present!(value in hash_algorithm => tagged!(Explicit, copy_of(value))),
            if_present!(value in mask_gen_algorithm => tagged!(Explicit, copy_of(value))),
            if_present!(value in salt_length => tagged!(Explicit, value)),
            WithDefault::new(tagged!(Explicit, trailer_field))
        ];
        let fields = Fields4 { list };
        RsassaPssParams { fields }
    }

    /// `hashAlgorithm`, `[0] AlgorithmIdentifier OPTIONAL`.
    pub fn hash_algorithm(&self) -> Option<&AlgorithmIdentifier<'a>>
        ensures { option_copied result ≡ rsassa_pss_params_fields.hash_algorithm self.now }
    {
        if_present!(value in &self.fields.list.first => &value.fields.first)
    }

    /// `maskGenAlgorithm`, `[1] AlgorithmIdentifier OPTIONAL`.
    pub fn mask_gen_algorithm(&self) -> Option<&AlgorithmIdentifier<'a>>
        ensures { option_copied result ≡ rsassa_pss_params_fields.mask_gen_algorithm self.now }
    {
        if_present!(value in &self.fields.list.rest.first => &value.fields.first)
    }

    /// `saltLength`, `[2] INTEGER OPTIONAL`.
    pub fn salt_length(&self) -> Option<u32>
        ensures { result ≡ rsassa_pss_params_fields.salt_length self.now }
    {
        if_present!(value in self.fields.list.rest.rest.first => value.fields.first)
    }

    /// `trailerField`, `[3] INTEGER DEFAULT 1`.
    pub fn trailer_field(&self) -> u8
        ensures { result ≡ rsassa_pss_params_fields.trailer_field self.now }
    {
        self.fields.list.rest.rest.rest.first.value.fields.first
    }
}

impl<'a> fmt::Debug for RsassaPssParams<'a> {
    fn fmt<W: fmt::Write>(&self, f: &mut fmt::Formatter<W>) -> fmt::Result {
        f.debug_struct("RsassaPssParams")
            .field("hash_algorithm", &self.hash_algorithm())
            .field("mask_gen_algorithm", &self.mask_gen_algorithm())
            .field("salt_length", &self.salt_length())
            .field("trailer_field", &self.trailer_field())
            .finish()
    }
}

impl<'a> OneTag for RsassaPssParams<'a> {
    type Marker = SequenceTag;
}

impl<'a> Sequence<'a> for RsassaPssParams<'a> {
    ghost is_sequence = { refl };
}

impl<'a> FormValue for RsassaPssParams<'a> {
    ghost value = { mapped_format (λ v. v.fields) ⟦<Fields<'a> as FieldList>⟧.list.octets };
}

impl<'a, R: Source<'a>> DecodeValue<'a, R> for RsassaPssParams<'a> {
    ghost TAKES_MEMORY = { false };

    const TAKES_MEMORY: bool = false;

    fn decode_value(
        alloc: Global,
        reader: &mut R,
        _header: Header,
    ) -> Result<RsassaPssParams<'a>, Error> {
        match Fields::<'a>::decode_fields(alloc, reader) {
            Ok(fields) => Ok(RsassaPssParams { fields }),
            Err(e) => Err(e),
        }
    }

    ghost takes_memory_is = { refl };
}

impl<'a> EncodeValue for RsassaPssParams<'a> {
    fn value_len(&self) -> Result<Length, Error> {
        self.fields.fields_len()
    }

    fn encode_value<W: Writer>(&self, writer: &mut W) -> Result<(), Error> {
        self.fields.encode_fields(writer)
    }

    fn encode_value_back<W: BackWriter>(&self, writer: &mut W) -> Result<(), Error> {
        self.fields.encode_fields_back(writer)
    }
}

impl<'a> ValueOrd for RsassaPssParams<'a> {
    fn value_cmp(&self, other: &RsassaPssParams<'a>) -> Result<Ordering, Error> {
        self.fields.cmp_fields(&other.fields)
    }
}

impl<'a> Member for RsassaPssParams<'a> {
    ghost member = { struct_member ⟦<SequenceTag as TagMarker>⟧.TAG (λ v. v.fields.list)
        (optional_field ⟦<Explicit<AlgorithmIdentifier<'a>, 0> as Member>⟧.member
        (optional_field ⟦<Explicit<AlgorithmIdentifier<'a>, 1> as Member>⟧.member
        (optional_field ⟦<Explicit<u32, 2> as Member>⟧.member
        (default_field ⟦<DefaultNumber<1> as DefaultOf<Explicit<u8, 3>>>⟧.octets ⟦<Explicit<u8, 3> as Member>⟧.member
        no_fields)))) };
}

impl<'a> ContentsEq for RsassaPssParams<'a> {
    ghost contents_eq = { ⟦<RsassaPssParams<'a> as Member>⟧.member.equal };
}

impl<'a> CopyIsDuplicate for RsassaPssParams<'a> {}

/// What is read as `RSASSA-PSS-params` is what the grammar page says.
pub fn grammar_of_rsassa_pss_params<'a>()
    ensures { ⟦<RsassaPssParams<'a> as Form>⟧.parse ≡ parse_of rsassa_pss_params }
{}

/// The contents octets of `RSASSA-PSS-params` are the encodings of its fields, one after another.
#[tactic(auto, using(der_modules::specs::Asn1::optional_of))]
pub fn octets_of_rsassa_pss_params<'a>()
    ensures { (v : RsassaPssParams) → ⟦<RsassaPssParams<'a> as FormValue>⟧.value.contents v ≡ joined (
        optional (λ x. (explicit_encoding context 0 (⟦<AlgorithmIdentifier<'a> as Form>⟧.encoding x))) (rsassa_pss_params_fields.hash_algorithm v)
        ∷ optional (λ x. (explicit_encoding context 1 (⟦<AlgorithmIdentifier<'a> as Form>⟧.encoding x))) (rsassa_pss_params_fields.mask_gen_algorithm v)
        ∷ optional (λ x. (explicit_encoding context 2 (⟦<u32 as Form>⟧.encoding x))) (rsassa_pss_params_fields.salt_length v)
        ∷ unless_default ⟦<DefaultNumber<1> as DefaultOf<Explicit<u8, 3>>>⟧.octets (explicit_encoding context 3 (⟦<u8 as Form>⟧.encoding (rsassa_pss_params_fields.trailer_field v)))
        ∷ []) }
{}
