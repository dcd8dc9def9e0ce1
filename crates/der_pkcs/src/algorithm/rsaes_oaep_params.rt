//! RSAES-OAEP-params, a SEQUENCE of 3 fields.
//!
//! Made by tools/asn1 from algorithm.asn1.

ghost use Rattle.std.specs.Prelude.{◌∷◌, ◌≡◌, [], false, refl};
ghost use Rattle.der_elem.specs.FormatMakers.{mapped_format};
ghost use Rattle.der_modules.specs.Asn1.{context, explicit_encoding, joined, optional, parse_of};
ghost use Rattle.der_modules.specs.Members.{no_fields, optional_field, struct_member};
ghost use Rattle.der_pkcs.specs.Algorithm.Grammar.{rsaes_oaep_params};
ghost use Rattle.der_pkcs.specs.Algorithm.RsaesOaepParams as rsaes_oaep_params_fields;
ghost use Rattle.der_pkcs.specs.declared.algorithm.rsaes_oaep_params.RsaesOaepParams.{RsaesOaepParams};

use der_elem::{
    ContentsEq, CopyIsDuplicate, DecodeValue, EncodeValue, Form, FormValue, OneTag, Sequence,
    SequenceTag, TagMarker, ValueOrd,
};
use der_fields::{DecodeFields, EncodeFields, Explicit, FieldList, Fields3, FieldsOrd};
use der_modules::{Member, copy_of, field_list, if_present, tagged};
use der_pkix::AlgorithmIdentifier;
use der_tlv::{BackWriter, Error, Header, Length, Source, Writer};
use std::alloc::Global;
use std::cmp::Ordering;
use std::fmt;

/// The list of the fields.
type Fields<'a> = Fields3<
    Option<Explicit<AlgorithmIdentifier<'a>, 0>>,
    Option<Explicit<AlgorithmIdentifier<'a>, 1>>,
    Option<Explicit<AlgorithmIdentifier<'a>, 2>>,
>;

/// ```text
/// RSAES-OAEP-params ::= SEQUENCE {
///      hashFunc     [0] AlgorithmIdentifier OPTIONAL,
///                       -- RFC 4055 has DEFAULT sha1Identifier
///      maskGenFunc  [1] AlgorithmIdentifier OPTIONAL,
///                       -- RFC 4055 has DEFAULT mgf1SHA1Identifier
///      pSourceFunc  [2] AlgorithmIdentifier OPTIONAL }
/// ```
///
/// Reading refuses the first fault of the octets, in their order.
#[derive(Clone, Copy, PartialEq, Eq)]
pub struct RsaesOaepParams<'a> {
    fields: Fields<'a>,
}

impl<'a> RsaesOaepParams<'a> {
    ghost use Rattle.der_pkcs.specs.Algorithm.RsaesOaepParams as rsaes_oaep_params_fields;
    ghost use Rattle.std.specs.Prelude.{option_copied};

    /// A value of these fields.
    pub fn new(
        hash_func: Option<&AlgorithmIdentifier<'a>>,
        mask_gen_func: Option<&AlgorithmIdentifier<'a>>,
        p_source_func: Option<&AlgorithmIdentifier<'a>>,
    ) -> RsaesOaepParams<'a>
        ensures hash_func { rsaes_oaep_params_fields.hash_func result ≡ option_copied hash_func.entry }
        ensures mask_gen_func { rsaes_oaep_params_fields.mask_gen_func result ≡ option_copied mask_gen_func.entry }
        ensures p_source_func { rsaes_oaep_params_fields.p_source_func result ≡ option_copied p_source_func.entry }
    {
        let list = field_list![
            if_present!(value in hash_func => tagged!(Explicit, copy_of(value))),
            if_present!(value in mask_gen_func => tagged!(Explicit, copy_of(value))),
            if_present!(value in p_source_func => tagged!(Explicit, copy_of(value)))
        ];
        let fields = Fields3 { list };
        RsaesOaepParams { fields }
    }

    /// `hashFunc`, `[0] AlgorithmIdentifier OPTIONAL`.
    pub fn hash_func(&self) -> Option<&AlgorithmIdentifier<'a>>
        ensures { option_copied result ≡ rsaes_oaep_params_fields.hash_func self.now }
    {
        if_present!(value in &self.fields.list.first => &value.fields.first)
    }

    /// `maskGenFunc`, `[1] AlgorithmIdentifier OPTIONAL`.
    pub fn mask_gen_func(&self) -> Option<&AlgorithmIdentifier<'a>>
        ensures { option_copied result ≡ rsaes_oaep_params_fields.mask_gen_func self.now }
    {
        if_present!(value in &self.fields.list.rest.first => &value.fields.first)
    }

    /// `pSourceFunc`, `[2] AlgorithmIdentifier OPTIONAL`.
    pub fn p_source_func(&self) -> Option<&AlgorithmIdentifier<'a>>
        ensures { option_copied result ≡ rsaes_oaep_params_fields.p_source_func self.now }
    {
        if_present!(value in &self.fields.list.rest.rest.first => &value.fields.first)
    }
}

impl<'a> fmt::Debug for RsaesOaepParams<'a> {
    fn fmt<W: fmt::Write>(&self, f: &mut fmt::Formatter<W>) -> fmt::Result {
        f.debug_struct("RsaesOaepParams")
            .field("hash_func", &self.hash_func())
            .field("mask_gen_func", &self.mask_gen_func())
            .field("p_source_func", &self.p_source_func())
            .finish()
    }
}

impl<'a> OneTag for RsaesOaepParams<'a> {
    type Marker = SequenceTag;
}

impl<'a> Sequence<'a> for RsaesOaepParams<'a> {
    ghost is_sequence = { refl };
}

impl<'a> FormValue for RsaesOaepParams<'a> {
    ghost value = { mapped_format (λ v. v.fields) ⟦<Fields<'a> as FieldList>⟧.list.octets };
}

impl<'a, R: Source<'a>> DecodeValue<'a, R> for RsaesOaepParams<'a> {
    ghost TAKES_MEMORY = { false };

    const TAKES_MEMORY: bool = false;

    fn decode_value(
        alloc: Global,
        reader: &mut R,
        _header: Header,
    ) -> Result<RsaesOaepParams<'a>, Error> {
        match Fields::<'a>::decode_fields(alloc, reader) {
            Ok(fields) => Ok(RsaesOaepParams { fields }),
            Err(e) => Err(e),
        }
    }

    ghost takes_memory_is = { refl };
}

impl<'a> EncodeValue for RsaesOaepParams<'a> {
    fn value_len(&self) -> Result<Length, Error> {
        self.fields.fields_len()
    }

    fn encode_value<W: Writer>(&self, writer: &mut W) -> Result<(), Error> {
        self.fields.encode_fields(writer)
    }

    fn encode_value_back<W: BackWriter>(&self, writer: &mut W) -> Result<(), Error> {
        self.fields.encode_fields_back(writer)
    }
}

impl<'a> ValueOrd for RsaesOaepParams<'a> {
    fn value_cmp(&self, other: &RsaesOaepParams<'a>) -> Result<Ordering, Error> {
        self.fields.cmp_fields(&other.fields)
    }
}

impl<'a> Member for RsaesOaepParams<'a> {
    ghost member = { struct_member ⟦<SequenceTag as TagMarker>⟧.TAG (λ v. v.fields.list)
        (optional_field ⟦<Explicit<AlgorithmIdentifier<'a>, 0> as Member>⟧.member
        (optional_field ⟦<Explicit<AlgorithmIdentifier<'a>, 1> as Member>⟧.member
        (optional_field ⟦<Explicit<AlgorithmIdentifier<'a>, 2> as Member>⟧.member
        no_fields))) };
}

impl<'a> ContentsEq for RsaesOaepParams<'a> {
    ghost contents_eq = { ⟦<RsaesOaepParams<'a> as Member>⟧.member.equal };
}

impl<'a> CopyIsDuplicate for RsaesOaepParams<'a> {}

/// What is read as `RSAES-OAEP-params` is what the grammar page says.
pub fn grammar_of_rsaes_oaep_params<'a>()
    ensures { ⟦<RsaesOaepParams<'a> as Form>⟧.parse ≡ parse_of rsaes_oaep_params }
{}

/// The contents octets of `RSAES-OAEP-params` are the encodings of its fields, one after another.
#[tactic(auto, using(der_modules::specs::Asn1::optional_of))]
pub fn octets_of_rsaes_oaep_params<'a>()
    ensures { (v : RsaesOaepParams) → ⟦<RsaesOaepParams<'a> as FormValue>⟧.value.contents v ≡ joined (
        optional (λ x. (explicit_encoding context 0 (⟦<AlgorithmIdentifier<'a> as Form>⟧.encoding x))) (rsaes_oaep_params_fields.hash_func v)
        ∷ optional (λ x. (explicit_encoding context 1 (⟦<AlgorithmIdentifier<'a> as Form>⟧.encoding x))) (rsaes_oaep_params_fields.mask_gen_func v)
        ∷ optional (λ x. (explicit_encoding context 2 (⟦<AlgorithmIdentifier<'a> as Form>⟧.encoding x))) (rsaes_oaep_params_fields.p_source_func v)
        ∷ []) }
{}
