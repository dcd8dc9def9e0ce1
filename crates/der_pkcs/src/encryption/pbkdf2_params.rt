//! PBKDF2-params, a SEQUENCE of 4 fields.
//!
//! Made by tools/asn1 from encryption.asn1.

ghost use Rattle.std.specs.Prelude.{◌∷◌, ◌≡◌, [], false, refl};
ghost use Rattle.der_elem.specs.FormatMakers.{mapped_format};
ghost use Rattle.der_modules.specs.Asn1.{joined, optional, parse_of};
ghost use Rattle.der_modules.specs.Members.{choice_field, field, no_fields, optional_field, struct_member};
ghost use Rattle.der_pkcs.specs.Encryption.Grammar.{pbkdf2_params};
ghost use Rattle.der_pkcs.specs.Encryption.Pbkdf2Params as pbkdf2_params_fields;
ghost use Rattle.der_pkcs.specs.declared.encryption.pbkdf2_params.Pbkdf2Params.{Pbkdf2Params};

use crate::encryption::pbkdf2_salt::Pbkdf2Salt;
use der_elem::{
    ContentsEq, CopyIsDuplicate, DecodeValue, EncodeValue, Form, FormValue, OneTag, Sequence,
    SequenceTag, TagMarker, ValueOrd,
};
use der_fields::{DecodeFields, EncodeFields, FieldList, Fields4, FieldsOrd};
use der_modules::{Choosing, Member, copy_of, field_list, if_present};
use der_pkix::AlgorithmIdentifier;
use der_tlv::{BackWriter, Error, Header, Length, Source, Writer};
use std::alloc::Global;
use std::cmp::Ordering;
use std::fmt;

/// The list of the fields.
type Fields<'a> = Fields4<Pbkdf2Salt<'a>, u32, Option<u32>, Option<AlgorithmIdentifier<'a>>>;

/// ```text
/// PBKDF2-params ::= SEQUENCE {
///      salt            CHOICE {
///           specified    OCTET STRING,
///           otherSource  AlgorithmIdentifier },
///      iterationCount  INTEGER (1..MAX),
///      keyLength       INTEGER (1..MAX) OPTIONAL,
///      prf             AlgorithmIdentifier OPTIONAL }
/// ```
///
/// Reading refuses the first fault of the octets, in their order.
///
/// Not checked: INTEGER as u32: other numbers are refused.
///
/// Not checked: INTEGER as u32: other numbers are refused.
#[derive(Clone, Copy, PartialEq, Eq)]
pub struct Pbkdf2Params<'a> {
    fields: Fields<'a>,
}

impl<'a> Pbkdf2Params<'a> {
    ghost use Rattle.der_pkcs.specs.Encryption.Pbkdf2Params as pbkdf2_params_fields;
    ghost use Rattle.std.specs.Prelude.{option_copied};

    /// A value of these fields.
    pub fn new(
        salt: &Pbkdf2Salt<'a>,
        iteration_count: u32,
        key_length: Option<u32>,
        prf: Option<&AlgorithmIdentifier<'a>>,
    ) -> Pbkdf2Params<'a>
        ensures salt { pbkdf2_params_fields.salt result ≡ salt.now }
        ensures iteration_count { pbkdf2_params_fields.iteration_count result ≡ iteration_count }
        ensures key_length { pbkdf2_params_fields.key_length result ≡ key_length }
        ensures prf { pbkdf2_params_fields.prf result ≡ option_copied prf.entry }
    {
        let list = field_list![
            copy_of(salt),
            iteration_count,
            key_length,
            if_present!(value in prf => copy_of(value))
        ];
        let fields = Fields4 { list };
        Pbkdf2Params { fields }
    }

    /// `salt`, `CHOICE { specified OCTET STRING, otherSource AlgorithmIdentifier }`.
    pub fn salt(&self) -> &Pbkdf2Salt<'a>
        ensures { result.now ≡ pbkdf2_params_fields.salt self.now }
    {
        &self.fields.list.first
    }

    /// `iterationCount`, `INTEGER (1..MAX)`.
    pub fn iteration_count(&self) -> u32
        ensures { result ≡ pbkdf2_params_fields.iteration_count self.now }
    {
        self.fields.list.rest.first
    }

    /// `keyLength`, `INTEGER (1..MAX) OPTIONAL`.
    pub fn key_length(&self) -> Option<u32>
        ensures { result ≡ pbkdf2_params_fields.key_length self.now }
    {
        self.fields.list.rest.rest.first
    }

    /// `prf`, `AlgorithmIdentifier OPTIONAL`.
    pub fn prf(&self) -> Option<&AlgorithmIdentifier<'a>>
        ensures { option_copied result ≡ pbkdf2_params_fields.prf self.now }
    {
        if_present!(value in &self.fields.list.rest.rest.rest.first => value)
    }
}

impl<'a> fmt::Debug for Pbkdf2Params<'a> {
    fn fmt<W: fmt::Write>(&self, f: &mut fmt::Formatter<W>) -> fmt::Result {
        f.debug_struct("Pbkdf2Params")
            .field("salt", self.salt())
            .field("iteration_count", &self.iteration_count())
            .field("key_length", &self.key_length())
            .field("prf", &self.prf())
            .finish()
    }
}

impl<'a> OneTag for Pbkdf2Params<'a> {
    type Marker = SequenceTag;
}

impl<'a> Sequence<'a> for Pbkdf2Params<'a> {
    ghost is_sequence = { refl };
}

impl<'a> FormValue for Pbkdf2Params<'a> {
    ghost value = { mapped_format (λ v. v.fields) ⟦<Fields<'a> as FieldList>⟧.list.octets };
}

impl<'a, R: Source<'a>> DecodeValue<'a, R> for Pbkdf2Params<'a> {
    ghost TAKES_MEMORY = { false };

    const TAKES_MEMORY: bool = false;

    fn decode_value(
        alloc: Global,
        reader: &mut R,
        _header: Header,
    ) -> Result<Pbkdf2Params<'a>, Error> {
        match Fields::<'a>::decode_fields(alloc, reader) {
            Ok(fields) => Ok(Pbkdf2Params { fields }),
            Err(e) => Err(e),
        }
    }

    ghost takes_memory_is = { refl };
}

impl<'a> EncodeValue for Pbkdf2Params<'a> {
    fn value_len(&self) -> Result<Length, Error> {
        self.fields.fields_len()
    }

    fn encode_value<W: Writer>(&self, writer: &mut W) -> Result<(), Error> {
        self.fields.encode_fields(writer)
    }

    fn encode_value_back<W: BackWriter>(&self, writer: &mut W) -> Result<(), Error> {
        self.fields.encode_fields_back(writer)
    }
}

impl<'a> ValueOrd for Pbkdf2Params<'a> {
    fn value_cmp(&self, other: &Pbkdf2Params<'a>) -> Result<Ordering, Error> {
        self.fields.cmp_fields(&other.fields)
    }
}

impl<'a> Member for Pbkdf2Params<'a> {
    ghost member = { struct_member ⟦<SequenceTag as TagMarker>⟧.TAG (λ v. v.fields.list)
        (choice_field ⟦<Pbkdf2Salt<'a> as Choosing>⟧.choice
        (field ⟦<u32 as Member>⟧.member
        (optional_field ⟦<u32 as Member>⟧.member
        (optional_field ⟦<AlgorithmIdentifier<'a> as Member>⟧.member
        no_fields)))) };
}

impl<'a> ContentsEq for Pbkdf2Params<'a> {
    ghost contents_eq = { ⟦<Pbkdf2Params<'a> as Member>⟧.member.equal };
}

impl<'a> CopyIsDuplicate for Pbkdf2Params<'a> {}

/// What is read as `PBKDF2-params` is what the grammar page says.
pub fn grammar_of_pbkdf2_params<'a>()
    ensures { ⟦<Pbkdf2Params<'a> as Form>⟧.parse ≡ parse_of pbkdf2_params }
{}

/// The contents octets of `PBKDF2-params` are the encodings of its fields, one after another.
pub fn octets_of_pbkdf2_params<'a>()
    ensures { (v : Pbkdf2Params) → ⟦<Pbkdf2Params<'a> as FormValue>⟧.value.contents v ≡ joined (
        (⟦<Pbkdf2Salt<'a> as Form>⟧.encoding (pbkdf2_params_fields.salt v))
        ∷ (⟦<u32 as Form>⟧.encoding (pbkdf2_params_fields.iteration_count v))
        ∷ optional (λ x. (⟦<u32 as Form>⟧.encoding x)) (pbkdf2_params_fields.key_length v)
        ∷ optional (λ x. (⟦<AlgorithmIdentifier<'a> as Form>⟧.encoding x)) (pbkdf2_params_fields.prf v)
        ∷ []) }
{}
