//! ValidationParms, a SEQUENCE of 2 fields.
//!
//! Made by tools/asn1 from algorithm.asn1.

ghost use Rattle.std.specs.Prelude.{◌∷◌, ◌≡◌, [], false, refl};
ghost use Rattle.der_elem.specs.FormatMakers.{mapped_format};
ghost use Rattle.der_modules.specs.Asn1.{joined, parse_of};
ghost use Rattle.der_modules.specs.Members.{field, no_fields, struct_member};
ghost use Rattle.der_pkcs.specs.Algorithm.Grammar.{validation_parms};
ghost use Rattle.der_pkcs.specs.Algorithm.ValidationParms as validation_parms_fields;
ghost use Rattle.der_pkcs.specs.declared.algorithm.validation_parms.ValidationParms.{ValidationParms};

use der_bits::BitStringRef;
use der_elem::{
    ContentsEq, CopyIsDuplicate, DecodeValue, EncodeValue, Form, FormValue, OneTag, Sequence,
    SequenceTag, TagMarker, ValueOrd,
};
use der_fields::{DecodeFields, EncodeFields, FieldList, Fields2, FieldsOrd};
use der_modules::{Member, field_list};
use der_numbers::UintRef;
use der_tlv::{BackWriter, Error, Header, Length, Source, Writer};
use std::alloc::Global;
use std::cmp::Ordering;
use std::fmt;

/// The list of the fields.
type Fields<'a> = Fields2<BitStringRef<'a>, UintRef<'a>>;

/// ```text
/// ValidationParms ::= SEQUENCE {
///      seed         BIT STRING,
///      pgenCounter  INTEGER (0..MAX) }
/// ```
///
/// Reading refuses the first fault of the octets, in their order.
#[derive(Clone, Copy, PartialEq, Eq)]
pub struct ValidationParms<'a> {
    fields: Fields<'a>,
}

impl<'a> ValidationParms<'a> {
    ghost use Rattle.der_pkcs.specs.Algorithm.ValidationParms as validation_parms_fields;

    /// A value of these fields.
    pub fn new(seed: BitStringRef<'a>, pgen_counter: UintRef<'a>) -> ValidationParms<'a>
        ensures seed { validation_parms_fields.seed result ≡ seed.entry }
        ensures pgen_counter { validation_parms_fields.pgen_counter result ≡ pgen_counter.entry }
    {
        let list = field_list![seed, pgen_counter];
        let fields = Fields2 { list };
        ValidationParms { fields }
    }

    /// `seed`, `BIT STRING`.
    pub fn seed(&self) -> &BitStringRef<'a>
        ensures { result.now ≡ validation_parms_fields.seed self.now }
    {
        &self.fields.list.first
    }

    /// `pgenCounter`, `INTEGER (0..MAX)`.
    pub fn pgen_counter(&self) -> &UintRef<'a>
        ensures { result.now ≡ validation_parms_fields.pgen_counter self.now }
    {
        &self.fields.list.rest.first
    }
}

impl<'a> fmt::Debug for ValidationParms<'a> {
    fn fmt<W: fmt::Write>(&self, f: &mut fmt::Formatter<W>) -> fmt::Result {
        f.debug_struct("ValidationParms")
            .field("seed", self.seed())
            .field("pgen_counter", self.pgen_counter())
            .finish()
    }
}

impl<'a> OneTag for ValidationParms<'a> {
    type Marker = SequenceTag;
}

impl<'a> Sequence<'a> for ValidationParms<'a> {
    ghost is_sequence = { refl };
}

impl<'a> FormValue for ValidationParms<'a> {
    ghost value = { mapped_format (λ v. v.fields) ⟦<Fields<'a> as FieldList>⟧.list.octets };
}

impl<'a, R: Source<'a>> DecodeValue<'a, R> for ValidationParms<'a> {
    ghost TAKES_MEMORY = { false };

    const TAKES_MEMORY: bool = false;

    fn decode_value(
        alloc: Global,
        reader: &mut R,
        _header: Header,
    ) -> Result<ValidationParms<'a>, Error> {
        match Fields::<'a>::decode_fields(alloc, reader) {
            Ok(fields) => Ok(ValidationParms { fields }),
            Err(e) => Err(e),
        }
    }

    ghost takes_memory_is = { refl };
}

impl<'a> EncodeValue for ValidationParms<'a> {
    fn value_len(&self) -> Result<Length, Error> {
        self.fields.fields_len()
    }

    fn encode_value<W: Writer>(&self, writer: &mut W) -> Result<(), Error> {
        self.fields.encode_fields(writer)
    }

    fn encode_value_back<W: BackWriter>(&self, writer: &mut W) -> Result<(), Error> {
        self.fields.encode_fields_back(writer)
    }
}

impl<'a> ValueOrd for ValidationParms<'a> {
    fn value_cmp(&self, other: &ValidationParms<'a>) -> Result<Ordering, Error> {
        self.fields.cmp_fields(&other.fields)
    }
}

impl<'a> Member for ValidationParms<'a> {
    ghost member = { struct_member ⟦<SequenceTag as TagMarker>⟧.TAG (λ v. v.fields.list)
        (field ⟦<BitStringRef<'a> as Member>⟧.member
        (field ⟦<UintRef<'a> as Member>⟧.member
        no_fields)) };
}

impl<'a> ContentsEq for ValidationParms<'a> {
    ghost contents_eq = { ⟦<ValidationParms<'a> as Member>⟧.member.equal };
}

impl<'a> CopyIsDuplicate for ValidationParms<'a> {}

/// What is read as `ValidationParms` is what the grammar page says.
pub fn grammar_of_validation_parms<'a>()
    ensures { ⟦<ValidationParms<'a> as Form>⟧.parse ≡ parse_of validation_parms }
{}

/// The contents octets of `ValidationParms` are the encodings of its fields, one after another.
pub fn octets_of_validation_parms<'a>()
    ensures { (v : ValidationParms) → ⟦<ValidationParms<'a> as FormValue>⟧.value.contents v ≡ joined (
        (⟦<BitStringRef<'a> as Form>⟧.encoding (validation_parms_fields.seed v))
        ∷ (⟦<UintRef<'a> as Form>⟧.encoding (validation_parms_fields.pgen_counter v))
        ∷ []) }
{}
