//! OtherPrimeInfo, a SEQUENCE of 3 fields.
//!
//! Made by tools/asn1 from key.asn1.

ghost use Rattle.std.specs.Prelude.{◌∷◌, ◌≡◌, [], false, refl};
ghost use Rattle.der_elem.specs.FormatMakers.{mapped_format};
ghost use Rattle.der_modules.specs.Asn1.{joined, parse_of};
ghost use Rattle.der_modules.specs.Members.{field, no_fields, struct_member};
ghost use Rattle.der_pkix.specs.Key.Grammar.{other_prime_info};
ghost use Rattle.der_pkix.specs.Key.OtherPrimeInfo as other_prime_info_fields;
ghost use Rattle.der_pkix.specs.declared.key.other_prime_info.OtherPrimeInfo.{OtherPrimeInfo};

use der_elem::{
    ContentsEq, CopyIsDuplicate, DecodeValue, EncodeValue, Form, FormValue, OneTag, Sequence,
    SequenceTag, TagMarker, ValueOrd,
};
use der_fields::{DecodeFields, EncodeFields, FieldList, Fields3, FieldsOrd};
use der_modules::{Member, field_list};
use der_numbers::UintRef;
use der_tlv::{BackWriter, Error, Header, Length, Source, Writer};
use std::alloc::Global;
use std::cmp::Ordering;
use std::fmt;

/// The list of the fields.
type Fields<'a> = Fields3<UintRef<'a>, UintRef<'a>, UintRef<'a>>;

/// ```text
/// OtherPrimeInfo ::= SEQUENCE {
///      prime        INTEGER (0..MAX),  -- ri
///      exponent     INTEGER (0..MAX),  -- di
///      coefficient  INTEGER (0..MAX) }
/// ```
///
/// Reading refuses the first fault of the octets, in their order.
#[derive(Clone, Copy, PartialEq, Eq)]
pub struct OtherPrimeInfo<'a> {
    fields: Fields<'a>,
}

impl<'a> OtherPrimeInfo<'a> {
    ghost use Rattle.der_pkix.specs.Key.OtherPrimeInfo as other_prime_info_fields;

    /// A value of these fields.
    pub fn new(
        prime: UintRef<'a>,
        exponent: UintRef<'a>,
        coefficient: UintRef<'a>,
    ) -> OtherPrimeInfo<'a>
        ensures prime { other_prime_info_fields.prime result ≡ prime.entry }
        ensures exponent { other_prime_info_fields.exponent result ≡ exponent.entry }
        ensures coefficient { other_prime_info_fields.coefficient result ≡ coefficient.entry }
    {
        let list = field_list![prime, exponent, coefficient];
        let fields = Fields3 { list };
        OtherPrimeInfo { fields }
    }

    /// `prime`, `INTEGER (0..MAX)`.
    pub fn prime(&self) -> &UintRef<'a>
        ensures { result.now ≡ other_prime_info_fields.prime self.now }
    {
        &self.fields.list.first
    }

    /// `exponent`, `INTEGER (0..MAX)`.
    pub fn exponent(&self) -> &UintRef<'a>
        ensures { result.now ≡ other_prime_info_fields.exponent self.now }
    {
        &self.fields.list.rest.first
    }

    /// `coefficient`, `INTEGER (0..MAX)`.
    pub fn coefficient(&self) -> &UintRef<'a>
        ensures { result.now ≡ other_prime_info_fields.coefficient self.now }
    {
        &self.fields.list.rest.rest.first
    }
}

impl<'a> fmt::Debug for OtherPrimeInfo<'a> {
    fn fmt<W: fmt::Write>(&self, f: &mut fmt::Formatter<W>) -> fmt::Result {
        f.debug_struct("OtherPrimeInfo")
            .field("prime", self.prime())
            .field("exponent", self.exponent())
            .field("coefficient", self.coefficient())
            .finish()
    }
}

impl<'a> OneTag for OtherPrimeInfo<'a> {
    type Marker = SequenceTag;
}

impl<'a> Sequence<'a> for OtherPrimeInfo<'a> {
    ghost is_sequence = { refl };
}

impl<'a> FormValue for OtherPrimeInfo<'a> {
    ghost value = { mapped_format (λ v. v.fields) ⟦<Fields<'a> as FieldList>⟧.list.octets };
}

impl<'a, R: Source<'a>> DecodeValue<'a, R> for OtherPrimeInfo<'a> {
    ghost TAKES_MEMORY = { false };

    const TAKES_MEMORY: bool = false;

    fn decode_value(
        alloc: Global,
        reader: &mut R,
        _header: Header,
    ) -> Result<OtherPrimeInfo<'a>, Error> {
        match Fields::<'a>::decode_fields(alloc, reader) {
            Ok(fields) => Ok(OtherPrimeInfo { fields }),
            Err(e) => Err(e),
        }
    }

    ghost takes_memory_is = { refl };
}

impl<'a> EncodeValue for OtherPrimeInfo<'a> {
    fn value_len(&self) -> Result<Length, Error> {
        self.fields.fields_len()
    }

    fn encode_value<W: Writer>(&self, writer: &mut W) -> Result<(), Error> {
        self.fields.encode_fields(writer)
    }

    fn encode_value_back<W: BackWriter>(&self, writer: &mut W) -> Result<(), Error> {
        self.fields.encode_fields_back(writer)
    }
}

impl<'a> ValueOrd for OtherPrimeInfo<'a> {
    fn value_cmp(&self, other: &OtherPrimeInfo<'a>) -> Result<Ordering, Error> {
        self.fields.cmp_fields(&other.fields)
    }
}

impl<'a> Member for OtherPrimeInfo<'a> {
    ghost member = { struct_member ⟦<SequenceTag as TagMarker>⟧.TAG (λ v. v.fields.list)
        (field ⟦<UintRef<'a> as Member>⟧.member
        (field ⟦<UintRef<'a> as Member>⟧.member
        (field ⟦<UintRef<'a> as Member>⟧.member
        no_fields))) };
}

impl<'a> ContentsEq for OtherPrimeInfo<'a> {
    ghost contents_eq = { ⟦<OtherPrimeInfo<'a> as Member>⟧.member.equal };
}

impl<'a> CopyIsDuplicate for OtherPrimeInfo<'a> {}

/// What is read as `OtherPrimeInfo` is what the grammar page says.
pub fn grammar_of_other_prime_info<'a>()
    ensures { ⟦<OtherPrimeInfo<'a> as Form>⟧.parse ≡ parse_of other_prime_info }
{}

/// The contents octets of `OtherPrimeInfo` are the encodings of its fields, one after another.
pub fn octets_of_other_prime_info<'a>()
    ensures { (v : OtherPrimeInfo) → ⟦<OtherPrimeInfo<'a> as FormValue>⟧.value.contents v ≡ joined (
        (⟦<UintRef<'a> as Form>⟧.encoding (other_prime_info_fields.prime v))
        ∷ (⟦<UintRef<'a> as Form>⟧.encoding (other_prime_info_fields.exponent v))
        ∷ (⟦<UintRef<'a> as Form>⟧.encoding (other_prime_info_fields.coefficient v))
        ∷ []) }
{}
