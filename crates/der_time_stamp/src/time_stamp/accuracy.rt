//! Accuracy, a SEQUENCE of 3 fields.
//!
//! Made by tools/asn1 from time_stamp.asn1.

ghost use Rattle.std.specs.Prelude.{◌∷◌, ◌≡◌, [], false, refl};
ghost use Rattle.der_elem.specs.FormatMakers.{mapped_format};
ghost use Rattle.der_modules.specs.Asn1.{context, implicit_encoding, joined, optional, parse_of};
ghost use Rattle.der_modules.specs.Members.{no_fields, optional_field, struct_member};
ghost use Rattle.der_time_stamp.specs.TimeStamp.Accuracy as accuracy_fields;
ghost use Rattle.der_time_stamp.specs.TimeStamp.Grammar.{accuracy};
ghost use Rattle.der_time_stamp.specs.declared.time_stamp.accuracy.Accuracy.{Accuracy};

use der_elem::{
    ContentsEq, CopyIsDuplicate, DecodeValue, EncodeValue, Form, FormValue, OneTag, Sequence,
    SequenceTag, TagMarker, ValueOrd,
};
use der_fields::{DecodeFields, EncodeFields, FieldList, Fields3, FieldsOrd, Implicit};
use der_modules::{Member, field_list, if_present};
use der_tlv::{BackWriter, Error, Header, Length, Source, Writer};
use std::alloc::Global;
use std::cmp::Ordering;
use std::fmt;

/// The list of the fields.
type Fields = Fields3<Option<u32>, Option<Implicit<u16, 0>>, Option<Implicit<u16, 1>>>;

/// ```text
/// Accuracy ::= SEQUENCE {
///      seconds      INTEGER OPTIONAL,
///      millis   [0] INTEGER (1..999) OPTIONAL,
///      micros   [1] INTEGER (1..999) OPTIONAL }
/// ```
///
/// Reading refuses the first fault of the octets, in their order.
///
/// Not checked: INTEGER as u32: other numbers are refused.
///
/// Not checked: INTEGER as u16: (1..999) is not checked.
///
/// Not checked: INTEGER as u16: (1..999) is not checked.
#[derive(Clone, Copy, PartialEq, Eq)]
pub struct Accuracy {
    fields: Fields,
}

impl Accuracy {
    ghost use Rattle.der_time_stamp.specs.TimeStamp.Accuracy as accuracy_fields;

    /// A value of these fields.
    pub fn new(seconds: Option<u32>, millis: Option<u16>, micros: Option<u16>) -> Accuracy
        ensures seconds { accuracy_fields.seconds result ≡ seconds }
        ensures millis { accuracy_fields.millis result ≡ millis }
        ensures micros { accuracy_fields.micros result ≡ micros }
    {
        let list = field_list![
            seconds,
            if_present!(value in millis => Implicit { value }),
            if_present!(value in micros => Implicit { value })
        ];
        let fields = Fields3 { list };
        Accuracy { fields }
    }

    /// `seconds`, `INTEGER OPTIONAL`.
    pub fn seconds(&self) -> Option<u32>
        ensures { result ≡ accuracy_fields.seconds self.now }
    {
        self.fields.list.first
    }

    /// `millis`, `[0] INTEGER (1..999) OPTIONAL`.
    pub fn millis(&self) -> Option<u16>
        ensures { result ≡ accuracy_fields.millis self.now }
    {
        if_present!(value in self.fields.list.rest.first => value.value)
    }

    /// `micros`, `[1] INTEGER (1..999) OPTIONAL`.
    pub fn micros(&self) -> Option<u16>
        ensures { result ≡ accuracy_fields.micros self.now }
    {
        if_present!(value in self.fields.list.rest.rest.first => value.value)
    }
}

impl fmt::Debug for Accuracy {
    fn fmt<W: fmt::Write>(&self, f: &mut fmt::Formatter<W>) -> fmt::Result {
        f.debug_struct("Accuracy")
            .field("seconds", &self.seconds())
            .field("millis", &self.millis())
            .field("micros", &self.micros())
            .finish()
    }
}

impl OneTag for Accuracy {
    type Marker = SequenceTag;
}

impl<'a> Sequence<'a> for Accuracy {
    ghost is_sequence = { refl };
}

impl FormValue for Accuracy {
    ghost value = { mapped_format (λ v. v.fields) ⟦<Fields as FieldList>⟧.list.octets };
}

impl<'a, R: Source<'a>> DecodeValue<'a, R> for Accuracy {
    ghost TAKES_MEMORY = { false };

    const TAKES_MEMORY: bool = false;

    fn decode_value(alloc: Global, reader: &mut R, _header: Header) -> Result<Accuracy, Error> {
        match Fields::decode_fields(alloc, reader) {
            Ok(fields) => Ok(Accuracy { fields }),
            Err(e) => Err(e),
        }
    }

    ghost takes_memory_is = { refl };
}

impl EncodeValue for Accuracy {
    fn value_len(&self) -> Result<Length, Error> {
        self.fields.fields_len()
    }

    fn encode_value<W: Writer>(&self, writer: &mut W) -> Result<(), Error> {
        self.fields.encode_fields(writer)
    }

    fn encode_value_back<W: BackWriter>(&self, writer: &mut W) -> Result<(), Error> {
        self.fields.encode_fields_back(writer)
    }
}

impl ValueOrd for Accuracy {
    fn value_cmp(&self, other: &Accuracy) -> Result<Ordering, Error> {
        self.fields.cmp_fields(&other.fields)
    }
}

impl Member for Accuracy {
    ghost member = { struct_member ⟦<SequenceTag as TagMarker>⟧.TAG (λ v. v.fields.list)
        (optional_field ⟦<u32 as Member>⟧.member
        (optional_field ⟦<Implicit<u16, 0> as Member>⟧.member
        (optional_field ⟦<Implicit<u16, 1> as Member>⟧.member
        no_fields))) };
}

impl ContentsEq for Accuracy {
    ghost contents_eq = { ⟦<Accuracy as Member>⟧.member.equal };
}

impl CopyIsDuplicate for Accuracy {}

/// What is read as `Accuracy` is what the grammar page says.
pub fn grammar_of_accuracy()
    ensures { ⟦<Accuracy as Form>⟧.parse ≡ parse_of accuracy }
{}

/// The contents octets of `Accuracy` are the encodings of its fields, one after another.
#[tactic(auto, using(der_modules::specs::Asn1::optional_of))]
pub fn octets_of_accuracy()
    ensures { (v : Accuracy) → ⟦<Accuracy as FormValue>⟧.value.contents v ≡ joined (
        optional (λ x. (⟦<u32 as Form>⟧.encoding x)) (accuracy_fields.seconds v)
        ∷ optional (λ x. (implicit_encoding context false 0 (⟦<u16 as FormValue>⟧.value.contents x))) (accuracy_fields.millis v)
        ∷ optional (λ x. (implicit_encoding context false 1 (⟦<u16 as FormValue>⟧.value.contents x))) (accuracy_fields.micros v)
        ∷ []) }
{}
