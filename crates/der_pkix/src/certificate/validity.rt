//! Validity, a SEQUENCE of 2 fields.
//!
//! Made by tools/asn1 from certificate.asn1.

ghost use Rattle.std.specs.Prelude.{◌∷◌, ◌≡◌, [], false, refl};
ghost use Rattle.der_elem.specs.FormatMakers.{mapped_format};
ghost use Rattle.der_modules.specs.Asn1.{joined, parse_of};
ghost use Rattle.der_modules.specs.Members.{choice_field, no_fields, struct_member};
ghost use Rattle.der_pkix.specs.Certificate.Grammar.{validity};
ghost use Rattle.der_pkix.specs.Certificate.Validity as validity_fields;
ghost use Rattle.der_pkix.specs.declared.certificate.validity.Validity.{Validity};

use crate::certificate::time::Time;
use der_elem::{
    ContentsEq, CopyIsDuplicate, DecodeValue, EncodeValue, Form, FormValue, OneTag, Sequence,
    SequenceTag, TagMarker, ValueOrd,
};
use der_fields::{DecodeFields, EncodeFields, FieldList, Fields2, FieldsOrd};
use der_modules::{Choosing, Member, field_list};
use der_tlv::{BackWriter, Error, Header, Length, Source, Writer};
use std::alloc::Global;
use std::cmp::Ordering;
use std::fmt;

/// The list of the fields.
type Fields = Fields2<Time, Time>;

/// ```text
/// Validity ::= SEQUENCE {
///      notBefore  Time,
///      notAfter   Time }
/// ```
///
/// Reading refuses the first fault of the octets, in their order.
#[derive(Clone, Copy, PartialEq, Eq)]
pub struct Validity {
    fields: Fields,
}

impl Validity {
    ghost use Rattle.der_pkix.specs.Certificate.Validity as validity_fields;

    /// A value of these fields.
    pub fn new(not_before: Time, not_after: Time) -> Validity
        ensures not_before { validity_fields.not_before result ≡ not_before }
        ensures not_after { validity_fields.not_after result ≡ not_after }
    {
        let list = field_list![not_before, not_after];
        let fields = Fields2 { list };
        Validity { fields }
    }

    /// `notBefore`, `Time`.
    pub fn not_before(&self) -> Time
        ensures { result ≡ validity_fields.not_before self.now }
    {
        self.fields.list.first
    }

    /// `notAfter`, `Time`.
    pub fn not_after(&self) -> Time
        ensures { result ≡ validity_fields.not_after self.now }
    {
        self.fields.list.rest.first
    }
}

impl fmt::Debug for Validity {
    fn fmt<W: fmt::Write>(&self, f: &mut fmt::Formatter<W>) -> fmt::Result {
        f.debug_struct("Validity")
            .field("not_before", &self.not_before())
            .field("not_after", &self.not_after())
            .finish()
    }
}

impl OneTag for Validity {
    type Marker = SequenceTag;
}

impl<'a> Sequence<'a> for Validity {
    ghost is_sequence = { refl };
}

impl FormValue for Validity {
    ghost value = { mapped_format (λ v. v.fields) ⟦<Fields as FieldList>⟧.list.octets };
}

impl<'a, R: Source<'a>> DecodeValue<'a, R> for Validity {
    ghost TAKES_MEMORY = { false };

    const TAKES_MEMORY: bool = false;

    fn decode_value(alloc: Global, reader: &mut R, _header: Header) -> Result<Validity, Error> {
        match Fields::decode_fields(alloc, reader) {
            Ok(fields) => Ok(Validity { fields }),
            Err(e) => Err(e),
        }
    }

    ghost takes_memory_is = { refl };
}

impl EncodeValue for Validity {
    fn value_len(&self) -> Result<Length, Error> {
        self.fields.fields_len()
    }

    fn encode_value<W: Writer>(&self, writer: &mut W) -> Result<(), Error> {
        self.fields.encode_fields(writer)
    }

    fn encode_value_back<W: BackWriter>(&self, writer: &mut W) -> Result<(), Error> {
        self.fields.encode_fields_back(writer)
    }
}

impl ValueOrd for Validity {
    fn value_cmp(&self, other: &Validity) -> Result<Ordering, Error> {
        self.fields.cmp_fields(&other.fields)
    }
}

impl Member for Validity {
    ghost member = { struct_member ⟦<SequenceTag as TagMarker>⟧.TAG (λ v. v.fields.list)
        (choice_field ⟦<Time as Choosing>⟧.choice
        (choice_field ⟦<Time as Choosing>⟧.choice
        no_fields)) };
}

impl ContentsEq for Validity {
    ghost contents_eq = { ⟦<Validity as Member>⟧.member.equal };
}

impl CopyIsDuplicate for Validity {}

/// What is read as `Validity` is what the grammar page says.
pub fn grammar_of_validity()
    ensures { ⟦<Validity as Form>⟧.parse ≡ parse_of validity }
{}

/// The contents octets of `Validity` are the encodings of its fields, one after another.
pub fn octets_of_validity()
    ensures { (v : Validity) → ⟦<Validity as FormValue>⟧.value.contents v ≡ joined (
        (⟦<Time as Form>⟧.encoding (validity_fields.not_before v))
        ∷ (⟦<Time as Form>⟧.encoding (validity_fields.not_after v))
        ∷ []) }
{}
