//! Curve, a SEQUENCE of 3 fields.
//!
//! Made by tools/asn1 from key.asn1.

ghost use Rattle.std.specs.Prelude.{◌∷◌, ◌≡◌, [], false, refl};
ghost use Rattle.der_elem.specs.FormatMakers.{mapped_format};
ghost use Rattle.der_modules.specs.Asn1.{joined, optional, parse_of};
ghost use Rattle.der_modules.specs.Members.{field, no_fields, optional_field, struct_member};
ghost use Rattle.der_pkix.specs.Key.Curve as curve_fields;
ghost use Rattle.der_pkix.specs.Key.Grammar.{curve};
ghost use Rattle.der_pkix.specs.declared.key.curve.Curve.{Curve};

use der_bits::BitStringRef;
use der_elem::{
    ContentsEq, CopyIsDuplicate, DecodeValue, EncodeValue, Form, FormValue, OneTag, Sequence,
    SequenceTag, TagMarker, ValueOrd,
};
use der_fields::{DecodeFields, EncodeFields, FieldList, Fields3, FieldsOrd};
use der_modules::{Member, field_list, if_present};
use der_opaque::OctetStringRef;
use der_tlv::{BackWriter, Error, Header, Length, Source, Writer};
use std::alloc::Global;
use std::cmp::Ordering;
use std::fmt;

/// The list of the fields.
type Fields<'a> = Fields3<OctetStringRef<'a>, OctetStringRef<'a>, Option<BitStringRef<'a>>>;

/// ```text
/// Curve ::= SEQUENCE {
///      a     OCTET STRING, -- an element of the field
///      b     OCTET STRING,
///      seed  BIT STRING OPTIONAL }
/// ```
///
/// Reading refuses the first fault of the octets, in their order.
#[derive(Clone, Copy, PartialEq, Eq)]
pub struct Curve<'a> {
    fields: Fields<'a>,
}

impl<'a> Curve<'a> {
    ghost use Rattle.der_pkix.specs.Key.Curve as curve_fields;
    ghost use Rattle.std.specs.Prelude.{option_copied};

    /// A value of these fields.
    pub fn new(
        a: OctetStringRef<'a>,
        b: OctetStringRef<'a>,
        seed: Option<BitStringRef<'a>>,
    ) -> Curve<'a>
        ensures a { curve_fields.a result ≡ a.entry }
        ensures b { curve_fields.b result ≡ b.entry }
        ensures seed { curve_fields.seed result ≡ seed.entry }
    {
        let list = field_list![a, b, seed];
        let fields = Fields3 { list };
        Curve { fields }
    }

    /// `a`, `OCTET STRING`.
    pub fn a(&self) -> &OctetStringRef<'a>
        ensures { result.now ≡ curve_fields.a self.now }
    {
        &self.fields.list.first
    }

    /// `b`, `OCTET STRING`.
    pub fn b(&self) -> &OctetStringRef<'a>
        ensures { result.now ≡ curve_fields.b self.now }
    {
        &self.fields.list.rest.first
    }

    /// `seed`, `BIT STRING OPTIONAL`.
    pub fn seed(&self) -> Option<&BitStringRef<'a>>
        ensures { option_copied result ≡ curve_fields.seed self.now }
    {
        if_present!(value in &self.fields.list.rest.rest.first => value)
    }
}

impl<'a> fmt::Debug for Curve<'a> {
    fn fmt<W: fmt::Write>(&self, f: &mut fmt::Formatter<W>) -> fmt::Result {
        f.debug_struct("Curve")
            .field("a", self.a())
            .field("b", self.b())
            .field("seed", &self.seed())
            .finish()
    }
}

impl<'a> OneTag for Curve<'a> {
    type Marker = SequenceTag;
}

impl<'a> Sequence<'a> for Curve<'a> {
    ghost is_sequence = { refl };
}

impl<'a> FormValue for Curve<'a> {
    ghost value = { mapped_format (λ v. v.fields) ⟦<Fields<'a> as FieldList>⟧.list.octets };
}

impl<'a, R: Source<'a>> DecodeValue<'a, R> for Curve<'a> {
    ghost TAKES_MEMORY = { false };

    const TAKES_MEMORY: bool = false;

    fn decode_value(alloc: Global, reader: &mut R, _header: Header) -> Result<Curve<'a>, Error> {
        match Fields::<'a>::decode_fields(alloc, reader) {
            Ok(fields) => Ok(Curve { fields }),
            Err(e) => Err(e),
        }
    }

    ghost takes_memory_is = { refl };
}

impl<'a> EncodeValue for Curve<'a> {
    fn value_len(&self) -> Result<Length, Error> {
        self.fields.fields_len()
    }

    fn encode_value<W: Writer>(&self, writer: &mut W) -> Result<(), Error> {
        self.fields.encode_fields(writer)
    }

    fn encode_value_back<W: BackWriter>(&self, writer: &mut W) -> Result<(), Error> {
        self.fields.encode_fields_back(writer)
    }
}

impl<'a> ValueOrd for Curve<'a> {
    fn value_cmp(&self, other: &Curve<'a>) -> Result<Ordering, Error> {
        self.fields.cmp_fields(&other.fields)
    }
}

impl<'a> Member for Curve<'a> {
    ghost member = { struct_member ⟦<SequenceTag as TagMarker>⟧.TAG (λ v. v.fields.list)
        (field ⟦<OctetStringRef<'a> as Member>⟧.member
        (field ⟦<OctetStringRef<'a> as Member>⟧.member
        (optional_field ⟦<BitStringRef<'a> as Member>⟧.member
        no_fields))) };
}

impl<'a> ContentsEq for Curve<'a> {
    ghost contents_eq = { ⟦<Curve<'a> as Member>⟧.member.equal };
}

impl<'a> CopyIsDuplicate for Curve<'a> {}

/// What is read as `Curve` is what the grammar page says.
pub fn grammar_of_curve<'a>()
    ensures { ⟦<Curve<'a> as Form>⟧.parse ≡ parse_of curve }
{}

/// The contents octets of `Curve` are the encodings of its fields, one after another.
pub fn octets_of_curve<'a>()
    ensures { (v : Curve) → ⟦<Curve<'a> as FormValue>⟧.value.contents v ≡ joined (
        (⟦<OctetStringRef<'a> as Form>⟧.encoding (curve_fields.a v))
        ∷ (⟦<OctetStringRef<'a> as Form>⟧.encoding (curve_fields.b v))
        ∷ optional (λ x. (⟦<BitStringRef<'a> as Form>⟧.encoding x)) (curve_fields.seed v)
        ∷ []) }
{}
