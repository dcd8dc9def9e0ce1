//! DHParameter, a SEQUENCE of 3 fields.
//!
//! Made by tools/asn1 from algorithm.asn1.

ghost use Rattle.std.specs.Prelude.{◌∷◌, ◌≡◌, [], false, refl};
ghost use Rattle.der_elem.specs.FormatMakers.{mapped_format};
ghost use Rattle.der_modules.specs.Asn1.{joined, optional, parse_of};
ghost use Rattle.der_modules.specs.Members.{field, no_fields, optional_field, struct_member};
ghost use Rattle.der_pkcs.specs.Algorithm.DhParameter as dh_parameter_fields;
ghost use Rattle.der_pkcs.specs.Algorithm.Grammar.{dh_parameter};
ghost use Rattle.der_pkcs.specs.declared.algorithm.dh_parameter.DhParameter.{DhParameter};

use der_elem::{
    ContentsEq, CopyIsDuplicate, DecodeValue, EncodeValue, Form, FormValue, OneTag, Sequence,
    SequenceTag, TagMarker, ValueOrd,
};
use der_fields::{DecodeFields, EncodeFields, FieldList, Fields3, FieldsOrd};
use der_modules::{Member, field_list};
use der_numbers::UintRef;
use der_tlv::{BackWriter, Error, Header, Length, Source, Writer};
use std::alloc::Global;
use std::cmp::Ordering;
use std::fmt;

/// The list of the fields.
type Fields<'a> = Fields3<UintRef<'a>, UintRef<'a>, Option<u32>>;

/// ```text
/// DHParameter ::= SEQUENCE {
///      prime               INTEGER (0..MAX), -- p
///      base                INTEGER (0..MAX), -- g
///      privateValueLength  INTEGER (0..MAX) OPTIONAL
///      }
/// ```
///
/// Reading refuses the first fault of the octets, in their order.
///
/// Not checked: INTEGER as u32: other numbers are refused.
#[derive(Clone, Copy, PartialEq, Eq)]
pub struct DhParameter<'a> {
    fields: Fields<'a>,
}

impl<'a> DhParameter<'a> {
    ghost use Rattle.der_pkcs.specs.Algorithm.DhParameter as dh_parameter_fields;

    /// A value of these fields.
    pub fn new(
        prime: UintRef<'a>,
        base: UintRef<'a>,
        private_value_length: Option<u32>,
    ) -> DhParameter<'a>
        ensures prime { dh_parameter_fields.prime result ≡ prime.entry }
        ensures base { dh_parameter_fields.base result ≡ base.entry }
        ensures private_value_length { dh_parameter_fields.private_value_length result ≡ private_value_length }
    {
        let list = field_list![prime, base, private_value_length];
        let fields = Fields3 { list };
        DhParameter { fields }
    }

    /// `prime`, `INTEGER (0..MAX)`.
    pub fn prime(&self) -> &UintRef<'a>
        ensures { result.now ≡ dh_parameter_fields.prime self.now }
    {
        &self.fields.list.first
    }

    /// `base`, `INTEGER (0..MAX)`.
    pub fn base(&self) -> &UintRef<'a>
        ensures { result.now ≡ dh_parameter_fields.base self.now }
    {
        &self.fields.list.rest.first
    }

    /// `privateValueLength`, `INTEGER (0..MAX) OPTIONAL`.
    pub fn private_value_length(&self) -> Option<u32>
        ensures { result ≡ dh_parameter_fields.private_value_length self.now }
    {
        self.fields.list.rest.rest.first
    }
}

impl<'a> fmt::Debug for DhParameter<'a> {
    fn fmt<W: fmt::Write>(&self, f: &mut fmt::Formatter<W>) -> fmt::Result {
        f.debug_struct("DhParameter")
            .field("prime", self.prime())
            .field("base", self.base())
            .field("private_value_length", &self.private_value_length())
            .finish()
    }
}

impl<'a> OneTag for DhParameter<'a> {
    type Marker = SequenceTag;
}

impl<'a> Sequence<'a> for DhParameter<'a> {
    ghost is_sequence = { refl };
}

impl<'a> FormValue for DhParameter<'a> {
    ghost value = { mapped_format (λ v. v.fields) ⟦<Fields<'a> as FieldList>⟧.list.octets };
}

impl<'a, R: Source<'a>> DecodeValue<'a, R> for DhParameter<'a> {
    ghost TAKES_MEMORY = { false };

    const TAKES_MEMORY: bool = false;

    fn decode_value(
        alloc: Global,
        reader: &mut R,
        _header: Header,
    ) -> Result<DhParameter<'a>, Error> {
        match Fields::<'a>::decode_fields(alloc, reader) {
            Ok(fields) => Ok(DhParameter { fields }),
            Err(e) => Err(e),
        }
    }

    ghost takes_memory_is = { refl };
}

impl<'a> EncodeValue for DhParameter<'a> {
    fn value_len(&self) -> Result<Length, Error> {
        self.fields.fields_len()
    }

    fn encode_value<W: Writer>(&self, writer: &mut W) -> Result<(), Error> {
        self.fields.encode_fields(writer)
    }

    fn encode_value_back<W: BackWriter>(&self, writer: &mut W) -> Result<(), Error> {
        self.fields.encode_fields_back(writer)
    }
}

impl<'a> ValueOrd for DhParameter<'a> {
    fn value_cmp(&self, other: &DhParameter<'a>) -> Result<Ordering, Error> {
        self.fields.cmp_fields(&other.fields)
    }
}

impl<'a> Member for DhParameter<'a> {
    ghost member = { struct_member ⟦<SequenceTag as TagMarker>⟧.TAG (λ v. v.fields.list)
        (field ⟦<UintRef<'a> as Member>⟧.member
        (field ⟦<UintRef<'a> as Member>⟧.member
        (optional_field ⟦<u32 as Member>⟧.member
        no_fields))) };
}

impl<'a> ContentsEq for DhParameter<'a> {
    ghost contents_eq = { ⟦<DhParameter<'a> as Member>⟧.member.equal };
}

impl<'a> CopyIsDuplicate for DhParameter<'a> {}

/// What is read as `DHParameter` is what the grammar page says.
pub fn grammar_of_dh_parameter<'a>()
    ensures { ⟦<DhParameter<'a> as Form>⟧.parse ≡ parse_of dh_parameter }
{}

/// The contents octets of `DHParameter` are the encodings of its fields, one after another.
pub fn octets_of_dh_parameter<'a>()
    ensures { (v : DhParameter) → ⟦<DhParameter<'a> as FormValue>⟧.value.contents v ≡ joined (
        (⟦<UintRef<'a> as Form>⟧.encoding (dh_parameter_fields.prime v))
        ∷ (⟦<UintRef<'a> as Form>⟧.encoding (dh_parameter_fields.base v))
        ∷ optional (λ x. (⟦<u32 as Form>⟧.encoding x)) (dh_parameter_fields.private_value_length v)
        ∷ []) }
{}
