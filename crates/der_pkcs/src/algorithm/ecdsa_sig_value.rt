//! ECDSA-Sig-Value, a SEQUENCE of 2 fields.
//!
//! Made by tools/asn1 from algorithm.asn1.

ghost use Rattle.std.specs.Prelude.{◌∷◌, ◌≡◌, [], false, refl};
ghost use Rattle.der_elem.specs.FormatMakers.{mapped_format};
ghost use Rattle.der_modules.specs.Asn1.{joined, parse_of};
ghost use Rattle.der_modules.specs.Members.{field, no_fields, struct_member};
ghost use Rattle.der_pkcs.specs.Algorithm.EcdsaSigValue as ecdsa_sig_value_fields;
ghost use Rattle.der_pkcs.specs.Algorithm.Grammar.{ecdsa_sig_value};
ghost use Rattle.der_pkcs.specs.declared.algorithm.ecdsa_sig_value.EcdsaSigValue.{EcdsaSigValue};

use der_elem::{
    ContentsEq, CopyIsDuplicate, DecodeValue, EncodeValue, Form, FormValue, OneTag, Sequence,
    SequenceTag, TagMarker, ValueOrd,
};
use der_fields::{DecodeFields, EncodeFields, FieldList, Fields2, FieldsOrd};
use der_modules::{Member, field_list};
use der_numbers::UintRef;
use der_tlv::{BackWriter, Error, Header, Length, Source, Writer};
use std::alloc::Global;
use std::cmp::Ordering;
use std::fmt;

/// The list of the fields.
type Fields<'a> = Fields2<UintRef<'a>, UintRef<'a>>;

/// ```text
/// ECDSA-Sig-Value ::= SEQUENCE {
///      r  INTEGER (0..MAX),
///      s  INTEGER (0..MAX) }
/// ```
///
/// Reading refuses the first fault of the octets, in their order.
#[derive(Clone, Copy, PartialEq, Eq)]
pub struct EcdsaSigValue<'a> {
    fields: Fields<'a>,
}

impl<'a> EcdsaSigValue<'a> {
    ghost use Rattle.der_pkcs.specs.Algorithm.EcdsaSigValue as ecdsa_sig_value_fields;

    /// A value of these fields.
    pub fn new(r: UintRef<'a>, s: UintRef<'a>) -> EcdsaSigValue<'a>
        ensures r { ecdsa_sig_value_fields.r result ≡ r.entry }
        ensures s { ecdsa_sig_value_fields.s result ≡ s.entry }
    {
        let list = field_list![r, s];
        let fields = Fields2 { list };
        EcdsaSigValue { fields }
    }

    /// `r`, `INTEGER (0..MAX)`.
    pub fn r(&self) -> &UintRef<'a>
        ensures { result.now ≡ ecdsa_sig_value_fields.r self.now }
    {
        &self.fields.list.first
    }

    /// `s`, `INTEGER (0..MAX)`.
    pub fn s(&self) -> &UintRef<'a>
        ensures { result.now ≡ ecdsa_sig_value_fields.s self.now }
    {
        &self.fields.list.rest.first
    }
}

impl<'a> fmt::Debug for EcdsaSigValue<'a> {
    fn fmt<W: fmt::Write>(&self, f: &mut fmt::Formatter<W>) -> fmt::Result {
        f.debug_struct("EcdsaSigValue")
            .field("r", self.r())
            .field("s", self.s())
            .finish()
    }
}

impl<'a> OneTag for EcdsaSigValue<'a> {
    type Marker = SequenceTag;
}

impl<'a> Sequence<'a> for EcdsaSigValue<'a> {
    ghost is_sequence = { refl };
}

impl<'a> FormValue for EcdsaSigValue<'a> {
    ghost value = { mapped_format (λ v. v.fields) ⟦<Fields<'a> as FieldList>⟧.list.octets };
}

impl<'a, R: Source<'a>> DecodeValue<'a, R> for EcdsaSigValue<'a> {
    ghost TAKES_MEMORY = { false };

    const TAKES_MEMORY: bool = false;

    fn decode_value(
        alloc: Global,
        reader: &mut R,
        _header: Header,
    ) -> Result<EcdsaSigValue<'a>, Error> {
        match Fields::<'a>::decode_fields(alloc, reader) {
            Ok(fields) => Ok(EcdsaSigValue { fields }),
            Err(e) => Err(e),
        }
    }

    ghost takes_memory_is = { refl };
}

impl<'a> EncodeValue for EcdsaSigValue<'a> {
    fn value_len(&self) -> Result<Length, Error> {
        self.fields.fields_len()
    }

    fn encode_value<W: Writer>(&self, writer: &mut W) -> Result<(), Error> {
        self.fields.encode_fields(writer)
    }

    fn encode_value_back<W: BackWriter>(&self, writer: &mut W) -> Result<(), Error> {
        self.fields.encode_fields_back(writer)
    }
}

impl<'a> ValueOrd for EcdsaSigValue<'a> {
    fn value_cmp(&self, other: &EcdsaSigValue<'a>) -> Result<Ordering, Error> {
        self.fields.cmp_fields(&other.fields)
    }
}

impl<'a> Member for EcdsaSigValue<'a> {
    ghost member = { struct_member ⟦<SequenceTag as TagMarker>⟧.TAG (λ v. v.fields.list)
        (field ⟦<UintRef<'a> as Member>⟧.member
        (field ⟦<UintRef<'a> as Member>⟧.member
        no_fields)) };
}

impl<'a> ContentsEq for EcdsaSigValue<'a> {
    ghost contents_eq = { ⟦<EcdsaSigValue<'a> as Member>⟧.member.equal };
}

impl<'a> CopyIsDuplicate for EcdsaSigValue<'a> {}

/// What is read as `ECDSA-Sig-Value` is what the grammar page says.
pub fn grammar_of_ecdsa_sig_value<'a>()
    ensures { ⟦<EcdsaSigValue<'a> as Form>⟧.parse ≡ parse_of ecdsa_sig_value }
{}

/// The contents octets of `ECDSA-Sig-Value` are the encodings of its fields, one after another.
pub fn octets_of_ecdsa_sig_value<'a>()
    ensures { (v : EcdsaSigValue) → ⟦<EcdsaSigValue<'a> as FormValue>⟧.value.contents v ≡ joined (
        (⟦<UintRef<'a> as Form>⟧.encoding (ecdsa_sig_value_fields.r v))
        ∷ (⟦<UintRef<'a> as Form>⟧.encoding (ecdsa_sig_value_fields.s v))
        ∷ []) }
{}
