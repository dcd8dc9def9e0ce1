//! Dss-Parms, a SEQUENCE of 3 fields.
//!
//! Made by tools/asn1 from algorithm.asn1.

ghost use Rattle.std.specs.Prelude.{◌∷◌, ◌≡◌, [], false, refl};
ghost use Rattle.der_elem.specs.FormatMakers.{mapped_format};
ghost use Rattle.der_modules.specs.Asn1.{joined, parse_of};
ghost use Rattle.der_modules.specs.Members.{field, no_fields, struct_member};
ghost use Rattle.der_pkcs.specs.Algorithm.DssParms as dss_parms_fields;
ghost use Rattle.der_pkcs.specs.Algorithm.Grammar.{dss_parms};
ghost use Rattle.der_pkcs.specs.declared.algorithm.dss_parms.DssParms.{DssParms};

use der_elem::{
    ContentsEq, CopyIsDuplicate, DecodeValue, EncodeValue, Form, FormValue, OneTag, Sequence,
    SequenceTag, TagMarker, ValueOrd,
};
use der_fields::{DecodeFields, EncodeFields, FieldList, Fields3, FieldsOrd};
use der_modules::{Member, field_list};
use der_numbers::UintRef;
use der_tlv::{BackWriter, Error, Header, Length, Source, Writer};
use std::alloc::Global;
use std::cmp::Ordering;
use std::fmt;

/// The list of the fields.
type Fields<'a> = Fields3<UintRef<'a>, UintRef<'a>, UintRef<'a>>;

/// ```text
/// Dss-Parms ::= SEQUENCE {
///      p  INTEGER (0..MAX),
///      q  INTEGER (0..MAX),
///      g  INTEGER (0..MAX) }
/// ```
///
/// Reading refuses the first fault of the octets, in their order.
#[derive(Clone, Copy, PartialEq, Eq)]
pub struct DssParms<'a> {
    fields: Fields<'a>,
}

impl<'a> DssParms<'a> {
    ghost use Rattle.der_pkcs.specs.Algorithm.DssParms as dss_parms_fields;

    /// A value of these fields.
    pub fn new(p: UintRef<'a>, q: UintRef<'a>, g: UintRef<'a>) -> DssParms<'a>
        ensures p { dss_parms_fields.p result ≡ p.entry }
        ensures q { dss_parms_fields.q result ≡ q.entry }
        ensures g { dss_parms_fields.g result ≡ g.entry }
    {
        let list = field_list![p, q, g];
        let fields = Fields3 { list };
        DssParms { fields }
    }

    /// `p`, `INTEGER (0..MAX)`.
    pub fn p(&self) -> &UintRef<'a>
        ensures { result.now ≡ dss_parms_fields.p self.now }
    {
        &self.fields.list.first
    }

    /// `q`, `INTEGER (0..MAX)`.
    pub fn q(&self) -> &UintRef<'a>
        ensures { result.now ≡ dss_parms_fields.q self.now }
    {
        &self.fields.list.rest.first
    }

    /// `g`, `INTEGER (0..MAX)`.
    pub fn g(&self) -> &UintRef<'a>
        ensures { result.now ≡ dss_parms_fields.g self.now }
    {
        &self.fields.list.rest.rest.first
    }
}

impl<'a> fmt::Debug for DssParms<'a> {
    fn fmt<W: fmt::Write>(&self, f: &mut fmt::Formatter<W>) -> fmt::Result {
        f.debug_struct("DssParms")
            .field("p", self.p())
            .field("q", self.q())
            .field("g", self.g())
            .finish()
    }
}

impl<'a> OneTag for DssParms<'a> {
    type Marker = SequenceTag;
}

impl<'a> Sequence<'a> for DssParms<'a> {
    ghost is_sequence = { refl };
}

impl<'a> FormValue for DssParms<'a> {
    ghost value = { mapped_format (λ v. v.fields) ⟦<Fields<'a> as FieldList>⟧.list.octets };
}

impl<'a, R: Source<'a>> DecodeValue<'a, R> for DssParms<'a> {
    ghost TAKES_MEMORY = { false };

    const TAKES_MEMORY: bool = false;

    fn decode_value(alloc: Global, reader: &mut R, _header: Header) -> Result<DssParms<'a>, Error> {
        match Fields::<'a>::decode_fields(alloc, reader) {
            Ok(fields) => Ok(DssParms { fields }),
            Err(e) => Err(e),
        }
    }

    ghost takes_memory_is = { refl };
}

impl<'a> EncodeValue for DssParms<'a> {
    fn value_len(&self) -> Result<Length, Error> {
        self.fields.fields_len()
    }

    fn encode_value<W: Writer>(&self, writer: &mut W) -> Result<(), Error> {
        self.fields.encode_fields(writer)
    }

    fn encode_value_back<W: BackWriter>(&self, writer: &mut W) -> Result<(), Error> {
        self.fields.encode_fields_back(writer)
    }
}

impl<'a> ValueOrd for DssParms<'a> {
    fn value_cmp(&self, other: &DssParms<'a>) -> Result<Ordering, Error> {
        self.fields.cmp_fields(&other.fields)
    }
}

impl<'a> Member for DssParms<'a> {
    ghost member = { struct_member ⟦<SequenceTag as TagMarker>⟧.TAG (λ v. v.fields.list)
        (field ⟦<UintRef<'a> as Member>⟧.member
        (field ⟦<UintRef<'a> as Member>⟧.member
        (field ⟦<UintRef<'a> as Member>⟧.member
        no_fields))) };
}

impl<'a> ContentsEq for DssParms<'a> {
    ghost contents_eq = { ⟦<DssParms<'a> as Member>⟧.member.equal };
}

impl<'a> CopyIsDuplicate for DssParms<'a> {}

/// What is read as `Dss-Parms` is what the grammar page says.
pub fn grammar_of_dss_parms<'a>()
    ensures { ⟦<DssParms<'a> as Form>⟧.parse ≡ parse_of dss_parms }
{}

/// The contents octets of `Dss-Parms` are the encodings of its fields, one after another.
pub fn octets_of_dss_parms<'a>()
    ensures { (v : DssParms) → ⟦<DssParms<'a> as FormValue>⟧.value.contents v ≡ joined (
        (⟦<UintRef<'a> as Form>⟧.encoding (dss_parms_fields.p v))
        ∷ (⟦<UintRef<'a> as Form>⟧.encoding (dss_parms_fields.q v))
        ∷ (⟦<UintRef<'a> as Form>⟧.encoding (dss_parms_fields.g v))
        ∷ []) }
{}
