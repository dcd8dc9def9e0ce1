//! CRLBag, a SEQUENCE of 2 fields.
//!
//! Made by tools/asn1 from pkcs12.asn1.

ghost use Rattle.std.specs.Prelude.{◌∷◌, ◌≡◌, [], false, refl};
ghost use Rattle.der_elem.specs.FormatMakers.{mapped_format};
ghost use Rattle.der_modules.specs.Asn1.{context, explicit_encoding, joined, parse_of};
ghost use Rattle.der_modules.specs.Members.{field, no_fields, struct_member};
ghost use Rattle.der_pkcs.specs.Pkcs12.CrlBag as crl_bag_fields;
ghost use Rattle.der_pkcs.specs.Pkcs12.Grammar.{crl_bag};
ghost use Rattle.der_pkcs.specs.declared.pkcs12.crl_bag.CrlBag.{CrlBag};

use der_elem::{
    ContentsEq, CopyIsDuplicate, DecodeValue, EncodeValue, Form, FormValue, OneTag, Sequence,
    SequenceTag, TagMarker, ValueOrd,
};
use der_fields::{DecodeFields, EncodeFields, Explicit, FieldList, Fields2, FieldsOrd};
use der_modules::{Member, field_list, tagged};
use der_opaque::{AnyRef, ObjectIdentifierRef};
use der_tlv::{BackWriter, Error, Header, Length, Source, Writer};
use std::alloc::Global;
use std::cmp::Ordering;
use std::fmt;

/// The list of the fields.
type Fields<'a> = Fields2<ObjectIdentifierRef<'a, 39>, Explicit<AnyRef<'a>, 0>>;

/// ```text
/// CRLBag ::= SEQUENCE {
///      crlId     OBJECT IDENTIFIER,
///      crlValue  [0] EXPLICIT ANY DEFINED BY crlId }
/// ```
///
/// Reading refuses the first fault of the octets, in their order.
#[derive(Clone, Copy, PartialEq, Eq)]
pub struct CrlBag<'a> {
    fields: Fields<'a>,
}

impl<'a> CrlBag<'a> {
    ghost use Rattle.der_pkcs.specs.Pkcs12.CrlBag as crl_bag_fields;

    /// A value of these fields.
    pub fn new(crl_id: ObjectIdentifierRef<'a, 39>, crl_value: AnyRef<'a>) -> CrlBag<'a>
        ensures crl_id { crl_bag_fields.crl_id result ≡ crl_id.entry }
        ensures crl_value { crl_bag_fields.crl_value result ≡ crl_value.entry }
    {
        let list = field_list![crl_id, tagged!(Explicit, crl_value)];
        let fields = Fields2 { list };
        CrlBag { fields }
    }

    /// `crlId`, `OBJECT IDENTIFIER`.
    pub fn crl_id(&self) -> &ObjectIdentifierRef<'a, 39>
        ensures { result.now ≡ crl_bag_fields.crl_id self.now }
    {
        &self.fields.list.first
    }

    /// `crlValue`, `[0] EXPLICIT ANY DEFINED BY crlId`.
    pub fn crl_value(&self) -> &AnyRef<'a>
        ensures { result.now ≡ crl_bag_fields.crl_value self.now }
    {
        &self.fields.list.rest.first.fields.first
    }
}

impl<'a> fmt::Debug for CrlBag<'a> {
    fn fmt<W: fmt::Write>(&self, f: &mut fmt::Formatter<W>) -> fmt::Result {
        f.debug_struct("CrlBag")
            .field("crl_id", self.crl_id())
            .field("crl_value", self.crl_value())
            .finish()
    }
}

impl<'a> OneTag for CrlBag<'a> {
    type Marker = SequenceTag;
}

impl<'a> Sequence<'a> for CrlBag<'a> {
    ghost is_sequence = { refl };
}

impl<'a> FormValue for CrlBag<'a> {
    ghost value = { mapped_format (λ v. v.fields) ⟦<Fields<'a> as FieldList>⟧.list.octets };
}

impl<'a, R: Source<'a>> DecodeValue<'a, R> for CrlBag<'a> {
    ghost TAKES_MEMORY = { false };

    const TAKES_MEMORY: bool = false;

    fn decode_value(alloc: Global, reader: &mut R, _header: Header) -> Result<CrlBag<'a>, Error> {
        match Fields::<'a>::decode_fields(alloc, reader) {
            Ok(fields) => Ok(CrlBag { fields }),
            Err(e) => Err(e),
        }
    }

    ghost takes_memory_is = { refl };
}

impl<'a> EncodeValue for CrlBag<'a> {
    fn value_len(&self) -> Result<Length, Error> {
        self.fields.fields_len()
    }

    fn encode_value<W: Writer>(&self, writer: &mut W) -> Result<(), Error> {
        self.fields.encode_fields(writer)
    }

    fn encode_value_back<W: BackWriter>(&self, writer: &mut W) -> Result<(), Error> {
        self.fields.encode_fields_back(writer)
    }
}

impl<'a> ValueOrd for CrlBag<'a> {
    fn value_cmp(&self, other: &CrlBag<'a>) -> Result<Ordering, Error> {
        self.fields.cmp_fields(&other.fields)
    }
}

impl<'a> Member for CrlBag<'a> {
    ghost member = { struct_member ⟦<SequenceTag as TagMarker>⟧.TAG (λ v. v.fields.list)
        (field ⟦<ObjectIdentifierRef<'a, 39> as Member>⟧.member
        (field ⟦<Explicit<AnyRef<'a>, 0> as Member>⟧.member
        no_fields)) };
}

impl<'a> ContentsEq for CrlBag<'a> {
    ghost contents_eq = { ⟦<CrlBag<'a> as Member>⟧.member.equal };
}

impl<'a> CopyIsDuplicate for CrlBag<'a> {}

/// What is read as `CRLBag` is what the grammar page says.
pub fn grammar_of_crl_bag<'a>()
    ensures { ⟦<CrlBag<'a> as Form>⟧.parse ≡ parse_of crl_bag }
{}

/// The contents octets of `CRLBag` are the encodings of its fields, one after another.
pub fn octets_of_crl_bag<'a>()
    ensures { (v : CrlBag) → ⟦<CrlBag<'a> as FormValue>⟧.value.contents v ≡ joined (
        (⟦<ObjectIdentifierRef<'a, 39> as Form>⟧.encoding (crl_bag_fields.crl_id v))
        ∷ (explicit_encoding context 0 (⟦<AnyRef<'a> as Form>⟧.encoding (crl_bag_fields.crl_value v)))
        ∷ []) }
{}
