//! CertBag, a SEQUENCE of 2 fields.
//!
//! Made by tools/asn1 from pkcs12.asn1.

ghost use Rattle.std.specs.Prelude.{◌∷◌, ◌≡◌, [], false, refl};
ghost use Rattle.der_elem.specs.FormatMakers.{mapped_format};
ghost use Rattle.der_modules.specs.Asn1.{context, explicit_encoding, joined, parse_of};
ghost use Rattle.der_modules.specs.Members.{field, no_fields, struct_member};
ghost use Rattle.der_pkcs.specs.Pkcs12.CertBag as cert_bag_fields;
ghost use Rattle.der_pkcs.specs.Pkcs12.Grammar.{cert_bag};
ghost use Rattle.der_pkcs.specs.declared.pkcs12.cert_bag.CertBag.{CertBag};

use der_elem::{
    ContentsEq, CopyIsDuplicate, DecodeValue, EncodeValue, Form, FormValue, OneTag, Sequence,
    SequenceTag, TagMarker, ValueOrd,
};
use der_fields::{DecodeFields, EncodeFields, Explicit, FieldList, Fields2, FieldsOrd};
use der_modules::{Member, field_list, tagged};
use der_opaque::{AnyRef, ObjectIdentifierRef};
use der_tlv::{BackWriter, Error, Header, Length, Source, Writer};
use std::alloc::Global;
use std::cmp::Ordering;
use std::fmt;

/// The list of the fields.
type Fields<'a> = Fields2<ObjectIdentifierRef<'a, 39>, Explicit<AnyRef<'a>, 0>>;

/// ```text
/// CertBag ::= SEQUENCE {
///      certId     OBJECT IDENTIFIER,
///      certValue  [0] EXPLICIT ANY DEFINED BY certId }
/// ```
///
/// Reading refuses the first fault of the octets, in their order.
#[derive(Clone, Copy, PartialEq, Eq)]
pub struct CertBag<'a> {
    fields: Fields<'a>,
}

impl<'a> CertBag<'a> {
    ghost use Rattle.der_pkcs.specs.Pkcs12.CertBag as cert_bag_fields;

    /// A value of these fields.
    pub fn new(cert_id: ObjectIdentifierRef<'a, 39>, cert_value: AnyRef<'a>) -> CertBag<'a>
        ensures cert_id { cert_bag_fields.cert_id result ≡ cert_id.entry }
        ensures cert_value { cert_bag_fields.cert_value result ≡ cert_value.entry }
    {
        let list = field_list![cert_id, tagged!(Explicit, cert_value)];
        let fields = Fields2 { list };
        CertBag { fields }
    }

    /// `certId`, `OBJECT IDENTIFIER`.
    pub fn cert_id(&self) -> &ObjectIdentifierRef<'a, 39>
        ensures { result.now ≡ cert_bag_fields.cert_id self.now }
    {
        &self.fields.list.first
    }

    /// `certValue`, `[0] EXPLICIT ANY DEFINED BY certId`.
    pub fn cert_value(&self) -> &AnyRef<'a>
        ensures { result.now ≡ cert_bag_fields.cert_value self.now }
    {
        &self.fields.list.rest.first.fields.first
    }
}

impl<'a> fmt::Debug for CertBag<'a> {
    fn fmt<W: fmt::Write>(&self, f: &mut fmt::Formatter<W>) -> fmt::Result {
        f.debug_struct("CertBag")
            .field("cert_id", self.cert_id())
            .field("cert_value", self.cert_value())
            .finish()
    }
}

impl<'a> OneTag for CertBag<'a> {
    type Marker = SequenceTag;
}

impl<'a> Sequence<'a> for CertBag<'a> {
    ghost is_sequence = { refl };
}

impl<'a> FormValue for CertBag<'a> {
    ghost value = { mapped_format (λ v. v.fields) ⟦<Fields<'a> as FieldList>⟧.list.octets };
}

impl<'a, R: Source<'a>> DecodeValue<'a, R> for CertBag<'a> {
    ghost TAKES_MEMORY = { false };

    const TAKES_MEMORY: bool = false;

    fn decode_value(alloc: Global, reader: &mut R, _header: Header) -> Result<CertBag<'a>, Error> {
        match Fields::<'a>::decode_fields(alloc, reader) {
            Ok(fields) => Ok(CertBag { fields }),
            Err(e) => Err(e),
        }
    }

    ghost takes_memory_is = { refl };
}

impl<'a> EncodeValue for CertBag<'a> {
    fn value_len(&self) -> Result<Length, Error> {
        self.fields.fields_len()
    }

    fn encode_value<W: Writer>(&self, writer: &mut W) -> Result<(), Error> {
        self.fields.encode_fields(writer)
    }

    fn encode_value_back<W: BackWriter>(&self, writer: &mut W) -> Result<(), Error> {
        self.fields.encode_fields_back(writer)
    }
}

impl<'a> ValueOrd for CertBag<'a> {
    fn value_cmp(&self, other: &CertBag<'a>) -> Result<Ordering, Error> {
        self.fields.cmp_fields(&other.fields)
    }
}

impl<'a> Member for CertBag<'a> {
    ghost member = { struct_member ⟦<SequenceTag as TagMarker>⟧.TAG (λ v. v.fields.list)
        (field ⟦<ObjectIdentifierRef<'a, 39> as Member>⟧.member
        (field ⟦<Explicit<AnyRef<'a>, 0> as Member>⟧.member
        no_fields)) };
}

impl<'a> ContentsEq for CertBag<'a> {
    ghost contents_eq = { ⟦<CertBag<'a> as Member>⟧.member.equal };
}

impl<'a> CopyIsDuplicate for CertBag<'a> {}

/// What is read as `CertBag` is what the grammar page says.
pub fn grammar_of_cert_bag<'a>()
    ensures { ⟦<CertBag<'a> as Form>⟧.parse ≡ parse_of cert_bag }
{}

/// The contents octets of `CertBag` are the encodings of its fields, one after another.
pub fn octets_of_cert_bag<'a>()
    ensures { (v : CertBag) → ⟦<CertBag<'a> as FormValue>⟧.value.contents v ≡ joined (
        (⟦<ObjectIdentifierRef<'a, 39> as Form>⟧.encoding (cert_bag_fields.cert_id v))
        ∷ (explicit_encoding context 0 (⟦<AnyRef<'a> as Form>⟧.encoding (cert_bag_fields.cert_value v)))
        ∷ []) }
{}
