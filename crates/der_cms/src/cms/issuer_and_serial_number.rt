//! IssuerAndSerialNumber, a SEQUENCE of 2 fields.
//!
//! Made by tools/asn1 from cms.asn1.

ghost use Rattle.std.specs.Prelude.{◌∷◌, ◌≡◌, [], false, refl};
ghost use Rattle.der_cms.specs.Cms.Grammar.{issuer_and_serial_number};
ghost use Rattle.der_cms.specs.Cms.IssuerAndSerialNumber as issuer_and_serial_number_fields;
ghost use Rattle.der_cms.specs.declared.cms.issuer_and_serial_number.IssuerAndSerialNumber.{IssuerAndSerialNumber};
ghost use Rattle.der_elem.specs.FormatMakers.{mapped_format};
ghost use Rattle.der_modules.specs.Asn1.{joined, parse_of};
ghost use Rattle.der_modules.specs.Members.{field, no_fields, struct_member};

use der_elem::{
    ContentsEq, CopyIsDuplicate, DecodeValue, EncodeValue, Form, FormValue, OneTag, Sequence,
    SequenceTag, TagMarker, ValueOrd,
};
use der_fields::{DecodeFields, EncodeFields, FieldList, Fields2, FieldsOrd};
use der_modules::{Member, copy_of, field_list};
use der_pkix::certificate::CertificateSerialNumber;
use der_pkix::name::Name;
use der_tlv::{BackWriter, Error, Header, Length, Source, Writer};
use std::alloc::Global;
use std::cmp::Ordering;
use std::fmt;

/// The list of the fields.
type Fields<'a> = Fields2<Name<'a>, CertificateSerialNumber<'a>>;

/// ```text
/// IssuerAndSerialNumber ::= SEQUENCE {
///      issuer        Name,
///      serialNumber  CertificateSerialNumber }
/// ```
///
/// Reading refuses the first fault of the octets, in their order.
#[derive(Clone, Copy, PartialEq, Eq)]
pub struct IssuerAndSerialNumber<'a> {
    fields: Fields<'a>,
}

impl<'a> IssuerAndSerialNumber<'a> {
    ghost use Rattle.der_cms.specs.Cms.IssuerAndSerialNumber as issuer_and_serial_number_fields;

    /// A value of these fields.
    pub fn new(
        issuer: &Name<'a>,
        serial_number: CertificateSerialNumber<'a>,
    ) -> IssuerAndSerialNumber<'a>
        ensures issuer { issuer_and_serial_number_fields.issuer result ≡ issuer.now }
        ensures serial_number { issuer_and_serial_number_fields.serial_number result ≡ serial_number.entry }
    {
        let list = field_list![copy_of(issuer), serial_number];
        let fields = Fields2 { list };
        IssuerAndSerialNumber { fields }
    }

    /// `issuer`, `Name`.
    pub fn issuer(&self) -> &Name<'a>
        ensures { result.now ≡ issuer_and_serial_number_fields.issuer self.now }
    {
        &self.fields.list.first
    }

    /// `serialNumber`, `CertificateSerialNumber`.
    pub fn serial_number(&self) -> &CertificateSerialNumber<'a>
        ensures { result.now ≡ issuer_and_serial_number_fields.serial_number self.now }
    {
        &self.fields.list.rest.first
    }
}

impl<'a> fmt::Debug for IssuerAndSerialNumber<'a> {
    fn fmt<W: fmt::Write>(&self, f: &mut fmt::Formatter<W>) -> fmt::Result {
        f.debug_struct("IssuerAndSerialNumber")
            .field("issuer", self.issuer())
            .field("serial_number", self.serial_number())
            .finish()
    }
}

impl<'a> OneTag for IssuerAndSerialNumber<'a> {
    type Marker = SequenceTag;
}

impl<'a> Sequence<'a> for IssuerAndSerialNumber<'a> {
    ghost is_sequence = { refl };
}

impl<'a> FormValue for IssuerAndSerialNumber<'a> {
    ghost value = { mapped_format (λ v. v.fields) ⟦<Fields<'a> as FieldList>⟧.list.octets };
}

impl<'a, R: Source<'a>> DecodeValue<'a, R> for IssuerAndSerialNumber<'a> {
    ghost TAKES_MEMORY = { false };

    const TAKES_MEMORY: bool = false;

    fn decode_value(
        alloc: Global,
        reader: &mut R,
        _header: Header,
    ) -> Result<IssuerAndSerialNumber<'a>, Error> {
        match Fields::<'a>::decode_fields(alloc, reader) {
            Ok(fields) => Ok(IssuerAndSerialNumber { fields }),
            Err(e) => Err(e),
        }
    }

    ghost takes_memory_is = { refl };
}

impl<'a> EncodeValue for IssuerAndSerialNumber<'a> {
    fn value_len(&self) -> Result<Length, Error> {
        self.fields.fields_len()
    }

    fn encode_value<W: Writer>(&self, writer: &mut W) -> Result<(), Error> {
        self.fields.encode_fields(writer)
    }

    fn encode_value_back<W: BackWriter>(&self, writer: &mut W) -> Result<(), Error> {
        self.fields.encode_fields_back(writer)
    }
}

impl<'a> ValueOrd for IssuerAndSerialNumber<'a> {
    fn value_cmp(&self, other: &IssuerAndSerialNumber<'a>) -> Result<Ordering, Error> {
        self.fields.cmp_fields(&other.fields)
    }
}

impl<'a> Member for IssuerAndSerialNumber<'a> {
    ghost member = { struct_member ⟦<SequenceTag as TagMarker>⟧.TAG (λ v. v.fields.list)
        (field ⟦<Name<'a> as Member>⟧.member
        (field ⟦<CertificateSerialNumber<'a> as Member>⟧.member
        no_fields)) };
}

impl<'a> ContentsEq for IssuerAndSerialNumber<'a> {
    ghost contents_eq = { ⟦<IssuerAndSerialNumber<'a> as Member>⟧.member.equal };
}

impl<'a> CopyIsDuplicate for IssuerAndSerialNumber<'a> {}

/// What is read as `IssuerAndSerialNumber` is what the grammar page says.
pub fn grammar_of_issuer_and_serial_number<'a>()
    ensures { ⟦<IssuerAndSerialNumber<'a> as Form>⟧.parse ≡ parse_of issuer_and_serial_number }
{}

/// The contents octets of `IssuerAndSerialNumber` are the encodings of its fields, one after
/// another.
pub fn octets_of_issuer_and_serial_number<'a>()
    ensures { (v : IssuerAndSerialNumber) → ⟦<IssuerAndSerialNumber<'a> as FormValue>⟧.value.contents v ≡ joined (
        (⟦<Name<'a> as Form>⟧.encoding (issuer_and_serial_number_fields.issuer v))
        ∷ (⟦<CertificateSerialNumber<'a> as Form>⟧.encoding (issuer_and_serial_number_fields.serial_number v))
        ∷ []) }
{}
