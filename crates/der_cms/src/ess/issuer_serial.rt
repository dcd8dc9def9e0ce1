//! IssuerSerial, a SEQUENCE of 2 fields.
//!
//! Made by tools/asn1 from ess.asn1.

ghost use Rattle.std.specs.Prelude.{◌∷◌, ◌≡◌, [], false, refl};
ghost use Rattle.der_cms.specs.Ess.Grammar.{issuer_serial};
ghost use Rattle.der_cms.specs.Ess.IssuerSerial as issuer_serial_fields;
ghost use Rattle.der_cms.specs.declared.ess.issuer_serial.IssuerSerial.{IssuerSerial};
ghost use Rattle.der_elem.specs.FormatMakers.{mapped_format};
ghost use Rattle.der_modules.specs.Asn1.{joined, parse_of};
ghost use Rattle.der_modules.specs.Members.{field, no_fields, struct_member};

use der_elem::{
    ContentsEq, CopyIsDuplicate, DecodeValue, EncodeValue, Form, FormValue, OneTag, Sequence,
    SequenceTag, TagMarker, ValueOrd,
};
use der_extensions::extension::GeneralNames;
use der_fields::{DecodeFields, EncodeFields, FieldList, Fields2, FieldsOrd};
use der_modules::{Member, copy_of, field_list};
use der_pkix::certificate::CertificateSerialNumber;
use der_tlv::{BackWriter, Error, Header, Length, Source, Writer};
use std::alloc::Global;
use std::cmp::Ordering;
use std::fmt;

/// The list of the fields.
type Fields<'a> = Fields2<GeneralNames<'a>, CertificateSerialNumber<'a>>;

/// ```text
/// IssuerSerial ::= SEQUENCE {
///      issuer        GeneralNames,
///      serialNumber  CertificateSerialNumber }
/// ```
///
/// Reading refuses the first fault of the octets, in their order.
#[derive(Clone, Copy, PartialEq, Eq)]
pub struct IssuerSerial<'a> {
    fields: Fields<'a>,
}

impl<'a> IssuerSerial<'a> {
    ghost use Rattle.der_cms.specs.Ess.IssuerSerial as issuer_serial_fields;

    /// A value of these fields.
    pub fn new(
        issuer: &GeneralNames<'a>,
        serial_number: CertificateSerialNumber<'a>,
    ) -> IssuerSerial<'a>
        ensures issuer { issuer_serial_fields.issuer result ≡ issuer.now }
        ensures serial_number { issuer_serial_fields.serial_number result ≡ serial_number.entry }
    {
        let list = field_list![copy_of(issuer), serial_number];
        let fields = Fields2 { list };
        IssuerSerial { fields }
    }

    /// `issuer`, `GeneralNames`.
    pub fn issuer(&self) -> &GeneralNames<'a>
        ensures { result.now ≡ issuer_serial_fields.issuer self.now }
    {
        &self.fields.list.first
    }

    /// `serialNumber`, `CertificateSerialNumber`.
    pub fn serial_number(&self) -> &CertificateSerialNumber<'a>
        ensures { result.now ≡ issuer_serial_fields.serial_number self.now }
    {
        &self.fields.list.rest.first
    }
}

impl<'a> fmt::Debug for IssuerSerial<'a> {
    fn fmt<W: fmt::Write>(&self, f: &mut fmt::Formatter<W>) -> fmt::Result {
        f.debug_struct("IssuerSerial")
            .field("issuer", self.issuer())
            .field("serial_number", self.serial_number())
            .finish()
    }
}

impl<'a> OneTag for IssuerSerial<'a> {
    type Marker = SequenceTag;
}

impl<'a> Sequence<'a> for IssuerSerial<'a> {
    ghost is_sequence = { refl };
}

impl<'a> FormValue for IssuerSerial<'a> {
    ghost value = { mapped_format (λ v. v.fields) ⟦<Fields<'a> as FieldList>⟧.list.octets };
}

impl<'a, R: Source<'a>> DecodeValue<'a, R> for IssuerSerial<'a> {
    ghost TAKES_MEMORY = { false };

    const TAKES_MEMORY: bool = false;

    fn decode_value(
        alloc: Global,
        reader: &mut R,
        _header: Header,
    ) -> Result<IssuerSerial<'a>, Error> {
        match Fields::<'a>::decode_fields(alloc, reader) {
            Ok(fields) => Ok(IssuerSerial { fields }),
            Err(e) => Err(e),
        }
    }

    ghost takes_memory_is = { refl };
}

impl<'a> EncodeValue for IssuerSerial<'a> {
    fn value_len(&self) -> Result<Length, Error> {
        self.fields.fields_len()
    }

    fn encode_value<W: Writer>(&self, writer: &mut W) -> Result<(), Error> {
        self.fields.encode_fields(writer)
    }

    fn encode_value_back<W: BackWriter>(&self, writer: &mut W) -> Result<(), Error> {
        self.fields.encode_fields_back(writer)
    }
}

impl<'a> ValueOrd for IssuerSerial<'a> {
    fn value_cmp(&self, other: &IssuerSerial<'a>) -> Result<Ordering, Error> {
        self.fields.cmp_fields(&other.fields)
    }
}

impl<'a> Member for IssuerSerial<'a> {
    ghost member = { struct_member ⟦<SequenceTag as TagMarker>⟧.TAG (λ v. v.fields.list)
        (field ⟦<GeneralNames<'a> as Member>⟧.member
        (field ⟦<CertificateSerialNumber<'a> as Member>⟧.member
        no_fields)) };
}

impl<'a> ContentsEq for IssuerSerial<'a> {
    ghost contents_eq = { ⟦<IssuerSerial<'a> as Member>⟧.member.equal };
}

impl<'a> CopyIsDuplicate for IssuerSerial<'a> {}

/// What is read as `IssuerSerial` is what the grammar page says.
pub fn grammar_of_issuer_serial<'a>()
    ensures { ⟦<IssuerSerial<'a> as Form>⟧.parse ≡ parse_of issuer_serial }
{}

/// The contents octets of `IssuerSerial` are the encodings of its fields, one after another.
pub fn octets_of_issuer_serial<'a>()
    ensures { (v : IssuerSerial) → ⟦<IssuerSerial<'a> as FormValue>⟧.value.contents v ≡ joined (
        (⟦<GeneralNames<'a> as Form>⟧.encoding (issuer_serial_fields.issuer v))
        ∷ (⟦<CertificateSerialNumber<'a> as Form>⟧.encoding (issuer_serial_fields.serial_number v))
        ∷ []) }
{}
