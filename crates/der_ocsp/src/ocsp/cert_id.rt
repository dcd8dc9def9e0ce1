//! CertID, a SEQUENCE of 4 fields.
//!
//! Made by tools/asn1 from ocsp.asn1.

ghost use Rattle.std.specs.Prelude.{◌∷◌, ◌≡◌, [], false, refl};
ghost use Rattle.der_elem.specs.FormatMakers.{mapped_format};
ghost use Rattle.der_modules.specs.Asn1.{joined, parse_of};
ghost use Rattle.der_modules.specs.Members.{field, no_fields, struct_member};
ghost use Rattle.der_ocsp.specs.Ocsp.CertId as cert_id_fields;
ghost use Rattle.der_ocsp.specs.Ocsp.Grammar.{cert_id};
ghost use Rattle.der_ocsp.specs.declared.ocsp.cert_id.CertId.{CertId};

use der_elem::{
    ContentsEq, CopyIsDuplicate, DecodeValue, EncodeValue, Form, FormValue, OneTag, Sequence,
    SequenceTag, TagMarker, ValueOrd,
};
use der_fields::{DecodeFields, EncodeFields, FieldList, Fields4, FieldsOrd};
use der_modules::{Member, copy_of, field_list};
use der_opaque::OctetStringRef;
use der_pkix::AlgorithmIdentifier;
use der_pkix::certificate::CertificateSerialNumber;
use der_tlv::{BackWriter, Error, Header, Length, Source, Writer};
use std::alloc::Global;
use std::cmp::Ordering;
use std::fmt;

/// The list of the fields.
type Fields<'a> = Fields4<
    AlgorithmIdentifier<'a>,
    OctetStringRef<'a>,
    OctetStringRef<'a>,
    CertificateSerialNumber<'a>,
>;

/// ```text
/// CertID ::= SEQUENCE {
///      hashAlgorithm   AlgorithmIdentifier,
///      issuerNameHash  OCTET STRING, -- hash of the issuer's name
///      issuerKeyHash   OCTET STRING, -- hash of the issuer's public key
///      serialNumber    CertificateSerialNumber }
/// ```
///
/// Reading refuses the first fault of the octets, in their order.
#[derive(Clone, Copy, PartialEq, Eq)]
pub struct CertId<'a> {
    fields: Fields<'a>,
}

impl<'a> CertId<'a> {
    ghost use Rattle.der_ocsp.specs.Ocsp.CertId as cert_id_fields;

    /// A value of these fields.
    pub fn new(
        hash_algorithm: &AlgorithmIdentifier<'a>,
        issuer_name_hash: OctetStringRef<'a>,
        issuer_key_hash: OctetStringRef<'a>,
        serial_number: CertificateSerialNumber<'a>,
    ) -> CertId<'a>
        ensures hash_algorithm { cert_id_fields.hash_algorithm result ≡ hash_algorithm.now }
        ensures issuer_name_hash { cert_id_fields.issuer_name_hash result ≡ issuer_name_hash.entry }
        ensures issuer_key_hash { cert_id_fields.issuer_key_hash result ≡ issuer_key_hash.entry }
        ensures serial_number { cert_id_fields.serial_number result ≡ serial_number.entry }
    {
        let list = field_list![
            copy_of(hash_algorithm),
            issuer_name_hash,
            issuer_key_hash,
            serial_number
        ];
        let fields = Fields4 { list };
        CertId { fields }
    }

    /// `hashAlgorithm`, `AlgorithmIdentifier`.
    pub fn hash_algorithm(&self) -> &AlgorithmIdentifier<'a>
        ensures { result.now ≡ cert_id_fields.hash_algorithm self.now }
    {
        &self.fields.list.first
    }

    /// `issuerNameHash`, `OCTET STRING`.
    pub fn issuer_name_hash(&self) -> &OctetStringRef<'a>
        ensures { result.now ≡ cert_id_fields.issuer_name_hash self.now }
    {
        &self.fields.list.rest.first
    }

    /// `issuerKeyHash`, `OCTET STRING`.
    pub fn issuer_key_hash(&self) -> &OctetStringRef<'a>
        ensures { result.now ≡ cert_id_fields.issuer_key_hash self.now }
    {
        &self.fields.list.rest.rest.first
    }

    /// `serialNumber`, `CertificateSerialNumber`.
    pub fn serial_number(&self) -> &CertificateSerialNumber<'a>
        ensures { result.now ≡ cert_id_fields.serial_number self.now }
    {
        &self.fields.list.rest.rest.rest.first
    }
}

impl<'a> fmt::Debug for CertId<'a> {
    fn fmt<W: fmt::Write>(&self, f: &mut fmt::Formatter<W>) -> fmt::Result {
        f.debug_struct("CertId")
            .field("hash_algorithm", self.hash_algorithm())
            .field("issuer_name_hash", self.issuer_name_hash())
            .field("issuer_key_hash", self.issuer_key_hash())
            .field("serial_number", self.serial_number())
            .finish()
    }
}

impl<'a> OneTag for CertId<'a> {
    type Marker = SequenceTag;
}

impl<'a> Sequence<'a> for CertId<'a> {
    ghost is_sequence = { refl };
}

impl<'a> FormValue for CertId<'a> {
    ghost value = { mapped_format (λ v. v.fields) ⟦<Fields<'a> as FieldList>⟧.list.octets };
}

impl<'a, R: Source<'a>> DecodeValue<'a, R> for CertId<'a> {
    ghost TAKES_MEMORY = { false };

    const TAKES_MEMORY: bool = false;

    fn decode_value(alloc: Global, reader: &mut R, _header: Header) -> Result<CertId<'a>, Error> {
        match Fields::<'a>::decode_fields(alloc, reader) {
            Ok(fields) => Ok(CertId { fields }),
            Err(e) => Err(e),
        }
    }

    ghost takes_memory_is = { refl };
}

impl<'a> EncodeValue for CertId<'a> {
    fn value_len(&self) -> Result<Length, Error> {
        self.fields.fields_len()
    }

    fn encode_value<W: Writer>(&self, writer: &mut W) -> Result<(), Error> {
        self.fields.encode_fields(writer)
    }

    fn encode_value_back<W: BackWriter>(&self, writer: &mut W) -> Result<(), Error> {
        self.fields.encode_fields_back(writer)
    }
}

impl<'a> ValueOrd for CertId<'a> {
    fn value_cmp(&self, other: &CertId<'a>) -> Result<Ordering, Error> {
        self.fields.cmp_fields(&other.fields)
    }
}

impl<'a> Member for CertId<'a> {
    ghost member = { struct_member ⟦<SequenceTag as TagMarker>⟧.TAG (λ v. v.fields.list)
        (field ⟦<AlgorithmIdentifier<'a> as Member>⟧.member
        (field ⟦<OctetStringRef<'a> as Member>⟧.member
        (field ⟦<OctetStringRef<'a> as Member>⟧.member
        (field ⟦<CertificateSerialNumber<'a> as Member>⟧.member
        no_fields)))) };
}

impl<'a> ContentsEq for CertId<'a> {
    ghost contents_eq = { ⟦<CertId<'a> as Member>⟧.member.equal };
}

impl<'a> CopyIsDuplicate for CertId<'a> {}

/// What is read as `CertID` is what the grammar page says.
pub fn grammar_of_cert_id<'a>()
    ensures { ⟦<CertId<'a> as Form>⟧.parse ≡ parse_of cert_id }
{}

/// The contents octets of `CertID` are the encodings of its fields, one after another.
pub fn octets_of_cert_id<'a>()
    ensures { (v : CertId) → ⟦<CertId<'a> as FormValue>⟧.value.contents v ≡ joined (
        (⟦<AlgorithmIdentifier<'a> as Form>⟧.encoding (cert_id_fields.hash_algorithm v))
        ∷ (⟦<OctetStringRef<'a> as Form>⟧.encoding (cert_id_fields.issuer_name_hash v))
        ∷ (⟦<OctetStringRef<'a> as Form>⟧.encoding (cert_id_fields.issuer_key_hash v))
        ∷ (⟦<CertificateSerialNumber<'a> as Form>⟧.encoding (cert_id_fields.serial_number v))
        ∷ []) }
{}
