//! ESSCertID, a SEQUENCE of 2 fields.
//!
//! Made by tools/asn1 from ess.asn1.

ghost use Rattle.std.specs.Prelude.{◌∷◌, ◌≡◌, [], false, refl};
ghost use Rattle.der_cms.specs.Ess.EssCertId as ess_cert_id_fields;
ghost use Rattle.der_cms.specs.Ess.Grammar.{ess_cert_id};
ghost use Rattle.der_cms.specs.declared.ess.ess_cert_id.EssCertId.{EssCertId};
ghost use Rattle.der_elem.specs.FormatMakers.{mapped_format};
ghost use Rattle.der_modules.specs.Asn1.{joined, optional, parse_of};
ghost use Rattle.der_modules.specs.Members.{field, no_fields, optional_field, struct_member};

use crate::ess::aliases::Hash;
use crate::ess::issuer_serial::IssuerSerial;
use der_elem::{
    ContentsEq, CopyIsDuplicate, DecodeValue, EncodeValue, Form, FormValue, OneTag, Sequence,
    SequenceTag, TagMarker, ValueOrd,
};
use der_fields::{DecodeFields, EncodeFields, FieldList, Fields2, FieldsOrd};
use der_modules::{Member, copy_of, field_list, if_present};
use der_tlv::{BackWriter, Error, Header, Length, Source, Writer};
use std::alloc::Global;
use std::cmp::Ordering;
use std::fmt;

/// The list of the fields.
type Fields<'a> = Fields2<Hash<'a>, Option<IssuerSerial<'a>>>;

/// ```text
/// ESSCertID ::= SEQUENCE {
///      certHash      Hash,
///      issuerSerial  IssuerSerial OPTIONAL }
/// ```
///
/// Reading refuses the first fault of the octets, in their order.
#[derive(Clone, Copy, PartialEq, Eq)]
pub struct EssCertId<'a> {
    fields: Fields<'a>,
}

impl<'a> EssCertId<'a> {
    ghost use Rattle.der_cms.specs.Ess.EssCertId as ess_cert_id_fields;
    ghost use Rattle.std.specs.Prelude.{option_copied};

    /// A value of these fields.
    pub fn new(cert_hash: Hash<'a>, issuer_serial: Option<&IssuerSerial<'a>>) -> EssCertId<'a>
        ensures cert_hash { ess_cert_id_fields.cert_hash result ≡ cert_hash.entry }
        ensures issuer_serial { ess_cert_id_fields.issuer_serial result ≡ option_copied issuer_serial.entry }
    {
        let list = field_list![
            cert_hash,
            if_present!(value in issuer_serial => copy_of(value))
        ];
        let fields = Fields2 { list };
        EssCertId { fields }
    }

    /// `certHash`, `Hash`.
    pub fn cert_hash(&self) -> &Hash<'a>
        ensures { result.now ≡ ess_cert_id_fields.cert_hash self.now }
    {
        &self.fields.list.first
    }

    /// `issuerSerial`, `IssuerSerial OPTIONAL`.
    pub fn issuer_serial(&self) -> Option<&IssuerSerial<'a>>
        ensures { option_copied result ≡ ess_cert_id_fields.issuer_serial self.now }
    {
        if_present!(value in &self.fields.list.rest.first => value)
    }
}

impl<'a> fmt::Debug for EssCertId<'a> {
    fn fmt<W: fmt::Write>(&self, f: &mut fmt::Formatter<W>) -> fmt::Result {
        f.debug_struct("EssCertId")
            .field("cert_hash", self.cert_hash())
            .field("issuer_serial", &self.issuer_serial())
            .finish()
    }
}

impl<'a> OneTag for EssCertId<'a> {
    type Marker = SequenceTag;
}

impl<'a> Sequence<'a> for EssCertId<'a> {
    ghost is_sequence = { refl };
}

impl<'a> FormValue for EssCertId<'a> {
    ghost value = { mapped_format (λ v. v.fields) ⟦<Fields<'a> as FieldList>⟧.list.octets };
}

impl<'a, R: Source<'a>> DecodeValue<'a, R> for EssCertId<'a> {
    ghost TAKES_MEMORY = { false };

    const TAKES_MEMORY: bool = false;

    fn decode_value(
        alloc: Global,
        reader: &mut R,
        _header: Header,
    ) -> Result<EssCertId<'a>, Error> {
        match Fields::<'a>::decode_fields(alloc, reader) {
            Ok(fields) => Ok(EssCertId { fields }),
            Err(e) => Err(e),
        }
    }

    ghost takes_memory_is = { refl };
}

impl<'a> EncodeValue for EssCertId<'a> {
    fn value_len(&self) -> Result<Length, Error> {
        self.fields.fields_len()
    }

    fn encode_value<W: Writer>(&self, writer: &mut W) -> Result<(), Error> {
        self.fields.encode_fields(writer)
    }

    fn encode_value_back<W: BackWriter>(&self, writer: &mut W) -> Result<(), Error> {
        self.fields.encode_fields_back(writer)
    }
}

impl<'a> ValueOrd for EssCertId<'a> {
    fn value_cmp(&self, other: &EssCertId<'a>) -> Result<Ordering, Error> {
        self.fields.cmp_fields(&other.fields)
    }
}

impl<'a> Member for EssCertId<'a> {
    ghost member = { struct_member ⟦<SequenceTag as TagMarker>⟧.TAG (λ v. v.fields.list)
        (field ⟦<Hash<'a> as Member>⟧.member
        (optional_field ⟦<IssuerSerial<'a> as Member>⟧.member
        no_fields)) };
}

impl<'a> ContentsEq for EssCertId<'a> {
    ghost contents_eq = { ⟦<EssCertId<'a> as Member>⟧.member.equal };
}

impl<'a> CopyIsDuplicate for EssCertId<'a> {}

/// What is read as `ESSCertID` is what the grammar page says.
pub fn grammar_of_ess_cert_id<'a>()
    ensures { ⟦<EssCertId<'a> as Form>⟧.parse ≡ parse_of ess_cert_id }
{}

/// The contents octets of `ESSCertID` are the encodings of its fields, one after another.
pub fn octets_of_ess_cert_id<'a>()
    ensures { (v : EssCertId) → ⟦<EssCertId<'a> as FormValue>⟧.value.contents v ≡ joined (
        (⟦<Hash<'a> as Form>⟧.encoding (ess_cert_id_fields.cert_hash v))
        ∷ optional (λ x. (⟦<IssuerSerial<'a> as Form>⟧.encoding x)) (ess_cert_id_fields.issuer_serial v)
        ∷ []) }
{}
