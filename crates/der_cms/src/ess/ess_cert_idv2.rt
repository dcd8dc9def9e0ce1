//! ESSCertIDv2, a SEQUENCE of 3 fields.
//!
//! Made by tools/asn1 from ess.asn1.

ghost use Rattle.std.specs.Prelude.{◌∷◌, ◌≡◌, [], false, refl};
ghost use Rattle.der_cms.specs.Ess.EssCertIdv2 as ess_cert_idv2_fields;
ghost use Rattle.der_cms.specs.Ess.Grammar.{ess_cert_idv2};
ghost use Rattle.der_cms.specs.declared.ess.ess_cert_idv2.EssCertIdv2.{EssCertIdv2};
ghost use Rattle.der_elem.specs.FormatMakers.{mapped_format};
ghost use Rattle.der_modules.specs.Asn1.{joined, optional, parse_of};
ghost use Rattle.der_modules.specs.Members.{field, no_fields, optional_field, struct_member};

use crate::ess::aliases::Hash;
use crate::ess::issuer_serial::IssuerSerial;
use der_elem::{
    ContentsEq, CopyIsDuplicate, DecodeValue, EncodeValue, Form, FormValue, OneTag, Sequence,
    SequenceTag, TagMarker, ValueOrd,
};
use der_fields::{DecodeFields, EncodeFields, FieldList, Fields3, FieldsOrd};
use der_modules::{Member, copy_of, field_list, if_present};
use der_pkix::AlgorithmIdentifier;
use der_tlv::{BackWriter, Error, Header, Length, Source, Writer};
use std::alloc::Global;
use std::cmp::Ordering;
use std::fmt;

/// The list of the fields.
type Fields<'a> = Fields3<Option<AlgorithmIdentifier<'a>>, Hash<'a>, Option<IssuerSerial<'a>>>;

/// ```text
/// ESSCertIDv2 ::= SEQUENCE {
///      hashAlgorithm  AlgorithmIdentifier OPTIONAL,
///                     -- RFC 5035 has DEFAULT { algorithm id-sha256 }: absent it says SHA-256, and
///                     -- the default is taken where it is encoded
///      certHash       Hash,
///      issuerSerial   IssuerSerial OPTIONAL }
/// ```
///
/// Reading refuses the first fault of the octets, in their order.
#[derive(Clone, Copy, PartialEq, Eq)]
pub struct EssCertIdv2<'a> {
    fields: Fields<'a>,
}

impl<'a> EssCertIdv2<'a> {
    ghost use Rattle.der_cms.specs.Ess.EssCertIdv2 as ess_cert_idv2_fields;
    ghost use Rattle.std.specs.Prelude.{option_copied};

    /// A value of these fields.
    pub fn new(
        hash_algorithm: Option<&AlgorithmIdentifier<'a>>,
        cert_hash: Hash<'a>,
        issuer_serial: Option<&IssuerSerial<'a>>,
    ) -> EssCertIdv2<'a>
        ensures hash_algorithm { ess_cert_idv2_fields.hash_algorithm result ≡ option_copied hash_algorithm.entry }
        ensures cert_hash { ess_cert_idv2_fields.cert_hash result ≡ cert_hash.entry }
        ensures issuer_serial { ess_cert_idv2_fields.issuer_serial result ≡ option_copied issuer_serial.entry }
    {
        let list = field_list![
            if_present!(value in hash_algorithm => copy_of(value)),
            cert_hash,
            if_present!(value in issuer_serial => copy_of(value))
        ];
        let fields = Fields3 { list };
        EssCertIdv2 { fields }
    }

    /// `hashAlgorithm`, `AlgorithmIdentifier OPTIONAL`.
    pub fn hash_algorithm(&self) -> Option<&AlgorithmIdentifier<'a>>
        ensures { option_copied result ≡ ess_cert_idv2_fields.hash_algorithm self.now }
    {
        if_present!(value in &self.fields.list.first => value)
    }

    /// `certHash`, `Hash`.
    pub fn cert_hash(&self) -> &Hash<'a>
        ensures { result.now ≡ ess_cert_idv2_fields.cert_hash self.now }
    {
        &self.fields.list.rest.first
    }

    /// `issuerSerial`, `IssuerSerial OPTIONAL`.
    pub fn issuer_serial(&self) -> Option<&IssuerSerial<'a>>
        ensures { option_copied result ≡ ess_cert_idv2_fields.issuer_serial self.now }
    {
        if_present!(value in &self.fields.list.rest.rest.first => value)
    }
}

impl<'a> fmt::Debug for EssCertIdv2<'a> {
    fn fmt<W: fmt::Write>(&self, f: &mut fmt::Formatter<W>) -> fmt::Result {
        f.debug_struct("EssCertIdv2")
            .field("hash_algorithm", &self.hash_algorithm())
            .field("cert_hash", self.cert_hash())
            .field("issuer_serial", &self.issuer_serial())
            .finish()
    }
}

impl<'a> OneTag for EssCertIdv2<'a> {
    type Marker = SequenceTag;
}

impl<'a> Sequence<'a> for EssCertIdv2<'a> {
    ghost is_sequence = { refl };
}

impl<'a> FormValue for EssCertIdv2<'a> {
    ghost value = { mapped_format (λ v. v.fields) ⟦<Fields<'a> as FieldList>⟧.list.octets };
}

impl<'a, R: Source<'a>> DecodeValue<'a, R> for EssCertIdv2<'a> {
    ghost TAKES_MEMORY = { false };

    const TAKES_MEMORY: bool = false;

    fn decode_value(
        alloc: Global,
        reader: &mut R,
        _header: Header,
    ) -> Result<EssCertIdv2<'a>, Error> {
        match Fields::<'a>::decode_fields(alloc, reader) {
            Ok(fields) => Ok(EssCertIdv2 { fields }),
            Err(e) => Err(e),
        }
    }

    ghost takes_memory_is = { refl };
}

impl<'a> EncodeValue for EssCertIdv2<'a> {
    fn value_len(&self) -> Result<Length, Error> {
        self.fields.fields_len()
    }

    fn encode_value<W: Writer>(&self, writer: &mut W) -> Result<(), Error> {
        self.fields.encode_fields(writer)
    }

    fn encode_value_back<W: BackWriter>(&self, writer: &mut W) -> Result<(), Error> {
        self.fields.encode_fields_back(writer)
    }
}

impl<'a> ValueOrd for EssCertIdv2<'a> {
    fn value_cmp(&self, other: &EssCertIdv2<'a>) -> Result<Ordering, Error> {
        self.fields.cmp_fields(&other.fields)
    }
}

impl<'a> Member for EssCertIdv2<'a> {
    ghost member = { struct_member ⟦<SequenceTag as TagMarker>⟧.TAG (λ v. v.fields.list)
        (optional_field ⟦<AlgorithmIdentifier<'a> as Member>⟧.member
        (field ⟦<Hash<'a> as Member>⟧.member
        (optional_field ⟦<IssuerSerial<'a> as Member>⟧.member
        no_fields))) };
}

impl<'a> ContentsEq for EssCertIdv2<'a> {
    ghost contents_eq = { ⟦<EssCertIdv2<'a> as Member>⟧.member.equal };
}

impl<'a> CopyIsDuplicate for EssCertIdv2<'a> {}

/// What is read as `ESSCertIDv2` is what the grammar page says.
pub fn grammar_of_ess_cert_idv2<'a>()
    ensures { ⟦<EssCertIdv2<'a> as Form>⟧.parse ≡ parse_of ess_cert_idv2 }
{}

/// The contents octets of `ESSCertIDv2` are the encodings of its fields, one after another.
pub fn octets_of_ess_cert_idv2<'a>()
    ensures { (v : EssCertIdv2) → ⟦<EssCertIdv2<'a> as FormValue>⟧.value.contents v ≡ joined (
        optional (λ x. (⟦<AlgorithmIdentifier<'a> as Form>⟧.encoding x)) (ess_cert_idv2_fields.hash_algorithm v)
        ∷ (⟦<Hash<'a> as Form>⟧.encoding (ess_cert_idv2_fields.cert_hash v))
        ∷ optional (λ x. (⟦<IssuerSerial<'a> as Form>⟧.encoding x)) (ess_cert_idv2_fields.issuer_serial v)
        ∷ []) }
{}
