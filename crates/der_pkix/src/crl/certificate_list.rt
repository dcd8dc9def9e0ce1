//! CertificateList, a SEQUENCE of 3 fields.
//!
//! Made by tools/asn1 from crl.asn1.

ghost use Rattle.std.specs.Prelude.{◌∷◌, ◌≡◌, [], false, refl};
ghost use Rattle.der_elem.specs.FormatMakers.{mapped_format};
ghost use Rattle.der_modules.specs.Asn1.{joined, parse_of};
ghost use Rattle.der_modules.specs.Members.{field, no_fields, struct_member};
ghost use Rattle.der_pkix.specs.Crl.CertificateList as certificate_list_fields;
ghost use Rattle.der_pkix.specs.Crl.Grammar.{certificate_list};
ghost use Rattle.der_pkix.specs.declared.crl.certificate_list.CertificateList.{CertificateList};

use crate::AlgorithmIdentifier;
use crate::crl::tbs_cert_list::TbsCertList;
use der_bits::BitStringRef;
use der_elem::{
    ContentsEq, CopyIsDuplicate, DecodeValue, EncodeValue, Form, FormValue, OneTag, Sequence,
    SequenceTag, TagMarker, ValueOrd,
};
use der_fields::{DecodeFields, EncodeFields, FieldList, Fields3, FieldsOrd};
use der_modules::{Member, copy_of, field_list};
use der_tlv::{BackWriter, Error, Header, Length, Source, Writer};
use std::alloc::Global;
use std::cmp::Ordering;
use std::fmt;

/// The list of the fields.
type Fields<'a> = Fields3<TbsCertList<'a>, AlgorithmIdentifier<'a>, BitStringRef<'a>>;

/// ```text
/// CertificateList ::= SEQUENCE {
///      tbsCertList         TBSCertList,
///      signatureAlgorithm  AlgorithmIdentifier,
///      signatureValue      BIT STRING }
/// ```
///
/// Reading refuses the first fault of the octets, in their order.
#[derive(Clone, Copy, PartialEq, Eq)]
pub struct CertificateList<'a> {
    fields: Fields<'a>,
}

impl<'a> CertificateList<'a> {
    ghost use Rattle.der_pkix.specs.Crl.CertificateList as certificate_list_fields;

    /// A value of these fields.
    pub fn new(
        tbs_cert_list: &TbsCertList<'a>,
        signature_algorithm: &AlgorithmIdentifier<'a>,
        signature_value: BitStringRef<'a>,
    ) -> CertificateList<'a>
        ensures tbs_cert_list { certificate_list_fields.tbs_cert_list result ≡ tbs_cert_list.now }
        ensures signature_algorithm { certificate_list_fields.signature_algorithm result ≡ signature_algorithm.now }
        ensures signature_value { certificate_list_fields.signature_value result ≡ signature_value.entry }
    {
        let list = field_list![
            copy_of(tbs_cert_list),
            copy_of(signature_algorithm),
            signature_value
        ];
        let fields = Fields3 { list };
        CertificateList { fields }
    }

    /// `tbsCertList`, `TBSCertList`.
    pub fn tbs_cert_list(&self) -> &TbsCertList<'a>
        ensures { result.now ≡ certificate_list_fields.tbs_cert_list self.now }
    {
        &self.fields.list.first
    }

    /// `signatureAlgorithm`, `AlgorithmIdentifier`.
    pub fn signature_algorithm(&self) -> &AlgorithmIdentifier<'a>
        ensures { result.now ≡ certificate_list_fields.signature_algorithm self.now }
    {
        &self.fields.list.rest.first
    }

    /// `signatureValue`, `BIT STRING`.
    pub fn signature_value(&self) -> &BitStringRef<'a>
        ensures { result.now ≡ certificate_list_fields.signature_value self.now }
    {
        &self.fields.list.rest.rest.first
    }
}

impl<'a> fmt::Debug for CertificateList<'a> {
    fn fmt<W: fmt::Write>(&self, f: &mut fmt::Formatter<W>) -> fmt::Result {
        f.debug_struct("CertificateList")
            .field("tbs_cert_list", self.tbs_cert_list())
            .field("signature_algorithm", self.signature_algorithm())
            .field("signature_value", self.signature_value())
            .finish()
    }
}

impl<'a> OneTag for CertificateList<'a> {
    type Marker = SequenceTag;
}

impl<'a> Sequence<'a> for CertificateList<'a> {
    ghost is_sequence = { refl };
}

impl<'a> FormValue for CertificateList<'a> {
    ghost value = { mapped_format (λ v. v.fields) ⟦<Fields<'a> as FieldList>⟧.list.octets };
}

impl<'a, R: Source<'a>> DecodeValue<'a, R> for CertificateList<'a> {
    ghost TAKES_MEMORY = { false };

    const TAKES_MEMORY: bool = false;

    fn decode_value(
        alloc: Global,
        reader: &mut R,
        _header: Header,
    ) -> Result<CertificateList<'a>, Error> {
        match Fields::<'a>::decode_fields(alloc, reader) {
            Ok(fields) => Ok(CertificateList { fields }),
            Err(e) => Err(e),
        }
    }

    ghost takes_memory_is = { refl };
}

impl<'a> EncodeValue for CertificateList<'a> {
    fn value_len(&self) -> Result<Length, Error> {
        self.fields.fields_len()
    }

    fn encode_value<W: Writer>(&self, writer: &mut W) -> Result<(), Error> {
        self.fields.encode_fields(writer)
    }

    fn encode_value_back<W: BackWriter>(&self, writer: &mut W) -> Result<(), Error> {
        self.fields.encode_fields_back(writer)
    }
}

impl<'a> ValueOrd for CertificateList<'a> {
    fn value_cmp(&self, other: &CertificateList<'a>) -> Result<Ordering, Error> {
        self.fields.cmp_fields(&other.fields)
    }
}

impl<'a> Member for CertificateList<'a> {
    ghost member = { struct_member ⟦<SequenceTag as TagMarker>⟧.TAG (λ v. v.fields.list)
        (field ⟦<TbsCertList<'a> as Member>⟧.member
        (field ⟦<AlgorithmIdentifier<'a> as Member>⟧.member
        (field ⟦<BitStringRef<'a> as Member>⟧.member
        no_fields))) };
}

impl<'a> ContentsEq for CertificateList<'a> {
    ghost contents_eq = { ⟦<CertificateList<'a> as Member>⟧.member.equal };
}

impl<'a> CopyIsDuplicate for CertificateList<'a> {}

/// What is read as `CertificateList` is what the grammar page says.
pub fn grammar_of_certificate_list<'a>()
    ensures { ⟦<CertificateList<'a> as Form>⟧.parse ≡ parse_of certificate_list }
{}

/// The contents octets of `CertificateList` are the encodings of its fields, one after another.
pub fn octets_of_certificate_list<'a>()
    ensures { (v : CertificateList) → ⟦<CertificateList<'a> as FormValue>⟧.value.contents v ≡ joined (
        (⟦<TbsCertList<'a> as Form>⟧.encoding (certificate_list_fields.tbs_cert_list v))
        ∷ (⟦<AlgorithmIdentifier<'a> as Form>⟧.encoding (certificate_list_fields.signature_algorithm v))
        ∷ (⟦<BitStringRef<'a> as Form>⟧.encoding (certificate_list_fields.signature_value v))
        ∷ []) }
{}
