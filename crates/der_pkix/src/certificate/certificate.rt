//! Certificate, a SEQUENCE of 3 fields.
//!
//! Made by tools/asn1 from certificate.asn1.

ghost use Rattle.std.specs.Prelude.{◌∷◌, ◌≡◌, [], false, refl};
ghost use Rattle.der_elem.specs.FormatMakers.{mapped_format};
ghost use Rattle.der_modules.specs.Asn1.{joined, parse_of};
ghost use Rattle.der_modules.specs.Members.{field, no_fields, struct_member};
ghost use Rattle.der_pkix.specs.Certificate.Certificate as certificate_fields;
ghost use Rattle.der_pkix.specs.Certificate.Grammar.{certificate};
ghost use Rattle.der_pkix.specs.declared.certificate.certificate.Certificate.{Certificate};

use crate::AlgorithmIdentifier;
use crate::certificate::tbs_certificate::TbsCertificate;
use der_bits::BitStringRef;
use der_elem::{
    ContentsEq, CopyIsDuplicate, DecodeValue, EncodeValue, Form, FormValue, OneTag, Sequence,
    SequenceTag, TagMarker, ValueOrd,
};
use der_fields::{DecodeFields, EncodeFields, FieldList, Fields3, FieldsOrd};
use der_modules::{Member, copy_of, field_list};
use der_tlv::{BackWriter, Error, Header, Length, Source, Writer};
use std::alloc::Global;
use std::cmp::Ordering;
use std::fmt;

/// The list of the fields.
type Fields<'a> = Fields3<TbsCertificate<'a>, AlgorithmIdentifier<'a>, BitStringRef<'a>>;

/// ```text
/// Certificate ::= SEQUENCE {
///      tbsCertificate      TBSCertificate,
///      signatureAlgorithm  AlgorithmIdentifier,
///      signatureValue      BIT STRING }
/// ```
///
/// Reading refuses the first fault of the octets, in their order.
#[derive(Clone, Copy, PartialEq, Eq)]
pub struct Certificate<'a> {
    fields: Fields<'a>,
}

impl<'a> Certificate<'a> {
    ghost use Rattle.der_pkix.specs.Certificate.Certificate as certificate_fields;

    /// A value of these fields.
    pub fn new(
        tbs_certificate: &TbsCertificate<'a>,
        signature_algorithm: &AlgorithmIdentifier<'a>,
        signature_value: BitStringRef<'a>,
    ) -> Certificate<'a>
        ensures tbs_certificate { certificate_fields.tbs_certificate result ≡ tbs_certificate.now }
        ensures signature_algorithm { certificate_fields.signature_algorithm result ≡ signature_algorithm.now }
        ensures signature_value { certificate_fields.signature_value result ≡ signature_value.entry }
    {
        let list = field_list![
            copy_of(tbs_certificate),
            copy_of(signature_algorithm),
            signature_value
        ];
        let fields = Fields3 { list };
        Certificate { fields }
    }

    /// `tbsCertificate`, `TBSCertificate`.
    pub fn tbs_certificate(&self) -> &TbsCertificate<'a>
        ensures { result.now ≡ certificate_fields.tbs_certificate self.now }
    {
        &self.fields.list.first
    }

    /// `signatureAlgorithm`, `AlgorithmIdentifier`.
    pub fn signature_algorithm(&self) -> &AlgorithmIdentifier<'a>
        ensures { result.now ≡ certificate_fields.signature_algorithm self.now }
    {
        &self.fields.list.rest.first
    }

    /// `signatureValue`, `BIT STRING`.
    pub fn signature_value(&self) -> &BitStringRef<'a>
        ensures { result.now ≡ certificate_fields.signature_value self.now }
    {
        &self.fields.list.rest.rest.first
    }
}

impl<'a> fmt::Debug for Certificate<'a> {
    fn fmt<W: fmt::Write>(&self, f: &mut fmt::Formatter<W>) -> fmt::Result {
        f.debug_struct("Certificate")
            .field("tbs_certificate", self.tbs_certificate())
            .field("signature_algorithm", self.signature_algorithm())
            .field("signature_value", self.signature_value())
            .finish()
    }
}

impl<'a> OneTag for Certificate<'a> {
    type Marker = SequenceTag;
}

impl<'a> Sequence<'a> for Certificate<'a> {
    ghost is_sequence = { refl };
}

impl<'a> FormValue for Certificate<'a> {
    ghost value = { mapped_format (λ v. v.fields) ⟦<Fields<'a> as FieldList>⟧.list.octets };
}

impl<'a, R: Source<'a>> DecodeValue<'a, R> for Certificate<'a> {
    ghost TAKES_MEMORY = { false };

    const TAKES_MEMORY: bool = false;

    fn decode_value(
        alloc: Global,
        reader: &mut R,
        _header: Header,
    ) -> Result<Certificate<'a>, Error> {
        match Fields::<'a>::decode_fields(alloc, reader) {
            Ok(fields) => Ok(Certificate { fields }),
            Err(e) => Err(e),
        }
    }

    ghost takes_memory_is = { refl };
}

impl<'a> EncodeValue for Certificate<'a> {
    fn value_len(&self) -> Result<Length, Error> {
        self.fields.fields_len()
    }

    fn encode_value<W: Writer>(&self, writer: &mut W) -> Result<(), Error> {
        self.fields.encode_fields(writer)
    }

    fn encode_value_back<W: BackWriter>(&self, writer: &mut W) -> Result<(), Error> {
        self.fields.encode_fields_back(writer)
    }
}

impl<'a> ValueOrd for Certificate<'a> {
    fn value_cmp(&self, other: &Certificate<'a>) -> Result<Ordering, Error> {
        self.fields.cmp_fields(&other.fields)
    }
}

impl<'a> Member for Certificate<'a> {
    ghost member = { struct_member ⟦<SequenceTag as TagMarker>⟧.TAG (λ v. v.fields.list)
        (field ⟦<TbsCertificate<'a> as Member>⟧.member
        (field ⟦<AlgorithmIdentifier<'a> as Member>⟧.member
        (field ⟦<BitStringRef<'a> as Member>⟧.member
        no_fields))) };
}

impl<'a> ContentsEq for Certificate<'a> {
    ghost contents_eq = { ⟦<Certificate<'a> as Member>⟧.member.equal };
}

impl<'a> CopyIsDuplicate for Certificate<'a> {}

/// What is read as `Certificate` is what the grammar page says.
pub fn grammar_of_certificate<'a>()
    ensures { ⟦<Certificate<'a> as Form>⟧.parse ≡ parse_of certificate }
{}

/// The contents octets of `Certificate` are the encodings of its fields, one after another.
pub fn octets_of_certificate<'a>()
    ensures { (v : Certificate) → ⟦<Certificate<'a> as FormValue>⟧.value.contents v ≡ joined (
        (⟦<TbsCertificate<'a> as Form>⟧.encoding (certificate_fields.tbs_certificate v))
        ∷ (⟦<AlgorithmIdentifier<'a> as Form>⟧.encoding (certificate_fields.signature_algorithm v))
        ∷ (⟦<BitStringRef<'a> as Form>⟧.encoding (certificate_fields.signature_value v))
        ∷ []) }
{}
