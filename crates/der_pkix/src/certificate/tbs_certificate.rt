//! TBSCertificate, a SEQUENCE of 10 fields.
//!
//! Made by tools/asn1 from certificate.asn1.

ghost use Rattle.std.specs.Prelude.{◌∷◌, ◌≡◌, [], false, refl};
ghost use Rattle.der_elem.specs.FormatMakers.{mapped_format};
ghost use Rattle.der_modules.specs.Asn1.{context, explicit_encoding, implicit_encoding, joined, optional, parse_of, unless_default};
ghost use Rattle.der_modules.specs.Members.{default_field, field, no_fields, optional_field, part, struct_member};
ghost use Rattle.der_pkix.specs.Certificate.Grammar.{tbs_certificate};
ghost use Rattle.der_pkix.specs.Certificate.TbsCertificate as tbs_certificate_fields;
ghost use Rattle.der_pkix.specs.declared.certificate.tbs_certificate.TbsCertificate.{TbsCertificate};

use crate::AlgorithmIdentifier;
use crate::certificate::aliases::{CertificateSerialNumber, UniqueIdentifier, Version};
use crate::certificate::extensions::Extensions;
use crate::certificate::subject_public_key_info::SubjectPublicKeyInfo;
use crate::certificate::validity::Validity;
use crate::name::Name;
use der_elem::{
    ContentsEq, CopyIsDuplicate, DecodeValue, EncodeValue, Form, FormValue, OneTag, Sequence,
    SequenceTag, TagMarker, ValueOrd,
};
use der_fields::{
    DecodeFields, DefaultNumber, DefaultOf, EncodeFields, Explicit, FieldList, Fields2, Fields8,
    FieldsOrd, Implicit, WithDefault,
};
use der_modules::{Member, copy_of, field_list, if_present, tagged};
use der_tlv::{BackWriter, Error, Header, Length, Source, Writer};
use std::alloc::Global;
use std::cmp::Ordering;
use std::fmt;

/// The list of the fields.
type Fields<'a> = Fields8<
    WithDefault<Explicit<Version, 0>, DefaultNumber<0>>,
    CertificateSerialNumber<'a>,
    AlgorithmIdentifier<'a>,
    Name<'a>,
    Validity,
    Name<'a>,
    SubjectPublicKeyInfo<'a>,
    Option<Implicit<UniqueIdentifier<'a>, 1>>,
    Fields2<Option<Implicit<UniqueIdentifier<'a>, 2>>, Option<Explicit<Extensions<'a>, 3>>>,
>;

/// ```text
/// TBSCertificate ::= SEQUENCE {
///      version          [0]  Version DEFAULT v1,
///      serialNumber          CertificateSerialNumber,
///      signature             AlgorithmIdentifier,
///      issuer                Name,
///      validity              Validity,
///      subject               Name,
///      subjectPublicKeyInfo  SubjectPublicKeyInfo,
///      issuerUniqueID   [1]  IMPLICIT UniqueIdentifier OPTIONAL,
///                            -- If present, version MUST be v2 or v3
///      subjectUniqueID  [2]  IMPLICIT UniqueIdentifier OPTIONAL,
///                            -- If present, version MUST be v2 or v3
///      extensions       [3]  Extensions OPTIONAL }
/// ```
///
/// Reading refuses the first fault of the octets, in their order.
#[derive(Clone, Copy, PartialEq, Eq)]
pub struct TbsCertificate<'a> {
    fields: Fields<'a>,
}

impl<'a> TbsCertificate<'a> {
    ghost use Rattle.der_pkix.specs.Certificate.TbsCertificate as tbs_certificate_fields;
    ghost use Rattle.std.specs.Prelude.{option_copied};

    /// A value of these fields.
    pub fn new(
        version: Version,
        serial_number: CertificateSerialNumber<'a>,
        signature: &AlgorithmIdentifier<'a>,
        issuer: &Name<'a>,
        validity: Validity,
        subject: &Name<'a>,
        subject_public_key_info: &SubjectPublicKeyInfo<'a>,
        issuer_unique_id: Option<UniqueIdentifier<'a>>,
        subject_unique_id: Option<UniqueIdentifier<'a>>,
        extensions: Option<&Extensions<'a>>,
    ) -> TbsCertificate<'a>
        ensures version { tbs_certificate_fields.version result ≡ version }
        ensures serial_number { tbs_certificate_fields.serial_number result ≡ serial_number.entry }
        ensures signature { tbs_certificate_fields.signature result ≡ signature.now }
        ensures issuer { tbs_certificate_fields.issuer result ≡ issuer.now }
        ensures validity { tbs_certificate_fields.validity result ≡ validity }
        ensures subject { tbs_certificate_fields.subject result ≡ subject.now }
        ensures subject_public_key_info { tbs_certificate_fields.subject_public_key_info result ≡ subject_public_key_info.now }
        ensures issuer_unique_id { tbs_certificate_fields.issuer_unique_id result ≡ issuer_unique_id.entry }
        ensures subject_unique_id { tbs_certificate_fields.subject_unique_id result ≡ subject_unique_id.entry }
        ensures extensions { tbs_certificate_fields.extensions result ≡ option_copied extensions.entry }
    {
        let list = field_list![
            if_present!(value in subject_unique_id => Implicit { value }),
            if_present!(value in extensions => tagged!(Explicit, copy_of(value)))
        ];
        let rest = Fields2 { list };
        let list =
            field_list![WithDefault::new(tagged!(Explicit, version)), serial_number, copy_of(signature), copy_of(issuer), validity, copy_of(subject), copy_of(subject_public_key_info), if_present!(value in issuer_unique_id => Implicit { value }); rest];
        let fields = Fields8 { list };
        TbsCertificate { fields }
    }

    /// `version`, `[0] Version DEFAULT v1`.
    pub fn version(&self) -> Version
        ensures { result ≡ tbs_certificate_fields.version self.now }
    {
        self.fields.list.first.value.fields.first
    }

    /// `serialNumber`, `CertificateSerialNumber`.
    pub fn serial_number(&self) -> &CertificateSerialNumber<'a>
        ensures { result.now ≡ tbs_certificate_fields.serial_number self.now }
    {
        &self.fields.list.rest.first
    }

    /// `signature`, `AlgorithmIdentifier`.
    pub fn signature(&self) -> &AlgorithmIdentifier<'a>
        ensures { result.now ≡ tbs_certificate_fields.signature self.now }
    {
        &self.fields.list.rest.rest.first
    }

    /// `issuer`, `Name`.
    pub fn issuer(&self) -> &Name<'a>
        ensures { result.now ≡ tbs_certificate_fields.issuer self.now }
    {
        &self.fields.list.rest.rest.rest.first
    }

    /// `validity`, `Validity`.
    pub fn validity(&self) -> Validity
        ensures { result ≡ tbs_certificate_fields.validity self.now }
    {
        self.fields.list.rest.rest.rest.rest.first
    }

    /// `subject`, `Name`.
    pub fn subject(&self) -> &Name<'a>
        ensures { result.now ≡ tbs_certificate_fields.subject self.now }
    {
        &self.fields.list.rest.rest.rest.rest.rest.first
    }

    /// `subjectPublicKeyInfo`, `SubjectPublicKeyInfo`.
    pub fn subject_public_key_info(&self) -> &SubjectPublicKeyInfo<'a>
        ensures { result.now ≡ tbs_certificate_fields.subject_public_key_info self.now }
    {
        &self.fields.list.rest.rest.rest.rest.rest.rest.first
    }

    /// `issuerUniqueID`, `[1] IMPLICIT UniqueIdentifier OPTIONAL`.
    pub fn issuer_unique_id(&self) -> Option<&UniqueIdentifier<'a>>
        ensures { option_copied result ≡ tbs_certificate_fields.issuer_unique_id self.now }
    {
        if_present!(value in &self.fields.list.rest.rest.rest.rest.rest.rest.rest.first => &value.value)
    }

    /// `subjectUniqueID`, `[2] IMPLICIT UniqueIdentifier OPTIONAL`.
    pub fn subject_unique_id(&self) -> Option<&UniqueIdentifier<'a>>
        ensures { option_copied result ≡ tbs_certificate_fields.subject_unique_id self.now }
    {
        let tail = &self.fields.list.rest.rest.rest.rest.rest.rest.rest.rest;
        if_present!(value in &tail.list.first => &value.value)
    }

    /// `extensions`, `[3] Extensions OPTIONAL`.
    pub fn extensions(&self) -> Option<&Extensions<'a>>
        ensures { option_copied result ≡ tbs_certificate_fields.extensions self.now }
    {
        let tail = &self.fields.list.rest.rest.rest.rest.rest.rest.rest.rest;
        if_present!(value in &tail.list.rest.first => &value.fields.first)
    }
}

impl<'a> fmt::Debug for TbsCertificate<'a> {
    fn fmt<W: fmt::Write>(&self, f: &mut fmt::Formatter<W>) -> fmt::Result {
        f.debug_struct("TbsCertificate")
            .field("version", &self.version())
            .field("serial_number", self.serial_number())
            .field("signature", self.signature())
            .field("issuer", self.issuer())
            .field("validity", &self.validity())
            .field("subject", self.subject())
            .field("subject_public_key_info", self.subject_public_key_info())
            .field("issuer_unique_id", &self.issuer_unique_id())
            .field("subject_unique_id", &self.subject_unique_id())
            .field("extensions", &self.extensions())
            .finish()
    }
}

impl<'a> OneTag for TbsCertificate<'a> {
    type Marker = SequenceTag;
}

impl<'a> Sequence<'a> for TbsCertificate<'a> {
    ghost is_sequence = { refl };
}

impl<'a> FormValue for TbsCertificate<'a> {
    ghost value = { mapped_format (λ v. v.fields) ⟦<Fields<'a> as FieldList>⟧.list.octets };
}

impl<'a, R: Source<'a>> DecodeValue<'a, R> for TbsCertificate<'a> {
    ghost TAKES_MEMORY = { false };

    const TAKES_MEMORY: bool = false;

    fn decode_value(
        alloc: Global,
        reader: &mut R,
        _header: Header,
    ) -> Result<TbsCertificate<'a>, Error> {
        match Fields::<'a>::decode_fields(alloc, reader) {
            Ok(fields) => Ok(TbsCertificate { fields }),
            Err(e) => Err(e),
        }
    }

    ghost takes_memory_is = { refl };
}

impl<'a> EncodeValue for TbsCertificate<'a> {
    fn value_len(&self) -> Result<Length, Error> {
        self.fields.fields_len()
    }

    fn encode_value<W: Writer>(&self, writer: &mut W) -> Result<(), Error> {
        self.fields.encode_fields(writer)
    }

    fn encode_value_back<W: BackWriter>(&self, writer: &mut W) -> Result<(), Error> {
        self.fields.encode_fields_back(writer)
    }
}

impl<'a> ValueOrd for TbsCertificate<'a> {
    fn value_cmp(&self, other: &TbsCertificate<'a>) -> Result<Ordering, Error> {
        self.fields.cmp_fields(&other.fields)
    }
}

impl<'a> Member for TbsCertificate<'a> {
    ghost member = { struct_member ⟦<SequenceTag as TagMarker>⟧.TAG (λ v. v.fields.list)
        (default_field ⟦<DefaultNumber<0> as DefaultOf<Explicit<Version, 0>>>⟧.octets ⟦<Explicit<Version, 0> as Member>⟧.member
        (field ⟦<CertificateSerialNumber<'a> as Member>⟧.member
        (field ⟦<AlgorithmIdentifier<'a> as Member>⟧.member
        (field ⟦<Name<'a> as Member>⟧.member
        (field ⟦<Validity as Member>⟧.member
        (field ⟦<Name<'a> as Member>⟧.member
        (field ⟦<SubjectPublicKeyInfo<'a> as Member>⟧.member
        (optional_field ⟦<Implicit<UniqueIdentifier<'a>, 1> as Member>⟧.member
        (part (λ v. v.list)
        (optional_field ⟦<Implicit<UniqueIdentifier<'a>, 2> as Member>⟧.member
        (optional_field ⟦<Explicit<Extensions<'a>, 3> as Member>⟧.member
        no_fields))))))))))) };
}

impl<'a> ContentsEq for TbsCertificate<'a> {
    ghost contents_eq = { ⟦<TbsCertificate<'a> as Member>⟧.member.equal };
}

impl<'a> CopyIsDuplicate for TbsCertificate<'a> {}

/// What is read as `TBSCertificate` is what the grammar page says.
pub fn grammar_of_tbs_certificate<'a>()
    ensures { ⟦<TbsCertificate<'a> as Form>⟧.parse ≡ parse_of tbs_certificate }
{}

/// The contents octets of `TBSCertificate` are the encodings of its fields, one after another.
#[tactic(auto, using(der_modules::specs::Asn1::optional_of))]
pub fn octets_of_tbs_certificate<'a>()
    ensures { (v : TbsCertificate) → ⟦<TbsCertificate<'a> as FormValue>⟧.value.contents v ≡ joined (
        unless_default ⟦<DefaultNumber<0> as DefaultOf<Explicit<Version, 0>>>⟧.octets (explicit_encoding context 0 (⟦<Version as Form>⟧.encoding (tbs_certificate_fields.version v)))
        ∷ (⟦<CertificateSerialNumber<'a> as Form>⟧.encoding (tbs_certificate_fields.serial_number v))
        ∷ (⟦<AlgorithmIdentifier<'a> as Form>⟧.encoding (tbs_certificate_fields.signature v))
        ∷ (⟦<Name<'a> as Form>⟧.encoding (tbs_certificate_fields.issuer v))
        ∷ (⟦<Validity as Form>⟧.encoding (tbs_certificate_fields.validity v))
        ∷ (⟦<Name<'a> as Form>⟧.encoding (tbs_certificate_fields.subject v))
        ∷ (⟦<SubjectPublicKeyInfo<'a> as Form>⟧.encoding (tbs_certificate_fields.subject_public_key_info v))
        ∷ optional (λ x. (implicit_encoding context false 1 (⟦<UniqueIdentifier<'a> as FormValue>⟧.value.contents x))) (tbs_certificate_fields.issuer_unique_id v)
        ∷ optional (λ x. (implicit_encoding context false 2 (⟦<UniqueIdentifier<'a> as FormValue>⟧.value.contents x))) (tbs_certificate_fields.subject_unique_id v)
        ∷ optional (λ x. (explicit_encoding context 3 (⟦<Extensions<'a> as Form>⟧.encoding x))) (tbs_certificate_fields.extensions v)
        ∷ []) }
{}
