//! SignerInfo, a SEQUENCE of 7 fields.
//!
//! Made by tools/asn1 from cms.asn1.

ghost use Rattle.std.specs.Prelude.{◌∷◌, ◌≡◌, [], false, refl, true};
ghost use Rattle.der_cms.specs.Cms.Grammar.{signer_info};
ghost use Rattle.der_cms.specs.Cms.SignerInfo as signer_info_fields;
ghost use Rattle.der_cms.specs.declared.cms.signer_info.SignerInfo.{SignerInfo};
ghost use Rattle.der_elem.specs.FormatMakers.{mapped_format};
ghost use Rattle.der_modules.specs.Asn1.{context, implicit_encoding, joined, optional, parse_of};
ghost use Rattle.der_modules.specs.Members.{choice_field, field, no_fields, optional_field, struct_member};

use crate::cms::aliases::CmsVersion;
use crate::cms::signed_attributes::SignedAttributes;
use crate::cms::signer_identifier::SignerIdentifier;
use crate::cms::unsigned_attributes::UnsignedAttributes;
use der_elem::{
    ContentsEq, CopyIsDuplicate, DecodeValue, EncodeValue, Form, FormValue, OneTag, Sequence,
    SequenceTag, TagMarker, ValueOrd,
};
use der_fields::{DecodeFields, EncodeFields, FieldList, Fields7, FieldsOrd, Implicit};
use der_modules::{Choosing, Member, copy_of, field_list, if_present};
use der_opaque::OctetStringRef;
use der_pkix::AlgorithmIdentifier;
use der_tlv::{BackWriter, Error, Header, Length, Source, Writer};
use std::alloc::Global;
use std::cmp::Ordering;
use std::fmt;

/// The list of the fields.
type Fields<'a> = Fields7<
    CmsVersion,
    SignerIdentifier<'a>,
    AlgorithmIdentifier<'a>,
    Option<Implicit<SignedAttributes<'a>, 0>>,
    AlgorithmIdentifier<'a>,
    OctetStringRef<'a>,
    Option<Implicit<UnsignedAttributes<'a>, 1>>,
>;

/// ```text
/// SignerInfo ::= SEQUENCE {
///      version             CMSVersion,
///      sid                 SignerIdentifier,
///      digestAlgorithm     AlgorithmIdentifier,
///      signedAttrs         [0] IMPLICIT SignedAttributes OPTIONAL,
///      signatureAlgorithm  AlgorithmIdentifier,
///      signature           OCTET STRING,
///      unsignedAttrs       [1] IMPLICIT UnsignedAttributes OPTIONAL }
/// ```
///
/// Reading refuses the first fault of the octets, in their order.
#[derive(Clone, Copy, PartialEq, Eq)]
pub struct SignerInfo<'a> {
    fields: Fields<'a>,
}

impl<'a> SignerInfo<'a> {
    ghost use Rattle.der_cms.specs.Cms.SignerInfo as signer_info_fields;
    ghost use Rattle.std.specs.Prelude.{option_copied};

    /// A value of these fields.
    pub fn new(
        version: CmsVersion,
        sid: &SignerIdentifier<'a>,
        digest_algorithm: &AlgorithmIdentifier<'a>,
        signed_attrs: Option<&SignedAttributes<'a>>,
        signature_algorithm: &AlgorithmIdentifier<'a>,
        signature: OctetStringRef<'a>,
        unsigned_attrs: Option<&UnsignedAttributes<'a>>,
    ) -> SignerInfo<'a>
        ensures version { signer_info_fields.version result ≡ version }
        ensures sid { signer_info_fields.sid result ≡ sid.now }
        ensures digest_algorithm { signer_info_fields.digest_algorithm result ≡ digest_algorithm.now }
        ensures signed_attrs { signer_info_fields.signed_attrs result ≡ option_copied signed_attrs.entry }
        ensures signature_algorithm { signer_info_fields.signature_algorithm result ≡ signature_algorithm.now }
        ensures signature { signer_info_fields.signature result ≡ signature.entry }
        ensures unsigned_attrs { signer_info_fields.unsigned_attrs result ≡ option_copied unsigned_attrs.entry }
    {
        let list = field_list![
            version,
            copy_of(sid),
            copy_of(digest_algorithm),
            if_present!(value in signed_attrs => Implicit { value: copy_of(value) }),
            copy_of(signature_algorithm),
            signature,
            if_present!(value in unsigned_attrs => Implicit { value: copy_of(value) })
        ];
        let fields = Fields7 { list };
        SignerInfo { fields }
    }

    /// `version`, `CMSVersion`.
    pub fn version(&self) -> CmsVersion
        ensures { result ≡ signer_info_fields.version self.now }
    {
        self.fields.list.first
    }

    /// `sid`, `SignerIdentifier`.
    pub fn sid(&self) -> &SignerIdentifier<'a>
        ensures { result.now ≡ signer_info_fields.sid self.now }
    {
        &self.fields.list.rest.first
    }

    /// `digestAlgorithm`, `AlgorithmIdentifier`.
    pub fn digest_algorithm(&self) -> &AlgorithmIdentifier<'a>
        ensures { result.now ≡ signer_info_fields.digest_algorithm self.now }
    {
        &self.fields.list.rest.rest.first
    }

    /// `signedAttrs`, `[0] IMPLICIT SignedAttributes OPTIONAL`.
    pub fn signed_attrs(&self) -> Option<&SignedAttributes<'a>>
        ensures { option_copied result ≡ signer_info_fields.signed_attrs self.now }
    {
        if_present!(value in &self.fields.list.rest.rest.rest.first => &value.value)
    }

    /// `signatureAlgorithm`, `AlgorithmIdentifier`.
    pub fn signature_algorithm(&self) -> &AlgorithmIdentifier<'a>
        ensures { result.now ≡ signer_info_fields.signature_algorithm self.now }
    {
        &self.fields.list.rest.rest.rest.rest.first
    }

    /// `signature`, `OCTET STRING`.
    pub fn signature(&self) -> &OctetStringRef<'a>
        ensures { result.now ≡ signer_info_fields.signature self.now }
    {
        &self.fields.list.rest.rest.rest.rest.rest.first
    }

    /// `unsignedAttrs`, `[1] IMPLICIT UnsignedAttributes OPTIONAL`.
    pub fn unsigned_attrs(&self) -> Option<&UnsignedAttributes<'a>>
        ensures { option_copied result ≡ signer_info_fields.unsigned_attrs self.now }
    {
        if_present!(value in &self.fields.list.rest.rest.rest.rest.rest.rest.first => &value.value)
    }
}

impl<'a> fmt::Debug for SignerInfo<'a> {
    fn fmt<W: fmt::Write>(&self, f: &mut fmt::Formatter<W>) -> fmt::Result {
        f.debug_struct("SignerInfo")
            .field("version", &self.version())
            .field("sid", self.sid())
            .field("digest_algorithm", self.digest_algorithm())
            .field("signed_attrs", &self.signed_attrs())
            .field("signature_algorithm", self.signature_algorithm())
            .field("signature", self.signature())
            .field("unsigned_attrs", &self.unsigned_attrs())
            .finish()
    }
}

impl<'a> OneTag for SignerInfo<'a> {
    type Marker = SequenceTag;
}

impl<'a> Sequence<'a> for SignerInfo<'a> {
    ghost is_sequence = { refl };
}

impl<'a> FormValue for SignerInfo<'a> {
    ghost value = { mapped_format (λ v. v.fields) ⟦<Fields<'a> as FieldList>⟧.list.octets };
}

impl<'a, R: Source<'a>> DecodeValue<'a, R> for SignerInfo<'a> {
    ghost TAKES_MEMORY = { false };

    const TAKES_MEMORY: bool = false;

    fn decode_value(
        alloc: Global,
        reader: &mut R,
        _header: Header,
    ) -> Result<SignerInfo<'a>, Error> {
        match Fields::<'a>::decode_fields(alloc, reader) {
            Ok(fields) => Ok(SignerInfo { fields }),
            Err(e) => Err(e),
        }
    }

    ghost takes_memory_is = { refl };
}

impl<'a> EncodeValue for SignerInfo<'a> {
    fn value_len(&self) -> Result<Length, Error> {
        self.fields.fields_len()
    }

    fn encode_value<W: Writer>(&self, writer: &mut W) -> Result<(), Error> {
        self.fields.encode_fields(writer)
    }

    fn encode_value_back<W: BackWriter>(&self, writer: &mut W) -> Result<(), Error> {
        self.fields.encode_fields_back(writer)
    }
}

impl<'a> ValueOrd for SignerInfo<'a> {
    fn value_cmp(&self, other: &SignerInfo<'a>) -> Result<Ordering, Error> {
        self.fields.cmp_fields(&other.fields)
    }
}

impl<'a> Member for SignerInfo<'a> {
    ghost member = { struct_member ⟦<SequenceTag as TagMarker>⟧.TAG (λ v. v.fields.list)
        (field ⟦<CmsVersion as Member>⟧.member
        (choice_field ⟦<SignerIdentifier<'a> as Choosing>⟧.choice
        (field ⟦<AlgorithmIdentifier<'a> as Member>⟧.member
        (optional_field ⟦<Implicit<SignedAttributes<'a>, 0> as Member>⟧.member
        (field ⟦<AlgorithmIdentifier<'a> as Member>⟧.member
        (field ⟦<OctetStringRef<'a> as Member>⟧.member
        (optional_field ⟦<Implicit<UnsignedAttributes<'a>, 1> as Member>⟧.member
        no_fields))))))) };
}

impl<'a> ContentsEq for SignerInfo<'a> {
    ghost contents_eq = { ⟦<SignerInfo<'a> as Member>⟧.member.equal };
}

impl<'a> CopyIsDuplicate for SignerInfo<'a> {}

/// What is read as `SignerInfo` is what the grammar page says.
pub fn grammar_of_signer_info<'a>()
    ensures { ⟦<SignerInfo<'a> as Form>⟧.parse ≡ parse_of signer_info }
{}

/// The contents octets of `SignerInfo` are the encodings of its fields, one after another.
#[tactic(auto, using(der_modules::specs::Asn1::optional_of))]
pub fn octets_of_signer_info<'a>()
    ensures { (v : SignerInfo) → ⟦<SignerInfo<'a> as FormValue>⟧.value.contents v ≡ joined (
        (⟦<CmsVersion as Form>⟧.encoding (signer_info_fields.version v))
        ∷ (⟦<SignerIdentifier<'a> as Form>⟧.encoding (signer_info_fields.sid v))
        ∷ (⟦<AlgorithmIdentifier<'a> as Form>⟧.encoding (signer_info_fields.digest_algorithm v))
        ∷ optional (λ x. (implicit_encoding context true 0 (⟦<SignedAttributes<'a> as FormValue>⟧.value.contents x))) (signer_info_fields.signed_attrs v)
        ∷ (⟦<AlgorithmIdentifier<'a> as Form>⟧.encoding (signer_info_fields.signature_algorithm v))
        ∷ (⟦<OctetStringRef<'a> as Form>⟧.encoding (signer_info_fields.signature v))
        ∷ optional (λ x. (implicit_encoding context true 1 (⟦<UnsignedAttributes<'a> as FormValue>⟧.value.contents x))) (signer_info_fields.unsigned_attrs v)
        ∷ []) }
{}
