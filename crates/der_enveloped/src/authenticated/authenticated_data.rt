//! AuthenticatedData, a SEQUENCE of 9 fields.
//!
//! Made by tools/asn1 from authenticated.asn1.

ghost use Rattle.std.specs.Prelude.{◌∷◌, ◌≡◌, [], false, refl, true};
ghost use Rattle.der_elem.specs.FormatMakers.{mapped_format};
ghost use Rattle.der_enveloped.specs.Authenticated.AuthenticatedData as authenticated_data_fields;
ghost use Rattle.der_enveloped.specs.Authenticated.Grammar.{authenticated_data};
ghost use Rattle.der_enveloped.specs.declared.authenticated.authenticated_data.AuthenticatedData.{AuthenticatedData};
ghost use Rattle.der_modules.specs.Asn1.{context, implicit_encoding, joined, optional, parse_of};
ghost use Rattle.der_modules.specs.Members.{field, no_fields, optional_field, part, struct_member};

use crate::authenticated::aliases::{AuthAttributes, UnauthAttributes};
use crate::enveloped::{OriginatorInfo, RecipientInfos};
use der_cms::cms::{CmsVersion, EncapsulatedContentInfo};
use der_elem::{
    ContentsEq, CopyIsDuplicate, DecodeValue, EncodeValue, Form, FormValue, OneTag, Sequence,
    SequenceTag, TagMarker, ValueOrd,
};
use der_fields::{DecodeFields, EncodeFields, FieldList, Fields1, Fields8, FieldsOrd, Implicit};
use der_modules::{Member, copy_of, field_list, if_present};
use der_opaque::OctetStringRef;
use der_pkix::AlgorithmIdentifier;
use der_tlv::{BackWriter, Error, Header, Length, Source, Writer};
use std::alloc::Global;
use std::cmp::Ordering;
use std::fmt;

/// The list of the fields.
type Fields<'a> = Fields8<
    CmsVersion,
    Option<Implicit<OriginatorInfo<'a>, 0>>,
    RecipientInfos<'a>,
    AlgorithmIdentifier<'a>,
    Option<Implicit<AlgorithmIdentifier<'a>, 1>>,
    EncapsulatedContentInfo<'a>,
    Option<Implicit<AuthAttributes<'a>, 2>>,
    OctetStringRef<'a>,
    Fields1<Option<Implicit<UnauthAttributes<'a>, 3>>>,
>;

/// ```text
/// AuthenticatedData ::= SEQUENCE {
///      version           CMSVersion,
///      originatorInfo    [0] IMPLICIT OriginatorInfo OPTIONAL,
///      recipientInfos    RecipientInfos,
///      macAlgorithm      AlgorithmIdentifier,
///      digestAlgorithm   [1] AlgorithmIdentifier OPTIONAL,
///      encapContentInfo  EncapsulatedContentInfo,
///      authAttrs         [2] IMPLICIT AuthAttributes OPTIONAL,
///      mac               OCTET STRING,
///      unauthAttrs       [3] IMPLICIT UnauthAttributes OPTIONAL }
/// ```
///
/// Reading refuses the first fault of the octets, in their order.
#[derive(Clone, Copy, PartialEq, Eq)]
pub struct AuthenticatedData<'a> {
    fields: Fields<'a>,
}

impl<'a> AuthenticatedData<'a> {
    ghost use Rattle.der_enveloped.specs.Authenticated.AuthenticatedData as authenticated_data_fields;
    ghost use Rattle.std.specs.Prelude.{option_copied};

    /// A value of these fields.
    pub fn new(
        version: CmsVersion,
        originator_info: Option<&OriginatorInfo<'a>>,
        recipient_infos: &RecipientInfos<'a>,
        mac_algorithm: &AlgorithmIdentifier<'a>,
        digest_algorithm: Option<&AlgorithmIdentifier<'a>>,
        encap_content_info: &EncapsulatedContentInfo<'a>,
        auth_attrs: Option<&AuthAttributes<'a>>,
        mac: OctetStringRef<'a>,
        unauth_attrs: Option<&UnauthAttributes<'a>>,
    ) -> AuthenticatedData<'a>
        ensures version { authenticated_data_fields.version result ≡ version }
        ensures originator_info { authenticated_data_fields.originator_info result ≡ option_copied originator_info.entry }
        ensures recipient_infos { authenticated_data_fields.recipient_infos result ≡ recipient_infos.now }
        ensures mac_algorithm { authenticated_data_fields.mac_algorithm result ≡ mac_algorithm.now }
        ensures digest_algorithm { authenticated_data_fields.digest_algorithm result ≡ option_copied digest_algorithm.entry }
        ensures encap_content_info { authenticated_data_fields.encap_content_info result ≡ encap_content_info.now }
        ensures auth_attrs { authenticated_data_fields.auth_attrs result ≡ option_copied auth_attrs.entry }
        ensures mac { authenticated_data_fields.mac result ≡ mac.entry }
        ensures unauth_attrs { authenticated_data_fields.unauth_attrs result ≡ option_copied unauth_attrs.entry }
    {
        let list = field_list![
            if_present!(value in unauth_attrs => Implicit { value: copy_of(value) })
        ];
        let rest = Fields1 { list };
        let list =
            field_list![version, if_present!(value in originator_info => Implicit { value: copy_of(value) }), copy_of(recipient_infos), copy_of(mac_algorithm), if_present!(value in digest_algorithm => Implicit { value: copy_of(value) }), copy_of(encap_content_info), if_present!(value in auth_attrs => Implicit { value: copy_of(value) }), mac; rest];
        let fields = Fields8 { list };
        AuthenticatedData { fields }
    }

    /// `version`, `CMSVersion`.
    pub fn version(&self) -> CmsVersion
        ensures { result ≡ authenticated_data_fields.version self.now }
    {
        self.fields.list.first
    }

    /// `originatorInfo`, `[0] IMPLICIT OriginatorInfo OPTIONAL`.
    pub fn originator_info(&self) -> Option<&OriginatorInfo<'a>>
        ensures { option_copied result ≡ authenticated_data_fields.originator_info self.now }
    {
        if_present!(value in &self.fields.list.rest.first => &value.value)
    }

    /// `recipientInfos`, `RecipientInfos`.
    pub fn recipient_infos(&self) -> &RecipientInfos<'a>
        ensures { result.now ≡ authenticated_data_fields.recipient_infos self.now }
    {
        &self.fields.list.rest.rest.first
    }

    /// `macAlgorithm`, `AlgorithmIdentifier`.
    pub fn mac_algorithm(&self) -> &AlgorithmIdentifier<'a>
        ensures { result.now ≡ authenticated_data_fields.mac_algorithm self.now }
    {
        &self.fields.list.rest.rest.rest.first
    }

    /// `digestAlgorithm`, `[1] AlgorithmIdentifier OPTIONAL`.
    pub fn digest_algorithm(&self) -> Option<&AlgorithmIdentifier<'a>>
        ensures { option_copied result ≡ authenticated_data_fields.digest_algorithm self.now }
    {
        if_present!(value in &self.fields.list.rest.rest.rest.rest.first => &value.value)
    }

    /// `encapContentInfo`, `EncapsulatedContentInfo`.
    pub fn encap_content_info(&self) -> &EncapsulatedContentInfo<'a>
        ensures { result.now ≡ authenticated_data_fields.encap_content_info self.now }
    {
        &self.fields.list.rest.rest.rest.rest.rest.first
    }

    /// `authAttrs`, `[2] IMPLICIT AuthAttributes OPTIONAL`.
    pub fn auth_attrs(&self) -> Option<&AuthAttributes<'a>>
        ensures { option_copied result ≡ authenticated_data_fields.auth_attrs self.now }
    {
        if_present!(value in &self.fields.list.rest.rest.rest.rest.rest.rest.first => &value.value)
    }

    /// `mac`, `OCTET STRING`.
    pub fn mac(&self) -> &OctetStringRef<'a>
        ensures { result.now ≡ authenticated_data_fields.mac self.now }
    {
        &self.fields.list.rest.rest.rest.rest.rest.rest.rest.first
    }

    /// `unauthAttrs`, `[3] IMPLICIT UnauthAttributes OPTIONAL`.
    pub fn unauth_attrs(&self) -> Option<&UnauthAttributes<'a>>
        ensures { option_copied result ≡ authenticated_data_fields.unauth_attrs self.now }
    {
        let tail = &self.fields.list.rest.rest.rest.rest.rest.rest.rest.rest;
        if_present!(value in &tail.list.first => &value.value)
    }
}

impl<'a> fmt::Debug for AuthenticatedData<'a> {
    fn fmt<W: fmt::Write>(&self, f: &mut fmt::Formatter<W>) -> fmt::Result {
        f.debug_struct("AuthenticatedData")
            .field("version", &self.version())
            .field("originator_info", &self.originator_info())
            .field("recipient_infos", self.recipient_infos())
            .field("mac_algorithm", self.mac_algorithm())
            .field("digest_algorithm", &self.digest_algorithm())
            .field("encap_content_info", self.encap_content_info())
            .field("auth_attrs", &self.auth_attrs())
            .field("mac", self.mac())
            .field("unauth_attrs", &self.unauth_attrs())
            .finish()
    }
}

impl<'a> OneTag for AuthenticatedData<'a> {
    type Marker = SequenceTag;
}

impl<'a> Sequence<'a> for AuthenticatedData<'a> {
    ghost is_sequence = { refl };
}

impl<'a> FormValue for AuthenticatedData<'a> {
    ghost value = { mapped_format (λ v. v.fields) ⟦<Fields<'a> as FieldList>⟧.list.octets };
}

impl<'a, R: Source<'a>> DecodeValue<'a, R> for AuthenticatedData<'a> {
    ghost TAKES_MEMORY = { false };

    const TAKES_MEMORY: bool = false;

    fn decode_value(
        alloc: Global,
        reader: &mut R,
        _header: Header,
    ) -> Result<AuthenticatedData<'a>, Error> {
        match Fields::<'a>::decode_fields(alloc, reader) {
            Ok(fields) => Ok(AuthenticatedData { fields }),
            Err(e) => Err(e),
        }
    }

    ghost takes_memory_is = { refl };
}

impl<'a> EncodeValue for AuthenticatedData<'a> {
    fn value_len(&self) -> Result<Length, Error> {
        self.fields.fields_len()
    }

    fn encode_value<W: Writer>(&self, writer: &mut W) -> Result<(), Error> {
        self.fields.encode_fields(writer)
    }

    fn encode_value_back<W: BackWriter>(&self, writer: &mut W) -> Result<(), Error> {
        self.fields.encode_fields_back(writer)
    }
}

impl<'a> ValueOrd for AuthenticatedData<'a> {
    fn value_cmp(&self, other: &AuthenticatedData<'a>) -> Result<Ordering, Error> {
        self.fields.cmp_fields(&other.fields)
    }
}

impl<'a> Member for AuthenticatedData<'a> {
    ghost member = { struct_member ⟦<SequenceTag as TagMarker>⟧.TAG (λ v. v.fields.list)
        (field ⟦<CmsVersion as Member>⟧.member
        (optional_field ⟦<Implicit<OriginatorInfo<'a>, 0> as Member>⟧.member
        (field ⟦<RecipientInfos<'a> as Member>⟧.member
        (field ⟦<AlgorithmIdentifier<'a> as Member>⟧.member
        (optional_field ⟦<Implicit<AlgorithmIdentifier<'a>, 1> as Member>⟧.member
        (field ⟦<EncapsulatedContentInfo<'a> as Member>⟧.member
        (optional_field ⟦<Implicit<AuthAttributes<'a>, 2> as Member>⟧.member
        (field ⟦<OctetStringRef<'a> as Member>⟧.member
        (part (λ v. v.list)
        (optional_field ⟦<Implicit<UnauthAttributes<'a>, 3> as Member>⟧.member
        no_fields)))))))))) };
}

impl<'a> ContentsEq for AuthenticatedData<'a> {
    ghost contents_eq = { ⟦<AuthenticatedData<'a> as Member>⟧.member.equal };
}

impl<'a> CopyIsDuplicate for AuthenticatedData<'a> {}

/// What is read as `AuthenticatedData` is what the grammar page says.
pub fn grammar_of_authenticated_data<'a>()
    ensures { ⟦<AuthenticatedData<'a> as Form>⟧.parse ≡ parse_of authenticated_data }
{}

/// The contents octets of `AuthenticatedData` are the encodings of its fields, one after another.
#[tactic(auto, using(der_modules::specs::Asn1::optional_of))]
pub fn octets_of_authenticated_data<'a>()
    ensures { (v : AuthenticatedData) → ⟦<AuthenticatedData<'a> as FormValue>⟧.value.contents v ≡ joined (
        (⟦<CmsVersion as Form>⟧.encoding (authenticated_data_fields.version v))
        ∷ optional (λ x. (implicit_encoding context true 0 (⟦<OriginatorInfo<'a> as FormValue>⟧.value.contents x))) (authenticated_data_fields.originator_info v)
        ∷ (⟦<RecipientInfos<'a> as Form>⟧.encoding (authenticated_data_fields.recipient_infos v))
        ∷ (⟦<AlgorithmIdentifier<'a> as Form>⟧.encoding (authenticated_data_fields.mac_algorithm v))
        ∷ optional (λ x. (implicit_encoding context true 1 (⟦<AlgorithmIdentifier<'a> as FormValue>⟧.value.contents x))) (authenticated_data_fields.digest_algorithm v)
        ∷ (⟦<EncapsulatedContentInfo<'a> as Form>⟧.encoding (authenticated_data_fields.encap_content_info v))
        ∷ optional (λ x. (implicit_encoding context true 2 (⟦<AuthAttributes<'a> as FormValue>⟧.value.contents x))) (authenticated_data_fields.auth_attrs v)
        ∷ (⟦<OctetStringRef<'a> as Form>⟧.encoding (authenticated_data_fields.mac v))
        ∷ optional (λ x. (implicit_encoding context true 3 (⟦<UnauthAttributes<'a> as FormValue>⟧.value.contents x))) (authenticated_data_fields.unauth_attrs v)
        ∷ []) }
{}
