//! TBSCertList, a SEQUENCE of 7 fields.
//!
//! Made by tools/asn1 from crl.asn1.

ghost use Rattle.std.specs.Prelude.{◌∷◌, ◌≡◌, [], false, refl};
ghost use Rattle.der_elem.specs.FormatMakers.{mapped_format};
ghost use Rattle.der_modules.specs.Asn1.{context, explicit_encoding, joined, optional, parse_of};
ghost use Rattle.der_modules.specs.Members.{choice_field, field, no_fields, optional_choice_field, optional_field, struct_member};
ghost use Rattle.der_pkix.specs.Crl.Grammar.{tbs_cert_list};
ghost use Rattle.der_pkix.specs.Crl.TbsCertList as tbs_cert_list_fields;
ghost use Rattle.der_pkix.specs.declared.crl.tbs_cert_list.TbsCertList.{TbsCertList};

use crate::AlgorithmIdentifier;
use crate::certificate::{Extensions, Time, Version};
use crate::crl::revoked_certificate::RevokedCertificate;
use crate::name::Name;
use der_elem::{
    ContentsEq, CopyIsDuplicate, DecodeValue, EncodeValue, Form, FormValue, OneTag, Sequence,
    SequenceTag, TagMarker, ValueOrd,
};
use der_fields::{DecodeFields, EncodeFields, Explicit, FieldList, Fields7, FieldsOrd};
use der_lists::ListRef;
use der_modules::{Choosing, Member, copy_of, field_list, if_present, tagged};
use der_tlv::{BackWriter, Error, Header, Length, Source, Writer};
use std::alloc::Global;
use std::cmp::Ordering;
use std::fmt;

/// The list of the fields.
type Fields<'a> = Fields7<
    Option<Version>,
    AlgorithmIdentifier<'a>,
    Name<'a>,
    Time,
    Option<Time>,
    Option<ListRef<'a, RevokedCertificate<'a>>>,
    Option<Explicit<Extensions<'a>, 0>>,
>;

/// ```text
/// TBSCertList ::= SEQUENCE {
///      version              Version OPTIONAL,
///                           -- if present, MUST be v2
///      signature            AlgorithmIdentifier,
///      issuer               Name,
///      thisUpdate           Time,
///      nextUpdate           Time OPTIONAL,
///      revokedCertificates  SEQUENCE OF SEQUENCE {
///           userCertificate     CertificateSerialNumber,
///           revocationDate      Time,
///           crlEntryExtensions  Extensions OPTIONAL
///                               -- if present, version MUST be v2
///                           } OPTIONAL,
///      crlExtensions        [0] Extensions OPTIONAL }
/// ```
///
/// Reading refuses the first fault of the octets, in their order.
#[derive(Clone, Copy, PartialEq, Eq)]
pub struct TbsCertList<'a> {
    fields: Fields<'a>,
}

impl<'a> TbsCertList<'a> {
    ghost use Rattle.der_pkix.specs.Crl.TbsCertList as tbs_cert_list_fields;
    ghost use Rattle.std.specs.Prelude.{option_copied};

    /// A value of these fields.
    pub fn new(
        version: Option<Version>,
        signature: &AlgorithmIdentifier<'a>,
        issuer: &Name<'a>,
        this_update: Time,
        next_update: Option<Time>,
        revoked_certificates: Option<&ListRef<'a, RevokedCertificate<'a>>>,
        crl_extensions: Option<&Extensions<'a>>,
    ) -> TbsCertList<'a>
        ensures version { tbs_cert_list_fields.version result ≡ version }
        ensures signature { tbs_cert_list_fields.signature result ≡ signature.now }
        ensures issuer { tbs_cert_list_fields.issuer result ≡ issuer.now }
        ensures this_update { tbs_cert_list_fields.this_update result ≡ this_update }
        ensures next_update { tbs_cert_list_fields.next_update result ≡ next_update }
        ensures revoked_certificates { tbs_cert_list_fields.revoked_certificates result ≡ option_copied revoked_certificates.entry }
        ensures crl_extensions { tbs_cert_list_fields.crl_extensions result ≡ option_copied crl_extensions.entry }
    {
        let list = field_list![
            version,
            copy_of(signature),
            copy_of(issuer),
            this_update,
            next_update,
            if_present!(value in revoked_certificates => copy_of(value)),
            if_present!(value in crl_extensions => tagged!(Explicit, copy_of(value)))
        ];
        let fields = Fields7 { list };
        TbsCertList { fields }
    }

    /// `version`, `Version OPTIONAL`.
    pub fn version(&self) -> Option<Version>
        ensures { result ≡ tbs_cert_list_fields.version self.now }
    {
        self.fields.list.first
    }

    /// `signature`, `AlgorithmIdentifier`.
    pub fn signature(&self) -> &AlgorithmIdentifier<'a>
        ensures { result.now ≡ tbs_cert_list_fields.signature self.now }
    {
        &self.fields.list.rest.first
    }

    /// `issuer`, `Name`.
    pub fn issuer(&self) -> &Name<'a>
        ensures { result.now ≡ tbs_cert_list_fields.issuer self.now }
    {
        &self.fields.list.rest.rest.first
    }

    /// `thisUpdate`, `Time`.
    pub fn this_update(&self) -> Time
        ensures { result ≡ tbs_cert_list_fields.this_update self.now }
    {
        self.fields.list.rest.rest.rest.first
    }

    /// `nextUpdate`, `Time OPTIONAL`.
    pub fn next_update(&self) -> Option<Time>
        ensures { result ≡ tbs_cert_list_fields.next_update self.now }
    {
        self.fields.list.rest.rest.rest.rest.first
    }

    /// `revokedCertificates`, `SEQUENCE OF SEQUENCE { userCertificate CertificateSerialNumber,
    /// revocationDate Time, crlEntryExtensions Extensions OPTIONAL } OPTIONAL`.
    pub fn revoked_certificates(&self) -> Option<&ListRef<'a, RevokedCertificate<'a>>>
        ensures { option_copied result ≡ tbs_cert_list_fields.revoked_certificates self.now }
    {
        if_present!(value in &self.fields.list.rest.rest.rest.rest.rest.first => value)
    }

    /// `crlExtensions`, `[0] Extensions OPTIONAL`.
    pub fn crl_extensions(&self) -> Option<&Extensions<'a>>
        ensures { option_copied result ≡ tbs_cert_list_fields.crl_extensions self.now }
    {
        if_present!(value in &self.fields.list.rest.rest.rest.rest.rest.rest.first => &value.fields.first)
    }
}

impl<'a> fmt::Debug for TbsCertList<'a> {
    fn fmt<W: fmt::Write>(&self, f: &mut fmt::Formatter<W>) -> fmt::Result {
        f.debug_struct("TbsCertList")
            .field("version", &self.version())
            .field("signature", self.signature())
            .field("issuer", self.issuer())
            .field("this_update", &self.this_update())
            .field("next_update", &self.next_update())
            .field("revoked_certificates", &self.revoked_certificates())
            .field("crl_extensions", &self.crl_extensions())
            .finish()
    }
}

impl<'a> OneTag for TbsCertList<'a> {
    type Marker = SequenceTag;
}

impl<'a> Sequence<'a> for TbsCertList<'a> {
    ghost is_sequence = { refl };
}

impl<'a> FormValue for TbsCertList<'a> {
    ghost value = { mapped_format (λ v. v.fields) ⟦<Fields<'a> as FieldList>⟧.list.octets };
}

impl<'a, R: Source<'a>> DecodeValue<'a, R> for TbsCertList<'a> {
    ghost TAKES_MEMORY = { false };

    const TAKES_MEMORY: bool = false;

    fn decode_value(
        alloc: Global,
        reader: &mut R,
        _header: Header,
    ) -> Result<TbsCertList<'a>, Error> {
        match Fields::<'a>::decode_fields(alloc, reader) {
            Ok(fields) => Ok(TbsCertList { fields }),
            Err(e) => Err(e),
        }
    }

    ghost takes_memory_is = { refl };
}

impl<'a> EncodeValue for TbsCertList<'a> {
    fn value_len(&self) -> Result<Length, Error> {
        self.fields.fields_len()
    }

    fn encode_value<W: Writer>(&self, writer: &mut W) -> Result<(), Error> {
        self.fields.encode_fields(writer)
    }

    fn encode_value_back<W: BackWriter>(&self, writer: &mut W) -> Result<(), Error> {
        self.fields.encode_fields_back(writer)
    }
}

impl<'a> ValueOrd for TbsCertList<'a> {
    fn value_cmp(&self, other: &TbsCertList<'a>) -> Result<Ordering, Error> {
        self.fields.cmp_fields(&other.fields)
    }
}

impl<'a> Member for TbsCertList<'a> {
    ghost member = { struct_member ⟦<SequenceTag as TagMarker>⟧.TAG (λ v. v.fields.list)
        (optional_field ⟦<Version as Member>⟧.member
        (field ⟦<AlgorithmIdentifier<'a> as Member>⟧.member
        (field ⟦<Name<'a> as Member>⟧.member
        (choice_field ⟦<Time as Choosing>⟧.choice
        (optional_choice_field ⟦<Time as Choosing>⟧.choice
        (optional_field ⟦<ListRef<'a, RevokedCertificate<'a>> as Member>⟧.member
        (optional_field ⟦<Explicit<Extensions<'a>, 0> as Member>⟧.member
        no_fields))))))) };
}

impl<'a> ContentsEq for TbsCertList<'a> {
    ghost contents_eq = { ⟦<TbsCertList<'a> as Member>⟧.member.equal };
}

impl<'a> CopyIsDuplicate for TbsCertList<'a> {}

/// What is read as `TBSCertList` is what the grammar page says.
pub fn grammar_of_tbs_cert_list<'a>()
    ensures { ⟦<TbsCertList<'a> as Form>⟧.parse ≡ parse_of tbs_cert_list }
{}

/// The contents octets of `TBSCertList` are the encodings of its fields, one after another.
#[tactic(auto, using(der_modules::specs::Asn1::optional_of))]
pub fn octets_of_tbs_cert_list<'a>()
    ensures { (v : TbsCertList) → ⟦<TbsCertList<'a> as FormValue>⟧.value.contents v ≡ joined (
        optional (λ x. (⟦<Version as Form>⟧.encoding x)) (tbs_cert_list_fields.version v)
        ∷ (⟦<AlgorithmIdentifier<'a> as Form>⟧.encoding (tbs_cert_list_fields.signature v))
        ∷ (⟦<Name<'a> as Form>⟧.encoding (tbs_cert_list_fields.issuer v))
        ∷ (⟦<Time as Form>⟧.encoding (tbs_cert_list_fields.this_update v))
        ∷ optional (λ x. (⟦<Time as Form>⟧.encoding x)) (tbs_cert_list_fields.next_update v)
        ∷ optional (λ x. (⟦<ListRef<'a, RevokedCertificate<'a>> as Form>⟧.encoding x)) (tbs_cert_list_fields.revoked_certificates v)
        ∷ optional (λ x. (explicit_encoding context 0 (⟦<Extensions<'a> as Form>⟧.encoding x))) (tbs_cert_list_fields.crl_extensions v)
        ∷ []) }
{}
