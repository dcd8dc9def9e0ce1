//! SigningCertificate, a SEQUENCE of 2 fields.
//!
//! Made by tools/asn1 from ess.asn1.

ghost use Rattle.std.specs.Prelude.{◌∷◌, ◌≡◌, [], false, refl};
ghost use Rattle.der_cms.specs.Ess.Grammar.{signing_certificate};
ghost use Rattle.der_cms.specs.Ess.SigningCertificate as signing_certificate_fields;
ghost use Rattle.der_cms.specs.declared.ess.signing_certificate.SigningCertificate.{SigningCertificate};
ghost use Rattle.der_elem.specs.FormatMakers.{mapped_format};
ghost use Rattle.der_modules.specs.Asn1.{joined, optional, parse_of};
ghost use Rattle.der_modules.specs.Members.{field, no_fields, optional_field, struct_member};

use crate::ess::ess_cert_id::EssCertId;
use der_elem::{
    ContentsEq, CopyIsDuplicate, DecodeValue, EncodeValue, Form, FormValue, OneTag, Sequence,
    SequenceTag, TagMarker, ValueOrd,
};
use der_extensions::extension::PolicyInformation;
use der_fields::{DecodeFields, EncodeFields, FieldList, Fields2, FieldsOrd};
use der_lists::ListRef;
use der_modules::{Member, copy_of, field_list, if_present};
use der_tlv::{BackWriter, Error, Header, Length, Source, Writer};
use std::alloc::Global;
use std::cmp::Ordering;
use std::fmt;

/// The list of the fields.
type Fields<'a> = Fields2<ListRef<'a, EssCertId<'a>>, Option<ListRef<'a, PolicyInformation<'a>>>>;

/// ```text
/// SigningCertificate ::= SEQUENCE {
///      certs     SEQUENCE OF ESSCertID,
///      policies  SEQUENCE OF PolicyInformation OPTIONAL }
/// ```
///
/// Reading refuses the first fault of the octets, in their order.
#[derive(Clone, Copy, PartialEq, Eq)]
pub struct SigningCertificate<'a> {
    fields: Fields<'a>,
}

impl<'a> SigningCertificate<'a> {
    ghost use Rattle.der_cms.specs.Ess.SigningCertificate as signing_certificate_fields;
    ghost use Rattle.std.specs.Prelude.{option_copied};

    /// A value of these fields.
    pub fn new(
        certs: &ListRef<'a, EssCertId<'a>>,
        policies: Option<&ListRef<'a, PolicyInformation<'a>>>,
    ) -> SigningCertificate<'a>
        ensures certs { signing_certificate_fields.certs result ≡ certs.now }
        ensures policies { signing_certificate_fields.policies result ≡ option_copied policies.entry }
    {
        let list = field_list![
            copy_of(certs),
            if_present!(value in policies => copy_of(value))
        ];
        let fields = Fields2 { list };
        SigningCertificate { fields }
    }

    /// `certs`, `SEQUENCE OF ESSCertID`.
    pub fn certs(&self) -> &ListRef<'a, EssCertId<'a>>
        ensures { result.now ≡ signing_certificate_fields.certs self.now }
    {
        &self.fields.list.first
    }

    /// `policies`, `SEQUENCE OF PolicyInformation OPTIONAL`.
    pub fn policies(&self) -> Option<&ListRef<'a, PolicyInformation<'a>>>
        ensures { option_copied result ≡ signing_certificate_fields.policies self.now }
    {
        if_present!(value in &self.fields.list.rest.first => value)
    }
}

impl<'a> fmt::Debug for SigningCertificate<'a> {
    fn fmt<W: fmt::Write>(&self, f: &mut fmt::Formatter<W>) -> fmt::Result {
        f.debug_struct("SigningCertificate")
            .field("certs", self.certs())
            .field("policies", &self.policies())
            .finish()
    }
}

impl<'a> OneTag for SigningCertificate<'a> {
    type Marker = SequenceTag;
}

impl<'a> Sequence<'a> for SigningCertificate<'a> {
    ghost is_sequence = { refl };
}

impl<'a> FormValue for SigningCertificate<'a> {
    ghost value = { mapped_format (λ v. v.fields) ⟦<Fields<'a> as FieldList>⟧.list.octets };
}

impl<'a, R: Source<'a>> DecodeValue<'a, R> for SigningCertificate<'a> {
    ghost TAKES_MEMORY = { false };

    const TAKES_MEMORY: bool = false;

    fn decode_value(
        alloc: Global,
        reader: &mut R,
        _header: Header,
    ) -> Result<SigningCertificate<'a>, Error> {
        match Fields::<'a>::decode_fields(alloc, reader) {
            Ok(fields) => Ok(SigningCertificate { fields }),
            Err(e) => Err(e),
        }
    }

    ghost takes_memory_is = { refl };
}

impl<'a> EncodeValue for SigningCertificate<'a> {
    fn value_len(&self) -> Result<Length, Error> {
        self.fields.fields_len()
    }

    fn encode_value<W: Writer>(&self, writer: &mut W) -> Result<(), Error> {
        self.fields.encode_fields(writer)
    }

    fn encode_value_back<W: BackWriter>(&self, writer: &mut W) -> Result<(), Error> {
        self.fields.encode_fields_back(writer)
    }
}

impl<'a> ValueOrd for SigningCertificate<'a> {
    fn value_cmp(&self, other: &SigningCertificate<'a>) -> Result<Ordering, Error> {
        self.fields.cmp_fields(&other.fields)
    }
}

impl<'a> Member for SigningCertificate<'a> {
    ghost member = { struct_member ⟦<SequenceTag as TagMarker>⟧.TAG (λ v. v.fields.list)
        (field ⟦<ListRef<'a, EssCertId<'a>> as Member>⟧.member
        (optional_field ⟦<ListRef<'a, PolicyInformation<'a>> as Member>⟧.member
        no_fields)) };
}

impl<'a> ContentsEq for SigningCertificate<'a> {
    ghost contents_eq = { ⟦<SigningCertificate<'a> as Member>⟧.member.equal };
}

impl<'a> CopyIsDuplicate for SigningCertificate<'a> {}

/// What is read as `SigningCertificate` is what the grammar page says.
pub fn grammar_of_signing_certificate<'a>()
    ensures { ⟦<SigningCertificate<'a> as Form>⟧.parse ≡ parse_of signing_certificate }
{}

/// The contents octets of `SigningCertificate` are the encodings of its fields, one after another.
pub fn octets_of_signing_certificate<'a>()
    ensures { (v : SigningCertificate) → ⟦<SigningCertificate<'a> as FormValue>⟧.value.contents v ≡ joined (
        (⟦<ListRef<'a, EssCertId<'a>> as Form>⟧.encoding (signing_certificate_fields.certs v))
        ∷ optional (λ x. (⟦<ListRef<'a, PolicyInformation<'a>> as Form>⟧.encoding x)) (signing_certificate_fields.policies v)
        ∷ []) }
{}
