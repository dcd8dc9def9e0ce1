//! AuthorityKeyIdentifier, a SEQUENCE of 3 fields.
//!
//! Made by tools/asn1 from extension.asn1.

ghost use Rattle.std.specs.Prelude.{◌∷◌, ◌≡◌, [], false, refl, true};
ghost use Rattle.der_elem.specs.FormatMakers.{mapped_format};
ghost use Rattle.der_extensions.specs.Extension.AuthorityKeyIdentifier as authority_key_identifier_fields;
ghost use Rattle.der_extensions.specs.Extension.Grammar.{authority_key_identifier};
ghost use Rattle.der_extensions.specs.declared.extension.authority_key_identifier.AuthorityKeyIdentifier.{AuthorityKeyIdentifier};
ghost use Rattle.der_modules.specs.Asn1.{context, implicit_encoding, joined, optional, parse_of};
ghost use Rattle.der_modules.specs.Members.{no_fields, optional_field, struct_member};

use crate::extension::aliases::KeyIdentifier;
use crate::extension::general_names::GeneralNames;
use der_elem::{
    ContentsEq, CopyIsDuplicate, DecodeValue, EncodeValue, Form, FormValue, OneTag, Sequence,
    SequenceTag, TagMarker, ValueOrd,
};
use der_fields::{DecodeFields, EncodeFields, FieldList, Fields3, FieldsOrd, Implicit};
use der_modules::{Member, copy_of, field_list, if_present};
use der_pkix::certificate::CertificateSerialNumber;
use der_tlv::{BackWriter, Error, Header, Length, Source, Writer};
use std::alloc::Global;
use std::cmp::Ordering;
use std::fmt;

/// The list of the fields.
type Fields<'a> = Fields3<
    Option<Implicit<KeyIdentifier<'a>, 0>>,
    Option<Implicit<GeneralNames<'a>, 1>>,
    Option<Implicit<CertificateSerialNumber<'a>, 2>>,
>;

/// ```text
/// AuthorityKeyIdentifier ::= SEQUENCE {
///     keyIdentifier             [0] KeyIdentifier            OPTIONAL,
///     authorityCertIssuer       [1] GeneralNames             OPTIONAL,
///     authorityCertSerialNumber [2] CertificateSerialNumber  OPTIONAL }
/// ```
///
/// Reading refuses the first fault of the octets, in their order.
#[derive(Clone, Copy, PartialEq, Eq)]
pub struct AuthorityKeyIdentifier<'a> {
    fields: Fields<'a>,
}

impl<'a> AuthorityKeyIdentifier<'a> {
    ghost use Rattle.der_extensions.specs.Extension.AuthorityKeyIdentifier as authority_key_identifier_fields;
    ghost use Rattle.std.specs.Prelude.{option_copied};

    /// A value of these fields.
    pub fn new(
        key_identifier: Option<KeyIdentifier<'a>>,
        authority_cert_issuer: Option<&GeneralNames<'a>>,
        authority_cert_serial_number: Option<CertificateSerialNumber<'a>>,
    ) -> AuthorityKeyIdentifier<'a>
        ensures key_identifier { authority_key_identifier_fields.key_identifier result ≡ key_identifier.entry }
        ensures authority_cert_issuer { authority_key_identifier_fields.authority_cert_issuer result ≡ option_copied authority_cert_issuer.entry }
        ensures authority_cert_serial_number { authority_key_identifier_fields.authority_cert_serial_number result ≡ authority_cert_serial_number.entry }
    {
        let list = field_list![
            if_present!(value in key_identifier => Implicit { value }),
            if_present!(value in authority_cert_issuer => Implicit { value: copy_of(value) }),
            if_present!(value in authority_cert_serial_number => Implicit { value })
        ];
        let fields = Fields3 { list };
        AuthorityKeyIdentifier { fields }
    }

    /// `keyIdentifier`, `[0] KeyIdentifier OPTIONAL`.
    pub fn key_identifier(&self) -> Option<&KeyIdentifier<'a>>
        ensures { option_copied result ≡ authority_key_identifier_fields.key_identifier self.now }
    {
        if_present!(value in &self.fields.list.first => &value.value)
    }

    /// `authorityCertIssuer`, `[1] GeneralNames OPTIONAL`.
    pub fn authority_cert_issuer(&self) -> Option<&GeneralNames<'a>>
        ensures { option_copied result ≡ authority_key_identifier_fields.authority_cert_issuer self.now }
    {
        if_present!(value in &self.fields.list.rest.first => &value.value)
    }

    /// `authorityCertSerialNumber`, `[2] CertificateSerialNumber OPTIONAL`.
    pub fn authority_cert_serial_number(&self) -> Option<&CertificateSerialNumber<'a>>
        ensures { option_copied result ≡ authority_key_identifier_fields.authority_cert_serial_number self.now }
    {
        if_present!(value in &self.fields.list.rest.rest.first => &value.value)
    }
}

impl<'a> fmt::Debug for AuthorityKeyIdentifier<'a> {
    fn fmt<W: fmt::Write>(&self, f: &mut fmt::Formatter<W>) -> fmt::Result {
        f.debug_struct("AuthorityKeyIdentifier")
            .field("key_identifier", &self.key_identifier())
            .field("authority_cert_issuer", &self.authority_cert_issuer())
            .field(
                "authority_cert_serial_number",
                &self.authority_cert_serial_number(),
            )
            .finish()
    }
}

impl<'a> OneTag for AuthorityKeyIdentifier<'a> {
    type Marker = SequenceTag;
}

impl<'a> Sequence<'a> for AuthorityKeyIdentifier<'a> {
    ghost is_sequence = { refl };
}

impl<'a> FormValue for AuthorityKeyIdentifier<'a> {
    ghost value = { mapped_format (λ v. v.fields) ⟦<Fields<'a> as FieldList>⟧.list.octets };
}

impl<'a, R: Source<'a>> DecodeValue<'a, R> for AuthorityKeyIdentifier<'a> {
    ghost TAKES_MEMORY = { false };

    const TAKES_MEMORY: bool = false;

    fn decode_value(
        alloc: Global,
        reader: &mut R,
        _header: Header,
    ) -> Result<AuthorityKeyIdentifier<'a>, Error> {
        match Fields::<'a>::decode_fields(alloc, reader) {
            Ok(fields) => Ok(AuthorityKeyIdentifier { fields }),
            Err(e) => Err(e),
        }
    }

    ghost takes_memory_is = { refl };
}

impl<'a> EncodeValue for AuthorityKeyIdentifier<'a> {
    fn value_len(&self) -> Result<Length, Error> {
        self.fields.fields_len()
    }

    fn encode_value<W: Writer>(&self, writer: &mut W) -> Result<(), Error> {
        self.fields.encode_fields(writer)
    }

    fn encode_value_back<W: BackWriter>(&self, writer: &mut W) -> Result<(), Error> {
        self.fields.encode_fields_back(writer)
    }
}

impl<'a> ValueOrd for AuthorityKeyIdentifier<'a> {
    fn value_cmp(&self, other: &AuthorityKeyIdentifier<'a>) -> Result<Ordering, Error> {
        self.fields.cmp_fields(&other.fields)
    }
}

impl<'a> Member for AuthorityKeyIdentifier<'a> {
    ghost member = { struct_member ⟦<SequenceTag as TagMarker>⟧.TAG (λ v. v.fields.list)
        (optional_field ⟦<Implicit<KeyIdentifier<'a>, 0> as Member>⟧.member
        (optional_field ⟦<Implicit<GeneralNames<'a>, 1> as Member>⟧.member
        (optional_field ⟦<Implicit<CertificateSerialNumber<'a>, 2> as Member>⟧.member
        no_fields))) };
}

impl<'a> ContentsEq for AuthorityKeyIdentifier<'a> {
    ghost contents_eq = { ⟦<AuthorityKeyIdentifier<'a> as Member>⟧.member.equal };
}

impl<'a> CopyIsDuplicate for AuthorityKeyIdentifier<'a> {}

/// What is read as `AuthorityKeyIdentifier` is what the grammar page says.
pub fn grammar_of_authority_key_identifier<'a>()
    ensures { ⟦<AuthorityKeyIdentifier<'a> as Form>⟧.parse ≡ parse_of authority_key_identifier }
{}

/// The contents octets of `AuthorityKeyIdentifier` are the encodings of its fields, one after
/// another.
#[tactic(auto, using(der_modules::specs::Asn1::optional_of))]
pub fn octets_of_authority_key_identifier<'a>()
    ensures { (v : AuthorityKeyIdentifier) → ⟦<AuthorityKeyIdentifier<'a> as FormValue>⟧.value.contents v ≡ joined (
        optional (λ x. (implicit_encoding context false 0 (⟦<KeyIdentifier<'a> as FormValue>⟧.value.contents x))) (authority_key_identifier_fields.key_identifier v)
        ∷ optional (λ x. (implicit_encoding context true 1 (⟦<GeneralNames<'a> as FormValue>⟧.value.contents x))) (authority_key_identifier_fields.authority_cert_issuer v)
        ∷ optional (λ x. (implicit_encoding context false 2 (⟦<CertificateSerialNumber<'a> as FormValue>⟧.value.contents x))) (authority_key_identifier_fields.authority_cert_serial_number v)
        ∷ []) }
{}
