//! RevokedCertificate, a SEQUENCE of 3 fields.
//!
//! Made by tools/asn1 from crl.asn1.

ghost use Rattle.std.specs.Prelude.{◌∷◌, ◌≡◌, [], false, refl};
ghost use Rattle.der_elem.specs.FormatMakers.{mapped_format};
ghost use Rattle.der_modules.specs.Asn1.{joined, optional, parse_of};
ghost use Rattle.der_modules.specs.Members.{choice_field, field, no_fields, optional_field, struct_member};
ghost use Rattle.der_pkix.specs.Crl.Grammar.{revoked_certificate};
ghost use Rattle.der_pkix.specs.Crl.RevokedCertificate as revoked_certificate_fields;
ghost use Rattle.der_pkix.specs.declared.crl.revoked_certificate.RevokedCertificate.{RevokedCertificate};

use crate::certificate::{CertificateSerialNumber, Extensions, Time};
use der_elem::{
    ContentsEq, CopyIsDuplicate, DecodeValue, EncodeValue, Form, FormValue, OneTag, Sequence,
    SequenceTag, TagMarker, ValueOrd,
};
use der_fields::{DecodeFields, EncodeFields, FieldList, Fields3, FieldsOrd};
use der_modules::{Choosing, Member, copy_of, field_list, if_present};
use der_tlv::{BackWriter, Error, Header, Length, Source, Writer};
use std::alloc::Global;
use std::cmp::Ordering;
use std::fmt;

/// The list of the fields.
type Fields<'a> = Fields3<CertificateSerialNumber<'a>, Time, Option<Extensions<'a>>>;

/// A type that is written out within another, as `RevokedCertificate`.
///
/// Reading refuses the first fault of the octets, in their order.
#[derive(Clone, Copy, PartialEq, Eq)]
pub struct RevokedCertificate<'a> {
    fields: Fields<'a>,
}

impl<'a> RevokedCertificate<'a> {
    ghost use Rattle.der_pkix.specs.Crl.RevokedCertificate as revoked_certificate_fields;
    ghost use Rattle.std.specs.Prelude.{option_copied};

    /// A value of these fields.
    pub fn new(
        user_certificate: CertificateSerialNumber<'a>,
        revocation_date: Time,
        crl_entry_extensions: Option<&Extensions<'a>>,
    ) -> RevokedCertificate<'a>
        ensures user_certificate { revoked_certificate_fields.user_certificate result ≡ user_certificate.entry }
        ensures revocation_date { revoked_certificate_fields.revocation_date result ≡ revocation_date }
        ensures crl_entry_extensions { revoked_certificate_fields.crl_entry_extensions result ≡ option_copied crl_entry_extensions.entry }
    {
        let list = field_list![
            user_certificate,
            revocation_date,
            if_present!(value in crl_entry_extensions => copy_of(value))
        ];
        let fields = Fields3 { list };
        RevokedCertificate { fields }
    }

    /// `userCertificate`, `CertificateSerialNumber`.
    pub fn user_certificate(&self) -> &CertificateSerialNumber<'a>
        ensures { result.now ≡ revoked_certificate_fields.user_certificate self.now }
    {
        &self.fields.list.first
    }

    /// `revocationDate`, `Time`.
    pub fn revocation_date(&self) -> Time
        ensures { result ≡ revoked_certificate_fields.revocation_date self.now }
    {
        self.fields.list.rest.first
    }

    /// `crlEntryExtensions`, `Extensions OPTIONAL`.
    pub fn crl_entry_extensions(&self) -> Option<&Extensions<'a>>
        ensures { option_copied result ≡ revoked_certificate_fields.crl_entry_extensions self.now }
    {
        if_present!(value in &self.fields.list.rest.rest.first => value)
    }
}

impl<'a> fmt::Debug for RevokedCertificate<'a> {
    fn fmt<W: fmt::Write>(&self, f: &mut fmt::Formatter<W>) -> fmt::Result {
        f.debug_struct("RevokedCertificate")
            .field("user_certificate", self.user_certificate())
            .field("revocation_date", &self.revocation_date())
            .field("crl_entry_extensions", &self.crl_entry_extensions())
            .finish()
    }
}

impl<'a> OneTag for RevokedCertificate<'a> {
    type Marker = SequenceTag;
}

impl<'a> Sequence<'a> for RevokedCertificate<'a> {
    ghost is_sequence = { refl };
}

impl<'a> FormValue for RevokedCertificate<'a> {
    ghost value = { mapped_format (λ v. v.fields) ⟦<Fields<'a> as FieldList>⟧.list.octets };
}

impl<'a, R: Source<'a>> DecodeValue<'a, R> for RevokedCertificate<'a> {
    ghost TAKES_MEMORY = { false };

    const TAKES_MEMORY: bool = false;

    fn decode_value(
        alloc: Global,
        reader: &mut R,
        _header: Header,
    ) -> Result<RevokedCertificate<'a>, Error> {
        match Fields::<'a>::decode_fields(alloc, reader) {
            Ok(fields) => Ok(RevokedCertificate { fields }),
            Err(e) => Err(e),
        }
    }

    ghost takes_memory_is = { refl };
}

impl<'a> EncodeValue for RevokedCertificate<'a> {
    fn value_len(&self) -> Result<Length, Error> {
        self.fields.fields_len()
    }

    fn encode_value<W: Writer>(&self, writer: &mut W) -> Result<(), Error> {
        self.fields.encode_fields(writer)
    }

    fn encode_value_back<W: BackWriter>(&self, writer: &mut W) -> Result<(), Error> {
        self.fields.encode_fields_back(writer)
    }
}

impl<'a> ValueOrd for RevokedCertificate<'a> {
    fn value_cmp(&self, other: &RevokedCertificate<'a>) -> Result<Ordering, Error> {
        self.fields.cmp_fields(&other.fields)
    }
}

impl<'a> Member for RevokedCertificate<'a> {
    ghost member = { struct_member ⟦<SequenceTag as TagMarker>⟧.TAG (λ v. v.fields.list)
        (field ⟦<CertificateSerialNumber<'a> as Member>⟧.member
        (choice_field ⟦<Time as Choosing>⟧.choice
        (optional_field ⟦<Extensions<'a> as Member>⟧.member
        no_fields))) };
}

impl<'a> ContentsEq for RevokedCertificate<'a> {
    ghost contents_eq = { ⟦<RevokedCertificate<'a> as Member>⟧.member.equal };
}

impl<'a> CopyIsDuplicate for RevokedCertificate<'a> {}

/// What is read as `RevokedCertificate` is what the grammar page says.
pub fn grammar_of_revoked_certificate<'a>()
    ensures { ⟦<RevokedCertificate<'a> as Form>⟧.parse ≡ parse_of revoked_certificate }
{}

/// The contents octets of `RevokedCertificate` are the encodings of its fields, one after another.
pub fn octets_of_revoked_certificate<'a>()
    ensures { (v : RevokedCertificate) → ⟦<RevokedCertificate<'a> as FormValue>⟧.value.contents v ≡ joined (
        (⟦<CertificateSerialNumber<'a> as Form>⟧.encoding (revoked_certificate_fields.user_certificate v))
        ∷ (⟦<Time as Form>⟧.encoding (revoked_certificate_fields.revocation_date v))
        ∷ optional (λ x. (⟦<Extensions<'a> as Form>⟧.encoding x)) (revoked_certificate_fields.crl_entry_extensions v)
        ∷ []) }
{}
