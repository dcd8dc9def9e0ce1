//! Signed data of PKCS #7 as text, whose content is a value of any type (RFC 2315 section 9.1).
//! RFC 5652 section 5.2.1 says how it differs from that of CMS.

use crate::cms_certificates::{push_certificate_choices, push_revocations};
use crate::keys::push_version;
use crate::signed_data::push_digests;
use crate::signers::push_signers;
use certview_parts::field_name::FieldName;
use certview_parts::place::{Place, nowhere};
use certview_parts::printer::Printer;
use certview_parts::rows::{push_identifier_row, push_length_row, push_malformed_row};
use der_asn1_types::asn1::{AnyRef, ObjectIdentifierRef};
use der_asn1_types::{Explicit, FieldSequence, Fields2, Fields6, FromDer, Implicit};
use der_cms::cms::{CertificateSet, RevocationInfoChoices, SignerInfo};
use der_lists::UnorderedSetRef;
use der_pkix::AlgorithmIdentifier;
use std::alloc::AllocError;

/// A ContentInfo (RFC 2315 section 7): the type of a content, and the content, if it is present.
type ContentInfo<'a> = FieldSequence<
    Fields2<ObjectIdentifierRef<'a, 39>, Option<Explicit<AnyRef<'a>, 0>>>,
>;

/// A SignedData (RFC 2315 section 9.1): the version, the digest algorithms, the content, the
/// certificates, the lists of revoked certificates and the signers.
type SignedData<'a> = FieldSequence<
    Fields6<
        u8,
        UnorderedSetRef<'a, AlgorithmIdentifier<'a>>,
        ContentInfo<'a>,
        Option<Implicit<CertificateSet<'a>, 0>>,
        Option<Implicit<RevocationInfoChoices<'a>, 1>>,
        UnorderedSetRef<'a, SignerInfo<'a>>,
    >,
>;

/// Adds the fields of the SignedData of PKCS #7 in this byte range, one line each.
pub fn push_signed_content(printer: &mut Printer<'_>, place: &Place) -> Result<(), AllocError> {
    let inner = printer.inner_at(place);
    match SignedData::from_der(printer.alloc, inner.octets) {
        Ok(signed) => push_fields(printer, place, &signed),
        Err(error) => push_malformed_row(printer, place, FieldName::SignedData, inner.begin, error),
    }
}

fn push_fields(
    printer: &mut Printer<'_>,
    place: &Place,
    signed: &SignedData<'_>,
) -> Result<(), AllocError> {
    let mut items = printer.items(place);
    let version = items.next_item().unwrap_or(nowhere());
    let digests = items.next_item().unwrap_or(nowhere());
    let content = items.next_item().unwrap_or(nowhere());
    push_version(printer, &version, *signed.fields.first())?;
    push_digests(printer, &digests)?;
    push_content(printer, &content, signed.fields.third())?;
    let mut set = items.next_item().unwrap_or(nowhere());
    if signed.fields.fourth().is_some() {
        push_certificate_choices(printer, &set)?;
        set = items.next_item().unwrap_or(nowhere());
    }
    if signed.fields.fifth().is_some() {
        push_revocations(printer, &set)?;
        set = items.next_item().unwrap_or(nowhere());
    }
    push_signers(printer, &set)
}

/// Adds the type of the content, and the number of its contents octets, which are those that are
/// digested (RFC 2315 section 9.3).
fn push_content(
    printer: &mut Printer<'_>,
    place: &Place,
    content: &ContentInfo<'_>,
) -> Result<(), AllocError> {
    let mut items = printer.items(place);
    let kind = items.next_item().unwrap_or(nowhere());
    let held = items.next_item().unwrap_or(nowhere());
    let identifier = content.fields.first().as_bytes();
    push_identifier_row(printer, &kind, FieldName::ContentType, identifier)?;
    match content.fields.second() {
        Some(_) => {
            let value = printer.contents_of(held);
            let octets = printer.contents_at(&value).octets;
            push_length_row(printer, &value, FieldName::Content, octets)
        }
        None => Ok(()),
    }
}
