//! The certificates and the lists of revoked certificates in CMS messages, as text (RFC 5652
//! section 10.2).

use certview_parts::characters::Behind;
use certview_parts::field_name::FieldName;
use certview_parts::names::push_places;
use certview_parts::place::Place;
use certview_parts::printer::Printer;
use certview_parts::rows::{push_identifier_row, push_length_row, push_malformed_inner_row};
use certview_parts::signatures::push_certificate_row;
use certview_parts::times::push_time;
use der_asn1_types::FromDer;
use der_cms::cms::{CertificateChoices, RevocationInfoChoice};
use der_pkix::crl::CertificateList;
use std::alloc::AllocError;

/// Adds a line for each certificate of a set, in the order of the octets.
pub fn push_certificate_choices(printer: &mut Printer<'_>, set: &Place) -> Result<(), AllocError> {
    let field = FieldName::Certificate;
    let mut items = printer.items(set);
    for _ in 0..set.length {
        let Some(place) = items.next_item() else {
            break;
        };
        let inner = printer.inner_at(&place);
        match CertificateChoices::from_der(printer.alloc, inner.octets) {
            Ok(certificate) => push_choice(printer, &place, &certificate)?,
            Err(error) => push_malformed_inner_row(printer, &place, field, inner, error)?,
        }
    }
    Ok(())
}

fn push_choice(
    printer: &mut Printer<'_>,
    place: &Place,
    certificate: &CertificateChoices<'_>,
) -> Result<(), AllocError> {
    let kept = printer.contents_at(place).octets;
    match certificate {
        CertificateChoices::Certificate(certificate) => {
            push_certificate_row(printer, place, certificate)
        }
        CertificateChoices::ExtendedCertificate(_) => {
            push_length_row(printer, place, FieldName::ExtendedCertificate, kept)
        }
        CertificateChoices::V1AttrCert(_) => {
            push_length_row(
                printer,
                place,
                FieldName::AttributeCertificateOfVersion1,
                kept,
            )
        }
        CertificateChoices::V2AttrCert(_) => {
            push_length_row(printer, place, FieldName::AttributeCertificate, kept)
        }
        CertificateChoices::Other(other) => {
            let format = other.value.type_().as_bytes();
            push_identifier_row(
                printer,
                place,
                FieldName::CertificateOfAnotherFormat,
                format,
            )
        }
    }
}

/// Adds a line for each list of revoked certificates in a set, in the order of the octets.
pub fn push_revocations(printer: &mut Printer<'_>, set: &Place) -> Result<(), AllocError> {
    let field = FieldName::ListOfRevokedCertificates;
    let mut items = printer.items(set);
    for _ in 0..set.length {
        let Some(place) = items.next_item() else {
            break;
        };
        let inner = printer.inner_at(&place);
        match RevocationInfoChoice::from_der(printer.alloc, inner.octets) {
            Ok(revoked) => push_revocation(printer, &place, &revoked)?,
            Err(error) => push_malformed_inner_row(printer, &place, field, inner, error)?,
        }
    }
    Ok(())
}

fn push_revocation(
    printer: &mut Printer<'_>,
    place: &Place,
    revoked: &RevocationInfoChoice<'_>,
) -> Result<(), AllocError> {
    match revoked {
        RevocationInfoChoice::Crl(list) => push_list_row(printer, place, list),
        RevocationInfoChoice::Other(other) => {
            let format = other.value.type_().as_bytes();
            push_identifier_row(printer, place, FieldName::ListOfAnotherFormat, format)
        }
    }
}

/// Adds a line with the time and the issuer of a list of revoked certificates.
pub fn push_list_row(
    printer: &mut Printer<'_>,
    place: &Place,
    revoked: &CertificateList<'_>,
) -> Result<(), AllocError> {
    let signed = revoked.tbs_cert_list();
    printer.begin(place, FieldName::ListOfRevokedCertificates)?;
    push_time(printer.page, &signed.this_update())?;
    printer.push_str(", ")?;
    push_places(printer, signed.issuer(), Behind::Mark)?;
    printer.push('\n')
}
