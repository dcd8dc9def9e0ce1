//! The values of the bags in a PKCS #12 file as text (RFC 7292 sections 4.2.1 to 4.2.6).

use crate::cms_certificates::push_list_row;
use crate::encrypted_key::push_encrypted_fields;
use crate::keys::push_secret;
use certview_parts::algorithms::push_algorithm;
use certview_parts::field_name::FieldName;
use certview_parts::place::Place;
use certview_parts::printer::Printer;
use certview_parts::rows::{
    push_identifier_row, push_length_row, push_malformed_inner_row, push_malformed_row,
};
use certview_parts::signatures::push_certificate_row;
use der_asn1_types::FromDer;
use der_pkcs::encryption::EncryptedPrivateKeyInfo;
use der_pkcs::pkcs12::constants::{self, X509_CERTIFICATE, X509_CRL};
use der_pkcs::pkcs12::{CertBag, CrlBag};
use der_pkix::certificate::Certificate;
use der_pkix::crl::CertificateList;
use der_pkix::key::PrivateKeyInfo;
use std::alloc::AllocError;

/// A private key (RFC 7292 section 4.2.1).
const KEY_BAG: &[u8] = &constants::KEY_BAG;

/// An encrypted private key (RFC 7292 section 4.2.2).
const PKCS8_SHROUDED_KEY_BAG: &[u8] = &constants::PKCS8_SHROUDED_KEY_BAG;

/// A certificate (RFC 7292 section 4.2.3).
const CERT_BAG: &[u8] = &constants::CERT_BAG;

/// A list of revoked certificates (RFC 7292 section 4.2.4).
const CRL_BAG: &[u8] = &constants::CRL_BAG;

/// Adds the lines of the value of a bag with this identifier. For nested bags, and for bags with
/// another identifier, it adds the number of octets.
pub fn push_bag_value(
    printer: &mut Printer<'_>,
    place: &Place,
    identifier: &[u8],
) -> Result<(), AllocError> {
    match identifier {
        KEY_BAG => push_key_bag(printer, place),
        PKCS8_SHROUDED_KEY_BAG => push_shrouded_key_bag(printer, place),
        CERT_BAG => push_certificate_bag(printer, place),
        CRL_BAG => push_list_bag(printer, place),
        _ => {
            let octets = printer.octets_at(place);
            push_length_row(printer, place, FieldName::Value, octets)
        }
    }
}

/// Adds the algorithm of a key and the number of its octets.
fn push_key_bag(printer: &mut Printer<'_>, place: &Place) -> Result<(), AllocError> {
    let inner = printer.inner_at(place);
    match PrivateKeyInfo::from_der(printer.alloc, inner.octets) {
        Ok(key) => {
            let at = printer.places_of(&key, place);
            push_algorithm(
                printer,
                &at.private_key_algorithm,
                FieldName::KeyAlgorithm,
                key.private_key_algorithm(),
            )?;
            let count = key.private_key().as_bytes().len();
            push_secret(printer, &at.private_key, FieldName::PrivateKey, count)
        }
        Err(error) => push_malformed_row(printer, place, FieldName::Key, inner.begin, error),
    }
}

fn push_shrouded_key_bag(printer: &mut Printer<'_>, place: &Place) -> Result<(), AllocError> {
    let inner = printer.inner_at(place);
    match EncryptedPrivateKeyInfo::from_der(printer.alloc, inner.octets) {
        Ok(key) => push_encrypted_fields(printer, place, &key),
        Err(error) => push_malformed_row(
            printer,
            place,
            FieldName::EncryptedKey,
            inner.begin,
            error,
        ),
    }
}

/// Adds the line of a certificate in an OCTET STRING. For another kind of certificate it adds the
/// identifier.
fn push_certificate_bag(printer: &mut Printer<'_>, place: &Place) -> Result<(), AllocError> {
    let inner = printer.inner_at(place);
    match CertBag::from_der(printer.alloc, inner.octets) {
        Ok(bag) if bag.cert_id().as_bytes() == X509_CERTIFICATE.as_slice() => {
            let at = printer.places_of(&bag, place);
            let string = printer.contents_of(at.cert_value);
            push_held_certificate(printer, &string)
        }
        Ok(bag) => {
            let kind = bag.cert_id().as_bytes();
            push_identifier_row(printer, place, FieldName::CertificateOfAnotherKind, kind)
        }
        Err(error) => push_malformed_row(
            printer,
            place,
            FieldName::Certificate,
            inner.begin,
            error,
        ),
    }
}

fn push_held_certificate(printer: &mut Printer<'_>, string: &Place) -> Result<(), AllocError> {
    let inner = printer.contents_at(string);
    match Certificate::from_der(printer.alloc, inner.octets) {
        Ok(certificate) => {
            let place = printer.contents_of(*string);
            push_certificate_row(printer, &place, &certificate)
        }
        Err(error) => push_malformed_inner_row(
            printer,
            string,
            FieldName::Certificate,
            inner,
            error,
        ),
    }
}

/// Adds the line of a list of revoked certificates in an OCTET STRING. For another kind of list
/// it adds the identifier.
fn push_list_bag(printer: &mut Printer<'_>, place: &Place) -> Result<(), AllocError> {
    let inner = printer.inner_at(place);
    match CrlBag::from_der(printer.alloc, inner.octets) {
        Ok(bag) if bag.crl_id().as_bytes() == X509_CRL.as_slice() => {
            let at = printer.places_of(&bag, place);
            let string = printer.contents_of(at.crl_value);
            push_held_list(printer, &string)
        }
        Ok(bag) => {
            let kind = bag.crl_id().as_bytes();
            push_identifier_row(printer, place, FieldName::ListOfAnotherKind, kind)
        }
        Err(error) => push_malformed_row(printer, place, FieldName::List, inner.begin, error),
    }
}

fn push_held_list(printer: &mut Printer<'_>, string: &Place) -> Result<(), AllocError> {
    let inner = printer.contents_at(string);
    match CertificateList::from_der(printer.alloc, inner.octets) {
        Ok(list) => {
            let place = printer.contents_of(*string);
            push_list_row(printer, &place, &list)
        }
        Err(error) => push_malformed_inner_row(printer, string, FieldName::List, inner, error),
    }
}
