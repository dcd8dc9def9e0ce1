//! Extensions outside RFC 5280, as text.

use crate::any_values::push_any;
use crate::extensions::push_unknown;
use crate::page::{Inner, Page, push_malformed};
use crate::part_name::PartName;
use crate::policies::push_policies;
use crate::printer::Printer;
use crate::transparency::push_stamps;
use crate::usages::push_word;
use crate::values::{contents, sizes};
use der_asn1_types::asn1::{AnyRef, BitStringRef};
use der_asn1_types::{FromDer, Tag};
use der_ocsp::ocsp::constants as ocsp;
use der_pkcs::algorithm::constants as transparency;
use std::alloc::AllocError;
use std::fmt::Write;

/// The list of timestamps of a certificate (RFC 6962 section 3.3).
const ID_EMBEDDED_SCTS: &[u8] = &transparency::ID_EMBEDDED_SCTS;

/// The list of timestamps of an OCSP response (RFC 6962 section 3.3).
const ID_OCSP_SCTS: &[u8] = &transparency::ID_OCSP_SCTS;

/// The mark of a precertificate (RFC 6962 section 3.1).
const ID_POISON: &[u8] = &transparency::ID_POISON;

/// A nonce of OCSP (RFC 6960 section 4.4.1).
const ID_PKIX_OCSP_NONCE: &[u8] = &ocsp::ID_PKIX_OCSP_NONCE;

/// The accepted response types (RFC 6960 section 4.4.3).
const ID_PKIX_OCSP_RESPONSE: &[u8] = &ocsp::ID_PKIX_OCSP_RESPONSE;

/// The mark of a responder that is not checked (RFC 6960 section 4.2.2.2.1).
const ID_PKIX_OCSP_NOCHECK: &[u8] = &ocsp::ID_PKIX_OCSP_NOCHECK;

/// An archive cutoff (RFC 6960 section 4.4.4).
const ID_PKIX_OCSP_ARCHIVE_CUTOFF: &[u8] = &ocsp::ID_PKIX_OCSP_ARCHIVE_CUTOFF;

/// tlsFeature, 1.3.6.1.5.5.7.1.24 (RFC 7633 section 6).
const TLS_FEATURE: &[u8] = &[0x2b, 6, 1, 5, 5, 7, 1, 24];

/// The octets before the last arc of each Netscape extension: 2.16.840.1.113730.1.
const NETSCAPE: &[u8] = &[0x60, 0x86, 0x48, 1, 0x86, 0xf8, 0x42, 1];

/// netscapeCertType, 2.16.840.1.113730.1.1.
const NETSCAPE_TYPE: &[u8] = &[0x60, 0x86, 0x48, 1, 0x86, 0xf8, 0x42, 1, 1];

/// msCertificateTemplateName, 1.3.6.1.4.1.311.20.2.
const MS_TEMPLATE_NAME: &[u8] = &[0x2b, 6, 1, 4, 1, 0x82, 0x37, 20, 2];

/// msCaVersion, 1.3.6.1.4.1.311.21.1.
const MS_CA_VERSION: &[u8] = &[0x2b, 6, 1, 4, 1, 0x82, 0x37, 21, 1];

/// msPreviousCertHash, 1.3.6.1.4.1.311.21.2.
const MS_PREVIOUS_HASH: &[u8] = &[0x2b, 6, 1, 4, 1, 0x82, 0x37, 21, 2];

/// msCrlNextPublish, 1.3.6.1.4.1.311.21.4.
const MS_NEXT_PUBLISH: &[u8] = &[0x2b, 6, 1, 4, 1, 0x82, 0x37, 21, 4];

/// msCertificateTemplate, 1.3.6.1.4.1.311.21.7.
const MS_TEMPLATE: &[u8] = &[0x2b, 6, 1, 4, 1, 0x82, 0x37, 21, 7];

/// msApplicationPolicies, 1.3.6.1.4.1.311.21.10.
const MS_POLICIES: &[u8] = &[0x2b, 6, 1, 4, 1, 0x82, 0x37, 21, 10];

/// The names of the bits of a Netscape certificate type, from bit 0 on.
const NETSCAPE_TYPES: [&str; 8] = [
    "sslClient",
    "sslServer",
    "smime",
    "objectSigning",
    "reserved",
    "sslCA",
    "smimeCA",
    "objectSigningCA",
];

/// Adds the meaning of the octets of an extension's value outside RFC 5280: the extensions of
/// Certificate Transparency (RFC 6962), of Netscape (2.16.840.1.113730.1), of Microsoft
/// (1.3.6.1.4.1.311), of OCSP (RFC 6960 section 4.4) and of TLS (RFC 7633). Adds the octets of an
/// unknown extension.
pub fn push_private(
    printer: &mut Printer<'_>,
    identifier: &[u8],
    inner: Inner<'_>,
) -> Result<(), AllocError> {
    match identifier {
        ID_EMBEDDED_SCTS | ID_OCSP_SCTS => push_stamps(printer, inner),
        NETSCAPE_TYPE => push_netscape_type(printer, inner),
        MS_CA_VERSION => push_version(printer, inner),
        MS_POLICIES => push_policies(printer, inner),
        MS_TEMPLATE | ID_PKIX_OCSP_RESPONSE | TLS_FEATURE => push_each(printer, inner),
        ID_POISON => push_single(printer, inner),
        ID_PKIX_OCSP_NONCE | ID_PKIX_OCSP_NOCHECK | ID_PKIX_OCSP_ARCHIVE_CUTOFF => {
            push_single(printer, inner)
        }
        MS_TEMPLATE_NAME | MS_PREVIOUS_HASH | MS_NEXT_PUBLISH => push_single(printer, inner),
        [front @ .., _] if front == NETSCAPE => push_single(printer, inner),
        _ => push_unknown(printer.page, inner),
    }
}

/// Adds a value whose tag gives its type, and a part that is a list of it alone.
fn push_single(printer: &mut Printer<'_>, inner: Inner<'_>) -> Result<(), AllocError> {
    printer.page.open_list(PartName::Values)?;
    push_one(printer, inner)?;
    printer.page.close_list()
}

/// Adds a value whose tag gives its type, and a part that is an item of a list.
fn push_one(printer: &mut Printer<'_>, inner: Inner<'_>) -> Result<(), AllocError> {
    printer.push_str(", ")?;
    match AnyRef::from_der(printer.alloc, inner.octets) {
        Ok(value) => {
            let end = inner.begin.saturating_add(inner.octets.len());
            let begin = printer.page.text.len();
            push_any(printer, Some(end), &value)?;
            printer.page.mark(PartName::Item, begin)
        }
        Err(error) => push_malformed(printer.page, inner.begin, error),
    }
}

/// Adds each value of a SEQUENCE of values whose tags give their types.
fn push_each(printer: &mut Printer<'_>, inner: Inner<'_>) -> Result<(), AllocError> {
    match AnyRef::from_der(printer.alloc, inner.octets) {
        Ok(list) if list.header().tag == Tag::Sequence => push_list(printer, inner),
        Ok(_) => push_single(printer, inner),
        Err(_) => push_single(printer, inner),
    }
}

fn push_list(printer: &mut Printer<'_>, inner: Inner<'_>) -> Result<(), AllocError> {
    printer.page.open_list(PartName::Values)?;
    push_items(printer, inner)?;
    printer.page.close_list()
}

fn push_items(printer: &mut Printer<'_>, inner: Inner<'_>) -> Result<(), AllocError> {
    let mut rest = contents(inner.octets);
    for _ in 0..inner.octets.len() {
        if rest.is_empty() {
            break;
        }
        let (_, count) = sizes(rest);
        let before = inner.octets.len().saturating_sub(rest.len());
        let item = Inner {
            octets: &rest[..count],
            begin: inner.begin.saturating_add(before),
        };
        push_one(printer, item)?;
        if count == 0 {
            break;
        }
        rest = &rest[count..];
    }
    Ok(())
}

/// Adds the names of the set bits.
fn push_netscape_type(printer: &mut Printer<'_>, inner: Inner<'_>) -> Result<(), AllocError> {
    match BitStringRef::from_der(printer.alloc, inner.octets) {
        Ok(bits) => {
            printer.page.open_list(PartName::Types)?;
            push_types(printer.page, bits.raw_bytes())?;
            printer.page.close_list()
        }
        Err(error) => printer.push_malformed_value(inner, error),
    }
}

fn push_types(page: &mut Page, octets: &[u8]) -> Result<(), AllocError> {
    let Some(first) = octets.first() else {
        return Ok(());
    };
    let mut bit = 0x80;
    for name in &NETSCAPE_TYPES {
        if *first & bit != 0 {
            push_word(page, name)?;
        }
        bit >>= 1;
    }
    Ok(())
}

/// Adds the version of a Microsoft CA: that of its certificates, and that of their keys, which is
/// the upper 16 bits of the number.
fn push_version(printer: &mut Printer<'_>, inner: Inner<'_>) -> Result<(), AllocError> {
    printer.push_str(", ")?;
    match u32::from_der(printer.alloc, inner.octets) {
        Ok(number) => {
            let (of_certificates, of_keys) = (number & 0xffff, number >> 16);
            let begin = printer.page.text.len();
            write!(printer.page.text, "V{of_certificates}.{of_keys}")?;
            printer.page.mark(PartName::Version, begin)
        }
        Err(error) => push_malformed(printer.page, inner.begin, error),
    }
}
