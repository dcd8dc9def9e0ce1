//! The values of the extensions subjectKeyIdentifier and authorityKeyIdentifier as text (RFC 5280
//! sections 4.2.1.1 and 4.2.1.2).

use crate::hexadecimal::{push_serial, push_with_colons};
use crate::other_names::push_names;
use crate::page::{Inner, Page, push_malformed};
use crate::part_name::PartName;
use crate::printer::Printer;
use der_asn1_types::FromDer;
use der_extensions::extension::{AuthorityKeyIdentifier, SubjectKeyIdentifier};
use std::alloc::AllocError;

/// Adds the identifier of a key.
pub fn push_subject_key(printer: &mut Printer<'_>, inner: Inner<'_>) -> Result<(), AllocError> {
    printer.push_str(", ")?;
    match SubjectKeyIdentifier::from_der(printer.alloc, inner.octets) {
        Ok(identifier) => push_key(printer.page, identifier.as_bytes()),
        Err(error) => push_malformed(printer.page, inner.begin, error),
    }
}

/// Adds the octets of the identifier of a key.
fn push_key(page: &mut Page, octets: &[u8]) -> Result<(), AllocError> {
    let begin = page.text.len();
    push_with_colons(page, octets)?;
    page.mark(PartName::KeyIdentifier, begin)
}

/// Adds the identifier of the issuer's key, and, if they are present, the issuer's names and the
/// serial number of the certificate of that key.
pub fn push_authority_key(printer: &mut Printer<'_>, inner: Inner<'_>) -> Result<(), AllocError> {
    match AuthorityKeyIdentifier::from_der(printer.alloc, inner.octets) {
        Ok(authority) => push_authority(printer, &authority),
        Err(error) => printer.push_malformed_value(inner, error),
    }
}

fn push_authority(
    printer: &mut Printer<'_>,
    authority: &AuthorityKeyIdentifier<'_>,
) -> Result<(), AllocError> {
    if let Some(identifier) = authority.key_identifier() {
        printer.push_str(", ")?;
        push_key(printer.page, identifier.as_bytes())?;
    }
    if let Some(names) = authority.authority_cert_issuer() {
        push_names(printer, PartName::AuthorityCertIssuer, "issuer ", names)?;
    }
    match authority.authority_cert_serial_number() {
        Some(number) => {
            printer.push_str(", serial number ")?;
            let begin = printer.page.text.len();
            push_serial(printer.page, number.as_bytes())?;
            printer
                .page
                .mark(PartName::AuthorityCertSerialNumber, begin)
        }
        None => Ok(()),
    }
}
