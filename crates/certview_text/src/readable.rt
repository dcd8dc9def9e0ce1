//! The readable fields of a refused certificate or of a refused list of revoked certificates.
//! Each field is read on its own, at the byte range that its header gives.

use crate::certificate::push_version;
use crate::kind::{Kind, has_tag, has_time_tag};
use crate::revocation::push_entry;
use crate::site::{Extent, Site, Sites};
use crate::whole::{push_title, whole_of};
use certview_parts::algorithms::{push_algorithm, push_key};
use certview_parts::bit_strings::push_bits;
use certview_parts::characters::Behind;
use certview_parts::extensions::push_extension;
use certview_parts::field_name::FieldName;
use certview_parts::hexadecimal::push_serial;
use certview_parts::identifiers::push_attribute_type;
use certview_parts::names::push_attribute;
use certview_parts::page::{Inner, Page, push_malformed, push_malformed_inner};
use certview_parts::printer::Printer;
use certview_parts::times::push_time;
use der_asn1_types::FromDer;
use der_asn1_types::asn1::{BitStringRef, IntRef};
use der_pkix::AlgorithmIdentifier;
use der_pkix::certificate::{Extension, SubjectPublicKeyInfo, Time};
use der_pkix::crl::RevokedCertificate;
use der_pkix::name::{AttributeTypeAndValue, Name};
use std::alloc::{AllocError, Global};

/// Adds the fields of a refused message, and marks a field that cannot be read as malformed. Adds
/// nothing for octets that do not look like a certificate or a list.
///
/// # Errors
/// `AllocError` if memory runs out.
pub fn push_parts(
    alloc: Global,
    page: &mut Page,
    kind: Kind,
    octets: &[u8],
) -> Result<(), AllocError> {
    let whole = whole_of(octets, kind);
    let mut printer = Printer::new(alloc, page, octets);
    match kind {
        Kind::Certificate => push_certificate_parts(&mut printer, &whole),
        Kind::RevocationList => push_list_parts(&mut printer, &whole),
        _ => Ok(()),
    }
}

/// Returns the octets of a field.
fn octets_of<'a>(octets: &'a [u8], extent: &Extent) -> &'a [u8] {
    octets.get(extent.begin..extent.end).unwrap_or(&[])
}

/// Returns the octets of a field with their offset, to be read on their own.
fn inner_of<'a>(octets: &'a [u8], extent: &Extent) -> Inner<'a> {
    Inner {
        octets: octets_of(octets, extent),
        begin: extent.begin,
    }
}

/// Returns the contents octets of a field and the octets after it.
fn octets_within<'a>(octets: &'a [u8], extent: &Extent) -> &'a [u8] {
    octets.get(extent.contents..).unwrap_or(&[])
}

/// Adds the fields of a certificate if its validity begins with a time.
fn push_certificate_parts(printer: &mut Printer<'_>, whole: &Site) -> Result<(), AllocError> {
    let octets = printer.octets;
    let site = whole.field(octets, "tbsCertificate");
    let validity = site.field(octets, "validity");
    if !has_time_tag(octets_within(octets, &validity.extent)) {
        return Ok(());
    }
    push_title(printer, &whole.place(), Kind::Certificate)?;
    push_number_part(printer, &site)?;
    push_serial_part(printer, &site.field(octets, "serialNumber"))?;
    push_algorithm_part(printer, &site.field(octets, "signature"))?;
    push_name_part(printer, &site.field(octets, "issuer"), FieldName::Issuer)?;
    push_time_part(
        printer,
        &validity.field(octets, "notBefore"),
        FieldName::NotBefore,
    )?;
    push_time_part(
        printer,
        &validity.field(octets, "notAfter"),
        FieldName::NotAfter,
    )?;
    push_name_part(printer, &site.field(octets, "subject"), FieldName::Subject)?;
    push_key_part(printer, &site.field(octets, "subjectPublicKeyInfo"))?;
    push_unique_part(
        printer,
        &site.field(octets, "issuerUniqueID"),
        FieldName::IssuersNumber,
    )?;
    push_unique_part(
        printer,
        &site.field(octets, "subjectUniqueID"),
        FieldName::SubjectsNumber,
    )?;
    push_extension_parts(printer, &site.field(octets, "extensions"))?;
    push_signature_parts(printer, whole)
}

/// Adds the fields of a list of revoked certificates if its `thisUpdate` is a time.
fn push_list_parts(printer: &mut Printer<'_>, whole: &Site) -> Result<(), AllocError> {
    let octets = printer.octets;
    let site = whole.field(octets, "tbsCertList");
    let first = site.field(octets, "thisUpdate");
    if !has_time_tag(octets_of(octets, &first.extent)) {
        return Ok(());
    }
    push_title(printer, &whole.place(), Kind::RevocationList)?;
    push_number_part(printer, &site)?;
    push_algorithm_part(printer, &site.field(octets, "signature"))?;
    push_name_part(printer, &site.field(octets, "issuer"), FieldName::Issuer)?;
    push_time_part(printer, &first, FieldName::ThisUpdate)?;
    push_time_part(
        printer,
        &site.field(octets, "nextUpdate"),
        FieldName::NextUpdate,
    )?;
    push_entry_parts(printer, &site.field(octets, "revokedCertificates"))?;
    push_extension_parts(printer, &site.field(octets, "crlExtensions"))?;
    push_signature_parts(printer, whole)
}

/// Adds the version, whose number is its last octet.
fn push_number_part(printer: &mut Printer<'_>, site: &Site) -> Result<(), AllocError> {
    let version = site.field(printer.octets, "version");
    match octets_of(printer.octets, &version.extent) {
        [.., number] => push_version(printer, &version.place(), *number),
        [] => push_version(printer, &version.place(), 0),
    }
}

fn push_serial_part(printer: &mut Printer<'_>, site: &Site) -> Result<(), AllocError> {
    printer.begin(&site.place(), FieldName::SerialNumber)?;
    match IntRef::from_der(printer.alloc, octets_of(printer.octets, &site.extent)) {
        Ok(number) => push_serial(printer.page, number.as_bytes())?,
        Err(error) => push_malformed(printer.page, site.extent.begin, error)?,
    }
    printer.push('\n')
}

fn push_algorithm_part(printer: &mut Printer<'_>, site: &Site) -> Result<(), AllocError> {
    match AlgorithmIdentifier::from_der(printer.alloc, octets_of(printer.octets, &site.extent)) {
        Ok(algorithm) => push_algorithm(
            printer,
            &site.place(),
            FieldName::SignatureAlgorithm,
            &algorithm,
        ),
        Err(error) => {
            printer.begin(&site.place(), FieldName::SignatureAlgorithm)?;
            push_malformed(printer.page, site.extent.begin, error)?;
            printer.push('\n')
        }
    }
}

fn push_time_part(
    printer: &mut Printer<'_>,
    site: &Site,
    field: FieldName,
) -> Result<(), AllocError> {
    if site.extent.len() == 0 {
        return Ok(());
    }
    printer.begin(&site.place(), field)?;
    let inner = inner_of(printer.octets, &site.extent);
    match Time::from_der(printer.alloc, inner.octets) {
        Ok(time) => push_time(printer.page, &time)?,
        Err(error) => push_malformed_inner(printer.page, inner, error)?,
    }
    printer.push('\n')
}

/// Adds a name. If it is malformed, adds it attribute by attribute.
fn push_name_part(
    printer: &mut Printer<'_>,
    site: &Site,
    field: FieldName,
) -> Result<(), AllocError> {
    printer.begin(&site.place(), field)?;
    let begin = printer.page.text.len();
    let mut sites = Sites::within(printer.octets, site);
    for _ in site.extent.contents..site.extent.end {
        let Some(part) = sites.next_site() else {
            break;
        };
        if printer.page.text.len() > begin {
            printer.push_str(", ")?;
        }
        push_attribute_parts(printer, &part)?;
    }
    if let Err(error) = Name::from_der(printer.alloc, octets_of(printer.octets, &site.extent)) {
        if printer.page.text.len() == begin {
            push_malformed(printer.page, site.extent.begin, error)?;
        }
    }
    printer.push('\n')
}

/// Adds the attributes of one set of a name.
fn push_attribute_parts(printer: &mut Printer<'_>, site: &Site) -> Result<(), AllocError> {
    let mut is_first = true;
    let mut sites = Sites::within(printer.octets, site);
    for _ in site.extent.contents..site.extent.end {
        let Some(part) = sites.next_site() else {
            break;
        };
        if !is_first {
            printer.push('+')?;
        }
        is_first = false;
        match AttributeTypeAndValue::from_der(
            printer.alloc,
            octets_of(printer.octets, &part.extent),
        ) {
            Ok(attribute) => push_attribute(printer, &attribute, Behind::Mark)?,
            Err(error) => {
                push_type_part(printer, &part)?;
                push_malformed(printer.page, part.extent.begin, error)?;
            }
        }
    }
    Ok(())
}

/// Adds the type of an attribute if it is an identifier.
fn push_type_part(printer: &mut Printer<'_>, site: &Site) -> Result<(), AllocError> {
    let extent = site.field(printer.octets, "type").extent;
    if !has_tag(octets_of(printer.octets, &extent), 0x06) {
        return Ok(());
    }
    let identifier = printer
        .octets
        .get(extent.contents..extent.end)
        .unwrap_or(&[]);
    push_attribute_type(printer, identifier)?;
    printer.push('=')
}

fn push_key_part(printer: &mut Printer<'_>, site: &Site) -> Result<(), AllocError> {
    match SubjectPublicKeyInfo::from_der(printer.alloc, octets_of(printer.octets, &site.extent)) {
        Ok(key) => push_key(printer, &site.place(), &key),
        Err(error) => {
            printer.begin(&site.place(), FieldName::Key)?;
            push_malformed(printer.page, site.extent.begin, error)?;
            printer.push('\n')
        }
    }
}

/// Adds the unique identifier of an issuer or of a subject, if it is present: the octet of unused
/// bits, and the others.
fn push_unique_part(
    printer: &mut Printer<'_>,
    site: &Site,
    field: FieldName,
) -> Result<(), AllocError> {
    let Some([unused, bits @ ..]) = printer.octets.get(site.extent.contents..site.extent.end) else {
        return Ok(());
    };
    printer.begin(&site.place(), field)?;
    match BitStringRef::new(*unused, bits) {
        Ok(bits) => push_bits(printer.page, &bits)?,
        Err(error) => push_malformed(printer.page, site.extent.contents, error)?,
    }
    printer.push('\n')
}

/// Adds each extension.
fn push_extension_parts(printer: &mut Printer<'_>, site: &Site) -> Result<(), AllocError> {
    let list = site.field(printer.octets, "");
    let mut sites = Sites::within(printer.octets, &list);
    for _ in list.extent.contents..list.extent.end {
        let Some(part) = sites.next_site() else {
            break;
        };
        push_extension_part(printer, &part)?;
    }
    Ok(())
}

fn push_extension_part(printer: &mut Printer<'_>, site: &Site) -> Result<(), AllocError> {
    printer.begin(&site.place(), FieldName::Extension)?;
    match Extension::from_der(printer.alloc, octets_of(printer.octets, &site.extent)) {
        Ok(extension) => push_extension(printer, &site.place(), &extension)?,
        Err(error) => push_malformed(printer.page, site.extent.begin, error)?,
    }
    printer.push('\n')
}

/// Adds each revoked certificate.
fn push_entry_parts(printer: &mut Printer<'_>, list: &Site) -> Result<(), AllocError> {
    let mut sites = Sites::within(printer.octets, list);
    for _ in list.extent.contents..list.extent.end {
        let Some(part) = sites.next_site() else {
            break;
        };
        push_entry_part(printer, &part)?;
    }
    Ok(())
}

fn push_entry_part(printer: &mut Printer<'_>, site: &Site) -> Result<(), AllocError> {
    printer.begin(&site.place(), FieldName::Revoked)?;
    let inner = inner_of(printer.octets, &site.extent);
    match RevokedCertificate::from_der(printer.alloc, inner.octets) {
        Ok(entry) => push_entry(printer, &site.place(), &entry),
        Err(error) => {
            push_malformed_inner(printer.page, inner, error)?;
            printer.push('\n')
        }
    }
}

/// Adds the algorithm outside of the signed part, and the signature.
fn push_signature_parts(printer: &mut Printer<'_>, whole: &Site) -> Result<(), AllocError> {
    let algorithm = whole.field(printer.octets, "signatureAlgorithm");
    if algorithm.extent.len() > 0 {
        push_algorithm_part(printer, &algorithm)?;
    }
    let site = whole.field(printer.octets, "signatureValue");
    if site.extent.len() == 0 {
        return Ok(());
    }
    printer.begin(&site.place(), FieldName::Signature)?;
    match BitStringRef::from_der(printer.alloc, octets_of(printer.octets, &site.extent)) {
        Ok(bits) => push_bits(printer.page, &bits)?,
        Err(error) => push_malformed(printer.page, site.extent.begin, error)?,
    }
    printer.push('\n')
}
