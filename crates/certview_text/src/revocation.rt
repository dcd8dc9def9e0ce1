//! A list of revoked certificates as text.

ghost use Rattle.std.specs.Prelude.{◌≡◌, None, OnOk};
ghost use Rattle.der_modules.specs.Asn1.{parse_of};
ghost use Rattle.der_pkix.specs.Crl.Grammar.{certificate_list};
ghost use Rattle.certview_text.specs.Faults.{first_fault};

use crate::certificate::push_version;
use crate::fault::{Fault, refusal};
use crate::findings::push_list_findings;
use crate::kind::Kind;
use crate::moments::push_currency_at;
use crate::whole::push_title;
use certview_parts::algorithms::push_algorithm;
use certview_parts::extension_rows::push_explicit_extensions;
use certview_parts::extensions::push_extension;
use certview_parts::field_name::FieldName;
use certview_parts::hexadecimal::push_serial;
use certview_parts::names::push_name;
use certview_parts::page::Page;
use certview_parts::place::{Place, nowhere, place_of_all};
use certview_parts::printer::Printer;
use certview_parts::signatures::push_signature_rows;
use certview_parts::times::{push_moment, push_time};
use der_asn1_types::FromDer;
use der_lists::ListRef;
use der_pkix::certificate::{Extension, Extensions};
use der_pkix::crl::laws::grammar_of_certificate_list;
use der_pkix::crl::{CertificateList, RevokedCertificate, TbsCertList};
use der_places::crl::TbsCertListPlaces;
use std::alloc::{AllocError, Global};

/// Adds the fields of the list of revoked certificates in these octets, one line each.
///
/// # Errors
/// As `push_certificate`.
pub fn push_list(alloc: Global, page: &mut Page, octets: &[u8]) -> Result<(), Fault>
    ensures { OnOk result (first_fault (parse_of certificate_list) octets.now ≡ None) }
{
    grammar_of_certificate_list();
    match CertificateList::from_der(alloc, octets) {
        Ok(list) => Ok(push_fields(&mut Printer::new(alloc, page, octets), &list)?),
        Err(error) => Err(refusal(Kind::RevocationList, octets, error)),
    }
}

fn push_fields(printer: &mut Printer<'_>, list: &CertificateList<'_>) -> Result<(), AllocError> {
    let whole = place_of_all(printer.octets);
    push_title(printer, &whole, Kind::RevocationList)?;
    let at = printer.places_of(list, &whole);
    let signed = list.tbs_cert_list();
    let within = printer.places_of(signed, &at.tbs_cert_list);
    push_signed(printer, &within, signed)?;
    push_revoked(printer, &within, signed)?;
    push_signature_rows(
        printer,
        &at.signature_algorithm,
        list.signature_algorithm(),
        &at.signature_value,
        list.signature_value(),
    )?;
    push_list_findings(printer, list, &whole)?;
    let (now, next) = (signed.this_update(), signed.next_update());
    push_currency_at(printer, &within.this_update, now, next)
}

fn push_signed(
    printer: &mut Printer<'_>,
    at: &TbsCertListPlaces,
    signed: &TbsCertList<'_>,
) -> Result<(), AllocError> {
    push_version(printer, &at.version, signed.version().unwrap_or(0))?;
    push_algorithm(
        printer,
        &at.signature,
        FieldName::SignatureAlgorithm,
        signed.signature(),
    )?;
    push_name(printer, &at.issuer, FieldName::Issuer, signed.issuer())?;
    let now = signed.this_update();
    push_moment(printer, &at.this_update, FieldName::ThisUpdate, &now)?;
    match signed.next_update() {
        Some(time) => push_moment(printer, &at.next_update, FieldName::NextUpdate, &time),
        None => Ok(()),
    }
}

/// Adds the entries, and the extensions of the list.
fn push_revoked(
    printer: &mut Printer<'_>,
    at: &TbsCertListPlaces,
    signed: &TbsCertList<'_>,
) -> Result<(), AllocError> {
    if let Some(entries) = signed.revoked_certificates() {
        let list = at.revoked_certificates;
        push_entries(printer, &list, entries)?;
    }
    push_explicit_extensions(
        printer,
        &at.crl_extensions,
        FieldName::Extension,
        signed.crl_extensions(),
    )
}

fn push_entries<'a>(
    printer: &mut Printer<'_>,
    list: &Place,
    entries: &ListRef<'a, RevokedCertificate<'a>>,
) -> Result<(), AllocError> {
    let mut places = printer.items(list);
    for item in entries.iter(printer.alloc) {
        let place = places.next_item().unwrap_or(nowhere());
        printer.begin(&place, FieldName::Revoked)?;
        let Ok(entry) = item else {
            // The item was decoded before, so only memory can run out.
            return Err(AllocError);
        };
        push_entry(printer, &place, &entry)?;
    }
    Ok(())
}

/// Adds the serial number, the time of the revocation and the extensions, and ends the line.
pub fn push_entry(
    printer: &mut Printer<'_>,
    place: &Place,
    entry: &RevokedCertificate<'_>,
) -> Result<(), AllocError> {
    push_serial(printer.page, entry.user_certificate().as_bytes())?;
    printer.push_str(", ")?;
    push_time(printer.page, &entry.revocation_date())?;
    if let Some(extensions) = entry.crl_entry_extensions() {
        let list = printer.places_of(entry, place).crl_entry_extensions;
        push_entry_extensions(printer, &list, extensions)?;
    }
    printer.push('\n')
}

/// Adds the extensions of an entry, each after a comma and in the form of a certificate's
/// extensions.
fn push_entry_extensions(
    printer: &mut Printer<'_>,
    list: &Place,
    extensions: &Extensions<'_>,
) -> Result<(), AllocError> {
    let mut places = printer.items(list);
    for item in extensions.items().iter(printer.alloc) {
        let place = places.next_item().unwrap_or(nowhere());
        let Ok(extension) = item else {
            // The item was decoded before, so only memory can run out.
            return Err(AllocError);
        };
        push_entry_extension(printer, &place, &extension)?;
    }
    Ok(())
}

fn push_entry_extension(
    printer: &mut Printer<'_>,
    place: &Place,
    extension: &Extension<'_>,
) -> Result<(), AllocError> {
    printer.push_str(", extension ")?;
    push_extension(printer, place, extension)
}
