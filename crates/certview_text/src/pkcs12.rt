//! A PKCS #12 file as text, as far as it is not encrypted.

ghost use Rattle.std.specs.Prelude.{◌≡◌, None, OnOk};
ghost use Rattle.der_modules.specs.Asn1.{parse_of};
ghost use Rattle.der_pkcs.specs.Pkcs12.Grammar.{pfx};
ghost use Rattle.certview_text.specs.Faults.{first_fault};

use crate::bags::push_bags;
use crate::contents::push_content;
use crate::fault::{Fault, refusal};
use crate::keys::push_version;
use crate::kind::Kind;
use crate::whole::push_title;
use certview_parts::algorithms::push_algorithm;
use certview_parts::field_name::FieldName;
use certview_parts::page::Page;
use certview_parts::place::{Place, nowhere, place_of_all};
use certview_parts::printer::Printer;
use certview_parts::rows::{
    push_identifier_row, push_integer_row, push_malformed_row, push_octets_row,
};
use der_asn1_types::FromDer;
use der_cms::cms::constants::ID_DATA;
use der_pkcs::pkcs12::laws::grammar_of_pfx;
use der_pkcs::pkcs12::{AuthenticatedSafe, ContentInfo, MacData, Pfx};
use std::alloc::{AllocError, Global};

/// Adds the fields of the PFX in these octets, one line each.
///
/// # Errors
/// `Refused` with the first error in the octets, in the order of the fields; with
/// `ErrorKind::TrailingData` (3) if octets are left over; with `ErrorKind::Overflow` (9) if there
/// are more than 4294967295 octets. `Memory` if memory runs out.
pub fn push_pfx(alloc: Global, page: &mut Page, octets: &[u8]) -> Result<(), Fault>
    ensures { OnOk result (first_fault (parse_of pfx) octets.now ≡ None) }
{
    grammar_of_pfx();
    match Pfx::from_der(alloc, octets) {
        Ok(file) => Ok(push_fields(&mut Printer::new(alloc, page, octets), &file)?),
        Err(error) => Err(refusal(Kind::Pkcs12, octets, error)),
    }
}

fn push_fields(printer: &mut Printer<'_>, file: &Pfx<'_>) -> Result<(), AllocError> {
    let whole = place_of_all(printer.octets);
    let at = printer.places_of(file, &whole);
    push_title(printer, &whole, Kind::Pkcs12)?;
    push_version(printer, &at.version, file.version())?;
    push_safe(printer, &at.auth_safe, file.auth_safe())?;
    match file.mac_data() {
        Some(mac) => push_mac(printer, &at.mac_data, mac),
        None => Ok(()),
    }
}

/// Adds the type of the whole content. The octets of data are an AuthenticatedSafe.
fn push_safe(
    printer: &mut Printer<'_>,
    place: &Place,
    content: &ContentInfo<'_>,
) -> Result<(), AllocError> {
    let at = printer.places_of(content, place);
    let identifier = content.content_type().as_bytes();
    push_identifier_row(
        printer,
        &at.content_type,
        FieldName::ContentType,
        identifier,
    )?;
    if content.content().is_none() {
        return Ok(());
    }
    let value = printer.contents_of(at.content);
    if identifier != ID_DATA.as_slice() {
        return push_content(printer, &value, identifier);
    }
    let inner = printer.contents_at(&value);
    match AuthenticatedSafe::from_der(printer.alloc, inner.octets) {
        Ok(contents) => {
            let list = printer.contents_of(value);
            push_contents(printer, &list, &contents)
        }
        Err(error) => push_malformed_row(printer, &value, FieldName::Contents, inner.begin, error),
    }
}

fn push_contents(
    printer: &mut Printer<'_>,
    list: &Place,
    contents: &AuthenticatedSafe<'_>,
) -> Result<(), AllocError> {
    let mut places = printer.items(list);
    for item in contents.items().iter(printer.alloc) {
        let place = places.next_item().unwrap_or(nowhere());
        let Ok(content) = item else {
            // The item was decoded before, so only memory can run out.
            return Err(AllocError);
        };
        push_one_content(printer, &place, &content)?;
    }
    Ok(())
}

/// Adds the type of one content. The octets of data are bags.
fn push_one_content(
    printer: &mut Printer<'_>,
    place: &Place,
    content: &ContentInfo<'_>,
) -> Result<(), AllocError> {
    let at = printer.places_of(content, place);
    let identifier = content.content_type().as_bytes();
    push_identifier_row(
        printer,
        &at.content_type,
        FieldName::ContentType,
        identifier,
    )?;
    if content.content().is_none() {
        return Ok(());
    }
    let value = printer.contents_of(at.content);
    if identifier == ID_DATA.as_slice() {
        push_bags(printer, &value)
    } else {
        push_content(printer, &value, identifier)
    }
}

/// Adds the algorithm that authenticates the file. The number of iterations is one if it is
/// absent.
fn push_mac(printer: &mut Printer<'_>, place: &Place, mac: &MacData<'_>) -> Result<(), AllocError> {
    let at = printer.places_of(mac, place);
    let info = mac.mac();
    let within = printer.places_of(info, &at.mac);
    push_algorithm(
        printer,
        &within.digest_algorithm,
        FieldName::MacAlgorithm,
        info.digest_algorithm(),
    )?;
    push_octets_row(
        printer,
        &within.digest,
        FieldName::Mac,
        info.digest().as_bytes(),
    )?;
    push_octets_row(
        printer,
        &at.mac_salt,
        FieldName::Salt,
        mac.mac_salt().as_bytes(),
    )?;
    let iterations = mac.iterations().unwrap_or(1);
    push_integer_row(printer, &at.iterations, FieldName::Iterations, iterations)
}
