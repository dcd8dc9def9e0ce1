//! A CMS message as text.

ghost use Rattle.std.specs.Prelude.{◌≡◌, None, OnOk};
ghost use Rattle.der_modules.specs.Asn1.{parse_of};
ghost use Rattle.der_cms.specs.Cms.Grammar.{content_info};
ghost use Rattle.certview_text.specs.Faults.{first_fault};

use crate::contents::push_content;
use crate::fault::{Fault, refusal};
use crate::kind::Kind;
use crate::whole::push_title;
use certview_parts::field_name::FieldName;
use certview_parts::page::Page;
use certview_parts::place::place_of_all;
use certview_parts::printer::Printer;
use certview_parts::rows::push_identifier_row;
use der_asn1_types::FromDer;
use der_cms::cms::ContentInfo;
use der_cms::cms::laws::grammar_of_content_info;
use std::alloc::{AllocError, Global};

/// Adds the fields of the ContentInfo in these octets, one line each, and the fields of its
/// content by its type.
///
/// # Errors
/// `Refused` with the first error in the octets, in the order of the fields; with
/// `ErrorKind::TrailingData` (3) if octets are left over; with `ErrorKind::Overflow` (9) if there
/// are more than 4294967295 octets. `Memory` if memory runs out.
pub fn push_cms(alloc: Global, page: &mut Page, octets: &[u8]) -> Result<(), Fault>
    ensures { OnOk result (first_fault (parse_of content_info) octets.now ≡ None) }
{
    grammar_of_content_info();
    match ContentInfo::from_der(alloc, octets) {
        Ok(message) => Ok(push_fields(&mut Printer::new(alloc, page, octets), &message)?),
        Err(error) => Err(refusal(Kind::Cms, octets, error)),
    }
}

fn push_fields(printer: &mut Printer<'_>, message: &ContentInfo<'_>) -> Result<(), AllocError> {
    let whole = place_of_all(printer.octets);
    let at = printer.places_of(message, &whole);
    push_title(printer, &whole, Kind::Cms)?;
    let identifier = message.content_type().as_bytes();
    push_identifier_row(
        printer,
        &at.content_type,
        FieldName::ContentType,
        identifier,
    )?;
    let content = printer.contents_of(at.content);
    push_content(printer, &content, identifier)
}
