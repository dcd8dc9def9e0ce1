//! Extensions of messages that are held whole, one line each.

use crate::extensions::push_extension;
use crate::field_name::FieldName;
use crate::place::{Place, nowhere};
use crate::printer::Printer;
use crate::rows::push_malformed_row;
use der_asn1_types::FromDer;
use der_pkix::certificate::{Extension, Extensions};
use std::alloc::AllocError;

/// Adds a line for each extension of a list.
pub fn push_extension_rows(
    printer: &mut Printer<'_>,
    list: &Place,
    field: FieldName,
    extensions: &Extensions<'_>,
) -> Result<(), AllocError> {
    let mut places = printer.items(list);
    for item in extensions.items().iter(printer.alloc) {
        let place = places.next_item().unwrap_or(nowhere());
        let Ok(extension) = item else {
            // The item was decoded before, so only memory can run out.
            return Err(AllocError);
        };
        push_extension_row(printer, &place, field, &extension)?;
    }
    Ok(())
}

fn push_extension_row(
    printer: &mut Printer<'_>,
    place: &Place,
    field: FieldName,
    extension: &Extension<'_>,
) -> Result<(), AllocError> {
    printer.begin(place, field)?;
    push_extension(printer, place, extension)?;
    printer.push('\n')
}

/// Adds a line for each extension of a list after an explicit tag. The list may be absent.
pub fn push_explicit_extensions(
    printer: &mut Printer<'_>,
    place: &Place,
    field: FieldName,
    extensions: Option<&Extensions<'_>>,
) -> Result<(), AllocError> {
    match extensions {
        Some(extensions) => {
            let list = printer.contents_of(*place);
            push_extension_rows(printer, &list, field, extensions)
        }
        None => Ok(()),
    }
}

/// Adds the lines of the extensions in this byte range.
pub fn push_read_extensions(printer: &mut Printer<'_>, list: &Place) -> Result<(), AllocError> {
    let inner = printer.inner_at(list);
    match Extensions::from_der(printer.alloc, inner.octets) {
        Ok(extensions) => { push_extension_rows(printer, list, FieldName::Extension, &extensions) }
        Err(error) => push_malformed_row(printer, list, FieldName::Extensions, inner.begin, error),
    }
}
