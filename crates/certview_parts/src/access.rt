//! The values of the extensions authorityInfoAccess and subjectInfoAccess as text (RFC 5280
//! sections 4.2.2.1 and 4.2.2.2). Both have one form.

use crate::identifiers::push_identifier_part;
use crate::other_names::push_name_part;
use crate::page::Inner;
use crate::part_name::PartName;
use crate::printer::Printer;
use der_asn1_types::FromDer;
use der_extensions::extension::{AccessDescription, AuthorityInfoAccessSyntax};
use std::alloc::AllocError;

/// Adds each access method and its location.
pub fn push_access(printer: &mut Printer<'_>, inner: Inner<'_>) -> Result<(), AllocError> {
    let ways = match AuthorityInfoAccessSyntax::from_der(printer.alloc, inner.octets) {
        Ok(ways) => ways,
        Err(error) => return printer.push_malformed_value(inner, error),
    };
    printer.page.open_list(PartName::Descriptions)?;
    for item in ways.items().iter(printer.alloc) {
        let Ok(way) = item else {
            // The item was decoded before, so only memory can run out.
            return Err(AllocError);
        };
        push_way(printer, &way)?;
    }
    printer.page.close_list()
}

fn push_way(printer: &mut Printer<'_>, way: &AccessDescription<'_>) -> Result<(), AllocError> {
    printer.push_str(", ")?;
    printer.page.open(PartName::Item)?;
    let method = way.access_method();
    push_identifier_part(printer, PartName::AccessMethod, method.as_bytes())?;
    printer.push(' ')?;
    push_name_part(printer, PartName::AccessLocation, way.access_location())?;
    printer.page.close()
}
