//! The value of the extension subjectDirectoryAttributes as text (RFC 5280 section 4.2.1.8).

use crate::characters::Behind;
use crate::identifiers::push_attribute_type;
use crate::names::push_value;
use crate::page::Inner;
use crate::part_name::PartName;
use crate::printer::Printer;
use der_asn1_types::FromDer;
use der_asn1_types::asn1::AnyRef;
use der_extensions::extension::SubjectDirectoryAttributes;
use der_pkix::name::Attribute;
use std::alloc::AllocError;

/// Adds each attribute, with its values in the form that they have in names.
pub fn push_directory_attributes(
    printer: &mut Printer<'_>,
    inner: Inner<'_>,
) -> Result<(), AllocError> {
    let attributes = match SubjectDirectoryAttributes::from_der(printer.alloc, inner.octets) {
        Ok(attributes) => attributes,
        Err(error) => return printer.push_malformed_value(inner, error),
    };
    printer.page.open_list(PartName::Attributes)?;
    for item in attributes.items().iter(printer.alloc) {
        let Ok(attribute) = item else {
            // The item was decoded before, so only memory can run out.
            return Err(AllocError);
        };
        push_attribute(printer, &attribute)?;
    }
    printer.page.close_list()
}

/// Adds an attribute: its type, then its values, the first after a `=` and each other one after a
/// `+`.
fn push_attribute(printer: &mut Printer<'_>, attribute: &Attribute<'_>) -> Result<(), AllocError> {
    printer.push_str(", ")?;
    printer.page.open(PartName::Item)?;
    let identifier = attribute.type_();
    push_type(printer, identifier.as_bytes())?;
    printer.page.open_list(PartName::Values)?;
    let mut mark = '=';
    for item in attribute.values().iter(printer.alloc) {
        let Ok(value) = item else {
            // The item was decoded before, so only memory can run out.
            return Err(AllocError);
        };
        push_marked(printer, mark, &value)?;
        mark = '+';
    }
    printer.page.close_list()?;
    printer.page.close()
}

fn push_type(printer: &mut Printer<'_>, identifier: &[u8]) -> Result<(), AllocError> {
    let begin = printer.page.text.len();
    push_attribute_type(printer, identifier)?;
    printer.page.mark(PartName::Type, begin)
}

/// Adds a value after a mark.
fn push_marked(
    printer: &mut Printer<'_>,
    mark: char,
    value: &AnyRef<'_>,
) -> Result<(), AllocError> {
    printer.push(mark)?;
    let begin = printer.page.text.len();
    push_value(printer, value, Behind::Mark)?;
    printer.page.mark(PartName::Item, begin)
}
