//! The values of the extensions keyUsage and extKeyUsage as text (RFC 5280 sections 4.2.1.3 and
//! 4.2.1.12), and other named bits.

use crate::identifiers::push_identifier_part;
use crate::page::{Inner, Page};
use crate::part_name::PartName;
use crate::printer::Printer;
use der_asn1_types::FromDer;
use der_asn1_types::asn1::NamedBitsRef;
use der_extensions::extension::{ExtKeyUsageSyntax, KeyUsage};
use std::alloc::AllocError;
use std::fmt::Write;

/// The names of the bits of a KeyUsage, from bit 0 on.
const USAGES: [&str; 9] = [
    "digitalSignature",
    "nonRepudiation",
    "keyEncipherment",
    "dataEncipherment",
    "keyAgreement",
    "keyCertSign",
    "cRLSign",
    "encipherOnly",
    "decipherOnly",
];

/// Adds the names of the set bits.
pub fn push_usage(printer: &mut Printer<'_>, inner: Inner<'_>) -> Result<(), AllocError> {
    match KeyUsage::from_der(printer.alloc, inner.octets) {
        Ok(usage) => push_bits(printer.page, PartName::Usages, &USAGES, usage),
        Err(error) => printer.push_malformed_value(inner, error),
    }
}

/// Adds the names of the set bits, each after a comma, and a part that is the list of these. A
/// bit without a name is shown by its number.
pub fn push_bits(
    page: &mut Page,
    part: PartName,
    names: &[&'static str],
    bits: NamedBitsRef<'_>,
) -> Result<(), AllocError> {
    page.open_list(part)?;
    for (index, name) in names.iter().enumerate() {
        if bits.has(index) {
            push_word(page, name)?;
        }
    }
    push_other_bits(page, names.len(), bits)?;
    page.close_list()
}

/// Adds a word after a comma, and a part that is an item of a list.
pub fn push_word(page: &mut Page, word: &str) -> Result<(), AllocError> {
    page.text.push_str(", ")?;
    page.push_part(PartName::Item, word)
}

fn push_other_bits(
    page: &mut Page,
    first: usize,
    bits: NamedBitsRef<'_>,
) -> Result<(), AllocError> {
    for index in first..bits.as_bit_string().bit_len() {
        if bits.has(index) {
            push_number(page, index)?;
        }
    }
    Ok(())
}

/// Adds the number of a bit after a comma.
fn push_number(page: &mut Page, index: usize) -> Result<(), AllocError> {
    page.text.push_str(", ")?;
    let begin = page.text.len();
    write!(page.text, "bit {index}")?;
    page.mark(PartName::Item, begin)
}

/// Adds the purposes.
pub fn push_purposes(printer: &mut Printer<'_>, inner: Inner<'_>) -> Result<(), AllocError> {
    let purposes = match ExtKeyUsageSyntax::from_der(printer.alloc, inner.octets) {
        Ok(purposes) => purposes,
        Err(error) => return printer.push_malformed_value(inner, error),
    };
    printer.page.open_list(PartName::Purposes)?;
    for item in purposes.items().iter(printer.alloc) {
        match item {
            Ok(purpose) => push_purpose(printer, purpose.as_bytes())?,
            // The item was decoded before, so only memory can run out.
            Err(_) => return Err(AllocError),
        }
    }
    printer.page.close_list()
}

fn push_purpose(printer: &mut Printer<'_>, identifier: &[u8]) -> Result<(), AllocError> {
    printer.push_str(", ")?;
    push_identifier_part(printer, PartName::Item, identifier)
}
