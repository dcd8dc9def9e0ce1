//! Names of other kinds than directory names, as text (RFC 5280 section 4.2.1.6).

use crate::characters::{Behind, push_escaped};
use crate::hexadecimal::push_digits;
use crate::identifiers::{push_identifier, push_identifier_fields, push_identifier_part};
use crate::names::{push_places, push_value};
use crate::page::{Inner, Page};
use crate::part_name::PartName;
use crate::printer::Printer;
use der_asn1_types::{Encode, FromDer};
use der_extensions::extension::{GeneralName, GeneralNames, SubjectAltName};
use std::alloc::AllocError;
use std::fmt::Write;
use std::net::Ipv6Addr;

/// Adds the names; `malformed` and the error if the octets are no names.
pub fn push_other_names(printer: &mut Printer<'_>, inner: Inner<'_>) -> Result<(), AllocError> {
    match SubjectAltName::from_der(printer.alloc, inner.octets) {
        Ok(names) => push_names(printer, PartName::Names, "", &names),
        Err(error) => printer.push_malformed_value(inner, error),
    }
}

/// Adds each of the names, after a comma and the name of its role, and a part that is the list of
/// these.
pub fn push_names(
    printer: &mut Printer<'_>,
    part: PartName,
    of: &str,
    names: &GeneralNames<'_>,
) -> Result<(), AllocError> {
    printer.page.open_list(part)?;
    for item in names.items().iter(printer.alloc) {
        let Ok(name) = item else {
            // The item was decoded before, so only memory can run out.
            return Err(AllocError);
        };
        push_name_of(printer, of, &name)?;
    }
    printer.page.close_list()
}

fn push_name_of(
    printer: &mut Printer<'_>,
    of: &str,
    name: &GeneralName<'_>,
) -> Result<(), AllocError> {
    printer.push_str(", ")?;
    printer.push_str(of)?;
    push_name_part(printer, PartName::Item, name)
}

/// Adds a name as `push_other_name` does, and a part that is an object with its kind and its
/// value.
pub fn push_name_part(
    printer: &mut Printer<'_>,
    part: PartName,
    name: &GeneralName<'_>,
) -> Result<(), AllocError> {
    printer.page.open(part)?;
    printer.page.push_word(PartName::Kind, kind_of(name))?;
    printer.push_str(label_of(name))?;
    push_value_part(printer, name)?;
    printer.page.close()
}

/// Adds the value of a name, and parts that are its type, if it is of another kind, and its value.
fn push_value_part(printer: &mut Printer<'_>, name: &GeneralName<'_>) -> Result<(), AllocError> {
    match name {
        GeneralName::OtherName(other) => {
            let identifier = other.value.type_id();
            push_identifier_part(printer, PartName::TypeId, identifier.as_bytes())?;
            printer.push(' ')?;
            push_contents_part(printer, name)
        }
        GeneralName::RegisteredId(identifier) => {
            push_identifier_fields(printer, PartName::Value, identifier.value.as_bytes())
        }
        _ => push_contents_part(printer, name),
    }
}

fn push_contents_part(printer: &mut Printer<'_>, name: &GeneralName<'_>) -> Result<(), AllocError> {
    let begin = printer.page.text.len();
    push_contents(printer, name)?;
    printer.page.mark(PartName::Value, begin)
}

/// Returns the alternative of a name in RFC 5280.
fn kind_of(name: &GeneralName<'_>) -> PartName {
    match name {
        GeneralName::OtherName(_) => PartName::OtherName,
        GeneralName::Rfc822Name(_) => PartName::Rfc822Name,
        GeneralName::DnsName(_) => PartName::DnsName,
        GeneralName::X400Address(_) => PartName::X400Address,
        GeneralName::DirectoryName(_) => PartName::DirectoryName,
        GeneralName::EdiPartyName(_) => PartName::EdiPartyName,
        GeneralName::UniformResourceIdentifier(_) => PartName::UniformResourceIdentifier,
        GeneralName::IpAddress(_) => PartName::IpAddress,
        GeneralName::RegisteredId(_) => PartName::RegisteredId,
    }
}

/// Returns the words before a name of this kind.
fn label_of(name: &GeneralName<'_>) -> &'static str {
    match name {
        GeneralName::OtherName(_) => "other ",
        GeneralName::Rfc822Name(_) => "mail ",
        GeneralName::DnsName(_) => "host ",
        GeneralName::X400Address(_) => "address of X.400 #",
        GeneralName::DirectoryName(_) => "directory ",
        GeneralName::EdiPartyName(_) => "party of EDI #",
        GeneralName::UniformResourceIdentifier(_) => "resource ",
        GeneralName::IpAddress(_) => "address ",
        GeneralName::RegisteredId(_) => "identifier ",
    }
}

/// Adds a name: its kind and its value. A word may follow it.
pub fn push_other_name(
    printer: &mut Printer<'_>,
    name: &GeneralName<'_>,
) -> Result<(), AllocError> {
    printer.push_str(label_of(name))?;
    if let GeneralName::OtherName(other) = name {
        let identifier = other.value.type_id();
        push_identifier(printer, identifier.as_bytes())?;
        printer.push(' ')?;
    }
    push_contents(printer, name)
}

/// Adds the value of a name, without its kind.
fn push_contents(printer: &mut Printer<'_>, name: &GeneralName<'_>) -> Result<(), AllocError> {
    match name {
        GeneralName::OtherName(other) => push_value(printer, other.value.value(), Behind::Word),
        GeneralName::Rfc822Name(mail) => push_text(printer.page, mail.value.as_str()),
        GeneralName::DnsName(host) => push_text(printer.page, host.value.as_str()),
        GeneralName::DirectoryName(directory) => {
            push_places(printer, &directory.fields.first, Behind::Word)
        }
        GeneralName::UniformResourceIdentifier(resource) => {
            push_text(printer.page, resource.value.as_str())
        }
        GeneralName::IpAddress(address) => push_address(printer.page, address.value.as_bytes()),
        GeneralName::RegisteredId(identifier) => {
            push_identifier(printer, identifier.value.as_bytes())
        }
        GeneralName::X400Address(_) | GeneralName::EdiPartyName(_) => push_whole(printer, name),
    }
}

/// Adds a name of a kind that is kept as it is encoded: its encoding.
fn push_whole(printer: &mut Printer<'_>, name: &GeneralName<'_>) -> Result<(), AllocError> {
    match name.to_der(printer.alloc) {
        Ok(octets) => push_digits(printer.page, octets.as_slice()),
        Err(_) => Err(AllocError),
    }
}

fn push_text(page: &mut Page, name: &str) -> Result<(), AllocError> {
    push_escaped(page, name, Behind::Word)
}

/// Adds an address: four octets as four numbers, sixteen octets in the form of RFC 5952, a range
/// as its first address and its mask (RFC 5280 section 4.2.1.10); else `#` and the octets.
fn push_address(page: &mut Page, octets: &[u8]) -> Result<(), AllocError> {
    match octets.len() {
        4 | 16 => push_one_address(page, octets),
        8 | 32 => {
            let (address, mask) = octets.split_at(octets.len() / 2);
            push_one_address(page, address)?;
            page.text.push('/')?;
            push_one_address(page, mask)
        }
        _ => push_one_address(page, octets),
    }
}

fn push_one_address(page: &mut Page, octets: &[u8]) -> Result<(), AllocError> {
    if let [a, b, c, d] = octets {
        return write!(page.text, "{a}.{b}.{c}.{d}");
    }
    let mut address = [0; 16];
    if octets.len() != address.len() {
        page.text.push('#')?;
        return push_digits(page, octets);
    }
    address.copy_from_slice(octets);
    let address = Ipv6Addr::from_octets(address);
    write!(page.text, "{address}")
}
