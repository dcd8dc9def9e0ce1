//! The values of extensions that are numbers or contain some, as text (RFC 5280 sections 4.2.1.9,
//! 4.2.1.11, 4.2.1.14, 5.2.3 and 5.2.4).

use crate::hexadecimal::push_number_of;
use crate::page::{Inner, Page, push_malformed};
use crate::part_name::PartName;
use crate::printer::Printer;
use der_asn1_types::FromDer;
use der_asn1_types::asn1::UintRef;
use der_extensions::extension::{BasicConstraints, PolicyConstraints};
use std::alloc::AllocError;

/// Adds whether the key may sign certificates, and how many more certificates may follow.
pub fn push_constraints(printer: &mut Printer<'_>, inner: Inner<'_>) -> Result<(), AllocError> {
    printer.push_str(", ")?;
    match BasicConstraints::from_der(printer.alloc, inner.octets) {
        Ok(constraints) => push_authority(printer.page, &constraints),
        Err(error) => push_malformed(printer.page, inner.begin, error),
    }
}

fn push_authority(page: &mut Page, constraints: &BasicConstraints<'_>) -> Result<(), AllocError> {
    let is_authority = constraints.ca();
    page.push_flag(PartName::Ca, is_authority)?;
    if is_authority {
        page.text.push_str("CA")?;
    } else {
        page.text.push_str("no CA")?;
    }
    let number = constraints.path_len_constraint();
    push_count(page, PartName::PathLenConstraint, "path length", number)
}

/// Adds the number of certificates after which a policy is required, and the number after which
/// mappings are not allowed.
pub fn push_policy_constraints(
    printer: &mut Printer<'_>,
    inner: Inner<'_>,
) -> Result<(), AllocError> {
    match PolicyConstraints::from_der(printer.alloc, inner.octets) {
        Ok(constraints) => {
            let explicit = constraints.require_explicit_policy();
            let part = PartName::RequireExplicitPolicy;
            push_count(printer.page, part, "explicit policy after", explicit)?;
            let mapping = constraints.inhibit_policy_mapping();
            let part = PartName::InhibitPolicyMapping;
            push_count(printer.page, part, "no mapping after", mapping)
        }
        Err(error) => printer.push_malformed_value(inner, error),
    }
}

fn push_count(
    page: &mut Page,
    part: PartName,
    label: &str,
    number: Option<&UintRef<'_>>,
) -> Result<(), AllocError> {
    match number {
        Some(number) => {
            page.text.push_str(", ")?;
            page.text.push_str(label)?;
            page.text.push(' ')?;
            push_number_part(page, part, number)
        }
        None => Ok(()),
    }
}

fn push_number_part(
    page: &mut Page,
    part: PartName,
    number: &UintRef<'_>,
) -> Result<(), AllocError> {
    let begin = page.text.len();
    push_number_of(page, number.as_bytes())?;
    page.mark(part, begin)
}

/// Adds a number: the number of a list, the number of a delta's base list, or the number of
/// certificates after which no policy matches any other.
pub fn push_number(printer: &mut Printer<'_>, inner: Inner<'_>) -> Result<(), AllocError> {
    printer.push_str(", ")?;
    match UintRef::from_der(printer.alloc, inner.octets) {
        Ok(number) => push_number_part(printer.page, PartName::Number, &number),
        Err(error) => push_malformed(printer.page, inner.begin, error),
    }
}
