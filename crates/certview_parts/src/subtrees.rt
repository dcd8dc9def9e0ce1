//! The value of the extension nameConstraints as text (RFC 5280 section 4.2.1.10).

use crate::other_names::push_name_part;
use crate::page::{Inner, Page};
use crate::part_name::PartName;
use crate::printer::Printer;
use der_asn1_types::FromDer;
use der_extensions::extension::{GeneralSubtree, GeneralSubtrees, NameConstraints};
use std::alloc::AllocError;
use std::fmt::Write;

/// Adds the names that a certificate below may have, and those that it must not have.
pub fn push_name_constraints(
    printer: &mut Printer<'_>,
    inner: Inner<'_>,
) -> Result<(), AllocError> {
    match NameConstraints::from_der(printer.alloc, inner.octets) {
        Ok(constraints) => {
            let (part, subtrees) = (
                PartName::PermittedSubtrees,
                constraints.permitted_subtrees(),
            );
            push_subtrees(printer, part, ", permitted ", subtrees)?;
            let (part, subtrees) = (PartName::ExcludedSubtrees, constraints.excluded_subtrees());
            push_subtrees(printer, part, ", excluded ", subtrees)
        }
        Err(error) => printer.push_malformed_value(inner, error),
    }
}

fn push_subtrees(
    printer: &mut Printer<'_>,
    part: PartName,
    label: &str,
    subtrees: Option<&GeneralSubtrees<'_>>,
) -> Result<(), AllocError> {
    match subtrees {
        Some(subtrees) => push_each(printer, part, label, subtrees),
        None => Ok(()),
    }
}

fn push_each(
    printer: &mut Printer<'_>,
    part: PartName,
    label: &str,
    subtrees: &GeneralSubtrees<'_>,
) -> Result<(), AllocError> {
    printer.page.open_list(part)?;
    for item in subtrees.items().iter(printer.alloc) {
        let Ok(subtree) = item else {
            // The item was decoded before, so only memory can run out.
            return Err(AllocError);
        };
        push_subtree(printer, label, &subtree)?;
    }
    printer.page.close_list()
}

fn push_subtree(
    printer: &mut Printer<'_>,
    label: &str,
    subtree: &GeneralSubtree<'_>,
) -> Result<(), AllocError> {
    printer.push_str(label)?;
    printer.page.open(PartName::Item)?;
    push_name_part(printer, PartName::Base, subtree.base())?;
    push_distances(printer.page, subtree.minimum(), subtree.maximum())?;
    printer.page.close()
}

/// Adds the distances below the base at which the names begin and end, if they are given.
fn push_distances(page: &mut Page, minimum: u8, maximum: Option<u8>) -> Result<(), AllocError> {
    if minimum > 0 {
        push_distance(page, PartName::Minimum, " from ", minimum)?;
    }
    match maximum {
        Some(maximum) => push_distance(page, PartName::Maximum, " to ", maximum),
        None => Ok(()),
    }
}

fn push_distance(
    page: &mut Page,
    part: PartName,
    label: &str,
    distance: u8,
) -> Result<(), AllocError> {
    page.text.push_str(label)?;
    let begin = page.text.len();
    write!(page.text, "{distance}")?;
    page.mark(part, begin)
}
