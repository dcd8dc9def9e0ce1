//! The values of the extensions cRLDistributionPoints and freshestCRL as text (RFC 5280 sections
//! 4.2.1.13 and 4.2.1.15), which have one form, and of issuingDistributionPoint (section 5.2.5).

use crate::characters::Behind;
use crate::names::push_attributes;
use crate::other_names::push_names;
use crate::page::{Inner, Page};
use crate::part_name::PartName;
use crate::printer::Printer;
use crate::usages::push_bits;
use der_asn1_types::FromDer;
use der_extensions::extension::{
    CrlDistributionPoints, DistributionPoint, DistributionPointName, IssuingDistributionPoint,
    ReasonFlags,
};
use std::alloc::AllocError;

/// The names of the bits of a ReasonFlags, from bit 0 on.
const REASONS: [&str; 9] = [
    "unused",
    "keyCompromise",
    "cACompromise",
    "affiliationChanged",
    "superseded",
    "cessationOfOperation",
    "certificateHold",
    "privilegeWithdrawn",
    "aACompromise",
];

/// Adds the locations of lists.
pub fn push_points(printer: &mut Printer<'_>, inner: Inner<'_>) -> Result<(), AllocError> {
    let points = match CrlDistributionPoints::from_der(printer.alloc, inner.octets) {
        Ok(points) => points,
        Err(error) => return printer.push_malformed_value(inner, error),
    };
    printer.page.open_list(PartName::Points)?;
    for item in points.items().iter(printer.alloc) {
        let Ok(point) = item else {
            // The item was decoded before, so only memory can run out.
            return Err(AllocError);
        };
        push_point(printer, &point)?;
    }
    printer.page.close_list()
}

fn push_point(printer: &mut Printer<'_>, point: &DistributionPoint<'_>) -> Result<(), AllocError> {
    printer.page.open(PartName::Item)?;
    if let Some(name) = point.distribution_point() {
        push_point_name(printer, name)?;
    }
    let reasons = point.reasons();
    push_reasons(printer.page, PartName::Reasons, ", reasons", reasons)?;
    if let Some(names) = point.crl_issuer() {
        push_names(printer, PartName::CrlIssuer, "issuer ", names)?;
    }
    printer.page.close()
}

/// Adds the names of reasons after a label, if they are given.
fn push_reasons(
    page: &mut Page,
    part: PartName,
    label: &str,
    reasons: Option<&ReasonFlags<'_>>,
) -> Result<(), AllocError> {
    match reasons {
        Some(reasons) => {
            page.text.push_str(label)?;
            push_bits(page, part, &REASONS, *reasons)
        }
        None => Ok(()),
    }
}

/// Adds the location of a list that has this extension, and the scope of its entries.
pub fn push_issuing_point(printer: &mut Printer<'_>, inner: Inner<'_>) -> Result<(), AllocError> {
    match IssuingDistributionPoint::from_der(printer.alloc, inner.octets) {
        Ok(point) => {
            if let Some(name) = point.distribution_point() {
                push_point_name(printer, name)?;
            }
            push_scope(printer.page, &point)
        }
        Err(error) => printer.push_malformed_value(inner, error),
    }
}

/// Adds the scope of a list's entries, if it is limited.
fn push_scope(page: &mut Page, point: &IssuingDistributionPoint<'_>) -> Result<(), AllocError> {
    let users = point.only_contains_user_certs();
    let part = PartName::OnlyContainsUserCerts;
    push_if(page, part, users, ", only user certificates")?;
    let authorities = point.only_contains_ca_certs();
    let part = PartName::OnlyContainsCaCerts;
    push_if(page, part, authorities, ", only CA certificates")?;
    let (part, reasons) = (PartName::OnlySomeReasons, point.only_some_reasons());
    push_reasons(page, part, ", only some reasons", reasons)?;
    push_if(
        page,
        PartName::IndirectCrl,
        point.indirect_crl(),
        ", indirect",
    )?;
    let attributes = point.only_contains_attribute_certs();
    let part = PartName::OnlyContainsAttributeCerts;
    push_if(page, part, attributes, ", only attribute certificates")
}

fn push_if(page: &mut Page, part: PartName, is_so: bool, words: &str) -> Result<(), AllocError> {
    page.push_flag(part, is_so)?;
    if is_so {
        page.text.push_str(words)
    } else {
        Ok(())
    }
}

fn push_point_name(
    printer: &mut Printer<'_>,
    name: &DistributionPointName<'_>,
) -> Result<(), AllocError> {
    match name {
        DistributionPointName::FullName(names) => {
            push_names(printer, PartName::FullName, "", &names.value)
        }
        DistributionPointName::NameRelativeToCrlIssuer(name) => {
            printer.push_str(", relative ")?;
            let begin = printer.page.text.len();
            push_attributes(printer, &name.value, Behind::Mark)?;
            printer.page.mark(PartName::NameRelativeToCrlIssuer, begin)
        }
    }
}
