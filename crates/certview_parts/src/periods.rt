//! The value of the extension privateKeyUsagePeriod as text (RFC 3280 section 4.2.1.4).

use crate::page::{Inner, Page, push_malformed_inner};
use crate::part_name::PartName;
use crate::printer::Printer;
use crate::times::push_time_part;
use der_asn1_types::FromDer;
use der_asn1_types::asn1::GeneralizedTime;
use der_extensions::extension::PrivateKeyUsagePeriod;
use std::alloc::AllocError;

/// Adds the times between which the private key may be used.
pub fn push_period(printer: &mut Printer<'_>, inner: Inner<'_>) -> Result<(), AllocError> {
    match PrivateKeyUsagePeriod::from_der(printer.alloc, inner.octets) {
        Ok(period) => {
            let (begin, end) = (period.not_before(), period.not_after());
            push_end(printer.page, PartName::NotBefore, ", not before ", begin)?;
            push_end(printer.page, PartName::NotAfter, ", not after ", end)
        }
        Err(error) => {
            printer.push_str(", ")?;
            push_malformed_inner(printer.page, inner, error)
        }
    }
}

fn push_end(
    page: &mut Page,
    part: PartName,
    label: &str,
    time: Option<GeneralizedTime>,
) -> Result<(), AllocError> {
    match time {
        Some(time) => {
            page.text.push_str(label)?;
            push_time_part(page, part, &time.to_date_time())
        }
        None => Ok(()),
    }
}
