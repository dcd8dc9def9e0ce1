//! The values of the extensions of a revoked entry as text (RFC 5280 section 5.3), except names.

use crate::identifiers::push_identifier_part;
use crate::page::{Inner, push_malformed, push_malformed_inner};
use crate::part_name::PartName;
use crate::printer::Printer;
use crate::times::push_time_part;
use der_asn1_types::FromDer;
use der_asn1_types::asn1::Enumerated;
use der_extensions::extension::{CrlReason, HoldInstructionCode, InvalidityDate};
use std::alloc::AllocError;

/// Adds the reason for the revocation.
pub fn push_reason(printer: &mut Printer<'_>, inner: Inner<'_>) -> Result<(), AllocError> {
    printer.push_str(", ")?;
    match Enumerated::<CrlReason>::from_der(printer.alloc, inner.octets) {
        Ok(reason) => printer
            .page
            .push_part(PartName::Reason, name_of(reason.value)),
        Err(error) => push_malformed(printer.page, inner.begin, error),
    }
}

/// Returns the name of a reason.
pub fn name_of(reason: CrlReason) -> &'static str {
    match reason {
        CrlReason::Unspecified => "unspecified",
        CrlReason::KeyCompromise => "keyCompromise",
        CrlReason::CaCompromise => "cACompromise",
        CrlReason::AffiliationChanged => "affiliationChanged",
        CrlReason::Superseded => "superseded",
        CrlReason::CessationOfOperation => "cessationOfOperation",
        CrlReason::CertificateHold => "certificateHold",
        CrlReason::RemoveFromCrl => "removeFromCRL",
        CrlReason::PrivilegeWithdrawn => "privilegeWithdrawn",
        CrlReason::AaCompromise => "aACompromise",
    }
}

/// Adds the time from which the key was not to be relied on.
pub fn push_invalidity(printer: &mut Printer<'_>, inner: Inner<'_>) -> Result<(), AllocError> {
    printer.push_str(", ")?;
    match InvalidityDate::from_der(printer.alloc, inner.octets) {
        Ok(time) => push_time_part(printer.page, PartName::Time, &time.to_date_time()),
        Err(error) => push_malformed_inner(printer.page, inner, error),
    }
}

/// Adds the instruction for a certificate that is on hold.
pub fn push_instruction(printer: &mut Printer<'_>, inner: Inner<'_>) -> Result<(), AllocError> {
    printer.push_str(", ")?;
    match HoldInstructionCode::from_der(printer.alloc, inner.octets) {
        Ok(code) => push_identifier_part(printer, PartName::Instruction, code.as_bytes()),
        Err(error) => push_malformed(printer.page, inner.begin, error),
    }
}
