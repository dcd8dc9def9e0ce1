//! Extensions as text.

use crate::access::push_access;
use crate::attributes::push_directory_attributes;
use crate::constraints::{push_constraints, push_number, push_policy_constraints};
use crate::entries::{push_instruction, push_invalidity, push_reason};
use crate::hexadecimal::push_digits;
use crate::identifiers::push_identifier_part;
use crate::key_identifiers::{push_authority_key, push_subject_key};
use crate::other_names::push_other_names;
use crate::page::{Inner, Page};
use crate::part_name::PartName;
use crate::periods::push_period;
use crate::place::Place;
use crate::points::{push_issuing_point, push_points};
use crate::policies::{push_mappings, push_policies};
use crate::printer::Printer;
use crate::private_extensions::push_private;
use crate::subtrees::push_name_constraints;
use crate::usages::{push_purposes, push_usage};
use der_extensions::extension::constants::{
    self, ID_CE_AUTHORITY_KEY_IDENTIFIER, ID_CE_BASIC_CONSTRAINTS, ID_CE_CERTIFICATE_ISSUER,
    ID_CE_CERTIFICATE_POLICIES, ID_CE_CRL_DISTRIBUTION_POINTS, ID_CE_CRL_NUMBER, ID_CE_CRL_REASONS,
    ID_CE_DELTA_CRL_INDICATOR, ID_CE_EXT_KEY_USAGE, ID_CE_FRESHEST_CRL,
    ID_CE_HOLD_INSTRUCTION_CODE, ID_CE_INHIBIT_ANY_POLICY, ID_CE_INVALIDITY_DATE,
    ID_CE_ISSUER_ALT_NAME, ID_CE_ISSUING_DISTRIBUTION_POINT, ID_CE_KEY_USAGE,
    ID_CE_NAME_CONSTRAINTS, ID_CE_POLICY_CONSTRAINTS, ID_CE_POLICY_MAPPINGS,
    ID_CE_PRIVATE_KEY_USAGE_PERIOD, ID_CE_SUBJECT_ALT_NAME, ID_CE_SUBJECT_DIRECTORY_ATTRIBUTES,
    ID_CE_SUBJECT_KEY_IDENTIFIER,
};
use der_pkix::certificate::Extension;
use std::alloc::AllocError;
use std::fmt::Write;

/// The identifier of authorityInfoAccess (RFC 5280 section 4.2.2.1).
const ID_PE_AUTHORITY_INFO_ACCESS: &[u8] = &constants::ID_PE_AUTHORITY_INFO_ACCESS;

/// The identifier of subjectInfoAccess (RFC 5280 section 4.2.2.2).
const ID_PE_SUBJECT_INFO_ACCESS: &[u8] = &constants::ID_PE_SUBJECT_INFO_ACCESS;

/// Adds an extension: its identifier, whether it is critical, and its value; and a part with
/// these.
pub fn push_extension(
    printer: &mut Printer<'_>,
    place: &Place,
    extension: &Extension<'_>,
) -> Result<(), AllocError> {
    let identifier = extension.extn_id();
    printer.page.open(PartName::Item)?;
    push_identifier_part(printer, PartName::ExtnId, identifier.as_bytes())?;
    let is_critical = extension.critical();
    printer.page.push_flag(PartName::Critical, is_critical)?;
    if is_critical {
        printer.push_str(", critical")?;
    }
    let octets = extension.extn_value().as_bytes();
    let count = octets.len();
    write!(printer.page.text, ", {count} octets")?;
    let begin = (place.behind() as usize).saturating_sub(count);
    printer.page.open(PartName::ExtnValue)?;
    push_value(printer, identifier.as_bytes(), Inner { octets, begin })?;
    printer.page.close()?;
    printer.page.close()
}

/// Adds the meaning of the octets of an extension's value, or the octets if the extension is
/// unknown.
fn push_value(
    printer: &mut Printer<'_>,
    identifier: &[u8],
    inner: Inner<'_>,
) -> Result<(), AllocError> {
    match identifier {
        [a, b, c] => push_value_of(printer, [*a, *b, *c], inner),
        ID_PE_AUTHORITY_INFO_ACCESS | ID_PE_SUBJECT_INFO_ACCESS => push_access(printer, inner),
        _ => push_private(printer, identifier, inner),
    }
}

/// Adds the meaning of the octets of an extension's value if its identifier has three octets, as
/// those of RFC 5280 sections 4.2.1, 5.2 and 5.3 have.
fn push_value_of(
    printer: &mut Printer<'_>,
    identifier: [u8; 3],
    inner: Inner<'_>,
) -> Result<(), AllocError> {
    match identifier {
        ID_CE_SUBJECT_DIRECTORY_ATTRIBUTES => push_directory_attributes(printer, inner),
        ID_CE_SUBJECT_KEY_IDENTIFIER => push_subject_key(printer, inner),
        ID_CE_KEY_USAGE => push_usage(printer, inner),
        ID_CE_PRIVATE_KEY_USAGE_PERIOD => push_period(printer, inner),
        ID_CE_SUBJECT_ALT_NAME | ID_CE_ISSUER_ALT_NAME | ID_CE_CERTIFICATE_ISSUER => {
            push_other_names(printer, inner)
        }
        ID_CE_BASIC_CONSTRAINTS => push_constraints(printer, inner),
        ID_CE_CRL_NUMBER | ID_CE_DELTA_CRL_INDICATOR | ID_CE_INHIBIT_ANY_POLICY => {
            push_number(printer, inner)
        }
        ID_CE_CRL_REASONS => push_reason(printer, inner),
        ID_CE_HOLD_INSTRUCTION_CODE => push_instruction(printer, inner),
        ID_CE_INVALIDITY_DATE => push_invalidity(printer, inner),
        ID_CE_ISSUING_DISTRIBUTION_POINT => push_issuing_point(printer, inner),
        ID_CE_NAME_CONSTRAINTS => push_name_constraints(printer, inner),
        ID_CE_CRL_DISTRIBUTION_POINTS | ID_CE_FRESHEST_CRL => push_points(printer, inner),
        ID_CE_CERTIFICATE_POLICIES => push_policies(printer, inner),
        ID_CE_POLICY_MAPPINGS => push_mappings(printer, inner),
        ID_CE_AUTHORITY_KEY_IDENTIFIER => push_authority_key(printer, inner),
        ID_CE_POLICY_CONSTRAINTS => push_policy_constraints(printer, inner),
        ID_CE_EXT_KEY_USAGE => push_purposes(printer, inner),
        _ => push_unknown(printer.page, inner),
    }
}

/// Adds the octets of a value.
pub fn push_unknown(page: &mut Page, inner: Inner<'_>) -> Result<(), AllocError> {
    page.text.push_str(", #")?;
    let begin = page.text.len();
    push_digits(page, inner.octets)?;
    page.mark(PartName::Octets, begin)
}
