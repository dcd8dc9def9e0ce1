//! The status of each certificate in an OCSP response, as text (RFC 6960 section 4.2.1).

use crate::ocsp_certificates::push_certificate_id;
use certview_parts::entries::name_of;
use certview_parts::extension_rows::push_explicit_extensions;
use certview_parts::field_name::FieldName;
use certview_parts::page::Page;
use certview_parts::place::{Place, nowhere};
use certview_parts::printer::Printer;
use certview_parts::rows::push_time_row;
use certview_parts::times::push_date_time;
use der_ocsp::ocsp::{CertStatus, RevokedInfo, SingleResponse, SingleResponses};
use std::alloc::AllocError;

/// Adds the lines of each SingleResponse.
pub fn push_single_responses(
    printer: &mut Printer<'_>,
    list: &Place,
    responses: &SingleResponses<'_>,
) -> Result<(), AllocError> {
    let mut places = printer.items(list);
    for item in responses.items().iter(printer.alloc) {
        let place = places.next_item().unwrap_or(nowhere());
        let Ok(response) = item else {
            // The item was decoded before, so only memory can run out.
            return Err(AllocError);
        };
        push_single_response(printer, &place, &response)?;
    }
    Ok(())
}

fn push_single_response(
    printer: &mut Printer<'_>,
    place: &Place,
    response: &SingleResponse<'_>,
) -> Result<(), AllocError> {
    let at = printer.places_of(response, place);
    push_certificate_id(printer, &at.cert_id, response.cert_id())?;
    printer.begin(&at.cert_status, FieldName::Status)?;
    push_status(printer.page, &response.cert_status())?;
    printer.push('\n')?;
    let time = response.this_update().to_date_time();
    push_time_row(printer, &at.this_update, FieldName::ThisUpdate, &time)?;
    if let Some(time) = response.next_update() {
        push_time_row(
            printer,
            &at.next_update,
            FieldName::NextUpdate,
            &time.to_date_time(),
        )?;
    }
    push_explicit_extensions(
        printer,
        &at.single_extensions,
        FieldName::ExtensionOfThisCertificate,
        response.single_extensions(),
    )
}

fn push_status(page: &mut Page, status: &CertStatus) -> Result<(), AllocError> {
    match status {
        CertStatus::Good(_) => page.text.push_str("good"),
        CertStatus::Revoked(revoked) => push_revoked(page, &revoked.value),
        CertStatus::Unknown(_) => page.text.push_str("unknown"),
    }
}

/// Adds the time and the reason of a revocation.
fn push_revoked(page: &mut Page, revoked: &RevokedInfo) -> Result<(), AllocError> {
    page.text.push_str("revoked, ")?;
    push_date_time(page, &revoked.revocation_time().to_date_time())?;
    match revoked.revocation_reason() {
        Some(reason) => {
            page.text.push_str(", ")?;
            page.text.push_str(name_of(reason))
        }
        None => Ok(()),
    }
}
