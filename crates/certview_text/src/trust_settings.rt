//! The trust settings that OpenSSL writes after a certificate in a block with the label TRUSTED
//! CERTIFICATE: the uses for which it is trusted, the uses for which it is not, its name and an
//! identifier of its key.

ghost use Rattle.std.specs.Prelude.{◌≤◌, length};

use crate::label::may_have_settings;
use certview_parts::any_values::push_any;
use certview_parts::field_name::FieldName;
use certview_parts::page::push_malformed;
use certview_parts::place::Place;
use certview_parts::printer::Printer;
use certview_parts::rows::{push_length_row, push_malformed_row};
use certview_parts::values::sizes;
use der_asn1_types::FromDer;
use der_asn1_types::asn1::AnyRef;
use std::alloc::AllocError;

/// Returns the number of octets that are the message of a block with this label: all of them, or
/// those of the certificate before the trust settings.
pub fn count_of_message(label: &[u8], octets: &[u8]) -> usize
    ensures { result ≤ length octets.now }
{
    let (_, whole) = sizes(octets);
    if may_have_settings(label) && whole > 0 {
        whole
    } else {
        octets.len()
    }
}

/// Adds the trust settings from this offset on, if there are any: the number of their octets, and
/// a line for each setting.
pub fn push_trust_settings(printer: &mut Printer<'_>, begin: usize) -> Result<(), AllocError> {
    let length = printer.octets.len().saturating_sub(begin);
    if length == 0 {
        return Ok(());
    }
    let place = Place {
        offset: u32::try_from(begin).unwrap_or(u32::MAX),
        length: u32::try_from(length).unwrap_or(u32::MAX),
    };
    let inner = printer.inner_at(&place);
    match Vec::<AnyRef<'_>>::from_der(printer.alloc, inner.octets) {
        Ok(settings) => push_settings(printer, &place, settings.len()),
        Err(error) => push_malformed_row(
            printer,
            &place,
            FieldName::TrustSettings,
            inner.begin,
            error,
        ),
    }
}

/// Adds the number of octets of the settings, and a line for each of the first `count` settings.
fn push_settings(printer: &mut Printer<'_>, list: &Place, count: usize) -> Result<(), AllocError> {
    let octets = printer.octets_at(list);
    push_length_row(printer, list, FieldName::TrustSettings, octets)?;
    let mut items = printer.items(list);
    for _ in 0..count {
        let Some(place) = items.next_item() else {
            break;
        };
        push_setting(printer, &place)?;
    }
    Ok(())
}

/// Adds a setting by its tag: a list of uses, a name or an identifier.
fn push_setting(printer: &mut Printer<'_>, place: &Place) -> Result<(), AllocError> {
    match printer.octets_at(place) {
        [0x30, ..] => push_uses(printer, place, FieldName::TrustedUse),
        [0xa0, ..] => push_uses(printer, place, FieldName::RejectedUse),
        [0x0c, ..] => push_value_row(printer, place, FieldName::Alias),
        [0x04, ..] => push_value_row(printer, place, FieldName::KeyIdentifier),
        _ => push_value_row(printer, place, FieldName::OtherSetting),
    }
}

/// Adds a line for each use in a list.
fn push_uses(printer: &mut Printer<'_>, list: &Place, field: FieldName) -> Result<(), AllocError> {
    let mut items = printer.items(list);
    for _ in 0..list.length {
        let Some(place) = items.next_item() else {
            break;
        };
        push_value_row(printer, &place, field)?;
    }
    Ok(())
}

/// Adds a line with a value, whose tag gives its type.
fn push_value_row(
    printer: &mut Printer<'_>,
    place: &Place,
    field: FieldName,
) -> Result<(), AllocError> {
    printer.begin(place, field)?;
    let inner = printer.inner_at(place);
    match AnyRef::from_der(printer.alloc, inner.octets) {
        Ok(value) => {
            let end = inner.begin.saturating_add(inner.octets.len());
            push_any(printer, Some(end), &value)?
        }
        Err(error) => push_malformed(printer.page, inner.begin, error)?,
    }
    printer.push('\n')
}
