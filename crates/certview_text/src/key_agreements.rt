//! Recipients that use key agreement, as text (RFC 5652 section 6.2.2).

use crate::keys::push_version;
use crate::recipients::{push_encrypted_key, push_key_encryption};
use crate::signers::push_issued;
use certview_parts::algorithms::push_key;
use certview_parts::field_name::FieldName;
use certview_parts::hexadecimal::push_with_colons;
use certview_parts::place::{Place, nowhere};
use certview_parts::printer::Printer;
use certview_parts::rows::push_octets_row;
use der_enveloped::enveloped::{
    KeyAgreeRecipientIdentifier, KeyAgreeRecipientInfo, OriginatorIdentifierOrKey,
    RecipientEncryptedKey, RecipientEncryptedKeys,
};
use std::alloc::AllocError;

/// Adds the lines of a recipient that uses key agreement: the lines of the sender's key and those
/// of each encrypted key.
pub fn push_agreement(
    printer: &mut Printer<'_>,
    place: &Place,
    agreed: &KeyAgreeRecipientInfo<'_>,
) -> Result<(), AllocError> {
    let at = printer.places_of(agreed, place);
    printer.begin(place, FieldName::Recipients)?;
    printer.push_str("by key agreement\n")?;
    push_version(printer, &at.version, agreed.version())?;
    let originator = printer.contents_of(at.originator);
    push_originator_key(printer, &originator, agreed.originator())?;
    if let Some(material) = agreed.ukm() {
        push_octets_row(
            printer,
            &at.ukm,
            FieldName::KeyingMaterial,
            material.as_bytes(),
        )?;
    }
    let algorithm = agreed.key_encryption_algorithm();
    push_key_encryption(printer, &at.key_encryption_algorithm, algorithm)?;
    push_encrypted_keys(
        printer,
        &at.recipient_encrypted_keys,
        agreed.recipient_encrypted_keys(),
    )
}

/// Adds the name of the sender's key, or the key itself.
fn push_originator_key(
    printer: &mut Printer<'_>,
    place: &Place,
    originator: &OriginatorIdentifierOrKey<'_>,
) -> Result<(), AllocError> {
    match originator {
        OriginatorIdentifierOrKey::IssuerAndSerialNumber(issued) => {
            printer.begin(place, FieldName::Originator)?;
            push_issued(printer, issued)?;
            printer.push('\n')
        }
        OriginatorIdentifierOrKey::SubjectKeyIdentifier(key) => {
            printer.begin(place, FieldName::Originator)?;
            printer.push_str("key ")?;
            push_with_colons(printer.page, key.value.as_bytes())?;
            printer.push('\n')
        }
        OriginatorIdentifierOrKey::OriginatorKey(key) => { push_key(printer, place, &key.value) }
    }
}

fn push_encrypted_keys(
    printer: &mut Printer<'_>,
    list: &Place,
    keys: &RecipientEncryptedKeys<'_>,
) -> Result<(), AllocError> {
    let mut places = printer.items(list);
    for item in keys.items().iter(printer.alloc) {
        let place = places.next_item().unwrap_or(nowhere());
        let Ok(key) = item else {
            // The item was decoded before, so only memory can run out.
            return Err(AllocError);
        };
        push_agreed_key(printer, &place, &key)?;
    }
    Ok(())
}

/// Adds the recipient of an encrypted key and the number of the key's octets.
fn push_agreed_key(
    printer: &mut Printer<'_>,
    place: &Place,
    key: &RecipientEncryptedKey<'_>,
) -> Result<(), AllocError> {
    let at = printer.places_of(key, place);
    printer.begin(&at.rid, FieldName::Recipient)?;
    push_identifier_of(printer, key.rid())?;
    printer.push('\n')?;
    push_encrypted_key(printer, &at.encrypted_key, key.encrypted_key().as_bytes())
}

fn push_identifier_of(
    printer: &mut Printer<'_>,
    identifier: &KeyAgreeRecipientIdentifier<'_>,
) -> Result<(), AllocError> {
    match identifier {
        KeyAgreeRecipientIdentifier::IssuerAndSerialNumber(issued) => {
            push_issued(printer, issued)
        }
        KeyAgreeRecipientIdentifier::RKeyId(key) => {
            printer.push_str("key ")?;
            push_with_colons(printer.page, key.value.subject_key_identifier().as_bytes())
        }
    }
}
