//! Recipients as text (RFC 5652 section 6.2).

use crate::key_agreements::push_agreement;
use crate::keys::push_version;
use crate::signers::push_signer_identifier;
use certview_parts::algorithms::push_algorithm;
use certview_parts::encryption::push_derivation;
use certview_parts::field_name::FieldName;
use certview_parts::place::Place;
use certview_parts::printer::Printer;
use certview_parts::rows::{
    push_identifier_row, push_length_row, push_malformed_inner_row, push_octets_row, push_time_row,
};
use der_asn1_types::FromDer;
use der_enveloped::enveloped::{
    KekRecipientInfo, KeyTransRecipientInfo, PasswordRecipientInfo, RecipientInfo,
};
use der_pkix::AlgorithmIdentifier;
use std::alloc::AllocError;

/// Adds the lines of each recipient of a set, in the order of the octets.
pub fn push_recipients(printer: &mut Printer<'_>, set: &Place) -> Result<(), AllocError> {
    let field = FieldName::Recipient;
    let mut items = printer.items(set);
    for _ in 0..set.length {
        let Some(place) = items.next_item() else {
            break;
        };
        let inner = printer.inner_at(&place);
        match RecipientInfo::from_der(printer.alloc, inner.octets) {
            Ok(recipient) => push_recipient(printer, &place, &recipient)?,
            Err(error) => push_malformed_inner_row(printer, &place, field, inner, error)?,
        }
    }
    Ok(())
}

fn push_recipient(
    printer: &mut Printer<'_>,
    place: &Place,
    recipient: &RecipientInfo<'_>,
) -> Result<(), AllocError> {
    match recipient {
        RecipientInfo::Ktri(recipient) => push_transport(printer, place, recipient),
        RecipientInfo::Kari(agreed) => push_agreement(printer, place, &agreed.value),
        RecipientInfo::Kekri(keyed) => push_keyed(printer, place, &keyed.value),
        RecipientInfo::Pwri(told) => push_password(printer, place, &told.value),
        RecipientInfo::Ori(other) => {
            let kind = other.value.type_().as_bytes();
            push_identifier_row(printer, place, FieldName::RecipientOfAnotherKind, kind)
        }
    }
}

/// Adds the lines of a recipient whose public key encrypts the key.
fn push_transport(
    printer: &mut Printer<'_>,
    place: &Place,
    recipient: &KeyTransRecipientInfo<'_>,
) -> Result<(), AllocError> {
    let at = printer.places_of(recipient, place);
    printer.begin(&at.rid, FieldName::Recipient)?;
    push_signer_identifier(printer, recipient.rid())?;
    printer.push('\n')?;
    push_version(printer, &at.version, recipient.version())?;
    let algorithm = recipient.key_encryption_algorithm();
    push_key_encryption(printer, &at.key_encryption_algorithm, algorithm)?;
    let encrypted = recipient.encrypted_key().as_bytes();
    push_encrypted_key(printer, &at.encrypted_key, encrypted)
}

/// Adds the lines of a recipient that has a key already.
fn push_keyed(
    printer: &mut Printer<'_>,
    place: &Place,
    recipient: &KekRecipientInfo<'_>,
) -> Result<(), AllocError> {
    let at = printer.places_of(recipient, place);
    let key = recipient.kekid();
    let within = printer.places_of(key, &at.kekid);
    let identifier = key.subject_key_identifier().as_bytes();
    let field = FieldName::RecipientWithTheKey;
    push_octets_row(printer, &within.subject_key_identifier, field, identifier)?;
    if let Some(date) = key.date() {
        push_time_row(
            printer,
            &within.date,
            FieldName::DateOfTheKey,
            &date.to_date_time(),
        )?;
    }
    push_version(printer, &at.version, recipient.version())?;
    let algorithm = recipient.key_encryption_algorithm();
    push_key_encryption(printer, &at.key_encryption_algorithm, algorithm)?;
    let encrypted = recipient.encrypted_key().as_bytes();
    push_encrypted_key(printer, &at.encrypted_key, encrypted)
}

/// Adds the lines of a recipient that knows a password.
fn push_password(
    printer: &mut Printer<'_>,
    place: &Place,
    recipient: &PasswordRecipientInfo<'_>,
) -> Result<(), AllocError> {
    let at = printer.places_of(recipient, place);
    printer.begin(place, FieldName::Recipient)?;
    printer.push_str("with a password\n")?;
    push_version(printer, &at.version, recipient.version())?;
    if let Some(function) = recipient.key_derivation_algorithm() {
        push_derivation(printer, &at.key_derivation_algorithm, function)?;
    }
    let algorithm = recipient.key_encryption_algorithm();
    push_key_encryption(printer, &at.key_encryption_algorithm, algorithm)?;
    let encrypted = recipient.encrypted_key().as_bytes();
    push_encrypted_key(printer, &at.encrypted_key, encrypted)
}

/// Adds the line of the algorithm that encrypts a key.
pub fn push_key_encryption(
    printer: &mut Printer<'_>,
    place: &Place,
    algorithm: &AlgorithmIdentifier<'_>,
) -> Result<(), AllocError> {
    push_algorithm(printer, place, FieldName::KeyEncryption, algorithm)
}

/// Adds the line of an encrypted key.
pub fn push_encrypted_key(
    printer: &mut Printer<'_>,
    place: &Place,
    key: &[u8],
) -> Result<(), AllocError> {
    push_length_row(printer, place, FieldName::EncryptedKey, key)
}
