//! An encrypted private key as text.

ghost use Rattle.std.specs.Prelude.{◌≡◌, None, OnOk};
ghost use Rattle.der_modules.specs.Asn1.{parse_of};
ghost use Rattle.der_pkcs.specs.Encryption.Grammar.{encrypted_private_key_info};
ghost use Rattle.certview_text.specs.Faults.{first_fault};

use crate::fault::{Fault, refusal};
use crate::kind::Kind;
use crate::whole::push_title;
use certview_parts::encryption::push_encryption;
use certview_parts::field_name::FieldName;
use certview_parts::page::Page;
use certview_parts::place::{Place, place_of_all};
use certview_parts::printer::Printer;
use certview_parts::rows::push_length_row;
use der_asn1_types::FromDer;
use der_pkcs::encryption::EncryptedPrivateKeyInfo;
use der_pkcs::encryption::laws::grammar_of_encrypted_private_key_info;
use std::alloc::{AllocError, Global};

/// Adds the fields of the EncryptedPrivateKeyInfo in these octets, one line each.
///
/// # Errors
/// `Refused` with the first error in the octets, in the order of the fields; with
/// `ErrorKind::TrailingData` (3) if octets are left over; with `ErrorKind::Overflow` (9) if there
/// are more than 4294967295 octets. `Memory` if memory runs out.
pub fn push_encrypted_key(alloc: Global, page: &mut Page, octets: &[u8]) -> Result<(), Fault>
    ensures { OnOk result (first_fault (parse_of encrypted_private_key_info) octets.now ≡ None) }
{
    grammar_of_encrypted_private_key_info();
    match EncryptedPrivateKeyInfo::from_der(alloc, octets) {
        Ok(key) => Ok(push_fields(&mut Printer::new(alloc, page, octets), &key)?),
        Err(error) => Err(refusal(Kind::EncryptedPrivateKey, octets, error)),
    }
}

fn push_fields(
    printer: &mut Printer<'_>,
    key: &EncryptedPrivateKeyInfo<'_>,
) -> Result<(), AllocError> {
    let whole = place_of_all(printer.octets);
    push_title(printer, &whole, Kind::EncryptedPrivateKey)?;
    push_encrypted_fields(printer, &whole, key)
}

/// Adds the fields of an encrypted key: its encryption algorithm and the number of its octets.
pub fn push_encrypted_fields(
    printer: &mut Printer<'_>,
    place: &Place,
    key: &EncryptedPrivateKeyInfo<'_>,
) -> Result<(), AllocError> {
    let at = printer.places_of(key, place);
    let algorithm = key.encryption_algorithm();
    push_encryption(printer, &at.encryption_algorithm, algorithm)?;
    push_length_row(
        printer,
        &at.encrypted_data,
        FieldName::EncryptedKey,
        key.encrypted_data().as_bytes(),
    )
}
