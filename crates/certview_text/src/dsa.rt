//! A DSA private key as text.

ghost use Rattle.std.specs.Prelude.{◌≡◌, None, OnOk};
ghost use Rattle.der_modules.specs.Asn1.{parse_of};
ghost use Rattle.certview_text.specs.Dsa.{dsa_private_key};
ghost use Rattle.certview_text.specs.Faults.{first_fault};

use crate::fault::{Fault, refusal};
use crate::keys::{push_secret, push_version};
use crate::kind::Kind;
use crate::whole::push_title;
use certview_parts::field_name::FieldName;
use certview_parts::page::Page;
use certview_parts::place::{nowhere, place_of_all};
use certview_parts::printer::Printer;
use certview_parts::rows::push_number_row;
use der_asn1_types::asn1::UintRef;
use der_asn1_types::{FieldSequence, Fields6, Form, FromDer};
use std::alloc::{AllocError, Global};

/// The names of the key's fields in OpenSSL.
pub const DSA_FIELDS: [&str; 6] = ["version", "p", "q", "g", "pub_key", "priv_key"];

/// A DSA private key: a version, the parameters p, q and g, the public key and the private key.
type DsaPrivateKey<'a> = FieldSequence<
    Fields6<u8, UintRef<'a>, UintRef<'a>, UintRef<'a>, UintRef<'a>, UintRef<'a>>,
>;

/// Proves that the type reads what the grammar of a DSA private key says.
fn grammar_of_dsa_private_key<'a>()
    ensures { ⟦<DsaPrivateKey<'a> as Form>⟧.parse ≡ parse_of dsa_private_key }
{}

/// Adds the fields of the DSA private key in these octets, one line each.
///
/// # Errors
/// `Refused` with the first error in the octets, in the order of the fields; with
/// `ErrorKind::TrailingData` (3) if octets are left over; with `ErrorKind::Overflow` (9) if there
/// are more than 4294967295 octets. `Memory` if memory runs out.
pub fn push_dsa_private_key(alloc: Global, page: &mut Page, octets: &[u8]) -> Result<(), Fault>
    ensures { OnOk result (first_fault (parse_of dsa_private_key) octets.now ≡ None) }
{
    grammar_of_dsa_private_key();
    match DsaPrivateKey::from_der(alloc, octets) {
        Ok(key) => Ok(push_fields(&mut Printer::new(alloc, page, octets), &key)?),
        Err(error) => Err(refusal(Kind::DsaPrivateKey, octets, error)),
    }
}

fn push_fields(printer: &mut Printer<'_>, key: &DsaPrivateKey<'_>) -> Result<(), AllocError> {
    let whole = place_of_all(printer.octets);
    push_title(printer, &whole, Kind::DsaPrivateKey)?;
    let mut items = printer.items(&whole);
    let version = items.next_item().unwrap_or(nowhere());
    let p = items.next_item().unwrap_or(nowhere());
    let q = items.next_item().unwrap_or(nowhere());
    let g = items.next_item().unwrap_or(nowhere());
    let public = items.next_item().unwrap_or(nowhere());
    let private = items.next_item().unwrap_or(nowhere());
    push_version(printer, &version, *key.fields.first())?;
    push_number_row(printer, &p, FieldName::P, key.fields.second().as_bytes())?;
    push_number_row(printer, &q, FieldName::Q, key.fields.third().as_bytes())?;
    push_number_row(printer, &g, FieldName::G, key.fields.fourth().as_bytes())?;
    let number = key.fields.fifth().as_bytes();
    push_number_row(printer, &public, FieldName::PublicKey, number)?;
    let count = printer.contents_of(private).length as usize;
    push_secret(printer, &private, FieldName::PrivateKey, count)
}
