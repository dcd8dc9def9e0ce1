//! An RSA private key as text.

ghost use Rattle.std.specs.Prelude.{◌≡◌, None, OnOk};
ghost use Rattle.der_modules.specs.Asn1.{parse_of};
ghost use Rattle.der_pkix.specs.Key.Grammar.{rsa_private_key};
ghost use Rattle.certview_text.specs.Faults.{first_fault};

use crate::fault::{Fault, refusal};
use crate::keys::{push_exponent, push_modulus, push_secret, push_version};
use crate::kind::Kind;
use crate::whole::push_title;
use certview_parts::field_name::FieldName;
use certview_parts::page::Page;
use certview_parts::place::{Place, place_of_all};
use certview_parts::printer::Printer;
use certview_parts::rows::push_count_row;
use der_asn1_types::FromDer;
use der_pkix::key::RsaPrivateKey;
use der_pkix::key::laws::grammar_of_rsa_private_key;
use std::alloc::{AllocError, Global};

/// Adds the fields of the RSAPrivateKey in these octets, one line each.
///
/// # Errors
/// `Refused` with the first error in the octets, in the order of the fields; with
/// `ErrorKind::TrailingData` (3) if octets are left over; with `ErrorKind::Overflow` (9) if there
/// are more than 4294967295 octets. `Memory` if memory runs out.
pub fn push_rsa_private_key(alloc: Global, page: &mut Page, octets: &[u8]) -> Result<(), Fault>
    ensures { OnOk result (first_fault (parse_of rsa_private_key) octets.now ≡ None) }
{
    grammar_of_rsa_private_key();
    match RsaPrivateKey::from_der(alloc, octets) {
        Ok(key) => Ok(push_fields(&mut Printer::new(alloc, page, octets), &key)?),
        Err(error) => Err(refusal(Kind::RsaPrivateKey, octets, error)),
    }
}

fn push_fields(printer: &mut Printer<'_>, key: &RsaPrivateKey<'_>) -> Result<(), AllocError> {
    let whole = place_of_all(printer.octets);
    push_title(printer, &whole, Kind::RsaPrivateKey)?;
    let at = printer.places_of(key, &whole);
    push_version(printer, &at.version, key.version())?;
    push_modulus(printer, &at.modulus, key.modulus())?;
    push_exponent(printer, &at.public_exponent, key.public_exponent())?;
    push_number(printer, &at.private_exponent, FieldName::PrivateExponent)?;
    push_number(printer, &at.prime1, FieldName::Prime1)?;
    push_number(printer, &at.prime2, FieldName::Prime2)?;
    push_number(printer, &at.exponent1, FieldName::Exponent1)?;
    push_number(printer, &at.exponent2, FieldName::Exponent2)?;
    push_number(printer, &at.coefficient, FieldName::Coefficient)?;
    push_other_primes(printer, &at.other_prime_infos, key)
}

/// Adds the number of contents octets of a secret number.
fn push_number(
    printer: &mut Printer<'_>,
    place: &Place,
    field: FieldName,
) -> Result<(), AllocError> {
    let count = printer.contents_of(*place).length as usize;
    push_secret(printer, place, field, count)
}

/// Adds the number of primes besides the first two, if there are more.
fn push_other_primes(
    printer: &mut Printer<'_>,
    place: &Place,
    key: &RsaPrivateKey<'_>,
) -> Result<(), AllocError> {
    let Some(primes) = key.other_prime_infos() else {
        return Ok(());
    };
    match primes.items().count(printer.alloc) {
        Ok(count) => push_count_row(printer, place, FieldName::OtherPrimes, count),
        // The items were decoded before, so only memory can run out.
        Err(_) => Err(AllocError),
    }
}
