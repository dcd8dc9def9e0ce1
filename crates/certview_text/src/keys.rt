//! Keys as text. Only the length of a secret is shown.

ghost use Rattle.std.specs.Prelude.{◌≡◌, None, OnOk};
ghost use Rattle.der_modules.specs.Asn1.{parse_of};
ghost use Rattle.der_pkix.specs.Certificate.Grammar.{subject_public_key_info};
ghost use Rattle.der_pkix.specs.Key.Grammar.{private_key_info, rsa_public_key, ec_private_key};
ghost use Rattle.certview_text.specs.Faults.{first_fault};

use crate::fault::{Fault, refusal};
use crate::kind::Kind;
use crate::whole::push_title;
use certview_parts::algorithms::{bits_of, push_algorithm, push_key};
use certview_parts::attribute_rows::push_attribute_rows;
use certview_parts::bit_strings::push_bits;
use certview_parts::field_name::FieldName;
use certview_parts::hexadecimal::{push_digits, push_number_of};
use certview_parts::identifiers::push_identifier;
use certview_parts::page::Page;
use certview_parts::place::{Place, place_of_all};
use certview_parts::printer::Printer;
use der_asn1_types::FromDer;
use der_asn1_types::asn1::{BitStringRef, UintRef};
use der_pkix::certificate::SubjectPublicKeyInfo;
use der_pkix::certificate::laws::grammar_of_subject_public_key_info;
use der_pkix::key::laws::{
    grammar_of_ec_private_key, grammar_of_private_key_info, grammar_of_rsa_public_key,
};
use der_pkix::key::{EcParameters, EcPrivateKey, PrivateKeyInfo, RsaPublicKey};
use std::alloc::{AllocError, Global};
use std::fmt::Write;

/// Adds the fields of the SubjectPublicKeyInfo in these octets, one line each.
///
/// # Errors
/// `Refused` with the first error in the octets, in the order of the fields; with
/// `ErrorKind::TrailingData` (3) if octets are left over; with `ErrorKind::Overflow` (9) if there
/// are more than 4294967295 octets. `Memory` if memory runs out.
pub fn push_public_key(alloc: Global, page: &mut Page, octets: &[u8]) -> Result<(), Fault>
    ensures { OnOk result (first_fault (parse_of subject_public_key_info) octets.now ≡ None) }
{
    grammar_of_subject_public_key_info();
    match SubjectPublicKeyInfo::from_der(alloc, octets) {
        Ok(key) => Ok(public_key_fields(&mut Printer::new(alloc, page, octets), &key)?),
        Err(error) => Err(refusal(Kind::PublicKey, octets, error)),
    }
}

fn public_key_fields(
    printer: &mut Printer<'_>,
    key: &SubjectPublicKeyInfo<'_>,
) -> Result<(), AllocError> {
    let whole = place_of_all(printer.octets);
    push_title(printer, &whole, Kind::PublicKey)?;
    push_key(printer, &whole, key)?;
    Ok(())
}

/// Adds the fields of the PrivateKeyInfo in these octets, one line each.
///
/// # Errors
/// As `push_public_key`.
pub fn push_private_key(alloc: Global, page: &mut Page, octets: &[u8]) -> Result<(), Fault>
    ensures { OnOk result (first_fault (parse_of private_key_info) octets.now ≡ None) }
{
    grammar_of_private_key_info();
    match PrivateKeyInfo::from_der(alloc, octets) {
        Ok(key) => Ok(private_key_fields(&mut Printer::new(alloc, page, octets), &key)?),
        Err(error) => Err(refusal(Kind::PrivateKey, octets, error)),
    }
}

fn private_key_fields(
    printer: &mut Printer<'_>,
    key: &PrivateKeyInfo<'_>,
) -> Result<(), AllocError> {
    let whole = place_of_all(printer.octets);
    push_title(printer, &whole, Kind::PrivateKey)?;
    let at = printer.places_of(key, &whole);
    push_version(printer, &at.version, key.version())?;
    push_algorithm(
        printer,
        &at.private_key_algorithm,
        FieldName::KeyAlgorithm,
        key.private_key_algorithm(),
    )?;
    let count = key.private_key().as_bytes().len();
    push_secret(printer, &at.private_key, FieldName::PrivateKey, count)?;
    push_attribute_rows(printer, &at.attributes, FieldName::Attribute)?;
    push_public_bits(printer, &at.public_key, key.public_key())?;
    Ok(())
}

/// Adds the public key of a private key, if it is present.
fn push_public_bits(
    printer: &mut Printer<'_>,
    place: &Place,
    key: Option<&BitStringRef<'_>>,
) -> Result<(), AllocError> {
    match key {
        Some(bits) => {
            printer.begin(place, FieldName::PublicKey)?;
            push_bits(printer.page, bits)?;
            printer.push('\n')
        }
        None => Ok(()),
    }
}

/// Adds the fields of the RSAPublicKey in these octets, one line each.
///
/// # Errors
/// As `push_public_key`.
pub fn push_rsa_public_key(alloc: Global, page: &mut Page, octets: &[u8]) -> Result<(), Fault>
    ensures { OnOk result (first_fault (parse_of rsa_public_key) octets.now ≡ None) }
{
    grammar_of_rsa_public_key();
    match RsaPublicKey::from_der(alloc, octets) {
        Ok(key) => Ok(rsa_public_key_fields(&mut Printer::new(alloc, page, octets), &key)?),
        Err(error) => Err(refusal(Kind::RsaPublicKey, octets, error)),
    }
}

fn rsa_public_key_fields(
    printer: &mut Printer<'_>,
    key: &RsaPublicKey<'_>,
) -> Result<(), AllocError> {
    let whole = place_of_all(printer.octets);
    push_title(printer, &whole, Kind::RsaPublicKey)?;
    let at = printer.places_of(key, &whole);
    push_modulus(printer, &at.modulus, key.modulus())?;
    push_exponent(printer, &at.public_exponent, key.public_exponent())?;
    Ok(())
}

/// Adds the fields of the ECPrivateKey in these octets, one line each.
///
/// # Errors
/// As `push_public_key`.
pub fn push_ec_private_key(alloc: Global, page: &mut Page, octets: &[u8]) -> Result<(), Fault>
    ensures { OnOk result (first_fault (parse_of ec_private_key) octets.now ≡ None) }
{
    grammar_of_ec_private_key();
    match EcPrivateKey::from_der(alloc, octets) {
        Ok(key) => Ok(ec_private_key_fields(&mut Printer::new(alloc, page, octets), &key)?),
        Err(error) => Err(refusal(Kind::EcPrivateKey, octets, error)),
    }
}

fn ec_private_key_fields(
    printer: &mut Printer<'_>,
    key: &EcPrivateKey<'_>,
) -> Result<(), AllocError> {
    let whole = place_of_all(printer.octets);
    push_title(printer, &whole, Kind::EcPrivateKey)?;
    let at = printer.places_of(key, &whole);
    push_version(printer, &at.version, key.version())?;
    let count = key.private_key().as_bytes().len();
    push_secret(printer, &at.private_key, FieldName::PrivateKey, count)?;
    push_curve(printer, &at.parameters, key)?;
    push_public_bits(printer, &at.public_key, key.public_key())?;
    Ok(())
}

/// Adds a line with the curve, if its parameters are present.
fn push_curve(
    printer: &mut Printer<'_>,
    place: &Place,
    key: &EcPrivateKey<'_>,
) -> Result<(), AllocError> {
    match key.parameters() {
        Some(parameters) => {
            printer.begin(place, FieldName::Curve)?;
            push_curve_of(printer, parameters)?;
            printer.push('\n')
        }
        None => Ok(()),
    }
}

/// Adds the name of a curve. For a curve without a name it adds how the curve is known.
fn push_curve_of(
    printer: &mut Printer<'_>,
    parameters: &EcParameters<'_>,
) -> Result<(), AllocError> {
    match parameters {
        EcParameters::NamedCurve(name) => push_identifier(printer, name.as_bytes()),
        EcParameters::ImplicitCurve(_) => printer.push_str("implicit"),
        EcParameters::SpecifiedCurve(_) => printer.push_str("parameters of its own"),
    }
}

/// Adds the version as it is encoded.
pub fn push_version(
    printer: &mut Printer<'_>,
    place: &Place,
    version: u8,
) -> Result<(), AllocError> {
    printer.begin(place, FieldName::Version)?;
    writeln!(printer.page.text, "{version}")
}

/// Adds the number of octets of a secret field.
pub fn push_secret(
    printer: &mut Printer<'_>,
    place: &Place,
    field: FieldName,
    count: usize,
) -> Result<(), AllocError> {
    printer.begin(place, field)?;
    writeln!(printer.page.text, "{count} octets, not shown")
}

/// Adds the number of bits of an RSA modulus, and its octets.
pub fn push_modulus(
    printer: &mut Printer<'_>,
    place: &Place,
    modulus: &UintRef<'_>,
) -> Result<(), AllocError> {
    printer.begin(place, FieldName::Modulus)?;
    let bits = bits_of(modulus.as_bytes());
    write!(printer.page.text, "{bits} bits, ")?;
    push_digits(printer.page, modulus.as_bytes())?;
    printer.push('\n')
}

/// Adds the public exponent of an RSA key.
pub fn push_exponent(
    printer: &mut Printer<'_>,
    place: &Place,
    exponent: &UintRef<'_>,
) -> Result<(), AllocError> {
    printer.begin(place, FieldName::PublicExponent)?;
    push_number_of(printer.page, exponent.as_bytes())?;
    printer.push('\n')
}
