//! Algorithms and public keys as text.

use crate::any_values::push_full_null;
use crate::field_name::FieldName;
use crate::hexadecimal::{push_digits, push_number_of};
use crate::identifiers::{curve_bits, push_identifier};
use crate::irregular::note_value;
use crate::key_sizes::{is_point, size_of};
use crate::names::push_encoding;
use crate::page::{Page, push_malformed, push_malformed_bits};
use crate::place::Place;
use crate::printer::Printer;
use crate::values::sizes;
use der_asn1_types::asn1::{AnyRef, BitStringRef, UintRef};
use der_asn1_types::{FromDer, Tag};
use der_pkcs::algorithm::constants;
use der_pkix::AlgorithmIdentifier;
use der_pkix::certificate::SubjectPublicKeyInfo;
use der_pkix::key::RsaPublicKey;
use std::alloc::{AllocError, Global};
use std::fmt::Write;

/// An RSA key (RFC 3279 section 2.3.1).
const RSA_ENCRYPTION: &[u8] = &constants::RSA_ENCRYPTION;

/// An RSA key for RSASSA-PSS signatures only (RFC 4055 section 1.2).
const ID_RSASSA_PSS: &[u8] = &constants::ID_RSASSA_PSS;

/// A point of an elliptic curve (RFC 5480 section 2.1.1).
const ID_EC_PUBLIC_KEY: &[u8] = &constants::ID_EC_PUBLIC_KEY;

/// A DSA key (RFC 3279 section 2.3.2).
const ID_DSA: &[u8] = &constants::ID_DSA;

/// Adds a line with an algorithm's identifier and its parameters. Parameters that are an
/// identifier, such as a curve's (RFC 5480 section 2.1.1), are shown as one; others are shown as
/// they are encoded.
pub fn push_algorithm(
    printer: &mut Printer<'_>,
    place: &Place,
    field: FieldName,
    algorithm: &AlgorithmIdentifier<'_>,
) -> Result<(), AllocError> {
    printer.begin(place, field)?;
    push_identifier(printer, algorithm.oid.as_bytes())?;
    if let Some(parameters) = &algorithm.parameters {
        push_parameters(printer, place, parameters)?;
    }
    printer.push('\n')
}

/// Adds the parameters at the end of a byte range.
fn push_parameters(
    printer: &mut Printer<'_>,
    place: &Place,
    parameters: &AnyRef<'_>,
) -> Result<(), AllocError> {
    match parameters.header().tag {
        Tag::Null if parameters.value().is_empty() => Ok(()),
        Tag::Null => {
            printer.push_str(", parameters ")?;
            push_full_null(
                printer.page,
                Some(place.behind() as usize),
                parameters.value(),
            )
        }
        Tag::ObjectIdentifier => {
            printer.push_str(", ")?;
            push_identifier(printer, parameters.value())
        }
        _ => {
            printer.push_str(", parameters ")?;
            note_value(printer.page, parameters)?;
            push_encoding(printer, parameters)
        }
    }
}

/// Adds a line for the algorithm of a key, and one for the key itself: its size in bits as people
/// count it, and its octets.
pub fn push_key(
    printer: &mut Printer<'_>,
    place: &Place,
    key: &SubjectPublicKeyInfo<'_>,
) -> Result<(), AllocError> {
    let at = printer.places_of(key, place);
    push_algorithm(
        printer,
        &at.algorithm,
        FieldName::KeyAlgorithm,
        key.algorithm(),
    )?;
    printer.begin(&at.subject_public_key, FieldName::Key)?;
    let bits = key.subject_public_key();
    let end = at.subject_public_key.behind() as usize;
    match key.algorithm().oid.as_bytes() {
        RSA_ENCRYPTION | ID_RSASSA_PSS => {
            let begin = printer.contents_of(at.subject_public_key).offset as usize;
            push_rsa_key(printer, begin.saturating_add(1), bits.raw_bytes())?
        }
        ID_EC_PUBLIC_KEY => { push_point(printer, end, key.algorithm(), bits)? }
        ID_DSA => push_dsa_key(printer, key.algorithm(), bits)?,
        oid => push_other_key(printer.page, end, oid, bits)?,
    }
    printer.push('\n')
}

/// Adds the number of bits and the octets of a key of another algorithm. For an algorithm of RFC
/// 8410 it checks the number of octets against section 4.
fn push_other_key(
    page: &mut Page,
    end: usize,
    algorithm: &[u8],
    key: &BitStringRef<'_>,
) -> Result<(), AllocError> {
    match size_of(algorithm) {
        Some(size) if !has_octets(key, size) => {
            push_wrong_key(page, end, "no key of the algorithm", key)
        }
        _ => push_bits_of(page, key.bit_len(), key),
    }
}

/// Returns whether a BIT STRING is exactly `count` whole octets.
fn has_octets(bits: &BitStringRef<'_>, count: usize) -> bool {
    bits.unused_bits() == 0 && bits.raw_bytes().len() == count
}

/// Adds that the octets of a BIT STRING, which ends at offset `end` of the message, are no key,
/// and the octets.
fn push_wrong_key(
    page: &mut Page,
    end: usize,
    words: &str,
    key: &BitStringRef<'_>,
) -> Result<(), AllocError> {
    push_malformed_bits(page, key.raw_bytes().len(), words, end)?;
    page.text.push_str(", ")?;
    push_digits(page, key.raw_bytes())
}

/// Adds the number of bits of a key and the octets of its BIT STRING.
fn push_bits_of(page: &mut Page, bits: usize, key: &BitStringRef<'_>) -> Result<(), AllocError> {
    write!(page.text, "{bits} bits, ")?;
    push_digits(page, key.raw_bytes())
}

/// Adds the bits of the modulus, the exponent and the modulus of an RSA key (RFC 3279 section
/// 2.3.1), whose encoding is at offset `begin` of the message.
fn push_rsa_key(printer: &mut Printer<'_>, begin: usize, octets: &[u8]) -> Result<(), AllocError> {
    match RsaPublicKey::from_der(printer.alloc, octets) {
        Ok(key) => {
            let bits = bits_of(key.modulus().as_bytes());
            write!(printer.page.text, "{bits} bits, exponent ")?;
            push_number_of(printer.page, key.public_exponent().as_bytes())?;
            printer.push_str(", modulus ")?;
            push_digits(printer.page, key.modulus().as_bytes())
        }
        Err(error) => push_malformed(printer.page, begin, error),
    }
}

/// Adds the bits of an element of the curve's field, if the curve has a known name, and the point
/// (RFC 5480 section 2.2), which ends at offset `end` of the message. Octets whose number does
/// not fit the curve are no point.
fn push_point(
    printer: &mut Printer<'_>,
    end: usize,
    algorithm: &AlgorithmIdentifier<'_>,
    point: &BitStringRef<'_>,
) -> Result<(), AllocError> {
    let bits = match &algorithm.parameters {
        Some(curve) if curve.header().tag == Tag::ObjectIdentifier => {
            curve_bits(printer.alloc, curve.value())?
        }
        _ => None,
    };
    match bits {
        Some(bits) if is_point(point, bits) => push_bits_of(printer.page, bits, point),
        Some(_) => push_wrong_key(printer.page, end, "no point of the curve", point),
        None => {
            printer.push_str("point ")?;
            push_digits(printer.page, point.raw_bytes())
        }
    }
}

/// Adds the bits of the prime of a DSA key, the first of its parameters (RFC 3279 section 2.3.2),
/// and the key.
fn push_dsa_key(
    printer: &mut Printer<'_>,
    algorithm: &AlgorithmIdentifier<'_>,
    key: &BitStringRef<'_>,
) -> Result<(), AllocError> {
    if let Some(bits) = bits_of_prime(printer.alloc, algorithm) {
        return push_bits_of(printer.page, bits, key);
    }
    printer.push_str("key of DSA ")?;
    push_digits(printer.page, key.raw_bytes())
}

/// Returns the number of bits of the first INTEGER in parameters that are a SEQUENCE.
fn bits_of_prime(alloc: Global, algorithm: &AlgorithmIdentifier<'_>) -> Option<usize> {
    let Some(parameters) = &algorithm.parameters else {
        return None;
    };
    if parameters.header().tag != Tag::Sequence {
        return None;
    }
    let octets = parameters.value();
    let (_, count) = sizes(octets);
    match UintRef::from_der(alloc, &octets[..count]) {
        Ok(prime) => Some(bits_of(prime.as_bytes())),
        Err(_) => None,
    }
}

/// Returns the number of bits of the number in these octets.
pub fn bits_of(octets: &[u8]) -> usize {
    match octets {
        [first, rest @ ..] => {
            let bits = 8 - first.leading_zeros() as usize;
            rest.len().saturating_mul(8).saturating_add(bits)
        }
        [] => 0,
    }
}
