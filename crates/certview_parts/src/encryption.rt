//! Encryption with a password as text (RFC 8018 appendix A, RFC 7292 appendix C).

use crate::algorithms::push_algorithm;
use crate::any_values::push_any;
use crate::field_name::FieldName;
use crate::identifiers::push_identifier;
use crate::place::Place;
use crate::printer::Printer;
use crate::rows::{push_identifier_row, push_integer_row, push_malformed_row, push_octets_row};
use der_asn1_types::FromDer;
use der_pkcs::encryption::constants::{ID_HMAC_WITH_SHA1, ID_PBES2, ID_PBKDF2, PKCS_5};
use der_pkcs::encryption::{PbeParameter, Pbes2Params, Pbkdf2Params, Pbkdf2Salt};
use der_pkcs::pkcs12::constants::PKCS_12_PBE_IDS;
use der_pkix::AlgorithmIdentifier;
use std::alloc::AllocError;

/// Adds the lines of an encryption algorithm: its identifier and its parameters. The parameters
/// of PBES2, of PBES1 and of PKCS #12 are shown field by field.
pub fn push_encryption(
    printer: &mut Printer<'_>,
    place: &Place,
    algorithm: &AlgorithmIdentifier<'_>,
) -> Result<(), AllocError> {
    let field = FieldName::EncryptionAlgorithm;
    let identifier = algorithm.oid.as_bytes();
    let parameters = printer.places_of(algorithm, place).parameters;
    if identifier == ID_PBES2.as_slice() {
        push_identifier_row(printer, place, field, identifier)?;
        return push_scheme(printer, &parameters);
    }
    if has_salt_and_count(identifier) {
        push_identifier_row(printer, place, field, identifier)?;
        return push_salt_and_count(printer, &parameters);
    }
    push_cipher(printer, place, field, algorithm)
}

/// Returns whether the parameters of an algorithm are a salt and a count: PBES1
/// (below 1.2.840.113549.1.5, up to 11) and PKCS #12 (below 1.2.840.113549.1.12.1).
fn has_salt_and_count(identifier: &[u8]) -> bool {
    match identifier {
        [front @ .., last] if front == PKCS_5.as_slice() => *last <= 11,
        [front @ .., _] => front == PKCS_12_PBE_IDS.as_slice(),
        [] => false,
    }
}

/// Adds the fields of PBES2-params.
fn push_scheme(printer: &mut Printer<'_>, place: &Place) -> Result<(), AllocError> {
    let inner = printer.inner_at(place);
    match Pbes2Params::from_der(printer.alloc, inner.octets) {
        Ok(scheme) => {
            let at = printer.places_of(&scheme, place);
            push_derivation(
                printer,
                &at.key_derivation_func,
                scheme.key_derivation_func(),
            )?;
            push_cipher(
                printer,
                &at.encryption_scheme,
                FieldName::Cipher,
                scheme.encryption_scheme(),
            )
        }
        Err(error) => push_malformed_row(printer, place, FieldName::Scheme, inner.begin, error),
    }
}

/// Adds the fields of a key derivation function: those of PBKDF2, or else its parameters as they
/// are encoded.
pub fn push_derivation(
    printer: &mut Printer<'_>,
    place: &Place,
    function: &AlgorithmIdentifier<'_>,
) -> Result<(), AllocError> {
    let field = FieldName::KeyDerivation;
    let identifier = function.oid.as_bytes();
    if identifier != ID_PBKDF2.as_slice() {
        return push_algorithm(printer, place, field, function);
    }
    push_identifier_row(printer, place, field, identifier)?;
    let fields = printer.places_of(function, place).parameters;
    let inner = printer.inner_at(&fields);
    match Pbkdf2Params::from_der(printer.alloc, inner.octets) {
        Ok(derivation) => push_derivation_fields(printer, &fields, &derivation),
        Err(error) => push_malformed_row(printer, &fields, field, inner.begin, error),
    }
}

/// Adds the fields of PBKDF2-params. If the function is absent, it is HMAC with SHA-1.
fn push_derivation_fields(
    printer: &mut Printer<'_>,
    place: &Place,
    derivation: &Pbkdf2Params<'_>,
) -> Result<(), AllocError> {
    let at = printer.places_of(derivation, place);
    match derivation.salt() {
        Pbkdf2Salt::Specified(salt) => push_octets_row(
            printer,
            &at.salt,
            FieldName::Salt,
            salt.as_bytes(),
        )?,
        Pbkdf2Salt::OtherSource(source) => push_algorithm(
            printer,
            &at.salt,
            FieldName::Salt,
            source,
        )?,
    }
    let count = derivation.iteration_count();
    push_integer_row(printer, &at.iteration_count, FieldName::Iterations, count)?;
    if let Some(length) = derivation.key_length() {
        push_integer_row(printer, &at.key_length, FieldName::KeyLength, length)?;
    }
    let field = FieldName::PseudorandomFunction;
    match derivation.prf() {
        Some(algorithm) => push_algorithm(printer, &at.prf, field, algorithm),
        None => push_identifier_row(printer, &at.prf, field, &ID_HMAC_WITH_SHA1),
    }
}

/// Adds a line with a cipher and its parameters. For many ciphers they are an OCTET STRING, the
/// first block.
pub fn push_cipher(
    printer: &mut Printer<'_>,
    place: &Place,
    field: FieldName,
    cipher: &AlgorithmIdentifier<'_>,
) -> Result<(), AllocError> {
    printer.begin(place, field)?;
    push_identifier(printer, cipher.oid.as_bytes())?;
    if let Some(parameters) = &cipher.parameters {
        printer.push_str(", ")?;
        push_any(printer, Some(place.behind() as usize), parameters)?;
    }
    printer.push('\n')
}

/// Adds the fields of a PBEParameter.
fn push_salt_and_count(printer: &mut Printer<'_>, place: &Place) -> Result<(), AllocError> {
    let inner = printer.inner_at(place);
    match PbeParameter::from_der(printer.alloc, inner.octets) {
        Ok(parameter) => {
            let at = printer.places_of(&parameter, place);
            push_octets_row(
                printer,
                &at.salt,
                FieldName::Salt,
                parameter.salt().as_bytes(),
            )?;
            let count = parameter.iteration_count();
            push_integer_row(printer, &at.iteration_count, FieldName::Iterations, count)
        }
        Err(error) => push_malformed_row(printer, place, FieldName::Parameters, inner.begin, error),
    }
}
