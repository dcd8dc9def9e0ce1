//! Requests for certificates (RFC 2986), and their attributes (RFC 2985).

use super::{first_value, read_and_copied};
use crate::tests::{again, copied, numbered, put, read_and_compared, same, same_in};
use der_asn1_types::FromDer;
use der_pkcs::request::{CertificationRequest, ExtensionRequest};
use der_pkix::name::Attribute;
use std::alloc::Global;
use std::cmp::Ordering;
use std::process::Abort;
use std::test::Fail;

/// With a password and two extensions: `openssl req -new -config req.cnf -key ca.key -outform
/// DER`. The configuration has challengePassword, subjectAltName and keyUsage.
const EXTENDED: &str =
    "3081e03081930201003011310f300d06035504030c066261726c6579302a300506032b657003210090d217091320475e7ad2ecce63fc9760cf719a2189ec7ff2e5d7d79c979a1132a04f301406092a864886f70d01090731070c05666c6f7572303706092a864886f70d01090e312a302830190603551d1104123010820e6261726c65792e6578616d706c65300b0603551d0f040403020780300506032b657003410077eca9f13f50d4bf6c8c56d64c3e4f5ee0fd65836df37f7a0a6e3bae72e4e5780dbfa538576f0110b3c81adab3294ff94283dd6ec28f0ad8ea027f368e82e501";

/// With no attribute: `openssl req -new -config ca.cnf -key ca.key -outform DER`.
const PLAIN: &str =
    "30818e3042020100300f310d300b06035504030c046d696c6c302a300506032b657003210090d217091320475e7ad2ecce63fc9760cf719a2189ec7ff2e5d7d79c979a1132a000300506032b6570034100a58d77b7719408028ff143469037a562ddf71884add49e739f9365c896a5dea74a519e8d2974083798a3c6fecb25448dee2fefe1812d581ad1cee24048d6b10d";

fn request_again(alloc: Global, octets: &[u8]) -> Result<Vec<u8>, u8> {
    again::<CertificationRequest>(alloc, octets)
}

fn extensions_again(alloc: Global, octets: &[u8]) -> Result<Vec<u8>, u8> {
    again::<ExtensionRequest>(alloc, octets)
}

fn requests_compared(alloc: Global, first: &[u8], second: &[u8]) -> Result<(Ordering, bool), u8> {
    read_and_compared::<CertificationRequest>(alloc, first, second)
}

fn request_copied(alloc: Global, octets: &[u8]) -> Result<bool, u8> {
    read_and_copied::<CertificationRequest>(alloc, octets)
}

// Returns the version, the number of parts of the subject's name, the number of bits of the key,
// the number of attributes, and the number of bits of the signature.
fn request_told(alloc: Global, octets: &[u8]) -> Result<(u8, usize, usize, usize, usize), u8> {
    match CertificationRequest::from_der(alloc, octets) {
        Ok(request) => {
            let info = request.certification_request_info();
            let parts = numbered(info.subject().items().count(alloc))?;
            let key = *info.subject_pk_info().subject_public_key();
            let signature = *request.signature();
            Ok((
                info.version(),
                parts,
                key.bit_len(),
                numbered(info.attributes().items().count(alloc))?,
                signature.bit_len(),
            ))
        }
        Err(e) => Err(e.kind().number()),
    }
}

// Returns the contents octets of an attribute's type, and the encoding of its first value.
fn type_and_value(alloc: Global, attribute: &Attribute) -> Result<(Vec<u8>, Vec<u8>), u8> {
    let kind = copied(alloc, attribute.type_().as_bytes())?;
    let value = first_value(alloc, attribute)?;
    Ok((kind, value))
}

// Returns the contents octets of the type of the attribute at an index, and the encoding of its
// first value.
fn attribute_told(alloc: Global, octets: &[u8], place: usize) -> Result<(Vec<u8>, Vec<u8>), u8> {
    match CertificationRequest::from_der(alloc, octets) {
        Ok(request) => {
            let attributes = request.certification_request_info().attributes();
            match attributes.items().get(alloc, place) {
                Some(Ok(attribute)) => type_and_value(alloc, &attribute),
                Some(Err(e)) => Err(e.kind().number()),
                None => Err(0),
            }
        }
        Err(e) => Err(e.kind().number()),
    }
}

#[test]
fn requests_for_certificates_are_written_back(rt: HostRuntime) -> Result<(), Fail> {
    let alloc = rt.alloc();
    for digits in [EXTENDED, PLAIN] {
        let octets = hex::decode(alloc, digits)?;
        let written = request_again(alloc, octets.as_slice())?;
        same(&rt, written.as_slice(), octets.as_slice());
        for i in 0..octets.len() {
            let number = request_again(alloc, &octets[..i]).err();
            same_in(&rt, &i, number, Some(2));
        }
    }
    Ok(())
}

#[test]
fn requests_for_certificates_have_fields(rt: HostRuntime) -> Result<(), Fail> {
    let alloc = rt.alloc();
    let octets = hex::decode(alloc, EXTENDED)?;
    let found = request_told(alloc, octets.as_slice());
    same(&rt, found, Ok((0, 1, 256, 2, 512)));
    let octets = hex::decode(alloc, PLAIN)?;
    let found = request_told(alloc, octets.as_slice());
    same(&rt, found, Ok((0, 1, 256, 0, 512)));
    Ok(())
}

#[test]
fn requests_for_certificates_have_attributes(rt: HostRuntime) -> Result<(), Fail> {
    let alloc = rt.alloc();
    let octets = hex::decode(alloc, EXTENDED)?;
    // the password flour
    let kind = hex::decode(alloc, "2a864886f70d010907")?;
    let value = hex::decode(alloc, "0c05666c6f7572")?;
    let found = attribute_told(alloc, octets.as_slice(), 0);
    same(&rt, found, Ok((kind, value)));
    // the extensions
    let kind = hex::decode(alloc, "2a864886f70d01090e")?;
    let value = hex::decode(
        alloc,
        "302830190603551d1104123010820e6261726c65792e6578616d706c65300b0603551d0f040403020780",
    )?;
    let found = extensions_again(alloc, value.as_slice())?;
    same(&rt, found.as_slice(), value.as_slice());
    let found = attribute_told(alloc, octets.as_slice(), 1);
    same(&rt, found, Ok((kind, value)));
    Ok(())
}

#[test]
fn a_changed_octet_of_a_request_for_a_certificate_is_refused(rt: HostRuntime) -> Result<(), Fail> {
    let alloc = rt.alloc();
    let rows = [
        // a SET, a version below 0, and a name that is no SEQUENCE
        (EXTENDED, 0, 0x31, 4),
        (EXTENDED, 8, 0xff, 13),
        (EXTENDED, 9, 0x31, 4),
        // a part of the name that is no SET, and a key that is an OCTET STRING
        (EXTENDED, 11, 0x30, 4),
        (EXTENDED, 37, 0x04, 4),
        // attributes with another tag, or a primitive one
        (EXTENDED, 72, 0xa1, 4),
        (EXTENDED, 72, 0x80, 4),
        // an attribute whose values are no SET
        (EXTENDED, 87, 0x30, 4),
        // a signature with eight unused bits
        (EXTENDED, 162, 0x08, 13),
    ];
    for (digits, place, octet, number) in rows {
        let mut octets = hex::decode(alloc, digits)?;
        put(&rt, &mut octets, place, octet);
        let answer = request_again(alloc, octets.as_slice());
        same_in(&rt, &(place, octet), answer.err(), Some(number));
    }
    Ok(())
}

#[test]
fn requests_for_certificates_are_in_the_order_of_their_encodings(
    rt: HostRuntime,
) -> Result<(), Fail> {
    let alloc = rt.alloc();
    let extended = hex::decode(alloc, EXTENDED)?;
    let plain = hex::decode(alloc, PLAIN)?;
    let found = requests_compared(alloc, plain.as_slice(), extended.as_slice());
    same(&rt, found, Ok((Ordering::Less, false)));
    let found = requests_compared(alloc, extended.as_slice(), extended.as_slice());
    same(&rt, found, Ok((Ordering::Equal, true)));
    same(&rt, request_copied(alloc, extended.as_slice()), Ok(true));
    Ok(())
}
