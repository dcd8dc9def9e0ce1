//! AlgorithmIdentifier, by the calls of its traits.

use der_asn1_types::{Duplicate, Encode, Error, FixedTag, FromDer, Tag, ValueOrd};
use derview_names::AlgorithmIdentifier;
use std::alloc::Global;
use std::cmp::Ordering;

/// rsaEncryption with NULL (RFC 8017, appendix A.1).
const RSA: &[u8] = &[
    0x30, 0x0d, 0x06, 0x09, 0x2a, 0x86, 0x48, 0x86, 0xf7, 0x0d, 0x01, 0x01, 0x01, 0x05, 0x00,
];

/// id-Ed25519, with no parameters (RFC 8410, section 3).
const ED25519: &[u8] = &[0x30, 0x05, 0x06, 0x03, 0x2b, 0x65, 0x70];

/// id-Ed25519 with NULL.
const ED25519_NULL: &[u8] = &[0x30, 0x07, 0x06, 0x03, 0x2b, 0x65, 0x70, 0x05, 0x00];

fn numbered<T>(answer: Result<T, Error>) -> Result<T, u8> {
    match answer {
        Ok(value) => Ok(value),
        Err(e) => Err(e.kind().number()),
    }
}

fn read(alloc: Global, octets: &[u8]) -> Result<AlgorithmIdentifier<'_>, u8> {
    match AlgorithmIdentifier::from_der(alloc, octets) {
        Ok(value) => Ok(value),
        Err(e) => Err(e.kind().number()),
    }
}

/// Returns the number of the refusal of these octets, or 0 if they are read.
fn refusal(alloc: Global, octets: &[u8]) -> u8 {
    match read(alloc, octets) {
        Ok(_) => 0,
        Err(number) => number,
    }
}

/// Returns the order of the values of two encodings.
fn order(alloc: Global, octets: &[u8], others: &[u8]) -> Result<Ordering, u8> {
    match (read(alloc, octets), read(alloc, others)) {
        (Ok(value), Ok(other)) => numbered(value.value_cmp(&other)),
        (Err(number), _) => Err(number),
        (_, Err(number)) => Err(number),
    }
}

#[test]
fn shows_its_fields(rt: HostRuntime) -> Result<(), u8> {
    assert_eq!(rt; AlgorithmIdentifier::TAG, Tag::Sequence);
    match read(rt.alloc(), RSA) {
        Ok(rsa) => {
            assert_eq!(rt; rsa.oid.as_bytes(), &RSA[4..13]);
            match rsa.parameters {
                Some(parameters) => assert!(rt; parameters.is_null()),
                None => return Err(0),
            }
        }
        Err(number) => return Err(number),
    }
    match read(rt.alloc(), ED25519) {
        Ok(ed25519) => {
            assert_eq!(rt; ed25519.oid.as_bytes(), &ED25519[4..]);
            assert!(rt; ed25519.parameters.is_none());
        }
        Err(number) => return Err(number),
    }
    Ok(())
}

#[test]
fn writes_what_it_reads(rt: HostRuntime) -> Result<(), u8> {
    let alloc = rt.alloc();
    for octets in [RSA, ED25519, ED25519_NULL] {
        match read(alloc, octets) {
            Ok(value) => {
                let written = numbered(value.to_der(alloc))?;
                assert_eq!(rt; written.as_slice(), octets);
                let len = numbered(value.encoded_len())?;
                assert_eq!(rt; len.value() as usize, octets.len());
                match value.duplicate() {
                    Ok(copy) => assert!(rt; copy == value),
                    Err(e) => return Err(e.kind().number()),
                }
            }
            Err(number) => return Err(number),
        }
    }
    Ok(())
}

#[test]
fn refuses_each_beginning(rt: HostRuntime) {
    for len in 0..RSA.len() {
        assert_eq!(rt; refusal(rt.alloc(), &RSA[..len]), 2, "of {len} octets");
    }
}

#[test]
fn orders_by_the_identifier_and_then_the_parameters(rt: HostRuntime) -> Result<(), u8> {
    let alloc = rt.alloc();
    assert_eq!(rt; order(alloc, ED25519, ED25519_NULL)?, Ordering::Less);
    assert_eq!(rt; order(alloc, ED25519_NULL, ED25519)?, Ordering::Greater);
    assert_eq!(rt; order(alloc, RSA, ED25519_NULL)?, Ordering::Greater);
    assert_eq!(rt; order(alloc, RSA, RSA)?, Ordering::Equal);
    Ok(())
}
