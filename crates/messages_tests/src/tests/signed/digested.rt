//! Messages with a digest, and messages that are encrypted with a key that both sides have (RFC 5652
//! sections 7 and 8).

use super::{content_of, read_and_copied};
use crate::tests::{again, copied, numbered, put, read_and_compared, same, same_in};
use der_asn1_types::FromDer;
use der_cms::cms::{DigestedData, EncryptedData};
use std::alloc::Global;
use std::cmp::Ordering;
use std::process::Abort;
use std::test::Fail;

/// `openssl cms -digest_create -in text -binary -md sha256 -outform DER`.
const DIGESTED: &str =
    "305706092a864886f70d010705a04a3048020100300b0609608648016503040201301406092a864886f70d010701a0070405666c6f75720420f55f97cfa0dd5f18c1ac07d2c361b198f19fd8522032faae0451a1500f1c5f50";

/// `openssl cms -EncryptedData_encrypt -in text -binary -aes128 -secretkey
/// 000102030405060708090a0b0c0d0e0f -outform DER`.
const ENCRYPTED: &str =
    "305006092a864886f70d010706a0433041020100303c06092a864886f70d010701301d06096086480165030401020410994e3e76e485be03dfb0a36f5572151180103d6015d872f9d4c057ef84c2a498b068";

fn digested_again(alloc: Global, octets: &[u8]) -> Result<Vec<u8>, u8> {
    again::<DigestedData>(alloc, octets)
}

fn encrypted_again(alloc: Global, octets: &[u8]) -> Result<Vec<u8>, u8> {
    again::<EncryptedData>(alloc, octets)
}

fn digested_compared(alloc: Global, first: &[u8], second: &[u8]) -> Result<(Ordering, bool), u8> {
    read_and_compared::<DigestedData>(alloc, first, second)
}

fn encrypted_compared(alloc: Global, first: &[u8], second: &[u8]) -> Result<(Ordering, bool), u8> {
    read_and_compared::<EncryptedData>(alloc, first, second)
}

fn digested_copied(alloc: Global, octets: &[u8]) -> Result<bool, u8> {
    read_and_copied::<DigestedData>(alloc, octets)
}

fn encrypted_copied(alloc: Global, octets: &[u8]) -> Result<bool, u8> {
    read_and_copied::<EncryptedData>(alloc, octets)
}

// Returns the version, the content, and the digest.
fn digested_told(alloc: Global, octets: &[u8]) -> Result<(u8, Option<Vec<u8>>, Vec<u8>), u8> {
    match DigestedData::from_der(alloc, octets) {
        Ok(digested) => {
            let content = match digested.encap_content_info().e_content() {
                Some(content) => Some(copied(alloc, content.as_bytes())?),
                None => None,
            };
            let digest = copied(alloc, digested.digest().as_bytes())?;
            Ok((digested.version(), content, digest))
        }
        Err(e) => Err(e.kind().number()),
    }
}

// Returns the version, the contents octets of the cipher's identifier, the number of encrypted
// octets, and the number of attributes.
fn encrypted_told(
    alloc: Global,
    octets: &[u8],
) -> Result<(u8, Vec<u8>, Option<usize>, Option<usize>), u8> {
    match EncryptedData::from_der(alloc, octets) {
        Ok(encrypted) => {
            let content = encrypted.encrypted_content_info();
            let cipher = content.content_encryption_algorithm().oid;
            let cipher = copied(alloc, cipher.as_bytes())?;
            let text = match content.encrypted_content() {
                Some(text) => Some(text.as_bytes().len()),
                None => None,
            };
            let attributes = match encrypted.unprotected_attrs() {
                Some(attributes) => Some(numbered(attributes.items().count(alloc))?),
                None => None,
            };
            Ok((encrypted.version(), cipher, text, attributes))
        }
        Err(e) => Err(e.kind().number()),
    }
}

#[test]
fn digested_messages_are_read(rt: HostRuntime) -> Result<(), Fail> {
    let alloc = rt.alloc();
    let octets = hex::decode(alloc, DIGESTED)?;
    let digested = content_of(alloc, octets.as_slice())?;
    let written = digested_again(alloc, digested.as_slice())?;
    same(&rt, written.as_slice(), digested.as_slice());
    for i in 0..digested.len() {
        let number = digested_again(alloc, &digested[..i]).err();
        same_in(&rt, &i, number, Some(2));
    }
    let text = copied(alloc, "flour".as_bytes())?;
    let digest = hex::decode(
        alloc,
        "f55f97cfa0dd5f18c1ac07d2c361b198f19fd8522032faae0451a1500f1c5f50",
    )?;
    let found = digested_told(alloc, digested.as_slice());
    same(&rt, found, Ok((0, Some(text), digest)));
    Ok(())
}

#[test]
fn encrypted_messages_are_read(rt: HostRuntime) -> Result<(), Fail> {
    let alloc = rt.alloc();
    let octets = hex::decode(alloc, ENCRYPTED)?;
    let encrypted = content_of(alloc, octets.as_slice())?;
    let written = encrypted_again(alloc, encrypted.as_slice())?;
    same(&rt, written.as_slice(), encrypted.as_slice());
    for i in 0..encrypted.len() {
        let number = encrypted_again(alloc, &encrypted[..i]).err();
        same_in(&rt, &i, number, Some(2));
    }
    let cipher = hex::decode(alloc, "608648016503040102")?;
    let found = encrypted_told(alloc, encrypted.as_slice());
    same(&rt, found, Ok((0, cipher, Some(16), None)));
    Ok(())
}

#[test]
fn a_changed_octet_of_a_digested_message_is_refused(rt: HostRuntime) -> Result<(), Fail> {
    let alloc = rt.alloc();
    let rows = [
        // a SET, a version of the type BOOLEAN, and a content that is no OCTET STRING
        (0, 0x31, 4),
        (2, 0x01, 4),
        (33, 0x0c, 4),
        // a content with another tag, and a digest that is a BIT STRING
        (31, 0xa1, 3),
        (40, 0x03, 4),
    ];
    for (place, octet, number) in rows {
        let octets = hex::decode(alloc, DIGESTED)?;
        let mut digested = content_of(alloc, octets.as_slice())?;
        put(&rt, &mut digested, place, octet);
        let answer = digested_again(alloc, digested.as_slice());
        same_in(&rt, &place, answer.err(), Some(number));
    }
    Ok(())
}

#[test]
fn a_changed_octet_of_an_encrypted_message_is_refused(rt: HostRuntime) -> Result<(), Fail> {
    let alloc = rt.alloc();
    let rows = [
        // a SET, and a content with no type
        (0, 0x31, 4),
        (7, 0x05, 4),
        // an algorithm that is a SET, and text with another tag or with a constructed one
        (18, 0x31, 4),
        (49, 0x81, 3),
        (49, 0xa0, 3),
    ];
    for (place, octet, number) in rows {
        let octets = hex::decode(alloc, ENCRYPTED)?;
        let mut encrypted = content_of(alloc, octets.as_slice())?;
        put(&rt, &mut encrypted, place, octet);
        let answer = encrypted_again(alloc, encrypted.as_slice());
        same_in(&rt, &place, answer.err(), Some(number));
    }
    Ok(())
}

#[test]
fn attributes_that_are_not_protected_are_some(rt: HostRuntime) -> Result<(), Fail> {
    let alloc = rt.alloc();
    // the text is left out, and one attribute stands after it; none is refused
    let octets = hex::decode(
        alloc,
        "301c020102300c06032a0304300506032a0305a109300706032a03033100",
    )?;
    let written = encrypted_again(alloc, octets.as_slice())?;
    same(&rt, written.as_slice(), octets.as_slice());
    let cipher = hex::decode(alloc, "2a0305")?;
    let found = encrypted_told(alloc, octets.as_slice());
    same(&rt, found, Ok((2, cipher, None, Some(1))));
    let octets = hex::decode(alloc, "3013020102300c06032a0304300506032a0305a100")?;
    let answer = encrypted_again(alloc, octets.as_slice());
    same(&rt, answer.err(), Some(13));
    Ok(())
}

#[test]
fn they_are_in_the_order_of_their_encodings(rt: HostRuntime) -> Result<(), Fail> {
    let alloc = rt.alloc();
    let octets = hex::decode(alloc, DIGESTED)?;
    let digested = content_of(alloc, octets.as_slice())?;
    let short = hex::decode(alloc, "3013020100300506032a0305300506032a03040400")?;
    let found = digested_compared(alloc, short.as_slice(), digested.as_slice());
    same(&rt, found, Ok((Ordering::Less, false)));
    let found = digested_compared(alloc, digested.as_slice(), digested.as_slice());
    same(&rt, found, Ok((Ordering::Equal, true)));
    same(&rt, digested_copied(alloc, digested.as_slice()), Ok(true));
    let octets = hex::decode(alloc, ENCRYPTED)?;
    let encrypted = content_of(alloc, octets.as_slice())?;
    let short = hex::decode(
        alloc,
        "301c020102300c06032a0304300506032a0305a109300706032a03033100",
    )?;
    let found = encrypted_compared(alloc, encrypted.as_slice(), short.as_slice());
    same(&rt, found, Ok((Ordering::Greater, false)));
    let found = encrypted_compared(alloc, short.as_slice(), short.as_slice());
    same(&rt, found, Ok((Ordering::Equal, true)));
    same(&rt, encrypted_copied(alloc, short.as_slice()), Ok(true));
    Ok(())
}
