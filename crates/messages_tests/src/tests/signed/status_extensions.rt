//! The values of the extensions of requests and answers (RFC 6960 section 4.4): octets that `openssl
//! asn1parse -genconf` wrote.

use crate::tests::{again, copied, numbered, read_and_compared, same, same_in};
use der_asn1_types::FromDer;
use der_ocsp::ocsp::{
    AcceptableResponses, ArchiveCutoff, CrlId, ExtendedRevoke, Nonce, PreferredSignatureAlgorithms,
    ServiceLocator,
};
use std::alloc::Global;
use std::cmp::Ordering;
use std::process::Abort;
use std::test::Fail;

/// The location of a list, its number, and its time.
const LIST: &str =
    "3036a01b1619687474703a2f2f6d696c6c2e6578616d706c652f612e63726ca10402020100a211180f32303236313132373030303030305a";

/// The identifiers of the basic answer and of a nonce.
const TYPES: &str = "301606092b060105050730010106092b0601050507300102";

/// The issuer CN=mill, and the location of its responder.
const LOCATOR: &str =
    "3035300f310d300b06035504030c046d696c6c3022302006082b060105050730018614687474703a2f2f6d696c6c2e6578616d706c652f";

/// Ed25519, and ECDSA with SHA-256 for keys on P-256.
const ALGORITHMS: &str =
    "302c3007300506032b65703021300a06082a8648ce3d040302301306072a8648ce3d020106082a8648ce3d030107";

fn list_again(alloc: Global, octets: &[u8]) -> Result<Vec<u8>, u8> {
    again::<CrlId>(alloc, octets)
}

fn types_again(alloc: Global, octets: &[u8]) -> Result<Vec<u8>, u8> {
    again::<AcceptableResponses>(alloc, octets)
}

fn locator_again(alloc: Global, octets: &[u8]) -> Result<Vec<u8>, u8> {
    again::<ServiceLocator>(alloc, octets)
}

fn algorithms_again(alloc: Global, octets: &[u8]) -> Result<Vec<u8>, u8> {
    again::<PreferredSignatureAlgorithms>(alloc, octets)
}

fn nonce_again(alloc: Global, octets: &[u8]) -> Result<Vec<u8>, u8> {
    again::<Nonce>(alloc, octets)
}

fn cutoff_again(alloc: Global, octets: &[u8]) -> Result<Vec<u8>, u8> {
    again::<ArchiveCutoff>(alloc, octets)
}

fn revoke_again(alloc: Global, octets: &[u8]) -> Result<Vec<u8>, u8> {
    again::<ExtendedRevoke>(alloc, octets)
}

fn algorithms_compared(alloc: Global, first: &[u8], second: &[u8]) -> Result<(Ordering, bool), u8> {
    read_and_compared::<PreferredSignatureAlgorithms>(alloc, first, second)
}

// Returns the number of octets of the list's location, the octets of its number, and its year.
fn list_told(
    alloc: Global,
    octets: &[u8],
) -> Result<(Option<usize>, Option<Vec<u8>>, Option<u16>), u8> {
    match CrlId::from_der(alloc, octets) {
        Ok(list) => {
            let place = match list.crl_url() {
                Some(place) => Some(place.as_bytes().len()),
                None => None,
            };
            let number = match list.crl_num() {
                Some(number) => Some(copied(alloc, number.as_bytes())?),
                None => None,
            };
            let year = match list.crl_time() {
                Some(time) => Some(time.to_date_time().year()),
                None => None,
            };
            Ok((place, number, year))
        }
        Err(e) => Err(e.kind().number()),
    }
}

// Returns the number of algorithms, and whether the last one names the algorithm of the key.
fn algorithms_told(alloc: Global, octets: &[u8]) -> Result<(usize, bool), u8> {
    match PreferredSignatureAlgorithms::from_der(alloc, octets) {
        Ok(algorithms) => {
            let count = numbered(algorithms.items().count(alloc))?;
            match algorithms.items().get(alloc, count.saturating_sub(1)) {
                Some(Ok(last)) => Ok((count, last.cert_identifier().is_some())),
                Some(Err(e)) => Err(e.kind().number()),
                None => Err(0),
            }
        }
        Err(e) => Err(e.kind().number()),
    }
}

#[test]
fn values_of_extensions_are_written_back(rt: HostRuntime) -> Result<(), Fail> {
    let alloc = rt.alloc();
    let octets = hex::decode(alloc, LIST)?;
    let written = list_again(alloc, octets.as_slice())?;
    same(&rt, written.as_slice(), octets.as_slice());
    let octets = hex::decode(alloc, TYPES)?;
    let written = types_again(alloc, octets.as_slice())?;
    same(&rt, written.as_slice(), octets.as_slice());
    let octets = hex::decode(alloc, LOCATOR)?;
    let written = locator_again(alloc, octets.as_slice())?;
    same(&rt, written.as_slice(), octets.as_slice());
    let octets = hex::decode(alloc, ALGORITHMS)?;
    let written = algorithms_again(alloc, octets.as_slice())?;
    same(&rt, written.as_slice(), octets.as_slice());
    Ok(())
}

#[test]
fn values_of_one_field_are_written_back(rt: HostRuntime) -> Result<(), Fail> {
    let alloc = rt.alloc();
    let octets = hex::decode(alloc, "0410883387645de3917ec5821a32927d0f1c")?;
    let written = nonce_again(alloc, octets.as_slice())?;
    same(&rt, written.as_slice(), octets.as_slice());
    let octets = hex::decode(alloc, "180f32303139313132373030303030305a")?;
    let written = cutoff_again(alloc, octets.as_slice())?;
    same(&rt, written.as_slice(), octets.as_slice());
    let octets = hex::decode(alloc, "0500")?;
    let written = revoke_again(alloc, octets.as_slice())?;
    same(&rt, written.as_slice(), octets.as_slice());
    Ok(())
}

#[test]
fn lists_have_fields(rt: HostRuntime) -> Result<(), Fail> {
    let alloc = rt.alloc();
    let octets = hex::decode(alloc, LIST)?;
    let number = hex::decode(alloc, "0100")?;
    let found = list_told(alloc, octets.as_slice());
    same(&rt, found, Ok((Some(25), Some(number), Some(2026))));
    let octets = hex::decode(alloc, "3000")?;
    let found = list_told(alloc, octets.as_slice());
    same(&rt, found, Ok((None, None, None)));
    Ok(())
}

#[test]
fn algorithms_may_name_those_of_keys(rt: HostRuntime) -> Result<(), Fail> {
    let alloc = rt.alloc();
    let octets = hex::decode(alloc, ALGORITHMS)?;
    let found = algorithms_told(alloc, octets.as_slice());
    same(&rt, found, Ok((2, true)));
    let none = hex::decode(alloc, "3000")?;
    let found = algorithms_compared(alloc, none.as_slice(), octets.as_slice());
    same(&rt, found, Ok((Ordering::Less, false)));
    let found = algorithms_compared(alloc, octets.as_slice(), octets.as_slice());
    same(&rt, found, Ok((Ordering::Equal, true)));
    Ok(())
}

#[test]
fn fields_of_lists_stand_in_order(rt: HostRuntime) -> Result<(), Fail> {
    let alloc = rt.alloc();
    let rows = [
        // a place with no explicit tag, one with a primitive tag, and a number before it
        ("3003160161", 3),
        ("3003800161", 3),
        ("300aa103020101a003160161", 3),
        // a character of eight bits, and a time that is a number
        ("3005a0031601ff", 13),
        ("3005a203020101", 4),
    ];
    for (digits, number) in rows {
        let octets = hex::decode(alloc, digits)?;
        let answer = list_again(alloc, octets.as_slice());
        same_in(&rt, &digits, answer.err(), Some(number));
    }
    Ok(())
}

#[test]
fn other_values_are_refused(rt: HostRuntime) -> Result<(), Fail> {
    let alloc = rt.alloc();
    // a type that is a number, a locator with no places, an algorithm with no identifier, and a NULL with
    // an octet
    let octets = hex::decode(alloc, "3003020101")?;
    same(&rt, types_again(alloc, octets.as_slice()).err(), Some(4));
    let octets = hex::decode(alloc, "300430003000")?;
    same(&rt, locator_again(alloc, octets.as_slice()).err(), Some(13));
    let octets = hex::decode(alloc, "300430023000")?;
    same(
        &rt,
        algorithms_again(alloc, octets.as_slice()).err(),
        Some(2),
    );
    let octets = hex::decode(alloc, "050100")?;
    same(&rt, revoke_again(alloc, octets.as_slice()).err(), Some(7));
    Ok(())
}
