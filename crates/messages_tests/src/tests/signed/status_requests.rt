//! Requests for the status of certificates (RFC 6960 section 4.1).

use super::read_and_copied;
use crate::tests::{again, copied, numbered, put, read_and_compared, same, same_in};
use der_asn1_types::FromDer;
use der_ocsp::ocsp::{OcspRequest, Requests, Signature};
use std::alloc::Global;
use std::cmp::Ordering;
use std::process::Abort;
use std::test::Fail;

/// One certificate, and a nonce: `openssl ocsp -issuer ca.pem -cert barley.pem -reqout
/// request.der`.
const NONCE: &str =
    "30673065303e303c303a300906052b0e03021a050004141dd2f1ee5750656f97110b338c846ee99db6d76704140626271012d69951674cb0484d7d1af9d790eb20020102a2233021301f06092b060105050730010204120410883387645de3917ec5821a32927d1ade";

/// Three certificates: `openssl ocsp -issuer ca.pem -serial 2 -serial 3 -serial 9 -no_nonce -reqout
/// request.der`.
const THREE: &str =
    "3081c03081bd3081ba303c303a300906052b0e03021a050004141dd2f1ee5750656f97110b338c846ee99db6d76704140626271012d69951674cb0484d7d1af9d790eb20020102303c303a300906052b0e03021a050004141dd2f1ee5750656f97110b338c846ee99db6d76704140626271012d69951674cb0484d7d1af9d790eb20020103303c303a300906052b0e03021a050004141dd2f1ee5750656f97110b338c846ee99db6d76704140626271012d69951674cb0484d7d1af9d790eb20020109";

/// A signed request, with the signer's certificate: `openssl ocsp -issuer ca.pem -serial 2
/// -no_nonce -signer rye.pem -signkey rye.key -reqout request.der`.
const SIGNED: &str =
    "308201af3054a112a410300e310c300a06035504030c03727965303e303c303a300906052b0e03021a050004141dd2f1ee5750656f97110b338c846ee99db6d76704140626271012d69951674cb0484d7d1af9d790eb20020102a082015530820151300a06082a8648ce3d0403020347003044022057e9cfcb6c757dc0f8c0edc17d07de11ed3c57c4a3235b189d19c1a850c7823602204f8b56ddffd1e997e6bfaaa59e1850ff0baebba6333f02e8737429f52d87e1daa081f93081f63081f33081a6020103300506032b6570300f310d300b06035504030c046d696c6c301e170d3236313132373136303333325a170d3336313132343136303333325a300e310c300a06035504030c037279653059301306072a8648ce3d020106082a8648ce3d030107034200046503210a38711f5ada714682d15632b0ba138cec61ee2d404551bbcc523180ac31fe731d8c07f7b3e1a697848f909582789ead596c3260365d9367e5ae1b8d1e300506032b6570034100559776203a939dafc04894db8ff9cc225ea582b85a84fca4e00c2057f05e1eb3e398c7c4ada98dcd15a984cb9d07cf7affccbbe8531909cb971be19561a7de01";

fn request_again(alloc: Global, octets: &[u8]) -> Result<Vec<u8>, u8> {
    again::<OcspRequest>(alloc, octets)
}

fn requests_compared(alloc: Global, first: &[u8], second: &[u8]) -> Result<(Ordering, bool), u8> {
    read_and_compared::<OcspRequest>(alloc, first, second)
}

fn request_copied(alloc: Global, octets: &[u8]) -> Result<bool, u8> {
    read_and_copied::<OcspRequest>(alloc, octets)
}

// Returns the number of certificates that the request is about, and the octets of the last one's
// serial number.
fn asked_told(alloc: Global, requests: &Requests) -> Result<(usize, Vec<u8>), u8> {
    let count = numbered(requests.items().count(alloc))?;
    match requests.items().get(alloc, count.saturating_sub(1)) {
        Some(Ok(last)) => {
            let number = copied(alloc, last.req_cert().serial_number().as_bytes())?;
            Ok((count, number))
        }
        Some(Err(e)) => Err(e.kind().number()),
        None => Err(0),
    }
}

// Returns the number of certificates of a signature.
fn certificates_of(alloc: Global, signature: &Signature) -> Result<usize, u8> {
    match signature.certs() {
        Some(certificates) => numbered(certificates.items().count(alloc)),
        None => Ok(0),
    }
}

// Returns the version, the number of certificates that the request is about, the octets of the
// last one's serial number, the number of extensions, whether the request has a name, and the
// number of certificates of its signature.
fn request_told(
    alloc: Global,
    octets: &[u8],
) -> Result<(u8, usize, Vec<u8>, usize, bool, Option<usize>), u8> {
    match OcspRequest::from_der(alloc, octets) {
        Ok(request) => {
            let asked = request.tbs_request();
            let (count, number) = asked_told(alloc, asked.request_list())?;
            let extensions = match asked.request_extensions() {
                Some(extensions) => numbered(extensions.items().count(alloc))?,
                None => 0,
            };
            let certificates = match request.optional_signature() {
                Some(signature) => Some(certificates_of(alloc, signature)?),
                None => None,
            };
            Ok((
                asked.version(),
                count,
                number,
                extensions,
                asked.requestor_name().is_some(),
                certificates,
            ))
        }
        Err(e) => Err(e.kind().number()),
    }
}

#[test]
fn requests_are_written_back(rt: HostRuntime) -> Result<(), Fail> {
    let alloc = rt.alloc();
    for digits in [NONCE, THREE, SIGNED] {
        let octets = hex::decode(alloc, digits)?;
        let written = request_again(alloc, octets.as_slice())?;
        same(&rt, written.as_slice(), octets.as_slice());
    }
    Ok(())
}

#[test]
fn requests_have_fields(rt: HostRuntime) -> Result<(), Fail> {
    let alloc = rt.alloc();
    let octets = hex::decode(alloc, NONCE)?;
    let number = hex::decode(alloc, "02")?;
    let found = request_told(alloc, octets.as_slice());
    same(&rt, found, Ok((0, 1, number, 1, false, None)));
    let octets = hex::decode(alloc, THREE)?;
    let number = hex::decode(alloc, "09")?;
    let found = request_told(alloc, octets.as_slice());
    same(&rt, found, Ok((0, 3, number, 0, false, None)));
    let octets = hex::decode(alloc, SIGNED)?;
    let number = hex::decode(alloc, "02")?;
    let found = request_told(alloc, octets.as_slice());
    same(&rt, found, Ok((0, 1, number, 0, true, Some(1))));
    Ok(())
}

#[test]
fn each_cut_of_a_request_is_refused(rt: HostRuntime) -> Result<(), Fail> {
    let alloc = rt.alloc();
    for digits in [NONCE, THREE, SIGNED] {
        let octets = hex::decode(alloc, digits)?;
        for i in 0..octets.len() {
            let number = request_again(alloc, &octets[..i]).err();
            same_in(&rt, &i, number, Some(2));
        }
    }
    Ok(())
}

#[test]
fn a_changed_octet_of_a_request_is_refused(rt: HostRuntime) -> Result<(), Fail> {
    let alloc = rt.alloc();
    let rows = [
        // a SET, and no list of certificates
        (NONCE, 0, 0x31, 4),
        (NONCE, 4, 0x04, 4),
        // parameters that are longer than their SEQUENCE, and a number with no octets
        (NONCE, 20, 0x01, 2),
        (NONCE, 66, 0x00, 8),
        // extensions with the tag of the name
        (NONCE, 68, 0xa1, 3),
        // a name of no kind, and a signature with another tag
        (SIGNED, 8, 0xa9, 4),
        (SIGNED, 90, 0xa1, 3),
        // nine unused bits of the signature
        (SIGNED, 112, 0x09, 13),
    ];
    for (digits, place, octet, number) in rows {
        let mut octets = hex::decode(alloc, digits)?;
        put(&rt, &mut octets, place, octet);
        let answer = request_again(alloc, octets.as_slice());
        same_in(&rt, &place, answer.err(), Some(number));
    }
    Ok(())
}

#[test]
fn requests_have_their_fields_in_order(rt: HostRuntime) -> Result<(), Fail> {
    let alloc = rt.alloc();
    let rows = [
        // the version v1, which is the default, and one of 256
        ("30093007a0030201003000", 8),
        ("300a3008a004020201003000", 7),
        // no list, and a list of nothing with a field after it that no request has
        ("30023000", 2),
        ("300630043000a300", 3),
        // no extension
        ("300830063000a2023000", 13),
    ];
    for (digits, number) in rows {
        let octets = hex::decode(alloc, digits)?;
        let answer = request_again(alloc, octets.as_slice());
        same_in(&rt, &digits, answer.err(), Some(number));
    }
    Ok(())
}

#[test]
fn requests_are_in_the_order_of_their_encodings(rt: HostRuntime) -> Result<(), Fail> {
    let alloc = rt.alloc();
    let one = hex::decode(alloc, NONCE)?;
    let three = hex::decode(alloc, THREE)?;
    let found = requests_compared(alloc, one.as_slice(), three.as_slice());
    same(&rt, found, Ok((Ordering::Less, false)));
    let found = requests_compared(alloc, three.as_slice(), one.as_slice());
    same(&rt, found, Ok((Ordering::Greater, false)));
    let found = requests_compared(alloc, one.as_slice(), one.as_slice());
    same(&rt, found, Ok((Ordering::Equal, true)));
    same(&rt, request_copied(alloc, one.as_slice()), Ok(true));
    Ok(())
}
