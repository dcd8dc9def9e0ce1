//! The octets that are signed.

use super::data::{
    ANSWER, CERTIFICATE, LIST, REQUEST, SIGNED, SIGNED_ANSWER, SIGNED_LIST, SIGNED_REQUEST,
};
use crate::tests::{copied, numbered, same, same_in};
use der_asn1_types::{Encode, FromDer};
use der_ocsp::ocsp::BasicOcspResponse;
use der_pkcs::request::CertificationRequest;
use der_pkix::certificate::Certificate;
use der_pkix::crl::CertificateList;
use der_verify::{
    first_field, octets_of_certification_request_info, octets_of_tbs_cert_list,
    octets_of_tbs_certificate, octets_of_tbs_response_data,
};
use std::alloc::Global;
use std::process::Abort;
use std::test::Fail;

// Returns the signed part of a certificate.
fn signed_of_certificate(alloc: Global, octets: &[u8]) -> Result<Vec<u8>, u8> {
    match octets_of_tbs_certificate(octets) {
        Ok(signed) => copied(alloc, signed),
        Err(e) => Err(e.kind().number()),
    }
}

// Returns the signed part of a list.
fn signed_of_list(alloc: Global, octets: &[u8]) -> Result<Vec<u8>, u8> {
    match octets_of_tbs_cert_list(octets) {
        Ok(signed) => copied(alloc, signed),
        Err(e) => Err(e.kind().number()),
    }
}

// Returns the signed part of a request.
fn signed_of_request(alloc: Global, octets: &[u8]) -> Result<Vec<u8>, u8> {
    match octets_of_certification_request_info(octets) {
        Ok(signed) => copied(alloc, signed),
        Err(e) => Err(e.kind().number()),
    }
}

// Returns the signed part of a response.
fn signed_of_answer(alloc: Global, octets: &[u8]) -> Result<Vec<u8>, u8> {
    match octets_of_tbs_response_data(octets) {
        Ok(signed) => copied(alloc, signed),
        Err(e) => Err(e.kind().number()),
    }
}

// Returns the encoding of the first field of a request that is read.
fn request_again(alloc: Global, octets: &[u8]) -> Result<Vec<u8>, u8> {
    match CertificationRequest::from_der(alloc, octets) {
        Ok(request) => numbered(request.certification_request_info().to_der(alloc)),
        Err(e) => Err(e.kind().number()),
    }
}

// Returns the encoding of the first field of a response that is read.
fn answer_again(alloc: Global, octets: &[u8]) -> Result<Vec<u8>, u8> {
    match BasicOcspResponse::from_der(alloc, octets) {
        Ok(answer) => numbered(answer.tbs_response_data().to_der(alloc)),
        Err(e) => Err(e.kind().number()),
    }
}

// Returns the first encoding.
fn first_told(alloc: Global, octets: &[u8]) -> Result<Vec<u8>, u8> {
    match first_field(octets) {
        Ok(first) => copied(alloc, first),
        Err(e) => Err(e.kind().number()),
    }
}

// Returns the encoding of the first field of a certificate that is read.
fn certificate_again(alloc: Global, octets: &[u8]) -> Result<Vec<u8>, u8> {
    match Certificate::from_der(alloc, octets) {
        Ok(certificate) => numbered(certificate.tbs_certificate().to_der(alloc)),
        Err(e) => Err(e.kind().number()),
    }
}

// Returns the encoding of the first field of a list that is read.
fn list_again(alloc: Global, octets: &[u8]) -> Result<Vec<u8>, u8> {
    match CertificateList::from_der(alloc, octets) {
        Ok(list) => numbered(list.tbs_cert_list().to_der(alloc)),
        Err(e) => Err(e.kind().number()),
    }
}

#[test]
fn the_octets_that_are_signed_of_a_certificate(rt: HostRuntime) -> Result<(), Fail> {
    let alloc = rt.alloc();
    let octets = hex::decode(alloc, CERTIFICATE)?;
    let wanted = hex::decode(alloc, SIGNED)?;
    let found = signed_of_certificate(alloc, octets.as_slice())?;
    same(&rt, found.as_slice(), wanted.as_slice());
    let found = certificate_again(alloc, octets.as_slice())?;
    same(&rt, found.as_slice(), wanted.as_slice());
    for i in 0..octets.len() {
        let number = signed_of_certificate(alloc, &octets[..i]).err();
        same_in(&rt, &i, number, Some(2));
    }
    Ok(())
}

#[test]
fn the_octets_that_are_signed_of_a_list(rt: HostRuntime) -> Result<(), Fail> {
    let alloc = rt.alloc();
    let octets = hex::decode(alloc, LIST)?;
    let wanted = hex::decode(alloc, SIGNED_LIST)?;
    let found = signed_of_list(alloc, octets.as_slice())?;
    same(&rt, found.as_slice(), wanted.as_slice());
    let found = list_again(alloc, octets.as_slice())?;
    same(&rt, found.as_slice(), wanted.as_slice());
    for i in 0..octets.len() {
        let number = signed_of_list(alloc, &octets[..i]).err();
        same_in(&rt, &i, number, Some(2));
    }
    Ok(())
}

#[test]
fn octets_with_no_first_field_are_refused(rt: HostRuntime) -> Result<(), Fail> {
    let alloc = rt.alloc();
    let rows = [
        // no contents octets, and a field that is longer than they are
        ("3000", 2),
        ("3003020205", 2),
        ("30020201", 2),
        // lengths that are not DER's, of the whole and of the field
        ("308002010500", 16),
        ("308103020105", 10),
        ("3005028101050500", 10),
        // a SEQUENCE that is primitive, and a tag of no type
        ("1003020105", 8),
        ("30032f0105", 5),
    ];
    for (digits, number) in rows {
        let octets = hex::decode(alloc, digits)?;
        let answer = first_told(alloc, octets.as_slice());
        same_in(&rt, &digits, answer.err(), Some(number));
    }
    // a tag that is another, and octets behind it, are taken
    let wanted = hex::decode(alloc, "020105")?;
    for digits in ["3003020105", "30050201050500", "a103020105", "300302010500"] {
        let octets = hex::decode(alloc, digits)?;
        let found = first_told(alloc, octets.as_slice())?;
        same_in(&rt, &digits, found.as_slice(), wanted.as_slice());
    }
    Ok(())
}

#[test]
fn the_octets_that_are_signed_of_a_request_and_an_answer(rt: HostRuntime) -> Result<(), Fail> {
    let alloc = rt.alloc();
    let octets = hex::decode(alloc, REQUEST)?;
    let wanted = hex::decode(alloc, SIGNED_REQUEST)?;
    let found = signed_of_request(alloc, octets.as_slice())?;
    same(&rt, found.as_slice(), wanted.as_slice());
    let found = request_again(alloc, octets.as_slice())?;
    same(&rt, found.as_slice(), wanted.as_slice());
    let octets = hex::decode(alloc, ANSWER)?;
    let wanted = hex::decode(alloc, SIGNED_ANSWER)?;
    let found = signed_of_answer(alloc, octets.as_slice())?;
    same(&rt, found.as_slice(), wanted.as_slice());
    let found = answer_again(alloc, octets.as_slice())?;
    same(&rt, found.as_slice(), wanted.as_slice());
    Ok(())
}
