//! Messages that OpenSSL wrote, read and written back, and octets that are refused.
//!
//! The keys are of Ed25519 and on P-256, and one is of RSA; a comment at the octets says the command.

mod digested;
mod memory;
mod requests;
mod signed_messages;
mod signers;
mod spoilt_answers;
mod status_answers;
mod status_extensions;
mod status_requests;

use crate::tests::{again, is_copied, numbered};
use der_asn1_types::{Duplicate, Encode, FromDer};
use der_cms::cms::ContentInfo;
use der_ocsp::ocsp::OcspResponse;
use der_pkix::name::Attribute;
use std::alloc::Global;

// Returns whether a copy of the value that the octets are read as is equal to it.
fn read_and_copied<'a, T: FromDer<'a> + Duplicate + PartialEq>(
    alloc: Global,
    octets: &'a [u8],
) -> Result<bool, u8> {
    match T::from_der(alloc, octets) {
        Ok(value) => Ok(is_copied(&value)),
        Err(e) => Err(e.kind().number()),
    }
}

// Reads a response about the status of certificates, and writes it again.
fn answer_again(alloc: Global, octets: &[u8]) -> Result<Vec<u8>, u8> {
    again::<OcspResponse>(alloc, octets)
}

// Returns the encoding of the content of a message.
fn content_of(alloc: Global, octets: &[u8]) -> Result<Vec<u8>, u8> {
    match ContentInfo::from_der(alloc, octets) {
        Ok(message) => numbered(message.content().to_der(alloc)),
        Err(e) => Err(e.kind().number()),
    }
}

// Returns the encoding of the first value of an attribute.
fn first_value(alloc: Global, attribute: &Attribute) -> Result<Vec<u8>, u8> {
    match attribute.values().get(alloc, 0) {
        Some(Ok(value)) => numbered(value.to_der(alloc)),
        Some(Err(e)) => Err(e.kind().number()),
        None => Err(0),
    }
}
