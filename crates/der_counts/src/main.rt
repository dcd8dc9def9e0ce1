//! Reads and writes messages a given number of times, so that the instructions of one round can
//! be counted.
//!
//! Standard input has an octet for the task, an octet with the number of rounds, and a SEQUENCE
//! OF OCTET STRING with the messages. Standard output gets the sum of the results of the calls.
#![tactic(auto)]

use der_asn1_types::asn1::{AnyRef, OctetStringRef};
use der_asn1_types::{Decode, Encode, FromDer, Reader, SliceReader, Tagged};
use der_cms::cms::{ContentInfo, SignedData};
use der_modules::copy_of;
use der_ocsp::ocsp::{BasicOcspResponse, OcspResponse};
use der_pkix::certificate::Certificate;
use der_pkix::crl::CertificateList;
use der_pkix::name::{Name, RelativeDistinguishedName};
use std::alloc::Global;
use std::io::Read;
use std::process::ExitCode;

/// Returns 1 if the octets are read as a value of the type, otherwise 0.
fn is_read<'a, T: FromDer<'a>>(alloc: Global, octets: &'a [u8]) -> usize {
    match T::from_der(alloc, octets) {
        Ok(_value) => 1,
        Err(_) => 0,
    }
}

/// Returns the number of octets of the value's encoding after it is read and written; 0 if the
/// octets are refused.
fn rewritten<'a, T: FromDer<'a> + Encode>(alloc: Global, octets: &'a [u8]) -> usize {
    match T::from_der(alloc, octets) {
        Ok(value) => match value.to_der(alloc) {
            Ok(written) => written.len(),
            Err(_) => 0,
        },
        Err(_) => 0,
    }
}

/// Counts the values in the octets, at each depth.
fn walked(alloc: Global, octets: &[u8], depth: u32) -> u32 {
    if depth == 0 {
        return 0;
    }
    let Ok(mut reader) = SliceReader::new(octets) else {
        return 0;
    };
    let mut count: u32 = 0;
    for _ in 0..u32::MAX {
        if reader.is_finished() {
            return count;
        }
        match AnyRef::decode(alloc, &mut reader) {
            Ok(any) => {
                count = count.wrapping_add(1);
                if any.tag().is_constructed() {
                    count = count.wrapping_add(walked(alloc, any.value(), depth - 1));
                }
            }
            Err(_) => return 0,
        }
    }
    count
}

/// Returns whether each attribute of a relative name can be read again.
fn has_attributes(alloc: Global, place: &RelativeDistinguishedName<'_>) -> bool {
    for attribute in place.items().iter(alloc) {
        if attribute.is_err() {
            return false;
        }
    }
    true
}

/// Returns 1 if each relative name of a name, and each of its attributes, can be read again,
/// otherwise 0.
fn name_is_read(alloc: Global, name: &Name<'_>) -> usize {
    for place in name.items().iter(alloc) {
        match place {
            Ok(place) if has_attributes(alloc, &place) => {}
            _ => return 0,
        }
    }
    1
}

/// Returns 1 if the octets are a certificate whose two names can be read again, attribute by
/// attribute, otherwise 0.
fn certificate_with_names(alloc: Global, octets: &[u8]) -> usize {
    match Certificate::from_der(alloc, octets) {
        Ok(certificate) => {
            let signed = certificate.tbs_certificate();
            let issuer = name_is_read(alloc, signed.issuer());
            issuer.min(name_is_read(alloc, signed.subject()))
        }
        Err(_) => 0,
    }
}

/// Returns 1 if the octets are a message with SignedData as its content, otherwise 0.
fn signed_message(alloc: Global, octets: &[u8]) -> usize {
    match ContentInfo::from_der(alloc, octets) {
        Ok(message) => match copy_of(message.content()).decode_as::<SignedData>(alloc) {
            Ok(_signed) => 1,
            Err(_) => 0,
        },
        Err(_) => 0,
    }
}

/// Returns 1 if the octets are a response about the status of certificates with a basic response,
/// otherwise 0.
fn status_answer(alloc: Global, octets: &[u8]) -> usize {
    match OcspResponse::from_der(alloc, octets) {
        Ok(answer) => match answer.response_bytes() {
            Some(bytes) => is_read::<BasicOcspResponse>(alloc, bytes.response().as_bytes()),
            None => 0,
        },
        Err(_) => 0,
    }
}

fn done(alloc: Global, mode: u8, octets: &[u8]) -> usize {
    match mode {
        b'i' => is_read::<Vec<i64>>(alloc, octets),
        b'I' => rewritten::<Vec<i64>>(alloc, octets),
        b'w' => walked(alloc, octets, 100) as usize,
        b'c' => is_read::<Certificate>(alloc, octets),
        b'C' => rewritten::<Certificate>(alloc, octets),
        b'n' => certificate_with_names(alloc, octets),
        b'l' => is_read::<CertificateList>(alloc, octets),
        b's' => signed_message(alloc, octets),
        b'a' => status_answer(alloc, octets),
        _ => 0,
    }
}

/// Returns the sum of the results of `rounds` rounds over the messages.
fn done_rounds(alloc: Global, mode: u8, rounds: u8, messages: &[OctetStringRef<'_>]) -> usize {
    let mut sum: usize = 0;
    for _ in 0..rounds {
        for message in messages {
            sum = sum.wrapping_add(done(alloc, mode, message.as_bytes()));
        }
    }
    sum
}

fn answer(alloc: Global, input: &[u8]) -> usize {
    match input {
        [mode, rounds, rest @ ..] => match Vec::<OctetStringRef>::from_der(alloc, rest) {
            Ok(messages) => done_rounds(alloc, *mode, *rounds, messages.as_slice()),
            Err(_) => 0,
        },
        _ => 0,
    }
}

fn main(rt: HostRuntime) -> ExitCode {
    let mut input = Vec::new(rt.alloc());
    if rt.reader().read_to_end(&mut input).is_err() {
        return ExitCode::FAILURE;
    }
    let sum = answer(rt.alloc(), &input);
    match println!(rt; "{sum}") {
        Ok(()) => ExitCode::SUCCESS,
        Err(_) => ExitCode::FAILURE,
    }
}
