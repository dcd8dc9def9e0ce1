//! Certificates with many extensions, and how the time to check them grows.

use super::data::CERTIFICATE;
use crate::tests::same;
use der_asn1_types::FromDer;
use der_pkix::certificate::Certificate;
use der_verify::{CertificateRule, check_certificate};
use std::alloc::{AllocError, Global};
use std::process::Abort;
use std::test::Fail;
use std::time::{CpuClock, Duration};

/// Adds an extension with an identifier (1.2.N, with N from 128 on) and no value: 30 07, 06 03 2A
/// hi lo, 04 00.
fn put_extension(octets: &mut Vec<u8>, number: u16) -> Result<(), AllocError> {
    let high = (0x80 | (number >> 7 & 0x7f)) as u8;
    let low = (number & 0x7f) as u8;
    octets.extend_from_slice(&[0x30, 0x07, 0x06, 0x03, 0x2a, high, low, 0x04, 0x00])
}

/// Adds a tag and a length of two octets.
fn put_header(octets: &mut Vec<u8>, tag: u8, length: usize) -> Result<(), AllocError> {
    let high = (length >> 8 & 0xff) as u8;
    let low = (length & 0xff) as u8;
    octets.extend_from_slice(&[tag, 0x82, high, low])
}

/// Returns the octets of a certificate that has extensions with these numbers in place of those
/// of `CERTIFICATE`. The first fields of `CERTIFICATE` are at 7 to 134, and the octets after the
/// signed part begin at 227.
fn certificate_with(alloc: Global, numbers: &[u16]) -> Result<Vec<u8>, Fail> {
    let old = hex::decode(alloc, CERTIFICATE)?;
    let fields = old.get(7..134).ok_or("no fields")?;
    let behind = old.get(227..).ok_or("nothing behind")?;
    let mut extensions = Vec::new(alloc);
    for number in numbers {
        put_extension(&mut extensions, *number)?;
    }
    let length = extensions.len();
    let mut octets = Vec::new(alloc);
    put_header(&mut octets, 0x30, length.saturating_add(12 + 127 + 74))?;
    put_header(&mut octets, 0x30, length.saturating_add(8 + 127))?;
    octets.extend_from_slice(fields)?;
    put_header(&mut octets, 0xa3, length.saturating_add(4))?;
    put_header(&mut octets, 0x30, length)?;
    octets.extend_from_slice(extensions.as_slice())?;
    octets.extend_from_slice(behind)?;
    Ok(octets)
}

/// Returns `count` numbers, from 128 on.
fn numbers_to(alloc: Global, count: u16) -> Result<Vec<u16>, AllocError> {
    let mut numbers = Vec::new(alloc);
    for number in 0..count {
        numbers.push(number.saturating_add(128))?;
    }
    Ok(numbers)
}

/// Returns the processor time of asking `times` times whether a certificate has an extension
/// twice.
fn time_to_ask(
    rt: &impl CpuClock,
    alloc: Global,
    certificate: &Certificate,
    times: u32,
) -> Result<Duration, Fail> {
    let begin = rt.thread_cpu_time()?;
    for _ in 0..times {
        if CertificateRule::ExtensionsStandOnce.is_broken_in(alloc, certificate)? {
            return Err(Fail::from("an extension stands twice"));
        }
    }
    let end = rt.thread_cpu_time()?;
    Ok(end.saturating_sub(begin))
}

/// Returns that processor time for the certificate in these octets.
fn time_of(rt: &impl CpuClock, alloc: Global, octets: &[u8], times: u32) -> Result<Duration, Fail> {
    match Certificate::from_der(alloc, octets) {
        Ok(certificate) => time_to_ask(rt, alloc, &certificate, times),
        Err(e) => Err(Fail::from(e)),
    }
}

/// Returns the rules that the certificate in these octets breaks.
fn rules_of(alloc: Global, octets: &[u8]) -> Result<Vec<CertificateRule>, Fail> {
    match Certificate::from_der(alloc, octets) {
        Ok(certificate) => match check_certificate(alloc, &certificate) {
            Ok(found) => Ok(found),
            Err(e) => Err(Fail::from(e)),
        },
        Err(e) => Err(Fail::from(e)),
    }
}

/// If n extensions take n log n comparisons, asking once about 2,048 takes little more time than
/// asking 16 times about 128. If each is compared with all those after it, it takes many times as
/// much. The best of three trials decides, since other programs run at the same time.
#[test]
fn many_extensions_take_little_more_time_each(rt: HostRuntime) -> Result<(), Fail> {
    let alloc = rt.alloc();
    let few = certificate_with(alloc, numbers_to(alloc, 128)?.as_slice())?;
    let many = certificate_with(alloc, numbers_to(alloc, 2048)?.as_slice())?;
    let mut is_little = false;
    for _ in 0..3 {
        let of_few = time_of(&rt, alloc, few.as_slice(), 16)?;
        let of_many = time_of(&rt, alloc, many.as_slice(), 1)?;
        is_little = is_little || of_many < of_few.saturating_mul(5);
    }
    same(&rt, is_little, true);
    Ok(())
}

#[test]
fn one_of_many_that_stands_twice_is_found(rt: HostRuntime) -> Result<(), Fail> {
    let alloc = rt.alloc();
    let mut numbers = numbers_to(alloc, 300)?;
    for (number, rules) in [
        (428, [].as_slice()),
        (427, [CertificateRule::ExtensionsStandOnce].as_slice()),
        (128, [CertificateRule::ExtensionsStandOnce].as_slice()),
    ] {
        numbers.push(number)?;
        let octets = certificate_with(alloc, numbers.as_slice())?;
        let found = rules_of(alloc, octets.as_slice())?;
        same(&rt, found.as_slice(), rules);
        numbers.truncate(300);
    }
    Ok(())
}
