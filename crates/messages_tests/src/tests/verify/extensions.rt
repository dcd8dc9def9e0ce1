//! Extensions that are found by their identifiers.

use super::data::{CERTIFICATE, TWICE, UNIQUE_2};
use crate::tests::{copied, same, same_in};
use der_asn1_types::FromDer;
use der_pkix::certificate::Certificate;
use der_verify::find_extension;
use std::alloc::Global;
use std::process::Abort;
use std::test::Fail;

// Returns whether the extension is critical, and the octets of its value. Returns the number 0 if
// the certificate has no extensions.
fn extension_told(
    alloc: Global,
    octets: &[u8],
    identifier: &[u8],
) -> Result<Option<(bool, Vec<u8>)>, u8> {
    match Certificate::from_der(alloc, octets) {
        Ok(certificate) => match certificate.tbs_certificate().extensions() {
            Some(extensions) => match find_extension(alloc, extensions, identifier) {
                Ok(Some(extension)) => {
                    let value = copied(alloc, extension.extn_value().as_bytes())?;
                    Ok(Some((extension.critical(), value)))
                }
                Ok(None) => Ok(None),
                Err(e) => Err(e.kind().number()),
            },
            None => Err(0),
        },
        Err(e) => Err(e.kind().number()),
    }
}

#[test]
fn an_extension_is_found(rt: HostRuntime) -> Result<(), Fail> {
    let alloc = rt.alloc();
    let rows = [
        // basicConstraints, keyUsage, subjectKeyIdentifier and subjectAltName
        (CERTIFICATE, "551d13", true, "30030101ff"),
        (CERTIFICATE, "551d0f", true, "03020106"),
        (
            CERTIFICATE,
            "551d0e",
            false,
            "0414d40d52919d787be8dcfa38f0bf93c8e599eda0e4",
        ),
        (
            CERTIFICATE,
            "551d11",
            false,
            "300e820c6d696c6c2e6578616d706c65",
        ),
        // beside one that stands twice
        (TWICE, "551d13", true, "30030101ff"),
    ];
    for (digits, identifier, critical, value) in rows {
        let octets = hex::decode(alloc, digits)?;
        let contents = hex::decode(alloc, identifier)?;
        let value = hex::decode(alloc, value)?;
        let found = extension_told(alloc, octets.as_slice(), contents.as_slice());
        same_in(&rt, &identifier, found, Ok(Some((critical, value))));
    }
    Ok(())
}

#[test]
fn an_extension_is_not_there_or_stands_twice(rt: HostRuntime) -> Result<(), Fail> {
    let alloc = rt.alloc();
    let octets = hex::decode(alloc, CERTIFICATE)?;
    // nameConstraints, an identifier's beginning, one with an octet more, and no octets
    for identifier in ["551d1e", "551d", "551d0f00", ""] {
        let contents = hex::decode(alloc, identifier)?;
        let found = extension_told(alloc, octets.as_slice(), contents.as_slice());
        same_in(&rt, &identifier, found, Ok(None));
    }
    let contents = hex::decode(alloc, "551d0f")?;
    for (digits, number) in [(TWICE, 13), (UNIQUE_2, 0)] {
        let octets = hex::decode(alloc, digits)?;
        let found = extension_told(alloc, octets.as_slice(), contents.as_slice());
        same(&rt, found, Err(number));
    }
    Ok(())
}
