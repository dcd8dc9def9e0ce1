//! Values of extensions of entries of a list of revoked certificates.

use crate::tests::{copied, numbered, same};
use der_asn1_types::FromDer;
use der_asn1_types::asn1::Enumerated;
use der_extensions::extension::{
    CertificateIssuer, CrlReason, GeneralName, HoldInstructionCode, InvalidityDate,
};
use std::alloc::Global;
use std::process::Abort;
use std::test::Fail;

fn reason_told(alloc: Global, octets: &[u8]) -> Result<CrlReason, u8> {
    match Enumerated::<CrlReason>::from_der(alloc, octets) {
        Ok(reason) => Ok(reason.value),
        Err(e) => Err(e.kind().number()),
    }
}

// Returns the year, the day and the hour.
fn date_told(alloc: Global, octets: &[u8]) -> Result<(u16, u8, u8), u8> {
    match InvalidityDate::from_der(alloc, octets) {
        Ok(date) => {
            let date = date.to_date_time();
            Ok((date.year(), date.day(), date.hour()))
        }
        Err(e) => Err(e.kind().number()),
    }
}

// Returns the number of parts of a directory name.
fn parts_of(alloc: Global, name: &GeneralName) -> Result<usize, u8> {
    match name {
        GeneralName::DirectoryName(name) => numbered(name.items().count(alloc)),
        _ => Err(0),
    }
}

// Returns the number of names, and the number of parts of the first one, which is a directory
// name.
fn issuer_told(alloc: Global, octets: &[u8]) -> Result<(usize, usize), u8> {
    match CertificateIssuer::from_der(alloc, octets) {
        Ok(names) => {
            let count = numbered(names.items().count(alloc))?;
            match names.items().get(alloc, 0) {
                Some(Ok(first)) => Ok((count, parts_of(alloc, &first)?)),
                Some(Err(e)) => Err(e.kind().number()),
                None => Err(0),
            }
        }
        Err(e) => Err(e.kind().number()),
    }
}

// Returns the contents octets of the instruction.
fn instruction_told(alloc: Global, octets: &[u8]) -> Result<Vec<u8>, u8> {
    match HoldInstructionCode::from_der(alloc, octets) {
        Ok(code) => copied(alloc, code.as_bytes()),
        Err(e) => Err(e.kind().number()),
    }
}

#[test]
fn reasons_have_names(rt: HostRuntime) -> Result<(), Fail> {
    let alloc = rt.alloc();
    let rows = [
        ("0a0100", CrlReason::Unspecified),
        ("0a0101", CrlReason::KeyCompromise),
        ("0a0102", CrlReason::CaCompromise),
        ("0a0103", CrlReason::AffiliationChanged),
        ("0a0104", CrlReason::Superseded),
        ("0a0105", CrlReason::CessationOfOperation),
        ("0a0106", CrlReason::CertificateHold),
        ("0a0108", CrlReason::RemoveFromCrl),
        ("0a0109", CrlReason::PrivilegeWithdrawn),
        ("0a010a", CrlReason::AaCompromise),
    ];
    for (digits, reason) in rows {
        let octets = hex::decode(alloc, digits)?;
        same(&rt, reason_told(alloc, octets.as_slice()), Ok(reason));
    }
    Ok(())
}

#[test]
fn dates_have_parts(rt: HostRuntime) -> Result<(), Fail> {
    let alloc = rt.alloc();
    let octets = hex::decode(alloc, "180f32303236313132323038303030305a")?;
    let found = date_told(alloc, octets.as_slice());
    same(&rt, found, Ok((2026, 22, 8)));
    Ok(())
}

#[test]
fn issuers_of_entries_have_names(rt: HostRuntime) -> Result<(), Fail> {
    let alloc = rt.alloc();
    let octets = hex::decode(alloc, "3013a411300f310d300b06035504030c046d696c6c")?;
    let found = issuer_told(alloc, octets.as_slice());
    same(&rt, found, Ok((1, 1)));
    Ok(())
}

#[test]
fn instructions_have_octets(rt: HostRuntime) -> Result<(), Fail> {
    let alloc = rt.alloc();
    // to call the issuer
    let octets = hex::decode(alloc, "06072a8648ce380202")?;
    let found = instruction_told(alloc, octets.as_slice())?;
    let wanted = hex::decode(alloc, "2a8648ce380202")?;
    same(&rt, found.as_slice(), wanted.as_slice());
    Ok(())
}
