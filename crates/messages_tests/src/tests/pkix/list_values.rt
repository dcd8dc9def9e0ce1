//! Values of extensions of lists of revoked certificates.

use crate::tests::{copied, numbered, same};
use der_asn1_types::FromDer;
use der_extensions::extension::{
    BaseCrlNumber, CrlNumber, DistributionPointName, IssuingDistributionPoint,
    REASON_FLAGS_KEY_COMPROMISE, REASON_FLAGS_SUPERSEDED,
};
use std::alloc::Global;
use std::process::Abort;
use std::test::Fail;

fn number_told(alloc: Global, octets: &[u8]) -> Result<Vec<u8>, u8> {
    match CrlNumber::from_der(alloc, octets) {
        Ok(number) => copied(alloc, number.as_bytes()),
        Err(e) => Err(e.kind().number()),
    }
}

fn base_told(alloc: Global, octets: &[u8]) -> Result<Vec<u8>, u8> {
    match BaseCrlNumber::from_der(alloc, octets) {
        Ok(number) => copied(alloc, number.as_bytes()),
        Err(e) => Err(e.kind().number()),
    }
}

// Returns the four flags for the scope of the list, in their order.
fn point_told(alloc: Global, octets: &[u8]) -> Result<(bool, bool, bool, bool), u8> {
    match IssuingDistributionPoint::from_der(alloc, octets) {
        Ok(point) => Ok((
            point.only_contains_user_certs(),
            point.only_contains_ca_certs(),
            point.indirect_crl(),
            point.only_contains_attribute_certs(),
        )),
        Err(e) => Err(e.kind().number()),
    }
}

// Returns the number of the point's full names, and whether the list covers compromised keys and
// superseded certificates.
fn reasons_told(alloc: Global, octets: &[u8]) -> Result<(usize, bool, bool), u8> {
    match IssuingDistributionPoint::from_der(alloc, octets) {
        Ok(point) => {
            let names = match point.distribution_point() {
                Some(DistributionPointName::FullName(names)) => {
                    numbered(names.items().count(alloc))?
                }
                _ => 0,
            };
            match point.only_some_reasons() {
                Some(reasons) => Ok((
                    names,
                    reasons.has(REASON_FLAGS_KEY_COMPROMISE),
                    reasons.has(REASON_FLAGS_SUPERSEDED),
                )),
                None => Ok((names, false, false)),
            }
        }
        Err(e) => Err(e.kind().number()),
    }
}

#[test]
fn numbers_of_lists_are_octets(rt: HostRuntime) -> Result<(), Fail> {
    let alloc = rt.alloc();
    let octets = hex::decode(alloc, "02011f")?;
    let found = number_told(alloc, octets.as_slice())?;
    same(&rt, found.as_slice(), [0x1f].as_slice());
    let octets = hex::decode(alloc, "020105")?;
    let found = base_told(alloc, octets.as_slice())?;
    same(&rt, found.as_slice(), [5].as_slice());
    Ok(())
}

#[test]
fn issuing_points_have_answers(rt: HostRuntime) -> Result<(), Fail> {
    let alloc = rt.alloc();
    let octets = hex::decode(alloc, "3000")?;
    let found = point_told(alloc, octets.as_slice());
    same(&rt, found, Ok((false, false, false, false)));
    let octets = hex::decode(
        alloc,
        "302ea022a020861e687474703a2f2f6261726c65792e6578616d706c652f6d696c6c2e63726c8101ff830205608401ff",
    )?;
    let found = point_told(alloc, octets.as_slice());
    same(&rt, found, Ok((true, false, true, false)));
    let octets = hex::decode(alloc, "30068201ff8501ff")?;
    let found = point_told(alloc, octets.as_slice());
    same(&rt, found, Ok((false, true, false, true)));
    Ok(())
}

#[test]
fn issuing_points_have_reasons(rt: HostRuntime) -> Result<(), Fail> {
    let alloc = rt.alloc();
    let octets = hex::decode(
        alloc,
        "302ea022a020861e687474703a2f2f6261726c65792e6578616d706c652f6d696c6c2e63726c8101ff830205608401ff",
    )?;
    let found = reasons_told(alloc, octets.as_slice());
    same(&rt, found, Ok((1, true, false)));
    Ok(())
}
