//! Extensions.

use super::wanted;
use crate::tests::{numbered, same_in};
use der_asn1_types::Encode;
use der_build::extension;
use std::alloc::Global;
use std::process::Abort;
use std::test::Fail;

// Returns the octets of an extension.
fn extension_of(
    alloc: Global,
    identifier: &[u8],
    critical: bool,
    value: &[u8],
) -> Result<Vec<u8>, u8> {
    match extension(identifier, critical, value) {
        Ok(extension) => numbered(extension.to_der(alloc)),
        Err(e) => Err(e.kind().number()),
    }
}

#[test]
fn extensions_are_built(rt: HostRuntime) -> Result<(), Fail> {
    let alloc = rt.alloc();
    let identifier = [0x55, 0x1d, 0x13];
    let built = extension_of(
        alloc,
        identifier.as_slice(),
        true,
        &[0x30, 0x03, 0x01, 0x01, 0xff],
    );
    let octets = "300f0603551d130101ff040530030101ff";
    same_in(&rt, &"critical", built, wanted(alloc, octets));
    let built = extension_of(alloc, identifier.as_slice(), false, &[0x30, 0x00]);
    let octets = "30090603551d1304023000";
    same_in(&rt, &"not critical", built, wanted(alloc, octets));
    let built = extension_of(alloc, &[], false, &[0x30, 0x00]);
    same_in(&rt, &"no identifier", built, Err(15));
    let built = extension_of(alloc, [0x2a; 40].as_slice(), false, &[0x30, 0x00]);
    same_in(&rt, &"40 octets", built, Err(7));
    Ok(())
}
