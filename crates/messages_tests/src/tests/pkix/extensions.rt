//! Extensions.

use crate::tests::{copied, same};
use der_asn1_types::FromDer;
use der_pkix::certificate::Extension;
use std::alloc::Global;
use std::process::Abort;
use std::test::Fail;

// Returns the contents octets of the identifier, whether the extension is critical, and the
// octets of its value.
fn extension_told(alloc: Global, octets: &[u8]) -> Result<(Vec<u8>, bool, Vec<u8>), u8> {
    match Extension::from_der(alloc, octets) {
        Ok(extension) => {
            let identifier = extension.extn_id();
            let value = *extension.extn_value();
            let identifier = copied(alloc, identifier.as_bytes())?;
            let value = copied(alloc, value.as_bytes())?;
            Ok((identifier, extension.critical(), value))
        }
        Err(e) => Err(e.kind().number()),
    }
}

#[test]
fn extensions_have_fields(rt: HostRuntime) -> Result<(), Fail> {
    let alloc = rt.alloc();
    let octets = hex::decode(alloc, "300f0603551d130101ff040530030101ff")?;
    let found = extension_told(alloc, octets.as_slice());
    let identifier = hex::decode(alloc, "551d13")?;
    let value = hex::decode(alloc, "30030101ff")?;
    same(&rt, found, Ok((identifier, true, value)));
    Ok(())
}
