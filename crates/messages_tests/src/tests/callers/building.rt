//! What is built for a request.

use crate::tests::{numbered, same};
use der_asn1_types::FromDer;
use der_examples::extension_request;
use der_pkix::certificate::Extensions;
use std::alloc::Global;
use std::test::Fail;

// Returns the octets of the attributes of a request for the extensions in these octets.
fn asked_for(alloc: Global, octets: &[u8]) -> Result<Vec<u8>, u8> {
    match Extensions::from_der(alloc, octets) {
        Ok(extensions) => numbered(extension_request(alloc, &extensions)),
        Err(e) => Err(e.kind().number()),
    }
}

// `openssl req -new -key mill.key -subj /CN=mill -addext subjectAltName=DNS:mill`.
#[test]
fn a_request_asks_for_extensions(rt: HostRuntime) -> Result<(), Fail> {
    let alloc = rt.alloc();
    let octets = hex::decode(alloc, "3011300f0603551d110408300682046d696c6c")?;
    let wanted = hex::decode(
        alloc,
        "3122302006092a864886f70d01090e31133011300f0603551d110408300682046d696c6c",
    )?;
    same(&rt, asked_for(alloc, octets.as_slice()), Ok(wanted));
    Ok(())
}
