//! Public keys.

use crate::tests::same;
use der_asn1_types::FromDer;
use der_pkix::certificate::SubjectPublicKeyInfo;
use std::alloc::Global;
use std::process::Abort;
use std::test::Fail;

// Returns whether the algorithm has parameters, and the number of bits of the key.
fn public_key_told(alloc: Global, octets: &[u8]) -> Result<(bool, usize), u8> {
    match SubjectPublicKeyInfo::from_der(alloc, octets) {
        Ok(key) => Ok((
            key.algorithm().parameters.is_some(),
            key.subject_public_key().bit_len(),
        )),
        Err(e) => Err(e.kind().number()),
    }
}

#[test]
fn public_keys_have_an_algorithm(rt: HostRuntime) -> Result<(), Fail> {
    let alloc = rt.alloc();
    let octets = hex::decode(
        alloc,
        "302a300506032b657003210028bd1e0d803ad1ba41fd5a876c8edf2a39e54b62d959bcf7daf18cf16755a3be",
    )?;
    let found = public_key_told(alloc, octets.as_slice());
    same(&rt, found, Ok((false, 256)));
    Ok(())
}
