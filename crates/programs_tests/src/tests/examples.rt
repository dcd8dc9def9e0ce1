//! The examples that open the sources of crates: `tests/contracts` compares them with these tests.

use crate::tests::certview::messages::ED25519_PUBLIC;
use certview_names::MessageNames;
use certview_text::{kind_of, shown};
use der_asn1_types::FromDer;
use der_lines::{LineReader, OctetWriter, run};
use derview_names::{AlgorithmIdentifier, TypeNames};
use std::test::Fail;

#[test]
fn certview_text(rt: HostRuntime) -> Result<(), Fail> {
    let octets = hex::decode(rt.alloc(), ED25519_PUBLIC)?;
    let kind = kind_of(octets.as_slice());
    let text = shown(rt.alloc(), kind, octets.as_slice())?;
    assert!(rt; text.contains("key algorithm: 1.3.101.112 (Ed25519)"));
    Ok(())
}

#[test]
fn certview_names(rt: HostRuntime) -> Result<(), Fail> {
    let mut written = Vec::new(rt.alloc());
    let mut input = LineReader::new(b"keyusage 030205a0\n".as_slice(), u64::MAX);
    let mut output = OctetWriter::new(&mut written);
    let result = run::<MessageNames, _, _>(rt.alloc(), &mut input, &mut output);
    assert!(rt; result.is_ok());
    assert_eq!(rt; written.as_slice(), b"ok 030205a0\n".as_slice());
    Ok(())
}

#[test]
fn der_lines(rt: HostRuntime) -> Result<(), Fail> {
    let mut written = Vec::new(rt.alloc());
    let mut input = LineReader::new(b"u16 020105\nu16 0200\n".as_slice(), u64::MAX);
    let mut output = OctetWriter::new(&mut written);
    let result = run::<TypeNames, _, _>(rt.alloc(), &mut input, &mut output);
    assert!(rt; result.is_ok());
    assert_eq!(rt; written.as_slice(), b"ok 020105\nrefused 7\n".as_slice());
    Ok(())
}

#[test]
fn derview_names(rt: HostRuntime) -> Result<(), Fail> {
    let octets = [0x30, 0x05, 0x06, 0x03, 0x2b, 0x65, 0x70];
    match AlgorithmIdentifier::from_der(rt.alloc(), &octets) {
        Ok(algorithm) => assert!(rt; algorithm.parameters.is_none()),
        Err(_) => return Err("refused".into()),
    }
    Ok(())
}
