//! Values of extensions that are about access to information.

use crate::tests::{copied, numbered, same};
use der_asn1_types::FromDer;
use der_extensions::extension::{
    AccessDescription, AuthorityInfoAccessSyntax, GeneralName, SubjectInfoAccessSyntax,
};
use std::alloc::Global;
use std::process::Abort;
use std::test::Fail;

// Returns the contents octets of the method and of the location, which is a URI.
fn access_told(alloc: Global, access: &AccessDescription) -> Result<(Vec<u8>, Vec<u8>), u8> {
    let method = access.access_method();
    match access.access_location() {
        GeneralName::UniformResourceIdentifier(place) => {
            let method = copied(alloc, method.as_bytes())?;
            let place = copied(alloc, place.as_bytes())?;
            Ok((method, place))
        }
        _ => Err(0),
    }
}

// Returns the number of descriptions, and the method and the location of the last one.
fn authority_access_told(alloc: Global, octets: &[u8]) -> Result<(usize, (Vec<u8>, Vec<u8>)), u8> {
    match AuthorityInfoAccessSyntax::from_der(alloc, octets) {
        Ok(accesses) => {
            let count = numbered(accesses.items().count(alloc))?;
            match accesses.items().get(alloc, count.saturating_sub(1)) {
                Some(Ok(last)) => Ok((count, access_told(alloc, &last)?)),
                Some(Err(e)) => Err(e.kind().number()),
                None => Err(0),
            }
        }
        Err(e) => Err(e.kind().number()),
    }
}

// Returns the number of descriptions of a subject, and the method and the location of the last
// one.
fn subject_access_told(alloc: Global, octets: &[u8]) -> Result<(usize, (Vec<u8>, Vec<u8>)), u8> {
    match SubjectInfoAccessSyntax::from_der(alloc, octets) {
        Ok(accesses) => {
            let count = numbered(accesses.items().count(alloc))?;
            match accesses.items().get(alloc, count.saturating_sub(1)) {
                Some(Ok(last)) => Ok((count, access_told(alloc, &last)?)),
                Some(Err(e)) => Err(e.kind().number()),
                None => Err(0),
            }
        }
        Err(e) => Err(e.kind().number()),
    }
}

#[test]
fn accesses_of_authorities_have_places(rt: HostRuntime) -> Result<(), Fail> {
    let alloc = rt.alloc();
    let octets = hex::decode(
        alloc,
        "3054302606082b06010505073001861a687474703a2f2f6261726c65792e6578616d706c652f6f637370302a06082b06010505073002861e687474703a2f2f6261726c65792e6578616d706c652f6d696c6c2e636572",
    )?;
    let found = authority_access_told(alloc, octets.as_slice());
    let method = hex::decode(alloc, "2b06010505073002")?;
    let place = copied(alloc, "http://barley.example/mill.cer".as_bytes())?;
    same(&rt, found, Ok((2, (method, place))));
    Ok(())
}

#[test]
fn accesses_of_subjects_have_places(rt: HostRuntime) -> Result<(), Fail> {
    let alloc = rt.alloc();
    let octets = hex::decode(
        alloc,
        "3027302506082b060105050730058619687474703a2f2f6261726c65792e6578616d706c652f616c6c",
    )?;
    let found = subject_access_told(alloc, octets.as_slice());
    let method = hex::decode(alloc, "2b06010505073005")?;
    let place = copied(alloc, "http://barley.example/all".as_bytes())?;
    same(&rt, found, Ok((1, (method, place))));
    Ok(())
}
