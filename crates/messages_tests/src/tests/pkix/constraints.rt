//! Values of extensions that constrain a path, or names.

use crate::tests::{copied, numbered, same};
use der_asn1_types::FromDer;
use der_extensions::extension::{BasicConstraints, NameConstraints};
use std::alloc::Global;
use std::process::Abort;
use std::test::Fail;

// Returns whether a subject is an authority, and the octets of the maximal length of a path.
fn constraints_told(alloc: Global, octets: &[u8]) -> Result<(bool, Option<Vec<u8>>), u8> {
    match BasicConstraints::from_der(alloc, octets) {
        Ok(constraints) => {
            let length = match constraints.path_len_constraint() {
                Some(length) => Some(copied(alloc, length.as_bytes())?),
                None => None,
            };
            Ok((constraints.ca(), length))
        }
        Err(e) => Err(e.kind().number()),
    }
}

// Returns the numbers of permitted and of excluded subtrees.
fn subtrees_told(alloc: Global, octets: &[u8]) -> Result<(Option<usize>, Option<usize>), u8> {
    match NameConstraints::from_der(alloc, octets) {
        Ok(constraints) => {
            let permitted = match constraints.permitted_subtrees() {
                Some(subtrees) => Some(numbered(subtrees.items().count(alloc))?),
                None => None,
            };
            let excluded = match constraints.excluded_subtrees() {
                Some(subtrees) => Some(numbered(subtrees.items().count(alloc))?),
                None => None,
            };
            Ok((permitted, excluded))
        }
        Err(e) => Err(e.kind().number()),
    }
}

// Returns the bounds of the first permitted subtree.
fn bounds_told(alloc: Global, octets: &[u8]) -> Result<(u8, Option<u8>), u8> {
    match NameConstraints::from_der(alloc, octets) {
        Ok(constraints) => {
            let Some(subtrees) = constraints.permitted_subtrees() else {
                return Err(0);
            };
            match subtrees.items().get(alloc, 0) {
                Some(Ok(first)) => Ok((first.minimum(), first.maximum())),
                Some(Err(e)) => Err(e.kind().number()),
                None => Err(0),
            }
        }
        Err(e) => Err(e.kind().number()),
    }
}

#[test]
fn constraints_have_fields(rt: HostRuntime) -> Result<(), Fail> {
    let alloc = rt.alloc();
    let octets = hex::decode(alloc, "30060101ff020103")?;
    let found = constraints_told(alloc, octets.as_slice());
    let length = hex::decode(alloc, "03")?;
    same(&rt, found, Ok((true, Some(length))));
    let octets = hex::decode(alloc, "3000")?;
    let found = constraints_told(alloc, octets.as_slice());
    same(&rt, found, Ok((false, None)));
    Ok(())
}

#[test]
fn constraints_of_names_have_subtrees(rt: HostRuntime) -> Result<(), Fail> {
    let alloc = rt.alloc();
    let octets = hex::decode(
        alloc,
        "3032a01e3010820e6261726c65792e6578616d706c65300a8708c0000200ffffff00a110300e810c6d696c6c2e6578616d706c65",
    )?;
    let found = subtrees_told(alloc, octets.as_slice());
    same(&rt, found, Ok((Some(2), Some(1))));
    let octets = hex::decode(alloc, "300da00b3009820161800101810103")?;
    let found = subtrees_told(alloc, octets.as_slice());
    same(&rt, found, Ok((Some(1), None)));
    Ok(())
}

#[test]
fn subtrees_have_bounds(rt: HostRuntime) -> Result<(), Fail> {
    let alloc = rt.alloc();
    let octets = hex::decode(
        alloc,
        "3032a01e3010820e6261726c65792e6578616d706c65300a8708c0000200ffffff00a110300e810c6d696c6c2e6578616d706c65",
    )?;
    let found = bounds_told(alloc, octets.as_slice());
    same(&rt, found, Ok((0, None)));
    let octets = hex::decode(alloc, "300da00b3009820161800101810103")?;
    let found = bounds_told(alloc, octets.as_slice());
    same(&rt, found, Ok((1, Some(3))));
    Ok(())
}
