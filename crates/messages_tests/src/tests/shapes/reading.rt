//! Octets of each type, read under DER and written back.

use crate::tests::{again, same};
use der_shapes::shapes::{General, Mixed, Pair, Status, Subtree};
use std::alloc::Global;
use std::process::Abort;
use std::test::Fail;

fn pair_again(alloc: Global, octets: &[u8]) -> Result<Vec<u8>, u8> {
    again::<Pair>(alloc, octets)
}

fn status_again(alloc: Global, octets: &[u8]) -> Result<Vec<u8>, u8> {
    again::<Status>(alloc, octets)
}

fn general_again(alloc: Global, octets: &[u8]) -> Result<Vec<u8>, u8> {
    again::<General>(alloc, octets)
}

fn subtree_again(alloc: Global, octets: &[u8]) -> Result<Vec<u8>, u8> {
    again::<Subtree>(alloc, octets)
}

fn mixed_again(alloc: Global, octets: &[u8]) -> Result<Vec<u8>, u8> {
    again::<Mixed>(alloc, octets)
}

#[test]
fn pair_is_read_and_written_back(rt: HostRuntime) -> Result<(), Fail> {
    let alloc = rt.alloc();
    let rows = ["300806035504030c0161", "300706032a86480500"];
    for digits in rows {
        let octets = hex::decode(alloc, digits)?;
        let written = pair_again(alloc, octets.as_slice())?;
        same(&rt, written.as_slice(), octets.as_slice());
    }
    Ok(())
}

#[test]
fn status_is_read_and_written_back(rt: HostRuntime) -> Result<(), Fail> {
    let alloc = rt.alloc();
    let rows = ["8000", "810f32303236313132373132303030305a", "8200"];
    for digits in rows {
        let octets = hex::decode(alloc, digits)?;
        let written = status_again(alloc, octets.as_slice())?;
        same(&rt, written.as_slice(), octets.as_slice());
    }
    Ok(())
}

#[test]
fn general_is_read_and_written_back(rt: HostRuntime) -> Result<(), Fail> {
    let alloc = rt.alloc();
    let rows = ["8b03614062", "91020102", "8000"];
    for digits in rows {
        let octets = hex::decode(alloc, digits)?;
        let written = general_again(alloc, octets.as_slice())?;
        same(&rt, written.as_slice(), octets.as_slice());
    }
    Ok(())
}

#[test]
fn subtree_is_read_and_written_back(rt: HostRuntime) -> Result<(), Fail> {
    let alloc = rt.alloc();
    let rows = [
        "6307a5058b03614062",
        "6311a5058b03614062800105810200ffc201ff",
        "6317a5058b03614062800105810200ffc201ffa30480008200",
    ];
    for digits in rows {
        let octets = hex::decode(alloc, digits)?;
        let written = subtree_again(alloc, octets.as_slice())?;
        same(&rt, written.as_slice(), octets.as_slice());
    }
    Ok(())
}

#[test]
fn mixed_is_read_and_written_back(rt: HostRuntime) -> Result<(), Fail> {
    let alloc = rt.alloc();
    let rows = ["310a0101ff02018081020100"];
    for digits in rows {
        let octets = hex::decode(alloc, digits)?;
        let written = mixed_again(alloc, octets.as_slice())?;
        same(&rt, written.as_slice(), octets.as_slice());
    }
    Ok(())
}
