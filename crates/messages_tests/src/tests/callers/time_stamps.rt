//! The first six fields of a TSTInfo that OpenSSL wrote.

use crate::tests::{numbered, same};
use der_asn1_types::{Encode, Error};
use der_examples::{TstInfo, read_tst_info};
use std::alloc::Global;
use std::test::Fail;

fn write_tst_info<'a>(alloc: Global, info: &TstInfo<'a>) -> Result<Vec<u8>, Error> {
    info.to_der(alloc)
}

fn tst_info_again(alloc: Global, octets: &[u8]) -> Result<Vec<u8>, u8> {
    match read_tst_info(alloc, octets) {
        Ok(value) => numbered(write_tst_info(alloc, &value)),
        Err(e) => Err(e.kind().number()),
    }
}

#[test]
fn time_stamps_are_written_back(rt: HostRuntime) -> Result<(), Fail> {
    let alloc = rt.alloc();
    let octets = hex::decode(
        alloc,
        "305502010106042a0304013031300d060960864801650304020105000420e4d1c01e61563d42ff2b16d56d43945bf225088d822121a89530486440c4056a020102180f32303236313132333034323230355a3003020101",
    )?;
    let written = tst_info_again(alloc, octets.as_slice())?;
    same(&rt, written.as_slice(), octets.as_slice());
    Ok(())
}
