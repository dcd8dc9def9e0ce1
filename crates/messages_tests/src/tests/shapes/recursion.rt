//! Types that contain themselves: what leads back is kept, and read when it is asked for.

use crate::tests::{again, same_in};
use der_shapes::shapes::{Chain, Filter, Node};
use std::alloc::Global;
use std::test::Fail;

/// A Node with the value 5 and one component of each kind, which have the values 6, 7 and 8.
const NODE: &str = "3016020105a003020106a105300302010730053003020108";

fn filter_again(alloc: Global, octets: &[u8]) -> Result<Vec<u8>, u8> {
    again::<Filter>(alloc, octets)
}

fn node_again(alloc: Global, octets: &[u8]) -> Result<Vec<u8>, u8> {
    again::<Node>(alloc, octets)
}

fn chain_again(alloc: Global, octets: &[u8]) -> Result<Vec<u8>, u8> {
    again::<Chain>(alloc, octets)
}

#[test]
fn they_are_read_and_written_back(rt: HostRuntime) -> Result<(), Fail> {
    let alloc = rt.alloc();
    for digits in ["820161", "a000", "a008820161a103820162", "a103820162"] {
        let octets = hex::decode(alloc, digits)?;
        let written = filter_again(alloc, octets.as_slice())?;
        same_in(&rt, &digits, written.as_slice(), octets.as_slice());
    }
    for digits in ["3003020105", NODE, "3005020105a000"] {
        let octets = hex::decode(alloc, digits)?;
        let written = node_again(alloc, octets.as_slice())?;
        same_in(&rt, &digits, written.as_slice(), octets.as_slice());
    }
    for digits in ["3000", "300530030c0161", "300c300a0c0161640530030c0162"] {
        let octets = hex::decode(alloc, digits)?;
        let written = chain_again(alloc, octets.as_slice())?;
        same_in(&rt, &digits, written.as_slice(), octets.as_slice());
    }
    Ok(())
}
