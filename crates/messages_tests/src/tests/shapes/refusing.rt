//! Octets that are refused, with the number of the refusal.

use crate::tests::{again, same};
use der_shapes::shapes::{General, Mixed, Pair, Subtree};
use std::process::Abort;
use std::test::Fail;

/// The octets of a refused row, and the number of the refusal.
type Row = (&'static str, u8);

#[test]
fn a_default_after_a_tag_is_refused(rt: HostRuntime) -> Result<(), Fail> {
    let alloc = rt.alloc();
    let rows: [Row; 3] = [
        ("630aa5058b03614062800100", 8),
        ("630aa5058b03614062c20100", 8),
        ("3007a5058b03614062", 4),
    ];
    for (digits, number) in rows {
        let octets = hex::decode(alloc, digits)?;
        same(&rt, again::<Subtree>(alloc, octets.as_slice()), Err(number));
    }
    Ok(())
}

#[test]
fn a_tag_of_no_alternative_is_refused(rt: HostRuntime) -> Result<(), Fail> {
    let alloc = rt.alloc();
    let rows: [Row; 2] = [("8b0361c3a9", 13), ("0500", 4)];
    for (digits, number) in rows {
        let octets = hex::decode(alloc, digits)?;
        same(&rt, again::<General>(alloc, octets.as_slice()), Err(number));
    }
    Ok(())
}

#[test]
fn fields_of_a_set_in_another_order_are_refused(rt: HostRuntime) -> Result<(), Fail> {
    let alloc = rt.alloc();
    let rows: [Row; 1] = [("310a0201800101ff81020100", 4)];
    for (digits, number) in rows {
        let octets = hex::decode(alloc, digits)?;
        same(&rt, again::<Mixed>(alloc, octets.as_slice()), Err(number));
    }
    Ok(())
}

#[test]
fn an_item_of_no_alternative_is_refused(rt: HostRuntime) -> Result<(), Fail> {
    let alloc = rt.alloc();
    let octets = hex::decode(alloc, "630ba5058b03614062a3020500")?;
    same(&rt, again::<Subtree>(alloc, octets.as_slice()), Err(4));
    Ok(())
}

#[test]
fn a_pair_without_a_value_is_refused(rt: HostRuntime) -> Result<(), Fail> {
    let alloc = rt.alloc();
    let octets = hex::decode(alloc, "30050603550403")?;
    same(&rt, again::<Pair>(alloc, octets.as_slice()), Err(2));
    Ok(())
}
