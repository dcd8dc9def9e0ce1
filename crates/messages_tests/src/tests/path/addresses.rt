//! Addresses, beside the ranges that constrain them. The first range is the example of RFC 5280 section
//! 4.2.1.10.

use crate::tests::same_in;
use der_path::Placement::{Inside, Outside, Undefined};
use der_path::address_placement;
use std::test::Fail;

#[test]
fn addresses_are_placed(rt: HostRuntime) -> Result<(), Fail> {
    let alloc = rt.alloc();
    // an address and a mask, an address, and its placement
    let rows = [
        ("c0000200ffffff00", "c0000200", Inside),
        ("c0000200ffffff00", "c00002ff", Inside),
        ("c0000200ffffff00", "c0000300", Outside),
        ("c0000200ffffff00", "c00001ff", Outside),
        // bits of the range's address behind the mask say nothing
        ("c0000207ffffff00", "c0000209", Inside),
        ("0a000000ff800000", "0a7fffff", Inside),
        ("0a000000ff800000", "0a800000", Outside),
        ("0000000000000000", "ffffffff", Inside),
        ("c0000201ffffffff", "c0000201", Inside),
        ("c0000201ffffffff", "c0000202", Outside),
        // 2001:db8::/32
        (
            "20010db8000000000000000000000000ffffffff000000000000000000000000",
            "20010db8ffffffffffffffffffffffff",
            Inside,
        ),
        (
            "20010db8000000000000000000000000ffffffff000000000000000000000000",
            "20010db9000000000000000000000000",
            Outside,
        ),
        // the other version
        ("00000000000000000000000000000000", "00000000", Undefined),
        (
            "0000000000000000000000000000000000000000000000000000000000000000",
            "00000000",
            Outside,
        ),
        (
            "0000000000000000",
            "00000000000000000000000000000000",
            Outside,
        ),
        // no addresses
        ("c0000200ffffff00", "c00002", Undefined),
        ("c0000200ffffff00", "c000020000", Undefined),
        ("c0000200ffffff00", "", Undefined),
        // no ranges
        ("", "c0000201", Undefined),
        ("c0000200", "c0000200", Undefined),
        ("c0000200ffffff0000", "c0000200", Undefined),
        // ones behind a zero
        ("c0000200ffff00ff", "c0000200", Undefined),
        ("c0000200ffffff01", "c0000200", Undefined),
        ("c0000200ffffffa0", "c0000200", Undefined),
        ("c0000200fffe8000", "c0000200", Undefined),
    ];
    for (constraint, name, wanted) in rows {
        let range = hex::decode(alloc, constraint)?;
        let address = hex::decode(alloc, name)?;
        let found = address_placement(range.as_slice(), address.as_slice());
        same_in(&rt, &(constraint, name), found, wanted);
    }
    Ok(())
}
