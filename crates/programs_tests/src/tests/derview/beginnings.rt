//! Octets that are cut short.

use super::answers;
use std::alloc::{AllocError, Global};
use std::process::Abort;
use std::test::Fail;

/// Returns a line with the first octets of the hex digits.
fn line(alloc: Global, name: &[u8], digits: &[u8]) -> Result<Vec<u8>, AllocError> {
    let mut line = Vec::new(alloc);
    line.extend_from_slice(name)?;
    if digits.is_empty() {
        line.extend_from_slice(b" -")?;
    } else {
        line.push(b' ')?;
        line.extend_from_slice(digits)?;
    }
    Ok(line)
}

/// Asserts that each proper prefix of the octets is refused because octets are missing.
fn refuses_beginnings(
    rt: &impl Abort,
    alloc: Global,
    name: &[u8],
    digits: &[u8],
) -> Result<(), AllocError> {
    for i in 0..digits.len() {
        if i % 2 == 0 {
            let text = line(alloc, name, &digits[..i])?;
            let (result, written) = answers(alloc, text.as_slice());
            assert_eq!(rt; result, Ok(()));
            assert_eq!(rt; written.as_slice(), b"refused 2\n".as_slice(), "at {i}");
        }
    }
    Ok(())
}

#[test]
fn a_beginning_is_incomplete(rt: HostRuntime) -> Result<(), Fail> {
    let rows: [(&[u8], &[u8]); 17] = [
        (b"i16", b"0202ff7f"),
        (b"u16", b"020300ffff"),
        (b"bitsref", b"0304066e5dc0"),
        (b"bits", b"030100"),
        (b"utctime", b"170d3931303530363233343534305a"),
        (b"gentime", b"180f39393939313233313233353935395a"),
        (b"setvec-u16", b"3106020108020107"),
        (b"setref-setvec-u16", b"31083106020108020107"),
        (b"bmp", b"1e02ffff"),
        (b"anyref", b"bf8fffffff7f00"),
        (b"bool", b"0101ff"),
        (b"array2-u8", b"3006020101020102"),
        (b"setof2-u16", b"3106020108020107"),
        (b"utf8ref", b"0c0648656c6cc3b3"),
        (b"oid", b"06062a864886f70d"),
        (b"app-u8", b"6103020105"),
        (b"ctx-setof2-u16", b"a2083106020108020107"),
    ];
    for (name, digits) in rows {
        refuses_beginnings(&rt, rt.alloc(), name, digits)?;
    }
    Ok(())
}
