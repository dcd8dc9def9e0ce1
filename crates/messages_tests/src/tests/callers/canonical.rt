//! Canonical encodings.

use crate::tests::{numbered, same};
use der_asn1_types::asn1::{SetOfVec, Utf8StringRef};
use der_asn1_types::{FromDer, canonical};
use std::test::Fail;

#[test]
fn items_are_put_in_order(rt: HostRuntime) -> Result<(), Fail> {
    let falling = [0x31, 0x06, 0x02, 0x01, 0x08, 0x02, 0x01, 0x07];
    let once = numbered(canonical::<SetOfVec<u16>>(rt.alloc(), &falling))?;
    let rising = [0x31, 0x06, 0x02, 0x01, 0x07, 0x02, 0x01, 0x08];
    same(&rt, once.as_slice(), rising.as_slice());
    let twice = numbered(canonical::<SetOfVec<u16>>(rt.alloc(), once.as_slice()))?;
    same(&rt, twice.as_slice(), rising.as_slice());
    Ok(())
}

#[test]
fn faults_have_their_numbers(rt: HostRuntime) {
    let octets = [0x31, 0x04, 0x02, 0x02, 0x00, 0x05];
    same(
        &rt,
        numbered(canonical::<SetOfVec<u16>>(rt.alloc(), &octets)).err(),
        Some(8),
    );
    same(
        &rt,
        numbered(canonical::<bool>(rt.alloc(), &[0x01, 0x01, 0xff, 0x00])).err(),
        Some(3),
    );
}

#[test]
fn a_set_of_strings(rt: HostRuntime) -> Result<(), Fail> {
    let octets = [
        0x31, 0x0e, 0x0c, 0x05, b'w', b'o', b'r', b'l', b'd', 0x0c, 0x05, b'H', b'e', b'l', b'l',
        b'o',
    ];
    let set = numbered(SetOfVec::<Utf8StringRef>::from_der(rt.alloc(), &octets))?;
    same(&rt, set.len(), 2);
    let written = numbered(canonical::<SetOfVec<Utf8StringRef>>(rt.alloc(), &octets))?;
    same(&rt, written.as_slice().get(4), Some(&b'H'));
    Ok(())
}

#[test]
fn a_set_in_a_list_is_put_in_order(rt: HostRuntime) -> Result<(), Fail> {
    let octets = [0x30, 0x08, 0x31, 0x06, 0x02, 0x01, 0x08, 0x02, 0x01, 0x07];
    let written = numbered(canonical::<Vec<SetOfVec<u16>>>(rt.alloc(), &octets))?;
    let rising = [0x30, 0x08, 0x31, 0x06, 0x02, 0x01, 0x07, 0x02, 0x01, 0x08];
    same(&rt, written.as_slice(), rising.as_slice());
    Ok(())
}
