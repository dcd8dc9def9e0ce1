//! Borrowed OBJECT IDENTIFIERs: what is read is in place, and is as an owned one has it.

use crate::tests::{hashed, holds, same};
use der_elem::{DerOrd, Duplicate, Encode, FixedTag, FromDer, Tagged, TakesMemory, ValueOrd};
use der_opaque::{AnyRef, ObjectIdentifier, ObjectIdentifierRef};
use der_tlv::{Length, Tag};
use std::alloc::Global;
use std::cmp::Ordering;
use std::test::Fail;

/// The encoding of the identifier 2.5.4.3.
const NAME: [u8; 5] = [0x06, 0x03, 0x55, 0x04, 0x03];

/// Returns the contents octets that are read, or the number of the error.
fn read<'a>(alloc: Global, octets: &'a [u8]) -> Result<&'a [u8], u8> {
    match ObjectIdentifierRef::<'a, 3>::from_der(alloc, octets) {
        Ok(identifier) => Ok(identifier.as_bytes()),
        Err(e) => Err(e.kind().number()),
    }
}

/// Returns an owned identifier, or the number of the error.
fn read_owned(alloc: Global, octets: &[u8]) -> Result<ObjectIdentifier<3>, u8> {
    match ObjectIdentifier::<3>::from_der(alloc, octets) {
        Ok(identifier) => Ok(identifier),
        Err(e) => Err(e.kind().number()),
    }
}

/// Returns the number of the error in contents octets, or 0.
fn refusal<'a>(octets: &'a [u8]) -> u8 {
    match ObjectIdentifierRef::<'a, 3>::from_bytes(octets) {
        Ok(_) => 0,
        Err(e) => e.kind().number(),
    }
}

#[test]
fn borrowed_identifiers_are_read_and_written(rt: HostRuntime) -> Result<(), Fail> {
    let alloc = rt.alloc();
    same(&rt, read(alloc, &NAME), Ok([0x55, 0x04, 0x03].as_slice()));
    let Ok(name) = ObjectIdentifierRef::<3>::from_bytes(&NAME[2..]) else {
        panic!(rt; "refused")
    };
    same(&rt, name.to_der(alloc)?.as_slice(), NAME.as_slice());
    let mut room = [0xff; 6];
    same(&rt, name.encode_to_slice(&mut room)?, NAME.as_slice());
    same(&rt, room[5], 0xff);
    same(&rt, name.encoded_len()?, Length::new(5));
    same(&rt, ObjectIdentifierRef::<3>::TAG, Tag::ObjectIdentifier);
    holds(&rt, !<ObjectIdentifierRef<3> as TakesMemory>::TAKES_MEMORY);
    Ok(())
}

#[test]
fn borrowed_identifiers_are_refused_as_owned_ones(rt: HostRuntime) {
    let alloc = rt.alloc();
    let rows: [&[u8]; 8] = [
        &[],
        &[0x06],
        &[0x06, 0x00],
        &[0x06, 0x04, 1, 2, 3, 4],
        &[0x06, 0x04, 1, 2, 3],
        &[0x06, 0x03, 1, 2, 3, 4],
        &[0x26, 0x03, 1, 2, 3],
        &[0x05, 0x00],
    ];
    for octets in rows {
        let owned = match read_owned(alloc, octets) {
            Ok(_) => 0,
            Err(number) => number,
        };
        let borrowed = match read(alloc, octets) {
            Ok(_) => 0,
            Err(number) => number,
        };
        holds(&rt, owned != 0);
        same(&rt, borrowed, owned);
    }
    same(&rt, read(alloc, &[0x06, 0x00]), Err(15));
    same(&rt, read(alloc, &[0x06, 0x04, 1, 2, 3, 4]), Err(7));
    same(&rt, refusal(&[]), 15);
    same(&rt, refusal(&[1, 2, 3, 4]), 7);
    same(&rt, refusal(&[1, 2, 3]), 0);
}

/// Returns whether a copy of the identifier is equal to it and has the same hash.
fn is_copied(one: &ObjectIdentifierRef<'_, 3>) -> bool {
    match one.duplicate() {
        Ok(copy) => copy == *one && hashed(&copy) == hashed(one),
        Err(_) => false,
    }
}

#[test]
fn borrowed_identifiers_are_ordered_by_octets(rt: HostRuntime) {
    let octets = [0x30, 0x07, 0x06, 0x01, 0x55, 0x06, 0x02, 0x2a, 0x03];
    let Ok(list) = Vec::<ObjectIdentifierRef<3>>::from_der(rt.alloc(), &octets) else {
        panic!(rt; "refused")
    };
    match list.as_slice() {
        [short, long] => {
            holds(&rt, is_copied(short));
            holds(&rt, short != long);
            same(&rt, short.cmp(long), Ordering::Greater);
            same(&rt, short.value_cmp(long), Ok(Ordering::Greater));
            same(&rt, short.der_cmp(long), Ok(Ordering::Less));
        }
        _ => holds(&rt, false),
    }
}

#[test]
fn borrowed_identifiers_are_copied_and_lent(rt: HostRuntime) {
    let Ok(owned) = ObjectIdentifier::<9>::from_bytes(&[0x55, 0x04, 0x03]) else {
        panic!(rt; "refused")
    };
    let lent = ObjectIdentifierRef::from(&owned);
    same(&rt, lent.as_bytes(), owned.as_bytes());
    holds(&rt, owned.owned_to_ref() == lent);
    holds(&rt, lent.ref_to_owned() == owned);
    holds(&rt, ObjectIdentifier::from(lent) == owned);
    let any = AnyRef::from(lent);
    same(&rt, any.tag(), Tag::ObjectIdentifier);
    holds(
        &rt,
        matches!(ObjectIdentifierRef::<9>::try_from(any), Ok(same) if same == lent),
    );
    holds(
        &rt,
        matches!(ObjectIdentifierRef::<2>::try_from(any), Err(e) if e.kind.number() == 7),
    );
    holds(
        &rt,
        matches!(ObjectIdentifierRef::<9>::try_from(AnyRef::NULL), Err(e) if e.kind.number() == 4),
    );
}
