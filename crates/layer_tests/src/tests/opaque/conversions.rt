//! Copies, orders and conversions.

use crate::tests::{hashed, holds, same};
use der_elem::{Choice, DerOrd, Duplicate, ValueOrd};
use der_opaque::{Any, AnyRef, Null, ObjectIdentifier, OctetString, OctetStringRef};
use der_tlv::{Error, Reader, Tag};
use std::cmp::Ordering;
use std::test::Fail;

/// Returns whether a value and its copy compare as equal, by their encodings and by themselves.
fn is_copied<T: Duplicate + DerOrd + Ord>(value: &T) -> bool {
    let Ok(copy) = value.duplicate() else {
        return false;
    };
    matches!(value.der_cmp(&copy), Ok(Ordering::Equal)) && value.cmp(&copy) == Ordering::Equal
}

#[test]
fn any_is_copied(rt: HostRuntime) -> Result<(), Fail> {
    let alloc = rt.alloc();
    let Ok(any) = AnyRef::new(Tag::Enumerated, &[5]) else {
        panic!(rt; "refused")
    };
    let owned = Any::from_ref(alloc, any)?;
    holds(&rt, owned.clone()? == owned);
    holds(&rt, owned.to_ref() == any);
    holds(&rt, is_copied(&owned));
    holds(&rt, is_copied(&any));
    same(&rt, hashed(&owned), hashed(&owned.clone()?));
    same(&rt, hashed(&any), hashed(&owned.to_ref()));
    holds(&rt, !owned.is_null());
    holds(&rt, Any::can_decode(Tag::Null));
    holds(&rt, AnyRef::can_decode(Tag::Null));
    let decoded: Any = any.decode_as(alloc)?;
    holds(&rt, decoded == owned);
    same(&rt, owned.value_cmp(&Any::null(alloc))?, Ordering::Greater);
    same(&rt, owned.cmp(&Any::null(alloc)), Ordering::Greater);
    Ok(())
}

#[test]
fn any_of_a_sequence_is_walked(rt: HostRuntime) -> Result<(), Fail> {
    let alloc = rt.alloc();
    let any = Any::new(Tag::Sequence, [1, 2, 3].to_vec(alloc)?)?;
    let first = any.sequence(|reader| {
        let mut octets = [0; 3];
        let _slice = reader.read_into(&mut octets)?;
        Ok::<u8, Error>(octets[0])
    });
    holds(&rt, matches!(first, Ok(1)));
    Ok(())
}

#[test]
fn octet_strings_are_copied(rt: HostRuntime) -> Result<(), Fail> {
    let alloc = rt.alloc();
    let owned = OctetString::new([1, 2].to_vec(alloc)?)?;
    holds(&rt, owned.clone()? == owned);
    holds(&rt, is_copied(&owned));
    let borrowed = owned.owned_to_ref();
    holds(&rt, is_copied(&borrowed));
    same(
        &rt,
        hashed(&borrowed),
        hashed(&OctetStringRef::from(&owned)),
    );
    same(&rt, owned.into_bytes().as_slice(), [1, 2].as_slice());
    Ok(())
}

#[test]
fn octet_strings_are_made_of_octets(rt: HostRuntime) -> Result<(), Fail> {
    let alloc = rt.alloc();
    let octets = [1, 2];
    let slice: &[u8] = &octets;
    let Ok(string) = OctetStringRef::try_from(slice) else {
        panic!(rt; "refused")
    };
    holds(
        &rt,
        matches!(OctetStringRef::try_from(&slice), Ok(same) if same == string),
    );
    holds(
        &rt,
        matches!(OctetStringRef::try_from(&octets), Ok(same) if same == string),
    );
    let back: &[u8] = string.into();
    same(&rt, back, slice);
    let any = Any::from_ref(alloc, AnyRef::from(string))?;
    holds(
        &rt,
        matches!(OctetStringRef::try_from(&any), Ok(same) if same == string),
    );
    let null = Any::null(alloc);
    holds(
        &rt,
        matches!(OctetStringRef::try_from(&null), Err(e) if e.kind.number() == 4),
    );
    Ok(())
}

#[test]
fn null_is_copied(rt: HostRuntime) {
    holds(&rt, is_copied(&Null));
    holds(&rt, matches!(Null::try_from(AnyRef::from(Null)), Ok(Null)));
}

#[test]
fn identifiers_are_copied(rt: HostRuntime) {
    let Ok(short) = ObjectIdentifier::<3>::from_bytes(&[0x55]) else {
        panic!(rt; "refused")
    };
    let Ok(long) = ObjectIdentifier::<3>::from_bytes(&[0x2a, 0x03]) else {
        panic!(rt; "refused")
    };
    holds(&rt, is_copied(&short));
    same(&rt, hashed(&short), hashed(&short));
    same(&rt, short.cmp(&long), Ordering::Greater);
    holds(&rt, matches!(short.der_cmp(&long), Ok(Ordering::Less)));
}
