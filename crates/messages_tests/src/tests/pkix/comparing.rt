//! Equality of names of any kind, of lists of them, and of what names the key of an authority; copies
//! of names, and their order.

use crate::tests::{is_copied, read_and_compared, same, same_in};
use der_asn1_types::{EncodingEq, FromDer};
use der_extensions::extension::{AnotherName, AuthorityKeyIdentifier, GeneralName, SubjectAltName};
use std::alloc::Global;
use std::cmp::Ordering;
use std::process::Abort;
use std::test::Fail;

// Returns whether two values are equal. A law of the type says that they are if their encodings
// are.
fn are_equal<T: EncodingEq>(first: &T, second: &T) -> bool {
    first == second
}

// Returns whether two names of any kind are equal, and whether a copy of the first is equal to
// it.
fn names_compared(alloc: Global, first: &[u8], second: &[u8]) -> Result<(bool, bool), u8> {
    match (
        GeneralName::from_der(alloc, first),
        GeneralName::from_der(alloc, second),
    ) {
        (Ok(first), Ok(second)) => Ok((are_equal(&first, &second), is_copied(&first))),
        (Err(e), _) => Err(e.kind().number()),
        (Ok(_), Err(e)) => Err(e.kind().number()),
    }
}

// Returns the order of two names of any kind, and whether they are equal.
fn names_ordered(alloc: Global, first: &[u8], second: &[u8]) -> Result<(Ordering, bool), u8> {
    read_and_compared::<GeneralName>(alloc, first, second)
}

// Returns the order of two names of other forms, and whether they are equal.
fn others_compared(alloc: Global, first: &[u8], second: &[u8]) -> Result<(Ordering, bool), u8> {
    read_and_compared::<AnotherName>(alloc, first, second)
}

// Returns whether two lists of such names are equal.
fn lists_compared(alloc: Global, first: &[u8], second: &[u8]) -> Result<bool, u8> {
    match (
        SubjectAltName::from_der(alloc, first),
        SubjectAltName::from_der(alloc, second),
    ) {
        (Ok(first), Ok(second)) => Ok(first == second),
        (Err(e), _) => Err(e.kind().number()),
        (Ok(_), Err(e)) => Err(e.kind().number()),
    }
}

// Returns whether two values that identify an authority's key are equal.
fn authorities_compared(alloc: Global, first: &[u8], second: &[u8]) -> Result<bool, u8> {
    match (
        AuthorityKeyIdentifier::from_der(alloc, first),
        AuthorityKeyIdentifier::from_der(alloc, second),
    ) {
        (Ok(first), Ok(second)) => Ok(first == second),
        (Err(e), _) => Err(e.kind().number()),
        (Ok(_), Err(e)) => Err(e.kind().number()),
    }
}

#[test]
fn names_of_any_kind_are_compared(rt: HostRuntime) -> Result<(), Fail> {
    let alloc = rt.alloc();
    let rows = [
        // C=SE, C=DE, the name of a host, and names of other forms
        "a40f300d310b3009060355040613025345",
        "a40f300d310b3009060355040613024445",
        "820161",
        "a00906032a0304a0020500",
        "a00a06032a0304a0030101ff",
        "a00906032a0305a0020500",
        "a30100",
    ];
    for (at, first) in rows.iter().enumerate() {
        let one = hex::decode(alloc, *first)?;
        for (place, second) in rows.iter().enumerate() {
            let other = hex::decode(alloc, *second)?;
            let found = names_compared(alloc, one.as_slice(), other.as_slice());
            same_in(&rt, &(at, place), found, Ok((at == place, true)));
        }
    }
    Ok(())
}

#[test]
fn lists_of_names_are_compared(rt: HostRuntime) -> Result<(), Fail> {
    let alloc = rt.alloc();
    let one = hex::decode(alloc, "3014820161a40f300d310b3009060355040613025345")?;
    let other = hex::decode(alloc, "3014820161a40f300d310b3009060355040613024445")?;
    let found = lists_compared(alloc, one.as_slice(), one.as_slice());
    same_in(&rt, &"itself", found, Ok(true));
    let found = lists_compared(alloc, one.as_slice(), other.as_slice());
    same_in(&rt, &"another", found, Ok(false));
    Ok(())
}

#[test]
fn authorities_are_compared(rt: HostRuntime) -> Result<(), Fail> {
    let alloc = rt.alloc();
    // with the name C=SE, with C=DE, and with a number
    let rows = [
        "3013a111a40f300d310b3009060355040613025345",
        "3013a111a40f300d310b3009060355040613024445",
        "3003820105",
    ];
    for (at, first) in rows.iter().enumerate() {
        let one = hex::decode(alloc, *first)?;
        for (place, second) in rows.iter().enumerate() {
            let other = hex::decode(alloc, *second)?;
            let found = authorities_compared(alloc, one.as_slice(), other.as_slice());
            same_in(&rt, &(at, place), found, Ok(at == place));
        }
    }
    Ok(())
}

#[test]
fn directories_have_an_order(rt: HostRuntime) -> Result<(), Fail> {
    let alloc = rt.alloc();
    // C=SE and C=DE
    let one = hex::decode(alloc, "a40f300d310b3009060355040613025345")?;
    let other = hex::decode(alloc, "a40f300d310b3009060355040613024445")?;
    let found = names_ordered(alloc, one.as_slice(), other.as_slice());
    same(&rt, found, Ok((Ordering::Greater, false)));
    let found = names_ordered(alloc, one.as_slice(), one.as_slice());
    same(&rt, found, Ok((Ordering::Equal, true)));
    // of a host, which has a lesser tag
    let host = hex::decode(alloc, "820161")?;
    let found = names_ordered(alloc, host.as_slice(), one.as_slice());
    same(&rt, found, Ok((Ordering::Less, false)));
    Ok(())
}

#[test]
fn other_names_have_an_order(rt: HostRuntime) -> Result<(), Fail> {
    let alloc = rt.alloc();
    let one = hex::decode(alloc, "300906032a0304a0020500")?;
    let other = hex::decode(alloc, "300906032a0305a0020500")?;
    let found = others_compared(alloc, one.as_slice(), other.as_slice());
    same(&rt, found, Ok((Ordering::Less, false)));
    let found = others_compared(alloc, one.as_slice(), one.as_slice());
    same(&rt, found, Ok((Ordering::Equal, true)));
    Ok(())
}
