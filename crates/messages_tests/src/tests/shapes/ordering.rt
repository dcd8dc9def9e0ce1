//! The order, equality and copies of values.

use crate::tests::{compared, holds, is_copied, same};
use der_elem::FromDer;
use der_shapes::shapes::{General, Status};
use std::alloc::Global;
use std::cmp::Ordering;
use std::process::Abort;
use std::test::Fail;

fn status_of(alloc: Global, octets: &[u8]) -> Result<Status, u8> {
    match Status::from_der(alloc, octets) {
        Ok(status) => Ok(status),
        Err(e) => Err(e.kind().number()),
    }
}

fn general_of<'a>(alloc: Global, octets: &'a [u8]) -> Result<General<'a>, u8> {
    match General::from_der(alloc, octets) {
        Ok(general) => Ok(general),
        Err(e) => Err(e.kind().number()),
    }
}

#[test]
fn alternatives_are_ordered_as_their_encodings(rt: HostRuntime) -> Result<(), Fail> {
    let alloc = rt.alloc();
    let good = hex::decode(alloc, "8000")?;
    let unknown = hex::decode(alloc, "8200")?;
    let good = status_of(alloc, good.as_slice())?;
    let unknown = status_of(alloc, unknown.as_slice())?;
    same(&rt, compared(&good, &good), Ok((Ordering::Equal, true)));
    same(&rt, compared(&good, &unknown), Ok((Ordering::Less, false)));
    holds(&rt, is_copied(&unknown));
    Ok(())
}

#[test]
fn those_of_a_choice_within_another_are_too(rt: HostRuntime) -> Result<(), Fail> {
    let alloc = rt.alloc();
    let good = hex::decode(alloc, "8000")?;
    let number = hex::decode(alloc, "91020102")?;
    let good = general_of(alloc, good.as_slice())?;
    let number = general_of(alloc, number.as_slice())?;
    same(&rt, compared(&number, &number), Ok((Ordering::Equal, true)));
    same(
        &rt,
        compared(&number, &good),
        Ok((Ordering::Greater, false)),
    );
    holds(&rt, is_copied(&number));
    Ok(())
}
