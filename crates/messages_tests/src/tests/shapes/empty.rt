//! Types with no components, alone and as fields: 30 00 of a SEQUENCE and 31 00 of a SET.

use crate::tests::{again, compared, holds, is_copied, numbered, same, same_in};
use der_elem::{Encode, FromDer};
use der_shapes::shapes::{Empty, Marks, MarksFourth, Nothing};
use std::alloc::Global;
use std::cmp::Ordering;
use std::process::Abort;
use std::test::Fail;

/// The octets of a refused row, and the number of the refusal.
type Row = (&'static str, u8);

fn nothing_again(alloc: Global, octets: &[u8]) -> Result<Vec<u8>, u8> {
    again::<Nothing>(alloc, octets)
}

fn empty_again(alloc: Global, octets: &[u8]) -> Result<Vec<u8>, u8> {
    again::<Empty>(alloc, octets)
}

fn marks_again(alloc: Global, octets: &[u8]) -> Result<Vec<u8>, u8> {
    again::<Marks>(alloc, octets)
}

// Returns which of the two optional fields are present.
fn present(alloc: Global, octets: &[u8]) -> Result<(bool, bool), u8> {
    let marks = numbered(Marks::from_der(alloc, octets))?;
    Ok((marks.second().is_some(), marks.third().is_some()))
}

#[test]
fn types_of_no_components_are_read_and_written_back(rt: HostRuntime) -> Result<(), Fail> {
    let alloc = rt.alloc();
    same(
        &rt,
        nothing_again(alloc, &[0x30, 0])?.as_slice(),
        [0x30, 0].as_slice(),
    );
    same(
        &rt,
        empty_again(alloc, &[0x31, 0])?.as_slice(),
        [0x31, 0].as_slice(),
    );
    for digits in ["300a3000a000a10231003100", "300430003100"] {
        let octets = hex::decode(alloc, digits)?;
        let written = marks_again(alloc, octets.as_slice())?;
        same_in(&rt, &digits, written.as_slice(), octets.as_slice());
    }
    Ok(())
}

#[test]
fn types_of_no_components_are_made(rt: HostRuntime) -> Result<(), Fail> {
    let alloc = rt.alloc();
    let (nothing, empty, fourth) = (Nothing::new(), Empty::new(), MarksFourth::new());
    let marks = Marks::new(nothing, Some(nothing), Some(empty), fourth);
    let octets = numbered(marks.to_der(alloc))?;
    let wanted = hex::decode(alloc, "300a3000a000a10231003100")?;
    same(&rt, octets.as_slice(), wanted.as_slice());
    same(&rt, present(alloc, octets.as_slice()), Ok((true, true)));
    same(
        &rt,
        compared(&nothing, &nothing),
        Ok((Ordering::Equal, true)),
    );
    holds(&rt, is_copied(&empty) && is_copied(&marks));
    Ok(())
}

#[test]
fn what_stands_in_a_type_of_no_components_is_refused(rt: HostRuntime) -> Result<(), Fail> {
    let alloc = rt.alloc();
    // a component, another tag, and a length that does not fit
    let rows: [Row; 3] = [("30020500", 3), ("3100", 4), ("3001", 2)];
    for (digits, number) in rows {
        let octets = hex::decode(alloc, digits)?;
        same_in(
            &rt,
            &digits,
            nothing_again(alloc, octets.as_slice()),
            Err(number),
        );
    }
    Ok(())
}
