//! Fields with a DEFAULT of each kind: absent, present, and the default's own encoding.

use crate::tests::{again, holds, same, same_in};
use der_elem::FromDer;
use der_shapes::shapes::{Color, Counted, Described};
use std::alloc::Global;
use std::process::Abort;
use std::test::Fail;

/// The octets of a refused row, and the number of the refusal.
type Row = (&'static str, u8);

// Returns `visible`, `port`, `offset`, `level` and `color`.
fn counted(alloc: Global, octets: &[u8]) -> Result<(bool, u16, i8, i16, Color), u8> {
    match Counted::from_der(alloc, octets) {
        Ok(found) => Ok((
            found.visible(),
            found.port(),
            found.offset(),
            found.level(),
            found.color(),
        )),
        Err(e) => Err(e.kind().number()),
    }
}

// Returns whether the integers of any length have these octets.
fn has_integers(alloc: Global, octets: &[u8], balance: &[u8], serial: &[u8]) -> bool {
    match Counted::from_der(alloc, octets) {
        Ok(found) => found.balance().as_bytes() == balance && found.serial().as_bytes() == serial,
        Err(_) => false,
    }
}

// Returns whether these are the strings.
fn has_texts(alloc: Global, octets: &[u8], name: &str, place: &str, mail: &str) -> bool {
    match Described::from_der(alloc, octets) {
        Ok(found) => {
            found.name().as_str() == name
                && found.place().as_str() == place
                && found.mail().as_str() == mail
        }
        Err(_) => false,
    }
}

// Returns whether the key, the bits and the identifier have these octets.
fn has_octets(alloc: Global, octets: &[u8], key: &[u8], bits: &[u8], identifier: &[u8]) -> bool {
    match Described::from_der(alloc, octets) {
        Ok(found) => {
            found.key().as_bytes() == key
                && found.bits().raw_bytes() == bits
                && found.type_().as_bytes() == identifier
        }
        Err(_) => false,
    }
}

// Returns the color.
fn color(alloc: Global, octets: &[u8]) -> Result<Color, u8> {
    match Described::from_der(alloc, octets) {
        Ok(found) => Ok(found.color()),
        Err(e) => Err(e.kind().number()),
    }
}

const COUNTED: &str = "3017010100020150800105a1030201ff8201008301010a0100";

const DESCRIBED: &str = "30140c01611301628001630400030100060155840100";

#[test]
fn absent_fields_have_their_defaults(rt: HostRuntime) -> Result<(), Fail> {
    let alloc = rt.alloc();
    let none = hex::decode(alloc, "3000")?;
    let octets = none.as_slice();
    same(
        &rt,
        counted(alloc, octets),
        Ok((true, 8080, -1, 300, Color::Green)),
    );
    holds(
        &rt,
        has_integers(alloc, octets, &[0xff, 0x63, 0xc0], &[0xc8]),
    );
    holds(&rt, has_texts(alloc, octets, "none", "", "a@b"));
    holds(
        &rt,
        has_octets(alloc, octets, &[0, 0xff], &[0xa0], &[0x2a, 0x86, 0x48]),
    );
    same(&rt, color(alloc, octets), Ok(Color::Blue));
    Ok(())
}

#[test]
fn other_values_are_read(rt: HostRuntime) -> Result<(), Fail> {
    let alloc = rt.alloc();
    let first = hex::decode(alloc, COUNTED)?;
    same(
        &rt,
        counted(alloc, first.as_slice()),
        Ok((false, 80, 5, -1, Color::Red)),
    );
    holds(&rt, has_integers(alloc, first.as_slice(), &[0], &[1]));
    let second = hex::decode(alloc, DESCRIBED)?;
    holds(&rt, has_texts(alloc, second.as_slice(), "a", "b", "c"));
    holds(&rt, has_octets(alloc, second.as_slice(), &[], &[], &[0x55]));
    same(&rt, color(alloc, second.as_slice()), Ok(Color::Red));
    Ok(())
}

fn counted_again(alloc: Global, octets: &[u8]) -> Result<Vec<u8>, u8> {
    again::<Counted>(alloc, octets)
}

fn described_again(alloc: Global, octets: &[u8]) -> Result<Vec<u8>, u8> {
    again::<Described>(alloc, octets)
}

#[test]
fn values_are_written_back(rt: HostRuntime) -> Result<(), Fail> {
    let alloc = rt.alloc();
    let none = hex::decode(alloc, "3000")?;
    let first = hex::decode(alloc, COUNTED)?;
    let second = hex::decode(alloc, DESCRIBED)?;
    for octets in [none.as_slice(), first.as_slice()] {
        let written = counted_again(alloc, octets)?;
        same(&rt, written.as_slice(), octets);
    }
    for octets in [none.as_slice(), second.as_slice()] {
        let written = described_again(alloc, octets)?;
        same(&rt, written.as_slice(), octets);
    }
    Ok(())
}

#[test]
fn an_encoded_number_that_is_the_default_is_refused(rt: HostRuntime) -> Result<(), Fail> {
    let alloc = rt.alloc();
    let rows: [Row; 8] = [
        ("30030101ff", 8),
        ("300402021f90", 8),
        ("30038001ff", 8),
        ("3006a1040202012c", 8),
        ("30058203ff63c0", 8),
        ("3004830200c8", 8),
        ("30020500", 8),
        ("30030a0101", 8),
    ];
    for (digits, number) in rows {
        let octets = hex::decode(alloc, digits)?;
        same_in(
            &rt,
            &digits,
            again::<Counted>(alloc, octets.as_slice()),
            Err(number),
        );
    }
    Ok(())
}

#[test]
fn encoded_octets_that_are_the_default_are_refused(rt: HostRuntime) -> Result<(), Fail> {
    let alloc = rt.alloc();
    let rows: [Row; 7] = [
        ("30060c046e6f6e65", 8),
        ("30021300", 8),
        ("30058003614062", 8),
        ("3004040200ff", 8),
        ("3004030205a0", 8),
        ("300506032a8648", 8),
        ("3003840102", 8),
    ];
    for (digits, number) in rows {
        let octets = hex::decode(alloc, digits)?;
        same_in(
            &rt,
            &digits,
            again::<Described>(alloc, octets.as_slice()),
            Err(number),
        );
    }
    Ok(())
}
