//! GeneralizedTime with a fraction of a second: alone, as fields and as items.

use crate::tests::{again, is_copied, numbered, same_in};
use der_elem::{Encode, FromDer};
use der_shapes::shapes::Session;
use der_simple::FractionalTimeRef;
use der_time::DateTime;
use std::alloc::Global;
use std::test::Fail;

/// The octets of a refused row, and the number of the refusal.
type Row = (&'static str, u8);

/// A time with a fraction, and one without.
const WITH: &str =
    "305d181131393932303732323133323130302e335a801131393932303732323133323130302e335a810f31393932303632323132333432315a3024180f31393932303632323132333432315a181131393932303732323133323130302e335a";

const WITHOUT: &str = "3013180f31393932303632323132333432315a3000";

fn time_again(alloc: Global, octets: &[u8]) -> Result<Vec<u8>, u8> {
    again::<FractionalTimeRef>(alloc, octets)
}

fn session_again(alloc: Global, octets: &[u8]) -> Result<Vec<u8>, u8> {
    again::<Session>(alloc, octets)
}

// The examples of X.690 11.7.5 are among these and those below.
#[test]
fn times_have_a_fraction_or_none(rt: HostRuntime) -> Result<(), Fail> {
    let alloc = rt.alloc();
    for digits in [
        "180f31393932303532313030303030305a",
        "180f31393932303632323132333432315a",
        "181131393932303732323133323130302e335a",
        "181931393730303130313030303030302e3030303030303030315a",
        "181139393939313233313233353935392e395a",
    ] {
        let octets = hex::decode(alloc, digits)?;
        same_in(&rt, &digits, time_again(alloc, octets.as_slice())?, octets);
    }
    Ok(())
}

// Midnight as hour 24, fractions that end with 0 or have no digit, another mark, no Z, no
// seconds, an offset, a small z, an octet that is no digit, a year before 1970, a day that the
// month lacks, 13 digits, a year that is no number, no octets; another tag; a length
#[test]
fn other_times_are_refused(rt: HostRuntime) -> Result<(), Fail> {
    let alloc = rt.alloc();
    let rows: [Row; 17] = [
        ("180f31393932303532303234303030305a", 13),
        ("181131393932303632323132333432312e305a", 13),
        ("181231393932303732323133323130302e33305a", 13),
        ("181031393932303732323133323130302e5a", 13),
        ("181131393932303732323133323130302c335a", 13),
        ("181031393932303732323133323130302e33", 13),
        ("180f3139393230373232313332312e355a", 13),
        ("181531393932303732323133323130302e332b30303030", 13),
        ("181131393932303732323133323130302e337a", 13),
        ("181131393932303732323133323130302e3a5a", 13),
        ("181131393639313233313233353935392e355a", 13),
        ("181131393932303233303030303030302e355a", 13),
        ("1810313939323037323231333231302e335a", 13),
        ("180f31397878303732323133323130305a", 13),
        ("1800", 13),
        ("170d3932303732323133323130305a", 4),
        ("181131393932303732323133323130302e33", 2),
    ];
    for (digits, number) in rows {
        let octets = hex::decode(alloc, digits)?;
        let found = time_again(alloc, octets.as_slice());
        same_in(&rt, &digits, found, Err(number));
    }
    Ok(())
}

fn second() -> Result<DateTime, u8> {
    numbered(DateTime::new(1992, 7, 22, 13, 21, 0))
}

// Returns the encoding of a time with these contents octets.
fn encoded(alloc: Global, contents: &str) -> Result<Vec<u8>, u8> {
    match FractionalTimeRef::from_bytes(contents.as_bytes()) {
        Ok(time) => numbered(time.to_der(alloc)),
        Err(e) => Err(e.kind().number()),
    }
}

// Returns the lengths of the fractions of a session's start and end, the number of its pauses,
// and whether its copy is equal to it.
fn shown(alloc: Global, octets: &[u8]) -> Result<(usize, Option<usize>, usize, bool), u8> {
    let session = numbered(Session::from_der(alloc, octets))?;
    let end = match session.end() {
        Some(time) => Some(time.fraction().len()),
        None => None,
    };
    let pauses = numbered(session.pauses().count(alloc))?;
    let begin = session.begin().fraction().len();
    Ok((begin, end, pauses, is_copied(&session)))
}

#[test]
fn times_are_fields_and_items(rt: HostRuntime) -> Result<(), Fail> {
    let alloc = rt.alloc();
    for (digits, wanted) in [(WITH, (1, Some(1), 2, true)), (WITHOUT, (0, None, 0, true))] {
        let octets = hex::decode(alloc, digits)?;
        same_in(&rt, &digits, shown(alloc, octets.as_slice()), Ok(wanted));
        same_in(
            &rt,
            &digits,
            session_again(alloc, octets.as_slice())?,
            octets,
        );
    }
    // a field, one behind a tag, one without a fraction, an item
    let rows: [Row; 4] = [
        ("3016181231393932303732323133323130302e33305a3000", 13),
        (
            "3029181131393932303732323133323130302e335a801231393932303732323133323130302e33305a3000",
            13,
        ),
        (
            "3028181131393932303732323133323130302e335a811131393932303732323133323130302e335a3000",
            13,
        ),
        (
            "303a181131393932303732323133323130302e335a3025180f31393932303632323132333432315a181231393932303732323133323130302e33305a",
            13,
        ),
    ];
    for (digits, number) in rows {
        let octets = hex::decode(alloc, digits)?;
        let found = session_again(alloc, octets.as_slice());
        same_in(&rt, &digits, found, Err(number));
    }
    Ok(())
}
