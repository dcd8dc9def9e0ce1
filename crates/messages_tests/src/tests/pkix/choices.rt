//! A CHOICE as a field that may be absent, its order, its equality and its copies.

use crate::tests::{again, compared, holds, is_copied, same};
use der_asn1_types::{End, Field, FieldSequence, FromDer};
use der_pkix::certificate::Time;
use std::alloc::Global;
use std::cmp::Ordering;
use std::test::Fail;

type Expiring = FieldSequence<Field<Option<Time>, Field<u8, End>>>;

fn expiring_again(alloc: Global, octets: &[u8]) -> Result<Vec<u8>, u8> {
    again::<Expiring>(alloc, octets)
}

fn time_of(alloc: Global, octets: &[u8]) -> Result<Time, u8> {
    match Time::from_der(alloc, octets) {
        Ok(time) => Ok(time),
        Err(e) => Err(e.kind().number()),
    }
}

#[test]
fn a_choice_may_be_absent(rt: HostRuntime) -> Result<(), Fail> {
    let alloc = rt.alloc();
    let rows = [
        "3003020105",
        "3012170d3236313132333034313033355a020105",
        "3014180f32303539313030313034313033355a020105",
    ];
    for digits in rows {
        let octets = hex::decode(alloc, digits)?;
        let written = expiring_again(alloc, octets.as_slice())?;
        same(&rt, written.as_slice(), octets.as_slice());
    }
    Ok(())
}

#[test]
fn times_are_ordered_as_their_encodings(rt: HostRuntime) -> Result<(), Fail> {
    let alloc = rt.alloc();
    let utc = hex::decode(alloc, "170d3236313132333034313033355a")?;
    let general = hex::decode(alloc, "180f32303236313132333034313033355a")?;
    let utc = time_of(alloc, utc.as_slice())?;
    let general = time_of(alloc, general.as_slice())?;
    same(&rt, compared(&utc, &utc), Ok((Ordering::Equal, true)));
    // the same second, of the other type
    same(&rt, compared(&utc, &general), Ok((Ordering::Less, false)));
    same(
        &rt,
        compared(&general, &utc),
        Ok((Ordering::Greater, false)),
    );
    holds(&rt, is_copied(&general));
    Ok(())
}
