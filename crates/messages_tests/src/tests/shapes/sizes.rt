//! Lists of which a constraint allows some sizes: with a name, as fields and behind tags, and by themselves.

use crate::tests::{again, compared, holds, is_copied, numbered, same, same_in};
use der_constrained::{Constrained, HasSize};
use der_elem::{Encode, FromDer};
use der_lists::ListRef;
use der_shapes::shapes::{Few, Sizes};
use std::alloc::Global;
use std::cmp::Ordering;
use std::process::Abort;
use std::test::Fail;

/// The octets of a refused row, and the number of the refusal.
type Row = (&'static str, u8);

/// A list of at most two numbers.
type Two<'a> = Constrained<ListRef<'a, u8>, HasSize<0, 2>>;

fn few_again(alloc: Global, octets: &[u8]) -> Result<Vec<u8>, u8> {
    again::<Few>(alloc, octets)
}

fn sizes_again(alloc: Global, octets: &[u8]) -> Result<Vec<u8>, u8> {
    again::<Sizes>(alloc, octets)
}

#[test]
fn lists_of_a_size_are_read(rt: HostRuntime) -> Result<(), Fail> {
    let alloc = rt.alloc();
    for digits in ["3003020105", "3009020100020101020102"] {
        let octets = hex::decode(alloc, digits)?;
        same_in(&rt, &digits, few_again(alloc, octets.as_slice())?, octets);
    }
    // none and too many; the faults of the list come first: an item that is not allowed, one with no
    // contents octets, one of another type, another tag
    let rows: [Row; 6] = [
        ("3000", 13),
        ("300c020100020101020102020103", 13),
        ("300602010002010a", 13),
        ("300b0201000201010201020200", 7),
        ("300c020100020101020102010100", 4),
        ("3103020105", 4),
    ];
    for (digits, number) in rows {
        let octets = hex::decode(alloc, digits)?;
        same_in(
            &rt,
            &digits,
            few_again(alloc, octets.as_slice()),
            Err(number),
        );
    }
    Ok(())
}

#[test]
fn fields_that_are_lists_of_a_size_are_read(rt: HostRuntime) -> Result<(), Fail> {
    let alloc = rt.alloc();
    let rows = [
        "300730030201053100",
        "30233003020105a0040500050031060101000101ffa10631048000820030060401aa800105",
        "302d3003020105a00b300602010502010604010031030101ffa10a3108820080008200800030080401aa8001050400",
    ];
    for digits in rows {
        let octets = hex::decode(alloc, digits)?;
        same_in(&rt, &digits, sizes_again(alloc, octets.as_slice())?, octets);
    }
    Ok(())
}

#[test]
fn fields_that_are_lists_of_another_size_are_refused(rt: HostRuntime) -> Result<(), Fail> {
    let alloc = rt.alloc();
    // the list with a name, none; the pair, none, one and three; the ordered set, three; the unordered
    // set, none, one and three; the labels, none and one
    let rows = [
        "30203000a0040500050031060101000101ffa10631048000820030060401aa800105",
        "301f3003020105a00031060101000101ffa10631048000820030060401aa800105",
        "30213003020105a002050031060101000101ffa10631048000820030060401aa800105",
        "30253003020105a00605000500050031060101000101ffa10631048000820030060401aa800105",
        "30263003020105a0040500050031090101000101000101ffa10631048000820030060401aa800105",
        "301f3003020105a0040500050031060101000101ffa102310030060401aa800105",
        "30213003020105a0040500050031060101000101ffa1043102800030060401aa800105",
        "30253003020105a0040500050031060101000101ffa108310680008200800030060401aa800105",
        "301d3003020105a0040500050031060101000101ffa1063104800082003000",
        "30203003020105a0040500050031060101000101ffa10631048000820030030401aa",
    ];
    for digits in rows {
        let octets = hex::decode(alloc, digits)?;
        same_in(&rt, &digits, sizes_again(alloc, octets.as_slice()), Err(13));
    }
    // the order of the items comes before their number
    let octets = hex::decode(
        alloc,
        "30263003020105a0040500050031090101ff0101000101ffa10631048000820030060401aa800105",
    )?;
    same(&rt, sizes_again(alloc, octets.as_slice()), Err(11));
    Ok(())
}

#[test]
fn lists_of_a_size_are_made(rt: HostRuntime) -> Result<(), Fail> {
    let alloc = rt.alloc();
    let one = numbered(Two::new(numbered(ListRef::new(alloc, &[2, 1, 5]))?))?;
    let two = numbered(Two::new(numbered(ListRef::new(alloc, &[2, 1, 5, 2, 1, 6]))?))?;
    let three = numbered(ListRef::new(alloc, &[2, 1, 5, 2, 1, 6, 2, 1, 7]))?;
    same(&rt, numbered(two.count(alloc))?, 2);
    same(&rt, numbered(Two::new(three)), Err(13));
    same(&rt, compared(&one, &two), Ok((Ordering::Less, false)));
    holds(&rt, is_copied(&two));
    let written = numbered(two.to_der(alloc))?;
    same(
        &rt,
        written.as_slice(),
        [0x30, 6, 2, 1, 5, 2, 1, 6].as_slice(),
    );
    Ok(())
}

// Returns the numbers of items of the lists, 0 for an absent one.
fn counted(alloc: Global, octets: &[u8]) -> Result<(usize, usize, usize), u8> {
    let sizes = numbered(Sizes::from_der(alloc, octets))?;
    let few = numbered(sizes.few().items().count(alloc))?;
    let ordered = numbered(sizes.ordered().count(alloc))?;
    let labels = match sizes.labels() {
        Some(labels) => numbered(labels.count(alloc))?,
        None => 0,
    };
    Ok((few, ordered, labels))
}

#[test]
fn lists_of_a_size_are_seen(rt: HostRuntime) -> Result<(), Fail> {
    let alloc = rt.alloc();
    let octets = hex::decode(
        alloc,
        "302d3003020105a00b300602010502010604010031030101ffa10a3108820080008200800030080401aa8001050400",
    )?;
    same(&rt, counted(alloc, octets.as_slice()), Ok((1, 1, 3)));
    Ok(())
}
