//! Lists that have an item.

use crate::tests::nest::reads_as;
use crate::tests::{holds, numbered, same, same_in};
use der_elem::{Decode, TakesMemory};
use der_nest::{ItemSet, NonEmpty, SetOfVec, Values};
use der_opaque::AnyRef;
use der_tlv::SliceReader;
use std::alloc::Global;
use std::process::Abort;
use std::test::Fail;

/// `SEQUENCE SIZE (1..MAX) OF INTEGER`
type SomeNumbers = NonEmpty<Vec<u16>>;

/// `SET SIZE (1..MAX) OF INTEGER`
type SomeOfSet = NonEmpty<SetOfVec<u16>>;

/// `SET SIZE (1..MAX) OF ANY`
type SomeValues<'a> = NonEmpty<ItemSet<AnyRef<'a>, Values>>;

// Asserts that the octets are read as a sequence of numbers that is written as these octets, or
// returns the number of the refusal.
fn sequence_reads_back(rt: &impl Abort, alloc: Global, octets: &[u8]) -> Result<(), u8> {
    reads_as::<SomeNumbers>(rt, alloc, octets, octets)
}

// Asserts that the octets are read as a set of numbers that is written as `written`, or returns
// the number of the refusal.
fn set_reads_as(rt: &impl Abort, alloc: Global, octets: &[u8], written: &[u8]) -> Result<(), u8> {
    reads_as::<SomeOfSet>(rt, alloc, octets, written)
}

// Asserts that the octets are read as a set of values of any type that is written as `written`,
// or returns the number of the refusal.
fn values_read_as(rt: &impl Abort, alloc: Global, octets: &[u8], written: &[u8]) -> Result<(), u8> {
    reads_as::<SomeValues>(rt, alloc, octets, written)
}

#[test]
fn lists_of_an_item_are_read(rt: HostRuntime) -> Result<(), Fail> {
    let alloc = rt.alloc();
    sequence_reads_back(&rt, alloc, &[0x30, 0x03, 0x02, 0x01, 0x05])?;
    let falling = [0x31, 0x06, 0x02, 0x01, 0x08, 0x02, 0x01, 0x07];
    let rising = [0x31, 0x06, 0x02, 0x01, 0x07, 0x02, 0x01, 0x08];
    set_reads_as(&rt, alloc, &falling, &rising)?;
    let mixed = [0x31, 0x06, 0x02, 0x01, 0x08, 0x01, 0x01, 0xff];
    let ordered = [0x31, 0x06, 0x01, 0x01, 0xff, 0x02, 0x01, 0x08];
    values_read_as(&rt, alloc, &mixed, &ordered)?;
    holds(&rt, <SomeNumbers as TakesMemory>::TAKES_MEMORY);
    Ok(())
}

#[test]
fn lists_of_no_items_are_refused(rt: HostRuntime) {
    let alloc = rt.alloc();
    let rows: [(&[u8], u8); 5] = [
        (&[0x30, 0x00], 13),
        (&[0x30, 0x00, 0x00], 13),
        (&[0x31, 0x00], 4),
        (&[0x30, 0x01], 2),
        (&[0x30, 0x02, 0x01, 0x00], 4),
    ];
    for (octets, number) in rows {
        let answer = sequence_reads_back(&rt, alloc, octets);
        same_in(&rt, &octets, answer, Err(number));
    }
    same(&rt, set_reads_as(&rt, alloc, &[0x31, 0x00], &[]), Err(13));
    same(&rt, values_read_as(&rt, alloc, &[0x31, 0x00], &[]), Err(13));
}

#[test]
fn a_list_is_taken_where_it_has_an_item(rt: HostRuntime) -> Result<(), Fail> {
    let alloc = rt.alloc();
    let none: Vec<u16> = Vec::new(alloc);
    same(&rt, numbered(NonEmpty::new(none)).err(), Some(13));
    let some = numbered(NonEmpty::new(Vec::from_array(alloc, [5u16, 3])?))?;
    same(&rt, some.list().as_slice(), [5, 3].as_slice());
    let text = format!(in alloc; "{some:?}")?;
    same(&rt, text.as_str(), "[5, 3]");
    same(&rt, some.into_list().as_slice(), [5, 3].as_slice());
    same(
        &rt,
        numbered(NonEmpty::new(SetOfVec::<u16>::new(alloc))).err(),
        Some(13),
    );
    let set: ItemSet<u16> = ItemSet::new(alloc);
    same(&rt, numbered(NonEmpty::new(set)).err(), Some(13));
    Ok(())
}

// A reader that has failed refuses with its own number (17).
#[test]
fn a_failed_reader_reads_no_list(rt: HostRuntime) -> Result<(), Fail> {
    let octets = [0x31, 0x00];
    match SliceReader::new(&octets) {
        Ok(mut reader) => {
            for number in [4, 17] {
                let answer = numbered(SomeNumbers::decode(rt.alloc(), &mut reader));
                same(&rt, answer.err(), Some(number));
            }
            Ok(())
        }
        Err(_) => Err("refused".into()),
    }
}
