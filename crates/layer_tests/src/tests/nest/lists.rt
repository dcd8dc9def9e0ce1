//! Lists that borrow the octets that they were read from.

use crate::tests::nest::reads_as;
use crate::tests::{holds, numbered, same, same_in};
use der_elem::{Choice, Decode, Encode, FromDer, OneTag, Tagged, TakesMemory};
use der_lists::{ItemTest, ListRef, NonEmptyRef, SetRef, UnorderedSetRef};
use der_nest::SequenceRef;
use der_tlv::{Error, Length, Reader, SliceReader, Tag};
use std::alloc::Global;
use std::process::Abort;
use std::test::Fail;

type Numbers<'a> = ListRef<'a, u16>;

type SetOfNumbers<'a> = SetRef<'a, u16>;

type AnyOrder<'a> = UnorderedSetRef<'a, u16>;

type SomeNumbers<'a> = NonEmptyRef<ListRef<'a, u16>>;

/// 8 and 7 in a SET in any order, then in a SEQUENCE; 7 and 8 in a SET.
const FALLING: [u8; 8] = [0x31, 0x06, 0x02, 0x01, 0x08, 0x02, 0x01, 0x07];

const LIST: [u8; 8] = [0x30, 0x06, 0x02, 0x01, 0x08, 0x02, 0x01, 0x07];

const RISING: [u8; 8] = [0x31, 0x06, 0x02, 0x01, 0x07, 0x02, 0x01, 0x08];

// Returns the number with which the octets are refused, or 0 if they are read.
fn refusal<'a, T: FromDer<'a> + Drop>(alloc: Global, octets: &'a [u8]) -> u8 {
    match T::from_der(alloc, octets) {
        Ok(_value) => 0,
        Err(e) => e.kind().number(),
    }
}

// Returns an item, if there is one, or the number of its refusal.
fn told(answer: Option<Result<u16, Error>>) -> Option<Result<u16, u8>> {
    match answer {
        Some(item) => Some(numbered(item)),
        None => None,
    }
}

// Returns the position of the refusal.
fn position<'a, T: FromDer<'a> + Drop>(alloc: Global, octets: &'a [u8]) -> Option<Length> {
    match T::from_der(alloc, octets) {
        Ok(_value) => None,
        Err(e) => e.position(),
    }
}

#[test]
fn lists_stay_as_they_came(rt: HostRuntime) -> Result<(), Fail> {
    let alloc = rt.alloc();
    reads_as::<Numbers>(&rt, alloc, &LIST, &LIST)?;
    reads_as::<SetOfNumbers>(&rt, alloc, &RISING, &RISING)?;
    reads_as::<AnyOrder>(&rt, alloc, &FALLING, &FALLING)?;
    reads_as::<SomeNumbers>(&rt, alloc, &LIST, &LIST)?;
    same(&rt, refusal::<SetOfNumbers>(alloc, &FALLING), 11);
    Ok(())
}

#[test]
fn contents_octets_are_shown(rt: HostRuntime) -> Result<(), Fail> {
    let alloc = rt.alloc();
    let list = numbered(Numbers::from_der(alloc, &LIST))?;
    let set = numbered(SetOfNumbers::from_der(alloc, &RISING))?;
    let any = numbered(AnyOrder::from_der(alloc, &FALLING))?;
    same(&rt, list.as_bytes(), &LIST[2..]);
    same(&rt, set.as_bytes(), &RISING[2..]);
    same(&rt, any.as_bytes(), &FALLING[2..]);
    let copy = list.clone()?;
    holds(&rt, copy == list);
    Ok(())
}

#[test]
fn items_are_read_again(rt: HostRuntime) -> Result<(), Fail> {
    let alloc = rt.alloc();
    let mut rest = numbered(Numbers::from_der(alloc, &LIST))?.iter(alloc);
    same(&rt, told(rest.next()), Some(Ok(8)));
    same(&rt, told(rest.next()), Some(Ok(7)));
    same(&rt, told(rest.next()), None);
    same(&rt, told(rest.next()), None);
    Ok(())
}

#[test]
fn lists_have_their_items(rt: HostRuntime) -> Result<(), Fail> {
    let alloc = rt.alloc();
    let list = numbered(Numbers::from_der(alloc, &LIST))?;
    same(
        &rt,
        numbered(list.to_vec(alloc))?.as_slice(),
        [8u16, 7].as_slice(),
    );
    same(&rt, numbered(list.count(alloc)), Ok(2));
    same(&rt, told(list.get(alloc, 1)), Some(Ok(7)));
    same(&rt, told(list.get(alloc, 2)), None);
    holds(&rt, !list.is_empty());
    Ok(())
}

#[test]
fn sets_have_their_items(rt: HostRuntime) -> Result<(), Fail> {
    let alloc = rt.alloc();
    let set = numbered(SetOfNumbers::from_der(alloc, &RISING))?;
    same(
        &rt,
        numbered(set.to_vec(alloc))?.as_slice(),
        [7u16, 8].as_slice(),
    );
    same(&rt, numbered(set.count(alloc)), Ok(2));
    same(&rt, told(set.get(alloc, 0)), Some(Ok(7)));
    holds(&rt, !set.is_empty());
    let any = numbered(AnyOrder::from_der(alloc, &FALLING))?;
    same(
        &rt,
        numbered(any.to_vec(alloc))?.as_slice(),
        [8u16, 7].as_slice(),
    );
    same(&rt, numbered(any.count(alloc)), Ok(2));
    same(&rt, told(any.get(alloc, 0)), Some(Ok(8)));
    holds(&rt, !any.is_empty());
    Ok(())
}

/// The test for equality with this number. Numbers with one encoding are equal.
struct IsNumber(u16);

impl ItemTest<u16> for IsNumber {
    ghost use Rattle.std.specs.Prelude.{◌==◌};
    ghost use Rattle.layer_tests.specs.Numbers.{same_number};

    ghost passes = { λ p v. v == p.0 };

    fn passes(&self, item: &u16) -> bool {
        *item == self.0
    }

    ghost respects = { λ p v w e. same_number p.0 v w e };
}

#[test]
fn items_pass_tests(rt: HostRuntime) -> Result<(), Fail> {
    let alloc = rt.alloc();
    let list = numbered(Numbers::from_der(alloc, &LIST))?;
    holds(&rt, list.any(alloc, &IsNumber(7)));
    holds(&rt, !list.any(alloc, &IsNumber(9)));
    holds(&rt, !list.all(alloc, &IsNumber(7)));
    let none = numbered(Numbers::from_der(alloc, &[0x30, 0x00]))?;
    holds(&rt, !none.any(alloc, &IsNumber(7)));
    holds(&rt, none.all(alloc, &IsNumber(7)));
    let set = numbered(SetOfNumbers::from_der(alloc, &[0x31, 0x03, 0x02, 0x01, 0x07]))?;
    holds(&rt, set.any(alloc, &IsNumber(7)));
    holds(&rt, set.all(alloc, &IsNumber(7)));
    let unordered = numbered(AnyOrder::from_der(alloc, &FALLING))?;
    holds(&rt, unordered.any(alloc, &IsNumber(8)));
    holds(&rt, !unordered.all(alloc, &IsNumber(8)));
    Ok(())
}

#[test]
fn empty_lists(rt: HostRuntime) -> Result<(), Fail> {
    let alloc = rt.alloc();
    let list = numbered(Numbers::from_der(alloc, &[0x30, 0x00]))?;
    holds(&rt, list.is_empty());
    same(&rt, numbered(list.count(alloc)), Ok(0));
    same(&rt, told(list.get(alloc, 0)), None);
    let set = numbered(SetOfNumbers::from_der(alloc, &[0x31, 0x00]))?;
    holds(&rt, set.is_empty());
    same(&rt, refusal::<SomeNumbers>(alloc, &[0x30, 0x00]), 13);
    same(
        &rt,
        refusal::<NonEmptyRef<SetRef<u16>>>(alloc, &[0x31, 0x00]),
        13,
    );
    Ok(())
}

#[test]
fn lists_of_contents_octets(rt: HostRuntime) -> Result<(), Fail> {
    let alloc = rt.alloc();
    let list = numbered(Numbers::new(alloc, &LIST[2..]))?;
    same(
        &rt,
        numbered(list.to_der(alloc))?.as_slice(),
        LIST.as_slice(),
    );
    same(
        &rt,
        numbered(SetOfNumbers::new(alloc, &LIST[2..])).map(|it| it.is_empty()),
        Err(11),
    );
    same(
        &rt,
        numbered(AnyOrder::new(alloc, &LIST[2..])).map(|it| it.is_empty()),
        Ok(false),
    );
    same(
        &rt,
        numbered(Numbers::new(alloc, &LIST[3..])).map(|it| it.is_empty()),
        Err(4),
    );
    Ok(())
}

#[test]
fn lists_that_have_an_item(rt: HostRuntime) -> Result<(), Fail> {
    let alloc = rt.alloc();
    let list = numbered(Numbers::from_der(alloc, &LIST))?;
    same(
        &rt,
        numbered(NonEmptyRef::new(list))?.list().as_bytes(),
        &LIST[2..],
    );
    let none = numbered(Numbers::from_der(alloc, &[0x30, 0x00]))?;
    same(
        &rt,
        numbered(NonEmptyRef::new(none)).map(|it| it.list().is_empty()),
        Err(13),
    );
    Ok(())
}

#[test]
fn equal_items_stay(rt: HostRuntime) -> Result<(), Fail> {
    let equal = [0x31, 0x06, 0x02, 0x01, 0x07, 0x02, 0x01, 0x07];
    reads_as::<SetOfNumbers>(&rt, rt.alloc(), &equal, &equal)?;
    Ok(())
}

#[test]
fn the_octets_decide_the_order(rt: HostRuntime) {
    let alloc = rt.alloc();
    let rows: [(&[u8], u8); 5] = [
        // 300 is 02 02 01 2c, which is greater than 02 01 08
        (&[0x31, 0x07, 0x02, 0x01, 0x08, 0x02, 0x02, 0x01, 0x2c], 0),
        // 127 is 02 01 7f and 255 is 02 02 00 ff
        (&[0x31, 0x07, 0x02, 0x02, 0x00, 0xff, 0x02, 0x01, 0x7f], 11),
        // the third item is less than the second, and not than the first
        (
            &[
                0x31, 0x09, 0x02, 0x01, 0x05, 0x02, 0x01, 0x08, 0x02, 0x01, 0x07,
            ],
            11,
        ),
        // the order's fault is at the second item, and the third's own is not reached
        (
            &[
                0x31, 0x09, 0x02, 0x01, 0x08, 0x02, 0x01, 0x07, 0x01, 0x01, 0xff,
            ],
            11,
        ),
        // an item's own fault comes before that of its order
        (&[0x31, 0x05, 0x02, 0x01, 0x08, 0x02, 0x01], 2),
    ];
    'rows: for (octets, number) in rows {
        same_in(&rt, &octets, refusal::<SetOfNumbers>(alloc, octets), number);
    }
}

// A list returns the error that a vector of the same items does, with the same number and
// position.
#[test]
fn the_first_fault_of_an_item(rt: HostRuntime) {
    let alloc = rt.alloc();
    let rows: [(&[u8], u8); 4] = [
        // another tag
        (&[0x30, 0x06, 0x02, 0x01, 0x08, 0x01, 0x01, 0xff], 4),
        // the second item ends too soon
        (&[0x30, 0x05, 0x02, 0x01, 0x08, 0x02, 0x01], 2),
        // a number that is no u16
        (&[0x30, 0x05, 0x02, 0x03, 0x01, 0x00, 0x00], 7),
        // another tag in place of the list's
        (&[0x31, 0x00], 4),
    ];
    'rows: for (octets, number) in rows {
        same_in(&rt, &octets, refusal::<Numbers>(alloc, octets), number);
        same_in(&rt, &octets, refusal::<Vec<u16>>(alloc, octets), number);
        let at = position::<Vec<u16>>(alloc, octets);
        same_in(&rt, &octets, position::<Numbers>(alloc, octets), at);
    }
}

#[test]
fn lists_take_the_memory_of_their_items(rt: HostRuntime) {
    holds(&rt, !<Numbers as TakesMemory>::TAKES_MEMORY);
    holds(&rt, !<SetOfNumbers as TakesMemory>::TAKES_MEMORY);
    holds(&rt, !<AnyOrder as TakesMemory>::TAKES_MEMORY);
    holds(&rt, !<SomeNumbers as TakesMemory>::TAKES_MEMORY);
    holds(&rt, <ListRef<Vec<u16>> as TakesMemory>::TAKES_MEMORY);
}

#[test]
fn a_set_of_lists(rt: HostRuntime) {
    let alloc = rt.alloc();
    let rising = [
        0x31, 0x0a, 0x30, 0x03, 0x02, 0x01, 0x09, 0x30, 0x03, 0x02, 0x01, 0x0a,
    ];
    let falling = [
        0x31, 0x0a, 0x30, 0x03, 0x02, 0x01, 0x0a, 0x30, 0x03, 0x02, 0x01, 0x09,
    ];
    same(&rt, refusal::<SetRef<ListRef<u16>>>(alloc, &rising), 0);
    same(&rt, refusal::<SetRef<ListRef<u16>>>(alloc, &falling), 11);
    same(
        &rt,
        refusal::<UnorderedSetRef<ListRef<u16>>>(alloc, &falling),
        0,
    );
}

// Returns the tag of a type, as its value gives it.
fn tag_of<T: OneTag + Tagged>(value: T) -> Tag {
    value.tag()
}

#[test]
fn tags_of_lists(rt: HostRuntime) -> Result<(), Fail> {
    let alloc = rt.alloc();
    same(
        &rt,
        tag_of(numbered(Numbers::from_der(alloc, &LIST))?),
        Tag::Sequence,
    );
    same(
        &rt,
        tag_of(numbered(SetOfNumbers::from_der(alloc, &RISING))?),
        Tag::Set,
    );
    same(
        &rt,
        tag_of(numbered(AnyOrder::from_der(alloc, &FALLING))?),
        Tag::Set,
    );
    same(
        &rt,
        tag_of(numbered(SomeNumbers::from_der(alloc, &LIST))?),
        Tag::Sequence,
    );
    Ok(())
}
