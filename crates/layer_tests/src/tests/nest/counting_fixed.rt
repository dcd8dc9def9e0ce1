//! How many comparisons the calls of a set of fixed capacity make.

ghost use Rattle.der_elem.specs.FormatMakers.{mapped_format};

use crate::tests::nest::counting::few;
use crate::tests::{holds, numbered, same};
use der_elem::{EncodeValue, FormValue, IntegerTag, OneTag, ValueOrd};
use der_nest::SetOf;
use der_tlv::{Error, Length, Writer};
use std::cell::Cell;
use std::cmp::Ordering;
use std::process::Abort;
use std::test::Fail;

// A number that counts how many times its contents octets are compared. Numbers from 128 to 32767
// have two contents octets, so each comparison of two encodings compares them.
#[derive(Clone, Copy, Default)]
struct CountedNumber<'a> {
    number: u16,
    comparisons: Option<&'a Cell<u32>>,
}

impl<'a> FormValue for CountedNumber<'a> {
    ghost value = { mapped_format (λ v. v.number) ⟦<u16 as FormValue>⟧.value };
}

impl<'a> OneTag for CountedNumber<'a> {
    type Marker = IntegerTag;
}

impl<'a> EncodeValue for CountedNumber<'a> {
    fn value_len(&self) -> Result<Length, Error> {
        self.number.value_len()
    }

    fn encode_value<W: Writer>(&self, writer: &mut W) -> Result<(), Error> {
        self.number.encode_value(writer)
    }
}

impl<'a> ValueOrd for CountedNumber<'a> {
    fn value_cmp(&self, other: &CountedNumber<'a>) -> Result<Ordering, Error> {
        if let Some(comparisons) = self.comparisons {
            comparisons.set(comparisons.get().wrapping_add(1));
        }
        self.number.value_cmp(&other.number)
    }
}

fn with_count(number: u16, comparisons: &Cell<u32>) -> CountedNumber<'_> {
    CountedNumber {
        number,
        comparisons: Some(comparisons),
    }
}

type FortySet<'a> = SetOf<CountedNumber<'a>, 40>;

type FiveSet<'a> = SetOf<CountedNumber<'a>, 5>;

// Inserts forty numbers and checks the number of comparisons of each. Each number is the previous
// one plus `step`, modulo 41, which is prime.
fn inserts<'a>(rt: &impl Abort, comparisons: &'a Cell<u32>, step: u16) -> Result<(), u8> {
    let mut set: FortySet<'a> = SetOf::new();
    let mut value = 0;
    for _i in 0..40u16 {
        value = (value % 41 + step % 41) % 41;
        let before = set.len();
        comparisons.set(0);
        numbered(set.insert(with_count(200 + value % 41, comparisons)))?;
        few(rt, before, comparisons);
    }
    Ok(())
}

// Adds forty numbers at the end. Each is compared with the last one only.
fn appends<'a>(rt: &impl Abort, comparisons: &'a Cell<u32>) -> Result<(), u8> {
    let mut set: FortySet<'a> = SetOf::new();
    for number in 200..240u16 {
        let wanted = if set.is_empty() { 0 } else { 1 };
        comparisons.set(0);
        numbered(set.insert_ordered(with_count(number, comparisons)))?;
        same(rt, comparisons.get(), wanted);
    }
    Ok(())
}

// Returns the number of comparisons to make a set from five numbers.
fn sorted(numbers: [u16; 5]) -> Result<u32, u8> {
    let comparisons = Cell::new(0);
    let items = numbers.map(|number| with_count(number, &comparisons));
    numbered(FiveSet::try_from(items))?;
    Ok(comparisons.get())
}

#[test]
fn an_insertion_compares_as_often_as_the_number_of_items_has_digits(
    rt: HostRuntime,
) -> Result<(), Fail> {
    let comparisons = Cell::new(0);
    inserts(&rt, &comparisons, 0)?;
    inserts(&rt, &comparisons, 1)?;
    inserts(&rt, &comparisons, 3)?;
    inserts(&rt, &comparisons, 40)?;
    Ok(())
}

#[test]
fn an_item_at_the_end_is_compared_once(rt: HostRuntime) -> Result<(), Fail> {
    let comparisons = Cell::new(0);
    appends(&rt, &comparisons)?;
    Ok(())
}

// 8 is the sum of the numbers of binary digits of 0 to 4.
#[test]
fn an_array_is_compared_as_the_items_of_a_vector(rt: HostRuntime) -> Result<(), Fail> {
    same(&rt, sorted([205, 206, 207, 208, 209])?, 4);
    holds(&rt, sorted([209, 208, 207, 206, 205])? <= 8);
    Ok(())
}
