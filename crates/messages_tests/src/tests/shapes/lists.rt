//! Lists: with a name and written out, in order and in any order, of one item or more.
//!
//! Each borrows its octets: they stay as they came, and the items are read again.

use super::item;
use crate::tests::{again, compared, copied, holds, is_copied, numbered, same, same_in};
use der_bits::BitStringRef;
use der_elem::{Encode, FromDer, TakesMemory};
use der_lists::{ListRef, NonEmptyRef, SetRef, UnorderedSetRef};
use der_shapes::shapes::{Lists, Numbers, Ordered, Pair, Status, Unordered};
use der_tlv::Length;
use std::alloc::Global;
use std::cmp::Ordering;
use std::test::Fail;

/// The octets of a refused row, and the number of the refusal.
type Row = (&'static str, u8);

/// Every field of `Lists`: the numbers 8 and 7, two lists of numbers, two pairs, two statuses
/// that are not in order, and two bit strings.
const EVERY: &str =
    "30373006020108020107300730030201053000a0143112300706032a03030500300706032a03040500a10482008000310803020080030200c0";

/// Only the required fields, with the fewest items.
const FEWEST: &str = "30083000300230003100";

fn numbers_again(alloc: Global, octets: &[u8]) -> Result<Vec<u8>, u8> {
    again::<Numbers>(alloc, octets)
}

fn ordered_again(alloc: Global, octets: &[u8]) -> Result<Vec<u8>, u8> {
    again::<Ordered>(alloc, octets)
}

fn unordered_again(alloc: Global, octets: &[u8]) -> Result<Vec<u8>, u8> {
    again::<Unordered>(alloc, octets)
}

fn lists_again(alloc: Global, octets: &[u8]) -> Result<Vec<u8>, u8> {
    again::<Lists>(alloc, octets)
}

#[test]
fn numbers_are_read_and_written_back(rt: HostRuntime) -> Result<(), Fail> {
    let alloc = rt.alloc();
    // none, one, and two in the order in which they came
    for digits in ["3000", "3003020105", "3006020108020107"] {
        let octets = hex::decode(alloc, digits)?;
        let written = numbers_again(alloc, octets.as_slice())?;
        same_in(&rt, &digits, written.as_slice(), octets.as_slice());
    }
    Ok(())
}

#[test]
fn a_set_in_order_is_read_and_written_back(rt: HostRuntime) -> Result<(), Fail> {
    let alloc = rt.alloc();
    // none, two in order, a longer one behind a shorter, and one that stands twice
    let rows = [
        "3100",
        "3112300706032a03030500300706032a03040500",
        "3113300706032a03040500300806035504030c0161",
        "3112300706032a03030500300706032a03030500",
    ];
    for digits in rows {
        let octets = hex::decode(alloc, digits)?;
        let written = ordered_again(alloc, octets.as_slice())?;
        same_in(&rt, &digits, written.as_slice(), octets.as_slice());
    }
    Ok(())
}

#[test]
fn a_set_in_any_order_stays_as_it_came(rt: HostRuntime) -> Result<(), Fail> {
    let alloc = rt.alloc();
    for digits in ["31028000", "310480008200", "310482008000", "310480008000"] {
        let octets = hex::decode(alloc, digits)?;
        let written = unordered_again(alloc, octets.as_slice())?;
        same_in(&rt, &digits, written.as_slice(), octets.as_slice());
    }
    Ok(())
}

#[test]
fn lists_are_read_and_written_back(rt: HostRuntime) -> Result<(), Fail> {
    let alloc = rt.alloc();
    for digits in [EVERY, FEWEST] {
        let octets = hex::decode(alloc, digits)?;
        let written = lists_again(alloc, octets.as_slice())?;
        same_in(&rt, &digits, written.as_slice(), octets.as_slice());
        for i in 0..octets.len() {
            let number = lists_again(alloc, &octets[..i]).err();
            same_in(&rt, &i, number, Some(2));
        }
    }
    Ok(())
}

#[test]
fn an_item_of_numbers_is_refused(rt: HostRuntime) -> Result<(), Fail> {
    let alloc = rt.alloc();
    // a number above 255, one below 0, a NULL behind a number, and the tag of a SET
    let rows: [Row; 4] = [
        ("300402020100", 7),
        ("3003020180", 13),
        ("30050201050500", 4),
        ("3100", 4),
    ];
    for (digits, number) in rows {
        let octets = hex::decode(alloc, digits)?;
        let answer = numbers_again(alloc, octets.as_slice());
        same_in(&rt, &digits, answer, Err(number));
    }
    Ok(())
}

#[test]
fn a_set_out_of_order_is_refused(rt: HostRuntime) -> Result<(), Fail> {
    let alloc = rt.alloc();
    let rows: [Row; 6] = [
        // two that are exchanged, and a longer one before a shorter
        ("3112300706032a03040500300706032a03030500", 11),
        ("3113300806035504030c0161300706032a03040500", 11),
        // the third before the second, behind two in order
        (
            "311b300706032a03030500300706032a03040500300706032a03030500",
            11,
        ),
        // an item's own fault: a NULL, a pair with no value, and one before items out of order
        ("31020500", 4),
        ("310730050603550403", 2),
        ("31140500300706032a03040500300706032a03030500", 4),
    ];
    for (digits, number) in rows {
        let octets = hex::decode(alloc, digits)?;
        let answer = ordered_again(alloc, octets.as_slice());
        same_in(&rt, &digits, answer, Err(number));
    }
    Ok(())
}

#[test]
fn a_set_of_no_items_is_refused(rt: HostRuntime) -> Result<(), Fail> {
    let alloc = rt.alloc();
    let rows: [Row; 5] = [
        ("3100", 13),
        // an item's own fault: of no kind, a NULL with contents, and one behind another
        ("31020500", 4),
        ("3103800100", 7),
        ("310480008300", 4),
        // the tag of a SEQUENCE
        ("30028000", 4),
    ];
    for (digits, number) in rows {
        let octets = hex::decode(alloc, digits)?;
        let answer = unordered_again(alloc, octets.as_slice());
        same_in(&rt, &digits, answer, Err(number));
    }
    Ok(())
}

#[test]
fn fields_that_are_lists_are_refused(rt: HostRuntime) -> Result<(), Fail> {
    let alloc = rt.alloc();
    let rows: [Row; 19] = [
        // no item of `some`, and of `unordered`
        ("3006300030003100", 13),
        ("300a300030023000a1003100", 13),
        // items of `ordered` and of `bits` that are exchanged
        (
            "301e300030023000a0143112300706032a03040500300706032a030305003100",
            11,
        ),
        ("30103000300230003108030200c003020080", 11),
        // a number above 255, one below 0, and a BIT STRING of nine unused bits
        ("300c300402020100300230003100", 7),
        ("300b3000300530030201803100", 13),
        ("300c300030023000310403020980", 13),
        // a pair that is a NULL, a status with contents, and one of no kind
        ("300e300030023000a004310205003100", 4),
        ("300d300030023000a1038001003100", 7),
        ("300c300030023000a10283003100", 4),
        // `ordered` with an implicit tag, and with nothing in its explicit one
        (
            "301c300030023000a012300706032a03030500300706032a030405003100",
            4,
        ),
        ("300a300030023000a0003100", 2),
        // `ordered` behind `unordered`, and behind `bits`
        (
            "3022300030023000a1028000a0143112300706032a03030500300706032a030405003100",
            4,
        ),
        (
            "301e3000300230003100a0143112300706032a03030500300706032a03040500",
            3,
        ),
        // lists with the tags of the others
        ("30083100300230003100", 4),
        ("30083000310230003100", 4),
        ("30083000300230003000", 4),
        // no `some`, and no `bits`
        ("300430003100", 4),
        ("3006300030023000", 2),
    ];
    for (digits, number) in rows {
        let octets = hex::decode(alloc, digits)?;
        let answer = lists_again(alloc, octets.as_slice());
        same_in(&rt, &digits, answer, Err(number));
    }
    Ok(())
}

// Returns the position of the refusal of octets.
fn position<'a, T: FromDer<'a> + Drop>(alloc: Global, octets: &'a [u8]) -> Option<Length> {
    match T::from_der(alloc, octets) {
        Ok(_value) => None,
        Err(e) => e.position(),
    }
}

#[test]
fn a_fault_stands_where_that_of_a_vector_does(rt: HostRuntime) -> Result<(), Fail> {
    let alloc = rt.alloc();
    for digits in ["300402020100", "3003020180", "30050201050500", "3100"] {
        let octets = hex::decode(alloc, digits)?;
        let wanted = position::<Vec<u8>>(alloc, octets.as_slice());
        let found = position::<Numbers>(alloc, octets.as_slice());
        holds(&rt, wanted.is_some());
        same_in(&rt, &digits, found, wanted);
    }
    // lists of lists of numbers: a number above 255 in the second, and a SET
    for digits in ["300b3003020105300402020100", "300730030201053100"] {
        let octets = hex::decode(alloc, digits)?;
        let wanted = position::<Vec<Vec<u8>>>(alloc, octets.as_slice());
        let found = position::<NonEmptyRef<ListRef<Numbers>>>(alloc, octets.as_slice());
        holds(&rt, wanted.is_some());
        same_in(&rt, &digits, found, wanted);
    }
    Ok(())
}

// Returns the numbers of a list.
fn numbers_of(alloc: Global, octets: &[u8]) -> Result<Vec<u8>, u8> {
    let numbers = numbered(Numbers::from_der(alloc, octets))?;
    numbered(numbers.items().to_vec(alloc))
}

#[test]
fn numbers_have_items(rt: HostRuntime) -> Result<(), Fail> {
    let alloc = rt.alloc();
    let octets = hex::decode(alloc, "3006020108020107")?;
    let found = numbers_of(alloc, octets.as_slice())?;
    same(&rt, found.as_slice(), [8u8, 7].as_slice());
    Ok(())
}

// Returns the number of numbers, the number of lists of numbers, and the numbers of the first
// list.
fn lists_of_numbers(alloc: Global, octets: &[u8]) -> Result<(usize, usize, Vec<u8>), u8> {
    let lists = numbered(Lists::from_der(alloc, octets))?;
    let numbers = numbered(lists.numbers().items().count(alloc))?;
    let some = lists.some().list();
    let count = numbered(some.count(alloc))?;
    let first = item(some.get(alloc, 0))?;
    Ok((numbers, count, numbered(first.items().to_vec(alloc))?))
}

// Returns the contents octets of the pairs and of the statuses, if there are any.
fn sets_of(alloc: Global, octets: &[u8]) -> Result<(Option<Vec<u8>>, Option<Vec<u8>>), u8> {
    let lists = numbered(Lists::from_der(alloc, octets))?;
    let ordered = match lists.ordered() {
        Some(ordered) => Some(copied(alloc, ordered.items().as_bytes())?),
        None => None,
    };
    let unordered = match lists.unordered() {
        Some(unordered) => Some(copied(alloc, unordered.items().as_bytes())?),
        None => None,
    };
    Ok((ordered, unordered))
}

// Returns the first octet of each bit string.
fn bits_of(alloc: Global, octets: &[u8]) -> Result<Vec<u8>, u8> {
    let lists = numbered(Lists::from_der(alloc, octets))?;
    let mut firsts = Vec::new(alloc);
    'bits: for bits in lists.bits().iter(alloc) {
        let Ok(bits) = bits else {
            return Err(0);
        };
        let Some(first) = bits.raw_bytes().first() else {
            return Err(0);
        };
        if firsts.push(*first).is_err() {
            return Err(1);
        }
    }
    Ok(firsts)
}

// Returns whether the first status is the last alternative, and the number of statuses.
fn first_is_unknown(alloc: Global, octets: &[u8]) -> Result<(bool, usize), u8> {
    let unordered = numbered(Unordered::from_der(alloc, octets))?;
    let statuses = unordered.items();
    let first = item(statuses.get(alloc, 0))?;
    Ok((
        matches!(first, Status::Unknown(_)),
        numbered(statuses.count(alloc))?,
    ))
}

// Returns the last octet of the identifier of the pair at an index.
fn pair_told(alloc: Global, octets: &[u8], place: usize) -> Result<u8, u8> {
    let ordered = numbered(Ordered::from_der(alloc, octets))?;
    match ordered.items().get(alloc, place) {
        Some(Ok(pair)) => match pair.type_().as_bytes().last() {
            Some(octet) => Ok(*octet),
            None => Err(0),
        },
        Some(Err(e)) => Err(e.kind().number()),
        None => Err(0),
    }
}

#[test]
fn lists_have_fields(rt: HostRuntime) -> Result<(), Fail> {
    let alloc = rt.alloc();
    let every = hex::decode(alloc, EVERY)?;
    let five = hex::decode(alloc, "05")?;
    let found = lists_of_numbers(alloc, every.as_slice());
    same(&rt, found, Ok((2, 2, five)));
    let pairs = hex::decode(alloc, "300706032a03030500300706032a03040500")?;
    let statuses = hex::decode(alloc, "82008000")?;
    let found = sets_of(alloc, every.as_slice());
    same(&rt, found, Ok((Some(pairs), Some(statuses))));
    let bits = hex::decode(alloc, "80c0")?;
    same(&rt, bits_of(alloc, every.as_slice()), Ok(bits));
    let fewest = hex::decode(alloc, FEWEST)?;
    let found = lists_of_numbers(alloc, fewest.as_slice());
    same(&rt, found, Ok((0, 1, Vec::new(alloc))));
    same(&rt, sets_of(alloc, fewest.as_slice()), Ok((None, None)));
    same(&rt, bits_of(alloc, fewest.as_slice()), Ok(Vec::new(alloc)));
    Ok(())
}

#[test]
fn sets_have_items(rt: HostRuntime) -> Result<(), Fail> {
    let alloc = rt.alloc();
    let octets = hex::decode(alloc, "310482008000")?;
    same(
        &rt,
        first_is_unknown(alloc, octets.as_slice()),
        Ok((true, 2)),
    );
    let octets = hex::decode(alloc, "3112300706032a03030500300706032a03040500")?;
    same(&rt, pair_told(alloc, octets.as_slice(), 0), Ok(3));
    same(&rt, pair_told(alloc, octets.as_slice(), 1), Ok(4));
    same(&rt, pair_told(alloc, octets.as_slice(), 2), Err(0));
    Ok(())
}

// Returns the encoding of numbers with these contents octets.
fn new_numbers(alloc: Global, contents: &[u8]) -> Result<Vec<u8>, u8> {
    let items = numbered(ListRef::new(alloc, contents))?;
    numbered(Numbers::new(items).to_der(alloc))
}

// Returns the encoding of pairs with these contents octets.
fn new_ordered(alloc: Global, contents: &[u8]) -> Result<Vec<u8>, u8> {
    let items = numbered(SetRef::<Pair>::new(alloc, contents))?;
    numbered(Ordered::new(items).to_der(alloc))
}

// Returns the encoding of statuses with these contents octets.
fn new_unordered(alloc: Global, contents: &[u8]) -> Result<Vec<u8>, u8> {
    let items = numbered(UnorderedSetRef::<Status>::new(alloc, contents))?;
    let items = numbered(NonEmptyRef::new(items))?;
    numbered(Unordered::new(items).to_der(alloc))
}

#[test]
fn lists_are_made_of_contents(rt: HostRuntime) -> Result<(), Fail> {
    let alloc = rt.alloc();
    let contents = hex::decode(alloc, "020108020107")?;
    let wanted = hex::decode(alloc, "3006020108020107")?;
    same(&rt, new_numbers(alloc, contents.as_slice()), Ok(wanted));
    let contents = hex::decode(alloc, "300706032a03030500300706032a03040500")?;
    let wanted = hex::decode(alloc, "3112300706032a03030500300706032a03040500")?;
    same(&rt, new_ordered(alloc, contents.as_slice()), Ok(wanted));
    let contents = hex::decode(alloc, "82008000")?;
    let wanted = hex::decode(alloc, "310482008000")?;
    same(&rt, new_unordered(alloc, contents.as_slice()), Ok(wanted));
    Ok(())
}

#[test]
fn lists_of_other_contents_are_not_made(rt: HostRuntime) -> Result<(), Fail> {
    let alloc = rt.alloc();
    // a NULL, pairs that are exchanged, and no status
    same(&rt, new_numbers(alloc, &[5, 0]), Err(4));
    let exchanged = hex::decode(alloc, "300706032a03040500300706032a03030500")?;
    same(&rt, new_ordered(alloc, exchanged.as_slice()), Err(11));
    same(&rt, new_unordered(alloc, &[]), Err(13));
    Ok(())
}

// Returns the encoding of lists with these fields, each given by its own octets.
fn new_lists(alloc: Global, fields: [&[u8]; 5]) -> Result<Vec<u8>, u8> {
    let [numbers, some, ordered, unordered, bits] = fields;
    let numbers = numbered(Numbers::from_der(alloc, numbers))?;
    let some = numbered(NonEmptyRef::<ListRef<Numbers>>::from_der(alloc, some))?;
    let ordered = numbered(Ordered::from_der(alloc, ordered))?;
    let unordered = numbered(Unordered::from_der(alloc, unordered))?;
    let bits = numbered(SetRef::<BitStringRef>::from_der(alloc, bits))?;
    let lists = Lists::new(&numbers, &some, Some(&ordered), Some(&unordered), &bits);
    numbered(lists.to_der(alloc))
}

// Returns the encoding of lists with these fields, no pairs and no statuses.
fn new_lists_of_fewest(
    alloc: Global,
    numbers: &[u8],
    some: &[u8],
    bits: &[u8],
) -> Result<Vec<u8>, u8> {
    let numbers = numbered(Numbers::from_der(alloc, numbers))?;
    let some = numbered(NonEmptyRef::<ListRef<Numbers>>::from_der(alloc, some))?;
    let bits = numbered(SetRef::<BitStringRef>::from_der(alloc, bits))?;
    let lists = Lists::new(&numbers, &some, None, None, &bits);
    numbered(lists.to_der(alloc))
}

#[test]
fn lists_are_made_of_fields(rt: HostRuntime) -> Result<(), Fail> {
    let alloc = rt.alloc();
    let numbers = hex::decode(alloc, "3006020108020107")?;
    let some = hex::decode(alloc, "300730030201053000")?;
    let ordered = hex::decode(alloc, "3112300706032a03030500300706032a03040500")?;
    let unordered = hex::decode(alloc, "310482008000")?;
    let bits = hex::decode(alloc, "310803020080030200c0")?;
    let fields = [
        numbers.as_slice(),
        some.as_slice(),
        ordered.as_slice(),
        unordered.as_slice(),
        bits.as_slice(),
    ];
    let every = hex::decode(alloc, EVERY)?;
    same(&rt, new_lists(alloc, fields), Ok(every));
    let fewest = hex::decode(alloc, FEWEST)?;
    let found = new_lists_of_fewest(alloc, &[0x30, 0], &[0x30, 2, 0x30, 0], &[0x31, 0]);
    same(&rt, found, Ok(fewest));
    Ok(())
}

// Returns the order of the values of two encodings, whether they are equal, and whether a copy of
// the first is equal to it.
fn lists_compared(
    alloc: Global,
    first: &[u8],
    second: &[u8],
) -> Result<((Ordering, bool), bool), u8> {
    let first = numbered(Lists::from_der(alloc, first))?;
    let second = numbered(Lists::from_der(alloc, second))?;
    Ok((compared(&first, &second)?, is_copied(&first)))
}

fn statuses_compared(
    alloc: Global,
    first: &[u8],
    second: &[u8],
) -> Result<((Ordering, bool), bool), u8> {
    let first = numbered(Unordered::from_der(alloc, first))?;
    let second = numbered(Unordered::from_der(alloc, second))?;
    Ok((compared(&first, &second)?, is_copied(&first)))
}

#[test]
fn lists_are_ordered_as_their_encodings(rt: HostRuntime) -> Result<(), Fail> {
    let alloc = rt.alloc();
    let every = hex::decode(alloc, EVERY)?;
    let fewest = hex::decode(alloc, FEWEST)?;
    let found = lists_compared(alloc, every.as_slice(), fewest.as_slice());
    same(&rt, found, Ok(((Ordering::Greater, false), true)));
    let found = lists_compared(alloc, every.as_slice(), every.as_slice());
    same(&rt, found, Ok(((Ordering::Equal, true), true)));
    // a set in any order is another value where its items are exchanged
    let first = hex::decode(alloc, "310480008200")?;
    let second = hex::decode(alloc, "310482008000")?;
    let found = statuses_compared(alloc, first.as_slice(), second.as_slice());
    same(&rt, found, Ok(((Ordering::Less, false), true)));
    Ok(())
}

#[test]
fn lists_take_no_memory(rt: HostRuntime) -> Result<(), Fail> {
    holds(&rt, !<Numbers as TakesMemory>::TAKES_MEMORY);
    holds(&rt, !<Ordered as TakesMemory>::TAKES_MEMORY);
    holds(&rt, !<Unordered as TakesMemory>::TAKES_MEMORY);
    holds(&rt, !<Lists as TakesMemory>::TAKES_MEMORY);
    Ok(())
}
