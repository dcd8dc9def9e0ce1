//! How often a place asks its probe, and what an ask compares.

ghost use Rattle.std.specs.Prelude.{◌≡◌, ◌<◌};
ghost use Rattle.der_nest.specs.Places.{IsInOrder};

use crate::tests::nest::counting::with_count;
use crate::tests::{numbered, same, same_in};
use der_elem::DerOrd;
use der_nest::{ItemProbe, Probe, SetOfVec, insertion_place};
use der_tlv::Error;
use std::alloc::Global;
use std::cell::Cell;
use std::marker::Brand;
use std::sync::ledger::{Blank, Ledger};
use std::test::Fail;

// A probe that counts how many times it was asked.
#[derive(Drop)]
struct Watched<'a, P> {
    probe: P,
    asked: &'a Cell<u32>,
}

impl<'a, P: Probe> Probe for Watched<'a, P> {
    ghost answers = { λ w. P.answers w.probe };

    ghost may_refuse = { λ w. P.may_refuse w.probe };

    ghost asks = { λ w. P.asks w.probe };

    fn ask(&mut self, i: usize) -> Result<bool, Error> {
        self.asked.set(self.asked.get().wrapping_add(1));
        self.probe.ask(i)
    }
}

// Returns the index of an item, and how many times its probe was asked.
fn watched_place<T: DerOrd, L: Ledger>(
    items: &[T],
    item: &T,
    blank: Blank,
) -> Result<(usize, u32), u8>
    requires name { blank.name ≡ L.name }
    requires parts { blank.parts ≡ L.parts }
    requires some { 0 < blank.parts }
    requires in_order { IsInOrder T.encoding items.now }
{
    let asked = Cell::new(0);
    let probe = ItemProbe::<'_, T, L>::new(items, item, blank);
    let mut watched = Watched {
        probe,
        asked: &asked,
    };
    let place = numbered(insertion_place(items.len(), &mut watched))?;
    Ok((place, asked.get()))
}

// Returns the index of an item among `count` equal ones, and how many times its probe was asked.
fn place_among_equals<T: DerOrd + Copy>(
    alloc: Global,
    count: u16,
    item: T,
    comparisons: &Cell<u32>,
) -> Result<(usize, u32), u8> {
    let mut set = SetOfVec::new(alloc);
    for _i in 0..count {
        numbered(set.insert_ordered(item))?;
    }
    comparisons.set(0);
    watched_place::<T, Brand>(set.as_slice(), &item, Blank::new(1))
}

#[test]
fn a_probe_is_asked_as_often_as_the_number_of_items_has_digits(
    rt: HostRuntime,
) -> Result<(), Fail> {
    let comparisons = Cell::new(0);
    let item = with_count(5u16, &comparisons);
    let rows = [(0, 0), (1, 1), (3, 2), (4, 3), (1000, 10), (4000, 12)];
    for (count, most) in rows {
        let (place, asks) = place_among_equals(rt.alloc(), count, item, &comparisons)?;
        same(&rt, place, usize::from(count));
        same_in(&rt, &count, asks <= most, true);
        same_in(&rt, &"an ask compares once", comparisons.get(), asks);
    }
    Ok(())
}
