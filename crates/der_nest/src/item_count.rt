//! Lists whose number of items is known.

ghost use Rattle.std.specs.Prelude.{◌≡◌, ℕ, ◌<◌, ◌↔◌, IsTrue, [], length};
ghost use Rattle.der_nest.specs.ItemCounts.{no_items, same_count};

use crate::item_order::{ItemOrder, OrdersByEncoding};
use crate::item_set::ItemSet;
use crate::set_of_vec::SetOfVec;
use der_elem::{Duplicate, DuplicateValue, Form, FormValue};

/// A list whose number of items is known.
pub trait ItemCount {
    ghost item_count: { Self → ℕ };

    /// Returns whether the list has an item.
    fn has_items(&self) -> bool
        ensures { IsTrue result ↔ (0 < item_count self.now) };
}

/// A list whose contents octets are those of its items: a list of no items has no contents
/// octets.
pub trait ItemContents: ItemCount + FormValue {
    ghost no_contents: { (v : Self) → Self.item_count v ≡ 0 → Self.value.contents v ≡ [] };
}

/// A list whose copies have the same number of items.
pub trait DuplicateItems: ItemCount + DuplicateValue {
    ghost same_count: { (v w : Self) → Self.is_copy_value v w
        → Self.item_count w ≡ Self.item_count v };
}

impl<T> ItemCount for Vec<T> {
    ghost item_count = { λ v. length v.items };

    fn has_items(&self) -> bool {
        !self.is_empty()
    }
}

impl<T: Form> ItemContents for Vec<T> {
    ghost no_contents = { λ v. no_items T.encoding v.items };
}

impl<T: Duplicate> DuplicateItems for Vec<T> {
    ghost same_count = { λ v w. same_count T.is_copy v.items w.items };
}

impl<T: Form> ItemCount for SetOfVec<T> {
    ghost item_count = { length };

    fn has_items(&self) -> bool {
        self.len() > 0
    }
}

impl<T: Form> ItemContents for SetOfVec<T> {
    ghost no_contents = { no_items T.encoding };
}

impl<T: Duplicate> DuplicateItems for SetOfVec<T> {
    ghost same_count = { same_count T.is_copy };
}

impl<T, M: ItemOrder<T>> ItemCount for ItemSet<T, M> {
    ghost item_count = { length };

    fn has_items(&self) -> bool {
        !self.as_slice().is_empty()
    }
}

impl<T: Form, M: ItemOrder<T>> ItemContents for ItemSet<T, M> {
    ghost no_contents = { no_items T.encoding };
}

impl<T: Duplicate, M: OrdersByEncoding<T>> DuplicateItems for ItemSet<T, M> {
    ghost same_count = { same_count T.is_copy };
}
