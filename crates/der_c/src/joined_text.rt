//! Texts of items that are joined, such as those of the attributes of a part of a name.

ghost use Rattle.std.specs.Prelude.{◌≡◌, ◌+◌, ◌-◌, ◌≤◌, ◌++◌, ℕ, List, drop, false, length};
ghost use Rattle.der_verify.specs.Shown.{ShownToCome};
ghost use Rattle.der_c.specs.Joined.{Before, joined, last_first, unless_first};
ghost use Rattle.der_c.specs.RoomText.{Puts, counted};

use crate::room_text::put;
use der_elem::{Choice, Decode, Form};
use der_lists::ItemIter;
use der_tlv::SliceReader;

/// How an item is written as text: items with the same encoding have the same text.
pub(crate) trait ItemText<T: Form> {
    ghost use Rattle.std.specs.Prelude.{◌≡◌, ℕ, List};
    ghost use Rattle.der_c.specs.RoomText.{Puts};

    // the text of an item
    ghost shows: { Self → T → List ℕ → Type 0 };

    /// Writes the text of an item to a buffer at a position, as far as it fits, and returns the
    /// position after it.
    fn put_text(&self, item: &T, room: &mut [u8], position: usize) -> usize
        ensures { (text : List ℕ) → shows self.now item.now text
            → Puts text room.old position room.new result };

    ghost respects: { (p : Self) (v w : T) (text : List ℕ) → T.Form.encoding v ≡ T.Form.encoding w
        → shows p v text → shows p w text };
}

/// Writes the texts of the items that are left to a buffer at a position, with `+` between them, as
/// far as they fit, and returns the position after them.
pub(crate) fn put_joined<'a, T: Decode<'a, SliceReader<'a>> + Choice, P: ItemText<T>>(
    items: ItemIter<'a, T>,
    texts: &P,
    room: &mut [u8],
    position: usize,
) -> usize
    ensures { T.Form.TAKES_MEMORY ≡ false → (shown : List (List ℕ))
        → ShownToCome T.Form (P.shows texts.now) items.entry shown
        → Puts (joined 43 shown) room.old position room.new result }
{
    let mut left = items;
    let mut next = position;
    let mut is_first = true;
    'each: while let Some(item) = left.next() {
        let Ok(item) = item else {
            return next;
        };
        next = put_unless_first(b'+', is_first, room, next);
        next = texts.put_text(&item, room, next);
        is_first = false;
    }
    next
}

/// Returns the length of the texts of the items that are left, with commas between them.
pub(crate) fn joined_length<'a, T: Decode<'a, SliceReader<'a>> + Choice, P: ItemText<T>>(
    items: ItemIter<'a, T>,
    texts: &P,
) -> usize
    ensures { T.Form.TAKES_MEMORY ≡ false → (shown : List (List ℕ))
        → ShownToCome T.Form (P.shows texts.now) items.entry shown
        → result ≡ counted (length (last_first shown)) }
{
    let mut left = items;
    let mut count: usize = 0;
    let mut is_first = true;
    'each: while let Some(item) = left.next() {
        let Ok(item) = item else {
            return count;
        };
        let own = texts.put_text(&item, &mut [], 0);
        count = length_of_both(own, is_first, count);
        is_first = false;
    }
    count
}

/// Writes the texts of the items that are left to the front of a buffer, the last one first, with
/// commas between them. Their length is given.
pub(crate) fn write_last_first<'a, T: Decode<'a, SliceReader<'a>> + Choice, P: ItemText<T>>(
    items: ItemIter<'a, T>,
    texts: &P,
    room: &mut [u8],
    count: usize,
)
    ensures { T.Form.TAKES_MEMORY ≡ false → (shown : List (List ℕ))
        → ShownToCome T.Form (P.shows texts.now) items.entry shown
        → count ≡ length (last_first shown) → count ≤ length room.old
        → room.new ≡ last_first shown ++ drop count room.old }
{
    let mut left = items;
    let mut end = count;
    let mut is_first = true;
    'each: while let Some(item) = left.next() {
        let Ok(item) = item else {
            return;
        };
        end = put_before(&item, texts, is_first, room, end);
        is_first = false;
    }
}

/// Writes the text of an item, and a comma unless it is the first one, so that they end at a
/// position, and returns the position where they begin.
fn put_before<T: Form, P: ItemText<T>>(
    item: &T,
    texts: &P,
    is_first: bool,
    room: &mut [u8],
    end: usize,
) -> usize
    ensures { (text : List ℕ) → P.shows texts.now item.now text
        → length (text ++ unless_first is_first 44) ≤ end → end ≤ length room.old
        → Before (text ++ unless_first is_first 44) room.old end room.new result }
{
    let own = texts.put_text(item, &mut [], 0);
    let begin = begin_of(own, is_first, end);
    let next = texts.put_text(item, room, begin);
    put_unless_first(b',', is_first, room, next);
    begin
}

/// Returns where a text of this length begins, if it, and a comma unless it is the first one, end
/// at a position.
fn begin_of(count: usize, is_first: bool, end: usize) -> usize
    ensures { result ≡ end - count - length (unless_first is_first 44) }
{
    let begin = end.saturating_sub(count);
    if is_first {
        begin
    } else {
        begin.saturating_sub(1)
    }
}

/// Returns the length of a text and of another one, with a comma between them unless there is no
/// other one.
fn length_of_both(count: usize, is_first: bool, other: usize) -> usize
    ensures { result ≡ counted (count + length (unless_first is_first 44) + other) }
{
    let both = count.saturating_add(other);
    if is_first {
        both
    } else {
        both.saturating_add(1)
    }
}

/// Writes a separator, unless what follows it is the first one.
fn put_unless_first(separator: u8, is_first: bool, room: &mut [u8], position: usize) -> usize
    ensures { Puts (unless_first is_first separator) room.old position room.new result }
{
    if is_first {
        position
    } else {
        put(&[separator], room, position)
    }
}
