//! The first item of a list that is wanted.

ghost use Rattle.std.specs.Prelude.{◌≡◌, Bool, false, List, IfSome};
ghost use Rattle.der_elem.specs.Accepting.{Fits};
ghost use Rattle.der_lists.specs.Items.{AreItems};
ghost use Rattle.der_c.specs.Building.{octets_at};
ghost use Rattle.der_c.specs.Finding.{FindsFront, IsFirst};
ghost use Rattle.der_c.specs.Items.{EndsWithin, ReadAt};

use crate::items::{behind, read_left};
use der_elem::Decode;
use der_places::Place;
use der_tlv::SliceReader;
use std::alloc::Global;

/// A test of an item.
pub(crate) trait Wanted<T> {
    ghost is_wanted: { Self → T → Bool };

    /// Returns whether an item is wanted.
    fn is_wanted(&self, item: &T) -> bool
        ensures { result ≡ Self.is_wanted self.now item.now };
}

/// Returns the first item at a byte range that is wanted, with its byte range.
pub(crate) fn find_item<'a, T: Copy + Decode<'a, SliceReader<'a>>, P: Wanted<T>>(
    alloc: Global,
    octets: &'a [u8],
    items: Place,
    wanted: &P,
) -> Option<(T, Place)>
    ensures read { IfSome result (λ item. ReadAt T.Form octets.now item.1.offset item.0 (octets_at octets.now item.1)) }
    ensures first { T.Form.TAKES_MEMORY ≡ false → Fits octets.now → EndsWithin octets.now items
        → (given : List T) → AreItems T.Form (octets_at octets.now items) given
        → IsFirst T.Form (P.is_wanted wanted.now) octets.now items result }
{
    let mut left = items;
    'each: while let Some(item) = front_item::<T>(alloc, octets, left) {
        if wanted.is_wanted(&item.0) {
            return Some(item);
        }
        left = behind(left, item.1.length);
    }
    None
}

/// Returns the item at the front of what is left, with its byte range; none if nothing is left.
fn front_item<'a, T: Copy + Decode<'a, SliceReader<'a>>>(
    alloc: Global,
    octets: &'a [u8],
    left: Place,
) -> Option<(T, Place)>
    ensures { FindsFront T.Form octets.now left result }
{
    match read_left::<T>(alloc, octets, left) {
        Ok(item) => if item.1.length == 0 { None } else { Some(item) },
        Err(_reason) => None,
    }
}
