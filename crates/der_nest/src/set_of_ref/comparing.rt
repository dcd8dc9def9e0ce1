//! The order of borrowed sets, item by item.

ghost use Rattle.std.specs.Prelude.{◌≡◌};
ghost use Rattle.der_nest.specs.ComparingBorrowed.{ComparesBorrowed};

use crate::set_of_ref_iter::SetOfRefIter;
use der_elem::{Decode, DerOrd, Tagged};
use der_tlv::{Error, SliceReader};
use std::cmp::Ordering;

/// Compares the joined encodings lexicographically: the first pair of items that differs decides,
/// else the number of items.
///
/// # Errors
/// The error of the comparison of two items; `ErrorKind::Memory` (1) if an item that is read
/// again takes memory and none is left.
pub(crate) fn cmp_borrowed<'a, T: Decode<'a, SliceReader<'a>> + DerOrd + Tagged>(
    mut items: SetOfRefIter<'a, T>,
    mut others: SetOfRefIter<'a, T>,
) -> Result<Ordering, Error>
    ensures { ComparesBorrowed T.Form items.entry others.entry result }
{
    'items: while let Some(item) = items.next_found() {
        let item = item?;
        let Some(other) = others.next_found() else {
            return Ok(Ordering::Greater);
        };
        let other = other?;
        match item.item().der_cmp(other.item())? {
            Ordering::Equal => {}
            order => return Ok(order),
        }
    }
    let Some(other) = others.next_found() else {
        return Ok(Ordering::Equal);
    };
    let _other = other?;
    Ok(Ordering::Less)
}
