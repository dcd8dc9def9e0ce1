//! The items of a borrowed set, one after another.

ghost use Rattle.std.specs.Prelude.{⊤, ◌≡◌, length};
ghost use Rattle.std.specs.Iterator.{at_most};
ghost use Rattle.der_nest.specs.BorrowedSets.{encodings_of};
ghost use Rattle.der_nest.specs.BorrowedItems.{GivesNext};
ghost use Rattle.der_nest.specs.FindingNext.{FindsNext};

use crate::item_reader::ItemReader;
use crate::set_of_ref::found::Found;
use der_elem::{Decode, Duplicate, Form};
use der_tlv::{Error, SliceReader};
use std::alloc::AllocError;
use std::iter::FusedIterator;
use std::marker::Model;

/// The items that are left.
#[derive(Drop)]
pub(crate) enum Rest<'a, T: Form> {
    Octets(ItemReader<'a, T>),
    Items(&'a [T]),
}

/// The items that are left, in order: copies of the items of a slice, or items that are read
/// again.
///
/// If memory runs out for an item, the error (1) is the last item, and `len` is then 0. After the
/// last item, `next` always returns `None`.
#[derive(Drop)]
pub struct SetOfRefIter<'a, T: Form> {
    pub(crate) rest: Rest<'a, T>,
}

impl<'a, T: Form> Model for SetOfRefIter<'a, T> {
    ghost use Rattle.der_tlv.specs.Views.{slice_reader_state};
    ghost use Rattle.der_nest.specs.BorrowedSets.{Borrowed, OfItems, OfOctets};
    ghost use Rattle.der_nest.specs.ReReading.{encodings_left};
    ghost use Rattle.der_nest.specs.declared.set_of_ref_iter.Rest.TheVariants.{Octets, Items};

    ghost Value = { Borrowed T };

    ghost view = { λ s. elim s.rest [
      | Octets r ↦ OfOctets
          (encodings_left r.left T.parse (slice_reader_state r.reader))
      | Items i ↦ OfItems i.now
    ] };
}

impl<'a, T: Decode<'a, SliceReader<'a>>> SetOfRefIter<'a, T> {
    /// Returns the next item, lent or read again.
    pub(crate) fn next_found(&mut self) -> Option<Result<Found<'a, T>, Error>>
        ensures { FindsNext T.Form self.old result self.new }
    {
        match &mut self.rest {
            Rest::Octets(items) => match items.next() {
                None => None,
                Some(Ok(item)) => Some(Ok(Found::Read(item))),
                Some(Err(error)) => Some(Err(error)),
            },
            Rest::Items(items) => match items {
                [] => None,
                [first, others @ ..] => {
                    *items = others;
                    Some(Ok(Found::Lent(first)))
                }
            },
        }
    }
}

impl<'a, T: Decode<'a, SliceReader<'a>> + Duplicate> Iterator for SetOfRefIter<'a, T> {
    type Item = Result<T, Error>;

    ghost next_gives = { GivesNext T.Form T.is_copy T.takes_memory_to_copy };

    ghost remaining = { λ s. at_most (length (encodings_of T.encoding s)) };

    fn next(&mut self) -> Option<Result<T, Error>> {
        match self.next_found() {
            None => None,
            Some(Ok(Found::Read(item))) => Some(Ok(item)),
            Some(Ok(Found::Lent(item))) => match item.duplicate() {
                Ok(copy) => Some(Ok(copy)),
                Err(error) => {
                    self.rest = Rest::Items(&[]);
                    Some(Err(error))
                }
            },
            Some(Err(error)) => Some(Err(error)),
        }
    }

    fn size_hint(&self) -> (usize, Option<usize>) {
        let len = self.len();
        (len, Some(len))
    }
}

impl<'a, T: Decode<'a, SliceReader<'a>> + Duplicate> ExactSizeIterator for SetOfRefIter<'a, T> {
    /// Returns the number of items that are left, if there is memory for each.
    fn len(&self) -> usize
        ensures items { result ≡ length (encodings_of T.encoding self.now) }
    {
        match &self.rest {
            Rest::Octets(items) => items.left,
            Rest::Items(items) => items.len(),
        }
    }
}

impl<'a, T: Decode<'a, SliceReader<'a>> + Duplicate> FusedIterator for SetOfRefIter<'a, T> {}

impl<'a, T: Form> Clone for SetOfRefIter<'a, T> {
    ghost is_clone = { λ v w. w ≡ v };

    ghost is_infallible = { λ _. ⊤ };

    /// Copies the iterator: both have the same items left.
    fn clone(&self) -> Result<SetOfRefIter<'a, T>, AllocError> {
        match &self.rest {
            Rest::Octets(items) => Ok(SetOfRefIter {
                rest: Rest::Octets(items.same()),
            }),
            Rest::Items(items) => Ok(SetOfRefIter {
                rest: Rest::Items(items),
            }),
        }
    }
}
