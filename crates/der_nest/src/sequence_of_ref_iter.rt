//! The items of a borrowed sequence, one after another.

ghost use Rattle.std.specs.Prelude.{⊤, ◌≡◌, length};
ghost use Rattle.std.specs.Iterator.{at_most};
ghost use Rattle.der_nest.specs.ReReading.{ReReads};

use crate::item_reader::ItemReader;
use der_elem::{Decode, Form};
use der_tlv::{Error, SliceReader};
use std::alloc::AllocError;
use std::fmt;
use std::iter::FusedIterator;
use std::marker::Model;

/// The items that are left, in order, each read again.
///
/// If memory runs out for an item, the error (1) is the last item, and `len` is then 0. After the
/// last item, `next` always returns `None`.
#[derive(Drop)]
pub struct SequenceOfRefIter<'a, T: Form> {
    pub(crate) items: ItemReader<'a, T>,
}

impl<'a, T: Form> Model for SequenceOfRefIter<'a, T> {
    ghost use Rattle.std.specs.Prelude.{ℕ, List};
    ghost use Rattle.der_tlv.specs.Views.{slice_reader_state};
    ghost use Rattle.der_nest.specs.ReReading.{encodings_left};

    ghost Value = { List (List ℕ) };

    ghost view = { λ s. encodings_left s.items.left T.parse (slice_reader_state s.items.reader) };
}

impl<'a, T: Decode<'a, SliceReader<'a>>> Iterator for SequenceOfRefIter<'a, T> {
    type Item = Result<T, Error>;

    ghost next_gives = { λ old item new. ReReads T.Form old new item };

    ghost remaining = { λ s. at_most (length s) };

    fn next(&mut self) -> Option<Result<T, Error>> {
        self.items.next()
    }

    fn size_hint(&self) -> (usize, Option<usize>) {
        let len = self.len();
        (len, Some(len))
    }
}

impl<'a, T: Decode<'a, SliceReader<'a>>> ExactSizeIterator for SequenceOfRefIter<'a, T> {
    /// Returns the number of items that are left, if there is memory for each.
    fn len(&self) -> usize
        ensures items { result ≡ length self.now }
    {
        self.items.left
    }
}

impl<'a, T: Decode<'a, SliceReader<'a>>> FusedIterator for SequenceOfRefIter<'a, T> {}

impl<'a, T: Form> Clone for SequenceOfRefIter<'a, T> {
    ghost is_clone = { λ v w. w ≡ v };

    ghost is_infallible = { λ _. ⊤ };

    /// Copies the iterator: both have the same items left.
    fn clone(&self) -> Result<SequenceOfRefIter<'a, T>, AllocError> {
        Ok(SequenceOfRefIter {
            items: self.items.same(),
        })
    }
}

impl<'a, T: Decode<'a, SliceReader<'a>>> fmt::Debug for SequenceOfRefIter<'a, T> {
    /// Writes the number of items that are left; they are not read again.
    fn fmt<W: fmt::Write>(&self, f: &mut fmt::Formatter<W>) -> fmt::Result {
        f.debug_struct("SequenceOfRefIter")
            .field("len", &self.len())
            .finish_non_exhaustive()
    }
}
