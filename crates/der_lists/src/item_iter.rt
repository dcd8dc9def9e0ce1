//! Items that are read one after another until nothing is left.

ghost use Rattle.std.specs.Prelude.{◌≡◌, ⊤, List, false, length};
ghost use Rattle.std.specs.Iterator.{at_most};
ghost use Rattle.std.specs.List.{list_all, list_any};
ghost use Rattle.der_tlv.specs.ReaderState.{new_reader};
ghost use Rattle.der_tlv.specs.declared.encoding_rules.EncodingRules.TheVariants.{Der};
ghost use Rattle.der_opaque.specs.OctetStringRef as string;
ghost use Rattle.der_lists.specs.Items.{AreToCome};
ghost use Rattle.der_lists.specs.ReadingOn.{ReadsOn, HasItems, ReReadsAll, ComesAt, Counts, octets_to_come, encodings_to_come};

use crate::item_test::ItemTest;
use der_elem::{Choice, Decode, Form};
use der_opaque::OctetStringRef;
use der_tlv::{Error, ErrorKind, Reader, SliceReader, Source};
use std::alloc::{AllocError, Global};
use std::iter::FusedIterator;
use std::marker::{Model, PhantomData};

/// The items that are left, in order, each read again.
///
/// An error is the last item. After the last item, `next` always returns `None`.
#[derive(Drop)]
pub struct ItemIter<'a, T> {
    reader: SliceReader<'a>,
    alloc: Global,
    of: PhantomData<T>,
}

impl<'a, T> Model for ItemIter<'a, T> {
    ghost use Rattle.der_tlv.specs.ReaderState.{ReaderState};
    ghost use Rattle.der_tlv.specs.Views.{slice_reader_state};

    ghost Value = { ReaderState };

    ghost view = { λ s. slice_reader_state s.reader };
}

impl<'a, T: Form> ItemIter<'a, T> {
    /// Creates an iterator of the items that octets are read as, from position 0 and under DER.
    pub(crate) fn new(alloc: Global, octets: OctetStringRef<'a>) -> ItemIter<'a, T>
        ensures { result ≡ new_reader (string.octets_of octets.entry) Der }
    {
        match SliceReader::new(octets.as_bytes()) {
            Ok(reader) => ItemIter {
                reader,
                alloc,
                of: PhantomData,
            },
            Err(_) => unreachable!(),
        }
    }
}

impl<'a, T: Decode<'a, SliceReader<'a>> + Choice> ItemIter<'a, T> {
    /// Counts the items that are left.
    ///
    /// # Errors
    /// `ErrorKind::Memory` (1) if an item takes memory and none is left.
    pub(crate) fn counted(mut self) -> Result<usize, Error>
        ensures { HasItems T.Form self.entry
            → Counts T.Form (encodings_to_come T.parse self.entry) result }
    {
        let mut count = 0;
        'items: while let Some(item) = self.next() {
            let _item = item?;
            count += 1;
        }
        Ok(count)
    }

    /// Reads the item at an index among those that are left, after the items before it. Returns
    /// `None` if there is no such item.
    ///
    /// # Errors
    /// `ErrorKind::Memory` (1) if an item takes memory and none is left.
    pub(crate) fn at(mut self, index: usize) -> Option<Result<T, Error>>
        ensures { HasItems T.Form self.entry
            → ComesAt T.Form (encodings_to_come T.parse self.entry) index result }
    {
        'skipped: for _i in 0..index {
            match self.next() {
                None => return None,
                Some(Err(error)) => return Some(Err(error)),
                Some(Ok(_item)) => {}
            }
        }
        self.next()
    }

    /// Returns whether one of the items that are left passes a test. The result is false if
    /// memory runs out before that item.
    pub(crate) fn has_one<P: ItemTest<T>>(mut self, test: &P) -> bool
        ensures { T.Form.TAKES_MEMORY ≡ false → (items : List T) → AreToCome T.Form self.entry items
            → result ≡ list_any (P.passes test.now) items }
    {
        'each: while let Some(item) = self.next() {
            match item {
                Ok(item) => {
                    if test.passes(&item) {
                        return true;
                    }
                }
                Err(_error) => return false,
            }
        }
        false
    }

    /// Returns whether each of the items that are left passes a test. The result is false if
    /// memory runs out before the last.
    pub(crate) fn has_all<P: ItemTest<T>>(mut self, test: &P) -> bool
        ensures { T.Form.TAKES_MEMORY ≡ false → (items : List T) → AreToCome T.Form self.entry items
            → result ≡ list_all (P.passes test.now) items }
    {
        'each: while let Some(item) = self.next() {
            match item {
                Ok(item) => {
                    if !test.passes(&item) {
                        return false;
                    }
                }
                Err(_error) => return false,
            }
        }
        true
    }

    /// Reads the items that are left into a vector.
    ///
    /// # Errors
    /// `ErrorKind::Memory` (1) if memory runs out.
    pub(crate) fn in_vector(mut self, alloc: Global) -> Result<Vec<T>, Error>
        ensures { HasItems T.Form self.entry
            → ReReadsAll T.Form (encodings_to_come T.parse self.entry) result }
    {
        let mut items = Vec::new(alloc);
        'items: while let Some(item) = self.next() {
            let item = item?;
            if items.push(item).is_err() {
                return Err(Error::from_kind(ErrorKind::Memory));
            }
        }
        Ok(items)
    }
}

impl<'a, T: Decode<'a, SliceReader<'a>> + Choice> Iterator for ItemIter<'a, T> {
    type Item = Result<T, Error>;

    ghost next_gives = { λ old item new. ReadsOn T.Form old new item };

    ghost remaining = { λ s. at_most (length (octets_to_come s)) };

    fn next(&mut self) -> Option<Result<T, Error>> {
        if self.reader.cursor().failed || self.reader.is_finished() {
            return None;
        }
        Some(T::decode(self.alloc, &mut self.reader))
    }
}

impl<'a, T: Decode<'a, SliceReader<'a>> + Choice> FusedIterator for ItemIter<'a, T> {}

impl<'a, T: Form> Clone for ItemIter<'a, T> {
    ghost is_clone = { λ v w. w ≡ v };

    ghost is_infallible = { λ _. ⊤ };

    /// Copies the iterator: both have the same items left.
    fn clone(&self) -> Result<ItemIter<'a, T>, AllocError> {
        let reader = self.reader.clone()?;
        let alloc = self.alloc;
        let of = PhantomData;
        Ok(ItemIter { reader, alloc, of })
    }
}
