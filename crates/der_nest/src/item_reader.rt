//! Reading items again from octets that were read before.

ghost use Rattle.std.specs.Prelude.{◌≡◌, ◌<◌, ◌^◌, false, length};
ghost use Rattle.der_tlv.specs.declared.encoding_rules.EncodingRules.TheVariants.{Der};
ghost use Rattle.der_tlv.specs.Views.{slice_reader_state};
ghost use Rattle.der_nest.specs.ReReading.{ReReads, ReReadsAt, encodings_read, encodings_left};

use der_elem::{Decode, Form};
use der_tlv::{Error, SliceReader};
use std::alloc::Global;
use std::marker::PhantomData;

/// A reader of a given number of further items.
#[derive(Drop)]
pub(crate) struct ItemReader<'a, T: Form> {
    reader: SliceReader<'a>,
    pub(crate) left: usize,
    alloc: Global,
    of: PhantomData<T>,
    ghost ready: { 0 < left → (slice_reader_state reader).failed ≡ false },
    ghost counted: { length (encodings_left left T.parse (slice_reader_state reader)) ≡ left },
}

impl<'a, T: Form> ItemReader<'a, T> {
    /// Returns a reader of the same items.
    pub(crate) fn same(&self) -> ItemReader<'a, T>
        ensures left { result.left ≡ self.now.left }
        ensures reader { slice_reader_state result.reader ≡ slice_reader_state self.now.reader }
    {
        match self.reader.clone() {
            Ok(reader) => ItemReader {
                reader,
                left: self.left,
                alloc: self.alloc,
                of: PhantomData,
            },
            Err(_) => unreachable!(),
        }
    }

    /// Creates a reader of `count` items of the octets, from position 0 and under DER.
    pub(crate) fn new(alloc: Global, octets: &'a [u8], count: usize) -> ItemReader<'a, T>
        requires short { length octets.now < 2 ^ 32 }
        requires counted { length (encodings_read count T.parse Der 0 octets.now) ≡ count }
        ensures { encodings_left result.left T.parse (slice_reader_state result.reader)
            ≡ encodings_read count T.parse Der 0 octets.now }
    {
        match SliceReader::new(octets) {
            Ok(reader) => ItemReader {
                reader,
                left: count,
                alloc,
                of: PhantomData,
            },
            Err(_) => unreachable!(),
        }
    }
}

impl<'a, T: Decode<'a, SliceReader<'a>>> ItemReader<'a, T> {
    /// Reads the next item again. After an error there are no more items.
    pub(crate) fn next(&mut self) -> Option<Result<T, Error>>
        ensures { ReReads T.Form
            (encodings_left self.old.left T.parse (slice_reader_state self.old.reader))
            (encodings_left self.new.left T.parse (slice_reader_state self.new.reader)) result }
    {
        if self.left == 0 {
            return None;
        }
        match T::decode(self.alloc, &mut self.reader) {
            Ok(item) => {
                self.left -= 1;
                Some(Ok(item))
            }
            Err(error) => {
                self.left = 0;
                Some(Err(error))
            }
        }
    }

    /// Reads again the item at an index among those that are left, after the items before it.
    /// Returns `None` if there is no such item.
    ///
    /// # Errors
    /// `ErrorKind::Memory` (1) if an item takes memory and none is left.
    pub(crate) fn at(mut self, index: usize) -> Option<Result<T, Error>>
        ensures { ReReadsAt T.Form
            (encodings_left self.entry.left T.parse (slice_reader_state self.entry.reader)) index
            result }
    {
        if index >= self.left {
            return None;
        }
        'skipped: for _i in 0..index {
            match self.next() {
                None => return None,
                Some(Err(error)) => return Some(Err(error)),
                Some(Ok(_item)) => {}
            }
        }
        self.next()
    }
}
