//! Contents octets that are known to be items in order.

ghost use Rattle.std.specs.Prelude.{◌≡◌, ◌<◌, ◌≤◌, ◌^◌, ◌⊎◌, length, IfOk, IfErr, OnOk, false};
ghost use Rattle.std.specs.List.Sorted.{IsSorted};
ghost use Rattle.der_tlv.specs.Octets.{lex};
ghost use Rattle.der_tlv.specs.declared.encoding_rules.EncodingRules.TheVariants.{Der};
ghost use Rattle.der_tlv.specs.Views.{slice_reader_state};
ghost use Rattle.der_elem.specs.Decoding.{Faults};
ghost use Rattle.der_nest.specs.BorrowedSets.{OfOctets, AcceptsBorrowed, parse_borrowed_items};
ghost use Rattle.der_nest.specs.ReReading.{CanFollow, CannotFollow, ReReadsAt, encodings_read, encodings_left};

use crate::finding::check_order;
use crate::item_reader::ItemReader;
use der_elem::{Decode, DerOrd, Form, Tagged};
use der_tlv::{Error, Reader, SliceReader};
use std::alloc::Global;
use std::marker::PhantomData;

/// Octets that are read as `count` items in order.
#[derive(Drop)]
pub(crate) struct CheckedOctets<'a, T: Form> {
    pub(crate) octets: &'a [u8],
    pub(crate) count: usize,
    pub(crate) alloc: Global,
    of: PhantomData<T>,
    ghost short: { length octets.now < 2 ^ 32 },
    ghost counted: { length (encodings_read count T.parse Der 0 octets.now) ≡ count },
    ghost in_order: { IsSorted lex (encodings_read count T.parse Der 0 octets.now) },
}

impl<'a, T: Form> CheckedOctets<'a, T> {
    /// Creates a reader of all items.
    pub(crate) fn items(&self) -> ItemReader<'a, T>
        ensures { encodings_left result.left T.parse (slice_reader_state result.reader)
            ≡ encodings_read self.now.count T.parse Der 0 self.now.octets.now }
    {
        ItemReader::new(self.alloc, self.octets, self.count)
    }

    /// Borrows the same octets.
    pub(crate) fn again(&self) -> CheckedOctets<'a, T>
        ensures octets { result.octets.now ≡ self.now.octets.now }
        ensures count { result.count ≡ self.now.count }
    {
        CheckedOctets {
            octets: self.octets,
            count: self.count,
            alloc: self.alloc,
            of: PhantomData,
        }
    }
}

impl<'a, T: Decode<'a, SliceReader<'a>>> CheckedOctets<'a, T> {
    /// Reads again the item at an index, after the items before it. Returns `None` if there is no
    /// such item.
    ///
    /// # Errors
    /// `ErrorKind::Memory` (1) if an item takes memory and none is left.
    pub(crate) fn get(&self, index: usize) -> Option<Result<T, Error>>
        ensures { ReReadsAt T.Form (encodings_read self.now.count T.parse Der 0 self.now.octets.now)
            index result }
    {
        self.items().at(index)
    }
}

/// Checks that an item is not smaller than the last one, if any.
///
/// # Errors
/// The error of the comparison; `ErrorKind::SetOrdering` (11) for a smaller item.
fn check_next<T: DerOrd>(last: &Option<T>, item: &T) -> Result<(), Error>
    ensures ok { OnOk result (CanFollow T.encoding last.now item.now) }
    ensures refused { IfErr result (λ e. CannotFollow T.Form last.now item.now e.kind) }
{
    match last {
        None => Ok(()),
        Some(last) => check_order(last, item),
    }
}

impl<'a, T: Decode<'a, SliceReader<'a>> + DerOrd + Tagged> CheckedOctets<'a, T> {
    /// Reads items until nothing is left, and keeps only the octets.
    ///
    /// # Errors
    /// `ErrorKind::Overflow` (9) for more than 4294967295 octets; the first error of an item,
    /// from the left; `ErrorKind::SetOrdering` (11) for an item that is smaller than the one
    /// before; `ErrorKind::Memory` (1) if an item takes memory and none is left.
    pub(crate) fn read(alloc: Global, octets: &'a [u8]) -> Result<CheckedOctets<'a, T>, Error>
        ensures ok { IfOk result (λ read. AcceptsBorrowed T.Form
            (OfOctets (encodings_read read.count T.parse Der 0 read.octets.now)) octets.now) }
        ensures refused { IfErr result (λ e. Faults T.Form.TAKES_MEMORY false
            (parse_borrowed_items T.parse octets.now) e.kind ⊎ (2 ^ 32 ≤ length octets.now)) }
    {
        let mut reader = match SliceReader::new(octets) {
            Ok(reader) => reader,
            Err(e) => return Err(e),
        };
        let mut count = 0;
        let mut last: Option<T> = None;
        'items: while !reader.is_finished() {
            let item = T::decode(alloc, &mut reader)?;
            check_next(&last, &item)?;
            last = Some(item);
            count += 1;
        }
        Ok(CheckedOctets {
            octets,
            count,
            alloc,
            of: PhantomData,
        })
    }
}
