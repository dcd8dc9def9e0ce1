//! SET OF, borrowed, which is `SetOfRef` (X.690 8.12, 11.6).
//!
//! The tag is 31. The contents octets are the encodings of the items, one after another, in
//! non-decreasing order, so that the INTEGERs 8 and 7 are encoded as 31 06 02 01 07 02 01 08.
//!
//! Decoding keeps only the octets. It fails with the first error of an item, from the left, with
//! `ErrorKind::SetOrdering` (11) if an item is smaller than the one before, and with
//! `ErrorKind::Memory` (1) if the item takes memory and none is left. A reader of the contents
//! octets alone reads the items, from position 0 and under DER. Each call that gives, writes or
//! compares the items reads them again.

ghost use Rattle.std.specs.Prelude.{⊤, ◌≡◌, length, false, ◌==◌, IfOk, IfErr};
ghost use Rattle.std.proofs.Common.{ap, subst, sym};
ghost use Rattle.std.specs.List.Sorted.{IsSorted};
ghost use Rattle.der_tlv.specs.Octets.{lex};
ghost use Rattle.der_tlv.specs.declared.error.ErrorKind.TheVariants.{Memory};
ghost use Rattle.der_nest.specs.Places.{IsInOrder};
ghost use Rattle.der_nest.specs.BorrowedSets.{Borrowed, OfItems, OfOctets, encodings_of, borrowed_contents, re_reads_borrowed, ComparableBorrowed, Borrows, AcceptsBorrowed, ReadableBorrowed, parse_borrowed};
ghost use Rattle.der_nest.specs.BorrowedItems.{GivesAt, AreItemsOf};
ghost use Rattle.der_nest.specs.BorrowedLaws.{parse_of_borrowed, same_length_borrowed, accepts_borrowed_contents, readable_borrowed, comparable_borrowed, re_reads_borrowed_memory};
ghost use Rattle.der_nest.specs.OctetFaultLaws.{borrowed_of_octets};

mod checked_octets;
mod comparing;
pub(crate) mod found;
mod writing;

use crate::finding::check_after_last;
use crate::set_of_ref_iter::{Rest, SetOfRefIter};
use crate::set_of_vec::SetOfVec;
use checked_octets::CheckedOctets;
use comparing::cmp_borrowed;
use der_elem::{
    Decode, DecodeValue, DerOrd, Duplicate, DuplicateValue, Encode, EncodeValue, Form, FormValue,
    OneTag, SetTag, Tagged, ValueOrd, encode_items, items_len, read_contents,
};
use der_tlv::{Error, ErrorKind, Header, Length, Reader, SliceReader, Source, Writer};
use std::alloc::{AllocError, Global};
use std::cmp::Ordering;
use std::marker::Model;

/// Items that are in order.
#[derive(Drop)]
pub(crate) struct OrderedItems<'a, T: Form> {
    pub(crate) items: &'a [T],
    ghost in_order: { IsInOrder T.encoding items.now },
}

/// The source of the items.
#[derive(Drop)]
pub(crate) enum Backing<'a, T: Form> {
    Octets(CheckedOctets<'a, T>),
    Items(OrderedItems<'a, T>),
}

/// A set of items that are borrowed, or read again from borrowed contents octets.
#[derive(Drop)]
pub struct SetOfRef<'a, T: Form> {
    pub(crate) backing: Backing<'a, T>,
}

impl<'a, T: Form> Model for SetOfRef<'a, T> {
    ghost use Rattle.der_tlv.specs.declared.encoding_rules.EncodingRules.TheVariants.{Der};
    ghost use Rattle.der_nest.specs.BorrowedSets.{Borrowed, OfItems, OfOctets};
    ghost use Rattle.der_nest.specs.ReReading.{encodings_read};
    ghost use Rattle.der_nest.specs.declared.set_of_ref.Backing.TheVariants.{Octets, Items};

    ghost Value = { Borrowed T };

    ghost view = { λ s. elim s.backing [
      | Octets o ↦ OfOctets
          (encodings_read o.count T.parse Der 0 o.octets.now)
      | Items i ↦ OfItems i.items.now
    ] };
}

impl<'a, T: Form> SetOfRef<'a, T> {
    /// Returns the number of items.
    pub fn len(&self) -> usize
        ensures { result ≡ length (encodings_of T.encoding self.now) }
    {
        match &self.backing {
            Backing::Octets(octets) => octets.count,
            Backing::Items(items) => items.items.len(),
        }
    }

    /// Returns the items in order: copies of the items of a slice, or items that are read again.
    pub fn iter(&self) -> SetOfRefIter<'a, T>
        ensures items { result ≡ self.now }
        ensures in_order { IsSorted lex (encodings_of T.encoding self.now) }
    {
        match &self.backing {
            Backing::Octets(octets) => SetOfRefIter {
                rest: Rest::Octets(octets.items()),
            },
            Backing::Items(items) => SetOfRefIter {
                rest: Rest::Items(items.items),
            },
        }
    }

    /// Returns whether there are no items.
    pub fn is_empty(&self) -> bool
        ensures { result ≡ (length (encodings_of T.encoding self.now) == 0) }
    {
        self.len() == 0
    }
}

impl<'a, T: Form> SetOfRef<'a, T> {
    /// Creates a set of items that are known to be in order.
    pub(crate) fn of_ordered(items: &'a [T]) -> SetOfRef<'a, T>
        requires { IsInOrder T.encoding items.now }
        ensures { result ≡ OfItems items.now }
    {
        SetOfRef {
            backing: Backing::Items(OrderedItems { items }),
        }
    }
}

impl<'a, T: Decode<'a, SliceReader<'a>> + Duplicate> SetOfRef<'a, T> {
    /// Returns the item at an index: a copy of an item of a slice, or an item that is read again.
    /// Returns `None` if there is no such item.
    ///
    /// # Errors
    /// `ErrorKind::Memory` (1) if the copy, or reading, takes memory and none is left.
    pub fn get(&self, index: usize) -> Option<Result<T, Error>>
        ensures { GivesAt T.Form T.is_copy T.takes_memory_to_copy self.now index result }
    {
        match &self.backing {
            Backing::Octets(octets) => octets.get(index),
            Backing::Items(items) => {
                if index >= items.items.len() {
                    return None;
                }
                Some(items.items[index].duplicate())
            }
        }
    }

    /// Collects the items into a set on the heap.
    ///
    /// # Errors
    /// `ErrorKind::Memory` (1) if memory runs out.
    pub fn ref_to_owned(&self, alloc: Global) -> Result<SetOfVec<T>, Error>
        ensures ok { IfOk result (AreItemsOf T.Form T.is_copy self.now) }
        ensures refused { IfErr result (λ e. e.kind ≡ Memory) }
    {
        let mut items = Vec::new(alloc);
        let mut rest = self.iter();
        'items: while let Some(item) = rest.next() {
            let item = item?;
            if items.push(item).is_err() {
                return Err(Error::from_kind(ErrorKind::Memory));
            }
        }
        Ok(SetOfVec::of_ordered(items))
    }
}

impl<'a, 'b, T: Form> From<&'b SetOfRef<'a, T>> for SetOfRef<'a, T> {
    ghost from_gives = { λ s r. r ≡ s.now };

    /// Creates the same set, of the same slice or octets.
    fn from(set: &'b SetOfRef<'a, T>) -> SetOfRef<'a, T> {
        match &set.backing {
            Backing::Octets(octets) => SetOfRef {
                backing: Backing::Octets(octets.again()),
            },
            Backing::Items(items) => SetOfRef::of_ordered(items.items),
        }
    }
}

impl<'a, T: Form> Clone for SetOfRef<'a, T> {
    ghost is_clone = { λ s r. r ≡ s };

    ghost is_infallible = { λ _. ⊤ };

    fn clone(&self) -> Result<SetOfRef<'a, T>, AllocError> {
        Ok(SetOfRef::from(self))
    }
}

impl<'a, T: DerOrd> TryFrom<&'a [T]> for SetOfRef<'a, T> {
    type Error = Error;

    ghost try_from_gives = { λ items r. Borrows T.Form items.now r };

    /// Creates a set of items that are in order.
    ///
    /// # Errors
    /// `ErrorKind::SetOrdering` (11) if an item is smaller than the one before, or the two have
    /// no comparison.
    fn try_from(items: &'a [T]) -> Result<SetOfRef<'a, T>, Error> {
        'items: for i in 0..items.len() {
            match check_after_last(&items[..i], &items[i]) {
                Ok(()) => {}
                Err(_) => return Err(Error::from_kind(ErrorKind::SetOrdering)),
            }
        }
        Ok(SetOfRef::of_ordered(items))
    }
}

impl<'a, T: Form> OneTag for SetOfRef<'a, T> {
    type Marker = SetTag;
}

impl<'a, T: Form> FormValue for SetOfRef<'a, T> {
    ghost value = { record {
      contents = borrowed_contents T.encoding;
      comparable = ComparableBorrowed T.Form;
      re_reads = re_reads_borrowed T.Form;
      accepts = λ rules. AcceptsBorrowed T.Form;
      parse = parse_borrowed T.parse;
      readable = ReadableBorrowed T.Form;
      has_tag = λ v t. Unit {0};
      TAKES_MEMORY = T.Form.TAKES_MEMORY;
      FAULTS_FIRST = false;
      parse_of_accepted = parse_of_borrowed T.Form;
      faults_of_octets = borrowed_of_octets T.parse T.faults_of_octets;
      same_length = same_length_borrowed T.Form;
      accepts_contents = accepts_borrowed_contents T.Form;
      only_readable = readable_borrowed T.Form;
      accepts_comparable = comparable_borrowed T.Form;
      re_reads_memory = re_reads_borrowed_memory T.Form;
    } };
}

impl<'a, R: Source<'a>, T: Decode<'a, SliceReader<'a>> + DerOrd + Tagged> DecodeValue<'a, R>
    for SetOfRef<'a, T> {
    ghost TAKES_MEMORY = { T.Decode.TAKES_MEMORY };

    const TAKES_MEMORY: bool = <T as Decode<'a, SliceReader<'a>>>::TAKES_MEMORY;

    fn decode_value(
        alloc: Global,
        reader: &mut R,
        header: Header,
    ) -> Result<SetOfRef<'a, T>, Error> {
        let octets = read_contents(reader, header)?;
        match CheckedOctets::read(alloc, octets) {
            Ok(octets) => Ok(SetOfRef {
                backing: Backing::Octets(octets),
            }),
            Err(e) => {
                // The reader fails; the position is that of the reader of the contents octets.
                reader.error(e.kind);
                Err(e)
            }
        }
    }

    ghost takes_memory_is = { T.Decode.takes_memory_is };
}

impl<'a, T: Decode<'a, SliceReader<'a>> + Encode + Tagged> EncodeValue for SetOfRef<'a, T> {
    fn value_len(&self) -> Result<Length, Error> {
        match &self.backing {
            Backing::Octets(octets) => octets.items_len(),
            Backing::Items(items) => items_len(items.items),
        }
    }

    fn encode_value<W: Writer>(&self, writer: &mut W) -> Result<(), Error> {
        match &self.backing {
            Backing::Octets(octets) => octets.encode_items(writer),
            Backing::Items(items) => encode_items(items.items, writer),
        }
    }
}

impl<'a, T: Decode<'a, SliceReader<'a>> + DerOrd + Tagged> ValueOrd for SetOfRef<'a, T> {
    fn value_cmp(&self, other: &SetOfRef<'a, T>) -> Result<Ordering, Error> {
        cmp_borrowed(self.iter(), other.iter())
    }
}

impl<'a, T: Form> DuplicateValue for SetOfRef<'a, T> {
    ghost is_copy_value = { λ v w. w ≡ v };

    ghost takes_memory_to_copy_value = { false };

    fn duplicate_value(&self) -> Result<SetOfRef<'a, T>, Error> {
        Ok(SetOfRef::from(self))
    }

    ghost copy_contents = { λ v w e. ap (borrowed_contents T.encoding) e };

    ghost copy_comparable_value = { λ v w x e one. subst (λ s. ComparableBorrowed T.Form s x) (sym e) one };

    ghost copy_re_reads_value = { λ v w e. ap (re_reads_borrowed T.Form) e };
}
