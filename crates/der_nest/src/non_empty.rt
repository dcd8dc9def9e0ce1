//! SEQUENCE SIZE (1..MAX) OF and SET SIZE (1..MAX) OF, which are `NonEmpty` (X.680 51.5).
//!
//! A `NonEmpty` has the tag, the octets, the order and the errors of its list: `Vec<T>`,
//! `SetOfVec<T>` or `ItemSet<T, M>`. The INTEGER 5 alone is 30 03 02 01 05 in a
//! `NonEmpty<Vec<u8>>`. A list of no items, 30 00, is not a `NonEmpty`: decoding fails after the
//! header, and `new` returns the same error (`ErrorKind::Value`, 13, with the list's tag).

ghost use Rattle.std.specs.Prelude.{◌≡◌, ◌<◌, IfOk, IfErr, OnOk};
ghost use Rattle.der_tlv.specs.declared.error.ErrorKind.TheVariants as kinds;
ghost use Rattle.der_nest.specs.NonEmpty.{non_empty_format};

use crate::item_count::{DuplicateItems, ItemContents, ItemCount};
use der_elem::{
    ContentsEq, DecodeValue, DuplicateValue, DuplicateValueIsEqual, EncodeValue, FixedTag,
    FormValue, OneTag, Sequence, ValueOrd, check_ready,
};
use der_tlv::{BackWriter, Error, Header, Length, Reader, Source, Writer};
use std::alloc::Global;
use std::cmp::Ordering;
use std::fmt;
use std::marker::Model;

/// A list that has at least one item.
#[derive(Drop)]
pub struct NonEmpty<L: ItemCount> {
    list: L,
}

impl<L: ItemCount> Model for NonEmpty<L> {
    ghost Value = { L };

    ghost view = { λ s. s.list };

    ghost invariant = { λ s. 0 < L.item_count s.list };
}

impl<L: ItemCount> NonEmpty<L> {
    /// Returns a reference to the list, which has an item.
    pub fn list(&self) -> &L
        ensures list { result.now ≡ self.now }
        ensures some { 0 < L.item_count self.now }
    {
        &self.list
    }

    /// Returns the list itself.
    pub fn into_list(self) -> L
        ensures list { result ≡ self }
        ensures some { 0 < L.item_count result }
    {
        self.list
    }
}

impl<L: ItemCount + OneTag + Drop> NonEmpty<L> {
    /// Creates a `NonEmpty` from a list that has an item.
    ///
    /// # Errors
    /// `ErrorKind::Value` (13) with the list's tag if it has no items.
    pub fn new(list: L) -> Result<NonEmpty<L>, Error>
        ensures ok { IfOk result (λ some. some ≡ list) }
        ensures some { OnOk result (0 < L.item_count list) }
        ensures refused { IfErr result (λ e. (e.kind ≡ kinds.Value L.Marker.TAG) × (L.item_count list ≡ 0)) }
    {
        if list.has_items() {
            Ok(NonEmpty { list })
        } else {
            Err(Error::from_kind(L::TAG.value_error()))
        }
    }
}

impl<L: ItemCount + OneTag> OneTag for NonEmpty<L> {
    type Marker = <L as OneTag>::Marker;
}

impl<'a, L: ItemCount + Sequence<'a> + OneTag> Sequence<'a> for NonEmpty<L> {
    ghost is_sequence = { L.is_sequence };
}

impl<L: ItemCount + FormValue + OneTag> FormValue for NonEmpty<L> {
    ghost value = { non_empty_format L.Marker.TAG L.value };
}

impl<'a, R: Source<'a>, L: DecodeValue<'a, R> + ItemContents + OneTag> DecodeValue<'a, R>
    for NonEmpty<L> {
    ghost TAKES_MEMORY = { L.DecodeValue.TAKES_MEMORY };

    const TAKES_MEMORY: bool = <L as DecodeValue<'a, R>>::TAKES_MEMORY;

    fn decode_value(alloc: Global, reader: &mut R, header: Header) -> Result<NonEmpty<L>, Error> {
        check_ready(reader)?;
        if reader.is_finished() {
            return Err(reader.error(L::TAG.value_error()));
        }
        let list = L::decode_value(alloc, reader, header)?;
        match NonEmpty::new(list) {
            Ok(some) => Ok(some),
            Err(e) => Err(reader.error(e.kind)),
        }
    }

    ghost takes_memory_is = { L.DecodeValue.takes_memory_is };
}

impl<L: ItemCount + EncodeValue + OneTag> EncodeValue for NonEmpty<L> {
    fn value_len(&self) -> Result<Length, Error> {
        self.list.value_len()
    }

    fn encode_value<W: Writer>(&self, writer: &mut W) -> Result<(), Error> {
        self.list.encode_value(writer)
    }

    fn encode_value_back<W: BackWriter>(&self, writer: &mut W) -> Result<(), Error> {
        self.list.encode_value_back(writer)
    }
}

impl<L: ItemCount + ValueOrd + OneTag> ValueOrd for NonEmpty<L> {
    fn value_cmp(&self, other: &NonEmpty<L>) -> Result<Ordering, Error> {
        self.list.value_cmp(&other.list)
    }
}

impl<L: ItemCount + PartialEq> PartialEq for NonEmpty<L> {
    ghost eq = { L.eq };

    ghost laws = { L.laws };

    fn eq(&self, other: &NonEmpty<L>) -> bool {
        self.list == other.list
    }
}

impl<L: ItemCount + Eq> Eq for NonEmpty<L> {
    ghost laws = { L.Eq.laws };
}

impl<L: ItemCount + fmt::Debug> fmt::Debug for NonEmpty<L> {
    fn fmt<W: fmt::Write>(&self, f: &mut fmt::Formatter<W>) -> fmt::Result {
        fmt::Debug::fmt(&self.list, f)
    }
}

impl<L: ItemCount + ContentsEq + OneTag> ContentsEq for NonEmpty<L> {
    ghost contents_eq = { L.contents_eq };
}

impl<L: DuplicateItems + OneTag> DuplicateValue for NonEmpty<L> {
    ghost is_copy_value = { L.is_copy_value };

    ghost takes_memory_to_copy_value = { L.takes_memory_to_copy_value };

    fn duplicate_value(&self) -> Result<NonEmpty<L>, Error> {
        let list = self.list.duplicate_value()?;
        Ok(NonEmpty { list })
    }

    ghost copy_contents = { L.copy_contents };

    ghost copy_comparable_value = { L.copy_comparable_value };

    ghost copy_re_reads_value = { L.copy_re_reads_value };
}

impl<L: DuplicateItems + DuplicateValueIsEqual + OneTag> DuplicateValueIsEqual for NonEmpty<L> {
    ghost copy_value_is_equal = { L.copy_value_is_equal };
}
