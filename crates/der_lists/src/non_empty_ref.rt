//! SEQUENCE SIZE (1..MAX) OF and SET SIZE (1..MAX) OF, borrowed, as `NonEmptyRef` (X.680 51.5).
//!
//! A `NonEmptyRef` has the tag, the octets, the order and the errors of its list: `ListRef`,
//! `SetRef` or `UnorderedSetRef`. The INTEGER 5 alone is 30 03 02 01 05 in a
//! `NonEmptyRef<ListRef<u8>>`. A list of no items, 30 00, is not a `NonEmptyRef`: decoding fails
//! after the header, and `new` returns the same error (`ErrorKind::Value`, 13, with the list's
//! tag).

ghost use Rattle.std.specs.Prelude.{◌≡◌, ◌<◌, length, IfOk, IfErr, OnOk};
ghost use Rattle.der_elem.specs.FormatMakers.{mapped_format};
ghost use Rattle.der_nest.specs.NonEmpty.{non_empty_format};
ghost use Rattle.der_lists.specs.NonEmptyRef.{RefusesNone};

use der_elem::{
    ContentsEq, CopyIsDuplicate, DecodeValue, EncodeValue, FormValue, OneTag, Sequence, TagMarker,
    ValueOrd, check_ready,
};
use der_tlv::{BackWriter, Error, Header, Length, Reader, Source, Writer};
use std::alloc::Global;
use std::cmp::Ordering;

/// A list that has at least one item.
#[derive(Clone, Copy, Debug, PartialEq, Eq)]
pub struct NonEmptyRef<L> {
    list: L,
}

impl<L> NonEmptyRef<L> {
    ghost use Rattle.der_lists.specs.NonEmptyRef.{list_of};

    /// Returns the list.
    pub fn list(&self) -> &L
        ensures { result.now ≡ list_of self.now }
    {
        &self.list
    }
}

impl<L: EncodeValue + OneTag + Copy> NonEmptyRef<L> {
    ghost use Rattle.der_lists.specs.NonEmptyRef.{list_of};

    /// Creates a `NonEmptyRef` from a list that has an item.
    ///
    /// # Errors
    /// `ErrorKind::Value` (13) with the list's tag if it has no items; the error of measuring the
    /// list, which no list of this crate returns.
    pub fn new(list: L) -> Result<NonEmptyRef<L>, Error>
        ensures ok { IfOk result (λ some. list_of some ≡ list) }
        ensures some { OnOk result (0 < length (L.value.contents list)) }
        ensures refused { IfErr result (λ e. RefusesNone L.Marker.TAG (L.value.contents list) (L.value.re_reads list) e.kind) }
    {
        if list.value_len()? == Length::ZERO {
            return Err(Error::from_kind(<<L as OneTag>::Marker as TagMarker>::TAG.value_error()));
        }
        Ok(NonEmptyRef { list })
    }
}

impl<L: OneTag> OneTag for NonEmptyRef<L> {
    type Marker = <L as OneTag>::Marker;
}

impl<'a, L: Sequence<'a> + OneTag> Sequence<'a> for NonEmptyRef<L> {
    ghost is_sequence = { L.is_sequence };
}

impl<L: FormValue + OneTag> FormValue for NonEmptyRef<L> {
    ghost value = { mapped_format (λ v. v.list) (non_empty_format L.Marker.TAG L.value) };
}

impl<'a, R: Source<'a>, L: DecodeValue<'a, R> + OneTag> DecodeValue<'a, R> for NonEmptyRef<L> {
    ghost TAKES_MEMORY = { L.DecodeValue.TAKES_MEMORY };

    const TAKES_MEMORY: bool = <L as DecodeValue<'a, R>>::TAKES_MEMORY;

    fn decode_value(
        alloc: Global,
        reader: &mut R,
        header: Header,
    ) -> Result<NonEmptyRef<L>, Error> {
        if header.length == Length::ZERO {
            check_ready(reader)?;
            return Err(reader.error(<<L as OneTag>::Marker as TagMarker>::TAG.value_error()));
        }
        let list = L::decode_value(alloc, reader, header)?;
        Ok(NonEmptyRef { list })
    }

    ghost takes_memory_is = { L.DecodeValue.takes_memory_is };
}

impl<L: EncodeValue + OneTag> EncodeValue for NonEmptyRef<L> {
    fn value_len(&self) -> Result<Length, Error> {
        self.list.value_len()
    }

    fn encode_value<W: Writer>(&self, writer: &mut W) -> Result<(), Error> {
        self.list.encode_value(writer)
    }

    fn encode_value_back<W: BackWriter>(&self, writer: &mut W) -> Result<(), Error> {
        self.list.encode_value_back(writer)
    }
}

impl<L: ValueOrd + OneTag> ValueOrd for NonEmptyRef<L> {
    fn value_cmp(&self, other: &NonEmptyRef<L>) -> Result<Ordering, Error> {
        self.list.value_cmp(&other.list)
    }
}

impl<L: ContentsEq + OneTag> ContentsEq for NonEmptyRef<L> {
    ghost contents_eq = { λ v w. L.contents_eq v.list w.list };
}

impl<L: CopyIsDuplicate + OneTag> CopyIsDuplicate for NonEmptyRef<L> {}
