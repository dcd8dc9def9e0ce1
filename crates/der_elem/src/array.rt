//! SEQUENCE OF with a fixed number of items: `[T; N]` (X.690 8.10).
//!
//! The tag is 30. The contents octets are the encodings of the items, one after another, so that
//! `[true]` is encoded as 30 03 01 01 FF.
//!
//! Reading refuses in three cases: an item has an error (the first from the left), there are
//! fewer items (7), or there is an item too many (`ErrorKind::Overlength`, 10), which is read
//! first. It takes memory only if an item does.

ghost use Rattle.std.specs.Prelude.{flat_map, false, refl};
ghost use Rattle.std.specs.List.{list_any};
ghost use Rattle.der_tlv.specs.declared.tag.Tag.TheVariants as tags;
ghost use Rattle.der_elem.specs.Items.{AllComparable};
ghost use Rattle.der_elem.specs.Arrays.{AcceptsArray, ReadableArray, parse_array};
ghost use Rattle.der_elem.specs.ArrayLaws.{array_of_octets, parse_of_array, same_length_array, accepts_array_contents, readable_array, comparable_array, re_reads_items};
ghost use Rattle.der_elem.specs.ReadingArrays.{DecodesItem, RefusesItem};
ghost use Rattle.der_elem.specs.EqualityLaws.{items_eq};

use crate::decode::{Decode, DecodeValue};
use crate::duplicate::CopyIsDuplicate;
use crate::encode::{Encode, EncodeValue};
use crate::equality::{ContentsEq, EncodingEq};
use crate::fixed_tag::OneTag;
use crate::form::{Form, FormValue};
use crate::items::{cmp_items, encode_items, encode_items_back, items_len};
use crate::ord::{DerOrd, ValueOrd};
use crate::readiness::check_ready;
use crate::sequence::Sequence;
use crate::tag::{Choice, Tagged};
use crate::universal_tags::SequenceTag;
use der_tlv::{BackWriter, Error, ErrorKind, Header, Length, Reader, Source, Tag, Writer};
use std::alloc::Global;
use std::cmp::Ordering;

impl<T, const N: usize> OneTag for [T; N] {
    type Marker = SequenceTag;
}

impl<'a, T, const N: usize> Sequence<'a> for [T; N] {
    ghost is_sequence = { refl };
}

impl<T: Form, const N: usize> FormValue for [T; N] {
    ghost value = { record {
      contents = flat_map T.encoding;
      comparable = AllComparable T.comparable;
      re_reads = list_any T.re_reads;
      accepts = λ rules. AcceptsArray (T.accepts rules) N;
      parse = parse_array N T.parse;
      readable = ReadableArray T.readable T.encoding N;
      has_tag = λ v t. Unit {0};
      TAKES_MEMORY = T.Form.TAKES_MEMORY;
      FAULTS_FIRST = false;
      parse_of_accepted = λ rules. parse_of_array T.Form rules N;
      faults_of_octets = array_of_octets N T.parse T.faults_of_octets;
      same_length = λ rules. same_length_array T.Form rules N;
      accepts_contents = λ rules. accepts_array_contents T.Form rules N;
      only_readable = λ rules. readable_array T.Form rules N;
      accepts_comparable = λ rules. comparable_array T.Form rules N;
      re_reads_memory = re_reads_items T.Form;
    } };
}

impl<T: Encode + Tagged, const N: usize> EncodeValue for [T; N] {
    fn value_len(&self) -> Result<Length, Error> {
        items_len(self)
    }

    fn encode_value<W: Writer>(&self, writer: &mut W) -> Result<(), Error> {
        encode_items(self, writer)
    }

    fn encode_value_back<W: BackWriter>(&self, writer: &mut W) -> Result<(), Error> {
        encode_items_back(self, writer)
    }
}

impl<T: DerOrd + Tagged, const N: usize> ValueOrd for [T; N] {
    fn value_cmp(&self, other: &[T; N]) -> Result<Ordering, Error> {
        cmp_items(self, other)
    }
}

impl<T: EncodingEq + Tagged, const N: usize> ContentsEq for [T; N] {
    ghost contents_eq = { items_eq T.tag_of T.value.contents T.encoding T.encoding_is T.comparable T.eq
        T.encoding_eq };
}

impl<'a, R: Source<'a>, T: Decode<'a, R> + Choice + Copy, const N: usize> DecodeValue<'a, R>
    for [T; N] {
    ghost TAKES_MEMORY = { T.Decode.TAKES_MEMORY };

    const TAKES_MEMORY: bool = <T as Decode<'a, R>>::TAKES_MEMORY;

    fn decode_value(alloc: Global, reader: &mut R, _header: Header) -> Result<[T; N], Error> {
        check_ready(reader)?;
        let none: &[T] = &[];
        if let Ok(items) = <[T; N]>::try_from(none) {
            refuse_item::<R, T>(alloc, reader)?;
            return Ok(items);
        }
        let mut items = [decode_item(alloc, reader)?; N];
        'items: for i in 1..N {
            items[i] = decode_item(alloc, reader)?;
        }
        refuse_item::<R, T>(alloc, reader)?;
        Ok(items)
    }

    ghost takes_memory_is = { T.Decode.takes_memory_is };
}

impl<T: Form + Copy, const N: usize> CopyIsDuplicate for [T; N] {}

/// Reads the next item of an array.
///
/// # Errors
/// `ErrorKind::Length` (7) if there is none; the errors of the item.
fn decode_item<'a, R: Source<'a>, T: Decode<'a, R>>(
    alloc: Global,
    reader: &mut R,
) -> Result<T, Error>
    ensures { DecodesItem T.Form (R.state reader.old) (R.state reader.new) result }
{
    if reader.is_finished() {
        return Err(reader.error(Tag::Sequence.length_error()));
    }
    T::decode(alloc, reader)
}

/// Checks that there are no more items.
///
/// # Errors
/// The errors of the item; `ErrorKind::Overlength` (10) for an item.
fn refuse_item<'a, R: Source<'a>, T: Decode<'a, R>>(
    alloc: Global,
    reader: &mut R,
) -> Result<(), Error>
    ensures { RefusesItem T.Form (R.state reader.old) (R.state reader.new) result }
{
    if reader.is_finished() {
        return Ok(());
    }
    let _item = T::decode(alloc, reader)?;
    Err(reader.error(ErrorKind::Overlength))
}
