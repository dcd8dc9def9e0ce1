//! SEQUENCE OF: `Vec` (X.690 8.10).
//!
//! The tag is 30. The contents octets are the encodings of the items, one after another, so that
//! the INTEGERs 1 and 200 are encoded as 30 07 02 01 01 02 02 00 C8.
//!
//! Reading refuses with the first error of an item, from the left, and if memory runs out (1).
//! The first pair of items that differs decides the order of two lists, else the number of items.

ghost use Rattle.std.specs.Prelude.{flat_map, true, false, refl};
ghost use Rattle.std.specs.List.{list_any};
ghost use Rattle.der_tlv.specs.declared.tag.Tag.TheVariants as tags;
ghost use Rattle.der_elem.specs.Items.{AcceptsItems, EachItem, parse_items, AllComparable, AreCopies};
ghost use Rattle.der_elem.specs.EqualityLaws.{items_eq};
ghost use Rattle.der_elem.specs.CopyLaws.{copies_are_equal, copies_encoding, copies_comparable, copies_re_read};
ghost use Rattle.der_elem.specs.ItemLaws.{items_of_octets, parse_of_items, same_length_items, accepts_items_contents, readable_items, comparable_items};

use crate::decode::{Decode, DecodeValue};
use crate::duplicate::{Duplicate, DuplicateIsEqual, DuplicateValue, DuplicateValueIsEqual};
use crate::encode::{Encode, EncodeValue};
use crate::equality::{ContentsEq, EncodingEq};
use crate::fixed_tag::OneTag;
use crate::form::{Form, FormValue};
use crate::items::{cmp_items, duplicate_items, encode_items, encode_items_back, items_len};
use crate::ord::{DerOrd, ValueOrd};
use crate::readiness::check_ready;
use crate::sequence::Sequence;
use crate::tag::{Choice, Tagged};
use crate::universal_tags::SequenceTag;
use der_tlv::{BackWriter, Error, ErrorKind, Header, Length, Reader, Source, Writer};
use std::alloc::Global;
use std::cmp::Ordering;

impl<T> OneTag for Vec<T> {
    type Marker = SequenceTag;
}

impl<'a, T> Sequence<'a> for Vec<T> {
    ghost is_sequence = { refl };
}

impl<T: Form> FormValue for Vec<T> {
    ghost value = { record {
      contents = λ v. flat_map T.encoding v.items;
      comparable = λ v w. AllComparable T.comparable v.items w.items;
      re_reads = λ v. list_any T.re_reads v.items;
      accepts = λ rules v. AcceptsItems (T.accepts rules) v.items;
      parse = parse_items T.parse;
      readable = λ v. EachItem T.readable v.items;
      has_tag = λ v t. Unit {0};
      TAKES_MEMORY = true;
      FAULTS_FIRST = false;
      parse_of_accepted = λ rules v. parse_of_items T.Form rules v.items;
      faults_of_octets = items_of_octets T.parse T.faults_of_octets;
      same_length = λ rules v. same_length_items T.Form rules v.items;
      accepts_contents = λ rules v. accepts_items_contents T.Form rules v.items;
      only_readable = λ rules v. readable_items T.Form rules v.items;
      accepts_comparable = λ rules v w. comparable_items T.Form rules v.items w.items;
      re_reads_memory = λ v h. refl;
    } };
}

impl<'a, R: Source<'a>, T: Decode<'a, R> + Choice> DecodeValue<'a, R> for Vec<T> {
    ghost TAKES_MEMORY = { true };

    const TAKES_MEMORY: bool = true;

    fn decode_value(alloc: Global, reader: &mut R, _header: Header) -> Result<Vec<T>, Error> {
        check_ready(reader)?;
        let mut items = Vec::new(alloc);
        'items: while !reader.is_finished() {
            let item = T::decode(alloc, reader)?;
            if items.push(item).is_err() {
                return Err(reader.error(ErrorKind::Memory));
            }
        }
        Ok(items)
    }

    ghost takes_memory_is = { refl };
}

impl<T: Encode + Tagged> EncodeValue for Vec<T> {
    fn value_len(&self) -> Result<Length, Error> {
        items_len(self)
    }

    fn encode_value<W: Writer>(&self, writer: &mut W) -> Result<(), Error> {
        encode_items(self, writer)
    }

    fn encode_value_back<W: BackWriter>(&self, writer: &mut W) -> Result<(), Error> {
        encode_items_back(self, writer)
    }
}

impl<T: DerOrd + Tagged> ValueOrd for Vec<T> {
    fn value_cmp(&self, other: &Vec<T>) -> Result<Ordering, Error> {
        cmp_items(self, other)
    }
}

impl<T: EncodingEq + Tagged> ContentsEq for Vec<T> {
    ghost contents_eq = { λ v w. items_eq T.tag_of T.value.contents T.encoding T.encoding_is T.comparable
        T.eq T.encoding_eq v.items w.items };
}

impl<T: Duplicate> DuplicateValue for Vec<T> {
    ghost is_copy_value = { λ v w. AreCopies T.is_copy v.items w.items };

    ghost takes_memory_to_copy_value = { true };

    fn duplicate_value(&self) -> Result<Vec<T>, Error> {
        duplicate_items(*self.allocator(), self)
    }

    ghost copy_contents = { λ v w. copies_encoding T.Form T.is_copy T.copy_encoding
        v.items w.items };

    ghost copy_comparable_value = { λ v w x.
        copies_comparable T.Form T.is_copy T.copy_comparable v.items w.items x.items };

    ghost copy_re_reads_value = { λ v w. copies_re_read T.Form T.is_copy T.copy_re_reads
        v.items w.items };
}

impl<T: DuplicateIsEqual> DuplicateValueIsEqual for Vec<T> {
    ghost copy_value_is_equal = { λ v w.
        copies_are_equal T.is_copy T.eq T.copy_is_equal v.items w.items };
}
