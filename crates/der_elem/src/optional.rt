//! OPTIONAL: `Option` (X.690 8.9.3).
//!
//! A present value has its own encoding, and an absent value has no octets, so that `Some(5)` is
//! encoded as 02 01 05.
//!
//! Reading refuses with the errors of the next tag. If that tag is none of the value's tags, or
//! if no octet is left, there is no value; else reading refuses with the errors of the value. An
//! absent value is less than any other.

ghost use Rattle.der_elem.specs.Options.{first_tag_option, encoding_option, comparable_option, test_option, accepts_option, readable_option, is_copy_option, parse_option};
ghost use Rattle.der_elem.specs.OptionLaws.{begins_first_option, option_of_octets, parse_of_option, begins_option, same_length_option, accepts_option_encoding, readable_of_option, comparable_of_option, re_reads_option, copy_is_equal_option, copy_encoding_option, copy_comparable_option, copy_re_reads_option, encoding_eq_option};

use crate::decode::Decode;
use crate::duplicate::{Duplicate, DuplicateIsEqual};
use crate::encode::Encode;
use crate::equality::EncodingEq;
use crate::form::Form;
use crate::ord::DerOrd;
use crate::readiness::check_ready;
use crate::tag::{Choice, Tagged};
use der_tlv::{BackWriter, Error, Length, Reader, Source, Tag, Writer};
use std::alloc::Global;
use std::cmp::Ordering;

impl<T: Form> Form for Option<T> {
    ghost encoding = { encoding_option T.encoding };

    ghost comparable = { comparable_option T.comparable };

    ghost re_reads = { test_option T.re_reads };

    ghost accepts = { λ rules. accepts_option (T.accepts rules) };

    ghost parse = { parse_option T.tags T.parse };

    ghost tags = { T.tags };

    ghost first_tag_of = { first_tag_option T.first_tag_of };

    ghost readable = { readable_option T.readable };

    ghost TAKES_MEMORY = { T.Form.TAKES_MEMORY };

    ghost FAULTS_FIRST = { T.FAULTS_FIRST };

    ghost parse_of_accepted = { parse_of_option T.Form };

    ghost faults_of_octets = { option_of_octets T.tags T.parse T.faults_of_octets };

    ghost begins = { λ rules v z b. begins_option T.Form rules v z b };

    ghost begins_first = { begins_first_option T.Form };

    ghost same_length = { same_length_option T.Form };

    ghost accepts_encoding = { accepts_option_encoding T.Form };

    ghost only_readable = { readable_of_option T.Form };

    ghost accepts_comparable = { comparable_of_option T.Form };

    ghost re_reads_memory = { re_reads_option T.Form };
}

impl<'a, R: Source<'a>, T: Decode<'a, R> + Choice> Decode<'a, R> for Option<T> {
    ghost TAKES_MEMORY = { T.Decode.TAKES_MEMORY };

    const TAKES_MEMORY: bool = <T as Decode<'a, R>>::TAKES_MEMORY;

    fn decode(alloc: Global, reader: &mut R) -> Result<Option<T>, Error> {
        if reader.is_finished() {
            check_ready(reader)?;
            return Ok(None);
        }
        let tag = Tag::peek(reader)?;
        if !T::can_decode(tag) {
            return Ok(None);
        }
        Ok(Some(T::decode(alloc, reader)?))
    }

    ghost takes_memory_is = { T.Decode.takes_memory_is };
}

impl<T: Encode + Tagged> Encode for Option<T> {
    fn encoded_len(&self) -> Result<Length, Error> {
        match self {
            Some(value) => value.encoded_len(),
            None => Ok(Length::ZERO),
        }
    }

    fn encode<W: Writer>(&self, writer: &mut W) -> Result<(), Error> {
        match self {
            Some(value) => value.encode(writer),
            None => Ok(()),
        }
    }

    fn encode_back<W: BackWriter>(&self, writer: &mut W) -> Result<(), Error> {
        match self {
            Some(value) => value.encode_back(writer),
            None => Ok(()),
        }
    }
}

impl<'b, T: Form> Form for &'b Option<T> {
    ghost encoding = { λ v. encoding_option T.encoding v.now };

    ghost comparable = { λ v w. comparable_option T.comparable v.now w.now };

    ghost re_reads = { λ v. test_option T.re_reads v.now };

    ghost accepts = { λ rules v. accepts_option (T.accepts rules) v.now };

    ghost parse = { parse_option T.tags T.parse };

    ghost tags = { T.tags };

    ghost first_tag_of = { λ v. first_tag_option T.first_tag_of v.now };

    ghost readable = { λ v. readable_option T.readable v.now };

    ghost TAKES_MEMORY = { T.Form.TAKES_MEMORY };

    ghost FAULTS_FIRST = { T.FAULTS_FIRST };

    ghost parse_of_accepted = { λ rules v. parse_of_option T.Form rules v.now };

    ghost faults_of_octets = { option_of_octets T.tags T.parse T.faults_of_octets };

    ghost begins = { λ rules v z b. begins_option T.Form rules v.now z b };

    ghost begins_first = { λ rules v. begins_first_option T.Form rules v.now };

    ghost same_length = { λ rules v. same_length_option T.Form rules v.now };

    ghost accepts_encoding = { λ rules v. accepts_option_encoding T.Form rules v.now };

    ghost only_readable = { λ rules v. readable_of_option T.Form rules v.now };

    ghost accepts_comparable = { λ rules v w. comparable_of_option T.Form rules v.now w.now };

    ghost re_reads_memory = { λ v. re_reads_option T.Form v.now };
}

impl<'b, T: Encode + Tagged> Encode for &'b Option<T> {
    fn encoded_len(&self) -> Result<Length, Error> {
        let option: &Option<T> = *self;
        option.encoded_len()
    }

    fn encode<W: Writer>(&self, writer: &mut W) -> Result<(), Error> {
        let option: &Option<T> = *self;
        option.encode(writer)
    }
}

impl<T: DerOrd + Tagged> DerOrd for Option<T> {
    fn der_cmp(&self, other: &Option<T>) -> Result<Ordering, Error> {
        match (self, other) {
            (Some(value), Some(other)) => value.der_cmp(other),
            (None, None) => Ok(Ordering::Equal),
            (None, Some(_)) => Ok(Ordering::Less),
            (Some(_), None) => Ok(Ordering::Greater),
        }
    }
}

impl<T: EncodingEq + Tagged> EncodingEq for Option<T> {
    ghost encoding_eq = { encoding_eq_option T.tag_of T.value.contents T.encoding T.encoding_is
        T.comparable T.eq T.encoding_eq };
}

impl<T: Duplicate + Tagged> Duplicate for Option<T> {
    ghost is_copy = { is_copy_option T.is_copy };

    ghost takes_memory_to_copy = { T.takes_memory_to_copy };

    fn duplicate(&self) -> Result<Option<T>, Error> {
        match self {
            Some(value) => Ok(Some(value.duplicate()?)),
            None => Ok(None),
        }
    }

    ghost copy_encoding = { copy_encoding_option T.Form T.is_copy T.copy_encoding };

    ghost copy_comparable = { copy_comparable_option T.Form T.is_copy T.copy_comparable };

    ghost copy_re_reads = { copy_re_reads_option T.Form T.is_copy T.copy_re_reads };
}

impl<T: DuplicateIsEqual + Tagged> DuplicateIsEqual for Option<T> {
    ghost copy_is_equal = { copy_is_equal_option T.is_copy T.eq T.copy_is_equal };
}
