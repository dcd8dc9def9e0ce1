//! CHOICE: a value of one of two alternatives, which its tag selects (X.680 29).
//!
//! The encoding is that of the alternative, with no octets of its own (X.690 8.13). In a CHOICE
//! of an INTEGER and a BOOLEAN, 02 01 05 is 5 of the first, and 01 01 FF is `true` of the other.
//! With more than two alternatives the other one is a CHOICE: `OneOf<A, OneOf<B, C>>`.
//!
//! Decoding fails with the errors of the next tag, on a tag that no alternative has (4, with no
//! expected tag), and with the errors of the alternative that has the tag. A value of the other
//! alternative whose tag is one of the first's tags is not read from any octets.

ghost use Rattle.std.specs.Prelude.{◌||◌, ◌&&◌, false};
ghost use Rattle.std.proofs.Common.{Ok, refl};
ghost use Rattle.der_elem.specs.KnownTags.{known_of_both};
ghost use Rattle.der_elem.specs.KnownTagLaws.{known_either};
ghost use Rattle.der_elem.specs.FormatMakers.{format_with_tags};
ghost use Rattle.der_fields.specs.Alternatives.{of_one, AcceptsOne, ReadableOne, ComparableOne, IsCopyOne, ComparesHeaders, parse_one, parse_without_tag};
ghost use Rattle.der_fields.specs.FieldLaws.{either_memory};
ghost use Rattle.der_fields.specs.AlternativeLaws.{one_of_octets, copy_is_equal_one, parse_of_one, begins_one, begins_first_one, same_length_one, accepts_one_encoding, readable_of_one, comparable_of_one, test_of_one, test_alike, encoding_is_one, first_tag_is_one, own_tag_one, has_first_tag_one, is_tlv_one, encoding_eq_one, copy_encoding_one, copy_comparable_one, copy_re_reads_one};

use der_elem::{
    Choice, Decode, DecodeField, DerOrd, Duplicate, DuplicateIsEqual, EncodeValue, EncodingEq,
    FirstTag, Form, FormValue, KnownTags, Tagged,
};
use der_tlv::{BackWriter, Error, Length, Reader, Source, Tag, Writer};
use std::alloc::Global;
use std::cmp::Ordering;

/// A value of one of two alternatives.
#[derive(Clone, Copy, Debug, PartialEq, Eq, Drop)]
pub enum OneOf<A, B> {
    /// A value of the first alternative.
    First(A),
    /// A value of the other alternative, which may be another CHOICE.
    Other(B),
}

impl<A: Form, B: Form> Form for OneOf<A, B> {
    ghost encoding = { of_one A.encoding B.encoding };

    ghost comparable = { ComparableOne A.tags A.first_tag_of B.first_tag_of A.comparable B.comparable };

    ghost re_reads = { of_one A.re_reads B.re_reads };

    ghost accepts = { λ rules. AcceptsOne A.tags A.first_tag_of B.first_tag_of (A.accepts rules)
        (B.accepts rules) };

    ghost parse = { parse_one A.tags B.tags A.parse B.parse };

    ghost tags = { λ t. A.tags t || B.tags t };

    ghost first_tag_of = { of_one A.first_tag_of B.first_tag_of };

    ghost readable = { ReadableOne A.tags A.first_tag_of B.first_tag_of A.readable B.readable };

    ghost TAKES_MEMORY = { A.Form.TAKES_MEMORY || B.Form.TAKES_MEMORY };

    ghost FAULTS_FIRST = { A.FAULTS_FIRST && B.FAULTS_FIRST };

    ghost parse_of_accepted = { parse_of_one A.Form B.Form };

    ghost faults_of_octets = { one_of_octets A.Form B.Form };

    ghost begins = { begins_one A.Form B.Form };

    ghost begins_first = { begins_first_one A.Form B.Form };

    ghost same_length = { same_length_one A.Form B.Form };

    ghost accepts_encoding = { accepts_one_encoding A.Form B.Form };

    ghost only_readable = { readable_of_one A.Form B.Form };

    ghost accepts_comparable = { comparable_of_one A.Form B.Form };

    ghost re_reads_memory = { test_of_one A.re_reads B.re_reads A.Form.TAKES_MEMORY B.Form.TAKES_MEMORY
        A.re_reads_memory B.re_reads_memory };
}

/// The contents octets are those of the alternative. Without a tag they do not determine the
/// alternative, so a CHOICE is decoded only from whole encodings.
impl<A: FormValue, B: FormValue> FormValue for OneOf<A, B> {
    ghost value = { record (format_with_tags (of_one A.value.contents B.value.contents) (λ v t. Unit {0}) parse_without_tag (λ rules v p. refl) (λ rules p c. tt)) {
      re_reads = of_one A.value.re_reads B.value.re_reads;
      TAKES_MEMORY = A.value.TAKES_MEMORY || B.value.TAKES_MEMORY;
      re_reads_memory = test_of_one A.value.re_reads B.value.re_reads A.value.TAKES_MEMORY B.value.TAKES_MEMORY A.value.re_reads_memory B.value.re_reads_memory;
    } };
}

impl<A: Tagged, B: Tagged> Tagged for OneOf<A, B> {
    ghost tag_of = { of_one A.tag_of B.tag_of };

    fn tag(&self) -> Tag {
        match self {
            OneOf::First(value) => value.tag(),
            OneOf::Other(value) => value.tag(),
        }
    }

    ghost encoding_is = { encoding_is_one A.tag_of B.tag_of A.value.contents A.encoding B.value.contents
        B.encoding A.encoding_is B.encoding_is };

    ghost accepted_is_tlv = { is_tlv_one A.Form B.Form A.accepted_is_tlv B.accepted_is_tlv };

    ghost own_tag = { own_tag_one A.tags B.tags A.tag_of B.tag_of A.own_tag B.own_tag };

    ghost first_tag_is = { first_tag_is_one A.tag_of B.tag_of A.first_tag_of B.first_tag_of A.first_tag_is B.first_tag_is };

    ghost re_reads_alike = { test_alike A.value.re_reads A.re_reads B.value.re_reads B.re_reads
        A.re_reads_alike B.re_reads_alike };

    ghost comparable_alike = { λ v w h. tt };
}

impl<A: Choice, B: Choice> Choice for OneOf<A, B> {
    fn can_decode(tag: Tag) -> bool {
        A::can_decode(tag) || B::can_decode(tag)
    }

    ghost has_first_tag = { has_first_tag_one A.first_tag_of B.first_tag_of A.has_first_tag B.has_first_tag };
}

impl<A: Choice + KnownTags, B: Choice + KnownTags> KnownTags for OneOf<A, B> {
    ghost known_tags = { known_of_both A.known_tags B.known_tags };

    ghost MAY_BE_ABSENT = { false };

    ghost are_known = { known_either A.known_tags B.known_tags A.tags B.tags A.are_known B.are_known };

    ghost is_there = { λ e. has_first_tag_one A.first_tag_of B.first_tag_of A.has_first_tag B.has_first_tag };
}

impl<'a, R: Source<'a>, A: Decode<'a, R> + Choice, B: Decode<'a, R> + Choice> Decode<'a, R>
    for OneOf<A, B> {
    ghost TAKES_MEMORY = { A.Decode.TAKES_MEMORY || B.Decode.TAKES_MEMORY };

    const TAKES_MEMORY: bool = <A as Decode<'a, R>>::TAKES_MEMORY
        || <B as Decode<'a, R>>::TAKES_MEMORY;

    fn decode(alloc: Global, reader: &mut R) -> Result<OneOf<A, B>, Error> {
        let tag = Tag::peek(reader)?;
        if A::can_decode(tag) {
            return Ok(OneOf::First(A::decode(alloc, reader)?));
        }
        if B::can_decode(tag) {
            return Ok(OneOf::Other(B::decode(alloc, reader)?));
        }
        Err(reader.error(tag.unexpected_error(None)))
    }

    ghost takes_memory_is = { either_memory A.Decode.takes_memory_is B.Decode.takes_memory_is };
}

impl<'a, R: Source<'a>, A: Decode<'a, R> + Choice, B: Decode<'a, R> + Choice> DecodeField<'a, R>
    for OneOf<A, B> {
    ghost TAKES_MEMORY = { A.Decode.TAKES_MEMORY || B.Decode.TAKES_MEMORY };

    const TAKES_MEMORY: bool = <A as Decode<'a, R>>::TAKES_MEMORY
        || <B as Decode<'a, R>>::TAKES_MEMORY;

    fn decode_field(alloc: Global, reader: &mut R) -> Result<OneOf<A, B>, Error> {
        OneOf::<A, B>::decode(alloc, reader)
    }

    ghost takes_memory_is = { either_memory A.Decode.takes_memory_is B.Decode.takes_memory_is };
}

impl<A: EncodeValue, B: EncodeValue> EncodeValue for OneOf<A, B> {
    fn value_len(&self) -> Result<Length, Error> {
        match self {
            OneOf::First(value) => value.value_len(),
            OneOf::Other(value) => value.value_len(),
        }
    }

    fn encode_value<W: Writer>(&self, writer: &mut W) -> Result<(), Error> {
        match self {
            OneOf::First(value) => value.encode_value(writer),
            OneOf::Other(value) => value.encode_value(writer),
        }
    }

    fn encode_value_back<W: BackWriter>(&self, writer: &mut W) -> Result<(), Error> {
        match self {
            OneOf::First(value) => value.encode_value_back(writer),
            OneOf::Other(value) => value.encode_value_back(writer),
        }
    }
}

impl<A: EncodingEq + FirstTag, B: EncodingEq + FirstTag> EncodingEq for OneOf<A, B> {
    ghost encoding_eq = { encoding_eq_one A.Form B.Form A.eq B.eq A.encoding_eq B.encoding_eq
        A.starts B.starts _ (λ v x. refl) (λ w y. refl) (λ v w. refl) (λ w v. refl) };
}

impl<A: Duplicate + FirstTag, B: Duplicate + FirstTag> Duplicate for OneOf<A, B> {
    ghost is_copy = { IsCopyOne A.is_copy B.is_copy };

    ghost takes_memory_to_copy = { A.takes_memory_to_copy || B.takes_memory_to_copy };

    fn duplicate(&self) -> Result<OneOf<A, B>, Error> {
        match self {
            OneOf::First(value) => Ok(OneOf::First(value.duplicate()?)),
            OneOf::Other(value) => Ok(OneOf::Other(value.duplicate()?)),
        }
    }

    ghost copy_encoding = { copy_encoding_one A.Form B.Form A.is_copy B.is_copy A.copy_encoding
        B.copy_encoding };

    ghost copy_comparable = { copy_comparable_one A.Form B.Form A.is_copy B.is_copy A.copy_encoding
        B.copy_encoding A.starts B.starts A.copy_comparable B.copy_comparable };

    ghost copy_re_reads = { copy_re_reads_one A.Form B.Form A.is_copy B.is_copy A.copy_encoding
        B.copy_encoding A.copy_re_reads B.copy_re_reads };
}

impl<A: DuplicateIsEqual + FirstTag, B: DuplicateIsEqual + FirstTag> DuplicateIsEqual
    for OneOf<A, B> {
    ghost copy_is_equal = { copy_is_equal_one A.is_copy B.is_copy _ A.copy_is_equal B.copy_is_equal };
}

impl<A: DerOrd + Tagged + EncodeValue, B: DerOrd + Tagged + EncodeValue> DerOrd for OneOf<A, B> {
    fn der_cmp(&self, other: &OneOf<A, B>) -> Result<Ordering, Error> {
        match (self, other) {
            (OneOf::First(value), OneOf::First(other)) => value.der_cmp(other),
            (OneOf::Other(value), OneOf::Other(other)) => value.der_cmp(other),
            (OneOf::First(value), OneOf::Other(other)) => cmp_headers(value, other),
            (OneOf::Other(value), OneOf::First(other)) => cmp_headers(value, other),
        }
    }
}

/// Compares the encodings of two values if their tags or their lengths decide the order.
///
/// # Errors
/// `ErrorKind::Value` (13) if both are equal; `ErrorKind::Overflow` (9) if a value has more than
/// 4294967295 contents octets; `ErrorKind::Memory` (1) if items are read again and no memory is
/// left.
pub fn cmp_headers<A: Tagged + EncodeValue, B: Tagged + EncodeValue>(
    value: &A,
    other: &B,
) -> Result<Ordering, Error>
    ensures { ComparesHeaders A.Form B.Form value.now other.now (A.tag_of value.now)
        (B.tag_of other.now) result }
{
    let tag = value.tag();
    match tag.cmp(&other.tag()) {
        Ordering::Equal => {}
        order => return Ok(order),
    }
    match value.value_len()?.cmp(&other.value_len()?) {
        Ordering::Equal => Err(Error::from_kind(tag.value_error())),
        order => Ok(order),
    }
}
