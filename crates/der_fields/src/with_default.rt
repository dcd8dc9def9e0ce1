//! A field with a DEFAULT: the default has no octets (X.680 25, X.690 11.5).
//!
//! With DEFAULT FALSE the value `true` is encoded as 01 01 FF, and `false` as no octets.
//!
//! The value is the default at the end of the SEQUENCE and before a tag that none of the value's
//! encodings begins with. The errors of the next tag come first. Decoding fails with the errors
//! of the value, and on the default's own encoding (`ErrorKind::Noncanonical`, 8).

ghost use Rattle.std.specs.Prelude.{◌≡◌, true};
ghost use Rattle.std.specs.Cmp.{on_per, on_equiv};
ghost use Rattle.std.proofs.Common.{ap, ◌∙◌, false};
ghost use Rattle.der_fields.specs.Defaults.{is_default, octets_unless, first_tag_unless, test_unless, accepts_unless, parse_default};
ghost use Rattle.der_fields.specs.DefaultLaws.{default_of_octets, parse_of_default, begins_default, begins_first_default, same_length_default, accepts_default, readable_default, comparable_default, re_reads_default, own_first_tag_default, starts_default, beginning_default, encoding_eq_default};

use crate::default::DefaultOf;
use der_elem::{
    Choice, Decode, DecodeField, DerOrd, Duplicate, DuplicateIsEqual, Encode, EncodingEq, FirstTag,
    Form, KnownTags, Tagged, check_ready,
};
use der_tlv::{BackWriter, Error, Length, Reader, Source, Tag, Writer};
use std::alloc::{AllocError, Global};
use std::cmp::Ordering;
use std::fmt;
use std::marker::PhantomData;

/// A value that has no octets if it is the default.
#[derive(Drop)]
pub struct WithDefault<T, D> {
    /// The value.
    pub value: T,
    /// The default.
    pub default: PhantomData<D>,
}

impl<T, D> WithDefault<T, D> {
    /// Creates a field with this value.
    pub fn new(value: T) -> WithDefault<T, D>
        ensures { result.value ≡ value }
    {
        WithDefault {
            value,
            default: PhantomData,
        }
    }
}

impl<T: Clone, D> Clone for WithDefault<T, D> {
    ghost is_clone = { λ v w. T.is_clone v.value w.value };

    ghost is_infallible = { λ v. T.is_infallible v.value };

    fn clone(&self) -> Result<WithDefault<T, D>, AllocError> {
        let value = self.value.clone()?;
        Ok(WithDefault::new(value))
    }
}

impl<T: Copy, D> Copy for WithDefault<T, D> {}

impl<T: fmt::Debug, D> fmt::Debug for WithDefault<T, D> {
    /// Writes the value, as it is shown by itself.
    fn fmt<W: fmt::Write>(&self, f: &mut fmt::Formatter<W>) -> fmt::Result {
        fmt::Debug::fmt(&self.value, f)
    }
}

impl<T: Form, D: DefaultOf<T>> Form for WithDefault<T, D> {
    ghost encoding = { λ v. octets_unless (is_default D.octets (T.encoding v.value))
        (T.encoding v.value) };

    ghost comparable = { λ v w. T.comparable v.value w.value };

    ghost re_reads = { λ v. test_unless (is_default D.octets (T.encoding v.value))
        (T.re_reads v.value) };

    ghost accepts = { λ rules v. accepts_unless (is_default D.octets (T.encoding v.value))
        (T.readable v.value) (T.accepts rules v.value) };

    ghost parse = { parse_default T.tags D.octets T.parse };

    ghost tags = { T.tags };

    ghost first_tag_of = { λ v. first_tag_unless (is_default D.octets (T.encoding v.value)) (T.first_tag_of v.value) };

    ghost readable = { λ v. T.readable v.value };

    ghost TAKES_MEMORY = { T.Form.TAKES_MEMORY };

    // the value is read before it is compared with the default
    ghost FAULTS_FIRST = { false };

    ghost parse_of_accepted = { λ rules v. parse_of_default T.Form D.octets rules v.value };

    ghost faults_of_octets = { default_of_octets T.tags D.octets T.parse T.faults_of_octets };

    ghost begins = { λ rules v.
        begins_default T.Form rules (is_default D.octets (T.encoding v.value)) v.value };

    ghost begins_first = { λ rules v.
        begins_first_default T.Form rules (is_default D.octets (T.encoding v.value)) v.value };

    ghost same_length = { λ rules v.
        same_length_default T.Form rules (is_default D.octets (T.encoding v.value)) v.value };

    ghost accepts_encoding = { λ rules v.
        accepts_default T.Form rules (is_default D.octets (T.encoding v.value)) v.value };

    ghost only_readable = { λ rules v.
        readable_default T.Form rules (is_default D.octets (T.encoding v.value)) v.value };

    ghost accepts_comparable = { λ rules v w.
        comparable_default T.Form rules (is_default D.octets (T.encoding v.value))
        (is_default D.octets (T.encoding w.value)) v.value w.value };

    ghost re_reads_memory = { λ v. re_reads_default T.Form
        (is_default D.octets (T.encoding v.value)) v.value };
}

impl<T: Encode, D: DefaultOf<T>> Encode for WithDefault<T, D> {
    fn encoded_len(&self) -> Result<Length, Error> {
        if D::is_default(&self.value) {
            return Ok(Length::ZERO);
        }
        self.value.encoded_len()
    }

    fn encode<W: Writer>(&self, writer: &mut W) -> Result<(), Error> {
        if D::is_default(&self.value) {
            return Ok(());
        }
        self.value.encode(writer)
    }

    fn encode_back<W: BackWriter>(&self, writer: &mut W) -> Result<(), Error> {
        if D::is_default(&self.value) {
            Ok(())
        } else {
            self.value.encode_back(writer)
        }
    }
}

impl<'a, R: Source<'a>, T: Decode<'a, R> + Choice, D: DefaultOf<T>> DecodeField<'a, R>
    for WithDefault<T, D> {
    ghost TAKES_MEMORY = { T.Decode.TAKES_MEMORY };

    const TAKES_MEMORY: bool = <T as Decode<'a, R>>::TAKES_MEMORY;

    fn decode_field(alloc: Global, reader: &mut R) -> Result<WithDefault<T, D>, Error> {
        if reader.is_finished() {
            check_ready(reader)?;
            let value = D::default_value();
            return Ok(WithDefault::new(value));
        }
        let tag = Tag::peek(reader)?;
        if !T::can_decode(tag) {
            let value = D::default_value();
            return Ok(WithDefault::new(value));
        }
        let value = T::decode(alloc, reader)?;
        if D::is_default(&value) {
            return Err(reader.error(tag.non_canonical_error()));
        }
        Ok(WithDefault::new(value))
    }

    ghost takes_memory_is = { T.Decode.takes_memory_is };
}

impl<T: PartialEq, D> PartialEq for WithDefault<T, D> {
    ghost eq = { λ v w. T.eq v.value w.value };

    ghost laws = { on_per (λ v. v.value) T.laws };

    fn eq(&self, other: &WithDefault<T, D>) -> bool {
        self.value == other.value
    }
}

impl<T: Eq, D> Eq for WithDefault<T, D> {
    ghost laws = { on_equiv (λ v. v.value) T.Eq.laws };
}

impl<T: Tagged, D: DefaultOf<T>> FirstTag for WithDefault<T, D> {
    fn first_tag(&self) -> Option<Tag> {
        if D::is_default(&self.value) {
            return None;
        }
        self.value.first_tag()
    }

    ghost starts = { λ v. starts_default T.tag_of T.value.contents T.encoding T.encoding_is v.value
        (T.first_tag_of v.value) (T.first_tag_is v.value) (is_default D.octets (T.encoding v.value)) };

    ghost own_first_tag = { λ v. own_first_tag_default T.tags (T.tag_of v.value) (T.own_tag v.value)
        (T.first_tag_of v.value) (T.first_tag_is v.value) (is_default D.octets (T.encoding v.value)) };

    ghost same_beginning = { λ v w. beginning_default T.tag_of T.value.contents T.encoding T.encoding_is
        T.first_tag_of T.first_tag_is (is_default D.octets (T.encoding v.value))
        (is_default D.octets (T.encoding w.value)) v.value w.value };
}

impl<T: KnownTags, D: DefaultOf<T>> KnownTags for WithDefault<T, D> {
    ghost known_tags = { T.known_tags };

    ghost MAY_BE_ABSENT = { true };

    ghost are_known = { T.are_known };

    ghost is_there = { λ e v. absurd (cc) };
}

impl<T: DerOrd + Tagged, D: DefaultOf<T>> DerOrd for WithDefault<T, D> {
    fn der_cmp(&self, other: &WithDefault<T, D>) -> Result<Ordering, Error> {
        let first = D::is_default(&self.value);
        let second = D::is_default(&other.value);
        match (first, second) {
            (false, false) => self.value.der_cmp(&other.value),
            (true, true) => Ok(Ordering::Equal),
            (true, false) => Ok(Ordering::Less),
            (false, true) => Ok(Ordering::Greater),
        }
    }
}

impl<T: EncodingEq + Tagged, D: DefaultOf<T>> EncodingEq for WithDefault<T, D> {
    ghost encoding_eq = { λ v w. encoding_eq_default T.tag_of T.value.contents T.encoding T.encoding_is
        T.comparable T.eq T.encoding_eq D.octets v.value w.value };
}

impl<T: Duplicate, D: DefaultOf<T>> Duplicate for WithDefault<T, D> {
    ghost is_copy = { λ v w. T.is_copy v.value w.value };

    ghost takes_memory_to_copy = { T.takes_memory_to_copy };

    fn duplicate(&self) -> Result<WithDefault<T, D>, Error> {
        let value = self.value.duplicate()?;
        Ok(WithDefault::new(value))
    }

    ghost copy_encoding = { λ v w c.
        ap (λ o. octets_unless (is_default D.octets o) o) (T.copy_encoding v.value w.value c) };

    ghost copy_comparable = { λ v w x. T.copy_comparable v.value w.value x.value };

    ghost copy_re_reads = { λ v w c.
        ap (λ o. test_unless (is_default D.octets o) (T.re_reads w.value)) (T.copy_encoding v.value
        w.value c) ∙ ap (test_unless (is_default D.octets (T.encoding v.value)))
        (T.copy_re_reads v.value w.value c) };
}

impl<T: DuplicateIsEqual, D: DefaultOf<T>> DuplicateIsEqual for WithDefault<T, D> {
    ghost copy_is_equal = { λ v w. T.copy_is_equal v.value w.value };
}
