//! Tagged values: a value with a tag of another class than its own (X.690 8.14).
//!
//! Explicit tagging encloses the whole encoding, and is constructed: the INTEGER 5 with the tag
//! [1] is encoded as A1 03 02 01 05. Implicit tagging replaces the tag of the value, and is
//! constructed if that is: 81 01 05.
//!
//! Reading with explicit tagging refuses a primitive tag (8), then another class (4, with no
//! expected tag), contents longer than the octets left (`ErrorKind::Incomplete`, 2), the errors
//! of the value, and octets left over after the value (`ErrorKind::TrailingData`, 3). Reading
//! with implicit tagging needs the number, so it is a separate call, `decode_implicit`.

ghost use Rattle.std.specs.Prelude.{◌≡◌, true, false, None, Some, refl};
ghost use Rattle.der_tlv.specs.declared.tag.mode.TagMode.TheVariants.{Explicit};
ghost use Rattle.der_tlv.specs.HeaderOctets.{tlv};
ghost use Rattle.der_wrap.specs.ClassTags.{class_tag, in_class};
ghost use Rattle.der_wrap.specs.TaggedValues.{tag_of_mode, contents_of_mode, ComparableTagged, one_encoding, accepts_one_encoding, parse_explicit, AcceptsExplicit, ReadableExplicit};
ghost use Rattle.der_wrap.specs.TaggedValueLaws.{one_encoding_of_octets, explicit_of_octets, parse_of_one_encoding, same_length_one_encoding, accepts_own_encoding, parse_of_explicit, begins_explicit, begins_first_explicit, tag_of_mode-class, same_length_explicit, accepts_explicit_encoding, readable_explicit, comparable_explicit_tagged};
ghost use Rattle.der_wrap.specs.TaggedValueEquality.{copy_is_equal_tagged_value, encoding_eq_tagged_value, copy_encoding_tagged_value, copy_comparable_tagged_value};

use crate::class_tag::{class_tag, explicit_number, in_class};
use der_elem::{
    Choice, Decode, DecodeField, DerOrd, Duplicate, DuplicateIsEqual, Encode, EncodeValue,
    EncodingEq, Form, FormValue, KnownTags, Tagged, ValueOrd,
};
use der_tlv::{BackWriter, Error, Header, Length, Reader, Source, Tag, TagMode, TagNumber, Writer};
use std::alloc::Global;
use std::cmp::Ordering;

/// A value with a tag of its own class and number. The class is bits 8 and 7 of the identifier.
/// Outside this crate only `Application` (1), `ContextSpecific` (2) and `Private` (3) name it, so
/// it is always one of these.
///
/// Values are ordered by number, then mode (explicit first), then value.
#[derive(Clone, Copy, Debug, PartialEq, Eq, PartialOrd, Ord)]
pub struct TaggedValue<T, const CLASS: u8> {
    /// The number of the tag.
    pub tag_number: TagNumber,
    /// Whether the tag encloses the encoding of the value, or replaces its tag.
    pub tag_mode: TagMode,
    /// The value.
    pub value: T,
}

impl<T: Tagged, const CLASS: u8> FormValue for TaggedValue<T, CLASS> {
    ghost value = { record {
      contents = λ v. contents_of_mode v.tag_mode (T.encoding v.value) (T.value.contents v.value);
      comparable = λ v w. ComparableTagged T.comparable T.tag_of v.tag_mode w.tag_mode v.value w.value;
      re_reads = λ v. T.re_reads v.value;
      accepts = λ rules v. accepts_one_encoding T.accepts v.tag_mode rules v.value;
      parse = one_encoding T.parse;
      readable = λ v. (v.tag_mode ≡ Explicit) × T.readable v.value;
      has_tag = λ v t. Unit {0};
      TAKES_MEMORY = T.Form.TAKES_MEMORY;
      FAULTS_FIRST = false;
      parse_of_accepted = λ rules v. parse_of_one_encoding T.Form v.tag_mode v.value (T.value.contents v.value) rules;
      faults_of_octets = one_encoding_of_octets T.parse T.faults_of_octets;
      same_length = λ rules v. same_length_one_encoding T.Form v.tag_mode v.value (T.value.contents v.value) rules;
      accepts_contents = λ rules v. accepts_own_encoding T.Form v.tag_mode v.value (T.value.contents v.value) rules;
      only_readable = λ rules v c a. (a.0, T.only_readable rules v.value c a.1);
      accepts_comparable = λ rules v w c d a b. comparable_explicit_tagged T.Form T.tag_of v.tag_mode w.tag_mode v.value w.value a.0 b.0 (T.accepts_comparable rules v.value w.value c d a.1 b.1);
      re_reads_memory = λ v. T.re_reads_memory v.value;
    } };
}

impl<T: Tagged, const CLASS: u8> Form for TaggedValue<T, CLASS> {
    ghost encoding = { λ v. tlv (tag_of_mode CLASS v.tag_mode v.tag_number.0 (T.tag_of v.value))
        (contents_of_mode v.tag_mode (T.encoding v.value) (T.value.contents v.value)) };

    ghost comparable = { λ v w. ComparableTagged T.comparable T.tag_of v.tag_mode w.tag_mode
        v.value w.value };

    ghost re_reads = { λ v. T.re_reads v.value };

    ghost accepts = { λ rules v.
        AcceptsExplicit T.accepts CLASS v.tag_number.0 v.tag_mode v.value rules };

    ghost parse = { parse_explicit CLASS T.parse };

    ghost tags = { in_class CLASS };

    ghost first_tag_of = { λ v. Some (tag_of_mode CLASS v.tag_mode v.tag_number.0 (T.tag_of v.value)) };

    ghost readable = { λ v. ReadableExplicit T.readable v.tag_number.0 v.tag_mode v.value };

    ghost TAKES_MEMORY = { T.Form.TAKES_MEMORY };

    // octets left over after the value are found after it is read
    ghost FAULTS_FIRST = { false };

    ghost parse_of_accepted = { λ rules v. parse_of_explicit T.Form CLASS v.tag_number.0 v.tag_mode
        v.value (T.tag_of v.value) (T.value.contents v.value) rules };

    ghost faults_of_octets = { explicit_of_octets T.parse T.faults_of_octets CLASS };

    ghost begins = { λ rules v. begins_explicit T.Form CLASS v.tag_number.0 v.tag_mode v.value
        (T.tag_of v.value) (T.value.contents v.value) rules };

    ghost begins_first = { λ rules v. begins_first_explicit T.Form CLASS v.tag_number.0 v.tag_mode v.value
        (T.tag_of v.value) (T.value.contents v.value) rules };

    ghost same_length = { λ rules v. same_length_explicit T.Form CLASS v.tag_number.0 v.tag_mode
        v.value (T.tag_of v.value) (T.value.contents v.value) rules };

    ghost accepts_encoding = { λ rules v. accepts_explicit_encoding T.Form CLASS v.tag_number.0
        v.tag_mode v.value (T.tag_of v.value) (T.value.contents v.value) rules };

    ghost only_readable = { λ rules v. readable_explicit T.Form CLASS v.tag_number.0 v.tag_mode
        v.value (T.tag_of v.value) (T.value.contents v.value) rules };

    ghost accepts_comparable = { λ rules v w b c a d.
        comparable_explicit_tagged T.Form T.tag_of v.tag_mode w.tag_mode v.value w.value a.mode_is d.mode_is
        (T.accepts_comparable rules v.value w.value a.inner d.inner a.accepted d.accepted) };

    ghost re_reads_memory = { λ v. T.re_reads_memory v.value };
}

impl<T: Tagged, const CLASS: u8> Tagged for TaggedValue<T, CLASS> {
    ghost tag_of = { λ v. tag_of_mode CLASS v.tag_mode v.tag_number.0 (T.tag_of v.value) };

    fn tag(&self) -> Tag {
        let constructed = match self.tag_mode {
            TagMode::Explicit => true,
            TagMode::Implicit => self.value.tag().is_constructed(),
        };
        class_tag(CLASS, constructed, self.tag_number)
    }

    ghost encoding_is = { λ v. refl };

    ghost accepted_is_tlv = { λ rules v b a.
        record {
          tag = class_tag CLASS true v.tag_number.0;
          contents = a.inner;
          octets_are =
              a.octets_are;
        } };

    ghost own_tag = { λ v. tag_of_mode-class CLASS v.tag_mode v.tag_number.0 (T.tag_of v.value) };

    ghost first_tag_is = { λ v. refl };

    ghost re_reads_alike = { λ v h. h };

    ghost comparable_alike = { λ v w h. h };
}

impl<T: Tagged, const CLASS: u8> Choice for TaggedValue<T, CLASS> {
    /// Returns whether a tag is of the class: every such tag is that of some encoding.
    fn can_decode(tag: Tag) -> bool {
        in_class(CLASS, tag)
    }

    ghost has_first_tag = { λ v. record {
      tag = tag_of_mode CLASS v.tag_mode v.tag_number.0 (T.tag_of v.value);
      is_tag = refl;
    } };
}

impl<T: Tagged, const CLASS: u8> KnownTags for TaggedValue<T, CLASS> {
    ghost known_tags = { None };

    ghost MAY_BE_ABSENT = { false };

    ghost are_known = { λ t e. refl };

    ghost is_there = { λ e v. record {
      tag = tag_of_mode CLASS v.tag_mode v.tag_number.0 (T.tag_of v.value);
      is_tag = refl;
    } };
}

impl<T: Tagged + EncodeValue + Encode, const CLASS: u8> EncodeValue for TaggedValue<T, CLASS> {
    fn value_len(&self) -> Result<Length, Error> {
        match self.tag_mode {
            TagMode::Explicit => self.value.encoded_len(),
            TagMode::Implicit => self.value.value_len(),
        }
    }

    fn encode_value<W: Writer>(&self, writer: &mut W) -> Result<(), Error> {
        match self.tag_mode {
            TagMode::Explicit => self.value.encode(writer),
            TagMode::Implicit => self.value.encode_value(writer),
        }
    }

    fn encode_value_back<W: BackWriter>(&self, writer: &mut W) -> Result<(), Error> {
        match self.tag_mode {
            TagMode::Explicit => self.value.encode_back(writer),
            TagMode::Implicit => self.value.encode_value_back(writer),
        }
    }
}

impl<T: Tagged + DerOrd + ValueOrd, const CLASS: u8> ValueOrd for TaggedValue<T, CLASS> {
    /// # Errors
    /// (13) with the tag if the modes differ.
    fn value_cmp(&self, other: &TaggedValue<T, CLASS>) -> Result<Ordering, Error> {
        match (self.tag_mode, other.tag_mode) {
            (TagMode::Explicit, TagMode::Explicit) => self.value.der_cmp(&other.value),
            (TagMode::Implicit, TagMode::Implicit) => self.value.value_cmp(&other.value),
            _ => Err(Error::from_kind(self.tag().value_error())),
        }
    }
}

impl<T: Tagged + EncodingEq, const CLASS: u8> EncodingEq for TaggedValue<T, CLASS> {
    ghost encoding_eq = { λ v w. encoding_eq_tagged_value T.tag_of T.value.contents T.encoding
        T.encoding_is T.comparable T.eq T.encoding_eq CLASS v.tag_number.0 w.tag_number.0 v.tag_mode
        w.tag_mode v.value w.value };
}

impl<T: Tagged + Duplicate, const CLASS: u8> Duplicate for TaggedValue<T, CLASS> {
    ghost is_copy = { λ v w. (w.tag_number.0 ≡ v.tag_number.0) × (w.tag_mode ≡ v.tag_mode)
        × T.is_copy v.value w.value };

    ghost takes_memory_to_copy = { T.takes_memory_to_copy };

    fn duplicate(&self) -> Result<TaggedValue<T, CLASS>, Error> {
        let value = self.value.duplicate()?;
        Ok(TaggedValue {
            tag_number: self.tag_number,
            tag_mode: self.tag_mode,
            value,
        })
    }

    ghost copy_encoding = { λ v w c. copy_encoding_tagged_value T.tag_of T.value.contents T.encoding
        T.encoding_is CLASS v.tag_number.0 w.tag_number.0 v.tag_mode w.tag_mode v.value w.value c.0
        c.1 (T.copy_encoding v.value w.value c.2) };

    ghost copy_comparable = { λ v w x c. copy_comparable_tagged_value T.tag_of T.value.contents T.encoding
        T.encoding_is T.comparable v.tag_mode w.tag_mode x.tag_mode v.value w.value x.value c.1
        (T.copy_encoding v.value w.value c.2) (T.copy_comparable v.value w.value x.value c.2) };

    ghost copy_re_reads = { λ v w c. T.copy_re_reads v.value w.value c.2 };
}

impl<T: Tagged + DuplicateIsEqual, const CLASS: u8> DuplicateIsEqual for TaggedValue<T, CLASS> {
    ghost copy_is_equal = { λ v w c. copy_is_equal_tagged_value T.eq v.tag_number.0
        w.tag_number.0 v.tag_mode w.tag_mode v.value w.value c.0 c.1 (T.copy_is_equal v.value w.value c.2) };
}

impl<'a, R: Source<'a>, T: Tagged + Decode<'a, R>, const CLASS: u8> Decode<'a, R>
    for TaggedValue<T, CLASS> {
    ghost TAKES_MEMORY = { T.Decode.TAKES_MEMORY };

    const TAKES_MEMORY: bool = <T as Decode<'a, R>>::TAKES_MEMORY;

    /// Reads a value with explicit tagging.
    fn decode(alloc: Global, reader: &mut R) -> Result<TaggedValue<T, CLASS>, Error> {
        let header = Header::decode(reader)?;
        let tag_number = match explicit_number(CLASS, header.tag) {
            Ok(number) => number,
            Err(kind) => return Err(reader.error(kind)),
        };
        let end = reader.nest(header.length)?;
        let value = T::decode(alloc, reader)?;
        reader.unnest(end)?;
        Ok(TaggedValue {
            tag_number,
            tag_mode: TagMode::Explicit,
            value,
        })
    }

    ghost takes_memory_is = { T.Decode.takes_memory_is };
}

impl<'a, R: Source<'a>, T: Tagged + Decode<'a, R>, const CLASS: u8> DecodeField<'a, R>
    for TaggedValue<T, CLASS> {
    ghost TAKES_MEMORY = { T.Decode.TAKES_MEMORY };

    const TAKES_MEMORY: bool = <T as Decode<'a, R>>::TAKES_MEMORY;

    /// Reads a value with explicit tagging.
    fn decode_field(alloc: Global, reader: &mut R) -> Result<TaggedValue<T, CLASS>, Error> {
        TaggedValue::<T, CLASS>::decode(alloc, reader)
    }

    ghost takes_memory_is = { T.Decode.takes_memory_is };
}
