//! Borrowed values with a tag of another class than their own, to be written (X.690 8.14).
//!
//! Their encodings are those of the owned form.

ghost use Rattle.std.specs.Prelude.{◌≡◌, true, false, Some, refl};
ghost use Rattle.der_tlv.specs.declared.tag.mode.TagMode.TheVariants.{Explicit};
ghost use Rattle.der_tlv.specs.HeaderOctets.{tlv};
ghost use Rattle.der_wrap.specs.ClassTags.{class_tag, in_class};
ghost use Rattle.der_wrap.specs.TaggedValues.{tag_of_mode, contents_of_mode, ComparableTagged, one_encoding, accepts_one_encoding, parse_explicit, AcceptsExplicit, ReadableExplicit};
ghost use Rattle.der_wrap.specs.TaggedValueLaws.{one_encoding_of_octets, explicit_of_octets, parse_of_one_encoding, same_length_one_encoding, accepts_own_encoding, parse_of_explicit, begins_explicit, begins_first_explicit, tag_of_mode-class, same_length_explicit, accepts_explicit_encoding, readable_explicit, comparable_explicit_tagged};

use crate::class_tag::class_tag;
use der_elem::{Encode, EncodeValue, Form, FormValue, Tagged};
use der_tlv::{BackWriter, Error, Length, Tag, TagMode, TagNumber, Writer};

/// A borrowed value with a tag of its own class and number, to be written.
#[derive(Clone, Copy, Debug, PartialEq, Eq, PartialOrd, Ord)]
pub struct TaggedValueRef<'a, T, const CLASS: u8> {
    /// The number of the tag.
    pub tag_number: TagNumber,
    /// Whether the tag encloses the encoding of the value, or replaces its tag.
    pub tag_mode: TagMode,
    /// The value.
    pub value: &'a T,
}

impl<'a, T: Tagged, const CLASS: u8> FormValue for TaggedValueRef<'a, T, CLASS> {
    ghost value = { record {
      contents = λ v. contents_of_mode v.tag_mode (T.encoding v.value.now) (T.value.contents v.value.now);
      comparable = λ v w. ComparableTagged T.comparable T.tag_of v.tag_mode w.tag_mode v.value.now w.value.now;
      re_reads = λ v. T.re_reads v.value.now;
      accepts = λ rules v. accepts_one_encoding T.accepts v.tag_mode rules v.value.now;
      parse = one_encoding T.parse;
      readable = λ v. (v.tag_mode ≡ Explicit) × T.readable v.value.now;
      has_tag = λ v t. Unit {0};
      TAKES_MEMORY = T.Form.TAKES_MEMORY;
      FAULTS_FIRST = false;
      parse_of_accepted = λ rules v. parse_of_one_encoding T.Form v.tag_mode v.value.now (T.value.contents v.value.now) rules;
      faults_of_octets = one_encoding_of_octets T.parse T.faults_of_octets;
      same_length = λ rules v. same_length_one_encoding T.Form v.tag_mode v.value.now (T.value.contents v.value.now) rules;
      accepts_contents = λ rules v. accepts_own_encoding T.Form v.tag_mode v.value.now (T.value.contents v.value.now) rules;
      only_readable = λ rules v c a. (a.0, T.only_readable rules v.value.now c a.1);
      accepts_comparable = λ rules v w c d a b. comparable_explicit_tagged T.Form T.tag_of v.tag_mode w.tag_mode v.value.now w.value.now a.0 b.0 (T.accepts_comparable rules v.value.now w.value.now c d a.1 b.1);
      re_reads_memory = λ v. T.re_reads_memory v.value.now;
    } };
}

impl<'a, T: Tagged, const CLASS: u8> Form for TaggedValueRef<'a, T, CLASS> {
    ghost encoding = { λ v. tlv (tag_of_mode CLASS v.tag_mode v.tag_number.0 (T.tag_of v.value.now))
        (contents_of_mode v.tag_mode (T.encoding v.value.now) (T.value.contents v.value.now)) };

    ghost comparable = { λ v w. ComparableTagged T.comparable T.tag_of v.tag_mode w.tag_mode
        v.value.now w.value.now };

    ghost re_reads = { λ v. T.re_reads v.value.now };

    ghost accepts = { λ rules v.
        AcceptsExplicit T.accepts CLASS v.tag_number.0 v.tag_mode v.value.now rules };

    ghost parse = { parse_explicit CLASS T.parse };

    ghost tags = { in_class CLASS };

    ghost first_tag_of = { λ v. Some (tag_of_mode CLASS v.tag_mode v.tag_number.0 (T.tag_of v.value.now)) };

    ghost readable = { λ v. ReadableExplicit T.readable v.tag_number.0 v.tag_mode v.value.now };

    ghost TAKES_MEMORY = { T.Form.TAKES_MEMORY };

    // octets left over after the value are found after it is read
    ghost FAULTS_FIRST = { false };

    ghost parse_of_accepted = { λ rules v. parse_of_explicit T.Form CLASS v.tag_number.0 v.tag_mode
        v.value.now (T.tag_of v.value.now) (T.value.contents v.value.now) rules };

    ghost faults_of_octets = { explicit_of_octets T.parse T.faults_of_octets CLASS };

    ghost begins = { λ rules v. begins_explicit T.Form CLASS v.tag_number.0 v.tag_mode v.value.now
        (T.tag_of v.value.now) (T.value.contents v.value.now) rules };

    ghost begins_first = { λ rules v. begins_first_explicit T.Form CLASS v.tag_number.0 v.tag_mode v.value.now
        (T.tag_of v.value.now) (T.value.contents v.value.now) rules };

    ghost same_length = { λ rules v. same_length_explicit T.Form CLASS v.tag_number.0 v.tag_mode
        v.value.now (T.tag_of v.value.now) (T.value.contents v.value.now) rules };

    ghost accepts_encoding = { λ rules v. accepts_explicit_encoding T.Form CLASS v.tag_number.0
        v.tag_mode v.value.now (T.tag_of v.value.now) (T.value.contents v.value.now) rules };

    ghost only_readable = { λ rules v. readable_explicit T.Form CLASS v.tag_number.0 v.tag_mode
        v.value.now (T.tag_of v.value.now) (T.value.contents v.value.now) rules };

    ghost accepts_comparable = { λ rules v w b c a d. comparable_explicit_tagged T.Form T.tag_of v.tag_mode
        w.tag_mode v.value.now w.value.now a.mode_is d.mode_is (T.accepts_comparable rules
        v.value.now w.value.now a.inner d.inner a.accepted d.accepted) };

    ghost re_reads_memory = { λ v. T.re_reads_memory v.value.now };
}

impl<'a, T: Tagged, const CLASS: u8> Tagged for TaggedValueRef<'a, T, CLASS> {
    ghost tag_of = { λ v. tag_of_mode CLASS v.tag_mode v.tag_number.0 (T.tag_of v.value.now) };

    fn tag(&self) -> Tag {
        let constructed = match self.tag_mode {
            TagMode::Explicit => true,
            TagMode::Implicit => self.value.tag().is_constructed(),
        };
        class_tag(CLASS, constructed, self.tag_number)
    }

    ghost encoding_is = { λ v. refl };

    ghost accepted_is_tlv = { λ rules v b a.
        record {
          tag = class_tag CLASS true v.tag_number.0;
          contents = a.inner;
          octets_are =
              a.octets_are;
        } };

    ghost own_tag = { λ v. tag_of_mode-class CLASS v.tag_mode v.tag_number.0
        (T.tag_of v.value.now) };

    ghost first_tag_is = { λ v. refl };

    ghost re_reads_alike = { λ v h. h };

    ghost comparable_alike = { λ v w h. h };
}

impl<'a, T: Tagged + EncodeValue + Encode, const CLASS: u8> EncodeValue
    for TaggedValueRef<'a, T, CLASS> {
    fn value_len(&self) -> Result<Length, Error> {
        match self.tag_mode {
            TagMode::Explicit => self.value.encoded_len(),
            TagMode::Implicit => self.value.value_len(),
        }
    }

    fn encode_value<W: Writer>(&self, writer: &mut W) -> Result<(), Error> {
        match self.tag_mode {
            TagMode::Explicit => self.value.encode(writer),
            TagMode::Implicit => self.value.encode_value(writer),
        }
    }

    fn encode_value_back<W: BackWriter>(&self, writer: &mut W) -> Result<(), Error> {
        match self.tag_mode {
            TagMode::Explicit => self.value.encode_back(writer),
            TagMode::Implicit => self.value.encode_value_back(writer),
        }
    }
}
