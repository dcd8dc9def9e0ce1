//! Fields of a SEQUENCE (X.690 8.9): values that are present, and values that may be absent.
//!
//! A field that may be absent (X.680 25, OPTIONAL) is distinguished from what follows it by its
//! tag: it is absent at the end of what the reader shows, and before a tag that none of its
//! encodings begins with.

ghost use Rattle.std.specs.Prelude.{◌≡◌, Option, Some, true, Bool};
ghost use Rattle.der_tlv.specs.declared.tag.Tag.{Tag};
ghost use Rattle.der_elem.specs.FieldDecoding.{DecodesField};
ghost use Rattle.der_tlv.specs.OctetLaws.{SameBeginning};
ghost use Rattle.der_elem.specs.FirstTags.{SamePresence, Starts};
ghost use Rattle.der_elem.specs.FirstTagLaws.{beginning_tagged, beginning_option, starts_tagged, starts_option, own_first_tag_tagged, own_first_tag_option};

use crate::decode::{Decode, DecodeValue};
use crate::fixed_tag::OneTag;
use crate::form::Form;
use crate::readiness::check_ready;
use crate::tag::{Choice, Tagged};
use der_tlv::{Error, Reader, Source, Tag};
use std::alloc::Global;

/// Reading a field, which is distinguished from what follows it: an absent field is only at the
/// end, or before a tag that is none of its own.
pub trait DecodeField<'a, R: Source<'a>>: Form {
    ghost TAKES_MEMORY: { Bool };

    /// Whether reading the field takes memory.
    const TAKES_MEMORY: bool;

    /// Reads the field at the reader's position.
    ///
    /// # Errors
    /// As `Decode::decode`: the first error of the octets of the field; `ErrorKind::Failed` (17)
    /// on a failed reader; `ErrorKind::Memory` (1) only if the type takes memory.
    fn decode_field(alloc: Global, reader: &mut R) -> Result<Self, Error>
        ensures { DecodesField Self.Form (R.state reader.old) (R.state reader.new) result };

    ghost takes_memory_is: { Self.DecodeField.TAKES_MEMORY ≡ Self.Form.TAKES_MEMORY };
}

impl<'a, R: Source<'a>, T: DecodeValue<'a, R> + OneTag> DecodeField<'a, R> for T {
    ghost TAKES_MEMORY = { T.DecodeValue.TAKES_MEMORY };

    const TAKES_MEMORY: bool = <T as DecodeValue<'a, R>>::TAKES_MEMORY;

    fn decode_field(alloc: Global, reader: &mut R) -> Result<T, Error> {
        T::decode(alloc, reader)
    }

    ghost takes_memory_is = { T.DecodeValue.takes_memory_is };
}

impl<'a, R: Source<'a>, T: Decode<'a, R> + Choice> DecodeField<'a, R> for Option<T> {
    ghost TAKES_MEMORY = { T.Decode.TAKES_MEMORY };

    const TAKES_MEMORY: bool = <T as Decode<'a, R>>::TAKES_MEMORY;

    fn decode_field(alloc: Global, reader: &mut R) -> Result<Option<T>, Error> {
        if reader.is_finished() {
            check_ready(reader)?;
            return Ok(None);
        }
        let tag = Tag::peek(reader)?;
        if !T::can_decode(tag) {
            return Ok(None);
        }
        Ok(Some(T::decode(alloc, reader)?))
    }

    ghost takes_memory_is = { T.Decode.takes_memory_is };
}

/// The tag that the encoding of a field begins with, which distinguishes it from other fields.
pub trait FirstTag: Form {
    /// Returns the tag that the encoding begins with, or none if the field is absent and has no
    /// octets.
    fn first_tag(&self) -> Option<Tag>
        ensures { result ≡ Self.first_tag_of self.now };

    ghost starts: { (v : Self) → Starts (Self.first_tag_of v) (Self.encoding v) };

    ghost own_first_tag: { (v : Self) (t : Tag) → Self.first_tag_of v ≡ Some t → Self.tags t ≡ true };

    ghost same_beginning: { (v w : Self) → SamePresence (Self.first_tag_of v) (Self.first_tag_of w)
        → SameBeginning (Self.encoding v) (Self.encoding w) };
}

impl<T: Tagged> FirstTag for T {
    fn first_tag(&self) -> Option<Tag> {
        Some(self.tag())
    }

    ghost starts = { λ v. starts_tagged T.tag_of T.value.contents T.encoding T.encoding_is v (T.first_tag_of v)
        (T.first_tag_is v) };

    ghost own_first_tag = { λ v. own_first_tag_tagged T.tags (T.tag_of v) (T.own_tag v) (T.first_tag_of v)
        (T.first_tag_is v) };

    ghost same_beginning = { λ v w h.
        beginning_tagged T.tag_of T.value.contents T.encoding T.encoding_is v w };
}

impl<T: Tagged> FirstTag for Option<T> {
    fn first_tag(&self) -> Option<Tag> {
        match self {
            Some(value) => value.first_tag(),
            None => None,
        }
    }

    ghost starts = { starts_option T.tag_of T.value.contents T.encoding T.encoding_is T.first_tag_of T.first_tag_is };

    ghost own_first_tag = { own_first_tag_option T.tags T.tag_of T.own_tag T.first_tag_of T.first_tag_is };

    ghost same_beginning = { beginning_option T.tag_of T.value.contents T.encoding T.encoding_is T.first_tag_of
        T.first_tag_is };
}
