//! Fields that may be absent, found by the class and the number of their tag.

ghost use Rattle.std.specs.Prelude.{◌≡◌, length};
ghost use Rattle.der_wrap.specs.TaggedFields.{DecodesExplicit, DecodesImplicit, ReadsAny};
ghost use Rattle.der_opaque.specs.AnyRef.{tag_of, contents_of};

use crate::class_tag::{check_form, class_of_bits, in_class};
use crate::tagged_value::TaggedValue;
use der_elem::{Decode, DecodeValue, Form, FormValue, FromDer, IsConstructed, Tagged};
use der_opaque::AnyRef;
use der_tlv::{Error, Header, Reader, Source, Tag, TagMode, TagNumber};
use std::alloc::Global;

impl<T: Tagged, const CLASS: u8> TaggedValue<T, CLASS> {
    /// Reads a field with explicit tagging and this number. At the end, or before a tag of
    /// another class or number, returns `None`, and the reader is unchanged.
    ///
    /// # Errors
    /// `ErrorKind::Failed` (17) on a failed reader; the errors of the next tag;
    /// `ErrorKind::Noncanonical` (8) for a primitive tag; the errors of the value;
    /// `ErrorKind::TrailingData` (3) if octets are left over after the value.
    pub fn decode_explicit<'a, R: Source<'a>>(
        alloc: Global,
        reader: &mut R,
        tag_number: TagNumber,
    ) -> Result<Option<TaggedValue<T, CLASS>>, Error>
    where
        T: Decode<'a, R>,
        ensures { DecodesExplicit T.Form CLASS tag_number.0 (R.state reader.old)
            (R.state reader.new) result }
    {
        if !Tag::peek_matches(reader, class_of_bits(CLASS), tag_number)? {
            return Ok(None);
        }
        Ok(Some(TaggedValue::decode(alloc, reader)?))
    }

    /// Reads an encoding as a value with explicit tagging.
    ///
    /// # Errors
    /// `ErrorKind::TagUnexpected` (4) with no expected tag unless the tag is constructed and of
    /// the class; the errors of `from_der` of the contents octets.
    pub fn from_any<'a>(alloc: Global, any: AnyRef<'a>) -> Result<TaggedValue<T, CLASS>, Error>
    where
        T: FromDer<'a>,
        ensures { ReadsAny T.Form CLASS (tag_of any.entry) (contents_of any.entry) result }
    {
        let tag = any.tag();
        if !(tag.is_constructed() && in_class(CLASS, tag)) {
            return Err(Error::from_kind(tag.unexpected_error(None)));
        }
        let value = T::from_der(alloc, any.value())?;
        Ok(TaggedValue {
            tag_number: tag.number(),
            tag_mode: TagMode::Explicit,
            value,
        })
    }
}

impl<T, const CLASS: u8> TaggedValue<T, CLASS> {
    /// Reads a field with implicit tagging and this number. At the end, or before a tag of
    /// another class or number, returns `None`, and the reader is unchanged.
    ///
    /// # Errors
    /// `ErrorKind::Failed` (17) on a failed reader; the errors of the next tag; under DER
    /// `ErrorKind::Noncanonical` (8) for a constructed tag if the tag of the type is primitive,
    /// and for a primitive tag if it is constructed; the errors of the contents octets.
    pub fn decode_implicit<'a, R: Source<'a>>(
        alloc: Global,
        reader: &mut R,
        tag_number: TagNumber,
    ) -> Result<Option<TaggedValue<T, CLASS>>, Error>
    where
        T: DecodeValue<'a, R> + IsConstructed,
        ensures { DecodesImplicit T.value T.CONSTRUCTED CLASS tag_number.0 (R.state reader.old)
            (R.state reader.new) result }
    {
        let class = class_of_bits(CLASS);
        if !Tag::peek_matches(reader, class, tag_number)? {
            return Ok(None);
        }
        let header = Header::decode(reader)?;
        match check_form(reader.encoding_rules(), T::CONSTRUCTED, header.tag) {
            Ok(()) => {}
            Err(kind) => return Err(reader.error(kind)),
        }
        let end = reader.nest(header.length)?;
        let value = T::decode_value(alloc, reader, header)?;
        reader.unnest(end)?;
        Ok(Some(TaggedValue {
            tag_number,
            tag_mode: TagMode::Implicit,
            value,
        }))
    }
}
