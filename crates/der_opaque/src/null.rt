//! NULL (X.690 8.8).
//!
//! The tag is 05, and there are no contents octets.

ghost use Rattle.std.specs.Prelude.{◌≡◌, [], length, refl, false};
ghost use Rattle.der_tlv.specs.declared.tag.Tag.TheVariants as tags;
ghost use Rattle.der_elem.specs.Null.{parse_null, null_of_octets};
ghost use Rattle.der_elem.specs.FormatMakers.{format_of_contents};
ghost use Rattle.der_opaque.specs.Any as owned;
ghost use Rattle.der_opaque.specs.AnyRef.{tag_of, contents_of};
ghost use Rattle.der_opaque.specs.BuiltinTypes.{DecodesNull};

use crate::any::Any;
use crate::any_ref::AnyRef;
use der_elem::{
    ContentsEq, CopyIsDuplicate, DecodeValue, EncodeValue, Form, FormValue, NullTag, OneTag,
    OrdIsValueOrd, Tagged,
};
use der_tlv::{BackWriter, Error, Header, Length, Reader, Source, Tag, Writer};
use std::alloc::Global;

/// The one value of NULL, which is encoded as 05 00.
///
/// # Errors
/// Decoding fails on any contents octets (`ErrorKind::Length`, 7).
#[derive(Clone, Copy, Debug, Default, PartialEq, Eq, PartialOrd, Ord)]
pub struct Null;

impl FormValue for Null {
    ghost value = { format_of_contents (λ v. []) parse_null (λ rules v p. refl) null_of_octets };
}

impl OneTag for Null {
    type Marker = NullTag;
}

impl<'a, R: Source<'a>> DecodeValue<'a, R> for Null {
    ghost TAKES_MEMORY = { false };

    const TAKES_MEMORY: bool = false;

    fn decode_value(_alloc: Global, reader: &mut R, header: Header) -> Result<Null, Error> {
        match reader.read_slice(header.length)? {
            [] => Ok(Null),
            _ => Err(reader.error(Tag::Null.length_error())),
        }
    }

    ghost takes_memory_is = { refl };
}

impl EncodeValue for Null {
    fn value_len(&self) -> Result<Length, Error> {
        Ok(Length::ZERO)
    }

    fn encode_value<W: Writer>(&self, writer: &mut W) -> Result<(), Error> {
        writer.write(&[])
    }

    fn encode_value_back<W: BackWriter>(&self, writer: &mut W) -> Result<(), Error> {
        writer.put(&[]);
        Ok(())
    }
}

impl OrdIsValueOrd for Null {
    ghost ord_is_value_ord = { λ v w. refl };
}

impl ContentsEq for Null {
    ghost contents_eq = { λ v w one. (λ e. refl, λ e. refl) };
}

impl CopyIsDuplicate for Null {}

impl<'a> From<Null> for AnyRef<'a> {
    ghost from_gives = { λ n a. (tag_of a ≡ tags.Null) × (contents_of a ≡ []) };

    fn from(_null: Null) -> AnyRef<'a> {
        AnyRef::from(())
    }
}

impl<'a> TryFrom<AnyRef<'a>> for Null {
    type Error = Error;

    ghost try_from_gives = { λ a r. DecodesNull (tag_of a) (contents_of a) r };

    /// # Errors
    /// (4) with no expected tag for another tag; (7) for any contents octets.
    fn try_from(any: AnyRef<'a>) -> Result<Null, Error> {
        if !any.tag.equals(Tag::Null) {
            return Err(Error::from_kind(any.tag.unexpected_error(None)));
        }
        match any.value {
            [] => Ok(Null),
            _ => Err(Error::from_kind(Tag::Null.length_error())),
        }
    }
}

impl<'a> TryFrom<&'a Any> for Null {
    type Error = Error;

    ghost try_from_gives = { λ a r. DecodesNull (owned.tag_of a.now) (owned.contents_of a.now) r };

    /// # Errors
    /// (4) with no expected tag for another tag; (7) for any contents octets.
    fn try_from(any: &'a Any) -> Result<Null, Error> {
        Null::try_from(any.to_ref())
    }
}
