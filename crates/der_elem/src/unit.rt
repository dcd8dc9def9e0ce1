//! NULL: `()` (X.690 8.8).
//!
//! The tag is 05. There are no contents octets, so that `()` is encoded as 05 00.
//!
//! Reading refuses any contents octets (7).

ghost use Rattle.std.specs.Prelude.{true, refl, false};
ghost use Rattle.der_tlv.specs.declared.tag.Tag.TheVariants.{Null};
ghost use Rattle.der_elem.specs.OwnContentsLaws.{contents_eq_own};
ghost use Rattle.der_elem.specs.Null.{null_contents, parse_null, ReadsNull, null_of_octets, unit_eq_decides};
ghost use Rattle.der_elem.specs.FormatMakers.{format_of_contents};

use crate::contents::read_contents;
use crate::decode::DecodeValue;
use crate::duplicate::CopyIsDuplicate;
use crate::encode::EncodeValue;
use crate::equality::ContentsEq;
use crate::fixed_tag::OneTag;
use crate::form::FormValue;
use crate::universal_tags::NullTag;
use der_tlv::{BackWriter, Error, ErrorKind, Header, Length, Reader, Source, Tag, Writer};
use std::alloc::Global;

/// Checks that there are no contents octets.
///
/// # Errors
/// `ErrorKind::Length` (7) for any octet.
pub fn null_of(octets: &[u8]) -> Result<(), ErrorKind>
    ensures { ReadsNull octets.now result }
{
    match octets {
        [] => Ok(()),
        _ => Err(Tag::Null.length_error()),
    }
}

impl FormValue for () {
    ghost value = { format_of_contents null_contents parse_null (λ rules v p. refl) null_of_octets };
}

impl OneTag for () {
    type Marker = NullTag;
}

impl<'a, R: Source<'a>> DecodeValue<'a, R> for () {
    ghost TAKES_MEMORY = { false };

    const TAKES_MEMORY: bool = false;

    fn decode_value(_alloc: Global, reader: &mut R, header: Header) -> Result<(), Error> {
        match null_of(read_contents(reader, header)?) {
            Ok(()) => Ok(()),
            Err(kind) => Err(reader.error(kind)),
        }
    }

    ghost takes_memory_is = { refl };
}

impl EncodeValue for () {
    fn value_len(&self) -> Result<Length, Error> {
        Ok(Length::ZERO)
    }

    fn encode_value<W: Writer>(&self, writer: &mut W) -> Result<(), Error> {
        writer.write(&[])
    }

    fn encode_value_back<W: BackWriter>(&self, writer: &mut W) -> Result<(), Error> {
        writer.put(&[]);
        Ok(())
    }
}

impl ContentsEq for () {
    ghost contents_eq = { contents_eq_own null_contents (λ v w. true) unit_eq_decides
        (λ v w e. refl) };
}

impl CopyIsDuplicate for () {}
