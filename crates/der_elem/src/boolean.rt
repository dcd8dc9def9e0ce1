//! BOOLEAN: `bool` (X.690 8.2, 11.1).
//!
//! The tag is 01. There is one contents octet, 00 for false and FF for true, so that `true` is
//! encoded as 01 01 FF.
//!
//! Reading refuses contents that are not one octet long (7), then any octet but 00 and FF (8).

ghost use Rattle.std.specs.Prelude.{false, refl};
ghost use Rattle.std.specs.Bool.{beq};
ghost use Rattle.std.specs.Cmp.{booleans_Decides};
ghost use Rattle.der_tlv.specs.declared.tag.Tag.TheVariants.{Boolean};
ghost use Rattle.der_elem.specs.OwnContentsLaws.{contents_eq_own};
ghost use Rattle.der_elem.specs.Boolean.{boolean_contents, parse_boolean, ReadsBoolean, parse_boolean-own, boolean_of_octets, boolean_contents-injective, bool_cmp-lex};
ghost use Rattle.der_elem.specs.FormatMakers.{format_of_contents};

use crate::contents::read_contents;
use crate::decode::DecodeValue;
use crate::duplicate::CopyIsDuplicate;
use crate::encode::EncodeValue;
use crate::equality::ContentsEq;
use crate::fixed_tag::OneTag;
use crate::form::FormValue;
use crate::ord::OrdIsValueOrd;
use crate::universal_tags::BooleanTag;
use der_tlv::{BackWriter, Error, ErrorKind, Header, Length, Reader, Source, Tag, Writer};
use std::alloc::Global;

/// Returns the truth value that contents octets represent, under DER: 00 is false, FF is true.
///
/// # Errors
/// `ErrorKind::Length` (7) unless there is one octet; `ErrorKind::Noncanonical` (8) for any octet
/// but 00 and FF.
pub fn boolean_of(octets: &[u8]) -> Result<bool, ErrorKind>
    ensures { ReadsBoolean octets.now result }
{
    match octets {
        [0x00] => Ok(false),
        [0xff] => Ok(true),
        [_] => Err(Tag::Boolean.non_canonical_error()),
        _ => Err(Tag::Boolean.length_error()),
    }
}

impl FormValue for bool {
    ghost value = { format_of_contents boolean_contents parse_boolean parse_boolean-own boolean_of_octets };
}

impl OneTag for bool {
    type Marker = BooleanTag;
}

impl<'a, R: Source<'a>> DecodeValue<'a, R> for bool {
    ghost TAKES_MEMORY = { false };

    const TAKES_MEMORY: bool = false;

    fn decode_value(_alloc: Global, reader: &mut R, header: Header) -> Result<bool, Error> {
        match boolean_of(read_contents(reader, header)?) {
            Ok(truth) => Ok(truth),
            Err(kind) => Err(reader.error(kind)),
        }
    }

    ghost takes_memory_is = { refl };
}

impl EncodeValue for bool {
    fn value_len(&self) -> Result<Length, Error> {
        Ok(Length::ONE)
    }

    fn encode_value<W: Writer>(&self, writer: &mut W) -> Result<(), Error> {
        writer.write_byte(if *self { 0xff } else { 0x00 })
    }

    fn encode_value_back<W: BackWriter>(&self, writer: &mut W) -> Result<(), Error> {
        writer.put(&[if *self { 0xff } else { 0x00 }]);
        Ok(())
    }
}

impl OrdIsValueOrd for bool {
    ghost ord_is_value_ord = { bool_cmp-lex };
}

impl ContentsEq for bool {
    ghost contents_eq = { contents_eq_own boolean_contents beq booleans_Decides
        boolean_contents-injective };
}

impl CopyIsDuplicate for bool {}
