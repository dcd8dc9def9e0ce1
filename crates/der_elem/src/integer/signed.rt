//! The signed machine integers, `i8` to `i128`.
//!
//! Reading refuses, in this order: no contents octets (7); more octets than the type has (8); a
//! first octet 00 before one below 80, or FF before one of 80 or more (`ErrorKind::Noncanonical`,
//! 8).

ghost use Rattle.std.proofs.Common.{lit<, false};
ghost use Rattle.std.specs.Ordering.{int_eq};
ghost use Rattle.std.proofs.lemmas.Bool.Decides.{Decides-int_eq};
ghost use Rattle.der_elem.specs.OwnContentsLaws.{contents_eq_own};
ghost use Rattle.der_elem.specs.Integer.{integer_contents, FitsSignedWidth};
ghost use Rattle.der_elem.specs.IntegerLaws.{integer_contents-injective};
ghost use Rattle.der_elem.specs.IntegerReading.{parse_signed};
ghost use Rattle.der_elem.specs.IntegerReadingLaws.{parse_signed-own, signed_of_octets};
ghost use Rattle.std.specs.Prelude.{refl};
ghost use Rattle.der_elem.specs.FormatMakers.{format_of_contents_within};

use super::ordering::compare_signed;
use super::reading::read_signed;
use super::writing::{put_signed, signed_len, write_signed};
use crate::decode::DecodeValue;
use crate::duplicate::CopyIsDuplicate;
use crate::encode::EncodeValue;
use crate::equality::ContentsEq;
use crate::fixed_tag::OneTag;
use crate::form::FormValue;
use crate::ord::ValueOrd;
use crate::universal_tags::IntegerTag;
use der_tlv::{BackWriter, Error, Header, Length, Source, Writer};
use std::alloc::Global;
use std::cmp::Ordering;

impl FormValue for i8 {
    ghost value = { format_of_contents_within integer_contents (FitsSignedWidth 1) (parse_signed 1) (parse_signed-own 1 (lit< tt)) (signed_of_octets 1) };
}

impl OneTag for i8 {
    type Marker = IntegerTag;
}

impl<'a, R: Source<'a>> DecodeValue<'a, R> for i8 {
    ghost TAKES_MEMORY = { false };

    const TAKES_MEMORY: bool = false;

    fn decode_value(_alloc: Global, reader: &mut R, header: Header) -> Result<i8, Error> {
        let integer = read_signed(reader, header, 1)?;
        Ok(integer as i8)
    }

    ghost takes_memory_is = { refl };
}

impl EncodeValue for i8 {
    fn value_len(&self) -> Result<Length, Error> {
        Ok(Length::new(signed_len(i128::from(*self))))
    }

    fn encode_value<W: Writer>(&self, writer: &mut W) -> Result<(), Error> {
        write_signed(writer, i128::from(*self))
    }

    fn encode_value_back<W: BackWriter>(&self, writer: &mut W) -> Result<(), Error> {
        put_signed(writer, i128::from(*self));
        Ok(())
    }
}

impl ValueOrd for i8 {
    fn value_cmp(&self, other: &i8) -> Result<Ordering, Error> {
        Ok(compare_signed(i128::from(*self), i128::from(*other)))
    }
}

impl ContentsEq for i8 {
    ghost contents_eq = { contents_eq_own integer_contents int_eq Decides-int_eq
        integer_contents-injective };
}

impl CopyIsDuplicate for i8 {}

impl FormValue for i16 {
    ghost value = { format_of_contents_within integer_contents (FitsSignedWidth 2) (parse_signed 2) (parse_signed-own 2 (lit< tt)) (signed_of_octets 2) };
}

impl OneTag for i16 {
    type Marker = IntegerTag;
}

impl<'a, R: Source<'a>> DecodeValue<'a, R> for i16 {
    ghost TAKES_MEMORY = { false };

    const TAKES_MEMORY: bool = false;

    fn decode_value(_alloc: Global, reader: &mut R, header: Header) -> Result<i16, Error> {
        let integer = read_signed(reader, header, 2)?;
        Ok(integer as i16)
    }

    ghost takes_memory_is = { refl };
}

impl EncodeValue for i16 {
    fn value_len(&self) -> Result<Length, Error> {
        Ok(Length::new(signed_len(i128::from(*self))))
    }

    fn encode_value<W: Writer>(&self, writer: &mut W) -> Result<(), Error> {
        write_signed(writer, i128::from(*self))
    }

    fn encode_value_back<W: BackWriter>(&self, writer: &mut W) -> Result<(), Error> {
        put_signed(writer, i128::from(*self));
        Ok(())
    }
}

impl ValueOrd for i16 {
    fn value_cmp(&self, other: &i16) -> Result<Ordering, Error> {
        Ok(compare_signed(i128::from(*self), i128::from(*other)))
    }
}

impl ContentsEq for i16 {
    ghost contents_eq = { contents_eq_own integer_contents int_eq Decides-int_eq
        integer_contents-injective };
}

impl CopyIsDuplicate for i16 {}

impl FormValue for i32 {
    ghost value = { format_of_contents_within integer_contents (FitsSignedWidth 4) (parse_signed 4) (parse_signed-own 4 (lit< tt)) (signed_of_octets 4) };
}

impl OneTag for i32 {
    type Marker = IntegerTag;
}

impl<'a, R: Source<'a>> DecodeValue<'a, R> for i32 {
    ghost TAKES_MEMORY = { false };

    const TAKES_MEMORY: bool = false;

    fn decode_value(_alloc: Global, reader: &mut R, header: Header) -> Result<i32, Error> {
        let integer = read_signed(reader, header, 4)?;
        Ok(integer as i32)
    }

    ghost takes_memory_is = { refl };
}

impl EncodeValue for i32 {
    fn value_len(&self) -> Result<Length, Error> {
        Ok(Length::new(signed_len(i128::from(*self))))
    }

    fn encode_value<W: Writer>(&self, writer: &mut W) -> Result<(), Error> {
        write_signed(writer, i128::from(*self))
    }

    fn encode_value_back<W: BackWriter>(&self, writer: &mut W) -> Result<(), Error> {
        put_signed(writer, i128::from(*self));
        Ok(())
    }
}

impl ValueOrd for i32 {
    fn value_cmp(&self, other: &i32) -> Result<Ordering, Error> {
        Ok(compare_signed(i128::from(*self), i128::from(*other)))
    }
}

impl ContentsEq for i32 {
    ghost contents_eq = { contents_eq_own integer_contents int_eq Decides-int_eq
        integer_contents-injective };
}

impl CopyIsDuplicate for i32 {}

impl FormValue for i64 {
    ghost value = { format_of_contents_within integer_contents (FitsSignedWidth 8) (parse_signed 8) (parse_signed-own 8 (lit< tt)) (signed_of_octets 8) };
}

impl OneTag for i64 {
    type Marker = IntegerTag;
}

impl<'a, R: Source<'a>> DecodeValue<'a, R> for i64 {
    ghost TAKES_MEMORY = { false };

    const TAKES_MEMORY: bool = false;

    fn decode_value(_alloc: Global, reader: &mut R, header: Header) -> Result<i64, Error> {
        let integer = read_signed(reader, header, 8)?;
        Ok(integer as i64)
    }

    ghost takes_memory_is = { refl };
}

impl EncodeValue for i64 {
    fn value_len(&self) -> Result<Length, Error> {
        Ok(Length::new(signed_len(i128::from(*self))))
    }

    fn encode_value<W: Writer>(&self, writer: &mut W) -> Result<(), Error> {
        write_signed(writer, i128::from(*self))
    }

    fn encode_value_back<W: BackWriter>(&self, writer: &mut W) -> Result<(), Error> {
        put_signed(writer, i128::from(*self));
        Ok(())
    }
}

impl ValueOrd for i64 {
    fn value_cmp(&self, other: &i64) -> Result<Ordering, Error> {
        Ok(compare_signed(i128::from(*self), i128::from(*other)))
    }
}

impl ContentsEq for i64 {
    ghost contents_eq = { contents_eq_own integer_contents int_eq Decides-int_eq
        integer_contents-injective };
}

impl CopyIsDuplicate for i64 {}

impl FormValue for i128 {
    ghost value = { format_of_contents_within integer_contents (FitsSignedWidth 16) (parse_signed 16) (parse_signed-own 16 (lit< tt)) (signed_of_octets 16) };
}

impl OneTag for i128 {
    type Marker = IntegerTag;
}

impl<'a, R: Source<'a>> DecodeValue<'a, R> for i128 {
    ghost TAKES_MEMORY = { false };

    const TAKES_MEMORY: bool = false;

    fn decode_value(_alloc: Global, reader: &mut R, header: Header) -> Result<i128, Error> {
        read_signed(reader, header, 16)
    }

    ghost takes_memory_is = { refl };
}

impl EncodeValue for i128 {
    fn value_len(&self) -> Result<Length, Error> {
        Ok(Length::new(signed_len(*self)))
    }

    fn encode_value<W: Writer>(&self, writer: &mut W) -> Result<(), Error> {
        write_signed(writer, *self)
    }

    fn encode_value_back<W: BackWriter>(&self, writer: &mut W) -> Result<(), Error> {
        put_signed(writer, *self);
        Ok(())
    }
}

impl ValueOrd for i128 {
    fn value_cmp(&self, other: &i128) -> Result<Ordering, Error> {
        Ok(compare_signed(*self, *other))
    }
}

impl ContentsEq for i128 {
    ghost contents_eq = { contents_eq_own integer_contents int_eq Decides-int_eq
        integer_contents-injective };
}

impl CopyIsDuplicate for i128 {}
