//! The unsigned machine integers, `u8` to `u128`.
//!
//! Reading refuses, in this order: no contents octets (7); more octets than the type has plus one
//! (8); a first octet 00 before one below 80 (`ErrorKind::Noncanonical`, 8); a first octet of 80
//! or more, which makes the number negative (`ErrorKind::Value`, 13); one octet more than the
//! type has, with a first octet of 01 to 7F (`ErrorKind::Length`, 7).

ghost use Rattle.std.specs.Prelude.{nat_eq, refl, false};
ghost use Rattle.std.proofs.lemmas.Bool.Decides.{Decides-eqb};
ghost use Rattle.der_elem.specs.OwnContentsLaws.{contents_eq_own};
ghost use Rattle.der_elem.specs.Integer.{natural_contents, FitsUnsignedWidth};
ghost use Rattle.der_elem.specs.IntegerLaws.{natural_contents-injective};
ghost use Rattle.der_elem.specs.IntegerReading.{parse_unsigned};
ghost use Rattle.der_elem.specs.IntegerReadingLaws.{parse_unsigned-own, unsigned_of_octets};
ghost use Rattle.der_elem.specs.FormatMakers.{format_of_contents_within};

use super::ordering::compare_unsigned;
use super::reading::read_unsigned;
use super::writing::{put_unsigned, unsigned_len, write_unsigned};
use crate::decode::DecodeValue;
use crate::duplicate::CopyIsDuplicate;
use crate::encode::EncodeValue;
use crate::equality::ContentsEq;
use crate::fixed_tag::OneTag;
use crate::form::FormValue;
use crate::ord::ValueOrd;
use crate::universal_tags::IntegerTag;
use der_tlv::{BackWriter, Error, Header, Length, Source, Writer};
use std::alloc::Global;
use std::cmp::Ordering;

impl FormValue for u8 {
    ghost value = { format_of_contents_within natural_contents (FitsUnsignedWidth 1) (parse_unsigned 1) (parse_unsigned-own 1) (unsigned_of_octets 1) };
}

impl OneTag for u8 {
    type Marker = IntegerTag;
}

impl<'a, R: Source<'a>> DecodeValue<'a, R> for u8 {
    ghost TAKES_MEMORY = { false };

    const TAKES_MEMORY: bool = false;

    fn decode_value(_alloc: Global, reader: &mut R, header: Header) -> Result<u8, Error> {
        let number = read_unsigned(reader, header, 1)?;
        Ok(number as u8)
    }

    ghost takes_memory_is = { refl };
}

impl EncodeValue for u8 {
    fn value_len(&self) -> Result<Length, Error> {
        Ok(Length::new(unsigned_len(u128::from(*self))))
    }

    fn encode_value<W: Writer>(&self, writer: &mut W) -> Result<(), Error> {
        write_unsigned(writer, u128::from(*self))
    }

    fn encode_value_back<W: BackWriter>(&self, writer: &mut W) -> Result<(), Error> {
        put_unsigned(writer, u128::from(*self));
        Ok(())
    }
}

impl ValueOrd for u8 {
    fn value_cmp(&self, other: &u8) -> Result<Ordering, Error> {
        Ok(compare_unsigned(u128::from(*self), u128::from(*other)))
    }
}

impl ContentsEq for u8 {
    ghost contents_eq = { contents_eq_own natural_contents nat_eq Decides-eqb
        natural_contents-injective };
}

impl CopyIsDuplicate for u8 {}

impl FormValue for u16 {
    ghost value = { format_of_contents_within natural_contents (FitsUnsignedWidth 2) (parse_unsigned 2) (parse_unsigned-own 2) (unsigned_of_octets 2) };
}

impl OneTag for u16 {
    type Marker = IntegerTag;
}

impl<'a, R: Source<'a>> DecodeValue<'a, R> for u16 {
    ghost TAKES_MEMORY = { false };

    const TAKES_MEMORY: bool = false;

    fn decode_value(_alloc: Global, reader: &mut R, header: Header) -> Result<u16, Error> {
        let number = read_unsigned(reader, header, 2)?;
        Ok(number as u16)
    }

    ghost takes_memory_is = { refl };
}

impl EncodeValue for u16 {
    fn value_len(&self) -> Result<Length, Error> {
        Ok(Length::new(unsigned_len(u128::from(*self))))
    }

    fn encode_value<W: Writer>(&self, writer: &mut W) -> Result<(), Error> {
        write_unsigned(writer, u128::from(*self))
    }

    fn encode_value_back<W: BackWriter>(&self, writer: &mut W) -> Result<(), Error> {
        put_unsigned(writer, u128::from(*self));
        Ok(())
    }
}

impl ValueOrd for u16 {
    fn value_cmp(&self, other: &u16) -> Result<Ordering, Error> {
        Ok(compare_unsigned(u128::from(*self), u128::from(*other)))
    }
}

impl ContentsEq for u16 {
    ghost contents_eq = { contents_eq_own natural_contents nat_eq Decides-eqb
        natural_contents-injective };
}

impl CopyIsDuplicate for u16 {}

impl FormValue for u32 {
    ghost value = { format_of_contents_within natural_contents (FitsUnsignedWidth 4) (parse_unsigned 4) (parse_unsigned-own 4) (unsigned_of_octets 4) };
}

impl OneTag for u32 {
    type Marker = IntegerTag;
}

impl<'a, R: Source<'a>> DecodeValue<'a, R> for u32 {
    ghost TAKES_MEMORY = { false };

    const TAKES_MEMORY: bool = false;

    fn decode_value(_alloc: Global, reader: &mut R, header: Header) -> Result<u32, Error> {
        let number = read_unsigned(reader, header, 4)?;
        Ok(number as u32)
    }

    ghost takes_memory_is = { refl };
}

impl EncodeValue for u32 {
    fn value_len(&self) -> Result<Length, Error> {
        Ok(Length::new(unsigned_len(u128::from(*self))))
    }

    fn encode_value<W: Writer>(&self, writer: &mut W) -> Result<(), Error> {
        write_unsigned(writer, u128::from(*self))
    }

    fn encode_value_back<W: BackWriter>(&self, writer: &mut W) -> Result<(), Error> {
        put_unsigned(writer, u128::from(*self));
        Ok(())
    }
}

impl ValueOrd for u32 {
    fn value_cmp(&self, other: &u32) -> Result<Ordering, Error> {
        Ok(compare_unsigned(u128::from(*self), u128::from(*other)))
    }
}

impl ContentsEq for u32 {
    ghost contents_eq = { contents_eq_own natural_contents nat_eq Decides-eqb
        natural_contents-injective };
}

impl CopyIsDuplicate for u32 {}

impl FormValue for u64 {
    ghost value = { format_of_contents_within natural_contents (FitsUnsignedWidth 8) (parse_unsigned 8) (parse_unsigned-own 8) (unsigned_of_octets 8) };
}

impl OneTag for u64 {
    type Marker = IntegerTag;
}

impl<'a, R: Source<'a>> DecodeValue<'a, R> for u64 {
    ghost TAKES_MEMORY = { false };

    const TAKES_MEMORY: bool = false;

    fn decode_value(_alloc: Global, reader: &mut R, header: Header) -> Result<u64, Error> {
        let number = read_unsigned(reader, header, 8)?;
        Ok(number as u64)
    }

    ghost takes_memory_is = { refl };
}

impl EncodeValue for u64 {
    fn value_len(&self) -> Result<Length, Error> {
        Ok(Length::new(unsigned_len(u128::from(*self))))
    }

    fn encode_value<W: Writer>(&self, writer: &mut W) -> Result<(), Error> {
        write_unsigned(writer, u128::from(*self))
    }

    fn encode_value_back<W: BackWriter>(&self, writer: &mut W) -> Result<(), Error> {
        put_unsigned(writer, u128::from(*self));
        Ok(())
    }
}

impl ValueOrd for u64 {
    fn value_cmp(&self, other: &u64) -> Result<Ordering, Error> {
        Ok(compare_unsigned(u128::from(*self), u128::from(*other)))
    }
}

impl ContentsEq for u64 {
    ghost contents_eq = { contents_eq_own natural_contents nat_eq Decides-eqb
        natural_contents-injective };
}

impl CopyIsDuplicate for u64 {}

impl FormValue for u128 {
    ghost value = { format_of_contents_within natural_contents (FitsUnsignedWidth 16) (parse_unsigned 16) (parse_unsigned-own 16) (unsigned_of_octets 16) };
}

impl OneTag for u128 {
    type Marker = IntegerTag;
}

impl<'a, R: Source<'a>> DecodeValue<'a, R> for u128 {
    ghost TAKES_MEMORY = { false };

    const TAKES_MEMORY: bool = false;

    fn decode_value(_alloc: Global, reader: &mut R, header: Header) -> Result<u128, Error> {
        read_unsigned(reader, header, 16)
    }

    ghost takes_memory_is = { refl };
}

impl EncodeValue for u128 {
    fn value_len(&self) -> Result<Length, Error> {
        Ok(Length::new(unsigned_len(*self)))
    }

    fn encode_value<W: Writer>(&self, writer: &mut W) -> Result<(), Error> {
        write_unsigned(writer, *self)
    }

    fn encode_value_back<W: BackWriter>(&self, writer: &mut W) -> Result<(), Error> {
        put_unsigned(writer, *self);
        Ok(())
    }
}

impl ValueOrd for u128 {
    fn value_cmp(&self, other: &u128) -> Result<Ordering, Error> {
        Ok(compare_unsigned(*self, *other))
    }
}

impl ContentsEq for u128 {
    ghost contents_eq = { contents_eq_own natural_contents nat_eq Decides-eqb
        natural_contents-injective };
}

impl CopyIsDuplicate for u128 {}
