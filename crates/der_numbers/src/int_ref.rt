//! Borrowed INTEGER of any length (X.690 8.3).
//!
//! The tag is 02. The contents octets are the two's complement of the integer in the fewest
//! octets, highest octet first. Bit 8 of the first octet is the sign: 127 is 7F, 128 is 00 80,
//! -128 is 80.

ghost use Rattle.std.specs.Prelude.{◌≡◌, ◌^◌, ◌<◌, length, false, refl};
ghost use Rattle.std.proofs.Common.{Ok};
ghost use Rattle.std.specs.Cmp.Lexicographic.{bytes_decides};
ghost use Rattle.der_tlv.specs.declared.tag.Tag.TheVariants as tags;
ghost use Rattle.der_elem.specs.Integer.{integer_contents, twos_complement};
ghost use Rattle.der_elem.specs.FormatMakers.{format_of_contents};
ghost use Rattle.der_numbers.specs.AnyLength.{integer_or_fault, parse_integer, TakesContents, KeepsNumber, CopiesContents};
ghost use Rattle.der_numbers.specs.AnyLengthLaws.{parse_of_integer, integer_of_octets};
ghost use Rattle.der_opaque.specs.Any as owned_any;
ghost use Rattle.der_opaque.specs.AnyRef as borrowed_any;

use crate::int::Int;
use crate::octets::{check_integer, strip_redundant};
use der_elem::{
    ContentsEq, CopyIsDuplicate, DecodeValue, EncodeValue, Form, FormValue, IntegerTag, OneTag,
    OrdIsValueOrd, Tagged,
};
use der_opaque::{Any, AnyRef};
use der_tlv::{BackWriter, Error, ErrorKind, Header, Length, Reader, Source, Tag, Writer};
use std::alloc::Global;

/// An integer of any length, borrowed, with at most 4294967295 contents octets.
///
/// The integer 128 is kept as 00 80, and encoded as 02 02 00 80.
///
/// # Errors
/// Decoding fails on no contents octets and on a redundant first octet
/// (`ErrorKind::Noncanonical`, 8): 00 before an octet below 80, or FF before one of 80 or more.
#[derive(Clone, Copy, Debug, PartialEq, Eq, PartialOrd, Ord)]
pub struct IntRef<'a> {
    pub(crate) octets: &'a [u8],
    ghost some: { 0 < length octets.now },
    ghost fewest: { octets.now ≡ integer_contents (twos_complement octets.now) },
    ghost short: { length octets.now < 2 ^ 32 },
}

impl<'a> IntRef<'a> {
    ghost use Rattle.der_numbers.specs.Int as owned;
    ghost use Rattle.der_numbers.specs.IntRef.{contents_of};

    /// Creates the integer whose two's complement is `octets`, and keeps the fewest octets.
    ///
    /// # Errors
    /// `ErrorKind::Length` (7) for no octets, or if the fewest are more than 4294967295.
    pub fn new(octets: &'a [u8]) -> Result<IntRef<'a>, Error>
        ensures { KeepsNumber contents_of octets.now
            (integer_contents (twos_complement octets.now)) result }
    {
        if octets.is_empty() {
            return Err(Error::from_kind(Tag::Integer.length_error()));
        }
        let octets = strip_redundant(octets);
        match Length::of(octets.len()) {
            Ok(_) => Ok(IntRef { octets }),
            Err(_) => Err(Error::from_kind(Tag::Integer.length_error())),
        }
    }

    /// Creates the integer that has these contents octets.
    ///
    /// # Errors
    /// `ErrorKind::Noncanonical` (8) for no octets, or a redundant first octet.
    fn from_contents(octets: &'a [u8]) -> Result<IntRef<'a>, ErrorKind>
        requires { length octets.now < 2 ^ 32 }
        ensures { TakesContents contents_of integer_or_fault octets.now result }
    {
        match check_integer(octets) {
            Ok(()) => Ok(IntRef { octets }),
            Err(kind) => Err(kind),
        }
    }

    /// Returns the contents octets: the two's complement in the fewest octets.
    pub fn as_bytes(self) -> &'a [u8]
        ensures contents { result.now ≡ contents_of self.entry }
        ensures fewest { result.now ≡ integer_contents (twos_complement result.now) }
    {
        self.octets
    }

    /// Returns the number of contents octets.
    pub fn len(self) -> Length
        ensures { result ≡ length (contents_of self.entry) }
    {
        Length::new(self.octets.len() as u32)
    }

    /// Returns `false`: each integer has contents octets.
    pub fn is_empty(self) -> bool
        ensures { result ≡ false }
    {
        self.octets.is_empty()
    }

    /// Copies the integer.
    ///
    /// # Errors
    /// `ErrorKind::Memory` (1) if memory runs out.
    pub fn ref_to_owned(self, alloc: Global) -> Result<Int, Error>
        ensures { CopiesContents owned.contents_of (contents_of self.entry) result }
    {
        let octets = self.octets.to_vec(alloc)?;
        Ok(Int { octets })
    }
}

impl<'a> FormValue for IntRef<'a> {
    ghost use Rattle.der_numbers.specs.IntRef.{contents_of};

    ghost value = { format_of_contents contents_of parse_integer (λ rules v p. parse_of_integer v.octets.now v.octets.now v.fewest refl) integer_of_octets };
}

impl<'a> OneTag for IntRef<'a> {
    type Marker = IntegerTag;
}

impl<'a, R: Source<'a>> DecodeValue<'a, R> for IntRef<'a> {
    ghost TAKES_MEMORY = { false };

    const TAKES_MEMORY: bool = false;

    fn decode_value(_alloc: Global, reader: &mut R, header: Header) -> Result<IntRef<'a>, Error> {
        let octets = reader.read_slice(header.length)?;
        match IntRef::from_contents(octets) {
            Ok(integer) => Ok(integer),
            Err(kind) => Err(reader.error(kind)),
        }
    }

    ghost takes_memory_is = { refl };
}

impl<'a> EncodeValue for IntRef<'a> {
    fn value_len(&self) -> Result<Length, Error> {
        Ok(self.len())
    }

    fn encode_value<W: Writer>(&self, writer: &mut W) -> Result<(), Error> {
        writer.write(self.octets)
    }

    fn encode_value_back<W: BackWriter>(&self, writer: &mut W) -> Result<(), Error> {
        writer.put(self.octets);
        Ok(())
    }
}

impl<'a> OrdIsValueOrd for IntRef<'a> {
    ghost ord_is_value_ord = { λ v w. refl };
}

impl<'a> ContentsEq for IntRef<'a> {
    ghost contents_eq = { λ v w one. bytes_decides v.octets.now w.octets.now };
}

impl<'a> CopyIsDuplicate for IntRef<'a> {}

/// A value that can be borrowed as an integer.
pub trait AsIntRef: FormValue {
    ghost use Rattle.der_numbers.specs.IntRef.{contents_of};

    /// Borrows the integer.
    fn as_int_ref(&self) -> IntRef<'_>
        ensures { contents_of result ≡ Self.value.contents self.now };
}

impl<'a> AsIntRef for IntRef<'a> {
    fn as_int_ref(&self) -> IntRef<'_> {
        *self
    }
}

impl<'a, 'b> From<&'b IntRef<'a>> for IntRef<'a> {
    ghost use Rattle.der_numbers.specs.IntRef.{contents_of};

    ghost from_gives = { λ v w. contents_of w ≡ contents_of v.now };

    fn from(integer: &'b IntRef<'a>) -> IntRef<'a> {
        *integer
    }
}

impl<'a> TryFrom<AnyRef<'a>> for IntRef<'a> {
    ghost use Rattle.der_numbers.specs.IntRef.{DecodesInteger};

    type Error = Error;

    ghost try_from_gives = { λ a r. DecodesInteger (borrowed_any.tag_of a)
        (borrowed_any.contents_of a) r };

    /// # Errors
    /// (4) with no expected tag for another tag; (8) for no contents octets, or a redundant first
    /// octet.
    fn try_from(any: AnyRef<'a>) -> Result<IntRef<'a>, Error> {
        if !any.tag().equals(Tag::Integer) {
            return Err(Error::from_kind(any.tag().unexpected_error(None)));
        }
        match IntRef::from_contents(any.value()) {
            Ok(integer) => Ok(integer),
            Err(kind) => Err(Error::from_kind(kind)),
        }
    }
}

impl<'a> TryFrom<&'a Any> for IntRef<'a> {
    ghost use Rattle.der_numbers.specs.IntRef.{DecodesInteger};

    type Error = Error;

    ghost try_from_gives = { λ a r. DecodesInteger (owned_any.tag_of a.now)
        (owned_any.contents_of a.now) r };

    /// # Errors
    /// (4) with no expected tag for another tag; (8) for no contents octets, or a redundant first
    /// octet.
    fn try_from(any: &'a Any) -> Result<IntRef<'a>, Error> {
        IntRef::try_from(any.to_ref())
    }
}
