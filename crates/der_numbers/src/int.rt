//! INTEGER of any length (X.690 8.3).
//!
//! The tag is 02. The contents octets are the two's complement of the integer in the fewest
//! octets, highest octet first. Bit 8 of the first octet is the sign: 127 is 7F, 128 is 00 80,
//! -128 is 80.

ghost use Rattle.std.specs.Prelude.{◌≡◌, ◌^◌, ◌<◌, length, true, false, refl};
ghost use Rattle.std.proofs.Common.{Ok, sym};
ghost use Rattle.std.specs.Cmp.Lexicographic.{bytes_decides};
ghost use Rattle.der_tlv.specs.declared.tag.Tag.TheVariants as tags;
ghost use Rattle.der_elem.specs.Integer.{integer_contents, twos_complement};
ghost use Rattle.der_elem.specs.FormatMakers.{allocating_format};
ghost use Rattle.der_numbers.specs.AnyLength.{parse_integer, KeepsCopy, CopiesWithinLength};
ghost use Rattle.der_numbers.specs.AnyLengthLaws.{parse_of_integer, integer_of_octets};
ghost use Rattle.der_numbers.specs.IntRef as borrowed;
ghost use Rattle.der_numbers.specs.Uint as unsigned;

use crate::int_ref::{AsIntRef, IntRef};
use crate::octets::{contents_len, is_high};
use crate::uint::Uint;
use der_elem::{
    ContentsEq, DecodeValue, DuplicateValue, DuplicateValueIsEqual, EncodeValue, FormValue,
    IntegerTag, OneTag, OrdIsValueOrd,
};
use der_tlv::{BackWriter, Error, Header, Length, Reader, Source, Tag, VecWriter, Writer};
use std::alloc::{AllocError, Global};

/// An integer of any length, with at most 4294967295 contents octets.
///
/// The integer 128 is kept as 00 80, and encoded as 02 02 00 80.
///
/// # Errors
/// Decoding fails on no contents octets and on a redundant first octet
/// (`ErrorKind::Noncanonical`, 8): 00 before an octet below 80, or FF before one of 80 or more.
#[derive(Debug, Drop, PartialEq, Eq, PartialOrd, Ord)]
pub struct Int {
    pub(crate) octets: Vec<u8>,
    ghost some: { 0 < length octets.items },
    ghost fewest: { octets.items ≡ integer_contents (twos_complement octets.items) },
    ghost short: { length octets.items < 2 ^ 32 },
}

impl Int {
    ghost use Rattle.der_numbers.specs.Int.{contents_of};

    /// Creates the integer whose two's complement is `octets`, and keeps the fewest octets.
    ///
    /// # Errors
    /// `ErrorKind::Length` (7) for no octets, or if the fewest are more than 4294967295; else
    /// `ErrorKind::Memory` (1) if memory runs out.
    pub fn new(alloc: Global, octets: &[u8]) -> Result<Int, Error>
        ensures { KeepsCopy contents_of octets.now
            (integer_contents (twos_complement octets.now)) result }
    {
        match IntRef::new(octets) {
            Ok(integer) => integer.ref_to_owned(alloc),
            Err(e) => Err(e),
        }
    }

    /// Creates the integer with the same value as a `Uint`.
    ///
    /// # Errors
    /// `ErrorKind::Length` (7) if there are more than 4294967295 contents octets, for example for
    /// a number of 4294967295 octets whose first octet is 80 or more; else `ErrorKind::Memory`
    /// (1) if memory runs out.
    pub fn from_uint(alloc: Global, number: Uint) -> Result<Int, Error>
        ensures { CopiesWithinLength contents_of (unsigned.contents_of number) result }
    {
        if !is_high(&number.octets) {
            return Ok(Int {
                octets: number.octets,
            });
        }
        let room = match contents_len(&number.octets) {
            Ok(room) => room,
            Err(_) => return Err(Error::from_kind(Tag::Integer.length_error())),
        };
        let mut writer = VecWriter::with_capacity(alloc, usize::from(room))?;
        number.encode_value(&mut writer)?;
        Ok(Int {
            octets: writer.finish(),
        })
    }

    /// Returns the contents octets: the two's complement in the fewest octets.
    pub fn as_bytes(&self) -> &[u8]
        ensures contents { result.now ≡ contents_of self.now }
        ensures fewest { result.now ≡ integer_contents (twos_complement result.now) }
    {
        self.owned_to_ref().as_bytes()
    }

    /// Returns the number of contents octets.
    pub fn len(&self) -> Length
        ensures { result ≡ length (contents_of self.now) }
    {
        self.owned_to_ref().len()
    }

    /// Returns `false`: each integer has contents octets.
    pub fn is_empty(&self) -> bool
        ensures { result ≡ false }
    {
        self.octets.is_empty()
    }

    /// Borrows the integer.
    pub fn owned_to_ref(&self) -> IntRef<'_>
        ensures { borrowed.contents_of result ≡ contents_of self.now }
    {
        IntRef {
            octets: &self.octets,
        }
    }
}

impl AsIntRef for Int {
    fn as_int_ref(&self) -> IntRef<'_> {
        self.owned_to_ref()
    }
}

impl Clone for Int {
    ghost use Rattle.der_numbers.specs.Int.{contents_of};

    ghost is_clone = { λ v w. contents_of w ≡ contents_of v };

    fn clone(&self) -> Result<Int, AllocError> {
        let octets = self.octets.clone()?;
        Ok(Int { octets })
    }
}

impl FormValue for Int {
    ghost use Rattle.der_numbers.specs.Int.{contents_of};

    ghost value = { allocating_format contents_of parse_integer (λ rules v p. parse_of_integer v.octets.items v.octets.items v.fewest refl) integer_of_octets };
}

impl OneTag for Int {
    type Marker = IntegerTag;
}

impl<'a, R: Source<'a>> DecodeValue<'a, R> for Int {
    ghost TAKES_MEMORY = { true };

    const TAKES_MEMORY: bool = true;

    /// # Errors
    /// (17) on a failed reader; the first error of the contents octets; else (1) if memory runs
    /// out.
    fn decode_value(alloc: Global, reader: &mut R, header: Header) -> Result<Int, Error> {
        match IntRef::decode_value(alloc, reader, header) {
            Ok(integer) => match integer.ref_to_owned(alloc) {
                Ok(integer) => Ok(integer),
                Err(e) => Err(reader.error(e.kind)),
            },
            Err(e) => Err(e),
        }
    }

    ghost takes_memory_is = { refl };
}

impl EncodeValue for Int {
    fn value_len(&self) -> Result<Length, Error> {
        Ok(self.len())
    }

    fn encode_value<W: Writer>(&self, writer: &mut W) -> Result<(), Error> {
        writer.write(self.as_bytes())
    }

    fn encode_value_back<W: BackWriter>(&self, writer: &mut W) -> Result<(), Error> {
        writer.put(self.as_bytes());
        Ok(())
    }
}

impl OrdIsValueOrd for Int {
    ghost ord_is_value_ord = { λ v w. refl };
}

impl ContentsEq for Int {
    ghost contents_eq = { λ v w one. bytes_decides v.octets.items w.octets.items };
}

impl DuplicateValue for Int {
    ghost is_copy_value = { λ v w. w.octets.items ≡ v.octets.items };

    ghost takes_memory_to_copy_value = { true };

    fn duplicate_value(&self) -> Result<Int, Error> {
        Ok(self.clone()?)
    }

    ghost copy_contents = { λ v w e. e };

    ghost copy_comparable_value = { λ v w x e f. tt };

    ghost copy_re_reads_value = { λ v w e. refl };
}

impl DuplicateValueIsEqual for Int {
    ghost copy_value_is_equal = { λ v w e. (bytes_decides v.octets.items w.octets.items).1 (sym e) };
}
