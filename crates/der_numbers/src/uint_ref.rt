//! Borrowed INTEGER of any length that is not negative (X.690 8.3).
//!
//! The tag is 02. The contents octets are the number in the fewest octets, highest octet first,
//! with a leading 00 if bit 8 of the highest is set: 127 is 7F, 128 is 00 80, 0 is 00.
//!
//! The order of two values is the order of their contents octets, not of the numbers: 128 is
//! before 1, and 255 before 127.

ghost use Rattle.std.specs.Prelude.{◌≡◌, ◌^◌, ◌<◌, nat_eq, length, false, refl, Some};
ghost use Rattle.std.proofs.Common.{Ok};
ghost use Rattle.std.specs.Cmp.{on_per, on_equiv, on_po, on_total, partial_equiv_from_equiv};
ghost use Rattle.std.specs.Cmp.Lexicographic.{pointwise, bytes_decides, nat_list_eq_equiv, nat_list_cmp_total, texts_po, texts_ties};
ghost use Rattle.der_tlv.specs.declared.tag.Tag.TheVariants as tags;
ghost use Rattle.der_tlv.specs.Octets.{lex};
ghost use Rattle.der_elem.specs.Integer.{big_endian_number, with_sign_octet, natural_contents};
ghost use Rattle.der_elem.specs.FormatMakers.{format_of_contents};
ghost use Rattle.der_numbers.specs.AnyLength.{natural_or_fault, parse_natural, has_leading_zero, without_sign_octet, TakesContents, KeepsNatural, CopiesContents};
ghost use Rattle.der_numbers.specs.UnsignedLaws.{parse_of_natural};
ghost use Rattle.der_opaque.specs.Any as owned_any;
ghost use Rattle.der_opaque.specs.AnyRef as borrowed_any;
ghost use Rattle.der_numbers.specs.AnyLengthLaws.{natural_of_octets};

use crate::octets::{check_natural, compare_contents, contents_len, strip_zeros, write_contents};
use crate::uint::Uint;
use der_elem::{
    ContentsEq, CopyIsDuplicate, DecodeValue, EncodeValue, Form, FormValue, IntegerTag, OneTag,
    OrdIsValueOrd, Tagged,
};
use der_opaque::{Any, AnyRef};
use der_tlv::{Error, ErrorKind, Header, Length, Reader, Source, Tag, Writer};
use std::alloc::Global;
use std::cmp::Ordering;

/// A non-negative number of any length, borrowed, with at most 4294967295 octets without leading
/// zeros.
///
/// The number 128 is kept as 80, without leading zeros, and encoded as 02 02 00 80. A number of
/// 4294967295 octets whose first octet is 80 or more has one contents octet more, and so no
/// encoding: writing it fails (`ErrorKind::Overflow`, 9).
///
/// # Errors
/// Decoding fails, in this order: on no contents octets, or 00 before an octet below 80
/// (`ErrorKind::Noncanonical`, 8); on a first octet of 80 or more, which makes the integer
/// negative (`ErrorKind::Value`, 13).
#[derive(Clone, Copy, Debug)]
pub struct UintRef<'a> {
    pub(crate) octets: &'a [u8],
    ghost some: { 0 < length octets.now },
    ghost stripped: { has_leading_zero octets.now ≡ false },
    ghost fewest: { with_sign_octet octets.now ≡ natural_contents (big_endian_number octets.now) },
    ghost short: { length octets.now < 2 ^ 32 },
}

impl<'a> UintRef<'a> {
    ghost use Rattle.der_numbers.specs.Uint as owned;
    ghost use Rattle.der_numbers.specs.UintRef.{contents_of};

    /// Creates the number with these octets, highest octet first.
    ///
    /// # Errors
    /// `ErrorKind::Length` (7) for no octets, or if more than 4294967295 are left without leading
    /// zeros.
    pub fn new(octets: &'a [u8]) -> Result<UintRef<'a>, Error>
        ensures { KeepsNatural contents_of octets.now result }
    {
        if octets.is_empty() {
            return Err(Error::from_kind(Tag::Integer.length_error()));
        }
        let octets = strip_zeros(octets);
        match Length::of(octets.len()) {
            Ok(_) => Ok(UintRef { octets }),
            Err(_) => Err(Error::from_kind(Tag::Integer.length_error())),
        }
    }

    /// Creates the number that has these contents octets.
    ///
    /// # Errors
    /// In this order: no octets, or a 00 before an octet below 80 (`ErrorKind::Noncanonical`, 8);
    /// a first octet of 80 or more (`ErrorKind::Value`, 13).
    #[tactic(auto, using(crate::specs::UnsignedLaws::sign_octet_length))]
    fn from_contents(octets: &'a [u8]) -> Result<UintRef<'a>, ErrorKind>
        requires { length octets.now < 2 ^ 32 }
        ensures { TakesContents contents_of natural_or_fault octets.now result }
    {
        match check_natural(octets) {
            Ok(()) => Ok(UintRef {
                octets: strip_zeros(octets),
            }),
            Err(kind) => Err(kind),
        }
    }

    /// Returns the octets of the number without leading zeros; zero is one 00. The contents
    /// octets are these, with a 00 before them if the first is 80 or more.
    #[tactic(auto, using(crate::specs::UnsignedLaws::without_sign_octet_kept))]
    pub fn as_bytes(self) -> &'a [u8]
        ensures octets { result.now ≡ without_sign_octet (contents_of self.entry) }
        ensures number { contents_of self.entry ≡ natural_contents (big_endian_number result.now) }
    {
        self.octets
    }

    /// Returns the number of octets without leading zeros.
    #[tactic(auto, using(crate::specs::UnsignedLaws::without_sign_octet_kept))]
    pub fn len(self) -> Length
        ensures { result ≡ length (without_sign_octet (contents_of self.entry)) }
    {
        Length::new(self.octets.len() as u32)
    }

    /// Returns `false`: each number has octets.
    pub fn is_empty(self) -> bool
        ensures { result ≡ false }
    {
        self.octets.is_empty()
    }

    /// Copies the number.
    ///
    /// # Errors
    /// `ErrorKind::Memory` (1) if memory runs out.
    pub fn ref_to_owned(self, alloc: Global) -> Result<Uint, Error>
        ensures { CopiesContents owned.contents_of (contents_of self.entry) result }
    {
        let octets = self.octets.to_vec(alloc)?;
        Ok(Uint { octets })
    }
}

impl<'a> FormValue for UintRef<'a> {
    ghost use Rattle.der_numbers.specs.UintRef.{contents_of};

    ghost value = { format_of_contents contents_of parse_natural (λ rules v p. parse_of_natural v.octets.now (with_sign_octet v.octets.now) v.fewest refl) natural_of_octets };
}

impl<'a> OneTag for UintRef<'a> {
    type Marker = IntegerTag;
}

impl<'a, R: Source<'a>> DecodeValue<'a, R> for UintRef<'a> {
    ghost TAKES_MEMORY = { false };

    const TAKES_MEMORY: bool = false;

    fn decode_value(_alloc: Global, reader: &mut R, header: Header) -> Result<UintRef<'a>, Error> {
        let octets = reader.read_slice(header.length)?;
        match UintRef::from_contents(octets) {
            Ok(number) => Ok(number),
            Err(kind) => Err(reader.error(kind)),
        }
    }

    ghost takes_memory_is = { refl };
}

impl<'a> EncodeValue for UintRef<'a> {
    fn value_len(&self) -> Result<Length, Error> {
        contents_len(self.octets)
    }

    fn encode_value<W: Writer>(&self, writer: &mut W) -> Result<(), Error> {
        write_contents(self.octets, writer)
    }
}

impl<'a> PartialEq for UintRef<'a> {
    ghost use Rattle.der_numbers.specs.UintRef.{contents_of};

    ghost eq = { λ v w. pointwise nat_eq (with_sign_octet v.octets.now)
        (with_sign_octet w.octets.now) };

    ghost laws = { on_per contents_of (partial_equiv_from_equiv nat_list_eq_equiv) };

    #[tactic(auto, using(crate::specs::UnsignedLaws::pointwise_contents))]
    fn eq(&self, other: &UintRef<'a>) -> bool {
        self.octets == other.octets
    }
}

impl<'a> Eq for UintRef<'a> {
    ghost use Rattle.der_numbers.specs.UintRef.{contents_of};

    ghost laws = { on_equiv contents_of nat_list_eq_equiv };
}

impl<'a> PartialOrd for UintRef<'a> {
    ghost use Rattle.der_numbers.specs.UintRef.{contents_of};

    ghost partial_cmp = { λ v w. Some
        (lex (with_sign_octet v.octets.now) (with_sign_octet w.octets.now)) };

    ghost laws = { on_po contents_of texts_po };

    fn partial_cmp(&self, other: &UintRef<'a>) -> Option<Ordering> {
        Some(self.cmp(other))
    }
}

impl<'a> Ord for UintRef<'a> {
    ghost use Rattle.der_numbers.specs.UintRef.{contents_of};

    ghost cmp = { λ v w. lex (with_sign_octet v.octets.now) (with_sign_octet w.octets.now) };

    ghost total = { on_total contents_of nat_list_cmp_total };

    ghost matches_partial_cmp = { λ v w. refl };

    ghost matches_eq = { λ v w. texts_ties (with_sign_octet v.octets.now)
        (with_sign_octet w.octets.now) };

    /// Compares the contents octets lexicographically.
    fn cmp(&self, other: &UintRef<'a>) -> Ordering {
        compare_contents(self.octets, other.octets)
    }
}

impl<'a> OrdIsValueOrd for UintRef<'a> {
    ghost ord_is_value_ord = { λ v w. refl };
}

impl<'a> ContentsEq for UintRef<'a> {
    ghost contents_eq = { λ v w one.
        bytes_decides (with_sign_octet v.octets.now) (with_sign_octet w.octets.now) };
}

impl<'a> CopyIsDuplicate for UintRef<'a> {}

/// A value that can be borrowed as a non-negative number.
pub trait AsUintRef: FormValue {
    ghost use Rattle.der_numbers.specs.UintRef.{contents_of};

    /// Borrows the number.
    fn as_uint_ref(&self) -> UintRef<'_>
        ensures { contents_of result ≡ Self.value.contents self.now };
}

impl<'a> AsUintRef for UintRef<'a> {
    fn as_uint_ref(&self) -> UintRef<'_> {
        *self
    }
}

impl<'a, 'b> From<&'b UintRef<'a>> for UintRef<'a> {
    ghost use Rattle.der_numbers.specs.UintRef.{contents_of};

    ghost from_gives = { λ v w. contents_of w ≡ contents_of v.now };

    fn from(number: &'b UintRef<'a>) -> UintRef<'a> {
        *number
    }
}

impl<'a> TryFrom<AnyRef<'a>> for UintRef<'a> {
    ghost use Rattle.der_numbers.specs.UintRef.{DecodesNatural};

    type Error = Error;

    ghost try_from_gives = { λ a r. DecodesNatural (borrowed_any.tag_of a)
        (borrowed_any.contents_of a) r };

    /// # Errors
    /// (4) with no expected tag for another tag; else, in this order: no contents octets, or 00
    /// before an octet below 80 (`ErrorKind::Noncanonical`, 8); a first octet of 80 or more
    /// (`ErrorKind::Value`, 13).
    fn try_from(any: AnyRef<'a>) -> Result<UintRef<'a>, Error> {
        if !any.tag().equals(Tag::Integer) {
            return Err(Error::from_kind(any.tag().unexpected_error(None)));
        }
        match UintRef::from_contents(any.value()) {
            Ok(number) => Ok(number),
            Err(kind) => Err(Error::from_kind(kind)),
        }
    }
}

impl<'a> TryFrom<&'a Any> for UintRef<'a> {
    ghost use Rattle.der_numbers.specs.UintRef.{DecodesNatural};

    type Error = Error;

    ghost try_from_gives = { λ a r. DecodesNatural (owned_any.tag_of a.now)
        (owned_any.contents_of a.now) r };

    /// # Errors
    /// (4) with no expected tag for another tag; else, in this order: no contents octets, or 00
    /// before an octet below 80 (`ErrorKind::Noncanonical`, 8); a first octet of 80 or more
    /// (`ErrorKind::Value`, 13).
    fn try_from(any: &'a Any) -> Result<UintRef<'a>, Error> {
        UintRef::try_from(any.to_ref())
    }
}
