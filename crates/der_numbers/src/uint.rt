//! INTEGER of any length that is not negative (X.690 8.3).
//!
//! The tag is 02. The contents octets are the number in the fewest octets, highest octet first,
//! with a leading 00 if bit 8 of the highest is set: 127 is 7F, 128 is 00 80, 0 is 00.
//!
//! The order of two values is the order of their contents octets, not of the numbers: 128 is
//! before 1, and 255 before 127.

ghost use Rattle.std.specs.Prelude.{◌≡◌, ◌^◌, ◌<◌, nat_eq, length, true, false, refl, Some};
ghost use Rattle.std.proofs.Common.{Ok, ap, sym};
ghost use Rattle.std.specs.Cmp.{on_per, on_equiv, on_po, on_total, partial_equiv_from_equiv};
ghost use Rattle.std.specs.Cmp.Lexicographic.{pointwise, bytes_decides, nat_list_eq_equiv, nat_list_cmp_total, texts_po, texts_ties};
ghost use Rattle.der_tlv.specs.declared.tag.Tag.TheVariants as tags;
ghost use Rattle.der_tlv.specs.Octets.{lex};
ghost use Rattle.der_elem.specs.Integer.{big_endian_number, with_sign_octet, natural_contents};
ghost use Rattle.der_elem.specs.FormatMakers.{allocating_format};
ghost use Rattle.der_numbers.specs.AnyLength.{parse_natural, has_leading_zero, without_sign_octet, KeepsNaturalCopy};
ghost use Rattle.der_numbers.specs.UnsignedLaws.{parse_of_natural};
ghost use Rattle.der_numbers.specs.UintRef as borrowed;
ghost use Rattle.der_numbers.specs.AnyLengthLaws.{natural_of_octets};

use crate::octets::{compare_contents, contents_len, write_contents};
use crate::uint_ref::{AsUintRef, UintRef};
use der_elem::{
    ContentsEq, DecodeValue, DuplicateValue, DuplicateValueIsEqual, EncodeValue, FormValue,
    IntegerTag, OneTag, OrdIsValueOrd,
};
use der_tlv::{Error, Header, Length, Reader, Source, Writer};
use std::alloc::{AllocError, Global};
use std::cmp::Ordering;

/// A non-negative number of any length, with at most 4294967295 octets without leading zeros.
///
/// The number 128 is kept as 80, without leading zeros, and encoded as 02 02 00 80. A number of
/// 4294967295 octets whose first octet is 80 or more has one contents octet more, and so no
/// encoding: writing it fails (`ErrorKind::Overflow`, 9).
///
/// # Errors
/// Decoding fails, in this order: on no contents octets, or 00 before an octet below 80
/// (`ErrorKind::Noncanonical`, 8); on a first octet of 80 or more, which makes the integer
/// negative (`ErrorKind::Value`, 13).
#[derive(Debug, Drop)]
pub struct Uint {
    pub(crate) octets: Vec<u8>,
    ghost some: { 0 < length octets.items },
    ghost stripped: { has_leading_zero octets.items ≡ false },
    ghost fewest: { with_sign_octet octets.items
        ≡ natural_contents (big_endian_number octets.items) },
    ghost short: { length octets.items < 2 ^ 32 },
}

impl Uint {
    ghost use Rattle.der_numbers.specs.Uint.{contents_of};

    /// Creates the number with these octets, highest octet first.
    ///
    /// # Errors
    /// `ErrorKind::Length` (7) for no octets, or if more than 4294967295 are left without leading
    /// zeros; else `ErrorKind::Memory` (1) if memory runs out.
    pub fn new(alloc: Global, octets: &[u8]) -> Result<Uint, Error>
        ensures { KeepsNaturalCopy contents_of octets.now result }
    {
        match UintRef::new(octets) {
            Ok(number) => number.ref_to_owned(alloc),
            Err(e) => Err(e),
        }
    }

    /// Returns the octets of the number without leading zeros; zero is one 00. The contents
    /// octets are these, with a 00 before them if the first is 80 or more.
    pub fn as_bytes(&self) -> &[u8]
        ensures octets { result.now ≡ without_sign_octet (contents_of self.now) }
        ensures number { contents_of self.now ≡ natural_contents (big_endian_number result.now) }
    {
        self.owned_to_ref().as_bytes()
    }

    /// Returns the number of octets without leading zeros.
    pub fn len(&self) -> Length
        ensures { result ≡ length (without_sign_octet (contents_of self.now)) }
    {
        self.owned_to_ref().len()
    }

    /// Returns `false`: each number has octets.
    pub fn is_empty(&self) -> bool
        ensures { result ≡ false }
    {
        self.octets.is_empty()
    }

    /// Borrows the number.
    pub fn owned_to_ref(&self) -> UintRef<'_>
        ensures { borrowed.contents_of result ≡ contents_of self.now }
    {
        UintRef {
            octets: &self.octets,
        }
    }
}

impl AsUintRef for Uint {
    fn as_uint_ref(&self) -> UintRef<'_> {
        self.owned_to_ref()
    }
}

impl Clone for Uint {
    ghost use Rattle.der_numbers.specs.Uint.{contents_of};

    ghost is_clone = { λ v w. contents_of w ≡ contents_of v };

    fn clone(&self) -> Result<Uint, AllocError> {
        let octets = self.octets.clone()?;
        Ok(Uint { octets })
    }
}

impl FormValue for Uint {
    ghost use Rattle.der_numbers.specs.Uint.{contents_of};

    ghost value = { allocating_format contents_of parse_natural (λ rules v p. parse_of_natural v.octets.items (with_sign_octet v.octets.items) v.fewest refl) natural_of_octets };
}

impl OneTag for Uint {
    type Marker = IntegerTag;
}

impl<'a, R: Source<'a>> DecodeValue<'a, R> for Uint {
    ghost TAKES_MEMORY = { true };

    const TAKES_MEMORY: bool = true;

    /// # Errors
    /// (17) on a failed reader; the first error of the contents octets; else (1) if memory runs
    /// out.
    fn decode_value(alloc: Global, reader: &mut R, header: Header) -> Result<Uint, Error> {
        match UintRef::decode_value(alloc, reader, header) {
            Ok(number) => match number.ref_to_owned(alloc) {
                Ok(number) => Ok(number),
                Err(e) => Err(reader.error(e.kind)),
            },
            Err(e) => Err(e),
        }
    }

    ghost takes_memory_is = { refl };
}

impl EncodeValue for Uint {
    fn value_len(&self) -> Result<Length, Error> {
        contents_len(&self.octets)
    }

    fn encode_value<W: Writer>(&self, writer: &mut W) -> Result<(), Error> {
        write_contents(&self.octets, writer)
    }
}

impl PartialEq for Uint {
    ghost use Rattle.der_numbers.specs.Uint.{contents_of};

    ghost eq = { λ v w. pointwise nat_eq (with_sign_octet v.octets.items)
        (with_sign_octet w.octets.items) };

    ghost laws = { on_per contents_of (partial_equiv_from_equiv nat_list_eq_equiv) };

    #[tactic(auto, using(crate::specs::UnsignedLaws::pointwise_contents))]
    fn eq(&self, other: &Uint) -> bool {
        self.octets == other.octets
    }
}

impl Eq for Uint {
    ghost use Rattle.der_numbers.specs.Uint.{contents_of};

    ghost laws = { on_equiv contents_of nat_list_eq_equiv };
}

impl PartialOrd for Uint {
    ghost use Rattle.der_numbers.specs.Uint.{contents_of};

    ghost partial_cmp = { λ v w. Some
        (lex (with_sign_octet v.octets.items) (with_sign_octet w.octets.items)) };

    ghost laws = { on_po contents_of texts_po };

    fn partial_cmp(&self, other: &Uint) -> Option<Ordering> {
        Some(self.cmp(other))
    }
}

impl Ord for Uint {
    ghost use Rattle.der_numbers.specs.Uint.{contents_of};

    ghost cmp = { λ v w. lex (with_sign_octet v.octets.items) (with_sign_octet w.octets.items) };

    ghost total = { on_total contents_of nat_list_cmp_total };

    ghost matches_partial_cmp = { λ v w. refl };

    ghost matches_eq = { λ v w. texts_ties (with_sign_octet v.octets.items)
        (with_sign_octet w.octets.items) };

    /// Compares the contents octets lexicographically.
    fn cmp(&self, other: &Uint) -> Ordering {
        compare_contents(&self.octets, &other.octets)
    }
}

impl OrdIsValueOrd for Uint {
    ghost ord_is_value_ord = { λ v w. refl };
}

impl ContentsEq for Uint {
    ghost contents_eq = { λ v w one.
        bytes_decides (with_sign_octet v.octets.items) (with_sign_octet w.octets.items) };
}

impl DuplicateValue for Uint {
    ghost is_copy_value = { λ v w. w.octets.items ≡ v.octets.items };

    ghost takes_memory_to_copy_value = { true };

    fn duplicate_value(&self) -> Result<Uint, Error> {
        Ok(self.clone()?)
    }

    ghost copy_contents = { λ v w e. ap with_sign_octet e };

    ghost copy_comparable_value = { λ v w x e f. tt };

    ghost copy_re_reads_value = { λ v w e. refl };
}

impl DuplicateValueIsEqual for Uint {
    ghost copy_value_is_equal = { λ v w e. (bytes_decides (with_sign_octet v.octets.items) (with_sign_octet w.octets.items)).1
        (ap with_sign_octet (sym e)) };
}
