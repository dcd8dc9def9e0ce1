//! Borrowed BIT STRING (X.690 8.6, 11.2.1).
//!
//! The tag is 03. The contents octets are the number of unused bits of the last octet, 0 to 7,
//! and then the octets of the bits. The first bit is the highest of the first octet. A string of
//! no bits has no octets of bits, and the number 0. The unused bits are the lowest of the last
//! octet, and are zero.
//!
//! Decoding fails on no contents octets (9), then on more than 7 unused bits, or more than 0 if
//! there is no octet (`ErrorKind::Value`, 13), then on an unused bit that is not zero
//! (`ErrorKind::Noncanonical`, 8).

ghost use Rattle.std.specs.Prelude.{◌≡◌, ◌≢◌, ◌↔◌, MatchResult, MatchOption, ◌^◌, ◌<◌, ◌≤◌, [], ◌∷◌, length, true, refl, IsTrue, IfOk, IfErr, Some, None, false};
ghost use Rattle.std.proofs.Common.{◌∙◌};
ghost use Rattle.std.specs.Cmp.{on_per, on_equiv, on_total, partial_equiv_from_equiv};
ghost use Rattle.std.specs.Cmp.Lexicographic.{nat_list_cmp_total, texts_ties};
ghost use Rattle.der_tlv.specs.declared.error.ErrorKind.TheVariants as kinds;
ghost use Rattle.der_tlv.specs.declared.tag.Tag.TheVariants as tags;
ghost use Rattle.der_tlv.specs.Octets.{lex};
ghost use Rattle.der_elem.specs.FormatMakers.{format_of_contents};
ghost use Rattle.der_bits.specs.BitString.{AreOctets, can_be_unused, are_zero, parse_bit_string, unused_count, bit_octets, bit_count, bit, bits, same_bits, KeepsBits, KeepsAll, ParsedAs, FillsArray};
ghost use Rattle.der_bits.specs.BitStringLaws.{parse_of_bits, bits_of_octets};
ghost use Rattle.der_bits.specs.EqualBitsLaws.{same_tests, contents_decided, bit_lists_equiv, bits_po};
ghost use Rattle.der_opaque.specs.Any as owned_any;
ghost use Rattle.der_opaque.specs.AnyRef as borrowed_any;

use crate::bit_string::BitString;
use crate::bit_string_iter::BitStringIter;
use crate::unused_bits::{are_zero, can_be_unused};
use der_elem::{
    BitStringTag, ContentsEq, CopyIsDuplicate, DecodeValue, EncodeValue, Form, FormValue, OneTag,
    Tagged, ValueOrd,
};
use der_opaque::{Any, AnyRef};
use der_tlv::{BackWriter, Error, ErrorKind, Header, Length, Reader, Source, Tag, Writer};
use std::alloc::Global;
use std::cmp::Ordering;

/// The bits of a BIT STRING, borrowed: the octets that hold them, at most 4294967295, and the
/// number of unused bits of the last octet.
///
/// The bits 011011100101110111 are encoded as 03 04 06 6E 5D C0.
#[derive(Clone, Copy, Debug)]
pub struct BitStringRef<'a> {
    pub(crate) unused: u8,
    pub(crate) octets: &'a [u8],
    ghost possible: { can_be_unused unused octets.now ≡ true },
    ghost zero: { are_zero unused octets.now ≡ true },
    ghost short: { length octets.now < 2 ^ 32 },
    ghost octet: { AreOctets octets.now },
}

impl<'a> BitStringRef<'a> {
    ghost use Rattle.der_bits.specs.OwnedBitString as owned;
    ghost use Rattle.der_bits.specs.BitStringRef.{contents_of};

    /// Creates a bit string from `octets` without the lowest `unused_bits` of the last octet,
    /// which must be zero.
    ///
    /// # Errors
    /// `ErrorKind::Value` (13) for more than 7 unused bits, or more than 0 if there is no octet,
    /// and for an unused bit that is not zero; `ErrorKind::Length` (7) for more than 4294967295
    /// octets. `ErrorKind::Overflow` (9) cannot occur, since a `usize` of 64 bits can count the
    /// bits.
    pub fn new(unused_bits: u8, octets: &'a [u8]) -> Result<BitStringRef<'a>, Error>
        ensures { KeepsBits contents_of unused_bits octets.now result }
    {
        if !can_be_unused(unused_bits, octets) || !are_zero(unused_bits, octets) {
            return Err(Error::from_kind(Tag::BitString.value_error()));
        }
        match Length::of(octets.len()) {
            Ok(_) => Ok(BitStringRef {
                unused: unused_bits,
                octets,
            }),
            Err(_) => Err(Error::from_kind(Tag::BitString.length_error())),
        }
    }

    /// Creates a bit string from all bits of these octets.
    ///
    /// # Errors
    /// `ErrorKind::Length` (7) for more than 4294967295 octets.
    pub fn from_bytes(octets: &'a [u8]) -> Result<BitStringRef<'a>, Error>
        ensures { KeepsAll contents_of octets.now result }
    {
        BitStringRef::new(0, octets)
    }

    /// Returns the number of unused bits of the last octet.
    pub fn unused_bits(self) -> u8
        ensures value { result ≡ unused_count (contents_of self.entry) }
        ensures bounded { result ≤ 7 }
    {
        self.unused
    }

    /// Returns whether there are unused bits.
    pub fn has_unused_bits(self) -> bool
        ensures { IsTrue result ↔ (unused_count (contents_of self.entry) ≢ 0) }
    {
        self.unused != 0
    }

    /// Returns the number of bits.
    pub fn bit_len(self) -> usize
        ensures { result ≡ bit_count (contents_of self.entry) }
    {
        8 * self.octets.len() - self.unused as usize
    }

    /// Returns the number of octets of the bits.
    pub fn byte_len(self) -> Length
        ensures { result ≡ length (bit_octets (contents_of self.entry)) }
    {
        Length::new(self.octets.len() as u32)
    }

    /// Returns whether there are no bits.
    pub fn is_empty(self) -> bool
        ensures { IsTrue result ↔ (bit_octets (contents_of self.entry) ≡ []) }
    {
        self.raw_bytes().is_empty()
    }

    /// Returns the octets of the bits, if none of their bits is unused.
    pub fn as_bytes(self) -> Option<&'a [u8]>
        ensures { MatchOption result (unused_count (contents_of self.entry) ≢ 0) (λ octets.
            contents_of self.entry ≡ 0 ∷ octets.now) }
    {
        if self.has_unused_bits() {
            return None;
        }
        Some(self.octets)
    }

    /// Returns the octets of the bits, including the unused bits, which are zero.
    pub fn raw_bytes(self) -> &'a [u8]
        ensures octets { result.now ≡ bit_octets (contents_of self.entry) }
        ensures zero { are_zero (unused_count (contents_of self.entry)) result.now ≡ true }
    {
        self.octets
    }

    /// Returns the bits, each once and in order.
    pub fn bits(self) -> BitStringIter<'a>
        ensures { result ≡ bits (contents_of self.entry) }
    {
        BitStringIter {
            string: self,
            position: 0,
        }
    }

    /// Returns the bit at this position, or `None` at and past the end.
    pub fn get(self, position: usize) -> Option<bool>
        ensures inside { position < bit_count (contents_of self.entry)
            → result ≡ Some (bit (contents_of self.entry) position) }
        ensures outside { bit_count (contents_of self.entry) ≤ position → result ≡ None }
    {
        if position >= self.bit_len() {
            return None;
        }
        let octet = self.octets[position / 8];
        Some((octet >> (7 - position % 8)) & 1 == 1)
    }

    /// Copies the octets of the bits into a vector.
    ///
    /// # Errors
    /// `ErrorKind::Value` (13) if there are unused bits; `ErrorKind::Memory` (1) if memory runs
    /// out.
    pub fn to_vec(self, alloc: Global) -> Result<Vec<u8>, Error>
        ensures value { IfOk result (λ octets. contents_of self.entry ≡ 0 ∷ octets.items) }
        ensures unused { unused_count (contents_of self.entry) ≢ 0 → IfErr result (λ e.
            e.kind ≡ kinds.Value tags.BitString) }
        ensures err { unused_count (contents_of self.entry) ≡ 0 → IfErr result (λ e.
            e.kind ≡ kinds.Memory) }
    {
        if self.has_unused_bits() {
            return Err(Error::from_kind(Tag::BitString.value_error()));
        }
        Ok(self.octets.to_vec(alloc)?)
    }

    /// Copies the string.
    ///
    /// # Errors
    /// `ErrorKind::Memory` (1) if memory runs out.
    pub fn ref_to_owned(self, alloc: Global) -> Result<BitString, Error>
        ensures value { IfOk result (λ s. owned.contents_of s ≡ contents_of self.entry) }
        ensures err { IfErr result (λ e. e.kind ≡ kinds.Memory) }
    {
        let octets = self.octets.to_vec(alloc)?;
        Ok(BitString {
            unused: self.unused,
            octets,
        })
    }

    /// Creates the bit string with these contents octets, or returns their first error.
    pub(crate) fn of_contents(contents: &'a [u8]) -> Result<BitStringRef<'a>, ErrorKind>
        requires { length contents.now < 2 ^ 32 }
        ensures { ParsedAs contents_of contents.now result }
    {
        let Some((unused, octets)) = contents.split_first() else {
            return Err(ErrorKind::Overflow);
        };
        if !can_be_unused(*unused, octets) {
            return Err(Tag::BitString.value_error());
        }
        if !are_zero(*unused, octets) {
            return Err(Tag::BitString.non_canonical_error());
        }
        Ok(BitStringRef {
            unused: *unused,
            octets,
        })
    }
}

impl<'a> FormValue for BitStringRef<'a> {
    ghost use Rattle.der_bits.specs.BitStringRef.{contents_of};

    ghost value = { format_of_contents contents_of parse_bit_string (λ rules v p. parse_of_bits v.unused v.octets.now v.possible v.zero rules p (v.unused ∷ v.octets.now) refl) bits_of_octets };
}

impl<'a> OneTag for BitStringRef<'a> {
    type Marker = BitStringTag;
}

impl<'a, R: Source<'a>> DecodeValue<'a, R> for BitStringRef<'a> {
    ghost TAKES_MEMORY = { false };

    const TAKES_MEMORY: bool = false;

    fn decode_value(
        _alloc: Global,
        reader: &mut R,
        header: Header,
    ) -> Result<BitStringRef<'a>, Error> {
        let contents = reader.read_slice(header.length)?;
        match BitStringRef::of_contents(contents) {
            Ok(string) => Ok(string),
            Err(kind) => Err(reader.error(kind)),
        }
    }

    ghost takes_memory_is = { refl };
}

impl<'a> EncodeValue for BitStringRef<'a> {
    fn value_len(&self) -> Result<Length, Error> {
        self.byte_len().add(Length::ONE)
    }

    #[inline(always)]
    fn encode_value<W: Writer>(&self, writer: &mut W) -> Result<(), Error> {
        match writer.write_byte(self.unused) {
            Ok(()) => writer.write(self.octets),
            Err(e) => Err(e),
        }
    }

    fn encode_value_back<W: BackWriter>(&self, writer: &mut W) -> Result<(), Error> {
        writer.put(self.octets);
        writer.put(&[self.unused]);
        Ok(())
    }
}

impl<'a> PartialEq for BitStringRef<'a> {
    ghost eq = { λ v w. same_bits (v.unused ∷ v.octets.now) (w.unused ∷ w.octets.now) };

    ghost laws = { on_per (λ v. bits (v.unused ∷ v.octets.now))
        (partial_equiv_from_equiv bit_lists_equiv) };

    /// Returns whether the two have the same bits. Since unused bits are zero, they then have the
    /// same contents octets.
    fn eq(&self, other: &BitStringRef<'a>) -> bool {
        self.unused == other.unused && self.octets == other.octets
    }
}

impl<'a> Eq for BitStringRef<'a> {
    ghost laws = { on_equiv (λ v. bits (v.unused ∷ v.octets.now)) bit_lists_equiv };
}

impl<'a> PartialOrd for BitStringRef<'a> {
    ghost use Rattle.der_bits.specs.BitStringRef.{contents_of};

    ghost partial_cmp = { λ v w. Some (lex (v.unused ∷ v.octets.now) (w.unused ∷ w.octets.now)) };

    ghost laws = { bits_po contents_of (λ v w. same_tests v.unused w.unused v.octets.now
        w.octets.now v.possible v.zero w.possible w.zero v.octet w.octet) };

    fn partial_cmp(&self, other: &BitStringRef<'a>) -> Option<Ordering> {
        Some(self.cmp(other))
    }
}

impl<'a> Ord for BitStringRef<'a> {
    ghost use Rattle.der_bits.specs.BitStringRef.{contents_of};

    ghost cmp = { λ v w. lex (v.unused ∷ v.octets.now) (w.unused ∷ w.octets.now) };

    ghost total = { on_total contents_of nat_list_cmp_total };

    ghost matches_partial_cmp = { λ v w. refl };

    ghost matches_eq = { λ v w. same_tests v.unused w.unused v.octets.now w.octets.now v.possible
        v.zero w.possible w.zero v.octet w.octet ∙ texts_ties (v.unused ∷ v.octets.now)
        (w.unused ∷ w.octets.now) };

    /// Compares the contents octets lexicographically: the number of unused bits decides first.
    fn cmp(&self, other: &BitStringRef<'a>) -> Ordering {
        self.unused
            .cmp(&other.unused)
            .then(self.octets.cmp(other.octets))
    }
}

impl<'a> ValueOrd for BitStringRef<'a> {
    fn value_cmp(&self, other: &BitStringRef<'a>) -> Result<Ordering, Error> {
        Ok(self.cmp(other))
    }
}

impl<'a> ContentsEq for BitStringRef<'a> {
    ghost contents_eq = { λ v w one.
        contents_decided (v.unused ∷ v.octets.now) (w.unused ∷ w.octets.now) (same_tests v.unused
        w.unused v.octets.now w.octets.now v.possible v.zero w.possible w.zero v.octet w.octet) };
}

impl<'a> CopyIsDuplicate for BitStringRef<'a> {}

impl<'a> TryFrom<&'a [u8]> for BitStringRef<'a> {
    ghost use Rattle.der_bits.specs.BitStringRef.{contents_of};

    type Error = Error;

    ghost try_from_gives = { λ b r. KeepsAll contents_of b.now r };

    fn try_from(octets: &'a [u8]) -> Result<BitStringRef<'a>, Error> {
        BitStringRef::from_bytes(octets)
    }
}

impl<'a, 'b> TryFrom<&'b &'a [u8]> for BitStringRef<'a> {
    ghost use Rattle.der_bits.specs.BitStringRef.{contents_of};

    type Error = Error;

    ghost try_from_gives = { λ b r. KeepsAll contents_of b.now.now r };

    fn try_from(octets: &'b &'a [u8]) -> Result<BitStringRef<'a>, Error> {
        BitStringRef::from_bytes(*octets)
    }
}

impl<'a> TryFrom<&'a Vec<u8>> for BitStringRef<'a> {
    ghost use Rattle.der_bits.specs.BitStringRef.{contents_of};

    type Error = Error;

    ghost try_from_gives = { λ b r. KeepsAll contents_of b.now.items r };

    fn try_from(octets: &'a Vec<u8>) -> Result<BitStringRef<'a>, Error> {
        BitStringRef::from_bytes(octets)
    }
}

impl<'a, const N: usize> TryFrom<&'a [u8; N]> for BitStringRef<'a> {
    ghost use Rattle.der_bits.specs.BitStringRef.{contents_of};

    type Error = Error;

    ghost try_from_gives = { λ b r. KeepsAll contents_of b.now r };

    fn try_from(octets: &'a [u8; N]) -> Result<BitStringRef<'a>, Error> {
        BitStringRef::from_bytes(octets)
    }
}

impl<'a> TryFrom<BitStringRef<'a>> for &'a [u8] {
    ghost use Rattle.der_bits.specs.BitStringRef.{contents_of};

    type Error = Error;

    ghost try_from_gives = { λ s r. MatchResult r (λ b. contents_of s ≡ 0 ∷ b.now) (λ e.
        (e.kind ≡ kinds.Value tags.BitString) × (unused_count (contents_of s) ≢ 0)) };

    /// # Errors
    /// (13) if there are unused bits.
    fn try_from(string: BitStringRef<'a>) -> Result<&'a [u8], Error> {
        match string.as_bytes() {
            Some(octets) => Ok(octets),
            None => Err(Error::from_kind(Tag::BitString.value_error())),
        }
    }
}

impl<'a, const N: usize> TryFrom<BitStringRef<'a>> for [u8; N] {
    ghost use Rattle.der_bits.specs.BitStringRef.{contents_of};

    type Error = Error;

    ghost try_from_gives = { λ s r. FillsArray N (contents_of s) r };

    /// # Errors
    /// (13) if there are unused bits; (7) for another number of octets.
    fn try_from(string: BitStringRef<'a>) -> Result<[u8; N], Error> {
        if string.has_unused_bits() {
            return Err(Error::from_kind(Tag::BitString.value_error()));
        }
        if string.octets.len() != N {
            return Err(Error::from_kind(Tag::BitString.length_error()));
        }
        let mut octets = [0; N];
        octets.copy_from_slice(string.octets);
        Ok(octets)
    }
}

impl<'a, 'b> From<&'b BitStringRef<'a>> for BitStringRef<'a> {
    ghost use Rattle.der_bits.specs.BitStringRef.{contents_of};

    ghost from_gives = { λ s r. contents_of r ≡ contents_of s.now };

    fn from(string: &'b BitStringRef<'a>) -> BitStringRef<'a> {
        *string
    }
}

impl<'a> TryFrom<AnyRef<'a>> for BitStringRef<'a> {
    ghost use Rattle.der_bits.specs.BitStringRef.{DecodesBitString};

    type Error = Error;

    ghost try_from_gives = { λ a r. DecodesBitString (borrowed_any.tag_of a)
        (borrowed_any.contents_of a) r };

    /// # Errors
    /// (4) with no expected tag for another tag; the errors of contents octets in reading order:
    /// (9), `ErrorKind::Value` (13), `ErrorKind::Noncanonical` (8).
    fn try_from(any: AnyRef<'a>) -> Result<BitStringRef<'a>, Error> {
        if !any.tag().equals(Tag::BitString) {
            return Err(Error::from_kind(any.tag().unexpected_error(None)));
        }
        match BitStringRef::of_contents(any.value()) {
            Ok(string) => Ok(string),
            Err(kind) => Err(Error::from_kind(kind)),
        }
    }
}

impl<'a> TryFrom<&'a Any> for BitStringRef<'a> {
    ghost use Rattle.der_bits.specs.BitStringRef.{DecodesBitString};

    type Error = Error;

    ghost try_from_gives = { λ a r. DecodesBitString (owned_any.tag_of a.now)
        (owned_any.contents_of a.now) r };

    /// # Errors
    /// (4) with no expected tag for another tag; the errors of contents octets in reading order:
    /// (9), `ErrorKind::Value` (13), `ErrorKind::Noncanonical` (8).
    fn try_from(any: &'a Any) -> Result<BitStringRef<'a>, Error> {
        BitStringRef::try_from(any.to_ref())
    }
}

/// A bit string, owned or borrowed.
pub trait AsBitStringRef: FormValue {
    ghost use Rattle.der_bits.specs.BitStringRef.{contents_of};

    /// Borrows the bit string.
    fn as_bit_string_ref(&self) -> BitStringRef<'_>
        ensures { contents_of result ≡ Self.value.contents self.now };
}

impl<'a> AsBitStringRef for BitStringRef<'a> {
    fn as_bit_string_ref(&self) -> BitStringRef<'_> {
        *self
    }
}

impl AsBitStringRef for BitString {
    fn as_bit_string_ref(&self) -> BitStringRef<'_> {
        self.owned_to_ref()
    }
}
