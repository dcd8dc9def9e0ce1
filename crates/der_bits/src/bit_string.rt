//! BIT STRING (X.690 8.6, 11.2.1).
//!
//! The tag is 03. The contents octets and the errors of decoding are those of the borrowed form.

ghost use Rattle.std.specs.Prelude.{◌≡◌, ◌≢◌, ◌↔◌, MatchOption, ◌^◌, ◌<◌, ◌≤◌, [], ◌∷◌, length, true, refl, IsTrue, IfOk, IfErr, Some, None};
ghost use Rattle.std.proofs.Common.{◌∙◌, sym};
ghost use Rattle.std.specs.Cmp.{on_per, on_equiv, on_total, partial_equiv_from_equiv};
ghost use Rattle.std.specs.Cmp.Lexicographic.{nat_list_cmp_total, texts_ties};
ghost use Rattle.der_tlv.specs.declared.error.ErrorKind.TheVariants as kinds;
ghost use Rattle.der_tlv.specs.declared.tag.Tag.TheVariants as tags;
ghost use Rattle.der_tlv.specs.Octets.{lex};
ghost use Rattle.der_elem.specs.FormatMakers.{allocating_format};
ghost use Rattle.der_bits.specs.BitString.{AreOctets, can_be_unused, are_zero, parse_bit_string, unused_count, bit_octets, bit_count, bit, bits, same_bits, KeepsBits, KeepsCleared};
ghost use Rattle.der_bits.specs.BitStringLaws.{parse_of_bits, bits_of_octets};
ghost use Rattle.der_bits.specs.EqualBitsLaws.{same_tests, contents_decided, bit_lists_equiv, bits_po};
ghost use Rattle.der_bits.specs.BitStringRef as borrowed;

use crate::bit_string_iter::BitStringIter;
use crate::bit_string_ref::BitStringRef;
use crate::unused_bits::{are_zero, can_be_unused, clear};
use der_elem::{
    BitStringTag, ContentsEq, DecodeValue, DuplicateValue, DuplicateValueIsEqual, EncodeValue,
    FormValue, OneTag, ValueOrd,
};
use der_tlv::{BackWriter, Error, Header, Length, Reader, Source, Tag, Writer};
use std::alloc::{AllocError, Global};
use std::cmp::Ordering;

/// The bits of a BIT STRING: the octets that hold them, at most 4294967295, and the number of
/// unused bits of the last octet.
///
/// The bits 011011100101110111 are encoded as 03 04 06 6E 5D C0.
#[derive(Debug, Drop)]
pub struct BitString {
    pub(crate) unused: u8,
    pub(crate) octets: Vec<u8>,
    ghost possible: { can_be_unused unused octets.items ≡ true },
    ghost zero: { are_zero unused octets.items ≡ true },
    ghost short: { length octets.items < 2 ^ 32 },
    ghost octet: { AreOctets octets.items },
}

impl BitString {
    ghost use Rattle.der_bits.specs.OwnedBitString.{contents_of};

    /// The maximum number of unused bits.
    pub const MAX_UNUSED_BITS: u8 = 7;

    /// Creates a bit string from `octets` without the lowest `unused_bits` of the last octet,
    /// which must be zero.
    ///
    /// # Errors
    /// `ErrorKind::Value` (13) for more than 7 unused bits, or more than 0 if there is no octet,
    /// and for an unused bit that is not zero; `ErrorKind::Length` (7) for more than 4294967295
    /// octets. `ErrorKind::Overflow` (9) cannot occur, since a `usize` of 64 bits can count the
    /// bits.
    pub fn new(unused_bits: u8, octets: Vec<u8>) -> Result<BitString, Error>
        ensures { KeepsBits contents_of unused_bits octets.items result }
    {
        if !can_be_unused(unused_bits, &octets) || !are_zero(unused_bits, &octets) {
            return Err(Error::from_kind(Tag::BitString.value_error()));
        }
        match Length::of(octets.len()) {
            Ok(_) => Ok(BitString {
                unused: unused_bits,
                octets,
            }),
            Err(_) => Err(Error::from_kind(Tag::BitString.length_error())),
        }
    }

    /// Creates a bit string from `octets` without the lowest `unused_bits` of the last octet,
    /// which are set to zero in the vector.
    ///
    /// # Errors
    /// `ErrorKind::Value` (13) for more than 7 unused bits, or more than 0 if there is no octet;
    /// `ErrorKind::Length` (7) for more than 4294967295 octets. `ErrorKind::Overflow` (9) cannot
    /// occur, since a `usize` of 64 bits can count the bits.
    pub fn new_cleared(unused_bits: u8, octets: Vec<u8>) -> Result<BitString, Error>
        ensures { KeepsCleared contents_of unused_bits octets.items result }
    {
        if !can_be_unused(unused_bits, &octets) {
            return Err(Error::from_kind(Tag::BitString.value_error()));
        }
        match Length::of(octets.len()) {
            Ok(_) => {
                let mut octets = octets;
                clear(unused_bits, &mut octets);
                Ok(BitString {
                    unused: unused_bits,
                    octets,
                })
            }
            Err(_) => Err(Error::from_kind(Tag::BitString.length_error())),
        }
    }

    /// Creates a bit string from a copy of all bits of these octets.
    ///
    /// # Errors
    /// `ErrorKind::Length` (7) for more than 4294967295 octets; `ErrorKind::Memory` (1) if memory
    /// runs out.
    pub fn from_bytes(alloc: Global, octets: &[u8]) -> Result<BitString, Error>
        ensures value { IfOk result (λ s. contents_of s ≡ 0 ∷ octets.now) }
        ensures short { length octets.now < 2 ^ 32 → IfErr result (λ e. e.kind ≡ kinds.Memory) }
        ensures long { 2 ^ 32 ≤ length octets.now → IfErr result (λ e.
            e.kind ≡ kinds.Length tags.BitString) }
    {
        match BitStringRef::from_bytes(octets) {
            Ok(string) => string.ref_to_owned(alloc),
            Err(e) => Err(e),
        }
    }

    /// Returns the number of unused bits of the last octet.
    pub fn unused_bits(&self) -> u8
        ensures value { result ≡ unused_count (contents_of self.now) }
        ensures bounded { result ≤ 7 }
    {
        self.unused
    }

    /// Returns whether there are unused bits.
    pub fn has_unused_bits(&self) -> bool
        ensures { IsTrue result ↔ (unused_count (contents_of self.now) ≢ 0) }
    {
        self.unused != 0
    }

    /// Returns the number of bits.
    pub fn bit_len(&self) -> usize
        ensures { result ≡ bit_count (contents_of self.now) }
    {
        self.owned_to_ref().bit_len()
    }

    /// Returns whether there are no bits.
    pub fn is_empty(&self) -> bool
        ensures { IsTrue result ↔ (bit_octets (contents_of self.now) ≡ []) }
    {
        self.raw_bytes().is_empty()
    }

    /// Returns the octets of the bits, if none of their bits is unused.
    pub fn as_bytes(&self) -> Option<&[u8]>
        ensures { MatchOption result (unused_count (contents_of self.now) ≢ 0) (λ octets.
            contents_of self.now ≡ 0 ∷ octets.now) }
    {
        self.owned_to_ref().as_bytes()
    }

    /// Returns the octets of the bits, including the unused bits, which are zero.
    pub fn raw_bytes(&self) -> &[u8]
        ensures octets { result.now ≡ bit_octets (contents_of self.now) }
        ensures zero { are_zero (unused_count (contents_of self.now)) result.now ≡ true }
    {
        &self.octets
    }

    /// Returns the bits, each once and in order.
    pub fn bits(&self) -> BitStringIter<'_>
        ensures { result ≡ bits (contents_of self.now) }
    {
        self.owned_to_ref().bits()
    }

    /// Returns the bit at this position, or `None` at and past the end.
    pub fn get(&self, position: usize) -> Option<bool>
        ensures inside { position < bit_count (contents_of self.now)
            → result ≡ Some (bit (contents_of self.now) position) }
        ensures outside { bit_count (contents_of self.now) ≤ position → result ≡ None }
    {
        self.owned_to_ref().get(position)
    }

    /// Borrows the string.
    pub fn owned_to_ref(&self) -> BitStringRef<'_>
        ensures { borrowed.contents_of result ≡ contents_of self.now }
    {
        BitStringRef {
            unused: self.unused,
            octets: &self.octets,
        }
    }
}

impl Clone for BitString {
    ghost use Rattle.der_bits.specs.OwnedBitString.{contents_of};

    ghost is_clone = { λ v w. contents_of w ≡ contents_of v };

    fn clone(&self) -> Result<BitString, AllocError> {
        let octets = self.octets.clone()?;
        Ok(BitString {
            unused: self.unused,
            octets,
        })
    }
}

impl FormValue for BitString {
    ghost use Rattle.der_bits.specs.OwnedBitString.{contents_of};

    ghost value = { allocating_format contents_of parse_bit_string (λ rules v p. parse_of_bits v.unused v.octets.items v.possible v.zero rules p (v.unused ∷ v.octets.items) refl) bits_of_octets };
}

impl OneTag for BitString {
    type Marker = BitStringTag;
}

impl<'a, R: Source<'a>> DecodeValue<'a, R> for BitString {
    ghost TAKES_MEMORY = { true };

    const TAKES_MEMORY: bool = true;

    /// # Errors
    /// (17) on a failed reader; the first error of the contents octets; else (1) if memory runs
    /// out.
    fn decode_value(alloc: Global, reader: &mut R, header: Header) -> Result<BitString, Error> {
        match BitStringRef::decode_value(alloc, reader, header) {
            Ok(string) => match string.ref_to_owned(alloc) {
                Ok(string) => Ok(string),
                Err(e) => Err(reader.error(e.kind)),
            },
            Err(e) => Err(e),
        }
    }

    ghost takes_memory_is = { refl };
}

impl EncodeValue for BitString {
    fn value_len(&self) -> Result<Length, Error> {
        self.owned_to_ref().value_len()
    }

    fn encode_value<W: Writer>(&self, writer: &mut W) -> Result<(), Error> {
        self.owned_to_ref().encode_value(writer)
    }

    fn encode_value_back<W: BackWriter>(&self, writer: &mut W) -> Result<(), Error> {
        self.owned_to_ref().encode_value_back(writer)
    }
}

impl PartialEq for BitString {
    ghost eq = { λ v w. same_bits (v.unused ∷ v.octets.items) (w.unused ∷ w.octets.items) };

    ghost laws = { on_per (λ v. bits (v.unused ∷ v.octets.items))
        (partial_equiv_from_equiv bit_lists_equiv) };

    /// Returns whether the two have the same bits. Since unused bits are zero, they then have the
    /// same contents octets.
    fn eq(&self, other: &BitString) -> bool {
        self.owned_to_ref() == other.owned_to_ref()
    }
}

impl Eq for BitString {
    ghost laws = { on_equiv (λ v. bits (v.unused ∷ v.octets.items)) bit_lists_equiv };
}

impl PartialOrd for BitString {
    ghost use Rattle.der_bits.specs.OwnedBitString.{contents_of};

    ghost partial_cmp = { λ v w. Some
        (lex (v.unused ∷ v.octets.items) (w.unused ∷ w.octets.items)) };

    ghost laws = { bits_po contents_of (λ v w. same_tests v.unused w.unused v.octets.items
        w.octets.items v.possible v.zero w.possible w.zero v.octet w.octet) };

    fn partial_cmp(&self, other: &BitString) -> Option<Ordering> {
        Some(self.cmp(other))
    }
}

impl Ord for BitString {
    ghost use Rattle.der_bits.specs.OwnedBitString.{contents_of};

    ghost cmp = { λ v w. lex (v.unused ∷ v.octets.items) (w.unused ∷ w.octets.items) };

    ghost total = { on_total contents_of nat_list_cmp_total };

    ghost matches_partial_cmp = { λ v w. refl };

    ghost matches_eq = { λ v w. same_tests v.unused w.unused v.octets.items w.octets.items
        v.possible v.zero w.possible w.zero v.octet w.octet ∙ texts_ties (v.unused ∷ v.octets.items)
        (w.unused ∷ w.octets.items) };

    /// Compares the contents octets lexicographically: the number of unused bits decides first.
    fn cmp(&self, other: &BitString) -> Ordering {
        self.owned_to_ref().cmp(&other.owned_to_ref())
    }
}

impl ValueOrd for BitString {
    fn value_cmp(&self, other: &BitString) -> Result<Ordering, Error> {
        Ok(self.cmp(other))
    }
}

impl ContentsEq for BitString {
    ghost contents_eq = { λ v w one.
        contents_decided (v.unused ∷ v.octets.items) (w.unused ∷ w.octets.items)
        (same_tests v.unused w.unused v.octets.items w.octets.items v.possible v.zero w.possible
        w.zero v.octet w.octet) };
}

impl DuplicateValue for BitString {
    ghost is_copy_value = { λ v w. (w.unused ∷ w.octets.items) ≡ (v.unused ∷ v.octets.items) };

    ghost takes_memory_to_copy_value = { true };

    fn duplicate_value(&self) -> Result<BitString, Error> {
        Ok(self.clone()?)
    }

    ghost copy_contents = { λ v w e. e };

    ghost copy_comparable_value = { λ v w x e f. tt };

    ghost copy_re_reads_value = { λ v w e. refl };
}

impl DuplicateValueIsEqual for BitString {
    ghost copy_value_is_equal = { λ v w e. (contents_decided (v.unused ∷ v.octets.items) (w.unused ∷ w.octets.items)
        (same_tests v.unused w.unused v.octets.items w.octets.items v.possible v.zero w.possible
        w.zero v.octet w.octet)).1 (sym e) };
}

impl<'a> From<&'a BitString> for BitStringRef<'a> {
    ghost use Rattle.der_bits.specs.OwnedBitString.{contents_of};

    ghost from_gives = { λ s r. borrowed.contents_of r ≡ contents_of s.now };

    fn from(string: &'a BitString) -> BitStringRef<'a> {
        string.owned_to_ref()
    }
}
