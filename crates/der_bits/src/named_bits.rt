//! BIT STRING with named bits (X.680 22.7, X.690 8.6, 11.2.2).
//!
//! The tag is 03. The contents octets are those of a BIT STRING without bits at its end that are
//! 0: bits 0 and 2 are encoded as 03 02 05 A0, and no bits as 03 01 00. A bit past the end is 0.
//!
//! Decoding fails, in this order: with the errors of a BIT STRING; on a last bit that is 0
//! (`ErrorKind::Noncanonical`, 8).

ghost use Rattle.std.specs.Prelude.{◌≡◌, ◌≤◌, ◌<◌, ◌^◌, ℕ, ◌∷◌, length, true, false, refl, Ok};
ghost use Rattle.der_elem.specs.FormatMakers.{format_of_contents};
ghost use Rattle.der_bits.specs.BitString.{bit, bit_count};
ghost use Rattle.der_bits.specs.BitStringRef as borrowed;
ghost use Rattle.der_bits.specs.EqualBitsLaws.{same_tests, contents_decided};
ghost use Rattle.der_bits.specs.NamedBits.{ends_in_one, named_bits_or_fault, parse_named_bits};
ghost use Rattle.der_bits.specs.NamedBitsLaws.{named_parsed, named_bits_of_octets};

use crate::bit_string_ref::{AsBitStringRef, BitStringRef};
use crate::trimming::{ends_in_one, is_set, without_zero_octets, zeros_at_end};
use der_elem::{
    BitStringTag, ContentsEq, CopyIsDuplicate, DecodeValue, EncodeValue, FormValue, OneTag,
    ValueOrd,
};
use der_tlv::{BackWriter, Error, ErrorKind, Header, Length, Reader, Source, Tag, Writer};
use std::alloc::Global;
use std::cmp::Ordering;

/// The named bits of a BIT STRING, borrowed, without bits at the end that are 0.
///
/// In a KeyUsage (RFC 5280, 4.2.1.3) keyCertSign (5) and cRLSign (6) are encoded as 03 02 01 06,
/// and decipherOnly (8) with keyAgreement (4) and others as two octets.
///
/// # Errors
/// Decoding fails with the errors of a BIT STRING: on no contents octets (`ErrorKind::Overflow`,
/// 9), on an impossible number of unused bits (`ErrorKind::Value`, 13), on an unused bit that is
/// not zero (`ErrorKind::Noncanonical`, 8); then on a last bit that is 0
/// (`ErrorKind::Noncanonical`, 8).
#[derive(Clone, Copy, Debug, PartialEq, Eq, PartialOrd, Ord)]
pub struct NamedBitsRef<'a> {
    string: BitStringRef<'a>,
    ghost one: { ends_in_one string.unused string.octets.now ≡ true },
}

impl<'a> NamedBitsRef<'a> {
    ghost use Rattle.der_bits.specs.NamedBitsRef.{contents_of, ParsedAsNamed};

    /// Creates the bits of `string`, without the bits at its end that are 0.
    pub fn new(string: BitStringRef<'a>) -> NamedBitsRef<'a>
        ensures same { (place : ℕ) → bit (contents_of result) place
            ≡ bit (borrowed.contents_of string.entry) place }
        ensures trimmed { named_bits_or_fault (contents_of result) ≡ Ok (contents_of result) }
    {
        let octets = without_zero_octets(string.octets);
        let unused = zeros_at_end(octets);
        NamedBitsRef {
            string: BitStringRef { unused, octets },
        }
    }

    /// Returns whether the bit at this position is set. A bit past the end is not set.
    pub fn has(self, place: usize) -> bool
        ensures value { result ≡ bit (contents_of self.entry) place }
        ensures absent { bit_count (contents_of self.entry) ≤ place → result ≡ false }
    {
        is_set(self.string.octets, place)
    }

    /// Returns the bits as a BIT STRING.
    pub fn as_bit_string(self) -> BitStringRef<'a>
        ensures { borrowed.contents_of result ≡ contents_of self.entry }
    {
        self.string
    }

    /// Creates the bits with these contents octets, or returns their first error.
    fn of_contents(contents: &'a [u8]) -> Result<NamedBitsRef<'a>, ErrorKind>
        requires { length contents.now < 2 ^ 32 }
        ensures { ParsedAsNamed contents.now result }
    {
        match BitStringRef::of_contents(contents) {
            Ok(string) if ends_in_one(string.unused, string.octets) => Ok(NamedBitsRef { string }),
            Ok(_) => Err(Tag::BitString.non_canonical_error()),
            Err(kind) => Err(kind),
        }
    }
}

impl<'a> FormValue for NamedBitsRef<'a> {
    ghost use Rattle.der_bits.specs.NamedBitsRef.{contents_of};

    ghost value = { format_of_contents contents_of parse_named_bits (λ rules v p. named_parsed v.string.unused v.string.octets.now v.string.possible v.string.zero v.one) named_bits_of_octets };
}

impl<'a> OneTag for NamedBitsRef<'a> {
    type Marker = BitStringTag;
}

impl<'a, R: Source<'a>> DecodeValue<'a, R> for NamedBitsRef<'a> {
    ghost TAKES_MEMORY = { false };

    const TAKES_MEMORY: bool = false;

    fn decode_value(
        _alloc: Global,
        reader: &mut R,
        header: Header,
    ) -> Result<NamedBitsRef<'a>, Error> {
        let contents = reader.read_slice(header.length)?;
        match NamedBitsRef::of_contents(contents) {
            Ok(named) => Ok(named),
            Err(kind) => Err(reader.error(kind)),
        }
    }

    ghost takes_memory_is = { refl };
}

impl<'a> EncodeValue for NamedBitsRef<'a> {
    fn value_len(&self) -> Result<Length, Error> {
        self.string.value_len()
    }

    fn encode_value<W: Writer>(&self, writer: &mut W) -> Result<(), Error> {
        self.string.encode_value(writer)
    }

    fn encode_value_back<W: BackWriter>(&self, writer: &mut W) -> Result<(), Error> {
        self.string.encode_value_back(writer)
    }
}

impl<'a> ValueOrd for NamedBitsRef<'a> {
    fn value_cmp(&self, other: &NamedBitsRef<'a>) -> Result<Ordering, Error> {
        self.string.value_cmp(&other.string)
    }
}

impl<'a> ContentsEq for NamedBitsRef<'a> {
    ghost contents_eq = { λ v w one.
        contents_decided (v.string.unused ∷ v.string.octets.now) (w.string.unused ∷ w.string.octets.now)
        (same_tests v.string.unused w.string.unused v.string.octets.now w.string.octets.now
        v.string.possible v.string.zero w.string.possible w.string.zero v.string.octet w.string.octet) };
}

impl<'a> CopyIsDuplicate for NamedBitsRef<'a> {}

impl<'a> AsBitStringRef for NamedBitsRef<'a> {
    fn as_bit_string_ref(&self) -> BitStringRef<'_> {
        self.string
    }
}
