//! BMPString (X.690 8.23).
//!
//! The tag is 1E. Each character of the Basic Multilingual Plane is a unit of 16 bits, and the
//! contents octets are the units in their order, high octet first: `hi` is encoded as 1E 04 00 68
//! 00 69. Reading refuses an odd number of octets (`ErrorKind::Length`, 7) and a unit from D800
//! to DFFF (`ErrorKind::Value`, 13), and then fails if memory runs out (`ErrorKind::Memory`, 1).

ghost use Rattle.std.specs.Prelude.{◌≡◌, ◌%◌, ◌^◌, ◌<◌, Some, chars, encode_utf8_all, length, true, refl, IfOk, IfErr};
ghost use Rattle.std.proofs.Common.{sym};
ghost use Rattle.std.specs.Cmp.Lexicographic.{bytes_decides};
ghost use Rattle.der_tlv.specs.declared.error.ErrorKind.TheVariants as kinds;
ghost use Rattle.der_tlv.specs.declared.tag.Tag.TheVariants as tags;
ghost use Rattle.der_tlv.specs.ReaderState.{rest};
ghost use Rattle.der_elem.specs.FormatMakers.{allocating_format};
ghost use Rattle.der_text.specs.BmpUnits.{units, are_bmp_characters, parse_bmp, parse_of_units, KeepsUnits, KeepsCharacters, units_of_octets};

use crate::bmp_iter::{BmpChars, BmpCodepoints};
use crate::bmp_units::{check_units, octets_of};
use der_elem::{
    BmpStringTag, ContentsEq, DecodeValue, DuplicateValue, DuplicateValueIsEqual, EncodeValue,
    FormValue, OneTag, OrdIsValueOrd,
};
use der_tlv::{BackWriter, Error, ErrorKind, Header, Length, Reader, Source, Writer};
use std::alloc::{AllocError, Global};
use std::fmt;

/// Characters from 0 to FFFF, each a unit of 16 bits outside D800 to DFFF, in at most 4294967295
/// octets.
#[derive(Drop, PartialEq, Eq, PartialOrd, Ord)]
pub struct BmpString {
    octets: Vec<u8>,
    ghost short: { length octets.items < 2 ^ 32 },
    ghost even: { length octets.items % 2 ≡ 0 },
    ghost characters: { are_bmp_characters octets.items ≡ true },
}

impl BmpString {
    ghost use Rattle.der_text.specs.BmpString.{octets_of};

    /// Makes a string of the units in these octets, high octet first.
    ///
    /// # Errors
    /// `ErrorKind::Length` (7) for an odd number of octets; `ErrorKind::Value` (13) for a unit from
    /// D800 to DFFF; `ErrorKind::Overflow` (9) for more than 4294967295 octets.
    pub fn from_ucs2(octets: Vec<u8>) -> Result<BmpString, Error>
        ensures { KeepsUnits octets_of octets.items result }
    {
        match check_units(&octets) {
            Ok(()) => match Length::of(octets.len()) {
                Ok(_) => Ok(BmpString { octets }),
                Err(_) => Err(Error::from_kind(ErrorKind::Overflow)),
            },
            Err(kind) => Err(Error::from_kind(kind)),
        }
    }

    /// Makes a string of the characters of a text.
    ///
    /// # Errors
    /// `ErrorKind::Value` (13) for a character above U+FFFF; `ErrorKind::Overflow` (9) for more
    /// than 4294967295 octets; else `ErrorKind::Memory` (1) if memory runs out.
    pub fn from_utf8(alloc: Global, text: &str) -> Result<BmpString, Error>
        ensures { KeepsCharacters octets_of text.now result }
    {
        let octets = octets_of(alloc, text)?;
        Ok(BmpString { octets })
    }

    /// Returns the octets of the units, high octet first.
    pub fn as_bytes(&self) -> &[u8]
        ensures { result.now ≡ octets_of self.now }
    {
        &self.octets
    }

    /// Returns the octets in their vector.
    pub fn into_bytes(self) -> Vec<u8>
        ensures { result.items ≡ octets_of self }
    {
        self.octets
    }

    /// Returns the units of 16 bits, in order.
    pub fn codepoints(&self) -> BmpCodepoints<'_>
        ensures { result ≡ units (octets_of self.now) }
    {
        BmpCodepoints::new(&self.octets)
    }

    /// Returns the characters, in order.
    pub fn chars(&self) -> BmpChars<'_>
        ensures { result ≡ units (octets_of self.now) }
    {
        BmpChars::new(self.codepoints())
    }

    /// Returns a copy of the string.
    ///
    /// # Errors
    /// `ErrorKind::Memory` (1) if memory runs out.
    pub fn clone_from_ref(&self, alloc: Global) -> Result<BmpString, Error>
        ensures value { IfOk result (λ s. octets_of s ≡ octets_of self.now) }
        ensures err { IfErr result (λ e. e.kind ≡ kinds.Memory) }
    {
        let octets = self.octets.to_vec(alloc)?;
        Ok(BmpString { octets })
    }
}

impl fmt::Display for BmpString {
    ghost use Rattle.der_text.specs.BmpString.{octets_of};

    ghost output = { λ s. Some (encode_utf8_all (units (octets_of s))) };

    fn fmt<W: fmt::Write>(&self, f: &mut fmt::Formatter<W>) -> fmt::Result {
        let mut rest = self.chars();
        'characters: while let Some(character) = rest.next() {
            f.write_char(character)?;
        }
        Ok(())
    }
}

impl fmt::Debug for BmpString {
    fn fmt<W: fmt::Write>(&self, f: &mut fmt::Formatter<W>) -> fmt::Result {
        write!(f, "BmpString(\"{self}\")")
    }
}

impl Clone for BmpString {
    ghost use Rattle.der_text.specs.BmpString.{octets_of};

    ghost is_clone = { λ v w. octets_of w ≡ octets_of v };

    fn clone(&self) -> Result<BmpString, AllocError> {
        let octets = self.octets.clone()?;
        Ok(BmpString { octets })
    }
}

impl FormValue for BmpString {
    ghost use Rattle.der_text.specs.BmpString.{octets_of};

    ghost value = { allocating_format octets_of parse_bmp (λ rules v p. parse_of_units rules p v.octets.items v.octets.items v.even v.characters refl) units_of_octets };
}

impl OneTag for BmpString {
    type Marker = BmpStringTag;
}

impl<'a, R: Source<'a>> DecodeValue<'a, R> for BmpString {
    ghost TAKES_MEMORY = { true };

    const TAKES_MEMORY: bool = true;

    /// # Errors
    /// (17) on a failed reader; (7) for an odd number of octets; (13) for a unit from D800 to
    /// DFFF; else (1) if memory runs out.
    fn decode_value(alloc: Global, reader: &mut R, header: Header) -> Result<BmpString, Error> {
        let octets = reader.read_slice(header.length)?;
        match check_units(octets) {
            Ok(()) => match octets.to_vec(alloc) {
                Ok(octets) => Ok(BmpString { octets }),
                Err(_) => Err(reader.error(ErrorKind::Memory)),
            },
            Err(kind) => Err(reader.error(kind)),
        }
    }

    ghost takes_memory_is = { refl };
}

impl EncodeValue for BmpString {
    fn value_len(&self) -> Result<Length, Error> {
        Ok(Length::new(self.octets.len() as u32))
    }

    fn encode_value<W: Writer>(&self, writer: &mut W) -> Result<(), Error> {
        writer.write(self.as_bytes())
    }

    fn encode_value_back<W: BackWriter>(&self, writer: &mut W) -> Result<(), Error> {
        writer.put(self.as_bytes());
        Ok(())
    }
}

impl OrdIsValueOrd for BmpString {
    ghost ord_is_value_ord = { λ v w. refl };
}

impl ContentsEq for BmpString {
    ghost contents_eq = { λ v w one. bytes_decides v.octets.items w.octets.items };
}

impl DuplicateValue for BmpString {
    ghost is_copy_value = { λ v w. w.octets.items ≡ v.octets.items };

    ghost takes_memory_to_copy_value = { true };

    fn duplicate_value(&self) -> Result<BmpString, Error> {
        Ok(self.clone()?)
    }

    ghost copy_contents = { λ v w e. e };

    ghost copy_comparable_value = { λ v w x e f. tt };

    ghost copy_re_reads_value = { λ v w e. refl };
}

impl DuplicateValueIsEqual for BmpString {
    ghost copy_value_is_equal = { λ v w e. (bytes_decides v.octets.items w.octets.items).1 (sym e) };
}
