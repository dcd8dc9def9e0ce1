//! Strings whose characters have one octet each (X.680 41, X.690 8.23).
//!
//! The contents octets are the characters. Reading refuses any octet that is no character of the
//! type (`ErrorKind::Value`, 13), and then fails if memory runs out (`ErrorKind::Memory`, 1).

ghost use Rattle.std.specs.Prelude.{◌≡◌, ◌↔◌, ◌^◌, ◌<◌, [], Some, length, true, refl, IsTrue};
ghost use Rattle.std.proofs.Common.{sym};
ghost use Rattle.std.specs.Cmp.Lexicographic.{bytes_decides};
ghost use Rattle.std.specs.String.{string_bytes};
ghost use Rattle.der_elem.specs.FormatMakers.{allocating_format};
ghost use Rattle.der_ascii.specs.Characters.{are_characters, string_tag, parse_string, KeepsOwnedString, KeepsString};
ghost use Rattle.der_ascii.specs.StringLaws.{parse_of_characters, characters_of_octets};
ghost use Rattle.der_opaque.specs.AnyRef as borrowed_any;
ghost use Rattle.der_ascii.specs.CharacterStringRef as borrowed;

use crate::characters::{are_characters, string_tag};
use crate::string_ref::CharacterStringRef;
use crate::string_tag::CharacterStringTag;
use der_elem::{
    ContentsEq, DecodeValue, DuplicateValue, DuplicateValueIsEqual, EncodeValue, FormValue, OneTag,
    OrdIsValueOrd, Tagged,
};
use der_opaque::AnyRef;
use der_tlv::{BackWriter, Error, Header, Length, Reader, Source, Writer};
use std::alloc::{AllocError, Global};
use std::fmt;

/// Characters of the type with a universal number: at most 4294967295 octets.
#[derive(Drop, PartialEq, Eq, PartialOrd, Ord, Hash)]
pub struct CharacterString<const NUMBER: u8> {
    pub(crate) text: String,
    ghost short: { length (string_bytes text) < 2 ^ 32 },
    ghost characters: { are_characters NUMBER (string_bytes text) ≡ true },
}

impl<const NUMBER: u8> CharacterString<NUMBER> {
    ghost use Rattle.der_ascii.specs.CharacterString.{octets_of};

    /// Makes a string with a copy of these characters.
    ///
    /// # Errors
    /// `ErrorKind::Value` (13) for an octet that is no character of the type, and for more than
    /// 4294967295 octets; else `ErrorKind::Memory` (1) if memory runs out.
    pub fn new(alloc: Global, octets: &[u8]) -> Result<CharacterString<NUMBER>, Error>
        ensures { KeepsOwnedString octets_of NUMBER octets.now result }
    {
        match CharacterStringRef::<NUMBER>::new(octets) {
            Ok(string) => string.ref_to_owned(alloc),
            Err(e) => Err(e),
        }
    }

    /// Returns the text.
    pub fn as_str(&self) -> &str
        ensures { result.now ≡ octets_of self.now }
    {
        self.text.as_str()
    }

    /// Returns the octets.
    pub fn as_bytes(&self) -> &[u8]
        ensures { result.now ≡ octets_of self.now }
    {
        self.text.as_bytes()
    }

    /// Returns the number of octets.
    pub fn len(&self) -> Length
        ensures { result ≡ length (octets_of self.now) }
    {
        Length::new(self.text.len() as u32)
    }

    /// Returns whether the string is empty.
    pub fn is_empty(&self) -> bool
        ensures { IsTrue result ↔ (octets_of self.now ≡ []) }
    {
        self.as_bytes().is_empty()
    }

    /// Borrows the string.
    pub fn owned_to_ref(&self) -> CharacterStringRef<'_, NUMBER>
        ensures { borrowed.octets_of result ≡ octets_of self.now }
    {
        CharacterStringRef {
            text: self.as_str(),
        }
    }
}

impl<const NUMBER: u8> Clone for CharacterString<NUMBER> {
    ghost use Rattle.der_ascii.specs.CharacterString.{octets_of};

    ghost is_clone = { λ v w. octets_of w ≡ octets_of v };

    fn clone(&self) -> Result<CharacterString<NUMBER>, AllocError> {
        let text = self.text.clone()?;
        Ok(CharacterString { text })
    }
}

impl<const NUMBER: u8> fmt::Display for CharacterString<NUMBER> {
    ghost output = { λ s. Some (string_bytes s.text) };

    fn fmt<W: fmt::Write>(&self, f: &mut fmt::Formatter<W>) -> fmt::Result {
        f.write_str(self.as_str())
    }
}

impl<const NUMBER: u8> fmt::Debug for CharacterString<NUMBER> {
    fn fmt<W: fmt::Write>(&self, f: &mut fmt::Formatter<W>) -> fmt::Result {
        let string = self.owned_to_ref();
        write!(f, "{string:?}")
    }
}

impl<const NUMBER: u8> FormValue for CharacterString<NUMBER> {
    ghost use Rattle.der_ascii.specs.CharacterString.{octets_of};

    ghost value = { allocating_format octets_of (parse_string NUMBER) (λ rules v p. parse_of_characters NUMBER rules p (string_bytes v.text) (string_bytes v.text) v.characters refl) (characters_of_octets NUMBER) };
}

impl<const NUMBER: u8> OneTag for CharacterString<NUMBER> {
    type Marker = CharacterStringTag<NUMBER>;
}

impl<'a, R: Source<'a>, const NUMBER: u8> DecodeValue<'a, R> for CharacterString<NUMBER> {
    ghost TAKES_MEMORY = { true };

    const TAKES_MEMORY: bool = true;

    /// # Errors
    /// (17) on a failed reader; (13) for an octet that is no character; else (1) if memory runs
    /// out.
    fn decode_value(
        alloc: Global,
        reader: &mut R,
        header: Header,
    ) -> Result<CharacterString<NUMBER>, Error> {
        match CharacterStringRef::<NUMBER>::decode_value(alloc, reader, header) {
            Ok(string) => match string.ref_to_owned(alloc) {
                Ok(string) => Ok(string),
                Err(e) => Err(reader.error(e.kind)),
            },
            Err(e) => Err(e),
        }
    }

    ghost takes_memory_is = { refl };
}

impl<const NUMBER: u8> EncodeValue for CharacterString<NUMBER> {
    fn value_len(&self) -> Result<Length, Error> {
        Ok(self.len())
    }

    fn encode_value<W: Writer>(&self, writer: &mut W) -> Result<(), Error> {
        writer.write(self.as_bytes())
    }

    fn encode_value_back<W: BackWriter>(&self, writer: &mut W) -> Result<(), Error> {
        writer.put(self.as_bytes());
        Ok(())
    }
}

impl<const NUMBER: u8> OrdIsValueOrd for CharacterString<NUMBER> {
    ghost ord_is_value_ord = { λ v w. refl };
}

impl<const NUMBER: u8> ContentsEq for CharacterString<NUMBER> {
    ghost contents_eq = { λ v w one. bytes_decides (string_bytes v.text) (string_bytes w.text) };
}

impl<const NUMBER: u8> DuplicateValue for CharacterString<NUMBER> {
    ghost is_copy_value = { λ v w. (string_bytes w.text) ≡ (string_bytes v.text) };

    ghost takes_memory_to_copy_value = { true };

    fn duplicate_value(&self) -> Result<CharacterString<NUMBER>, Error> {
        Ok(self.clone()?)
    }

    ghost copy_contents = { λ v w e. e };

    ghost copy_comparable_value = { λ v w x e f. tt };

    ghost copy_re_reads_value = { λ v w e. refl };
}

impl<const NUMBER: u8> DuplicateValueIsEqual for CharacterString<NUMBER> {
    ghost copy_value_is_equal = { λ v w e. (bytes_decides (string_bytes v.text) (string_bytes w.text)).1 (sym e) };
}

impl<'a, const NUMBER: u8> From<&'a CharacterString<NUMBER>> for CharacterStringRef<'a, NUMBER> {
    ghost use Rattle.der_ascii.specs.CharacterString.{octets_of};

    ghost from_gives = { λ s r. borrowed.octets_of r ≡ octets_of s.now };

    fn from(string: &'a CharacterString<NUMBER>) -> CharacterStringRef<'a, NUMBER> {
        string.owned_to_ref()
    }
}

impl<'a, const NUMBER: u8> From<&'a CharacterString<NUMBER>> for AnyRef<'a> {
    ghost use Rattle.der_ascii.specs.CharacterString.{octets_of};

    ghost from_gives = { λ s a. (borrowed_any.tag_of a ≡ string_tag NUMBER)
        × (borrowed_any.contents_of a ≡ octets_of s.now) };

    fn from(string: &'a CharacterString<NUMBER>) -> AnyRef<'a> {
        AnyRef::from(string.owned_to_ref())
    }
}

impl<const NUMBER: u8> TryFrom<String> for CharacterString<NUMBER> {
    ghost use Rattle.der_ascii.specs.CharacterString.{octets_of};

    type Error = Error;

    ghost try_from_gives = { λ s r. KeepsString octets_of NUMBER (string_bytes s) r };

    /// # Errors
    /// (13) for an octet that is no character of the type, and for more than 4294967295 octets.
    fn try_from(text: String) -> Result<CharacterString<NUMBER>, Error> {
        if !are_characters(NUMBER, text.as_bytes()) {
            return Err(Error::from_kind(string_tag(NUMBER).value_error()));
        }
        match Length::of(text.len()) {
            Ok(_) => Ok(CharacterString { text }),
            Err(_) => Err(Error::from_kind(string_tag(NUMBER).value_error())),
        }
    }
}
