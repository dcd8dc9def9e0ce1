//! Borrowed strings whose characters have one octet each (X.680 41, X.690 8.23).
//!
//! The contents octets are the characters: the PrintableString `hi` is encoded as 13 02 68 69.
//! Reading refuses any octet that is no character of the type (`ErrorKind::Value`, 13).

ghost use Rattle.std.specs.Prelude.{◌≡◌, ◌↔◌, ◌^◌, ◌<◌, [], Some, length, true, refl, IsTrue, IfOk, IfErr, false};
ghost use Rattle.std.specs.Cmp.Lexicographic.{bytes_decides};
ghost use Rattle.der_tlv.specs.declared.error.ErrorKind.TheVariants as kinds;
ghost use Rattle.der_elem.specs.FormatMakers.{format_of_contents};
ghost use Rattle.der_ascii.specs.Characters.{are_characters, string_tag, parse_string, KeepsString};
ghost use Rattle.der_ascii.specs.StringLaws.{parse_of_characters, characters_of_octets};
ghost use Rattle.der_opaque.specs.Any as owned_any;
ghost use Rattle.der_opaque.specs.AnyRef as borrowed_any;

use crate::characters::{string_tag, text_of};
use crate::string::CharacterString;
use crate::string_tag::CharacterStringTag;
use der_elem::{
    ContentsEq, CopyIsDuplicate, DecodeValue, EncodeValue, Form, FormValue, OneTag, OrdIsValueOrd,
    Tagged,
};
use der_opaque::{Any, AnyRef};
use der_tlv::{BackWriter, Error, Header, Length, Reader, Source, Writer};
use std::alloc::Global;
use std::fmt;

/// Characters of the type with a universal number, borrowed: at most 4294967295 octets.
#[derive(Clone, Copy, PartialEq, Eq, PartialOrd, Ord, Hash)]
pub struct CharacterStringRef<'a, const NUMBER: u8> {
    pub(crate) text: &'a str,
    ghost short: { length text.now < 2 ^ 32 },
    ghost characters: { are_characters NUMBER text.now ≡ true },
}

impl<'a, const NUMBER: u8> CharacterStringRef<'a, NUMBER> {
    ghost use Rattle.der_ascii.specs.CharacterString as owned;
    ghost use Rattle.der_ascii.specs.CharacterStringRef.{octets_of};

    /// Makes a string of these characters.
    ///
    /// # Errors
    /// `ErrorKind::Value` (13) for an octet that is no character of the type, and for more than
    /// 4294967295 octets.
    pub fn new(octets: &'a [u8]) -> Result<CharacterStringRef<'a, NUMBER>, Error>
        ensures { KeepsString octets_of NUMBER octets.now result }
    {
        match text_of(NUMBER, octets) {
            Ok(text) => match Length::of(octets.len()) {
                Ok(_) => Ok(CharacterStringRef { text }),
                Err(_) => Err(Error::from_kind(string_tag(NUMBER).value_error())),
            },
            Err(kind) => Err(Error::from_kind(kind)),
        }
    }

    /// Returns the text.
    pub fn as_str(self) -> &'a str
        ensures { result.now ≡ octets_of self.entry }
    {
        self.text
    }

    /// Returns the octets.
    pub fn as_bytes(self) -> &'a [u8]
        ensures { result.now ≡ octets_of self.entry }
    {
        self.text.as_bytes()
    }

    /// Returns the number of octets.
    pub fn len(self) -> Length
        ensures { result ≡ length (octets_of self.entry) }
    {
        Length::new(self.text.len() as u32)
    }

    /// Returns whether the string is empty.
    pub fn is_empty(self) -> bool
        ensures { IsTrue result ↔ (octets_of self.entry ≡ []) }
    {
        self.as_bytes().is_empty()
    }

    /// Returns a copy of the string.
    ///
    /// # Errors
    /// `ErrorKind::Memory` (1) if memory runs out.
    pub fn ref_to_owned(self, alloc: Global) -> Result<CharacterString<NUMBER>, Error>
        ensures value { IfOk result (λ s. owned.octets_of s ≡ octets_of self.entry) }
        ensures err { IfErr result (λ e. e.kind ≡ kinds.Memory) }
    {
        let text = String::from_str(alloc, self.text)?;
        Ok(CharacterString { text })
    }
}

impl<'a, const NUMBER: u8> fmt::Display for CharacterStringRef<'a, NUMBER> {
    ghost output = { λ s. Some s.text.now };

    fn fmt<W: fmt::Write>(&self, f: &mut fmt::Formatter<W>) -> fmt::Result {
        f.write_str(self.text)
    }
}

impl<'a, const NUMBER: u8> fmt::Debug for CharacterStringRef<'a, NUMBER> {
    fn fmt<W: fmt::Write>(&self, f: &mut fmt::Formatter<W>) -> fmt::Result {
        write!(f, "{:?}({:?})", string_tag(NUMBER), self.text)
    }
}

impl<'a, const NUMBER: u8> FormValue for CharacterStringRef<'a, NUMBER> {
    ghost use Rattle.der_ascii.specs.CharacterStringRef.{octets_of};

    ghost value = { format_of_contents octets_of (parse_string NUMBER) (λ rules v p. parse_of_characters NUMBER rules p v.text.now v.text.now v.characters refl) (characters_of_octets NUMBER) };
}

impl<'a, const NUMBER: u8> OneTag for CharacterStringRef<'a, NUMBER> {
    type Marker = CharacterStringTag<NUMBER>;
}

impl<'a, R: Source<'a>, const NUMBER: u8> DecodeValue<'a, R> for CharacterStringRef<'a, NUMBER> {
    ghost TAKES_MEMORY = { false };

    const TAKES_MEMORY: bool = false;

    fn decode_value(
        _alloc: Global,
        reader: &mut R,
        header: Header,
    ) -> Result<CharacterStringRef<'a, NUMBER>, Error> {
        let octets = reader.read_slice(header.length)?;
        match text_of(NUMBER, octets) {
            Ok(text) => Ok(CharacterStringRef { text }),
            Err(kind) => Err(reader.error(kind)),
        }
    }

    ghost takes_memory_is = { refl };
}

impl<'a, const NUMBER: u8> EncodeValue for CharacterStringRef<'a, NUMBER> {
    fn value_len(&self) -> Result<Length, Error> {
        Ok(self.len())
    }

    fn encode_value<W: Writer>(&self, writer: &mut W) -> Result<(), Error> {
        writer.write(self.as_bytes())
    }

    fn encode_value_back<W: BackWriter>(&self, writer: &mut W) -> Result<(), Error> {
        writer.put(self.as_bytes());
        Ok(())
    }
}

impl<'a, const NUMBER: u8> OrdIsValueOrd for CharacterStringRef<'a, NUMBER> {
    ghost ord_is_value_ord = { λ v w. refl };
}

impl<'a, const NUMBER: u8> ContentsEq for CharacterStringRef<'a, NUMBER> {
    ghost contents_eq = { λ v w one. bytes_decides v.text.now w.text.now };
}

impl<'a, const NUMBER: u8> CopyIsDuplicate for CharacterStringRef<'a, NUMBER> {}

impl<'a, const NUMBER: u8> From<&CharacterStringRef<'a, NUMBER>>
    for CharacterStringRef<'a, NUMBER> {
    ghost use Rattle.der_ascii.specs.CharacterStringRef.{octets_of};

    ghost from_gives = { λ s r. octets_of r ≡ octets_of s.now };

    fn from(string: &CharacterStringRef<'a, NUMBER>) -> CharacterStringRef<'a, NUMBER> {
        *string
    }
}

impl<'a, const NUMBER: u8> From<CharacterStringRef<'a, NUMBER>> for AnyRef<'a> {
    ghost use Rattle.der_ascii.specs.CharacterStringRef.{octets_of};

    ghost from_gives = { λ s a. (borrowed_any.tag_of a ≡ string_tag NUMBER)
        × (borrowed_any.contents_of a ≡ octets_of s) };

    fn from(string: CharacterStringRef<'a, NUMBER>) -> AnyRef<'a> {
        match AnyRef::new(string_tag(NUMBER), string.as_bytes()) {
            Ok(any) => any,
            Err(_) => unreachable!(),
        }
    }
}

impl<'a, const NUMBER: u8> From<CharacterStringRef<'a, NUMBER>> for &'a [u8] {
    ghost use Rattle.der_ascii.specs.CharacterStringRef.{octets_of};

    ghost from_gives = { λ s o. o.now ≡ octets_of s };

    fn from(string: CharacterStringRef<'a, NUMBER>) -> &'a [u8] {
        string.as_bytes()
    }
}

impl<'a, const NUMBER: u8> TryFrom<AnyRef<'a>> for CharacterStringRef<'a, NUMBER> {
    ghost use Rattle.der_ascii.specs.CharacterStringRef.{DecodesCharacters};

    type Error = Error;

    ghost try_from_gives = { λ a r. DecodesCharacters NUMBER (borrowed_any.tag_of a)
        (borrowed_any.contents_of a) r };

    /// # Errors
    /// (4) with no expected tag for any other tag; (13) for an octet that is no character of the
    /// type.
    fn try_from(any: AnyRef<'a>) -> Result<CharacterStringRef<'a, NUMBER>, Error> {
        let tag = any.tag();
        if !tag.equals(string_tag(NUMBER)) {
            return Err(Error::from_kind(tag.unexpected_error(None)));
        }
        match CharacterStringRef::new(any.value()) {
            Ok(string) => Ok(string),
            Err(e) => Err(e),
        }
    }
}

impl<'a, const NUMBER: u8> TryFrom<&'a Any> for CharacterStringRef<'a, NUMBER> {
    ghost use Rattle.der_ascii.specs.CharacterStringRef.{DecodesCharacters};

    type Error = Error;

    ghost try_from_gives = { λ a r. DecodesCharacters NUMBER (owned_any.tag_of a.now)
        (owned_any.contents_of a.now) r };

    /// # Errors
    /// (4) with no expected tag for any other tag; (13) for an octet that is no character of the
    /// type.
    fn try_from(any: &'a Any) -> Result<CharacterStringRef<'a, NUMBER>, Error> {
        CharacterStringRef::try_from(any.to_ref())
    }
}
