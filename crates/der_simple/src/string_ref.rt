//! Borrowed NumericString and VisibleString (X.680 41, X.690 8.23).
//!
//! The contents octets are the characters: the VisibleString `hi` is encoded as 1A 02 68 69.
//! Reading refuses any octet that is no character of the type (`ErrorKind::Value`, 13).

ghost use Rattle.std.specs.Prelude.{◌≡◌, ◌↔◌, ◌^◌, ◌<◌, [], Some, length, true, refl, IsTrue, false};
ghost use Rattle.std.specs.Cmp.Lexicographic.{bytes_decides};
ghost use Rattle.der_elem.specs.FormatMakers.{format_of_contents};
ghost use Rattle.der_modules.specs.Members.{value_member};
ghost use Rattle.der_simple.specs.Characters.{are_simple_characters, parse_simple_string, KeepsString};
ghost use Rattle.der_simple.specs.CharacterLaws.{parse_of_characters, characters_of_octets};

use crate::characters::{string_tag, text_of};
use crate::tags::SimpleStringTag;
use der_elem::{
    ContentsEq, CopyIsDuplicate, DecodeValue, EncodeValue, FormValue, OneTag, OrdIsValueOrd,
    TagMarker,
};
use der_modules::Member;
use der_tlv::{BackWriter, Error, Header, Length, Reader, Source, Writer};
use std::alloc::Global;
use std::fmt;

/// Characters of the type with a universal number, borrowed: at most 4294967295 octets.
#[derive(Clone, Copy, PartialEq, Eq, PartialOrd, Ord, Hash)]
pub struct SimpleStringRef<'a, const NUMBER: u8> {
    text: &'a str,
    ghost short: { length text.now < 2 ^ 32 },
    ghost characters: { are_simple_characters NUMBER text.now ≡ true },
}

impl<'a, const NUMBER: u8> SimpleStringRef<'a, NUMBER> {
    ghost use Rattle.der_simple.specs.SimpleStringRef.{octets_of};

    /// Makes a string of these characters.
    ///
    /// # Errors
    /// `ErrorKind::Value` (13) for an octet that is no character of the type, and for more than
    /// 4294967295 octets.
    pub fn new(octets: &'a [u8]) -> Result<SimpleStringRef<'a, NUMBER>, Error>
        ensures { KeepsString octets_of NUMBER octets.now result }
    {
        match text_of(NUMBER, octets) {
            Ok(text) => match Length::of(octets.len()) {
                Ok(_) => Ok(SimpleStringRef { text }),
                Err(_) => Err(Error::from_kind(string_tag(NUMBER).value_error())),
            },
            Err(kind) => Err(Error::from_kind(kind)),
        }
    }

    /// Returns the text.
    pub fn as_str(self) -> &'a str
        ensures { result.now ≡ octets_of self.entry }
    {
        self.text
    }

    /// Returns the octets.
    pub fn as_bytes(self) -> &'a [u8]
        ensures { result.now ≡ octets_of self.entry }
    {
        self.text.as_bytes()
    }

    /// Returns the number of octets.
    pub fn len(self) -> Length
        ensures { result ≡ length (octets_of self.entry) }
    {
        Length::new(self.text.len() as u32)
    }

    /// Returns whether the string is empty.
    pub fn is_empty(self) -> bool
        ensures { IsTrue result ↔ (octets_of self.entry ≡ []) }
    {
        self.as_bytes().is_empty()
    }
}

impl<'a, const NUMBER: u8> fmt::Display for SimpleStringRef<'a, NUMBER> {
    ghost output = { λ s. Some s.text.now };

    fn fmt<W: fmt::Write>(&self, f: &mut fmt::Formatter<W>) -> fmt::Result {
        f.write_str(self.text)
    }
}

impl<'a, const NUMBER: u8> fmt::Debug for SimpleStringRef<'a, NUMBER> {
    fn fmt<W: fmt::Write>(&self, f: &mut fmt::Formatter<W>) -> fmt::Result {
        write!(f, "{:?}({:?})", string_tag(NUMBER), self.text)
    }
}

impl<'a, const NUMBER: u8> FormValue for SimpleStringRef<'a, NUMBER> {
    ghost use Rattle.der_simple.specs.SimpleStringRef.{octets_of};

    ghost value = { format_of_contents octets_of (parse_simple_string NUMBER) (λ rules v p. parse_of_characters NUMBER rules p v.text.now v.text.now v.characters refl) (characters_of_octets NUMBER) };
}

impl<'a, const NUMBER: u8> OneTag for SimpleStringRef<'a, NUMBER> {
    type Marker = SimpleStringTag<NUMBER>;
}

impl<'a, R: Source<'a>, const NUMBER: u8> DecodeValue<'a, R> for SimpleStringRef<'a, NUMBER> {
    ghost TAKES_MEMORY = { false };

    const TAKES_MEMORY: bool = false;

    fn decode_value(
        _alloc: Global,
        reader: &mut R,
        header: Header,
    ) -> Result<SimpleStringRef<'a, NUMBER>, Error> {
        let octets = reader.read_slice(header.length)?;
        match text_of(NUMBER, octets) {
            Ok(text) => Ok(SimpleStringRef { text }),
            Err(kind) => Err(reader.error(kind)),
        }
    }

    ghost takes_memory_is = { refl };
}

impl<'a, const NUMBER: u8> EncodeValue for SimpleStringRef<'a, NUMBER> {
    fn value_len(&self) -> Result<Length, Error> {
        Ok(self.len())
    }

    fn encode_value<W: Writer>(&self, writer: &mut W) -> Result<(), Error> {
        writer.write(self.as_bytes())
    }

    fn encode_value_back<W: BackWriter>(&self, writer: &mut W) -> Result<(), Error> {
        writer.put(self.as_bytes());
        Ok(())
    }
}

impl<'a, const NUMBER: u8> OrdIsValueOrd for SimpleStringRef<'a, NUMBER> {
    ghost ord_is_value_ord = { λ v w. refl };
}

impl<'a, const NUMBER: u8> ContentsEq for SimpleStringRef<'a, NUMBER> {
    ghost contents_eq = { λ v w one. bytes_decides v.text.now w.text.now };
}

impl<'a, const NUMBER: u8> Member for SimpleStringRef<'a, NUMBER> {
    ghost member = { value_member ⟦<SimpleStringTag<NUMBER> as TagMarker>⟧.TAG ⟦<SimpleStringRef<'a, NUMBER> as FormValue>⟧.value ⟦<SimpleStringRef<'a, NUMBER> as PartialEq>⟧.eq (λ v w one. bytes_decides v.text.now w.text.now) };
}

impl<'a, const NUMBER: u8> CopyIsDuplicate for SimpleStringRef<'a, NUMBER> {}
