//! Borrowed UTF8String (X.690 8.23).
//!
//! The tag is 0C, and the contents octets are the text in UTF-8: `hi` is encoded as 0C 02 68 69.
//! Reading refuses octets that are not UTF-8 (`ErrorKind::Utf8`, 12).

ghost use Rattle.std.specs.Prelude.{◌≡◌, ◌↔◌, ◌^◌, ◌<◌, [], Some, length, true, refl, IsTrue, IfOk, IfErr, false};
ghost use Rattle.std.specs.Cmp.Lexicographic.{bytes_decides};
ghost use Rattle.std.specs.Str.{is_utf8};
ghost use Rattle.std.specs.String.{string_bytes};
ghost use Rattle.der_tlv.specs.declared.error.ErrorKind.TheVariants as kinds;
ghost use Rattle.der_tlv.specs.declared.tag.Tag.TheVariants as tags;
ghost use Rattle.der_elem.specs.Utf8String.{parse_utf8, parse_of_utf8, utf8_of_octets};
ghost use Rattle.der_elem.specs.FormatMakers.{format_of_contents};
ghost use Rattle.der_text.specs.Utf8Octets.{KeepsUtf8, KeepsText};
ghost use Rattle.der_opaque.specs.Any as owned_any;
ghost use Rattle.der_opaque.specs.AnyRef as borrowed_any;

use der_elem::{
    ContentsEq, CopyIsDuplicate, DecodeValue, EncodeValue, Form, FormValue, OneTag, OrdIsValueOrd,
    Tagged, Utf8StringTag, text_of,
};
use der_opaque::{Any, AnyRef};
use der_tlv::{BackWriter, Error, ErrorKind, Header, Length, Reader, Source, Tag, Writer};
use std::alloc::Global;
use std::fmt;

/// A text of at most 4294967295 octets in UTF-8, borrowed.
#[derive(Clone, Copy, PartialEq, Eq, PartialOrd, Ord, Hash)]
pub struct Utf8StringRef<'a> {
    pub(crate) text: &'a str,
    ghost short: { length text.now < 2 ^ 32 },
    ghost utf8: { is_utf8 text.now ≡ true },
}

impl<'a> Utf8StringRef<'a> {
    ghost use Rattle.der_text.specs.Utf8StringRef.{octets_of};

    /// Makes a text of these octets.
    ///
    /// # Errors
    /// `ErrorKind::Utf8` (12) for octets that are not UTF-8; `ErrorKind::Overflow` (9) for more
    /// than 4294967295 octets.
    pub fn new(octets: &'a [u8]) -> Result<Utf8StringRef<'a>, Error>
        ensures { KeepsUtf8 octets_of octets.now result }
    {
        match text_of(octets) {
            Ok(text) => match Length::of(octets.len()) {
                Ok(_) => Ok(Utf8StringRef { text }),
                Err(_) => Err(Error::from_kind(ErrorKind::Overflow)),
            },
            Err(kind) => Err(Error::from_kind(kind)),
        }
    }

    /// Returns the text.
    pub fn as_str(self) -> &'a str
        ensures { result.now ≡ octets_of self.entry }
    {
        self.text
    }

    /// Returns the octets.
    pub fn as_bytes(self) -> &'a [u8]
        ensures { result.now ≡ octets_of self.entry }
    {
        self.text.as_bytes()
    }

    /// Returns the number of octets.
    pub fn len(self) -> Length
        ensures { result ≡ length (octets_of self.entry) }
    {
        Length::new(self.text.len() as u32)
    }

    /// Returns whether the text is empty.
    pub fn is_empty(self) -> bool
        ensures { IsTrue result ↔ (octets_of self.entry ≡ []) }
    {
        self.as_bytes().is_empty()
    }

    /// Returns a copy of the text.
    ///
    /// # Errors
    /// `ErrorKind::Memory` (1) if memory runs out.
    pub fn ref_to_owned(self, alloc: Global) -> Result<String, Error>
        ensures value { IfOk result (λ s. string_bytes s ≡ octets_of self.entry) }
        ensures err { IfErr result (λ e. e.kind ≡ kinds.Memory) }
    {
        Ok(String::from_str(alloc, self.text)?)
    }
}

impl<'a> fmt::Display for Utf8StringRef<'a> {
    ghost use Rattle.der_text.specs.Utf8StringRef.{octets_of};

    ghost output = { λ s. Some (octets_of s) };

    fn fmt<W: fmt::Write>(&self, f: &mut fmt::Formatter<W>) -> fmt::Result {
        f.write_str(self.text)
    }
}

impl<'a> fmt::Debug for Utf8StringRef<'a> {
    fn fmt<W: fmt::Write>(&self, f: &mut fmt::Formatter<W>) -> fmt::Result {
        write!(f, "Utf8String({:?})", self.text)
    }
}

impl<'a> FormValue for Utf8StringRef<'a> {
    ghost use Rattle.der_text.specs.Utf8StringRef.{octets_of};

    ghost value = { format_of_contents octets_of parse_utf8 (λ rules v p. parse_of_utf8 rules p v.text.now v.text.now v.utf8 refl) utf8_of_octets };
}

impl<'a> OneTag for Utf8StringRef<'a> {
    type Marker = Utf8StringTag;
}

impl<'a, R: Source<'a>> DecodeValue<'a, R> for Utf8StringRef<'a> {
    ghost TAKES_MEMORY = { false };

    const TAKES_MEMORY: bool = false;

    fn decode_value(
        _alloc: Global,
        reader: &mut R,
        header: Header,
    ) -> Result<Utf8StringRef<'a>, Error> {
        let octets = reader.read_slice(header.length)?;
        match text_of(octets) {
            Ok(text) => Ok(Utf8StringRef { text }),
            Err(kind) => Err(reader.error(kind)),
        }
    }

    ghost takes_memory_is = { refl };
}

impl<'a> EncodeValue for Utf8StringRef<'a> {
    fn value_len(&self) -> Result<Length, Error> {
        Ok(self.len())
    }

    fn encode_value<W: Writer>(&self, writer: &mut W) -> Result<(), Error> {
        writer.write(self.as_bytes())
    }

    fn encode_value_back<W: BackWriter>(&self, writer: &mut W) -> Result<(), Error> {
        writer.put(self.as_bytes());
        Ok(())
    }
}

impl<'a> OrdIsValueOrd for Utf8StringRef<'a> {
    ghost ord_is_value_ord = { λ v w. refl };
}

impl<'a> ContentsEq for Utf8StringRef<'a> {
    ghost contents_eq = { λ v w one. bytes_decides v.text.now w.text.now };
}

impl<'a> CopyIsDuplicate for Utf8StringRef<'a> {}

impl<'a> From<&Utf8StringRef<'a>> for Utf8StringRef<'a> {
    ghost use Rattle.der_text.specs.Utf8StringRef.{octets_of};

    ghost from_gives = { λ s r. octets_of r ≡ octets_of s.now };

    fn from(string: &Utf8StringRef<'a>) -> Utf8StringRef<'a> {
        *string
    }
}

impl<'a> From<Utf8StringRef<'a>> for AnyRef<'a> {
    ghost use Rattle.der_text.specs.Utf8StringRef.{octets_of};

    ghost from_gives = { λ s a. (borrowed_any.tag_of a ≡ tags.Utf8String)
        × (borrowed_any.contents_of a ≡ octets_of s) };

    fn from(string: Utf8StringRef<'a>) -> AnyRef<'a> {
        match AnyRef::new(Tag::Utf8String, string.as_bytes()) {
            Ok(any) => any,
            Err(_) => unreachable!(),
        }
    }
}

impl<'a> TryFrom<&'a str> for Utf8StringRef<'a> {
    ghost use Rattle.der_text.specs.Utf8StringRef.{octets_of};

    type Error = Error;

    ghost try_from_gives = { λ s r. KeepsText octets_of s.now r };

    /// # Errors
    /// (9) for more than 4294967295 octets.
    #[tactic(auto, using(crate::proofs::Utf8::utf8_tested))]
    fn try_from(text: &'a str) -> Result<Utf8StringRef<'a>, Error> {
        match Length::of(text.as_bytes().len()) {
            Ok(_) => Ok(Utf8StringRef { text }),
            Err(_) => Err(Error::from_kind(ErrorKind::Overflow)),
        }
    }
}

impl<'a> TryFrom<&'a String> for Utf8StringRef<'a> {
    ghost use Rattle.der_text.specs.Utf8StringRef.{octets_of};

    type Error = Error;

    ghost try_from_gives = { λ s r. KeepsText octets_of (string_bytes s.now) r };

    /// # Errors
    /// (9) for more than 4294967295 octets.
    fn try_from(text: &'a String) -> Result<Utf8StringRef<'a>, Error> {
        Utf8StringRef::try_from(text.as_str())
    }
}

impl<'a> TryFrom<AnyRef<'a>> for Utf8StringRef<'a> {
    ghost use Rattle.der_text.specs.Utf8StringRef.{DecodesText};

    type Error = Error;

    ghost try_from_gives = { λ a r. DecodesText (borrowed_any.tag_of a)
        (borrowed_any.contents_of a) r };

    /// # Errors
    /// (4) with no expected tag for any other tag; (12) for octets that are not UTF-8.
    fn try_from(any: AnyRef<'a>) -> Result<Utf8StringRef<'a>, Error> {
        let tag = any.tag();
        if !tag.equals(Tag::Utf8String) {
            return Err(Error::from_kind(tag.unexpected_error(None)));
        }
        match Utf8StringRef::new(any.value()) {
            Ok(string) => Ok(string),
            Err(e) => Err(e),
        }
    }
}

impl<'a> TryFrom<&'a Any> for Utf8StringRef<'a> {
    ghost use Rattle.der_text.specs.Utf8StringRef.{DecodesText};

    type Error = Error;

    ghost try_from_gives = { λ a r. DecodesText (owned_any.tag_of a.now)
        (owned_any.contents_of a.now) r };

    /// # Errors
    /// (4) with no expected tag for any other tag; (12) for octets that are not UTF-8.
    fn try_from(any: &'a Any) -> Result<Utf8StringRef<'a>, Error> {
        Utf8StringRef::try_from(any.to_ref())
    }
}
