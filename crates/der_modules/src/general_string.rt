//! GeneralString of a module (X.690 8.23): its octets, which are given or read, and have an
//! order.
//!
//! The tag is 1B. The contents octets are kept unchanged: which characters they are depends on
//! escape sequences, and is not checked. `hi` is encoded as 1B 02 68 69.

ghost use Rattle.std.specs.Prelude.{◌≡◌, ◌^◌, ◌<◌, length, refl, false};
ghost use Rattle.std.proofs.Common.{Ok};
ghost use Rattle.std.specs.Cmp.Lexicographic.{bytes_decides};
ghost use Rattle.der_tlv.specs.declared.tag.Tag.TheVariants as tags;
ghost use Rattle.der_elem.specs.FormatMakers.{format_of_contents};
ghost use Rattle.der_opaque.specs.Opaque.{parse_octets, KeepsOctets};

use der_elem::{
    ContentsEq, CopyIsDuplicate, DecodeValue, EncodeValue, FormValue, GeneralStringTag, OneTag,
    OrdIsValueOrd,
};
use der_tlv::{BackWriter, Error, Header, Length, Reader, Source, Tag, Writer};
use std::alloc::Global;

/// The octets of a GeneralString, borrowed: at most 4294967295 octets. Their order is
/// lexicographic.
#[derive(Clone, Copy, Debug, PartialEq, Eq, PartialOrd, Ord)]
pub struct GeneralStringOctets<'a> {
    octets: &'a [u8],
    ghost short: { length octets.now < 2 ^ 32 },
}

impl<'a> GeneralStringOctets<'a> {
    ghost use Rattle.der_modules.specs.GeneralString.{octets_of};

    /// Makes a string of these octets.
    ///
    /// # Errors
    /// `ErrorKind::Length` (7) for more than 4294967295 octets.
    pub fn new(octets: &'a [u8]) -> Result<GeneralStringOctets<'a>, Error>
        ensures { KeepsOctets octets_of tags.GeneralString octets.now result }
    {
        match Length::of(octets.len()) {
            Ok(_) => Ok(GeneralStringOctets { octets }),
            Err(_) => Err(Error::from_kind(Tag::GeneralString.length_error())),
        }
    }

    /// Returns the octets.
    pub fn as_bytes(self) -> &'a [u8]
        ensures { result.now ≡ octets_of self.entry }
    {
        self.octets
    }
}

impl<'a> FormValue for GeneralStringOctets<'a> {
    ghost use Rattle.der_modules.specs.GeneralString.{octets_of};

    ghost value = { format_of_contents octets_of parse_octets (λ rules v p. refl) (λ rules p c. tt) };
}

impl<'a> OneTag for GeneralStringOctets<'a> {
    type Marker = GeneralStringTag;
}

impl<'a, R: Source<'a>> DecodeValue<'a, R> for GeneralStringOctets<'a> {
    ghost TAKES_MEMORY = { false };

    const TAKES_MEMORY: bool = false;

    fn decode_value(
        _alloc: Global,
        reader: &mut R,
        header: Header,
    ) -> Result<GeneralStringOctets<'a>, Error> {
        let octets = reader.read_slice(header.length)?;
        Ok(GeneralStringOctets { octets })
    }

    ghost takes_memory_is = { refl };
}

impl<'a> EncodeValue for GeneralStringOctets<'a> {
    fn value_len(&self) -> Result<Length, Error> {
        Ok(Length::new(self.octets.len() as u32))
    }

    fn encode_value<W: Writer>(&self, writer: &mut W) -> Result<(), Error> {
        writer.write(self.octets)
    }

    fn encode_value_back<W: BackWriter>(&self, writer: &mut W) -> Result<(), Error> {
        writer.put(self.octets);
        Ok(())
    }
}

impl<'a> OrdIsValueOrd for GeneralStringOctets<'a> {
    ghost ord_is_value_ord = { λ v w. refl };
}

impl<'a> ContentsEq for GeneralStringOctets<'a> {
    ghost contents_eq = { λ v w one. bytes_decides v.octets.now w.octets.now };
}

impl<'a> CopyIsDuplicate for GeneralStringOctets<'a> {}
