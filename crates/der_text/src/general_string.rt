//! Borrowed GeneralString (X.690 8.23).
//!
//! The tag is 1B. The contents octets are kept unchanged: which characters they are depends on
//! escape sequences, and is not checked.

ghost use Rattle.std.specs.Prelude.{◌≡◌, ◌^◌, ◌<◌, length, refl, false};
ghost use Rattle.std.proofs.Common.{Ok};
ghost use Rattle.std.specs.Cmp.Lexicographic.{bytes_decides};
ghost use Rattle.der_elem.specs.FormatMakers.{format_of_contents};
ghost use Rattle.der_opaque.specs.Opaque.{parse_octets};

use der_elem::{
    ContentsEq, CopyIsDuplicate, DecodeValue, EncodeValue, FormValue, GeneralStringTag, OneTag,
};
use der_tlv::{BackWriter, Error, Header, Length, Reader, Source, Writer};
use std::alloc::Global;

/// The octets of a GeneralString, borrowed: at most 4294967295 octets.
///
/// It is only made by reading, and has no order.
#[derive(Clone, Copy, Debug, PartialEq, Eq)]
pub struct GeneralStringRef<'a> {
    octets: &'a [u8],
    ghost short: { length octets.now < 2 ^ 32 },
}

impl<'a> GeneralStringRef<'a> {
    ghost use Rattle.der_text.specs.GeneralStringRef.{octets_of};

    /// Returns the octets.
    pub fn as_bytes(self) -> &'a [u8]
        ensures { result.now ≡ octets_of self.entry }
    {
        self.octets
    }
}

impl<'a> FormValue for GeneralStringRef<'a> {
    ghost use Rattle.der_text.specs.GeneralStringRef.{octets_of};

    ghost value = { format_of_contents octets_of parse_octets (λ rules v p. refl) (λ rules p c. tt) };
}

impl<'a> OneTag for GeneralStringRef<'a> {
    type Marker = GeneralStringTag;
}

impl<'a, R: Source<'a>> DecodeValue<'a, R> for GeneralStringRef<'a> {
    ghost TAKES_MEMORY = { false };

    const TAKES_MEMORY: bool = false;

    fn decode_value(
        _alloc: Global,
        reader: &mut R,
        header: Header,
    ) -> Result<GeneralStringRef<'a>, Error> {
        let octets = reader.read_slice(header.length)?;
        Ok(GeneralStringRef { octets })
    }

    ghost takes_memory_is = { refl };
}

impl<'a> EncodeValue for GeneralStringRef<'a> {
    fn value_len(&self) -> Result<Length, Error> {
        Ok(Length::new(self.octets.len() as u32))
    }

    fn encode_value<W: Writer>(&self, writer: &mut W) -> Result<(), Error> {
        writer.write(self.octets)
    }

    fn encode_value_back<W: BackWriter>(&self, writer: &mut W) -> Result<(), Error> {
        writer.put(self.octets);
        Ok(())
    }
}

impl<'a> ContentsEq for GeneralStringRef<'a> {
    ghost contents_eq = { λ v w one. bytes_decides v.octets.now w.octets.now };
}

impl<'a> CopyIsDuplicate for GeneralStringRef<'a> {}
