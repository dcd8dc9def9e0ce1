//! The contents octets of a SEQUENCE, borrowed and not decoded (X.690 8.9).
//!
//! The tag is 30. Any octets are accepted.

ghost use Rattle.std.specs.Prelude.{◌≡◌, ◌^◌, ◌<◌, length, refl, false};
ghost use Rattle.std.proofs.Common.{Ok};
ghost use Rattle.std.specs.Cmp.Lexicographic.{bytes_decides};
ghost use Rattle.der_tlv.specs.declared.tag.Tag.TheVariants as tags;
ghost use Rattle.der_elem.specs.FormatMakers.{format_of_contents};
ghost use Rattle.der_opaque.specs.Opaque.{parse_octets, KeepsOctets};

use der_elem::{
    ContentsEq, CopyIsDuplicate, DecodeValue, EncodeValue, FormValue, OneTag, OrdIsValueOrd,
    Sequence, SequenceTag,
};
use der_tlv::{BackWriter, Error, Header, Length, Reader, Source, Tag, Writer};
use std::alloc::Global;

/// The contents octets of a SEQUENCE, borrowed. There are at most 4294967295 of them.
///
/// The octets FF FF are encoded as 30 02 FF FF. `Ord` is the lexicographic order of the octets.
#[derive(Clone, Copy, Debug, PartialEq, Eq, PartialOrd, Ord, Hash)]
pub struct SequenceRef<'a> {
    octets: &'a [u8],
    ghost short: { length octets.now < 2 ^ 32 },
}

impl<'a> SequenceRef<'a> {
    ghost use Rattle.der_nest.specs.SequenceRef.{octets_of};

    /// Creates a sequence with these contents octets.
    ///
    /// # Errors
    /// `ErrorKind::Length` (7) for more than 4294967295 octets.
    pub fn new(octets: &'a [u8]) -> Result<SequenceRef<'a>, Error>
        ensures { KeepsOctets octets_of tags.Sequence octets.now result }
    {
        match Length::of(octets.len()) {
            Ok(_) => Ok(SequenceRef { octets }),
            Err(_) => Err(Error::from_kind(Tag::Sequence.length_error())),
        }
    }

    /// Returns the contents octets.
    pub fn as_bytes(self) -> &'a [u8]
        ensures { result.now ≡ octets_of self.entry }
    {
        self.octets
    }
}

impl<'a> FormValue for SequenceRef<'a> {
    ghost use Rattle.der_nest.specs.SequenceRef.{octets_of};

    ghost value = { format_of_contents octets_of parse_octets (λ rules v p. refl) (λ rules p c. tt) };
}

impl<'a> OneTag for SequenceRef<'a> {
    type Marker = SequenceTag;
}

impl<'a> Sequence<'a> for SequenceRef<'a> {
    ghost is_sequence = { refl };
}

impl<'a, R: Source<'a>> DecodeValue<'a, R> for SequenceRef<'a> {
    ghost TAKES_MEMORY = { false };

    const TAKES_MEMORY: bool = false;

    fn decode_value(
        _alloc: Global,
        reader: &mut R,
        header: Header,
    ) -> Result<SequenceRef<'a>, Error> {
        let octets = reader.read_slice(header.length)?;
        Ok(SequenceRef { octets })
    }

    ghost takes_memory_is = { refl };
}

impl<'a> EncodeValue for SequenceRef<'a> {
    fn value_len(&self) -> Result<Length, Error> {
        Ok(Length::new(self.octets.len() as u32))
    }

    fn encode_value<W: Writer>(&self, writer: &mut W) -> Result<(), Error> {
        writer.write(self.octets)
    }

    fn encode_value_back<W: BackWriter>(&self, writer: &mut W) -> Result<(), Error> {
        writer.put(self.octets);
        Ok(())
    }
}

impl<'a> OrdIsValueOrd for SequenceRef<'a> {
    ghost ord_is_value_ord = { λ v w. refl };
}

impl<'a> ContentsEq for SequenceRef<'a> {
    ghost contents_eq = { λ v w one. bytes_decides v.octets.now w.octets.now };
}

impl<'a> CopyIsDuplicate for SequenceRef<'a> {}
