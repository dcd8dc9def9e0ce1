//! RELATIVE-OID, borrowed (X.680 32, X.690 8.20).
//!
//! The contents octets are the arcs, one after another: each is a number in base 128, most
//! significant digit first, with bit 8 set in all its octets except the last. The arcs 8571 and 3
//! are encoded as 0D 03 C2 7B 03. Reading refuses empty contents octets, an arc with a leading
//! 80, and an arc without its last octet (`ErrorKind::Value`, 13).

ghost use Rattle.std.specs.Prelude.{◌≡◌, ◌^◌, ◌<◌, length, true, refl, false};
ghost use Rattle.std.specs.Cmp.Lexicographic.{bytes_decides};
ghost use Rattle.der_elem.specs.FormatMakers.{format_of_contents};
ghost use Rattle.der_modules.specs.Members.{value_member};
ghost use Rattle.der_simple.specs.Arcs.{are_arcs, are_arcs_after, parse_arcs, KeepsArcs, parse_of_arcs, arcs_of_octets};

use crate::tags::RelativeOidTag;
use der_elem::{
    ContentsEq, CopyIsDuplicate, DecodeValue, EncodeValue, FormValue, OneTag, OrdIsValueOrd,
    TagMarker,
};
use der_modules::Member;
use der_tlv::{BackWriter, Error, Header, Length, Reader, Source, Tag, Writer};
use std::alloc::Global;

/// The octets of a RELATIVE-OID, borrowed: at most 4294967295 octets. Their order is
/// lexicographic.
#[derive(Clone, Copy, Debug, PartialEq, Eq, PartialOrd, Ord, Hash)]
pub struct RelativeOidRef<'a> {
    octets: &'a [u8],
    ghost short: { length octets.now < 2 ^ 32 },
    ghost arcs: { are_arcs octets.now ≡ true },
}

/// Returns whether octets are arcs, each with the fewest octets.
#[tactic(auto, unfolding(crate::specs::Arcs::are_arcs_after))]
fn are_arcs_alone(octets: &[u8]) -> bool
    ensures { result ≡ are_arcs_after false octets.now }
{
    let mut has_begun = false;
    let mut left = octets;
    'octets: while let [octet, others @ ..] = left {
        if !has_begun && *octet == 0x80 {
            return false;
        }
        has_begun = *octet >= 0x80;
        left = others;
    }
    !has_begun
}

/// Returns whether octets are one or more arcs, each with the fewest octets.
fn are_arcs(octets: &[u8]) -> bool
    ensures { result ≡ are_arcs octets.now }
{
    !octets.is_empty() && are_arcs_alone(octets)
}

impl<'a> RelativeOidRef<'a> {
    ghost use Rattle.der_simple.specs.RelativeOidRef.{octets_of};

    /// Makes an identifier with these contents octets.
    ///
    /// # Errors
    /// `ErrorKind::Value` (13) for octets that are no arcs, and for more than 4294967295 octets.
    pub fn from_bytes(octets: &'a [u8]) -> Result<RelativeOidRef<'a>, Error>
        ensures { KeepsArcs octets_of octets.now result }
    {
        if !are_arcs(octets) {
            return Err(Error::from_kind(Tag::RelativeOid.value_error()));
        }
        match Length::of(octets.len()) {
            Ok(_) => Ok(RelativeOidRef { octets }),
            Err(_) => Err(Error::from_kind(Tag::RelativeOid.value_error())),
        }
    }

    /// Returns the contents octets.
    pub fn as_bytes(self) -> &'a [u8]
        ensures { result.now ≡ octets_of self.entry }
    {
        self.octets
    }
}

impl<'a> FormValue for RelativeOidRef<'a> {
    ghost use Rattle.der_simple.specs.RelativeOidRef.{octets_of};

    ghost value = { format_of_contents octets_of parse_arcs (λ rules v p. parse_of_arcs rules p v.octets.now v.octets.now v.arcs refl) arcs_of_octets };
}

impl<'a> OneTag for RelativeOidRef<'a> {
    type Marker = RelativeOidTag;
}

impl<'a, R: Source<'a>> DecodeValue<'a, R> for RelativeOidRef<'a> {
    ghost TAKES_MEMORY = { false };

    const TAKES_MEMORY: bool = false;

    fn decode_value(
        _alloc: Global,
        reader: &mut R,
        header: Header,
    ) -> Result<RelativeOidRef<'a>, Error> {
        let octets = reader.read_slice(header.length)?;
        if !are_arcs(octets) {
            return Err(reader.error(Tag::RelativeOid.value_error()));
        }
        Ok(RelativeOidRef { octets })
    }

    ghost takes_memory_is = { refl };
}

impl<'a> EncodeValue for RelativeOidRef<'a> {
    fn value_len(&self) -> Result<Length, Error> {
        Ok(Length::new(self.octets.len() as u32))
    }

    fn encode_value<W: Writer>(&self, writer: &mut W) -> Result<(), Error> {
        writer.write(self.octets)
    }

    fn encode_value_back<W: BackWriter>(&self, writer: &mut W) -> Result<(), Error> {
        writer.put(self.octets);
        Ok(())
    }
}

impl<'a> OrdIsValueOrd for RelativeOidRef<'a> {
    ghost ord_is_value_ord = { λ v w. refl };
}

impl<'a> ContentsEq for RelativeOidRef<'a> {
    ghost contents_eq = { λ v w one. bytes_decides v.octets.now w.octets.now };
}

impl<'a> Member for RelativeOidRef<'a> {
    ghost member = { value_member ⟦<RelativeOidTag as TagMarker>⟧.TAG ⟦<RelativeOidRef<'a> as FormValue>⟧.value ⟦<RelativeOidRef<'a> as PartialEq>⟧.eq (λ v w one. bytes_decides v.octets.now w.octets.now) };
}

impl<'a> CopyIsDuplicate for RelativeOidRef<'a> {}
