//! Borrowed OCTET STRING (X.690 8.7).
//!
//! The tag is 04, and the contents octets are the octets of the string.

ghost use Rattle.std.specs.Prelude.{◌≡◌, ◌≢◌, ◌↔◌, MatchResult, ◌^◌, ◌<◌, [], length, refl, IsTrue, IfOk, IfErr, false};
ghost use Rattle.std.proofs.Common.{Ok};
ghost use Rattle.der_tlv.specs.declared.error.ErrorKind.TheVariants as kinds;
ghost use Rattle.der_tlv.specs.declared.tag.Tag.TheVariants as tags;
ghost use Rattle.std.specs.Cmp.Lexicographic.{bytes_decides};
ghost use Rattle.der_elem.specs.Decoding.{ReadsAll};
ghost use Rattle.der_elem.specs.FormatMakers.{format_of_contents};
ghost use Rattle.der_opaque.specs.Opaque.{parse_octets, KeepsOctets};
ghost use Rattle.der_opaque.specs.Any as owned_any;
ghost use Rattle.der_opaque.specs.AnyRef.{tag_of, contents_of};

use crate::any::Any;
use crate::any_ref::AnyRef;
use crate::octet_string::OctetString;
use der_elem::{
    ContentsEq, CopyIsDuplicate, DecodeValue, EncodeValue, Form, FormValue, FromDer,
    OctetStringTag, OneTag, OrdIsValueOrd, Tagged,
};
use der_tlv::{BackWriter, Error, Header, Length, Reader, Source, Tag, Writer};
use std::alloc::Global;

/// The octets of an OCTET STRING, borrowed. There are at most 4294967295 of them.
///
/// The octets 01 02 are encoded as 04 02 01 02.
#[derive(Clone, Copy, Debug, PartialEq, Eq, PartialOrd, Ord, Hash)]
pub struct OctetStringRef<'a> {
    pub(crate) octets: &'a [u8],
    ghost short: { length octets.now < 2 ^ 32 },
}

impl<'a> OctetStringRef<'a> {
    ghost use Rattle.der_opaque.specs.OctetStringRef.{octets_of};
    ghost use Rattle.der_opaque.specs.OctetString as owned;

    /// Creates a string of these octets.
    ///
    /// # Errors
    /// `ErrorKind::Length` (7) for more than 4294967295 octets.
    pub fn new(octets: &'a [u8]) -> Result<OctetStringRef<'a>, Error>
        ensures { KeepsOctets octets_of tags.OctetString octets.now result }
    {
        match Length::of(octets.len()) {
            Ok(_) => Ok(OctetStringRef { octets }),
            Err(_) => Err(Error::from_kind(Tag::OctetString.length_error())),
        }
    }

    /// Returns the octets.
    pub fn as_bytes(self) -> &'a [u8]
        ensures { result.now ≡ octets_of self.entry }
    {
        self.octets
    }

    /// Returns the number of octets.
    pub fn len(self) -> Length
        ensures { result ≡ length (octets_of self.entry) }
    {
        Length::new(self.octets.len() as u32)
    }

    /// Returns whether there are no octets.
    pub fn is_empty(self) -> bool
        ensures { IsTrue result ↔ (octets_of self.entry ≡ []) }
    {
        self.as_bytes().is_empty()
    }

    /// Decodes the octets as a value of the type, under DER.
    ///
    /// # Errors
    /// The first error of the octets, in reading order; `ErrorKind::TrailingData` (3) if octets
    /// are left over; `ErrorKind::Memory` (1) if the type takes memory and none is left.
    pub fn decode_into<T: FromDer<'a>>(self, alloc: Global) -> Result<T, Error>
        ensures { ReadsAll T.Form (octets_of self.entry) result }
    {
        T::from_der(alloc, self.octets)
    }

    /// Copies the octets into a vector.
    ///
    /// # Errors
    /// `ErrorKind::Memory` (1) if memory runs out.
    pub fn to_vec(self, alloc: Global) -> Result<Vec<u8>, Error>
        ensures value { IfOk result (λ octets. octets.items ≡ octets_of self.entry) }
        ensures err { IfErr result (λ e. e.kind ≡ kinds.Memory) }
    {
        Ok(self.octets.to_vec(alloc)?)
    }

    /// Copies the string.
    ///
    /// # Errors
    /// `ErrorKind::Memory` (1) if memory runs out.
    pub fn ref_to_owned(self, alloc: Global) -> Result<OctetString, Error>
        ensures value { IfOk result (λ s. owned.octets_of s ≡ octets_of self.entry) }
        ensures err { IfErr result (λ e. e.kind ≡ kinds.Memory) }
    {
        let octets = self.to_vec(alloc)?;
        Ok(OctetString { octets })
    }
}

impl<'a> FormValue for OctetStringRef<'a> {
    ghost use Rattle.der_opaque.specs.OctetStringRef.{octets_of};

    ghost value = { format_of_contents octets_of parse_octets (λ rules v p. refl) (λ rules p c. tt) };
}

impl<'a> OneTag for OctetStringRef<'a> {
    type Marker = OctetStringTag;
}

impl<'a, R: Source<'a>> DecodeValue<'a, R> for OctetStringRef<'a> {
    ghost TAKES_MEMORY = { false };

    const TAKES_MEMORY: bool = false;

    fn decode_value(
        _alloc: Global,
        reader: &mut R,
        header: Header,
    ) -> Result<OctetStringRef<'a>, Error> {
        let octets = reader.read_slice(header.length)?;
        Ok(OctetStringRef { octets })
    }

    ghost takes_memory_is = { refl };
}

impl<'a> EncodeValue for OctetStringRef<'a> {
    fn value_len(&self) -> Result<Length, Error> {
        Ok(self.len())
    }

    fn encode_value<W: Writer>(&self, writer: &mut W) -> Result<(), Error> {
        writer.write(self.octets)
    }

    fn encode_value_back<W: BackWriter>(&self, writer: &mut W) -> Result<(), Error> {
        writer.put(self.octets);
        Ok(())
    }
}

impl<'a> OrdIsValueOrd for OctetStringRef<'a> {
    ghost ord_is_value_ord = { λ v w. refl };
}

impl<'a> ContentsEq for OctetStringRef<'a> {
    ghost contents_eq = { λ v w one. bytes_decides v.octets.now w.octets.now };
}

impl<'a> CopyIsDuplicate for OctetStringRef<'a> {}

impl<'a> TryFrom<&'a [u8]> for OctetStringRef<'a> {
    ghost use Rattle.der_opaque.specs.OctetStringRef.{octets_of};

    type Error = Error;

    ghost try_from_gives = { λ b r. KeepsOctets octets_of tags.OctetString b.now r };

    fn try_from(octets: &'a [u8]) -> Result<OctetStringRef<'a>, Error> {
        OctetStringRef::new(octets)
    }
}

impl<'a> TryFrom<&'a Vec<u8>> for OctetStringRef<'a> {
    ghost use Rattle.der_opaque.specs.OctetStringRef.{octets_of};

    type Error = Error;

    ghost try_from_gives = { λ b r. KeepsOctets octets_of tags.OctetString b.now.items r };

    fn try_from(octets: &'a Vec<u8>) -> Result<OctetStringRef<'a>, Error> {
        OctetStringRef::new(octets)
    }
}

impl<'a, const N: usize> TryFrom<&'a [u8; N]> for OctetStringRef<'a> {
    ghost use Rattle.der_opaque.specs.OctetStringRef.{octets_of};

    type Error = Error;

    ghost try_from_gives = { λ b r. KeepsOctets octets_of tags.OctetString b.now r };

    fn try_from(octets: &'a [u8; N]) -> Result<OctetStringRef<'a>, Error> {
        OctetStringRef::new(octets)
    }
}

impl<'a> From<OctetStringRef<'a>> for &'a [u8] {
    ghost use Rattle.der_opaque.specs.OctetStringRef.{octets_of};

    ghost from_gives = { λ s b. b.now ≡ octets_of s };

    fn from(string: OctetStringRef<'a>) -> &'a [u8] {
        string.as_bytes()
    }
}

impl<'a, 'b> TryFrom<&'b &'a [u8]> for OctetStringRef<'a> {
    ghost use Rattle.der_opaque.specs.OctetStringRef.{octets_of};

    type Error = Error;

    ghost try_from_gives = { λ b r. KeepsOctets octets_of tags.OctetString b.now.now r };

    fn try_from(octets: &'b &'a [u8]) -> Result<OctetStringRef<'a>, Error> {
        OctetStringRef::new(*octets)
    }
}

impl<'a, const N: usize> TryFrom<OctetStringRef<'a>> for [u8; N] {
    ghost use Rattle.der_opaque.specs.OctetStringRef.{octets_of};

    type Error = Error;

    ghost try_from_gives = { λ s r. MatchResult r (λ a. a ≡ octets_of s) (λ e.
        (e.kind ≡ kinds.Length tags.OctetString) × (length (octets_of s) ≢ N)) };

    /// # Errors
    /// (7) for another number of octets.
    fn try_from(string: OctetStringRef<'a>) -> Result<[u8; N], Error> {
        if string.octets.len() != N {
            return Err(Error::from_kind(Tag::OctetString.length_error()));
        }
        let mut octets = [0; N];
        octets.copy_from_slice(string.octets);
        Ok(octets)
    }
}

impl<'a> From<OctetStringRef<'a>> for AnyRef<'a> {
    ghost use Rattle.der_opaque.specs.OctetStringRef.{octets_of};

    ghost from_gives = { λ s a. (tag_of a ≡ tags.OctetString) × (contents_of a ≡ octets_of s) };

    fn from(string: OctetStringRef<'a>) -> AnyRef<'a> {
        AnyRef {
            tag: Tag::OctetString,
            value: string.octets,
        }
    }
}

impl<'a> TryFrom<AnyRef<'a>> for OctetStringRef<'a> {
    ghost use Rattle.der_opaque.specs.OctetStringRef.{DecodesOctetString};

    type Error = Error;

    ghost try_from_gives = { λ a r. DecodesOctetString (tag_of a) (contents_of a) r };

    /// # Errors
    /// (4) with no expected tag for another tag.
    fn try_from(any: AnyRef<'a>) -> Result<OctetStringRef<'a>, Error> {
        if !any.tag.equals(Tag::OctetString) {
            return Err(Error::from_kind(any.tag.unexpected_error(None)));
        }
        Ok(OctetStringRef { octets: any.value })
    }
}

impl<'a> TryFrom<&'a Any> for OctetStringRef<'a> {
    ghost use Rattle.der_opaque.specs.OctetStringRef.{DecodesOctetString};

    type Error = Error;

    ghost try_from_gives = { λ a r. DecodesOctetString (owned_any.tag_of a.now)
        (owned_any.contents_of a.now) r };

    /// # Errors
    /// (4) with no expected tag for another tag.
    fn try_from(any: &'a Any) -> Result<OctetStringRef<'a>, Error> {
        OctetStringRef::try_from(any.to_ref())
    }
}
