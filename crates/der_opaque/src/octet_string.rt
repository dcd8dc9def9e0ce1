//! OCTET STRING (X.690 8.7).
//!
//! The tag is 04, and the contents octets are the octets of the string.

ghost use Rattle.std.specs.Prelude.{◌≡◌, ◌↔◌, ◌^◌, ◌<◌, [], length, true, refl, IsTrue};
ghost use Rattle.std.proofs.Common.{Ok, sym};
ghost use Rattle.std.specs.Cmp.Lexicographic.{bytes_decides};
ghost use Rattle.der_tlv.specs.declared.error.ErrorKind.TheVariants as kinds;
ghost use Rattle.der_tlv.specs.declared.tag.Tag.TheVariants as tags;
ghost use Rattle.der_elem.specs.FormatMakers.{allocating_format};
ghost use Rattle.der_opaque.specs.Opaque.{parse_octets, KeepsOctets};
ghost use Rattle.der_opaque.specs.OctetStringRef as borrowed;

use crate::octet_string_ref::OctetStringRef;
use der_elem::{
    ContentsEq, DecodeValue, DuplicateValue, DuplicateValueIsEqual, EncodeValue, FormValue,
    OctetStringTag, OneTag, OrdIsValueOrd,
};
use der_tlv::{BackWriter, Error, Header, Length, Reader, Source, Tag, Writer};
use std::alloc::{AllocError, Global};

/// The octets of an OCTET STRING. There are at most 4294967295 of them.
///
/// The octets 01 02 are encoded as 04 02 01 02.
#[derive(Debug, Drop, PartialEq, Eq, PartialOrd, Ord)]
pub struct OctetString {
    pub(crate) octets: Vec<u8>,
    ghost short: { length octets.items < 2 ^ 32 },
}

impl OctetString {
    ghost use Rattle.der_opaque.specs.OctetString.{octets_of};

    /// Creates a string of these octets.
    ///
    /// # Errors
    /// `ErrorKind::Length` (7) for more than 4294967295 octets.
    pub fn new(octets: Vec<u8>) -> Result<OctetString, Error>
        ensures { KeepsOctets octets_of tags.OctetString octets.items result }
    {
        match Length::of(octets.len()) {
            Ok(_) => Ok(OctetString { octets }),
            Err(_) => Err(Error::from_kind(Tag::OctetString.length_error())),
        }
    }

    /// Returns the octets.
    pub fn as_bytes(&self) -> &[u8]
        ensures { result.now ≡ octets_of self.now }
    {
        &self.octets
    }

    /// Returns the octets in their vector.
    pub fn into_bytes(self) -> Vec<u8>
        ensures { result.items ≡ octets_of self }
    {
        self.octets
    }

    /// Returns the number of octets.
    pub fn len(&self) -> Length
        ensures { result ≡ length (octets_of self.now) }
    {
        Length::new(self.octets.len() as u32)
    }

    /// Returns whether there are no octets.
    pub fn is_empty(&self) -> bool
        ensures { IsTrue result ↔ (octets_of self.now ≡ []) }
    {
        self.as_bytes().is_empty()
    }

    /// Borrows the string.
    pub fn owned_to_ref(&self) -> OctetStringRef<'_>
        ensures { borrowed.octets_of result ≡ octets_of self.now }
    {
        OctetStringRef {
            octets: self.as_bytes(),
        }
    }
}

impl Clone for OctetString {
    ghost use Rattle.der_opaque.specs.OctetString.{octets_of};

    ghost is_clone = { λ v w. octets_of w ≡ octets_of v };

    fn clone(&self) -> Result<OctetString, AllocError> {
        let octets = self.octets.clone()?;
        Ok(OctetString { octets })
    }
}

impl FormValue for OctetString {
    ghost use Rattle.der_opaque.specs.OctetString.{octets_of};

    ghost value = { allocating_format octets_of parse_octets (λ rules v p. refl) (λ rules p c. tt) };
}

impl OneTag for OctetString {
    type Marker = OctetStringTag;
}

impl<'a, R: Source<'a>> DecodeValue<'a, R> for OctetString {
    ghost TAKES_MEMORY = { true };

    const TAKES_MEMORY: bool = true;

    /// # Errors
    /// (17) on a failed reader; else (1) if memory runs out.
    fn decode_value(alloc: Global, reader: &mut R, header: Header) -> Result<OctetString, Error> {
        match OctetStringRef::decode_value(alloc, reader, header) {
            Ok(string) => match string.ref_to_owned(alloc) {
                Ok(string) => Ok(string),
                Err(e) => Err(reader.error(e.kind)),
            },
            Err(e) => Err(e),
        }
    }

    ghost takes_memory_is = { refl };
}

impl EncodeValue for OctetString {
    fn value_len(&self) -> Result<Length, Error> {
        Ok(self.len())
    }

    fn encode_value<W: Writer>(&self, writer: &mut W) -> Result<(), Error> {
        writer.write(self.as_bytes())
    }

    fn encode_value_back<W: BackWriter>(&self, writer: &mut W) -> Result<(), Error> {
        writer.put(self.as_bytes());
        Ok(())
    }
}

impl OrdIsValueOrd for OctetString {
    ghost ord_is_value_ord = { λ v w. refl };
}

impl ContentsEq for OctetString {
    ghost contents_eq = { λ v w one. bytes_decides v.octets.items w.octets.items };
}

impl DuplicateValue for OctetString {
    ghost is_copy_value = { λ v w. w.octets.items ≡ v.octets.items };

    ghost takes_memory_to_copy_value = { true };

    fn duplicate_value(&self) -> Result<OctetString, Error> {
        Ok(self.clone()?)
    }

    ghost copy_contents = { λ v w e. e };

    ghost copy_comparable_value = { λ v w x e f. tt };

    ghost copy_re_reads_value = { λ v w e. refl };
}

impl DuplicateValueIsEqual for OctetString {
    ghost copy_value_is_equal = { λ v w e. (bytes_decides v.octets.items w.octets.items).1 (sym e) };
}

impl<'a> From<&'a OctetString> for OctetStringRef<'a> {
    ghost use Rattle.der_opaque.specs.OctetString.{octets_of};

    ghost from_gives = { λ s r. borrowed.octets_of r ≡ octets_of s.now };

    fn from(string: &'a OctetString) -> OctetStringRef<'a> {
        string.owned_to_ref()
    }
}

impl From<OctetString> for Vec<u8> {
    ghost use Rattle.der_opaque.specs.OctetString.{octets_of};

    ghost from_gives = { λ s v. v.items ≡ octets_of s };

    fn from(string: OctetString) -> Vec<u8> {
        string.into_bytes()
    }
}
