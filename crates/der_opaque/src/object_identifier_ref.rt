//! Borrowed OBJECT IDENTIFIER (X.690 8.19).
//!
//! The tag is 06. The contents octets are kept as they are; they are not split into arcs.

ghost use Rattle.std.specs.Prelude.{◌≡◌, ◌↔◌, ◌^◌, ◌<◌, ◌≤◌, nat_eq, if◌then◌else◌, length, refl, IsOk, IfOk, IfErr, false};
ghost use Rattle.std.proofs.Common.{Ok};
ghost use Rattle.std.specs.Cmp.Lexicographic.{bytes_decides};
ghost use Rattle.der_tlv.specs.declared.error.ErrorKind.TheVariants as kinds;
ghost use Rattle.der_tlv.specs.declared.tag.Tag.TheVariants as tags;
ghost use Rattle.der_elem.specs.FormatMakers.{format_of_contents};
ghost use Rattle.der_opaque.specs.AnyRef.{tag_of, contents_of};
ghost use Rattle.der_opaque.specs.ObjectIdentifierOctets.{parse_identifier, parse_identifier-within, identifier_of_octets};

use crate::any_ref::AnyRef;
use crate::object_identifier::{ObjectIdentifier, refuse};
use der_elem::{
    ContentsEq, CopyIsDuplicate, DecodeValue, EncodeValue, FormValue, ObjectIdentifierTag, OneTag,
    OrdIsValueOrd,
};
use der_tlv::{BackWriter, Error, ErrorKind, Header, Length, Reader, Source, Tag, Writer};
use std::alloc::Global;
use std::fmt;

/// The octets of an OBJECT IDENTIFIER, borrowed. There are 1 to `MAX_SIZE` of them, and at most
/// 4294967295.
///
/// The octets 55 04 03 are encoded as 06 03 55 04 03.
///
/// # Errors
/// Decoding fails on more than `MAX_SIZE` octets (`ErrorKind::Length`, 7), then on none
/// (`ErrorKind::OidMalformed`, 15).
#[derive(Clone, Copy, PartialEq, Eq, PartialOrd, Ord, Hash)]
pub struct ObjectIdentifierRef<'a, const MAX_SIZE: usize> {
    pub(crate) octets: &'a [u8],
    ghost some: { 0 < length octets.now },
    ghost fits: { length octets.now ≤ MAX_SIZE },
    ghost short: { length octets.now < 2 ^ 32 },
}

impl<'a, const MAX_SIZE: usize> ObjectIdentifierRef<'a, MAX_SIZE> {
    ghost use Rattle.der_opaque.specs.ObjectIdentifier as owned;
    ghost use Rattle.der_opaque.specs.ObjectIdentifierRef.{octets_of};

    /// Creates an identifier with these contents octets.
    ///
    /// # Errors
    /// `ErrorKind::OidMalformed` (15) for no octets; `ErrorKind::Length` (7) for more than
    /// `MAX_SIZE` or more than 4294967295.
    pub fn from_bytes(bytes: &'a [u8]) -> Result<ObjectIdentifierRef<'a, MAX_SIZE>, Error>
        ensures ok { IsOk result ↔ ((0 < length bytes.now) × (length bytes.now ≤ MAX_SIZE)
            × (length bytes.now < 2 ^ 32)) }
        ensures value { IfOk result (λ v. octets_of v ≡ bytes.now) }
        ensures err { IfErr result (λ e. e.kind ≡ (if nat_eq (length bytes.now) 0
            then kinds.OidMalformed else kinds.Length tags.ObjectIdentifier)) }
    {
        if bytes.is_empty() {
            return Err(Error::from_kind(ErrorKind::OidMalformed));
        }
        match Length::of(bytes.len()) {
            Ok(_) if bytes.len() <= MAX_SIZE => Ok(ObjectIdentifierRef { octets: bytes }),
            _ => Err(Error::from_kind(Tag::ObjectIdentifier.length_error())),
        }
    }

    /// Returns the contents octets.
    pub fn as_bytes(self) -> &'a [u8]
        ensures value { result.now ≡ octets_of self.entry }
        ensures short { length result.now < 2 ^ 32 }
    {
        self.octets
    }

    /// Copies the identifier.
    pub fn ref_to_owned(self) -> ObjectIdentifier<MAX_SIZE>
        ensures { owned.octets_of result ≡ octets_of self.entry }
    {
        ObjectIdentifier::from_some(self.octets)
    }
}

impl<'a, const MAX_SIZE: usize> fmt::Debug for ObjectIdentifierRef<'a, MAX_SIZE> {
    fn fmt<W: fmt::Write>(&self, f: &mut fmt::Formatter<W>) -> fmt::Result {
        write!(f, "ObjectIdentifierRef({:?})", self.as_bytes())
    }
}

impl<'a, const MAX_SIZE: usize> FormValue for ObjectIdentifierRef<'a, MAX_SIZE> {
    ghost use Rattle.der_opaque.specs.ObjectIdentifierRef.{octets_of};

    ghost value = { format_of_contents octets_of (parse_identifier MAX_SIZE) (λ rules v p. parse_identifier-within MAX_SIZE v.octets.now rules p v.some v.fits) (identifier_of_octets MAX_SIZE) };
}

impl<'a, const MAX_SIZE: usize> OneTag for ObjectIdentifierRef<'a, MAX_SIZE> {
    type Marker = ObjectIdentifierTag;
}

impl<'a, R: Source<'a>, const MAX_SIZE: usize> DecodeValue<'a, R>
    for ObjectIdentifierRef<'a, MAX_SIZE> {
    ghost TAKES_MEMORY = { false };

    const TAKES_MEMORY: bool = false;

    #[inline(always)]
    fn decode_value(
        _alloc: Global,
        reader: &mut R,
        header: Header,
    ) -> Result<ObjectIdentifierRef<'a, MAX_SIZE>, Error> {
        let count = header.length;
        if count.is_zero() || count.value() as usize > MAX_SIZE {
            return Err(refuse(reader, header, MAX_SIZE));
        }
        let octets = reader.read_slice(count)?;
        Ok(ObjectIdentifierRef { octets })
    }

    ghost takes_memory_is = { refl };
}

impl<'a, const MAX_SIZE: usize> EncodeValue for ObjectIdentifierRef<'a, MAX_SIZE> {
    fn value_len(&self) -> Result<Length, Error> {
        Ok(Length::new(self.octets.len() as u32))
    }

    fn encode_value<W: Writer>(&self, writer: &mut W) -> Result<(), Error> {
        writer.write(self.octets)
    }

    fn encode_value_back<W: BackWriter>(&self, writer: &mut W) -> Result<(), Error> {
        writer.put(self.octets);
        Ok(())
    }
}

impl<'a, const MAX_SIZE: usize> OrdIsValueOrd for ObjectIdentifierRef<'a, MAX_SIZE> {
    ghost ord_is_value_ord = { λ v w. refl };
}

impl<'a, const MAX_SIZE: usize> ContentsEq for ObjectIdentifierRef<'a, MAX_SIZE> {
    ghost contents_eq = { λ v w one. bytes_decides v.octets.now w.octets.now };
}

impl<'a, const MAX_SIZE: usize> CopyIsDuplicate for ObjectIdentifierRef<'a, MAX_SIZE> {}

impl<'a, const MAX_SIZE: usize> From<&'a ObjectIdentifier<MAX_SIZE>>
    for ObjectIdentifierRef<'a, MAX_SIZE> {
    ghost use Rattle.der_opaque.specs.ObjectIdentifier as owned;
    ghost use Rattle.der_opaque.specs.ObjectIdentifierRef.{octets_of};

    ghost from_gives = { λ v r. octets_of r ≡ owned.octets_of v.now };

    fn from(identifier: &'a ObjectIdentifier<MAX_SIZE>) -> ObjectIdentifierRef<'a, MAX_SIZE> {
        identifier.owned_to_ref()
    }
}

impl<'a, const MAX_SIZE: usize> From<ObjectIdentifierRef<'a, MAX_SIZE>>
    for ObjectIdentifier<MAX_SIZE> {
    ghost use Rattle.der_opaque.specs.ObjectIdentifier as owned;
    ghost use Rattle.der_opaque.specs.ObjectIdentifierRef.{octets_of};

    ghost from_gives = { λ v o. owned.octets_of o ≡ octets_of v };

    fn from(identifier: ObjectIdentifierRef<'a, MAX_SIZE>) -> ObjectIdentifier<MAX_SIZE> {
        identifier.ref_to_owned()
    }
}

impl<'a, const MAX_SIZE: usize> From<ObjectIdentifierRef<'a, MAX_SIZE>> for AnyRef<'a> {
    ghost use Rattle.der_opaque.specs.ObjectIdentifierRef.{octets_of};

    ghost from_gives = { λ v a. (tag_of a ≡ tags.ObjectIdentifier)
        × (contents_of a ≡ octets_of v) };

    fn from(identifier: ObjectIdentifierRef<'a, MAX_SIZE>) -> AnyRef<'a> {
        AnyRef {
            tag: Tag::ObjectIdentifier,
            value: identifier.octets,
        }
    }
}

impl<'a, const MAX_SIZE: usize> TryFrom<AnyRef<'a>> for ObjectIdentifierRef<'a, MAX_SIZE> {
    ghost use Rattle.der_opaque.specs.ObjectIdentifierRef.{DecodesIdentifier};

    type Error = Error;

    ghost try_from_gives = { λ a r. DecodesIdentifier MAX_SIZE (tag_of a) (contents_of a) r };

    /// # Errors
    /// (4) with OBJECT IDENTIFIER expected for another tag; (15) for no contents octets; (7) for
    /// more than `MAX_SIZE`.
    fn try_from(any: AnyRef<'a>) -> Result<ObjectIdentifierRef<'a, MAX_SIZE>, Error> {
        if let Err(e) = any.tag.assert_eq(Tag::ObjectIdentifier) {
            return Err(e);
        }
        ObjectIdentifierRef::from_bytes(any.value)
    }
}
