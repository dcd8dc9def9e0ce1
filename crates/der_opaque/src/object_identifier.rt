//! OBJECT IDENTIFIER (X.690 8.19).
//!
//! The tag is 06. The contents octets are kept as they are; they are not split into arcs.

ghost use Rattle.std.specs.Prelude.{◌≡◌, ◌↔◌, ◌^◌, ◌+◌, ◌<◌, ◌≤◌, ◌⊎◌, nat_eq, if◌then◌else◌, length, take, drop, refl, IsOk, IfOk, IfErr, IfSome, Some, false};
ghost use Rattle.std.proofs.Common.{Ok, ap};
ghost use Rattle.std.specs.Cmp.{on_per, on_equiv, on_po, on_total, partial_equiv_from_equiv};
ghost use Rattle.std.specs.Cmp.Lexicographic.{pointwise, bytes_decides, nat_list_eq_equiv, nat_list_cmp_total, texts_po, texts_ties};
ghost use Rattle.std.specs.Hash as fed;
ghost use Rattle.der_tlv.specs.declared.error.ErrorKind.TheVariants as kinds;
ghost use Rattle.der_tlv.specs.declared.tag.Tag.TheVariants as tags;
ghost use Rattle.der_tlv.specs.Octets.{lex};
ghost use Rattle.der_tlv.specs.ReaderState.{rest, unless_failed};
ghost use Rattle.der_tlv.specs.Reading.{OctetsRead, OctetsRefused, Refused};
ghost use Rattle.der_elem.specs.FormatMakers.{format_of_contents};
ghost use Rattle.der_opaque.specs.ObjectIdentifierOctets.{parse_identifier, parse_identifier-kept, identifier_of_octets};
ghost use Rattle.der_opaque.specs.AnyRef.{tag_of, contents_of};

use crate::any_ref::AnyRef;
use crate::object_identifier_ref::ObjectIdentifierRef;
use der_elem::{
    ContentsEq, CopyIsDuplicate, DecodeValue, EncodeValue, FormValue, ObjectIdentifierTag, OneTag,
    OrdIsValueOrd, Tagged,
};
use der_tlv::{Error, ErrorKind, Header, Length, Reader, Source, Tag, Writer};
use std::alloc::Global;
use std::cmp::Ordering;
use std::fmt;
use std::hash::{Hash, Hasher};

/// The octets of an OBJECT IDENTIFIER. There are 1 to `MAX_SIZE` of them, and at most 4294967295.
///
/// The octets 55 04 03 are encoded as 06 03 55 04 03.
///
/// # Errors
/// Decoding fails on more than `MAX_SIZE` octets (`ErrorKind::Length`, 7), then on none
/// (`ErrorKind::OidMalformed`, 15).
#[derive(Clone, Copy)]
pub struct ObjectIdentifier<const MAX_SIZE: usize> {
    // The first `count` octets are those of the identifier; the others may have any value.
    octets: [u8; MAX_SIZE],
    count: Length,
    ghost some: { 0 < count },
    ghost fits: { count ≤ MAX_SIZE },
    ghost full: { length octets ≡ MAX_SIZE },
}

impl<const MAX_SIZE: usize> ObjectIdentifier<MAX_SIZE> {
    ghost use Rattle.der_opaque.specs.ObjectIdentifier.{octets_of};
    ghost use Rattle.der_opaque.specs.ObjectIdentifierRef as borrowed;

    /// Creates an identifier with these contents octets.
    ///
    /// # Errors
    /// `ErrorKind::OidMalformed` (15) for no octets; `ErrorKind::Length` (7) for more than
    /// `MAX_SIZE` or more than 4294967295.
    pub fn from_bytes(bytes: &[u8]) -> Result<ObjectIdentifier<MAX_SIZE>, Error>
        ensures ok { IsOk result ↔ ((0 < length bytes.now) × (length bytes.now ≤ MAX_SIZE)
            × (length bytes.now < 2 ^ 32)) }
        ensures value { IfOk result (λ v. octets_of v ≡ bytes.now) }
        ensures err { IfErr result (λ e. e.kind ≡ (if nat_eq (length bytes.now) 0
            then kinds.OidMalformed else kinds.Length tags.ObjectIdentifier)) }
    {
        if bytes.is_empty() {
            return Err(Error::from_kind(ErrorKind::OidMalformed));
        }
        match Length::of(bytes.len()) {
            Ok(count) if bytes.len() <= MAX_SIZE => {
                let octets = front_of(bytes);
                Ok(ObjectIdentifier { octets, count })
            }
            _ => Err(Error::from_kind(Tag::ObjectIdentifier.length_error())),
        }
    }

    /// Creates an identifier with these contents octets. There is at least one, and there are not
    /// too many.
    pub(crate) fn from_some(bytes: &[u8]) -> ObjectIdentifier<MAX_SIZE>
        requires some { 0 < length bytes.now }
        requires few { length bytes.now ≤ MAX_SIZE }
        requires short { length bytes.now < 2 ^ 32 }
        ensures { octets_of result ≡ bytes.now }
    {
        let octets = front_of(bytes);
        let count = Length::new(bytes.len() as u32);
        ObjectIdentifier { octets, count }
    }

    /// Creates an identifier from `count` octets after `start`. It copies `MAX_SIZE` octets from
    /// there if the input has them: the octets after the identifier's own are ignored.
    #[inline(always)]
    fn from_front(bytes: &[u8], start: usize, count: Length) -> ObjectIdentifier<MAX_SIZE>
        requires some { 0 < count }
        requires few { count ≤ MAX_SIZE }
        requires within { start + count ≤ length bytes.now }
        ensures { octets_of result ≡ take count (drop start bytes.now) }
    {
        let octets = match bytes[start..].first_chunk::<MAX_SIZE>() {
            Some(block) => *block,
            None => front_of(&bytes[start..start + count.value() as usize]),
        };
        ObjectIdentifier { octets, count }
    }

    /// Reads `count` octets as an identifier.
    #[inline(always)]
    fn read_front<'a, R: Source<'a>>(
        reader: &mut R,
        count: Length,
    ) -> Result<ObjectIdentifier<MAX_SIZE>, Error>
        requires some { 0 < count }
        requires few { count ≤ MAX_SIZE }
        ensures ok { IfOk result (λ v.
            OctetsRead (R.state reader.old) (R.state reader.new) count (octets_of v)) }
        ensures err { IfErr result (λ e.
            OctetsRefused (R.state reader.old) (R.state reader.new) count e.kind) }
    {
        let start = usize::from(reader.position());
        reader.read_slice(count)?;
        Ok(ObjectIdentifier::from_front(reader.octets(), start, count))
    }

    /// Returns the contents octets.
    pub fn as_bytes(&self) -> &[u8]
        ensures value { result.now ≡ octets_of self.now }
        ensures short { length result.now < 2 ^ 32 }
    {
        &self.octets[..self.count.value() as usize]
    }

    /// Borrows the identifier.
    pub fn owned_to_ref(&self) -> ObjectIdentifierRef<'_, MAX_SIZE>
        ensures { borrowed.octets_of result ≡ octets_of self.now }
    {
        ObjectIdentifierRef {
            octets: self.as_bytes(),
        }
    }

    /// Returns a block that begins with the contents octets, if there are at most eight of them,
    /// and `MAX_SIZE` is eight or more.
    #[inline(always)]
    fn as_block(&self) -> Option<[u8; 8]>
        ensures { IfSome result (λ block. (self.now.count ≤ 8)
            × (take self.now.count block ≡ octets_of self.now)) }
    {
        match self.octets.first_chunk::<8>() {
            Some(block) if self.count.value() <= 8 => Some(*block),
            _ => None,
        }
    }
}

impl<const MAX_SIZE: usize> fmt::Debug for ObjectIdentifier<MAX_SIZE> {
    fn fmt<W: fmt::Write>(&self, f: &mut fmt::Formatter<W>) -> fmt::Result {
        write!(f, "ObjectIdentifier({:?})", self.as_bytes())
    }
}

impl<const MAX_SIZE: usize> FormValue for ObjectIdentifier<MAX_SIZE> {
    ghost use Rattle.der_opaque.specs.ObjectIdentifier.{octets_of};

    ghost value = { format_of_contents octets_of (parse_identifier MAX_SIZE) (λ rules v p. parse_identifier-kept MAX_SIZE v.count v.octets (take v.count v.octets) rules p v.some v.fits v.full refl) (identifier_of_octets MAX_SIZE) };
}

impl<const MAX_SIZE: usize> OneTag for ObjectIdentifier<MAX_SIZE> {
    type Marker = ObjectIdentifierTag;
}

/// Creates an array that begins with these octets.
#[inline(never)]
fn front_of<const MAX_SIZE: usize>(bytes: &[u8]) -> [u8; MAX_SIZE]
    requires { length bytes.now ≤ MAX_SIZE }
    ensures { take (length bytes.now) result ≡ bytes.now }
{
    let mut octets = [0; MAX_SIZE];
    octets[..bytes.len()].copy_from_slice(bytes);
    octets
}

/// Returns the error for no contents octets, or too many.
#[cold]
#[inline(never)]
pub(crate) fn refuse<'a, R: Source<'a>>(reader: &mut R, header: Header, max: usize) -> Error
    requires { (header.length ≡ 0) ⊎ (max < header.length) }
    ensures fault { length (rest (R.state reader.old)) ≡ header.length
        → unless_failed (parse_identifier max (R.state reader.old).rules) (R.state reader.old)
        ≡ Err result.kind }
    ensures reader { Refused (R.state reader.old) (R.state reader.new) result.kind }
{
    match reader.read_slice(header.length) {
        Ok([]) => reader.error(ErrorKind::OidMalformed),
        Ok(_) => reader.error(Tag::ObjectIdentifier.length_error()),
        Err(e) => e,
    }
}

impl<'a, R: Source<'a>, const MAX_SIZE: usize> DecodeValue<'a, R> for ObjectIdentifier<MAX_SIZE> {
    ghost TAKES_MEMORY = { false };

    const TAKES_MEMORY: bool = false;

    #[inline(always)]
    fn decode_value(
        _alloc: Global,
        reader: &mut R,
        header: Header,
    ) -> Result<ObjectIdentifier<MAX_SIZE>, Error> {
        let count = header.length;
        if count.is_zero() || count.value() as usize > MAX_SIZE {
            return Err(refuse(reader, header, MAX_SIZE));
        }
        ObjectIdentifier::read_front(reader, count)
    }

    ghost takes_memory_is = { refl };
}

impl<const MAX_SIZE: usize> EncodeValue for ObjectIdentifier<MAX_SIZE> {
    fn value_len(&self) -> Result<Length, Error> {
        Ok(Length::new(self.as_bytes().len() as u32))
    }

    // If a block of eight octets holds all contents octets, the block is moved.
    fn encode_value<W: Writer>(&self, writer: &mut W) -> Result<(), Error> {
        if let Some(block) = self.as_block() {
            return writer.write_front(block, self.count.value() as usize);
        }
        writer.write(self.as_bytes())
    }
}

impl<const MAX_SIZE: usize> PartialEq for ObjectIdentifier<MAX_SIZE> {
    ghost use Rattle.der_opaque.specs.ObjectIdentifier.{octets_of};

    ghost eq = { λ v w. pointwise nat_eq (take v.count v.octets) (take w.count w.octets) };

    ghost laws = { on_per octets_of (partial_equiv_from_equiv nat_list_eq_equiv) };

    fn eq(&self, other: &ObjectIdentifier<MAX_SIZE>) -> bool {
        self.as_bytes() == other.as_bytes()
    }
}

impl<const MAX_SIZE: usize> Eq for ObjectIdentifier<MAX_SIZE> {
    ghost use Rattle.der_opaque.specs.ObjectIdentifier.{octets_of};

    ghost laws = { on_equiv octets_of nat_list_eq_equiv };
}

impl<const MAX_SIZE: usize> PartialOrd for ObjectIdentifier<MAX_SIZE> {
    ghost use Rattle.der_opaque.specs.ObjectIdentifier.{octets_of};

    ghost partial_cmp = { λ v w. Some (lex (take v.count v.octets) (take w.count w.octets)) };

    ghost laws = { on_po octets_of texts_po };

    fn partial_cmp(&self, other: &ObjectIdentifier<MAX_SIZE>) -> Option<Ordering> {
        Some(self.cmp(other))
    }
}

impl<const MAX_SIZE: usize> Ord for ObjectIdentifier<MAX_SIZE> {
    ghost use Rattle.der_opaque.specs.ObjectIdentifier.{octets_of};

    ghost cmp = { λ v w. lex (take v.count v.octets) (take w.count w.octets) };

    ghost total = { on_total octets_of nat_list_cmp_total };

    ghost matches_partial_cmp = { λ v w. refl };

    ghost matches_eq = { λ v w. texts_ties (take v.count v.octets) (take w.count w.octets) };

    /// Compares the contents octets lexicographically.
    fn cmp(&self, other: &ObjectIdentifier<MAX_SIZE>) -> Ordering {
        self.as_bytes().cmp(other.as_bytes())
    }
}

impl<const MAX_SIZE: usize> Hash for ObjectIdentifier<MAX_SIZE> {
    ghost hash_input = { λ v. fed.slice fed.u8 (take v.count v.octets) };

    ghost respects_eq = { λ v w e. ap (fed.slice fed.u8)
        ((bytes_decides (take v.count v.octets) (take w.count w.octets)).0 e) };

    fn hash<H: Hasher>(&self, state: &mut H) {
        self.as_bytes().hash(state);
    }
}

impl<const MAX_SIZE: usize> OrdIsValueOrd for ObjectIdentifier<MAX_SIZE> {
    ghost ord_is_value_ord = { λ v w. refl };
}

impl<const MAX_SIZE: usize> ContentsEq for ObjectIdentifier<MAX_SIZE> {
    ghost contents_eq = { λ v w one. bytes_decides (take v.count v.octets)
        (take w.count w.octets) };
}

impl<const MAX_SIZE: usize> CopyIsDuplicate for ObjectIdentifier<MAX_SIZE> {}

impl<'a, const MAX_SIZE: usize> From<&'a ObjectIdentifier<MAX_SIZE>> for AnyRef<'a> {
    ghost use Rattle.der_opaque.specs.ObjectIdentifier.{octets_of};

    ghost from_gives = { λ v a. (tag_of a ≡ tags.ObjectIdentifier)
        × (contents_of a ≡ octets_of v.now) };

    fn from(identifier: &'a ObjectIdentifier<MAX_SIZE>) -> AnyRef<'a> {
        AnyRef {
            tag: Tag::ObjectIdentifier,
            value: identifier.as_bytes(),
        }
    }
}

impl<'a, const MAX_SIZE: usize> TryFrom<AnyRef<'a>> for ObjectIdentifier<MAX_SIZE> {
    ghost use Rattle.der_opaque.specs.ObjectIdentifier.{DecodesIdentifier};

    type Error = Error;

    ghost try_from_gives = { λ a r. DecodesIdentifier MAX_SIZE (tag_of a) (contents_of a) r };

    /// # Errors
    /// (4) with OBJECT IDENTIFIER expected for another tag; (15) for no contents octets; (7) for
    /// more than `MAX_SIZE`.
    fn try_from(any: AnyRef<'a>) -> Result<ObjectIdentifier<MAX_SIZE>, Error> {
        if let Err(e) = any.tag.assert_eq(Tag::ObjectIdentifier) {
            return Err(e);
        }
        ObjectIdentifier::from_bytes(any.value)
    }
}
