//! The contents octets of a value, checked and kept as they were read (X.690 8.1.4).
//!
//! The tag and the octets are those of the type: a `Kept` of a list of INTEGERs keeps 02 01 05 of
//! 30 03 02 01 05. The octets are written as they were read, and are known to be a value of the
//! type. `value` reads the value again.
//!
//! Decoding fails with the first error that the type finds in the contents octets, and with
//! `ErrorKind::Memory` (1) if the type takes memory and none is left. A reader of the contents
//! octets alone reads them, under DER. A length within an error is relative to the first of the
//! contents octets. The position of an error is, as everywhere, relative to the first octet of
//! all.

ghost use Rattle.std.specs.Prelude.{◌≡◌, ◌<◌, ◌^◌, ⊤, length};
ghost use Rattle.std.specs.Cmp.{on_per, on_equiv};
ghost use Rattle.std.specs.Cmp.Lexicographic.{bytes_decides};
ghost use Rattle.der_tlv.specs.declared.encoding_rules.EncodingRules.TheVariants.{Der};
ghost use Rattle.der_opaque.specs.DecodingAs.{DecodesAs};
ghost use Rattle.der_opaque.specs.contracts.octet_string_ref.OctetStringRefPartialEq.TheImpl.Laws as string_eq;
ghost use Rattle.der_opaque.specs.contracts.octet_string_ref.OctetStringRefEq.TheImpl.Laws as string_equivalence;
ghost use Rattle.der_nest.specs.Kept.{octets_of};
ghost use Rattle.der_nest.specs.KeptFormat.{kept_format, KeepsContents, position_behind};

use der_elem::{
    Choice, ContentsEq, CopyIsDuplicate, DecodeValue, EncodeValue, FormValue, OneTag, TagMarker,
    ValueOrd, read_contents,
};
use der_opaque::{AnyRef, OctetStringRef};
use der_tlv::{BackWriter, Error, Header, Length, Reader, SliceReader, Source, Tag, Writer};
use std::alloc::{AllocError, Global};
use std::cmp::Ordering;
use std::fmt;
use std::marker::PhantomData;

/// The contents octets of a value of the type `T`, borrowed. There are at most 4294967295 of
/// them.
#[derive(Drop)]
pub struct Kept<'a, T> {
    octets: OctetStringRef<'a>,
    of: PhantomData<&'a T>,
}

impl<'a, T> Kept<'a, T> {
    ghost use Rattle.der_nest.specs.Kept.{octets_of};

    /// Returns the contents octets.
    pub fn as_bytes(self) -> &'a [u8]
        ensures { result.now ≡ octets_of self.entry }
    {
        self.octets.as_bytes()
    }
}

impl<'a, T: OneTag + Choice + DecodeValue<'a, SliceReader<'a>>> Kept<'a, T> {
    ghost use Rattle.der_nest.specs.Kept.{octets_of};

    /// Reads the value of the contents octets.
    ///
    /// # Errors
    /// `ErrorKind::Memory` (1) if the type takes memory and none is left; otherwise the first
    /// error in the octets. Octets that were read have no such error.
    pub fn value(self, alloc: Global) -> Result<T, Error>
        ensures { DecodesAs T.Form T.value Der T.Marker.TAG (octets_of self.entry) result }
    {
        let any = match AnyRef::new(<<T as OneTag>::Marker as TagMarker>::TAG, self.as_bytes()) {
            Ok(any) => any,
            Err(e) => return Err(e),
        };
        any.decode_as(alloc)
    }
}

impl<'a, T> Clone for Kept<'a, T> {
    ghost is_clone = { λ v w. w ≡ v };

    ghost is_infallible = { λ _. ⊤ };

    fn clone(&self) -> Result<Kept<'a, T>, AllocError> {
        let octets = self.octets;
        let of = PhantomData;
        Ok(Kept { octets, of })
    }
}

impl<'a, T> Copy for Kept<'a, T> {}

impl<'a, T> fmt::Debug for Kept<'a, T> {
    /// Writes the octets as an OCTET STRING shows them.
    fn fmt<W: fmt::Write>(&self, f: &mut fmt::Formatter<W>) -> fmt::Result {
        fmt::Debug::fmt(&self.octets, f)
    }
}

impl<'a, T> PartialEq for Kept<'a, T> {
    ghost eq = { λ v w. ⟦<OctetStringRef<'a> as PartialEq>⟧.eq v.octets w.octets };

    ghost laws = { on_per (λ v. v.octets) string_eq.laws-law };

    fn eq(&self, other: &Kept<'a, T>) -> bool {
        self.octets == other.octets
    }
}

impl<'a, T> Eq for Kept<'a, T> {
    ghost laws = { on_equiv (λ v. v.octets) string_equivalence.laws-law };
}

impl<'a, T: OneTag> OneTag for Kept<'a, T> {
    type Marker = <T as OneTag>::Marker;
}

impl<'a, T: FormValue> FormValue for Kept<'a, T> {
    ghost use Rattle.der_nest.specs.Kept.{octets_of};

    ghost value = { kept_format octets_of T.value };
}

/// Keeps the contents octets after a tag if they are those of a value.
fn keep<'a, T: DecodeValue<'a, SliceReader<'a>>>(
    alloc: Global,
    tag: Tag,
    octets: &'a [u8],
) -> Result<Kept<'a, T>, Error>
    ensures { length octets.now < 2 ^ 32 → KeepsContents octets_of T.value octets.now result }
{
    let octets = match OctetStringRef::new(octets) {
        Ok(octets) => octets,
        Err(e) => return Err(e),
    };
    let mut reader = match SliceReader::new(octets.as_bytes()) {
        Ok(reader) => reader,
        Err(e) => return Err(e),
    };
    let length = octets.len();
    match T::decode_value(alloc, &mut reader, Header { tag, length }) {
        Ok(_) => {}
        Err(e) => return Err(e),
    }
    let of = PhantomData;
    Ok(Kept { octets, of })
}

/// Moves the position of an error in contents octets by the offset of those octets.
fn behind(begin: Length, error: Error) -> Error
    ensures kind { result.kind ≡ error.kind }
    ensures position { result.position ≡ position_behind begin error.position }
{
    let kind = error.kind;
    let position = match error.position {
        Some(position) => Some(Length::new(begin.value().saturating_add(position.value()))),
        None => None,
    };
    Error { kind, position }
}

impl<'a, R: Source<'a>, T: DecodeValue<'a, SliceReader<'a>>> DecodeValue<'a, R> for Kept<'a, T> {
    ghost TAKES_MEMORY = { T.DecodeValue.TAKES_MEMORY };

    const TAKES_MEMORY: bool = <T as DecodeValue<'a, SliceReader<'a>>>::TAKES_MEMORY;

    fn decode_value(alloc: Global, reader: &mut R, header: Header) -> Result<Kept<'a, T>, Error> {
        let (tag, begin) = (header.tag, reader.position());
        let octets = read_contents(reader, header)?;
        match keep(alloc, tag, octets) {
            Ok(kept) => Ok(kept),
            Err(e) => {
                reader.error(e.kind);
                Err(behind(begin, e))
            }
        }
    }

    ghost takes_memory_is = { T.DecodeValue.takes_memory_is };
}

impl<'a, T: FormValue> EncodeValue for Kept<'a, T> {
    fn value_len(&self) -> Result<Length, Error> {
        Ok(self.octets.len())
    }

    fn encode_value<W: Writer>(&self, writer: &mut W) -> Result<(), Error> {
        writer.write(self.octets.as_bytes())
    }

    fn encode_value_back<W: BackWriter>(&self, writer: &mut W) -> Result<(), Error> {
        writer.put(self.octets.as_bytes());
        Ok(())
    }
}

impl<'a, T: FormValue> ValueOrd for Kept<'a, T> {
    fn value_cmp(&self, other: &Kept<'a, T>) -> Result<Ordering, Error> {
        self.octets.value_cmp(&other.octets)
    }
}

impl<'a, T: FormValue> ContentsEq for Kept<'a, T> {
    ghost contents_eq = { λ v w one. bytes_decides v.octets.octets.now w.octets.octets.now };
}

impl<'a, T: FormValue> CopyIsDuplicate for Kept<'a, T> {}
