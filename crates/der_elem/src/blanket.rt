//! Reading, writing and comparing values with tags, by their contents octets.

ghost use Rattle.std.specs.Prelude.{◌≡◌};
ghost use Rattle.std.specs.declared.cmp.Ordering.TheVariants.{Equal};
ghost use Rattle.der_tlv.specs.Identifier.{identifier};
ghost use Rattle.der_tlv.specs.Octets.{lex};
ghost use Rattle.der_elem.specs.Comparing.{Compares};

use crate::decode::{Decode, DecodeValue, FromDer};
use crate::encode::{Encode, EncodeValue};
use crate::fixed_tag::{OneTag, TagMarker};
use crate::ord::{DerOrd, ValueOrd};
use crate::tag::Tagged;
use der_tlv::{BackWriter, Error, Header, Length, Reader, SliceReader, Source, Writer};
use std::alloc::Global;
use std::cmp::Ordering;

impl<'a, R: Source<'a>, T: DecodeValue<'a, R> + OneTag> Decode<'a, R> for T {
    ghost TAKES_MEMORY = { T.DecodeValue.TAKES_MEMORY };

    const TAKES_MEMORY: bool = <T as DecodeValue<'a, R>>::TAKES_MEMORY;

    fn decode(alloc: Global, reader: &mut R) -> Result<T, Error> {
        let (header, end) = Header::open(reader, <T::Marker as TagMarker>::TAG)?;
        let value = T::decode_value(alloc, reader, header)?;
        reader.unnest(end)?;
        Ok(value)
    }

    ghost takes_memory_is = { T.DecodeValue.takes_memory_is };
}

impl<'a, T: Decode<'a, SliceReader<'a>>> FromDer<'a> for T {
    fn from_der(alloc: Global, bytes: &'a [u8]) -> Result<T, Error> {
        let mut reader = match SliceReader::new(bytes) {
            Ok(reader) => reader,
            Err(e) => return Err(e),
        };
        let value = T::decode(alloc, &mut reader)?;
        reader.finish()?;
        Ok(value)
    }
}

impl<T: EncodeValue + Tagged> Encode for T {
    fn encoded_len(&self) -> Result<Length, Error> {
        let len = self.value_len()?;
        let header = Header::new(self.tag(), len);
        header.encoded_len().add(len)
    }

    fn encode<W: Writer>(&self, writer: &mut W) -> Result<(), Error> {
        let header = Header::new(self.tag(), self.value_len()?);
        header.encode(writer)?;
        self.encode_value(writer)
    }

    fn encode_back<W: BackWriter>(&self, writer: &mut W) -> Result<(), Error> {
        let before = writer.room().value();
        self.encode_value_back(writer)?;
        let len = Length::new(before - writer.room().value());
        Header::new(self.tag(), len).encode_back(writer);
        Ok(())
    }
}

impl<T: EncodeValue + Tagged + ValueOrd> DerOrd for T {
    // A value that contains others is first compared, and measured only if it differs, so no
    // value is measured before the one that differs. Any other value has its length at once.
    fn der_cmp(&self, other: &T) -> Result<Ordering, Error> {
        match self.tag().cmp(&other.tag()) {
            Ordering::Equal => {}
            order => return Ok(order),
        }
        if self.tag().is_constructed() {
            return cmp_contents_first(self, other);
        }
        match self.value_len()?.cmp(&other.value_len()?) {
            Ordering::Equal => {}
            order => return Ok(order),
        }
        self.value_cmp(other)
    }
}

/// Compares the encodings of two values with the same tag; neither is measured if their contents
/// octets are equal.
fn cmp_contents_first<T: EncodeValue + Tagged + ValueOrd>(
    value: &T,
    other: &T,
) -> Result<Ordering, Error>
    requires { lex (identifier (T.tag_of value.now)) (identifier (T.tag_of other.now)) ≡ Equal }
    ensures { Compares T.Form value.now other.now result }
{
    let contents = value.value_cmp(other);
    if let Ok(Ordering::Equal) = contents {
        return contents;
    }
    match value.value_len()?.cmp(&other.value_len()?) {
        Ordering::Equal => contents,
        order => Ok(order),
    }
}
