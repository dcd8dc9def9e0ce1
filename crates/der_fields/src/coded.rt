//! Decoding and encoding the fields of a SEQUENCE.

ghost use Rattle.std.specs.Prelude.{◌≡◌, Bool};
ghost use Rattle.der_elem.specs.Encoding.{Encodes, Measures};
ghost use Rattle.der_elem.specs.EncodingBack.{HasRoom, PutsBack};
ghost use Rattle.der_fields.specs.FieldsDecoding.{DecodesFields};

use crate::field_list::FieldList;
use der_tlv::{BackWriter, Error, Length, Source, Writer};
use std::alloc::Global;

/// Decoding of fields from all octets of a reader.
pub trait DecodeFields<'a, R: Source<'a>>: FieldList {
    ghost TAKES_MEMORY: { Bool };

    /// Whether decoding the fields takes memory.
    const TAKES_MEMORY: bool;

    /// Reads the fields from all octets of the reader.
    ///
    /// # Errors
    /// `ErrorKind::Failed` (17) on a failed reader; the first error of the fields, in their
    /// order; `ErrorKind::TrailingData` (3) if octets are left over; `ErrorKind::Memory` (1) if a
    /// field takes memory and none is left.
    fn decode_fields(alloc: Global, reader: &mut R) -> Result<Self, Error>
        ensures { DecodesFields Self.list (R.state reader.old) (R.state reader.new) result };

    ghost takes_memory_is: { Self.DecodeFields.TAKES_MEMORY ≡ Self.list.octets.TAKES_MEMORY };
}

/// Encoding of fields.
pub trait EncodeFields: FieldList {
    /// Returns the number of octets of the fields.
    ///
    /// # Errors
    /// `ErrorKind::Overflow` (9) if there are more than 4294967295; `ErrorKind::Memory` (1) if
    /// items are read again and no memory is left.
    fn fields_len(&self) -> Result<Length, Error>
        ensures { Measures (Self.list.octets.contents self.now) (Self.list.octets.re_reads self.now) result };

    /// Writes the fields.
    ///
    /// # Errors
    /// The error of the writer; `ErrorKind::Overflow` (9) if there are more than 4294967295
    /// octets; `ErrorKind::Memory` (1) if items are read again and no memory is left.
    fn encode_fields<W: Writer>(&self, writer: &mut W) -> Result<(), Error>
        ensures { Encodes (Self.list.octets.contents self.now) (Self.list.octets.re_reads self.now) (W.state writer.old)
            (W.state writer.new) result };

    /// Writes the fields before the octets that the writer holds, from last to first.
    ///
    /// # Errors
    /// `ErrorKind::Memory` (1) if items are read again and no memory is left.
    fn encode_fields_back<W: BackWriter>(&self, writer: &mut W) -> Result<(), Error>
        requires { HasRoom (Self.list.octets.contents self.now) (W.state writer.old) }
        ensures { PutsBack (Self.list.octets.contents self.now) (Self.list.octets.re_reads self.now) (W.state writer.old)
            (W.state writer.new) result }
    {
        // the free space is a length, so the number of octets that fit is a length
        let _room = writer.room().value();
        let len = self.fields_len()?;
        writer.open_gap(len);
        self.encode_fields(writer)?;
        writer.close_gap();
        Ok(())
    }
}
