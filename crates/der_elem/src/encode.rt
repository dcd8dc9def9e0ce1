//! Writing values.

ghost use Rattle.std.specs.Prelude.{◌≡◌, ◌^◌, ◌<◌, ◌⊎◌, length, IfOk, IfErr, OnOk};
ghost use Rattle.der_elem.specs.Encoding.{Encodes, IsTooShort, Measures, NoVector, Stops};
ghost use Rattle.der_elem.specs.EncodingBack.{HasRoom, PutsBack};

use crate::form::{Form, FormValue};
use der_tlv::{BackSlice, BackVec, BackWriter, Error, ErrorKind, Length, Writer};
use std::alloc::Global;

/// Writing the contents octets of a value.
pub trait EncodeValue: FormValue {
    /// Returns the number of contents octets of the value.
    ///
    /// # Errors
    /// `ErrorKind::Overflow` (9) if there are more than 4294967295; `ErrorKind::Memory` (1) if
    /// items are read again and memory runs out.
    fn value_len(&self) -> Result<Length, Error>
        ensures { Measures (Self.value.contents self.now) (Self.value.re_reads self.now) result };

    /// Writes the contents octets.
    ///
    /// # Errors
    /// The errors of the writer; `ErrorKind::Overflow` (9) if there are more than 4294967295;
    /// `ErrorKind::Memory` (1) if items are read again and memory runs out.
    fn encode_value<W: Writer>(&self, writer: &mut W) -> Result<(), Error>
        ensures { Encodes (Self.value.contents self.now) (Self.value.re_reads self.now)
            (W.state writer.old) (W.state writer.new) result };

    /// Writes the contents octets before those that the writer holds.
    ///
    /// By default they are written in their order, into a gap of as many octets. A type that
    /// contains others writes these one by one, from the last, so that none is measured.
    ///
    /// # Errors
    /// `ErrorKind::Memory` (1) if items are read again and memory runs out.
    fn encode_value_back<W: BackWriter>(&self, writer: &mut W) -> Result<(), Error>
        requires { HasRoom (Self.value.contents self.now) (W.state writer.old) }
        ensures { PutsBack (Self.value.contents self.now) (Self.value.re_reads self.now)
            (W.state writer.old) (W.state writer.new) result }
    {
        // `room` is a length, so the number of octets that fit it is a length too
        let _room = writer.room().value();
        let len = self.value_len()?;
        writer.open_gap(len);
        self.encode_value(writer)?;
        writer.close_gap();
        Ok(())
    }
}

/// Writing the encoding of a value.
pub trait Encode: Form {
    /// Returns the number of octets of the encoding.
    ///
    /// # Errors
    /// `ErrorKind::Overflow` (9) if there are more than 4294967295; `ErrorKind::Memory` (1) if
    /// items are read again and memory runs out.
    fn encoded_len(&self) -> Result<Length, Error>
        ensures { Measures (Self.encoding self.now) (Self.re_reads self.now) result };

    /// Writes the encoding, its first octet first. A nested value is measured at each level
    /// around it; `to_der` measures it once.
    ///
    /// # Errors
    /// The errors of the writer; `ErrorKind::Overflow` (9) if there are more than
    /// 4294967295 octets; `ErrorKind::Memory` (1) if items are read again and memory runs out.
    fn encode<W: Writer>(&self, writer: &mut W) -> Result<(), Error>
        ensures { Encodes (Self.encoding self.now) (Self.re_reads self.now) (W.state writer.old)
            (W.state writer.new) result };

    /// Writes the encoding before what the writer holds: the contents octets first, and then the
    /// header, so the contents octets need not be measured.
    ///
    /// # Errors
    /// `ErrorKind::Memory` (1) if items are read again and memory runs out.
    fn encode_back<W: BackWriter>(&self, writer: &mut W) -> Result<(), Error>
        requires { HasRoom (Self.encoding self.now) (W.state writer.old) }
        ensures { PutsBack (Self.encoding self.now) (Self.re_reads self.now) (W.state writer.old)
            (W.state writer.new) result }
    {
        // `room` is a length, so the number of octets that fit it is a length too
        let _room = writer.room().value();
        let len = self.encoded_len()?;
        writer.open_gap(len);
        self.encode(writer)?;
        writer.close_gap();
        Ok(())
    }

    /// Writes the encoding to the front of the buffer, and returns that front, which begins where
    /// the buffer does. The octets after it are not written to: the writer gets only the octets
    /// of the encoding. A buffer that is too short is left unchanged; if memory runs out later,
    /// the buffer may hold an end of the encoding. The value is measured once, and then written
    /// from the back.
    ///
    /// # Errors
    /// `ErrorKind::Overlength` (10) if the buffer is too short; `ErrorKind::Overflow` (9) if
    /// there are more than 4294967295 octets; `ErrorKind::Memory` (1) if items are read again and
    /// memory runs out.
    fn encode_to_slice<'b>(&self, buffer: &'b mut [u8]) -> Result<&'b [u8], Error>
        ensures ok { IfOk result (λ octets. octets.now ≡ Self.encoding self.now) }
        ensures start { IfOk result (λ octets. octets.ref_ptr ≡ buffer.entry.ref_ptr) }
        ensures err { IfErr result (λ e.
            IsTooShort (length buffer.entry.now) (Self.encoding self.now) e.kind
            ⊎ Stops (Self.encoding self.now) (Self.re_reads self.now) e.kind) }
    {
        let len = usize::from(self.encoded_len()?);
        if len > buffer.len() {
            return Err(Error::from_kind(ErrorKind::Overlength));
        }
        let mut writer = BackSlice::new(&mut buffer[..len]);
        self.encode_back(&mut writer)?;
        Ok(writer.finish())
    }

    /// Returns the encoding in a vector. The value is measured once, and then written from the
    /// back, so the time grows with the number of octets at any depth of nesting.
    ///
    /// # Errors
    /// `ErrorKind::Overflow` (9) if there are more than 4294967295 octets;
    /// `ErrorKind::Memory` (1) if there are no more than these and memory runs out, or if items
    /// are read again and memory runs out.
    fn to_der(&self, alloc: Global) -> Result<Vec<u8>, Error>
        ensures ok { IfOk result (λ octets. octets.items ≡ Self.encoding self.now) }
        ensures fits { OnOk result (length (Self.encoding self.now) < 2 ^ 32) }
        ensures err { IfErr result (λ e.
            NoVector (Self.encoding self.now) (Self.re_reads self.now) e.kind) }
    {
        let mut writer = BackVec::with_room(alloc, self.encoded_len()?)?;
        self.encode_back(&mut writer)?;
        Ok(writer.finish())
    }
}
