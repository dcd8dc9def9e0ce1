//! A writer into a slice.

ghost use Rattle.std.specs.Prelude.{◌≡◌, ◌-◌, ◌≤◌, [], ◌∷◌, length, take, false, OnOk, OnErr};
ghost use Rattle.der_tlv.specs.Writing.{WriterState, Writes, is_overlength, refuses_first_with, room_unless_failed};

use crate::error::{Error, ErrorKind};
use crate::writer::Writer;

/// A writer into a slice.
///
/// A write that does not fit writes none of its octets and is refused (10); after that each write
/// is refused (`ErrorKind::Failed`, 17). A refused write leaves the whole slice unchanged.
#[derive(Debug, Drop)]
pub struct SliceWriter<'a> {
    bytes: &'a mut [u8],
    position: usize,
    failed: bool,
    ghost inside: { position ≤ length bytes.now },
}

impl<'a> SliceWriter<'a> {
    ghost use Rattle.der_tlv.specs.Views.{slice_writer_state, buffer_of, lender_of};

    /// Makes a writer into these octets, from the first on.
    pub fn new(bytes: &'a mut [u8]) -> SliceWriter<'a>
        ensures taken { (slice_writer_state result).taken ≡ [] }
        ensures ready { (slice_writer_state result).failed ≡ false }
        ensures room { (slice_writer_state result).room ≡ length bytes.entry.now }
        ensures start { (slice_writer_state result).start ≡ bytes.entry.ref_ptr }
        ensures buffer { buffer_of result ≡ bytes.entry.now }
        ensures lender { lender_of result ≡ bytes.entry.ghost_name }
    {
        SliceWriter {
            bytes,
            position: 0,
            failed: false,
        }
    }

    /// Returns the octets that were written: the front of the slice.
    pub fn finish(self) -> &'a [u8]
        ensures taken { result.now ≡ (slice_writer_state self.entry).taken }
        ensures start { result.ref_ptr ≡ (slice_writer_state self.entry).start }
    {
        let position = self.position;
        let bytes = self.bytes;
        &bytes[..position]
    }
}

impl<'a> Writer for SliceWriter<'a> {
    ghost use Rattle.der_tlv.specs.Views.{slice_writer_state, LeavesBuffer};

    ghost state = { slice_writer_state };

    #[inline]
    fn write(&mut self, octets: &[u8]) -> Result<(), Error>
        ensures written { Writes octets.now (slice_writer_state self.old)
            (slice_writer_state self.new) result }
        ensures ready { OnOk result ((slice_writer_state self.old).failed ≡ false) }
        ensures kept { OnErr result
            ((slice_writer_state self.new).taken ≡ (slice_writer_state self.old).taken) }
        ensures buffer { LeavesBuffer self.old self.new result }
    {
        if self.failed {
            return Err(Error::from_kind(ErrorKind::Failed));
        }
        if octets.len() > self.bytes.len() - self.position {
            self.failed = true;
            return Err(Error::from_kind(ErrorKind::Overlength));
        }
        let end = self.position + octets.len();
        self.bytes[self.position..end].copy_from_slice(octets);
        self.position = end;
        Ok(())
    }

    #[inline]
    fn write_byte(&mut self, octet: u8) -> Result<(), Error>
        ensures written { Writes (octet ∷ []) (slice_writer_state self.old)
            (slice_writer_state self.new) result }
        ensures ready { OnOk result ((slice_writer_state self.old).failed ≡ false) }
        ensures kept { OnErr result
            ((slice_writer_state self.new).taken ≡ (slice_writer_state self.old).taken) }
        ensures buffer { LeavesBuffer self.old self.new result }
    {
        self.write(&[octet])
    }

    #[inline]
    fn write_front(&mut self, block: [u8; 8], len: usize) -> Result<(), Error>
        requires { len ≤ 8 }
        ensures written { Writes (take len block) (slice_writer_state self.old)
            (slice_writer_state self.new) result }
        ensures ready { OnOk result ((slice_writer_state self.old).failed ≡ false) }
        ensures kept { OnErr result
            ((slice_writer_state self.new).taken ≡ (slice_writer_state self.old).taken) }
        ensures buffer { LeavesBuffer self.old self.new result }
    {
        self.write(&block[..len])
    }
}
