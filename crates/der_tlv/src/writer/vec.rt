//! A writer into a vector.

ghost use Rattle.std.specs.Prelude.{◌≡◌, ◌≤◌, [], ◌∷◌, take, IfOk, IfErr, false, OnOk, OnErr};
ghost use Rattle.der_tlv.specs.Writing.{WriterState, Writes};
ghost use Rattle.der_tlv.specs.declared.error.ErrorKind.TheVariants.{Memory};

use crate::error::{Error, ErrorKind};
use crate::writer::Writer;
use std::alloc::Global;

/// A writer into a vector, which grows as needed.
///
/// If growing is refused (1), the octets stay as they were; after that each write is refused
/// (`ErrorKind::Failed`, 17).
#[derive(Debug, Drop)]
pub struct VecWriter {
    octets: Vec<u8>,
    failed: bool,
}

impl VecWriter {
    ghost use Rattle.der_tlv.specs.Views.{vec_writer_state};

    /// Makes a writer that holds nothing, and takes no memory yet.
    pub fn new(alloc: Global) -> VecWriter
        ensures taken { (vec_writer_state result).taken ≡ [] }
        ensures ready { (vec_writer_state result).failed ≡ false }
    {
        VecWriter {
            octets: Vec::new(alloc),
            failed: false,
        }
    }

    /// Makes a writer that holds nothing and has space for `capacity` octets.
    ///
    /// # Errors
    /// `ErrorKind::Memory` (1) if memory runs out.
    pub fn with_capacity(alloc: Global, capacity: usize) -> Result<VecWriter, Error>
        ensures taken { IfOk result (λ w. (vec_writer_state w).taken ≡ []) }
        ensures ready { IfOk result (λ w. (vec_writer_state w).failed ≡ false) }
        ensures room { IfOk result (λ w. capacity ≤ (vec_writer_state w).room) }
        ensures err { IfErr result (λ e. e.kind ≡ Memory) }
    {
        match Vec::with_capacity(alloc, capacity) {
            Ok(octets) => Ok(VecWriter {
                octets,
                failed: false,
            }),
            Err(_) => Err(Error::from_kind(ErrorKind::Memory)),
        }
    }

    /// Writes the first `len` octets of a block, and no more of it.
    ///
    /// # Errors
    /// As `write`.
    #[inline(never)]
    fn write_few(&mut self, block: [u8; 8], len: usize) -> Result<(), Error>
        requires { len ≤ 8 }
        ensures written { Writes (take len block) (vec_writer_state self.old)
            (vec_writer_state self.new) result }
        ensures ready { OnOk result ((vec_writer_state self.old).failed ≡ false) }
        ensures kept { OnErr result
            ((vec_writer_state self.new).taken ≡ (vec_writer_state self.old).taken) }
    {
        self.write(&block[..len])
    }

    /// Returns the octets.
    pub fn finish(self) -> Vec<u8>
        ensures { result.items ≡ (vec_writer_state self).taken }
    {
        self.octets
    }
}

impl Writer for VecWriter {
    ghost use Rattle.der_tlv.specs.Views.{vec_writer_state};

    ghost state = { vec_writer_state };

    #[inline]
    fn write(&mut self, octets: &[u8]) -> Result<(), Error>
        ensures written { Writes octets.now (vec_writer_state self.old)
            (vec_writer_state self.new) result }
        ensures ready { OnOk result ((vec_writer_state self.old).failed ≡ false) }
        ensures kept { OnErr result
            ((vec_writer_state self.new).taken ≡ (vec_writer_state self.old).taken) }
    {
        if self.failed {
            return Err(Error::from_kind(ErrorKind::Failed));
        }
        match self.octets.extend_from_slice(octets) {
            Ok(()) => Ok(()),
            Err(_) => {
                self.failed = true;
                Err(Error::from_kind(ErrorKind::Memory))
            }
        }
    }

    #[inline]
    fn write_byte(&mut self, octet: u8) -> Result<(), Error>
        ensures written { Writes (octet ∷ []) (vec_writer_state self.old)
            (vec_writer_state self.new) result }
        ensures ready { OnOk result ((vec_writer_state self.old).failed ≡ false) }
        ensures kept { OnErr result
            ((vec_writer_state self.new).taken ≡ (vec_writer_state self.old).taken) }
    {
        self.write(&[octet])
    }

    // Copies the whole block if it fits the capacity, and then removes the octets that are too
    // many.
    #[inline(always)]
    fn write_front(&mut self, block: [u8; 8], len: usize) -> Result<(), Error>
        requires { len ≤ 8 }
        ensures written { Writes (take len block) (vec_writer_state self.old)
            (vec_writer_state self.new) result }
        ensures ready { OnOk result ((vec_writer_state self.old).failed ≡ false) }
        ensures kept { OnErr result
            ((vec_writer_state self.new).taken ≡ (vec_writer_state self.old).taken) }
    {
        let held = self.octets.len();
        if self.failed || self.octets.capacity() - held < 8 {
            return self.write_few(block, len);
        }
        match self.octets.extend_from_slice(&block) {
            Ok(()) => {
                let octets = &mut self.octets;
                octets.truncate(held + len);
                Ok(())
            }
            Err(_) => self.write_few(block, len),
        }
    }
}
