//! A writer whose buffer is kept.
ghost use Rattle.std.specs.Prelude.{◌≡◌, [], false};
ghost use Rattle.der_tlv.specs.Writing.{WriterState, Writes};

use der_tlv::{Error, ErrorKind, Writer};
use std::alloc::Global;

/// A writer into a vector, which keeps its buffer when it is cleared.
///
/// If the vector cannot grow (1), the octets are unchanged, and each later write returns
/// `ErrorKind::Failed` (17).
#[derive(Drop)]
pub struct KeptWriter {
    /// The octets that were written.
    pub octets: Vec<u8>,
    /// Whether a write failed.
    pub failed: bool,
}

impl KeptWriter {
    /// Makes an empty writer, which takes no memory yet.
    pub fn new(alloc: Global) -> KeptWriter
        ensures octets { result.octets.items ≡ [] }
        ensures failed { result.failed ≡ false }
    {
        KeptWriter {
            octets: Vec::new(alloc),
            failed: false,
        }
    }

    /// Removes the octets that were written.
    pub fn clear(&mut self)
        ensures octets { self.new.octets.items ≡ [] }
        ensures failed { self.new.failed ≡ false }
    {
        self.octets.clear();
        self.failed = false;
    }
}

impl Writer for KeptWriter {
    ghost use Rattle.der_lines.specs.Kept.{kept_writer_state};

    ghost state = { kept_writer_state };

    fn write(&mut self, octets: &[u8]) -> Result<(), Error> {
        if self.failed {
            return Err(Error::from_kind(ErrorKind::Failed));
        }
        match self.octets.extend_from_slice(octets) {
            Ok(()) => Ok(()),
            Err(_) => {
                self.failed = true;
                Err(Error::from_kind(ErrorKind::Memory))
            }
        }
    }
}
