//! A writer into a vector that is filled from its end.

ghost use Rattle.std.specs.Prelude.{◌≡◌, ◌-◌, ◌≤◌, ◌<◌, ◌^◌, ◌∷◌, [], length, take, drop, IfOk, IfErr};
ghost use Rattle.der_tlv.specs.Writing.{Writes};
ghost use Rattle.der_tlv.specs.WritingBack.{Put, Opened, Closed};
ghost use Rattle.der_tlv.specs.declared.error.ErrorKind.TheVariants.{Memory};

use super::place::Place;
use crate::error::{Error, ErrorKind};
use crate::length::Length;
use crate::writer::{BackWriter, Writer};
use std::alloc::Global;

/// A writer into a vector of a known length, from its end.
#[derive(Debug, Drop)]
pub struct BackVec {
    octets: Vec<u8>,
    place: Place,
    ghost inside: { place.start ≤ length octets.items },
}

impl BackVec {
    ghost use Rattle.der_tlv.specs.Views.{back_vec_state};

    /// Makes a writer that holds nothing and takes `len` octets.
    ///
    /// # Errors
    /// `ErrorKind::Memory` (1) if memory runs out.
    pub fn with_room(alloc: Global, len: Length) -> Result<BackVec, Error>
        ensures held { IfOk result (λ w. (back_vec_state w).back.held ≡ []) }
        ensures room { IfOk result (λ w. (back_vec_state w).back.room ≡ len) }
        ensures closed { IfOk result (λ w. (back_vec_state w).back.gap ≡ 0) }
        ensures err { IfErr result (λ e. e.kind ≡ Memory) }
    {
        let count = len.value() as usize;
        match vec![in alloc; 0u8; count] {
            Ok(octets) => Ok(BackVec {
                octets,
                place: Place::at_end(count),
            }),
            Err(_) => Err(Error::from_kind(ErrorKind::Memory)),
        }
    }

    /// Returns the octets of the vector, which is full.
    pub fn finish(self) -> Vec<u8>
        requires full { (back_vec_state self).back.room ≡ 0 }
        requires closed { (back_vec_state self).back.gap ≡ 0 }
        ensures { result.items ≡ (back_vec_state self).back.held }
    {
        self.octets
    }
}

impl Writer for BackVec {
    ghost use Rattle.der_tlv.specs.Views.{back_vec_state};

    ghost state = { back_vec_state };

    fn write(&mut self, octets: &[u8]) -> Result<(), Error> {
        self.place.write(&mut self.octets, octets)
    }
}

impl BackWriter for BackVec {
    ghost use Rattle.der_tlv.specs.Views.{back_vec_state};

    #[inline]
    fn room(&self) -> Length {
        Length::new((self.place.start - self.place.gap) as u32)
    }

    #[inline]
    fn put(&mut self, octets: &[u8]) {
        self.place.put(&mut self.octets, octets);
    }

    #[inline(always)]
    fn put_end(&mut self, block: [u8; 8], len: usize) {
        self.place.put_end(&mut self.octets, block, len);
    }

    fn open_gap(&mut self, len: Length) {
        self.place.open_gap(len.value() as usize);
    }

    fn close_gap(&mut self) {
        self.place.close_gap();
    }
}
