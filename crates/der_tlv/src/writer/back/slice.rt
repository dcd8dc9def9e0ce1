//! A writer into a slice that is filled from its end.

ghost use Rattle.std.specs.Prelude.{◌≡◌, ◌-◌, ◌≤◌, ◌<◌, ◌^◌, ◌∷◌, [], length, take, drop};
ghost use Rattle.der_tlv.specs.Writing.{Writes};
ghost use Rattle.der_tlv.specs.WritingBack.{Put, Opened, Closed};

use super::place::Place;
use crate::error::Error;
use crate::length::Length;
use crate::writer::{BackWriter, Writer};

/// A writer into a slice, from its end.
#[derive(Debug, Drop)]
pub struct BackSlice<'a> {
    bytes: &'a mut [u8],
    place: Place,
    ghost inside: { place.start ≤ length bytes.now },
}

impl<'a> BackSlice<'a> {
    ghost use Rattle.der_tlv.specs.Views.{back_slice_state};

    /// Makes a writer into these octets, from the last on.
    pub fn new(bytes: &'a mut [u8]) -> BackSlice<'a>
        requires { length bytes.old < 2 ^ 32 }
        ensures held { (back_slice_state result).back.held ≡ [] }
        ensures room { (back_slice_state result).back.room ≡ length bytes.entry.now }
        ensures closed { (back_slice_state result).back.gap ≡ 0 }
        ensures start { (back_slice_state result).start ≡ bytes.entry.ref_ptr }
    {
        let place = Place::at_end(bytes.len());
        BackSlice { bytes, place }
    }

    /// Returns the whole slice, which is full.
    pub fn finish(self) -> &'a [u8]
        requires full { (back_slice_state self).back.room ≡ 0 }
        requires closed { (back_slice_state self).back.gap ≡ 0 }
        ensures held { result.now ≡ (back_slice_state self.entry).back.held }
        ensures start { result.ref_ptr ≡ (back_slice_state self.entry).start }
    {
        let bytes = self.bytes;
        bytes
    }
}

impl<'a> Writer for BackSlice<'a> {
    ghost use Rattle.der_tlv.specs.Views.{back_slice_state};

    ghost state = { back_slice_state };

    fn write(&mut self, octets: &[u8]) -> Result<(), Error> {
        self.place.write(self.bytes, octets)
    }
}

impl<'a> BackWriter for BackSlice<'a> {
    ghost use Rattle.der_tlv.specs.Views.{back_slice_state};

    #[inline]
    fn room(&self) -> Length {
        Length::new((self.place.start - self.place.gap) as u32)
    }

    #[inline]
    fn put(&mut self, octets: &[u8]) {
        self.place.put(self.bytes, octets);
    }

    #[inline(always)]
    fn put_end(&mut self, block: [u8; 8], len: usize) {
        self.place.put_end(self.bytes, block, len);
    }

    fn open_gap(&mut self, len: Length) {
        self.place.open_gap(len.value() as usize);
    }

    fn close_gap(&mut self) {
        self.place.close_gap();
    }
}
