//! Byte ranges of encodings in octets.

ghost use Rattle.std.specs.Prelude.{◌≡◌, ◌+◌, ◌<◌, ◌^◌};

/// The byte range of an encoding: its offset and its length. A field that is absent has length 0.
///
/// In 30 06 02 01 05 02 01 07 the second INTEGER is at offset 5 and has 3 octets.
#[repr(C)]
#[derive(Clone, Copy, Debug, PartialEq, Eq)]
pub struct Place {
    /// The number of octets before the encoding.
    pub offset: u32,
    /// The number of octets in the encoding.
    pub length: u32,
}

impl Place {
    /// Returns the offset of the octets after the encoding, at most 4294967295.
    pub fn behind(self) -> u32
        ensures { self.offset + self.length < 2 ^ 32 → result ≡ self.offset + self.length }
    {
        self.offset.saturating_add(self.length)
    }
}
