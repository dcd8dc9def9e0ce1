//! Borrowed octets whose number fits a length.

ghost use Rattle.std.specs.Prelude.{◌≡◌, ◌↔◌, ◌^◌, ◌<◌, [], length, IsTrue, IsOk, IfOk, IfErr};
ghost use Rattle.der_tlv.specs.declared.error.ErrorKind.TheVariants.{Overflow};

use crate::error::Error;
use crate::length::Length;

/// Borrowed octets, at most 4294967295 of them.
#[derive(Clone, Copy, Debug, PartialEq, Eq, PartialOrd, Ord, Hash)]
pub struct BytesRef<'a> {
    /// The octets.
    pub octets: &'a [u8],
    ghost short: { length octets.now < 2 ^ 32 },
}

impl<'a> BytesRef<'a> {
    /// Wraps these octets.
    ///
    /// # Errors
    /// `ErrorKind::Overflow` (9) for more than 4294967295 octets.
    pub fn new(octets: &'a [u8]) -> Result<BytesRef<'a>, Error>
        ensures ok { IsOk result ↔ (length octets.now < 2 ^ 32) }
        ensures value { IfOk result (λ b. b.octets.now ≡ octets.now) }
        ensures err { IfErr result (λ e. e.kind ≡ Overflow) }
    {
        match Length::of(octets.len()) {
            Ok(_) => Ok(BytesRef { octets }),
            Err(e) => Err(e),
        }
    }

    /// Returns the octets.
    pub fn as_slice(self) -> &'a [u8]
        ensures { result.now ≡ self.entry.octets.now }
    {
        self.octets
    }

    /// Returns the number of octets.
    pub fn len(self) -> Length
        ensures { result ≡ length self.entry.octets.now }
    {
        Length::new(self.octets.len() as u32)
    }

    /// Returns whether there are no octets.
    pub fn is_empty(self) -> bool
        ensures { IsTrue result ↔ (self.entry.octets.now ≡ []) }
    {
        self.octets.is_empty()
    }
}
