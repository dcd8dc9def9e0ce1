//! Owned octets whose number fits a length.

ghost use Rattle.std.specs.Prelude.{◌≡◌, ◌↔◌, ◌^◌, ◌<◌, [], length, IsTrue, IsOk, IfOk, IfErr};
ghost use Rattle.der_tlv.specs.declared.error.ErrorKind.TheVariants.{Overflow};

use crate::bytes_ref::BytesRef;
use crate::error::Error;
use crate::length::Length;
use std::alloc::AllocError;

/// Owned octets, at most 4294967295 of them.
#[derive(Debug, Drop, PartialEq, Eq, PartialOrd, Ord, Hash)]
pub struct BytesOwned {
    /// The octets.
    pub octets: Vec<u8>,
    ghost short: { length octets.items < 2 ^ 32 },
}

impl BytesOwned {
    /// Wraps these octets.
    ///
    /// # Errors
    /// `ErrorKind::Overflow` (9) for more than 4294967295 octets.
    pub fn new(octets: Vec<u8>) -> Result<BytesOwned, Error>
        ensures ok { IsOk result ↔ (length octets.items < 2 ^ 32) }
        ensures value { IfOk result (λ b. b.octets.items ≡ octets.items) }
        ensures err { IfErr result (λ e. e.kind ≡ Overflow) }
    {
        let _len = Length::of(octets.len())?;
        Ok(BytesOwned { octets })
    }

    /// Returns the octets.
    pub fn as_slice(&self) -> &[u8]
        ensures { result.now ≡ self.now.octets.items }
    {
        &self.octets
    }

    /// Borrows the octets.
    pub fn to_ref(&self) -> BytesRef<'_>
        ensures { result.octets.now ≡ self.now.octets.items }
    {
        BytesRef {
            octets: self.as_slice(),
        }
    }

    /// Returns the vector of the octets.
    pub fn into_vec(self) -> Vec<u8>
        ensures { result.items ≡ self.octets.items }
    {
        self.octets
    }

    /// Returns the number of octets.
    pub fn len(&self) -> Length
        ensures { result ≡ length self.now.octets.items }
    {
        Length::new(self.octets.len() as u32)
    }

    /// Returns whether there are no octets.
    pub fn is_empty(&self) -> bool
        ensures { IsTrue result ↔ (self.now.octets.items ≡ []) }
    {
        self.octets.is_empty()
    }
}

impl Clone for BytesOwned {
    ghost is_clone = { λ v w. w.octets.items ≡ v.octets.items };

    fn clone(&self) -> Result<BytesOwned, AllocError> {
        let copy = self.octets.clone()?;
        Ok(BytesOwned { octets: copy })
    }
}
