//! Bit strings whose type allows a range of lengths.

ghost use Rattle.std.specs.Prelude.{◌≡◌, ◌↔◌, ◌≤◌, ℕ, IsOk, IfErr};
ghost use Rattle.der_tlv.specs.declared.error.ErrorKind.TheVariants as kinds;
ghost use Rattle.der_tlv.specs.declared.tag.Tag.TheVariants as tags;

use der_tlv::{Error, Tag};

/// A bit string whose number of bits is in a range, for example 3 to 4 flags.
pub trait AllowedLenBitString {
    ghost MIN_LEN: { ℕ };

    ghost MAX_LEN: { ℕ };

    /// The minimum number of bits.
    const MIN_LEN: u16;

    /// The maximum number of bits.
    const MAX_LEN: u16;

    /// Checks that the number of bits is in the range.
    ///
    /// # Errors
    /// `ErrorKind::Length` (7) below `MIN_LEN` or above `MAX_LEN`.
    fn check_bit_len(bit_len: u16) -> Result<(), Error>
        ensures ok { IsOk result ↔ ((MIN_LEN ≤ bit_len) × (bit_len ≤ MAX_LEN)) }
        ensures err { IfErr result (λ e. e.kind ≡ kinds.Length tags.BitString) }
    {
        if bit_len < Self::MIN_LEN || bit_len > Self::MAX_LEN {
            return Err(Error::from_kind(Tag::BitString.length_error()));
        }
        Ok(())
    }
}
