//! The bits of a BIT STRING in order.

ghost use Rattle.std.specs.Prelude.{◌≡◌, length};
ghost use Rattle.std.specs.Iterator.{YieldsFirst, item_count};

use crate::bit_string_ref::BitStringRef;
use std::iter::FusedIterator;
use std::marker::Model;

/// The bits that are left, in order. After the last bit, `next` always returns `None`.
#[derive(Debug, Drop)]
pub struct BitStringIter<'a> {
    pub(crate) string: BitStringRef<'a>,
    pub(crate) position: usize,
}

impl<'a> Model for BitStringIter<'a> {
    ghost use Rattle.std.specs.Prelude.{◌-◌, ◌*◌, ◌≤◌, List, Bool, length};
    ghost use Rattle.der_bits.specs.BitString.{bits_from};

    ghost Value = { List Bool };

    ghost view = { λ it. bits_from it.string.octets.now it.position
        (8 * length it.string.octets.now - it.string.unused - it.position) };

    ghost invariant = { λ it. it.position ≤ 8 * length it.string.octets.now - it.string.unused };
}

impl<'a> Iterator for BitStringIter<'a> {
    type Item = bool;

    ghost next_gives = { YieldsFirst (λ rest. rest) };

    ghost remaining = { item_count (λ rest. rest) };

    fn next(&mut self) -> Option<bool> {
        match self.string.get(self.position) {
            Some(bit) => {
                self.position += 1;
                Some(bit)
            }
            None => None,
        }
    }

    fn size_hint(&self) -> (usize, Option<usize>) {
        let len = self.len();
        (len, Some(len))
    }
}

impl<'a> ExactSizeIterator for BitStringIter<'a> {
    /// Returns the number of bits that are left.
    fn len(&self) -> usize
        ensures bits { result ≡ length self.now }
    {
        self.string.bit_len() - self.position
    }
}

impl<'a> FusedIterator for BitStringIter<'a> {}
