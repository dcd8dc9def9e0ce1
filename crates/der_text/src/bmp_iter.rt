//! The units and the characters of a BMPString in order.

ghost use Rattle.std.specs.Prelude.{◌≡◌, true, length};
ghost use Rattle.std.specs.Iterator.{YieldsFirst, item_count};
ghost use Rattle.std.specs.Str.{all_scalars};
ghost use Rattle.der_text.specs.BmpUnits.{units};

use std::iter::FusedIterator;
use std::marker::Model;

/// The units of 16 bits that are left, in order.
///
/// Its view is the list of their numbers.
#[derive(Debug, Drop)]
pub struct BmpCodepoints<'a> {
    rest: &'a [u8],
}

impl<'a> Model for BmpCodepoints<'a> {
    ghost use Rattle.std.specs.Prelude.{ℕ, List};
    ghost use Rattle.der_text.specs.BmpUnits.{units};

    ghost Value = { List ℕ };

    ghost view = { λ it. units it.rest.now };
}

impl<'a> BmpCodepoints<'a> {
    // Makes an iterator over the units in octets, high octet first.
    pub(crate) fn new(octets: &'a [u8]) -> BmpCodepoints<'a>
        ensures { result ≡ units octets.now }
    {
        BmpCodepoints { rest: octets }
    }
}

impl<'a> Iterator for BmpCodepoints<'a> {
    type Item = u16;

    ghost next_gives = { YieldsFirst (λ rest. rest) };

    ghost remaining = { item_count (λ rest. rest) };

    fn next(&mut self) -> Option<u16> {
        match self.rest {
            [high, low, rest @ ..] => {
                self.rest = rest;
                Some(*high as u16 * 256 + *low as u16)
            }
            _ => None,
        }
    }

    fn size_hint(&self) -> (usize, Option<usize>) {
        let len = self.len();
        (len, Some(len))
    }
}

impl<'a> ExactSizeIterator for BmpCodepoints<'a> {
    /// Returns the number of units that are left.
    #[tactic(auto, using(crate::proofs::Pairs::units_len))]
    fn len(&self) -> usize
        ensures units { result ≡ length self.now }
    {
        self.rest.len() / 2
    }
}

impl<'a> FusedIterator for BmpCodepoints<'a> {}

/// The characters that are left, in order.
///
/// Its view is the list of their codes.
#[derive(Debug, Drop)]
pub struct BmpChars<'a> {
    units: BmpCodepoints<'a>,
}

impl<'a> Model for BmpChars<'a> {
    ghost use Rattle.std.specs.Prelude.{◌≡◌, ℕ, List, true};
    ghost use Rattle.std.specs.Str.{all_scalars};

    ghost Value = { List ℕ };

    ghost view = { λ it. it.units };

    ghost invariant = { λ it. all_scalars it.units ≡ true };
}

impl<'a> BmpChars<'a> {
    // Makes an iterator over the characters whose codes are these units.
    pub(crate) fn new(codepoints: BmpCodepoints<'a>) -> BmpChars<'a>
        requires { all_scalars codepoints ≡ true }
        ensures { result ≡ codepoints.entry }
    {
        BmpChars { units: codepoints }
    }
}

impl<'a> Iterator for BmpChars<'a> {
    type Item = char;

    ghost next_gives = { YieldsFirst (λ rest. rest) };

    ghost remaining = { item_count (λ rest. rest) };

    fn next(&mut self) -> Option<char> {
        match self.units.next() {
            Some(unit) => match char::from_u32(unit as u32) {
                Some(character) => Some(character),
                None => unreachable!(),
            },
            None => None,
        }
    }

    fn size_hint(&self) -> (usize, Option<usize>) {
        self.units.size_hint()
    }
}

impl<'a> ExactSizeIterator for BmpChars<'a> {
    /// Returns the number of characters that are left.
    fn len(&self) -> usize
        ensures characters { result ≡ length self.now }
    {
        self.units.len()
    }
}

impl<'a> FusedIterator for BmpChars<'a> {}
