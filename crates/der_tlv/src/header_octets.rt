//! The octets of a header, before they are written.

ghost use Rattle.std.specs.Prelude.{◌≡◌, ℕ, ◌+◌, ◌<◌, ◌≤◌, List, [], ◌∷◌, ◌++◌, length, take};
ghost use Rattle.der_tlv.specs.Identifier.{first_octet, identifier, number_octets};
ghost use Rattle.std.specs.Int.Digits.{digits_of};
ghost use Rattle.der_tlv.specs.LengthOctets.{length_octets};
ghost use Rattle.der_tlv.specs.TagDigits.{leading_octets};
ghost use Rattle.der_tlv.specs.TagParts.{class_of, is_constructed, number_of};
ghost use Rattle.der_tlv.specs.IdentifierLaws.{low_bits};

use crate::length::Length;
use crate::tag::Tag;
use std::marker::Model;

/// At most eleven octets: six identifier octets and five length octets.
#[derive(Drop)]
pub(crate) struct HeaderOctets {
    octets: [u8; 11],
    len: usize,
}

impl Model for HeaderOctets {
    ghost Value = { List ℕ };

    ghost view = { λ h. take h.len h.octets };

    ghost invariant = { λ h. h.len ≤ 11 };
}

impl HeaderOctets {
    /// Makes an empty `HeaderOctets`.
    pub(crate) fn new() -> HeaderOctets
        ensures { result ≡ [] }
    {
        HeaderOctets {
            octets: [0; 11],
            len: 0,
        }
    }

    /// Returns the octets.
    pub(crate) fn as_slice(&self) -> &[u8]
        ensures { result.now ≡ self.now }
    {
        &self.octets[..self.len]
    }

    /// Appends one octet.
    #[inline]
    pub(crate) fn push(&mut self, octet: u8)
        requires { length self.old < 11 }
        ensures { self.new ≡ self.old ++ octet ∷ [] }
    {
        self.octets[self.len] = octet;
        self.len += 1;
    }

    /// Appends the identifier octets of a tag.
    #[inline]
    pub(crate) fn push_identifier(&mut self, tag: Tag)
        requires { length self.old ≤ 5 }
        ensures octets { self.new ≡ self.old ++ identifier tag }
        ensures room { length self.new ≤ length self.old + 6 }
    {
        self.push(first_octet(tag));
        let number = tag.number().value();
        if number >= 31 {
            self.push_number(number);
        }
    }

    /// Appends length octets.
    #[inline]
    pub(crate) fn push_length(&mut self, contents_len: Length)
        requires { length self.old ≤ 6 }
        ensures { self.new ≡ self.old ++ length_octets contents_len }
    {
        let contents_len = contents_len.value();
        if contents_len < 0x80 {
            self.push(contents_len as u8);
        } else {
            self.push_long_length(contents_len);
        }
    }

    /// Appends the length octets of a length of at least 128.
    fn push_long_length(&mut self, contents_len: u32)
        requires room { length self.old ≤ 6 }
        requires long { 128 ≤ contents_len }
        ensures { self.new ≡ self.old ++ length_octets contents_len }
    {
        self.push(0x80 + octet_count(contents_len));
        self.push_octets(contents_len);
    }

    /// Appends the octets of a number, high octet first.
    fn push_octets(&mut self, number: u32)
        requires { length self.old + length (digits_of 256 number) ≤ 11 }
        ensures { self.new ≡ self.old ++ digits_of 256 number }
    {
        if number != 0 {
            self.push_octets(number / 256);
            self.push((number % 256) as u8);
        }
    }

    /// Appends a number in base 128, with bit 8 set in all octets but the last.
    fn push_number(&mut self, number: u32)
        requires { length self.old ≤ 6 }
        ensures octets { self.new ≡ self.old ++ number_octets number }
        ensures room { length self.new ≤ length self.old + 5 }
    {
        self.push_leading(number / 128);
        self.push((number % 128) as u8);
    }

    /// Appends a number in base 128, with bit 8 set in all octets.
    fn push_leading(&mut self, number: u32)
        requires { length self.old + length (leading_octets number) ≤ 11 }
        ensures { self.new ≡ self.old ++ leading_octets number }
    {
        if number != 0 {
            self.push_leading(number / 128);
            self.push(128 + (number % 128) as u8);
        }
    }
}

/// Returns the first identifier octet of a tag.
#[inline]
pub(crate) fn first_octet(tag: Tag) -> u8
    ensures { result ≡ first_octet (class_of tag) (is_constructed tag) (low_bits (number_of tag)) }
{
    let number = tag.number().value();
    let low = if number < 31 { number as u8 } else { 31 };
    tag.class() as u8 * 64 + u8::from(tag.is_constructed()) * 32 + low
}

/// Returns the number of octets of a number in base 256.
#[inline]
pub(crate) fn octet_count(number: u32) -> u8
    requires { 0 < number }
    ensures count { result ≡ length (digits_of 256 number) }
    ensures few { result ≤ 4 }
{
    match number {
        0..=0xff => 1,
        0x100..=0xffff => 2,
        0x1_0000..=0xff_ffff => 3,
        _ => 4,
    }
}
