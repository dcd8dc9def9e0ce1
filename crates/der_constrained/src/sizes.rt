//! Sizes of strings and lists (X.680 51.5).

ghost use Rattle.std.specs.Prelude.{◌≡◌, ◌<◌, ◌^◌, chars, length};
ghost use Rattle.der_constrained.specs.Sizes.{in_sizes, size_in_bits, size_in_characters, size_in_octets};
ghost use Rattle.der_constrained.specs.Components.{size_in_components};

use crate::components::count_components;
use crate::constraint::Constraint;
use der_ascii::CharacterStringRef;
use der_bits::BitStringRef;
use der_elem::Form;
use der_lists::{ListRef, SetRef, UnorderedSetRef};
use der_opaque::OctetStringRef;
use der_simple::SimpleStringRef;
use der_text::Utf8StringRef;

/// `SIZE (LEAST..GREATEST)`: the number of characters of a string of characters, of octets of an
/// OCTET STRING, of bits of a BIT STRING, or of components of a SEQUENCE OF or a SET OF.
pub struct HasSize<const LEAST: u32, const GREATEST: u32>;

/// Returns whether the size is allowed.
fn is_in_sizes(least: u32, greatest: u32, size: usize) -> bool
    ensures { result ≡ in_sizes least greatest size }
{
    least as usize <= size && size <= greatest as usize
}

/// Returns whether the number of encodings in the octets is allowed.
fn components_in_sizes(least: u32, greatest: u32, octets: &[u8]) -> bool
    requires { length octets.now < 2 ^ 32 }
    ensures { result ≡ size_in_components least greatest octets.now }
{
    is_in_sizes(least, greatest, count_components(octets))
}

/// Returns the number of characters in a text.
#[tactic(auto, using(std::proofs::lemmas::Str::chars_from_encodes))]
fn character_count(text: &str) -> usize
    ensures { result ≡ length (chars text.now) }
{
    text.chars().count()
}

impl<'a, const LEAST: u32, const GREATEST: u32> Constraint<OctetStringRef<'a>>
    for HasSize<LEAST, GREATEST> {
    ghost allows = { size_in_octets LEAST GREATEST };

    fn allows(value: &OctetStringRef<'a>) -> bool {
        is_in_sizes(LEAST, GREATEST, value.as_bytes().len())
    }
}

impl<'a, const LEAST: u32, const GREATEST: u32> Constraint<BitStringRef<'a>>
    for HasSize<LEAST, GREATEST> {
    ghost allows = { size_in_bits LEAST GREATEST };

    fn allows(value: &BitStringRef<'a>) -> bool {
        is_in_sizes(LEAST, GREATEST, value.bit_len())
    }
}

impl<'a, const NUMBER: u8, const LEAST: u32, const GREATEST: u32> Constraint<
    CharacterStringRef<'a, NUMBER>,
> for HasSize<LEAST, GREATEST> {
    ghost allows = { size_in_octets LEAST GREATEST };

    fn allows(value: &CharacterStringRef<'a, NUMBER>) -> bool {
        is_in_sizes(LEAST, GREATEST, value.as_bytes().len())
    }
}

impl<'a, const NUMBER: u8, const LEAST: u32, const GREATEST: u32> Constraint<
    SimpleStringRef<'a, NUMBER>,
> for HasSize<LEAST, GREATEST> {
    ghost allows = { size_in_octets LEAST GREATEST };

    fn allows(value: &SimpleStringRef<'a, NUMBER>) -> bool {
        is_in_sizes(LEAST, GREATEST, value.as_bytes().len())
    }
}

impl<'a, const LEAST: u32, const GREATEST: u32> Constraint<Utf8StringRef<'a>>
    for HasSize<LEAST, GREATEST> {
    ghost allows = { size_in_characters LEAST GREATEST };

    fn allows(value: &Utf8StringRef<'a>) -> bool {
        is_in_sizes(LEAST, GREATEST, character_count(value.as_str()))
    }
}

impl<'a, T: Form, const LEAST: u32, const GREATEST: u32> Constraint<ListRef<'a, T>>
    for HasSize<LEAST, GREATEST> {
    ghost allows = { size_in_components LEAST GREATEST };

    fn allows(value: &ListRef<'a, T>) -> bool {
        components_in_sizes(LEAST, GREATEST, value.as_bytes())
    }
}

impl<'a, T: Form, const LEAST: u32, const GREATEST: u32> Constraint<SetRef<'a, T>>
    for HasSize<LEAST, GREATEST> {
    ghost allows = { size_in_components LEAST GREATEST };

    fn allows(value: &SetRef<'a, T>) -> bool {
        components_in_sizes(LEAST, GREATEST, value.as_bytes())
    }
}

impl<'a, T: Form, const LEAST: u32, const GREATEST: u32> Constraint<UnorderedSetRef<'a, T>>
    for HasSize<LEAST, GREATEST> {
    ghost allows = { size_in_components LEAST GREATEST };

    fn allows(value: &UnorderedSetRef<'a, T>) -> bool {
        components_in_sizes(LEAST, GREATEST, value.as_bytes())
    }
}
