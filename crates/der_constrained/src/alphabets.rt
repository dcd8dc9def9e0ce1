//! Permitted alphabets (X.680 51.7) of strings whose characters have one octet each.

ghost use Rattle.std.specs.Prelude.{◌≡◌, ℕ, Bool};
ghost use Rattle.der_constrained.specs.Alphabets.{characters, either_set, permitted};

use crate::constraint::Constraint;
use der_ascii::CharacterStringRef;
use der_simple::SimpleStringRef;
use std::marker::PhantomData;

/// A set of characters, by the octet of each.
pub trait CharacterSet {
    // whether the character is one of the set
    ghost has: { ℕ → Bool };

    /// Returns whether the character is one of the set.
    fn has(octet: u8) -> bool
        ensures { result ≡ has octet };
}

/// `"FIRST".."LAST"`: the characters from one to another, both included.
pub struct CharacterRange<const FIRST: u8, const LAST: u8>;

impl<const FIRST: u8, const LAST: u8> CharacterSet for CharacterRange<FIRST, LAST> {
    ghost has = { characters FIRST LAST };

    fn has(octet: u8) -> bool {
        FIRST <= octet && octet <= LAST
    }
}

/// The characters of two sets.
pub struct CharacterUnion<A, B> {
    sets: PhantomData<(A, B)>,
}

impl<A: CharacterSet, B: CharacterSet> CharacterSet for CharacterUnion<A, B> {
    ghost has = { either_set A.has B.has };

    fn has(octet: u8) -> bool {
        A::has(octet) || B::has(octet)
    }
}

/// `FROM (S)`: each character is one of the set.
pub struct HasCharacters<S> {
    set: PhantomData<S>,
}

/// Returns whether each octet is a character of the set.
fn are_permitted<S: CharacterSet>(octets: &[u8]) -> bool
    ensures { result ≡ permitted S.has octets.now }
{
    octets.iter().all(|octet| S::has(*octet))
}

impl<'a, const NUMBER: u8, S: CharacterSet> Constraint<CharacterStringRef<'a, NUMBER>>
    for HasCharacters<S> {
    ghost allows = { permitted S.has };

    fn allows(value: &CharacterStringRef<'a, NUMBER>) -> bool {
        are_permitted::<S>(value.as_bytes())
    }
}

impl<'a, const NUMBER: u8, S: CharacterSet> Constraint<SimpleStringRef<'a, NUMBER>>
    for HasCharacters<S> {
    ghost allows = { permitted S.has };

    fn allows(value: &SimpleStringRef<'a, NUMBER>) -> bool {
        are_permitted::<S>(value.as_bytes())
    }
}
