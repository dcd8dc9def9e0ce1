//! The tests of each crate of the layer, and the functions that they share.

mod elem;
mod nest;
mod opaque;
mod recursive;
mod tlv;
mod types;

use der_elem::{Encode, FixedTag};
use der_tlv::{Error, Length, Tag};
use std::fmt::Debug;
use std::hash::{DefaultHasher, Hash, Hasher};
use std::process::Abort;

/// Asserts that `found` is equal to `wanted`.
///
/// The proof of a test processes an assertion in its own body together with all that precedes it.
/// Assertions therefore have functions of their own, and each is proved once.
fn same<T: PartialEq + Debug + Drop>(rt: &impl Abort, found: T, wanted: T) {
    assert_eq!(rt; found, wanted);
}

/// Asserts that `found` is equal to `wanted`, and shows the case if it is not.
fn same_in<C: Debug, T: PartialEq + Debug + Drop>(rt: &impl Abort, case: &C, found: T, wanted: T) {
    assert_eq!(rt; found, wanted, "{case:?}");
}

/// Asserts that the condition holds.
fn holds(rt: &impl Abort, condition: bool) {
    assert!(rt; condition);
}

/// Returns the result of a call, with a refusal as its number.
fn numbered<T>(answer: Result<T, Error>) -> Result<T, u8> {
    match answer {
        Ok(value) => Ok(value),
        Err(e) => Err(e.kind().number()),
    }
}

/// Returns the number of the refusal, or 0 if there is none.
fn refusal<T: Drop>(answer: Result<T, Error>) -> u8 {
    match answer {
        Ok(_value) => 0,
        Err(e) => e.kind.number(),
    }
}

/// Returns the tag of any type with a fixed tag, and the length of a value's encoding.
fn measured<T: Encode + FixedTag>(value: &T) -> Result<(Tag, Length), Error> {
    Ok((T::TAG, value.encoded_len()?))
}

/// Returns the same number for values with the same hash.
fn hashed<T: Hash>(value: &T) -> u64 {
    let mut hasher = DefaultHasher::new();
    value.hash(&mut hasher);
    hasher.finish()
}
