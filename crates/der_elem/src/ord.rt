//! The order of values, which is that of their encodings.

ghost use Rattle.std.specs.Prelude.{◌≡◌};
ghost use Rattle.der_tlv.specs.Octets.{lex};
ghost use Rattle.der_elem.specs.Comparing.{Compares, ComparesValues};

use crate::form::{Form, FormValue};
use der_tlv::Error;
use std::cmp::Ordering;

/// The order of contents octets.
pub trait ValueOrd: FormValue {
    /// Compares the contents octets of two values lexicographically.
    ///
    /// # Errors
    /// `ErrorKind::Overflow` (9) if one has more than 4294967295 octets, `ErrorKind::Value` (13)
    /// if the two are not comparable, `ErrorKind::Memory` (1) if one reads items again and memory
    /// runs out.
    fn value_cmp(&self, other: &Self) -> Result<Ordering, Error>
        ensures { ComparesValues Self.value self.now other.now result };
}

/// The order of encodings.
pub trait DerOrd: Form {
    /// Compares the encodings of two values lexicographically.
    ///
    /// # Errors
    /// `ErrorKind::Overflow` (9) if one has more than 4294967295 octets, `ErrorKind::Value` (13)
    /// if the two are not comparable and their headers are equal, `ErrorKind::Memory` (1) if one
    /// reads items again and memory runs out.
    fn der_cmp(&self, other: &Self) -> Result<Ordering, Error>
        ensures { Compares Self.Form self.now other.now result };
}

/// A type whose `Ord` is the lexicographic order of contents octets.
pub trait OrdIsValueOrd: FormValue + Ord {
    ghost ord_is_value_ord: { (v w : Self)
        → Self.cmp v w ≡ lex (Self.value.contents v) (Self.value.contents w) };
}

impl<T: OrdIsValueOrd> ValueOrd for T {
    fn value_cmp(&self, other: &T) -> Result<Ordering, Error> {
        Ok(self.cmp(other))
    }
}
