//! Copies of values.

ghost use Rattle.std.specs.Prelude.{◌≡◌, Bool, true, false, IfOk, IfErr, IsTrue};
ghost use Rattle.std.proofs.Common.{ap, subst, sym};
ghost use Rattle.der_tlv.specs.HeaderOctets.{tlv};
ghost use Rattle.der_tlv.specs.declared.error.ErrorKind.TheVariants.{Memory};

use crate::fixed_tag::OneTag;
use crate::form::{Form, FormValue};
use der_tlv::Error;

/// A type whose values can be copied, which may take memory.
pub trait Duplicate: Form {
    // whether a value is a copy of another
    ghost is_copy: { Self → Self → Type 0 };

    // whether copying takes memory
    ghost takes_memory_to_copy: { Bool };

    /// Copies the value.
    ///
    /// # Errors
    /// `ErrorKind::Memory` (1) if memory runs out.
    fn duplicate(&self) -> Result<Self, Error>
        ensures ok { IfOk result (λ copy. is_copy self.now copy) }
        ensures kind { IfErr result (λ e. e.kind ≡ Memory) }
        ensures memory { IfErr result (λ e. takes_memory_to_copy ≡ true) };

    ghost copy_encoding: { (v w : Self) → is_copy v w → Self.encoding w ≡ Self.encoding v };

    ghost copy_comparable: { (v w x : Self) → is_copy v w → Self.comparable v x → Self.comparable w x };

    ghost copy_re_reads: { (v w : Self) → is_copy v w → Self.re_reads w ≡ Self.re_reads v };
}

/// A type whose values can be copied with their contents octets, which may take memory.
pub trait DuplicateValue: FormValue {
    // whether a value is a copy of another
    ghost is_copy_value: { Self → Self → Type 0 };

    // whether copying takes memory
    ghost takes_memory_to_copy_value: { Bool };

    /// Copies the value.
    ///
    /// # Errors
    /// `ErrorKind::Memory` (1) if memory runs out.
    fn duplicate_value(&self) -> Result<Self, Error>
        ensures ok { IfOk result (λ copy. is_copy_value self.now copy) }
        ensures kind { IfErr result (λ e. e.kind ≡ Memory) }
        ensures memory { IfErr result (λ e. takes_memory_to_copy_value ≡ true) };

    ghost copy_contents: { (v w : Self) → is_copy_value v w → Self.value.contents w ≡ Self.value.contents v };

    ghost copy_comparable_value: { (v w x : Self) → is_copy_value v w → Self.value.comparable v x
        → Self.value.comparable w x };

    ghost copy_re_reads_value: { (v w : Self) → is_copy_value v w
        → Self.value.re_reads w ≡ Self.value.re_reads v };
}

impl<T: DuplicateValue + OneTag> Duplicate for T {
    ghost is_copy = { T.is_copy_value };

    ghost takes_memory_to_copy = { T.takes_memory_to_copy_value };

    fn duplicate(&self) -> Result<T, Error> {
        self.duplicate_value()
    }

    ghost copy_encoding = { λ v w c. ap (tlv T.Marker.TAG) (T.copy_contents v w c) };

    ghost copy_comparable = { T.copy_comparable_value };

    ghost copy_re_reads = { T.copy_re_reads_value };
}

/// A `Copy` type: a copy is the value itself, and takes no memory.
pub trait CopyIsDuplicate: FormValue + Copy {}

impl<T: CopyIsDuplicate> DuplicateValue for T {
    ghost is_copy_value = { λ v w. w ≡ v };

    ghost takes_memory_to_copy_value = { false };

    fn duplicate_value(&self) -> Result<T, Error> {
        Ok(*self)
    }

    ghost copy_contents = { λ v w e. ap T.value.contents e };

    ghost copy_comparable_value = { λ v w x e f. subst (λ u. T.value.comparable u x) (sym e) f };

    ghost copy_re_reads_value = { λ v w e. ap T.value.re_reads e };
}

/// A type whose copies are equal to their sources.
pub trait DuplicateIsEqual: Duplicate + PartialEq {
    ghost copy_is_equal: { (v w : Self) → Self.is_copy v w → IsTrue (Self.eq v w) };
}

/// A type whose values are copied with their contents octets, and whose copies are equal to their
/// sources.
pub trait DuplicateValueIsEqual: DuplicateValue + PartialEq {
    ghost copy_value_is_equal: { (v w : Self) → Self.is_copy_value v w → IsTrue (Self.eq v w) };
}

impl<T: DuplicateValueIsEqual + OneTag> DuplicateIsEqual for T {
    ghost copy_is_equal = { T.copy_value_is_equal };
}

impl<T: CopyIsDuplicate + Eq> DuplicateValueIsEqual for T {
    ghost copy_value_is_equal = { λ v w e. subst (λ u. IsTrue (T.eq v u)) (sym e) (T.Eq.laws.refl v) };
}
