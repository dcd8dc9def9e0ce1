//! Constraints as types, and the sets that they make (X.680 50).

ghost use Rattle.std.specs.Prelude.{◌≡◌, ℕ, List, Bool};
ghost use Rattle.der_constrained.specs.Asn1.{union, intersection, all_except};

use der_elem::FormValue;
use std::marker::PhantomData;

/// A test for the allowed values of a type.
pub trait Constraint<T: FormValue> {
    // whether contents octets are those of an allowed value
    ghost allows: { List ℕ → Bool };

    /// Returns whether the value is allowed.
    fn allows(value: &T) -> bool
        ensures { result ≡ allows (T.value.contents value.now) };
}

/// `A | B`: the values that either constraint allows.
pub struct UnionOf<A, B> {
    constraints: PhantomData<(A, B)>,
}

impl<T: FormValue, A: Constraint<T>, B: Constraint<T>> Constraint<T> for UnionOf<A, B> {
    ghost allows = { union A.allows B.allows };

    fn allows(value: &T) -> bool {
        A::allows(value) || B::allows(value)
    }
}

/// `A ^ B`: the values that both constraints allow.
pub struct IntersectionOf<A, B> {
    constraints: PhantomData<(A, B)>,
}

impl<T: FormValue, A: Constraint<T>, B: Constraint<T>> Constraint<T> for IntersectionOf<A, B> {
    ghost allows = { intersection A.allows B.allows };

    fn allows(value: &T) -> bool {
        A::allows(value) && B::allows(value)
    }
}

/// `ALL EXCEPT A`: the values that the constraint does not allow.
pub struct AllExcept<A> {
    constraint: PhantomData<A>,
}

impl<T: FormValue, A: Constraint<T>> Constraint<T> for AllExcept<A> {
    ghost allows = { all_except A.allows };

    fn allows(value: &T) -> bool {
        !A::allows(value)
    }
}
