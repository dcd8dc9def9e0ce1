//! Equality of values by their octets, as data of a type: so a type that a module defines has one
//! line for each of its fields, and cites none of their laws.

ghost use Rattle.der_modules.specs.Members.{ChoiceOf, MemberOf, either, explicit_member, implicit_member, value_member, whole};
ghost use Rattle.der_numbers.specs.EnumeratedLaws.{numbers_decide};

use der_elem::{FormValue, OneTag, TagMarker};
use der_fields::{
    Explicit, ExplicitApplication, ExplicitApplicationTag, ExplicitPrivate, ExplicitPrivateTag,
    ExplicitTag, Implicit, ImplicitApplication, ImplicitApplicationTag, ImplicitPrivate,
    ImplicitPrivateTag, ImplicitTag, OneOf,
};
use der_numbers::{Enumerated, Enumeration};

/// The equality of a type with one tag: two values are equal if and only if their contents octets
/// are.
pub trait Member: Sized {
    ghost member: { MemberOf Self };
}

/// The equality of a type whose values determine their tags: two values are equal if and only if
/// their encodings are.
pub trait Choosing: Sized {
    ghost choice: { ChoiceOf Self };
}

impl<T: Member> Choosing for T {
    ghost choice = { whole T.member };
}

impl<A: Choosing, B: Choosing> Choosing for OneOf<A, B> {
    ghost choice = { either A.choice B.choice };
}

impl<T: Choosing, const NUMBER: u32> Member for Explicit<T, NUMBER> {
    ghost member = { explicit_member ⟦<ExplicitTag<NUMBER> as TagMarker>⟧.TAG T.choice };
}

impl<T: Choosing, const NUMBER: u32> Member for ExplicitApplication<T, NUMBER> {
    ghost member = { explicit_member ⟦<ExplicitApplicationTag<NUMBER> as TagMarker>⟧.TAG T.choice };
}

impl<T: Choosing, const NUMBER: u32> Member for ExplicitPrivate<T, NUMBER> {
    ghost member = { explicit_member ⟦<ExplicitPrivateTag<NUMBER> as TagMarker>⟧.TAG T.choice };
}

impl<T: Member + OneTag, const NUMBER: u32> Member for Implicit<T, NUMBER> {
    ghost member = { implicit_member ⟦<ImplicitTag<<T as OneTag>::Marker, NUMBER> as TagMarker>⟧.TAG T.member };
}

impl<T: Member + OneTag, const NUMBER: u32> Member for ImplicitApplication<T, NUMBER> {
    ghost member = { implicit_member ⟦<ImplicitApplicationTag<<T as OneTag>::Marker, NUMBER> as TagMarker>⟧.TAG T.member };
}

impl<T: Member + OneTag, const NUMBER: u32> Member for ImplicitPrivate<T, NUMBER> {
    ghost member = { implicit_member ⟦<ImplicitPrivateTag<<T as OneTag>::Marker, NUMBER> as TagMarker>⟧.TAG T.member };
}

impl<E: Enumeration> Member for Enumerated<E> {
    ghost member = { value_member E.Marker.TAG ⟦<Enumerated<E> as FormValue>⟧.value ⟦<Enumerated<E> as PartialEq>⟧.eq (λ v w one. numbers_decide (E.names.number_of v.value) (E.names.number_of w.value)) };
}
