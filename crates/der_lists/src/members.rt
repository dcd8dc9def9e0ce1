//! Equality by octets of the lists of this crate.

ghost use Rattle.std.specs.Cmp.Lexicographic.{bytes_decides};
ghost use Rattle.der_modules.specs.Members.{seen_member, value_member};

use crate::list_ref::ListRef;
use crate::non_empty_ref::NonEmptyRef;
use crate::set_ref::SetRef;
use crate::unordered_set_ref::UnorderedSetRef;
use der_elem::{Form, FormValue, OneTag, SequenceTag, SetTag, TagMarker};
use der_modules::Member;

impl<'a, T: Form> Member for ListRef<'a, T> {
    ghost member = { value_member ⟦<SequenceTag as TagMarker>⟧.TAG ⟦<ListRef<'a, T> as FormValue>⟧.value ⟦<ListRef<'a, T> as PartialEq>⟧.eq
        (λ v w one. bytes_decides v.octets.octets.now w.octets.octets.now) };
}

impl<'a, T: Form> Member for SetRef<'a, T> {
    ghost member = { value_member ⟦<SetTag as TagMarker>⟧.TAG ⟦<SetRef<'a, T> as FormValue>⟧.value ⟦<SetRef<'a, T> as PartialEq>⟧.eq
        (λ v w one. bytes_decides v.octets.octets.now w.octets.octets.now) };
}

impl<'a, T: Form> Member for UnorderedSetRef<'a, T> {
    ghost member = { value_member ⟦<SetTag as TagMarker>⟧.TAG ⟦<UnorderedSetRef<'a, T> as FormValue>⟧.value ⟦<UnorderedSetRef<'a, T> as PartialEq>⟧.eq
        (λ v w one. bytes_decides v.octets.octets.now w.octets.octets.now) };
}

impl<L: Member + OneTag> Member for NonEmptyRef<L> {
    ghost member = { seen_member L.Marker.TAG (λ v. v.list) L.member };
}
