//! A CHOICE that reaches itself.

ghost use Rattle.std.specs.Prelude.{◌≡◌, refl, false};
ghost use Rattle.der_tlv.specs.Views.{slice_reader_state};
ghost use Rattle.der_elem.specs.FirstTags.{HasFirstTag};
ghost use Rattle.der_recursive.specs.Held.{LendsAt, ReadsHeld};
ghost use Rattle.layer_tests.specs.Filter.{tree_of};
ghost use Rattle.layer_tests.specs.declared.filter.Filter.TheVariants as of;

use der_elem::{Choice, Decode, Form};
use der_fields::{Explicit, Implicit, OneOf};
use der_nest::{Kept, SequenceRef};
use der_opaque::{AnyRef, OctetStringRef};
use der_recursive::Recursive;
use der_tlv::{Error, SliceReader, Source, Tag};
use std::alloc::Global;

/// The alternatives as a tree.
type Tree<'a> = OneOf<
    OneOf<Implicit<SequenceRef<'a>, 0>, Kept<'a, Explicit<AnyRef<'a>, 2>>>,
    Implicit<OctetStringRef<'a>, 7>,
>;

/// ```text
/// Filter ::= CHOICE {
///   and     [0] SET OF Filter,
///   not     [2] Filter,
///   present [7] OCTET STRING }
/// ```
///
/// The recursive components are kept, and not read. The type of `not` says that it contains one
/// value: the tag [2] is explicit, since `Filter` is a CHOICE.
#[derive(Clone, Copy)]
pub enum Filter<'a> {
    /// `and`, `[0] SET OF Filter`.
    And(Implicit<SequenceRef<'a>, 0>),
    /// `not`, `[2] Filter`.
    Not(Kept<'a, Explicit<AnyRef<'a>, 2>>),
    /// `present`, `[7] OCTET STRING`.
    Present(Implicit<OctetStringRef<'a>, 7>),
}

impl<'a> Filter<'a> {
    ghost use Rattle.layer_tests.specs.Filter.{held_of};

    /// Returns the octets of `and` or of `not`, at index 0.
    fn held(self, index: usize) -> Option<&'a [u8]>
        ensures { LendsAt (held_of self.entry) index result }
    {
        if index > 0 {
            return None;
        }
        match self {
            Filter::And(filters) => Some(filters.value.as_bytes()),
            Filter::Not(filter) => Some(filter.as_bytes()),
            Filter::Present(_) => None,
        }
    }
}

impl<'a> Form for Filter<'a> {
    ghost encoding = { λ v. ⟦<Tree<'a> as Form>⟧.encoding (tree_of v) };

    ghost comparable = { λ v w. ⟦<Tree<'a> as Form>⟧.comparable (tree_of v) (tree_of w) };

    ghost re_reads = { λ v. ⟦<Tree<'a> as Form>⟧.re_reads (tree_of v) };

    ghost accepts = { λ rules v. ⟦<Tree<'a> as Form>⟧.accepts rules (tree_of v) };

    ghost parse = { ⟦<Tree<'a> as Form>⟧.parse };

    ghost tags = { ⟦<Tree<'a> as Form>⟧.tags };

    ghost first_tag_of = { λ v. ⟦<Tree<'a> as Form>⟧.first_tag_of (tree_of v) };

    ghost readable = { λ v. ⟦<Tree<'a> as Form>⟧.readable (tree_of v) };

    ghost TAKES_MEMORY = { ⟦<Tree<'a> as Form>⟧.TAKES_MEMORY };

    ghost FAULTS_FIRST = { ⟦<Tree<'a> as Form>⟧.FAULTS_FIRST };

    ghost parse_of_accepted = { λ rules v. ⟦<Tree<'a> as Form>⟧.parse_of_accepted rules (tree_of v) };

    ghost faults_of_octets = { ⟦<Tree<'a> as Form>⟧.faults_of_octets };

    ghost begins = { λ rules v. ⟦<Tree<'a> as Form>⟧.begins rules (tree_of v) };

    ghost begins_first = { λ rules v. ⟦<Tree<'a> as Form>⟧.begins_first rules (tree_of v) };

    ghost same_length = { λ rules v. ⟦<Tree<'a> as Form>⟧.same_length rules (tree_of v) };

    ghost accepts_encoding = { λ rules v. ⟦<Tree<'a> as Form>⟧.accepts_encoding rules (tree_of v) };

    ghost only_readable = { λ rules v. ⟦<Tree<'a> as Form>⟧.only_readable rules (tree_of v) };

    ghost accepts_comparable = { λ rules v w. ⟦<Tree<'a> as Form>⟧.accepts_comparable rules (tree_of v) (tree_of w) };

    ghost re_reads_memory = { λ v. ⟦<Tree<'a> as Form>⟧.re_reads_memory (tree_of v) };
}

impl<'a> Choice for Filter<'a> {
    fn can_decode(tag: Tag) -> bool
        ensures { result ≡ ⟦<Tree<'a> as Form>⟧.tags tag }
    {
        Tree::<'a>::can_decode(tag)
    }

    ghost has_first_tag = { λ v. elim v as (λ k. HasFirstTag (⟦<Tree<'a> as Form>⟧.first_tag_of (tree_of k))) [ of.And x ↦ record { tag = _; is_tag = refl } | of.Not x ↦ record { tag = _; is_tag = refl } | of.Present x ↦ record { tag = _; is_tag = refl } ] };
}

impl<'a, R: Source<'a>> Decode<'a, R> for Filter<'a> {
    ghost TAKES_MEMORY = { false };

    const TAKES_MEMORY: bool = false;

    fn decode(alloc: Global, reader: &mut R) -> Result<Filter<'a>, Error> {
        match Tree::<'a>::decode(alloc, reader) {
            Ok(OneOf::First(OneOf::First(value))) => Ok(Filter::And(value)),
            Ok(OneOf::First(OneOf::Other(value))) => Ok(Filter::Not(value)),
            Ok(OneOf::Other(value)) => Ok(Filter::Present(value)),
            Err(e) => Err(e),
        }
    }

    ghost takes_memory_is = { refl };
}

impl<'a> Recursive for Filter<'a> {
    ghost use Rattle.layer_tests.specs.Filter.{held_of};
    ghost use Rattle.layer_tests.specs.HeldLaws.{same_one, other_tag};

    ghost held = { held_of };

    fn read_held<'b>(
        alloc: Global,
        reader: &mut SliceReader<'b>,
        index: usize,
    ) -> Result<Option<&'b [u8]>, Error>
        ensures { ReadsHeld ⟦<Filter<'b> as Form>⟧ held_of index
            (slice_reader_state reader.old) (slice_reader_state reader.new) result }
    {
        match Filter::<'b>::decode(alloc, reader) {
            Ok(filter) => Ok(filter.held(index)),
            Err(e) => Err(e),
        }
    }

    ghost held_by_encoding = { λ v w. elim v as (λ k. ⟦<Tree<'a> as Form>⟧.encoding (tree_of k) ≡ ⟦<Tree<'a> as Form>⟧.encoding (tree_of w) → held_of k ≡ held_of w) [
      | of.And x ↦ elim w as (λ k. ⟦<Tree<'a> as Form>⟧.encoding (tree_of (of.And x)) ≡ ⟦<Tree<'a> as Form>⟧.encoding (tree_of k) → held_of (of.And x) ≡ held_of k) [ of.And y ↦ λ e. same_one _ _ _ e | of.Not y ↦ λ e. other_tag _ _ _ _ _ _ e refl | of.Present y ↦ λ e. other_tag _ _ _ _ _ _ e refl ]
      | of.Not x ↦ elim w as (λ k. ⟦<Tree<'a> as Form>⟧.encoding (tree_of (of.Not x)) ≡ ⟦<Tree<'a> as Form>⟧.encoding (tree_of k) → held_of (of.Not x) ≡ held_of k) [ of.And y ↦ λ e. other_tag _ _ _ _ _ _ e refl | of.Not y ↦ λ e. same_one _ _ _ e | of.Present y ↦ λ e. other_tag _ _ _ _ _ _ e refl ]
      | of.Present x ↦ elim w as (λ k. ⟦<Tree<'a> as Form>⟧.encoding (tree_of (of.Present x)) ≡ ⟦<Tree<'a> as Form>⟧.encoding (tree_of k) → held_of (of.Present x) ≡ held_of k) [ of.And y ↦ λ e. other_tag _ _ _ _ _ _ e refl | of.Not y ↦ λ e. other_tag _ _ _ _ _ _ e refl | of.Present y ↦ λ e. refl ]
    ] };

    ghost takes_no_memory = { refl };
}
