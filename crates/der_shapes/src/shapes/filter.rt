//! Filter, a CHOICE of 3 alternatives.
//!
//! Made by tools/asn1 from shapes.asn1.

ghost use Rattle.std.specs.Prelude.{◌≡◌, false, refl, true};
ghost use Rattle.der_elem.specs.Accepting.{IsTlv};
ghost use Rattle.der_elem.specs.FirstTags.{HasFirstTag};
ghost use Rattle.der_elem.specs.FormatMakers.{mapped_format};
ghost use Rattle.der_elem.specs.KnownTagLaws.{known_either, own_is_known};
ghost use Rattle.der_elem.specs.TaggedLaws.{tlv_tagged};
ghost use Rattle.der_modules.specs.Asn1.{parse_of};
ghost use Rattle.der_modules.specs.MemberLaws.{copies_of, same_copies};
ghost use Rattle.der_modules.specs.Members.{seen_choice};
ghost use Rattle.der_shapes.specs.Shapes.Filter.{tree_of};
ghost use Rattle.der_shapes.specs.Shapes.Grammar.{filter};
ghost use Rattle.der_shapes.specs.contracts.shapes.filter.FilterEq.TheImpl.Laws as filter_eq;
ghost use Rattle.der_shapes.specs.declared.shapes.filter.Filter.TheVariants as of;

use der_elem::{
    Choice, Decode, DecodeField, DerOrd, Duplicate, DuplicateIsEqual, EncodeValue, EncodingEq,
    Form, FormValue, KnownTags, Tagged,
};
use der_fields::{Implicit, OneOf, cmp_headers};
use der_modules::{Choosing, CopyLaws, copy_of};
use der_nest::SequenceRef;
use der_opaque::OctetStringRef;
use der_tlv::{BackWriter, Error, Length, Source, Tag, Writer};
use std::alloc::Global;
use std::cmp::Ordering;

/// The alternatives, as a tree.
type Tree<'a> = OneOf<
    OneOf<Implicit<SequenceRef<'a>, 0>, Implicit<SequenceRef<'a>, 1>>,
    Implicit<OctetStringRef<'a>, 2>,
>;

/// ```text
/// Filter ::= CHOICE {
///     and      [0] SET OF Filter,
///     not      [1] Filter,
///     present  [2] OCTET STRING }
/// ```
///
/// Reading refuses a tag that no alternative has (`ErrorKind::TagUnexpected`, 4), and the
/// alternative's faults.
///
/// 'and' leads back to Filter: its contents octets are kept, and not read.
///
/// 'not' leads back to Filter: its contents octets are kept, and not read.
#[derive(Clone, Copy, Debug, PartialEq, Eq)]
pub enum Filter<'a> {
    /// `and`, `[0] SET OF Filter`.
    And(Implicit<SequenceRef<'a>, 0>),
    /// `not`, `[1] Filter`.
    Not(Implicit<SequenceRef<'a>, 1>),
    /// `present`, `[2] OCTET STRING`.
    Present(Implicit<OctetStringRef<'a>, 2>),
}

impl<'a> Form for Filter<'a> {
    ghost encoding = { λ v. ⟦<Tree<'a> as Form>⟧.encoding (tree_of v) };

    ghost comparable = { λ v w. ⟦<Tree<'a> as Form>⟧.comparable (tree_of v) (tree_of w) };

    ghost re_reads = { λ v. ⟦<Tree<'a> as Form>⟧.re_reads (tree_of v) };

    ghost accepts = { λ rules v. ⟦<Tree<'a> as Form>⟧.accepts rules (tree_of v) };

    ghost parse = { ⟦<Tree<'a> as Form>⟧.parse };

    ghost tags = { ⟦<Tree<'a> as Form>⟧.tags };

    ghost first_tag_of = { λ v. ⟦<Tree<'a> as Form>⟧.first_tag_of (tree_of v) };

    ghost readable = { λ v. ⟦<Tree<'a> as Form>⟧.readable (tree_of v) };

    ghost TAKES_MEMORY = { ⟦<Tree<'a> as Form>⟧.TAKES_MEMORY };

    ghost FAULTS_FIRST = { ⟦<Tree<'a> as Form>⟧.FAULTS_FIRST };

    ghost parse_of_accepted = { λ rules v. ⟦<Tree<'a> as Form>⟧.parse_of_accepted rules (tree_of v) };

    ghost faults_of_octets = { ⟦<Tree<'a> as Form>⟧.faults_of_octets };

    ghost begins = { λ rules v. ⟦<Tree<'a> as Form>⟧.begins rules (tree_of v) };

    ghost begins_first = { λ rules v. ⟦<Tree<'a> as Form>⟧.begins_first rules (tree_of v) };

    ghost same_length = { λ rules v. ⟦<Tree<'a> as Form>⟧.same_length rules (tree_of v) };

    ghost accepts_encoding = { λ rules v. ⟦<Tree<'a> as Form>⟧.accepts_encoding rules (tree_of v) };

    ghost only_readable = { λ rules v. ⟦<Tree<'a> as Form>⟧.only_readable rules (tree_of v) };

    ghost accepts_comparable = { λ rules v w. ⟦<Tree<'a> as Form>⟧.accepts_comparable rules (tree_of v) (tree_of w) };

    ghost re_reads_memory = { λ v. ⟦<Tree<'a> as Form>⟧.re_reads_memory (tree_of v) };
}

impl<'a> FormValue for Filter<'a> {
    ghost value = { mapped_format tree_of ⟦<Tree<'a> as FormValue>⟧.value };
}

impl<'a> Tagged for Filter<'a> {
    ghost tag_of = { λ v. ⟦<Tree<'a> as Tagged>⟧.tag_of (tree_of v) };

    fn tag(&self) -> Tag {
        match self {
            Filter::And(value) => value.tag(),
            Filter::Not(value) => value.tag(),
            Filter::Present(value) => value.tag(),
        }
    }

    ghost encoding_is = { ⟦<Filter<'a> as Choosing>⟧.choice.has_tag.encoding_is };

    ghost accepted_is_tlv = { λ rules v b. elim v as (λ k. ⟦<Tree<'a> as Form>⟧.accepts rules (tree_of k) b → IsTlv b) [ of.And x ↦ λ a. tlv_tagged _ ⟦<Implicit<SequenceRef<'a>, 0> as FormValue>⟧.value.accepts rules x b a.0.0 | of.Not x ↦ λ a. tlv_tagged _ ⟦<Implicit<SequenceRef<'a>, 1> as FormValue>⟧.value.accepts rules x b a.0.0 | of.Present x ↦ λ a. tlv_tagged _ ⟦<Implicit<OctetStringRef<'a>, 2> as FormValue>⟧.value.accepts rules x b a.0 ] };

    ghost own_tag = { ⟦<Filter<'a> as Choosing>⟧.choice.has_tag.own_tag };

    ghost first_tag_is = { ⟦<Filter<'a> as Choosing>⟧.choice.has_tag.first_tag_is };

    ghost re_reads_alike = { λ v. elim v as (λ k. ⟦<Tree<'a> as FormValue>⟧.value.re_reads (tree_of k) ≡ true → ⟦<Tree<'a> as Form>⟧.re_reads (tree_of k) ≡ true) [ of.And x ↦ λ h. h | of.Not x ↦ λ h. h | of.Present x ↦ λ h. h ] };

    ghost comparable_alike = { λ v w h. tt };
}

impl<'a> Choice for Filter<'a> {
    fn can_decode(tag: Tag) -> bool
        ensures { result ≡ ⟦<Tree<'a> as Form>⟧.tags tag }
    {
        Tree::<'a>::can_decode(tag)
    }

    ghost has_first_tag = { λ v. elim v as (λ k. HasFirstTag (⟦<Tree<'a> as Form>⟧.first_tag_of (tree_of k))) [ of.And x ↦ record { tag = _; is_tag = refl } | of.Not x ↦ record { tag = _; is_tag = refl } | of.Present x ↦ record { tag = _; is_tag = refl } ] };
}

impl<'a> KnownTags for Filter<'a> {
    ghost known_tags = { ⟦<Tree<'a> as KnownTags>⟧.known_tags };

    ghost MAY_BE_ABSENT = { false };

    ghost are_known = { (known_either ⟦<OneOf<Implicit<SequenceRef<'a>, 0>, Implicit<SequenceRef<'a>, 1>> as KnownTags>⟧.known_tags ⟦<Implicit<OctetStringRef<'a>, 2> as KnownTags>⟧.known_tags ⟦<OneOf<Implicit<SequenceRef<'a>, 0>, Implicit<SequenceRef<'a>, 1>> as Form>⟧.tags ⟦<Implicit<OctetStringRef<'a>, 2> as Form>⟧.tags (known_either ⟦<Implicit<SequenceRef<'a>, 0> as KnownTags>⟧.known_tags ⟦<Implicit<SequenceRef<'a>, 1> as KnownTags>⟧.known_tags ⟦<Implicit<SequenceRef<'a>, 0> as Form>⟧.tags ⟦<Implicit<SequenceRef<'a>, 1> as Form>⟧.tags (own_is_known _) (own_is_known _)) (own_is_known _)) };

    ghost is_there = { λ e v. elim v as (λ k. HasFirstTag (⟦<Tree<'a> as Form>⟧.first_tag_of (tree_of k))) [ of.And x ↦ record { tag = _; is_tag = refl } | of.Not x ↦ record { tag = _; is_tag = refl } | of.Present x ↦ record { tag = _; is_tag = refl } ] };
}

impl<'a, R: Source<'a>> Decode<'a, R> for Filter<'a> {
    ghost TAKES_MEMORY = { false };

    const TAKES_MEMORY: bool = false;

    fn decode(alloc: Global, reader: &mut R) -> Result<Filter<'a>, Error> {
        match Tree::<'a>::decode(alloc, reader) {
            Ok(OneOf::First(OneOf::First(value))) => Ok(Filter::And(value)),
            Ok(OneOf::First(OneOf::Other(value))) => Ok(Filter::Not(value)),
            Ok(OneOf::Other(value)) => Ok(Filter::Present(value)),
            Err(e) => Err(e),
        }
    }

    ghost takes_memory_is = { refl };
}

impl<'a, R: Source<'a>> DecodeField<'a, R> for Filter<'a> {
    ghost TAKES_MEMORY = { false };

    const TAKES_MEMORY: bool = false;

    fn decode_field(alloc: Global, reader: &mut R) -> Result<Filter<'a>, Error> {
        Filter::decode(alloc, reader)
    }

    ghost takes_memory_is = { refl };
}

impl<'a> EncodeValue for Filter<'a> {
    fn value_len(&self) -> Result<Length, Error> {
        match self {
            Filter::And(value) => value.value_len(),
            Filter::Not(value) => value.value_len(),
            Filter::Present(value) => value.value_len(),
        }
    }

    fn encode_value<W: Writer>(&self, writer: &mut W) -> Result<(), Error> {
        match self {
            Filter::And(value) => value.encode_value(writer),
            Filter::Not(value) => value.encode_value(writer),
            Filter::Present(value) => value.encode_value(writer),
        }
    }

    fn encode_value_back<W: BackWriter>(&self, writer: &mut W) -> Result<(), Error> {
        match self {
            Filter::And(value) => value.encode_value_back(writer),
            Filter::Not(value) => value.encode_value_back(writer),
            Filter::Present(value) => value.encode_value_back(writer),
        }
    }
}

impl<'a> DerOrd for Filter<'a> {
    fn der_cmp(&self, other: &Filter<'a>) -> Result<Ordering, Error> {
        match (self, other) {
            (Filter::And(value), Filter::And(other)) => value.der_cmp(other),
            (Filter::Not(value), Filter::Not(other)) => value.der_cmp(other),
            (Filter::Present(value), Filter::Present(other)) => value.der_cmp(other),
            _ => cmp_headers(self, other),
        }
    }
}

impl<'a> Choosing for Filter<'a> {
    ghost choice = { seen_choice tree_of ⟦<Filter<'a> as PartialEq>⟧.eq ⟦<Tree<'a> as Choosing>⟧.choice
        (λ v w. elim v as (λ k. ⟦<Filter<'a> as PartialEq>⟧.eq k w ≡ ⟦<Tree<'a> as Choosing>⟧.choice.eq (tree_of k) (tree_of w)) [
          | of.And x ↦ elim w as (λ k. ⟦<Filter<'a> as PartialEq>⟧.eq (of.And x) k ≡ ⟦<Tree<'a> as Choosing>⟧.choice.eq (tree_of (of.And x)) (tree_of k)) [ of.And y ↦ refl | of.Not y ↦ refl | of.Present y ↦ refl ]
          | of.Not x ↦ elim w as (λ k. ⟦<Filter<'a> as PartialEq>⟧.eq (of.Not x) k ≡ ⟦<Tree<'a> as Choosing>⟧.choice.eq (tree_of (of.Not x)) (tree_of k)) [ of.And y ↦ refl | of.Not y ↦ refl | of.Present y ↦ refl ]
          | of.Present x ↦ elim w as (λ k. ⟦<Filter<'a> as PartialEq>⟧.eq (of.Present x) k ≡ ⟦<Tree<'a> as Choosing>⟧.choice.eq (tree_of (of.Present x)) (tree_of k)) [ of.And y ↦ refl | of.Not y ↦ refl | of.Present y ↦ refl ]
        ]) };
}

impl<'a> EncodingEq for Filter<'a> {
    ghost encoding_eq = { ⟦<Filter<'a> as Choosing>⟧.choice.equal };
}

impl<'a> CopyLaws for Filter<'a> {
    ghost copies = { copies_of ((same_copies ⟦<Filter<'a> as Form>⟧.encoding ⟦<Filter<'a> as Form>⟧.comparable ⟦<Filter<'a> as Form>⟧.re_reads ⟦<Filter<'a> as PartialEq>⟧.eq filter_eq.laws-law.refl)) };
}

impl<'a> Duplicate for Filter<'a> {
    ghost is_copy = { λ v w. w ≡ v };

    ghost takes_memory_to_copy = { false };

    fn duplicate(&self) -> Result<Filter<'a>, Error> {
        Ok(copy_of(self))
    }

    ghost copy_encoding = { ⟦<Filter<'a> as CopyLaws>⟧.copies.laws.octets_are };

    ghost copy_comparable = { ⟦<Filter<'a> as CopyLaws>⟧.copies.laws.comparable_are };

    ghost copy_re_reads = { ⟦<Filter<'a> as CopyLaws>⟧.copies.laws.re_reads_are };
}

impl<'a> DuplicateIsEqual for Filter<'a> {
    ghost copy_is_equal = { ⟦<Filter<'a> as CopyLaws>⟧.copies.laws.equal_are };
}

/// What is read as `Filter` is what the grammar page says.
pub fn grammar_of_filter<'a>()
    ensures { ⟦<Filter<'a> as Form>⟧.parse ≡ parse_of filter }
{}
