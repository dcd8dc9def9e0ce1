//! Limited, a CHOICE of 2 alternatives.
//!
//! Made by tools/asn1 from shapes.asn1.

ghost use Rattle.std.specs.Prelude.{◌≡◌, false, refl, true};
ghost use Rattle.der_elem.specs.Accepting.{IsTlv};
ghost use Rattle.der_elem.specs.FirstTags.{HasFirstTag};
ghost use Rattle.der_elem.specs.FormatMakers.{mapped_format};
ghost use Rattle.der_elem.specs.KnownTagLaws.{known_either, own_is_known};
ghost use Rattle.der_elem.specs.TaggedLaws.{tlv_tagged};
ghost use Rattle.der_modules.specs.Asn1.{parse_of};
ghost use Rattle.der_modules.specs.MemberLaws.{copies_of, same_copies};
ghost use Rattle.der_modules.specs.Members.{seen_choice};
ghost use Rattle.der_shapes.specs.Shapes.Grammar.{limited};
ghost use Rattle.der_shapes.specs.Shapes.Limited.{tree_of};
ghost use Rattle.der_shapes.specs.contracts.shapes.limited.LimitedEq.TheImpl.Laws as limited_eq;
ghost use Rattle.der_shapes.specs.declared.shapes.limited.Limited.TheVariants as of;

use der_constrained::{
    CharacterRange, Constrained, HasCharacters, HasSize, InRange, IntersectionOf, UnionOf,
};
use der_elem::{
    Choice, Decode, DecodeField, DerOrd, Duplicate, DuplicateIsEqual, EncodeValue, EncodingEq,
    Form, FormValue, KnownTags, Tagged,
};
use der_fields::{Implicit, OneOf, cmp_headers};
use der_modules::{Choosing, CopyLaws, copy_of};
use der_simple::VisibleStringRef;
use der_tlv::{BackWriter, Error, Length, Source, Tag, Writer};
use std::alloc::Global;
use std::cmp::Ordering;

/// The alternatives, as a tree.
type Tree<'a> = OneOf<
    Constrained<u8, UnionOf<InRange<0, 49>, InRange<51, 99>>>,
    Implicit<
        Constrained<
            VisibleStringRef<'a>,
            IntersectionOf<HasCharacters<CharacterRange<97, 102>>, HasSize<1, 2>>,
        >,
        0,
    >,
>;

/// ```text
/// Limited ::= CHOICE {
///     number  INTEGER (0..99 EXCEPT 50),
///     text    [0] VisibleString (FROM ("a".."f") ^ SIZE (1..2)) }
/// ```
///
/// Reading refuses a tag that no alternative has (`ErrorKind::TagUnexpected`, 4), and the
/// alternative's faults.
#[derive(Clone, Copy, Debug, PartialEq, Eq)]
pub enum Limited<'a> {
    /// `number`, `INTEGER (0..99 EXCEPT 50)`.
    Number(Constrained<u8, UnionOf<InRange<0, 49>, InRange<51, 99>>>),
    /// `text`, `[0] VisibleString (FROM (a..f) ^ SIZE (1..2))`.
    Text(
        Implicit<
            Constrained<
                VisibleStringRef<'a>,
                IntersectionOf<HasCharacters<CharacterRange<97, 102>>, HasSize<1, 2>>,
            >,
            0,
        >,
    ),
}

impl<'a> Form for Limited<'a> {
    ghost encoding = { λ v. ⟦<Tree<'a> as Form>⟧.encoding (tree_of v) };

    ghost comparable = { λ v w. ⟦<Tree<'a> as Form>⟧.comparable (tree_of v) (tree_of w) };

    ghost re_reads = { λ v. ⟦<Tree<'a> as Form>⟧.re_reads (tree_of v) };

    ghost accepts = { λ rules v. ⟦<Tree<'a> as Form>⟧.accepts rules (tree_of v) };

    ghost parse = { ⟦<Tree<'a> as Form>⟧.parse };

    ghost tags = { ⟦<Tree<'a> as Form>⟧.tags };

    ghost first_tag_of = { λ v. ⟦<Tree<'a> as Form>⟧.first_tag_of (tree_of v) };

    ghost readable = { λ v. ⟦<Tree<'a> as Form>⟧.readable (tree_of v) };

    ghost TAKES_MEMORY = { ⟦<Tree<'a> as Form>⟧.TAKES_MEMORY };

    ghost FAULTS_FIRST = { ⟦<Tree<'a> as Form>⟧.FAULTS_FIRST };

    ghost parse_of_accepted = { λ rules v. ⟦<Tree<'a> as Form>⟧.parse_of_accepted rules (tree_of v) };

    ghost faults_of_octets = { ⟦<Tree<'a> as Form>⟧.faults_of_octets };

    ghost begins = { λ rules v. ⟦<Tree<'a> as Form>⟧.begins rules (tree_of v) };

    ghost begins_first = { λ rules v. ⟦<Tree<'a> as Form>⟧.begins_first rules (tree_of v) };

    ghost same_length = { λ rules v. ⟦<Tree<'a> as Form>⟧.same_length rules (tree_of v) };

    ghost accepts_encoding = { λ rules v. ⟦<Tree<'a> as Form>⟧.accepts_encoding rules (tree_of v) };

    ghost only_readable = { λ rules v. ⟦<Tree<'a> as Form>⟧.only_readable rules (tree_of v) };

    ghost accepts_comparable = { λ rules v w. ⟦<Tree<'a> as Form>⟧.accepts_comparable rules (tree_of v) (tree_of w) };

    ghost re_reads_memory = { λ v. ⟦<Tree<'a> as Form>⟧.re_reads_memory (tree_of v) };
}

impl<'a> FormValue for Limited<'a> {
    ghost value = { mapped_format tree_of ⟦<Tree<'a> as FormValue>⟧.value };
}

impl<'a> Tagged for Limited<'a> {
    ghost tag_of = { λ v. ⟦<Tree<'a> as Tagged>⟧.tag_of (tree_of v) };

    fn tag(&self) -> Tag {
        match self {
            Limited::Number(value) => value.tag(),
            Limited::Text(value) => value.tag(),
        }
    }

    ghost encoding_is = { ⟦<Limited<'a> as Choosing>⟧.choice.has_tag.encoding_is };

    ghost accepted_is_tlv = { λ rules v b. elim v as (λ k. ⟦<Tree<'a> as Form>⟧.accepts rules (tree_of k) b → IsTlv b) [ of.Number x ↦ λ a. tlv_tagged _ ⟦<Constrained<u8, UnionOf<InRange<0, 49>, InRange<51, 99>>> as FormValue>⟧.value.accepts rules x b a.0 | of.Text x ↦ λ a. tlv_tagged _ ⟦<Implicit<Constrained<VisibleStringRef<'a>, IntersectionOf<HasCharacters<CharacterRange<97, 102>>, HasSize<1, 2>>>, 0> as FormValue>⟧.value.accepts rules x b a.0 ] };

    ghost own_tag = { ⟦<Limited<'a> as Choosing>⟧.choice.has_tag.own_tag };

    ghost first_tag_is = { ⟦<Limited<'a> as Choosing>⟧.choice.has_tag.first_tag_is };

    ghost re_reads_alike = { λ v. elim v as (λ k. ⟦<Tree<'a> as FormValue>⟧.value.re_reads (tree_of k) ≡ true → ⟦<Tree<'a> as Form>⟧.re_reads (tree_of k) ≡ true) [ of.Number x ↦ λ h. h | of.Text x ↦ λ h. h ] };

    ghost comparable_alike = { λ v w h. tt };
}

impl<'a> Choice for Limited<'a> {
    fn can_decode(tag: Tag) -> bool
        ensures { result ≡ ⟦<Tree<'a> as Form>⟧.tags tag }
    {
        Tree::<'a>::can_decode(tag)
    }

    ghost has_first_tag = { λ v. elim v as (λ k. HasFirstTag (⟦<Tree<'a> as Form>⟧.first_tag_of (tree_of k))) [ of.Number x ↦ record { tag = _; is_tag = refl } | of.Text x ↦ record { tag = _; is_tag = refl } ] };
}

impl<'a> KnownTags for Limited<'a> {
    ghost known_tags = { ⟦<Tree<'a> as KnownTags>⟧.known_tags };

    ghost MAY_BE_ABSENT = { false };

    ghost are_known = { (known_either ⟦<Constrained<u8, UnionOf<InRange<0, 49>, InRange<51, 99>>> as KnownTags>⟧.known_tags ⟦<Implicit<Constrained<VisibleStringRef<'a>, IntersectionOf<HasCharacters<CharacterRange<97, 102>>, HasSize<1, 2>>>, 0> as KnownTags>⟧.known_tags ⟦<Constrained<u8, UnionOf<InRange<0, 49>, InRange<51, 99>>> as Form>⟧.tags ⟦<Implicit<Constrained<VisibleStringRef<'a>, IntersectionOf<HasCharacters<CharacterRange<97, 102>>, HasSize<1, 2>>>, 0> as Form>⟧.tags (own_is_known _) (own_is_known _)) };

    ghost is_there = { λ e v. elim v as (λ k. HasFirstTag (⟦<Tree<'a> as Form>⟧.first_tag_of (tree_of k))) [ of.Number x ↦ record { tag = _; is_tag = refl } | of.Text x ↦ record { tag = _; is_tag = refl } ] };
}

impl<'a, R: Source<'a>> Decode<'a, R> for Limited<'a> {
    ghost TAKES_MEMORY = { false };

    const TAKES_MEMORY: bool = false;

    fn decode(alloc: Global, reader: &mut R) -> Result<Limited<'a>, Error> {
        match Tree::<'a>::decode(alloc, reader) {
            Ok(OneOf::First(value)) => Ok(Limited::Number(value)),
            Ok(OneOf::Other(value)) => Ok(Limited::Text(value)),
            Err(e) => Err(e),
        }
    }

    ghost takes_memory_is = { refl };
}

impl<'a, R: Source<'a>> DecodeField<'a, R> for Limited<'a> {
    ghost TAKES_MEMORY = { false };

    const TAKES_MEMORY: bool = false;

    fn decode_field(alloc: Global, reader: &mut R) -> Result<Limited<'a>, Error> {
        Limited::decode(alloc, reader)
    }

    ghost takes_memory_is = { refl };
}

impl<'a> EncodeValue for Limited<'a> {
    fn value_len(&self) -> Result<Length, Error> {
        match self {
            Limited::Number(value) => value.value_len(),
            Limited::Text(value) => value.value_len(),
        }
    }

    fn encode_value<W: Writer>(&self, writer: &mut W) -> Result<(), Error> {
        match self {
            Limited::Number(value) => value.encode_value(writer),
            Limited::Text(value) => value.encode_value(writer),
        }
    }

    fn encode_value_back<W: BackWriter>(&self, writer: &mut W) -> Result<(), Error> {
        match self {
            Limited::Number(value) => value.encode_value_back(writer),
            Limited::Text(value) => value.encode_value_back(writer),
        }
    }
}

impl<'a> DerOrd for Limited<'a> {
    fn der_cmp(&self, other: &Limited<'a>) -> Result<Ordering, Error> {
        match (self, other) {
            (Limited::Number(value), Limited::Number(other)) => value.der_cmp(other),
            (Limited::Text(value), Limited::Text(other)) => value.der_cmp(other),
            _ => cmp_headers(self, other),
        }
    }
}

impl<'a> Choosing for Limited<'a> {
    ghost choice = { seen_choice tree_of ⟦<Limited<'a> as PartialEq>⟧.eq ⟦<Tree<'a> as Choosing>⟧.choice
        (λ v w. elim v as (λ k. ⟦<Limited<'a> as PartialEq>⟧.eq k w ≡ ⟦<Tree<'a> as Choosing>⟧.choice.eq (tree_of k) (tree_of w)) [
          | of.Number x ↦ elim w as (λ k. ⟦<Limited<'a> as PartialEq>⟧.eq (of.Number x) k ≡ ⟦<Tree<'a> as Choosing>⟧.choice.eq (tree_of (of.Number x)) (tree_of k)) [ of.Number y ↦ refl | of.Text y ↦ refl ]
          | of.Text x ↦ elim w as (λ k. ⟦<Limited<'a> as PartialEq>⟧.eq (of.Text x) k ≡ ⟦<Tree<'a> as Choosing>⟧.choice.eq (tree_of (of.Text x)) (tree_of k)) [ of.Number y ↦ refl | of.Text y ↦ refl ]
        ]) };
}

impl<'a> EncodingEq for Limited<'a> {
    ghost encoding_eq = { ⟦<Limited<'a> as Choosing>⟧.choice.equal };
}

impl<'a> CopyLaws for Limited<'a> {
    ghost copies = { copies_of ((same_copies ⟦<Limited<'a> as Form>⟧.encoding ⟦<Limited<'a> as Form>⟧.comparable ⟦<Limited<'a> as Form>⟧.re_reads ⟦<Limited<'a> as PartialEq>⟧.eq limited_eq.laws-law.refl)) };
}

impl<'a> Duplicate for Limited<'a> {
    ghost is_copy = { λ v w. w ≡ v };

    ghost takes_memory_to_copy = { false };

    fn duplicate(&self) -> Result<Limited<'a>, Error> {
        Ok(copy_of(self))
    }

    ghost copy_encoding = { ⟦<Limited<'a> as CopyLaws>⟧.copies.laws.octets_are };

    ghost copy_comparable = { ⟦<Limited<'a> as CopyLaws>⟧.copies.laws.comparable_are };

    ghost copy_re_reads = { ⟦<Limited<'a> as CopyLaws>⟧.copies.laws.re_reads_are };
}

impl<'a> DuplicateIsEqual for Limited<'a> {
    ghost copy_is_equal = { ⟦<Limited<'a> as CopyLaws>⟧.copies.laws.equal_are };
}

/// What is read as `Limited` is what the grammar page says.
pub fn grammar_of_limited<'a>()
    ensures { ⟦<Limited<'a> as Form>⟧.parse ≡ parse_of limited }
{}
