//! Status, a CHOICE of 3 alternatives.
//!
//! Made by tools/asn1 from shapes.asn1.

ghost use Rattle.std.specs.Prelude.{◌≡◌, false, refl, true};
ghost use Rattle.der_elem.specs.Accepting.{IsTlv};
ghost use Rattle.der_elem.specs.FirstTags.{HasFirstTag};
ghost use Rattle.der_elem.specs.FormatMakers.{mapped_format};
ghost use Rattle.der_elem.specs.KnownTagLaws.{known_either, own_is_known};
ghost use Rattle.der_elem.specs.TaggedLaws.{tlv_tagged};
ghost use Rattle.der_modules.specs.Asn1.{parse_of};
ghost use Rattle.der_modules.specs.MemberLaws.{copies_of, same_copies};
ghost use Rattle.der_modules.specs.Members.{seen_choice};
ghost use Rattle.der_shapes.specs.Shapes.Grammar.{status};
ghost use Rattle.der_shapes.specs.Shapes.Status.{tree_of};
ghost use Rattle.der_shapes.specs.contracts.shapes.status.StatusEq.TheImpl.Laws as status_eq;
ghost use Rattle.der_shapes.specs.declared.shapes.status.Status.TheVariants as of;

use der_elem::{
    Choice, Decode, DecodeField, DerOrd, Duplicate, DuplicateIsEqual, EncodeValue, EncodingEq,
    Form, FormValue, KnownTags, Tagged,
};
use der_fields::{Implicit, OneOf, cmp_headers};
use der_modules::{Choosing, CopyLaws, copy_of};
use der_opaque::Null;
use der_time::GeneralizedTime;
use der_tlv::{BackWriter, Error, Length, Source, Tag, Writer};
use std::alloc::Global;
use std::cmp::Ordering;

/// The alternatives, as a tree.
type Tree = OneOf<OneOf<Implicit<Null, 0>, Implicit<GeneralizedTime, 1>>, Implicit<Null, 2>>;

/// ```text
/// Status ::= CHOICE {
///     good     [0] NULL,
///     revoked  [1] GeneralizedTime,
///     unknown  [2] NULL }
/// ```
///
/// Reading refuses a tag that no alternative has (`ErrorKind::TagUnexpected`, 4), and the
/// alternative's faults.
#[derive(Clone, Copy, Debug, PartialEq, Eq)]
pub enum Status {
    /// `good`, `[0] NULL`.
    Good(Implicit<Null, 0>),
    /// `revoked`, `[1] GeneralizedTime`.
    Revoked(Implicit<GeneralizedTime, 1>),
    /// `unknown`, `[2] NULL`.
    Unknown(Implicit<Null, 2>),
}

impl Form for Status {
    ghost encoding = { λ v. ⟦<Tree as Form>⟧.encoding (tree_of v) };

    ghost comparable = { λ v w. ⟦<Tree as Form>⟧.comparable (tree_of v) (tree_of w) };

    ghost re_reads = { λ v. ⟦<Tree as Form>⟧.re_reads (tree_of v) };

    ghost accepts = { λ rules v. ⟦<Tree as Form>⟧.accepts rules (tree_of v) };

    ghost parse = { ⟦<Tree as Form>⟧.parse };

    ghost tags = { ⟦<Tree as Form>⟧.tags };

    ghost first_tag_of = { λ v. ⟦<Tree as Form>⟧.first_tag_of (tree_of v) };

    ghost readable = { λ v. ⟦<Tree as Form>⟧.readable (tree_of v) };

    ghost TAKES_MEMORY = { ⟦<Tree as Form>⟧.TAKES_MEMORY };

    ghost FAULTS_FIRST = { ⟦<Tree as Form>⟧.FAULTS_FIRST };

    ghost parse_of_accepted = { λ rules v. ⟦<Tree as Form>⟧.parse_of_accepted rules (tree_of v) };

    ghost faults_of_octets = { ⟦<Tree as Form>⟧.faults_of_octets };

    ghost begins = { λ rules v. ⟦<Tree as Form>⟧.begins rules (tree_of v) };

    ghost begins_first = { λ rules v. ⟦<Tree as Form>⟧.begins_first rules (tree_of v) };

    ghost same_length = { λ rules v. ⟦<Tree as Form>⟧.same_length rules (tree_of v) };

    ghost accepts_encoding = { λ rules v. ⟦<Tree as Form>⟧.accepts_encoding rules (tree_of v) };

    ghost only_readable = { λ rules v. ⟦<Tree as Form>⟧.only_readable rules (tree_of v) };

    ghost accepts_comparable = { λ rules v w. ⟦<Tree as Form>⟧.accepts_comparable rules (tree_of v) (tree_of w) };

    ghost re_reads_memory = { λ v. ⟦<Tree as Form>⟧.re_reads_memory (tree_of v) };
}

impl FormValue for Status {
    ghost value = { mapped_format tree_of ⟦<Tree as FormValue>⟧.value };
}

impl Tagged for Status {
    ghost tag_of = { λ v. ⟦<Tree as Tagged>⟧.tag_of (tree_of v) };

    fn tag(&self) -> Tag {
        match self {
            Status::Good(value) => value.tag(),
            Status::Revoked(value) => value.tag(),
            Status::Unknown(value) => value.tag(),
        }
    }

    ghost encoding_is = { ⟦<Status as Choosing>⟧.choice.has_tag.encoding_is };

    ghost accepted_is_tlv = { λ rules v b. elim v as (λ k. ⟦<Tree as Form>⟧.accepts rules (tree_of k) b → IsTlv b) [ of.Good x ↦ λ a. tlv_tagged _ ⟦<Implicit<Null, 0> as FormValue>⟧.value.accepts rules x b a.0.0 | of.Revoked x ↦ λ a. tlv_tagged _ ⟦<Implicit<GeneralizedTime, 1> as FormValue>⟧.value.accepts rules x b a.0.0 | of.Unknown x ↦ λ a. tlv_tagged _ ⟦<Implicit<Null, 2> as FormValue>⟧.value.accepts rules x b a.0 ] };

    ghost own_tag = { ⟦<Status as Choosing>⟧.choice.has_tag.own_tag };

    ghost first_tag_is = { ⟦<Status as Choosing>⟧.choice.has_tag.first_tag_is };

    ghost re_reads_alike = { λ v. elim v as (λ k. ⟦<Tree as FormValue>⟧.value.re_reads (tree_of k) ≡ true → ⟦<Tree as Form>⟧.re_reads (tree_of k) ≡ true) [ of.Good x ↦ λ h. h | of.Revoked x ↦ λ h. h | of.Unknown x ↦ λ h. h ] };

    ghost comparable_alike = { λ v w h. tt };
}

impl Choice for Status {
    fn can_decode(tag: Tag) -> bool {
        Tree::can_decode(tag)
    }

    ghost has_first_tag = { λ v. elim v as (λ k. HasFirstTag (⟦<Tree as Form>⟧.first_tag_of (tree_of k))) [ of.Good x ↦ record { tag = _; is_tag = refl } | of.Revoked x ↦ record { tag = _; is_tag = refl } | of.Unknown x ↦ record { tag = _; is_tag = refl } ] };
}

impl KnownTags for Status {
    ghost known_tags = { ⟦<Tree as KnownTags>⟧.known_tags };

    ghost MAY_BE_ABSENT = { false };

    ghost are_known = { (known_either ⟦<OneOf<Implicit<Null, 0>, Implicit<GeneralizedTime, 1>> as KnownTags>⟧.known_tags ⟦<Implicit<Null, 2> as KnownTags>⟧.known_tags ⟦<OneOf<Implicit<Null, 0>, Implicit<GeneralizedTime, 1>> as Form>⟧.tags ⟦<Implicit<Null, 2> as Form>⟧.tags (known_either ⟦<Implicit<Null, 0> as KnownTags>⟧.known_tags ⟦<Implicit<GeneralizedTime, 1> as KnownTags>⟧.known_tags ⟦<Implicit<Null, 0> as Form>⟧.tags ⟦<Implicit<GeneralizedTime, 1> as Form>⟧.tags (own_is_known _) (own_is_known _)) (own_is_known _)) };

    ghost is_there = { λ e v. elim v as (λ k. HasFirstTag (⟦<Tree as Form>⟧.first_tag_of (tree_of k))) [ of.Good x ↦ record { tag = _; is_tag = refl } | of.Revoked x ↦ record { tag = _; is_tag = refl } | of.Unknown x ↦ record { tag = _; is_tag = refl } ] };
}

impl<'a, R: Source<'a>> Decode<'a, R> for Status {
    ghost TAKES_MEMORY = { false };

    const TAKES_MEMORY: bool = false;

    fn decode(alloc: Global, reader: &mut R) -> Result<Status, Error> {
        match Tree::decode(alloc, reader) {
            Ok(OneOf::First(OneOf::First(value))) => Ok(Status::Good(value)),
            Ok(OneOf::First(OneOf::Other(value))) => Ok(Status::Revoked(value)),
            Ok(OneOf::Other(value)) => Ok(Status::Unknown(value)),
            Err(e) => Err(e),
        }
    }

    ghost takes_memory_is = { refl };
}

impl<'a, R: Source<'a>> DecodeField<'a, R> for Status {
    ghost TAKES_MEMORY = { false };

    const TAKES_MEMORY: bool = false;

    fn decode_field(alloc: Global, reader: &mut R) -> Result<Status, Error> {
        Status::decode(alloc, reader)
    }

    ghost takes_memory_is = { refl };
}

impl EncodeValue for Status {
    fn value_len(&self) -> Result<Length, Error> {
        match self {
            Status::Good(value) => value.value_len(),
            Status::Revoked(value) => value.value_len(),
            Status::Unknown(value) => value.value_len(),
        }
    }

    fn encode_value<W: Writer>(&self, writer: &mut W) -> Result<(), Error> {
        match self {
            Status::Good(value) => value.encode_value(writer),
            Status::Revoked(value) => value.encode_value(writer),
            Status::Unknown(value) => value.encode_value(writer),
        }
    }

    fn encode_value_back<W: BackWriter>(&self, writer: &mut W) -> Result<(), Error> {
        match self {
            Status::Good(value) => value.encode_value_back(writer),
            Status::Revoked(value) => value.encode_value_back(writer),
            Status::Unknown(value) => value.encode_value_back(writer),
        }
    }
}

impl DerOrd for Status {
    fn der_cmp(&self, other: &Status) -> Result<Ordering, Error> {
        match (self, other) {
            (Status::Good(value), Status::Good(other)) => value.der_cmp(other),
            (Status::Revoked(value), Status::Revoked(other)) => value.der_cmp(other),
            (Status::Unknown(value), Status::Unknown(other)) => value.der_cmp(other),
            _ => cmp_headers(self, other),
        }
    }
}

impl Choosing for Status {
    ghost choice = { seen_choice tree_of ⟦<Status as PartialEq>⟧.eq ⟦<Tree as Choosing>⟧.choice
        (λ v w. elim v as (λ k. ⟦<Status as PartialEq>⟧.eq k w ≡ ⟦<Tree as Choosing>⟧.choice.eq (tree_of k) (tree_of w)) [
          | of.Good x ↦ elim w as (λ k. ⟦<Status as PartialEq>⟧.eq (of.Good x) k ≡ ⟦<Tree as Choosing>⟧.choice.eq (tree_of (of.Good x)) (tree_of k)) [ of.Good y ↦ refl | of.Revoked y ↦ refl | of.Unknown y ↦ refl ]
          | of.Revoked x ↦ elim w as (λ k. ⟦<Status as PartialEq>⟧.eq (of.Revoked x) k ≡ ⟦<Tree as Choosing>⟧.choice.eq (tree_of (of.Revoked x)) (tree_of k)) [ of.Good y ↦ refl | of.Revoked y ↦ refl | of.Unknown y ↦ refl ]
          | of.Unknown x ↦ elim w as (λ k. ⟦<Status as PartialEq>⟧.eq (of.Unknown x) k ≡ ⟦<Tree as Choosing>⟧.choice.eq (tree_of (of.Unknown x)) (tree_of k)) [ of.Good y ↦ refl | of.Revoked y ↦ refl | of.Unknown y ↦ refl ]
        ]) };
}

impl EncodingEq for Status {
    ghost encoding_eq = { ⟦<Status as Choosing>⟧.choice.equal };
}

impl CopyLaws for Status {
    ghost copies = { copies_of ((same_copies ⟦<Status as Form>⟧.encoding ⟦<Status as Form>⟧.comparable ⟦<Status as Form>⟧.re_reads ⟦<Status as PartialEq>⟧.eq status_eq.laws-law.refl)) };
}

impl Duplicate for Status {
    ghost is_copy = { λ v w. w ≡ v };

    ghost takes_memory_to_copy = { false };

    fn duplicate(&self) -> Result<Status, Error> {
        Ok(copy_of(self))
    }

    ghost copy_encoding = { ⟦<Status as CopyLaws>⟧.copies.laws.octets_are };

    ghost copy_comparable = { ⟦<Status as CopyLaws>⟧.copies.laws.comparable_are };

    ghost copy_re_reads = { ⟦<Status as CopyLaws>⟧.copies.laws.re_reads_are };
}

impl DuplicateIsEqual for Status {
    ghost copy_is_equal = { ⟦<Status as CopyLaws>⟧.copies.laws.equal_are };
}

/// What is read as `Status` is what the grammar page says.
pub fn grammar_of_status()
    ensures { ⟦<Status as Form>⟧.parse ≡ parse_of status }
{}
