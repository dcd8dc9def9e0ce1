//! General, a CHOICE of 3 alternatives.
//!
//! Made by tools/asn1 from shapes.asn1.

ghost use Rattle.std.specs.Prelude.{◌≡◌, false, refl, true};
ghost use Rattle.der_elem.specs.Accepting.{IsTlv};
ghost use Rattle.der_elem.specs.FirstTags.{HasFirstTag};
ghost use Rattle.der_elem.specs.FormatMakers.{mapped_format};
ghost use Rattle.der_elem.specs.KnownTagLaws.{known_either, own_is_known};
ghost use Rattle.der_elem.specs.TaggedLaws.{tlv_tagged};
ghost use Rattle.der_modules.specs.Asn1.{parse_of};
ghost use Rattle.der_modules.specs.MemberLaws.{copies_of, same_copies};
ghost use Rattle.der_modules.specs.Members.{seen_choice};
ghost use Rattle.der_shapes.specs.Shapes.General.{tree_of};
ghost use Rattle.der_shapes.specs.Shapes.Grammar.{general};
ghost use Rattle.der_shapes.specs.contracts.shapes.general.GeneralEq.TheImpl.Laws as general_eq;
ghost use Rattle.der_shapes.specs.contracts.shapes.status.StatusChoice.TheImpl.Laws as status_choice;
ghost use Rattle.der_shapes.specs.contracts.shapes.status.StatusKnownTags.TheImpl.Laws as status_known_tags;
ghost use Rattle.der_shapes.specs.contracts.shapes.status.StatusTagged.TheImpl.Laws as status_tagged;
ghost use Rattle.der_shapes.specs.declared.shapes.general.General.TheVariants as of;

use crate::shapes::status::Status;
use der_ascii::Ia5StringRef;
use der_elem::{
    Choice, Decode, DecodeField, DerOrd, Duplicate, DuplicateIsEqual, EncodeValue, EncodingEq,
    Form, FormValue, KnownTags, Tagged,
};
use der_fields::{Implicit, OneOf, cmp_headers};
use der_modules::{Choosing, CopyLaws, copy_of};
use der_opaque::OctetStringRef;
use der_tlv::{BackWriter, Error, Length, Source, Tag, Writer};
use std::alloc::Global;
use std::cmp::Ordering;

/// The alternatives, as a tree.
type Tree<'a> = OneOf<
    OneOf<Implicit<Ia5StringRef<'a>, 11>, Implicit<OctetStringRef<'a>, 17>>,
    Status,
>;

/// ```text
/// General ::= CHOICE {
///     address  [11] IA5String,
///     number   [17] OCTET STRING,
///     status   Status }
/// ```
///
/// Reading refuses a tag that no alternative has (`ErrorKind::TagUnexpected`, 4), and the
/// alternative's faults.
#[derive(Clone, Copy, Debug, PartialEq, Eq)]
pub enum General<'a> {
    /// `address`, `[11] IA5String`.
    Address(Implicit<Ia5StringRef<'a>, 11>),
    /// `number`, `[17] OCTET STRING`.
    Number(Implicit<OctetStringRef<'a>, 17>),
    /// `status`, `Status`.
    Status(Status),
}

impl<'a> Form for General<'a> {
    ghost encoding = { λ v. ⟦<Tree<'a> as Form>⟧.encoding (tree_of v) };

    ghost comparable = { λ v w. ⟦<Tree<'a> as Form>⟧.comparable (tree_of v) (tree_of w) };

    ghost re_reads = { λ v. ⟦<Tree<'a> as Form>⟧.re_reads (tree_of v) };

    ghost accepts = { λ rules v. ⟦<Tree<'a> as Form>⟧.accepts rules (tree_of v) };

    ghost parse = { ⟦<Tree<'a> as Form>⟧.parse };

    ghost tags = { ⟦<Tree<'a> as Form>⟧.tags };

    ghost first_tag_of = { λ v. ⟦<Tree<'a> as Form>⟧.first_tag_of (tree_of v) };

    ghost readable = { λ v. ⟦<Tree<'a> as Form>⟧.readable (tree_of v) };

    ghost TAKES_MEMORY = { ⟦<Tree<'a> as Form>⟧.TAKES_MEMORY };

    ghost FAULTS_FIRST = { ⟦<Tree<'a> as Form>⟧.FAULTS_FIRST };

    ghost parse_of_accepted = { λ rules v. ⟦<Tree<'a> as Form>⟧.parse_of_accepted rules (tree_of v) };

    ghost faults_of_octets = { ⟦<Tree<'a> as Form>⟧.faults_of_octets };

    ghost begins = { λ rules v. ⟦<Tree<'a> as Form>⟧.begins rules (tree_of v) };

    ghost begins_first = { λ rules v. ⟦<Tree<'a> as Form>⟧.begins_first rules (tree_of v) };

    ghost same_length = { λ rules v. ⟦<Tree<'a> as Form>⟧.same_length rules (tree_of v) };

    ghost accepts_encoding = { λ rules v. ⟦<Tree<'a> as Form>⟧.accepts_encoding rules (tree_of v) };

    ghost only_readable = { λ rules v. ⟦<Tree<'a> as Form>⟧.only_readable rules (tree_of v) };

    ghost accepts_comparable = { λ rules v w. ⟦<Tree<'a> as Form>⟧.accepts_comparable rules (tree_of v) (tree_of w) };

    ghost re_reads_memory = { λ v. ⟦<Tree<'a> as Form>⟧.re_reads_memory (tree_of v) };
}

impl<'a> FormValue for General<'a> {
    ghost value = { mapped_format tree_of ⟦<Tree<'a> as FormValue>⟧.value };
}

impl<'a> Tagged for General<'a> {
    ghost tag_of = { λ v. ⟦<Tree<'a> as Tagged>⟧.tag_of (tree_of v) };

    fn tag(&self) -> Tag {
        match self {
            General::Address(value) => value.tag(),
            General::Number(value) => value.tag(),
            General::Status(value) => value.tag(),
        }
    }

    ghost encoding_is = { ⟦<General<'a> as Choosing>⟧.choice.has_tag.encoding_is };

    ghost accepted_is_tlv = { λ rules v b. elim v as (λ k. ⟦<Tree<'a> as Form>⟧.accepts rules (tree_of k) b → IsTlv b) [ of.Address x ↦ λ a. tlv_tagged _ ⟦<Implicit<Ia5StringRef<'a>, 11> as FormValue>⟧.value.accepts rules x b a.0.0 | of.Number x ↦ λ a. tlv_tagged _ ⟦<Implicit<OctetStringRef<'a>, 17> as FormValue>⟧.value.accepts rules x b a.0.0 | of.Status x ↦ λ a. status_tagged.accepted_is_tlv-law rules x b a.0 ] };

    ghost own_tag = { ⟦<General<'a> as Choosing>⟧.choice.has_tag.own_tag };

    ghost first_tag_is = { ⟦<General<'a> as Choosing>⟧.choice.has_tag.first_tag_is };

    ghost re_reads_alike = { λ v. elim v as (λ k. ⟦<Tree<'a> as FormValue>⟧.value.re_reads (tree_of k) ≡ true → ⟦<Tree<'a> as Form>⟧.re_reads (tree_of k) ≡ true) [ of.Address x ↦ λ h. h | of.Number x ↦ λ h. h | of.Status x ↦ status_tagged.re_reads_alike-law x ] };

    ghost comparable_alike = { λ v w h. tt };
}

impl<'a> Choice for General<'a> {
    fn can_decode(tag: Tag) -> bool
        ensures { result ≡ ⟦<Tree<'a> as Form>⟧.tags tag }
    {
        Tree::<'a>::can_decode(tag)
    }

    ghost has_first_tag = { λ v. elim v as (λ k. HasFirstTag (⟦<Tree<'a> as Form>⟧.first_tag_of (tree_of k))) [ of.Address x ↦ record { tag = _; is_tag = refl } | of.Number x ↦ record { tag = _; is_tag = refl } | of.Status x ↦ status_choice.has_first_tag-law x ] };
}

impl<'a> KnownTags for General<'a> {
    ghost known_tags = { ⟦<Tree<'a> as KnownTags>⟧.known_tags };

    ghost MAY_BE_ABSENT = { false };

    ghost are_known = { (known_either ⟦<OneOf<Implicit<Ia5StringRef<'a>, 11>, Implicit<OctetStringRef<'a>, 17>> as KnownTags>⟧.known_tags ⟦<Status as KnownTags>⟧.known_tags ⟦<OneOf<Implicit<Ia5StringRef<'a>, 11>, Implicit<OctetStringRef<'a>, 17>> as Form>⟧.tags ⟦<Status as Form>⟧.tags (known_either ⟦<Implicit<Ia5StringRef<'a>, 11> as KnownTags>⟧.known_tags ⟦<Implicit<OctetStringRef<'a>, 17> as KnownTags>⟧.known_tags ⟦<Implicit<Ia5StringRef<'a>, 11> as Form>⟧.tags ⟦<Implicit<OctetStringRef<'a>, 17> as Form>⟧.tags (own_is_known _) (own_is_known _)) status_known_tags.are_known-law) };

    ghost is_there = { λ e v. elim v as (λ k. HasFirstTag (⟦<Tree<'a> as Form>⟧.first_tag_of (tree_of k))) [ of.Address x ↦ record { tag = _; is_tag = refl } | of.Number x ↦ record { tag = _; is_tag = refl } | of.Status x ↦ status_choice.has_first_tag-law x ] };
}

impl<'a, R: Source<'a>> Decode<'a, R> for General<'a> {
    ghost TAKES_MEMORY = { false };

    const TAKES_MEMORY: bool = false;

    fn decode(alloc: Global, reader: &mut R) -> Result<General<'a>, Error> {
        match Tree::<'a>::decode(alloc, reader) {
            Ok(OneOf::First(OneOf::First(value))) => Ok(General::Address(value)),
            Ok(OneOf::First(OneOf::Other(value))) => Ok(General::Number(value)),
            Ok(OneOf::Other(value)) => Ok(General::Status(value)),
            Err(e) => Err(e),
        }
    }

    ghost takes_memory_is = { refl };
}

impl<'a, R: Source<'a>> DecodeField<'a, R> for General<'a> {
    ghost TAKES_MEMORY = { false };

    const TAKES_MEMORY: bool = false;

    fn decode_field(alloc: Global, reader: &mut R) -> Result<General<'a>, Error> {
        General::decode(alloc, reader)
    }

    ghost takes_memory_is = { refl };
}

impl<'a> EncodeValue for General<'a> {
    fn value_len(&self) -> Result<Length, Error> {
        match self {
            General::Address(value) => value.value_len(),
            General::Number(value) => value.value_len(),
            General::Status(value) => value.value_len(),
        }
    }

    fn encode_value<W: Writer>(&self, writer: &mut W) -> Result<(), Error> {
        match self {
            General::Address(value) => value.encode_value(writer),
            General::Number(value) => value.encode_value(writer),
            General::Status(value) => value.encode_value(writer),
        }
    }

    fn encode_value_back<W: BackWriter>(&self, writer: &mut W) -> Result<(), Error> {
        match self {
            General::Address(value) => value.encode_value_back(writer),
            General::Number(value) => value.encode_value_back(writer),
            General::Status(value) => value.encode_value_back(writer),
        }
    }
}

impl<'a> DerOrd for General<'a> {
    fn der_cmp(&self, other: &General<'a>) -> Result<Ordering, Error> {
        match (self, other) {
            (General::Address(value), General::Address(other)) => value.der_cmp(other),
            (General::Number(value), General::Number(other)) => value.der_cmp(other),
            (General::Status(value), General::Status(other)) => value.der_cmp(other),
            _ => cmp_headers(self, other),
        }
    }
}

impl<'a> Choosing for General<'a> {
    ghost choice = { seen_choice tree_of ⟦<General<'a> as PartialEq>⟧.eq ⟦<Tree<'a> as Choosing>⟧.choice
        (λ v w. elim v as (λ k. ⟦<General<'a> as PartialEq>⟧.eq k w ≡ ⟦<Tree<'a> as Choosing>⟧.choice.eq (tree_of k) (tree_of w)) [
          | of.Address x ↦ elim w as (λ k. ⟦<General<'a> as PartialEq>⟧.eq (of.Address x) k ≡ ⟦<Tree<'a> as Choosing>⟧.choice.eq (tree_of (of.Address x)) (tree_of k)) [ of.Address y ↦ refl | of.Number y ↦ refl | of.Status y ↦ refl ]
          | of.Number x ↦ elim w as (λ k. ⟦<General<'a> as PartialEq>⟧.eq (of.Number x) k ≡ ⟦<Tree<'a> as Choosing>⟧.choice.eq (tree_of (of.Number x)) (tree_of k)) [ of.Address y ↦ refl | of.Number y ↦ refl | of.Status y ↦ refl ]
          | of.Status x ↦ elim w as (λ k. ⟦<General<'a> as PartialEq>⟧.eq (of.Status x) k ≡ ⟦<Tree<'a> as Choosing>⟧.choice.eq (tree_of (of.Status x)) (tree_of k)) [ of.Address y ↦ refl | of.Number y ↦ refl | of.Status y ↦ refl ]
        ]) };
}

impl<'a> EncodingEq for General<'a> {
    ghost encoding_eq = { ⟦<General<'a> as Choosing>⟧.choice.equal };
}

impl<'a> CopyLaws for General<'a> {
    ghost copies = { copies_of ((same_copies ⟦<General<'a> as Form>⟧.encoding ⟦<General<'a> as Form>⟧.comparable ⟦<General<'a> as Form>⟧.re_reads ⟦<General<'a> as PartialEq>⟧.eq general_eq.laws-law.refl)) };
}

impl<'a> Duplicate for General<'a> {
    ghost is_copy = { λ v w. w ≡ v };

    ghost takes_memory_to_copy = { false };

    fn duplicate(&self) -> Result<General<'a>, Error> {
        Ok(copy_of(self))
    }

    ghost copy_encoding = { ⟦<General<'a> as CopyLaws>⟧.copies.laws.octets_are };

    ghost copy_comparable = { ⟦<General<'a> as CopyLaws>⟧.copies.laws.comparable_are };

    ghost copy_re_reads = { ⟦<General<'a> as CopyLaws>⟧.copies.laws.re_reads_are };
}

impl<'a> DuplicateIsEqual for General<'a> {
    ghost copy_is_equal = { ⟦<General<'a> as CopyLaws>⟧.copies.laws.equal_are };
}

/// What is read as `General` is what the grammar page says.
pub fn grammar_of_general<'a>()
    ensures { ⟦<General<'a> as Form>⟧.parse ≡ parse_of general }
{}
