//! Note, a CHOICE of 3 alternatives.
//!
//! Made by tools/asn1 from shapes.asn1.

ghost use Rattle.std.specs.Prelude.{◌≡◌, false, refl, true};
ghost use Rattle.der_elem.specs.Accepting.{IsTlv};
ghost use Rattle.der_elem.specs.FirstTags.{HasFirstTag};
ghost use Rattle.der_elem.specs.FormatMakers.{mapped_format};
ghost use Rattle.der_elem.specs.KnownTagLaws.{known_either, own_is_known};
ghost use Rattle.der_elem.specs.TaggedLaws.{tlv_tagged};
ghost use Rattle.der_modules.specs.Asn1.{parse_of};
ghost use Rattle.der_modules.specs.MemberLaws.{copies_of, same_copies};
ghost use Rattle.der_modules.specs.Members.{seen_choice};
ghost use Rattle.der_shapes.specs.Shapes.Grammar.{note};
ghost use Rattle.der_shapes.specs.Shapes.Note.{tree_of};
ghost use Rattle.der_shapes.specs.contracts.shapes.note.NoteEq.TheImpl.Laws as note_eq;
ghost use Rattle.der_shapes.specs.declared.shapes.note.Note.TheVariants as of;

use der_elem::{
    Choice, Decode, DecodeField, DerOrd, Duplicate, DuplicateIsEqual, EncodeValue, EncodingEq,
    Form, FormValue, KnownTags, Tagged,
};
use der_fields::{OneOf, cmp_headers};
use der_modules::{Choosing, CopyLaws, copy_of};
use der_simple::{NumericStringRef, RelativeOidRef, VisibleStringRef};
use der_tlv::{BackWriter, Error, Length, Source, Tag, Writer};
use std::alloc::Global;
use std::cmp::Ordering;

/// The alternatives, as a tree.
type Tree<'a> = OneOf<OneOf<NumericStringRef<'a>, VisibleStringRef<'a>>, RelativeOidRef<'a>>;

/// ```text
/// Note ::= CHOICE {
///     digits  NumericString,
///     text    VisibleString,
///     arcs    RELATIVE-OID }
/// ```
///
/// Reading refuses a tag that no alternative has (`ErrorKind::TagUnexpected`, 4), and the
/// alternative's faults.
#[derive(Clone, Copy, Debug, PartialEq, Eq)]
pub enum Note<'a> {
    /// `digits`, `NumericString`.
    Digits(NumericStringRef<'a>),
    /// `text`, `VisibleString`.
    Text(VisibleStringRef<'a>),
    /// `arcs`, `RELATIVE-OID`.
    Arcs(RelativeOidRef<'a>),
}

impl<'a> Form for Note<'a> {
    ghost encoding = { λ v. ⟦<Tree<'a> as Form>⟧.encoding (tree_of v) };

    ghost comparable = { λ v w. ⟦<Tree<'a> as Form>⟧.comparable (tree_of v) (tree_of w) };

    ghost re_reads = { λ v. ⟦<Tree<'a> as Form>⟧.re_reads (tree_of v) };

    ghost accepts = { λ rules v. ⟦<Tree<'a> as Form>⟧.accepts rules (tree_of v) };

    ghost parse = { ⟦<Tree<'a> as Form>⟧.parse };

    ghost tags = { ⟦<Tree<'a> as Form>⟧.tags };

    ghost first_tag_of = { λ v. ⟦<Tree<'a> as Form>⟧.first_tag_of (tree_of v) };

    ghost readable = { λ v. ⟦<Tree<'a> as Form>⟧.readable (tree_of v) };

    ghost TAKES_MEMORY = { ⟦<Tree<'a> as Form>⟧.TAKES_MEMORY };

    ghost FAULTS_FIRST = { ⟦<Tree<'a> as Form>⟧.FAULTS_FIRST };

    ghost parse_of_accepted = { λ rules v. ⟦<Tree<'a> as Form>⟧.parse_of_accepted rules (tree_of v) };

    ghost faults_of_octets = { ⟦<Tree<'a> as Form>⟧.faults_of_octets };

    ghost begins = { λ rules v. ⟦<Tree<'a> as Form>⟧.begins rules (tree_of v) };

    ghost begins_first = { λ rules v. ⟦<Tree<'a> as Form>⟧.begins_first rules (tree_of v) };

    ghost same_length = { λ rules v. ⟦<Tree<'a> as Form>⟧.same_length rules (tree_of v) };

    ghost accepts_encoding = { λ rules v. ⟦<Tree<'a> as Form>⟧.accepts_encoding rules (tree_of v) };

    ghost only_readable = { λ rules v. ⟦<Tree<'a> as Form>⟧.only_readable rules (tree_of v) };

    ghost accepts_comparable = { λ rules v w. ⟦<Tree<'a> as Form>⟧.accepts_comparable rules (tree_of v) (tree_of w) };

    ghost re_reads_memory = { λ v. ⟦<Tree<'a> as Form>⟧.re_reads_memory (tree_of v) };
}

impl<'a> FormValue for Note<'a> {
    ghost value = { mapped_format tree_of ⟦<Tree<'a> as FormValue>⟧.value };
}

impl<'a> Tagged for Note<'a> {
    ghost tag_of = { λ v. ⟦<Tree<'a> as Tagged>⟧.tag_of (tree_of v) };

    fn tag(&self) -> Tag {
        match self {
            Note::Digits(value) => value.tag(),
            Note::Text(value) => value.tag(),
            Note::Arcs(value) => value.tag(),
        }
    }

    ghost encoding_is = { ⟦<Note<'a> as Choosing>⟧.choice.has_tag.encoding_is };

    ghost accepted_is_tlv = { λ rules v b. elim v as (λ k. ⟦<Tree<'a> as Form>⟧.accepts rules (tree_of k) b → IsTlv b) [ of.Digits x ↦ λ a. tlv_tagged _ ⟦<NumericStringRef<'a> as FormValue>⟧.value.accepts rules x b a.0.0 | of.Text x ↦ λ a. tlv_tagged _ ⟦<VisibleStringRef<'a> as FormValue>⟧.value.accepts rules x b a.0.0 | of.Arcs x ↦ λ a. tlv_tagged _ ⟦<RelativeOidRef<'a> as FormValue>⟧.value.accepts rules x b a.0 ] };

    ghost own_tag = { ⟦<Note<'a> as Choosing>⟧.choice.has_tag.own_tag };

    ghost first_tag_is = { ⟦<Note<'a> as Choosing>⟧.choice.has_tag.first_tag_is };

    ghost re_reads_alike = { λ v. elim v as (λ k. ⟦<Tree<'a> as FormValue>⟧.value.re_reads (tree_of k) ≡ true → ⟦<Tree<'a> as Form>⟧.re_reads (tree_of k) ≡ true) [ of.Digits x ↦ λ h. h | of.Text x ↦ λ h. h | of.Arcs x ↦ λ h. h ] };

    ghost comparable_alike = { λ v w h. tt };
}

impl<'a> Choice for Note<'a> {
    fn can_decode(tag: Tag) -> bool
        ensures { result ≡ ⟦<Tree<'a> as Form>⟧.tags tag }
    {
        Tree::<'a>::can_decode(tag)
    }

    ghost has_first_tag = { λ v. elim v as (λ k. HasFirstTag (⟦<Tree<'a> as Form>⟧.first_tag_of (tree_of k))) [ of.Digits x ↦ record { tag = _; is_tag = refl } | of.Text x ↦ record { tag = _; is_tag = refl } | of.Arcs x ↦ record { tag = _; is_tag = refl } ] };
}

impl<'a> KnownTags for Note<'a> {
    ghost known_tags = { ⟦<Tree<'a> as KnownTags>⟧.known_tags };

    ghost MAY_BE_ABSENT = { false };

    ghost are_known = { (known_either ⟦<OneOf<NumericStringRef<'a>, VisibleStringRef<'a>> as KnownTags>⟧.known_tags ⟦<RelativeOidRef<'a> as KnownTags>⟧.known_tags ⟦<OneOf<NumericStringRef<'a>, VisibleStringRef<'a>> as Form>⟧.tags ⟦<RelativeOidRef<'a> as Form>⟧.tags (known_either ⟦<NumericStringRef<'a> as KnownTags>⟧.known_tags ⟦<VisibleStringRef<'a> as KnownTags>⟧.known_tags ⟦<NumericStringRef<'a> as Form>⟧.tags ⟦<VisibleStringRef<'a> as Form>⟧.tags (own_is_known _) (own_is_known _)) (own_is_known _)) };

    ghost is_there = { λ e v. elim v as (λ k. HasFirstTag (⟦<Tree<'a> as Form>⟧.first_tag_of (tree_of k))) [ of.Digits x ↦ record { tag = _; is_tag = refl } | of.Text x ↦ record { tag = _; is_tag = refl } | of.Arcs x ↦ record { tag = _; is_tag = refl } ] };
}

impl<'a, R: Source<'a>> Decode<'a, R> for Note<'a> {
    ghost TAKES_MEMORY = { false };

    const TAKES_MEMORY: bool = false;

    fn decode(alloc: Global, reader: &mut R) -> Result<Note<'a>, Error> {
        match Tree::<'a>::decode(alloc, reader) {
            Ok(OneOf::First(OneOf::First(value))) => Ok(Note::Digits(value)),
            Ok(OneOf::First(OneOf::Other(value))) => Ok(Note::Text(value)),
            Ok(OneOf::Other(value)) => Ok(Note::Arcs(value)),
            Err(e) => Err(e),
        }
    }

    ghost takes_memory_is = { refl };
}

impl<'a, R: Source<'a>> DecodeField<'a, R> for Note<'a> {
    ghost TAKES_MEMORY = { false };

    const TAKES_MEMORY: bool = false;

    fn decode_field(alloc: Global, reader: &mut R) -> Result<Note<'a>, Error> {
        Note::decode(alloc, reader)
    }

    ghost takes_memory_is = { refl };
}

impl<'a> EncodeValue for Note<'a> {
    fn value_len(&self) -> Result<Length, Error> {
        match self {
            Note::Digits(value) => value.value_len(),
            Note::Text(value) => value.value_len(),
            Note::Arcs(value) => value.value_len(),
        }
    }

    fn encode_value<W: Writer>(&self, writer: &mut W) -> Result<(), Error> {
        match self {
            Note::Digits(value) => value.encode_value(writer),
            Note::Text(value) => value.encode_value(writer),
            Note::Arcs(value) => value.encode_value(writer),
        }
    }

    fn encode_value_back<W: BackWriter>(&self, writer: &mut W) -> Result<(), Error> {
        match self {
            Note::Digits(value) => value.encode_value_back(writer),
            Note::Text(value) => value.encode_value_back(writer),
            Note::Arcs(value) => value.encode_value_back(writer),
        }
    }
}

impl<'a> DerOrd for Note<'a> {
    fn der_cmp(&self, other: &Note<'a>) -> Result<Ordering, Error> {
        match (self, other) {
            (Note::Digits(value), Note::Digits(other)) => value.der_cmp(other),
            (Note::Text(value), Note::Text(other)) => value.der_cmp(other),
            (Note::Arcs(value), Note::Arcs(other)) => value.der_cmp(other),
            _ => cmp_headers(self, other),
        }
    }
}

impl<'a> Choosing for Note<'a> {
    ghost choice = { seen_choice tree_of ⟦<Note<'a> as PartialEq>⟧.eq ⟦<Tree<'a> as Choosing>⟧.choice
        (λ v w. elim v as (λ k. ⟦<Note<'a> as PartialEq>⟧.eq k w ≡ ⟦<Tree<'a> as Choosing>⟧.choice.eq (tree_of k) (tree_of w)) [
          | of.Digits x ↦ elim w as (λ k. ⟦<Note<'a> as PartialEq>⟧.eq (of.Digits x) k ≡ ⟦<Tree<'a> as Choosing>⟧.choice.eq (tree_of (of.Digits x)) (tree_of k)) [ of.Digits y ↦ refl | of.Text y ↦ refl | of.Arcs y ↦ refl ]
          | of.Text x ↦ elim w as (λ k. ⟦<Note<'a> as PartialEq>⟧.eq (of.Text x) k ≡ ⟦<Tree<'a> as Choosing>⟧.choice.eq (tree_of (of.Text x)) (tree_of k)) [ of.Digits y ↦ refl | of.Text y ↦ refl | of.Arcs y ↦ refl ]
          | of.Arcs x ↦ elim w as (λ k. ⟦<Note<'a> as PartialEq>⟧.eq (of.Arcs x) k ≡ ⟦<Tree<'a> as Choosing>⟧.choice.eq (tree_of (of.Arcs x)) (tree_of k)) [ of.Digits y ↦ refl | of.Text y ↦ refl | of.Arcs y ↦ refl ]
        ]) };
}

impl<'a> EncodingEq for Note<'a> {
    ghost encoding_eq = { ⟦<Note<'a> as Choosing>⟧.choice.equal };
}

impl<'a> CopyLaws for Note<'a> {
    ghost copies = { copies_of ((same_copies ⟦<Note<'a> as Form>⟧.encoding ⟦<Note<'a> as Form>⟧.comparable ⟦<Note<'a> as Form>⟧.re_reads ⟦<Note<'a> as PartialEq>⟧.eq note_eq.laws-law.refl)) };
}

impl<'a> Duplicate for Note<'a> {
    ghost is_copy = { λ v w. w ≡ v };

    ghost takes_memory_to_copy = { false };

    fn duplicate(&self) -> Result<Note<'a>, Error> {
        Ok(copy_of(self))
    }

    ghost copy_encoding = { ⟦<Note<'a> as CopyLaws>⟧.copies.laws.octets_are };

    ghost copy_comparable = { ⟦<Note<'a> as CopyLaws>⟧.copies.laws.comparable_are };

    ghost copy_re_reads = { ⟦<Note<'a> as CopyLaws>⟧.copies.laws.re_reads_are };
}

impl<'a> DuplicateIsEqual for Note<'a> {
    ghost copy_is_equal = { ⟦<Note<'a> as CopyLaws>⟧.copies.laws.equal_are };
}

/// What is read as `Note` is what the grammar page says.
pub fn grammar_of_note<'a>()
    ensures { ⟦<Note<'a> as Form>⟧.parse ≡ parse_of note }
{}
