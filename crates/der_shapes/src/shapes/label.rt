//! Label, a CHOICE of 2 alternatives.
//!
//! Made by tools/asn1 from shapes.asn1.

ghost use Rattle.std.specs.Prelude.{◌≡◌, false, refl, true};
ghost use Rattle.der_elem.specs.Accepting.{IsTlv};
ghost use Rattle.der_elem.specs.FirstTags.{HasFirstTag};
ghost use Rattle.der_elem.specs.FormatMakers.{mapped_format};
ghost use Rattle.der_elem.specs.KnownTagLaws.{known_either, own_is_known};
ghost use Rattle.der_elem.specs.TaggedLaws.{tlv_tagged};
ghost use Rattle.der_modules.specs.Asn1.{parse_of};
ghost use Rattle.der_modules.specs.MemberLaws.{copies_of, either_copies, held_copies, one_tag_copies, same_copies, seen_copies};
ghost use Rattle.der_modules.specs.Members.{seen_choice};
ghost use Rattle.der_opaque.specs.contracts.octet_string.OctetStringDuplicateValue.TheImpl.Laws as octetstring_duplicate_value;
ghost use Rattle.der_opaque.specs.contracts.octet_string.OctetStringDuplicateValueIsEqual.TheImpl.Laws as octetstring_duplicate_value_is_equal;
ghost use Rattle.der_shapes.specs.Shapes.Grammar.{label};
ghost use Rattle.der_shapes.specs.Shapes.Label.{tree_of};
ghost use Rattle.der_shapes.specs.declared.shapes.label.Label.TheVariants as of;

use der_elem::{
    Choice, Decode, DecodeField, DerOrd, Duplicate, DuplicateIsEqual, EncodeValue, EncodingEq,
    Form, FormValue, IntegerTag, KnownTags, OctetStringTag, TagMarker, Tagged,
};
use der_fields::{Implicit, ImplicitTag, OneOf, cmp_headers};
use der_modules::{Choosing, CopyLaws, Member};
use der_numbers::IntRef;
use der_opaque::OctetString;
use der_tlv::{BackWriter, Error, Length, Source, Tag, Writer};
use std::alloc::Global;
use std::cmp::Ordering;

/// The alternatives, as a tree.
type Tree<'a> = OneOf<OctetString, Implicit<IntRef<'a>, 0>>;

/// ```text
/// Label ::= CHOICE {
///     text    OCTET STRING,
///     number  [0] INTEGER }
/// ```
///
/// Reading refuses a tag that no alternative has (`ErrorKind::TagUnexpected`, 4), and the
/// alternative's faults.
#[derive(Debug, PartialEq, Eq, Drop)]
pub enum Label<'a> {
    /// `text`, `OCTET STRING`.
    Text(OctetString),
    /// `number`, `[0] INTEGER`.
    Number(Implicit<IntRef<'a>, 0>),
}

impl<'a> Form for Label<'a> {
    ghost encoding = { λ v. ⟦<Tree<'a> as Form>⟧.encoding (tree_of v) };

    ghost comparable = { λ v w. ⟦<Tree<'a> as Form>⟧.comparable (tree_of v) (tree_of w) };

    ghost re_reads = { λ v. ⟦<Tree<'a> as Form>⟧.re_reads (tree_of v) };

    ghost accepts = { λ rules v. ⟦<Tree<'a> as Form>⟧.accepts rules (tree_of v) };

    ghost parse = { ⟦<Tree<'a> as Form>⟧.parse };

    ghost tags = { ⟦<Tree<'a> as Form>⟧.tags };

    ghost first_tag_of = { λ v. ⟦<Tree<'a> as Form>⟧.first_tag_of (tree_of v) };

    ghost readable = { λ v. ⟦<Tree<'a> as Form>⟧.readable (tree_of v) };

    ghost TAKES_MEMORY = { ⟦<Tree<'a> as Form>⟧.TAKES_MEMORY };

    ghost FAULTS_FIRST = { ⟦<Tree<'a> as Form>⟧.FAULTS_FIRST };

    ghost parse_of_accepted = { λ rules v. ⟦<Tree<'a> as Form>⟧.parse_of_accepted rules (tree_of v) };

    ghost faults_of_octets = { ⟦<Tree<'a> as Form>⟧.faults_of_octets };

    ghost begins = { λ rules v. ⟦<Tree<'a> as Form>⟧.begins rules (tree_of v) };

    ghost begins_first = { λ rules v. ⟦<Tree<'a> as Form>⟧.begins_first rules (tree_of v) };

    ghost same_length = { λ rules v. ⟦<Tree<'a> as Form>⟧.same_length rules (tree_of v) };

    ghost accepts_encoding = { λ rules v. ⟦<Tree<'a> as Form>⟧.accepts_encoding rules (tree_of v) };

    ghost only_readable = { λ rules v. ⟦<Tree<'a> as Form>⟧.only_readable rules (tree_of v) };

    ghost accepts_comparable = { λ rules v w. ⟦<Tree<'a> as Form>⟧.accepts_comparable rules (tree_of v) (tree_of w) };

    ghost re_reads_memory = { λ v. ⟦<Tree<'a> as Form>⟧.re_reads_memory (tree_of v) };
}

impl<'a> FormValue for Label<'a> {
    ghost value = { mapped_format tree_of ⟦<Tree<'a> as FormValue>⟧.value };
}

impl<'a> Tagged for Label<'a> {
    ghost tag_of = { λ v. ⟦<Tree<'a> as Tagged>⟧.tag_of (tree_of v) };

    fn tag(&self) -> Tag {
        match self {
            Label::Text(value) => value.tag(),
            Label::Number(value) => value.tag(),
        }
    }

    ghost encoding_is = { ⟦<Label<'a> as Choosing>⟧.choice.has_tag.encoding_is };

    ghost accepted_is_tlv = { λ rules v b. elim v as (λ k. ⟦<Tree<'a> as Form>⟧.accepts rules (tree_of k) b → IsTlv b) [ of.Text x ↦ λ a. tlv_tagged _ ⟦<OctetString as FormValue>⟧.value.accepts rules x b a.0 | of.Number x ↦ λ a. tlv_tagged _ ⟦<Implicit<IntRef<'a>, 0> as FormValue>⟧.value.accepts rules x b a.0 ] };

    ghost own_tag = { ⟦<Label<'a> as Choosing>⟧.choice.has_tag.own_tag };

    ghost first_tag_is = { ⟦<Label<'a> as Choosing>⟧.choice.has_tag.first_tag_is };

    ghost re_reads_alike = { λ v. elim v as (λ k. ⟦<Tree<'a> as FormValue>⟧.value.re_reads (tree_of k) ≡ true → ⟦<Tree<'a> as Form>⟧.re_reads (tree_of k) ≡ true) [ of.Text x ↦ λ h. h | of.Number x ↦ λ h. h ] };

    ghost comparable_alike = { λ v w h. tt };
}

impl<'a> Choice for Label<'a> {
    fn can_decode(tag: Tag) -> bool
        ensures { result ≡ ⟦<Tree<'a> as Form>⟧.tags tag }
    {
        Tree::<'a>::can_decode(tag)
    }

    ghost has_first_tag = { λ v. elim v as (λ k. HasFirstTag (⟦<Tree<'a> as Form>⟧.first_tag_of (tree_of k))) [ of.Text x ↦ record { tag = _; is_tag = refl } | of.Number x ↦ record { tag = _; is_tag = refl } ] };
}

impl<'a> KnownTags for Label<'a> {
    ghost known_tags = { ⟦<Tree<'a> as KnownTags>⟧.known_tags };

    ghost MAY_BE_ABSENT = { false };

    ghost are_known = { (known_either ⟦<OctetString as KnownTags>⟧.known_tags ⟦<Implicit<IntRef<'a>, 0> as KnownTags>⟧.known_tags ⟦<OctetString as Form>⟧.tags ⟦<Implicit<IntRef<'a>, 0> as Form>⟧.tags (own_is_known _) (own_is_known _)) };

    ghost is_there = { λ e v. elim v as (λ k. HasFirstTag (⟦<Tree<'a> as Form>⟧.first_tag_of (tree_of k))) [ of.Text x ↦ record { tag = _; is_tag = refl } | of.Number x ↦ record { tag = _; is_tag = refl } ] };
}

impl<'a, R: Source<'a>> Decode<'a, R> for Label<'a> {
    ghost TAKES_MEMORY = { true };

    const TAKES_MEMORY: bool = true;

    fn decode(alloc: Global, reader: &mut R) -> Result<Label<'a>, Error> {
        match Tree::<'a>::decode(alloc, reader) {
            Ok(OneOf::First(value)) => Ok(Label::Text(value)),
            Ok(OneOf::Other(value)) => Ok(Label::Number(value)),
            Err(e) => Err(e),
        }
    }

    ghost takes_memory_is = { refl };
}

impl<'a, R: Source<'a>> DecodeField<'a, R> for Label<'a> {
    ghost TAKES_MEMORY = { true };

    const TAKES_MEMORY: bool = true;

    fn decode_field(alloc: Global, reader: &mut R) -> Result<Label<'a>, Error> {
        Label::decode(alloc, reader)
    }

    ghost takes_memory_is = { refl };
}

impl<'a> EncodeValue for Label<'a> {
    fn value_len(&self) -> Result<Length, Error> {
        match self {
            Label::Text(value) => value.value_len(),
            Label::Number(value) => value.value_len(),
        }
    }

    fn encode_value<W: Writer>(&self, writer: &mut W) -> Result<(), Error> {
        match self {
            Label::Text(value) => value.encode_value(writer),
            Label::Number(value) => value.encode_value(writer),
        }
    }

    fn encode_value_back<W: BackWriter>(&self, writer: &mut W) -> Result<(), Error> {
        match self {
            Label::Text(value) => value.encode_value_back(writer),
            Label::Number(value) => value.encode_value_back(writer),
        }
    }
}

impl<'a> DerOrd for Label<'a> {
    fn der_cmp(&self, other: &Label<'a>) -> Result<Ordering, Error> {
        match (self, other) {
            (Label::Text(value), Label::Text(other)) => value.der_cmp(other),
            (Label::Number(value), Label::Number(other)) => value.der_cmp(other),
            _ => cmp_headers(self, other),
        }
    }
}

impl<'a> Choosing for Label<'a> {
    ghost choice = { seen_choice tree_of ⟦<Label<'a> as PartialEq>⟧.eq ⟦<Tree<'a> as Choosing>⟧.choice
        (λ v w. elim v as (λ k. ⟦<Label<'a> as PartialEq>⟧.eq k w ≡ ⟦<Tree<'a> as Choosing>⟧.choice.eq (tree_of k) (tree_of w)) [
          | of.Text x ↦ elim w as (λ k. ⟦<Label<'a> as PartialEq>⟧.eq (of.Text x) k ≡ ⟦<Tree<'a> as Choosing>⟧.choice.eq (tree_of (of.Text x)) (tree_of k)) [ of.Text y ↦ refl | of.Number y ↦ refl ]
          | of.Number x ↦ elim w as (λ k. ⟦<Label<'a> as PartialEq>⟧.eq (of.Number x) k ≡ ⟦<Tree<'a> as Choosing>⟧.choice.eq (tree_of (of.Number x)) (tree_of k)) [ of.Text y ↦ refl | of.Number y ↦ refl ]
        ]) };
}

impl<'a> EncodingEq for Label<'a> {
    ghost encoding_eq = { ⟦<Label<'a> as Choosing>⟧.choice.equal };
}

impl<'a> CopyLaws for Label<'a> {
    ghost copies = { copies_of ((seen_copies tree_of ⟦<Label<'a> as PartialEq>⟧.eq ⟦<Tree<'a> as PartialEq>⟧.eq (λ v w. elim v as (λ k. ⟦<Label<'a> as PartialEq>⟧.eq k w ≡ ⟦<Tree<'a> as PartialEq>⟧.eq (tree_of k) (tree_of w)) [
      | of.Text x ↦ elim w as (λ k. ⟦<Label<'a> as PartialEq>⟧.eq (of.Text x) k ≡ ⟦<Tree<'a> as PartialEq>⟧.eq (tree_of (of.Text x)) (tree_of k)) [ of.Text y ↦ refl | of.Number y ↦ refl ]
      | of.Number x ↦ elim w as (λ k. ⟦<Label<'a> as PartialEq>⟧.eq (of.Number x) k ≡ ⟦<Tree<'a> as PartialEq>⟧.eq (tree_of (of.Number x)) (tree_of k)) [ of.Text y ↦ refl | of.Number y ↦ refl ]
    ]) (either_copies ⟦<OctetString as Form>⟧ ⟦<Implicit<IntRef<'a>, 0> as Form>⟧
        ⟦<OctetString as Choosing>⟧.choice.has_tag
        ⟦<Implicit<IntRef<'a>, 0> as Choosing>⟧.choice.has_tag
        (one_tag_copies ⟦<OctetStringTag as TagMarker>⟧.TAG (record { octets_are = octetstring_duplicate_value.copy_contents-law; comparable_are = octetstring_duplicate_value.copy_comparable_value-law; re_reads_are = octetstring_duplicate_value.copy_re_reads_value-law; equal_are = octetstring_duplicate_value_is_equal.copy_value_is_equal-law }))
        (one_tag_copies ⟦<ImplicitTag<IntegerTag, 0> as TagMarker>⟧.TAG (held_copies (λ x. x.value) (same_copies ⟦<IntRef<'a> as FormValue>⟧.value.contents ⟦<IntRef<'a> as FormValue>⟧.value.comparable ⟦<IntRef<'a> as FormValue>⟧.value.re_reads ⟦<IntRef<'a> as PartialEq>⟧.eq (λ v. (⟦<IntRef<'a> as Member>⟧.member.equal v v tt).1 refl))))
        ⟦<OneOf<OctetString, Implicit<IntRef<'a>, 0>> as PartialEq>⟧.eq (λ v x. refl) (λ w y. refl)))) };
}

impl<'a> Duplicate for Label<'a> {
    ghost is_copy = { λ v w. ⟦<Tree<'a> as Duplicate>⟧.is_copy (tree_of v) (tree_of w) };

    ghost takes_memory_to_copy = { ⟦<Tree<'a> as Duplicate>⟧.takes_memory_to_copy };

    fn duplicate(&self) -> Result<Label<'a>, Error> {
        match self {
            Label::Text(value) => match value.duplicate() {
                Ok(value) => Ok(Label::Text(value)),
                Err(e) => Err(e),
            },
            Label::Number(value) => match value.duplicate() {
                Ok(value) => Ok(Label::Number(value)),
                Err(e) => Err(e),
            },
        }
    }

    ghost copy_encoding = { ⟦<Label<'a> as CopyLaws>⟧.copies.laws.octets_are };

    ghost copy_comparable = { ⟦<Label<'a> as CopyLaws>⟧.copies.laws.comparable_are };

    ghost copy_re_reads = { ⟦<Label<'a> as CopyLaws>⟧.copies.laws.re_reads_are };
}

impl<'a> DuplicateIsEqual for Label<'a> {
    ghost copy_is_equal = { ⟦<Label<'a> as CopyLaws>⟧.copies.laws.equal_are };
}

/// What is read as `Label` is what the grammar page says.
pub fn grammar_of_label<'a>()
    ensures { ⟦<Label<'a> as Form>⟧.parse ≡ parse_of label }
{}
