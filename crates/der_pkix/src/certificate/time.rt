//! Time, a CHOICE of 2 alternatives.
//!
//! Made by tools/asn1 from certificate.asn1.

ghost use Rattle.std.specs.Prelude.{◌≡◌, false, refl, true};
ghost use Rattle.der_elem.specs.Accepting.{IsTlv};
ghost use Rattle.der_elem.specs.FirstTags.{HasFirstTag};
ghost use Rattle.der_elem.specs.FormatMakers.{mapped_format};
ghost use Rattle.der_elem.specs.KnownTagLaws.{known_either, own_is_known};
ghost use Rattle.der_elem.specs.TaggedLaws.{tlv_tagged};
ghost use Rattle.der_modules.specs.Asn1.{parse_of};
ghost use Rattle.der_modules.specs.MemberLaws.{copies_of, same_copies};
ghost use Rattle.der_modules.specs.Members.{seen_choice};
ghost use Rattle.der_pkix.specs.Certificate.Grammar.{time};
ghost use Rattle.der_pkix.specs.Certificate.Time.{tree_of};
ghost use Rattle.der_pkix.specs.contracts.certificate.time.TimeEq.TheImpl.Laws as time_eq;
ghost use Rattle.der_pkix.specs.declared.certificate.time.Time.TheVariants as of;

use der_elem::{
    Choice, Decode, DecodeField, DerOrd, Duplicate, DuplicateIsEqual, EncodeValue, EncodingEq,
    Form, FormValue, KnownTags, Tagged,
};
use der_fields::{OneOf, cmp_headers};
use der_modules::{Choosing, CopyLaws, copy_of};
use der_time::{GeneralizedTime, UtcTime};
use der_tlv::{BackWriter, Error, Length, Source, Tag, Writer};
use std::alloc::Global;
use std::cmp::Ordering;

/// The alternatives, as a tree.
type Tree = OneOf<UtcTime, GeneralizedTime>;

/// ```text
/// Time ::= CHOICE {
///      utcTime      UTCTime,
///      generalTime  GeneralizedTime }
/// ```
///
/// Reading refuses a tag that no alternative has (`ErrorKind::TagUnexpected`, 4), and the
/// alternative's faults.
#[derive(Clone, Copy, Debug, PartialEq, Eq)]
pub enum Time {
    /// `utcTime`, `UTCTime`.
    UtcTime(UtcTime),
    /// `generalTime`, `GeneralizedTime`.
    GeneralTime(GeneralizedTime),
}

impl Form for Time {
    ghost encoding = { λ v. ⟦<Tree as Form>⟧.encoding (tree_of v) };

    ghost comparable = { λ v w. ⟦<Tree as Form>⟧.comparable (tree_of v) (tree_of w) };

    ghost re_reads = { λ v. ⟦<Tree as Form>⟧.re_reads (tree_of v) };

    ghost accepts = { λ rules v. ⟦<Tree as Form>⟧.accepts rules (tree_of v) };

    ghost parse = { ⟦<Tree as Form>⟧.parse };

    ghost tags = { ⟦<Tree as Form>⟧.tags };

    ghost first_tag_of = { λ v. ⟦<Tree as Form>⟧.first_tag_of (tree_of v) };

    ghost readable = { λ v. ⟦<Tree as Form>⟧.readable (tree_of v) };

    ghost TAKES_MEMORY = { ⟦<Tree as Form>⟧.TAKES_MEMORY };

    ghost FAULTS_FIRST = { ⟦<Tree as Form>⟧.FAULTS_FIRST };

    ghost parse_of_accepted = { λ rules v. ⟦<Tree as Form>⟧.parse_of_accepted rules (tree_of v) };

    ghost faults_of_octets = { ⟦<Tree as Form>⟧.faults_of_octets };

    ghost begins = { λ rules v. ⟦<Tree as Form>⟧.begins rules (tree_of v) };

    ghost begins_first = { λ rules v. ⟦<Tree as Form>⟧.begins_first rules (tree_of v) };

    ghost same_length = { λ rules v. ⟦<Tree as Form>⟧.same_length rules (tree_of v) };

    ghost accepts_encoding = { λ rules v. ⟦<Tree as Form>⟧.accepts_encoding rules (tree_of v) };

    ghost only_readable = { λ rules v. ⟦<Tree as Form>⟧.only_readable rules (tree_of v) };

    ghost accepts_comparable = { λ rules v w. ⟦<Tree as Form>⟧.accepts_comparable rules (tree_of v) (tree_of w) };

    ghost re_reads_memory = { λ v. ⟦<Tree as Form>⟧.re_reads_memory (tree_of v) };
}

impl FormValue for Time {
    ghost value = { mapped_format tree_of ⟦<Tree as FormValue>⟧.value };
}

impl Tagged for Time {
    ghost tag_of = { λ v. ⟦<Tree as Tagged>⟧.tag_of (tree_of v) };

    fn tag(&self) -> Tag {
        match self {
            Time::UtcTime(value) => value.tag(),
            Time::GeneralTime(value) => value.tag(),
        }
    }

    ghost encoding_is = { ⟦<Time as Choosing>⟧.choice.has_tag.encoding_is };

    ghost accepted_is_tlv = { λ rules v b. elim v as (λ k. ⟦<Tree as Form>⟧.accepts rules (tree_of k) b → IsTlv b) [ of.UtcTime x ↦ λ a. tlv_tagged _ ⟦<UtcTime as FormValue>⟧.value.accepts rules x b a.0 | of.GeneralTime x ↦ λ a. tlv_tagged _ ⟦<GeneralizedTime as FormValue>⟧.value.accepts rules x b a.0 ] };

    ghost own_tag = { ⟦<Time as Choosing>⟧.choice.has_tag.own_tag };

    ghost first_tag_is = { ⟦<Time as Choosing>⟧.choice.has_tag.first_tag_is };

    ghost re_reads_alike = { λ v. elim v as (λ k. ⟦<Tree as FormValue>⟧.value.re_reads (tree_of k) ≡ true → ⟦<Tree as Form>⟧.re_reads (tree_of k) ≡ true) [ of.UtcTime x ↦ λ h. h | of.GeneralTime x ↦ λ h. h ] };

    ghost comparable_alike = { λ v w h. tt };
}

impl Choice for Time {
    fn can_decode(tag: Tag) -> bool {
        Tree::can_decode(tag)
    }

    ghost has_first_tag = { λ v. elim v as (λ k. HasFirstTag (⟦<Tree as Form>⟧.first_tag_of (tree_of k))) [ of.UtcTime x ↦ record { tag = _; is_tag = refl } | of.GeneralTime x ↦ record { tag = _; is_tag = refl } ] };
}

impl KnownTags for Time {
    ghost known_tags = { ⟦<Tree as KnownTags>⟧.known_tags };

    ghost MAY_BE_ABSENT = { false };

    ghost are_known = { (known_either ⟦<UtcTime as KnownTags>⟧.known_tags ⟦<GeneralizedTime as KnownTags>⟧.known_tags ⟦<UtcTime as Form>⟧.tags ⟦<GeneralizedTime as Form>⟧.tags (own_is_known _) (own_is_known _)) };

    ghost is_there = { λ e v. elim v as (λ k. HasFirstTag (⟦<Tree as Form>⟧.first_tag_of (tree_of k))) [ of.UtcTime x ↦ record { tag = _; is_tag = refl } | of.GeneralTime x ↦ record { tag = _; is_tag = refl } ] };
}

impl<'a, R: Source<'a>> Decode<'a, R> for Time {
    ghost TAKES_MEMORY = { false };

    const TAKES_MEMORY: bool = false;

    fn decode(alloc: Global, reader: &mut R) -> Result<Time, Error> {
        match Tree::decode(alloc, reader) {
            Ok(OneOf::First(value)) => Ok(Time::UtcTime(value)),
            Ok(OneOf::Other(value)) => Ok(Time::GeneralTime(value)),
            Err(e) => Err(e),
        }
    }

    ghost takes_memory_is = { refl };
}

impl<'a, R: Source<'a>> DecodeField<'a, R> for Time {
    ghost TAKES_MEMORY = { false };

    const TAKES_MEMORY: bool = false;

    fn decode_field(alloc: Global, reader: &mut R) -> Result<Time, Error> {
        Time::decode(alloc, reader)
    }

    ghost takes_memory_is = { refl };
}

impl EncodeValue for Time {
    fn value_len(&self) -> Result<Length, Error> {
        match self {
            Time::UtcTime(value) => value.value_len(),
            Time::GeneralTime(value) => value.value_len(),
        }
    }

    fn encode_value<W: Writer>(&self, writer: &mut W) -> Result<(), Error> {
        match self {
            Time::UtcTime(value) => value.encode_value(writer),
            Time::GeneralTime(value) => value.encode_value(writer),
        }
    }

    fn encode_value_back<W: BackWriter>(&self, writer: &mut W) -> Result<(), Error> {
        match self {
            Time::UtcTime(value) => value.encode_value_back(writer),
            Time::GeneralTime(value) => value.encode_value_back(writer),
        }
    }
}

impl DerOrd for Time {
    fn der_cmp(&self, other: &Time) -> Result<Ordering, Error> {
        match (self, other) {
            (Time::UtcTime(value), Time::UtcTime(other)) => value.der_cmp(other),
            (Time::GeneralTime(value), Time::GeneralTime(other)) => value.der_cmp(other),
            _ => cmp_headers(self, other),
        }
    }
}

impl Choosing for Time {
    ghost choice = { seen_choice tree_of ⟦<Time as PartialEq>⟧.eq ⟦<Tree as Choosing>⟧.choice
        (λ v w. elim v as (λ k. ⟦<Time as PartialEq>⟧.eq k w ≡ ⟦<Tree as Choosing>⟧.choice.eq (tree_of k) (tree_of w)) [
          | of.UtcTime x ↦ elim w as (λ k. ⟦<Time as PartialEq>⟧.eq (of.UtcTime x) k ≡ ⟦<Tree as Choosing>⟧.choice.eq (tree_of (of.UtcTime x)) (tree_of k)) [ of.UtcTime y ↦ refl | of.GeneralTime y ↦ refl ]
          | of.GeneralTime x ↦ elim w as (λ k. ⟦<Time as PartialEq>⟧.eq (of.GeneralTime x) k ≡ ⟦<Tree as Choosing>⟧.choice.eq (tree_of (of.GeneralTime x)) (tree_of k)) [ of.UtcTime y ↦ refl | of.GeneralTime y ↦ refl ]
        ]) };
}

impl EncodingEq for Time {
    ghost encoding_eq = { ⟦<Time as Choosing>⟧.choice.equal };
}

impl CopyLaws for Time {
    ghost copies = { copies_of ((same_copies ⟦<Time as Form>⟧.encoding ⟦<Time as Form>⟧.comparable ⟦<Time as Form>⟧.re_reads ⟦<Time as PartialEq>⟧.eq time_eq.laws-law.refl)) };
}

impl Duplicate for Time {
    ghost is_copy = { λ v w. w ≡ v };

    ghost takes_memory_to_copy = { false };

    fn duplicate(&self) -> Result<Time, Error> {
        Ok(copy_of(self))
    }

    ghost copy_encoding = { ⟦<Time as CopyLaws>⟧.copies.laws.octets_are };

    ghost copy_comparable = { ⟦<Time as CopyLaws>⟧.copies.laws.comparable_are };

    ghost copy_re_reads = { ⟦<Time as CopyLaws>⟧.copies.laws.re_reads_are };
}

impl DuplicateIsEqual for Time {
    ghost copy_is_equal = { ⟦<Time as CopyLaws>⟧.copies.laws.equal_are };
}

/// What is read as `Time` is what the grammar page says.
pub fn grammar_of_time()
    ensures { ⟦<Time as Form>⟧.parse ≡ parse_of time }
{}
