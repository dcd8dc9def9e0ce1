//! ResponderID, a CHOICE of 2 alternatives.
//!
//! Made by tools/asn1 from ocsp.asn1.

ghost use Rattle.std.specs.Prelude.{◌≡◌, false, refl, true};
ghost use Rattle.der_elem.specs.Accepting.{IsTlv};
ghost use Rattle.der_elem.specs.FirstTags.{HasFirstTag};
ghost use Rattle.der_elem.specs.FormatMakers.{mapped_format};
ghost use Rattle.der_elem.specs.KnownTagLaws.{known_either, own_is_known};
ghost use Rattle.der_elem.specs.TaggedLaws.{tlv_tagged};
ghost use Rattle.der_modules.specs.Asn1.{parse_of};
ghost use Rattle.der_modules.specs.MemberLaws.{copies_of, same_copies};
ghost use Rattle.der_modules.specs.Members.{seen_choice};
ghost use Rattle.der_ocsp.specs.Ocsp.Grammar.{responder_id};
ghost use Rattle.der_ocsp.specs.Ocsp.ResponderId.{tree_of};
ghost use Rattle.der_ocsp.specs.contracts.ocsp.responder_id.ResponderIdEq.TheImpl.Laws as responder_id_eq;
ghost use Rattle.der_ocsp.specs.declared.ocsp.responder_id.ResponderId.TheVariants as of;

use crate::ocsp::aliases::KeyHash;
use der_elem::{
    Choice, Decode, DecodeField, DerOrd, Duplicate, DuplicateIsEqual, EncodeValue, EncodingEq,
    Form, FormValue, KnownTags, Tagged,
};
use der_fields::{Explicit, OneOf, cmp_headers};
use der_modules::{Choosing, CopyLaws, copy_of};
use der_pkix::name::Name;
use der_tlv::{BackWriter, Error, Length, Source, Tag, Writer};
use std::alloc::Global;
use std::cmp::Ordering;

/// The alternatives, as a tree.
type Tree<'a> = OneOf<Explicit<Name<'a>, 1>, Explicit<KeyHash<'a>, 2>>;

/// ```text
/// ResponderID ::= CHOICE {
///      byName  [1] Name,
///      byKey   [2] KeyHash }
/// ```
///
/// Reading refuses a tag that no alternative has (`ErrorKind::TagUnexpected`, 4), and the
/// alternative's faults.
#[derive(Clone, Copy, Debug, PartialEq, Eq)]
pub enum ResponderId<'a> {
    /// `byName`, `[1] Name`.
    ByName(Explicit<Name<'a>, 1>),
    /// `byKey`, `[2] KeyHash`.
    ByKey(Explicit<KeyHash<'a>, 2>),
}

impl<'a> Form for ResponderId<'a> {
    ghost encoding = { λ v. ⟦<Tree<'a> as Form>⟧.encoding (tree_of v) };

    ghost comparable = { λ v w. ⟦<Tree<'a> as Form>⟧.comparable (tree_of v) (tree_of w) };

    ghost re_reads = { λ v. ⟦<Tree<'a> as Form>⟧.re_reads (tree_of v) };

    ghost accepts = { λ rules v. ⟦<Tree<'a> as Form>⟧.accepts rules (tree_of v) };

    ghost parse = { ⟦<Tree<'a> as Form>⟧.parse };

    ghost tags = { ⟦<Tree<'a> as Form>⟧.tags };

    ghost first_tag_of = { λ v. ⟦<Tree<'a> as Form>⟧.first_tag_of (tree_of v) };

    ghost readable = { λ v. ⟦<Tree<'a> as Form>⟧.readable (tree_of v) };

    ghost TAKES_MEMORY = { ⟦<Tree<'a> as Form>⟧.TAKES_MEMORY };

    ghost FAULTS_FIRST = { ⟦<Tree<'a> as Form>⟧.FAULTS_FIRST };

    ghost parse_of_accepted = { λ rules v. ⟦<Tree<'a> as Form>⟧.parse_of_accepted rules (tree_of v) };

    ghost faults_of_octets = { ⟦<Tree<'a> as Form>⟧.faults_of_octets };

    ghost begins = { λ rules v. ⟦<Tree<'a> as Form>⟧.begins rules (tree_of v) };

    ghost begins_first = { λ rules v. ⟦<Tree<'a> as Form>⟧.begins_first rules (tree_of v) };

    ghost same_length = { λ rules v. ⟦<Tree<'a> as Form>⟧.same_length rules (tree_of v) };

    ghost accepts_encoding = { λ rules v. ⟦<Tree<'a> as Form>⟧.accepts_encoding rules (tree_of v) };

    ghost only_readable = { λ rules v. ⟦<Tree<'a> as Form>⟧.only_readable rules (tree_of v) };

    ghost accepts_comparable = { λ rules v w. ⟦<Tree<'a> as Form>⟧.accepts_comparable rules (tree_of v) (tree_of w) };

    ghost re_reads_memory = { λ v. ⟦<Tree<'a> as Form>⟧.re_reads_memory (tree_of v) };
}

impl<'a> FormValue for ResponderId<'a> {
    ghost value = { mapped_format tree_of ⟦<Tree<'a> as FormValue>⟧.value };
}

impl<'a> Tagged for ResponderId<'a> {
    ghost tag_of = { λ v. ⟦<Tree<'a> as Tagged>⟧.tag_of (tree_of v) };

    fn tag(&self) -> Tag {
        match self {
            ResponderId::ByName(value) => value.tag(),
            ResponderId::ByKey(value) => value.tag(),
        }
    }

    ghost encoding_is = { ⟦<ResponderId<'a> as Choosing>⟧.choice.has_tag.encoding_is };

    ghost accepted_is_tlv = { λ rules v b. elim v as (λ k. ⟦<Tree<'a> as Form>⟧.accepts rules (tree_of k) b → IsTlv b) [ of.ByName x ↦ λ a. tlv_tagged _ ⟦<Explicit<Name<'a>, 1> as FormValue>⟧.value.accepts rules x b a.0 | of.ByKey x ↦ λ a. tlv_tagged _ ⟦<Explicit<KeyHash<'a>, 2> as FormValue>⟧.value.accepts rules x b a.0 ] };

    ghost own_tag = { ⟦<ResponderId<'a> as Choosing>⟧.choice.has_tag.own_tag };

    ghost first_tag_is = { ⟦<ResponderId<'a> as Choosing>⟧.choice.has_tag.first_tag_is };

    ghost re_reads_alike = { λ v. elim v as (λ k. ⟦<Tree<'a> as FormValue>⟧.value.re_reads (tree_of k) ≡ true → ⟦<Tree<'a> as Form>⟧.re_reads (tree_of k) ≡ true) [ of.ByName x ↦ λ h. h | of.ByKey x ↦ λ h. h ] };

    ghost comparable_alike = { λ v w h. tt };
}

impl<'a> Choice for ResponderId<'a> {
    fn can_decode(tag: Tag) -> bool
        ensures { result ≡ ⟦<Tree<'a> as Form>⟧.tags tag }
    {
        Tree::<'a>::can_decode(tag)
    }

    ghost has_first_tag = { λ v. elim v as (λ k. HasFirstTag (⟦<Tree<'a> as Form>⟧.first_tag_of (tree_of k))) [ of.ByName x ↦ record { tag = _; is_tag = refl } | of.ByKey x ↦ record { tag = _; is_tag = refl } ] };
}

impl<'a> KnownTags for ResponderId<'a> {
    ghost known_tags = { ⟦<Tree<'a> as KnownTags>⟧.known_tags };

    ghost MAY_BE_ABSENT = { false };

    ghost are_known = { (known_either ⟦<Explicit<Name<'a>, 1> as KnownTags>⟧.known_tags ⟦<Explicit<KeyHash<'a>, 2> as KnownTags>⟧.known_tags ⟦<Explicit<Name<'a>, 1> as Form>⟧.tags ⟦<Explicit<KeyHash<'a>, 2> as Form>⟧.tags (own_is_known _) (own_is_known _)) };

    ghost is_there = { λ e v. elim v as (λ k. HasFirstTag (⟦<Tree<'a> as Form>⟧.first_tag_of (tree_of k))) [ of.ByName x ↦ record { tag = _; is_tag = refl } | of.ByKey x ↦ record { tag = _; is_tag = refl } ] };
}

impl<'a, R: Source<'a>> Decode<'a, R> for ResponderId<'a> {
    ghost TAKES_MEMORY = { false };

    const TAKES_MEMORY: bool = false;

    fn decode(alloc: Global, reader: &mut R) -> Result<ResponderId<'a>, Error> {
        match Tree::<'a>::decode(alloc, reader) {
            Ok(OneOf::First(value)) => Ok(ResponderId::ByName(value)),
            Ok(OneOf::Other(value)) => Ok(ResponderId::ByKey(value)),
            Err(e) => Err(e),
        }
    }

    ghost takes_memory_is = { refl };
}

impl<'a, R: Source<'a>> DecodeField<'a, R> for ResponderId<'a> {
    ghost TAKES_MEMORY = { false };

    const TAKES_MEMORY: bool = false;

    fn decode_field(alloc: Global, reader: &mut R) -> Result<ResponderId<'a>, Error> {
        ResponderId::decode(alloc, reader)
    }

    ghost takes_memory_is = { refl };
}

impl<'a> EncodeValue for ResponderId<'a> {
    fn value_len(&self) -> Result<Length, Error> {
        match self {
            ResponderId::ByName(value) => value.value_len(),
            ResponderId::ByKey(value) => value.value_len(),
        }
    }

    fn encode_value<W: Writer>(&self, writer: &mut W) -> Result<(), Error> {
        match self {
            ResponderId::ByName(value) => value.encode_value(writer),
            ResponderId::ByKey(value) => value.encode_value(writer),
        }
    }

    fn encode_value_back<W: BackWriter>(&self, writer: &mut W) -> Result<(), Error> {
        match self {
            ResponderId::ByName(value) => value.encode_value_back(writer),
            ResponderId::ByKey(value) => value.encode_value_back(writer),
        }
    }
}

impl<'a> DerOrd for ResponderId<'a> {
    fn der_cmp(&self, other: &ResponderId<'a>) -> Result<Ordering, Error> {
        match (self, other) {
            (ResponderId::ByName(value), ResponderId::ByName(other)) => value.der_cmp(other),
            (ResponderId::ByKey(value), ResponderId::ByKey(other)) => value.der_cmp(other),
            _ => cmp_headers(self, other),
        }
    }
}

impl<'a> Choosing for ResponderId<'a> {
    ghost choice = { seen_choice tree_of ⟦<ResponderId<'a> as PartialEq>⟧.eq ⟦<Tree<'a> as Choosing>⟧.choice
        (λ v w. elim v as (λ k. ⟦<ResponderId<'a> as PartialEq>⟧.eq k w ≡ ⟦<Tree<'a> as Choosing>⟧.choice.eq (tree_of k) (tree_of w)) [
          | of.ByName x ↦ elim w as (λ k. ⟦<ResponderId<'a> as PartialEq>⟧.eq (of.ByName x) k ≡ ⟦<Tree<'a> as Choosing>⟧.choice.eq (tree_of (of.ByName x)) (tree_of k)) [ of.ByName y ↦ refl | of.ByKey y ↦ refl ]
          | of.ByKey x ↦ elim w as (λ k. ⟦<ResponderId<'a> as PartialEq>⟧.eq (of.ByKey x) k ≡ ⟦<Tree<'a> as Choosing>⟧.choice.eq (tree_of (of.ByKey x)) (tree_of k)) [ of.ByName y ↦ refl | of.ByKey y ↦ refl ]
        ]) };
}

impl<'a> EncodingEq for ResponderId<'a> {
    ghost encoding_eq = { ⟦<ResponderId<'a> as Choosing>⟧.choice.equal };
}

impl<'a> CopyLaws for ResponderId<'a> {
    ghost copies = { copies_of ((same_copies ⟦<ResponderId<'a> as Form>⟧.encoding ⟦<ResponderId<'a> as Form>⟧.comparable ⟦<ResponderId<'a> as Form>⟧.re_reads ⟦<ResponderId<'a> as PartialEq>⟧.eq responder_id_eq.laws-law.refl)) };
}

impl<'a> Duplicate for ResponderId<'a> {
    ghost is_copy = { λ v w. w ≡ v };

    ghost takes_memory_to_copy = { false };

    fn duplicate(&self) -> Result<ResponderId<'a>, Error> {
        Ok(copy_of(self))
    }

    ghost copy_encoding = { ⟦<ResponderId<'a> as CopyLaws>⟧.copies.laws.octets_are };

    ghost copy_comparable = { ⟦<ResponderId<'a> as CopyLaws>⟧.copies.laws.comparable_are };

    ghost copy_re_reads = { ⟦<ResponderId<'a> as CopyLaws>⟧.copies.laws.re_reads_are };
}

impl<'a> DuplicateIsEqual for ResponderId<'a> {
    ghost copy_is_equal = { ⟦<ResponderId<'a> as CopyLaws>⟧.copies.laws.equal_are };
}

/// What is read as `ResponderID` is what the grammar page says.
pub fn grammar_of_responder_id<'a>()
    ensures { ⟦<ResponderId<'a> as Form>⟧.parse ≡ parse_of responder_id }
{}
