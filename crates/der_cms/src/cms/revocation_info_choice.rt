//! RevocationInfoChoice, a CHOICE of 2 alternatives.
//!
//! Made by tools/asn1 from cms.asn1.

ghost use Rattle.std.specs.Prelude.{◌≡◌, false, refl, true};
ghost use Rattle.der_cms.specs.Cms.Grammar.{revocation_info_choice};
ghost use Rattle.der_cms.specs.Cms.RevocationInfoChoice.{tree_of};
ghost use Rattle.der_cms.specs.contracts.cms.revocation_info_choice.RevocationInfoChoiceEq.TheImpl.Laws as revocation_info_choice_eq;
ghost use Rattle.der_cms.specs.declared.cms.revocation_info_choice.RevocationInfoChoice.TheVariants as of;
ghost use Rattle.der_elem.specs.Accepting.{IsTlv};
ghost use Rattle.der_elem.specs.FirstTags.{HasFirstTag};
ghost use Rattle.der_elem.specs.FormatMakers.{mapped_format};
ghost use Rattle.der_elem.specs.KnownTagLaws.{known_either, own_is_known};
ghost use Rattle.der_elem.specs.TaggedLaws.{tlv_tagged};
ghost use Rattle.der_modules.specs.Asn1.{parse_of};
ghost use Rattle.der_modules.specs.MemberLaws.{copies_of, same_copies};
ghost use Rattle.der_modules.specs.Members.{seen_choice};

use crate::cms::aliases::OtherRevocationInfoFormat;
use der_elem::{
    Choice, Decode, DecodeField, DerOrd, Duplicate, DuplicateIsEqual, EncodeValue, EncodingEq,
    Form, FormValue, KnownTags, Tagged,
};
use der_fields::{Implicit, OneOf, cmp_headers};
use der_modules::{Choosing, CopyLaws, copy_of};
use der_pkix::crl::CertificateList;
use der_tlv::{BackWriter, Error, Length, Source, Tag, Writer};
use std::alloc::Global;
use std::cmp::Ordering;

/// The alternatives, as a tree.
type Tree<'a> = OneOf<CertificateList<'a>, Implicit<OtherRevocationInfoFormat<'a>, 1>>;

/// ```text
/// RevocationInfoChoice ::= CHOICE {
///      crl        CertificateList,
///      other  [1] IMPLICIT OtherRevocationInfoFormat }
/// ```
///
/// Reading refuses a tag that no alternative has (`ErrorKind::TagUnexpected`, 4), and the
/// alternative's faults.
#[derive(Clone, Copy, Debug, PartialEq, Eq)]
pub enum RevocationInfoChoice<'a> {
    /// `crl`, `CertificateList`.
    Crl(CertificateList<'a>),
    /// `other`, `[1] IMPLICIT OtherRevocationInfoFormat`.
    Other(Implicit<OtherRevocationInfoFormat<'a>, 1>),
}

impl<'a> Form for RevocationInfoChoice<'a> {
    ghost encoding = { λ v. ⟦<Tree<'a> as Form>⟧.encoding (tree_of v) };

    ghost comparable = { λ v w. ⟦<Tree<'a> as Form>⟧.comparable (tree_of v) (tree_of w) };

    ghost re_reads = { λ v. ⟦<Tree<'a> as Form>⟧.re_reads (tree_of v) };

    ghost accepts = { λ rules v. ⟦<Tree<'a> as Form>⟧.accepts rules (tree_of v) };

    ghost parse = { ⟦<Tree<'a> as Form>⟧.parse };

    ghost tags = { ⟦<Tree<'a> as Form>⟧.tags };

    ghost first_tag_of = { λ v. ⟦<Tree<'a> as Form>⟧.first_tag_of (tree_of v) };

    ghost readable = { λ v. ⟦<Tree<'a> as Form>⟧.readable (tree_of v) };

    ghost TAKES_MEMORY = { ⟦<Tree<'a> as Form>⟧.TAKES_MEMORY };

    ghost FAULTS_FIRST = { ⟦<Tree<'a> as Form>⟧.FAULTS_FIRST };

    ghost parse_of_accepted = { λ rules v. ⟦<Tree<'a> as Form>⟧.parse_of_accepted rules (tree_of v) };

    ghost faults_of_octets = { ⟦<Tree<'a> as Form>⟧.faults_of_octets };

    ghost begins = { λ rules v. ⟦<Tree<'a> as Form>⟧.begins rules (tree_of v) };

    ghost begins_first = { λ rules v. ⟦<Tree<'a> as Form>⟧.begins_first rules (tree_of v) };

    ghost same_length = { λ rules v. ⟦<Tree<'a> as Form>⟧.same_length rules (tree_of v) };

    ghost accepts_encoding = { λ rules v. ⟦<Tree<'a> as Form>⟧.accepts_encoding rules (tree_of v) };

    ghost only_readable = { λ rules v. ⟦<Tree<'a> as Form>⟧.only_readable rules (tree_of v) };

    ghost accepts_comparable = { λ rules v w. ⟦<Tree<'a> as Form>⟧.accepts_comparable rules (tree_of v) (tree_of w) };

    ghost re_reads_memory = { λ v. ⟦<Tree<'a> as Form>⟧.re_reads_memory (tree_of v) };
}

impl<'a> FormValue for RevocationInfoChoice<'a> {
    ghost value = { mapped_format tree_of ⟦<Tree<'a> as FormValue>⟧.value };
}

impl<'a> Tagged for RevocationInfoChoice<'a> {
    ghost tag_of = { λ v. ⟦<Tree<'a> as Tagged>⟧.tag_of (tree_of v) };

    fn tag(&self) -> Tag {
        match self {
            RevocationInfoChoice::Crl(value) => value.tag(),
            RevocationInfoChoice::Other(value) => value.tag(),
        }
    }

    ghost encoding_is = { ⟦<RevocationInfoChoice<'a> as Choosing>⟧.choice.has_tag.encoding_is };

    ghost accepted_is_tlv = { λ rules v b. elim v as (λ k. ⟦<Tree<'a> as Form>⟧.accepts rules (tree_of k) b → IsTlv b) [ of.Crl x ↦ λ a. tlv_tagged _ ⟦<CertificateList<'a> as FormValue>⟧.value.accepts rules x b a.0 | of.Other x ↦ λ a. tlv_tagged _ ⟦<Implicit<OtherRevocationInfoFormat<'a>, 1> as FormValue>⟧.value.accepts rules x b a.0 ] };

    ghost own_tag = { ⟦<RevocationInfoChoice<'a> as Choosing>⟧.choice.has_tag.own_tag };

    ghost first_tag_is = { ⟦<RevocationInfoChoice<'a> as Choosing>⟧.choice.has_tag.first_tag_is };

    ghost re_reads_alike = { λ v. elim v as (λ k. ⟦<Tree<'a> as FormValue>⟧.value.re_reads (tree_of k) ≡ true → ⟦<Tree<'a> as Form>⟧.re_reads (tree_of k) ≡ true) [ of.Crl x ↦ λ h. h | of.Other x ↦ λ h. h ] };

    ghost comparable_alike = { λ v w h. tt };
}

impl<'a> Choice for RevocationInfoChoice<'a> {
    fn can_decode(tag: Tag) -> bool
        ensures { result ≡ ⟦<Tree<'a> as Form>⟧.tags tag }
    {
        Tree::<'a>::can_decode(tag)
    }

    ghost has_first_tag = { λ v. elim v as (λ k. HasFirstTag (⟦<Tree<'a> as Form>⟧.first_tag_of (tree_of k))) [ of.Crl x ↦ record { tag = _; is_tag = refl } | of.Other x ↦ record { tag = _; is_tag = refl } ] };
}

impl<'a> KnownTags for RevocationInfoChoice<'a> {
    ghost known_tags = { ⟦<Tree<'a> as KnownTags>⟧.known_tags };

    ghost MAY_BE_ABSENT = { false };

    ghost are_known = { (known_either ⟦<CertificateList<'a> as KnownTags>⟧.known_tags ⟦<Implicit<OtherRevocationInfoFormat<'a>, 1> as KnownTags>⟧.known_tags ⟦<CertificateList<'a> as Form>⟧.tags ⟦<Implicit<OtherRevocationInfoFormat<'a>, 1> as Form>⟧.tags (own_is_known _) (own_is_known _)) };

    ghost is_there = { λ e v. elim v as (λ k. HasFirstTag (⟦<Tree<'a> as Form>⟧.first_tag_of (tree_of k))) [ of.Crl x ↦ record { tag = _; is_tag = refl } | of.Other x ↦ record { tag = _; is_tag = refl } ] };
}

impl<'a, R: Source<'a>> Decode<'a, R> for RevocationInfoChoice<'a> {
    ghost TAKES_MEMORY = { false };

    const TAKES_MEMORY: bool = false;

    fn decode(alloc: Global, reader: &mut R) -> Result<RevocationInfoChoice<'a>, Error> {
        match Tree::<'a>::decode(alloc, reader) {
            Ok(OneOf::First(value)) => Ok(RevocationInfoChoice::Crl(value)),
            Ok(OneOf::Other(value)) => Ok(RevocationInfoChoice::Other(value)),
            Err(e) => Err(e),
        }
    }

    ghost takes_memory_is = { refl };
}

impl<'a, R: Source<'a>> DecodeField<'a, R> for RevocationInfoChoice<'a> {
    ghost TAKES_MEMORY = { false };

    const TAKES_MEMORY: bool = false;

    fn decode_field(alloc: Global, reader: &mut R) -> Result<RevocationInfoChoice<'a>, Error> {
        RevocationInfoChoice::decode(alloc, reader)
    }

    ghost takes_memory_is = { refl };
}

impl<'a> EncodeValue for RevocationInfoChoice<'a> {
    fn value_len(&self) -> Result<Length, Error> {
        match self {
            RevocationInfoChoice::Crl(value) => value.value_len(),
            RevocationInfoChoice::Other(value) => value.value_len(),
        }
    }

    fn encode_value<W: Writer>(&self, writer: &mut W) -> Result<(), Error> {
        match self {
            RevocationInfoChoice::Crl(value) => value.encode_value(writer),
            RevocationInfoChoice::Other(value) => value.encode_value(writer),
        }
    }

    fn encode_value_back<W: BackWriter>(&self, writer: &mut W) -> Result<(), Error> {
        match self {
            RevocationInfoChoice::Crl(value) => value.encode_value_back(writer),
            RevocationInfoChoice::Other(value) => value.encode_value_back(writer),
        }
    }
}

impl<'a> DerOrd for RevocationInfoChoice<'a> {
    fn der_cmp(&self, other: &RevocationInfoChoice<'a>) -> Result<Ordering, Error> {
        match (self, other) {
            (RevocationInfoChoice::Crl(value), RevocationInfoChoice::Crl(other)) => value.der_cmp(
                other,
            ),
            (RevocationInfoChoice::Other(value), RevocationInfoChoice::Other(other)) =>
                value.der_cmp(other),
            _ => cmp_headers(self, other),
        }
    }
}

impl<'a> Choosing for RevocationInfoChoice<'a> {
    ghost choice = { seen_choice tree_of ⟦<RevocationInfoChoice<'a> as PartialEq>⟧.eq ⟦<Tree<'a> as Choosing>⟧.choice
        (λ v w. elim v as (λ k. ⟦<RevocationInfoChoice<'a> as PartialEq>⟧.eq k w ≡ ⟦<Tree<'a> as Choosing>⟧.choice.eq (tree_of k) (tree_of w)) [
          | of.Crl x ↦ elim w as (λ k. ⟦<RevocationInfoChoice<'a> as PartialEq>⟧.eq (of.Crl x) k ≡ ⟦<Tree<'a> as Choosing>⟧.choice.eq (tree_of (of.Crl x)) (tree_of k)) [ of.Crl y ↦ refl | of.Other y ↦ refl ]
          | of.Other x ↦ elim w as (λ k. ⟦<RevocationInfoChoice<'a> as PartialEq>⟧.eq (of.Other x) k ≡ ⟦<Tree<'a> as Choosing>⟧.choice.eq (tree_of (of.Other x)) (tree_of k)) [ of.Crl y ↦ refl | of.Other y ↦ refl ]
        ]) };
}

impl<'a> EncodingEq for RevocationInfoChoice<'a> {
    ghost encoding_eq = { ⟦<RevocationInfoChoice<'a> as Choosing>⟧.choice.equal };
}

impl<'a> CopyLaws for RevocationInfoChoice<'a> {
    ghost copies = { copies_of ((same_copies ⟦<RevocationInfoChoice<'a> as Form>⟧.encoding ⟦<RevocationInfoChoice<'a> as Form>⟧.comparable ⟦<RevocationInfoChoice<'a> as Form>⟧.re_reads ⟦<RevocationInfoChoice<'a> as PartialEq>⟧.eq revocation_info_choice_eq.laws-law.refl)) };
}

impl<'a> Duplicate for RevocationInfoChoice<'a> {
    ghost is_copy = { λ v w. w ≡ v };

    ghost takes_memory_to_copy = { false };

    fn duplicate(&self) -> Result<RevocationInfoChoice<'a>, Error> {
        Ok(copy_of(self))
    }

    ghost copy_encoding = { ⟦<RevocationInfoChoice<'a> as CopyLaws>⟧.copies.laws.octets_are };

    ghost copy_comparable = { ⟦<RevocationInfoChoice<'a> as CopyLaws>⟧.copies.laws.comparable_are };

    ghost copy_re_reads = { ⟦<RevocationInfoChoice<'a> as CopyLaws>⟧.copies.laws.re_reads_are };
}

impl<'a> DuplicateIsEqual for RevocationInfoChoice<'a> {
    ghost copy_is_equal = { ⟦<RevocationInfoChoice<'a> as CopyLaws>⟧.copies.laws.equal_are };
}

/// What is read as `RevocationInfoChoice` is what the grammar page says.
pub fn grammar_of_revocation_info_choice<'a>()
    ensures { ⟦<RevocationInfoChoice<'a> as Form>⟧.parse ≡ parse_of revocation_info_choice }
{}
