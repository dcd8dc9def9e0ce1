//! The other alternatives of RecipientInfo, a CHOICE of 2 alternatives.
//!
//! Made by tools/asn1 from enveloped.asn1.

ghost use Rattle.std.specs.Prelude.{◌≡◌, false, refl, true};
ghost use Rattle.der_elem.specs.Accepting.{IsTlv};
ghost use Rattle.der_elem.specs.FirstTags.{HasFirstTag};
ghost use Rattle.der_elem.specs.FormatMakers.{mapped_format};
ghost use Rattle.der_elem.specs.KnownTagLaws.{known_either, own_is_known};
ghost use Rattle.der_elem.specs.TaggedLaws.{tlv_tagged};
ghost use Rattle.der_enveloped.specs.Enveloped.RecipientInfoOther.{tree_of};
ghost use Rattle.der_enveloped.specs.contracts.enveloped.recipient_info_other.RecipientInfoOtherEq.TheImpl.Laws as recipient_info_other_eq;
ghost use Rattle.der_enveloped.specs.declared.enveloped.recipient_info_other.RecipientInfoOther.TheVariants as of;
ghost use Rattle.der_modules.specs.MemberLaws.{copies_of, same_copies};
ghost use Rattle.der_modules.specs.Members.{seen_choice};

use crate::enveloped::aliases::OtherRecipientInfo;
use crate::enveloped::password_recipient_info::PasswordRecipientInfo;
use der_elem::{
    Choice, Decode, DecodeField, DerOrd, Duplicate, DuplicateIsEqual, EncodeValue, EncodingEq,
    Form, FormValue, KnownTags, Tagged,
};
use der_fields::{Implicit, OneOf, cmp_headers};
use der_modules::{Choosing, CopyLaws, copy_of};
use der_tlv::{BackWriter, Error, Length, Source, Tag, Writer};
use std::alloc::Global;
use std::cmp::Ordering;

/// The alternatives, as a tree.
type Tree<'a> = OneOf<Implicit<PasswordRecipientInfo<'a>, 3>, Implicit<OtherRecipientInfo<'a>, 4>>;

/// The other alternatives of RecipientInfo, as one of which a value is read.
///
/// Reading refuses a tag that no alternative has (`ErrorKind::TagUnexpected`, 4), and the
/// alternative's faults.
#[derive(Clone, Copy, Debug, PartialEq, Eq)]
pub enum RecipientInfoOther<'a> {
    /// `pwri`, `[3] PasswordRecipientInfo`.
    Pwri(Implicit<PasswordRecipientInfo<'a>, 3>),
    /// `ori`, `[4] OtherRecipientInfo`.
    Ori(Implicit<OtherRecipientInfo<'a>, 4>),
}

impl<'a> Form for RecipientInfoOther<'a> {
    ghost encoding = { λ v. ⟦<Tree<'a> as Form>⟧.encoding (tree_of v) };

    ghost comparable = { λ v w. ⟦<Tree<'a> as Form>⟧.comparable (tree_of v) (tree_of w) };

    ghost re_reads = { λ v. ⟦<Tree<'a> as Form>⟧.re_reads (tree_of v) };

    ghost accepts = { λ rules v. ⟦<Tree<'a> as Form>⟧.accepts rules (tree_of v) };

    ghost parse = { ⟦<Tree<'a> as Form>⟧.parse };

    ghost tags = { ⟦<Tree<'a> as Form>⟧.tags };

    ghost first_tag_of = { λ v. ⟦<Tree<'a> as Form>⟧.first_tag_of (tree_of v) };

    ghost readable = { λ v. ⟦<Tree<'a> as Form>⟧.readable (tree_of v) };

    ghost TAKES_MEMORY = { ⟦<Tree<'a> as Form>⟧.TAKES_MEMORY };

    ghost FAULTS_FIRST = { ⟦<Tree<'a> as Form>⟧.FAULTS_FIRST };

    ghost parse_of_accepted = { λ rules v. ⟦<Tree<'a> as Form>⟧.parse_of_accepted rules (tree_of v) };

    ghost faults_of_octets = { ⟦<Tree<'a> as Form>⟧.faults_of_octets };

    ghost begins = { λ rules v. ⟦<Tree<'a> as Form>⟧.begins rules (tree_of v) };

    ghost begins_first = { λ rules v. ⟦<Tree<'a> as Form>⟧.begins_first rules (tree_of v) };

    ghost same_length = { λ rules v. ⟦<Tree<'a> as Form>⟧.same_length rules (tree_of v) };

    ghost accepts_encoding = { λ rules v. ⟦<Tree<'a> as Form>⟧.accepts_encoding rules (tree_of v) };

    ghost only_readable = { λ rules v. ⟦<Tree<'a> as Form>⟧.only_readable rules (tree_of v) };

    ghost accepts_comparable = { λ rules v w. ⟦<Tree<'a> as Form>⟧.accepts_comparable rules (tree_of v) (tree_of w) };

    ghost re_reads_memory = { λ v. ⟦<Tree<'a> as Form>⟧.re_reads_memory (tree_of v) };
}

impl<'a> FormValue for RecipientInfoOther<'a> {
    ghost value = { mapped_format tree_of ⟦<Tree<'a> as FormValue>⟧.value };
}

impl<'a> Tagged for RecipientInfoOther<'a> {
    ghost tag_of = { λ v. ⟦<Tree<'a> as Tagged>⟧.tag_of (tree_of v) };

    fn tag(&self) -> Tag {
        match self {
            RecipientInfoOther::Pwri(value) => value.tag(),
            RecipientInfoOther::Ori(value) => value.tag(),
        }
    }

    ghost encoding_is = { ⟦<RecipientInfoOther<'a> as Choosing>⟧.choice.has_tag.encoding_is };

    ghost accepted_is_tlv = { λ rules v b. elim v as (λ k. ⟦<Tree<'a> as Form>⟧.accepts rules (tree_of k) b → IsTlv b) [ of.Pwri x ↦ λ a. tlv_tagged _ ⟦<Implicit<PasswordRecipientInfo<'a>, 3> as FormValue>⟧.value.accepts rules x b a.0 | of.Ori x ↦ λ a. tlv_tagged _ ⟦<Implicit<OtherRecipientInfo<'a>, 4> as FormValue>⟧.value.accepts rules x b a.0 ] };

    ghost own_tag = { ⟦<RecipientInfoOther<'a> as Choosing>⟧.choice.has_tag.own_tag };

    ghost first_tag_is = { ⟦<RecipientInfoOther<'a> as Choosing>⟧.choice.has_tag.first_tag_is };

    ghost re_reads_alike = { λ v. elim v as (λ k. ⟦<Tree<'a> as FormValue>⟧.value.re_reads (tree_of k) ≡ true → ⟦<Tree<'a> as Form>⟧.re_reads (tree_of k) ≡ true) [ of.Pwri x ↦ λ h. h | of.Ori x ↦ λ h. h ] };

    ghost comparable_alike = { λ v w h. tt };
}

impl<'a> Choice for RecipientInfoOther<'a> {
    fn can_decode(tag: Tag) -> bool
        ensures { result ≡ ⟦<Tree<'a> as Form>⟧.tags tag }
    {
        Tree::<'a>::can_decode(tag)
    }

    ghost has_first_tag = { λ v. elim v as (λ k. HasFirstTag (⟦<Tree<'a> as Form>⟧.first_tag_of (tree_of k))) [ of.Pwri x ↦ record { tag = _; is_tag = refl } | of.Ori x ↦ record { tag = _; is_tag = refl } ] };
}

impl<'a> KnownTags for RecipientInfoOther<'a> {
    ghost known_tags = { ⟦<Tree<'a> as KnownTags>⟧.known_tags };

    ghost MAY_BE_ABSENT = { false };

    ghost are_known = { (known_either ⟦<Implicit<PasswordRecipientInfo<'a>, 3> as KnownTags>⟧.known_tags ⟦<Implicit<OtherRecipientInfo<'a>, 4> as KnownTags>⟧.known_tags ⟦<Implicit<PasswordRecipientInfo<'a>, 3> as Form>⟧.tags ⟦<Implicit<OtherRecipientInfo<'a>, 4> as Form>⟧.tags (own_is_known _) (own_is_known _)) };

    ghost is_there = { λ e v. elim v as (λ k. HasFirstTag (⟦<Tree<'a> as Form>⟧.first_tag_of (tree_of k))) [ of.Pwri x ↦ record { tag = _; is_tag = refl } | of.Ori x ↦ record { tag = _; is_tag = refl } ] };
}

impl<'a, R: Source<'a>> Decode<'a, R> for RecipientInfoOther<'a> {
    ghost TAKES_MEMORY = { false };

    const TAKES_MEMORY: bool = false;

    fn decode(alloc: Global, reader: &mut R) -> Result<RecipientInfoOther<'a>, Error> {
        match Tree::<'a>::decode(alloc, reader) {
            Ok(OneOf::First(value)) => Ok(RecipientInfoOther::Pwri(value)),
            Ok(OneOf::Other(value)) => Ok(RecipientInfoOther::Ori(value)),
            Err(e) => Err(e),
        }
    }

    ghost takes_memory_is = { refl };
}

impl<'a, R: Source<'a>> DecodeField<'a, R> for RecipientInfoOther<'a> {
    ghost TAKES_MEMORY = { false };

    const TAKES_MEMORY: bool = false;

    fn decode_field(alloc: Global, reader: &mut R) -> Result<RecipientInfoOther<'a>, Error> {
        RecipientInfoOther::decode(alloc, reader)
    }

    ghost takes_memory_is = { refl };
}

impl<'a> EncodeValue for RecipientInfoOther<'a> {
    fn value_len(&self) -> Result<Length, Error> {
        match self {
            RecipientInfoOther::Pwri(value) => value.value_len(),
            RecipientInfoOther::Ori(value) => value.value_len(),
        }
    }

    fn encode_value<W: Writer>(&self, writer: &mut W) -> Result<(), Error> {
        match self {
            RecipientInfoOther::Pwri(value) => value.encode_value(writer),
            RecipientInfoOther::Ori(value) => value.encode_value(writer),
        }
    }

    fn encode_value_back<W: BackWriter>(&self, writer: &mut W) -> Result<(), Error> {
        match self {
            RecipientInfoOther::Pwri(value) => value.encode_value_back(writer),
            RecipientInfoOther::Ori(value) => value.encode_value_back(writer),
        }
    }
}

impl<'a> DerOrd for RecipientInfoOther<'a> {
    fn der_cmp(&self, other: &RecipientInfoOther<'a>) -> Result<Ordering, Error> {
        match (self, other) {
            (RecipientInfoOther::Pwri(value), RecipientInfoOther::Pwri(other)) => value.der_cmp(
                other,
            ),
            (RecipientInfoOther::Ori(value), RecipientInfoOther::Ori(other)) => value.der_cmp(
                other,
            ),
            _ => cmp_headers(self, other),
        }
    }
}

impl<'a> Choosing for RecipientInfoOther<'a> {
    ghost choice = { seen_choice tree_of ⟦<RecipientInfoOther<'a> as PartialEq>⟧.eq ⟦<Tree<'a> as Choosing>⟧.choice
        (λ v w. elim v as (λ k. ⟦<RecipientInfoOther<'a> as PartialEq>⟧.eq k w ≡ ⟦<Tree<'a> as Choosing>⟧.choice.eq (tree_of k) (tree_of w)) [
          | of.Pwri x ↦ elim w as (λ k. ⟦<RecipientInfoOther<'a> as PartialEq>⟧.eq (of.Pwri x) k ≡ ⟦<Tree<'a> as Choosing>⟧.choice.eq (tree_of (of.Pwri x)) (tree_of k)) [ of.Pwri y ↦ refl | of.Ori y ↦ refl ]
          | of.Ori x ↦ elim w as (λ k. ⟦<RecipientInfoOther<'a> as PartialEq>⟧.eq (of.Ori x) k ≡ ⟦<Tree<'a> as Choosing>⟧.choice.eq (tree_of (of.Ori x)) (tree_of k)) [ of.Pwri y ↦ refl | of.Ori y ↦ refl ]
        ]) };
}

impl<'a> EncodingEq for RecipientInfoOther<'a> {
    ghost encoding_eq = { ⟦<RecipientInfoOther<'a> as Choosing>⟧.choice.equal };
}

impl<'a> CopyLaws for RecipientInfoOther<'a> {
    ghost copies = { copies_of ((same_copies ⟦<RecipientInfoOther<'a> as Form>⟧.encoding ⟦<RecipientInfoOther<'a> as Form>⟧.comparable ⟦<RecipientInfoOther<'a> as Form>⟧.re_reads ⟦<RecipientInfoOther<'a> as PartialEq>⟧.eq recipient_info_other_eq.laws-law.refl)) };
}

impl<'a> Duplicate for RecipientInfoOther<'a> {
    ghost is_copy = { λ v w. w ≡ v };

    ghost takes_memory_to_copy = { false };

    fn duplicate(&self) -> Result<RecipientInfoOther<'a>, Error> {
        Ok(copy_of(self))
    }

    ghost copy_encoding = { ⟦<RecipientInfoOther<'a> as CopyLaws>⟧.copies.laws.octets_are };

    ghost copy_comparable = { ⟦<RecipientInfoOther<'a> as CopyLaws>⟧.copies.laws.comparable_are };

    ghost copy_re_reads = { ⟦<RecipientInfoOther<'a> as CopyLaws>⟧.copies.laws.re_reads_are };
}

impl<'a> DuplicateIsEqual for RecipientInfoOther<'a> {
    ghost copy_is_equal = { ⟦<RecipientInfoOther<'a> as CopyLaws>⟧.copies.laws.equal_are };
}
