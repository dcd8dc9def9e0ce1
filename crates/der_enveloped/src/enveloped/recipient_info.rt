//! RecipientInfo, a CHOICE of 5 alternatives.
//!
//! Made by tools/asn1 from enveloped.asn1.

ghost use Rattle.std.specs.Prelude.{◌≡◌, false, refl, true};
ghost use Rattle.der_elem.specs.Accepting.{IsTlv};
ghost use Rattle.der_elem.specs.FirstTags.{HasFirstTag};
ghost use Rattle.der_elem.specs.FormatMakers.{mapped_format};
ghost use Rattle.der_elem.specs.KnownTagLaws.{known_either};
ghost use Rattle.der_enveloped.specs.Enveloped.Grammar.{recipient_info};
ghost use Rattle.der_enveloped.specs.Enveloped.RecipientInfo.{tree_of};
ghost use Rattle.der_enveloped.specs.contracts.enveloped.recipient_info.RecipientInfoEq.TheImpl.Laws as recipient_info_eq;
ghost use Rattle.der_enveloped.specs.contracts.enveloped.recipient_info_first.RecipientInfoFirstChoice.TheImpl.Laws as recipient_info_first_choice;
ghost use Rattle.der_enveloped.specs.contracts.enveloped.recipient_info_first.RecipientInfoFirstKnownTags.TheImpl.Laws as recipient_info_first_known_tags;
ghost use Rattle.der_enveloped.specs.contracts.enveloped.recipient_info_first.RecipientInfoFirstTagged.TheImpl.Laws as recipient_info_first_tagged;
ghost use Rattle.der_enveloped.specs.contracts.enveloped.recipient_info_other.RecipientInfoOtherChoice.TheImpl.Laws as recipient_info_other_choice;
ghost use Rattle.der_enveloped.specs.contracts.enveloped.recipient_info_other.RecipientInfoOtherKnownTags.TheImpl.Laws as recipient_info_other_known_tags;
ghost use Rattle.der_enveloped.specs.contracts.enveloped.recipient_info_other.RecipientInfoOtherTagged.TheImpl.Laws as recipient_info_other_tagged;
ghost use Rattle.der_enveloped.specs.declared.enveloped.recipient_info.RecipientInfo.TheVariants as of;
ghost use Rattle.der_enveloped.specs.declared.enveloped.recipient_info_first.RecipientInfoFirst.TheVariants as recipient_info_first;
ghost use Rattle.der_enveloped.specs.declared.enveloped.recipient_info_other.RecipientInfoOther.TheVariants as recipient_info_other;
ghost use Rattle.der_modules.specs.Asn1.{parse_of};
ghost use Rattle.der_modules.specs.MemberLaws.{copies_of, same_copies};
ghost use Rattle.der_modules.specs.Members.{seen_choice};

use crate::enveloped::aliases::OtherRecipientInfo;
use crate::enveloped::kek_recipient_info::KekRecipientInfo;
use crate::enveloped::key_agree_recipient_info::KeyAgreeRecipientInfo;
use crate::enveloped::key_trans_recipient_info::KeyTransRecipientInfo;
use crate::enveloped::password_recipient_info::PasswordRecipientInfo;
use crate::enveloped::recipient_info_first::RecipientInfoFirst;
use crate::enveloped::recipient_info_other::RecipientInfoOther;
use der_elem::{
    Choice, Decode, DecodeField, DerOrd, Duplicate, DuplicateIsEqual, EncodeValue, EncodingEq,
    Form, FormValue, KnownTags, Tagged,
};
use der_fields::{Implicit, OneOf, cmp_headers};
use der_modules::{Choosing, CopyLaws, copy_of};
use der_tlv::{BackWriter, Error, Length, Source, Tag, Writer};
use std::alloc::Global;
use std::cmp::Ordering;

/// The alternatives, as a tree.
type Tree<'a> = OneOf<RecipientInfoFirst<'a>, RecipientInfoOther<'a>>;

/// ```text
/// RecipientInfo ::= CHOICE {
///      ktri       KeyTransRecipientInfo,
///      kari   [1] KeyAgreeRecipientInfo,
///      kekri  [2] KEKRecipientInfo,
///      pwri   [3] PasswordRecipientInfo,
///      ori    [4] OtherRecipientInfo }
/// ```
///
/// Reading refuses a tag that no alternative has (`ErrorKind::TagUnexpected`, 4), and the
/// alternative's faults.
#[derive(Clone, Copy, Debug, PartialEq, Eq)]
pub enum RecipientInfo<'a> {
    /// `ktri`, `KeyTransRecipientInfo`.
    Ktri(KeyTransRecipientInfo<'a>),
    /// `kari`, `[1] KeyAgreeRecipientInfo`.
    Kari(Implicit<KeyAgreeRecipientInfo<'a>, 1>),
    /// `kekri`, `[2] KEKRecipientInfo`.
    Kekri(Implicit<KekRecipientInfo<'a>, 2>),
    /// `pwri`, `[3] PasswordRecipientInfo`.
    Pwri(Implicit<PasswordRecipientInfo<'a>, 3>),
    /// `ori`, `[4] OtherRecipientInfo`.
    Ori(Implicit<OtherRecipientInfo<'a>, 4>),
}

impl<'a> Form for RecipientInfo<'a> {
    ghost encoding = { λ v. ⟦<Tree<'a> as Form>⟧.encoding (tree_of v) };

    ghost comparable = { λ v w. ⟦<Tree<'a> as Form>⟧.comparable (tree_of v) (tree_of w) };

    ghost re_reads = { λ v. ⟦<Tree<'a> as Form>⟧.re_reads (tree_of v) };

    ghost accepts = { λ rules v. ⟦<Tree<'a> as Form>⟧.accepts rules (tree_of v) };

    ghost parse = { ⟦<Tree<'a> as Form>⟧.parse };

    ghost tags = { ⟦<Tree<'a> as Form>⟧.tags };

    ghost first_tag_of = { λ v. ⟦<Tree<'a> as Form>⟧.first_tag_of (tree_of v) };

    ghost readable = { λ v. ⟦<Tree<'a> as Form>⟧.readable (tree_of v) };

    ghost TAKES_MEMORY = { ⟦<Tree<'a> as Form>⟧.TAKES_MEMORY };

    ghost FAULTS_FIRST = { ⟦<Tree<'a> as Form>⟧.FAULTS_FIRST };

    ghost parse_of_accepted = { λ rules v. ⟦<Tree<'a> as Form>⟧.parse_of_accepted rules (tree_of v) };

    ghost faults_of_octets = { ⟦<Tree<'a> as Form>⟧.faults_of_octets };

    ghost begins = { λ rules v. ⟦<Tree<'a> as Form>⟧.begins rules (tree_of v) };

    ghost begins_first = { λ rules v. ⟦<Tree<'a> as Form>⟧.begins_first rules (tree_of v) };

    ghost same_length = { λ rules v. ⟦<Tree<'a> as Form>⟧.same_length rules (tree_of v) };

    ghost accepts_encoding = { λ rules v. ⟦<Tree<'a> as Form>⟧.accepts_encoding rules (tree_of v) };

    ghost only_readable = { λ rules v. ⟦<Tree<'a> as Form>⟧.only_readable rules (tree_of v) };

    ghost accepts_comparable = { λ rules v w. ⟦<Tree<'a> as Form>⟧.accepts_comparable rules (tree_of v) (tree_of w) };

    ghost re_reads_memory = { λ v. ⟦<Tree<'a> as Form>⟧.re_reads_memory (tree_of v) };
}

impl<'a> FormValue for RecipientInfo<'a> {
    ghost value = { mapped_format tree_of ⟦<Tree<'a> as FormValue>⟧.value };
}

impl<'a> Tagged for RecipientInfo<'a> {
    ghost tag_of = { λ v. ⟦<Tree<'a> as Tagged>⟧.tag_of (tree_of v) };

    fn tag(&self) -> Tag {
        match self {
            RecipientInfo::Ktri(value) => value.tag(),
            RecipientInfo::Kari(value) => value.tag(),
            RecipientInfo::Kekri(value) => value.tag(),
            RecipientInfo::Pwri(value) => value.tag(),
            RecipientInfo::Ori(value) => value.tag(),
        }
    }

    ghost encoding_is = { ⟦<RecipientInfo<'a> as Choosing>⟧.choice.has_tag.encoding_is };

    ghost accepted_is_tlv = { λ rules v b. elim v as (λ k. ⟦<Tree<'a> as Form>⟧.accepts rules (tree_of k) b → IsTlv b) [ of.Ktri x ↦ λ a. recipient_info_first_tagged.accepted_is_tlv-law rules (recipient_info_first.Ktri x) b a.0 | of.Kari x ↦ λ a. recipient_info_first_tagged.accepted_is_tlv-law rules (recipient_info_first.Kari x) b a.0 | of.Kekri x ↦ λ a. recipient_info_first_tagged.accepted_is_tlv-law rules (recipient_info_first.Kekri x) b a.0 | of.Pwri x ↦ λ a. recipient_info_other_tagged.accepted_is_tlv-law rules (recipient_info_other.Pwri x) b a.0 | of.Ori x ↦ λ a. recipient_info_other_tagged.accepted_is_tlv-law rules (recipient_info_other.Ori x) b a.0 ] };

    ghost own_tag = { ⟦<RecipientInfo<'a> as Choosing>⟧.choice.has_tag.own_tag };

    ghost first_tag_is = { ⟦<RecipientInfo<'a> as Choosing>⟧.choice.has_tag.first_tag_is };

    ghost re_reads_alike = { λ v. elim v as (λ k. ⟦<Tree<'a> as FormValue>⟧.value.re_reads (tree_of k) ≡ true → ⟦<Tree<'a> as Form>⟧.re_reads (tree_of k) ≡ true) [ of.Ktri x ↦ recipient_info_first_tagged.re_reads_alike-law (recipient_info_first.Ktri x) | of.Kari x ↦ recipient_info_first_tagged.re_reads_alike-law (recipient_info_first.Kari x) | of.Kekri x ↦ recipient_info_first_tagged.re_reads_alike-law (recipient_info_first.Kekri x) | of.Pwri x ↦ recipient_info_other_tagged.re_reads_alike-law (recipient_info_other.Pwri x) | of.Ori x ↦ recipient_info_other_tagged.re_reads_alike-law (recipient_info_other.Ori x) ] };

    ghost comparable_alike = { λ v w h. tt };
}

impl<'a> Choice for RecipientInfo<'a> {
    fn can_decode(tag: Tag) -> bool
        ensures { result ≡ ⟦<Tree<'a> as Form>⟧.tags tag }
    {
        Tree::<'a>::can_decode(tag)
    }

    ghost has_first_tag = { λ v. elim v as (λ k. HasFirstTag (⟦<Tree<'a> as Form>⟧.first_tag_of (tree_of k))) [ of.Ktri x ↦ recipient_info_first_choice.has_first_tag-law (recipient_info_first.Ktri x) | of.Kari x ↦ recipient_info_first_choice.has_first_tag-law (recipient_info_first.Kari x) | of.Kekri x ↦ recipient_info_first_choice.has_first_tag-law (recipient_info_first.Kekri x) | of.Pwri x ↦ recipient_info_other_choice.has_first_tag-law (recipient_info_other.Pwri x) | of.Ori x ↦ recipient_info_other_choice.has_first_tag-law (recipient_info_other.Ori x) ] };
}

impl<'a> KnownTags for RecipientInfo<'a> {
    ghost known_tags = { ⟦<Tree<'a> as KnownTags>⟧.known_tags };

    ghost MAY_BE_ABSENT = { false };

    ghost are_known = { (known_either ⟦<RecipientInfoFirst<'a> as KnownTags>⟧.known_tags ⟦<RecipientInfoOther<'a> as KnownTags>⟧.known_tags ⟦<RecipientInfoFirst<'a> as Form>⟧.tags ⟦<RecipientInfoOther<'a> as Form>⟧.tags recipient_info_first_known_tags.are_known-law recipient_info_other_known_tags.are_known-law) };

    ghost is_there = { λ e v. elim v as (λ k. HasFirstTag (⟦<Tree<'a> as Form>⟧.first_tag_of (tree_of k))) [ of.Ktri x ↦ recipient_info_first_choice.has_first_tag-law (recipient_info_first.Ktri x) | of.Kari x ↦ recipient_info_first_choice.has_first_tag-law (recipient_info_first.Kari x) | of.Kekri x ↦ recipient_info_first_choice.has_first_tag-law (recipient_info_first.Kekri x) | of.Pwri x ↦ recipient_info_other_choice.has_first_tag-law (recipient_info_other.Pwri x) | of.Ori x ↦ recipient_info_other_choice.has_first_tag-law (recipient_info_other.Ori x) ] };
}

impl<'a, R: Source<'a>> Decode<'a, R> for RecipientInfo<'a> {
    ghost TAKES_MEMORY = { false };

    const TAKES_MEMORY: bool = false;

    fn decode(alloc: Global, reader: &mut R) -> Result<RecipientInfo<'a>, Error> {
        match Tree::<'a>::decode(alloc, reader) {
            Ok(OneOf::First(RecipientInfoFirst::Ktri(value))) => Ok(RecipientInfo::Ktri(value)),
            Ok(OneOf::First(RecipientInfoFirst::Kari(value))) => Ok(RecipientInfo::Kari(value)),
            Ok(OneOf::First(RecipientInfoFirst::Kekri(value))) => Ok(RecipientInfo::Kekri(value)),
            Ok(OneOf::Other(RecipientInfoOther::Pwri(value))) => Ok(RecipientInfo::Pwri(value)),
            Ok(OneOf::Other(RecipientInfoOther::Ori(value))) => Ok(RecipientInfo::Ori(value)),
            Err(e) => Err(e),
        }
    }

    ghost takes_memory_is = { refl };
}

impl<'a, R: Source<'a>> DecodeField<'a, R> for RecipientInfo<'a> {
    ghost TAKES_MEMORY = { false };

    const TAKES_MEMORY: bool = false;

    fn decode_field(alloc: Global, reader: &mut R) -> Result<RecipientInfo<'a>, Error> {
        RecipientInfo::decode(alloc, reader)
    }

    ghost takes_memory_is = { refl };
}

impl<'a> EncodeValue for RecipientInfo<'a> {
    fn value_len(&self) -> Result<Length, Error> {
        match self {
            RecipientInfo::Ktri(value) => value.value_len(),
            RecipientInfo::Kari(value) => value.value_len(),
            RecipientInfo::Kekri(value) => value.value_len(),
            RecipientInfo::Pwri(value) => value.value_len(),
            RecipientInfo::Ori(value) => value.value_len(),
        }
    }

    fn encode_value<W: Writer>(&self, writer: &mut W) -> Result<(), Error> {
        match self {
            RecipientInfo::Ktri(value) => value.encode_value(writer),
            RecipientInfo::Kari(value) => value.encode_value(writer),
            RecipientInfo::Kekri(value) => value.encode_value(writer),
            RecipientInfo::Pwri(value) => value.encode_value(writer),
            RecipientInfo::Ori(value) => value.encode_value(writer),
        }
    }

    fn encode_value_back<W: BackWriter>(&self, writer: &mut W) -> Result<(), Error> {
        match self {
            RecipientInfo::Ktri(value) => value.encode_value_back(writer),
            RecipientInfo::Kari(value) => value.encode_value_back(writer),
            RecipientInfo::Kekri(value) => value.encode_value_back(writer),
            RecipientInfo::Pwri(value) => value.encode_value_back(writer),
            RecipientInfo::Ori(value) => value.encode_value_back(writer),
        }
    }
}

impl<'a> DerOrd for RecipientInfo<'a> {
    fn der_cmp(&self, other: &RecipientInfo<'a>) -> Result<Ordering, Error> {
        match (self, other) {
            (RecipientInfo::Ktri(value), RecipientInfo::Ktri(other)) => value.der_cmp(other),
            (RecipientInfo::Kari(value), RecipientInfo::Kari(other)) => value.der_cmp(other),
            (RecipientInfo::Kekri(value), RecipientInfo::Kekri(other)) => value.der_cmp(other),
            (RecipientInfo::Pwri(value), RecipientInfo::Pwri(other)) => value.der_cmp(other),
            (RecipientInfo::Ori(value), RecipientInfo::Ori(other)) => value.der_cmp(other),
            _ => cmp_headers(self, other),
        }
    }
}

impl<'a> Choosing for RecipientInfo<'a> {
    ghost choice = { seen_choice tree_of ⟦<RecipientInfo<'a> as PartialEq>⟧.eq ⟦<Tree<'a> as Choosing>⟧.choice
        (λ v w. elim v as (λ k. ⟦<RecipientInfo<'a> as PartialEq>⟧.eq k w ≡ ⟦<Tree<'a> as Choosing>⟧.choice.eq (tree_of k) (tree_of w)) [
          | of.Ktri x ↦ elim w as (λ k. ⟦<RecipientInfo<'a> as PartialEq>⟧.eq (of.Ktri x) k ≡ ⟦<Tree<'a> as Choosing>⟧.choice.eq (tree_of (of.Ktri x)) (tree_of k)) [ of.Ktri y ↦ refl | of.Kari y ↦ refl | of.Kekri y ↦ refl | of.Pwri y ↦ refl | of.Ori y ↦ refl ]
          | of.Kari x ↦ elim w as (λ k. ⟦<RecipientInfo<'a> as PartialEq>⟧.eq (of.Kari x) k ≡ ⟦<Tree<'a> as Choosing>⟧.choice.eq (tree_of (of.Kari x)) (tree_of k)) [ of.Ktri y ↦ refl | of.Kari y ↦ refl | of.Kekri y ↦ refl | of.Pwri y ↦ refl | of.Ori y ↦ refl ]
          | of.Kekri x ↦ elim w as (λ k. ⟦<RecipientInfo<'a> as PartialEq>⟧.eq (of.Kekri x) k ≡ ⟦<Tree<'a> as Choosing>⟧.choice.eq (tree_of (of.Kekri x)) (tree_of k)) [ of.Ktri y ↦ refl | of.Kari y ↦ refl | of.Kekri y ↦ refl | of.Pwri y ↦ refl | of.Ori y ↦ refl ]
          | of.Pwri x ↦ elim w as (λ k. ⟦<RecipientInfo<'a> as PartialEq>⟧.eq (of.Pwri x) k ≡ ⟦<Tree<'a> as Choosing>⟧.choice.eq (tree_of (of.Pwri x)) (tree_of k)) [ of.Ktri y ↦ refl | of.Kari y ↦ refl | of.Kekri y ↦ refl | of.Pwri y ↦ refl | of.Ori y ↦ refl ]
          | of.Ori x ↦ elim w as (λ k. ⟦<RecipientInfo<'a> as PartialEq>⟧.eq (of.Ori x) k ≡ ⟦<Tree<'a> as Choosing>⟧.choice.eq (tree_of (of.Ori x)) (tree_of k)) [ of.Ktri y ↦ refl | of.Kari y ↦ refl | of.Kekri y ↦ refl | of.Pwri y ↦ refl | of.Ori y ↦ refl ]
        ]) };
}

impl<'a> EncodingEq for RecipientInfo<'a> {
    ghost encoding_eq = { ⟦<RecipientInfo<'a> as Choosing>⟧.choice.equal };
}

impl<'a> CopyLaws for RecipientInfo<'a> {
    ghost copies = { copies_of ((same_copies ⟦<RecipientInfo<'a> as Form>⟧.encoding ⟦<RecipientInfo<'a> as Form>⟧.comparable ⟦<RecipientInfo<'a> as Form>⟧.re_reads ⟦<RecipientInfo<'a> as PartialEq>⟧.eq recipient_info_eq.laws-law.refl)) };
}

impl<'a> Duplicate for RecipientInfo<'a> {
    ghost is_copy = { λ v w. w ≡ v };

    ghost takes_memory_to_copy = { false };

    fn duplicate(&self) -> Result<RecipientInfo<'a>, Error> {
        Ok(copy_of(self))
    }

    ghost copy_encoding = { ⟦<RecipientInfo<'a> as CopyLaws>⟧.copies.laws.octets_are };

    ghost copy_comparable = { ⟦<RecipientInfo<'a> as CopyLaws>⟧.copies.laws.comparable_are };

    ghost copy_re_reads = { ⟦<RecipientInfo<'a> as CopyLaws>⟧.copies.laws.re_reads_are };
}

impl<'a> DuplicateIsEqual for RecipientInfo<'a> {
    ghost copy_is_equal = { ⟦<RecipientInfo<'a> as CopyLaws>⟧.copies.laws.equal_are };
}

/// What is read as `RecipientInfo` is what the grammar page says.
pub fn grammar_of_recipient_info<'a>()
    ensures { ⟦<RecipientInfo<'a> as Form>⟧.parse ≡ parse_of recipient_info }
{}
