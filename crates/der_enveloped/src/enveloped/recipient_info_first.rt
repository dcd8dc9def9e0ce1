//! The first alternatives of RecipientInfo, a CHOICE of 3 alternatives.
//!
//! Made by tools/asn1 from enveloped.asn1.

ghost use Rattle.std.specs.Prelude.{◌≡◌, false, refl, true};
ghost use Rattle.der_elem.specs.Accepting.{IsTlv};
ghost use Rattle.der_elem.specs.FirstTags.{HasFirstTag};
ghost use Rattle.der_elem.specs.FormatMakers.{mapped_format};
ghost use Rattle.der_elem.specs.KnownTagLaws.{known_either, own_is_known};
ghost use Rattle.der_elem.specs.TaggedLaws.{tlv_tagged};
ghost use Rattle.der_enveloped.specs.Enveloped.RecipientInfoFirst.{tree_of};
ghost use Rattle.der_enveloped.specs.contracts.enveloped.recipient_info_first.RecipientInfoFirstEq.TheImpl.Laws as recipient_info_first_eq;
ghost use Rattle.der_enveloped.specs.declared.enveloped.recipient_info_first.RecipientInfoFirst.TheVariants as of;
ghost use Rattle.der_modules.specs.MemberLaws.{copies_of, same_copies};
ghost use Rattle.der_modules.specs.Members.{seen_choice};

use crate::enveloped::kek_recipient_info::KekRecipientInfo;
use crate::enveloped::key_agree_recipient_info::KeyAgreeRecipientInfo;
use crate::enveloped::key_trans_recipient_info::KeyTransRecipientInfo;
use der_elem::{
    Choice, Decode, DecodeField, DerOrd, Duplicate, DuplicateIsEqual, EncodeValue, EncodingEq,
    Form, FormValue, KnownTags, Tagged,
};
use der_fields::{Implicit, OneOf, cmp_headers};
use der_modules::{Choosing, CopyLaws, copy_of};
use der_tlv::{BackWriter, Error, Length, Source, Tag, Writer};
use std::alloc::Global;
use std::cmp::Ordering;

/// The alternatives, as a tree.
type Tree<'a> = OneOf<
    OneOf<KeyTransRecipientInfo<'a>, Implicit<KeyAgreeRecipientInfo<'a>, 1>>,
    Implicit<KekRecipientInfo<'a>, 2>,
>;

/// The first alternatives of RecipientInfo, as one of which a value is read.
///
/// Reading refuses a tag that no alternative has (`ErrorKind::TagUnexpected`, 4), and the
/// alternative's faults.
#[derive(Clone, Copy, Debug, PartialEq, Eq)]
pub enum RecipientInfoFirst<'a> {
    /// `ktri`, `KeyTransRecipientInfo`.
    Ktri(KeyTransRecipientInfo<'a>),
    /// `kari`, `[1] KeyAgreeRecipientInfo`.
    Kari(Implicit<KeyAgreeRecipientInfo<'a>, 1>),
    /// `kekri`, `[2] KEKRecipientInfo`.
    Kekri(Implicit<KekRecipientInfo<'a>, 2>),
}

impl<'a> Form for RecipientInfoFirst<'a> {
    ghost encoding = { λ v. ⟦<Tree<'a> as Form>⟧.encoding (tree_of v) };

    ghost comparable = { λ v w. ⟦<Tree<'a> as Form>⟧.comparable (tree_of v) (tree_of w) };

    ghost re_reads = { λ v. ⟦<Tree<'a> as Form>⟧.re_reads (tree_of v) };

    ghost accepts = { λ rules v. ⟦<Tree<'a> as Form>⟧.accepts rules (tree_of v) };

    ghost parse = { ⟦<Tree<'a> as Form>⟧.parse };

    ghost tags = { ⟦<Tree<'a> as Form>⟧.tags };

    ghost first_tag_of = { λ v. ⟦<Tree<'a> as Form>⟧.first_tag_of (tree_of v) };

    ghost readable = { λ v. ⟦<Tree<'a> as Form>⟧.readable (tree_of v) };

    ghost TAKES_MEMORY = { ⟦<Tree<'a> as Form>⟧.TAKES_MEMORY };

    ghost FAULTS_FIRST = { ⟦<Tree<'a> as Form>⟧.FAULTS_FIRST };

    ghost parse_of_accepted = { λ rules v. ⟦<Tree<'a> as Form>⟧.parse_of_accepted rules (tree_of v) };

    ghost faults_of_octets = { ⟦<Tree<'a> as Form>⟧.faults_of_octets };

    ghost begins = { λ rules v. ⟦<Tree<'a> as Form>⟧.begins rules (tree_of v) };

    ghost begins_first = { λ rules v. ⟦<Tree<'a> as Form>⟧.begins_first rules (tree_of v) };

    ghost same_length = { λ rules v. ⟦<Tree<'a> as Form>⟧.same_length rules (tree_of v) };

    ghost accepts_encoding = { λ rules v. ⟦<Tree<'a> as Form>⟧.accepts_encoding rules (tree_of v) };

    ghost only_readable = { λ rules v. ⟦<Tree<'a> as Form>⟧.only_readable rules (tree_of v) };

    ghost accepts_comparable = { λ rules v w. ⟦<Tree<'a> as Form>⟧.accepts_comparable rules (tree_of v) (tree_of w) };

    ghost re_reads_memory = { λ v. ⟦<Tree<'a> as Form>⟧.re_reads_memory (tree_of v) };
}

impl<'a> FormValue for RecipientInfoFirst<'a> {
    ghost value = { mapped_format tree_of ⟦<Tree<'a> as FormValue>⟧.value };
}

impl<'a> Tagged for RecipientInfoFirst<'a> {
    ghost tag_of = { λ v. ⟦<Tree<'a> as Tagged>⟧.tag_of (tree_of v) };

    fn tag(&self) -> Tag {
        match self {
            RecipientInfoFirst::Ktri(value) => value.tag(),
            RecipientInfoFirst::Kari(value) => value.tag(),
            RecipientInfoFirst::Kekri(value) => value.tag(),
        }
    }

    ghost encoding_is = { ⟦<RecipientInfoFirst<'a> as Choosing>⟧.choice.has_tag.encoding_is };

    ghost accepted_is_tlv = { λ rules v b. elim v as (λ k. ⟦<Tree<'a> as Form>⟧.accepts rules (tree_of k) b → IsTlv b) [ of.Ktri x ↦ λ a. tlv_tagged _ ⟦<KeyTransRecipientInfo<'a> as FormValue>⟧.value.accepts rules x b a.0.0 | of.Kari x ↦ λ a. tlv_tagged _ ⟦<Implicit<KeyAgreeRecipientInfo<'a>, 1> as FormValue>⟧.value.accepts rules x b a.0.0 | of.Kekri x ↦ λ a. tlv_tagged _ ⟦<Implicit<KekRecipientInfo<'a>, 2> as FormValue>⟧.value.accepts rules x b a.0 ] };

    ghost own_tag = { ⟦<RecipientInfoFirst<'a> as Choosing>⟧.choice.has_tag.own_tag };

    ghost first_tag_is = { ⟦<RecipientInfoFirst<'a> as Choosing>⟧.choice.has_tag.first_tag_is };

    ghost re_reads_alike = { λ v. elim v as (λ k. ⟦<Tree<'a> as FormValue>⟧.value.re_reads (tree_of k) ≡ true → ⟦<Tree<'a> as Form>⟧.re_reads (tree_of k) ≡ true) [ of.Ktri x ↦ λ h. h | of.Kari x ↦ λ h. h | of.Kekri x ↦ λ h. h ] };

    ghost comparable_alike = { λ v w h. tt };
}

impl<'a> Choice for RecipientInfoFirst<'a> {
    fn can_decode(tag: Tag) -> bool
        ensures { result ≡ ⟦<Tree<'a> as Form>⟧.tags tag }
    {
        Tree::<'a>::can_decode(tag)
    }

    ghost has_first_tag = { λ v. elim v as (λ k. HasFirstTag (⟦<Tree<'a> as Form>⟧.first_tag_of (tree_of k))) [ of.Ktri x ↦ record { tag = _; is_tag = refl } | of.Kari x ↦ record { tag = _; is_tag = refl } | of.Kekri x ↦ record { tag = _; is_tag = refl } ] };
}

impl<'a> KnownTags for RecipientInfoFirst<'a> {
    ghost known_tags = { ⟦<Tree<'a> as KnownTags>⟧.known_tags };

    ghost MAY_BE_ABSENT = { false };

    ghost are_known = { (known_either ⟦<OneOf<KeyTransRecipientInfo<'a>, Implicit<KeyAgreeRecipientInfo<'a>, 1>> as KnownTags>⟧.known_tags ⟦<Implicit<KekRecipientInfo<'a>, 2> as KnownTags>⟧.known_tags ⟦<OneOf<KeyTransRecipientInfo<'a>, Implicit<KeyAgreeRecipientInfo<'a>, 1>> as Form>⟧.tags ⟦<Implicit<KekRecipientInfo<'a>, 2> as Form>⟧.tags (known_either ⟦<KeyTransRecipientInfo<'a> as KnownTags>⟧.known_tags ⟦<Implicit<KeyAgreeRecipientInfo<'a>, 1> as KnownTags>⟧.known_tags ⟦<KeyTransRecipientInfo<'a> as Form>⟧.tags ⟦<Implicit<KeyAgreeRecipientInfo<'a>, 1> as Form>⟧.tags (own_is_known _) (own_is_known _)) (own_is_known _)) };

    ghost is_there = { λ e v. elim v as (λ k. HasFirstTag (⟦<Tree<'a> as Form>⟧.first_tag_of (tree_of k))) [ of.Ktri x ↦ record { tag = _; is_tag = refl } | of.Kari x ↦ record { tag = _; is_tag = refl } | of.Kekri x ↦ record { tag = _; is_tag = refl } ] };
}

impl<'a, R: Source<'a>> Decode<'a, R> for RecipientInfoFirst<'a> {
    ghost TAKES_MEMORY = { false };

    const TAKES_MEMORY: bool = false;

    fn decode(alloc: Global, reader: &mut R) -> Result<RecipientInfoFirst<'a>, Error> {
        match Tree::<'a>::decode(alloc, reader) {
            Ok(OneOf::First(OneOf::First(value))) => Ok(RecipientInfoFirst::Ktri(value)),
            Ok(OneOf::First(OneOf::Other(value))) => Ok(RecipientInfoFirst::Kari(value)),
            Ok(OneOf::Other(value)) => Ok(RecipientInfoFirst::Kekri(value)),
            Err(e) => Err(e),
        }
    }

    ghost takes_memory_is = { refl };
}

impl<'a, R: Source<'a>> DecodeField<'a, R> for RecipientInfoFirst<'a> {
    ghost TAKES_MEMORY = { false };

    const TAKES_MEMORY: bool = false;

    fn decode_field(alloc: Global, reader: &mut R) -> Result<RecipientInfoFirst<'a>, Error> {
        RecipientInfoFirst::decode(alloc, reader)
    }

    ghost takes_memory_is = { refl };
}

impl<'a> EncodeValue for RecipientInfoFirst<'a> {
    fn value_len(&self) -> Result<Length, Error> {
        match self {
            RecipientInfoFirst::Ktri(value) => value.value_len(),
            RecipientInfoFirst::Kari(value) => value.value_len(),
            RecipientInfoFirst::Kekri(value) => value.value_len(),
        }
    }

    fn encode_value<W: Writer>(&self, writer: &mut W) -> Result<(), Error> {
        match self {
            RecipientInfoFirst::Ktri(value) => value.encode_value(writer),
            RecipientInfoFirst::Kari(value) => value.encode_value(writer),
            RecipientInfoFirst::Kekri(value) => value.encode_value(writer),
        }
    }

    fn encode_value_back<W: BackWriter>(&self, writer: &mut W) -> Result<(), Error> {
        match self {
            RecipientInfoFirst::Ktri(value) => value.encode_value_back(writer),
            RecipientInfoFirst::Kari(value) => value.encode_value_back(writer),
            RecipientInfoFirst::Kekri(value) => value.encode_value_back(writer),
        }
    }
}

impl<'a> DerOrd for RecipientInfoFirst<'a> {
    fn der_cmp(&self, other: &RecipientInfoFirst<'a>) -> Result<Ordering, Error> {
        match (self, other) {
            (RecipientInfoFirst::Ktri(value), RecipientInfoFirst::Ktri(other)) => value.der_cmp(
                other,
            ),
            (RecipientInfoFirst::Kari(value), RecipientInfoFirst::Kari(other)) => value.der_cmp(
                other,
            ),
            (RecipientInfoFirst::Kekri(value), RecipientInfoFirst::Kekri(other)) => value.der_cmp(
                other,
            ),
            _ => cmp_headers(self, other),
        }
    }
}

impl<'a> Choosing for RecipientInfoFirst<'a> {
    ghost choice = { seen_choice tree_of ⟦<RecipientInfoFirst<'a> as PartialEq>⟧.eq ⟦<Tree<'a> as Choosing>⟧.choice
        (λ v w. elim v as (λ k. ⟦<RecipientInfoFirst<'a> as PartialEq>⟧.eq k w ≡ ⟦<Tree<'a> as Choosing>⟧.choice.eq (tree_of k) (tree_of w)) [
          | of.Ktri x ↦ elim w as (λ k. ⟦<RecipientInfoFirst<'a> as PartialEq>⟧.eq (of.Ktri x) k ≡ ⟦<Tree<'a> as Choosing>⟧.choice.eq (tree_of (of.Ktri x)) (tree_of k)) [ of.Ktri y ↦ refl | of.Kari y ↦ refl | of.Kekri y ↦ refl ]
          | of.Kari x ↦ elim w as (λ k. ⟦<RecipientInfoFirst<'a> as PartialEq>⟧.eq (of.Kari x) k ≡ ⟦<Tree<'a> as Choosing>⟧.choice.eq (tree_of (of.Kari x)) (tree_of k)) [ of.Ktri y ↦ refl | of.Kari y ↦ refl | of.Kekri y ↦ refl ]
          | of.Kekri x ↦ elim w as (λ k. ⟦<RecipientInfoFirst<'a> as PartialEq>⟧.eq (of.Kekri x) k ≡ ⟦<Tree<'a> as Choosing>⟧.choice.eq (tree_of (of.Kekri x)) (tree_of k)) [ of.Ktri y ↦ refl | of.Kari y ↦ refl | of.Kekri y ↦ refl ]
        ]) };
}

impl<'a> EncodingEq for RecipientInfoFirst<'a> {
    ghost encoding_eq = { ⟦<RecipientInfoFirst<'a> as Choosing>⟧.choice.equal };
}

impl<'a> CopyLaws for RecipientInfoFirst<'a> {
    ghost copies = { copies_of ((same_copies ⟦<RecipientInfoFirst<'a> as Form>⟧.encoding ⟦<RecipientInfoFirst<'a> as Form>⟧.comparable ⟦<RecipientInfoFirst<'a> as Form>⟧.re_reads ⟦<RecipientInfoFirst<'a> as PartialEq>⟧.eq recipient_info_first_eq.laws-law.refl)) };
}

impl<'a> Duplicate for RecipientInfoFirst<'a> {
    ghost is_copy = { λ v w. w ≡ v };

    ghost takes_memory_to_copy = { false };

    fn duplicate(&self) -> Result<RecipientInfoFirst<'a>, Error> {
        Ok(copy_of(self))
    }

    ghost copy_encoding = { ⟦<RecipientInfoFirst<'a> as CopyLaws>⟧.copies.laws.octets_are };

    ghost copy_comparable = { ⟦<RecipientInfoFirst<'a> as CopyLaws>⟧.copies.laws.comparable_are };

    ghost copy_re_reads = { ⟦<RecipientInfoFirst<'a> as CopyLaws>⟧.copies.laws.re_reads_are };
}

impl<'a> DuplicateIsEqual for RecipientInfoFirst<'a> {
    ghost copy_is_equal = { ⟦<RecipientInfoFirst<'a> as CopyLaws>⟧.copies.laws.equal_are };
}
