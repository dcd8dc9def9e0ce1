//! KeyAgreeRecipientIdentifier, a CHOICE of 2 alternatives.
//!
//! Made by tools/asn1 from enveloped.asn1.

ghost use Rattle.std.specs.Prelude.{◌≡◌, false, refl, true};
ghost use Rattle.der_elem.specs.Accepting.{IsTlv};
ghost use Rattle.der_elem.specs.FirstTags.{HasFirstTag};
ghost use Rattle.der_elem.specs.FormatMakers.{mapped_format};
ghost use Rattle.der_elem.specs.KnownTagLaws.{known_either, own_is_known};
ghost use Rattle.der_elem.specs.TaggedLaws.{tlv_tagged};
ghost use Rattle.der_enveloped.specs.Enveloped.Grammar.{key_agree_recipient_identifier};
ghost use Rattle.der_enveloped.specs.Enveloped.KeyAgreeRecipientIdentifier.{tree_of};
ghost use Rattle.der_enveloped.specs.contracts.enveloped.key_agree_recipient_identifier.KeyAgreeRecipientIdentifierEq.TheImpl.Laws as key_agree_recipient_identifier_eq;
ghost use Rattle.der_enveloped.specs.declared.enveloped.key_agree_recipient_identifier.KeyAgreeRecipientIdentifier.TheVariants as of;
ghost use Rattle.der_modules.specs.Asn1.{parse_of};
ghost use Rattle.der_modules.specs.MemberLaws.{copies_of, same_copies};
ghost use Rattle.der_modules.specs.Members.{seen_choice};

use crate::enveloped::recipient_key_identifier::RecipientKeyIdentifier;
use der_cms::cms::IssuerAndSerialNumber;
use der_elem::{
    Choice, Decode, DecodeField, DerOrd, Duplicate, DuplicateIsEqual, EncodeValue, EncodingEq,
    Form, FormValue, KnownTags, Tagged,
};
use der_fields::{Implicit, OneOf, cmp_headers};
use der_modules::{Choosing, CopyLaws, copy_of};
use der_tlv::{BackWriter, Error, Length, Source, Tag, Writer};
use std::alloc::Global;
use std::cmp::Ordering;

/// The alternatives, as a tree.
type Tree<'a> = OneOf<IssuerAndSerialNumber<'a>, Implicit<RecipientKeyIdentifier<'a>, 0>>;

/// ```text
/// KeyAgreeRecipientIdentifier ::= CHOICE {
///      issuerAndSerialNumber  IssuerAndSerialNumber,
///      rKeyId                 [0] IMPLICIT RecipientKeyIdentifier }
/// ```
///
/// Reading refuses a tag that no alternative has (`ErrorKind::TagUnexpected`, 4), and the
/// alternative's faults.
#[derive(Clone, Copy, Debug, PartialEq, Eq)]
pub enum KeyAgreeRecipientIdentifier<'a> {
    /// `issuerAndSerialNumber`, `IssuerAndSerialNumber`.
    IssuerAndSerialNumber(IssuerAndSerialNumber<'a>),
    /// `rKeyId`, `[0] IMPLICIT RecipientKeyIdentifier`.
    RKeyId(Implicit<RecipientKeyIdentifier<'a>, 0>),
}

impl<'a> Form for KeyAgreeRecipientIdentifier<'a> {
    ghost encoding = { λ v. ⟦<Tree<'a> as Form>⟧.encoding (tree_of v) };

    ghost comparable = { λ v w. ⟦<Tree<'a> as Form>⟧.comparable (tree_of v) (tree_of w) };

    ghost re_reads = { λ v. ⟦<Tree<'a> as Form>⟧.re_reads (tree_of v) };

    ghost accepts = { λ rules v. ⟦<Tree<'a> as Form>⟧.accepts rules (tree_of v) };

    ghost parse = { ⟦<Tree<'a> as Form>⟧.parse };

    ghost tags = { ⟦<Tree<'a> as Form>⟧.tags };

    ghost first_tag_of = { λ v. ⟦<Tree<'a> as Form>⟧.first_tag_of (tree_of v) };

    ghost readable = { λ v. ⟦<Tree<'a> as Form>⟧.readable (tree_of v) };

    ghost TAKES_MEMORY = { ⟦<Tree<'a> as Form>⟧.TAKES_MEMORY };

    ghost FAULTS_FIRST = { ⟦<Tree<'a> as Form>⟧.FAULTS_FIRST };

    ghost parse_of_accepted = { λ rules v. ⟦<Tree<'a> as Form>⟧.parse_of_accepted rules (tree_of v) };

    ghost faults_of_octets = { ⟦<Tree<'a> as Form>⟧.faults_of_octets };

    ghost begins = { λ rules v. ⟦<Tree<'a> as Form>⟧.begins rules (tree_of v) };

    ghost begins_first = { λ rules v. ⟦<Tree<'a> as Form>⟧.begins_first rules (tree_of v) };

    ghost same_length = { λ rules v. ⟦<Tree<'a> as Form>⟧.same_length rules (tree_of v) };

    ghost accepts_encoding = { λ rules v. ⟦<Tree<'a> as Form>⟧.accepts_encoding rules (tree_of v) };

    ghost only_readable = { λ rules v. ⟦<Tree<'a> as Form>⟧.only_readable rules (tree_of v) };

    ghost accepts_comparable = { λ rules v w. ⟦<Tree<'a> as Form>⟧.accepts_comparable rules (tree_of v) (tree_of w) };

    ghost re_reads_memory = { λ v. ⟦<Tree<'a> as Form>⟧.re_reads_memory (tree_of v) };
}

impl<'a> FormValue for KeyAgreeRecipientIdentifier<'a> {
    ghost value = { mapped_format tree_of ⟦<Tree<'a> as FormValue>⟧.value };
}

impl<'a> Tagged for KeyAgreeRecipientIdentifier<'a> {
    ghost tag_of = { λ v. ⟦<Tree<'a> as Tagged>⟧.tag_of (tree_of v) };

    fn tag(&self) -> Tag {
        match self {
            KeyAgreeRecipientIdentifier::IssuerAndSerialNumber(value) => value.tag(),
            KeyAgreeRecipientIdentifier::RKeyId(value) => value.tag(),
        }
    }

    ghost encoding_is = { ⟦<KeyAgreeRecipientIdentifier<'a> as Choosing>⟧.choice.has_tag.encoding_is };

    ghost accepted_is_tlv = { λ rules v b. elim v as (λ k. ⟦<Tree<'a> as Form>⟧.accepts rules (tree_of k) b → IsTlv b) [ of.IssuerAndSerialNumber x ↦ λ a. tlv_tagged _ ⟦<IssuerAndSerialNumber<'a> as FormValue>⟧.value.accepts rules x b a.0 | of.RKeyId x ↦ λ a. tlv_tagged _ ⟦<Implicit<RecipientKeyIdentifier<'a>, 0> as FormValue>⟧.value.accepts rules x b a.0 ] };

    ghost own_tag = { ⟦<KeyAgreeRecipientIdentifier<'a> as Choosing>⟧.choice.has_tag.own_tag };

    ghost first_tag_is = { ⟦<KeyAgreeRecipientIdentifier<'a> as Choosing>⟧.choice.has_tag.first_tag_is };

    ghost re_reads_alike = { λ v. elim v as (λ k. ⟦<Tree<'a> as FormValue>⟧.value.re_reads (tree_of k) ≡ true → ⟦<Tree<'a> as Form>⟧.re_reads (tree_of k) ≡ true) [ of.IssuerAndSerialNumber x ↦ λ h. h | of.RKeyId x ↦ λ h. h ] };

    ghost comparable_alike = { λ v w h. tt };
}

impl<'a> Choice for KeyAgreeRecipientIdentifier<'a> {
    fn can_decode(tag: Tag) -> bool
        ensures { result ≡ ⟦<Tree<'a> as Form>⟧.tags tag }
    {
        Tree::<'a>::can_decode(tag)
    }

    ghost has_first_tag = { λ v. elim v as (λ k. HasFirstTag (⟦<Tree<'a> as Form>⟧.first_tag_of (tree_of k))) [ of.IssuerAndSerialNumber x ↦ record { tag = _; is_tag = refl } | of.RKeyId x ↦ record { tag = _; is_tag = refl } ] };
}

impl<'a> KnownTags for KeyAgreeRecipientIdentifier<'a> {
    ghost known_tags = { ⟦<Tree<'a> as KnownTags>⟧.known_tags };

    ghost MAY_BE_ABSENT = { false };

    ghost are_known = { (known_either ⟦<IssuerAndSerialNumber<'a> as KnownTags>⟧.known_tags ⟦<Implicit<RecipientKeyIdentifier<'a>, 0> as KnownTags>⟧.known_tags ⟦<IssuerAndSerialNumber<'a> as Form>⟧.tags ⟦<Implicit<RecipientKeyIdentifier<'a>, 0> as Form>⟧.tags (own_is_known _) (own_is_known _)) };

    ghost is_there = { λ e v. elim v as (λ k. HasFirstTag (⟦<Tree<'a> as Form>⟧.first_tag_of (tree_of k))) [ of.IssuerAndSerialNumber x ↦ record { tag = _; is_tag = refl } | of.RKeyId x ↦ record { tag = _; is_tag = refl } ] };
}

impl<'a, R: Source<'a>> Decode<'a, R> for KeyAgreeRecipientIdentifier<'a> {
    ghost TAKES_MEMORY = { false };

    const TAKES_MEMORY: bool = false;

    fn decode(alloc: Global, reader: &mut R) -> Result<KeyAgreeRecipientIdentifier<'a>, Error> {
        match Tree::<'a>::decode(alloc, reader) {
            Ok(OneOf::First(value)) => Ok(KeyAgreeRecipientIdentifier::IssuerAndSerialNumber(
                value,
            )),
            Ok(OneOf::Other(value)) => Ok(KeyAgreeRecipientIdentifier::RKeyId(value)),
            Err(e) => Err(e),
        }
    }

    ghost takes_memory_is = { refl };
}

impl<'a, R: Source<'a>> DecodeField<'a, R> for KeyAgreeRecipientIdentifier<'a> {
    ghost TAKES_MEMORY = { false };

    const TAKES_MEMORY: bool = false;

    fn decode_field(
        alloc: Global,
        reader: &mut R,
    ) -> Result<KeyAgreeRecipientIdentifier<'a>, Error> {
        KeyAgreeRecipientIdentifier::decode(alloc, reader)
    }

    ghost takes_memory_is = { refl };
}

impl<'a> EncodeValue for KeyAgreeRecipientIdentifier<'a> {
    fn value_len(&self) -> Result<Length, Error> {
        match self {
            KeyAgreeRecipientIdentifier::IssuerAndSerialNumber(value) => value.value_len(),
            KeyAgreeRecipientIdentifier::RKeyId(value) => value.value_len(),
        }
    }

    fn encode_value<W: Writer>(&self, writer: &mut W) -> Result<(), Error> {
        match self {
            KeyAgreeRecipientIdentifier::IssuerAndSerialNumber(value) => value.encode_value(writer),
            KeyAgreeRecipientIdentifier::RKeyId(value) => value.encode_value(writer),
        }
    }

    fn encode_value_back<W: BackWriter>(&self, writer: &mut W) -> Result<(), Error> {
        match self {
            KeyAgreeRecipientIdentifier::IssuerAndSerialNumber(value) => value.encode_value_back(
                writer,
            ),
            KeyAgreeRecipientIdentifier::RKeyId(value) => value.encode_value_back(writer),
        }
    }
}

impl<'a> DerOrd for KeyAgreeRecipientIdentifier<'a> {
    fn der_cmp(&self, other: &KeyAgreeRecipientIdentifier<'a>) -> Result<Ordering, Error> {
        match (self, other) {
            (
                KeyAgreeRecipientIdentifier::IssuerAndSerialNumber(value),
                KeyAgreeRecipientIdentifier::IssuerAndSerialNumber(other),
            ) => value.der_cmp(other),
            (
                KeyAgreeRecipientIdentifier::RKeyId(value),
                KeyAgreeRecipientIdentifier::RKeyId(other),
            ) => value.der_cmp(other),
            _ => cmp_headers(self, other),
        }
    }
}

impl<'a> Choosing for KeyAgreeRecipientIdentifier<'a> {
    ghost choice = { seen_choice tree_of ⟦<KeyAgreeRecipientIdentifier<'a> as PartialEq>⟧.eq ⟦<Tree<'a> as Choosing>⟧.choice
        (λ v w. elim v as (λ k. ⟦<KeyAgreeRecipientIdentifier<'a> as PartialEq>⟧.eq k w ≡ ⟦<Tree<'a> as Choosing>⟧.choice.eq (tree_of k) (tree_of w)) [
          | of.IssuerAndSerialNumber x ↦ elim w as (λ k. ⟦<KeyAgreeRecipientIdentifier<'a> as PartialEq>⟧.eq (of.IssuerAndSerialNumber x) k ≡ ⟦<Tree<'a> as Choosing>⟧.choice.eq (tree_of (of.IssuerAndSerialNumber x)) (tree_of k)) [ of.IssuerAndSerialNumber y ↦ refl | of.RKeyId y ↦ refl ]
          | of.RKeyId x ↦ elim w as (λ k. ⟦<KeyAgreeRecipientIdentifier<'a> as PartialEq>⟧.eq (of.RKeyId x) k ≡ ⟦<Tree<'a> as Choosing>⟧.choice.eq (tree_of (of.RKeyId x)) (tree_of k)) [ of.IssuerAndSerialNumber y ↦ refl | of.RKeyId y ↦ refl ]
        ]) };
}

impl<'a> EncodingEq for KeyAgreeRecipientIdentifier<'a> {
    ghost encoding_eq = { ⟦<KeyAgreeRecipientIdentifier<'a> as Choosing>⟧.choice.equal };
}

impl<'a> CopyLaws for KeyAgreeRecipientIdentifier<'a> {
    ghost copies = { copies_of ((same_copies ⟦<KeyAgreeRecipientIdentifier<'a> as Form>⟧.encoding ⟦<KeyAgreeRecipientIdentifier<'a> as Form>⟧.comparable ⟦<KeyAgreeRecipientIdentifier<'a> as Form>⟧.re_reads ⟦<KeyAgreeRecipientIdentifier<'a> as PartialEq>⟧.eq key_agree_recipient_identifier_eq.laws-law.refl)) };
}

impl<'a> Duplicate for KeyAgreeRecipientIdentifier<'a> {
    ghost is_copy = { λ v w. w ≡ v };

    ghost takes_memory_to_copy = { false };

    fn duplicate(&self) -> Result<KeyAgreeRecipientIdentifier<'a>, Error> {
        Ok(copy_of(self))
    }

    ghost copy_encoding = { ⟦<KeyAgreeRecipientIdentifier<'a> as CopyLaws>⟧.copies.laws.octets_are };

    ghost copy_comparable = { ⟦<KeyAgreeRecipientIdentifier<'a> as CopyLaws>⟧.copies.laws.comparable_are };

    ghost copy_re_reads = { ⟦<KeyAgreeRecipientIdentifier<'a> as CopyLaws>⟧.copies.laws.re_reads_are };
}

impl<'a> DuplicateIsEqual for KeyAgreeRecipientIdentifier<'a> {
    ghost copy_is_equal = { ⟦<KeyAgreeRecipientIdentifier<'a> as CopyLaws>⟧.copies.laws.equal_are };
}

/// What is read as `KeyAgreeRecipientIdentifier` is what the grammar page says.
pub fn grammar_of_key_agree_recipient_identifier<'a>()
    ensures { ⟦<KeyAgreeRecipientIdentifier<'a> as Form>⟧.parse ≡ parse_of key_agree_recipient_identifier }
{}
