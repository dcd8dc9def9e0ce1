//! OriginatorIdentifierOrKey, a CHOICE of 3 alternatives.
//!
//! Made by tools/asn1 from enveloped.asn1.

ghost use Rattle.std.specs.Prelude.{◌≡◌, false, refl, true};
ghost use Rattle.der_elem.specs.Accepting.{IsTlv};
ghost use Rattle.der_elem.specs.FirstTags.{HasFirstTag};
ghost use Rattle.der_elem.specs.FormatMakers.{mapped_format};
ghost use Rattle.der_elem.specs.KnownTagLaws.{known_either, own_is_known};
ghost use Rattle.der_elem.specs.TaggedLaws.{tlv_tagged};
ghost use Rattle.der_enveloped.specs.Enveloped.Grammar.{originator_identifier_or_key};
ghost use Rattle.der_enveloped.specs.Enveloped.OriginatorIdentifierOrKey.{tree_of};
ghost use Rattle.der_enveloped.specs.contracts.enveloped.originator_identifier_or_key.OriginatorIdentifierOrKeyEq.TheImpl.Laws as originator_identifier_or_key_eq;
ghost use Rattle.der_enveloped.specs.declared.enveloped.originator_identifier_or_key.OriginatorIdentifierOrKey.TheVariants as of;
ghost use Rattle.der_modules.specs.Asn1.{parse_of};
ghost use Rattle.der_modules.specs.MemberLaws.{copies_of, same_copies};
ghost use Rattle.der_modules.specs.Members.{seen_choice};

use crate::enveloped::aliases::OriginatorPublicKey;
use der_cms::cms::IssuerAndSerialNumber;
use der_elem::{
    Choice, Decode, DecodeField, DerOrd, Duplicate, DuplicateIsEqual, EncodeValue, EncodingEq,
    Form, FormValue, KnownTags, Tagged,
};
use der_extensions::extension::SubjectKeyIdentifier;
use der_fields::{Implicit, OneOf, cmp_headers};
use der_modules::{Choosing, CopyLaws, copy_of};
use der_tlv::{BackWriter, Error, Length, Source, Tag, Writer};
use std::alloc::Global;
use std::cmp::Ordering;

/// The alternatives, as a tree.
type Tree<'a> = OneOf<
    OneOf<IssuerAndSerialNumber<'a>, Implicit<SubjectKeyIdentifier<'a>, 0>>,
    Implicit<OriginatorPublicKey<'a>, 1>,
>;

/// ```text
/// OriginatorIdentifierOrKey ::= CHOICE {
///      issuerAndSerialNumber     IssuerAndSerialNumber,
///      subjectKeyIdentifier  [0] SubjectKeyIdentifier,
///      originatorKey         [1] OriginatorPublicKey }
/// ```
///
/// Reading refuses a tag that no alternative has (`ErrorKind::TagUnexpected`, 4), and the
/// alternative's faults.
#[derive(Clone, Copy, Debug, PartialEq, Eq)]
pub enum OriginatorIdentifierOrKey<'a> {
    /// `issuerAndSerialNumber`, `IssuerAndSerialNumber`.
    IssuerAndSerialNumber(IssuerAndSerialNumber<'a>),
    /// `subjectKeyIdentifier`, `[0] SubjectKeyIdentifier`.
    SubjectKeyIdentifier(Implicit<SubjectKeyIdentifier<'a>, 0>),
    /// `originatorKey`, `[1] OriginatorPublicKey`.
    OriginatorKey(Implicit<OriginatorPublicKey<'a>, 1>),
}

impl<'a> Form for OriginatorIdentifierOrKey<'a> {
    ghost encoding = { λ v. ⟦<Tree<'a> as Form>⟧.encoding (tree_of v) };

    ghost comparable = { λ v w. ⟦<Tree<'a> as Form>⟧.comparable (tree_of v) (tree_of w) };

    ghost re_reads = { λ v. ⟦<Tree<'a> as Form>⟧.re_reads (tree_of v) };

    ghost accepts = { λ rules v. ⟦<Tree<'a> as Form>⟧.accepts rules (tree_of v) };

    ghost parse = { ⟦<Tree<'a> as Form>⟧.parse };

    ghost tags = { ⟦<Tree<'a> as Form>⟧.tags };

    ghost first_tag_of = { λ v. ⟦<Tree<'a> as Form>⟧.first_tag_of (tree_of v) };

    ghost readable = { λ v. ⟦<Tree<'a> as Form>⟧.readable (tree_of v) };

    ghost TAKES_MEMORY = { ⟦<Tree<'a> as Form>⟧.TAKES_MEMORY };

    ghost FAULTS_FIRST = { ⟦<Tree<'a> as Form>⟧.FAULTS_FIRST };

    ghost parse_of_accepted = { λ rules v. ⟦<Tree<'a> as Form>⟧.parse_of_accepted rules (tree_of v) };

    ghost faults_of_octets = { ⟦<Tree<'a> as Form>⟧.faults_of_octets };

    ghost begins = { λ rules v. ⟦<Tree<'a> as Form>⟧.begins rules (tree_of v) };

    ghost begins_first = { λ rules v. ⟦<Tree<'a> as Form>⟧.begins_first rules (tree_of v) };

    ghost same_length = { λ rules v. ⟦<Tree<'a> as Form>⟧.same_length rules (tree_of v) };

    ghost accepts_encoding = { λ rules v. ⟦<Tree<'a> as Form>⟧.accepts_encoding rules (tree_of v) };

    ghost only_readable = { λ rules v. ⟦<Tree<'a> as Form>⟧.only_readable rules (tree_of v) };

    ghost accepts_comparable = { λ rules v w. ⟦<Tree<'a> as Form>⟧.accepts_comparable rules (tree_of v) (tree_of w) };

    ghost re_reads_memory = { λ v. ⟦<Tree<'a> as Form>⟧.re_reads_memory (tree_of v) };
}

impl<'a> FormValue for OriginatorIdentifierOrKey<'a> {
    ghost value = { mapped_format tree_of ⟦<Tree<'a> as FormValue>⟧.value };
}

impl<'a> Tagged for OriginatorIdentifierOrKey<'a> {
    ghost tag_of = { λ v. ⟦<Tree<'a> as Tagged>⟧.tag_of (tree_of v) };

    fn tag(&self) -> Tag {
        match self {
            OriginatorIdentifierOrKey::IssuerAndSerialNumber(value) => value.tag(),
            OriginatorIdentifierOrKey::SubjectKeyIdentifier(value) => value.tag(),
            OriginatorIdentifierOrKey::OriginatorKey(value) => value.tag(),
        }
    }

    ghost encoding_is = { ⟦<OriginatorIdentifierOrKey<'a> as Choosing>⟧.choice.has_tag.encoding_is };

    ghost accepted_is_tlv = { λ rules v b. elim v as (λ k. ⟦<Tree<'a> as Form>⟧.accepts rules (tree_of k) b → IsTlv b) [ of.IssuerAndSerialNumber x ↦ λ a. tlv_tagged _ ⟦<IssuerAndSerialNumber<'a> as FormValue>⟧.value.accepts rules x b a.0.0 | of.SubjectKeyIdentifier x ↦ λ a. tlv_tagged _ ⟦<Implicit<SubjectKeyIdentifier<'a>, 0> as FormValue>⟧.value.accepts rules x b a.0.0 | of.OriginatorKey x ↦ λ a. tlv_tagged _ ⟦<Implicit<OriginatorPublicKey<'a>, 1> as FormValue>⟧.value.accepts rules x b a.0 ] };

    ghost own_tag = { ⟦<OriginatorIdentifierOrKey<'a> as Choosing>⟧.choice.has_tag.own_tag };

    ghost first_tag_is = { ⟦<OriginatorIdentifierOrKey<'a> as Choosing>⟧.choice.has_tag.first_tag_is };

    ghost re_reads_alike = { λ v. elim v as (λ k. ⟦<Tree<'a> as FormValue>⟧.value.re_reads (tree_of k) ≡ true → ⟦<Tree<'a> as Form>⟧.re_reads (tree_of k) ≡ true) [ of.IssuerAndSerialNumber x ↦ λ h. h | of.SubjectKeyIdentifier x ↦ λ h. h | of.OriginatorKey x ↦ λ h. h ] };

    ghost comparable_alike = { λ v w h. tt };
}

impl<'a> Choice for OriginatorIdentifierOrKey<'a> {
    fn can_decode(tag: Tag) -> bool
        ensures { result ≡ ⟦<Tree<'a> as Form>⟧.tags tag }
    {
        Tree::<'a>::can_decode(tag)
    }

    ghost has_first_tag = { λ v. elim v as (λ k. HasFirstTag (⟦<Tree<'a> as Form>⟧.first_tag_of (tree_of k))) [ of.IssuerAndSerialNumber x ↦ record { tag = _; is_tag = refl } | of.SubjectKeyIdentifier x ↦ record { tag = _; is_tag = refl } | of.OriginatorKey x ↦ record { tag = _; is_tag = refl } ] };
}

impl<'a> KnownTags for OriginatorIdentifierOrKey<'a> {
    ghost known_tags = { ⟦<Tree<'a> as KnownTags>⟧.known_tags };

    ghost MAY_BE_ABSENT = { false };

    ghost are_known = { (known_either ⟦<OneOf<IssuerAndSerialNumber<'a>, Implicit<SubjectKeyIdentifier<'a>, 0>> as KnownTags>⟧.known_tags ⟦<Implicit<OriginatorPublicKey<'a>, 1> as KnownTags>⟧.known_tags ⟦<OneOf<IssuerAndSerialNumber<'a>, Implicit<SubjectKeyIdentifier<'a>, 0>> as Form>⟧.tags ⟦<Implicit<OriginatorPublicKey<'a>, 1> as Form>⟧.tags (known_either ⟦<IssuerAndSerialNumber<'a> as KnownTags>⟧.known_tags ⟦<Implicit<SubjectKeyIdentifier<'a>, 0> as KnownTags>⟧.known_tags ⟦<IssuerAndSerialNumber<'a> as Form>⟧.tags ⟦<Implicit<SubjectKeyIdentifier<'a>, 0> as Form>⟧.tags (own_is_known _) (own_is_known _)) (own_is_known _)) };

    ghost is_there = { λ e v. elim v as (λ k. HasFirstTag (⟦<Tree<'a> as Form>⟧.first_tag_of (tree_of k))) [ of.IssuerAndSerialNumber x ↦ record { tag = _; is_tag = refl } | of.SubjectKeyIdentifier x ↦ record { tag = _; is_tag = refl } | of.OriginatorKey x ↦ record { tag = _; is_tag = refl } ] };
}

impl<'a, R: Source<'a>> Decode<'a, R> for OriginatorIdentifierOrKey<'a> {
    ghost TAKES_MEMORY = { false };

    const TAKES_MEMORY: bool = false;

    fn decode(alloc: Global, reader: &mut R) -> Result<OriginatorIdentifierOrKey<'a>, Error> {
        match Tree::<'a>::decode(alloc, reader) {
            Ok(OneOf::First(OneOf::First(value))) => Ok(
                OriginatorIdentifierOrKey::IssuerAndSerialNumber(value),
            ),
            Ok(OneOf::First(OneOf::Other(value))) => Ok(
                OriginatorIdentifierOrKey::SubjectKeyIdentifier(value),
            ),
            Ok(OneOf::Other(value)) => Ok(OriginatorIdentifierOrKey::OriginatorKey(value)),
            Err(e) => Err(e),
        }
    }

    ghost takes_memory_is = { refl };
}

impl<'a, R: Source<'a>> DecodeField<'a, R> for OriginatorIdentifierOrKey<'a> {
    ghost TAKES_MEMORY = { false };

    const TAKES_MEMORY: bool = false;

    fn decode_field(alloc: Global, reader: &mut R) -> Result<OriginatorIdentifierOrKey<'a>, Error> {
        OriginatorIdentifierOrKey::decode(alloc, reader)
    }

    ghost takes_memory_is = { refl };
}

impl<'a> EncodeValue for OriginatorIdentifierOrKey<'a> {
    fn value_len(&self) -> Result<Length, Error> {
        match self {
            OriginatorIdentifierOrKey::IssuerAndSerialNumber(value) => value.value_len(),
            OriginatorIdentifierOrKey::SubjectKeyIdentifier(value) => value.value_len(),
            OriginatorIdentifierOrKey::OriginatorKey(value) => value.value_len(),
        }
    }

    fn encode_value<W: Writer>(&self, writer: &mut W) -> Result<(), Error> {
        match self {
            OriginatorIdentifierOrKey::IssuerAndSerialNumber(value) => value.encode_value(writer),
            OriginatorIdentifierOrKey::SubjectKeyIdentifier(value) => value.encode_value(writer),
            OriginatorIdentifierOrKey::OriginatorKey(value) => value.encode_value(writer),
        }
    }

    fn encode_value_back<W: BackWriter>(&self, writer: &mut W) -> Result<(), Error> {
        match self {
            OriginatorIdentifierOrKey::IssuerAndSerialNumber(value) => value.encode_value_back(
                writer,
            ),
            OriginatorIdentifierOrKey::SubjectKeyIdentifier(value) => value.encode_value_back(
                writer,
            ),
            OriginatorIdentifierOrKey::OriginatorKey(value) => value.encode_value_back(writer),
        }
    }
}

impl<'a> DerOrd for OriginatorIdentifierOrKey<'a> {
    fn der_cmp(&self, other: &OriginatorIdentifierOrKey<'a>) -> Result<Ordering, Error> {
        match (self, other) {
            (
                OriginatorIdentifierOrKey::IssuerAndSerialNumber(value),
                OriginatorIdentifierOrKey::IssuerAndSerialNumber(other),
            ) => value.der_cmp(other),
            (
                OriginatorIdentifierOrKey::SubjectKeyIdentifier(value),
                OriginatorIdentifierOrKey::SubjectKeyIdentifier(other),
            ) => value.der_cmp(other),
            (
                OriginatorIdentifierOrKey::OriginatorKey(value),
                OriginatorIdentifierOrKey::OriginatorKey(other),
            ) => value.der_cmp(other),
            _ => cmp_headers(self, other),
        }
    }
}

impl<'a> Choosing for OriginatorIdentifierOrKey<'a> {
    ghost choice = { seen_choice tree_of ⟦<OriginatorIdentifierOrKey<'a> as PartialEq>⟧.eq ⟦<Tree<'a> as Choosing>⟧.choice
        (λ v w. elim v as (λ k. ⟦<OriginatorIdentifierOrKey<'a> as PartialEq>⟧.eq k w ≡ ⟦<Tree<'a> as Choosing>⟧.choice.eq (tree_of k) (tree_of w)) [
          | of.IssuerAndSerialNumber x ↦ elim w as (λ k. ⟦<OriginatorIdentifierOrKey<'a> as PartialEq>⟧.eq (of.IssuerAndSerialNumber x) k ≡ ⟦<Tree<'a> as Choosing>⟧.choice.eq (tree_of (of.IssuerAndSerialNumber x)) (tree_of k)) [ of.IssuerAndSerialNumber y ↦ refl | of.SubjectKeyIdentifier y ↦ refl | of.OriginatorKey y ↦ refl ]
          | of.SubjectKeyIdentifier x ↦ elim w as (λ k. ⟦<OriginatorIdentifierOrKey<'a> as PartialEq>⟧.eq (of.SubjectKeyIdentifier x) k ≡ ⟦<Tree<'a> as Choosing>⟧.choice.eq (tree_of (of.SubjectKeyIdentifier x)) (tree_of k)) [ of.IssuerAndSerialNumber y ↦ refl | of.SubjectKeyIdentifier y ↦ refl | of.OriginatorKey y ↦ refl ]
          | of.OriginatorKey x ↦ elim w as (λ k. ⟦<OriginatorIdentifierOrKey<'a> as PartialEq>⟧.eq (of.OriginatorKey x) k ≡ ⟦<Tree<'a> as Choosing>⟧.choice.eq (tree_of (of.OriginatorKey x)) (tree_of k)) [ of.IssuerAndSerialNumber y ↦ refl | of.SubjectKeyIdentifier y ↦ refl | of.OriginatorKey y ↦ refl ]
        ]) };
}

impl<'a> EncodingEq for OriginatorIdentifierOrKey<'a> {
    ghost encoding_eq = { ⟦<OriginatorIdentifierOrKey<'a> as Choosing>⟧.choice.equal };
}

impl<'a> CopyLaws for OriginatorIdentifierOrKey<'a> {
    ghost copies = { copies_of ((same_copies ⟦<OriginatorIdentifierOrKey<'a> as Form>⟧.encoding ⟦<OriginatorIdentifierOrKey<'a> as Form>⟧.comparable ⟦<OriginatorIdentifierOrKey<'a> as Form>⟧.re_reads ⟦<OriginatorIdentifierOrKey<'a> as PartialEq>⟧.eq originator_identifier_or_key_eq.laws-law.refl)) };
}

impl<'a> Duplicate for OriginatorIdentifierOrKey<'a> {
    ghost is_copy = { λ v w. w ≡ v };

    ghost takes_memory_to_copy = { false };

    fn duplicate(&self) -> Result<OriginatorIdentifierOrKey<'a>, Error> {
        Ok(copy_of(self))
    }

    ghost copy_encoding = { ⟦<OriginatorIdentifierOrKey<'a> as CopyLaws>⟧.copies.laws.octets_are };

    ghost copy_comparable = { ⟦<OriginatorIdentifierOrKey<'a> as CopyLaws>⟧.copies.laws.comparable_are };

    ghost copy_re_reads = { ⟦<OriginatorIdentifierOrKey<'a> as CopyLaws>⟧.copies.laws.re_reads_are };
}

impl<'a> DuplicateIsEqual for OriginatorIdentifierOrKey<'a> {
    ghost copy_is_equal = { ⟦<OriginatorIdentifierOrKey<'a> as CopyLaws>⟧.copies.laws.equal_are };
}

/// What is read as `OriginatorIdentifierOrKey` is what the grammar page says.
pub fn grammar_of_originator_identifier_or_key<'a>()
    ensures { ⟦<OriginatorIdentifierOrKey<'a> as Form>⟧.parse ≡ parse_of originator_identifier_or_key }
{}
