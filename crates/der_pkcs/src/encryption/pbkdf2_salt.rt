//! Pbkdf2Salt, a CHOICE of 2 alternatives.
//!
//! Made by tools/asn1 from encryption.asn1.

ghost use Rattle.std.specs.Prelude.{◌≡◌, false, refl, true};
ghost use Rattle.der_elem.specs.Accepting.{IsTlv};
ghost use Rattle.der_elem.specs.FirstTags.{HasFirstTag};
ghost use Rattle.der_elem.specs.FormatMakers.{mapped_format};
ghost use Rattle.der_elem.specs.KnownTagLaws.{known_either, own_is_known};
ghost use Rattle.der_elem.specs.TaggedLaws.{tlv_tagged};
ghost use Rattle.der_modules.specs.Asn1.{parse_of};
ghost use Rattle.der_modules.specs.MemberLaws.{copies_of, same_copies};
ghost use Rattle.der_modules.specs.Members.{seen_choice};
ghost use Rattle.der_pkcs.specs.Encryption.Grammar.{pbkdf2_salt};
ghost use Rattle.der_pkcs.specs.Encryption.Pbkdf2Salt.{tree_of};
ghost use Rattle.der_pkcs.specs.contracts.encryption.pbkdf2_salt.Pbkdf2SaltEq.TheImpl.Laws as pbkdf2_salt_eq;
ghost use Rattle.der_pkcs.specs.declared.encryption.pbkdf2_salt.Pbkdf2Salt.TheVariants as of;

use der_elem::{
    Choice, Decode, DecodeField, DerOrd, Duplicate, DuplicateIsEqual, EncodeValue, EncodingEq,
    Form, FormValue, KnownTags, Tagged,
};
use der_fields::{OneOf, cmp_headers};
use der_modules::{Choosing, CopyLaws, copy_of};
use der_opaque::OctetStringRef;
use der_pkix::AlgorithmIdentifier;
use der_tlv::{BackWriter, Error, Length, Source, Tag, Writer};
use std::alloc::Global;
use std::cmp::Ordering;

/// The alternatives, as a tree.
type Tree<'a> = OneOf<OctetStringRef<'a>, AlgorithmIdentifier<'a>>;

/// A type that is written out within another, as `Pbkdf2Salt`.
///
/// Reading refuses a tag that no alternative has (`ErrorKind::TagUnexpected`, 4), and the
/// alternative's faults.
#[derive(Clone, Copy, Debug, PartialEq, Eq)]
pub enum Pbkdf2Salt<'a> {
    /// `specified`, `OCTET STRING`.
    Specified(OctetStringRef<'a>),
    /// `otherSource`, `AlgorithmIdentifier`.
    OtherSource(AlgorithmIdentifier<'a>),
}

impl<'a> Form for Pbkdf2Salt<'a> {
    ghost encoding = { λ v. ⟦<Tree<'a> as Form>⟧.encoding (tree_of v) };

    ghost comparable = { λ v w. ⟦<Tree<'a> as Form>⟧.comparable (tree_of v) (tree_of w) };

    ghost re_reads = { λ v. ⟦<Tree<'a> as Form>⟧.re_reads (tree_of v) };

    ghost accepts = { λ rules v. ⟦<Tree<'a> as Form>⟧.accepts rules (tree_of v) };

    ghost parse = { ⟦<Tree<'a> as Form>⟧.parse };

    ghost tags = { ⟦<Tree<'a> as Form>⟧.tags };

    ghost first_tag_of = { λ v. ⟦<Tree<'a> as Form>⟧.first_tag_of (tree_of v) };

    ghost readable = { λ v. ⟦<Tree<'a> as Form>⟧.readable (tree_of v) };

    ghost TAKES_MEMORY = { ⟦<Tree<'a> as Form>⟧.TAKES_MEMORY };

    ghost FAULTS_FIRST = { ⟦<Tree<'a> as Form>⟧.FAULTS_FIRST };

    ghost parse_of_accepted = { λ rules v. ⟦<Tree<'a> as Form>⟧.parse_of_accepted rules (tree_of v) };

    ghost faults_of_octets = { ⟦<Tree<'a> as Form>⟧.faults_of_octets };

    ghost begins = { λ rules v. ⟦<Tree<'a> as Form>⟧.begins rules (tree_of v) };

    ghost begins_first = { λ rules v. ⟦<Tree<'a> as Form>⟧.begins_first rules (tree_of v) };

    ghost same_length = { λ rules v. ⟦<Tree<'a> as Form>⟧.same_length rules (tree_of v) };

    ghost accepts_encoding = { λ rules v. ⟦<Tree<'a> as Form>⟧.accepts_encoding rules (tree_of v) };

    ghost only_readable = { λ rules v. ⟦<Tree<'a> as Form>⟧.only_readable rules (tree_of v) };

    ghost accepts_comparable = { λ rules v w. ⟦<Tree<'a> as Form>⟧.accepts_comparable rules (tree_of v) (tree_of w) };

    ghost re_reads_memory = { λ v. ⟦<Tree<'a> as Form>⟧.re_reads_memory (tree_of v) };
}

impl<'a> FormValue for Pbkdf2Salt<'a> {
    ghost value = { mapped_format tree_of ⟦<Tree<'a> as FormValue>⟧.value };
}

impl<'a> Tagged for Pbkdf2Salt<'a> {
    ghost tag_of = { λ v. ⟦<Tree<'a> as Tagged>⟧.tag_of (tree_of v) };

    fn tag(&self) -> Tag {
        match self {
            Pbkdf2Salt::Specified(value) => value.tag(),
            Pbkdf2Salt::OtherSource(value) => value.tag(),
        }
    }

    ghost encoding_is = { ⟦<Pbkdf2Salt<'a> as Choosing>⟧.choice.has_tag.encoding_is };

    ghost accepted_is_tlv = { λ rules v b. elim v as (λ k. ⟦<Tree<'a> as Form>⟧.accepts rules (tree_of k) b → IsTlv b) [ of.Specified x ↦ λ a. tlv_tagged _ ⟦<OctetStringRef<'a> as FormValue>⟧.value.accepts rules x b a.0 | of.OtherSource x ↦ λ a. tlv_tagged _ ⟦<AlgorithmIdentifier<'a> as FormValue>⟧.value.accepts rules x b a.0 ] };

    ghost own_tag = { ⟦<Pbkdf2Salt<'a> as Choosing>⟧.choice.has_tag.own_tag };

    ghost first_tag_is = { ⟦<Pbkdf2Salt<'a> as Choosing>⟧.choice.has_tag.first_tag_is };

    ghost re_reads_alike = { λ v. elim v as (λ k. ⟦<Tree<'a> as FormValue>⟧.value.re_reads (tree_of k) ≡ true → ⟦<Tree<'a> as Form>⟧.re_reads (tree_of k) ≡ true) [ of.Specified x ↦ λ h. h | of.OtherSource x ↦ λ h. h ] };

    ghost comparable_alike = { λ v w h. tt };
}

impl<'a> Choice for Pbkdf2Salt<'a> {
    fn can_decode(tag: Tag) -> bool
        ensures { result ≡ ⟦<Tree<'a> as Form>⟧.tags tag }
    {
        Tree::<'a>::can_decode(tag)
    }

    ghost has_first_tag = { λ v. elim v as (λ k. HasFirstTag (⟦<Tree<'a> as Form>⟧.first_tag_of (tree_of k))) [ of.Specified x ↦ record { tag = _; is_tag = refl } | of.OtherSource x ↦ record { tag = _; is_tag = refl } ] };
}

impl<'a> KnownTags for Pbkdf2Salt<'a> {
    ghost known_tags = { ⟦<Tree<'a> as KnownTags>⟧.known_tags };

    ghost MAY_BE_ABSENT = { false };

    ghost are_known = { (known_either ⟦<OctetStringRef<'a> as KnownTags>⟧.known_tags ⟦<AlgorithmIdentifier<'a> as KnownTags>⟧.known_tags ⟦<OctetStringRef<'a> as Form>⟧.tags ⟦<AlgorithmIdentifier<'a> as Form>⟧.tags (own_is_known _) (own_is_known _)) };

    ghost is_there = { λ e v. elim v as (λ k. HasFirstTag (⟦<Tree<'a> as Form>⟧.first_tag_of (tree_of k))) [ of.Specified x ↦ record { tag = _; is_tag = refl } | of.OtherSource x ↦ record { tag = _; is_tag = refl } ] };
}

impl<'a, R: Source<'a>> Decode<'a, R> for Pbkdf2Salt<'a> {
    ghost TAKES_MEMORY = { false };

    const TAKES_MEMORY: bool = false;

    fn decode(alloc: Global, reader: &mut R) -> Result<Pbkdf2Salt<'a>, Error> {
        match Tree::<'a>::decode(alloc, reader) {
            Ok(OneOf::First(value)) => Ok(Pbkdf2Salt::Specified(value)),
            Ok(OneOf::Other(value)) => Ok(Pbkdf2Salt::OtherSource(value)),
            Err(e) => Err(e),
        }
    }

    ghost takes_memory_is = { refl };
}

impl<'a, R: Source<'a>> DecodeField<'a, R> for Pbkdf2Salt<'a> {
    ghost TAKES_MEMORY = { false };

    const TAKES_MEMORY: bool = false;

    fn decode_field(alloc: Global, reader: &mut R) -> Result<Pbkdf2Salt<'a>, Error> {
        Pbkdf2Salt::decode(alloc, reader)
    }

    ghost takes_memory_is = { refl };
}

impl<'a> EncodeValue for Pbkdf2Salt<'a> {
    fn value_len(&self) -> Result<Length, Error> {
        match self {
            Pbkdf2Salt::Specified(value) => value.value_len(),
            Pbkdf2Salt::OtherSource(value) => value.value_len(),
        }
    }

    fn encode_value<W: Writer>(&self, writer: &mut W) -> Result<(), Error> {
        match self {
            Pbkdf2Salt::Specified(value) => value.encode_value(writer),
            Pbkdf2Salt::OtherSource(value) => value.encode_value(writer),
        }
    }

    fn encode_value_back<W: BackWriter>(&self, writer: &mut W) -> Result<(), Error> {
        match self {
            Pbkdf2Salt::Specified(value) => value.encode_value_back(writer),
            Pbkdf2Salt::OtherSource(value) => value.encode_value_back(writer),
        }
    }
}

impl<'a> DerOrd for Pbkdf2Salt<'a> {
    fn der_cmp(&self, other: &Pbkdf2Salt<'a>) -> Result<Ordering, Error> {
        match (self, other) {
            (Pbkdf2Salt::Specified(value), Pbkdf2Salt::Specified(other)) => value.der_cmp(other),
            (Pbkdf2Salt::OtherSource(value), Pbkdf2Salt::OtherSource(other)) => value.der_cmp(
                other,
            ),
            _ => cmp_headers(self, other),
        }
    }
}

impl<'a> Choosing for Pbkdf2Salt<'a> {
    ghost choice = { seen_choice tree_of ⟦<Pbkdf2Salt<'a> as PartialEq>⟧.eq ⟦<Tree<'a> as Choosing>⟧.choice
        (λ v w. elim v as (λ k. ⟦<Pbkdf2Salt<'a> as PartialEq>⟧.eq k w ≡ ⟦<Tree<'a> as Choosing>⟧.choice.eq (tree_of k) (tree_of w)) [
          | of.Specified x ↦ elim w as (λ k. ⟦<Pbkdf2Salt<'a> as PartialEq>⟧.eq (of.Specified x) k ≡ ⟦<Tree<'a> as Choosing>⟧.choice.eq (tree_of (of.Specified x)) (tree_of k)) [ of.Specified y ↦ refl | of.OtherSource y ↦ refl ]
          | of.OtherSource x ↦ elim w as (λ k. ⟦<Pbkdf2Salt<'a> as PartialEq>⟧.eq (of.OtherSource x) k ≡ ⟦<Tree<'a> as Choosing>⟧.choice.eq (tree_of (of.OtherSource x)) (tree_of k)) [ of.Specified y ↦ refl | of.OtherSource y ↦ refl ]
        ]) };
}

impl<'a> EncodingEq for Pbkdf2Salt<'a> {
    ghost encoding_eq = { ⟦<Pbkdf2Salt<'a> as Choosing>⟧.choice.equal };
}

impl<'a> CopyLaws for Pbkdf2Salt<'a> {
    ghost copies = { copies_of ((same_copies ⟦<Pbkdf2Salt<'a> as Form>⟧.encoding ⟦<Pbkdf2Salt<'a> as Form>⟧.comparable ⟦<Pbkdf2Salt<'a> as Form>⟧.re_reads ⟦<Pbkdf2Salt<'a> as PartialEq>⟧.eq pbkdf2_salt_eq.laws-law.refl)) };
}

impl<'a> Duplicate for Pbkdf2Salt<'a> {
    ghost is_copy = { λ v w. w ≡ v };

    ghost takes_memory_to_copy = { false };

    fn duplicate(&self) -> Result<Pbkdf2Salt<'a>, Error> {
        Ok(copy_of(self))
    }

    ghost copy_encoding = { ⟦<Pbkdf2Salt<'a> as CopyLaws>⟧.copies.laws.octets_are };

    ghost copy_comparable = { ⟦<Pbkdf2Salt<'a> as CopyLaws>⟧.copies.laws.comparable_are };

    ghost copy_re_reads = { ⟦<Pbkdf2Salt<'a> as CopyLaws>⟧.copies.laws.re_reads_are };
}

impl<'a> DuplicateIsEqual for Pbkdf2Salt<'a> {
    ghost copy_is_equal = { ⟦<Pbkdf2Salt<'a> as CopyLaws>⟧.copies.laws.equal_are };
}

/// What is read as `Pbkdf2Salt` is what the grammar page says.
pub fn grammar_of_pbkdf2_salt<'a>()
    ensures { ⟦<Pbkdf2Salt<'a> as Form>⟧.parse ≡ parse_of pbkdf2_salt }
{}
