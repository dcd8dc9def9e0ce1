//! ECParameters, a CHOICE of 3 alternatives.
//!
//! Made by tools/asn1 from key.asn1.

ghost use Rattle.std.specs.Prelude.{◌≡◌, false, refl, true};
ghost use Rattle.der_elem.specs.Accepting.{IsTlv};
ghost use Rattle.der_elem.specs.FirstTags.{HasFirstTag};
ghost use Rattle.der_elem.specs.FormatMakers.{mapped_format};
ghost use Rattle.der_elem.specs.KnownTagLaws.{known_either, own_is_known};
ghost use Rattle.der_elem.specs.TaggedLaws.{tlv_tagged};
ghost use Rattle.der_modules.specs.Asn1.{parse_of};
ghost use Rattle.der_modules.specs.MemberLaws.{copies_of, same_copies};
ghost use Rattle.der_modules.specs.Members.{seen_choice};
ghost use Rattle.der_pkix.specs.Key.EcParameters.{tree_of};
ghost use Rattle.der_pkix.specs.Key.Grammar.{ec_parameters};
ghost use Rattle.der_pkix.specs.contracts.key.ec_parameters.EcParametersEq.TheImpl.Laws as ec_parameters_eq;
ghost use Rattle.der_pkix.specs.declared.key.ec_parameters.EcParameters.TheVariants as of;

use crate::key::specified_ec_domain::SpecifiedEcDomain;
use der_elem::{
    Choice, Decode, DecodeField, DerOrd, Duplicate, DuplicateIsEqual, EncodeValue, EncodingEq,
    Form, FormValue, KnownTags, Tagged,
};
use der_fields::{OneOf, cmp_headers};
use der_modules::{Choosing, CopyLaws, copy_of};
use der_opaque::{Null, ObjectIdentifierRef};
use der_tlv::{BackWriter, Error, Length, Source, Tag, Writer};
use std::alloc::Global;
use std::cmp::Ordering;

/// The alternatives, as a tree.
type Tree<'a> = OneOf<OneOf<ObjectIdentifierRef<'a, 39>, Null>, SpecifiedEcDomain<'a>>;

/// ```text
/// ECParameters ::= CHOICE {
///      namedCurve      OBJECT IDENTIFIER,
///      implicitCurve   NULL,
///      specifiedCurve  SpecifiedECDomain }
/// ```
///
/// Reading refuses a tag that no alternative has (`ErrorKind::TagUnexpected`, 4), and the
/// alternative's faults.
#[derive(Clone, Copy, Debug, PartialEq, Eq)]
pub enum EcParameters<'a> {
    /// `namedCurve`, `OBJECT IDENTIFIER`.
    NamedCurve(ObjectIdentifierRef<'a, 39>),
    /// `implicitCurve`, `NULL`.
    ImplicitCurve(Null),
    /// `specifiedCurve`, `SpecifiedECDomain`.
    SpecifiedCurve(SpecifiedEcDomain<'a>),
}

impl<'a> Form for EcParameters<'a> {
    ghost encoding = { λ v. ⟦<Tree<'a> as Form>⟧.encoding (tree_of v) };

    ghost comparable = { λ v w. ⟦<Tree<'a> as Form>⟧.comparable (tree_of v) (tree_of w) };

    ghost re_reads = { λ v. ⟦<Tree<'a> as Form>⟧.re_reads (tree_of v) };

    ghost accepts = { λ rules v. ⟦<Tree<'a> as Form>⟧.accepts rules (tree_of v) };

    ghost parse = { ⟦<Tree<'a> as Form>⟧.parse };

    ghost tags = { ⟦<Tree<'a> as Form>⟧.tags };

    ghost first_tag_of = { λ v. ⟦<Tree<'a> as Form>⟧.first_tag_of (tree_of v) };

    ghost readable = { λ v. ⟦<Tree<'a> as Form>⟧.readable (tree_of v) };

    ghost TAKES_MEMORY = { ⟦<Tree<'a> as Form>⟧.TAKES_MEMORY };

    ghost FAULTS_FIRST = { ⟦<Tree<'a> as Form>⟧.FAULTS_FIRST };

    ghost parse_of_accepted = { λ rules v. ⟦<Tree<'a> as Form>⟧.parse_of_accepted rules (tree_of v) };

    ghost faults_of_octets = { ⟦<Tree<'a> as Form>⟧.faults_of_octets };

    ghost begins = { λ rules v. ⟦<Tree<'a> as Form>⟧.begins rules (tree_of v) };

    ghost begins_first = { λ rules v. ⟦<Tree<'a> as Form>⟧.begins_first rules (tree_of v) };

    ghost same_length = { λ rules v. ⟦<Tree<'a> as Form>⟧.same_length rules (tree_of v) };

    ghost accepts_encoding = { λ rules v. ⟦<Tree<'a> as Form>⟧.accepts_encoding rules (tree_of v) };

    ghost only_readable = { λ rules v. ⟦<Tree<'a> as Form>⟧.only_readable rules (tree_of v) };

    ghost accepts_comparable = { λ rules v w. ⟦<Tree<'a> as Form>⟧.accepts_comparable rules (tree_of v) (tree_of w) };

    ghost re_reads_memory = { λ v. ⟦<Tree<'a> as Form>⟧.re_reads_memory (tree_of v) };
}

impl<'a> FormValue for EcParameters<'a> {
    ghost value = { mapped_format tree_of ⟦<Tree<'a> as FormValue>⟧.value };
}

impl<'a> Tagged for EcParameters<'a> {
    ghost tag_of = { λ v. ⟦<Tree<'a> as Tagged>⟧.tag_of (tree_of v) };

    fn tag(&self) -> Tag {
        match self {
            EcParameters::NamedCurve(value) => value.tag(),
            EcParameters::ImplicitCurve(value) => value.tag(),
            EcParameters::SpecifiedCurve(value) => value.tag(),
        }
    }

    ghost encoding_is = { ⟦<EcParameters<'a> as Choosing>⟧.choice.has_tag.encoding_is };

    ghost accepted_is_tlv = { λ rules v b. elim v as (λ k. ⟦<Tree<'a> as Form>⟧.accepts rules (tree_of k) b → IsTlv b) [ of.NamedCurve x ↦ λ a. tlv_tagged _ ⟦<ObjectIdentifierRef<'a, 39> as FormValue>⟧.value.accepts rules x b a.0.0 | of.ImplicitCurve x ↦ λ a. tlv_tagged _ ⟦<Null as FormValue>⟧.value.accepts rules x b a.0.0 | of.SpecifiedCurve x ↦ λ a. tlv_tagged _ ⟦<SpecifiedEcDomain<'a> as FormValue>⟧.value.accepts rules x b a.0 ] };

    ghost own_tag = { ⟦<EcParameters<'a> as Choosing>⟧.choice.has_tag.own_tag };

    ghost first_tag_is = { ⟦<EcParameters<'a> as Choosing>⟧.choice.has_tag.first_tag_is };

    ghost re_reads_alike = { λ v. elim v as (λ k. ⟦<Tree<'a> as FormValue>⟧.value.re_reads (tree_of k) ≡ true → ⟦<Tree<'a> as Form>⟧.re_reads (tree_of k) ≡ true) [ of.NamedCurve x ↦ λ h. h | of.ImplicitCurve x ↦ λ h. h | of.SpecifiedCurve x ↦ λ h. h ] };

    ghost comparable_alike = { λ v w h. tt };
}

impl<'a> Choice for EcParameters<'a> {
    fn can_decode(tag: Tag) -> bool
        ensures { result ≡ ⟦<Tree<'a> as Form>⟧.tags tag }
    {
        Tree::<'a>::can_decode(tag)
    }

    ghost has_first_tag = { λ v. elim v as (λ k. HasFirstTag (⟦<Tree<'a> as Form>⟧.first_tag_of (tree_of k))) [ of.NamedCurve x ↦ record { tag = _; is_tag = refl } | of.ImplicitCurve x ↦ record { tag = _; is_tag = refl } | of.SpecifiedCurve x ↦ record { tag = _; is_tag = refl } ] };
}

impl<'a> KnownTags for EcParameters<'a> {
    ghost known_tags = { ⟦<Tree<'a> as KnownTags>⟧.known_tags };

    ghost MAY_BE_ABSENT = { false };

    ghost are_known = { (known_either ⟦<OneOf<ObjectIdentifierRef<'a, 39>, Null> as KnownTags>⟧.known_tags ⟦<SpecifiedEcDomain<'a> as KnownTags>⟧.known_tags ⟦<OneOf<ObjectIdentifierRef<'a, 39>, Null> as Form>⟧.tags ⟦<SpecifiedEcDomain<'a> as Form>⟧.tags (known_either ⟦<ObjectIdentifierRef<'a, 39> as KnownTags>⟧.known_tags ⟦<Null as KnownTags>⟧.known_tags ⟦<ObjectIdentifierRef<'a, 39> as Form>⟧.tags ⟦<Null as Form>⟧.tags (own_is_known _) (own_is_known _)) (own_is_known _)) };

    ghost is_there = { λ e v. elim v as (λ k. HasFirstTag (⟦<Tree<'a> as Form>⟧.first_tag_of (tree_of k))) [ of.NamedCurve x ↦ record { tag = _; is_tag = refl } | of.ImplicitCurve x ↦ record { tag = _; is_tag = refl } | of.SpecifiedCurve x ↦ record { tag = _; is_tag = refl } ] };
}

impl<'a, R: Source<'a>> Decode<'a, R> for EcParameters<'a> {
    ghost TAKES_MEMORY = { false };

    const TAKES_MEMORY: bool = false;

    fn decode(alloc: Global, reader: &mut R) -> Result<EcParameters<'a>, Error> {
        match Tree::<'a>::decode(alloc, reader) {
            Ok(OneOf::First(OneOf::First(value))) => Ok(EcParameters::NamedCurve(value)),
            Ok(OneOf::First(OneOf::Other(value))) => Ok(EcParameters::ImplicitCurve(value)),
            Ok(OneOf::Other(value)) => Ok(EcParameters::SpecifiedCurve(value)),
            Err(e) => Err(e),
        }
    }

    ghost takes_memory_is = { refl };
}

impl<'a, R: Source<'a>> DecodeField<'a, R> for EcParameters<'a> {
    ghost TAKES_MEMORY = { false };

    const TAKES_MEMORY: bool = false;

    fn decode_field(alloc: Global, reader: &mut R) -> Result<EcParameters<'a>, Error> {
        EcParameters::decode(alloc, reader)
    }

    ghost takes_memory_is = { refl };
}

impl<'a> EncodeValue for EcParameters<'a> {
    fn value_len(&self) -> Result<Length, Error> {
        match self {
            EcParameters::NamedCurve(value) => value.value_len(),
            EcParameters::ImplicitCurve(value) => value.value_len(),
            EcParameters::SpecifiedCurve(value) => value.value_len(),
        }
    }

    fn encode_value<W: Writer>(&self, writer: &mut W) -> Result<(), Error> {
        match self {
            EcParameters::NamedCurve(value) => value.encode_value(writer),
            EcParameters::ImplicitCurve(value) => value.encode_value(writer),
            EcParameters::SpecifiedCurve(value) => value.encode_value(writer),
        }
    }

    fn encode_value_back<W: BackWriter>(&self, writer: &mut W) -> Result<(), Error> {
        match self {
            EcParameters::NamedCurve(value) => value.encode_value_back(writer),
            EcParameters::ImplicitCurve(value) => value.encode_value_back(writer),
            EcParameters::SpecifiedCurve(value) => value.encode_value_back(writer),
        }
    }
}

impl<'a> DerOrd for EcParameters<'a> {
    fn der_cmp(&self, other: &EcParameters<'a>) -> Result<Ordering, Error> {
        match (self, other) {
            (EcParameters::NamedCurve(value), EcParameters::NamedCurve(other)) => value.der_cmp(
                other,
            ),
            (EcParameters::ImplicitCurve(value), EcParameters::ImplicitCurve(other)) =>
                value.der_cmp(other),
            (EcParameters::SpecifiedCurve(value), EcParameters::SpecifiedCurve(other)) =>
                value.der_cmp(other),
            _ => cmp_headers(self, other),
        }
    }
}

impl<'a> Choosing for EcParameters<'a> {
    ghost choice = { seen_choice tree_of ⟦<EcParameters<'a> as PartialEq>⟧.eq ⟦<Tree<'a> as Choosing>⟧.choice
        (λ v w. elim v as (λ k. ⟦<EcParameters<'a> as PartialEq>⟧.eq k w ≡ ⟦<Tree<'a> as Choosing>⟧.choice.eq (tree_of k) (tree_of w)) [
          | of.NamedCurve x ↦ elim w as (λ k. ⟦<EcParameters<'a> as PartialEq>⟧.eq (of.NamedCurve x) k ≡ ⟦<Tree<'a> as Choosing>⟧.choice.eq (tree_of (of.NamedCurve x)) (tree_of k)) [ of.NamedCurve y ↦ refl | of.ImplicitCurve y ↦ refl | of.SpecifiedCurve y ↦ refl ]
          | of.ImplicitCurve x ↦ elim w as (λ k. ⟦<EcParameters<'a> as PartialEq>⟧.eq (of.ImplicitCurve x) k ≡ ⟦<Tree<'a> as Choosing>⟧.choice.eq (tree_of (of.ImplicitCurve x)) (tree_of k)) [ of.NamedCurve y ↦ refl | of.ImplicitCurve y ↦ refl | of.SpecifiedCurve y ↦ refl ]
          | of.SpecifiedCurve x ↦ elim w as (λ k. ⟦<EcParameters<'a> as PartialEq>⟧.eq (of.SpecifiedCurve x) k ≡ ⟦<Tree<'a> as Choosing>⟧.choice.eq (tree_of (of.SpecifiedCurve x)) (tree_of k)) [ of.NamedCurve y ↦ refl | of.ImplicitCurve y ↦ refl | of.SpecifiedCurve y ↦ refl ]
        ]) };
}

impl<'a> EncodingEq for EcParameters<'a> {
    ghost encoding_eq = { ⟦<EcParameters<'a> as Choosing>⟧.choice.equal };
}

impl<'a> CopyLaws for EcParameters<'a> {
    ghost copies = { copies_of ((same_copies ⟦<EcParameters<'a> as Form>⟧.encoding ⟦<EcParameters<'a> as Form>⟧.comparable ⟦<EcParameters<'a> as Form>⟧.re_reads ⟦<EcParameters<'a> as PartialEq>⟧.eq ec_parameters_eq.laws-law.refl)) };
}

impl<'a> Duplicate for EcParameters<'a> {
    ghost is_copy = { λ v w. w ≡ v };

    ghost takes_memory_to_copy = { false };

    fn duplicate(&self) -> Result<EcParameters<'a>, Error> {
        Ok(copy_of(self))
    }

    ghost copy_encoding = { ⟦<EcParameters<'a> as CopyLaws>⟧.copies.laws.octets_are };

    ghost copy_comparable = { ⟦<EcParameters<'a> as CopyLaws>⟧.copies.laws.comparable_are };

    ghost copy_re_reads = { ⟦<EcParameters<'a> as CopyLaws>⟧.copies.laws.re_reads_are };
}

impl<'a> DuplicateIsEqual for EcParameters<'a> {
    ghost copy_is_equal = { ⟦<EcParameters<'a> as CopyLaws>⟧.copies.laws.equal_are };
}

/// What is read as `ECParameters` is what the grammar page says.
pub fn grammar_of_ec_parameters<'a>()
    ensures { ⟦<EcParameters<'a> as Form>⟧.parse ≡ parse_of ec_parameters }
{}
