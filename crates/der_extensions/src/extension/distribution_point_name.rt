//! DistributionPointName, a CHOICE of 2 alternatives.
//!
//! Made by tools/asn1 from extension.asn1.

ghost use Rattle.std.specs.Prelude.{◌≡◌, false, refl, true};
ghost use Rattle.der_elem.specs.Accepting.{IsTlv};
ghost use Rattle.der_elem.specs.FirstTags.{HasFirstTag};
ghost use Rattle.der_elem.specs.FormatMakers.{mapped_format};
ghost use Rattle.der_elem.specs.KnownTagLaws.{known_either, own_is_known};
ghost use Rattle.der_elem.specs.TaggedLaws.{tlv_tagged};
ghost use Rattle.der_extensions.specs.Extension.DistributionPointName.{tree_of};
ghost use Rattle.der_extensions.specs.Extension.Grammar.{distribution_point_name};
ghost use Rattle.der_extensions.specs.contracts.extension.distribution_point_name.DistributionPointNameEq.TheImpl.Laws as distribution_point_name_eq;
ghost use Rattle.der_extensions.specs.declared.extension.distribution_point_name.DistributionPointName.TheVariants as of;
ghost use Rattle.der_modules.specs.Asn1.{parse_of};
ghost use Rattle.der_modules.specs.MemberLaws.{copies_of, same_copies};
ghost use Rattle.der_modules.specs.Members.{seen_choice};

use crate::extension::general_names::GeneralNames;
use der_elem::{
    Choice, Decode, DecodeField, DerOrd, Duplicate, DuplicateIsEqual, EncodeValue, EncodingEq,
    Form, FormValue, KnownTags, Tagged,
};
use der_fields::{Implicit, OneOf, cmp_headers};
use der_modules::{Choosing, CopyLaws, copy_of};
use der_pkix::name::RelativeDistinguishedName;
use der_tlv::{BackWriter, Error, Length, Source, Tag, Writer};
use std::alloc::Global;
use std::cmp::Ordering;

/// The alternatives, as a tree.
type Tree<'a> = OneOf<Implicit<GeneralNames<'a>, 0>, Implicit<RelativeDistinguishedName<'a>, 1>>;

/// ```text
/// DistributionPointName ::= CHOICE {
///      fullName                [0]     GeneralNames,
///      nameRelativeToCRLIssuer [1]     RelativeDistinguishedName }
/// ```
///
/// Reading refuses a tag that no alternative has (`ErrorKind::TagUnexpected`, 4), and the
/// alternative's faults.
#[derive(Clone, Copy, Debug, PartialEq, Eq)]
pub enum DistributionPointName<'a> {
    /// `fullName`, `[0] GeneralNames`.
    FullName(Implicit<GeneralNames<'a>, 0>),
    /// `nameRelativeToCRLIssuer`, `[1] RelativeDistinguishedName`.
    NameRelativeToCrlIssuer(Implicit<RelativeDistinguishedName<'a>, 1>),
}

impl<'a> Form for DistributionPointName<'a> {
    ghost encoding = { λ v. ⟦<Tree<'a> as Form>⟧.encoding (tree_of v) };

    ghost comparable = { λ v w. ⟦<Tree<'a> as Form>⟧.comparable (tree_of v) (tree_of w) };

    ghost re_reads = { λ v. ⟦<Tree<'a> as Form>⟧.re_reads (tree_of v) };

    ghost accepts = { λ rules v. ⟦<Tree<'a> as Form>⟧.accepts rules (tree_of v) };

    ghost parse = { ⟦<Tree<'a> as Form>⟧.parse };

    ghost tags = { ⟦<Tree<'a> as Form>⟧.tags };

    ghost first_tag_of = { λ v. ⟦<Tree<'a> as Form>⟧.first_tag_of (tree_of v) };

    ghost readable = { λ v. ⟦<Tree<'a> as Form>⟧.readable (tree_of v) };

    ghost TAKES_MEMORY = { ⟦<Tree<'a> as Form>⟧.TAKES_MEMORY };

    ghost FAULTS_FIRST = { ⟦<Tree<'a> as Form>⟧.FAULTS_FIRST };

    ghost parse_of_accepted = { λ rules v. ⟦<Tree<'a> as Form>⟧.parse_of_accepted rules (tree_of v) };

    ghost faults_of_octets = { ⟦<Tree<'a> as Form>⟧.faults_of_octets };

    ghost begins = { λ rules v. ⟦<Tree<'a> as Form>⟧.begins rules (tree_of v) };

    ghost begins_first = { λ rules v. ⟦<Tree<'a> as Form>⟧.begins_first rules (tree_of v) };

    ghost same_length = { λ rules v. ⟦<Tree<'a> as Form>⟧.same_length rules (tree_of v) };

    ghost accepts_encoding = { λ rules v. ⟦<Tree<'a> as Form>⟧.accepts_encoding rules (tree_of v) };

    ghost only_readable = { λ rules v. ⟦<Tree<'a> as Form>⟧.only_readable rules (tree_of v) };

    ghost accepts_comparable = { λ rules v w. ⟦<Tree<'a> as Form>⟧.accepts_comparable rules (tree_of v) (tree_of w) };

    ghost re_reads_memory = { λ v. ⟦<Tree<'a> as Form>⟧.re_reads_memory (tree_of v) };
}

impl<'a> FormValue for DistributionPointName<'a> {
    ghost value = { mapped_format tree_of ⟦<Tree<'a> as FormValue>⟧.value };
}

impl<'a> Tagged for DistributionPointName<'a> {
    ghost tag_of = { λ v. ⟦<Tree<'a> as Tagged>⟧.tag_of (tree_of v) };

    fn tag(&self) -> Tag {
        match self {
            DistributionPointName::FullName(value) => value.tag(),
            DistributionPointName::NameRelativeToCrlIssuer(value) => value.tag(),
        }
    }

    ghost encoding_is = { ⟦<DistributionPointName<'a> as Choosing>⟧.choice.has_tag.encoding_is };

    ghost accepted_is_tlv = { λ rules v b. elim v as (λ k. ⟦<Tree<'a> as Form>⟧.accepts rules (tree_of k) b → IsTlv b) [ of.FullName x ↦ λ a. tlv_tagged _ ⟦<Implicit<GeneralNames<'a>, 0> as FormValue>⟧.value.accepts rules x b a.0 | of.NameRelativeToCrlIssuer x ↦ λ a. tlv_tagged _ ⟦<Implicit<RelativeDistinguishedName<'a>, 1> as FormValue>⟧.value.accepts rules x b a.0 ] };

    ghost own_tag = { ⟦<DistributionPointName<'a> as Choosing>⟧.choice.has_tag.own_tag };

    ghost first_tag_is = { ⟦<DistributionPointName<'a> as Choosing>⟧.choice.has_tag.first_tag_is };

    ghost re_reads_alike = { λ v. elim v as (λ k. ⟦<Tree<'a> as FormValue>⟧.value.re_reads (tree_of k) ≡ true → ⟦<Tree<'a> as Form>⟧.re_reads (tree_of k) ≡ true) [ of.FullName x ↦ λ h. h | of.NameRelativeToCrlIssuer x ↦ λ h. h ] };

    ghost comparable_alike = { λ v w h. tt };
}

impl<'a> Choice for DistributionPointName<'a> {
    fn can_decode(tag: Tag) -> bool
        ensures { result ≡ ⟦<Tree<'a> as Form>⟧.tags tag }
    {
        Tree::<'a>::can_decode(tag)
    }

    ghost has_first_tag = { λ v. elim v as (λ k. HasFirstTag (⟦<Tree<'a> as Form>⟧.first_tag_of (tree_of k))) [ of.FullName x ↦ record { tag = _; is_tag = refl } | of.NameRelativeToCrlIssuer x ↦ record { tag = _; is_tag = refl } ] };
}

impl<'a> KnownTags for DistributionPointName<'a> {
    ghost known_tags = { ⟦<Tree<'a> as KnownTags>⟧.known_tags };

    ghost MAY_BE_ABSENT = { false };

    ghost are_known = { (known_either ⟦<Implicit<GeneralNames<'a>, 0> as KnownTags>⟧.known_tags ⟦<Implicit<RelativeDistinguishedName<'a>, 1> as KnownTags>⟧.known_tags ⟦<Implicit<GeneralNames<'a>, 0> as Form>⟧.tags ⟦<Implicit<RelativeDistinguishedName<'a>, 1> as Form>⟧.tags (own_is_known _) (own_is_known _)) };

    ghost is_there = { λ e v. elim v as (λ k. HasFirstTag (⟦<Tree<'a> as Form>⟧.first_tag_of (tree_of k))) [ of.FullName x ↦ record { tag = _; is_tag = refl } | of.NameRelativeToCrlIssuer x ↦ record { tag = _; is_tag = refl } ] };
}

impl<'a, R: Source<'a>> Decode<'a, R> for DistributionPointName<'a> {
    ghost TAKES_MEMORY = { false };

    const TAKES_MEMORY: bool = false;

    fn decode(alloc: Global, reader: &mut R) -> Result<DistributionPointName<'a>, Error> {
        match Tree::<'a>::decode(alloc, reader) {
            Ok(OneOf::First(value)) => Ok(DistributionPointName::FullName(value)),
            Ok(OneOf::Other(value)) => Ok(DistributionPointName::NameRelativeToCrlIssuer(value)),
            Err(e) => Err(e),
        }
    }

    ghost takes_memory_is = { refl };
}

impl<'a, R: Source<'a>> DecodeField<'a, R> for DistributionPointName<'a> {
    ghost TAKES_MEMORY = { false };

    const TAKES_MEMORY: bool = false;

    fn decode_field(alloc: Global, reader: &mut R) -> Result<DistributionPointName<'a>, Error> {
        DistributionPointName::decode(alloc, reader)
    }

    ghost takes_memory_is = { refl };
}

impl<'a> EncodeValue for DistributionPointName<'a> {
    fn value_len(&self) -> Result<Length, Error> {
        match self {
            DistributionPointName::FullName(value) => value.value_len(),
            DistributionPointName::NameRelativeToCrlIssuer(value) => value.value_len(),
        }
    }

    fn encode_value<W: Writer>(&self, writer: &mut W) -> Result<(), Error> {
        match self {
            DistributionPointName::FullName(value) => value.encode_value(writer),
            DistributionPointName::NameRelativeToCrlIssuer(value) => value.encode_value(writer),
        }
    }

    fn encode_value_back<W: BackWriter>(&self, writer: &mut W) -> Result<(), Error> {
        match self {
            DistributionPointName::FullName(value) => value.encode_value_back(writer),
            DistributionPointName::NameRelativeToCrlIssuer(value) => value.encode_value_back(
                writer,
            ),
        }
    }
}

impl<'a> DerOrd for DistributionPointName<'a> {
    fn der_cmp(&self, other: &DistributionPointName<'a>) -> Result<Ordering, Error> {
        match (self, other) {
            (DistributionPointName::FullName(value), DistributionPointName::FullName(other)) =>
                value.der_cmp(other),
            (
                DistributionPointName::NameRelativeToCrlIssuer(value),
                DistributionPointName::NameRelativeToCrlIssuer(other),
            ) => value.der_cmp(other),
            _ => cmp_headers(self, other),
        }
    }
}

impl<'a> Choosing for DistributionPointName<'a> {
    ghost choice = { seen_choice tree_of ⟦<DistributionPointName<'a> as PartialEq>⟧.eq ⟦<Tree<'a> as Choosing>⟧.choice
        (λ v w. elim v as (λ k. ⟦<DistributionPointName<'a> as PartialEq>⟧.eq k w ≡ ⟦<Tree<'a> as Choosing>⟧.choice.eq (tree_of k) (tree_of w)) [
          | of.FullName x ↦ elim w as (λ k. ⟦<DistributionPointName<'a> as PartialEq>⟧.eq (of.FullName x) k ≡ ⟦<Tree<'a> as Choosing>⟧.choice.eq (tree_of (of.FullName x)) (tree_of k)) [ of.FullName y ↦ refl | of.NameRelativeToCrlIssuer y ↦ refl ]
          | of.NameRelativeToCrlIssuer x ↦ elim w as (λ k. ⟦<DistributionPointName<'a> as PartialEq>⟧.eq (of.NameRelativeToCrlIssuer x) k ≡ ⟦<Tree<'a> as Choosing>⟧.choice.eq (tree_of (of.NameRelativeToCrlIssuer x)) (tree_of k)) [ of.FullName y ↦ refl | of.NameRelativeToCrlIssuer y ↦ refl ]
        ]) };
}

impl<'a> EncodingEq for DistributionPointName<'a> {
    ghost encoding_eq = { ⟦<DistributionPointName<'a> as Choosing>⟧.choice.equal };
}

impl<'a> CopyLaws for DistributionPointName<'a> {
    ghost copies = { copies_of ((same_copies ⟦<DistributionPointName<'a> as Form>⟧.encoding ⟦<DistributionPointName<'a> as Form>⟧.comparable ⟦<DistributionPointName<'a> as Form>⟧.re_reads ⟦<DistributionPointName<'a> as PartialEq>⟧.eq distribution_point_name_eq.laws-law.refl)) };
}

impl<'a> Duplicate for DistributionPointName<'a> {
    ghost is_copy = { λ v w. w ≡ v };

    ghost takes_memory_to_copy = { false };

    fn duplicate(&self) -> Result<DistributionPointName<'a>, Error> {
        Ok(copy_of(self))
    }

    ghost copy_encoding = { ⟦<DistributionPointName<'a> as CopyLaws>⟧.copies.laws.octets_are };

    ghost copy_comparable = { ⟦<DistributionPointName<'a> as CopyLaws>⟧.copies.laws.comparable_are };

    ghost copy_re_reads = { ⟦<DistributionPointName<'a> as CopyLaws>⟧.copies.laws.re_reads_are };
}

impl<'a> DuplicateIsEqual for DistributionPointName<'a> {
    ghost copy_is_equal = { ⟦<DistributionPointName<'a> as CopyLaws>⟧.copies.laws.equal_are };
}

/// What is read as `DistributionPointName` is what the grammar page says.
pub fn grammar_of_distribution_point_name<'a>()
    ensures { ⟦<DistributionPointName<'a> as Form>⟧.parse ≡ parse_of distribution_point_name }
{}
