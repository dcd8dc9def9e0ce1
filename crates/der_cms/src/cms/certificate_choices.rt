//! CertificateChoices, a CHOICE of 5 alternatives.
//!
//! Made by tools/asn1 from cms.asn1.

ghost use Rattle.std.specs.Prelude.{◌≡◌, false, refl, true};
ghost use Rattle.der_cms.specs.Cms.CertificateChoices.{tree_of};
ghost use Rattle.der_cms.specs.Cms.Grammar.{certificate_choices};
ghost use Rattle.der_cms.specs.contracts.cms.certificate_choices.CertificateChoicesEq.TheImpl.Laws as certificate_choices_eq;
ghost use Rattle.der_cms.specs.declared.cms.certificate_choices.CertificateChoices.TheVariants as of;
ghost use Rattle.der_elem.specs.Accepting.{IsTlv};
ghost use Rattle.der_elem.specs.FirstTags.{HasFirstTag};
ghost use Rattle.der_elem.specs.FormatMakers.{mapped_format};
ghost use Rattle.der_elem.specs.KnownTagLaws.{known_either, own_is_known};
ghost use Rattle.der_elem.specs.TaggedLaws.{tlv_tagged};
ghost use Rattle.der_modules.specs.Asn1.{parse_of};
ghost use Rattle.der_modules.specs.MemberLaws.{copies_of, same_copies};
ghost use Rattle.der_modules.specs.Members.{seen_choice};

use crate::cms::aliases::OtherCertificateFormat;
use der_elem::{
    Choice, Decode, DecodeField, DerOrd, Duplicate, DuplicateIsEqual, EncodeValue, EncodingEq,
    Form, FormValue, KnownTags, Tagged,
};
use der_fields::{Implicit, OneOf, cmp_headers};
use der_modules::{Choosing, CopyLaws, copy_of};
use der_nest::SequenceRef;
use der_pkix::certificate::Certificate;
use der_tlv::{BackWriter, Error, Length, Source, Tag, Writer};
use std::alloc::Global;
use std::cmp::Ordering;

/// The alternatives, as a tree.
type Tree<'a> = OneOf<
    OneOf<OneOf<Certificate<'a>, Implicit<SequenceRef<'a>, 0>>, Implicit<SequenceRef<'a>, 1>>,
    OneOf<Implicit<SequenceRef<'a>, 2>, Implicit<OtherCertificateFormat<'a>, 3>>,
>;

/// ```text
/// CertificateChoices ::= CHOICE {
///      certificate              Certificate,
///      extendedCertificate  [0] IMPLICIT ExtendedCertificate,
///      v1AttrCert           [1] IMPLICIT AttributeCertificateV1,
///      v2AttrCert           [2] IMPLICIT AttributeCertificateV2,
///      other                [3] IMPLICIT OtherCertificateFormat }
/// ```
///
/// Reading refuses a tag that no alternative has (`ErrorKind::TagUnexpected`, 4), and the
/// alternative's faults.
#[derive(Clone, Copy, Debug, PartialEq, Eq)]
pub enum CertificateChoices<'a> {
    /// `certificate`, `Certificate`.
    Certificate(Certificate<'a>),
    /// `extendedCertificate`, `[0] IMPLICIT ExtendedCertificate`.
    ExtendedCertificate(Implicit<SequenceRef<'a>, 0>),
    /// `v1AttrCert`, `[1] IMPLICIT AttributeCertificateV1`.
    V1AttrCert(Implicit<SequenceRef<'a>, 1>),
    /// `v2AttrCert`, `[2] IMPLICIT AttributeCertificateV2`.
    V2AttrCert(Implicit<SequenceRef<'a>, 2>),
    /// `other`, `[3] IMPLICIT OtherCertificateFormat`.
    Other(Implicit<OtherCertificateFormat<'a>, 3>),
}

impl<'a> Form for CertificateChoices<'a> {
    ghost encoding = { λ v. ⟦<Tree<'a> as Form>⟧.encoding (tree_of v) };

    ghost comparable = { λ v w. ⟦<Tree<'a> as Form>⟧.comparable (tree_of v) (tree_of w) };

    ghost re_reads = { λ v. ⟦<Tree<'a> as Form>⟧.re_reads (tree_of v) };

    ghost accepts = { λ rules v. ⟦<Tree<'a> as Form>⟧.accepts rules (tree_of v) };

    ghost parse = { ⟦<Tree<'a> as Form>⟧.parse };

    ghost tags = { ⟦<Tree<'a> as Form>⟧.tags };

    ghost first_tag_of = { λ v. ⟦<Tree<'a> as Form>⟧.first_tag_of (tree_of v) };

    ghost readable = { λ v. ⟦<Tree<'a> as Form>⟧.readable (tree_of v) };

    ghost TAKES_MEMORY = { ⟦<Tree<'a> as Form>⟧.TAKES_MEMORY };

    ghost FAULTS_FIRST = { ⟦<Tree<'a> as Form>⟧.FAULTS_FIRST };

    ghost parse_of_accepted = { λ rules v. ⟦<Tree<'a> as Form>⟧.parse_of_accepted rules (tree_of v) };

    ghost faults_of_octets = { ⟦<Tree<'a> as Form>⟧.faults_of_octets };

    ghost begins = { λ rules v. ⟦<Tree<'a> as Form>⟧.begins rules (tree_of v) };

    ghost begins_first = { λ rules v. ⟦<Tree<'a> as Form>⟧.begins_first rules (tree_of v) };

    ghost same_length = { λ rules v. ⟦<Tree<'a> as Form>⟧.same_length rules (tree_of v) };

    ghost accepts_encoding = { λ rules v. ⟦<Tree<'a> as Form>⟧.accepts_encoding rules (tree_of v) };

    ghost only_readable = { λ rules v. ⟦<Tree<'a> as Form>⟧.only_readable rules (tree_of v) };

    ghost accepts_comparable = { λ rules v w. ⟦<Tree<'a> as Form>⟧.accepts_comparable rules (tree_of v) (tree_of w) };

    ghost re_reads_memory = { λ v. ⟦<Tree<'a> as Form>⟧.re_reads_memory (tree_of v) };
}

impl<'a> FormValue for CertificateChoices<'a> {
    ghost value = { mapped_format tree_of ⟦<Tree<'a> as FormValue>⟧.value };
}

impl<'a> Tagged for CertificateChoices<'a> {
    ghost tag_of = { λ v. ⟦<Tree<'a> as Tagged>⟧.tag_of (tree_of v) };

    fn tag(&self) -> Tag {
        match self {
            CertificateChoices::Certificate(value) => value.tag(),
            CertificateChoices::ExtendedCertificate(value) => value.tag(),
            CertificateChoices::V1AttrCert(value) => value.tag(),
            CertificateChoices::V2AttrCert(value) => value.tag(),
            CertificateChoices::Other(value) => value.tag(),
        }
    }

    ghost encoding_is = { ⟦<CertificateChoices<'a> as Choosing>⟧.choice.has_tag.encoding_is };

    ghost accepted_is_tlv = { λ rules v b. elim v as (λ k. ⟦<Tree<'a> as Form>⟧.accepts rules (tree_of k) b → IsTlv b) [ of.Certificate x ↦ λ a. tlv_tagged _ ⟦<Certificate<'a> as FormValue>⟧.value.accepts rules x b a.0.0.0 | of.ExtendedCertificate x ↦ λ a. tlv_tagged _ ⟦<Implicit<SequenceRef<'a>, 0> as FormValue>⟧.value.accepts rules x b a.0.0.0 | of.V1AttrCert x ↦ λ a. tlv_tagged _ ⟦<Implicit<SequenceRef<'a>, 1> as FormValue>⟧.value.accepts rules x b a.0.0 | of.V2AttrCert x ↦ λ a. tlv_tagged _ ⟦<Implicit<SequenceRef<'a>, 2> as FormValue>⟧.value.accepts rules x b a.0.0 | of.Other x ↦ λ a. tlv_tagged _ ⟦<Implicit<OtherCertificateFormat<'a>, 3> as FormValue>⟧.value.accepts rules x b a.0.0 ] };

    ghost own_tag = { ⟦<CertificateChoices<'a> as Choosing>⟧.choice.has_tag.own_tag };

    ghost first_tag_is = { ⟦<CertificateChoices<'a> as Choosing>⟧.choice.has_tag.first_tag_is };

    ghost re_reads_alike = { λ v. elim v as (λ k. ⟦<Tree<'a> as FormValue>⟧.value.re_reads (tree_of k) ≡ true → ⟦<Tree<'a> as Form>⟧.re_reads (tree_of k) ≡ true) [ of.Certificate x ↦ λ h. h | of.ExtendedCertificate x ↦ λ h. h | of.V1AttrCert x ↦ λ h. h | of.V2AttrCert x ↦ λ h. h | of.Other x ↦ λ h. h ] };

    ghost comparable_alike = { λ v w h. tt };
}

impl<'a> Choice for CertificateChoices<'a> {
    fn can_decode(tag: Tag) -> bool
        ensures { result ≡ ⟦<Tree<'a> as Form>⟧.tags tag }
    {
        Tree::<'a>::can_decode(tag)
    }

    ghost has_first_tag = { λ v. elim v as (λ k. HasFirstTag (⟦<Tree<'a> as Form>⟧.first_tag_of (tree_of k))) [ of.Certificate x ↦ record { tag = _; is_tag = refl } | of.ExtendedCertificate x ↦ record { tag = _; is_tag = refl } | of.V1AttrCert x ↦ record { tag = _; is_tag = refl } | of.V2AttrCert x ↦ record { tag = _; is_tag = refl } | of.Other x ↦ record { tag = _; is_tag = refl } ] };
}

impl<'a> KnownTags for CertificateChoices<'a> {
    ghost known_tags = { ⟦<Tree<'a> as KnownTags>⟧.known_tags };

    ghost MAY_BE_ABSENT = { false };

    ghost are_known = { (known_either ⟦<OneOf<OneOf<Certificate<'a>, Implicit<SequenceRef<'a>, 0>>, Implicit<SequenceRef<'a>, 1>> as KnownTags>⟧.known_tags ⟦<OneOf<Implicit<SequenceRef<'a>, 2>, Implicit<OtherCertificateFormat<'a>, 3>> as KnownTags>⟧.known_tags ⟦<OneOf<OneOf<Certificate<'a>, Implicit<SequenceRef<'a>, 0>>, Implicit<SequenceRef<'a>, 1>> as Form>⟧.tags ⟦<OneOf<Implicit<SequenceRef<'a>, 2>, Implicit<OtherCertificateFormat<'a>, 3>> as Form>⟧.tags (known_either ⟦<OneOf<Certificate<'a>, Implicit<SequenceRef<'a>, 0>> as KnownTags>⟧.known_tags ⟦<Implicit<SequenceRef<'a>, 1> as KnownTags>⟧.known_tags ⟦<OneOf<Certificate<'a>, Implicit<SequenceRef<'a>, 0>> as Form>⟧.tags ⟦<Implicit<SequenceRef<'a>, 1> as Form>⟧.tags (known_either ⟦<Certificate<'a> as KnownTags>⟧.known_tags ⟦<Implicit<SequenceRef<'a>, 0> as KnownTags>⟧.known_tags ⟦<Certificate<'a> as Form>⟧.tags ⟦<Implicit<SequenceRef<'a>, 0> as Form>⟧.tags (own_is_known _) (own_is_known _)) (own_is_known _)) (known_either ⟦<Implicit<SequenceRef<'a>, 2> as KnownTags>⟧.known_tags ⟦<Implicit<OtherCertificateFormat<'a>, 3> as KnownTags>⟧.known_tags ⟦<Implicit<SequenceRef<'a>, 2> as Form>⟧.tags ⟦<Implicit<OtherCertificateFormat<'a>, 3> as Form>⟧.tags (own_is_known _) (own_is_known _))) };

    ghost is_there = { λ e v. elim v as (λ k. HasFirstTag (⟦<Tree<'a> as Form>⟧.first_tag_of (tree_of k))) [ of.Certificate x ↦ record { tag = _; is_tag = refl } | of.ExtendedCertificate x ↦ record { tag = _; is_tag = refl } | of.V1AttrCert x ↦ record { tag = _; is_tag = refl } | of.V2AttrCert x ↦ record { tag = _; is_tag = refl } | of.Other x ↦ record { tag = _; is_tag = refl } ] };
}

impl<'a, R: Source<'a>> Decode<'a, R> for CertificateChoices<'a> {
    ghost TAKES_MEMORY = { false };

    const TAKES_MEMORY: bool = false;

    fn decode(alloc: Global, reader: &mut R) -> Result<CertificateChoices<'a>, Error> {
        match Tree::<'a>::decode(alloc, reader) {
            Ok(OneOf::First(OneOf::First(OneOf::First(value)))) => Ok(
                CertificateChoices::Certificate(value),
            ),
            Ok(OneOf::First(OneOf::First(OneOf::Other(value)))) => Ok(
                CertificateChoices::ExtendedCertificate(value),
            ),
            Ok(OneOf::First(OneOf::Other(value))) => Ok(CertificateChoices::V1AttrCert(value)),
            Ok(OneOf::Other(OneOf::First(value))) => Ok(CertificateChoices::V2AttrCert(value)),
            Ok(OneOf::Other(OneOf::Other(value))) => Ok(CertificateChoices::Other(value)),
            Err(e) => Err(e),
        }
    }

    ghost takes_memory_is = { refl };
}

impl<'a, R: Source<'a>> DecodeField<'a, R> for CertificateChoices<'a> {
    ghost TAKES_MEMORY = { false };

    const TAKES_MEMORY: bool = false;

    fn decode_field(alloc: Global, reader: &mut R) -> Result<CertificateChoices<'a>, Error> {
        CertificateChoices::decode(alloc, reader)
    }

    ghost takes_memory_is = { refl };
}

impl<'a> EncodeValue for CertificateChoices<'a> {
    fn value_len(&self) -> Result<Length, Error> {
        match self {
            CertificateChoices::Certificate(value) => value.value_len(),
            CertificateChoices::ExtendedCertificate(value) => value.value_len(),
            CertificateChoices::V1AttrCert(value) => value.value_len(),
            CertificateChoices::V2AttrCert(value) => value.value_len(),
            CertificateChoices::Other(value) => value.value_len(),
        }
    }

    fn encode_value<W: Writer>(&self, writer: &mut W) -> Result<(), Error> {
        match self {
            CertificateChoices::Certificate(value) => value.encode_value(writer),
            CertificateChoices::ExtendedCertificate(value) => value.encode_value(writer),
            CertificateChoices::V1AttrCert(value) => value.encode_value(writer),
            CertificateChoices::V2AttrCert(value) => value.encode_value(writer),
            CertificateChoices::Other(value) => value.encode_value(writer),
        }
    }

    fn encode_value_back<W: BackWriter>(&self, writer: &mut W) -> Result<(), Error> {
        match self {
            CertificateChoices::Certificate(value) => value.encode_value_back(writer),
            CertificateChoices::ExtendedCertificate(value) => value.encode_value_back(writer),
            CertificateChoices::V1AttrCert(value) => value.encode_value_back(writer),
            CertificateChoices::V2AttrCert(value) => value.encode_value_back(writer),
            CertificateChoices::Other(value) => value.encode_value_back(writer),
        }
    }
}

impl<'a> DerOrd for CertificateChoices<'a> {
    fn der_cmp(&self, other: &CertificateChoices<'a>) -> Result<Ordering, Error> {
        match (self, other) {
            (CertificateChoices::Certificate(value), CertificateChoices::Certificate(other)) =>
                value.der_cmp(other),
            (
                CertificateChoices::ExtendedCertificate(value),
                CertificateChoices::ExtendedCertificate(other),
            ) => value.der_cmp(other),
            (CertificateChoices::V1AttrCert(value), CertificateChoices::V1AttrCert(other)) =>
                value.der_cmp(other),
            (CertificateChoices::V2AttrCert(value), CertificateChoices::V2AttrCert(other)) =>
                value.der_cmp(other),
            (CertificateChoices::Other(value), CertificateChoices::Other(other)) => value.der_cmp(
                other,
            ),
            _ => cmp_headers(self, other),
        }
    }
}

impl<'a> Choosing for CertificateChoices<'a> {
    ghost choice = { seen_choice tree_of ⟦<CertificateChoices<'a> as PartialEq>⟧.eq ⟦<Tree<'a> as Choosing>⟧.choice
        (λ v w. elim v as (λ k. ⟦<CertificateChoices<'a> as PartialEq>⟧.eq k w ≡ ⟦<Tree<'a> as Choosing>⟧.choice.eq (tree_of k) (tree_of w)) [
          | of.Certificate x ↦ elim w as (λ k. ⟦<CertificateChoices<'a> as PartialEq>⟧.eq (of.Certificate x) k ≡ ⟦<Tree<'a> as Choosing>⟧.choice.eq (tree_of (of.Certificate x)) (tree_of k)) [ of.Certificate y ↦ refl | of.ExtendedCertificate y ↦ refl | of.V1AttrCert y ↦ refl | of.V2AttrCert y ↦ refl | of.Other y ↦ refl ]
          | of.ExtendedCertificate x ↦ elim w as (λ k. ⟦<CertificateChoices<'a> as PartialEq>⟧.eq (of.ExtendedCertificate x) k ≡ ⟦<Tree<'a> as Choosing>⟧.choice.eq (tree_of (of.ExtendedCertificate x)) (tree_of k)) [ of.Certificate y ↦ refl | of.ExtendedCertificate y ↦ refl | of.V1AttrCert y ↦ refl | of.V2AttrCert y ↦ refl | of.Other y ↦ refl ]
          | of.V1AttrCert x ↦ elim w as (λ k. ⟦<CertificateChoices<'a> as PartialEq>⟧.eq (of.V1AttrCert x) k ≡ ⟦<Tree<'a> as Choosing>⟧.choice.eq (tree_of (of.V1AttrCert x)) (tree_of k)) [ of.Certificate y ↦ refl | of.ExtendedCertificate y ↦ refl | of.V1AttrCert y ↦ refl | of.V2AttrCert y ↦ refl | of.Other y ↦ refl ]
          | of.V2AttrCert x ↦ elim w as (λ k. ⟦<CertificateChoices<'a> as PartialEq>⟧.eq (of.V2AttrCert x) k ≡ ⟦<Tree<'a> as Choosing>⟧.choice.eq (tree_of (of.V2AttrCert x)) (tree_of k)) [ of.Certificate y ↦ refl | of.ExtendedCertificate y ↦ refl | of.V1AttrCert y ↦ refl | of.V2AttrCert y ↦ refl | of.Other y ↦ refl ]
          | of.Other x ↦ elim w as (λ k. ⟦<CertificateChoices<'a> as PartialEq>⟧.eq (of.Other x) k ≡ ⟦<Tree<'a> as Choosing>⟧.choice.eq (tree_of (of.Other x)) (tree_of k)) [ of.Certificate y ↦ refl | of.ExtendedCertificate y ↦ refl | of.V1AttrCert y ↦ refl | of.V2AttrCert y ↦ refl | of.Other y ↦ refl ]
        ]) };
}

impl<'a> EncodingEq for CertificateChoices<'a> {
    ghost encoding_eq = { ⟦<CertificateChoices<'a> as Choosing>⟧.choice.equal };
}

impl<'a> CopyLaws for CertificateChoices<'a> {
    ghost copies = { copies_of ((same_copies ⟦<CertificateChoices<'a> as Form>⟧.encoding ⟦<CertificateChoices<'a> as Form>⟧.comparable ⟦<CertificateChoices<'a> as Form>⟧.re_reads ⟦<CertificateChoices<'a> as PartialEq>⟧.eq certificate_choices_eq.laws-law.refl)) };
}

impl<'a> Duplicate for CertificateChoices<'a> {
    ghost is_copy = { λ v w. w ≡ v };

    ghost takes_memory_to_copy = { false };

    fn duplicate(&self) -> Result<CertificateChoices<'a>, Error> {
        Ok(copy_of(self))
    }

    ghost copy_encoding = { ⟦<CertificateChoices<'a> as CopyLaws>⟧.copies.laws.octets_are };

    ghost copy_comparable = { ⟦<CertificateChoices<'a> as CopyLaws>⟧.copies.laws.comparable_are };

    ghost copy_re_reads = { ⟦<CertificateChoices<'a> as CopyLaws>⟧.copies.laws.re_reads_are };
}

impl<'a> DuplicateIsEqual for CertificateChoices<'a> {
    ghost copy_is_equal = { ⟦<CertificateChoices<'a> as CopyLaws>⟧.copies.laws.equal_are };
}

/// What is read as `CertificateChoices` is what the grammar page says.
pub fn grammar_of_certificate_choices<'a>()
    ensures { ⟦<CertificateChoices<'a> as Form>⟧.parse ≡ parse_of certificate_choices }
{}
