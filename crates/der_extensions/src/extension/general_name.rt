//! GeneralName, a CHOICE of 9 alternatives.
//!
//! Made by tools/asn1 from extension.asn1.

ghost use Rattle.std.specs.Prelude.{◌≡◌, false, refl, true};
ghost use Rattle.der_elem.specs.Accepting.{IsTlv};
ghost use Rattle.der_elem.specs.FirstTags.{HasFirstTag};
ghost use Rattle.der_elem.specs.FormatMakers.{mapped_format};
ghost use Rattle.der_elem.specs.KnownTagLaws.{known_either, own_is_known};
ghost use Rattle.der_elem.specs.TaggedLaws.{tlv_tagged};
ghost use Rattle.der_extensions.specs.Extension.GeneralName.{tree_of};
ghost use Rattle.der_extensions.specs.Extension.Grammar.{general_name};
ghost use Rattle.der_extensions.specs.contracts.extension.general_name.GeneralNameEq.TheImpl.Laws as general_name_eq;
ghost use Rattle.der_extensions.specs.declared.extension.general_name.GeneralName.TheVariants as of;
ghost use Rattle.der_modules.specs.Asn1.{parse_of};
ghost use Rattle.der_modules.specs.MemberLaws.{copies_of, same_copies};
ghost use Rattle.der_modules.specs.Members.{seen_choice};

use crate::extension::another_name::AnotherName;
use der_ascii::Ia5StringRef;
use der_elem::{
    Choice, Decode, DecodeField, DerOrd, Duplicate, DuplicateIsEqual, EncodeValue, EncodingEq,
    Form, FormValue, KnownTags, Tagged,
};
use der_fields::{Explicit, Implicit, OneOf, cmp_headers};
use der_modules::{Choosing, CopyLaws, copy_of};
use der_nest::SequenceRef;
use der_opaque::{ObjectIdentifierRef, OctetStringRef};
use der_pkix::name::Name;
use der_tlv::{BackWriter, Error, Length, Source, Tag, Writer};
use std::alloc::Global;
use std::cmp::Ordering;

/// The alternatives, as a tree.
type Tree<'a> = OneOf<
    OneOf<
        OneOf<
            OneOf<Implicit<AnotherName<'a>, 0>, Implicit<Ia5StringRef<'a>, 1>>,
            Implicit<Ia5StringRef<'a>, 2>,
        >,
        OneOf<Implicit<SequenceRef<'a>, 3>, Explicit<Name<'a>, 4>>,
    >,
    OneOf<
        OneOf<Implicit<SequenceRef<'a>, 5>, Implicit<Ia5StringRef<'a>, 6>>,
        OneOf<Implicit<OctetStringRef<'a>, 7>, Implicit<ObjectIdentifierRef<'a, 39>, 8>>,
    >,
>;

/// ```text
/// GeneralName ::= CHOICE {
///      otherName                 [0]  AnotherName,
///      rfc822Name                [1]  IA5String,
///      dNSName                   [2]  IA5String,
///      x400Address               [3]  ORAddress,
///      directoryName             [4]  Name,
///      ediPartyName              [5]  EDIPartyName,
///      uniformResourceIdentifier [6]  IA5String,
///      iPAddress                 [7]  OCTET STRING,
///      registeredID              [8]  OBJECT IDENTIFIER }
/// ```
///
/// Reading refuses a tag that no alternative has (`ErrorKind::TagUnexpected`, 4), and the
/// alternative's faults.
#[derive(Clone, Copy, Debug, PartialEq, Eq)]
pub enum GeneralName<'a> {
    /// `otherName`, `[0] AnotherName`.
    OtherName(Implicit<AnotherName<'a>, 0>),
    /// `rfc822Name`, `[1] IA5String`.
    Rfc822Name(Implicit<Ia5StringRef<'a>, 1>),
    /// `dNSName`, `[2] IA5String`.
    DnsName(Implicit<Ia5StringRef<'a>, 2>),
    /// `x400Address`, `[3] ORAddress`.
    X400Address(Implicit<SequenceRef<'a>, 3>),
    /// `directoryName`, `[4] Name`.
    DirectoryName(Explicit<Name<'a>, 4>),
    /// `ediPartyName`, `[5] EDIPartyName`.
    EdiPartyName(Implicit<SequenceRef<'a>, 5>),
    /// `uniformResourceIdentifier`, `[6] IA5String`.
    UniformResourceIdentifier(Implicit<Ia5StringRef<'a>, 6>),
    /// `iPAddress`, `[7] OCTET STRING`.
    IpAddress(Implicit<OctetStringRef<'a>, 7>),
    /// `registeredID`, `[8] OBJECT IDENTIFIER`.
    RegisteredId(Implicit<ObjectIdentifierRef<'a, 39>, 8>),
}

impl<'a> Form for GeneralName<'a> {
    ghost encoding = { λ v. ⟦<Tree<'a> as Form>⟧.encoding (tree_of v) };

    ghost comparable = { λ v w. ⟦<Tree<'a> as Form>⟧.comparable (tree_of v) (tree_of w) };

    ghost re_reads = { λ v. ⟦<Tree<'a> as Form>⟧.re_reads (tree_of v) };

    ghost accepts = { λ rules v. ⟦<Tree<'a> as Form>⟧.accepts rules (tree_of v) };

    ghost parse = { ⟦<Tree<'a> as Form>⟧.parse };

    ghost tags = { ⟦<Tree<'a> as Form>⟧.tags };

    ghost first_tag_of = { λ v. ⟦<Tree<'a> as Form>⟧.first_tag_of (tree_of v) };

    ghost readable = { λ v. ⟦<Tree<'a> as Form>⟧.readable (tree_of v) };

    ghost TAKES_MEMORY = { ⟦<Tree<'a> as Form>⟧.TAKES_MEMORY };

    ghost FAULTS_FIRST = { ⟦<Tree<'a> as Form>⟧.FAULTS_FIRST };

    ghost parse_of_accepted = { λ rules v. ⟦<Tree<'a> as Form>⟧.parse_of_accepted rules (tree_of v) };

    ghost faults_of_octets = { ⟦<Tree<'a> as Form>⟧.faults_of_octets };

    ghost begins = { λ rules v. ⟦<Tree<'a> as Form>⟧.begins rules (tree_of v) };

    ghost begins_first = { λ rules v. ⟦<Tree<'a> as Form>⟧.begins_first rules (tree_of v) };

    ghost same_length = { λ rules v. ⟦<Tree<'a> as Form>⟧.same_length rules (tree_of v) };

    ghost accepts_encoding = { λ rules v. ⟦<Tree<'a> as Form>⟧.accepts_encoding rules (tree_of v) };

    ghost only_readable = { λ rules v. ⟦<Tree<'a> as Form>⟧.only_readable rules (tree_of v) };

    ghost accepts_comparable = { λ rules v w. ⟦<Tree<'a> as Form>⟧.accepts_comparable rules (tree_of v) (tree_of w) };

    ghost re_reads_memory = { λ v. ⟦<Tree<'a> as Form>⟧.re_reads_memory (tree_of v) };
}

impl<'a> FormValue for GeneralName<'a> {
    ghost value = { mapped_format tree_of ⟦<Tree<'a> as FormValue>⟧.value };
}

impl<'a> Tagged for GeneralName<'a> {
    ghost tag_of = { λ v. ⟦<Tree<'a> as Tagged>⟧.tag_of (tree_of v) };

    fn tag(&self) -> Tag {
        match self {
            GeneralName::OtherName(value) => value.tag(),
            GeneralName::Rfc822Name(value) => value.tag(),
            GeneralName::DnsName(value) => value.tag(),
            GeneralName::X400Address(value) => value.tag(),
            GeneralName::DirectoryName(value) => value.tag(),
            GeneralName::EdiPartyName(value) => value.tag(),
            GeneralName::UniformResourceIdentifier(value) => value.tag(),
            GeneralName::IpAddress(value) => value.tag(),
            GeneralName::RegisteredId(value) => value.tag(),
        }
    }

    ghost encoding_is = { ⟦<GeneralName<'a> as Choosing>⟧.choice.has_tag.encoding_is };

    ghost accepted_is_tlv = { λ rules v b. elim v as (λ k. ⟦<Tree<'a> as Form>⟧.accepts rules (tree_of k) b → IsTlv b) [ of.OtherName x ↦ λ a. tlv_tagged _ ⟦<Implicit<AnotherName<'a>, 0> as FormValue>⟧.value.accepts rules x b a.0.0.0.0 | of.Rfc822Name x ↦ λ a. tlv_tagged _ ⟦<Implicit<Ia5StringRef<'a>, 1> as FormValue>⟧.value.accepts rules x b a.0.0.0.0 | of.DnsName x ↦ λ a. tlv_tagged _ ⟦<Implicit<Ia5StringRef<'a>, 2> as FormValue>⟧.value.accepts rules x b a.0.0.0 | of.X400Address x ↦ λ a. tlv_tagged _ ⟦<Implicit<SequenceRef<'a>, 3> as FormValue>⟧.value.accepts rules x b a.0.0.0 | of.DirectoryName x ↦ λ a. tlv_tagged _ ⟦<Explicit<Name<'a>, 4> as FormValue>⟧.value.accepts rules x b a.0.0.0 | of.EdiPartyName x ↦ λ a. tlv_tagged _ ⟦<Implicit<SequenceRef<'a>, 5> as FormValue>⟧.value.accepts rules x b a.0.0.0 | of.UniformResourceIdentifier x ↦ λ a. tlv_tagged _ ⟦<Implicit<Ia5StringRef<'a>, 6> as FormValue>⟧.value.accepts rules x b a.0.0.0 | of.IpAddress x ↦ λ a. tlv_tagged _ ⟦<Implicit<OctetStringRef<'a>, 7> as FormValue>⟧.value.accepts rules x b a.0.0.0 | of.RegisteredId x ↦ λ a. tlv_tagged _ ⟦<Implicit<ObjectIdentifierRef<'a, 39>, 8> as FormValue>⟧.value.accepts rules x b a.0.0.0 ] };

    ghost own_tag = { ⟦<GeneralName<'a> as Choosing>⟧.choice.has_tag.own_tag };

    ghost first_tag_is = { ⟦<GeneralName<'a> as Choosing>⟧.choice.has_tag.first_tag_is };

    ghost re_reads_alike = { λ v. elim v as (λ k. ⟦<Tree<'a> as FormValue>⟧.value.re_reads (tree_of k) ≡ true → ⟦<Tree<'a> as Form>⟧.re_reads (tree_of k) ≡ true) [ of.OtherName x ↦ λ h. h | of.Rfc822Name x ↦ λ h. h | of.DnsName x ↦ λ h. h | of.X400Address x ↦ λ h. h | of.DirectoryName x ↦ λ h. h | of.EdiPartyName x ↦ λ h. h | of.UniformResourceIdentifier x ↦ λ h. h | of.IpAddress x ↦ λ h. h | of.RegisteredId x ↦ λ h. h ] };

    ghost comparable_alike = { λ v w h. tt };
}

impl<'a> Choice for GeneralName<'a> {
    fn can_decode(tag: Tag) -> bool
        ensures { result ≡ ⟦<Tree<'a> as Form>⟧.tags tag }
    {
        Tree::<'a>::can_decode(tag)
    }

    ghost has_first_tag = { λ v. elim v as (λ k. HasFirstTag (⟦<Tree<'a> as Form>⟧.first_tag_of (tree_of k))) [ of.OtherName x ↦ record { tag = _; is_tag = refl } | of.Rfc822Name x ↦ record { tag = _; is_tag = refl } | of.DnsName x ↦ record { tag = _; is_tag = refl } | of.X400Address x ↦ record { tag = _; is_tag = refl } | of.DirectoryName x ↦ record { tag = _; is_tag = refl } | of.EdiPartyName x ↦ record { tag = _; is_tag = refl } | of.UniformResourceIdentifier x ↦ record { tag = _; is_tag = refl } | of.IpAddress x ↦ record { tag = _; is_tag = refl } | of.RegisteredId x ↦ record { tag = _; is_tag = refl } ] };
}

impl<'a> KnownTags for GeneralName<'a> {
    ghost known_tags = { ⟦<Tree<'a> as KnownTags>⟧.known_tags };

    ghost MAY_BE_ABSENT = { false };

    ghost are_known = { (known_either ⟦<OneOf<OneOf<OneOf<Implicit<AnotherName<'a>, 0>, Implicit<Ia5StringRef<'a>, 1>>, Implicit<Ia5StringRef<'a>, 2>>, OneOf<Implicit<SequenceRef<'a>, 3>, Explicit<Name<'a>, 4>>> as KnownTags>⟧.known_tags ⟦<OneOf<OneOf<Implicit<SequenceRef<'a>, 5>, Implicit<Ia5StringRef<'a>, 6>>, OneOf<Implicit<OctetStringRef<'a>, 7>, Implicit<ObjectIdentifierRef<'a, 39>, 8>>> as KnownTags>⟧.known_tags ⟦<OneOf<OneOf<OneOf<Implicit<AnotherName<'a>, 0>, Implicit<Ia5StringRef<'a>, 1>>, Implicit<Ia5StringRef<'a>, 2>>, OneOf<Implicit<SequenceRef<'a>, 3>, Explicit<Name<'a>, 4>>> as Form>⟧.tags ⟦<OneOf<OneOf<Implicit<SequenceRef<'a>, 5>, Implicit<Ia5StringRef<'a>, 6>>, OneOf<Implicit<OctetStringRef<'a>, 7>, Implicit<ObjectIdentifierRef<'a, 39>, 8>>> as Form>⟧.tags (known_either ⟦<OneOf<OneOf<Implicit<AnotherName<'a>, 0>, Implicit<Ia5StringRef<'a>, 1>>, Implicit<Ia5StringRef<'a>, 2>> as KnownTags>⟧.known_tags ⟦<OneOf<Implicit<SequenceRef<'a>, 3>, Explicit<Name<'a>, 4>> as KnownTags>⟧.known_tags ⟦<OneOf<OneOf<Implicit<AnotherName<'a>, 0>, Implicit<Ia5StringRef<'a>, 1>>, Implicit<Ia5StringRef<'a>, 2>> as Form>⟧.tags ⟦<OneOf<Implicit<SequenceRef<'a>, 3>, Explicit<Name<'a>, 4>> as Form>⟧.tags (known_either ⟦<OneOf<Implicit<AnotherName<'a>, 0>, Implicit<Ia5StringRef<'a>, 1>> as KnownTags>⟧.known_tags ⟦<Implicit<Ia5StringRef<'a>, 2> as KnownTags>⟧.known_tags ⟦<OneOf<Implicit<AnotherName<'a>, 0>, Implicit<Ia5StringRef<'a>, 1>> as Form>⟧.tags ⟦<Implicit<Ia5StringRef<'a>, 2> as Form>⟧.tags (known_either ⟦<Implicit<AnotherName<'a>, 0> as KnownTags>⟧.known_tags ⟦<Implicit<Ia5StringRef<'a>, 1> as KnownTags>⟧.known_tags ⟦<Implicit<AnotherName<'a>, 0> as Form>⟧.tags ⟦<Implicit<Ia5StringRef<'a>, 1> as Form>⟧.tags (own_is_known _) (own_is_known _)) (own_is_known _)) (known_either ⟦<Implicit<SequenceRef<'a>, 3> as KnownTags>⟧.known_tags ⟦<Explicit<Name<'a>, 4> as KnownTags>⟧.known_tags ⟦<Implicit<SequenceRef<'a>, 3> as Form>⟧.tags ⟦<Explicit<Name<'a>, 4> as Form>⟧.tags (own_is_known _) (own_is_known _))) (known_either ⟦<OneOf<Implicit<SequenceRef<'a>, 5>, Implicit<Ia5StringRef<'a>, 6>> as KnownTags>⟧.known_tags ⟦<OneOf<Implicit<OctetStringRef<'a>, 7>, Implicit<ObjectIdentifierRef<'a, 39>, 8>> as KnownTags>⟧.known_tags ⟦<OneOf<Implicit<SequenceRef<'a>, 5>, Implicit<Ia5StringRef<'a>, 6>> as Form>⟧.tags ⟦<OneOf<Implicit<OctetStringRef<'a>, 7>, Implicit<ObjectIdentifierRef<'a, 39>, 8>> as Form>⟧.tags (known_either ⟦<Implicit<SequenceRef<'a>, 5> as KnownTags>⟧.known_tags ⟦<Implicit<Ia5StringRef<'a>, 6> as KnownTags>⟧.known_tags ⟦<Implicit<SequenceRef<'a>, 5> as Form>⟧.tags ⟦<Implicit<Ia5StringRef<'a>, 6> as Form>⟧.tags (own_is_known _) (own_is_known _)) (known_either ⟦<Implicit<OctetStringRef<'a>, 7> as KnownTags>⟧.known_tags ⟦<Implicit<ObjectIdentifierRef<'a, 39>, 8> as KnownTags>⟧.known_tags ⟦<Implicit<OctetStringRef<'a>, 7> as Form>⟧.tags ⟦<Implicit<ObjectIdentifierRef<'a, 39>, 8> as Form>⟧.tags (own_is_known _) (own_is_known _)))) };

    ghost is_there = { λ e v. elim v as (λ k. HasFirstTag (⟦<Tree<'a> as Form>⟧.first_tag_of (tree_of k))) [ of.OtherName x ↦ record { tag = _; is_tag = refl } | of.Rfc822Name x ↦ record { tag = _; is_tag = refl } | of.DnsName x ↦ record { tag = _; is_tag = refl } | of.X400Address x ↦ record { tag = _; is_tag = refl } | of.DirectoryName x ↦ record { tag = _; is_tag = refl } | of.EdiPartyName x ↦ record { tag = _; is_tag = refl } | of.UniformResourceIdentifier x ↦ record { tag = _; is_tag = refl } | of.IpAddress x ↦ record { tag = _; is_tag = refl } | of.RegisteredId x ↦ record { tag = _; is_tag = refl } ] };
}

impl<'a, R: Source<'a>> Decode<'a, R> for GeneralName<'a> {
    ghost TAKES_MEMORY = { false };

    const TAKES_MEMORY: bool = false;

    fn decode(alloc: Global, reader: &mut R) -> Result<GeneralName<'a>, Error> {
        match Tree::<'a>::decode(alloc, reader) {
            Ok(OneOf::First(OneOf::First(OneOf::First(OneOf::First(value))))) => Ok(
                GeneralName::OtherName(value),
            ),
            Ok(OneOf::First(OneOf::First(OneOf::First(OneOf::Other(value))))) => Ok(
                GeneralName::Rfc822Name(value),
            ),
            Ok(OneOf::First(OneOf::First(OneOf::Other(value)))) => Ok(GeneralName::DnsName(value)),
            Ok(OneOf::First(OneOf::Other(OneOf::First(value)))) => Ok(GeneralName::X400Address(
                value,
            )),
            Ok(OneOf::First(OneOf::Other(OneOf::Other(value)))) => Ok(GeneralName::DirectoryName(
                value,
            )),
            Ok(OneOf::Other(OneOf::First(OneOf::First(value)))) => Ok(GeneralName::EdiPartyName(
                value,
            )),
            Ok(OneOf::Other(OneOf::First(OneOf::Other(value)))) => Ok(
                GeneralName::UniformResourceIdentifier(value),
            ),
            Ok(OneOf::Other(OneOf::Other(OneOf::First(value)))) => Ok(GeneralName::IpAddress(
                value,
            )),
            Ok(OneOf::Other(OneOf::Other(OneOf::Other(value)))) => Ok(GeneralName::RegisteredId(
                value,
            )),
            Err(e) => Err(e),
        }
    }

    ghost takes_memory_is = { refl };
}

impl<'a, R: Source<'a>> DecodeField<'a, R> for GeneralName<'a> {
    ghost TAKES_MEMORY = { false };

    const TAKES_MEMORY: bool = false;

    fn decode_field(alloc: Global, reader: &mut R) -> Result<GeneralName<'a>, Error> {
        GeneralName::decode(alloc, reader)
    }

    ghost takes_memory_is = { refl };
}

impl<'a> EncodeValue for GeneralName<'a> {
    fn value_len(&self) -> Result<Length, Error> {
        match self {
            GeneralName::OtherName(value) => value.value_len(),
            GeneralName::Rfc822Name(value) => value.value_len(),
            GeneralName::DnsName(value) => value.value_len(),
            GeneralName::X400Address(value) => value.value_len(),
            GeneralName::DirectoryName(value) => value.value_len(),
            GeneralName::EdiPartyName(value) => value.value_len(),
            GeneralName::UniformResourceIdentifier(value) => value.value_len(),
            GeneralName::IpAddress(value) => value.value_len(),
            GeneralName::RegisteredId(value) => value.value_len(),
        }
    }

    fn encode_value<W: Writer>(&self, writer: &mut W) -> Result<(), Error> {
        match self {
            GeneralName::OtherName(value) => value.encode_value(writer),
            GeneralName::Rfc822Name(value) => value.encode_value(writer),
            GeneralName::DnsName(value) => value.encode_value(writer),
            GeneralName::X400Address(value) => value.encode_value(writer),
            GeneralName::DirectoryName(value) => value.encode_value(writer),
            GeneralName::EdiPartyName(value) => value.encode_value(writer),
            GeneralName::UniformResourceIdentifier(value) => value.encode_value(writer),
            GeneralName::IpAddress(value) => value.encode_value(writer),
            GeneralName::RegisteredId(value) => value.encode_value(writer),
        }
    }

    fn encode_value_back<W: BackWriter>(&self, writer: &mut W) -> Result<(), Error> {
        match self {
            GeneralName::OtherName(value) => value.encode_value_back(writer),
            GeneralName::Rfc822Name(value) => value.encode_value_back(writer),
            GeneralName::DnsName(value) => value.encode_value_back(writer),
            GeneralName::X400Address(value) => value.encode_value_back(writer),
            GeneralName::DirectoryName(value) => value.encode_value_back(writer),
            GeneralName::EdiPartyName(value) => value.encode_value_back(writer),
            GeneralName::UniformResourceIdentifier(value) => value.encode_value_back(writer),
            GeneralName::IpAddress(value) => value.encode_value_back(writer),
            GeneralName::RegisteredId(value) => value.encode_value_back(writer),
        }
    }
}

impl<'a> DerOrd for GeneralName<'a> {
    fn der_cmp(&self, other: &GeneralName<'a>) -> Result<Ordering, Error> {
        match (self, other) {
            (GeneralName::OtherName(value), GeneralName::OtherName(other)) => value.der_cmp(other),
            (GeneralName::Rfc822Name(value), GeneralName::Rfc822Name(other)) => value.der_cmp(
                other,
            ),
            (GeneralName::DnsName(value), GeneralName::DnsName(other)) => value.der_cmp(other),
            (GeneralName::X400Address(value), GeneralName::X400Address(other)) => value.der_cmp(
                other,
            ),
            (GeneralName::DirectoryName(value), GeneralName::DirectoryName(other)) => value.der_cmp(
                other,
            ),
            (GeneralName::EdiPartyName(value), GeneralName::EdiPartyName(other)) => value.der_cmp(
                other,
            ),
            (
                GeneralName::UniformResourceIdentifier(value),
                GeneralName::UniformResourceIdentifier(other),
            ) => value.der_cmp(other),
            (GeneralName::IpAddress(value), GeneralName::IpAddress(other)) => value.der_cmp(other),
            (GeneralName::RegisteredId(value), GeneralName::RegisteredId(other)) => value.der_cmp(
                other,
            ),
            _ => cmp_headers(self, other),
        }
    }
}

impl<'a> Choosing for GeneralName<'a> {
    ghost choice = { seen_choice tree_of ⟦<GeneralName<'a> as PartialEq>⟧.eq ⟦<Tree<'a> as Choosing>⟧.choice
        (λ v w. elim v as (λ k. ⟦<GeneralName<'a> as PartialEq>⟧.eq k w ≡ ⟦<Tree<'a> as Choosing>⟧.choice.eq (tree_of k) (tree_of w)) [
          | of.OtherName x ↦ elim w as (λ k. ⟦<GeneralName<'a> as PartialEq>⟧.eq (of.OtherName x) k ≡ ⟦<Tree<'a> as Choosing>⟧.choice.eq (tree_of (of.OtherName x)) (tree_of k)) [ of.OtherName y ↦ refl | of.Rfc822Name y ↦ refl | of.DnsName y ↦ refl | of.X400Address y ↦ refl | of.DirectoryName y ↦ refl | of.EdiPartyName y ↦ refl | of.UniformResourceIdentifier y ↦ refl | of.IpAddress y ↦ refl | of.RegisteredId y ↦ refl ]
          | of.Rfc822Name x ↦ elim w as (λ k. ⟦<GeneralName<'a> as PartialEq>⟧.eq (of.Rfc822Name x) k ≡ ⟦<Tree<'a> as Choosing>⟧.choice.eq (tree_of (of.Rfc822Name x)) (tree_of k)) [ of.OtherName y ↦ refl | of.Rfc822Name y ↦ refl | of.DnsName y ↦ refl | of.X400Address y ↦ refl | of.DirectoryName y ↦ refl | of.EdiPartyName y ↦ refl | of.UniformResourceIdentifier y ↦ refl | of.IpAddress y ↦ refl | of.RegisteredId y ↦ refl ]
          | of.DnsName x ↦ elim w as (λ k. ⟦<GeneralName<'a> as PartialEq>⟧.eq (of.DnsName x) k ≡ ⟦<Tree<'a> as Choosing>⟧.choice.eq (tree_of (of.DnsName x)) (tree_of k)) [ of.OtherName y ↦ refl | of.Rfc822Name y ↦ refl | of.DnsName y ↦ refl | of.X400Address y ↦ refl | of.DirectoryName y ↦ refl | of.EdiPartyName y ↦ refl | of.UniformResourceIdentifier y ↦ refl | of.IpAddress y ↦ refl | of.RegisteredId y ↦ refl ]
          | of.X400Address x ↦ elim w as (λ k. ⟦<GeneralName<'a> as PartialEq>⟧.eq (of.X400Address x) k ≡ ⟦<Tree<'a> as Choosing>⟧.choice.eq (tree_of (of.X400Address x)) (tree_of k)) [ of.OtherName y ↦ refl | of.Rfc822Name y ↦ refl | of.DnsName y ↦ refl | of.X400Address y ↦ refl | of.DirectoryName y ↦ refl | of.EdiPartyName y ↦ refl | of.UniformResourceIdentifier y ↦ refl | of.IpAddress y ↦ refl | of.RegisteredId y ↦ refl ]
          | of.DirectoryName x ↦ elim w as (λ k. ⟦<GeneralName<'a> as PartialEq>⟧.eq (of.DirectoryName x) k ≡ ⟦<Tree<'a> as Choosing>⟧.choice.eq (tree_of (of.DirectoryName x)) (tree_of k)) [ of.OtherName y ↦ refl | of.Rfc822Name y ↦ refl | of.DnsName y ↦ refl | of.X400Address y ↦ refl | of.DirectoryName y ↦ refl | of.EdiPartyName y ↦ refl | of.UniformResourceIdentifier y ↦ refl | of.IpAddress y ↦ refl | of.RegisteredId y ↦ refl ]
          | of.EdiPartyName x ↦ elim w as (λ k. ⟦<GeneralName<'a> as PartialEq>⟧.eq (of.EdiPartyName x) k ≡ ⟦<Tree<'a> as Choosing>⟧.choice.eq (tree_of (of.EdiPartyName x)) (tree_of k)) [ of.OtherName y ↦ refl | of.Rfc822Name y ↦ refl | of.DnsName y ↦ refl | of.X400Address y ↦ refl | of.DirectoryName y ↦ refl | of.EdiPartyName y ↦ refl | of.UniformResourceIdentifier y ↦ refl | of.IpAddress y ↦ refl | of.RegisteredId y ↦ refl ]
          | of.UniformResourceIdentifier x ↦ elim w as (λ k. ⟦<GeneralName<'a> as PartialEq>⟧.eq (of.UniformResourceIdentifier x) k ≡ ⟦<Tree<'a> as Choosing>⟧.choice.eq (tree_of (of.UniformResourceIdentifier x)) (tree_of k)) [ of.OtherName y ↦ refl | of.Rfc822Name y ↦ refl | of.DnsName y ↦ refl | of.X400Address y ↦ refl | of.DirectoryName y ↦ refl | of.EdiPartyName y ↦ refl | of.UniformResourceIdentifier y ↦ refl | of.IpAddress y ↦ refl | of.RegisteredId y ↦ refl ]
          | of.IpAddress x ↦ elim w as (λ k. ⟦<GeneralName<'a> as PartialEq>⟧.eq (of.IpAddress x) k ≡ ⟦<Tree<'a> as Choosing>⟧.choice.eq (tree_of (of.IpAddress x)) (tree_of k)) [ of.OtherName y ↦ refl | of.Rfc822Name y ↦ refl | of.DnsName y ↦ refl | of.X400Address y ↦ refl | of.DirectoryName y ↦ refl | of.EdiPartyName y ↦ refl | of.UniformResourceIdentifier y ↦ refl | of.IpAddress y ↦ refl | of.RegisteredId y ↦ refl ]
          | of.RegisteredId x ↦ elim w as (λ k. ⟦<GeneralName<'a> as PartialEq>⟧.eq (of.RegisteredId x) k ≡ ⟦<Tree<'a> as Choosing>⟧.choice.eq (tree_of (of.RegisteredId x)) (tree_of k)) [ of.OtherName y ↦ refl | of.Rfc822Name y ↦ refl | of.DnsName y ↦ refl | of.X400Address y ↦ refl | of.DirectoryName y ↦ refl | of.EdiPartyName y ↦ refl | of.UniformResourceIdentifier y ↦ refl | of.IpAddress y ↦ refl | of.RegisteredId y ↦ refl ]
        ]) };
}

impl<'a> EncodingEq for GeneralName<'a> {
    ghost encoding_eq = { ⟦<GeneralName<'a> as Choosing>⟧.choice.equal };
}

impl<'a> CopyLaws for GeneralName<'a> {
    ghost copies = { copies_of ((same_copies ⟦<GeneralName<'a> as Form>⟧.encoding ⟦<GeneralName<'a> as Form>⟧.comparable ⟦<GeneralName<'a> as Form>⟧.re_reads ⟦<GeneralName<'a> as PartialEq>⟧.eq general_name_eq.laws-law.refl)) };
}

impl<'a> Duplicate for GeneralName<'a> {
    ghost is_copy = { λ v w. w ≡ v };

    ghost takes_memory_to_copy = { false };

    fn duplicate(&self) -> Result<GeneralName<'a>, Error> {
        Ok(copy_of(self))
    }

    ghost copy_encoding = { ⟦<GeneralName<'a> as CopyLaws>⟧.copies.laws.octets_are };

    ghost copy_comparable = { ⟦<GeneralName<'a> as CopyLaws>⟧.copies.laws.comparable_are };

    ghost copy_re_reads = { ⟦<GeneralName<'a> as CopyLaws>⟧.copies.laws.re_reads_are };
}

impl<'a> DuplicateIsEqual for GeneralName<'a> {
    ghost copy_is_equal = { ⟦<GeneralName<'a> as CopyLaws>⟧.copies.laws.equal_are };
}

/// What is read as `GeneralName` is what the grammar page says.
pub fn grammar_of_general_name<'a>()
    ensures { ⟦<GeneralName<'a> as Form>⟧.parse ≡ parse_of general_name }
{}
