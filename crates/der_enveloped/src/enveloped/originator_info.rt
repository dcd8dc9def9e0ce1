//! OriginatorInfo, a SEQUENCE of 2 fields.
//!
//! Made by tools/asn1 from enveloped.asn1.

ghost use Rattle.std.specs.Prelude.{◌∷◌, ◌≡◌, [], false, refl, true};
ghost use Rattle.der_elem.specs.FormatMakers.{mapped_format};
ghost use Rattle.der_enveloped.specs.Enveloped.Grammar.{originator_info};
ghost use Rattle.der_enveloped.specs.Enveloped.OriginatorInfo as originator_info_fields;
ghost use Rattle.der_enveloped.specs.declared.enveloped.originator_info.OriginatorInfo.{OriginatorInfo};
ghost use Rattle.der_modules.specs.Asn1.{context, implicit_encoding, joined, optional, parse_of};
ghost use Rattle.der_modules.specs.Members.{no_fields, optional_field, struct_member};

use der_cms::cms::{CertificateSet, RevocationInfoChoices};
use der_elem::{
    ContentsEq, CopyIsDuplicate, DecodeValue, EncodeValue, Form, FormValue, OneTag, Sequence,
    SequenceTag, TagMarker, ValueOrd,
};
use der_fields::{DecodeFields, EncodeFields, FieldList, Fields2, FieldsOrd, Implicit};
use der_modules::{Member, copy_of, field_list, if_present};
use der_tlv::{BackWriter, Error, Header, Length, Source, Writer};
use std::alloc::Global;
use std::cmp::Ordering;
use std::fmt;

/// The list of the fields.
type Fields<'a> = Fields2<
    Option<Implicit<CertificateSet<'a>, 0>>,
    Option<Implicit<RevocationInfoChoices<'a>, 1>>,
>;

/// ```text
/// OriginatorInfo ::= SEQUENCE {
///      certs  [0] IMPLICIT CertificateSet OPTIONAL,
///      crls   [1] IMPLICIT RevocationInfoChoices OPTIONAL }
/// ```
///
/// Reading refuses the first fault of the octets, in their order.
#[derive(Clone, Copy, PartialEq, Eq)]
pub struct OriginatorInfo<'a> {
    fields: Fields<'a>,
}

impl<'a> OriginatorInfo<'a> {
    ghost use Rattle.der_enveloped.specs.Enveloped.OriginatorInfo as originator_info_fields;
    ghost use Rattle.std.specs.Prelude.{option_copied};

    /// A value of these fields.
    pub fn new(
        certs: Option<&CertificateSet<'a>>,
        crls: Option<&RevocationInfoChoices<'a>>,
    ) -> OriginatorInfo<'a>
        ensures certs { originator_info_fields.certs result ≡ option_copied certs.entry }
        ensures crls { originator_info_fields.crls result ≡ option_copied crls.entry }
    {
        let list = field_list![
            if_present!(value in certs => Implicit { value: copy_of(value) }),
            if_present!(value in crls => Implicit { value: copy_of(value) })
        ];
        let fields = Fields2 { list };
        OriginatorInfo { fields }
    }

    /// `certs`, `[0] IMPLICIT CertificateSet OPTIONAL`.
    pub fn certs(&self) -> Option<&CertificateSet<'a>>
        ensures { option_copied result ≡ originator_info_fields.certs self.now }
    {
        if_present!(value in &self.fields.list.first => &value.value)
    }

    /// `crls`, `[1] IMPLICIT RevocationInfoChoices OPTIONAL`.
    pub fn crls(&self) -> Option<&RevocationInfoChoices<'a>>
        ensures { option_copied result ≡ originator_info_fields.crls self.now }
    {
        if_present!(value in &self.fields.list.rest.first => &value.value)
    }
}

impl<'a> fmt::Debug for OriginatorInfo<'a> {
    fn fmt<W: fmt::Write>(&self, f: &mut fmt::Formatter<W>) -> fmt::Result {
        f.debug_struct("OriginatorInfo")
            .field("certs", &self.certs())
            .field("crls", &self.crls())
            .finish()
    }
}

impl<'a> OneTag for OriginatorInfo<'a> {
    type Marker = SequenceTag;
}

impl<'a> Sequence<'a> for OriginatorInfo<'a> {
    ghost is_sequence = { refl };
}

impl<'a> FormValue for OriginatorInfo<'a> {
    ghost value = { mapped_format (λ v. v.fields) ⟦<Fields<'a> as FieldList>⟧.list.octets };
}

impl<'a, R: Source<'a>> DecodeValue<'a, R> for OriginatorInfo<'a> {
    ghost TAKES_MEMORY = { false };

    const TAKES_MEMORY: bool = false;

    fn decode_value(
        alloc: Global,
        reader: &mut R,
        _header: Header,
    ) -> Result<OriginatorInfo<'a>, Error> {
        match Fields::<'a>::decode_fields(alloc, reader) {
            Ok(fields) => Ok(OriginatorInfo { fields }),
            Err(e) => Err(e),
        }
    }

    ghost takes_memory_is = { refl };
}

impl<'a> EncodeValue for OriginatorInfo<'a> {
    fn value_len(&self) -> Result<Length, Error> {
        self.fields.fields_len()
    }

    fn encode_value<W: Writer>(&self, writer: &mut W) -> Result<(), Error> {
        self.fields.encode_fields(writer)
    }

    fn encode_value_back<W: BackWriter>(&self, writer: &mut W) -> Result<(), Error> {
        self.fields.encode_fields_back(writer)
    }
}

impl<'a> ValueOrd for OriginatorInfo<'a> {
    fn value_cmp(&self, other: &OriginatorInfo<'a>) -> Result<Ordering, Error> {
        self.fields.cmp_fields(&other.fields)
    }
}

impl<'a> Member for OriginatorInfo<'a> {
    ghost member = { struct_member ⟦<SequenceTag as TagMarker>⟧.TAG (λ v. v.fields.list)
        (optional_field ⟦<Implicit<CertificateSet<'a>, 0> as Member>⟧.member
        (optional_field ⟦<Implicit<RevocationInfoChoices<'a>, 1> as Member>⟧.member
        no_fields)) };
}

impl<'a> ContentsEq for OriginatorInfo<'a> {
    ghost contents_eq = { ⟦<OriginatorInfo<'a> as Member>⟧.member.equal };
}

impl<'a> CopyIsDuplicate for OriginatorInfo<'a> {}

/// What is read as `OriginatorInfo` is what the grammar page says.
pub fn grammar_of_originator_info<'a>()
    ensures { ⟦<OriginatorInfo<'a> as Form>⟧.parse ≡ parse_of originator_info }
{}

/// The contents octets of `OriginatorInfo` are the encodings of its fields, one after another.
#[tactic(auto, using(der_modules::specs::Asn1::optional_of))]
pub fn octets_of_originator_info<'a>()
    ensures { (v : OriginatorInfo) → ⟦<OriginatorInfo<'a> as FormValue>⟧.value.contents v ≡ joined (
        optional (λ x. (implicit_encoding context true 0 (⟦<CertificateSet<'a> as FormValue>⟧.value.contents x))) (originator_info_fields.certs v)
        ∷ optional (λ x. (implicit_encoding context true 1 (⟦<RevocationInfoChoices<'a> as FormValue>⟧.value.contents x))) (originator_info_fields.crls v)
        ∷ []) }
{}
