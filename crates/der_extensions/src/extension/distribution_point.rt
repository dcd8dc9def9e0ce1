//! DistributionPoint, a SEQUENCE of 3 fields.
//!
//! Made by tools/asn1 from extension.asn1.

ghost use Rattle.std.specs.Prelude.{◌∷◌, ◌≡◌, [], false, refl, true};
ghost use Rattle.der_elem.specs.FormatMakers.{mapped_format};
ghost use Rattle.der_extensions.specs.Extension.DistributionPoint as distribution_point_fields;
ghost use Rattle.der_extensions.specs.Extension.Grammar.{distribution_point};
ghost use Rattle.der_extensions.specs.declared.extension.distribution_point.DistributionPoint.{DistributionPoint};
ghost use Rattle.der_modules.specs.Asn1.{context, explicit_encoding, implicit_encoding, joined, optional, parse_of};
ghost use Rattle.der_modules.specs.Members.{no_fields, optional_field, struct_member};

use crate::extension::aliases::ReasonFlags;
use crate::extension::distribution_point_name::DistributionPointName;
use crate::extension::general_names::GeneralNames;
use der_elem::{
    ContentsEq, CopyIsDuplicate, DecodeValue, EncodeValue, Form, FormValue, OneTag, Sequence,
    SequenceTag, TagMarker, ValueOrd,
};
use der_fields::{DecodeFields, EncodeFields, Explicit, FieldList, Fields3, FieldsOrd, Implicit};
use der_modules::{Member, copy_of, field_list, if_present, tagged};
use der_tlv::{BackWriter, Error, Header, Length, Source, Writer};
use std::alloc::Global;
use std::cmp::Ordering;
use std::fmt;

/// The list of the fields.
type Fields<'a> = Fields3<
    Option<Explicit<DistributionPointName<'a>, 0>>,
    Option<Implicit<ReasonFlags<'a>, 1>>,
    Option<Implicit<GeneralNames<'a>, 2>>,
>;

/// ```text
/// DistributionPoint ::= SEQUENCE {
///      distributionPoint       [0]     DistributionPointName OPTIONAL,
///      reasons                 [1]     ReasonFlags OPTIONAL,
///      cRLIssuer               [2]     GeneralNames OPTIONAL }
/// ```
///
/// Reading refuses the first fault of the octets, in their order.
#[derive(Clone, Copy, PartialEq, Eq)]
pub struct DistributionPoint<'a> {
    fields: Fields<'a>,
}

impl<'a> DistributionPoint<'a> {
    ghost use Rattle.der_extensions.specs.Extension.DistributionPoint as distribution_point_fields;
    ghost use Rattle.std.specs.Prelude.{option_copied};

    /// A value of these fields.
    pub fn new(
        distribution_point: Option<&DistributionPointName<'a>>,
        reasons: Option<ReasonFlags<'a>>,
        crl_issuer: Option<&GeneralNames<'a>>,
    ) -> DistributionPoint<'a>
        ensures distribution_point { distribution_point_fields.distribution_point result ≡ option_copied distribution_point.entry }
        ensures reasons { distribution_point_fields.reasons result ≡ reasons.entry }
        ensures crl_issuer { distribution_point_fields.crl_issuer result ≡ option_copied crl_issuer.entry }
    {
        let list = field_list![
            if_present!(value in distribution_point => tagged!(Explicit, copy_of(value))),
            if_present!(value in reasons => Implicit { value }),
            if_present!(value in crl_issuer => Implicit { value: copy_of(value) })
        ];
        let fields = Fields3 { list };
        DistributionPoint { fields }
    }

    /// `distributionPoint`, `[0] DistributionPointName OPTIONAL`.
    pub fn distribution_point(&self) -> Option<&DistributionPointName<'a>>
        ensures { option_copied result ≡ distribution_point_fields.distribution_point self.now }
    {
        if_present!(value in &self.fields.list.first => &value.fields.first)
    }

    /// `reasons`, `[1] ReasonFlags OPTIONAL`.
    pub fn reasons(&self) -> Option<&ReasonFlags<'a>>
        ensures { option_copied result ≡ distribution_point_fields.reasons self.now }
    {
        if_present!(value in &self.fields.list.rest.first => &value.value)
    }

    /// `cRLIssuer`, `[2] GeneralNames OPTIONAL`.
    pub fn crl_issuer(&self) -> Option<&GeneralNames<'a>>
        ensures { option_copied result ≡ distribution_point_fields.crl_issuer self.now }
    {
        if_present!(value in &self.fields.list.rest.rest.first => &value.value)
    }
}

impl<'a> fmt::Debug for DistributionPoint<'a> {
    fn fmt<W: fmt::Write>(&self, f: &mut fmt::Formatter<W>) -> fmt::Result {
        f.debug_struct("DistributionPoint")
            .field("distribution_point", &self.distribution_point())
            .field("reasons", &self.reasons())
            .field("crl_issuer", &self.crl_issuer())
            .finish()
    }
}

impl<'a> OneTag for DistributionPoint<'a> {
    type Marker = SequenceTag;
}

impl<'a> Sequence<'a> for DistributionPoint<'a> {
    ghost is_sequence = { refl };
}

impl<'a> FormValue for DistributionPoint<'a> {
    ghost value = { mapped_format (λ v. v.fields) ⟦<Fields<'a> as FieldList>⟧.list.octets };
}

impl<'a, R: Source<'a>> DecodeValue<'a, R> for DistributionPoint<'a> {
    ghost TAKES_MEMORY = { false };

    const TAKES_MEMORY: bool = false;

    fn decode_value(
        alloc: Global,
        reader: &mut R,
        _header: Header,
    ) -> Result<DistributionPoint<'a>, Error> {
        match Fields::<'a>::decode_fields(alloc, reader) {
            Ok(fields) => Ok(DistributionPoint { fields }),
            Err(e) => Err(e),
        }
    }

    ghost takes_memory_is = { refl };
}

impl<'a> EncodeValue for DistributionPoint<'a> {
    fn value_len(&self) -> Result<Length, Error> {
        self.fields.fields_len()
    }

    fn encode_value<W: Writer>(&self, writer: &mut W) -> Result<(), Error> {
        self.fields.encode_fields(writer)
    }

    fn encode_value_back<W: BackWriter>(&self, writer: &mut W) -> Result<(), Error> {
        self.fields.encode_fields_back(writer)
    }
}

impl<'a> ValueOrd for DistributionPoint<'a> {
    fn value_cmp(&self, other: &DistributionPoint<'a>) -> Result<Ordering, Error> {
        self.fields.cmp_fields(&other.fields)
    }
}

impl<'a> Member for DistributionPoint<'a> {
    ghost member = { struct_member ⟦<SequenceTag as TagMarker>⟧.TAG (λ v. v.fields.list)
        (optional_field ⟦<Explicit<DistributionPointName<'a>, 0> as Member>⟧.member
        (optional_field ⟦<Implicit<ReasonFlags<'a>, 1> as Member>⟧.member
        (optional_field ⟦<Implicit<GeneralNames<'a>, 2> as Member>⟧.member
        no_fields))) };
}

impl<'a> ContentsEq for DistributionPoint<'a> {
    ghost contents_eq = { ⟦<DistributionPoint<'a> as Member>⟧.member.equal };
}

impl<'a> CopyIsDuplicate for DistributionPoint<'a> {}

/// What is read as `DistributionPoint` is what the grammar page says.
pub fn grammar_of_distribution_point<'a>()
    ensures { ⟦<DistributionPoint<'a> as Form>⟧.parse ≡ parse_of distribution_point }
{}

/// The contents octets of `DistributionPoint` are the encodings of its fields, one after another.
#[tactic(auto, using(der_modules::specs::Asn1::optional_of))]
pub fn octets_of_distribution_point<'a>()
    ensures { (v : DistributionPoint) → ⟦<DistributionPoint<'a> as FormValue>⟧.value.contents v ≡ joined (
        optional (λ x. (explicit_encoding context 0 (⟦<DistributionPointName<'a> as Form>⟧.encoding x))) (distribution_point_fields.distribution_point v)
        ∷ optional (λ x. (implicit_encoding context false 1 (⟦<ReasonFlags<'a> as FormValue>⟧.value.contents x))) (distribution_point_fields.reasons v)
        ∷ optional (λ x. (implicit_encoding context true 2 (⟦<GeneralNames<'a> as FormValue>⟧.value.contents x))) (distribution_point_fields.crl_issuer v)
        ∷ []) }
{}
