//! IssuingDistributionPoint, a SEQUENCE of 6 fields.
//!
//! Made by tools/asn1 from extension.asn1.

ghost use Rattle.std.specs.Prelude.{◌∷◌, ◌≡◌, [], false, refl};
ghost use Rattle.der_elem.specs.FormatMakers.{mapped_format};
ghost use Rattle.der_extensions.specs.Extension.Grammar.{issuing_distribution_point};
ghost use Rattle.der_extensions.specs.Extension.IssuingDistributionPoint as issuing_distribution_point_fields;
ghost use Rattle.der_extensions.specs.declared.extension.issuing_distribution_point.IssuingDistributionPoint.{IssuingDistributionPoint};
ghost use Rattle.der_modules.specs.Asn1.{context, explicit_encoding, implicit_encoding, joined, optional, parse_of, unless_default};
ghost use Rattle.der_modules.specs.Members.{default_field, no_fields, optional_field, struct_member};

use crate::extension::aliases::ReasonFlags;
use crate::extension::distribution_point_name::DistributionPointName;
use der_elem::{
    ContentsEq, CopyIsDuplicate, DecodeValue, EncodeValue, Form, FormValue, OneTag, Sequence,
    SequenceTag, TagMarker, ValueOrd,
};
use der_fields::{
    DecodeFields, DefaultFalse, DefaultOf, EncodeFields, Explicit, FieldList, Fields6, FieldsOrd,
    Implicit, WithDefault,
};
use der_modules::{Member, copy_of, field_list, if_present, tagged};
use der_tlv::{BackWriter, Error, Header, Length, Source, Writer};
use std::alloc::Global;
use std::cmp::Ordering;
use std::fmt;

/// The list of the fields.
type Fields<'a> = Fields6<
    Option<Explicit<DistributionPointName<'a>, 0>>,
    WithDefault<Implicit<bool, 1>, DefaultFalse>,
    WithDefault<Implicit<bool, 2>, DefaultFalse>,
    Option<Implicit<ReasonFlags<'a>, 3>>,
    WithDefault<Implicit<bool, 4>, DefaultFalse>,
    WithDefault<Implicit<bool, 5>, DefaultFalse>,
>;

/// ```text
/// IssuingDistributionPoint ::= SEQUENCE {
///      distributionPoint          [0] DistributionPointName OPTIONAL,
///      onlyContainsUserCerts      [1] BOOLEAN DEFAULT FALSE,
///      onlyContainsCACerts        [2] BOOLEAN DEFAULT FALSE,
///      onlySomeReasons            [3] ReasonFlags OPTIONAL,
///      indirectCRL                [4] BOOLEAN DEFAULT FALSE,
///      onlyContainsAttributeCerts [5] BOOLEAN DEFAULT FALSE }
/// ```
///
/// Reading refuses the first fault of the octets, in their order.
#[derive(Clone, Copy, PartialEq, Eq)]
pub struct IssuingDistributionPoint<'a> {
    fields: Fields<'a>,
}

impl<'a> IssuingDistributionPoint<'a> {
    ghost use Rattle.der_extensions.specs.Extension.IssuingDistributionPoint as issuing_distribution_point_fields;
    ghost use Rattle.std.specs.Prelude.{option_copied};

    /// A value of these fields.
    pub fn new(
        distribution_point: Option<&DistributionPointName<'a>>,
        only_contains_user_certs: bool,
        only_contains_ca_certs: bool,
        only_some_reasons: Option<ReasonFlags<'a>>,
        indirect_crl: bool,
        only_contains_attribute_certs: bool,
    ) -> IssuingDistributionPoint<'a>
        ensures distribution_point { issuing_distribution_point_fields.distribution_point result ≡ option_copied distribution_point.entry }
        ensures only_contains_user_certs { issuing_distribution_point_fields.only_contains_user_certs result ≡ only_contains_user_certs }
        ensures only_contains_ca_certs { issuing_distribution_point_fields.only_contains_ca_certs result ≡ only_contains_ca_certs }
        ensures only_some_reasons { issuing_distribution_point_fields.only_some_reasons result ≡ only_some_reasons.entry }
        ensures indirect_crl { issuing_distribution_point_fields.indirect_crl result ≡ indirect_crl }
        ensures only_contains_attribute_certs { issuing_distribution_point_fields.only_contains_attribute_certs result ≡ only_contains_attribute_certs }
    {
        let list = field_list![
            if_present!(value in distribution_point => tagged!(Explicit, copy_of(value))),
            WithDefault::new(Implicit {
                value: only_contains_user_certs
            }),
            WithDefault::new(Implicit {
                value: only_contains_ca_certs
            }),
            if_present!(value in only_some_reasons => Implicit { value }),
            WithDefault::new(Implicit {
                value: indirect_crl
            }),
            WithDefault::new(Implicit {
                value: only_contains_attribute_certs
            })
        ];
        let fields = Fields6 { list };
        IssuingDistributionPoint { fields }
    }

    /// `distributionPoint`, `[0] DistributionPointName OPTIONAL`.
    pub fn distribution_point(&self) -> Option<&DistributionPointName<'a>>
        ensures { option_copied result ≡ issuing_distribution_point_fields.distribution_point self.now }
    {
        if_present!(value in &self.fields.list.first => &value.fields.first)
    }

    /// `onlyContainsUserCerts`, `[1] BOOLEAN DEFAULT FALSE`.
    pub fn only_contains_user_certs(&self) -> bool
        ensures { result ≡ issuing_distribution_point_fields.only_contains_user_certs self.now }
    {
        self.fields.list.rest.first.value.value
    }

    /// `onlyContainsCACerts`, `[2] BOOLEAN DEFAULT FALSE`.
    pub fn only_contains_ca_certs(&self) -> bool
        ensures { result ≡ issuing_distribution_point_fields.only_contains_ca_certs self.now }
    {
        self.fields.list.rest.rest.first.value.value
    }

    /// `onlySomeReasons`, `[3] ReasonFlags OPTIONAL`.
    pub fn only_some_reasons(&self) -> Option<&ReasonFlags<'a>>
        ensures { option_copied result ≡ issuing_distribution_point_fields.only_some_reasons self.now }
    {
        if_present!(value in &self.fields.list.rest.rest.rest.first => &value.value)
    }

    /// `indirectCRL`, `[4] BOOLEAN DEFAULT FALSE`.
    pub fn indirect_crl(&self) -> bool
        ensures { result ≡ issuing_distribution_point_fields.indirect_crl self.now }
    {
        self.fields.list.rest.rest.rest.rest.first.value.value
    }

    /// `onlyContainsAttributeCerts`, `[5] BOOLEAN DEFAULT FALSE`.
    pub fn only_contains_attribute_certs(&self) -> bool
        ensures { result ≡ issuing_distribution_point_fields.only_contains_attribute_certs self.now }
    {
        self.fields.list.rest.rest.rest.rest.rest.first.value.value
    }
}

impl<'a> fmt::Debug for IssuingDistributionPoint<'a> {
    fn fmt<W: fmt::Write>(&self, f: &mut fmt::Formatter<W>) -> fmt::Result {
        f.debug_struct("IssuingDistributionPoint")
            .field("distribution_point", &self.distribution_point())
            .field("only_contains_user_certs", &self.only_contains_user_certs())
            .field("only_contains_ca_certs", &self.only_contains_ca_certs())
            .field("only_some_reasons", &self.only_some_reasons())
            .field("indirect_crl", &self.indirect_crl())
            .field(
                "only_contains_attribute_certs",
                &self.only_contains_attribute_certs(),
            )
            .finish()
    }
}

impl<'a> OneTag for IssuingDistributionPoint<'a> {
    type Marker = SequenceTag;
}

impl<'a> Sequence<'a> for IssuingDistributionPoint<'a> {
    ghost is_sequence = { refl };
}

impl<'a> FormValue for IssuingDistributionPoint<'a> {
    ghost value = { mapped_format (λ v. v.fields) ⟦<Fields<'a> as FieldList>⟧.list.octets };
}

impl<'a, R: Source<'a>> DecodeValue<'a, R> for IssuingDistributionPoint<'a> {
    ghost TAKES_MEMORY = { false };

    const TAKES_MEMORY: bool = false;

    fn decode_value(
        alloc: Global,
        reader: &mut R,
        _header: Header,
    ) -> Result<IssuingDistributionPoint<'a>, Error> {
        match Fields::<'a>::decode_fields(alloc, reader) {
            Ok(fields) => Ok(IssuingDistributionPoint { fields }),
            Err(e) => Err(e),
        }
    }

    ghost takes_memory_is = { refl };
}

impl<'a> EncodeValue for IssuingDistributionPoint<'a> {
    fn value_len(&self) -> Result<Length, Error> {
        self.fields.fields_len()
    }

    fn encode_value<W: Writer>(&self, writer: &mut W) -> Result<(), Error> {
        self.fields.encode_fields(writer)
    }

    fn encode_value_back<W: BackWriter>(&self, writer: &mut W) -> Result<(), Error> {
        self.fields.encode_fields_back(writer)
    }
}

impl<'a> ValueOrd for IssuingDistributionPoint<'a> {
    fn value_cmp(&self, other: &IssuingDistributionPoint<'a>) -> Result<Ordering, Error> {
        self.fields.cmp_fields(&other.fields)
    }
}

impl<'a> Member for IssuingDistributionPoint<'a> {
    ghost member = { struct_member ⟦<SequenceTag as TagMarker>⟧.TAG (λ v. v.fields.list)
        (optional_field ⟦<Explicit<DistributionPointName<'a>, 0> as Member>⟧.member
        (default_field ⟦<DefaultFalse as DefaultOf<Implicit<bool, 1>>>⟧.octets ⟦<Implicit<bool, 1> as Member>⟧.member
        (default_field ⟦<DefaultFalse as DefaultOf<Implicit<bool, 2>>>⟧.octets ⟦<Implicit<bool, 2> as Member>⟧.member
        (optional_field ⟦<Implicit<ReasonFlags<'a>, 3> as Member>⟧.member
        (default_field ⟦<DefaultFalse as DefaultOf<Implicit<bool, 4>>>⟧.octets ⟦<Implicit<bool, 4> as Member>⟧.member
        (default_field ⟦<DefaultFalse as DefaultOf<Implicit<bool, 5>>>⟧.octets ⟦<Implicit<bool, 5> as Member>⟧.member
        no_fields)))))) };
}

impl<'a> ContentsEq for IssuingDistributionPoint<'a> {
    ghost contents_eq = { ⟦<IssuingDistributionPoint<'a> as Member>⟧.member.equal };
}

impl<'a> CopyIsDuplicate for IssuingDistributionPoint<'a> {}

/// What is read as `IssuingDistributionPoint` is what the grammar page says.
pub fn grammar_of_issuing_distribution_point<'a>()
    ensures { ⟦<IssuingDistributionPoint<'a> as Form>⟧.parse ≡ parse_of issuing_distribution_point }
{}

/// The contents octets of `IssuingDistributionPoint` are the encodings of its fields, one after
/// another.
#[tactic(auto, using(der_modules::specs::Asn1::optional_of))]
pub fn octets_of_issuing_distribution_point<'a>()
    ensures { (v : IssuingDistributionPoint) → ⟦<IssuingDistributionPoint<'a> as FormValue>⟧.value.contents v ≡ joined (
        optional (λ x. (explicit_encoding context 0 (⟦<DistributionPointName<'a> as Form>⟧.encoding x))) (issuing_distribution_point_fields.distribution_point v)
        ∷ unless_default ⟦<DefaultFalse as DefaultOf<Implicit<bool, 1>>>⟧.octets (implicit_encoding context false 1 (⟦<bool as FormValue>⟧.value.contents (issuing_distribution_point_fields.only_contains_user_certs v)))
        ∷ unless_default ⟦<DefaultFalse as DefaultOf<Implicit<bool, 2>>>⟧.octets (implicit_encoding context false 2 (⟦<bool as FormValue>⟧.value.contents (issuing_distribution_point_fields.only_contains_ca_certs v)))
        ∷ optional (λ x. (implicit_encoding context false 3 (⟦<ReasonFlags<'a> as FormValue>⟧.value.contents x))) (issuing_distribution_point_fields.only_some_reasons v)
        ∷ unless_default ⟦<DefaultFalse as DefaultOf<Implicit<bool, 4>>>⟧.octets (implicit_encoding context false 4 (⟦<bool as FormValue>⟧.value.contents (issuing_distribution_point_fields.indirect_crl v)))
        ∷ unless_default ⟦<DefaultFalse as DefaultOf<Implicit<bool, 5>>>⟧.octets (implicit_encoding context false 5 (⟦<bool as FormValue>⟧.value.contents (issuing_distribution_point_fields.only_contains_attribute_certs v)))
        ∷ []) }
{}
