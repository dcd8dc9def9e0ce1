//! PrivateKeyUsagePeriod, a SEQUENCE of 2 fields.
//!
//! Made by tools/asn1 from extension.asn1.

ghost use Rattle.std.specs.Prelude.{◌∷◌, ◌≡◌, [], false, refl};
ghost use Rattle.der_elem.specs.FormatMakers.{mapped_format};
ghost use Rattle.der_extensions.specs.Extension.Grammar.{private_key_usage_period};
ghost use Rattle.der_extensions.specs.Extension.PrivateKeyUsagePeriod as private_key_usage_period_fields;
ghost use Rattle.der_extensions.specs.declared.extension.private_key_usage_period.PrivateKeyUsagePeriod.{PrivateKeyUsagePeriod};
ghost use Rattle.der_modules.specs.Asn1.{context, implicit_encoding, joined, optional, parse_of};
ghost use Rattle.der_modules.specs.Members.{no_fields, optional_field, struct_member};

use der_elem::{
    ContentsEq, CopyIsDuplicate, DecodeValue, EncodeValue, Form, FormValue, OneTag, Sequence,
    SequenceTag, TagMarker, ValueOrd,
};
use der_fields::{DecodeFields, EncodeFields, FieldList, Fields2, FieldsOrd, Implicit};
use der_modules::{Member, field_list, if_present};
use der_time::GeneralizedTime;
use der_tlv::{BackWriter, Error, Header, Length, Source, Writer};
use std::alloc::Global;
use std::cmp::Ordering;
use std::fmt;

/// The list of the fields.
type Fields = Fields2<Option<Implicit<GeneralizedTime, 0>>, Option<Implicit<GeneralizedTime, 1>>>;

/// ```text
/// PrivateKeyUsagePeriod ::= SEQUENCE {
///      notBefore       [0]     GeneralizedTime OPTIONAL,
///      notAfter        [1]     GeneralizedTime OPTIONAL }
/// ```
///
/// Reading refuses the first fault of the octets, in their order.
#[derive(Clone, Copy, PartialEq, Eq)]
pub struct PrivateKeyUsagePeriod {
    fields: Fields,
}

impl PrivateKeyUsagePeriod {
    ghost use Rattle.der_extensions.specs.Extension.PrivateKeyUsagePeriod as private_key_usage_period_fields;

    /// A value of these fields.
    pub fn new(
        not_before: Option<GeneralizedTime>,
        not_after: Option<GeneralizedTime>,
    ) -> PrivateKeyUsagePeriod
        ensures not_before { private_key_usage_period_fields.not_before result ≡ not_before }
        ensures not_after { private_key_usage_period_fields.not_after result ≡ not_after }
    {
        let list = field_list![
            if_present!(value in not_before => Implicit { value }),
            if_present!(value in not_after => Implicit { value })
        ];
        let fields = Fields2 { list };
        PrivateKeyUsagePeriod { fields }
    }

    /// `notBefore`, `[0] GeneralizedTime OPTIONAL`.
    pub fn not_before(&self) -> Option<GeneralizedTime>
        ensures { result ≡ private_key_usage_period_fields.not_before self.now }
    {
        if_present!(value in self.fields.list.first => value.value)
    }

    /// `notAfter`, `[1] GeneralizedTime OPTIONAL`.
    pub fn not_after(&self) -> Option<GeneralizedTime>
        ensures { result ≡ private_key_usage_period_fields.not_after self.now }
    {
        if_present!(value in self.fields.list.rest.first => value.value)
    }
}

impl fmt::Debug for PrivateKeyUsagePeriod {
    fn fmt<W: fmt::Write>(&self, f: &mut fmt::Formatter<W>) -> fmt::Result {
        f.debug_struct("PrivateKeyUsagePeriod")
            .field("not_before", &self.not_before())
            .field("not_after", &self.not_after())
            .finish()
    }
}

impl OneTag for PrivateKeyUsagePeriod {
    type Marker = SequenceTag;
}

impl<'a> Sequence<'a> for PrivateKeyUsagePeriod {
    ghost is_sequence = { refl };
}

impl FormValue for PrivateKeyUsagePeriod {
    ghost value = { mapped_format (λ v. v.fields) ⟦<Fields as FieldList>⟧.list.octets };
}

impl<'a, R: Source<'a>> DecodeValue<'a, R> for PrivateKeyUsagePeriod {
    ghost TAKES_MEMORY = { false };

    const TAKES_MEMORY: bool = false;

    fn decode_value(
        alloc: Global,
        reader: &mut R,
        _header: Header,
    ) -> Result<PrivateKeyUsagePeriod, Error> {
        match Fields::decode_fields(alloc, reader) {
            Ok(fields) => Ok(PrivateKeyUsagePeriod { fields }),
            Err(e) => Err(e),
        }
    }

    ghost takes_memory_is = { refl };
}

impl EncodeValue for PrivateKeyUsagePeriod {
    fn value_len(&self) -> Result<Length, Error> {
        self.fields.fields_len()
    }

    fn encode_value<W: Writer>(&self, writer: &mut W) -> Result<(), Error> {
        self.fields.encode_fields(writer)
    }

    fn encode_value_back<W: BackWriter>(&self, writer: &mut W) -> Result<(), Error> {
        self.fields.encode_fields_back(writer)
    }
}

impl ValueOrd for PrivateKeyUsagePeriod {
    fn value_cmp(&self, other: &PrivateKeyUsagePeriod) -> Result<Ordering, Error> {
        self.fields.cmp_fields(&other.fields)
    }
}

impl Member for PrivateKeyUsagePeriod {
    ghost member = { struct_member ⟦<SequenceTag as TagMarker>⟧.TAG (λ v. v.fields.list)
        (optional_field ⟦<Implicit<GeneralizedTime, 0> as Member>⟧.member
        (optional_field ⟦<Implicit<GeneralizedTime, 1> as Member>⟧.member
        no_fields)) };
}

impl ContentsEq for PrivateKeyUsagePeriod {
    ghost contents_eq = { ⟦<PrivateKeyUsagePeriod as Member>⟧.member.equal };
}

impl CopyIsDuplicate for PrivateKeyUsagePeriod {}

/// What is read as `PrivateKeyUsagePeriod` is what the grammar page says.
pub fn grammar_of_private_key_usage_period()
    ensures { ⟦<PrivateKeyUsagePeriod as Form>⟧.parse ≡ parse_of private_key_usage_period }
{}

/// The contents octets of `PrivateKeyUsagePeriod` are the encodings of its fields, one after
/// another.
#[tactic(auto, using(der_modules::specs::Asn1::optional_of))]
pub fn octets_of_private_key_usage_period()
    ensures { (v : PrivateKeyUsagePeriod) → ⟦<PrivateKeyUsagePeriod as FormValue>⟧.value.contents v ≡ joined (
        optional (λ x. (implicit_encoding context false 0 (⟦<GeneralizedTime as FormValue>⟧.value.contents x))) (private_key_usage_period_fields.not_before v)
        ∷ optional (λ x. (implicit_encoding context false 1 (⟦<GeneralizedTime as FormValue>⟧.value.contents x))) (private_key_usage_period_fields.not_after v)
        ∷ []) }
{}
