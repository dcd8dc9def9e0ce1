//! PolicyInformation, a SEQUENCE of 2 fields.
//!
//! Made by tools/asn1 from extension.asn1.

ghost use Rattle.std.specs.Prelude.{◌∷◌, ◌≡◌, [], false, refl};
ghost use Rattle.der_elem.specs.FormatMakers.{mapped_format};
ghost use Rattle.der_extensions.specs.Extension.Grammar.{policy_information};
ghost use Rattle.der_extensions.specs.Extension.PolicyInformation as policy_information_fields;
ghost use Rattle.der_extensions.specs.declared.extension.policy_information.PolicyInformation.{PolicyInformation};
ghost use Rattle.der_modules.specs.Asn1.{joined, optional, parse_of};
ghost use Rattle.der_modules.specs.Members.{field, no_fields, optional_field, struct_member};

use crate::extension::aliases::CertPolicyId;
use crate::extension::policy_qualifier_info::PolicyQualifierInfo;
use der_elem::{
    ContentsEq, CopyIsDuplicate, DecodeValue, EncodeValue, Form, FormValue, OneTag, Sequence,
    SequenceTag, TagMarker, ValueOrd,
};
use der_fields::{DecodeFields, EncodeFields, FieldList, Fields2, FieldsOrd};
use der_lists::{ListRef, NonEmptyRef};
use der_modules::{Member, copy_of, field_list, if_present};
use der_tlv::{BackWriter, Error, Header, Length, Source, Writer};
use std::alloc::Global;
use std::cmp::Ordering;
use std::fmt;

/// The list of the fields.
type Fields<'a> = Fields2<
    CertPolicyId<'a>,
    Option<NonEmptyRef<ListRef<'a, PolicyQualifierInfo<'a>>>>,
>;

/// ```text
/// PolicyInformation ::= SEQUENCE {
///      policyIdentifier   CertPolicyId,
///      policyQualifiers   SEQUENCE SIZE (1..MAX) OF
///              PolicyQualifierInfo OPTIONAL }
/// ```
///
/// Reading refuses the first fault of the octets, in their order.
#[derive(Clone, Copy, PartialEq, Eq)]
pub struct PolicyInformation<'a> {
    fields: Fields<'a>,
}

impl<'a> PolicyInformation<'a> {
    ghost use Rattle.der_extensions.specs.Extension.PolicyInformation as policy_information_fields;
    ghost use Rattle.std.specs.Prelude.{option_copied};

    /// A value of these fields.
    pub fn new(
        policy_identifier: CertPolicyId<'a>,
        policy_qualifiers: Option<&NonEmptyRef<ListRef<'a, PolicyQualifierInfo<'a>>>>,
    ) -> PolicyInformation<'a>
        ensures policy_identifier { policy_information_fields.policy_identifier result ≡ policy_identifier.entry }
        ensures policy_qualifiers { policy_information_fields.policy_qualifiers result ≡ option_copied policy_qualifiers.entry }
    {
        let list = field_list![
            policy_identifier,
            if_present!(value in policy_qualifiers => copy_of(value))
        ];
        let fields = Fields2 { list };
        PolicyInformation { fields }
    }

    /// `policyIdentifier`, `CertPolicyId`.
    pub fn policy_identifier(&self) -> &CertPolicyId<'a>
        ensures { result.now ≡ policy_information_fields.policy_identifier self.now }
    {
        &self.fields.list.first
    }

    /// `policyQualifiers`, `SEQUENCE SIZE (1..MAX) OF PolicyQualifierInfo OPTIONAL`.
    pub fn policy_qualifiers(&self) -> Option<&NonEmptyRef<ListRef<'a, PolicyQualifierInfo<'a>>>>
        ensures { option_copied result ≡ policy_information_fields.policy_qualifiers self.now }
    {
        if_present!(value in &self.fields.list.rest.first => value)
    }
}

impl<'a> fmt::Debug for PolicyInformation<'a> {
    fn fmt<W: fmt::Write>(&self, f: &mut fmt::Formatter<W>) -> fmt::Result {
        f.debug_struct("PolicyInformation")
            .field("policy_identifier", self.policy_identifier())
            .field("policy_qualifiers", &self.policy_qualifiers())
            .finish()
    }
}

impl<'a> OneTag for PolicyInformation<'a> {
    type Marker = SequenceTag;
}

impl<'a> Sequence<'a> for PolicyInformation<'a> {
    ghost is_sequence = { refl };
}

impl<'a> FormValue for PolicyInformation<'a> {
    ghost value = { mapped_format (λ v. v.fields) ⟦<Fields<'a> as FieldList>⟧.list.octets };
}

impl<'a, R: Source<'a>> DecodeValue<'a, R> for PolicyInformation<'a> {
    ghost TAKES_MEMORY = { false };

    const TAKES_MEMORY: bool = false;

    fn decode_value(
        alloc: Global,
        reader: &mut R,
        _header: Header,
    ) -> Result<PolicyInformation<'a>, Error> {
        match Fields::<'a>::decode_fields(alloc, reader) {
            Ok(fields) => Ok(PolicyInformation { fields }),
            Err(e) => Err(e),
        }
    }

    ghost takes_memory_is = { refl };
}

impl<'a> EncodeValue for PolicyInformation<'a> {
    fn value_len(&self) -> Result<Length, Error> {
        self.fields.fields_len()
    }

    fn encode_value<W: Writer>(&self, writer: &mut W) -> Result<(), Error> {
        self.fields.encode_fields(writer)
    }

    fn encode_value_back<W: BackWriter>(&self, writer: &mut W) -> Result<(), Error> {
        self.fields.encode_fields_back(writer)
    }
}

impl<'a> ValueOrd for PolicyInformation<'a> {
    fn value_cmp(&self, other: &PolicyInformation<'a>) -> Result<Ordering, Error> {
        self.fields.cmp_fields(&other.fields)
    }
}

impl<'a> Member for PolicyInformation<'a> {
    ghost member = { struct_member ⟦<SequenceTag as TagMarker>⟧.TAG (λ v. v.fields.list)
        (field ⟦<CertPolicyId<'a> as Member>⟧.member
        (optional_field ⟦<NonEmptyRef<ListRef<'a, PolicyQualifierInfo<'a>>> as Member>⟧.member
        no_fields)) };
}

impl<'a> ContentsEq for PolicyInformation<'a> {
    ghost contents_eq = { ⟦<PolicyInformation<'a> as Member>⟧.member.equal };
}

impl<'a> CopyIsDuplicate for PolicyInformation<'a> {}

/// What is read as `PolicyInformation` is what the grammar page says.
pub fn grammar_of_policy_information<'a>()
    ensures { ⟦<PolicyInformation<'a> as Form>⟧.parse ≡ parse_of policy_information }
{}

/// The contents octets of `PolicyInformation` are the encodings of its fields, one after another.
pub fn octets_of_policy_information<'a>()
    ensures { (v : PolicyInformation) → ⟦<PolicyInformation<'a> as FormValue>⟧.value.contents v ≡ joined (
        (⟦<CertPolicyId<'a> as Form>⟧.encoding (policy_information_fields.policy_identifier v))
        ∷ optional (λ x. (⟦<NonEmptyRef<ListRef<'a, PolicyQualifierInfo<'a>>> as Form>⟧.encoding x)) (policy_information_fields.policy_qualifiers v)
        ∷ []) }
{}
