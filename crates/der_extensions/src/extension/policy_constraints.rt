//! PolicyConstraints, a SEQUENCE of 2 fields.
//!
//! Made by tools/asn1 from extension.asn1.

ghost use Rattle.std.specs.Prelude.{◌∷◌, ◌≡◌, [], false, refl};
ghost use Rattle.der_elem.specs.FormatMakers.{mapped_format};
ghost use Rattle.der_extensions.specs.Extension.Grammar.{policy_constraints};
ghost use Rattle.der_extensions.specs.Extension.PolicyConstraints as policy_constraints_fields;
ghost use Rattle.der_extensions.specs.declared.extension.policy_constraints.PolicyConstraints.{PolicyConstraints};
ghost use Rattle.der_modules.specs.Asn1.{context, implicit_encoding, joined, optional, parse_of};
ghost use Rattle.der_modules.specs.Members.{no_fields, optional_field, struct_member};

use crate::extension::aliases::SkipCerts;
use der_elem::{
    ContentsEq, CopyIsDuplicate, DecodeValue, EncodeValue, Form, FormValue, OneTag, Sequence,
    SequenceTag, TagMarker, ValueOrd,
};
use der_fields::{DecodeFields, EncodeFields, FieldList, Fields2, FieldsOrd, Implicit};
use der_modules::{Member, field_list, if_present};
use der_tlv::{BackWriter, Error, Header, Length, Source, Writer};
use std::alloc::Global;
use std::cmp::Ordering;
use std::fmt;

/// The list of the fields.
type Fields<'a> = Fields2<Option<Implicit<SkipCerts<'a>, 0>>, Option<Implicit<SkipCerts<'a>, 1>>>;

/// ```text
/// PolicyConstraints ::= SEQUENCE {
///      requireExplicitPolicy   [0]     SkipCerts OPTIONAL,
///      inhibitPolicyMapping    [1]     SkipCerts OPTIONAL }
/// ```
///
/// Reading refuses the first fault of the octets, in their order.
#[derive(Clone, Copy, PartialEq, Eq)]
pub struct PolicyConstraints<'a> {
    fields: Fields<'a>,
}

impl<'a> PolicyConstraints<'a> {
    ghost use Rattle.der_extensions.specs.Extension.PolicyConstraints as policy_constraints_fields;
    ghost use Rattle.std.specs.Prelude.{option_copied};

    /// A value of these fields.
    pub fn new(
        require_explicit_policy: Option<SkipCerts<'a>>,
        inhibit_policy_mapping: Option<SkipCerts<'a>>,
    ) -> PolicyConstraints<'a>
        ensures require_explicit_policy { policy_constraints_fields.require_explicit_policy result ≡ require_explicit_policy.entry }
        ensures inhibit_policy_mapping { policy_constraints_fields.inhibit_policy_mapping result ≡ inhibit_policy_mapping.entry }
    {
        let list = field_list![
            if_present!(value in require_explicit_policy => Implicit { value }),
            if_present!(value in inhibit_policy_mapping => Implicit { value })
        ];
        let fields = Fields2 { list };
        PolicyConstraints { fields }
    }

    /// `requireExplicitPolicy`, `[0] SkipCerts OPTIONAL`.
    pub fn require_explicit_policy(&self) -> Option<&SkipCerts<'a>>
        ensures { option_copied result ≡ policy_constraints_fields.require_explicit_policy self.now }
    {
        if_present!(value in &self.fields.list.first => &value.value)
    }

    /// `inhibitPolicyMapping`, `[1] SkipCerts OPTIONAL`.
    pub fn inhibit_policy_mapping(&self) -> Option<&SkipCerts<'a>>
        ensures { option_copied result ≡ policy_constraints_fields.inhibit_policy_mapping self.now }
    {
        if_present!(value in &self.fields.list.rest.first => &value.value)
    }
}

impl<'a> fmt::Debug for PolicyConstraints<'a> {
    fn fmt<W: fmt::Write>(&self, f: &mut fmt::Formatter<W>) -> fmt::Result {
        f.debug_struct("PolicyConstraints")
            .field("require_explicit_policy", &self.require_explicit_policy())
            .field("inhibit_policy_mapping", &self.inhibit_policy_mapping())
            .finish()
    }
}

impl<'a> OneTag for PolicyConstraints<'a> {
    type Marker = SequenceTag;
}

impl<'a> Sequence<'a> for PolicyConstraints<'a> {
    ghost is_sequence = { refl };
}

impl<'a> FormValue for PolicyConstraints<'a> {
    ghost value = { mapped_format (λ v. v.fields) ⟦<Fields<'a> as FieldList>⟧.list.octets };
}

impl<'a, R: Source<'a>> DecodeValue<'a, R> for PolicyConstraints<'a> {
    ghost TAKES_MEMORY = { false };

    const TAKES_MEMORY: bool = false;

    fn decode_value(
        alloc: Global,
        reader: &mut R,
        _header: Header,
    ) -> Result<PolicyConstraints<'a>, Error> {
        match Fields::<'a>::decode_fields(alloc, reader) {
            Ok(fields) => Ok(PolicyConstraints { fields }),
            Err(e) => Err(e),
        }
    }

    ghost takes_memory_is = { refl };
}

impl<'a> EncodeValue for PolicyConstraints<'a> {
    fn value_len(&self) -> Result<Length, Error> {
        self.fields.fields_len()
    }

    fn encode_value<W: Writer>(&self, writer: &mut W) -> Result<(), Error> {
        self.fields.encode_fields(writer)
    }

    fn encode_value_back<W: BackWriter>(&self, writer: &mut W) -> Result<(), Error> {
        self.fields.encode_fields_back(writer)
    }
}

impl<'a> ValueOrd for PolicyConstraints<'a> {
    fn value_cmp(&self, other: &PolicyConstraints<'a>) -> Result<Ordering, Error> {
        self.fields.cmp_fields(&other.fields)
    }
}

impl<'a> Member for PolicyConstraints<'a> {
    ghost member = { struct_member ⟦<SequenceTag as TagMarker>⟧.TAG (λ v. v.fields.list)
        (optional_field ⟦<Implicit<SkipCerts<'a>, 0> as Member>⟧.member
        (optional_field ⟦<Implicit<SkipCerts<'a>, 1> as Member>⟧.member
        no_fields)) };
}

impl<'a> ContentsEq for PolicyConstraints<'a> {
    ghost contents_eq = { ⟦<PolicyConstraints<'a> as Member>⟧.member.equal };
}

impl<'a> CopyIsDuplicate for PolicyConstraints<'a> {}

/// What is read as `PolicyConstraints` is what the grammar page says.
pub fn grammar_of_policy_constraints<'a>()
    ensures { ⟦<PolicyConstraints<'a> as Form>⟧.parse ≡ parse_of policy_constraints }
{}

/// The contents octets of `PolicyConstraints` are the encodings of its fields, one after another.
#[tactic(auto, using(der_modules::specs::Asn1::optional_of))]
pub fn octets_of_policy_constraints<'a>()
    ensures { (v : PolicyConstraints) → ⟦<PolicyConstraints<'a> as FormValue>⟧.value.contents v ≡ joined (
        optional (λ x. (implicit_encoding context false 0 (⟦<SkipCerts<'a> as FormValue>⟧.value.contents x))) (policy_constraints_fields.require_explicit_policy v)
        ∷ optional (λ x. (implicit_encoding context false 1 (⟦<SkipCerts<'a> as FormValue>⟧.value.contents x))) (policy_constraints_fields.inhibit_policy_mapping v)
        ∷ []) }
{}
