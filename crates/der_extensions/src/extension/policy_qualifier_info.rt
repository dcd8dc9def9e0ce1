//! PolicyQualifierInfo, a SEQUENCE of 2 fields.
//!
//! Made by tools/asn1 from extension.asn1.

ghost use Rattle.std.specs.Prelude.{◌∷◌, ◌≡◌, [], false, refl};
ghost use Rattle.der_elem.specs.FormatMakers.{mapped_format};
ghost use Rattle.der_extensions.specs.Extension.Grammar.{policy_qualifier_info};
ghost use Rattle.der_extensions.specs.Extension.PolicyQualifierInfo as policy_qualifier_info_fields;
ghost use Rattle.der_extensions.specs.declared.extension.policy_qualifier_info.PolicyQualifierInfo.{PolicyQualifierInfo};
ghost use Rattle.der_modules.specs.Asn1.{joined, parse_of};
ghost use Rattle.der_modules.specs.Members.{choice_field, field, no_fields, struct_member};

use crate::extension::aliases::PolicyQualifierId;
use der_elem::{
    ContentsEq, CopyIsDuplicate, DecodeValue, EncodeValue, Form, FormValue, OneTag, Sequence,
    SequenceTag, TagMarker, ValueOrd,
};
use der_fields::{DecodeFields, EncodeFields, FieldList, Fields2, FieldsOrd};
use der_modules::{Choosing, Member, field_list};
use der_opaque::AnyRef;
use der_tlv::{BackWriter, Error, Header, Length, Source, Writer};
use std::alloc::Global;
use std::cmp::Ordering;
use std::fmt;

/// The list of the fields.
type Fields<'a> = Fields2<PolicyQualifierId<'a>, AnyRef<'a>>;

/// ```text
/// PolicyQualifierInfo ::= SEQUENCE {
///      policyQualifierId  PolicyQualifierId,
///      qualifier          ANY DEFINED BY policyQualifierId }
/// ```
///
/// Reading refuses the first fault of the octets, in their order.
#[derive(Clone, Copy, PartialEq, Eq)]
pub struct PolicyQualifierInfo<'a> {
    fields: Fields<'a>,
}

impl<'a> PolicyQualifierInfo<'a> {
    ghost use Rattle.der_extensions.specs.Extension.PolicyQualifierInfo as policy_qualifier_info_fields;

    /// A value of these fields.
    pub fn new(
        policy_qualifier_id: PolicyQualifierId<'a>,
        qualifier: AnyRef<'a>,
    ) -> PolicyQualifierInfo<'a>
        ensures policy_qualifier_id { policy_qualifier_info_fields.policy_qualifier_id result ≡ policy_qualifier_id.entry }
        ensures qualifier { policy_qualifier_info_fields.qualifier result ≡ qualifier.entry }
    {
        let list = field_list![policy_qualifier_id, qualifier];
        let fields = Fields2 { list };
        PolicyQualifierInfo { fields }
    }

    /// `policyQualifierId`, `PolicyQualifierId`.
    pub fn policy_qualifier_id(&self) -> &PolicyQualifierId<'a>
        ensures { result.now ≡ policy_qualifier_info_fields.policy_qualifier_id self.now }
    {
        &self.fields.list.first
    }

    /// `qualifier`, `ANY DEFINED BY policyQualifierId`.
    pub fn qualifier(&self) -> &AnyRef<'a>
        ensures { result.now ≡ policy_qualifier_info_fields.qualifier self.now }
    {
        &self.fields.list.rest.first
    }
}

impl<'a> fmt::Debug for PolicyQualifierInfo<'a> {
    fn fmt<W: fmt::Write>(&self, f: &mut fmt::Formatter<W>) -> fmt::Result {
        f.debug_struct("PolicyQualifierInfo")
            .field("policy_qualifier_id", self.policy_qualifier_id())
            .field("qualifier", self.qualifier())
            .finish()
    }
}

impl<'a> OneTag for PolicyQualifierInfo<'a> {
    type Marker = SequenceTag;
}

impl<'a> Sequence<'a> for PolicyQualifierInfo<'a> {
    ghost is_sequence = { refl };
}

impl<'a> FormValue for PolicyQualifierInfo<'a> {
    ghost value = { mapped_format (λ v. v.fields) ⟦<Fields<'a> as FieldList>⟧.list.octets };
}

impl<'a, R: Source<'a>> DecodeValue<'a, R> for PolicyQualifierInfo<'a> {
    ghost TAKES_MEMORY = { false };

    const TAKES_MEMORY: bool = false;

    fn decode_value(
        alloc: Global,
        reader: &mut R,
        _header: Header,
    ) -> Result<PolicyQualifierInfo<'a>, Error> {
        match Fields::<'a>::decode_fields(alloc, reader) {
            Ok(fields) => Ok(PolicyQualifierInfo { fields }),
            Err(e) => Err(e),
        }
    }

    ghost takes_memory_is = { refl };
}

impl<'a> EncodeValue for PolicyQualifierInfo<'a> {
    fn value_len(&self) -> Result<Length, Error> {
        self.fields.fields_len()
    }

    fn encode_value<W: Writer>(&self, writer: &mut W) -> Result<(), Error> {
        self.fields.encode_fields(writer)
    }

    fn encode_value_back<W: BackWriter>(&self, writer: &mut W) -> Result<(), Error> {
        self.fields.encode_fields_back(writer)
    }
}

impl<'a> ValueOrd for PolicyQualifierInfo<'a> {
    fn value_cmp(&self, other: &PolicyQualifierInfo<'a>) -> Result<Ordering, Error> {
        self.fields.cmp_fields(&other.fields)
    }
}

impl<'a> Member for PolicyQualifierInfo<'a> {
    ghost member = { struct_member ⟦<SequenceTag as TagMarker>⟧.TAG (λ v. v.fields.list)
        (field ⟦<PolicyQualifierId<'a> as Member>⟧.member
        (choice_field ⟦<AnyRef<'a> as Choosing>⟧.choice
        no_fields)) };
}

impl<'a> ContentsEq for PolicyQualifierInfo<'a> {
    ghost contents_eq = { ⟦<PolicyQualifierInfo<'a> as Member>⟧.member.equal };
}

impl<'a> CopyIsDuplicate for PolicyQualifierInfo<'a> {}

/// What is read as `PolicyQualifierInfo` is what the grammar page says.
pub fn grammar_of_policy_qualifier_info<'a>()
    ensures { ⟦<PolicyQualifierInfo<'a> as Form>⟧.parse ≡ parse_of policy_qualifier_info }
{}

/// The contents octets of `PolicyQualifierInfo` are the encodings of its fields, one after another.
pub fn octets_of_policy_qualifier_info<'a>()
    ensures { (v : PolicyQualifierInfo) → ⟦<PolicyQualifierInfo<'a> as FormValue>⟧.value.contents v ≡ joined (
        (⟦<PolicyQualifierId<'a> as Form>⟧.encoding (policy_qualifier_info_fields.policy_qualifier_id v))
        ∷ (⟦<AnyRef<'a> as Form>⟧.encoding (policy_qualifier_info_fields.qualifier v))
        ∷ []) }
{}
