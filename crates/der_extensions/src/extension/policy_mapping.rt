//! PolicyMapping, a SEQUENCE of 2 fields.
//!
//! Made by tools/asn1 from extension.asn1.

ghost use Rattle.std.specs.Prelude.{◌∷◌, ◌≡◌, [], false, refl};
ghost use Rattle.der_elem.specs.FormatMakers.{mapped_format};
ghost use Rattle.der_extensions.specs.Extension.Grammar.{policy_mapping};
ghost use Rattle.der_extensions.specs.Extension.PolicyMapping as policy_mapping_fields;
ghost use Rattle.der_extensions.specs.declared.extension.policy_mapping.PolicyMapping.{PolicyMapping};
ghost use Rattle.der_modules.specs.Asn1.{joined, parse_of};
ghost use Rattle.der_modules.specs.Members.{field, no_fields, struct_member};

use crate::extension::aliases::CertPolicyId;
use der_elem::{
    ContentsEq, CopyIsDuplicate, DecodeValue, EncodeValue, Form, FormValue, OneTag, Sequence,
    SequenceTag, TagMarker, ValueOrd,
};
use der_fields::{DecodeFields, EncodeFields, FieldList, Fields2, FieldsOrd};
use der_modules::{Member, field_list};
use der_tlv::{BackWriter, Error, Header, Length, Source, Writer};
use std::alloc::Global;
use std::cmp::Ordering;
use std::fmt;

/// The list of the fields.
type Fields<'a> = Fields2<CertPolicyId<'a>, CertPolicyId<'a>>;

/// A type that is written out within another, as `PolicyMapping`.
///
/// Reading refuses the first fault of the octets, in their order.
#[derive(Clone, Copy, PartialEq, Eq)]
pub struct PolicyMapping<'a> {
    fields: Fields<'a>,
}

impl<'a> PolicyMapping<'a> {
    ghost use Rattle.der_extensions.specs.Extension.PolicyMapping as policy_mapping_fields;

    /// A value of these fields.
    pub fn new(
        issuer_domain_policy: CertPolicyId<'a>,
        subject_domain_policy: CertPolicyId<'a>,
    ) -> PolicyMapping<'a>
        ensures issuer_domain_policy { policy_mapping_fields.issuer_domain_policy result ≡ issuer_domain_policy.entry }
        ensures subject_domain_policy { policy_mapping_fields.subject_domain_policy result ≡ subject_domain_policy.entry }
    {
        let list = field_list![issuer_domain_policy, subject_domain_policy];
        let fields = Fields2 { list };
        PolicyMapping { fields }
    }

    /// `issuerDomainPolicy`, `CertPolicyId`.
    pub fn issuer_domain_policy(&self) -> &CertPolicyId<'a>
        ensures { result.now ≡ policy_mapping_fields.issuer_domain_policy self.now }
    {
        &self.fields.list.first
    }

    /// `subjectDomainPolicy`, `CertPolicyId`.
    pub fn subject_domain_policy(&self) -> &CertPolicyId<'a>
        ensures { result.now ≡ policy_mapping_fields.subject_domain_policy self.now }
    {
        &self.fields.list.rest.first
    }
}

impl<'a> fmt::Debug for PolicyMapping<'a> {
    fn fmt<W: fmt::Write>(&self, f: &mut fmt::Formatter<W>) -> fmt::Result {
        f.debug_struct("PolicyMapping")
            .field("issuer_domain_policy", self.issuer_domain_policy())
            .field("subject_domain_policy", self.subject_domain_policy())
            .finish()
    }
}

impl<'a> OneTag for PolicyMapping<'a> {
    type Marker = SequenceTag;
}

impl<'a> Sequence<'a> for PolicyMapping<'a> {
    ghost is_sequence = { refl };
}

impl<'a> FormValue for PolicyMapping<'a> {
    ghost value = { mapped_format (λ v. v.fields) ⟦<Fields<'a> as FieldList>⟧.list.octets };
}

impl<'a, R: Source<'a>> DecodeValue<'a, R> for PolicyMapping<'a> {
    ghost TAKES_MEMORY = { false };

    const TAKES_MEMORY: bool = false;

    fn decode_value(
        alloc: Global,
        reader: &mut R,
        _header: Header,
    ) -> Result<PolicyMapping<'a>, Error> {
        match Fields::<'a>::decode_fields(alloc, reader) {
            Ok(fields) => Ok(PolicyMapping { fields }),
            Err(e) => Err(e),
        }
    }

    ghost takes_memory_is = { refl };
}

impl<'a> EncodeValue for PolicyMapping<'a> {
    fn value_len(&self) -> Result<Length, Error> {
        self.fields.fields_len()
    }

    fn encode_value<W: Writer>(&self, writer: &mut W) -> Result<(), Error> {
        self.fields.encode_fields(writer)
    }

    fn encode_value_back<W: BackWriter>(&self, writer: &mut W) -> Result<(), Error> {
        self.fields.encode_fields_back(writer)
    }
}

impl<'a> ValueOrd for PolicyMapping<'a> {
    fn value_cmp(&self, other: &PolicyMapping<'a>) -> Result<Ordering, Error> {
        self.fields.cmp_fields(&other.fields)
    }
}

impl<'a> Member for PolicyMapping<'a> {
    ghost member = { struct_member ⟦<SequenceTag as TagMarker>⟧.TAG (λ v. v.fields.list)
        (field ⟦<CertPolicyId<'a> as Member>⟧.member
        (field ⟦<CertPolicyId<'a> as Member>⟧.member
        no_fields)) };
}

impl<'a> ContentsEq for PolicyMapping<'a> {
    ghost contents_eq = { ⟦<PolicyMapping<'a> as Member>⟧.member.equal };
}

impl<'a> CopyIsDuplicate for PolicyMapping<'a> {}

/// What is read as `PolicyMapping` is what the grammar page says.
pub fn grammar_of_policy_mapping<'a>()
    ensures { ⟦<PolicyMapping<'a> as Form>⟧.parse ≡ parse_of policy_mapping }
{}

/// The contents octets of `PolicyMapping` are the encodings of its fields, one after another.
pub fn octets_of_policy_mapping<'a>()
    ensures { (v : PolicyMapping) → ⟦<PolicyMapping<'a> as FormValue>⟧.value.contents v ≡ joined (
        (⟦<CertPolicyId<'a> as Form>⟧.encoding (policy_mapping_fields.issuer_domain_policy v))
        ∷ (⟦<CertPolicyId<'a> as Form>⟧.encoding (policy_mapping_fields.subject_domain_policy v))
        ∷ []) }
{}
