//! The fields of a PolicyMapping.
//!
//! Made by tools/asn1 from extension.asn1.

ghost use Rattle.std.proofs.Common.{lit<};
ghost use Rattle.std.specs.Prelude.{◌∷◌, []};
ghost use Rattle.der_extensions.specs.Extension.PolicyMapping as fields_of;
ghost use Rattle.der_places.specs.Layout.{field, no_more};
ghost use Rattle.der_places.specs.LayoutLaws.{first_of, is_encoding};
ghost use Rattle.der_tlv.specs.declared.encoding_rules.EncodingRules.TheVariants.{Der};
ghost use Rattle.der_tlv.specs.declared.tag.Tag.TheVariants as tags;

use crate::place::Place;
use crate::placed::Placed;
use crate::walk::next_place;
use der_elem::Form;
use der_extensions::extension::{CertPolicyId, PolicyMapping};

/// Byte ranges of the fields of a `PolicyMapping`.
#[repr(C)]
#[derive(Clone, Copy, Debug, PartialEq, Eq)]
pub struct PolicyMappingPlaces {
    /// `issuerDomainPolicy`, `CertPolicyId`.
    pub issuer_domain_policy: Place,
    /// `subjectDomainPolicy`, `CertPolicyId`.
    pub subject_domain_policy: Place,
}

impl<'a> Placed for PolicyMapping<'a> {
    type Places = PolicyMappingPlaces;

    ghost listed = { λ p. p.issuer_domain_policy ∷ p.subject_domain_policy ∷ [] };

    ghost layout = { λ v.
        field (⟦<CertPolicyId<'a> as Form>⟧.accepts Der (fields_of.issuer_domain_policy v))
        (field (⟦<CertPolicyId<'a> as Form>⟧.accepts Der (fields_of.subject_domain_policy v))
        no_more) };

    fn walk(&self, octets: &[u8], start: Place) -> PolicyMappingPlaces {
        let issuer_domain_policy = next_place(octets, start, true);
        let subject_domain_policy = next_place(octets, issuer_domain_policy, true);
        PolicyMappingPlaces {
            issuer_domain_policy,
            subject_domain_policy,
        }
    }

    ghost are_fields = { λ v c a.
        let field1 = a in
        let field2 = field1.rest in
        (first_of field1 (is_encoding tags.ObjectIdentifier (lit< tt) field1.front field1.first.0 field1.first.1, field1.first)
        (first_of field2 (is_encoding tags.ObjectIdentifier (lit< tt) field2.front field2.first.0 field2.first.1, field2.first)
        field2.rest)) };
}
