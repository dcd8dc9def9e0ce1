//! The fields of a PolicyQualifierInfo.
//!
//! Made by tools/asn1 from extension.asn1.

ghost use Rattle.std.proofs.Common.{lit<};
ghost use Rattle.std.specs.Prelude.{◌∷◌, []};
ghost use Rattle.der_extensions.specs.Extension.PolicyQualifierInfo as fields_of;
ghost use Rattle.der_places.specs.Layout.{field, no_more};
ghost use Rattle.der_places.specs.LayoutLaws.{first_of, is_encoding};
ghost use Rattle.der_tlv.specs.declared.encoding_rules.EncodingRules.TheVariants.{Der};
ghost use Rattle.der_tlv.specs.declared.tag.Tag.TheVariants as tags;

use crate::place::Place;
use crate::placed::Placed;
use crate::walk::next_place;
use der_elem::Form;
use der_extensions::extension::{PolicyQualifierId, PolicyQualifierInfo};
use der_opaque::AnyRef;

/// Byte ranges of the fields of a `PolicyQualifierInfo`.
#[repr(C)]
#[derive(Clone, Copy, Debug, PartialEq, Eq)]
pub struct PolicyQualifierInfoPlaces {
    /// `policyQualifierId`, `PolicyQualifierId`.
    pub policy_qualifier_id: Place,
    /// `qualifier`, `ANY DEFINED BY policyQualifierId`.
    pub qualifier: Place,
}

impl<'a> Placed for PolicyQualifierInfo<'a> {
    type Places = PolicyQualifierInfoPlaces;

    ghost listed = { λ p. p.policy_qualifier_id ∷ p.qualifier ∷ [] };

    ghost layout = { λ v.
        field (⟦<PolicyQualifierId<'a> as Form>⟧.accepts Der (fields_of.policy_qualifier_id v))
        (field (⟦<AnyRef<'a> as Form>⟧.accepts Der (fields_of.qualifier v))
        no_more) };

    fn walk(&self, octets: &[u8], start: Place) -> PolicyQualifierInfoPlaces {
        let policy_qualifier_id = next_place(octets, start, true);
        let qualifier = next_place(octets, policy_qualifier_id, true);
        PolicyQualifierInfoPlaces {
            policy_qualifier_id,
            qualifier,
        }
    }

    ghost are_fields = { λ v c a.
        let field1 = a in
        let field2 = field1.rest in
        (first_of field1 (is_encoding tags.ObjectIdentifier (lit< tt) field1.front field1.first.0 field1.first.1, field1.first)
        (first_of field2 (is_encoding _ field2.first.0 field2.front _ field2.first.1, field2.first)
        field2.rest)) };
}
