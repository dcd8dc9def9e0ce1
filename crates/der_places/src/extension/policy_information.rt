//! The fields of a PolicyInformation.
//!
//! Made by tools/asn1 from extension.asn1.

ghost use Rattle.std.proofs.Common.{lit<};
ghost use Rattle.std.specs.Prelude.{◌∷◌, []};
ghost use Rattle.der_extensions.specs.Extension.PolicyInformation as fields_of;
ghost use Rattle.der_places.specs.Layout.{field, no_more, optional};
ghost use Rattle.der_places.specs.LayoutLaws.{first_of, is_encoding, perhaps};
ghost use Rattle.der_tlv.specs.declared.encoding_rules.EncodingRules.TheVariants.{Der};
ghost use Rattle.der_tlv.specs.declared.tag.Tag.TheVariants as tags;

use crate::place::Place;
use crate::placed::Placed;
use crate::presence::is_there;
use crate::walk::next_place;
use der_elem::Form;
use der_extensions::extension::{CertPolicyId, PolicyInformation, PolicyQualifierInfo};
use der_lists::{ListRef, NonEmptyRef};

/// Byte ranges of the fields of a `PolicyInformation`.
#[repr(C)]
#[derive(Clone, Copy, Debug, PartialEq, Eq)]
pub struct PolicyInformationPlaces {
    /// `policyIdentifier`, `CertPolicyId`.
    pub policy_identifier: Place,
    /// `policyQualifiers`, `SEQUENCE SIZE (1..MAX) OF PolicyQualifierInfo OPTIONAL`; empty if it is
    /// absent.
    pub policy_qualifiers: Place,
}

impl<'a> Placed for PolicyInformation<'a> {
    type Places = PolicyInformationPlaces;

    ghost listed = { λ p. p.policy_identifier ∷ p.policy_qualifiers ∷ [] };

    ghost layout = { λ v.
        field (⟦<CertPolicyId<'a> as Form>⟧.accepts Der (fields_of.policy_identifier v))
        (optional (⟦<NonEmptyRef<ListRef<'a, PolicyQualifierInfo<'a>>> as Form>⟧.accepts Der) (fields_of.policy_qualifiers v)
        no_more) };

    fn walk(&self, octets: &[u8], start: Place) -> PolicyInformationPlaces {
        let policy_identifier = next_place(octets, start, true);
        let policy_qualifiers = next_place(
            octets,
            policy_identifier,
            is_there(self.policy_qualifiers()),
        );
        PolicyInformationPlaces {
            policy_identifier,
            policy_qualifiers,
        }
    }

    ghost are_fields = { λ v c a.
        let field1 = a in
        let field2 = field1.rest in
        (first_of field1 (is_encoding tags.ObjectIdentifier (lit< tt) field1.front field1.first.0 field1.first.1, field1.first)
        (first_of field2 (perhaps (⟦<NonEmptyRef<ListRef<'a, PolicyQualifierInfo<'a>>> as Form>⟧.accepts Der) (λ x o b. is_encoding tags.Sequence (lit< tt) o b.0 b.1) v.fields.list.rest.first field2.front field2.first)
        field2.rest)) };
}
