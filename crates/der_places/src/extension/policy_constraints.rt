//! The fields of a PolicyConstraints.
//!
//! Made by tools/asn1 from extension.asn1.

ghost use Rattle.std.proofs.Common.{false};
ghost use Rattle.std.specs.Prelude.{◌∷◌, []};
ghost use Rattle.der_extensions.specs.Extension.PolicyConstraints as fields_of;
ghost use Rattle.der_fields.specs.MarkerTags.{marker_tag, marker_tag-in_range};
ghost use Rattle.der_places.specs.Layout.{implicit, no_more, optional};
ghost use Rattle.der_places.specs.LayoutLaws.{first_of, is_encoding, maybe};
ghost use Rattle.der_tlv.specs.declared.encoding_rules.EncodingRules.TheVariants.{Der};

use crate::place::Place;
use crate::placed::Placed;
use crate::presence::is_there;
use crate::walk::next_place;
use der_elem::Form;
use der_extensions::extension::{PolicyConstraints, SkipCerts};
use der_fields::Implicit;

/// Byte ranges of the fields of a `PolicyConstraints`.
#[repr(C)]
#[derive(Clone, Copy, Debug, PartialEq, Eq)]
pub struct PolicyConstraintsPlaces {
    /// `requireExplicitPolicy`, `[0] SkipCerts OPTIONAL`; empty if it is absent.
    pub require_explicit_policy: Place,
    /// `inhibitPolicyMapping`, `[1] SkipCerts OPTIONAL`; empty if it is absent.
    pub inhibit_policy_mapping: Place,
}

impl<'a> Placed for PolicyConstraints<'a> {
    type Places = PolicyConstraintsPlaces;

    ghost listed = { λ p. p.require_explicit_policy ∷ p.inhibit_policy_mapping ∷ [] };

    ghost layout = { λ v.
        optional (λ x. ⟦<Implicit<SkipCerts<'a>, 0> as Form>⟧.accepts Der (implicit x)) (fields_of.require_explicit_policy v)
        (optional (λ x. ⟦<Implicit<SkipCerts<'a>, 1> as Form>⟧.accepts Der (implicit x)) (fields_of.inhibit_policy_mapping v)
        no_more) };

    fn walk(&self, octets: &[u8], start: Place) -> PolicyConstraintsPlaces {
        let require_explicit_policy = next_place(
            octets,
            start,
            is_there(self.require_explicit_policy()),
        );
        let inhibit_policy_mapping = next_place(
            octets,
            require_explicit_policy,
            is_there(self.inhibit_policy_mapping()),
        );
        PolicyConstraintsPlaces {
            require_explicit_policy,
            inhibit_policy_mapping,
        }
    }

    ghost are_fields = { λ v c a.
        let field1 = a in
        let field2 = field1.rest in
        (first_of field1 (maybe (λ x. x.value) (⟦<Implicit<SkipCerts<'a>, 0> as Form>⟧.accepts Der) (λ x. ⟦<Implicit<SkipCerts<'a>, 0> as Form>⟧.accepts Der (implicit x)) (λ x o b. (is_encoding (marker_tag 2 false 0) (marker_tag-in_range 2 false 0) o b.0 b.1, b)) v.fields.list.first field1.front field1.first)
        (first_of field2 (maybe (λ x. x.value) (⟦<Implicit<SkipCerts<'a>, 1> as Form>⟧.accepts Der) (λ x. ⟦<Implicit<SkipCerts<'a>, 1> as Form>⟧.accepts Der (implicit x)) (λ x o b. (is_encoding (marker_tag 2 false 1) (marker_tag-in_range 2 false 1) o b.0 b.1, b)) v.fields.list.rest.first field2.front field2.first)
        field2.rest)) };
}
