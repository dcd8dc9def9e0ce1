//! The fields of a NameConstraints.
//!
//! Made by tools/asn1 from extension.asn1.

ghost use Rattle.std.proofs.Common.{true};
ghost use Rattle.std.specs.Prelude.{◌∷◌, []};
ghost use Rattle.der_extensions.specs.Extension.NameConstraints as fields_of;
ghost use Rattle.der_fields.specs.MarkerTags.{marker_tag, marker_tag-in_range};
ghost use Rattle.der_places.specs.Layout.{implicit, no_more, optional};
ghost use Rattle.der_places.specs.LayoutLaws.{first_of, is_encoding, maybe};
ghost use Rattle.der_tlv.specs.declared.encoding_rules.EncodingRules.TheVariants.{Der};

use crate::place::Place;
use crate::placed::Placed;
use crate::presence::is_there;
use crate::walk::next_place;
use der_elem::Form;
use der_extensions::extension::{GeneralSubtrees, NameConstraints};
use der_fields::Implicit;

/// Byte ranges of the fields of a `NameConstraints`.
#[repr(C)]
#[derive(Clone, Copy, Debug, PartialEq, Eq)]
pub struct NameConstraintsPlaces {
    /// `permittedSubtrees`, `[0] GeneralSubtrees OPTIONAL`; empty if it is absent.
    pub permitted_subtrees: Place,
    /// `excludedSubtrees`, `[1] GeneralSubtrees OPTIONAL`; empty if it is absent.
    pub excluded_subtrees: Place,
}

impl<'a> Placed for NameConstraints<'a> {
    type Places = NameConstraintsPlaces;

    ghost listed = { λ p. p.permitted_subtrees ∷ p.excluded_subtrees ∷ [] };

    ghost layout = { λ v.
        optional (λ x. ⟦<Implicit<GeneralSubtrees<'a>, 0> as Form>⟧.accepts Der (implicit x)) (fields_of.permitted_subtrees v)
        (optional (λ x. ⟦<Implicit<GeneralSubtrees<'a>, 1> as Form>⟧.accepts Der (implicit x)) (fields_of.excluded_subtrees v)
        no_more) };

    fn walk(&self, octets: &[u8], start: Place) -> NameConstraintsPlaces {
        let permitted_subtrees = next_place(octets, start, is_there(self.permitted_subtrees()));
        let excluded_subtrees = next_place(
            octets,
            permitted_subtrees,
            is_there(self.excluded_subtrees()),
        );
        NameConstraintsPlaces {
            permitted_subtrees,
            excluded_subtrees,
        }
    }

    ghost are_fields = { λ v c a.
        let field1 = a in
        let field2 = field1.rest in
        (first_of field1 (maybe (λ x. x.value) (⟦<Implicit<GeneralSubtrees<'a>, 0> as Form>⟧.accepts Der) (λ x. ⟦<Implicit<GeneralSubtrees<'a>, 0> as Form>⟧.accepts Der (implicit x)) (λ x o b. (is_encoding (marker_tag 2 true 0) (marker_tag-in_range 2 true 0) o b.0 b.1, b)) v.fields.list.first field1.front field1.first)
        (first_of field2 (maybe (λ x. x.value) (⟦<Implicit<GeneralSubtrees<'a>, 1> as Form>⟧.accepts Der) (λ x. ⟦<Implicit<GeneralSubtrees<'a>, 1> as Form>⟧.accepts Der (implicit x)) (λ x o b. (is_encoding (marker_tag 2 true 1) (marker_tag-in_range 2 true 1) o b.0 b.1, b)) v.fields.list.rest.first field2.front field2.first)
        field2.rest)) };
}
