//! The fields of a PrivateKeyUsagePeriod.
//!
//! Made by tools/asn1 from extension.asn1.

ghost use Rattle.std.proofs.Common.{false};
ghost use Rattle.std.specs.Prelude.{◌∷◌, []};
ghost use Rattle.der_extensions.specs.Extension.PrivateKeyUsagePeriod as fields_of;
ghost use Rattle.der_fields.specs.MarkerTags.{marker_tag, marker_tag-in_range};
ghost use Rattle.der_places.specs.Layout.{implicit, no_more, optional};
ghost use Rattle.der_places.specs.LayoutLaws.{first_of, is_encoding, maybe};
ghost use Rattle.der_tlv.specs.declared.encoding_rules.EncodingRules.TheVariants.{Der};

use crate::place::Place;
use crate::placed::Placed;
use crate::presence::is_some;
use crate::walk::next_place;
use der_elem::Form;
use der_extensions::extension::PrivateKeyUsagePeriod;
use der_fields::Implicit;
use der_time::GeneralizedTime;

/// Byte ranges of the fields of a `PrivateKeyUsagePeriod`.
#[repr(C)]
#[derive(Clone, Copy, Debug, PartialEq, Eq)]
pub struct PrivateKeyUsagePeriodPlaces {
    /// `notBefore`, `[0] GeneralizedTime OPTIONAL`; empty if it is absent.
    pub not_before: Place,
    /// `notAfter`, `[1] GeneralizedTime OPTIONAL`; empty if it is absent.
    pub not_after: Place,
}

impl Placed for PrivateKeyUsagePeriod {
    type Places = PrivateKeyUsagePeriodPlaces;

    ghost listed = { λ p. p.not_before ∷ p.not_after ∷ [] };

    ghost layout = { λ v.
        optional (λ x. ⟦<Implicit<GeneralizedTime, 0> as Form>⟧.accepts Der (implicit x)) (fields_of.not_before v)
        (optional (λ x. ⟦<Implicit<GeneralizedTime, 1> as Form>⟧.accepts Der (implicit x)) (fields_of.not_after v)
        no_more) };

    fn walk(&self, octets: &[u8], start: Place) -> PrivateKeyUsagePeriodPlaces {
        let not_before = next_place(octets, start, is_some(self.not_before()));
        let not_after = next_place(octets, not_before, is_some(self.not_after()));
        PrivateKeyUsagePeriodPlaces {
            not_before,
            not_after,
        }
    }

    ghost are_fields = { λ v c a.
        let field1 = a in
        let field2 = field1.rest in
        (first_of field1 (maybe (λ x. x.value) (⟦<Implicit<GeneralizedTime, 0> as Form>⟧.accepts Der) (λ x. ⟦<Implicit<GeneralizedTime, 0> as Form>⟧.accepts Der (implicit x)) (λ x o b. (is_encoding (marker_tag 2 false 0) (marker_tag-in_range 2 false 0) o b.0 b.1, b)) v.fields.list.first field1.front field1.first)
        (first_of field2 (maybe (λ x. x.value) (⟦<Implicit<GeneralizedTime, 1> as Form>⟧.accepts Der) (λ x. ⟦<Implicit<GeneralizedTime, 1> as Form>⟧.accepts Der (implicit x)) (λ x o b. (is_encoding (marker_tag 2 false 1) (marker_tag-in_range 2 false 1) o b.0 b.1, b)) v.fields.list.rest.first field2.front field2.first)
        field2.rest)) };
}
