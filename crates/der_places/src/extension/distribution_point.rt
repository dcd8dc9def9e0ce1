//! The fields of a DistributionPoint.
//!
//! Made by tools/asn1 from extension.asn1.

ghost use Rattle.std.proofs.Common.{false, true};
ghost use Rattle.std.specs.Prelude.{◌∷◌, []};
ghost use Rattle.der_extensions.specs.Extension.DistributionPoint as fields_of;
ghost use Rattle.der_fields.specs.MarkerTags.{marker_tag, marker_tag-in_range};
ghost use Rattle.der_places.specs.Layout.{explicit, implicit, no_more, optional};
ghost use Rattle.der_places.specs.LayoutLaws.{first_of, is_encoding, maybe};
ghost use Rattle.der_tlv.specs.declared.encoding_rules.EncodingRules.TheVariants.{Der};

use crate::place::Place;
use crate::placed::Placed;
use crate::presence::is_there;
use crate::walk::next_place;
use der_elem::Form;
use der_extensions::extension::{
    DistributionPoint, DistributionPointName, GeneralNames, ReasonFlags,
};
use der_fields::{Explicit, Implicit};

/// Byte ranges of the fields of a `DistributionPoint`.
#[repr(C)]
#[derive(Clone, Copy, Debug, PartialEq, Eq)]
pub struct DistributionPointPlaces {
    /// `distributionPoint`, `[0] DistributionPointName OPTIONAL`; empty if it is absent.
    pub distribution_point: Place,
    /// `reasons`, `[1] ReasonFlags OPTIONAL`; empty if it is absent.
    pub reasons: Place,
    /// `cRLIssuer`, `[2] GeneralNames OPTIONAL`; empty if it is absent.
    pub crl_issuer: Place,
}

impl<'a> Placed for DistributionPoint<'a> {
    type Places = DistributionPointPlaces;

    ghost listed = { λ p. p.distribution_point ∷ p.reasons ∷ p.crl_issuer ∷ [] };

    ghost layout = { λ v.
        optional (λ x. ⟦<Explicit<DistributionPointName<'a>, 0> as Form>⟧.accepts Der (explicit x)) (fields_of.distribution_point v)
        (optional (λ x. ⟦<Implicit<ReasonFlags<'a>, 1> as Form>⟧.accepts Der (implicit x)) (fields_of.reasons v)
        (optional (λ x. ⟦<Implicit<GeneralNames<'a>, 2> as Form>⟧.accepts Der (implicit x)) (fields_of.crl_issuer v)
        no_more)) };

    fn walk(&self, octets: &[u8], start: Place) -> DistributionPointPlaces {
        let distribution_point = next_place(octets, start, is_there(self.distribution_point()));
        let reasons = next_place(octets, distribution_point, is_there(self.reasons()));
        let crl_issuer = next_place(octets, reasons, is_there(self.crl_issuer()));
        DistributionPointPlaces {
            distribution_point,
            reasons,
            crl_issuer,
        }
    }

    ghost are_fields = { λ v c a.
        let field1 = a in
        let field2 = field1.rest in
        let field3 = field2.rest in
        (first_of field1 (maybe (λ x. x.fields.first) (⟦<Explicit<DistributionPointName<'a>, 0> as Form>⟧.accepts Der) (λ x. ⟦<Explicit<DistributionPointName<'a>, 0> as Form>⟧.accepts Der (explicit x)) (λ x o b. (is_encoding (marker_tag 2 true 0) (marker_tag-in_range 2 true 0) o b.0 b.1, b)) v.fields.list.first field1.front field1.first)
        (first_of field2 (maybe (λ x. x.value) (⟦<Implicit<ReasonFlags<'a>, 1> as Form>⟧.accepts Der) (λ x. ⟦<Implicit<ReasonFlags<'a>, 1> as Form>⟧.accepts Der (implicit x)) (λ x o b. (is_encoding (marker_tag 2 false 1) (marker_tag-in_range 2 false 1) o b.0 b.1, b)) v.fields.list.rest.first field2.front field2.first)
        (first_of field3 (maybe (λ x. x.value) (⟦<Implicit<GeneralNames<'a>, 2> as Form>⟧.accepts Der) (λ x. ⟦<Implicit<GeneralNames<'a>, 2> as Form>⟧.accepts Der (implicit x)) (λ x o b. (is_encoding (marker_tag 2 true 2) (marker_tag-in_range 2 true 2) o b.0 b.1, b)) v.fields.list.rest.rest.first field3.front field3.first)
        field3.rest))) };
}
