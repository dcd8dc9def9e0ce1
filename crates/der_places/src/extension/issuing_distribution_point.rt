//! The fields of an IssuingDistributionPoint.
//!
//! Made by tools/asn1 from extension.asn1.

ghost use Rattle.std.proofs.Common.{false, true};
ghost use Rattle.std.specs.Prelude.{◌∷◌, []};
ghost use Rattle.der_extensions.specs.Extension.IssuingDistributionPoint as fields_of;
ghost use Rattle.der_fields.specs.Defaults.{is_default};
ghost use Rattle.der_fields.specs.MarkerTags.{marker_tag, marker_tag-in_range};
ghost use Rattle.der_places.specs.Layout.{explicit, implicit, no_more, optional, unless};
ghost use Rattle.der_places.specs.LayoutLaws.{besides, first_of, is_encoding, maybe};
ghost use Rattle.der_tlv.specs.declared.encoding_rules.EncodingRules.TheVariants.{Der};

use crate::place::Place;
use crate::placed::Placed;
use crate::presence::is_there;
use crate::walk::next_place;
use der_elem::Form;
use der_extensions::extension::{DistributionPointName, IssuingDistributionPoint, ReasonFlags};
use der_fields::{DefaultFalse, DefaultOf, Explicit, Implicit};

/// Byte ranges of the fields of an `IssuingDistributionPoint`.
#[repr(C)]
#[derive(Clone, Copy, Debug, PartialEq, Eq)]
pub struct IssuingDistributionPointPlaces {
    /// `distributionPoint`, `[0] DistributionPointName OPTIONAL`; empty if it is absent.
    pub distribution_point: Place,
    /// `onlyContainsUserCerts`, `[1] BOOLEAN DEFAULT FALSE`; empty if it has its default.
    pub only_contains_user_certs: Place,
    /// `onlyContainsCACerts`, `[2] BOOLEAN DEFAULT FALSE`; empty if it has its default.
    pub only_contains_ca_certs: Place,
    /// `onlySomeReasons`, `[3] ReasonFlags OPTIONAL`; empty if it is absent.
    pub only_some_reasons: Place,
    /// `indirectCRL`, `[4] BOOLEAN DEFAULT FALSE`; empty if it has its default.
    pub indirect_crl: Place,
    /// `onlyContainsAttributeCerts`, `[5] BOOLEAN DEFAULT FALSE`; empty if it has its default.
    pub only_contains_attribute_certs: Place,
}

impl<'a> Placed for IssuingDistributionPoint<'a> {
    type Places = IssuingDistributionPointPlaces;

    ghost listed = { λ p. p.distribution_point ∷ p.only_contains_user_certs ∷ p.only_contains_ca_certs ∷ p.only_some_reasons ∷ p.indirect_crl ∷ p.only_contains_attribute_certs ∷ [] };

    ghost layout = { λ v.
        optional (λ x. ⟦<Explicit<DistributionPointName<'a>, 0> as Form>⟧.accepts Der (explicit x)) (fields_of.distribution_point v)
        (unless (is_default ⟦<DefaultFalse as DefaultOf<Implicit<bool, 1>>>⟧.octets (⟦<Implicit<bool, 1> as Form>⟧.encoding (implicit (fields_of.only_contains_user_certs v)))) (⟦<Implicit<bool, 1> as Form>⟧.accepts Der (implicit (fields_of.only_contains_user_certs v)))
        (unless (is_default ⟦<DefaultFalse as DefaultOf<Implicit<bool, 2>>>⟧.octets (⟦<Implicit<bool, 2> as Form>⟧.encoding (implicit (fields_of.only_contains_ca_certs v)))) (⟦<Implicit<bool, 2> as Form>⟧.accepts Der (implicit (fields_of.only_contains_ca_certs v)))
        (optional (λ x. ⟦<Implicit<ReasonFlags<'a>, 3> as Form>⟧.accepts Der (implicit x)) (fields_of.only_some_reasons v)
        (unless (is_default ⟦<DefaultFalse as DefaultOf<Implicit<bool, 4>>>⟧.octets (⟦<Implicit<bool, 4> as Form>⟧.encoding (implicit (fields_of.indirect_crl v)))) (⟦<Implicit<bool, 4> as Form>⟧.accepts Der (implicit (fields_of.indirect_crl v)))
        (unless (is_default ⟦<DefaultFalse as DefaultOf<Implicit<bool, 5>>>⟧.octets (⟦<Implicit<bool, 5> as Form>⟧.encoding (implicit (fields_of.only_contains_attribute_certs v)))) (⟦<Implicit<bool, 5> as Form>⟧.accepts Der (implicit (fields_of.only_contains_attribute_certs v)))
        no_more))))) };

    fn walk(&self, octets: &[u8], start: Place) -> IssuingDistributionPointPlaces {
        let distribution_point = next_place(octets, start, is_there(self.distribution_point()));
        let value = self.only_contains_user_certs();
        let tagged: Implicit<bool, 1> = Implicit { value };
        let is_default = <DefaultFalse as DefaultOf<Implicit<bool, 1>>>::is_default(&tagged);
        let only_contains_user_certs = next_place(octets, distribution_point, !is_default);
        let value = self.only_contains_ca_certs();
        let tagged: Implicit<bool, 2> = Implicit { value };
        let is_default = <DefaultFalse as DefaultOf<Implicit<bool, 2>>>::is_default(&tagged);
        let only_contains_ca_certs = next_place(octets, only_contains_user_certs, !is_default);
        let only_some_reasons = next_place(
            octets,
            only_contains_ca_certs,
            is_there(self.only_some_reasons()),
        );
        let value = self.indirect_crl();
        let tagged: Implicit<bool, 4> = Implicit { value };
        let is_default = <DefaultFalse as DefaultOf<Implicit<bool, 4>>>::is_default(&tagged);
        let indirect_crl = next_place(octets, only_some_reasons, !is_default);
        let value = self.only_contains_attribute_certs();
        let tagged: Implicit<bool, 5> = Implicit { value };
        let is_default = <DefaultFalse as DefaultOf<Implicit<bool, 5>>>::is_default(&tagged);
        let only_contains_attribute_certs = next_place(octets, indirect_crl, !is_default);
        IssuingDistributionPointPlaces {
            distribution_point,
            only_contains_user_certs,
            only_contains_ca_certs,
            only_some_reasons,
            indirect_crl,
            only_contains_attribute_certs,
        }
    }

    ghost are_fields = { λ v c a.
        let field1 = a in
        let field2 = field1.rest in
        let field3 = field2.rest in
        let field4 = field3.rest in
        let field5 = field4.rest in
        let field6 = field5.rest in
        (first_of field1 (maybe (λ x. x.fields.first) (⟦<Explicit<DistributionPointName<'a>, 0> as Form>⟧.accepts Der) (λ x. ⟦<Explicit<DistributionPointName<'a>, 0> as Form>⟧.accepts Der (explicit x)) (λ x o b. (is_encoding (marker_tag 2 true 0) (marker_tag-in_range 2 true 0) o b.0 b.1, b)) v.fields.list.first field1.front field1.first)
        (first_of field2 (besides (is_default ⟦<DefaultFalse as DefaultOf<Implicit<bool, 1>>>⟧.octets (⟦<Implicit<bool, 1> as Form>⟧.encoding (implicit (fields_of.only_contains_user_certs v)))) (⟦<Implicit<bool, 1> as Form>⟧.readable (implicit (fields_of.only_contains_user_certs v))) (⟦<Implicit<bool, 1> as Form>⟧.accepts Der (implicit (fields_of.only_contains_user_certs v))) (λ o b. is_encoding (marker_tag 2 false 1) (marker_tag-in_range 2 false 1) o b.0 b.1) field2.front field2.first)
        (first_of field3 (besides (is_default ⟦<DefaultFalse as DefaultOf<Implicit<bool, 2>>>⟧.octets (⟦<Implicit<bool, 2> as Form>⟧.encoding (implicit (fields_of.only_contains_ca_certs v)))) (⟦<Implicit<bool, 2> as Form>⟧.readable (implicit (fields_of.only_contains_ca_certs v))) (⟦<Implicit<bool, 2> as Form>⟧.accepts Der (implicit (fields_of.only_contains_ca_certs v))) (λ o b. is_encoding (marker_tag 2 false 2) (marker_tag-in_range 2 false 2) o b.0 b.1) field3.front field3.first)
        (first_of field4 (maybe (λ x. x.value) (⟦<Implicit<ReasonFlags<'a>, 3> as Form>⟧.accepts Der) (λ x. ⟦<Implicit<ReasonFlags<'a>, 3> as Form>⟧.accepts Der (implicit x)) (λ x o b. (is_encoding (marker_tag 2 false 3) (marker_tag-in_range 2 false 3) o b.0 b.1, b)) v.fields.list.rest.rest.rest.first field4.front field4.first)
        (first_of field5 (besides (is_default ⟦<DefaultFalse as DefaultOf<Implicit<bool, 4>>>⟧.octets (⟦<Implicit<bool, 4> as Form>⟧.encoding (implicit (fields_of.indirect_crl v)))) (⟦<Implicit<bool, 4> as Form>⟧.readable (implicit (fields_of.indirect_crl v))) (⟦<Implicit<bool, 4> as Form>⟧.accepts Der (implicit (fields_of.indirect_crl v))) (λ o b. is_encoding (marker_tag 2 false 4) (marker_tag-in_range 2 false 4) o b.0 b.1) field5.front field5.first)
        (first_of field6 (besides (is_default ⟦<DefaultFalse as DefaultOf<Implicit<bool, 5>>>⟧.octets (⟦<Implicit<bool, 5> as Form>⟧.encoding (implicit (fields_of.only_contains_attribute_certs v)))) (⟦<Implicit<bool, 5> as Form>⟧.readable (implicit (fields_of.only_contains_attribute_certs v))) (⟦<Implicit<bool, 5> as Form>⟧.accepts Der (implicit (fields_of.only_contains_attribute_certs v))) (λ o b. is_encoding (marker_tag 2 false 5) (marker_tag-in_range 2 false 5) o b.0 b.1) field6.front field6.first)
        field6.rest)))))) };
}
