//! The fields of an OriginatorInfo.
//!
//! Made by tools/asn1 from enveloped.asn1.

ghost use Rattle.std.proofs.Common.{true};
ghost use Rattle.std.specs.Prelude.{◌∷◌, []};
ghost use Rattle.der_enveloped.specs.Enveloped.OriginatorInfo as fields_of;
ghost use Rattle.der_fields.specs.MarkerTags.{marker_tag, marker_tag-in_range};
ghost use Rattle.der_places.specs.Layout.{implicit, no_more, optional};
ghost use Rattle.der_places.specs.LayoutLaws.{first_of, is_encoding, maybe};
ghost use Rattle.der_tlv.specs.declared.encoding_rules.EncodingRules.TheVariants.{Der};

use crate::place::Place;
use crate::placed::Placed;
use crate::presence::is_there;
use crate::walk::next_place;
use der_cms::cms::{CertificateSet, RevocationInfoChoices};
use der_elem::Form;
use der_enveloped::enveloped::OriginatorInfo;
use der_fields::Implicit;

/// Byte ranges of the fields of an `OriginatorInfo`.
#[repr(C)]
#[derive(Clone, Copy, Debug, PartialEq, Eq)]
pub struct OriginatorInfoPlaces {
    /// `certs`, `[0] IMPLICIT CertificateSet OPTIONAL`; empty if it is absent.
    pub certs: Place,
    /// `crls`, `[1] IMPLICIT RevocationInfoChoices OPTIONAL`; empty if it is absent.
    pub crls: Place,
}

impl<'a> Placed for OriginatorInfo<'a> {
    type Places = OriginatorInfoPlaces;

    ghost listed = { λ p. p.certs ∷ p.crls ∷ [] };

    ghost layout = { λ v.
        optional (λ x. ⟦<Implicit<CertificateSet<'a>, 0> as Form>⟧.accepts Der (implicit x)) (fields_of.certs v)
        (optional (λ x. ⟦<Implicit<RevocationInfoChoices<'a>, 1> as Form>⟧.accepts Der (implicit x)) (fields_of.crls v)
        no_more) };

    fn walk(&self, octets: &[u8], start: Place) -> OriginatorInfoPlaces {
        let certs = next_place(octets, start, is_there(self.certs()));
        let crls = next_place(octets, certs, is_there(self.crls()));
        OriginatorInfoPlaces { certs, crls }
    }

    ghost are_fields = { λ v c a.
        let field1 = a in
        let field2 = field1.rest in
        (first_of field1 (maybe (λ x. x.value) (⟦<Implicit<CertificateSet<'a>, 0> as Form>⟧.accepts Der) (λ x. ⟦<Implicit<CertificateSet<'a>, 0> as Form>⟧.accepts Der (implicit x)) (λ x o b. (is_encoding (marker_tag 2 true 0) (marker_tag-in_range 2 true 0) o b.0 b.1, b)) v.fields.list.first field1.front field1.first)
        (first_of field2 (maybe (λ x. x.value) (⟦<Implicit<RevocationInfoChoices<'a>, 1> as Form>⟧.accepts Der) (λ x. ⟦<Implicit<RevocationInfoChoices<'a>, 1> as Form>⟧.accepts Der (implicit x)) (λ x o b. (is_encoding (marker_tag 2 true 1) (marker_tag-in_range 2 true 1) o b.0 b.1, b)) v.fields.list.rest.first field2.front field2.first)
        field2.rest)) };
}
