//! The fields of a Dss-Parms.
//!
//! Made by tools/asn1 from algorithm.asn1.

ghost use Rattle.std.proofs.Common.{lit<};
ghost use Rattle.std.specs.Prelude.{◌∷◌, []};
ghost use Rattle.der_pkcs.specs.Algorithm.DssParms as fields_of;
ghost use Rattle.der_places.specs.Layout.{field, no_more};
ghost use Rattle.der_places.specs.LayoutLaws.{first_of, is_encoding};
ghost use Rattle.der_tlv.specs.declared.encoding_rules.EncodingRules.TheVariants.{Der};
ghost use Rattle.der_tlv.specs.declared.tag.Tag.TheVariants as tags;

use crate::place::Place;
use crate::placed::Placed;
use crate::walk::next_place;
use der_elem::Form;
use der_numbers::UintRef;
use der_pkcs::algorithm::DssParms;

/// Byte ranges of the fields of a `Dss-Parms`.
#[repr(C)]
#[derive(Clone, Copy, Debug, PartialEq, Eq)]
pub struct DssParmsPlaces {
    /// `p`, `INTEGER (0..MAX)`.
    pub p: Place,
    /// `q`, `INTEGER (0..MAX)`.
    pub q: Place,
    /// `g`, `INTEGER (0..MAX)`.
    pub g: Place,
}

impl<'a> Placed for DssParms<'a> {
    type Places = DssParmsPlaces;

    ghost listed = { λ p. p.p ∷ p.q ∷ p.g ∷ [] };

    ghost layout = { λ v.
        field (⟦<UintRef<'a> as Form>⟧.accepts Der (fields_of.p v))
        (field (⟦<UintRef<'a> as Form>⟧.accepts Der (fields_of.q v))
        (field (⟦<UintRef<'a> as Form>⟧.accepts Der (fields_of.g v))
        no_more)) };

    fn walk(&self, octets: &[u8], start: Place) -> DssParmsPlaces {
        let p = next_place(octets, start, true);
        let q = next_place(octets, p, true);
        let g = next_place(octets, q, true);
        DssParmsPlaces { p, q, g }
    }

    ghost are_fields = { λ v c a.
        let field1 = a in
        let field2 = field1.rest in
        let field3 = field2.rest in
        (first_of field1 (is_encoding tags.Integer (lit< tt) field1.front field1.first.0 field1.first.1, field1.first)
        (first_of field2 (is_encoding tags.Integer (lit< tt) field2.front field2.first.0 field2.first.1, field2.first)
        (first_of field3 (is_encoding tags.Integer (lit< tt) field3.front field3.first.0 field3.first.1, field3.first)
        field3.rest))) };
}
