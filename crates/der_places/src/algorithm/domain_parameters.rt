//! The fields of a DomainParameters.
//!
//! Made by tools/asn1 from algorithm.asn1.

ghost use Rattle.std.proofs.Common.{lit<};
ghost use Rattle.std.specs.Prelude.{◌∷◌, []};
ghost use Rattle.der_pkcs.specs.Algorithm.DomainParameters as fields_of;
ghost use Rattle.der_places.specs.Layout.{field, no_more, optional};
ghost use Rattle.der_places.specs.LayoutLaws.{first_of, is_encoding, perhaps};
ghost use Rattle.der_tlv.specs.declared.encoding_rules.EncodingRules.TheVariants.{Der};
ghost use Rattle.der_tlv.specs.declared.tag.Tag.TheVariants as tags;

use crate::place::Place;
use crate::placed::Placed;
use crate::presence::is_there;
use crate::walk::next_place;
use der_elem::Form;
use der_numbers::UintRef;
use der_pkcs::algorithm::{DomainParameters, ValidationParms};

/// Byte ranges of the fields of a `DomainParameters`.
#[repr(C)]
#[derive(Clone, Copy, Debug, PartialEq, Eq)]
pub struct DomainParametersPlaces {
    /// `p`, `INTEGER (0..MAX)`.
    pub p: Place,
    /// `g`, `INTEGER (0..MAX)`.
    pub g: Place,
    /// `q`, `INTEGER (0..MAX)`.
    pub q: Place,
    /// `j`, `INTEGER (0..MAX) OPTIONAL`; empty if it is absent.
    pub j: Place,
    /// `validationParms`, `ValidationParms OPTIONAL`; empty if it is absent.
    pub validation_parms: Place,
}

impl<'a> Placed for DomainParameters<'a> {
    type Places = DomainParametersPlaces;

    ghost listed = { λ p. p.p ∷ p.g ∷ p.q ∷ p.j ∷ p.validation_parms ∷ [] };

    ghost layout = { λ v.
        field (⟦<UintRef<'a> as Form>⟧.accepts Der (fields_of.p v))
        (field (⟦<UintRef<'a> as Form>⟧.accepts Der (fields_of.g v))
        (field (⟦<UintRef<'a> as Form>⟧.accepts Der (fields_of.q v))
        (optional (⟦<UintRef<'a> as Form>⟧.accepts Der) (fields_of.j v)
        (optional (⟦<ValidationParms<'a> as Form>⟧.accepts Der) (fields_of.validation_parms v)
        no_more)))) };

    fn walk(&self, octets: &[u8], start: Place) -> DomainParametersPlaces {
        let p = next_place(octets, start, true);
        let g = next_place(octets, p, true);
        let q = next_place(octets, g, true);
        let j = next_place(octets, q, is_there(self.j()));
        let validation_parms = next_place(octets, j, is_there(self.validation_parms()));
        DomainParametersPlaces {
            p,
            g,
            q,
            j,
            validation_parms,
        }
    }

    ghost are_fields = { λ v c a.
        let field1 = a in
        let field2 = field1.rest in
        let field3 = field2.rest in
        let field4 = field3.rest in
        let field5 = field4.rest in
        (first_of field1 (is_encoding tags.Integer (lit< tt) field1.front field1.first.0 field1.first.1, field1.first)
        (first_of field2 (is_encoding tags.Integer (lit< tt) field2.front field2.first.0 field2.first.1, field2.first)
        (first_of field3 (is_encoding tags.Integer (lit< tt) field3.front field3.first.0 field3.first.1, field3.first)
        (first_of field4 (perhaps (⟦<UintRef<'a> as Form>⟧.accepts Der) (λ x o b. is_encoding tags.Integer (lit< tt) o b.0 b.1) v.fields.list.rest.rest.rest.first field4.front field4.first)
        (first_of field5 (perhaps (⟦<ValidationParms<'a> as Form>⟧.accepts Der) (λ x o b. is_encoding tags.Sequence (lit< tt) o b.0 b.1) v.fields.list.rest.rest.rest.rest.first field5.front field5.first)
        field5.rest))))) };
}
