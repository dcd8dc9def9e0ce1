//! The fields of a ValidationParms.
//!
//! Made by tools/asn1 from algorithm.asn1.

ghost use Rattle.std.proofs.Common.{lit<};
ghost use Rattle.std.specs.Prelude.{◌∷◌, []};
ghost use Rattle.der_pkcs.specs.Algorithm.ValidationParms as fields_of;
ghost use Rattle.der_places.specs.Layout.{field, no_more};
ghost use Rattle.der_places.specs.LayoutLaws.{first_of, is_encoding};
ghost use Rattle.der_tlv.specs.declared.encoding_rules.EncodingRules.TheVariants.{Der};
ghost use Rattle.der_tlv.specs.declared.tag.Tag.TheVariants as tags;

use crate::place::Place;
use crate::placed::Placed;
use crate::walk::next_place;
use der_bits::BitStringRef;
use der_elem::Form;
use der_numbers::UintRef;
use der_pkcs::algorithm::ValidationParms;

/// Byte ranges of the fields of a `ValidationParms`.
#[repr(C)]
#[derive(Clone, Copy, Debug, PartialEq, Eq)]
pub struct ValidationParmsPlaces {
    /// `seed`, `BIT STRING`.
    pub seed: Place,
    /// `pgenCounter`, `INTEGER (0..MAX)`.
    pub pgen_counter: Place,
}

impl<'a> Placed for ValidationParms<'a> {
    type Places = ValidationParmsPlaces;

    ghost listed = { λ p. p.seed ∷ p.pgen_counter ∷ [] };

    ghost layout = { λ v.
        field (⟦<BitStringRef<'a> as Form>⟧.accepts Der (fields_of.seed v))
        (field (⟦<UintRef<'a> as Form>⟧.accepts Der (fields_of.pgen_counter v))
        no_more) };

    fn walk(&self, octets: &[u8], start: Place) -> ValidationParmsPlaces {
        let seed = next_place(octets, start, true);
        let pgen_counter = next_place(octets, seed, true);
        ValidationParmsPlaces { seed, pgen_counter }
    }

    ghost are_fields = { λ v c a.
        let field1 = a in
        let field2 = field1.rest in
        (first_of field1 (is_encoding tags.BitString (lit< tt) field1.front field1.first.0 field1.first.1, field1.first)
        (first_of field2 (is_encoding tags.Integer (lit< tt) field2.front field2.first.0 field2.first.1, field2.first)
        field2.rest)) };
}
