//! The fields of an OtherPrimeInfo.
//!
//! Made by tools/asn1 from key.asn1.

ghost use Rattle.std.proofs.Common.{lit<};
ghost use Rattle.std.specs.Prelude.{◌∷◌, []};
ghost use Rattle.der_pkix.specs.Key.OtherPrimeInfo as fields_of;
ghost use Rattle.der_places.specs.Layout.{field, no_more};
ghost use Rattle.der_places.specs.LayoutLaws.{first_of, is_encoding};
ghost use Rattle.der_tlv.specs.declared.encoding_rules.EncodingRules.TheVariants.{Der};
ghost use Rattle.der_tlv.specs.declared.tag.Tag.TheVariants as tags;

use crate::place::Place;
use crate::placed::Placed;
use crate::walk::next_place;
use der_elem::Form;
use der_numbers::UintRef;
use der_pkix::key::OtherPrimeInfo;

/// Byte ranges of the fields of an `OtherPrimeInfo`.
#[repr(C)]
#[derive(Clone, Copy, Debug, PartialEq, Eq)]
pub struct OtherPrimeInfoPlaces {
    /// `prime`, `INTEGER (0..MAX)`.
    pub prime: Place,
    /// `exponent`, `INTEGER (0..MAX)`.
    pub exponent: Place,
    /// `coefficient`, `INTEGER (0..MAX)`.
    pub coefficient: Place,
}

impl<'a> Placed for OtherPrimeInfo<'a> {
    type Places = OtherPrimeInfoPlaces;

    ghost listed = { λ p. p.prime ∷ p.exponent ∷ p.coefficient ∷ [] };

    ghost layout = { λ v.
        field (⟦<UintRef<'a> as Form>⟧.accepts Der (fields_of.prime v))
        (field (⟦<UintRef<'a> as Form>⟧.accepts Der (fields_of.exponent v))
        (field (⟦<UintRef<'a> as Form>⟧.accepts Der (fields_of.coefficient v))
        no_more)) };

    fn walk(&self, octets: &[u8], start: Place) -> OtherPrimeInfoPlaces {
        let prime = next_place(octets, start, true);
        let exponent = next_place(octets, prime, true);
        let coefficient = next_place(octets, exponent, true);
        OtherPrimeInfoPlaces {
            prime,
            exponent,
            coefficient,
        }
    }

    ghost are_fields = { λ v c a.
        let field1 = a in
        let field2 = field1.rest in
        let field3 = field2.rest in
        (first_of field1 (is_encoding tags.Integer (lit< tt) field1.front field1.first.0 field1.first.1, field1.first)
        (first_of field2 (is_encoding tags.Integer (lit< tt) field2.front field2.first.0 field2.first.1, field2.first)
        (first_of field3 (is_encoding tags.Integer (lit< tt) field3.front field3.first.0 field3.first.1, field3.first)
        field3.rest))) };
}
