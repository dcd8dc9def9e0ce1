//! The fields of a RSAPublicKey.
//!
//! Made by tools/asn1 from key.asn1.

ghost use Rattle.std.proofs.Common.{lit<};
ghost use Rattle.std.specs.Prelude.{◌∷◌, []};
ghost use Rattle.der_pkix.specs.Key.RsaPublicKey as fields_of;
ghost use Rattle.der_places.specs.Layout.{field, no_more};
ghost use Rattle.der_places.specs.LayoutLaws.{first_of, is_encoding};
ghost use Rattle.der_tlv.specs.declared.encoding_rules.EncodingRules.TheVariants.{Der};
ghost use Rattle.der_tlv.specs.declared.tag.Tag.TheVariants as tags;

use crate::place::Place;
use crate::placed::Placed;
use crate::walk::next_place;
use der_elem::Form;
use der_numbers::UintRef;
use der_pkix::key::RsaPublicKey;

/// Byte ranges of the fields of a `RSAPublicKey`.
#[repr(C)]
#[derive(Clone, Copy, Debug, PartialEq, Eq)]
pub struct RsaPublicKeyPlaces {
    /// `modulus`, `INTEGER (0..MAX)`.
    pub modulus: Place,
    /// `publicExponent`, `INTEGER (0..MAX)`.
    pub public_exponent: Place,
}

impl<'a> Placed for RsaPublicKey<'a> {
    type Places = RsaPublicKeyPlaces;

    ghost listed = { λ p. p.modulus ∷ p.public_exponent ∷ [] };

    ghost layout = { λ v.
        field (⟦<UintRef<'a> as Form>⟧.accepts Der (fields_of.modulus v))
        (field (⟦<UintRef<'a> as Form>⟧.accepts Der (fields_of.public_exponent v))
        no_more) };

    fn walk(&self, octets: &[u8], start: Place) -> RsaPublicKeyPlaces {
        let modulus = next_place(octets, start, true);
        let public_exponent = next_place(octets, modulus, true);
        RsaPublicKeyPlaces {
            modulus,
            public_exponent,
        }
    }

    ghost are_fields = { λ v c a.
        let field1 = a in
        let field2 = field1.rest in
        (first_of field1 (is_encoding tags.Integer (lit< tt) field1.front field1.first.0 field1.first.1, field1.first)
        (first_of field2 (is_encoding tags.Integer (lit< tt) field2.front field2.first.0 field2.first.1, field2.first)
        field2.rest)) };
}
